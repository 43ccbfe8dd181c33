//! Laws of texts of any characters, each the contract of a function.
ghost use Rattle.std.specs.Prelude.{◌≡◌, ◌↔◌, ◌⊎◌, ◌<◌, ◌≤◌, ℕ, Bool, true, List, [], ◌∷◌, ◌++◌};
ghost use Rattle.std.specs.Prelude.{◌+◌, All, chars, encode_utf8, encode_utf8_all, length};
ghost use Rattle.std.specs.Prelude.{replicate, sum_by, take};
ghost use Rattle.std.specs.List.{flat_map, join_with_byte, slice_index_or};
ghost use Rattle.std.specs.Str.{IsUtf8};
ghost use Rattle.tabled_text.specs.Cut.{IsCut};
ghost use Rattle.tabled_text.specs.Longest.{IsLongestCut};
ghost use Rattle.tabled_text.specs.Measure.{char_columns, columns_of, count_of, line_columns};
ghost use Rattle.tabled_text.specs.Measure.{lines_of, text_columns};
ghost use Rattle.tabled_text.specs.Plain.{IsAdditive, IsAdditiveColumn, IsPlainColumn};
ghost use Rattle.tabled_text.specs.Room.{stays};
ghost use Rattle.tabled_text.specs.Wrapping.{IsWrapped};
ghost use Rattle.tabled_text.specs.Exact.{IsExactLine};
ghost use Rattle.tabled_text.specs.Fitting.{FitsIn};
ghost use Rattle.tabled_text.specs.FramedLines.{EndsApart, IsFrame, IsLine, IsSeparatorColumn};
ghost use Rattle.tabled_text.specs.FramedLines.{begins_apart, is_separator, meet};

/// A separator adds its own columns, whatever is before and after it. The columns of two texts that
/// `meet` add up. An additive character of one column is plain or a separator.
pub fn separators()
    ensures additive { (c : ℕ) → IsAdditiveColumn c ↔ (IsPlainColumn c ⊎ IsSeparatorColumn c) }
    ensures first { (c : ℕ) (back : List ℕ) → is_separator c ≡ true
        → columns_of (c ∷ back) ≡ char_columns c + columns_of back }
    ensures between { (c : ℕ) (front back : List ℕ) → is_separator c ≡ true
        → columns_of (front ++ c ∷ back) ≡ columns_of front + (char_columns c + columns_of back) }
    ensures meet { (front back : List ℕ) → meet front back ≡ true
        → columns_of (front ++ back) ≡ columns_of front + columns_of back }
{}

/// The columns of a line are at most the sum of its characters' counts.
pub fn count_is_bound()
    ensures { (line : List ℕ) → columns_of line ≤ count_of line }
{}

/// Lines whose characters' counts add up to their columns, as those of additive lines do. The same
/// holds for each beginning of such a line. Cut, such a line is its longest beginning that fits,
/// with U+FFFD in a column left over, and it is unchanged if it fits.
pub fn exact_lines()
    ensures plain { (text : List ℕ) → IsAdditive text → length (lines_of text) ≡ 1
        → IsExactLine text }
    ensures beginnings { (line : List ℕ) → columns_of line ≡ count_of line
        → (k : ℕ) → columns_of (take k line) ≡ count_of (take k line) }
    ensures longest { (n : ℕ) (line answer : List ℕ) → IsExactLine line → IsCut n line answer
        → IsLongestCut n line answer }
    ensures kept { (n : ℕ) (line answer : List ℕ) → IsExactLine line → text_columns line ≤ n
        → IsCut n line answer → answer ≡ line }
{}

/// The columns of lines that `meet` add up. So do those of a line between frames, and those of
/// pieces that each begin apart or end apart.
pub fn lines_of_any_text()
    ensures frame { (text : List ℕ) (n : ℕ) → IsFrame text n → IsLine text n }
    ensures one { (c : ℕ) → IsSeparatorColumn c → IsFrame (encode_utf8 c) 1 }
    ensures frames { (front back : List ℕ) (m n : ℕ) → IsFrame front m → IsFrame back n
        → IsFrame (front ++ back) (m + n) }
    ensures joined { (front back : List ℕ) (m n : ℕ) → IsLine front m → IsLine back n
        → meet (chars front) (chars back) ≡ true → IsLine (front ++ back) (m + n) }
    ensures framed { (left line right : List ℕ) (k n l : ℕ) → IsFrame left k → IsLine line n
        → IsFrame right l → IsLine (left ++ (line ++ right)) (k + (n + l)) }
    ensures pieces { (first : List ℕ) (m : ℕ) (pieces : List (List ℕ)) → IsLine first m
        → All (λ p. IsLine p (line_columns p)) pieces → All (λ p. begins_apart (chars p)
        ≡ true) pieces
        → IsLine (first ++ flat_map (λ p. p) pieces) (m + sum_by line_columns pieces) }
    ensures ended { (pieces : List (List ℕ)) (last : List ℕ) (m : ℕ) → IsLine last m
        → All (λ p. IsLine p (line_columns p)) pieces → All EndsApart pieces
        → IsLine (flat_map (λ p. p) pieces ++ last) (sum_by line_columns pieces + m) }
    ensures each { (text : List ℕ) → IsUtf8 text → (k : ℕ) → k < length (lines_of text)
        → IsLine (slice_index_or (lines_of text) k []) (line_columns
        (slice_index_or (lines_of text) k [])) }
{}

/// Texts that take at most n columns, whatever their characters: cut texts, alone or with an
/// additive suffix or another text after them that fits; wrapped texts; such texts joined by line
/// feeds; the empty text; and at most n copies of an additive character of one column.
pub fn texts_that_fit()
    ensures cut { (n : ℕ) (text answer : List ℕ) → IsCut n text answer → FitsIn n answer }
    ensures suffix { (n w : ℕ) (text answer suffix : List ℕ) → IsAdditive suffix
        → n + sum_by line_columns (lines_of suffix) ≤ w → IsCut n text answer → FitsIn w (answer
        ++ suffix) }
    ensures followed { (n w : ℕ) (text answer tail : List ℕ) → n ≤ w → IsCut n text answer
        → IsUtf8 tail
        → ((k : ℕ) → k ≤ n → stays w k (chars tail) ≡ true) → FitsIn w (answer ++ tail) }
    ensures wrapped { (n : ℕ) (words : Bool) (text answer : List ℕ) → IsWrapped n words text answer
        → FitsIn n answer }
    ensures joined { (n : ℕ) (texts : List (List ℕ)) → All (FitsIn n) texts
        → FitsIn n (join_with_byte 10 texts) }
    ensures none { (n : ℕ) → FitsIn n [] }
    ensures filled { (n k c : ℕ) → k ≤ n → IsAdditiveColumn c
        → FitsIn n (encode_utf8_all (replicate k c)) }
{}
