//! Laws of additive texts, and of cut and wrapped ones, each the contract of a function.
ghost use Rattle.std.specs.Prelude.{◌≡◌, ◌<◌, ◌≤◌, ℕ, Bool, true, List, [], ◌∷◌, ◌++◌, ◌+◌, ◌*◌};
ghost use Rattle.std.specs.Prelude.{All, IsTrue, chars, encode_utf8, encode_utf8_all, length, map};
ghost use Rattle.std.specs.Prelude.{max, replicate, sum_by};
ghost use Rattle.std.specs.Int.{is_in_range};
ghost use Rattle.std.specs.List.{join_with_byte, list_all, slice_index_or};
ghost use Rattle.std.specs.Str.{IsUtf8};
ghost use Rattle.tabled_text.specs.Breaking.{EachUnitFits, HasFewestLines, IsBroken};
ghost use Rattle.tabled_text.specs.Breaking.{IsLeastBreaking, TextUnit, text_of, units};
ghost use Rattle.tabled_text.specs.Cut.{IsCut};
ghost use Rattle.tabled_text.specs.Longest.{IsLongestCut};
ghost use Rattle.tabled_text.specs.Measure.{char_columns, count_of, greatest, line_columns};
ghost use Rattle.tabled_text.specs.Measure.{lines_of, text_columns};
ghost use Rattle.tabled_text.specs.OldText.{HasOldText, all_chars_fit};
ghost use Rattle.tabled_text.specs.Plain.{is_listed, is_drawn, has_plain_width, is_plain_character};
ghost use Rattle.tabled_text.specs.Plain.{IsPlain, IsPlainColumn, is_additive, IsAdditive};
ghost use Rattle.tabled_text.specs.Plain.{IsAdditiveColumn, IsAdditiveLine};
ghost use Rattle.tabled_text.specs.Room.{stays, StaysWithin};
ghost use Rattle.tabled_text.specs.Fitting.{FitsIn};
ghost use Rattle.tabled_text.specs.WordWrap.{HasFewestWordLines, HasOldWords, IsLeastWordBreaking};
ghost use Rattle.tabled_text.specs.WordWrap.{IsWordWrapped};
ghost use Rattle.tabled_text.specs.Wrapping.{IsWrapped};

use crate::measure::line_width;

/// Returns the columns of a line of additive characters, which are the sum of the characters'
/// columns.
pub fn additive_line_width(line: &str) -> usize
    requires { IsTrue (list_all is_additive (chars line.now)) }
    ensures { result ≡ sum_by char_columns (chars line.now) }
{
    line_width(line)
}

/// Listed characters of one or two columns are plain. Printable ASCII and U+FFFD are plain and take
/// one column. Plain characters and texts are additive, and so are drawn characters of one or two
/// columns.
pub fn plain_characters()
    ensures listed { (c : ℕ) → is_listed c ≡ true → has_plain_width c ≡ true
        → is_plain_character c ≡ true }
    ensures printable { (c : ℕ) → is_in_range 0x20 0x7E c ≡ true → IsPlainColumn c }
    ensures replacement { IsPlainColumn 0xFFFD }
    ensures drawn { (c : ℕ) → is_drawn c ≡ true → has_plain_width c ≡ true → is_additive c ≡ true }
    ensures additive { (c : ℕ) → is_plain_character c ≡ true → is_additive c ≡ true }
    ensures columns { (c : ℕ) → IsPlainColumn c → IsAdditiveColumn c }
    ensures texts { (text : List ℕ) → IsPlain text → IsAdditive text }
{}

/// The columns of joined additive lines add up. Each line of an additive text is additive.
pub fn additive_lines()
    ensures one { (c : ℕ) → IsAdditiveColumn c → IsAdditiveLine (encode_utf8 c) 1 }
    ensures joined { (front back : List ℕ) (m n : ℕ) → IsAdditiveLine front m
        → IsAdditiveLine back n → IsAdditiveLine (front ++ back) (m + n) }
    ensures each { (text : List ℕ) → IsAdditive text → (k : ℕ) → k < length (lines_of text)
        → IsAdditiveLine (slice_index_or (lines_of text) k []) (line_columns
        (slice_index_or (lines_of text) k [])) }
{}

/// The columns of an additive line are the sum of its characters' columns, and also the sum of
/// their counts. U+FFFD is additive and takes one column.
pub fn additive_columns()
    ensures sum { (line : List ℕ) → list_all is_additive (chars line) ≡ true
        → line_columns line ≡ sum_by char_columns (chars line) }
    ensures count { (line : List ℕ) → list_all is_additive (chars line) ≡ true
        → line_columns line ≡ count_of (chars line) }
    ensures replacement { IsAdditiveColumn 0xFFFD }
{}

/// The lines and columns of a text are bounded by its bytes, so that sums of them stay in range.
pub fn text_bounds()
    ensures lines { (text : List ℕ) → length (lines_of text) ≤ length text + 1 }
    ensures columns { (text : List ℕ) → IsAdditive text → text_columns text ≤ 2 * length text }
{}

/// Texts joined by line feeds have the lines of each, in order, and are as wide as the widest.
pub fn joined_lines()
    ensures lines { (front back : List ℕ)
        → lines_of (front ++ 10 ∷ back) ≡ lines_of front ++ lines_of back }
    ensures columns { (front back : List ℕ)
        → text_columns (front ++ 10 ∷ back) ≡ max (text_columns front) (text_columns back) }
    ensures each { (texts : List (List ℕ)) → 0 < length texts
        → All (λ text. length (lines_of text) ≡ 1) texts
        → lines_of (join_with_byte 10 texts) ≡ texts }
    ensures count { (texts : List (List ℕ)) → 0 < length texts
        → length (lines_of (join_with_byte 10 texts)) ≡ sum_by (λ text. length
        (lines_of text)) texts }
    ensures widest { (texts : List (List ℕ))
        → text_columns (join_with_byte 10 texts) ≡ greatest (map text_columns texts) }
{}

/// Additive texts of at most n columns: such texts joined by line feeds, the empty text, and at
/// most n copies of an additive character of one column.
pub fn texts_that_stay()
    ensures additive { (n : ℕ) (text : List ℕ) → StaysWithin n text → IsAdditive text
        × (text_columns text ≤ n) }
    ensures from { (n : ℕ) (text : List ℕ) → IsAdditive text → text_columns text ≤ n
        → StaysWithin n text }
    ensures joined { (n : ℕ) (texts : List (List ℕ)) → 0 < length texts → All (StaysWithin n) texts
        → StaysWithin n (join_with_byte 10 texts) }
    ensures none { (n : ℕ) → StaysWithin n [] }
    ensures filled { (n k c : ℕ) → k ≤ n → IsAdditiveColumn c
        → StaysWithin n (encode_utf8_all (replicate k c)) }
{}

/// A cut additive text stays within its columns, alone and with a text after it that fits. A cut
/// text has no more lines than before. An additive line is cut to its longest beginning that fits,
/// with U+FFFD in a column left over, and is unchanged if it fits.
pub fn cut_texts()
    ensures room { (n : ℕ) (text answer : List ℕ) → IsAdditive text → IsCut n text answer
        → StaysWithin n answer }
    ensures suffix { (n w : ℕ) (text answer suffix : List ℕ) → IsAdditive text → IsAdditive suffix
        → n + sum_by line_columns (lines_of
        suffix) ≤ w → IsCut n text answer → StaysWithin w (answer ++ suffix) }
    ensures followed { (n w : ℕ) (text answer tail : List ℕ) → n ≤ w → IsAdditive text
        → IsCut n text answer → IsUtf8 tail → ((k : ℕ) → k ≤ n
        → stays w k (chars tail) ≡ true) → StaysWithin w (answer ++ tail) }
    ensures lines { (n : ℕ) (text answer : List ℕ) → IsUtf8 text → IsCut n text answer
        → length (lines_of answer) ≤ length (lines_of text) }
    ensures longest { (n : ℕ) (line answer : List ℕ) → list_all is_additive (chars line) ≡ true
        → IsCut n line answer → IsLongestCut n line answer }
    ensures kept { (n m : ℕ) (line answer : List ℕ) → IsAdditiveLine line m → m ≤ n
        → IsCut n line answer → answer ≡ line }
{}

/// A text can be broken to n ≥ 1 columns exactly if each of its units fits, for example if no
/// character counts more than n. The units of a line, joined, are the line.
pub fn breakings()
    ensures units { (n : ℕ) (words : Bool) (line : List ℕ) → text_of (units n words line) ≡ line }
    ensures permitted { (n : ℕ) (words : Bool) (text : List ℕ)
        (broken : List (List (List TextUnit)))
        → IsBroken n words text broken → EachUnitFits n words text }
    ensures exists { (n : ℕ) (words : Bool) (text : List ℕ) → 0 < n → EachUnitFits n words text
        → (broken : List (List (List TextUnit))) × IsBroken n words text broken }
    ensures room { (n : ℕ) (words : Bool) (text : List ℕ) → 0 < n → all_chars_fit n (chars text) ≡ true
        → EachUnitFits n words text }
{}

/// A wrapped additive text stays within n columns, and for n ≥ 1 is unchanged if it did so before.
/// No breaking has fewer lines. If n ≥ 1 and each unit fits, the wrapped text is the text of a
/// breaking: the old text with line feeds inserted.
pub fn wrapped_texts()
    ensures room { (n : ℕ) (words : Bool) (text answer : List ℕ) → IsAdditive text
        → IsWrapped n words text answer → StaysWithin n answer }
    ensures fewest { (n : ℕ) (words : Bool) (text answer : List ℕ) → IsWrapped n words text answer
        → HasFewestLines n words text answer }
    ensures least { (n : ℕ) (words : Bool) (text answer : List ℕ) → 0 < n
        → EachUnitFits n words text
        → IsWrapped n words text answer → IsLeastBreaking n words text answer }
    ensures whole { (n : ℕ) (words : Bool) (text answer : List ℕ) → 0 < n
        → EachUnitFits n words text → IsWrapped n words text answer → HasOldText text answer }
    ensures kept { (n : ℕ) (words : Bool) (text answer : List ℕ) → 0 < n → IsAdditive text
        → text_columns text ≤ n → IsWrapped n words text answer → answer ≡ text }
{}

/// A text that is wrapped between words takes at most n columns, and stays additive. For n ≥ 1 it
/// is unchanged if it is additive and took at most n columns before. No breaking has fewer lines.
/// If n ≥ 1 and each unit fits, the wrapped text is the text of a breaking: the old text with line
/// feeds inserted or put in the place of spaces.
pub fn word_wrapped_texts()
    ensures fits { (n : ℕ) (text answer : List ℕ) → IsWordWrapped n text answer → FitsIn n answer }
    ensures room { (n : ℕ) (text answer : List ℕ) → IsAdditive text → IsWordWrapped n text answer
        → StaysWithin n answer }
    ensures fewest { (n : ℕ) (text answer : List ℕ) → IsWordWrapped n text answer
        → HasFewestWordLines n text answer }
    ensures least { (n : ℕ) (text answer : List ℕ) → 0 < n → EachUnitFits n true text
        → IsWordWrapped n text answer → IsLeastWordBreaking n text answer }
    ensures whole { (n : ℕ) (text answer : List ℕ) → 0 < n → EachUnitFits n true text
        → IsWordWrapped n text answer → HasOldWords text answer }
    ensures kept { (n : ℕ) (text answer : List ℕ) → 0 < n → IsAdditive text
        → text_columns text ≤ n → IsWordWrapped n text answer → answer ≡ text }
    ensures short { (n : ℕ) (text : List ℕ) → IsUtf8 text → 0 < n → length text ≤ n
        → IsWordWrapped n text text }
{}
