//! Facts about truncated texts and about changes that failed, stated as contracts.
ghost use Rattle.std.specs.Prelude.{ℕ, Bool, true, false, List, [], ◌≡◌};
ghost use Rattle.tabled_set.specs.Common.{Entity, FitsIn, IsAdditive, IsCut, IsExactLine};
ghost use Rattle.tabled_set.specs.Common.{IsLongestCut, IsRectangular};
ghost use Rattle.tabled_set.specs.PutBack.{IsPutBack, StaysOutside};
ghost use Rattle.tabled_set.specs.Truncated.{HasLongestLines, IsAdditiveLimit, IsTruncated};
ghost use Rattle.tabled_set.specs.Truncated.{SuffixLimit};
ghost use Rattle.tabled_text.specs.Room.{StaysWithin};

/// States what holds for a truncated text:
/// - It fits in its content width, whatever its characters are, if the suffix and a character that
///   replaces it are additive, as plain ones are. A text that was additive stays so.
/// - Without a suffix it is the cut text. For a line whose width is the sum of its characters'
///   widths, each at least 1, that is the longest beginning that fits.
/// - With `multiline` and without a suffix, that holds for each such line of the text.
pub fn truncated_texts()
    ensures fits { (n : ℕ) (suffix : List ℕ) (limit : SuffixLimit) (multiline : Bool)
        (text answer : List ℕ)
        → IsAdditive suffix → IsAdditiveLimit limit
        → IsTruncated n suffix limit multiline text answer → FitsIn n answer }
    ensures content_size { (n : ℕ) (suffix : List ℕ) (limit : SuffixLimit) (multiline : Bool)
        (text answer : List ℕ)
        → IsAdditive suffix → IsAdditiveLimit limit → IsAdditive text
        → IsTruncated n suffix limit multiline text answer → StaysWithin n answer }
    ensures cut { (n : ℕ) (limit : SuffixLimit) (text answer : List ℕ)
        → IsTruncated n [] limit false text answer → IsCut n text answer }
    ensures longest { (n : ℕ) (limit : SuffixLimit) (line answer : List ℕ) → IsExactLine line
        → IsTruncated n [] limit false line answer → IsLongestCut n line answer }
    ensures lines { (n : ℕ) (limit : SuffixLimit) (text answer : List ℕ)
        → IsTruncated n [] limit true text answer → HasLongestLines n text answer }
{}

/// States what putting back the cells of a part leaves, after a change of the part failed: if the
/// change left all other cells, every cell is as it was. The options of this library that change
/// cells leave the others, whether they fail or not, and so do two of them in turn.
#[tactic(auto, using(crate::proofs::PuttingBack::stays_twice))]
pub fn parts_put_back()
    ensures whole { (part : Entity) (before left after : List (List (List ℕ)))
        → IsRectangular before → StaysOutside part before left
        → IsPutBack part before left after → after ≡ before }
    ensures in_turn { (part : Entity) (old between new : List (List (List ℕ)))
        → StaysOutside part old between → StaysOutside part between new
        → StaysOutside part old new }
{}
