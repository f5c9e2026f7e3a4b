//! Laws of the definitions that the contracts cite. Each function is a law: it holds where the function is proved, and
//! calling it does nothing.

ghost use Rattle.std.specs.Prelude.{◌≡◌, ◌++◌, ◌↔◌, ◌∷◌, [], List, ℕ, IsTrue, IsUtf8, false};
ghost use Rattle.std.specs.List.{AllByRecursion, AllZip};
ghost use Rattle.bpaf_roff.specs.Pieces.{Piece, Labelled, AreCopies, no_pieces, sum_of, with_texts};
ghost use Rattle.bpaf_roff.specs.Equality.{labelled_eq, IsSamePiece};
ghost use Rattle.bpaf_roff.specs.Escaping.{signs, text_after, escaped};
ghost use Rattle.bpaf_roff.specs.Roff.{Script, script_sum, no_script, font_escape, restore_font, preamble, rendering};
ghost use Rattle.bpaf_roff.specs.Roff.{text_of, with_written};

use crate::escape::{APOSTROPHE_PREABMLE, Apostrophes, Escape};
use crate::roff::RESTORE_FONT;

/// Sums of monoids are associative.
#[tactic(auto, using(crate::proofs::lemmas::Sums::sum_of_assoc))]
pub fn sums_associate<T>()
    ensures { (left middle right : Labelled T)
        → sum_of (sum_of left middle) right ≡ sum_of left (sum_of middle right) }
{}

/// Where a clone of a label equals the label, as with a `String`, copies of pieces equal the pieces: label by label,
/// with the same texts.
#[tactic(auto, using(crate::proofs::lemmas::Clones::equal_copies))]
pub fn copies_are_equal<T: Clone + PartialEq>()
    ensures { ((x y : T) → T.is_clone x y → IsTrue (T.eq x y))
        → (given copies : List (Piece T)) → AreCopies T.is_clone given copies
        → AllZip (IsSamePiece T.eq) given copies }
{}

/// Adding nothing on the right changes nothing.
#[tactic(auto, using(crate::proofs::lemmas::Equality::right_equal))]
pub fn nothing_on_the_right<T: Eq>()
    ensures same { (left : Labelled T) → sum_of left no_pieces ≡ left }
    ensures equal { (left : Labelled T)
        → IsTrue (labelled_eq T.PartialEq.eq (sum_of left no_pieces) left) }
{}

/// Adding nothing on the left changes no piece. It turns squashing off, so the result is an equal value exactly where
/// squashing was off.
#[tactic(auto, using(crate::proofs::lemmas::Equality::left_equal))]
pub fn nothing_on_the_left<T: Eq>()
    ensures pieces { (right : Labelled T) → (sum_of no_pieces right).pieces ≡ right.pieces }
    ensures same { (right : Labelled T) → (sum_of no_pieces right ≡ right)
        ↔ (right.squash ≡ false) }
    ensures equal { (right : Labelled T)
        → IsTrue (labelled_eq T.PartialEq.eq (sum_of no_pieces right) right)
        ↔ (right.squash ≡ false) }
{}

/// A sum has the pieces of both, with nothing joined, and the setting of the left one.
pub fn sums_join<T>()
    ensures pieces { (left right : Labelled T)
        → (sum_of left right).pieces ≡ left.pieces ++ right.pieces }
    ensures setting { (left right : Labelled T) → (sum_of left right).squash ≡ left.squash }
{}

/// Two monoids are equal where they have the same setting and as many pieces, each with a label equal to the one in its
/// place and the same text.
#[tactic(auto, using(crate::proofs::lemmas::Equality::labelled_eq_tells))]
pub fn equality_is_of_pieces<T: PartialEq>()
    ensures { (left right : Labelled T) → IsTrue (labelled_eq T.eq left right)
        ↔ ((left.squash ≡ right.squash) × AllZip (IsSamePiece T.eq) left.pieces right.pieces) }
{}

/// Where equal labels are the same, as characters and `Escape` are, equal monoids are the same.
pub fn equality_is_exact<T: PartialEq>()
    requires { (x y : T) → IsTrue (T.eq x y) ↔ (x ≡ y) }
    ensures { (left right : Labelled T) → IsTrue (labelled_eq T.eq left right) ↔ (left ≡ right) }
{}

/// Appending texts in two steps is the same as appending them in one.
#[tactic(auto, using(crate::proofs::lemmas::Sums::texts_follow))]
pub fn texts_follow<T: PartialEq>()
    ensures { (m : Labelled T) (some more : List (T × List ℕ))
        → with_texts T.eq m (some ++ more) ≡ with_texts T.eq (with_texts T.eq m some) more }
{}

/// Sums of roffs are associative.
pub fn roff_sums_associate()
    ensures { (left middle right : Script)
        → script_sum (script_sum left middle) right ≡ script_sum left (script_sum middle right) }
{}

/// A sum of roffs has the pieces of both, and the setting of the right one.
pub fn roff_sums_join()
    ensures pieces { (left right : Script)
        → (script_sum left right).pieces ≡ left.pieces ++ right.pieces }
    ensures setting { (left right : Script)
        → (script_sum left right).strip_newlines ≡ right.strip_newlines }
{}

/// More pieces continue the rendering of those before them: they are escaped as after the bytes of those.
#[tactic(auto, using(crate::proofs::lemmas::EscapedText::renderings_go_on))]
pub fn renderings_go_on()
    ensures { (apostrophes : Apostrophes) (pieces more : List (Piece Escape))
        → rendering apostrophes (pieces ++ more)
        ≡ rendering apostrophes pieces
        ++ text_after apostrophes (escaped apostrophes pieces) (signs more) }
{}

/// Pieces that a writer puts after the text of others come to the text of all.
#[tactic(auto, using(crate::proofs::lemmas::Written::written_on))]
pub fn writers_go_on()
    ensures { (apostrophes : Apostrophes) (pieces more : List (Piece Escape))
        → with_written (text_of apostrophes pieces) more ≡ text_of apostrophes (pieces ++ more) }
{}

/// Pieces of text are escaped to text.
#[tactic(auto, using(crate::proofs::lemmas::EscapedText::pieces_text))]
pub fn escaped_text_is_text()
    ensures { (apostrophes : Apostrophes) (pieces : List (Piece Escape))
        → AllByRecursion (λ p. IsUtf8 p.text) pieces → IsUtf8 (escaped apostrophes pieces) }
{}

/// The constants are what the definitions say.
pub fn constants_are_as_said()
    ensures restore_font { RESTORE_FONT.now ≡ restore_font }
    ensures preamble { APOSTROPHE_PREABMLE.now ≡ preamble }
{}
