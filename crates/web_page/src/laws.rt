//! Laws of the definitions that the contracts cite. Each function is a law: it holds where the function is proved, and
//! calling it does nothing.

ghost use Rattle.std.specs.Prelude.{◌≡◌, ◌++◌, ◌∷◌, [], List, ℕ, None};
ghost use Rattle.std.specs.Str.{IsUtf8};
ghost use Rattle.web_page.specs.Models.{IsFront};
ghost use Rattle.web_page.specs.Reader.{Draft, joined};
ghost use Rattle.web_page.specs.Tree.{Attribute, Nodes, element, none, text};
ghost use Rattle.web_page.specs.Calls.{head_content, page_fault, with_text, with_words};
ghost use Rattle.web_page.specs.declared.elements.Tag.{Tag};

/// A text that is added in two parts is one text, and an empty one adds nothing.
#[tactic(auto, using(crate::proofs::TextLaws::parts))]
pub fn texts_join()
    ensures joined { (draft : Draft) (first second : List ℕ)
        → with_text (with_text draft first) second ≡ with_text draft (first ++ second) }
    ensures empty { (draft : Draft) → with_text draft [] ≡ draft }
{}

/// A text at the front or after an element is a node of its own, letter for letter, and one after a text continues it.
#[tactic(auto, using(crate::proofs::TextLaws::at_front, crate::proofs::TextLaws::after, crate::proofs::TextLaws::on_text))]
pub fn texts_stay()
    ensures first { (b : ℕ) (bytes : List ℕ) → with_words none (b ∷ bytes) ≡ text (b ∷ bytes) none }
    ensures after_element { (nodes content : Nodes) (tag : Tag) (given : List Attribute) (b : ℕ) (bytes : List ℕ)
        → with_words (joined nodes (element tag given content none)) (b ∷ bytes)
        ≡ joined nodes (element tag given content (text (b ∷ bytes) none)) }
    ensures after_text { (before bytes : List ℕ) → with_words (text before none) bytes ≡ text (before ++ bytes) none }
{}

/// Each page that `Page::new` can begin has a front, after which the content of a body reads as what it is.
#[tactic(auto, using(crate::proofs::Fronts::front_is))]
pub fn pages_have_fronts()
    ensures { (language title style : List ℕ) → IsUtf8 title → IsUtf8 style → page_fault language title style ≡ None
        → (front : List ℕ) × IsFront front language (head_content title style) }
{}
