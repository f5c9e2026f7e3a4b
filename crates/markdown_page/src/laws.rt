//! Laws of the definitions that the contracts cite. Each function is a law: it holds where the function is proved, and
//! calling it does nothing.

ghost use Rattle.std.specs.Prelude.{ℕ, List};
ghost use Rattle.page_model.specs.Content.{PartSaid};
ghost use Rattle.markdown_page.specs.Exact.{page_text};
ghost use Rattle.markdown_page.specs.Kept.{page_kept};
ghost use Rattle.markdown_page.specs.Promises.{ArePermitted, ReadsAs};

/// A page that is written reads back as what markdown keeps of it.
#[tactic(auto, using(crate::proofs::Pages::reads_back))]
pub fn reads_back()
    ensures { (title : List ℕ) (parts : List PartSaid) → ArePermitted title parts
        → ReadsAs (page_text title parts) (page_kept title parts) }
{}
