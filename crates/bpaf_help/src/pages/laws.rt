//! Laws of the definitions that the contracts cite: statements that the check proves, not functions to call.

ghost use Rattle.bpaf_help.specs.Chapters.{ChaptersAreListed};
ghost use Rattle.bpaf_help.specs.NestedPages.{CollectedPagesAreNested, ManualPagesAreNested};

/// The chapters of the commands of a tree are those of the commands that its item list has, in order.
#[tactic(auto, using(crate::proofs::Chapters::chapters_are_listed))]
pub fn chapters_are_listed()
    ensures { ChaptersAreListed }
{}

/// The pages of an application with well-nested texts are well nested.
#[tactic(auto, using(crate::proofs::NestedPages::nested_pages))]
pub fn pages_are_nested()
    ensures collected { CollectedPagesAreNested }
    ensures manual { ManualPagesAreNested }
{}
