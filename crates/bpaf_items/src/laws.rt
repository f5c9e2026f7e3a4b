//! Laws of the definitions that the contracts cite: statements that the check proves, not functions to call.

ghost use Rattle.bpaf_items.specs.Page.EnvTexts.{TextsAreInserted};
ghost use Rattle.bpaf_items.specs.Listing.Groups.{GroupsAreTakenOut};
ghost use Rattle.bpaf_items.specs.Listing.Keys.{IsEqualityOfKeys, IsOrderOfKeys};
ghost use Rattle.bpaf_items.specs.Listing.ListLaws.{FallsSomewhere, FallsUnderWritten, HeadingsAgree};
ghost use Rattle.bpaf_items.specs.Listing.ListLaws.{IsEqualityOfTypes, KeyOnce};
ghost use Rattle.bpaf_items.specs.Page.NestedTexts.{GroupsAreNested, HelpPagesAreNested, ItemListsAreNested};

/// Two types compare as equal exactly where they are the same.
#[tactic(auto, using(crate::proofs::Listing::KeyLaws::equality_of_types))]
pub fn equality_of_types()
    ensures { IsEqualityOfTypes }
{}

/// Two keys compare as equal exactly where they say the same.
#[tactic(auto, using(crate::proofs::Listing::KeyLaws::equality_of_keys))]
pub fn equality_of_keys()
    ensures { IsEqualityOfKeys }
{}

/// The order of keys is total, and agrees with their equality.
#[tactic(auto, using(crate::proofs::Listing::KeyLaws::order_of_keys))]
pub fn order_of_keys()
    ensures { IsOrderOfKeys }
{}

/// In an item list each entry that has help or is in no adjacent block falls under a group or a heading. A group that
/// an entry falls under is one of those that are written.
pub fn falls_somewhere()
    ensures somewhere { FallsSomewhere }
    ensures written { FallsUnderWritten }
{}

/// Each key of a list is shown once, at its first place.
pub fn key_once()
    ensures { KeyOnce }
{}

/// The entries outside groups that fall under a heading are those that `items_of_ty` gives for it.
#[tactic(auto, using(crate::proofs::Listing::Headings::headings_agree))]
pub fn headings_agree()
    ensures { HeadingsAgree }
{}

/// After an insertion the name has the inserted text, and all other names have the texts that they had.
#[tactic(auto, using(crate::proofs::Page::EnvLaws::texts_are_inserted))]
pub fn texts_are_inserted()
    ensures { TextsAreInserted }
{}

/// The help pages of well-nested texts are well nested.
#[tactic(auto, using(crate::proofs::Page::NestedPages::help_pages_are_nested))]
pub fn help_pages_are_nested()
    ensures { HelpPagesAreNested }
{}

/// The groups and headings of an item list are well nested too, wherever they are written.
pub fn groups_are_nested()
    ensures lists { ItemListsAreNested }
    ensures groups { GroupsAreNested }
{}

/// The groups of an item list can be taken out one after another until `find_group` is `None`. The list without its
/// first group has the other groups, in order, and the same entries outside groups.
pub fn groups_are_taken_out()
    ensures { GroupsAreTakenOut }
{}
