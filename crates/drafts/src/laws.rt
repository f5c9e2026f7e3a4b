//! Laws of drafts: nothing to call, but statements that the check proves.

ghost use Rattle.drafts.specs.Laws.{EachIsBelowItsTitle, FormsStandInTheirLine, HelpsAreWhole, HelpsStandInTheirLines};
ghost use Rattle.drafts.specs.Laws.{NamesAreFree, NoNameIsLost, NotesStandAtTheEnd, OptionsStandInTheirLine};
ghost use Rattle.drafts.specs.Laws.{ValuesStandInTheirLine, ValuesStandInTheirNote};

/// The nearest title above a text of a topic is that of the topic, and above a member of a group that of the group.
pub fn each_is_below_its_title()
    ensures { EachIsBelowItsTitle }
{}

/// No option of a line is written with a name that is taken.
#[tactic(auto, using(crate::proofs::Placing::names_are_free))]
pub fn names_are_free()
    ensures { NamesAreFree }
{}

/// What is read of each option of a line stands in the line, also the letter and the word by which it is called.
pub fn options_stand_in_their_line()
    ensures { OptionsStandInTheirLine }
{}

/// An option that is written with `short` and `long` loses none of its names.
pub fn no_name_is_lost()
    ensures { NoNameIsLost }
{}

/// What is read of a positional value stands in its line, also the word for it.
pub fn values_stand_in_their_line()
    ensures { ValuesStandInTheirLine }
{}

/// What is read of a line of a usage stands in it, also the name of the program.
pub fn forms_stand_in_their_line()
    ensures { FormsStandInTheirLine }
{}

/// The help of an entry, where no note is taken, is written with all letters of its lines, in order.
#[tactic(auto, using(crate::proofs::KeptHelps::helps_are_whole))]
pub fn helps_are_whole()
    ensures { HelpsAreWhole }
{}

/// What is cut of a text is all notes at its end and nothing else, and what they say stands there.
#[tactic(auto, using(crate::proofs::Noted::notes_stand_at_the_end))]
pub fn notes_stand_at_the_end()
    ensures { NotesStandAtTheEnd }
{}

/// The values that a note lists stand in its text, and have all its letters but commas, in order.
pub fn values_stand_in_their_note()
    ensures { ValuesStandInTheirNote }
{}

/// The text of a help begins its lines and is written with all its letters, and what is left out is its notes alone.
#[tactic(auto, using(crate::proofs::Noted::helps_stand_in_their_lines))]
pub fn helps_stand_in_their_lines()
    ensures { HelpsStandInTheirLines }
{}
