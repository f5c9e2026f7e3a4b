//! Laws of fronts: nothing to call, but statements that the check proves.

ghost use Rattle.help_fronts.specs.Laws.{CommandsStandInTheirLine, OptionsStandInTheirLine};
ghost use Rattle.help_fronts.specs.Laws.{NamesStandInTheirLine, UsageOptionsStandInTheirLine};

/// What is read at the front of an option stands in its line: each name, each value, the word for the first, the front,
/// the gap and the help.
#[tactic(auto, using(crate::proofs::Stands::options_stand_in_their_line))]
pub fn options_stand_in_their_line()
    ensures { OptionsStandInTheirLine }
{}

/// And so does what is read at the front of a command.
#[tactic(auto, using(crate::proofs::Stands::commands_stand_in_their_line))]
pub fn commands_stand_in_their_line()
    ensures { CommandsStandInTheirLine }
{}

/// The names of options at the front of a line stand in it.
#[tactic(auto, using(crate::proofs::Stands::names_stand_in_their_line))]
pub fn names_stand_in_their_line()
    ensures { NamesStandInTheirLine }
{}

/// The options in a line of a usage stand in it: each name, and what is said of its value.
pub fn usage_options_stand_in_their_line()
    ensures { UsageOptionsStandInTheirLine }
{}
