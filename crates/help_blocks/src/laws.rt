//! Laws of the rules: nothing to call, but statements that the check proves.

ghost use Rattle.help_blocks.specs.Laws.{EachLineIsInABlock, FirstLinesBegin, HelpIsDeeper, TitlesEnd};

/// What goes on with an entry is its help: each of these lines is empty, or indented deeper than the entry's first
/// line.
#[tactic(auto, using(crate::proofs::Deeper::help_is_deeper))]
pub fn help_is_deeper()
    ensures { HelpIsDeeper }
{}

/// Nothing goes on with a title but empty lines.
#[tactic(auto, using(crate::proofs::Deeper::titles_end))]
pub fn titles_end()
    ensures { TitlesEnd }
{}

/// A line that has no other above it begins a block.
#[tactic(auto, using(crate::proofs::Deeper::first_lines_begin))]
pub fn first_lines_begin()
    ensures { FirstLinesBegin }
{}

/// Blocks that begin as the rules say follow one another from the first line to the end: each line is in exactly one,
/// and a title has empty lines alone below its first.
#[tactic(auto, using(crate::proofs::Whole::each_line_is_in_a_block))]
pub fn each_line_is_in_a_block()
    ensures { EachLineIsInABlock }
{}
