//! Which lines of a help text are what.

ghost use Rattle.std.specs.Prelude.{◌≡◌, IfOk, length, map};
ghost use Rattle.help_blocks.specs.Blocks.{FollowOn, lines_of, start_of, starts};

use help_blocks::{Block, blocks};
use std::alloc::{AllocError, Global};

/// The blocks of the lines that a program printed.
pub fn help_lines(alloc: Global, lines: &[&str]) -> Result<Vec<Block>, AllocError>
    ensures begun { IfOk result (λ found. map start_of found.items ≡ starts (lines_of (map (λ line. line.now) lines.now))) }
    ensures whole { IfOk result (λ found. FollowOn 0 found.items (length lines.now)) }
{
    blocks(alloc, lines)
}
