//! The column where the bodies of items begin.
ghost use Rattle.std.specs.Prelude.{◌≡◌, false};
ghost use Rattle.bpaf_doc.specs.Console.Steps.Text.{tab_stop_from, wider_term};

use crate::buffer::{Block, Part, Parts};
use unicode_width::UnicodeWidthStr;

/// The width, in columns, of the widest term that the tab stop counts.
pub const MAX_TAB: usize = 24;

/// 4 plus the columns of the widest item term that has at most `MAX_TAB` of them, or 4 without such a term.
pub fn tab_stop(parts: Parts<'_>) -> usize
    ensures { result ≡ tab_stop_from 0 false 0 parts.entry }
{
    let mut widest = 0;
    let mut in_term = false;
    let mut term: usize = 0;
    for part in parts {
        match part {
            Part::Text(text, _) => {
                if in_term {
                    term = term.saturating_add(text.width());
                }
            }
            Part::Start(Block::ItemTerm) => {
                in_term = true;
                term = 0;
            }
            Part::End(Block::ItemTerm) => {
                in_term = false;
                widest = wider_term(widest, term);
            }
            Part::Start(_) | Part::End(_) => {}
        }
    }
    widest.saturating_add(4)
}

// The wider of two terms, where the second counts only up to `MAX_TAB`.
fn wider_term(widest: usize, term: usize) -> usize
    ensures { result ≡ wider_term widest term }
{
    if term <= MAX_TAB {
        widest.max(term)
    } else {
        widest
    }
}
