//! A first description, in TOML, of what a program prints as its help.
#![tactic(auto)]

ghost use Rattle.std.specs.Prelude.{◌≡◌, IfErr, IfOk, None, Some, string_bytes, true};
ghost use Rattle.toml_pieces.specs.View.{text_of};
ghost use Rattle.shown_letters.specs.Terminal.{shown_letters};
ghost use Rattle.drafts.specs.Drafts.{draft_text};
ghost use Rattle.drafts.specs.Passages.{lines_in};
ghost use Rattle.drafts.specs.Sections.{IsDraftOf};
ghost use Rattle.drafts.specs.declared.DraftError.TheVariants.{Memory};
ghost use Rattle.drafts.specs.View.{is_nameless};

mod drafted;
mod entries;
mod free;
pub mod laws;
mod notes;
mod options;
mod passages;
mod places;
mod seen;
mod strays;
mod taken;
mod texts;
mod usages;

use drafted::draft_of;
use passages::{lines_in, passages};
use places::place_all;
use shown_letters::shown_letters;
use std::alloc::{AllocError, Allocator};
use usages::{forms, program_name};

/// Why there is no draft.
#[derive(Debug, Drop)]
pub enum DraftError {
    /// A name is given that no program may have, or none is given, and the usage gives none.
    NoName,
    /// An allocation failed.
    Memory(AllocError),
}

impl From<AllocError> for DraftError {
    ghost from_gives = { λ error fault. fault ≡ Memory error };

    fn from(error: AllocError) -> Self {
        DraftError::Memory(error)
    }
}

/// A first description of what a program printed as its help, in TOML.
///
/// # Errors
///
/// `NoName`, if no program may have the name that is given, or none is given and the usage gives none; `Memory`,
/// if an allocation failed.
pub fn draft<A: Allocator + Copy>(
    alloc: A,
    name: Option<&str>,
    printed: &str,
) -> Result<String<A>, DraftError>
    ensures exact { IfOk result (λ text. draft_text (text_of name.entry) printed.now ≡ Some (string_bytes text)) }
    ensures whole { IfOk result (λ text. IsDraftOf (lines_in (shown_letters printed.now)) (string_bytes text)) }
    ensures nameless { IfErr result (λ fault. is_nameless fault ≡ true
        → draft_text (text_of name.entry) printed.now ≡ None) }
{
    let shown = shown_letters(alloc, printed)?;
    let lines = lines_in(alloc, shown.as_str())?;
    let passages = passages(alloc, &lines)?;
    let placed = place_all(alloc, &passages)?;
    let forms = forms(alloc, &placed)?;
    match program_name(name, &forms) {
        None => Err(DraftError::NoName),
        Some(name) => Ok(draft_of(alloc, name, &forms, &placed)?),
    }
}
