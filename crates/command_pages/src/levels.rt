//! The levels whose pages are made.

ghost use Rattle.std.specs.Prelude.{◌≡◌, IfOk};
ghost use Rattle.description.specs.View.{description_said};
ghost use Rattle.description_pages.specs.LevelsView.{subject_of};
ghost use Rattle.command_pages.specs.Pages.{application};

use bumpalo::Bump;
use bumpalo::collections::into_bump_slice;
use description::Description;
use description_pages::levels::LevelSubject;
use std::alloc::{AllocError, Global};

/// The top level, under the name of the program. An error comes only where an allocation failed.
pub fn application<'p, 'a: 'p>(
    arena: &'p Bump,
    description: &'p Description<'a>,
) -> Result<LevelSubject<'p, 'a, Global>, AllocError>
    ensures { IfOk result (λ level. subject_of level ≡ application (description_said description.now)) }
{
    let mut names: Vec<&'p str, &'p Bump> = Vec::new(arena);
    names.push(description.name)?;
    Ok(LevelSubject {
        names: into_bump_slice(names),
        help: None,
        help_options: description.help_options.as_slice(),
        level: &description.level,
    })
}
