//! The hints about a description.
ghost use Rattle.std.specs.Prelude.{◌≡◌, map, flat_map, IfOk};
ghost use Rattle.description.specs.View.{description_said};
ghost use Rattle.description_hints.specs.Hints.{site_warnings, warnings};
ghost use Rattle.description_hints.specs.View.{around_said, site_said, warning_said};

use crate::around::{Around, around_of};
use crate::files::push_file_hints;
use crate::helps::push_all_different;
use crate::hints::Warning;
use crate::rules::{Warnings, push_part};
use crate::sites::{Site, sites};
use bumpalo::Bump;
use description::Description;
use std::alloc::{AllocError, Allocator, Global};

fn warnings_at<'p>(
    arena: &'p Bump,
    around: &Around<'p>,
    sites: &[Site<'p>],
) -> Result<Warnings<'p>, AllocError>
    ensures { IfOk result (λ found. map warning_said found.items
        ≡ flat_map (site_warnings (around_said around.now)) (map site_said sites.now)) }
{
    let mut found: Warnings<'p> = Vec::new(arena);
    for site in sites {
        push_part(arena, &mut found, around, site.path, site.part)?;
    }
    Ok(found)
}

/// What a description would better say, in the order of its records: each level before what stands in it; then which
/// options of one name have different helps, which pages have a name that no file may have, and which some folders take
/// for one another. All is made in the arena except what names of files are compared by, which is made in `global`. An
/// error comes only where an allocation failed.
pub fn warnings_of<'p, 'a: 'p, C: Allocator>(
    arena: &'p Bump,
    global: Global,
    description: &'p Description<'a, C>,
) -> Result<Vec<Warning<'p>, &'p Bump>, AllocError>
    ensures { IfOk result (λ found. map warning_said found.items ≡ warnings (description_said description.now)) }
{
    let sites = sites(arena, description)?;
    let around = around_of(arena, description, sites.as_slice())?;
    let mut found = warnings_at(arena, &around, sites.as_slice())?;
    push_all_different(arena, &mut found, sites.as_slice())?;
    push_file_hints(arena, global, &mut found, description)?;
    Ok(found)
}
