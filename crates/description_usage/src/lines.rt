//! Lines that are put one after another.
ghost use Rattle.std.specs.Prelude.{◌≡◌, ◌++◌, ◌∷◌, [], map, flat_map, IfOk, OnOk};
ghost use Rattle.page_model.specs.Content.{words};
ghost use Rattle.page_model.specs.View.{line_of};
ghost use Rattle.description_usage.specs.Lines.{joined};

use page_model::{Inline, Line};
use std::alloc::{AllocError, Allocator};

/// A list of one item.
pub fn one<T: Drop, A: Allocator>(alloc: A, item: T) -> Result<Vec<T, A>, AllocError>
    ensures { IfOk result (λ items. items.items ≡ item ∷ []) }
{
    let mut items = Vec::new(alloc);
    items.push(item)?;
    Ok(items)
}

fn push_others<'a, A: Allocator>(
    line: &mut Line<'a, A>,
    between: &'a str,
    others: &[Line<'a, A>],
) -> Result<(), AllocError>
    ensures { OnOk result (line_of line.new.items ≡ line_of line.old.items
        ++ flat_map (λ other. words between.now ∷ other) (map (λ other. line_of other.items) others.now)) }
{
    for other in others {
        line.push(Inline::Words(between))?;
        line.extend_from_slice(other.as_slice())?;
    }
    Ok(())
}

/// Some lines as one, with a text between two. An error comes only where an allocation failed.
pub fn joined<'a, A: Allocator>(
    alloc: A,
    between: &'a str,
    lines: &[Line<'a, A>],
) -> Result<Line<'a, A>, AllocError>
    ensures { IfOk result (λ line. line_of line.items
        ≡ joined between.now (map (λ line. line_of line.items) lines.now)) }
{
    let mut line = Vec::new(alloc);
    let Some((first, others)) = lines.split_first() else {
        return Ok(line);
    };
    line.extend_from_slice(first.as_slice())?;
    push_others(&mut line, between, others)?;
    Ok(line)
}
