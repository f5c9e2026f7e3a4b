//! Which lines of a help text are what: usage, titles, entries with their helps, texts and code.
#![tactic(auto)]

ghost use Rattle.std.specs.Prelude.{◌≡◌, IfOk, drop, length, map};
ghost use Rattle.help_blocks.specs.Shapes.{above, begin_with_option, first_shape};
ghost use Rattle.help_blocks.specs.Blocks.{FollowOn, lines_of, start_of, starts};

mod cut;
pub mod laws;
mod place;
mod rules;
mod scan;
mod shape;
mod subject;

pub use cut::Block;
pub use place::Kind;
use place::Place;
use shape::{Shape, is_option_line};
use std::alloc::{AllocError, Allocator};

/// The blocks of a help text, in order: each line is in exactly one.
///
/// # Errors
///
/// Memory.
pub fn blocks<A: Allocator>(alloc: A, lines: &[&str]) -> Result<Vec<Block, A>, AllocError>
    ensures begun { IfOk result (λ found. map start_of found.items ≡ starts (lines_of (map (λ line. line.now) lines.now))) }
    ensures whole { IfOk result (λ found. FollowOn 0 found.items (length lines.now)) }
{
    let mut found = Vec::new(alloc);
    let mut place = Place::start();
    let mut here = first_shape(lines);
    let mut rest = lines;
    let mut number: usize = 0;
    while number < lines.len() {
        rest = below(rest);
        let next = first_shape(rest);
        let begun = place.begun(here, next);
        cut::put(&mut found, number, begun)?;
        place = place.after(here, begun);
        here = next;
        number += 1;
    }
    Ok(found)
}

// The lines below the first.
fn below<'a, 'b>(lines: &'a [&'b str]) -> &'a [&'b str]
    ensures { result.now ≡ drop 1 lines.now }
{
    match lines {
        [] => lines,
        [_, below @ ..] => below,
    }
}

fn begin_with_option(lines: &[&str]) -> bool
    ensures { result ≡ begin_with_option (map (λ line. line.now) lines.now) }
{
    match lines {
        [] => false,
        [line, ..] => is_option_line(line.as_bytes()),
    }
}

// What the first of these lines looks like: where there is none, a blank line.
fn first_shape(lines: &[&str]) -> Shape
    ensures { result ≡ first_shape (map (λ line. line.now) lines.now) }
{
    match lines {
        [] => Shape::of(b""),
        [line, below @ ..] => above(Shape::of(line.as_bytes()), below),
    }
}

// An empty line counts as an option, if one is right below it.
fn above(shape: Shape, below: &[&str]) -> Shape
    ensures { result ≡ above shape (begin_with_option (map (λ line. line.now) below.now)) }
{
    Shape {
        is_option: shape.is_option || (shape.is_empty && begin_with_option(below)),
        ..shape
    }
}
