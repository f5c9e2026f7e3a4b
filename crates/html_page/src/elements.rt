//! The calls on a page, each with what it says of it, and elements that hold a text.
#![tactic(auto, using(crate::proofs::Outcomes::puts_one, crate::proofs::Outcomes::putting))]

ghost use Rattle.std.specs.Prelude.{◌∷◌, ◌++◌, [], codes};
ghost use Rattle.html_page.specs.Events.{break_line, end, say, start, start_link, start_with_id, text_in};
ghost use Rattle.html_page.specs.Steps.{Puts};

use std::alloc::Allocator;
use web_page::{Element, Page, PageError};

/// Starts an element.
pub fn start<B: Allocator>(page: &mut Page<B>, element: Element) -> Result<(), PageError>
    ensures { Puts page.old (start element ∷ []) page.new result }
{
    page.start(element)
}

/// Starts an element with an id.
pub fn start_with_id<B: Allocator>(
    page: &mut Page<B>,
    element: Element,
    id: &str,
) -> Result<(), PageError>
    ensures { Puts page.old (start_with_id element id.now ∷ []) page.new result }
{
    page.start_with_id(element, id)
}

/// Starts a link.
pub fn start_link<B: Allocator>(page: &mut Page<B>, target: &str) -> Result<(), PageError>
    ensures { Puts page.old (start_link target.now ∷ []) page.new result }
{
    page.start_link(target)
}

/// Starts a link to the element of an id.
pub fn start_link_to_id<B: Allocator>(page: &mut Page<B>, id: &str) -> Result<(), PageError>
    ensures { Puts page.old (start_link (codes "#" ++ id.now) ∷ []) page.new result }
{
    page.start_link_to_id(id)
}

/// Says a text.
pub fn say<B: Allocator>(page: &mut Page<B>, text: &str) -> Result<(), PageError>
    ensures { Puts page.old (say text.now ∷ []) page.new result }
{
    page.text(text)
}

/// Breaks a line.
pub fn break_line<B: Allocator>(page: &mut Page<B>) -> Result<(), PageError>
    ensures { Puts page.old (break_line ∷ []) page.new result }
{
    page.line_break()
}

/// Ends an element.
pub fn end<B: Allocator>(page: &mut Page<B>) -> Result<(), PageError>
    ensures { Puts page.old (end ∷ []) page.new result }
{
    page.end()
}

/// Puts an element that holds a text alone.
pub fn put_text_in<B: Allocator>(
    page: &mut Page<B>,
    element: Element,
    text: &str,
) -> Result<(), PageError>
    ensures { Puts page.old (text_in element text.now) page.new result }
{
    start(page, element)?;
    say(page, text)?;
    end(page)
}
