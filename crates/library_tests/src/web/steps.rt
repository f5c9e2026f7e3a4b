//! Calls of a page, one after another.
use std::alloc::Allocator;
use web_page::{Element, Page, PageError};

#[derive(Clone, Copy, Debug)]
pub enum Step {
    Start(Element),
    StartWithId(Element, &'static str),
    StartLink(&'static str),
    StartLinkToId(&'static str),
    Text(&'static str),
    LineBreak,
    End,
}

pub fn apply<A: Allocator>(page: &mut Page<A>, step: Step) -> Result<(), PageError> {
    match step {
        Step::Start(element) => page.start(element),
        Step::StartWithId(element, id) => page.start_with_id(element, id),
        Step::StartLink(target) => page.start_link(target),
        Step::StartLinkToId(id) => page.start_link_to_id(id),
        Step::Text(text) => page.text(text),
        Step::LineBreak => page.line_break(),
        Step::End => page.end(),
    }
}

pub fn new<A: Allocator + Copy>(alloc: A) -> Result<Page<A>, PageError> {
    Page::new(alloc, "en", "T & <co>", "p > a { color: red }")
}

/// What stands before the content of the body of such a page.
pub const FRONT: &str = "<!DOCTYPE html><html lang=\"en\"><head><meta charset=\"utf-8\">\
    <meta name=\"viewport\" content=\"width=device-width\"><title>T &amp; &lt;co&gt;</title>\
    <style>p > a { color: red }</style></head><body>";

/// And after it.
pub const END: &str = "</body></html>";
