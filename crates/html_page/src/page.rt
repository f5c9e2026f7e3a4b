//! The page of a chapter and of those below it.
#![tactic(auto, using(crate::proofs::Outcomes::putting, crate::proofs::Views::views))]

ghost use Rattle.std.specs.Prelude.{◌≡◌, IfOk, string_bytes};
ghost use Rattle.page_model.specs.View.{chapter_of};
ghost use Rattle.web_page.specs.Calls.{FailsOnlyBy, finish_fault};
ghost use Rattle.html_page.specs.Events.{inside, text_in};
ghost use Rattle.html_page.specs.Page.{footer_events, header_events, page_events};
ghost use Rattle.html_page.specs.Promises.{FailsBy, IsHtml, ReadsBack, begun_page, head_fault, page_fault};
ghost use Rattle.html_page.specs.Steps.{Puts};
ghost use Rattle.html_page.specs.View.{frame_of};

use crate::contents::put_nav;
use crate::elements::{end, put_text_in, start};
use crate::frame::{Extent, Frame};
use crate::lines::put_blocks;
use crate::sections::put_main;
use page_model::Chapter;
use std::alloc::Allocator;
use web_page::models::has_ink;
use web_page::{Element, Level, Page, PageError};

const STYLE: &str =
    "html{color-scheme:light dark}body{font:1rem/1.5 sans-serif;max-width:50rem;margin:0 auto;padding:1rem;color:#1b1b1b;background:#fff;overflow-wrap:anywhere}h1,h2,h3{line-height:1.25;margin:1.5rem 0 .5rem}a{color:#0645ad}p,pre,ul,dl{margin:.5rem 0}ul ul{margin:0}pre,code,dt{font-family:ui-monospace,monospace;font-size:.875rem}pre{white-space:pre-wrap;padding:.5rem;background:#f2f2f2}pre code{display:inline-block;max-width:100%}nav>ul>li>ul{columns:15rem}nav li li{break-inside:avoid}nav a:not([href*=':::']){font-weight:bold}section+section,footer{margin-top:2rem;border-top:1px solid #949494}dt{margin-top:.5rem}dt a{text-decoration:none}dt a:hover{text-decoration:underline}dd{margin-left:2rem}dd p{margin:.25rem 0}h3:target,dt:target{background:#fff2c2}@media(max-width:40rem){dd,ul{margin-left:0;padding-left:0}ul{list-style-position:inside}}@media(prefers-color-scheme:dark){body{color:#e6e6e6;background:#161616}a{color:#8ab4f8}pre{background:#262626}h3:target,dt:target{background:#3d3300}}@media print{body{max-width:none;color:#000;background:#fff}a{color:#000}pre,h3:target,dt:target{background:none}pre{border:1px solid #949494;break-inside:avoid}h2,h3,dt{break-after:avoid}}";

fn put_header<A: Allocator, B: Allocator>(
    page: &mut Page<A>,
    top: &Chapter<'_, B>,
) -> Result<(), PageError>
    ensures { Puts page.old (header_events (chapter_of top.now)) page.new result }
{
    start(page, Element::Header)?;
    put_text_in(page, Element::Heading(Level::One), top.title)?;
    put_blocks(page, top.about.as_slice())?;
    end(page)
}

fn put_foot<A: Allocator>(page: &mut Page<A>, foot: &str) -> Result<(), PageError>
    ensures { Puts page.old (inside Element.Footer (text_in Element.P foot.now)) page.new result }
{
    start(page, Element::Footer)?;
    put_text_in(page, Element::P, foot)?;
    end(page)
}

fn put_footer<A: Allocator>(page: &mut Page<A>, foot: &str) -> Result<(), PageError>
    ensures { Puts page.old (footer_events foot.now) page.new result }
{
    if has_ink(foot) {
        put_foot(page, foot)
    } else {
        Ok(())
    }
}

// All that the body holds.
fn put_page<A: Allocator + Copy, B: Allocator>(
    alloc: A,
    page: &mut Page<A>,
    frame: &Frame<'_>,
    top: &Chapter<'_, B>,
) -> Result<(), PageError>
    ensures { Puts page.old (page_events (frame_of frame.now) (chapter_of top.now)) page.new result }
{
    put_header(page, top)?;
    put_nav(alloc, page, frame, top)?;
    put_main(alloc, page, frame, top)?;
    put_footer(page, frame.foot)
}

fn begin<A: Allocator + Copy, B: Allocator>(
    alloc: A,
    frame: &Frame<'_>,
    top: &Chapter<'_, B>,
) -> Result<Page<A>, PageError>
    ensures ok { IfOk result (λ page. page ≡ begun_page (frame_of frame.now) (chapter_of top.now)) }
    ensures fails { FailsOnlyBy (head_fault (frame_of frame.now) (chapter_of top.now)) result }
{
    Page::new(alloc, frame.language, top.title, STYLE)
}

fn finish<A: Allocator>(extent: Extent, page: Page<A>) -> Result<String<A>, PageError>
    ensures reads { IfOk result (λ text. ReadsBack extent page (string_bytes text)) }
    ensures fails { FailsOnlyBy (finish_fault page) result }
{
    match extent {
        Extent::Page => page.finish(),
        Extent::Fragment => page.finish_body(),
    }
}

/// The HTML page of a chapter and of those below it, or what stands in its body. A reader of HTML reads the page,
/// whole, as the tree that the rules give. It reads a fragment as what the body of that tree holds, where the fragment
/// is all that stands in the body of a page, whatever the language and the head of that are; white space may stand
/// before and after it. No promise is made for a body that holds more.
///
/// `Language` and `Title` come where the language is not a language tag, or the title of the top has no ink;
/// `Character` where a text has a control character other than newline and tab, or a noncharacter; `NoInk` where a
/// heading, a paragraph or a list has no ink; `Id` where the title of a chapter is empty; `Misplaced` where a term has
/// a link, or a list has no entries; and `Refused` where an allocation failed. `Style` does not come.
pub fn html_page<A: Allocator + Copy, B: Allocator>(
    alloc: A,
    extent: Extent,
    frame: &Frame<'_>,
    top: &Chapter<'_, B>,
) -> Result<String<A>, PageError>
    ensures reads { IfOk result (λ text.
        IsHtml extent (frame_of frame.now) (chapter_of top.now) (string_bytes text)) }
    ensures fails { FailsBy (page_fault (frame_of frame.now) (chapter_of top.now)) result }
{
    let mut page = begin(alloc, frame, top)?;
    put_page(alloc, &mut page, frame, top)?;
    finish(extent, page)
}
