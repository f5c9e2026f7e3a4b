//! The manual page of an application.
ghost use Rattle.std.specs.Prelude.{◌≡◌, ◌++◌, IfOk, None, Some, map, string_bytes};
ghost use Rattle.bpaf_doc.specs.Manpage.Page.{title_arguments, title_page};
ghost use Rattle.bpaf_meta.specs.View.{head_of, text_of, tree_of};
ghost use Rattle.bpaf_help.specs.PageAnswers.{IsManualOf, manual_document, manual_text};
ghost use Rattle.bpaf_help.specs.View.{section_name};

use crate::pages::manual_writes::{put_chapters, put_synopsis};
use crate::pages::section::Section;
use crate::pages::sections::sections_of;
use bpaf_doc::buffer::Doc;
use bpaf_doc::laws::titled_page;
use bpaf_items::meta_help::Info;
use bpaf_meta::meta::Meta;
use bpaf_roff::roff::Roff;
use std::alloc::{AllocError, Allocator};

/// The manual page of an application and of all its commands. It begins with the preamble for apostrophes and a title
/// line, which has the application, the section, the date, the vendor and the title. A date or vendor that is not given
/// is written as `-`, and a title that is not given as `""`, like any empty word. Whether items are misplaced is not
/// checked. `AllocError` says that an allocation failed. The rules are those of `docs/pages.md`.
pub fn render_manpage<A: Allocator + Copy, B: Allocator + Copy>(
    alloc: A,
    app: &str,
    section: Section<'_>,
    date: Option<&str>,
    vendor: Option<&str>,
    title: Option<&str>,
    meta: &Meta<B>,
    info: &Info<B>,
) -> Result<String<A>, AllocError>
    ensures read { IfOk result (λ text. IsManualOf app.now (section_name section.entry)
        (text_of date.entry) (text_of vendor.entry) (text_of title.entry)
        (tree_of meta.now) (head_of info.now) (string_bytes text)) }
    ensures exact { IfOk result (λ text. string_bytes text ≡ manual_text app.now (section_name section.entry)
        (text_of date.entry) (text_of vendor.entry) (text_of title.entry)
        (tree_of meta.now) (head_of info.now)) }
{
    titled_page();
    let document = manual_document(alloc, app, meta, info)?;
    let page = title_page(
        alloc,
        &[
            app,
            section.as_str(),
            date.unwrap_or("-"),
            vendor.unwrap_or("-"),
            title.unwrap_or(""),
        ],
    )?;
    document.into_roff(page)
}

/// What follows the application's name in the title line of a manual page. It makes a page like this:
/// `ManualTitle::new(Section::General).date("2026-01-01").page(alloc, "app", &tree, &info)`.
#[derive(Clone, Copy)]
pub struct ManualTitle<'a> {
    pub section: Section<'a>,
    pub date: Option<&'a str>,
    pub vendor: Option<&'a str>,
    pub title: Option<&'a str>,
}

impl<'a> ManualTitle<'a> {
    /// A title line with this section, without a date, a vendor and a title.
    pub fn new(section: Section<'a>) -> ManualTitle<'a>
        ensures { result ≡ record { section = section.entry; date = None; vendor = None; title = None } }
    {
        ManualTitle {
            section,
            date: None,
            vendor: None,
            title: None,
        }
    }

    /// The same with this date.
    pub fn date(self, date: &'a str) -> ManualTitle<'a>
        ensures { result ≡ record self.entry { date = Some date.entry } }
    {
        ManualTitle {
            date: Some(date),
            ..self
        }
    }

    /// The same with this vendor: the name and version of what the application belongs to.
    pub fn vendor(self, vendor: &'a str) -> ManualTitle<'a>
        ensures { result ≡ record self.entry { vendor = Some vendor.entry } }
    {
        ManualTitle {
            vendor: Some(vendor),
            ..self
        }
    }

    /// The same with this title.
    pub fn title(self, title: &'a str) -> ManualTitle<'a>
        ensures { result ≡ record self.entry { title = Some title.entry } }
    {
        ManualTitle {
            title: Some(title),
            ..self
        }
    }

    /// The page that `render_manpage` makes with this title line, with the same error.
    pub fn page<A: Allocator + Copy, B: Allocator + Copy>(
        self,
        alloc: A,
        app: &str,
        meta: &Meta<B>,
        info: &Info<B>,
    ) -> Result<String<A>, AllocError>
        ensures read { IfOk result (λ text. IsManualOf app.now (section_name self.entry.section)
            (text_of self.entry.date) (text_of self.entry.vendor) (text_of self.entry.title)
            (tree_of meta.now) (head_of info.now) (string_bytes text)) }
        ensures exact { IfOk result (λ text. string_bytes text ≡ manual_text app.now (section_name self.entry.section)
            (text_of self.entry.date) (text_of self.entry.vendor) (text_of self.entry.title)
            (tree_of meta.now) (head_of info.now)) }
    {
        let ManualTitle {
            section,
            date,
            vendor,
            title,
        } = self;
        render_manpage(alloc, app, section, date, vendor, title, meta, info)
    }
}

// A page with only this title line.
fn title_page<A: Allocator + Copy>(alloc: A, words: &[&str]) -> Result<Roff<A>, AllocError>
    ensures { IfOk result (λ page. page ≡ title_page (map (λ w. w.now) words.now)) }
{
    let mut page = Roff::new(alloc);
    page.append_control("TH", words)?;
    Ok(page)
}

fn manual_document<A: Allocator + Copy, B: Allocator + Copy>(
    alloc: A,
    app: &str,
    meta: &Meta<B>,
    info: &Info<B>,
) -> Result<Doc<A>, AllocError>
    ensures { IfOk result (λ document. document ≡ manual_document app.now (tree_of meta.now) (head_of info.now)) }
{
    let sections = sections_of(alloc, app, meta, info)?;
    let mut document = Doc::new(alloc);
    put_synopsis(&mut document, &sections)?;
    put_chapters(alloc, &mut document, app, sections.len() > 1, &sections)?;
    Ok(document)
}
