//! Answers to requests on the pages of an application.

use crate::calls::Call;
use crate::documents::push_name;
use crate::lines::Lines;
use crate::page_answers::write_error;
use crate::request::Request;
use crate::trees::read_info;
use crate::words::Words;
use bpaf_help::meta::Meta;
use bpaf_help::meta_help::Info;
use bpaf_help::pages::{
    DocSection, Section, extract_sections, render_html, render_manpage, render_markdown,
};
use bpaf_roff::escape::APOSTROPHE_PREABMLE;

/// Prints the sections of an application, or its pages as HTML or markdown.
pub fn answer_application(request: &mut Request<'_>, call: Call, words: &mut Words) {
    let name = request.text();
    let info = read_info(request);
    let tree = request.tree();
    match call {
        Call::Sections => write_sections(words, name, &tree, &info),
        Call::ApplicationHtml => write_pages(words, name, &tree, &info, true),
        _ => write_pages(words, name, &tree, &info, false),
    }
}

// Prints the pages as HTML or markdown, or the item that is misplaced.
fn write_pages<'a>(words: &mut Words, name: &str, tree: &'a Meta, info: &'a Info, as_html: bool) {
    let text = match as_html {
        true => render_html(words.alloc, name, tree, info),
        false => render_markdown(words.alloc, name, tree, info),
    };
    match text {
        Ok(text) => words.text(" ", text.as_str()),
        Err(error) => write_error(words, error),
    }
}

/// Prints the paths of the sections.
pub fn write_sections<'a>(words: &mut Words, name: &str, tree: &'a Meta, info: &'a Info) {
    let mut path = Vec::new(words.alloc);
    let named = push_name(&mut path, words.alloc, name);
    words.keep(named);
    let mut sections: Vec<DocSection<'a>> = Vec::new(words.alloc);
    let done = extract_sections(tree, info, &mut path, &mut sections);
    words.keep(done);
    words.push(" [");
    for section in &sections {
        write_path(words, &section.path);
    }
    words.push(" ]");
}

fn write_path(words: &mut Words, path: &[String]) {
    words.push(" (");
    for name in path {
        words.text(" ", name.as_str());
    }
    words.push(" )");
}

/// Prints the manual page of an application.
pub fn answer_manual(request: &mut Request<'_>, words: &mut Words) {
    let name = request.text();
    let section = section_of(request.text());
    let date = request.optional_text();
    let vendor = request.optional_text();
    let title = request.optional_text();
    let info = read_info(request);
    let tree = request.tree();
    let page = render_manpage(
        words.alloc,
        name,
        section,
        date,
        vendor,
        title,
        &tree,
        &info,
    );
    words.page(page);
}

fn section_of(text: &str) -> Section<'_> {
    match text {
        "1" => Section::General,
        "2" => Section::SystemCall,
        "3" => Section::LibraryFunction,
        "4" => Section::SpecialFile,
        "5" => Section::FileFormat,
        "6" => Section::Game,
        "7" => Section::Misc,
        "8" => Section::Sysadmin,
        _ => Section::Custom(text),
    }
}

/// Adds the pages of the application `app`: as HTML, as markdown and as a manual page.
pub fn add_application_pages<'a>(
    words: &mut Words,
    tree: &'a Meta,
    info: &'a Info,
    lines: &mut Lines,
) {
    write_pages(words, "app", tree, info, true);
    words.end("ah", lines);
    write_pages(words, "app", tree, info, false);
    words.end("am", lines);
    write_bare_manual(words, tree, info);
    words.end("mn", lines);
}

// Prints the manual page of the application `app`, without the preamble and the title line.
fn write_bare_manual(words: &mut Words, tree: &Meta, info: &Info) {
    let page = render_manpage(
        words.alloc,
        "app",
        Section::General,
        None,
        None,
        None,
        tree,
        info,
    );
    words.page_without_heads(&[APOSTROPHE_PREABMLE, ".TH app 1 - - \"\"\n"], page);
}
