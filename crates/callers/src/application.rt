//! A help page, and the pages of an application.

ghost use Rattle.std.specs.Prelude.{◌≡◌, true, false, IfOk, None, codes, map, string_bytes};
ghost use Rattle.bpaf_doc.specs.Console.Exact.{console_page};
ghost use Rattle.bpaf_doc.specs.Html.Exact.{html_page};
ghost use Rattle.bpaf_doc.specs.Markdown.Exact.{markdown_page};
ghost use Rattle.bpaf_meta.specs.View.{head_of, tree_of};
ghost use Rattle.bpaf_items.specs.Page.EnvTexts.{texts_in};
ghost use Rattle.bpaf_items.specs.Page.PageAnswers.{IsHelpPageAnswer};
ghost use Rattle.bpaf_items.specs.View.{answer_of};
ghost use Rattle.bpaf_help.specs.PageAnswers.{collected_document, manual_text};

use bpaf_doc::buffer::Doc;
use bpaf_help::meta::Meta;
use bpaf_help::meta_help::{EnvTexts, HelpError, Info, render_help};
use bpaf_help::pages::{ManualTitle, Section, collect_html};
use std::alloc::Global;

/// The help page of a program, without the texts of its environment.
pub fn help_page<'m>(
    alloc: Global,
    path: &[String],
    info: &Info,
    parser: &'m Meta,
    texts: &EnvTexts,
) -> Result<Doc, HelpError<'m>>
    ensures { IsHelpPageAnswer (map string_bytes path.now) (head_of info.now) (tree_of parser.now)
        (tree_of info.now.help) false (texts_in texts.now) (answer_of result) }
{
    render_help(alloc, path, info, parser, &info.help, false, texts)
}

/// The pages of an application as texts.
#[derive(Drop)]
pub struct Texts {
    pub console: String,
    pub html: String,
    pub markdown: String,
    pub manual: String,
}

/// The pages of an application: for a console of 100 columns, as HTML, as markdown and as a page of section 1 of
/// the manual.
pub fn texts_of<'m>(
    alloc: Global,
    app: &str,
    parser: &'m Meta,
    info: &'m Info,
) -> Result<Texts, HelpError<'m>>
    ensures console { IfOk result (λ texts. string_bytes texts.console
        ≡ console_page true 100 (collected_document app.now (tree_of parser.now) (head_of info.now))) }
    ensures html { IfOk result (λ texts. string_bytes texts.html
        ≡ html_page true false (collected_document app.now (tree_of parser.now) (head_of info.now))) }
    ensures markdown { IfOk result (λ texts. string_bytes texts.markdown
        ≡ markdown_page true (collected_document app.now (tree_of parser.now) (head_of info.now))) }
    ensures manual { IfOk result (λ texts. string_bytes texts.manual
        ≡ manual_text app.now (codes "1") None None None (tree_of parser.now) (head_of info.now)) }
{
    let pages = collect_html(alloc, app, parser, info)?;
    Ok(Texts {
        console: pages.render_console(alloc, true, 100)?,
        html: pages.render_html(alloc, true, false)?,
        markdown: pages.render_markdown(alloc, true)?,
        manual: ManualTitle::new(Section::General).page(alloc, app, parser, info)?,
    })
}
