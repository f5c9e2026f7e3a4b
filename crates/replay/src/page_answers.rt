//! Answers to requests on help pages.

use crate::application_answers::{add_application_pages, write_sections};
use crate::calls::Call;
use crate::document_answers::{Form, read_extent, read_width, write_form};
use crate::documents::{push_name, read_path};
use crate::fault::Bad;
use crate::lines::Lines;
use crate::printed::write_item;
use crate::request::Request;
use crate::tree_answers::{add_forms, listing, write_group};
use crate::trees::read_info;
use crate::words::Words;
use bpaf_doc::buffer::Doc;
use bpaf_help::meta::Meta;
use bpaf_help::meta_help::{EnvTexts, HelpError, Info, render_help, write_help_item_groups};
use std::alloc::{AllocError, Global};

// Takes names of environment variables, each followed by its value, in parentheses. A last name has an empty one.
fn read_environment(request: &mut Request<'_>) -> EnvTexts {
    request.expect("(");
    let mut environment = EnvTexts::new(request.alloc);
    for _ in 0..request.len() {
        if request.has(")") {
            return environment;
        }
        read_variable(request, &mut environment);
    }
    request.fail(Bad::ENDS_EARLY);
    environment
}

fn read_variable(request: &mut Request<'_>, environment: &mut EnvTexts) {
    let name = request.text();
    let value = match request.peek() {
        Some(")") => "",
        _ => request.text(),
    };
    let done = insert(environment, request.alloc, name, value);
    request.keep(done);
}

// Puts in a value as a page shows it: in quotation marks, with escapes for some characters.
fn insert(
    environment: &mut EnvTexts,
    alloc: Global,
    name: &str,
    value: &str,
) -> Result<(), AllocError> {
    let quoted = format!(in alloc; "{value:?}")?;
    environment.insert(name, quoted.as_str())
}

/// Prints the groups of a tree, as a document.
pub fn answer_groups(request: &mut Request<'_>, words: &mut Words) {
    let include_env = request.flag();
    let environment = read_environment(request);
    let page = groups(words, &request.tree(), include_env, &environment);
    words.document(&page);
}

fn groups(words: &mut Words, tree: &Meta, include_env: bool, environment: &EnvTexts) -> Doc {
    let mut page = Doc::new(words.alloc);
    let items = listing(words, tree);
    let done = write_help_item_groups(&mut page, items, include_env, environment);
    words.keep(done);
    page
}

// What a help page is made of. The help tree is that of the info.
#[derive(Drop)]
struct Application {
    path: Vec<String>,
    include_env: bool,
    environment: EnvTexts,
    info: Info,
    tree: Meta,
}

fn read_application(request: &mut Request<'_>) -> Application {
    let path = read_path(request);
    let include_env = request.flag();
    let environment = read_environment(request);
    let mut info = read_info(request);
    let tree = request.tree();
    info.help = request.tree();
    Application {
        path,
        include_env,
        environment,
        info,
        tree,
    }
}

fn help_page(alloc: Global, app: &Application) -> Result<Doc, HelpError<'_>> {
    render_help(
        alloc,
        app.path.as_slice(),
        &app.info,
        &app.tree,
        &app.info.help,
        app.include_env,
        &app.environment,
    )
}

/// Prints the help page as on the console or as a document, or the item that is misplaced.
pub fn answer_help(request: &mut Request<'_>, call: Call, words: &mut Words) {
    let form = match call {
        Call::Help => Some(Form::Console(read_extent(request), read_width(request))),
        _ => None,
    };
    let app = read_application(request);
    match help_page(words.alloc, &app) {
        Ok(page) => write_page(words, &page, form),
        Err(error) => write_error(words, error),
    }
}

// Prints a document in a form, or as it is.
fn write_page(words: &mut Words, page: &Doc, form: Option<Form>) {
    match form {
        Some(form) => write_form(words, page, form),
        None => words.document(page),
    }
}

/// Prints the item that is misplaced. A refused growth is a fault.
pub fn write_error(words: &mut Words, error: HelpError<'_>) {
    match error {
        HelpError::Misplaced(item) => {
            words.push(" err");
            write_item(words, item);
        }
        HelpError::Memory(_) => words.fail(Bad::Memory),
    }
}

/// Adds all answers to one tree, after what goes with it.
pub fn add_tree_answers(request: &mut Request<'_>, words: &mut Words, lines: &mut Lines) {
    let app = read_tree_of_app(request);
    add_forms(words, &app.tree, lines);
    write_sections(words, "app", &app.tree, &app.info);
    words.end("se", lines);
    write_group(words, &app.tree);
    words.end("fg", lines);
    add_help_pages(words, &app, lines);
    add_groups(words, &app, lines);
    add_application_pages(words, &app.tree, &app.info, lines);
}

// Takes a tree after what goes with it. The path is `app`.
fn read_tree_of_app(request: &mut Request<'_>) -> Application {
    let mut path = Vec::new(request.alloc);
    let done = push_name(&mut path, request.alloc, "app");
    request.keep(done);
    let environment = read_environment(request);
    let mut info = read_info(request);
    info.help = request.tree();
    let tree = request.tree();
    Application {
        path,
        include_env: true,
        environment,
        info,
        tree,
    }
}

// Adds the help page in full and in brief, unless an item is misplaced.
fn add_help_pages(words: &mut Words, app: &Application, lines: &mut Lines) {
    match help_page(words.alloc, app) {
        Ok(page) => {
            write_form(words, &page, Form::Console(true, 100));
            words.end("hf", lines);
            write_form(words, &page, Form::Console(false, 40));
            words.end("hb", lines);
        }
        Err(HelpError::Misplaced(_)) => {}
        Err(HelpError::Memory(_)) => words.fail(Bad::Memory),
    }
}

fn add_groups(words: &mut Words, app: &Application, lines: &mut Lines) {
    let page = groups(words, &app.tree, true, &app.environment);
    write_form(words, &page, Form::Console(true, 60));
    words.end("gr", lines);
}
