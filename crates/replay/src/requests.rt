//! Requests, and which answers each has.

use crate::application_answers::{answer_application, answer_manual};
use crate::calls::{CALLS, Call, find};
use crate::document_answers::{add_document_answers, answer_document, answer_form, answer_roff};
use crate::fault::Bad;
use crate::lines::Lines;
use crate::page_answers::{add_tree_answers, answer_groups, answer_help};
use crate::pieces::{answer_chunks, answer_escape, answer_monoid, answer_roff_calls};
use crate::request::Request;
use crate::run::Answerer;
use crate::tree_answers::{
    answer_either, answer_first_name, answer_heading, answer_matches, answer_tree, answer_use,
};
use crate::words::Words;
use lasting_names::Names;
use std::alloc::Global;

/// What answers requests: the library, with the names that were asked for so far.
#[derive(Drop)]
pub struct Library {
    alloc: Global,
    names: Names,
}

impl Library {
    /// No name was asked for yet.
    pub fn new(alloc: Global) -> Library {
        Library {
            alloc,
            names: Names::new(alloc),
        }
    }
}

impl Answerer for Library {
    /// Adds the answers to the request of a line.
    fn add_answers(&mut self, line: &str, lines: &mut Lines) -> Result<(), Bad> {
        let mut words = Words::new(self.alloc);
        let mut request = Request::new(self.alloc, line, &mut self.names);
        answer(&mut request, &mut words, lines);
        words.finish()?;
        request.end()
    }
}

fn answer(request: &mut Request<'_>, words: &mut Words, lines: &mut Lines) {
    let key = request.word();
    match find(&CALLS, key) {
        Some(Call::AllOfDocument) => add_document_answers(request, words, lines),
        Some(Call::AllOfTree) => add_tree_answers(request, words, lines),
        Some(call) => {
            write_answer(request, call, words);
            words.end(key, lines);
        }
        None => words.fail(Bad::Words("no such request")),
    }
}

// Prints the answer to a request that has one.
fn write_answer(request: &mut Request<'_>, call: Call, words: &mut Words) {
    match call {
        Call::Console | Call::Html | Call::Markdown => answer_form(request, call, words),
        Call::Parts | Call::FirstLine | Call::IsEmpty => answer_document(request, call, words),
        Call::Roff => answer_roff(request, words),
        Call::Chunks => answer_chunks(request, words),
        Call::RoffCalls => answer_roff_calls(request, words),
        Call::Escape => answer_escape(request, words),
        Call::Monoid => answer_monoid(request, words),
        Call::Normal | Call::Usage | Call::UsageMarkdown | Call::UsageParts => {
            answer_use(request, call, words)
        }
        Call::Either => answer_either(request, words),
        Call::Matches => answer_matches(request, words),
        Call::FirstName => answer_first_name(request, words),
        Call::ItemsOfType => answer_heading(request, words),
        Call::Groups => answer_groups(request, words),
        Call::Help | Call::HelpParts => answer_help(request, call, words),
        Call::ApplicationHtml | Call::ApplicationMarkdown | Call::Sections => {
            answer_application(request, call, words)
        }
        Call::Manual => answer_manual(request, words),
        _ => answer_tree(request, call, words),
    }
}
