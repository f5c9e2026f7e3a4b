//! The words of an answer, printed.

use crate::encoding::{write_character, write_characters, write_text};
use crate::fault::Bad;
use crate::lines::Lines;
use bpaf_doc::buffer::{Block, Doc, Part, Style};
use bpaf_help::item::ShortLong;
use std::alloc::{AllocError, Global};
use std::mem;

// Stands for the answer of the line before.
const SAME: &str = " ^";

/// The words of an answer, each with a blank before it. The first fault is kept, and `finish` reports it: what is
/// printed afterwards does not matter.
#[derive(Drop)]
pub struct Words {
    pub alloc: Global,
    text: String,
    // the answer before; there is none yet where it is empty, since a blank begins each answer
    last: String,
    fault: Option<Bad>,
}

impl Words {
    /// No word.
    pub fn new(alloc: Global) -> Words {
        Words {
            alloc,
            text: String::new(alloc),
            last: String::new(alloc),
            fault: None,
        }
    }

    /// Ends the answer, and adds its line. An answer that is the one before is printed as `^`.
    pub fn end(&mut self, key: &str, lines: &mut Lines) {
        let added = match self.text.as_str() == self.last.as_str() {
            true => lines.add(key, SAME),
            false => lines.add(key, self.text.as_str()),
        };
        if let Err(bad) = added {
            self.fail(bad);
        }
        mem::swap(&mut self.text, &mut self.last);
        self.text.clear();
    }

    /// There was no fault.
    pub fn finish(&self) -> Result<(), Bad> {
        match self.fault {
            Some(bad) => Err(bad),
            None => Ok(()),
        }
    }

    /// Keeps a fault if it is the first.
    pub fn fail(&mut self, bad: Bad) {
        if self.fault.is_none() {
            self.fault = Some(bad);
        }
    }

    /// Keeps the error of a call that takes memory, if there was one.
    pub fn keep(&mut self, done: Result<(), AllocError>) {
        if done.is_err() {
            self.fail(Bad::Memory);
        }
    }

    /// Prints what stands for itself.
    pub fn push(&mut self, words: &str) {
        let done = self.text.push_str(words);
        self.keep(done);
    }

    /// Prints ` 1` if something holds, and else ` 0`.
    pub fn bit(&mut self, is_so: bool) {
        self.push(if is_so { " 1" } else { " 0" });
    }

    /// Prints a number after what stands before it.
    pub fn number(&mut self, before: &str, number: usize) {
        let done = write!(self.text, "{before}{number}");
        self.keep(done);
    }

    /// Prints a text after what stands before its quote mark.
    pub fn text(&mut self, before: &str, text: &str) {
        self.push(before);
        let done = write_text(&mut self.text, text);
        self.keep(done);
    }

    /// Prints a text, or `-` for none.
    pub fn optional_text(&mut self, text: Option<&str>) {
        match text {
            None => self.push(" -"),
            Some(text) => self.text(" ", text),
        }
    }

    /// Prints the text that a call made.
    pub fn page(&mut self, page: Result<String, AllocError>) {
        self.page_without_heads(&[], page);
    }

    /// Prints the text that a call made, without these texts at its head.
    pub fn page_without_heads(&mut self, heads: &[&str], page: Result<String, AllocError>) {
        match page {
            Ok(page) => self.text(" ", without_heads(heads, page.as_str())),
            Err(_) => self.fail(Bad::Memory),
        }
    }

    /// Prints characters as they stand in a text.
    pub fn characters(&mut self, before: &str, characters: &[char]) {
        self.push(before);
        for character in characters {
            let done = write_character(&mut self.text, *character);
            self.keep(done);
        }
    }

    /// Prints a label, which stands for itself, except a newline, which no line has.
    pub fn label(&mut self, label: char) {
        let done = match label {
            '\n' => write_character(&mut self.text, label),
            _ => self.text.push(label),
        };
        self.keep(done);
    }

    /// Prints a name after a word.
    pub fn name(&mut self, before: &str, name: ShortLong) {
        self.push(before);
        match name {
            ShortLong::Short(short) => self.characters("s'", &[short]),
            ShortLong::Long(long) => self.text("l", long),
            ShortLong::Both(short, long) => {
                self.characters("b'", &[short]);
                let done = write_characters(&mut self.text, long);
                self.keep(done);
            }
        }
    }

    /// Prints a document. A text after one of its own style has a comma before it.
    pub fn document(&mut self, document: &Doc) {
        self.push(" [");
        let mut last = None;
        for part in document.parts() {
            last = self.part(part, last);
        }
        self.push(" ]");
    }

    // Prints a part after a text of a style or another part. Returns the style if it is a text.
    fn part(&mut self, part: Part<'_>, last: Option<Style>) -> Option<Style> {
        match part {
            Part::Text(text, style) => {
                self.push(if last == Some(style) { " ," } else { " " });
                self.text(style_code(style), text);
                return Some(style);
            }
            Part::Start(block) => {
                self.push(" <");
                self.push(block_code(block));
            }
            Part::End(block) => {
                self.push(" >");
                self.push(block_code(block));
            }
        }
        None
    }

    /// Prints a document, or `-` for none.
    pub fn optional_document(&mut self, document: Option<&Doc>) {
        match document {
            None => self.push(" -"),
            Some(document) => self.document(document),
        }
    }
}

// A text without these texts at its head.
fn without_heads<'a>(heads: &[&str], text: &'a str) -> &'a str {
    let mut rest = text;
    for head in heads {
        rest = rest.strip_prefix(*head).unwrap_or(rest);
    }
    rest
}

fn style_code(style: Style) -> &'static str {
    match style {
        Style::Text => "T",
        Style::Emphasis => "E",
        Style::Literal => "L",
        Style::Metavar => "M",
        Style::Invalid => "I",
    }
}

fn block_code(block: Block) -> &'static str {
    match block {
        Block::Header => "H",
        Block::Section2 => "2",
        Block::Section3 => "3",
        Block::Section4 => "4",
        Block::ItemTerm => "t",
        Block::ItemBody => "b",
        Block::DefinitionList => "d",
        Block::Block => "B",
        Block::InlineBlock => "i",
        Block::TermRef => "r",
        Block::Meta => "m",
        Block::Mono => "o",
    }
}
