//! The words of a request, and the documents and trees that they stand for.

use crate::documents::read_document;
use crate::encoding::read_text;
use crate::fault::Bad;
use crate::trees::read_tree;
use bpaf_doc::buffer::Doc;
use bpaf_help::meta::Meta;
use lasting_names::Names;
use std::alloc::{AllocError, Global};

// How many levels of trees and documents a line may nest, so that 8 MiB of stack suffice.
const DEEPEST: usize = 500;

// A word by itself, or the document or tree that a word and those after it stand for, with its levels.
#[derive(Clone, Copy)]
enum Term<'a> {
    Word(&'a str),
    Document(usize),
    Tree(usize),
    // a document or a tree with a fault
    Unread(Bad),
}

/// What is left of a line, the next term last. Blanks stand between words, and no word is empty.
///
/// Where a word is not of the kind that is taken, a default is returned. The first such fault is kept, and `end`
/// reports it.
#[derive(Drop)]
pub struct Request<'a> {
    pub alloc: Global,
    names: &'a mut Names,
    terms: Vec<Term<'a>>,
    // those of the terms, in order; after a fault they do not matter, and none is taken
    documents: Vec<Doc>,
    trees: Vec<Meta>,
    // one more than the most levels of the terms that were taken after the word that is being read
    levels: usize,
    fault: Option<Bad>,
}

impl<'a> Request<'a> {
    /// Reads a line from its last word to the first, so what stands after a word is read before it.
    pub fn new(alloc: Global, line: &'a str, names: &'a mut Names) -> Request<'a> {
        let mut request = Request {
            alloc,
            names,
            terms: Vec::new(alloc),
            documents: Vec::new(alloc),
            trees: Vec::new(alloc),
            levels: 0,
            fault: None,
        };
        for word in line.rsplit(' ') {
            if !word.is_empty() {
                request.read(word);
            }
        }
        request
    }

    // Reads a word with those after it that belong to it. A fault in them becomes the term.
    fn read(&mut self, word: &'a str) {
        self.levels = 1;
        let term = self.term(word);
        let kept = match self.fault.take() {
            Some(bad) => Term::Unread(bad),
            None => term,
        };
        if self.terms.push(kept).is_err() {
            self.fail(Bad::Memory);
        }
    }

    fn term(&mut self, word: &'a str) -> Term<'a> {
        if word == "[" {
            let document = read_document(self);
            return self.with_document(document);
        }
        match read_tree(self, word) {
            Some(tree) => self.with_tree(tree),
            None => Term::Word(word),
        }
    }

    fn with_document(&mut self, document: Doc) -> Term<'a> {
        if self.documents.push(document).is_err() {
            self.fail(Bad::Memory);
        }
        Term::Document(self.levels)
    }

    fn with_tree(&mut self, tree: Meta) -> Term<'a> {
        if self.trees.push(tree).is_err() {
            self.fail(Bad::Memory);
        }
        Term::Tree(self.levels)
    }

    /// Keeps a fault if it is the first.
    pub fn fail(&mut self, bad: Bad) {
        if self.fault.is_none() {
            self.fault = Some(bad);
        }
    }

    /// Keeps the error of a call that takes memory, if there was one.
    pub fn keep(&mut self, done: Result<(), AllocError>) {
        if done.is_err() {
            self.fail(Bad::Memory);
        }
    }

    /// No word is left, and there was no fault.
    pub fn end(&self) -> Result<(), Bad> {
        match self.fault {
            Some(bad) => Err(bad),
            None if self.terms.is_empty() => Ok(()),
            None => Err(Bad::Words("words are left over")),
        }
    }

    /// How many terms are left.
    pub fn len(&self) -> usize {
        self.terms.len()
    }

    /// The next word, which stays. In place of a document or a tree, a word that nothing else asks for.
    pub fn peek(&self) -> Option<&'a str> {
        match self.terms.last() {
            Some(Term::Word(word)) => Some(*word),
            Some(_) => Some("skip"),
            None => None,
        }
    }

    /// Takes the next word.
    pub fn word(&mut self) -> &'a str {
        match self.terms.pop() {
            Some(Term::Word(word)) => word,
            Some(_) => "skip",
            None => {
                self.fail(Bad::ENDS_EARLY);
                ""
            }
        }
    }

    /// Takes the next word if it is this one, and returns whether it was.
    pub fn has(&mut self, word: &str) -> bool {
        let is_next = self.peek() == Some(word);
        if is_next {
            let _ = self.word();
        }
        is_next
    }

    /// Takes the next word, which is to be this one.
    pub fn expect(&mut self, word: &str) {
        if self.word() != word {
            self.fail(Bad::Words("another word was expected"));
        }
    }

    /// Takes a word that is 0 or 1.
    pub fn flag(&mut self) -> bool {
        let word = self.word();
        if word != "0" && word != "1" {
            self.fail(Bad::Words("0 or 1 was expected"));
        }
        word == "1"
    }

    /// The text that a word spells, as one that lasts as long as the program.
    pub fn spelled(&mut self, word: &str) -> &'static str {
        match read_text(self.alloc, word) {
            Ok(text) => self.lasting(text.as_str()),
            Err(bad) => {
                self.fail(bad);
                ""
            }
        }
    }

    fn lasting(&mut self, text: &str) -> &'static str {
        match self.names.get(text) {
            Ok(name) => name,
            Err(_) => {
                self.fail(Bad::Memory);
                ""
            }
        }
    }

    /// Takes a word that is a text, with its quote mark.
    pub fn text(&mut self) -> &'static str {
        match self.word().strip_prefix('\'') {
            Some(word) => self.spelled(word),
            None => {
                self.fail(Bad::Words("a text was expected"));
                ""
            }
        }
    }

    /// Takes a text, or `-` where there is none.
    pub fn optional_text(&mut self) -> Option<&'static str> {
        if self.has("-") {
            return None;
        }
        Some(self.text())
    }

    /// Takes texts in parentheses.
    pub fn texts(&mut self) -> Vec<&'static str> {
        self.expect("(");
        let mut texts = Vec::new(self.alloc);
        for _ in 0..self.len() {
            if self.has(")") {
                return texts;
            }
            if texts.push(self.text()).is_err() {
                self.fail(Bad::Memory);
            }
        }
        self.fail(Bad::ENDS_EARLY);
        texts
    }

    /// Takes a text, as its characters.
    pub fn characters(&mut self) -> Vec<char> {
        match self.text().chars().collect(self.alloc) {
            Ok(characters) => characters,
            Err(_) => {
                self.fail(Bad::Memory);
                Vec::new(self.alloc)
            }
        }
    }

    /// Takes a word that is a character, the label, and a text after it.
    pub fn labelled(&mut self) -> (char, &'static str) {
        let mut characters = self.word().chars();
        match (characters.next(), characters.as_str().strip_prefix('\'')) {
            (Some(label), Some(word)) => (label, self.spelled(word)),
            _ => {
                self.fail(Bad::Words("a letter and a text were expected"));
                (' ', "")
            }
        }
    }

    /// Takes a document.
    pub fn document(&mut self) -> Doc {
        match self.terms.pop() {
            Some(Term::Document(levels)) => self.contain(levels),
            other => self.miss(other, "another word was expected"),
        }
        match (self.fault, self.documents.pop()) {
            (None, Some(document)) => document,
            _ => Doc::new(self.alloc),
        }
    }

    /// Takes a document, or `-` where there is none.
    pub fn optional_document(&mut self) -> Option<Doc> {
        if self.has("-") {
            return None;
        }
        Some(self.document())
    }

    /// Takes a tree.
    pub fn tree(&mut self) -> Meta {
        match self.terms.pop() {
            Some(Term::Tree(levels)) => self.contain(levels),
            other => self.miss(other, "a tree was expected"),
        }
        match (self.fault, self.trees.pop()) {
            (None, Some(tree)) => tree,
            _ => Meta::Skip,
        }
    }

    // Keeps the fault of a term that stands in place of what was wanted.
    fn miss(&mut self, term: Option<Term<'a>>, wanted: &'static str) {
        self.fail(match term {
            Some(Term::Unread(bad)) => bad,
            Some(_) => Bad::Words(wanted),
            None => Bad::ENDS_EARLY,
        });
    }

    // Counts the levels of a term that was taken.
    fn contain(&mut self, levels: usize) {
        if levels > DEEPEST {
            self.fail(Bad::Words("nested too deep"));
        } else {
            self.levels = self.levels.max(levels + 1);
        }
    }
}
