//! Why a text gives no table: the first fault in it.
ghost use Rattle.std.specs.Prelude.{IfOk};
ghost use Rattle.description_json.specs.Steps.{Begins, IsIn};

use crate::data::number_data;
use crate::error::{JsonFault, Why};
use crate::strings::string_fault;
use json::{Reader, Scratch, Token};
use std::alloc::{AllocError, Global};
use std::collections::BTreeSet;
use toml_parser::RECURSION_LIMIT;

const SPACE: [char; 4] = [' ', '\t', '\n', '\r'];

/// The first fault of a text that gives no table.
pub fn fault_of<'t>(alloc: Global, text: &'t str) -> Result<JsonFault<'t>, AllocError>
    ensures { IfOk result (λ fault. IsIn text.now fault) }
{
    let (at, why) = first_fault(alloc, text)?;
    Ok(JsonFault {
        before: before(text, at),
        why,
    })
}

// The text before the place; all of it where there is no such place.
fn before(text: &str, at: usize) -> &str
    ensures { Begins text.now result.now }
{
    match text.split_at_checked(at) {
        Some((before, _)) => before,
        None => text,
    }
}

fn first_fault(alloc: Global, text: &str) -> Result<(usize, Why), AllocError> {
    let mut scratch = Scratch::new(alloc);
    let mut reader = Reader::new(text, &mut scratch)?;
    let mut walk = Walk::new(alloc, text);
    let mut at = reader.offset();
    while let Some(token) = reader.next() {
        if let Token::Bad = token {
            return Ok(walk.bad(at));
        }
        if let Some(why) = walk.take(alloc, token, at)? {
            return Ok((at, why));
        }
        at = reader.offset();
    }
    Ok(walk.end())
}

// What a token has to be.
#[derive(Clone, Copy)]
enum Awaited {
    Object,
    Key,
    Value,
    Element,
    Nothing,
}

// An array or an object that is open.
#[derive(Drop)]
struct Open<'s> {
    start: usize,
    /// The keys of an object.
    keys: Option<BTreeSet<&'s str>>,
    /// A key of the object stands there whose value is still to come.
    has_key: bool,
}

impl Open<'_> {
    fn opening(&self) -> char {
        match self.keys {
            Some(_) => '{',
            None => '[',
        }
    }
}

// How far the walk has come.
#[derive(Drop)]
struct Walk<'s> {
    text: &'s str,
    open: Vec<Open<'s>>,
    is_over: bool,
}

impl<'s> Walk<'s> {
    fn new(alloc: Global, text: &'s str) -> Walk<'s> {
        Walk {
            text,
            open: Vec::new(alloc),
            is_over: false,
        }
    }

    fn awaited(&self) -> Awaited {
        match self.open.last() {
            None if self.is_over => Awaited::Nothing,
            None => Awaited::Object,
            Some(open) if open.has_key => Awaited::Value,
            Some(open) if open.keys.is_some() => Awaited::Key,
            Some(_) => Awaited::Element,
        }
    }

    // Goes over the token at this place, and returns the fault there, if there is one.
    fn take(
        &mut self,
        alloc: Global,
        token: Token<'s>,
        at: usize,
    ) -> Result<Option<Why>, AllocError> {
        match token {
            Token::Key(name) => self.take_key(name),
            Token::EndObject => Ok(self.close('}')),
            Token::EndArray => Ok(self.close(']')),
            Token::BeginObject => self.begin(at, Some(BTreeSet::new(alloc))),
            Token::BeginArray => self.begin(at, None),
            Token::Null => Ok(self.take_value(Why::NoKey).or(Some(Why::Null))),
            Token::Number(text) => match self.take_value(Why::NoKey) {
                None if number_data(alloc, text)?.is_none() => Ok(Some(Why::Number)),
                fault => Ok(fault),
            },
            Token::String(_) => Ok(self.take_value(Why::NoColon)),
            Token::Bool(_) => Ok(self.take_value(Why::NoKey)),
            Token::Bad => Ok(Some(Why::NoJson)),
        }
    }

    fn take_key(&mut self, name: &'s str) -> Result<Option<Why>, AllocError> {
        match self.awaited() {
            Awaited::Key => {}
            Awaited::Object => return Ok(Some(Why::NoObject)),
            Awaited::Nothing => return Ok(Some(Why::Trailing)),
            Awaited::Value | Awaited::Element => return Ok(Some(Why::NoValue)),
        }
        let Some(open) = self.open.last_mut() else {
            return Ok(None);
        };
        open.has_key = true;
        let Some(keys) = &mut open.keys else {
            return Ok(None);
        };
        if keys.insert(name)? {
            Ok(None)
        } else {
            Ok(Some(Why::Twice))
        }
    }

    // Takes a value, or an opening bracket below the top. Where a key has to stand, this is the fault.
    fn take_value(&mut self, no_key: Why) -> Option<Why> {
        match self.awaited() {
            Awaited::Value => {
                if let Some(open) = self.open.last_mut() {
                    open.has_key = false;
                }
                None
            }
            Awaited::Element => None,
            Awaited::Key => Some(no_key),
            Awaited::Object => Some(Why::NoObject),
            Awaited::Nothing => Some(Why::Trailing),
        }
    }

    fn begin(
        &mut self,
        start: usize,
        keys: Option<BTreeSet<&'s str>>,
    ) -> Result<Option<Why>, AllocError> {
        let is_top = keys.is_some() && matches!(self.awaited(), Awaited::Object);
        if !is_top {
            if let Some(fault) = self.take_value(Why::NoKey) {
                return Ok(Some(fault));
            }
        }
        if self.open.len() == RECURSION_LIMIT {
            return Ok(Some(Why::Deep));
        }
        self.open.push(Open {
            start,
            keys,
            has_key: false,
        })?;
        Ok(None)
    }

    fn close(&mut self, bracket: char) -> Option<Why> {
        match self.awaited() {
            Awaited::Key if bracket == '}' => self.pop(),
            Awaited::Element if bracket == ']' => self.pop(),
            Awaited::Key => Some(Why::NoComma('}')),
            Awaited::Element => Some(Why::NoComma(']')),
            Awaited::Value => Some(Why::NoValue),
            Awaited::Object => Some(Why::NoObject),
            Awaited::Nothing => Some(Why::Trailing),
        }
    }

    fn pop(&mut self) -> Option<Why> {
        drop(self.open.pop());
        self.is_over = self.open.is_empty();
        None
    }

    // The fault of a text that is over.
    fn end(&self) -> (usize, Why) {
        match self.open.last() {
            Some(open) => (open.start, Why::NotClosed(open.opening())),
            None if self.is_over => (0, Why::NoJson),
            None => (self.text.len(), Why::NoObject),
        }
    }

    // The fault where no token of JSON stands, or none that may stand there.
    fn bad(&self, at: usize) -> (usize, Why) {
        let text = self.text.as_bytes();
        let Some(byte) = text.get(at) else {
            return self.end();
        };
        match (last_before(self.text, at), *byte) {
            (Some(b','), b'}' | b']') => (at, Why::LastComma),
            (None | Some(b'{' | b'[' | b',' | b':'), b'"') => match string_fault(text, at) {
                Some(fault) => fault,
                None => (at, Why::NoJson),
            },
            (None | Some(b'{' | b'[' | b',' | b':'), _) => (at, self.missing()),
            _ => (at, self.no_comma()),
        }
    }

    // What is missing where a value or a key may begin.
    fn missing(&self) -> Why {
        match self.awaited() {
            Awaited::Object => Why::NoObject,
            Awaited::Key => Why::NoKey,
            Awaited::Value | Awaited::Element => Why::NoValue,
            Awaited::Nothing => Why::Trailing,
        }
    }

    // What is missing after a value.
    fn no_comma(&self) -> Why {
        match self.awaited() {
            Awaited::Key | Awaited::Value => Why::NoComma('}'),
            Awaited::Element => Why::NoComma(']'),
            Awaited::Object => Why::NoObject,
            Awaited::Nothing => Why::Trailing,
        }
    }
}

// The last byte before the place that is not white space.
fn last_before(text: &str, at: usize) -> Option<u8> {
    let (before, _) = text.split_at_checked(at)?;
    before.trim_end_matches(SPACE).as_bytes().last().copied()
}
