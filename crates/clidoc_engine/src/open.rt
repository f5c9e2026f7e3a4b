//! What is left open at the end of a text that is not TOML.

// What begins a string, and what begins a comment. One that is the front of another stands after it.
const MARKS: [&str; 5] = ["\"\"\"", "'''", "\"", "'", COMMENT];

const COMMENT: &str = "#";

/// A string or a bracket that is open.
#[derive(Clone, Copy)]
pub struct Open<'t> {
    /// The text before it.
    pub before: &'t [u8],
    /// What it begins with.
    pub mark: &'static str,
}

/// What is open at the end of the text, before which it is TOML: the string, or else the bracket around all others.
/// None where nothing is.
pub fn open_at_end(text: &[u8]) -> Option<Open<'_>> {
    let mut walk = Walk {
        skipped: 0,
        string: None,
        bracket: None,
        depth: 0,
    };
    for index in 0..text.len() {
        let (before, rest) = text.split_at(index);
        walk.pass(before, rest);
    }
    match walk.string {
        Some(string) if string.mark != COMMENT => Some(string),
        _ => walk.bracket,
    }
}

// What is open on the way through a text.
#[derive(Drop)]
struct Walk<'t> {
    // How many bytes are of a mark that was seen.
    skipped: usize,
    // The string, or the comment.
    string: Option<Open<'t>>,
    // The first of the brackets that are open, and how many are.
    bracket: Option<Open<'t>>,
    depth: usize,
}

impl<'t> Walk<'t> {
    // Passes the first byte of the rest of the text.
    fn pass(&mut self, before: &'t [u8], rest: &[u8]) {
        if self.skipped > 0 {
            self.skipped -= 1;
            return;
        }
        match self.string {
            Some(string) => self.pass_in(string, rest),
            None => self.pass_between(before, rest),
        }
    }

    // Passes it inside of a string. Quotes at the end of one with three are its own.
    fn pass_in(&mut self, string: Open<'t>, rest: &[u8]) {
        let end = end_of(string.mark);
        if rest.starts_with(b"\\") && string.mark.starts_with('"') {
            self.skipped = 1;
        } else if rest.starts_with(end) && !(end.len() == 3 && rest.get(3) == end.first()) {
            self.string = None;
            self.skipped = end.len().saturating_sub(1);
        }
    }

    fn pass_between(&mut self, before: &'t [u8], rest: &[u8]) {
        if let Some(mark) = mark_of(rest) {
            self.string = Some(Open { before, mark });
            self.skipped = mark.len().saturating_sub(1);
            return;
        }
        match rest.first() {
            Some(b'[') => self.open(before, "["),
            Some(b'{') => self.open(before, "{"),
            Some(b']' | b'}') => self.close(),
            _ => {}
        }
    }

    fn open(&mut self, before: &'t [u8], mark: &'static str) {
        if self.depth == 0 {
            self.bracket = Some(Open { before, mark });
        }
        self.depth = self.depth.saturating_add(1);
    }

    fn close(&mut self) {
        self.depth = self.depth.saturating_sub(1);
        if self.depth == 0 {
            self.bracket = None;
        }
    }
}

// The mark at the front of the text.
fn mark_of(text: &[u8]) -> Option<&'static str> {
    for mark in MARKS {
        if text.starts_with(mark.as_bytes()) {
            return Some(mark);
        }
    }
    None
}

// What ends that which begins with the mark.
fn end_of(mark: &str) -> &[u8] {
    if mark == COMMENT {
        b"\n"
    } else {
        mark.as_bytes()
    }
}
