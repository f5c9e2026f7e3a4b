//! Answer lines.

ghost use Rattle.std.specs.Prelude.{◌≡◌, ◌++◌, [], ◌∷◌, ℕ, List, IfOk, OnOk, OnErr, codes, string_bytes};
ghost use Rattle.std.specs.List.{list_any};
ghost use Rattle.replay.specs.Replay.{AreAnswers, is_newline};

use crate::fault::Bad;
use std::alloc::{AllocError, Global};
use std::marker::Model;

/// The answer lines of one request, `= KEY ANSWER` each.
#[derive(Drop)]
pub struct Lines {
    alloc: Global,
    text: String,
}

impl Model for Lines {
    ghost use Rattle.std.specs.Prelude.{ℕ, List, string_bytes};
    ghost use Rattle.replay.specs.Replay.{AreAnswers};

    ghost Value = { List ℕ };

    ghost view = { λ lines. string_bytes lines.text };

    ghost invariant = { λ lines. AreAnswers (string_bytes lines.text) };
}

impl Lines {
    /// No line.
    pub fn new(alloc: Global) -> Lines
        ensures { result ≡ [] }
    {
        Lines {
            alloc,
            text: String::new(alloc),
        }
    }

    /// Adds the line of an answer. One with a newline is refused, and after an error the lines are as they were.
    pub fn add(&mut self, key: &str, answer: &str) -> Result<(), Bad>
        ensures ok { OnOk result ((text : List ℕ) × (self.new ≡ self.old ++ (codes "= " ++ text ++ 10 ∷ []))) }
        ensures err { OnErr result (self.new ≡ self.old) }
    {
        let mut line = answer_line(self.alloc, key, answer)?;
        if has_newline(line.as_str().as_bytes()) {
            return Err(Bad::Words("an answer has a newline"));
        }
        line.push_str("\n")?;
        Ok(self.text.push_str(line.as_str())?)
    }

    /// The lines as one text.
    pub fn as_str(&self) -> &str
        ensures { result.now ≡ self.now }
    {
        self.text.as_str()
    }
}

fn answer_line(alloc: Global, key: &str, answer: &str) -> Result<String, AllocError>
    ensures { IfOk result (λ line. (text : List ℕ) × (string_bytes line ≡ codes "= " ++ text)) }
{
    let mut line = String::from_str(alloc, "= ")?;
    line.push_str(key)?;
    line.push_str(answer)?;
    Ok(line)
}

/// Whether a byte is a newline. It looks at each, whatever came before, so that many are compared at once.
pub fn has_newline(bytes: &[u8]) -> bool
    ensures { result ≡ list_any is_newline bytes.now }
{
    let mut found = false;
    for byte in bytes {
        found |= *byte == b'\n';
    }
    found
}
