//! What programs have in common: the words that choose what one does, and the status of its run.

ghost use Rattle.std.specs.Prelude.{◌≡◌, IfOk, OnErr};
ghost use Rattle.std.specs.Process.{exit_status};

use std::env::FillError;
use std::fmt::Display;
use std::process::ExitCode;
use std::rt::Env;
use std::str::from_utf8;
use std::{env, io};

/// The status of a run whose words do not say what the program is to do.
pub const WRONG_WORDS: u8 = 2;

/// Reads the words after the program's name, and returns what `follow` returns for them. An error comes before `follow`
/// is called: a word is not a text, or a growth was refused.
pub fn with_words<R: Alloc + Env, T, F: FnOnce(&[&str]) -> T + Drop>(
    rt: &R,
    follow: F,
) -> io::Result<T>
    requires { F.IsAlwaysCallable follow }
{
    let arguments: Vec<String<R::A>, R::A> = env::args(rt)?.skip(1).collect(rt.alloc())?;
    let words: Vec<&str, R::A> = arguments
        .iter()
        .map(|word| word.as_str())
        .collect(rt.alloc())?;
    Ok(follow(&words))
}

/// Which word of the command line is the first that is not UTF-8, where the program's name is word 0. None where each
/// is, or where memory does not last.
pub fn garbled_word<R: Alloc + Env>(rt: &R) -> Option<usize> {
    for index in 0..usize::MAX {
        if !is_text(rt, index)? {
            return Some(index);
        }
    }
    None
}

// Whether this word of the command line is UTF-8. None where there is no such word, or memory does not last.
fn is_text<R: Alloc + Env>(rt: &R, index: usize) -> Option<bool> {
    let mut room = 256usize;
    for _ in 0..usize::BITS {
        let mut bytes = vec![in rt.alloc(); 0u8; room].ok()?;
        match rt.arg(index, &mut bytes) {
            Ok(length) => return Some(from_utf8(&bytes[..length]).is_ok()),
            Err(FillError::TooLong) => room = room.checked_mul(2)?,
            Err(FillError::NotPresent) => return None,
        }
    }
    None
}

/// Says on standard error which words are expected, and returns `WRONG_WORDS`.
pub fn expecting<R: Eprint>(rt: &R, line: &str) -> ExitCode
    ensures { exit_status result ≡ WRONG_WORDS }
{
    let _ = eprintln!(rt; "{line}");
    ExitCode::from(WRONG_WORDS)
}

/// The status of a run: the one that it returns, or `FAILURE`, and then its fault is reported on standard error.
pub fn status_of<R: Eprint, F: Display + Drop>(rt: &R, outcome: Result<ExitCode, F>) -> ExitCode
    ensures ok { IfOk outcome (λ status. result ≡ status) }
    ensures err { OnErr outcome (result ≡ ExitCode.FAILURE) }
{
    match outcome {
        Ok(status) => status,
        Err(fault) => {
            let _ = eprintln!(rt; "{fault}");
            ExitCode::FAILURE
        }
    }
}
