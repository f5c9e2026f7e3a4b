//! What is said of words that choose nothing.

use crate::meant::Named;
use crate::reading::{Valued, WordFault, WordOption};
use description_toml::words::nearest;
use std::alloc::{AllocError, Global};
use std::fmt::Write;

const FORMS: [&str; 12] = [
    "usage", "full", "brief", "man", "markdown", "html", "complete", "json", "check", "all",
    "draft", "against",
];

const SHELLS: [&str; 3] = ["bash", "zsh", "fish"];

const OPTIONS: [&str; 11] = [
    "--command",
    "--deep",
    "--width",
    "--fragment",
    "--strict",
    "--into",
    "--date",
    "--vendor",
    "--name",
    "--help",
    "--version",
];

/// The line for standard error. For a word that is unknown it names the one that is near, or else those that there
/// are.
pub fn line_of(global: Global, fault: &WordFault<'_>) -> Result<String, AllocError> {
    let mut line = String::from_str(global, "clidoc: ")?;
    match fault {
        WordFault::NoForm => line.push_str("no form")?,
        WordFault::NoSuchForm(word) => put(&mut line, "no form ", word)?,
        WordFault::FormAfter { word, form } => put_turned(&mut line, word, form)?,
        WordFault::NoSuchOption(word) => put(&mut line, "no option ", word)?,
        WordFault::NoValue(option) => {
            line.push_str(valued_word(*option))?;
            line.push_str(" needs a value")?;
        }
        WordFault::NoColumns(word) => {
            put(
                &mut line,
                "--width is a number of columns from 1 on, and not ",
                word,
            )?
        }
        WordFault::NoShell => line.push_str("complete needs a shell")?,
        WordFault::NoSuchShell(word) => put(&mut line, "no shell ", word)?,
        WordFault::NoHelp => {
            line.push_str("against needs what a program prints for help: against HELP [FILE]")?
        }
        WordFault::NoFolder => line.push_str("all needs a folder: --into FOLDER")?,
        WordFault::Twice(option) => {
            line.push_str(word_of(*option))?;
            line.push_str(" stands twice")?;
        }
        WordFault::NotAlone(word) => put(&mut line, "other words stand beside ", word)?,
        WordFault::TooMany { word, command } => put_many(&mut line, word, *command)?,
        WordFault::NotWith { option, word } => {
            line.push_str(word_of(*option))?;
            put(&mut line, " is no option of ", word)?;
            put_all(&mut line, "; it goes with ", forms_of(*option))?;
        }
        WordFault::Refused(_) => line.push_str("no memory")?,
    }
    put_known(&mut line, global, fault)?;
    Ok(line)
}

fn word_of(option: WordOption) -> &'static str {
    match option {
        WordOption::Deep => "--deep",
        WordOption::Fragment => "--fragment",
        WordOption::Strict => "--strict",
        WordOption::Valued(option) => valued_word(option),
    }
}

fn valued_word(option: Valued) -> &'static str {
    match option {
        Valued::Command => "--command",
        Valued::Width => "--width",
        Valued::Into => "--into",
        Valued::Date => "--date",
        Valued::Vendor => "--vendor",
        Valued::Name => "--name",
    }
}

/// Whether the word is a form.
pub fn is_form(word: &str) -> bool {
    FORMS.contains(&word)
}

// The forms that take the option.
fn forms_of(option: WordOption) -> &'static [&'static str] {
    match option {
        WordOption::Deep => &["man", "markdown"],
        WordOption::Fragment => &["html"],
        WordOption::Strict => &["check"],
        WordOption::Valued(Valued::Command) => &[
            "usage", "full", "brief", "man", "markdown", "html", "against",
        ],
        WordOption::Valued(Valued::Width) => &["usage", "full", "brief"],
        WordOption::Valued(Valued::Into) => &["all"],
        WordOption::Valued(Valued::Name) => &["draft"],
        WordOption::Valued(Valued::Date | Valued::Vendor) => &["man", "html", "all"],
    }
}

fn put(line: &mut String, words: &str, word: &str) -> Result<(), AllocError> {
    line.push_str(words)?;
    match write!(line, "{}", Named(word)) {
        Ok(()) => Ok(()),
        Err(_) => Err(AllocError),
    }
}

// A word that is not a form, with a form after it, and the words that were meant.
fn put_turned(line: &mut String, word: &str, form: &str) -> Result<(), AllocError> {
    put(line, "no form ", word)?;
    put(line, "; the form comes first: clidoc ", form)?;
    put(line, " ", word)
}

// A word after that of the file, which may have been meant for a command.
fn put_many(line: &mut String, word: &str, file: Option<&str>) -> Result<(), AllocError> {
    put(line, "one word too many: ", word)?;
    match file {
        Some(command) if may_be_command(command) => {
            put(line, "; if ", command)?;
            put(line, " is a command, write --command ", command)
        }
        _ => Ok(()),
    }
}

fn may_be_command(file: &str) -> bool {
    file != "-" && !file.contains('.') && !file.contains('/')
}

// What the word may have been, or all words that stand in its place.
fn put_known(line: &mut String, global: Global, fault: &WordFault<'_>) -> Result<(), AllocError> {
    match fault {
        WordFault::NoForm => put_all(line, "; forms are ", &FORMS),
        WordFault::NoSuchForm(word) => match meant_form(global, word)? {
            Some(form) => put_question(line, form),
            None => put_all(line, "; forms are ", &FORMS),
        },
        WordFault::NoShell | WordFault::NoSuchShell(_) => put_all(line, "; shells are ", &SHELLS),
        WordFault::NoSuchOption(word) => match nearest(global, before_value(word), &OPTIONS)? {
            Some(option) => put_question(line, option),
            None => put_all(line, "; options are ", &OPTIONS),
        },
        _ => Ok(()),
    }
}

// What a word may be that is no form: another word for one, or one that is written much alike.
fn meant_form(global: Global, word: &str) -> Result<Option<&'static str>, AllocError> {
    match word {
        "help" => Ok(Some("--help")),
        "version" => Ok(Some("--version")),
        "md" => Ok(Some("markdown")),
        "completion" | "completions" => Ok(Some("complete")),
        _ => nearest(global, word, &FORMS),
    }
}

// An option without the value after its `=`.
fn before_value(word: &str) -> &str {
    match word.split_once('=') {
        Some((option, _)) => option,
        None => word,
    }
}

fn put_question(line: &mut String, word: &str) -> Result<(), AllocError> {
    line.push_str("; is it ")?;
    line.push_str(word)?;
    line.push('?')?;
    Ok(())
}

fn put_all(line: &mut String, words: &str, known: &[&str]) -> Result<(), AllocError> {
    line.push_str(words)?;
    for (index, word) in known.iter().enumerate() {
        if index > 0 {
            line.push_str(if index + 1 == known.len() {
                " and "
            } else {
                ", "
            })?;
        }
        line.push_str(*word)?;
    }
    Ok(())
}
