//! What words give, one after another, and why they choose nothing.

ghost use Rattle.std.specs.Prelude.{◌≡◌, ◌≢◌, ◌⊎◌, ◌++◌, ◌∷◌, [], List, ℕ, IfErr, IfOk, None, OnOk, Some};
ghost use Rattle.std.specs.Prelude.{codes, option_map};
ghost use Rattle.clidoc_engine.specs.Chosen.{words_said};
ghost use Rattle.clidoc_engine.specs.Reading.{IsRefused, before, given_after, given_of, kind_said, together};
ghost use Rattle.clidoc_engine.specs.Words.{following, given_in, joined_kind, kind_of, only_files, other_kind};
ghost use Rattle.clidoc_engine.specs.Words.{with_value};
ghost use Rattle.clidoc_engine.specs.declared.reading.Valued.TheVariants.{Command, Date, Into, Name, Vendor, Width};

use std::alloc::{AllocError, Allocator};

/// An option with a value.
#[derive(Clone, Copy, Debug, PartialEq, Eq)]
pub enum Valued {
    /// `--command`
    Command,
    /// `--width`
    Width,
    /// `--into`
    Into,
    /// `--date`
    Date,
    /// `--vendor`
    Vendor,
    /// `--name`
    Name,
}

/// An option.
#[derive(Clone, Copy, Debug, PartialEq, Eq)]
pub enum WordOption {
    /// `--deep`
    Deep,
    /// `--fragment`
    Fragment,
    /// `--strict`
    Strict,
    Valued(Valued),
}

/// Why words choose nothing.
#[derive(Debug, Drop)]
pub enum WordFault<'w> {
    /// There is no form among them.
    NoForm,
    /// This is no form.
    NoSuchForm(&'w str),
    /// This is not a form, and a form stands after it.
    FormAfter {
        word: &'w str,
        form: &'w str,
    },
    /// There is no such option.
    NoSuchOption(&'w str),
    /// This option has no value after it.
    NoValue(Valued),
    /// This is not a number of columns.
    NoColumns(&'w str),
    /// There is no shell to complete words in.
    NoShell,
    /// This is no shell.
    NoSuchShell(&'w str),
    /// There is no help text to compare with.
    NoHelp,
    /// The folder to write all pages into is missing.
    NoFolder,
    /// This option is given more than once.
    Twice(WordOption),
    /// This stands after the name of the file, which may have been meant for a command.
    TooMany {
        word: &'w str,
        command: Option<&'w str>,
    },
    /// This option is none of the form that the word names.
    NotWith {
        option: WordOption,
        word: &'w str,
    },
    /// This option stands with other words, where it has to stand alone.
    NotAlone(&'w str),
    /// An allocation failed.
    Refused(AllocError),
}

impl<'w> From<AllocError> for WordFault<'w> {
    ghost from_gives = { λ _ fault. IsRefused fault };

    fn from(error: AllocError) -> WordFault<'w> {
        WordFault::Refused(error)
    }
}

/// What words give: those that stand for themselves, the values of each option, each `--deep`, `--fragment` and
/// `--strict`, and those after `--`, in order.
#[derive(Drop)]
pub(crate) struct Given<'w, A: Allocator> {
    pub plain: Vec<&'w str, A>,
    pub commands: Vec<&'w str, A>,
    pub widths: Vec<&'w str, A>,
    pub folders: Vec<&'w str, A>,
    pub dates: Vec<&'w str, A>,
    pub vendors: Vec<&'w str, A>,
    pub names: Vec<&'w str, A>,
    pub deeps: Vec<&'w str, A>,
    pub fragments: Vec<&'w str, A>,
    pub stricts: Vec<&'w str, A>,
    pub files: Vec<&'w str, A>,
}

/// What the next word is.
#[derive(Clone, Copy)]
pub(crate) enum Next {
    Any,
    /// The value of this option.
    Value(Valued),
    /// A file: `--` stood before.
    File,
}

/// What a word is.
#[derive(Clone, Copy)]
pub(crate) enum Kind<'w> {
    /// `--`: each word after it is a file.
    Dashes,
    /// It stands for itself.
    Plain,
    /// `--deep`
    Deep,
    /// `--fragment`
    Fragment,
    /// `--strict`
    Strict,
    /// An option, whose value is the next word.
    Apart(Valued),
    /// An option with its value.
    Joined(Valued, &'w str),
    Unknown,
}

/// What all the words give. An error where one gives nothing, or an allocation failed.
#[tactic(auto, using(crate::proofs::Gathered::before_nothing, crate::proofs::Gathered::together_nothing, crate::proofs::Gathered::next_word))]
pub(crate) fn given_in<'w, A: Allocator + Copy>(
    alloc: A,
    words: &[&'w str],
) -> Result<Given<'w, A>, WordFault<'w>>
    ensures ok { IfOk result (λ given. given_in (words_said words.now) ≡ Some (given_of given)) }
    ensures err { IfErr result (λ fault. IsRefused fault ⊎ (given_in (words_said words.now) ≡ None)) }
{
    let mut given = Given {
        plain: Vec::new(alloc),
        commands: Vec::new(alloc),
        widths: Vec::new(alloc),
        folders: Vec::new(alloc),
        dates: Vec::new(alloc),
        vendors: Vec::new(alloc),
        names: Vec::new(alloc),
        deeps: Vec::new(alloc),
        fragments: Vec::new(alloc),
        stricts: Vec::new(alloc),
        files: Vec::new(alloc),
    };
    let mut next = Next::Any;
    for word in words {
        next = put_word(&mut given, next, *word)?;
    }
    match next {
        Next::Value(option) => Err(WordFault::NoValue(option)),
        _ => Ok(given),
    }
}

// Puts what the word gives last, and answers what the next one is.
fn put_word<'w, A: Allocator>(
    given: &mut Given<'w, A>,
    next: Next,
    word: &'w str,
) -> Result<Next, WordFault<'w>>
    ensures ok { IfOk result (λ after. (words : List (List ℕ))
        → before (given_of given.old) (given_after next (word.now ∷ words))
        ≡ before (given_of given.new) (given_after after words)) }
    ensures err { IfErr result (λ fault. IsRefused fault
        ⊎ ((words : List (List ℕ)) → given_after next (word.now ∷ words) ≡ None)) }
{
    match next {
        Next::Any => put_any(given, word),
        Next::Value(option) => {
            put_value(given, option, word)?;
            Ok(Next::Any)
        }
        Next::File => {
            put(&mut given.files, word)?;
            Ok(Next::File)
        }
    }
}

fn put_any<'w, A: Allocator>(given: &mut Given<'w, A>, word: &'w str) -> Result<Next, WordFault<'w>>
    ensures ok { IfOk result (λ after. (words : List (List ℕ))
        → before (given_of given.old) (given_in (word.now ∷ words))
        ≡ before (given_of given.new) (given_after after words)) }
    ensures err { IfErr result (λ fault. IsRefused fault
        ⊎ ((words : List (List ℕ)) → given_in (word.now ∷ words) ≡ None)) }
{
    match kind_of(word) {
        Kind::Dashes => return Ok(Next::File),
        Kind::Plain => put(&mut given.plain, word)?,
        Kind::Deep => put(&mut given.deeps, word)?,
        Kind::Fragment => put(&mut given.fragments, word)?,
        Kind::Strict => put(&mut given.stricts, word)?,
        Kind::Joined(option, value) => put_value(given, option, value)?,
        Kind::Apart(option) => return Ok(Next::Value(option)),
        Kind::Unknown => return Err(unknown(word)),
    }
    Ok(Next::Any)
}

// Why a word that begins with `-` gives nothing.
fn unknown(word: &str) -> WordFault<'_> {
    match word {
        "--help" | "-h" | "--version" | "-V" => WordFault::NotAlone(word),
        _ => WordFault::NoSuchOption(word),
    }
}

fn put_value<'w, A: Allocator>(
    given: &mut Given<'w, A>,
    option: Valued,
    value: &'w str,
) -> Result<(), AllocError>
    ensures { OnOk result (given_of given.new
        ≡ together (given_of given.old) (with_value option value.now (only_files []))) }
{
    match option {
        Valued::Command => put(&mut given.commands, value),
        Valued::Width => put(&mut given.widths, value),
        Valued::Into => put(&mut given.folders, value),
        Valued::Date => put(&mut given.dates, value),
        Valued::Vendor => put(&mut given.vendors, value),
        Valued::Name => put(&mut given.names, value),
    }
}

fn put<'w, A: Allocator>(words: &mut Vec<&'w str, A>, word: &'w str) -> Result<(), AllocError>
    ensures { OnOk result (words_said words.new.items ≡ words_said words.old.items ++ word.now ∷ []) }
{
    words.push(word)?;
    Ok(())
}

#[tactic(auto, using(crate::proofs::Gathered::other_word))]
fn kind_of(word: &str) -> Kind<'_>
    ensures { kind_said result ≡ kind_of word.now }
{
    match word {
        "--" => Kind::Dashes,
        "--command" => Kind::Apart(Valued::Command),
        "--width" => Kind::Apart(Valued::Width),
        "--into" => Kind::Apart(Valued::Into),
        "--date" => Kind::Apart(Valued::Date),
        "--vendor" => Kind::Apart(Valued::Vendor),
        "--name" => Kind::Apart(Valued::Name),
        "--deep" => Kind::Deep,
        "--fragment" => Kind::Fragment,
        "--strict" => Kind::Strict,
        "-" => Kind::Plain,
        _ => other_kind(word),
    }
}

// The same of a word that is not an option by itself.
fn other_kind(word: &str) -> Kind<'_>
    requires { word.now ≢ codes "-" }
    ensures { kind_said result ≡ other_kind word.now }
{
    if word.as_bytes().first() == Some(&b'-') {
        joined(word)
    } else {
        Kind::Plain
    }
}

// An option with its value.
fn joined(word: &str) -> Kind<'_>
    ensures { kind_said result ≡ joined_kind (Command ∷ Width ∷ Into ∷ Date ∷ Vendor ∷ Name ∷ []) word.now }
{
    if let Some(value) = following(word, "--command=") {
        Kind::Joined(Valued::Command, value)
    } else if let Some(value) = following(word, "--width=") {
        Kind::Joined(Valued::Width, value)
    } else if let Some(value) = following(word, "--into=") {
        Kind::Joined(Valued::Into, value)
    } else if let Some(value) = following(word, "--date=") {
        Kind::Joined(Valued::Date, value)
    } else if let Some(value) = following(word, "--vendor=") {
        Kind::Joined(Valued::Vendor, value)
    } else if let Some(value) = following(word, "--name=") {
        Kind::Joined(Valued::Name, value)
    } else {
        Kind::Unknown
    }
}

// What follows this front of the word.
fn following<'w>(word: &'w str, front: &str) -> Option<&'w str>
    ensures { option_map (λ rest. rest.now) result ≡ following front.now word.now }
{
    word.strip_prefix(front)
}
