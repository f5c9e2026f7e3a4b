//! Options, and choices among options.
ghost use Rattle.std.specs.Prelude.{◌≡◌, ◌++◌, ◌∷◌, [], Some, None, true, false, OnErr, OnOk};
ghost use Rattle.description.specs.Calls.{plain_option, spelled_option, syntax_option};
ghost use Rattle.description.specs.Content.{both, long as long_of, short as short_of};
ghost use Rattle.description.specs.View.{choice_said, name_said, opt_said, spelling_said};

use crate::hints::ValueHint;
use std::alloc::{AllocError, Allocator, Global};

/// The name of an option: short, long or both.
#[derive(Clone, Copy, Debug, PartialEq, Eq, PartialOrd, Ord)]
pub enum Name {
    Short(char),
    Long(&'static str),
    Both(char, &'static str),
}

/// How an option is written.
#[derive(Clone, Copy, Debug)]
pub enum Spelling<'a> {
    /// By its name, followed by the word for the value of the option, if it has one.
    Names(Name),
    /// All of it as one text: `--color[=WHEN]`, `-n, --line, --number`, `--[no-]edit`, `if=FILE`. A usage shows
    /// the first of the ways between commas outside brackets that is more than a name, or the first of all. It is not
    /// checked.
    Syntax(&'a str),
}

/// An option, with a value or without one: a flag. It may be left out unless it is `required`, and be given many times
/// if it is `repeated`.
#[derive(Clone, Copy, Debug)]
pub struct Opt<'a> {
    pub spelling: Spelling<'a>,
    /// What the value is called, as `FILE`. Ignored beside a syntax, which says it itself.
    pub value: Option<&'static str>,
    /// The value that is taken where the option is left out.
    pub default: Option<&'a str>,
    /// The values that it may have, as the help shows them: `never, auto, always`.
    pub values: Option<&'a str>,
    /// What a shell offers for the value. Ignored where there are `values`, which are offered then.
    pub hint: ValueHint,
    pub help: Option<&'a str>,
    /// The environment variable that stands for the option: a note in its help.
    pub env: Option<&'static str>,
    pub required: bool,
    pub repeated: bool,
    /// Whether no page shows it.
    pub hidden: bool,
}

impl<'a> Opt<'a> {
    /// A flag with a short and a long name.
    pub fn flag(short: char, long: &'static str) -> Opt<'a>
        ensures { opt_said result ≡ plain_option (both short long.now) }
    {
        Opt::named(Name::Both(short, long))
    }

    /// A flag with a short name alone.
    pub fn short(short: char) -> Opt<'a>
        ensures { opt_said result ≡ plain_option (short_of short) }
    {
        Opt::named(Name::Short(short))
    }

    /// A flag with a long name alone.
    pub fn long(long: &'static str) -> Opt<'a>
        ensures { opt_said result ≡ plain_option (long_of long.now) }
    {
        Opt::named(Name::Long(long))
    }

    /// An option that is written as this text says: `--color[=WHEN]`.
    pub fn syntax(text: &'a str) -> Opt<'a>
        ensures { opt_said result ≡ syntax_option text.now }
    {
        Opt::spelled(Spelling::Syntax(text))
    }

    fn named(name: Name) -> Opt<'a>
        ensures { opt_said result ≡ plain_option (name_said name) }
    {
        Opt::spelled(Spelling::Names(name))
    }

    fn spelled(spelling: Spelling<'a>) -> Opt<'a>
        ensures { opt_said result ≡ spelled_option (spelling_said spelling.entry) }
    {
        Opt {
            spelling,
            value: None,
            default: None,
            values: None,
            hint: ValueHint::File,
            help: None,
            env: None,
            required: false,
            repeated: false,
            hidden: false,
        }
    }

    /// The option with a value. Ignored beside a syntax.
    pub fn value(mut self, value: &'static str) -> Opt<'a>
        ensures { opt_said result ≡ record (opt_said self.entry) { value = Some value.now } }
    {
        self.value = Some(value);
        self
    }

    /// The option with a default, and as one that may be left out.
    pub fn default(mut self, default: &'a str) -> Opt<'a>
        ensures { opt_said result ≡ record (opt_said self.entry) { default = Some default.now; required = false } }
    {
        self.default = Some(default);
        self.required = false;
        self
    }

    /// The option with the values that it may have, as the help shows them: `never, auto, always`.
    pub fn values(mut self, values: &'a str) -> Opt<'a>
        ensures { opt_said result ≡ record (opt_said self.entry) { values = Some values.now } }
    {
        self.values = Some(values);
        self
    }

    /// The option with what a shell offers for its value, where `values` says nothing.
    pub fn hint(mut self, hint: ValueHint) -> Opt<'a>
        ensures { opt_said result ≡ record (opt_said self.entry) { hint = hint } }
    {
        self.hint = hint;
        self
    }

    /// The option with a help text.
    pub fn help(mut self, help: &'a str) -> Opt<'a>
        ensures { opt_said result ≡ record (opt_said self.entry) { help = Some help.now } }
    {
        self.help = Some(help);
        self
    }

    /// The option with an environment variable, which is a note in its help.
    pub fn env(mut self, env: &'static str) -> Opt<'a>
        ensures { opt_said result ≡ record (opt_said self.entry) { env = Some env.now } }
    {
        self.env = Some(env);
        self
    }

    /// The option as one that may not be left out.
    pub fn required(mut self) -> Opt<'a>
        ensures { opt_said result ≡ record (opt_said self.entry) { required = true } }
    {
        self.required = true;
        self
    }

    /// The option as one that may be given many times.
    pub fn repeated(mut self) -> Opt<'a>
        ensures { opt_said result ≡ record (opt_said self.entry) { repeated = true } }
    {
        self.repeated = true;
        self
    }

    /// The option as one that no page shows.
    pub fn hidden(mut self) -> Opt<'a>
        ensures { opt_said result ≡ record (opt_said self.entry) { hidden = true } }
    {
        self.hidden = true;
        self
    }
}

/// Options of which one is given, or none unless the choice is `required`. Whether one of its options is itself
/// required or repeated is ignored.
#[derive(Drop)]
#[derive_where(Debug)]
pub struct Choice<'a, A: Allocator = Global> {
    pub options: Vec<Opt<'a>, A>,
    pub required: bool,
}

impl<'a, A: Allocator> Choice<'a, A> {
    /// A choice of nothing yet, which may be left out.
    pub fn new(alloc: A) -> Choice<'a, A>
        ensures { choice_said result ≡ record { options = []; required = false } }
    {
        Choice {
            options: Vec::new(alloc),
            required: false,
        }
    }

    /// Puts an option last. After `AllocError` the choice is as it was, and what was given is dropped.
    pub fn option(&mut self, option: Opt<'a>) -> Result<(), AllocError>
        ensures ok { OnOk result (choice_said self.new
            ≡ record (choice_said self.old) {
              options = (choice_said self.old).options ++ opt_said option.entry
                  ∷ [];
            }) }
        ensures err { OnErr result (choice_said self.new ≡ choice_said self.old) }
    {
        self.options.push(option)?;
        Ok(())
    }

    /// The choice as one that may not be left out.
    pub fn required(self) -> Choice<'a, A>
        ensures { choice_said result ≡ record (choice_said self.entry) { required = true } }
    {
        Choice {
            options: self.options,
            required: true,
        }
    }
}
