//! Values that are taken by their place.
ghost use Rattle.std.specs.Prelude.{◌≡◌, Some, None, true, false};
ghost use Rattle.description.specs.View.{positional_said};
ghost use Rattle.description.specs.declared.hints.ValueHint.TheVariants.{File};

use crate::hints::ValueHint;

/// A value that is taken by its place. It has to be given if it is `required`, many of it are taken if it is
/// `repeated`, and it stands after `--` if it is `strict`.
#[derive(Clone, Copy, Debug)]
pub struct Positional<'a> {
    /// What the value is called, as `FILE`.
    pub value: &'static str,
    /// The value that is taken where it is left out.
    pub default: Option<&'a str>,
    /// The values that it may have, as the help shows them: `never, auto, always`.
    pub values: Option<&'a str>,
    /// What a shell offers for it. Ignored where there are `values`, which are offered then.
    pub hint: ValueHint,
    pub help: Option<&'a str>,
    pub required: bool,
    pub repeated: bool,
    pub strict: bool,
    /// Whether no page shows it.
    pub hidden: bool,
}

impl<'a> Positional<'a> {
    /// A value that has to be given, once.
    pub fn new(value: &'static str) -> Positional<'a>
        ensures { positional_said result
            ≡ record {
              value = value.now;
              default = None;
              values = None;
              hint = File;
              help = None;
              required = true;
              repeated = false;
              strict = false;
              hidden = false;
            } }
    {
        Positional {
            value,
            default: None,
            values: None,
            hint: ValueHint::File,
            help: None,
            required: true,
            repeated: false,
            strict: false,
            hidden: false,
        }
    }

    /// The value with a default, and as one that may be left out.
    pub fn default(mut self, default: &'a str) -> Positional<'a>
        ensures { positional_said result
            ≡ record (positional_said self.entry) { default = Some default.now; required = false } }
    {
        self.default = Some(default);
        self.optional()
    }

    /// The value with the values that it may have, as the help shows them: `never, auto, always`.
    pub fn values(mut self, values: &'a str) -> Positional<'a>
        ensures { positional_said result ≡ record (positional_said self.entry) { values = Some values.now } }
    {
        self.values = Some(values);
        self
    }

    /// The value with what a shell offers for it, where `values` says nothing.
    pub fn hint(mut self, hint: ValueHint) -> Positional<'a>
        ensures { positional_said result ≡ record (positional_said self.entry) { hint = hint } }
    {
        self.hint = hint;
        self
    }

    /// The value with a help text.
    pub fn help(mut self, help: &'a str) -> Positional<'a>
        ensures { positional_said result ≡ record (positional_said self.entry) { help = Some help.now } }
    {
        self.help = Some(help);
        self
    }

    /// The value as one that may be left out.
    pub fn optional(mut self) -> Positional<'a>
        ensures { positional_said result ≡ record (positional_said self.entry) { required = false } }
    {
        self.required = false;
        self
    }

    /// The value as one of which many are taken.
    pub fn repeated(mut self) -> Positional<'a>
        ensures { positional_said result ≡ record (positional_said self.entry) { repeated = true } }
    {
        self.repeated = true;
        self
    }

    /// The value as one that stands after `--`.
    pub fn strict(mut self) -> Positional<'a>
        ensures { positional_said result ≡ record (positional_said self.entry) { strict = true } }
    {
        self.strict = true;
        self
    }

    /// The value as one that no page shows.
    pub fn hidden(mut self) -> Positional<'a>
        ensures { positional_said result ≡ record (positional_said self.entry) { hidden = true } }
    {
        self.hidden = true;
        self
    }
}
