//! The fixed words of a page.
ghost use Rattle.std.specs.Prelude.{◌≡◌};
ghost use Rattle.description.specs.Words.{english, words_said};

/// The words that stand on each page, so that a page is in one language. Each is a heading: it has no blanks at its
/// ends and no colon at its end.
#[derive(Clone, Copy, Debug)]
pub struct FixedWords<'a> {
    pub usage: &'a str,
    pub arguments: &'a str,
    pub options: &'a str,
    pub commands: &'a str,
    /// What stands above the places of a page.
    pub contents: &'a str,
    /// What stands above the footer.
    pub notes: &'a str,
    pub default: &'a str,
    pub possible_values: &'a str,
    pub env: &'a str,
    pub aliases: &'a str,
    /// What stands for a command in a usage.
    pub command: &'a str,
    pub name: &'a str,
    pub synopsis: &'a str,
    pub description: &'a str,
    pub see_also: &'a str,
}

impl FixedWords<'static> {
    /// Those of a page in English.
    pub fn english() -> FixedWords<'static>
        ensures { words_said result ≡ english }
    {
        FixedWords {
            usage: "Usage",
            arguments: "Arguments",
            options: "Options",
            commands: "Commands",
            contents: "Contents",
            notes: "Notes",
            default: "default",
            possible_values: "possible values",
            env: "env",
            aliases: "aliases",
            command: "COMMAND",
            name: "Name",
            synopsis: "Synopsis",
            description: "Description",
            see_also: "See also",
        }
    }
}
