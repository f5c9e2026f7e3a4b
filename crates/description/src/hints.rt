//! What a shell offers for a value.
ghost use Rattle.std.specs.Prelude.{◌≡◌};
ghost use Rattle.description.specs.Hints.{hint_word};

/// What a shell offers for a value without a list of possible values.
#[derive(Clone, Copy, Debug, Default, PartialEq, Eq)]
pub enum ValueHint {
    /// Files, and the folders that lead to them.
    #[default]
    File,
    /// Folders alone.
    Folder,
    Nothing,
    /// The users of the system.
    User,
    /// The hosts that the shell knows.
    Host,
}

impl ValueHint {
    /// What says it in a description: `file`, `folder`, `none`, `user` or `host`.
    pub fn word(self) -> &'static str
        ensures { result.now ≡ hint_word self }
    {
        match self {
            ValueHint::File => "file",
            ValueHint::Folder => "folder",
            ValueHint::Nothing => "none",
            ValueHint::User => "user",
            ValueHint::Host => "host",
        }
    }
}
