//! The shells, and what differs between them.
ghost use Rattle.std.specs.Prelude.{◌≡◌, ◌<◌, ◌∷◌, [], MatchOption};
ghost use Rattle.completions.specs.Scripts.{head, tail};
ghost use Rattle.completions.specs.Written.{array_letter, command_letter, letter, line_end};

use crate::programs::{BASH_HEAD, BASH_TAIL, FISH_HEAD, FISH_TAIL, ZSH_HEAD, ZSH_TAIL};
use page_model::replaced::StandIns;

/// A shell that completes command lines.
#[derive(Clone, Copy, Debug, PartialEq, Eq)]
pub enum Shell {
    Bash,
    Zsh,
    Fish,
}

impl Shell {
    /// What stands before the data of a script.
    pub fn head(self) -> &'static str
        ensures { result.now ≡ head self }
    {
        match self {
            Shell::Bash => BASH_HEAD,
            Shell::Zsh => ZSH_HEAD,
            Shell::Fish => FISH_HEAD,
        }
    }

    /// What stands after it.
    pub fn tail(self) -> &'static str
        ensures { result.now ≡ tail self }
    {
        match self {
            Shell::Bash => BASH_TAIL,
            Shell::Zsh => ZSH_TAIL,
            Shell::Fish => FISH_TAIL,
        }
    }

    /// What ends a line of the data.
    pub fn line_end(self) -> &'static str
        ensures { result.now ≡ line_end self }
    {
        match self {
            Shell::Bash | Shell::Zsh => "\n",
            Shell::Fish => " \\\n",
        }
    }
}

fn array_escape(byte: u8) -> Option<&'static str>
    ensures { MatchOption result (array_letter byte ≡ byte ∷ [])
        (λ text. (byte < 128) × (array_letter byte ≡ text.now)) }
{
    match byte {
        b'\'' => Some("'\\''"),
        _ => None,
    }
}

fn command_escape(byte: u8) -> Option<&'static str>
    ensures { MatchOption result (command_letter byte ≡ byte ∷ [])
        (λ text. (byte < 128) × (command_letter byte ≡ text.now)) }
{
    match byte {
        b'\'' => Some("\\'"),
        b'\\' => Some("\\\\"),
        _ => None,
    }
}

impl StandIns for Shell {
    ghost replaced = { letter };

    fn stand_in(self, byte: u8) -> Option<&'static str> {
        match self {
            Shell::Bash | Shell::Zsh => array_escape(byte),
            Shell::Fish => command_escape(byte),
        }
    }
}
