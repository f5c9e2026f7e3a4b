//! What stands for a text in a manual page.

ghost use Rattle.std.specs.Prelude.{◌≡◌, [], ◌∷◌, MatchOption};
ghost use Rattle.man_page.specs.Exact.{blank_text, escaped_byte, hyphen_text, percent_text, tab_text};

use page_model::replaced::StandIns;

/// Where a text stands: in lines that are filled, in an item of a usage, in lines of code, or in the title line.
#[derive(Clone, Copy)]
pub enum Role {
    Text,
    Item,
    Code,
    Title,
}

fn stand_in_of_blank(role: Role) -> Option<&'static str>
    ensures { MatchOption result (blank_text role ≡ 32 ∷ []) (λ text. blank_text role ≡ text.now) }
{
    match role {
        Role::Item => Some("\\~"),
        Role::Text | Role::Code | Role::Title => None,
    }
}

fn stand_in_of_newline(role: Role) -> &'static str
    ensures { blank_text role ≡ result.now }
{
    match role {
        Role::Item => "\\~",
        Role::Text | Role::Code | Role::Title => " ",
    }
}

fn stand_in_of_tab(role: Role) -> Option<&'static str>
    ensures { MatchOption result (tab_text role ≡ 9 ∷ []) (λ text. tab_text role ≡ text.now) }
{
    match role {
        Role::Item => Some("\\~"),
        Role::Code => None,
        Role::Text | Role::Title => Some(" "),
    }
}

fn stand_in_of_hyphen(role: Role) -> Option<&'static str>
    ensures { MatchOption result (hyphen_text role ≡ 45 ∷ []) (λ text. hyphen_text role ≡ text.now) }
{
    match role {
        Role::Title => None,
        Role::Text | Role::Item | Role::Code => Some("\\-"),
    }
}

fn stand_in_of_percent(role: Role) -> Option<&'static str>
    ensures { MatchOption result (percent_text role ≡ 37 ∷ []) (λ text. percent_text role ≡ text.now) }
{
    match role {
        Role::Title => Some("\\N'37'"),
        Role::Text | Role::Item | Role::Code => None,
    }
}

impl StandIns for Role {
    ghost replaced = { escaped_byte };

    fn stand_in(self, byte: u8) -> Option<&'static str> {
        match byte {
            b' ' => stand_in_of_blank(self),
            b'\n' => Some(stand_in_of_newline(self)),
            b'\t' => stand_in_of_tab(self),
            b'-' => stand_in_of_hyphen(self),
            b'%' => stand_in_of_percent(self),
            b'\\' => Some("\\e"),
            b'\'' => Some("\\(aq"),
            b'`' => Some("\\(ga"),
            b'^' => Some("\\(ha"),
            b'~' => Some("\\(ti"),
            b'"' => Some("\\(dq"),
            _ => None,
        }
    }
}
