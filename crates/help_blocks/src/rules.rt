//! Which lines begin a block, and of which kind.

ghost use Rattle.std.specs.Prelude.{◌≡◌};
ghost use Rattle.help_blocks.specs.Rules as rules;

use crate::place::{Kind, Open, Place};
use crate::shape::Shape;
use crate::subject::Subject;

fn is_entry(kind: Kind) -> bool
    ensures { result ≡ rules.is_entry kind }
{
    matches!(kind, Kind::Option | Kind::Command | Kind::Value)
}

fn is_deeper(block: Open, here: Shape) -> bool
    ensures { result ≡ rules.is_deeper block here }
{
    block.indent < here.indent
}

fn is_far(block: Open, here: Shape) -> bool
    ensures { result ≡ rules.is_far block here }
{
    here.indent.saturating_sub(block.indent) > 6
}

fn is_at_help(help: Option<usize>, here: Shape) -> bool
    ensures { result ≡ rules.is_at_help help here }
{
    match help {
        None => false,
        Some(indent) => indent <= here.indent,
    }
}

fn is_help(block: Open, help: Option<usize>, here: Shape) -> bool
    ensures { result ≡ rules.is_help block help here }
{
    if here.is_option {
        is_far(block, here) || is_at_help(help, here)
    } else {
        !(block.is_choice && here.is_word) || is_far(block, here)
    }
}

fn is_usage_still(block: Open, here: Shape) -> bool
    ensures { result ≡ rules.is_usage_still block here }
{
    is_deeper(block, here) && !here.is_usage && (is_far(block, here) || !here.is_option)
}

fn is_below_title(title: Option<usize>, here: Shape) -> bool
    ensures { result ≡ rules.is_below_title title here }
{
    match title {
        None => false,
        Some(indent) => indent < here.indent,
    }
}

fn is_in_choice(block: Option<Open>, here: Shape) -> bool
    ensures { result ≡ rules.is_in_choice block here }
{
    match block {
        None => false,
        Some(block) => block.is_choice && is_deeper(block, here),
    }
}

fn is_in_list(block: Option<Open>) -> bool
    ensures { result ≡ rules.is_in_list block }
{
    match block {
        None => false,
        Some(block) => is_entry(block.kind) || matches!(block.kind, Kind::Title),
    }
}

fn is_further_command(block: Option<Open>, here: Shape) -> bool
    ensures { result ≡ rules.is_further_command block here }
{
    match block {
        None => false,
        Some(block) => matches!(block.kind, Kind::Command)
            && here.is_word
            && block.indent <= here.indent,
    }
}

fn listed_value(block: Option<Open>) -> Option<Kind>
    ensures { result ≡ rules.listed_value block }
{
    is_in_list(block).then_some(Kind::Value)
}

fn leads(here: Shape, next: Shape) -> bool
    ensures { result ≡ rules.leads here next }
{
    here.indent < next.indent && !next.is_empty
}

fn is_above_option(here: Shape, next: Shape) -> bool
    ensures { result ≡ rules.is_above_option here next }
{
    next.is_option && !(next.is_empty && here.is_word)
}

fn is_plain_title(is_after_blank: bool, here: Shape, next: Shape) -> bool
    ensures { result ≡ rules.is_plain_title is_after_blank here next }
{
    is_after_blank && leads(here, next) && (next.is_option || next.is_code || here.is_in_capitals)
}

fn listed(place: Place, here: Shape) -> Option<Kind>
    ensures { result ≡ rules.listed place here }
{
    if !is_below_title(place.title, here) {
        return None;
    }
    if here.is_choice {
        return Some(Kind::Value);
    }
    match place.subject {
        Subject::Commands if here.is_word => Some(Kind::Command),
        Subject::Values => listed_value(place.block),
        Subject::Examples => Some(Kind::Code),
        _ => None,
    }
}

fn plain_kind(place: Place, here: Shape, next: Shape) -> Kind
    ensures { result ≡ rules.plain_kind place here next }
{
    if is_plain_title(place.is_after_blank, here, next) {
        Kind::Title
    } else if here.is_code {
        Kind::Code
    } else {
        Kind::Text
    }
}

fn unmarked_kind(place: Place, here: Shape, next: Shape) -> Kind
    ensures { result ≡ rules.unmarked_kind place here next }
{
    match listed(place, here) {
        Some(kind) => kind,
        None => plain_kind(place, here, next),
    }
}

fn kind(place: Place, here: Shape, next: Shape) -> Kind
    ensures { result ≡ rules.kind_of place here next }
{
    if here.is_empty {
        Kind::Text
    } else if here.is_usage {
        Kind::Usage
    } else if here.is_option {
        Kind::Option
    } else if is_in_choice(place.block, here) || is_further_command(place.block, here) {
        Kind::Command
    } else if here.ends_with_colon
        && (place.is_after_blank || leads(here, next) || is_above_option(here, next))
    {
        Kind::Title
    } else {
        unmarked_kind(place, here, next)
    }
}

fn goes_on_directly(block: Open, place: Place, here: Shape, next: Shape) -> bool
    ensures { result ≡ rules.goes_on_directly block place here next }
{
    match block.kind {
        Kind::Usage => is_usage_still(block, here),
        Kind::Text => matches!(kind(place, here, next), Kind::Text),
        Kind::Code => {
            matches!(kind(place, here, next), Kind::Code) || (block.is_typed && here.is_option)
        }
        _ => false,
    }
}

fn goes_on(place: Place, here: Shape, next: Shape) -> bool
    ensures { result ≡ rules.goes_on place here next }
{
    let Some(block) = place.block else {
        return false;
    };
    if here.is_empty {
        true
    } else if is_entry(block.kind) && is_deeper(block, here) {
        is_help(block, place.help, here)
    } else if place.is_after_blank {
        false
    } else {
        goes_on_directly(block, place, here, next)
    }
}

impl Place {
    /// The kind of block that a line begins. None where it belongs to the block of the line above.
    pub fn begun(self, here: Shape, next: Shape) -> Option<Kind>
        ensures { result ≡ rules.begun self here next }
    {
        if goes_on(self, here, next) {
            None
        } else {
            Some(kind(self, here, next))
        }
    }
}
