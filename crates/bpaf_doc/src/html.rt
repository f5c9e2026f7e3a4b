//! A document as HTML and as markdown. `fragments` says for both what is shown, one piece after another; `page` writes
//! the pieces as HTML, and `markdown` as markdown.
ghost use Rattle.std.specs.Prelude.{◌≡◌, ◌≤◌, ◌++◌, length, not, IsTrue, MatchOption, OnOk, string_bytes};
ghost use Rattle.std.specs.List.{flat_map, list_all};
ghost use Rattle.memchr.specs.Find.{is_byte2};
ghost use Rattle.bpaf_doc.specs.Html.Page.{styles_of};
ghost use Rattle.bpaf_doc.specs.Html.Steps.View.{spelling_of, when, IsPlain, IsFirstSpelled};

use self::spelling::{BLOCK, ROOM, fill};
use crate::buffer::Style;
use memchr::memchr2;
use std::alloc::{AllocError, Allocator};
use std::str;

mod fragments;
mod markdown;
mod page;
mod spelling;

/// What a style turns on.
#[derive(Clone, Copy, Debug, Default, PartialEq, Eq)]
pub struct Styles {
    pub mono: bool,
    pub bold: bool,
    pub italic: bool,
}

impl From<Style> for Styles {
    ghost from_gives = { λ style styles. styles ≡ styles_of style };

    fn from(style: Style) -> Self {
        match style {
            Style::Text => Styles::default(),
            Style::Emphasis | Style::Invalid => Styles {
                mono: false,
                bold: true,
                italic: false,
            },
            Style::Literal => Styles {
                mono: true,
                bold: true,
                italic: false,
            },
            Style::Metavar => Styles {
                mono: true,
                bold: false,
                italic: true,
            },
        }
    }
}

// The tag or mark if it is turned on, otherwise nothing.
fn when(on: bool, mark: &'static str) -> &'static str
    ensures { result.now ≡ when on mark.now }
{
    if on { mark } else { "" }
}

// A language that spells some characters of a text differently. All of these are ASCII.
#[derive(Clone, Copy)]
enum Language {
    Html,
    Markdown,
}

impl Language {
    // The place of the first character with another spelling.
    #[tactic(auto, using(crate::proofs::lemmas::Html::Spelled::finds_html, crate::proofs::lemmas::Html::Spelled::finds_markdown))]
    fn find(self, text: &str) -> Option<usize>
        ensures { MatchOption result (IsPlain self text.now) (λ at. IsFirstSpelled self text.now at) }
    {
        match self {
            Language::Html => memchr2(b'<', b'>', text.as_bytes()),
            Language::Markdown => memchr2(b'[', b']', text.as_bytes()),
        }
    }

    // Whether no character has another spelling.
    #[tactic(auto, using(crate::proofs::lemmas::Html::Spelled::plain_html, crate::proofs::lemmas::Html::Spelled::plain_markdown))]
    fn is_plain(self, bytes: &[u8]) -> bool
        ensures { IsTrue result → IsPlain self bytes.now }
    {
        match self {
            Language::Html => has_neither(bytes, b'<', b'>'),
            Language::Markdown => has_neither(bytes, b'[', b']'),
        }
    }
}

// Whether neither byte is among these. It looks at each byte, even after it found one, so that it looks at many at
// once.
#[inline(always)]
fn has_neither(bytes: &[u8], one: u8, other: u8) -> bool
    ensures { result ≡ list_all (λ byte. not (is_byte2 one other byte)) bytes.now }
{
    let mut neither = true;
    for byte in bytes {
        neither &= *byte != one && *byte != other;
    }
    neither
}

// Appends a block in the language's spelling. The spelling of each character is a text, so the bytes are not checked.
#[inline(always)]
fn push_block<B: Allocator>(
    out: &mut String<B>,
    block: &str,
    language: Language,
) -> Result<(), AllocError>
    requires short { length block.now ≤ BLOCK }
    ensures { OnOk result (string_bytes out.new ≡ string_bytes out.old ++ flat_map (spelling_of language) block.now) }
{
    let mut room = [0; ROOM];
    let end = fill(&mut room, language, block.as_bytes());
    out.push_str(unsafe { str::from_utf8_unchecked(&room[..end]) })
}

// Appends the text in the language's spelling. A run of characters that stay as they are is appended whole, and what
// follows it as a block, since characters with another spelling are often near each other. A short text without such
// characters is appended whole too: a search for the first of them would go byte by byte.
fn push_spelled<B: Allocator>(
    out: &mut String<B>,
    text: &str,
    language: Language,
) -> Result<(), AllocError>
    ensures { OnOk result (string_bytes out.new ≡ string_bytes out.old ++ flat_map (spelling_of language) text.now) }
{
    if text.len() <= BLOCK && language.is_plain(text.as_bytes()) {
        return out.push_str(text);
    }
    let mut rest = text;
    while let Some(at) = language.find(rest) {
        out.push_str(&rest[..at])?;
        let spelled = &rest[at..];
        let (block, after) = spelled.split_at(spelled.floor_char_boundary(BLOCK));
        push_block(out, block, language)?;
        rest = after;
    }
    out.push_str(rest)
}
