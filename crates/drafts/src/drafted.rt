//! The keys and tables of a draft.
ghost use Rattle.std.specs.Prelude.{◌≡◌, ◌++◌, IfOk, OnOk, codes, drop, flat_map, map, string_bytes};
ghost use Rattle.std.specs.Str.{trim};
ghost use Rattle.toml_pieces.specs.Toml as toml;
ghost use Rattle.toml_pieces.specs.View.{piece_said};
ghost use Rattle.drafts.specs.Drafts as spec;
ghost use Rattle.drafts.specs.Usages as usages;
ghost use Rattle.drafts.specs.View.{form_said, held, passage_said, placed_said};

use crate::entries::push_entry;
use crate::free::Words;
use crate::passages::Passage;
use crate::places::{Placed, Role, is_title};
use crate::seen::title_text;
use crate::strays::{options_in, push_strays};
use crate::texts::{empty_piece, push_passage};
use crate::usages::{Form, usage_pieces};
use std::alloc::{AllocError, Allocator};
use toml_pieces::{Piece, push_left_out, push_table, push_text, push_word};

/// A text that passages are gathered for.
#[derive(Clone, Copy)]
pub enum Text {
    About,
    Header,
    Footer,
    Topic,
}

impl Text {
    fn has(self, role: Role) -> bool
        ensures { result ≡ spec.is_in self role }
    {
        match (self, role) {
            (Text::About, Role::About) => true,
            (Text::Header, Role::Header) => true,
            (Text::Footer, Role::Footer) => true,
            (Text::Topic, Role::InTopic) => true,
            _ => false,
        }
    }
}

// ---- texts

fn spaced<'a, A: Allocator>(
    alloc: A,
    text: Text,
    placed: &[Placed<'a>],
) -> Result<Vec<Piece<'a>, A>, AllocError>
    ensures { IfOk result (λ pieces. map piece_said pieces.items
        ≡ flat_map (spec.spaced text) (map placed_said placed.now)) }
{
    let mut pieces = Vec::new(alloc);
    for one in placed {
        if text.has(one.role) {
            pieces.push(empty_piece())?;
            push_passage(&mut pieces, one.passage)?;
        }
    }
    Ok(pieces)
}

fn after_first<'a, 'b>(pieces: &'b [Piece<'a>]) -> &'b [Piece<'a>]
    ensures { map piece_said result.now ≡ drop 1 (map piece_said pieces.now) }
{
    match pieces {
        [] => pieces,
        [_, others @ ..] => others,
    }
}

fn push_gathered<A: Allocator + Copy>(
    alloc: A,
    out: &mut String<A>,
    key: &str,
    text: Text,
    placed: &[Placed<'_>],
) -> Result<(), AllocError>
    ensures { OnOk result (string_bytes out.new
        ≡ string_bytes out.old ++ toml.text_at key.now (spec.gathered text (map placed_said placed.now))) }
{
    let pieces = spaced(alloc, text, placed)?;
    push_text(out, key, after_first(&pieces))
}

// Up to the next title.
fn below_title<'a, 'b>(below: &'b [Placed<'a>]) -> &'b [Placed<'a>]
    ensures { map placed_said result.now ≡ spec.below_title (map placed_said below.now) }
{
    for (index, one) in below.iter().enumerate() {
        if is_title(one.passage.kind) {
            return &below[..index];
        }
    }
    below
}

// ---- tables

fn push_titled<A: Allocator>(
    out: &mut String<A>,
    name: &str,
    passage: Passage<'_>,
) -> Result<(), AllocError>
    ensures { OnOk result (string_bytes out.new
        ≡ string_bytes out.old ++ spec.titled name.now (passage_said passage.entry)) }
{
    push_table(out, name)?;
    push_word(out, "title", title_text(passage.first_line()))
}

fn push_topic<A: Allocator + Copy>(
    alloc: A,
    out: &mut String<A>,
    passage: Passage<'_>,
    below: &[Placed<'_>],
) -> Result<(), AllocError>
    ensures { OnOk result (string_bytes out.new
        ≡ string_bytes out.old ++ spec.topic (passage_said passage.entry) (map placed_said below.now)) }
{
    push_titled(out, "topic", passage)?;
    push_gathered(alloc, out, "text", Text::Topic, below_title(below))
}

fn push_usual_title<A: Allocator>(
    out: &mut String<A>,
    passage: Passage<'_>,
) -> Result<(), AllocError>
    ensures { OnOk result (string_bytes out.new
        ≡ string_bytes out.old ++ spec.usual_title (passage_said passage.entry)) }
{
    out.push_str("\n# ")?;
    out.push_str(passage.first_line().trim())?;
    out.push_str("\n")
}

fn push_lines_left_out<A: Allocator>(out: &mut String<A>, lines: &[&str]) -> Result<(), AllocError>
    ensures { OnOk result (string_bytes out.new
        ≡ string_bytes out.old ++ flat_map toml.left_out (map (λ line. line.now) lines.now)) }
{
    for line in lines {
        push_left_out(out, line)?;
    }
    Ok(())
}

fn push_placed<'a, A: Allocator + Copy>(
    alloc: A,
    out: &mut String<A>,
    taken: &mut Words<'a, A>,
    placed: Placed<'a>,
    below: &[Placed<'a>],
) -> Result<(), AllocError>
    ensures text { OnOk result (string_bytes out.new ≡ string_bytes out.old ++ spec.placed_text
        (held taken.old) placed.entry.role (passage_said placed.entry.passage) (map placed_said below.now)) }
    ensures after { OnOk result (held taken.new
        ≡ spec.after_role (held taken.old) placed.entry.role (passage_said placed.entry.passage)) }
{
    match placed.role {
        Role::Topic => push_topic(alloc, out, placed.passage, below),
        Role::Group => push_titled(out, "group", placed.passage),
        Role::Usual => push_usual_title(out, placed.passage),
        Role::Entry => push_entry(alloc, out, taken, false, placed.passage),
        Role::Member => push_entry(alloc, out, taken, true, placed.passage),
        Role::LeftOut => push_lines_left_out(out, placed.passage.lines),
        Role::Nothing | Role::Usage | Role::About | Role::Header => Ok(()),
        Role::Footer | Role::InTopic => Ok(()),
    }
}

fn push_tables<'a, A: Allocator + Copy>(
    alloc: A,
    out: &mut String<A>,
    taken: &mut Words<'a, A>,
    placed: &[Placed<'a>],
) -> Result<(), AllocError>
    ensures text { OnOk result (string_bytes out.new
        ≡ string_bytes out.old ++ spec.tables (held taken.old) (map placed_said placed.now)) }
    ensures after { OnOk result (held taken.new
        ≡ spec.taken_from (held taken.old) (map placed_said placed.now)) }
{
    let mut rest = placed;
    while let [first, below @ ..] = rest {
        push_placed(alloc, out, taken, *first, below)?;
        rest = below;
    }
    Ok(())
}

// ---- the whole

fn push_usage<A: Allocator + Copy>(
    alloc: A,
    out: &mut String<A>,
    forms: &[Form<'_>],
) -> Result<(), AllocError>
    ensures { OnOk result (string_bytes out.new ≡ string_bytes out.old
        ++ toml.text_at (codes "usage") (usages.usage_pieces (map form_said forms.now))) }
{
    let pieces = usage_pieces(alloc, forms)?;
    push_text(out, "usage", &pieces)
}

fn push_texts<A: Allocator + Copy>(
    alloc: A,
    out: &mut String<A>,
    forms: &[Form<'_>],
    placed: &[Placed<'_>],
) -> Result<(), AllocError>
    requires { map form_said forms.now ≡ usages.forms (map placed_said placed.now) }
    ensures { OnOk result (string_bytes out.new
        ≡ string_bytes out.old ++ spec.texts (map placed_said placed.now)) }
{
    push_gathered(alloc, out, "about", Text::About, placed)?;
    push_usage(alloc, out, forms)?;
    push_gathered(alloc, out, "header", Text::Header, placed)?;
    push_gathered(alloc, out, "footer", Text::Footer, placed)
}

fn push_last_tables<'a, A: Allocator + Copy>(
    alloc: A,
    out: &mut String<A>,
    taken: &mut Words<'a, A>,
    forms: &[Form<'a>],
    placed: &[Placed<'a>],
) -> Result<(), AllocError>
    requires { map form_said forms.now ≡ usages.forms (map placed_said placed.now) }
    ensures { OnOk result (string_bytes out.new
        ≡ string_bytes out.old ++ spec.last_tables (held taken.old) (map placed_said placed.now)) }
{
    let strays = options_in(alloc, taken, forms)?;
    push_strays(alloc, out, taken, &strays)
}

/// The draft of a program of this name.
pub fn draft_of<'a, A: Allocator + Copy>(
    alloc: A,
    name: &str,
    forms: &[Form<'a>],
    placed: &[Placed<'a>],
) -> Result<String<A>, AllocError>
    requires { map form_said forms.now ≡ usages.forms (map placed_said placed.now) }
    ensures { IfOk result (λ text. string_bytes text ≡ spec.draft_of (map placed_said placed.now) name.now) }
{
    let mut out = String::new(alloc);
    let mut taken = Words::new(alloc);
    push_word(&mut out, "name", name)?;
    push_texts(alloc, &mut out, forms, placed)?;
    push_tables(alloc, &mut out, &mut taken, placed)?;
    push_last_tables(alloc, &mut out, &mut taken, forms, placed)?;
    Ok(out)
}
