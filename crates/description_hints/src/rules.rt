//! What hints there are about a part of a description.
ghost use Rattle.std.specs.Prelude.{◌≡◌, ◌++◌, map, flat_map, IfOk, None, OnOk};
ghost use Rattle.page_model.specs.View.{form_of};
ghost use Rattle.page_model.specs.View.{block_of, line_of, piece_of};
ghost use Rattle.description.specs.View.{opt_said, positional_said, text_of};
ghost use Rattle.description_hints.specs.Hints.{about_path, application_warnings, command_warnings, hint_if};
ghost use Rattle.description_hints.specs.Hints.{forms_hints, help_hints, is_missing, is_plain, item_columns};
ghost use Rattle.description_hints.specs.Hints.{item_pieces, option_hints, part_warnings, piece_hints, summary_hints};
ghost use Rattle.description_hints.specs.Hints.{level_name_hints, option_warnings, shared_hints, summary_warnings, text_hints, usage_hints};
ghost use Rattle.description_hints.specs.Hints.{item_hints, positional_warnings, usage_piece_hints, width_hints};
ghost use Rattle.description_hints.specs.Texts.{blocks_of};
ghost use Rattle.description_hints.specs.View.{around_said, hint_said, holds, part_said, path_said, warning_said};
ghost use Rattle.description_hints.specs.View.{words_said};

use crate::around::Around;
use crate::defaults::push_default;
use crate::hints::{Hint, Warning};
use crate::known::{Known, set_of};
use crate::marks::{push_marks, push_word};
use crate::pieces::{item_pieces, pieces_of};
use crate::shared::shared_name;
use crate::sites::{Part, Standing, under};
use crate::texts::{has_turn, line_text, paragraph_text};
use bumpalo::Bump;
use description::{Opt, Positional};
use description_texts::{blocks, first_paragraph, is_empty};
use description_usage::{option_item, text_forms};
use keyed::Step;
use page_model::{Block, Form, Inline, Line};
use std::alloc::AllocError;
use unicode_width::UnicodeWidthStr;

/// Hints in an arena.
pub type Warnings<'p> = Vec<Warning<'p>, &'p Bump>;

/// Puts a hint where it holds. An error comes only where an allocation failed.
pub fn push_if<'p>(
    found: &mut Warnings<'p>,
    path: &'p [Step<'p>],
    is_so: bool,
    hint: Hint<'p>,
) -> Result<(), AllocError>
    ensures { OnOk result (map warning_said found.new.items ≡ map warning_said found.old.items
        ++ about_path (path_said path.now) (hint_if is_so (hint_said hint.entry))) }
{
    if is_so {
        found.push(Warning { path, hint })?;
    }
    Ok(())
}

// ---- what is not said

fn is_missing(text: Option<&str>) -> bool
    ensures { result ≡ is_missing (text_of text.entry) }
{
    match text {
        Some(text) => is_empty(text),
        None => true,
    }
}

// ---- summaries

fn blocks_of<'p>(
    arena: &'p Bump,
    text: Option<&'p str>,
) -> Result<Vec<Block<'p, &'p Bump>, &'p Bump>, AllocError>
    ensures { IfOk result (λ found. map block_of found.items ≡ blocks_of (text_of text.entry)) }
{
    match text {
        Some(text) => blocks(arena, text),
        None => Ok(Vec::new(arena)),
    }
}

fn push_summary<'p>(
    arena: &'p Bump,
    found: &mut Warnings<'p>,
    path: &'p [Step<'p>],
    lines: &[Line<'p, &'p Bump>],
) -> Result<(), AllocError>
    ensures { OnOk result (map warning_said found.new.items ≡ map warning_said found.old.items
        ++ about_path (path_said path.now) (summary_hints (map (λ line. line_of line.items) lines.now))) }
{
    let text = paragraph_text(arena, lines)?;
    if has_turn(text.as_bytes()) {
        return push_if(found, path, true, Hint::TwoSentences);
    }
    let columns = text.width();
    push_if(found, path, columns > 80, Hint::WideSummary(columns))
}

fn push_about<'p>(
    arena: &'p Bump,
    found: &mut Warnings<'p>,
    path: &'p [Step<'p>],
    about: Option<&'p str>,
) -> Result<(), AllocError>
    ensures { OnOk result (map warning_said found.new.items ≡ map warning_said found.old.items
        ++ summary_warnings (path_said path.now) None (text_of about.entry)) }
{
    let blocks = blocks_of(arena, about)?;
    match first_paragraph(blocks.as_slice()) {
        Some(lines) => push_summary(arena, found, under(arena, path, "about")?, lines.as_slice()),
        None => Ok(()),
    }
}

fn push_summary_of<'p>(
    arena: &'p Bump,
    found: &mut Warnings<'p>,
    path: &'p [Step<'p>],
    help: Option<&'p str>,
    about: Option<&'p str>,
) -> Result<(), AllocError>
    ensures { OnOk result (map warning_said found.new.items ≡ map warning_said found.old.items
        ++ summary_warnings (path_said path.now) (text_of help.entry) (text_of about.entry)) }
{
    let blocks = blocks_of(arena, help)?;
    match first_paragraph(blocks.as_slice()) {
        Some(lines) => push_summary(arena, found, under(arena, path, "help")?, lines.as_slice()),
        None => push_about(arena, found, path, about),
    }
}

// ---- what texts say

fn is_plain(address: &[u8]) -> bool
    ensures { result ≡ is_plain address.now }
{
    address.starts_with(b"http://")
        && !(address.starts_with(b"http://localhost") || address.starts_with(b"http://127."))
}

fn push_piece<'p>(
    found: &mut Warnings<'p>,
    known: &Known<'p>,
    path: &'p [Step<'p>],
    piece: Inline<'p>,
) -> Result<(), AllocError>
    ensures { OnOk result (map warning_said found.new.items ≡ map warning_said found.old.items
        ++ about_path (path_said path.now) (piece_hints (holds known.now) (piece_of piece.entry))) }
{
    match piece {
        Inline::Literal(text) => {
            let is_no_option = known.is_no_option(text.as_bytes());
            push_if(found, path, is_no_option, Hint::NoSuchOption(text))
        }
        Inline::Link(address) => {
            let is_plain = is_plain(address.as_bytes());
            push_if(found, path, is_plain, Hint::PlainLink(address))
        }
        Inline::Words(_) | Inline::Value(_) | Inline::Page(_) => Ok(()),
    }
}

fn push_pieces<'p>(
    found: &mut Warnings<'p>,
    known: &Known<'p>,
    path: &'p [Step<'p>],
    pieces: &[Inline<'p>],
) -> Result<(), AllocError>
    ensures { OnOk result (map warning_said found.new.items ≡ map warning_said found.old.items
        ++ about_path (path_said path.now) (flat_map (piece_hints (holds known.now)) (line_of pieces.now))) }
{
    for piece in pieces {
        push_piece(found, known, path, *piece)?;
    }
    Ok(())
}

fn push_text<'p>(
    arena: &'p Bump,
    found: &mut Warnings<'p>,
    known: &Known<'p>,
    path: &'p [Step<'p>],
    text: &'p str,
) -> Result<(), AllocError>
    ensures { OnOk result (map warning_said found.new.items ≡ map warning_said found.old.items
        ++ about_path (path_said path.now) (text_hints (holds known.now) text.now)) }
{
    let blocks = blocks(arena, text)?;
    let pieces = pieces_of(arena, blocks.as_slice())?;
    push_pieces(found, known, path, pieces.as_slice())
}

// ---- usages

fn push_usage_piece<'p>(
    found: &mut Warnings<'p>,
    own: &Known<'p>,
    help_words: &Known<'p>,
    path: &'p [Step<'p>],
    piece: Inline<'p>,
) -> Result<(), AllocError>
    ensures { OnOk result (map warning_said found.new.items ≡ map warning_said found.old.items
        ++ about_path (path_said path.now) (usage_piece_hints (holds own.now) (holds help_words.now) (piece_of piece.entry))) }
{
    match piece {
        Inline::Literal(text) => {
            let name = text.as_bytes();
            let is_of_none = own.is_no_option(name) && help_words.is_no_option(name);
            push_if(found, path, is_of_none, Hint::NotOnLevel(text))
        }
        Inline::Words(_) | Inline::Value(_) | Inline::Link(_) | Inline::Page(_) => Ok(()),
    }
}

fn push_usage_pieces<'p>(
    found: &mut Warnings<'p>,
    own: &Known<'p>,
    help_words: &Known<'p>,
    path: &'p [Step<'p>],
    pieces: &[Inline<'p>],
) -> Result<(), AllocError>
    ensures { OnOk result (map warning_said found.new.items ≡ map warning_said found.old.items
        ++ about_path (path_said path.now)
        (flat_map (usage_piece_hints (holds own.now) (holds help_words.now)) (line_of pieces.now))) }
{
    for piece in pieces {
        push_usage_piece(found, own, help_words, path, *piece)?;
    }
    Ok(())
}

fn push_forms<'p>(
    arena: &'p Bump,
    found: &mut Warnings<'p>,
    own: &Known<'p>,
    help_words: &Known<'p>,
    path: &'p [Step<'p>],
    forms: &[Form<'p, &'p Bump>],
) -> Result<(), AllocError>
    ensures { OnOk result (map warning_said found.new.items ≡ map warning_said found.old.items
        ++ about_path (path_said path.now) (forms_hints (holds own.now) (holds help_words.now) (map form_of forms.now))) }
{
    let pieces = item_pieces(arena, forms)?;
    push_usage_pieces(found, own, help_words, path, pieces.as_slice())
}

fn push_usage<'p>(
    arena: &'p Bump,
    found: &mut Warnings<'p>,
    around: &Around<'p>,
    path: &'p [Step<'p>],
    text: &'p str,
    words: &[&'p [u8]],
) -> Result<(), AllocError>
    ensures { OnOk result (map warning_said found.new.items ≡ map warning_said found.old.items
        ++ about_path (path_said path.now) (usage_hints (around_said around.now) text.now (words_said words.now))) }
{
    let own = set_of(arena, words)?;
    let forms = text_forms(arena, &around.fixed, text)?;
    push_forms(
        arena,
        found,
        &own,
        &around.help_words,
        path,
        forms.as_slice(),
    )
}

// How many columns a usage takes to show an option alone.
fn item_columns<'p>(arena: &'p Bump, option: &Opt<'p>) -> Result<usize, AllocError>
    ensures { IfOk result (λ columns. columns ≡ item_columns (opt_said option.now)) }
{
    let item = option_item(arena, option, option.required, option.repeated)?;
    let text = line_text(arena, item.as_slice())?;
    Ok(text.width())
}

fn push_item<'p>(
    arena: &'p Bump,
    found: &mut Warnings<'p>,
    path: &'p [Step<'p>],
    option: &Opt<'p>,
) -> Result<(), AllocError>
    ensures { OnOk result (map warning_said found.new.items ≡ map warning_said found.old.items
        ++ about_path (path_said path.now) (item_hints (opt_said option.now))) }
{
    if option.hidden {
        return Ok(());
    }
    let columns = item_columns(arena, option)?;
    push_if(found, path, columns > 60, Hint::WideItem(columns))
}

fn push_width<'p>(
    arena: &'p Bump,
    found: &mut Warnings<'p>,
    path: &'p [Step<'p>],
    option: &Opt<'p>,
    standing: Standing,
) -> Result<(), AllocError>
    ensures { OnOk result (map warning_said found.new.items ≡ map warning_said found.old.items
        ++ about_path (path_said path.now) (width_hints standing (opt_said option.now))) }
{
    match standing {
        Standing::InUsage => push_item(arena, found, path, option),
        Standing::ForHelp | Standing::OutsideUsage => Ok(()),
    }
}

// ---- names that an option shares with one that asks for help

fn push_level_name<'p>(
    arena: &'p Bump,
    found: &mut Warnings<'p>,
    help_names: &Known<'p>,
    path: &'p [Step<'p>],
    option: &Opt<'p>,
) -> Result<(), AllocError>
    ensures { OnOk result (map warning_said found.new.items ≡ map warning_said found.old.items
        ++ about_path (path_said path.now) (level_name_hints (holds help_names.now) (opt_said option.now))) }
{
    match shared_name(arena, help_names, option)? {
        Some(name) => push_if(found, path, true, Hint::HelpName(name)),
        None => Ok(()),
    }
}

fn push_shared<'p>(
    arena: &'p Bump,
    found: &mut Warnings<'p>,
    help_names: &Known<'p>,
    path: &'p [Step<'p>],
    option: &Opt<'p>,
    standing: Standing,
) -> Result<(), AllocError>
    ensures { OnOk result (map warning_said found.new.items ≡ map warning_said found.old.items
        ++ about_path (path_said path.now) (shared_hints (holds help_names.now) standing (opt_said option.now))) }
{
    match standing {
        Standing::ForHelp => Ok(()),
        Standing::InUsage | Standing::OutsideUsage => {
            push_level_name(arena, found, help_names, path, option)
        }
    }
}

// ---- all of them

fn push_application<'p>(
    arena: &'p Bump,
    found: &mut Warnings<'p>,
    path: &'p [Step<'p>],
    about: Option<&'p str>,
) -> Result<(), AllocError>
    ensures { OnOk result (map warning_said found.new.items ≡ map warning_said found.old.items
        ++ application_warnings (path_said path.now) (text_of about.entry)) }
{
    push_if(found, path, is_missing(about), Hint::NoAbout)?;
    push_about(arena, found, path, about)
}

fn push_own<'p>(
    arena: &'p Bump,
    found: &mut Warnings<'p>,
    around: &Around<'p>,
    path: &'p [Step<'p>],
    option: &Opt<'p>,
    standing: Standing,
) -> Result<(), AllocError>
    ensures { OnOk result (map warning_said found.new.items ≡ map warning_said found.old.items
        ++ about_path (path_said path.now) (option_hints (around_said around.now) standing (opt_said option.now))) }
{
    let is_missing = !option.hidden && is_missing(option.help);
    push_if(found, path, is_missing, Hint::NoHelp)?;
    push_width(arena, found, path, option, standing)?;
    push_shared(arena, found, &around.help_names, path, option, standing)
}

fn push_option<'p>(
    arena: &'p Bump,
    found: &mut Warnings<'p>,
    around: &Around<'p>,
    path: &'p [Step<'p>],
    option: &Opt<'p>,
    standing: Standing,
) -> Result<(), AllocError>
    ensures { OnOk result (map warning_said found.new.items ≡ map warning_said found.old.items
        ++ option_warnings (around_said around.now) (path_said path.now) standing (opt_said option.now)) }
{
    push_own(arena, found, around, path, option, standing)?;
    push_marks(arena, found, path, option)?;
    let (default, values) = (option.default, option.values);
    push_default(arena, found, path, option.hidden, default, values)
}

fn push_positional<'p>(
    arena: &'p Bump,
    found: &mut Warnings<'p>,
    path: &'p [Step<'p>],
    positional: &Positional<'p>,
) -> Result<(), AllocError>
    ensures { OnOk result (map warning_said found.new.items ≡ map warning_said found.old.items
        ++ positional_warnings (path_said path.now) (positional_said positional.now)) }
{
    push_word(arena, found, path, positional.hidden, positional.value)?;
    let (default, values) = (positional.default, positional.values);
    push_default(arena, found, path, positional.hidden, default, values)
}

fn push_command<'p>(
    arena: &'p Bump,
    found: &mut Warnings<'p>,
    path: &'p [Step<'p>],
    is_hidden: bool,
    help: Option<&'p str>,
    about: Option<&'p str>,
) -> Result<(), AllocError>
    ensures { OnOk result (map warning_said found.new.items ≡ map warning_said found.old.items
        ++ command_warnings (path_said path.now) is_hidden (text_of help.entry) (text_of about.entry)) }
{
    let is_missing = !is_hidden && is_missing(help) && is_missing(about);
    push_if(found, path, is_missing, Hint::NothingSaid)?;
    push_summary_of(arena, found, path, help, about)
}

/// Puts the hints about a part. An error comes only where an allocation failed.
pub fn push_part<'p>(
    arena: &'p Bump,
    found: &mut Warnings<'p>,
    around: &Around<'p>,
    path: &'p [Step<'p>],
    part: Part<'p>,
) -> Result<(), AllocError>
    ensures { OnOk result (map warning_said found.new.items ≡ map warning_said found.old.items
        ++ part_warnings (around_said around.now) (path_said path.now) (part_said part.entry)) }
{
    match part {
        Part::Application(about) => push_application(arena, found, path, about),
        Part::Option { option, standing } => {
            push_option(arena, found, around, path, &option, standing)
        }
        Part::Positional(positional) => push_positional(arena, found, path, &positional),
        Part::Command {
            is_hidden,
            help,
            about,
        } => push_command(arena, found, path, is_hidden, help, about),
        Part::Text(text) => push_text(arena, found, &around.option_words, path, text),
        Part::Usage { text, own_words } => {
            push_usage(arena, found, around, path, text, own_words)
        }
    }
}
