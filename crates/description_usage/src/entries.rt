//! The entries of the lists of a level: the ways to write what each is about, and what is said of it.
ghost use Rattle.std.specs.Prelude.{◌≡◌, ◌++◌, ◌∷◌, [], map, IfOk, OnOk};
ghost use Rattle.std.specs.Option.{option_map};
ghost use Rattle.page_model.specs.Content.{literal, paragraph, words};
ghost use Rattle.page_model.specs.View.{block_of, entry_of, line_of, target_of};
ghost use Rattle.description.specs.View.{name_said, command_said, opt_said, positional_said};
ghost use Rattle.description_usage.specs.Entries.{after_lines, alias_notes, body, command_entry, command_terms};
ghost use Rattle.description_usage.specs.Entries.{initial_terms, named_entry, named_terms, named_word, note, noted, noted_body};
ghost use Rattle.description_usage.specs.Entries.{option_entry, option_notes, option_terms, option_word, positional_entry};
ghost use Rattle.description_usage.specs.Entries.{positional_notes, positional_terms};
ghost use Rattle.description.specs.Words.{words_said};

use crate::lines::{joined, one};
use crate::names::{ArenaLines, character_text, long_line, short_line, shown_value, value_piece};
use crate::syntax::{syntax_terms, syntax_word};
use bumpalo::Bump;
use description::{Command, FixedWords, Name, Opt, Positional, Spelling};
use page_model::{Block, Entry, Inline, Line, Target};
use std::alloc::{AllocError, Allocator};

/// Blocks in an arena.
pub type ArenaBlocks<'p, A> = Vec<Block<'p, &'p Bump<A>>, &'p Bump<A>>;

/// An entry in an arena.
pub type ArenaEntry<'p, A> = Entry<'p, &'p Bump<A>>;

// ---- terms

fn named_terms<'p, A: Allocator>(
    arena: &'p Bump<A>,
    name: Name,
    value: Option<&'p str>,
) -> Result<ArenaLines<'p, A>, AllocError>
    ensures { IfOk result (λ terms. map (λ term. line_of term.items) terms.items
        ≡ named_terms (name_said name) (option_map (λ word. word.now) value.entry)) }
{
    match name {
        Name::Short(short) => Ok(vec![in arena; short_line(arena, short, value)?]?),
        Name::Long(long) => Ok(vec![in arena; long_line(arena, long, value)?]?),
        Name::Both(short, long) => {
            let first = short_line(arena, short, None)?;
            Ok(vec![in arena; first, long_line(arena, long, value)?]?)
        }
    }
}

fn option_terms<'p, A: Allocator>(
    arena: &'p Bump<A>,
    option: &Opt<'p>,
) -> Result<ArenaLines<'p, A>, AllocError>
    ensures { IfOk result (λ terms. map (λ term. line_of term.items) terms.items
        ≡ option_terms (opt_said option.now)) }
{
    match option.spelling {
        Spelling::Names(name) => named_terms(arena, name, option.value),
        Spelling::Syntax(text) => syntax_terms(arena, text),
    }
}

fn positional_terms<'p, A: Allocator>(
    arena: &'p Bump<A>,
    positional: &Positional<'p>,
) -> Result<ArenaLines<'p, A>, AllocError>
    ensures { IfOk result (λ terms. map (λ term. line_of term.items) terms.items
        ≡ positional_terms (positional_said positional.now)) }
{
    let term = vec![in arena; value_piece(arena, positional.value)?]?;
    Ok(vec![in arena; term]?)
}

fn literal_line<'a, A: Allocator>(alloc: A, name: &'a str) -> Result<Line<'a, A>, AllocError>
    ensures { IfOk result (λ line. line_of line.items ≡ literal name.now ∷ []) }
{
    one(alloc, Inline::Literal(name))
}

fn push_initial<'p, A: Allocator>(
    arena: &'p Bump<A>,
    terms: &mut ArenaLines<'p, A>,
    initial: Option<char>,
) -> Result<(), AllocError>
    ensures { OnOk result (map (λ term. line_of term.items) terms.new.items
        ≡ map (λ term. line_of term.items) terms.old.items ++ initial_terms initial) }
{
    let Some(character) = initial else {
        return Ok(());
    };
    let name = character_text(arena, character)?;
    terms.push(literal_line(arena, name)?)?;
    Ok(())
}

// ---- notes

fn note<'a, A: Allocator>(
    alloc: A,
    word: &'a str,
    said: &[Inline<'a>],
) -> Result<Line<'a, A>, AllocError>
    ensures { IfOk result (λ line. line_of line.items ≡ note word.now (line_of said.now)) }
{
    let mut line = vec![in alloc;
        Inline::Words("["),
        Inline::Words(word),
        Inline::Words(": "),
    ]?;
    line.extend_from_slice(said)?;
    line.push(Inline::Words("]"))?;
    Ok(line)
}

fn push_note<'a, A: Allocator + Copy>(
    alloc: A,
    notes: &mut Vec<Line<'a, A>, A>,
    word: &'a str,
    said: Option<&'a str>,
) -> Result<(), AllocError>
    ensures { OnOk result (map (λ note. line_of note.items) notes.new.items
        ≡ map (λ note. line_of note.items) notes.old.items
        ++ noted word.now (option_map (λ text. text.now) said.entry)) }
{
    let Some(text) = said else {
        return Ok(());
    };
    notes.push(note(alloc, word, &[Inline::Words(text)])?)?;
    Ok(())
}

fn option_notes<'p, A: Allocator>(
    arena: &'p Bump<A>,
    words: &FixedWords<'p>,
    option: &Opt<'p>,
) -> Result<ArenaLines<'p, A>, AllocError>
    ensures { IfOk result (λ notes. map (λ note. line_of note.items) notes.items
        ≡ option_notes (words_said words.now) (opt_said option.now)) }
{
    let mut notes = Vec::new(arena);
    push_note(arena, &mut notes, words.env, option.env)?;
    push_note(arena, &mut notes, words.default, option.default)?;
    push_note(arena, &mut notes, words.possible_values, option.values)?;
    Ok(notes)
}

fn positional_notes<'p, A: Allocator>(
    arena: &'p Bump<A>,
    words: &FixedWords<'p>,
    positional: &Positional<'p>,
) -> Result<ArenaLines<'p, A>, AllocError>
    ensures { IfOk result (λ notes. map (λ note. line_of note.items) notes.items
        ≡ positional_notes (words_said words.now) (positional_said positional.now)) }
{
    let mut notes = Vec::new(arena);
    push_note(arena, &mut notes, words.default, positional.default)?;
    push_note(arena, &mut notes, words.possible_values, positional.values)?;
    Ok(notes)
}

fn push_text<'a, A: Allocator + Copy>(
    alloc: A,
    lines: &mut Vec<Line<'a, A>, A>,
    text: &'a str,
) -> Result<(), AllocError>
    ensures { OnOk result (map (λ line. line_of line.items) lines.new.items
        ≡ map (λ line. line_of line.items) lines.old.items ++ (words text.now ∷ []) ∷ []) }
{
    lines.push(one(alloc, Inline::Words(text))?)?;
    Ok(())
}

// Texts, each as a line.
fn text_lines<'a, A: Allocator + Copy>(
    alloc: A,
    texts: &[&'static str],
) -> Result<Vec<Line<'a, A>, A>, AllocError>
    ensures { IfOk result (λ lines. map (λ line. line_of line.items) lines.items
        ≡ map (λ text. words text.now ∷ []) texts.now) }
{
    let mut lines = Vec::new(alloc);
    for text in texts {
        push_text(alloc, &mut lines, *text)?;
    }
    Ok(lines)
}

fn push_aliases<'a, A: Allocator + Copy>(
    alloc: A,
    notes: &mut Vec<Line<'a, A>, A>,
    word: &'a str,
    aliases: &[&'static str],
) -> Result<(), AllocError>
    ensures { OnOk result (map (λ note. line_of note.items) notes.new.items
        ≡ map (λ note. line_of note.items) notes.old.items
        ++ alias_notes word.now (map (λ alias. alias.now) aliases.now)) }
{
    if aliases.is_empty() {
        return Ok(());
    }
    let names = text_lines(alloc, aliases)?;
    let said = joined(alloc, ", ", names.as_slice())?;
    notes.push(note(alloc, word, said.as_slice())?)?;
    Ok(())
}

// ---- bodies

// Notes after the last line of a paragraph.
fn push_after<'a, A: Allocator + Copy>(
    lines: &mut Vec<Line<'a, A>, A>,
    notes: Line<'a, A>,
) -> Result<(), AllocError>
    ensures { OnOk result (map (λ line. line_of line.items) lines.new.items
        ≡ after_lines (line_of notes.entry.items) (map (λ line. line_of line.items) lines.old.items)) }
{
    let Some(mut last) = lines.pop() else {
        lines.push(notes)?;
        return Ok(());
    };
    last.push(Inline::Words(" "))?;
    last.extend_from_slice(notes.as_slice())?;
    lines.push(last)?;
    Ok(())
}

fn push_paragraph<'a, A: Allocator + Copy>(
    alloc: A,
    blocks: &mut Vec<Block<'a, A>, A>,
    line: Line<'a, A>,
) -> Result<(), AllocError>
    ensures { OnOk result (map block_of blocks.new.items
        ≡ map block_of blocks.old.items ++ paragraph (line_of line.entry.items ∷ []) ∷ []) }
{
    blocks.push(Block::Paragraph(one(alloc, line)?))?;
    Ok(())
}

// The one block of a help, with notes.
fn noted_block<'a, A: Allocator + Copy>(
    alloc: A,
    block: Block<'a, A>,
    notes: Line<'a, A>,
) -> Result<Vec<Block<'a, A>, A>, AllocError>
    ensures { IfOk result (λ blocks. map block_of blocks.items
        ≡ noted_body (line_of notes.entry.items) (block_of block.entry ∷ [])) }
{
    match block {
        Block::Paragraph(mut lines) => {
            push_after(&mut lines, notes)?;
            one(alloc, Block::Paragraph(lines))
        }
        other => {
            let mut blocks = one(alloc, other)?;
            push_paragraph(alloc, &mut blocks, notes)?;
            Ok(blocks)
        }
    }
}

fn noted_body<'a, A: Allocator + Copy>(
    alloc: A,
    mut help: Vec<Block<'a, A>, A>,
    notes: Line<'a, A>,
) -> Result<Vec<Block<'a, A>, A>, AllocError>
    ensures { IfOk result (λ blocks. map block_of blocks.items
        ≡ noted_body (line_of notes.entry.items) (map block_of help.entry.items)) }
{
    if help.len() == 1 {
        if let Some(block) = help.pop() {
            return noted_block(alloc, block, notes);
        }
    }
    push_paragraph(alloc, &mut help, notes)?;
    Ok(help)
}

fn body<'a, A: Allocator + Copy>(
    alloc: A,
    help: Vec<Block<'a, A>, A>,
    notes: &[Line<'a, A>],
) -> Result<Vec<Block<'a, A>, A>, AllocError>
    ensures { IfOk result (λ blocks. map block_of blocks.items
        ≡ body (map (λ note. line_of note.items) notes.now) (map block_of help.entry.items)) }
{
    if notes.is_empty() {
        return Ok(help);
    }
    noted_body(alloc, help, joined(alloc, " ", notes)?)
}

// ---- what entries are called

fn named_word<'p, A: Allocator>(arena: &'p Bump<A>, name: Name) -> Result<&'p str, AllocError>
    ensures { IfOk result (λ word. word.now ≡ named_word (name_said name)) }
{
    match name {
        Name::Short(short) => character_text(arena, short),
        Name::Long(long) | Name::Both(_, long) => Ok(long),
    }
}

fn option_word<'p, A: Allocator>(
    arena: &'p Bump<A>,
    option: &Opt<'p>,
) -> Result<&'p str, AllocError>
    ensures { IfOk result (λ word. word.now ≡ option_word (opt_said option.now).spelling) }
{
    match option.spelling {
        Spelling::Names(name) => named_word(arena, name),
        Spelling::Syntax(text) => Ok(syntax_word(text)),
    }
}

// ---- entries

/// The entry of an option, with the blocks of its help. An error comes only where an allocation failed.
pub fn option_entry<'p, A: Allocator>(
    arena: &'p Bump<A>,
    words: &FixedWords<'p>,
    option: &Opt<'p>,
    help: ArenaBlocks<'p, A>,
) -> Result<ArenaEntry<'p, A>, AllocError>
    ensures { IfOk result (λ entry. entry_of entry
        ≡ option_entry (words_said words.now) (opt_said option.now) (map block_of help.entry.items)) }
{
    let notes = option_notes(arena, words, option)?;
    Ok(Entry {
        word: option_word(arena, option)?,
        target: None,
        terms: option_terms(arena, option)?,
        body: body(arena, help, notes.as_slice())?,
    })
}

/// The entry of a positional value, with the blocks of its help. None where there is nothing to say of it. An error
/// comes only where an allocation failed.
pub fn positional_entry<'p, A: Allocator>(
    arena: &'p Bump<A>,
    words: &FixedWords<'p>,
    positional: &Positional<'p>,
    help: ArenaBlocks<'p, A>,
) -> Result<Option<ArenaEntry<'p, A>>, AllocError>
    ensures { IfOk result (λ entry. option_map entry_of entry ≡ positional_entry (words_said words.now)
        (positional_said positional.now) (map block_of help.entry.items)) }
{
    let notes = positional_notes(arena, words, positional)?;
    let body = body(arena, help, notes.as_slice())?;
    if body.is_empty() {
        return Ok(None);
    }
    Ok(Some(Entry {
        word: shown_value(arena, positional.value)?,
        target: None,
        terms: positional_terms(arena, positional)?,
        body,
    }))
}

/// The entry of a command, with where it is shown and the blocks of its help. An error comes only where an allocation
/// failed.
pub fn command_entry<'p, 'a: 'p, A: Allocator, B: Allocator>(
    arena: &'p Bump<A>,
    words: &FixedWords<'p>,
    target: Target<'p>,
    command: &Command<'a, B>,
    help: ArenaBlocks<'p, A>,
) -> Result<ArenaEntry<'p, A>, AllocError>
    ensures { IfOk result (λ entry. entry_of entry ≡ command_entry (words_said words.now) (target_of target.entry)
        (command_said command.now) (map block_of help.entry.items)) }
{
    let mut terms = one(arena, literal_line(arena, command.name)?)?;
    push_initial(arena, &mut terms, command.short)?;
    let mut notes = Vec::new(arena);
    push_aliases(arena, &mut notes, words.aliases, command.aliases.as_slice())?;
    Ok(Entry {
        word: command.name,
        target: Some(target),
        terms,
        body: body(arena, help, notes.as_slice())?,
    })
}
