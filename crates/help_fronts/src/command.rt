//! What the front of a command says.
ghost use Rattle.std.specs.Prelude.{◌≡◌, ◌++◌, ◌∷◌, ◌-◌, ◌==◌, drop, false, length, map, not, take, true};
ghost use Rattle.std.specs.Prelude.{IfOk, IfSome, MatchOption, OnOk};
ghost use Rattle.std.specs.List.{list_all, list_any, slice_split};
ghost use Rattle.std.specs.Option.{option_map};
ghost use Rattle.help_fronts.specs.Pieces as cut;
ghost use Rattle.help_fronts.specs.Words as words;
ghost use Rattle.help_fronts.specs.Fronts as spec;
ghost use Rattle.help_fronts.specs.View.{command_said};
ghost use Rattle.help_fronts.specs.declared.front.Kind.TheVariants as kind;

use crate::bytes::{Class, byte_at, last_byte, without_front};
use crate::front::{Kind, command_name, cut_front, first_of_front};
use crate::pieces::word;
use crate::words::{bare_word, has_form_of_value, is_command, is_listed};
use std::alloc::{AllocError, Allocator, Global};

/// The front of a line that begins with a command.
#[derive(Drop)]
pub struct CommandFront<'a, A: Allocator = Global> {
    pub name: &'a str,
    /// Its other names, in the order of the line.
    pub aliases: Vec<&'a str, A>,
    /// Whether the front says more than these names, as a value does.
    pub says_else: bool,
    /// The front as it stands in the line.
    pub written: &'a str,
    /// What stands between the front and its help.
    pub gap: &'a str,
    /// What stands after, to the end of the line.
    pub help: &'a str,
}

fn is_alias(name: &str, word: &str) -> bool
    ensures { result ≡ spec.is_alias name.now word.now }
{
    is_command(bare_word(word))
        && if byte_at(word, 0) == b'(' {
            byte_at(word, 1) == byte_at(name, 0)
        } else {
            !has_form_of_value(word)
        }
}

fn push_aliases<'a, A: Allocator>(
    aliases: &mut Vec<&'a str, A>,
    name: &str,
    words: &[&'a str],
) -> Result<(), AllocError>
    ensures { OnOk result (map (λ a. a.now) aliases.new.items
        ≡ map (λ a. a.now) aliases.old.items ++ spec.other_names name.now (map (λ w. w.now) words.now)) }
{
    for word in words {
        if is_alias(name, word) {
            aliases.push(bare_word(word))?;
        }
    }
    Ok(())
}

// What stands between parentheses.
fn inside(word: &str) -> &str
    requires { spec.is_in_parentheses word.now ≡ true }
    ensures { result.now ≡ take (length word.now - 2) (drop 1 word.now) }
{
    &word[1..word.len() - 1]
}

// What commas part in a text.
fn parted<'a, A: Allocator>(alloc: A, text: &'a str) -> Result<Vec<&'a str, A>, AllocError>
    ensures { IfOk result (λ parts. map (λ p. p.now) parts.items ≡ slice_split (λ b. b == 44) text.now) }
{
    text.split(',').collect(alloc)
}

fn are_listed(parts: &[&str]) -> bool
    ensures { result ≡ list_all words.is_listed (map cut.word (map (λ p. p.now) parts.now)) }
{
    for part in parts {
        if !is_listed(word(part)) {
            return false;
        }
    }
    true
}

fn push_parts<'a, A: Allocator>(
    names: &mut Vec<&'a str, A>,
    parts: &[&'a str],
) -> Result<(), AllocError>
    ensures { OnOk result (map (λ n. n.now) names.new.items
        ≡ map (λ n. n.now) names.old.items ++ map cut.word (map (λ p. p.now) parts.now)) }
{
    for part in parts {
        names.push(word(part))?;
    }
    Ok(())
}

// The names in a list of them.
fn listed<'a, A: Allocator + Copy>(
    alloc: A,
    word: &'a str,
) -> Result<Option<Vec<&'a str, A>>, AllocError>
    ensures { IfOk result (λ found. MatchOption found (spec.is_list word.now ≡ false)
        (λ names. (spec.is_list word.now ≡ true) × (map (λ n. n.now) names.items ≡ spec.listed word.now))) }
{
    if !is_in_parentheses(word) {
        return Ok(None);
    }
    let parts = parted(alloc, inside(word))?;
    if !are_listed(&parts) {
        return Ok(None);
    }
    let mut names = Vec::new(alloc);
    push_parts(&mut names, &parts)?;
    Ok(Some(names))
}

fn is_in_parentheses(word: &str) -> bool
    ensures { result ≡ spec.is_in_parentheses word.now }
{
    byte_at(word, 0) == b'(' && last_byte(word) == b')'
}

fn only<'a>(words: &[&'a str]) -> &'a str
    ensures { result.now ≡ spec.only (map (λ w. w.now) words.now) }
{
    match words {
        [word] => word,
        _ => "",
    }
}

// The other names of a command, and whether its front says more than its names.
#[derive(Drop)]
struct Others<'a, A: Allocator> {
    aliases: Vec<&'a str, A>,
    says_else: bool,
}

fn others_of<'a, A: Allocator + Copy>(
    alloc: A,
    name: &str,
    words: &[&'a str],
) -> Result<Others<'a, A>, AllocError>
    ensures aliases { IfOk result (λ found. map (λ a. a.now) found.aliases.items
        ≡ spec.aliases (name.now ∷ map (λ w. w.now) words.now)) }
    ensures says_else { IfOk result (λ found. found.says_else
        ≡ spec.says_else (name.now ∷ map (λ w. w.now) words.now)) }
{
    if let Some(aliases) = listed(alloc, only(words))? {
        return Ok(Others {
            aliases,
            says_else: false,
        });
    }
    let mut aliases = Vec::new(alloc);
    push_aliases(&mut aliases, name, words)?;
    Ok(Others {
        aliases,
        says_else: !are_aliases(name, words),
    })
}

fn names_of<'a, A: Allocator + Copy>(
    alloc: A,
    words: &[&'a str],
) -> Result<Others<'a, A>, AllocError>
    ensures aliases { IfOk result (λ found. map (λ a. a.now) found.aliases.items
        ≡ spec.aliases (map (λ w. w.now) words.now)) }
    ensures says_else { IfOk result (λ found. found.says_else
        ≡ spec.says_else (map (λ w. w.now) words.now)) }
{
    match words {
        [] => Ok(Others {
            aliases: Vec::new(alloc),
            says_else: false,
        }),
        [name, others @ ..] => others_of(alloc, name, others),
    }
}

fn are_aliases(name: &str, words: &[&str]) -> bool
    ensures { not result ≡ list_any (λ v. not (spec.is_alias name.now v)) (map (λ w. w.now) words.now) }
{
    for word in words {
        if !is_alias(name, word) {
            return false;
        }
    }
    true
}

fn is_parted(written: &str, gap: &str, help: &str) -> bool
    ensures { result ≡ spec.is_parted written.now gap.now help.now }
{
    last_byte(written) == b':' || help.is_empty() || byte_at(gap, 0) == b'\t' || gap.len() > 1
}

// What a text says that begins with the piece of a command.
fn read_front<'a, A: Allocator + Copy>(
    alloc: A,
    text: &'a str,
    first: &'a str,
    after: &'a str,
) -> Result<Option<CommandFront<'a, A>>, AllocError>
    requires { text.now ≡ first.now ++ after.now }
    ensures exact { IfOk result (λ front. option_map command_said front
        ≡ spec.command_in (spec.front_from kind.Command first.now (cut.pieces after.now)) text.now) }
    ensures whole { IfOk result (λ front. IfSome front (λ f. text.now ≡ (f.written.now ++ f.gap.now) ++ f.help.now)) }
{
    let cut = cut_front(alloc, Kind::Command, text, first, after)?;
    let others = names_of(alloc, &cut.words)?;
    if !is_parted(cut.written, cut.gap, cut.help) {
        return Ok(None);
    }
    Ok(Some(CommandFront {
        name: command_name(word(first)),
        aliases: others.aliases,
        says_else: others.says_else,
        written: cut.written,
        gap: cut.gap,
        help: cut.help,
    }))
}

/// What the front of a line says, if the line begins with a command.
///
/// # Errors
///
/// Memory.
pub fn command_front<'a, A: Allocator + Copy>(
    alloc: A,
    line: &'a str,
) -> Result<Option<CommandFront<'a, A>>, AllocError>
    ensures exact { IfOk result (λ front. option_map command_said front ≡ spec.command_front line.now) }
    ensures whole { IfOk result (λ front. IfSome front
        (λ f. spec.without_indent line.now ≡ (f.written.now ++ f.gap.now) ++ f.help.now)) }
{
    let text = without_front(line, Class::Blank);
    match first_of_front(Kind::Command, text) {
        None => Ok(None),
        Some((first, after)) => read_front(alloc, text, first, after),
    }
}
