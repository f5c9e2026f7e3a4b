//! The names of options at the front of a line, also those of further fronts.
ghost use Rattle.std.specs.Prelude.{◌≡◌, ◌++◌, ◌∷◌, ◌<◌, [], length, map, IfOk, IfSome, MatchOption, OnOk};
ghost use Rattle.help_fronts.specs.Fronts as fronts;
ghost use Rattle.help_fronts.specs.Lines as spec;
ghost use Rattle.help_fronts.specs.Pieces.{pieces};

use crate::bytes::{Class, without_front};
use crate::front::{Kind, belongs};
use crate::names::push_name;
use crate::pieces::{first_piece, first_word, word};
use crate::words::is_name;
use std::alloc::{AllocError, Allocator};

fn goes_on(before: &str, word: &str, next: &str) -> bool
    ensures { result ≡ spec.goes_on before.now word.now next.now }
{
    is_name(word) || belongs(Kind::Option, before, word, next)
}

// The first word, if it goes on with what is before it, and what stands after it.
fn further_word<'a>(before: &str, text: &'a str) -> Option<(&'a str, &'a str)>
    ensures words { MatchOption result (spec.further_words before.now (pieces text.now) ≡ [])
        (λ p. spec.further_words before.now (pieces text.now) ≡ p.0.now ∷ spec.further_words p.0.now (pieces p.1.now)) }
    ensures shorter { IfSome result (λ p. length p.1.now < length text.now) }
{
    let (piece, after) = first_piece(text)?;
    let found = word(piece);
    if goes_on(before, found, first_word(after)) {
        Some((found, after))
    } else {
        None
    }
}

// The first word of a text, if it is a name, and what stands after it.
fn first_name(text: &str) -> Option<(&str, &str)>
    ensures { MatchOption result (spec.option_words (pieces text.now) ≡ [])
        (λ p. spec.option_words (pieces text.now) ≡ p.0.now ∷ spec.further_words p.0.now (pieces p.1.now)) }
{
    let (piece, after) = first_piece(text)?;
    let found = word(piece);
    if is_name(found) {
        Some((found, after))
    } else {
        None
    }
}

// Puts a word, if it is a name, and the names after it.
fn push_names<'a, A: Allocator>(
    names: &mut Vec<&'a str, A>,
    first: &'a str,
    after: &'a str,
) -> Result<(), AllocError>
    ensures { OnOk result (map (λ n. n.now) names.new.items
        ≡ map (λ n. n.now) names.old.items ++ fronts.names (first.now ∷ spec.further_words first.now (pieces after.now))) }
{
    let mut before = first;
    let mut rest = after;
    push_name(names, first)?;
    while let Some((found, others)) = further_word(before, rest) {
        push_name(names, found)?;
        before = found;
        rest = others;
    }
    Ok(())
}

/// The names of options at the front of a line, in their order: those of its front, and of each further front that
/// follows one after a blank, as in `-mount -noleaf -xdev`. None if the line begins with no option.
///
/// # Errors
///
/// Memory.
pub fn option_names<'a, A: Allocator + Copy>(
    alloc: A,
    line: &'a str,
) -> Result<Vec<&'a str, A>, AllocError>
    ensures { IfOk result (λ found. map (λ n. n.now) found.items ≡ spec.option_names line.now) }
{
    let mut names = Vec::new(alloc);
    if let Some((first, after)) = first_name(without_front(line, Class::Blank)) {
        push_names(&mut names, first, after)?;
    }
    Ok(names)
}
