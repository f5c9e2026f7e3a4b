//! The fixed words of pages, from their table.
ghost use Rattle.std.specs.Prelude.{◌≡◌};
ghost use Rattle.toml.specs.View.{table_view};
ghost use Rattle.description_toml.specs.Described.{fixed_at, fixed_from, fixed_in, with_manual_titles};
ghost use Rattle.description_toml.specs.Described.{with_titles, with_words_of_notes};
ghost use Rattle.description_toml.specs.Described.Steps.{member_view};
ghost use Rattle.description_toml.specs.Faults.{Reads};
ghost use Rattle.description.specs.Words.{words_said};

use super::teller::{Refused, Teller};
use super::texts::{Kind, without_colon};
use super::values::{check_keys, text_at};
use description::words::FixedWords;
use std::alloc::Allocator;
use toml::Table;

const FIXED_KEYS: [&str; 15] = [
    "usage",
    "arguments",
    "options",
    "commands",
    "contents",
    "notes",
    "default",
    "possible_values",
    "env",
    "aliases",
    "command",
    "name",
    "synopsis",
    "description",
    "see_also",
];

// What takes the place of a word.
fn fixed_at<'a, A: Allocator + Copy>(
    teller: &mut Teller<'a, A>,
    table: &'a Table,
    key: &'static str,
    word: &'a str,
) -> Result<&'a str, Refused>
    ensures { Reads (fixed_at word.now key.now (table_view table.now)) (λ text. text.now) result }
{
    match text_at(teller, table, key, Kind::Heading)? {
        None => Ok(word),
        Some(title) => Ok(without_colon(title)),
    }
}

#[tactic(auto, unfolding(crate::specs::Described::with_titles))]
fn with_titles<'a, A: Allocator + Copy>(
    teller: &mut Teller<'a, A>,
    words: FixedWords<'a>,
    table: &'a Table,
) -> Result<FixedWords<'a>, Refused>
    ensures { Reads (with_titles (words_said words.entry) (table_view table.now)) (λ w. words_said w) result }
{
    let usage = fixed_at(teller, table, "usage", words.usage);
    let arguments = fixed_at(teller, table, "arguments", words.arguments);
    let options = fixed_at(teller, table, "options", words.options);
    let commands = fixed_at(teller, table, "commands", words.commands);
    let contents = fixed_at(teller, table, "contents", words.contents);
    let notes = fixed_at(teller, table, "notes", words.notes);
    Ok(FixedWords {
        usage: usage?,
        arguments: arguments?,
        options: options?,
        commands: commands?,
        contents: contents?,
        notes: notes?,
        ..words
    })
}

#[tactic(auto, unfolding(crate::specs::Described::with_words_of_notes))]
fn with_words_of_notes<'a, A: Allocator + Copy>(
    teller: &mut Teller<'a, A>,
    words: FixedWords<'a>,
    table: &'a Table,
) -> Result<FixedWords<'a>, Refused>
    ensures { Reads (with_words_of_notes (words_said words.entry) (table_view table.now)) (λ w. words_said w) result }
{
    let default = fixed_at(teller, table, "default", words.default);
    let possible_values = fixed_at(teller, table, "possible_values", words.possible_values);
    let env = fixed_at(teller, table, "env", words.env);
    let aliases = fixed_at(teller, table, "aliases", words.aliases);
    let command = fixed_at(teller, table, "command", words.command);
    Ok(FixedWords {
        default: default?,
        possible_values: possible_values?,
        env: env?,
        aliases: aliases?,
        command: command?,
        ..words
    })
}

#[tactic(auto, unfolding(crate::specs::Described::with_manual_titles))]
fn with_manual_titles<'a, A: Allocator + Copy>(
    teller: &mut Teller<'a, A>,
    words: FixedWords<'a>,
    table: &'a Table,
) -> Result<FixedWords<'a>, Refused>
    ensures { Reads (with_manual_titles (words_said words.entry) (table_view table.now)) (λ w. words_said w) result }
{
    let name = fixed_at(teller, table, "name", words.name);
    let synopsis = fixed_at(teller, table, "synopsis", words.synopsis);
    let description = fixed_at(teller, table, "description", words.description);
    let see_also = fixed_at(teller, table, "see_also", words.see_also);
    Ok(FixedWords {
        name: name?,
        synopsis: synopsis?,
        description: description?,
        see_also: see_also?,
        ..words
    })
}

#[tactic(auto, unfolding(crate::specs::Described::fixed_from))]
fn fixed_from<'a, A: Allocator + Copy>(
    teller: &mut Teller<'a, A>,
    table: &'a Table,
) -> Result<FixedWords<'a>, Refused>
    ensures { Reads (fixed_from (table_view table.now)) (λ w. words_said w) result }
{
    let are_known = check_keys(teller, table, &FIXED_KEYS);
    let english = FixedWords::english();
    let titled = with_titles(teller, english, table);
    let noted = with_words_of_notes(teller, titled.unwrap_or(english), table);
    let words = with_manual_titles(teller, noted.unwrap_or(english), table);
    are_known?;
    titled?;
    noted?;
    words
}

/// The fixed words of their table, and those in English where there is none.
pub fn fixed_in<'a, A: Allocator + Copy>(
    teller: &mut Teller<'a, A>,
    table: Option<&'a Table>,
) -> Result<FixedWords<'a>, Refused>
    ensures { Reads (fixed_in (member_view table.entry)) (λ w. words_said w) result }
{
    let Some(table) = table else {
        return Ok(FixedWords::english());
    };
    teller.enter_the_only("words")?;
    let words = fixed_from(teller, table);
    teller.leave();
    words
}
