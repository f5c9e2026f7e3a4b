//! The fixed words that are not English.
ghost use Rattle.std.specs.Prelude.{◌≡◌, map, OnOk};
ghost use Rattle.description.specs.Words.{words_said};
ghost use Rattle.json_of_descriptions.specs.Descriptions.{word_of, words_fields, words_of};
ghost use Rattle.json_of_descriptions.specs.Fields.{is_nothing, object_at};
ghost use Rattle.json_of_descriptions.specs.View.{word_said};
ghost use Rattle.json_of_descriptions.specs.Steps.{PutsFields};

use crate::fields::put_text_unless;
use description::FixedWords;
use json::{Pretty, Token};
use std::alloc::{AllocError, Allocator};

// A key, its default, and the word.
#[derive(Clone, Copy)]
struct Word<'a> {
    key: &'static str,
    usual: &'static str,
    word: &'a str,
}

fn row<'a>(key: &'static str, usual: &'static str, word: &'a str) -> Word<'a>
    ensures { word_said result ≡ word_of key.now usual.now word.now }
{
    Word { key, usual, word }
}

fn rows<'a>(words: &FixedWords<'a>) -> [Word<'a>; 15]
    ensures { map word_said result ≡ words_of (words_said words.now) }
{
    let english = FixedWords::english();
    [
        row("usage", english.usage, words.usage),
        row("arguments", english.arguments, words.arguments),
        row("options", english.options, words.options),
        row("commands", english.commands, words.commands),
        row("contents", english.contents, words.contents),
        row("notes", english.notes, words.notes),
        row("default", english.default, words.default),
        row(
            "possible_values",
            english.possible_values,
            words.possible_values,
        ),
        row("env", english.env, words.env),
        row("aliases", english.aliases, words.aliases),
        row("command", english.command, words.command),
        row("name", english.name, words.name),
        row("synopsis", english.synopsis, words.synopsis),
        row("description", english.description, words.description),
        row("see_also", english.see_also, words.see_also),
    ]
}

fn are_usual(rows: &[Word<'_>]) -> bool
    ensures { result ≡ is_nothing (words_fields (map word_said rows.now)) }
{
    for row in rows {
        if row.word != row.usual {
            return false;
        }
    }
    true
}

#[tactic(auto, using(crate::proofs::Putting::fields_none))]
fn put_rows<A: Allocator>(out: &mut Pretty<A>, rows: &[Word<'_>]) -> Result<(), AllocError>
    ensures { OnOk result (PutsFields out.old out.new (words_fields (map word_said rows.now))) }
{
    for row in rows {
        put_text_unless(out, row.usual, row.key, row.word)?;
    }
    Ok(())
}

fn put_table<A: Allocator>(
    out: &mut Pretty<A>,
    key: &str,
    rows: &[Word<'_>],
) -> Result<(), AllocError>
    ensures { OnOk result (PutsFields out.old out.new (object_at key.now (words_fields (map word_said rows.now)))) }
{
    if are_usual(rows) {
        return Ok(());
    }
    out.token(Token::Key(key))?;
    out.token(Token::BeginObject)?;
    put_rows(out, rows)?;
    out.token(Token::EndObject)
}

/// Puts those that are not English as an object.
pub fn put_fixed_words<A: Allocator>(
    out: &mut Pretty<A>,
    key: &str,
    words: &FixedWords<'_>,
) -> Result<(), AllocError>
    ensures { OnOk result (PutsFields out.old out.new (object_at key.now (words_fields (words_of (words_said words.now))))) }
{
    let rows = rows(words);
    put_table(out, key, &rows)
}
