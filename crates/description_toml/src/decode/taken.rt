//! Names that stand twice on a level.
ghost use Rattle.std.specs.Prelude.{◌≡◌, ◌&&◌, ◌++◌, codes, IfOk, OnOk, flat_map, option_to_list, true, false};
ghost use Rattle.toml.specs.Data.{as_str, as_table};
ghost use Rattle.toml.specs.View.{items_view, table_view, view};
ghost use Rattle.description.specs.View.{text_of};
ghost use Rattle.description_toml.specs.Described.Taken.{are_distinct, command_words, distinct, has_distinct_names};
ghost use Rattle.description_toml.specs.Described.Taken.{level_commands, level_options, own_options};
ghost use Rattle.description_toml.specs.Described.Taken.{option_names, tables_in, tables_under, text_under, texts_in};
ghost use Rattle.description_toml.specs.Described.Taken.{texts_under, without_dashes};
ghost use Rattle.description_toml.specs.Syntax.{syntax_names};
ghost use Rattle.description_toml.specs.Described.Steps.{views_of, words_of};
ghost use Rattle.description_toml.specs.Faults.{Sees};

use super::teller::{Refused, Teller};
use super::twice::{tell_commands, tell_options};
use super::values::value_at;
use crate::syntax::put_names;
use std::alloc::{AllocError, Allocator};
use std::collections::BTreeSet;
use toml::{Table, Value};

/// Refuses a level on which two options share a name, which may stand in a syntax, or two commands a name, a short name
/// or another name. It looks at the names alone, since what stands inside the tables is read later.
pub fn check_names<'a, A: Allocator + Copy>(
    teller: &mut Teller<'a, A>,
    table: &'a Table,
) -> Result<(), Refused>
    ensures { Sees (has_distinct_names (table_view table.now)) result }
{
    let Ok(distinct) = distinct_in(teller.alloc(), table) else {
        return Err(teller.out_of_memory());
    };
    if distinct.are_all() {
        return Ok(());
    }
    tell_twice(teller, table, distinct)?;
    Err(Refused::Told)
}

fn tell_twice<'a, A: Allocator + Copy>(
    teller: &mut Teller<'a, A>,
    table: &'a Table,
    distinct: Distinct,
) -> Result<(), Refused> {
    if !distinct.after_one_dash {
        tell_options(teller, table, false)?;
    }
    if !distinct.after_two_dashes {
        tell_options(teller, table, true)?;
    }
    if distinct.commands {
        Ok(())
    } else {
        tell_commands(teller, table)
    }
}

// Which names of a level stand once each.
#[derive(Clone, Copy)]
struct Distinct {
    after_one_dash: bool,
    after_two_dashes: bool,
    commands: bool,
}

impl Distinct {
    fn are_all(&self) -> bool
        ensures { result ≡ self.now.after_one_dash && (self.now.after_two_dashes && self.now.commands) }
    {
        self.after_one_dash && self.after_two_dashes && self.commands
    }
}

fn distinct_in<'a, A: Allocator + Copy>(alloc: A, table: &'a Table) -> Result<Distinct, AllocError>
    ensures one { IfOk result (λ d. d.after_one_dash
        ≡ are_distinct (flat_map (option_names false) (level_options (table_view table.now)))) }
    ensures two { IfOk result (λ d. d.after_two_dashes
        ≡ are_distinct (flat_map (option_names true) (level_options (table_view table.now)))) }
    ensures commands { IfOk result (λ d. d.commands
        ≡ are_distinct (flat_map command_words (level_commands (table_view table.now)))) }
{
    let mut options = Vec::new(alloc);
    put_level_options(&mut options, table, alloc)?;
    Ok(Distinct {
        after_one_dash: are_options_distinct(alloc, &options, false)?,
        after_two_dashes: are_options_distinct(alloc, &options, true)?,
        commands: are_commands_distinct(alloc, table)?,
    })
}

// A word of a command may be another word of its own, but not one of another command.
fn are_commands_distinct<'a, A: Allocator + Copy>(
    alloc: A,
    table: &'a Table,
) -> Result<bool, AllocError>
    ensures { IfOk result (λ b. b ≡ are_distinct (flat_map command_words (level_commands (table_view table.now)))) }
{
    let mut commands = Vec::new(alloc);
    put_level_commands(&mut commands, table, alloc)?;
    let mut words = Vec::new(alloc);
    put_command_words(&mut words, &commands, alloc)?;
    are_distinct(alloc, &words)
}

// The names of options that begin with two dashes, or those that begin with one.
fn are_options_distinct<'a, A: Allocator + Copy>(
    alloc: A,
    options: &[&'a Table],
    are_two: bool,
) -> Result<bool, AllocError>
    ensures { IfOk result (λ b. b ≡ are_distinct (flat_map (option_names are_two) (views_of options.now))) }
{
    let mut names = Vec::new(alloc);
    put_option_names(&mut names, options, are_two, alloc)?;
    are_distinct(alloc, &names)
}

fn are_distinct<A: Allocator + Copy>(alloc: A, texts: &[&str]) -> Result<bool, AllocError>
    ensures { IfOk result (λ b. b ≡ are_distinct (words_of texts.now)) }
{
    let mut seen = BTreeSet::new(alloc);
    for text in texts {
        if !seen.insert(*text)? {
            return Ok(false);
        }
    }
    Ok(true)
}

// Each `put` appends; after `AllocError` some may stand there.

fn put_option_names<'a, A: Allocator + Copy>(
    names: &mut Vec<&'a str, A>,
    options: &[&'a Table],
    are_two: bool,
    alloc: A,
) -> Result<(), AllocError>
    ensures { OnOk result (words_of names.new.items ≡ words_of names.old.items
        ++ flat_map (option_names are_two) (views_of options.now)) }
{
    for option in options {
        put_names_of(names, *option, are_two, alloc)?;
    }
    Ok(())
}

pub fn put_names_of<'a, A: Allocator + Copy>(
    names: &mut Vec<&'a str, A>,
    option: &'a Table,
    are_two: bool,
    alloc: A,
) -> Result<(), AllocError>
    ensures { OnOk result (words_of names.new.items ≡ words_of names.old.items
        ++ option_names are_two (table_view option.now)) }
{
    let mut own = Vec::new(alloc);
    put_text(
        &mut own,
        text_under(option, if are_two { "long" } else { "short" }),
    )?;
    put_syntax_names(&mut own, text_under(option, "syntax"), are_two)?;
    put_distinct(names, &own, alloc)
}

fn put_syntax_names<'a, A: Allocator>(
    names: &mut Vec<&'a str, A>,
    syntax: Option<&'a str>,
    are_two: bool,
) -> Result<(), AllocError>
    ensures { OnOk result (words_of names.new.items ≡ words_of names.old.items
        ++ flat_map (λ text. flat_map (without_dashes are_two) (syntax_names text))
        (option_to_list (text_of syntax.entry))) }
{
    match syntax {
        None => Ok(()),
        Some(text) => put_names(names, text, are_two),
    }
}

fn put_command_words<'a, A: Allocator + Copy>(
    words: &mut Vec<&'a str, A>,
    commands: &[&'a Table],
    alloc: A,
) -> Result<(), AllocError>
    ensures { OnOk result (words_of words.new.items ≡ words_of words.old.items
        ++ flat_map command_words (views_of commands.now)) }
{
    for command in commands {
        put_words_of(words, *command, alloc)?;
    }
    Ok(())
}

pub fn put_words_of<'a, A: Allocator + Copy>(
    words: &mut Vec<&'a str, A>,
    command: &'a Table,
    alloc: A,
) -> Result<(), AllocError>
    ensures { OnOk result (words_of words.new.items ≡ words_of words.old.items
        ++ command_words (table_view command.now)) }
{
    let mut own = Vec::new(alloc);
    put_text(&mut own, text_under(command, "name"))?;
    put_text(&mut own, text_under(command, "short"))?;
    put_texts_under(&mut own, command, "aliases")?;
    put_distinct(words, &own, alloc)
}

// Puts each of the texts once.
fn put_distinct<'a, A: Allocator + Copy>(
    words: &mut Vec<&'a str, A>,
    texts: &[&'a str],
    alloc: A,
) -> Result<(), AllocError>
    ensures { OnOk result (words_of words.new.items ≡ words_of words.old.items ++ distinct (words_of texts.now)) }
{
    let mut seen = BTreeSet::new(alloc);
    for text in texts {
        if seen.insert(*text)? {
            words.push(*text)?;
        }
    }
    Ok(())
}

fn put_texts_under<'a, A: Allocator>(
    texts: &mut Vec<&'a str, A>,
    table: &'a Table,
    key: &str,
) -> Result<(), AllocError>
    ensures { OnOk result (words_of texts.new.items ≡ words_of texts.old.items
        ++ texts_under key.now (table_view table.now)) }
{
    match value_at(table, key) {
        Some(Value::Array(items)) => put_texts_in(texts, items),
        _ => Ok(()),
    }
}

fn put_texts_in<'a, A: Allocator>(
    texts: &mut Vec<&'a str, A>,
    items: &'a [Value],
) -> Result<(), AllocError>
    ensures { OnOk result (words_of texts.new.items ≡ words_of texts.old.items
        ++ texts_in (items_view items.now)) }
{
    for item in items {
        put_text(texts, text_in(item))?;
    }
    Ok(())
}

fn text_in(item: &Value) -> Option<&str>
    ensures { text_of result ≡ as_str (view item.now) }
{
    match item {
        Value::String(text) => Some(text.as_str()),
        _ => None,
    }
}

pub fn text_under<'a>(table: &'a Table, key: &str) -> Option<&'a str>
    ensures { text_of result ≡ text_under key.now (table_view table.now) }
{
    match value_at(table, key) {
        Some(Value::String(text)) => Some(text.as_str()),
        _ => None,
    }
}

fn put_text<'a, A: Allocator>(
    texts: &mut Vec<&'a str, A>,
    text: Option<&'a str>,
) -> Result<(), AllocError>
    ensures { OnOk result (words_of texts.new.items ≡ words_of texts.old.items
        ++ option_to_list (text_of text.entry)) }
{
    if let Some(text) = text {
        texts.push(text)?;
    }
    Ok(())
}

fn put_tables<'a, A: Allocator>(
    tables: &mut Vec<&'a Table, A>,
    table: &'a Table,
    key: &str,
) -> Result<(), AllocError>
    ensures { OnOk result (views_of tables.new.items ≡ views_of tables.old.items
        ++ tables_under key.now (table_view table.now)) }
{
    match value_at(table, key) {
        Some(Value::Array(items)) => put_tables_in(tables, items),
        _ => Ok(()),
    }
}

fn put_tables_in<'a, A: Allocator>(
    tables: &mut Vec<&'a Table, A>,
    items: &'a [Value],
) -> Result<(), AllocError>
    ensures { OnOk result (views_of tables.new.items ≡ views_of tables.old.items
        ++ tables_in (items_view items.now)) }
{
    for item in items {
        put_table(tables, item)?;
    }
    Ok(())
}

fn put_table<'a, A: Allocator>(
    tables: &mut Vec<&'a Table, A>,
    item: &'a Value,
) -> Result<(), AllocError>
    ensures { OnOk result (views_of tables.new.items ≡ views_of tables.old.items
        ++ option_to_list (as_table (view item.now))) }
{
    if let Value::Table(table) = item {
        tables.push(table)?;
    }
    Ok(())
}

// What stands at a key of each table at another key.
fn put_inner_tables<'a, A: Allocator + Copy>(
    tables: &mut Vec<&'a Table, A>,
    table: &'a Table,
    outer: &str,
    key: &str,
    alloc: A,
) -> Result<(), AllocError>
    ensures { OnOk result (views_of tables.new.items ≡ views_of tables.old.items
        ++ flat_map (tables_under key.now) (tables_under outer.now (table_view table.now))) }
{
    let mut holders = Vec::new(alloc);
    put_tables(&mut holders, table, outer)?;
    for holder in &holders {
        put_tables(tables, *holder, key)?;
    }
    Ok(())
}

fn put_own_options<'a, A: Allocator + Copy>(
    tables: &mut Vec<&'a Table, A>,
    table: &'a Table,
    alloc: A,
) -> Result<(), AllocError>
    ensures { OnOk result (views_of tables.new.items ≡ views_of tables.old.items
        ++ own_options (table_view table.now)) }
{
    put_tables(tables, table, "option")?;
    put_inner_tables(tables, table, "choice", "option", alloc)
}

fn put_level_options<'a, A: Allocator + Copy>(
    tables: &mut Vec<&'a Table, A>,
    table: &'a Table,
    alloc: A,
) -> Result<(), AllocError>
    ensures { OnOk result (views_of tables.new.items ≡ views_of tables.old.items
        ++ level_options (table_view table.now)) }
{
    put_own_options(tables, table, alloc)?;
    let mut groups = Vec::new(alloc);
    put_tables(&mut groups, table, "group")?;
    for group in &groups {
        put_own_options(tables, *group, alloc)?;
    }
    Ok(())
}

fn put_level_commands<'a, A: Allocator + Copy>(
    tables: &mut Vec<&'a Table, A>,
    table: &'a Table,
    alloc: A,
) -> Result<(), AllocError>
    ensures { OnOk result (views_of tables.new.items ≡ views_of tables.old.items
        ++ level_commands (table_view table.now)) }
{
    put_tables(tables, table, "command")?;
    put_inner_tables(tables, table, "group", "command", alloc)
}
