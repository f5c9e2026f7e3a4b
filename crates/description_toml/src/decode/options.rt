//! Options, choices and positional values, each from its table. Each key of a table is read before the first `?`, so
//! that every fault is reported.
ghost use Rattle.std.specs.Prelude.{◌≡◌, IfOk, codes, map, option_and_then};
ghost use Rattle.description.specs.View.{text_of, choice_said, opt_said, positional_said, spelling_said};
ghost use Rattle.toml.specs.Data.{as_table};
ghost use Rattle.toml.specs.View.{items_view, table_view, view};
ghost use Rattle.description_toml.specs.Described.{choice_from, help_option_keys, option_from, option_keys};
ghost use Rattle.description_toml.specs.Described.{is_flag, is_syntax, option_of, option_spelling, option_texts};
ghost use Rattle.description_toml.specs.Described.{option_value, spelling_from, refused_if, positional_from};
ghost use Rattle.description_toml.specs.Described.{positional_of, positional_texts, required_beside};
ghost use Rattle.description_toml.specs.Described.Steps.{some_tables, value_texts_seen, words_of};
ghost use Rattle.description_toml.specs.Described.Texts.{as_value};
ghost use Rattle.description_toml.specs.Described.Values.{as_default, as_values, each_table, optional_at, tables_at};
ghost use Rattle.description_toml.specs.Faults.{Reads};

use super::hints::{BESIDE_NONE, has_values, hint_beside};
use super::teller::{Refused, Teller};
use super::texts::Kind;
use super::values::{
    check_keys, default_at, flag_at, is_empty, required_word_at, short_at, syntax_at, table_of,
    tables_at, text_at, value_at, values_at, word_at,
};
use description::hints::ValueHint;
use description::options::{Choice, Name, Opt, Spelling};
use description::positionals::Positional;
use lasting_names::Names;
use std::alloc::Allocator;
use toml::{Table, Value};

const ALTERNATIVE_KEYS: [&str; 10] = [
    "short", "long", "syntax", "value", "default", "values", "hint", "help", "hidden", "env",
];

const OPTION_KEYS: [&str; 12] = [
    "short", "long", "syntax", "value", "default", "values", "hint", "help", "hidden", "env",
    "required", "repeated",
];

const HELP_OPTION_KEYS: [&str; 11] = [
    "short", "long", "syntax", "value", "default", "values", "hint", "help", "env", "required",
    "repeated",
];

const CHOICE_KEYS: [&str; 2] = ["option", "required"];

const POSITIONAL_KEYS: [&str; 9] = [
    "value", "default", "values", "hint", "help", "hidden", "required", "repeated", "strict",
];

fn option_spelling<'a, A: Allocator + Copy>(
    teller: &mut Teller<'a, A>,
    names: &mut Names,
    table: &'a Table,
) -> Result<Spelling<'a>, Refused>
    ensures { Reads (option_spelling (table_view table.now)) (λ spelling. spelling_said spelling) result }
{
    let short = short_at(teller, table, "short");
    let long = word_at(teller, names, table, "long", Kind::Long);
    let syntax = syntax_at(teller, table);
    spelling_from(teller, short?, long?, syntax?)
}

fn spelling_from<'a, A: Allocator + Copy>(
    teller: &mut Teller<'a, A>,
    short: Option<char>,
    long: Option<&'static str>,
    syntax: Option<&'a str>,
) -> Result<Spelling<'a>, Refused>
    ensures { Reads (spelling_from short (text_of long.entry) (text_of syntax.entry))
        (λ spelling. spelling_said spelling) result }
{
    match (short, long, syntax) {
        (None, None, None) => { Err(teller.tell_missing("short, long or syntax")) },
        (Some(short), None, None) => Ok(Spelling::Names(Name::Short(short))),
        (None, Some(long), None) => Ok(Spelling::Names(Name::Long(long))),
        (Some(short), Some(long), None) => Ok(Spelling::Names(Name::Both(short, long))),
        (None, None, Some(text)) => Ok(Spelling::Syntax(text)),
        (None, Some(_), Some(_)) => Err(teller.tell("syntax", " stands beside long")),
        (Some(_), _, Some(_)) => Err(teller.tell("syntax", " stands beside short")),
    }
}

fn is_syntax(spelling: Spelling<'_>) -> bool
    ensures { result ≡ is_syntax (spelling_said spelling.entry) }
{
    match spelling {
        Spelling::Names(_) => false,
        Spelling::Syntax(_) => true,
    }
}

// Whether an option has a syntax: of one that is spelled wrong, whether the key is there.
fn has_syntax(spelling: Result<Spelling<'_>, Refused>, table: &Table) -> bool
    ensures { IfOk spelling.entry (λ spelling. result ≡ is_syntax (spelling_said spelling)) }
{
    match spelling {
        Ok(spelling) => is_syntax(spelling),
        Err(_) => value_at(table, "syntax").is_some(),
    }
}

// What is said of the value of an option.
#[derive(Clone, Copy)]
struct ValueTexts<'a> {
    value: Option<&'static str>,
    default: Option<&'a str>,
    values: Option<&'a str>,
    hint: ValueHint,
}

// The word for a value, which may not stand beside a syntax.
fn value_beside<'a, A: Allocator + Copy>(
    teller: &mut Teller<'a, A>,
    names: &mut Names,
    table: &'a Table,
    is_syntax: bool,
) -> Result<Option<&'static str>, Refused>
    ensures { Reads (option_and_then (refused_if is_syntax) (optional_at as_value (codes "value")
        (table_view table.now))) (λ text. text_of text) result }
{
    let value = word_at(teller, names, table, "value", Kind::Value)?;
    refused_if(teller, is_syntax, value, "syntax", " stands beside value")
}

fn default_beside<'a, A: Allocator + Copy>(
    teller: &mut Teller<'a, A>,
    names: &mut Names,
    table: &'a Table,
    is_flag: bool,
) -> Result<Option<&'a str>, Refused>
    ensures { Reads (option_and_then (refused_if is_flag) (optional_at as_default (codes "default")
        (table_view table.now))) (λ text. text_of text) result }
{
    let default = default_at(teller, names, table)?;
    refused_if(teller, is_flag, default, "default", BESIDE_NONE)
}

fn values_beside<'a, A: Allocator + Copy>(
    teller: &mut Teller<'a, A>,
    names: &mut Names,
    table: &'a Table,
    is_flag: bool,
) -> Result<Option<&'static str>, Refused>
    ensures { Reads (option_and_then (refused_if is_flag) (optional_at as_values (codes "values")
        (table_view table.now))) (λ text. text_of text) result }
{
    let values = values_at(teller, names, table)?;
    refused_if(teller, is_flag, values, "values", BESIDE_NONE)
}

#[tactic(auto, unfolding(crate::specs::Described::option_value))]
fn option_value<'a, A: Allocator + Copy>(
    teller: &mut Teller<'a, A>,
    names: &mut Names,
    table: &'a Table,
    is_syntax: bool,
) -> Result<ValueTexts<'a>, Refused>
    ensures { Reads (option_value is_syntax (table_view table.now)) (λ texts. value_texts_seen texts) result }
{
    let value = value_beside(teller, names, table, is_syntax);
    let is_flag = seems_flag(is_syntax, value);
    let default = default_beside(teller, names, table, is_flag);
    let values = values_beside(teller, names, table, is_flag);
    let hint = hint_beside(teller, table, is_flag, has_values(values));
    Ok(ValueTexts {
        value: value?,
        default: default?,
        values: values?,
        hint: hint?,
    })
}

fn is_flag(is_syntax: bool, value: Option<&str>) -> bool
    ensures { result ≡ is_flag is_syntax (text_of value.entry) }
{
    !(is_syntax || value.is_some())
}

// Whether nothing can be said of the value. Where the word for it is wrong, something can.
fn seems_flag(is_syntax: bool, value: Result<Option<&str>, Refused>) -> bool
    ensures { IfOk value.entry (λ value. result ≡ is_flag is_syntax (text_of value)) }
{
    match value {
        Ok(value) => is_flag(is_syntax, value),
        Err(_) => false,
    }
}

// A text, which is refused if it is there and may not be.
fn refused_if<'a, 't, A: Allocator + Copy>(
    teller: &mut Teller<'a, A>,
    is_wrong: bool,
    text: Option<&'t str>,
    key: &'static str,
    after: &'static str,
) -> Result<Option<&'t str>, Refused>
    ensures { Reads (refused_if is_wrong (text_of text.entry)) (λ text. text_of text) result }
{
    if is_wrong && text.is_some() {
        Err(teller.tell(key, after))
    } else {
        Ok(text)
    }
}

// All of an option except whether it is required and repeated.
fn option_texts<'a, A: Allocator + Copy>(
    teller: &mut Teller<'a, A>,
    names: &mut Names,
    table: &'a Table,
) -> Result<Opt<'a>, Refused>
    ensures { Reads (option_texts (table_view table.now)) (λ option. opt_said option) result }
{
    let spelling = option_spelling(teller, names, table);
    let texts = option_value(teller, names, table, has_syntax(spelling, table));
    let help = text_at(teller, table, "help", Kind::Text);
    let hidden = flag_at(teller, table, "hidden", false);
    let env = word_at(teller, names, table, "env", Kind::Name);
    let spelling = spelling?;
    let ValueTexts {
        value,
        default,
        values,
        hint,
    } = texts?;
    Ok(Opt {
        spelling,
        value,
        default,
        values,
        hint,
        help: help?,
        env: env?,
        required: false,
        repeated: false,
        hidden: hidden?,
    })
}

// Whether something has to be given; with a default it never has to.
fn required_beside<'a, A: Allocator + Copy>(
    teller: &mut Teller<'a, A>,
    default: Option<&str>,
    left_out: bool,
    table: &'a Table,
) -> Result<bool, Refused>
    ensures { Reads (required_beside (text_of default.entry) left_out (table_view table.now))
        (λ required. required) result }
{
    if default.is_none() {
        return flag_at(teller, table, "required", left_out);
    }
    if flag_at(teller, table, "required", false)? {
        Err(teller.tell("required", " is true beside a default"))
    } else {
        Ok(false)
    }
}

// The default of an option, and none of one that was refused.
fn option_default<'a>(option: Result<Opt<'a>, Refused>) -> Option<&'a str>
    ensures { IfOk option.entry (λ option. result ≡ option.default) }
{
    match option {
        Ok(option) => option.default,
        Err(_) => None,
    }
}

fn option_of<'a, A: Allocator + Copy>(
    teller: &mut Teller<'a, A>,
    names: &mut Names,
    table: &'a Table,
) -> Result<Opt<'a>, Refused>
    ensures { Reads (option_of (table_view table.now)) (λ option. opt_said option) result }
{
    let option = option_texts(teller, names, table);
    let required = required_beside(teller, option_default(option), false, table);
    let repeated = flag_at(teller, table, "repeated", false);
    let option = option?;
    Ok(Opt {
        required: required?,
        repeated: repeated?,
        ..option
    })
}

#[tactic(auto, unfolding(crate::specs::Described::option_from))]
fn option_from<'a, A: Allocator + Copy>(
    teller: &mut Teller<'a, A>,
    names: &mut Names,
    item: &'a Value,
    keys: &'static [&'static str],
) -> Result<Opt<'a>, Refused>
    ensures { Reads (option_and_then (option_from (words_of keys.now)) (as_table (view item.now)))
        (λ option. opt_said option) result }
{
    let table = table_of(teller, item)?;
    let are_known = check_keys(teller, table, keys);
    let option = option_of(teller, names, table);
    are_known?;
    option
}

// Options of the kind of table that has these keys.
fn options_with<'a, A: Allocator + Copy>(
    teller: &mut Teller<'a, A>,
    names: &mut Names,
    items: &'a [Value],
    kind: &'static str,
    keys: &'static [&'static str],
) -> Result<Vec<Opt<'a>, A>, Refused>
    ensures { Reads (each_table (option_from (words_of keys.now)) (items_view items.now))
        (λ options. map opt_said options.items) result }
{
    teller.enter(kind, items)?;
    let mut options = Ok(Vec::new(teller.alloc()));
    for item in items {
        let option = option_from(teller, names, item, keys);
        options = teller.joined(options, option);
    }
    teller.leave();
    options
}

/// Options, each from its table.
pub fn options_in<'a, A: Allocator + Copy>(
    teller: &mut Teller<'a, A>,
    names: &mut Names,
    items: &'a [Value],
) -> Result<Vec<Opt<'a>, A>, Refused>
    ensures { Reads (each_table (option_from option_keys) (items_view items.now))
        (λ options. map opt_said options.items) result }
{
    options_with(teller, names, items, "option", &OPTION_KEYS)
}

/// Options that ask for help, each from its table.
pub fn help_options_in<'a, A: Allocator + Copy>(
    teller: &mut Teller<'a, A>,
    names: &mut Names,
    items: &'a [Value],
) -> Result<Vec<Opt<'a>, A>, Refused>
    ensures { Reads (each_table (option_from help_option_keys) (items_view items.now))
        (λ options. map opt_said options.items) result }
{
    options_with(teller, names, items, "help_option", &HELP_OPTION_KEYS)
}

// The tables of the options of a choice, at least one.
fn alternatives_at<'a, A: Allocator + Copy>(
    teller: &mut Teller<'a, A>,
    table: &'a Table,
) -> Result<&'a [Value], Refused>
    ensures { Reads (option_and_then some_tables (tables_at (codes "option") (table_view table.now)))
        (λ items. items_view items.now) result }
{
    let items = tables_at(teller, table, "option")?;
    if is_empty(items) {
        Err(teller.tell_missing("option"))
    } else {
        Ok(items)
    }
}

#[tactic(auto, unfolding(crate::specs::Described::choice_from))]
fn choice_from<'a, A: Allocator + Copy>(
    teller: &mut Teller<'a, A>,
    names: &mut Names,
    item: &'a Value,
) -> Result<Choice<'a, A>, Refused>
    ensures { Reads (option_and_then choice_from (as_table (view item.now))) (λ choice. choice_said choice) result }
{
    let table = table_of(teller, item)?;
    let are_known = check_keys(teller, table, &CHOICE_KEYS);
    let items = alternatives_at(teller, table);
    let required = flag_at(teller, table, "required", false);
    let options = options_with(teller, names, items?, "option", &ALTERNATIVE_KEYS);
    are_known?;
    Ok(Choice {
        options: options?,
        required: required?,
    })
}

/// Choices, each from its table.
pub fn choices_in<'a, A: Allocator + Copy>(
    teller: &mut Teller<'a, A>,
    names: &mut Names,
    items: &'a [Value],
) -> Result<Vec<Choice<'a, A>, A>, Refused>
    ensures { Reads (each_table choice_from (items_view items.now)) (λ choices. map choice_said choices.items)
        result }
{
    teller.enter("choice", items)?;
    let mut choices = Ok(Vec::new(teller.alloc()));
    for item in items {
        let choice = choice_from(teller, names, item);
        choices = teller.joined(choices, choice);
    }
    teller.leave();
    choices
}

#[tactic(auto, unfolding(crate::specs::Described::positional_from))]
fn positional_from<'a, A: Allocator + Copy>(
    teller: &mut Teller<'a, A>,
    names: &mut Names,
    item: &'a Value,
) -> Result<Positional<'a>, Refused>
    ensures { Reads (option_and_then positional_from (as_table (view item.now))) (λ positional.
        positional_said positional) result }
{
    let table = table_of(teller, item)?;
    let are_known = check_keys(teller, table, &POSITIONAL_KEYS);
    let positional = positional_of(teller, names, table);
    are_known?;
    positional
}

// All of a positional value except whether it is required, repeated and strict.
fn positional_texts<'a, A: Allocator + Copy>(
    teller: &mut Teller<'a, A>,
    names: &mut Names,
    table: &'a Table,
) -> Result<Positional<'a>, Refused>
    ensures { Reads (positional_texts (table_view table.now)) (λ positional. positional_said positional) result }
{
    let value = required_word_at(teller, names, table, "value", Kind::Value);
    let default = default_at(teller, names, table);
    let values = values_at(teller, names, table);
    let hint = hint_beside(teller, table, false, has_values(values));
    let help = text_at(teller, table, "help", Kind::Text);
    let hidden = flag_at(teller, table, "hidden", false);
    Ok(Positional {
        value: value?,
        default: default?,
        values: values?,
        hint: hint?,
        help: help?,
        hidden: hidden?,
        required: true,
        repeated: false,
        strict: false,
    })
}

// The default of a positional value, and none of one that was refused.
fn positional_default<'a>(positional: Result<Positional<'a>, Refused>) -> Option<&'a str>
    ensures { IfOk positional.entry (λ positional. result ≡ positional.default) }
{
    match positional {
        Ok(positional) => positional.default,
        Err(_) => None,
    }
}

fn positional_of<'a, A: Allocator + Copy>(
    teller: &mut Teller<'a, A>,
    names: &mut Names,
    table: &'a Table,
) -> Result<Positional<'a>, Refused>
    ensures { Reads (positional_of (table_view table.now)) (λ positional. positional_said positional) result }
{
    let positional = positional_texts(teller, names, table);
    let required = required_beside(teller, positional_default(positional), true, table);
    let repeated = flag_at(teller, table, "repeated", false);
    let strict = flag_at(teller, table, "strict", false);
    let positional = positional?;
    Ok(Positional {
        required: required?,
        repeated: repeated?,
        strict: strict?,
        ..positional
    })
}

/// Positional values, each from its table.
pub fn positionals_in<'a, A: Allocator + Copy>(
    teller: &mut Teller<'a, A>,
    names: &mut Names,
    items: &'a [Value],
) -> Result<Vec<Positional<'a>, A>, Refused>
    ensures { Reads (each_table positional_from (items_view items.now))
        (λ positionals. map positional_said positionals.items) result }
{
    teller.enter("positional", items)?;
    let mut positionals = Ok(Vec::new(teller.alloc()));
    for item in items {
        let positional = positional_from(teller, names, item);
        positionals = teller.joined(positionals, positional);
    }
    teller.leave();
    positionals
}
