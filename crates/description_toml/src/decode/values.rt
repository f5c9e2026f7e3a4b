//! What stands at a key of a table.
ghost use Rattle.std.specs.Prelude.{◌≡◌, codes, IfErr, Some, option_and_then, option_map, chars, bytes_eq};
ghost use Rattle.std.specs.Prelude.{OnOk, [], ◌∷◌};
ghost use Rattle.std.specs.Prelude.{◌++◌, ◌≤◌};
ghost use Rattle.std.specs.Fmt.{signed_decimal};
ghost use Rattle.std.specs.List.{list_any};
ghost use Rattle.description.specs.View.{text_of};
ghost use Rattle.toml.specs.Data.{as_table, get_member, items_depth, members_depth};
ghost use Rattle.toml.specs.View.{items_view, table_view, view};
ghost use Rattle.description_toml.specs.Described.Kinds.{as_kind};
ghost use Rattle.description_toml.specs.Described.Values.{are_tables, as_default, as_section, as_short, as_texts};
ghost use Rattle.description_toml.specs.Described.Texts.{if_passes, is_value};
ghost use Rattle.description_toml.specs.Described.Values.{as_syntax, as_values, digit_text, listed_texts};
ghost use Rattle.description_toml.specs.Described.Values.{each_item, is_empty, words_at, flag_at, has_only};
ghost use Rattle.description_toml.specs.Described.Values.{if_short, optional_at, required_at, only_character};
ghost use Rattle.description_toml.specs.Described.Values.{table_at, tables_at};
ghost use Rattle.description_toml.specs.Described.Steps.{member_view, words_of};
ghost use Rattle.description_toml.specs.Syntax.{is_well_formed};
ghost use Rattle.description_toml.specs.Faults.{IsRefusal, Reads, Sees};

use super::teller::{Refused, Teller};
use super::texts::{Kind, checked, checked_in, refused_as_character, refused_as_short};
use crate::syntax::{are_paired, has_ink, have_pieces_ink};
use lasting_names::Names;
use std::alloc::Allocator;
use toml::{Table, Value};

/// The table that a value is, if it is one.
pub fn table_of<'a, A: Allocator + Copy>(
    teller: &mut Teller<'a, A>,
    value: &'a Value,
) -> Result<&'a Table, Refused>
    ensures { Reads (as_table (view value.now)) (λ table. table_view table.now) result }
{
    match value {
        Value::Table(table) => Ok(table),
        _ => Err(teller.tell_missing("a table")),
    }
}

// The table that stands at a key.
fn table_in<'a, A: Allocator + Copy>(
    teller: &mut Teller<'a, A>,
    value: &'a Value,
    key: &'static str,
) -> Result<&'a Table, Refused>
    ensures { Reads (as_table (view value.now)) (λ table. table_view table.now) result }
{
    match value {
        Value::Table(table) => Ok(table),
        _ => Err(teller.tell(key, " is no table")),
    }
}

/// Refuses a table that has a key which is not one of these, and reports each.
#[tactic(auto, using(crate::proofs::Reading::unknown_seen))]
pub fn check_keys<'a, A: Allocator + Copy>(
    teller: &mut Teller<'a, A>,
    table: &'a Table,
    keys: &'static [&'static str],
) -> Result<(), Refused>
    ensures { Sees (has_only (words_of keys.now) (table_view table.now)) result }
{
    let mut are_known = Ok(());
    for (key, _) in table.iter() {
        if !is_known(key.as_str(), keys) {
            are_known = Err(teller.tell_unknown(key.as_str(), keys));
        }
    }
    are_known
}

fn is_known(key: &str, keys: &[&str]) -> bool
    ensures { result ≡ list_any (λ known. bytes_eq known key.now) (words_of keys.now) }
{
    for known in keys {
        if *known == key {
            return true;
        }
    }
    false
}

/// The value at a key.
pub fn value_at<'a>(table: &'a Table, key: &str) -> Option<&'a Value>
    ensures { option_map (λ v. view v.now) result ≡ get_member key.now (table_view table.now) }
{
    table.get(key)
}

/// The text of a kind at a key.
pub fn text_at<'a, A: Allocator + Copy>(
    teller: &mut Teller<'a, A>,
    table: &'a Table,
    key: &'static str,
    kind: Kind,
) -> Result<Option<&'a str>, Refused>
    ensures { Reads (optional_at (as_kind kind) key.now (table_view table.now)) (λ text. text_of text) result }
{
    match value_at(table, key) {
        None => Ok(None),
        Some(Value::String(text)) => Ok(Some(checked(teller, text.as_str(), key, kind)?)),
        Some(_) => Err(teller.tell(key, " is no text")),
    }
}

/// The text of a kind at a key that may not be left out.
pub fn required_text_at<'a, A: Allocator + Copy>(
    teller: &mut Teller<'a, A>,
    table: &'a Table,
    key: &'static str,
    kind: Kind,
) -> Result<&'a str, Refused>
    ensures { Reads (required_at (as_kind kind) key.now (table_view table.now)) (λ text. text.now) result }
{
    match text_at(teller, table, key, kind)? {
        Some(text) => Ok(text),
        None => Err(teller.tell_missing(key)),
    }
}

/// The text of a kind at a key, as one that lasts.
pub fn word_at<'a, A: Allocator + Copy>(
    teller: &mut Teller<'a, A>,
    names: &mut Names,
    table: &'a Table,
    key: &'static str,
    kind: Kind,
) -> Result<Option<&'static str>, Refused>
    ensures { Reads (optional_at (as_kind kind) key.now (table_view table.now)) (λ word. text_of word) result }
{
    match text_at(teller, table, key, kind)? {
        Some(text) => Ok(Some(lasting(teller, names, text)?)),
        None => Ok(None),
    }
}

/// The text of a kind at a key that may not be left out, as one that lasts.
pub fn required_word_at<'a, A: Allocator + Copy>(
    teller: &mut Teller<'a, A>,
    names: &mut Names,
    table: &'a Table,
    key: &'static str,
    kind: Kind,
) -> Result<&'static str, Refused>
    ensures { Reads (required_at (as_kind kind) key.now (table_view table.now)) (λ word. word.now) result }
{
    match word_at(teller, names, table, key, kind)? {
        Some(word) => Ok(word),
        None => Err(teller.tell_missing(key)),
    }
}

/// The texts of a kind in the array at a key, at least one, as ones that last. An empty list where the array is left
/// out.
pub fn words_at<'a, A: Allocator + Copy>(
    teller: &mut Teller<'a, A>,
    names: &mut Names,
    table: &'a Table,
    key: &'static str,
    kind: Kind,
) -> Result<Vec<&'static str, A>, Refused>
    ensures { Reads (words_at (as_kind kind) key.now (table_view table.now)) (λ words. words_of words.items) result }
{
    match value_at(table, key) {
        None => Ok(Vec::new(teller.alloc())),
        Some(value) => words_of_value(teller, names, value, key, kind),
    }
}

fn words_of_value<'a, A: Allocator + Copy>(
    teller: &mut Teller<'a, A>,
    names: &mut Names,
    value: &'a Value,
    key: &'static str,
    kind: Kind,
) -> Result<Vec<&'static str, A>, Refused>
    ensures { Reads (as_texts (as_kind kind) (view value.now)) (λ words. words_of words.items) result }
{
    let items = match value {
        Value::Array(items) => items,
        Value::String(word) => return Err(lone(teller, key, word.as_str())),
        _ => return Err(teller.tell(key, " is no array of texts")),
    };
    if is_empty(items) {
        return Err(teller.tell(key, " is empty"));
    }
    words_in(teller, names, items, key, kind)
}

// Says how a text is written where an array of texts is wanted. With a comma it may stand for many.
fn lone<'a, A: Allocator + Copy>(
    teller: &mut Teller<'a, A>,
    key: &'static str,
    word: &'a str,
) -> Refused {
    if word.contains(',') {
        teller.tell(key, " is no array of texts; write each in quotes, in [ ]")
    } else {
        teller.tell_lone(key, word)
    }
}

fn words_in<'a, A: Allocator + Copy>(
    teller: &mut Teller<'a, A>,
    names: &mut Names,
    items: &'a [Value],
    key: &'static str,
    kind: Kind,
) -> Result<Vec<&'static str, A>, Refused>
    ensures { Reads (each_item (as_kind kind) (items_view items.now)) (λ words. words_of words.items) result }
{
    let mut words = Vec::new(teller.alloc());
    for item in items {
        let word = word_in(teller, names, item, key, kind)?;
        push(teller, &mut words, word)?;
    }
    Ok(words)
}

fn word_in<'a, A: Allocator + Copy>(
    teller: &mut Teller<'a, A>,
    names: &mut Names,
    item: &'a Value,
    key: &'static str,
    kind: Kind,
) -> Result<&'static str, Refused>
    ensures { Reads (as_kind kind (view item.now)) (λ word. word.now) result }
{
    match item {
        Value::String(text) => {
            let text = checked_in(teller, text.as_str(), key, kind)?;
            lasting(teller, names, text)
        }
        Value::Array(_) | Value::Table(_) => Err(teller.tell(key, " is no array of texts")),
        _ => Err(teller.tell(key, " is no array of texts; write each in quotes")),
    }
}

/// The default of a value, at the key `default`, as a text or as a whole number. The text of a number lasts.
pub fn default_at<'a, A: Allocator + Copy>(
    teller: &mut Teller<'a, A>,
    names: &mut Names,
    table: &'a Table,
) -> Result<Option<&'a str>, Refused>
    ensures { Reads (optional_at as_default (codes "default") (table_view table.now)) (λ text. text_of text) result }
{
    match value_at(table, "default") {
        None => Ok(None),
        Some(Value::String(text)) => Ok(Some(checked(
            teller,
            text.as_str(),
            "default",
            Kind::Line,
        )?)),
        Some(Value::Integer(number)) => {
            let text = number_text(teller, names, *number)?;
            Ok(Some(checked(teller, text, "default", Kind::Line)?))
        }
        Some(Value::Array(_) | Value::Table(_)) => {
            Err(teller.tell("default", " is no text and no whole number"))
        }
        Some(_) => Err(teller.tell(
            "default",
            " is no text and no whole number; write it in quotes",
        )),
    }
}

fn number_text<'a, A: Allocator + Copy>(
    teller: &mut Teller<'a, A>,
    names: &mut Names,
    number: i64,
) -> Result<&'static str, Refused>
    ensures { Reads (Some (signed_decimal number)) (λ text. text.now) result }
{
    match format!(in teller.alloc(); "{number}") {
        Ok(text) => lasting(teller, names, &text),
        Err(_) => Err(teller.out_of_memory()),
    }
}

/// The text, as one that lasts.
pub fn lasting<'a, A: Allocator + Copy>(
    teller: &mut Teller<'a, A>,
    names: &mut Names,
    text: &str,
) -> Result<&'static str, Refused>
    ensures { Reads (Some text.now) (λ word. word.now) result }
{
    match names.get(text) {
        Ok(word) => Ok(word),
        Err(_) => Err(teller.out_of_memory()),
    }
}

/// The possible values, at the key `values`, as one text that lasts.
pub fn values_at<'a, A: Allocator + Copy>(
    teller: &mut Teller<'a, A>,
    names: &mut Names,
    table: &'a Table,
) -> Result<Option<&'static str>, Refused>
    ensures { Reads (optional_at as_values (codes "values") (table_view table.now)) (λ text. text_of text) result }
{
    match value_at(table, "values") {
        None => Ok(None),
        Some(value) => Ok(Some(values_in(teller, names, value)?)),
    }
}

fn values_in<'a, A: Allocator + Copy>(
    teller: &mut Teller<'a, A>,
    names: &mut Names,
    value: &'a Value,
) -> Result<&'static str, Refused>
    ensures { Reads (as_values (view value.now)) (λ text. text.now) result }
{
    let words = words_of_value(teller, names, value, "values", Kind::Value)?;
    let listed = listed_text(teller, names, &words)?;
    checked(teller, listed, "values", Kind::Value)
}

// The texts with a comma and a blank between each two, as one that lasts.
fn listed_text<'a, A: Allocator + Copy>(
    teller: &mut Teller<'a, A>,
    names: &mut Names,
    words: &[&'static str],
) -> Result<&'static str, Refused>
    ensures { Reads (Some (listed_texts (words_of words.now))) (λ text. text.now) result }
{
    match words.join(teller.alloc(), ", ") {
        Ok(listed) => lasting(teller, names, &listed),
        Err(_) => Err(teller.out_of_memory()),
    }
}

/// How an option is written, at the key `syntax`.
pub fn syntax_at<'a, A: Allocator + Copy>(
    teller: &mut Teller<'a, A>,
    table: &'a Table,
) -> Result<Option<&'a str>, Refused>
    ensures { Reads (optional_at as_syntax (codes "syntax") (table_view table.now)) (λ text. text_of text) result }
{
    match value_at(table, "syntax") {
        None => Ok(None),
        Some(Value::String(text)) => Ok(Some(syntax_in(teller, text.as_str())?)),
        Some(_) => Err(teller.tell("syntax", " is no text")),
    }
}

fn syntax_in<'a, A: Allocator + Copy>(
    teller: &mut Teller<'a, A>,
    text: &'a str,
) -> Result<&'a str, Refused>
    ensures { Reads (option_and_then (if_passes is_well_formed) (if_passes is_value text.now)) (λ text. text.now)
        result }
{
    let text = checked(teller, text, "syntax", Kind::Value)?;
    well_formed(teller, text)
}

fn well_formed<'a, A: Allocator + Copy>(
    teller: &mut Teller<'a, A>,
    text: &'a str,
) -> Result<&'a str, Refused>
    ensures { Reads (if_passes is_well_formed text.now) (λ text. text.now) result }
{
    let Ok(are_paired) = are_paired(teller.alloc(), text) else {
        return Err(teller.out_of_memory());
    };
    if !are_paired {
        return Err(teller.tell("syntax", " holds a bracket that is in no pair"));
    }
    if !have_pieces_ink(text) {
        return Err(teller.tell("syntax", refused_without_ink(text)));
    }
    Ok(text)
}

// Why a syntax with a piece without ink is refused.
fn refused_without_ink(text: &str) -> &'static str {
    if has_ink(text) {
        " holds an empty piece"
    } else {
        " is blank"
    }
}

/// The flag at a key.
pub fn flag_at<'a, A: Allocator + Copy>(
    teller: &mut Teller<'a, A>,
    table: &'a Table,
    key: &'static str,
    default: bool,
) -> Result<bool, Refused>
    ensures { Reads (flag_at default key.now (table_view table.now)) (λ flag. flag) result }
{
    match value_at(table, key) {
        None => Ok(default),
        Some(Value::Boolean(flag)) => Ok(*flag),
        Some(_) => Err(teller.tell(key, " is neither true nor false")),
    }
}

// The character of a text that has one.
pub fn only_character(text: &str) -> Option<char>
    ensures { result ≡ only_character (chars text.now) }
{
    let mut characters = text.chars();
    let first = characters.next();
    if characters.next().is_none() {
        first
    } else {
        None
    }
}

/// The short name at a key.
pub fn short_at<'a, A: Allocator + Copy>(
    teller: &mut Teller<'a, A>,
    table: &'a Table,
    key: &'static str,
) -> Result<Option<char>, Refused>
    ensures { Reads (optional_at as_short key.now (table_view table.now)) (λ short. short) result }
{
    match value_at(table, key) {
        None => Ok(None),
        Some(Value::String(text)) => Ok(Some(short_in(teller, text.as_str(), key)?)),
        Some(_) => Err(teller.tell(key, " is no text")),
    }
}

fn short_in<'a, A: Allocator + Copy>(
    teller: &mut Teller<'a, A>,
    text: &str,
    key: &'static str,
) -> Result<char, Refused>
    ensures { Reads (option_and_then if_short (only_character (chars text.now))) (λ short. short) result }
{
    let Some(short) = only_character(text) else {
        return Err(teller.tell(key, refused_as_character(text)));
    };
    match refused_as_short(short) {
        None => Ok(short),
        Some(after) => Err(teller.tell(key, after)),
    }
}

/// The section of the manual at a key, as a text or as a number of one digit.
pub fn section_at<'a, A: Allocator + Copy>(
    teller: &mut Teller<'a, A>,
    table: &'a Table,
    key: &'static str,
) -> Result<Option<&'a str>, Refused>
    ensures { Reads (optional_at as_section key.now (table_view table.now)) (λ section. text_of section) result }
{
    match value_at(table, key) {
        None => Ok(None),
        Some(Value::String(text)) => Ok(Some(checked(teller, text.as_str(), key, Kind::Section)?)),
        Some(Value::Integer(number)) => match digit_text(*number) {
            None => Err(teller.tell(key, " is no number from 0 to 9")),
            digit => Ok(digit),
        },
        Some(_) => Err(teller.tell(key, " is no text and no number")),
    }
}

// The text of a number of one digit.
fn digit_text(number: i64) -> Option<&'static str>
    ensures { text_of result ≡ digit_text number }
{
    match number {
        0 => Some("0"),
        1 => Some("1"),
        2 => Some("2"),
        3 => Some("3"),
        4 => Some("4"),
        5 => Some("5"),
        6 => Some("6"),
        7 => Some("7"),
        8 => Some("8"),
        9 => Some("9"),
        _ => None,
    }
}

/// The table at a key.
pub fn table_at<'a, A: Allocator + Copy>(
    teller: &mut Teller<'a, A>,
    table: &'a Table,
    key: &'static str,
) -> Result<Option<&'a Table>, Refused>
    ensures { Reads (table_at key.now (table_view table.now)) (λ inner. member_view inner) result }
{
    match value_at(table, key) {
        None => Ok(None),
        Some(value) => Ok(Some(table_in(teller, value, key)?)),
    }
}

/// The tables of the array at a key.
pub fn tables_at<'a, A: Allocator + Copy>(
    teller: &mut Teller<'a, A>,
    table: &'a Table,
    key: &'static str,
) -> Result<&'a [Value], Refused>
    ensures { Reads (tables_at key.now (table_view table.now)) (λ tables. items_view tables.now) result }
{
    match tables_found(table, key) {
        Some(tables) => Ok(tables),
        None => Err(teller.tell_no_tables(key, table_there(table, key).is_some())),
    }
}

// None where something else is there.
fn tables_found<'a>(table: &'a Table, key: &str) -> Option<&'a [Value]>
    ensures { option_map (λ tables. items_view tables.now) result ≡ tables_at key.now (table_view table.now) }
{
    match value_at(table, key) {
        None => Some(&[]),
        Some(Value::Array(items)) if are_tables(items) => Some(items),
        Some(_) => None,
    }
}

/// The tables of the array at a key, and none where something else is there.
#[tactic(auto, using(crate::proofs::Depths::tables_depth))]
pub fn tables_there<'a>(table: &'a Table, key: &str) -> &'a [Value]
    ensures { items_depth (items_view result.now) ≤ members_depth (table_view table.now) }
{
    match tables_found(table, key) {
        Some(tables) => tables,
        None => &[],
    }
}

/// The table at a key; None where there is no table.
pub fn table_there<'a>(table: &'a Table, key: &str) -> Option<&'a Table> {
    match value_at(table, key) {
        Some(Value::Table(inner)) => Some(inner),
        _ => None,
    }
}

fn are_tables(items: &[Value]) -> bool
    ensures { result ≡ are_tables (items_view items.now) }
{
    for item in items {
        if !item.is_table() {
            return false;
        }
    }
    true
}

/// Whether there are none.
#[tactic(auto, using(crate::proofs::Reading::no_items_there))]
pub fn is_empty(items: &[Value]) -> bool
    ensures { result ≡ is_empty (items_view items.now) }
{
    items.is_empty()
}

/// Appends one more.
pub fn push<'a, T: Drop, A: Allocator + Copy>(
    teller: &mut Teller<'a, A>,
    list: &mut Vec<T, A>,
    one: T,
) -> Result<(), Refused>
    ensures put { OnOk result (list.new.items ≡ list.old.items ++ one ∷ []) }
    ensures refused { IfErr result (λ refused. IsRefusal refused) }
{
    match list.push(one) {
        Ok(_) => Ok(()),
        Err(_) => Err(teller.out_of_memory()),
    }
}
