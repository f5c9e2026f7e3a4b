//! Descriptions that are read from the data of a TOML text.
ghost use Rattle.std.specs.Prelude.{◌≡◌, Some, None, IfOk, IfErr, codes};
ghost use Rattle.description.specs.View.{text_of, description_said};
ghost use Rattle.toml.specs.View.{table_view};
ghost use Rattle.toml_datetime.specs.Text.{date_text};
ghost use Rattle.description_toml.specs.Described.{commands_at, described, description_head, each_command};
ghost use Rattle.description_toml.specs.Described.{each_group, groups_at, language_from, section_from, title_words};
ghost use Rattle.description_toml.specs.Described.Steps.{description_head_seen, words_seen};
ghost use Rattle.description_toml.specs.Described.Values.{as_date, optional_at, text_of_date};
ghost use Rattle.description_toml.specs.Faults.{IsMemory, Reads, TellsSome};

mod faults;
mod fixed;
mod hints;
mod levels;
mod options;
mod places;
mod taken;
mod teller;
mod texts;
mod topics;
mod twice;
mod unknown;
mod values;

use description::Description;
pub use faults::{DescriptionError, Fault, Faults};
use fixed::fixed_in;
use lasting_names::Names;
use levels::{Outline, level_of, outline_from, read_level_on};
use options::help_options_in;
use std::alloc::Allocator;
use teller::{Refused, Teller};
use texts::{Kind, checked};
use toml::value::{Date, Datetime};
use toml::{Table, Value};
use values::{
    check_keys, lasting, required_word_at, section_at, table_at, table_there, tables_at,
    tables_there, text_at, value_at,
};

const DESCRIPTION_KEYS: [&str; 19] = [
    "name",
    "section",
    "date",
    "vendor",
    "title",
    "language",
    "words",
    "help_option",
    "about",
    "header",
    "footer",
    "usage",
    "command_required",
    "option",
    "choice",
    "group",
    "positional",
    "command",
    "topic",
];

/// The description that the table of a TOML text gives (`docs/description.md`). Its texts are those of the table; its
/// names, its words for values, the text of `values`, and those of a TOML date and of a number are kept in `names` for
/// good, also those that were read before an error.
///
/// `Memory` says that an allocation failed, and nothing of the table. While memory lasts, `Content` comes exactly where
/// the table gives no description, and reports the first 20 faults, at least one, and how many more there are, in the
/// order in which the table is read: of a table first the keys that are not known, then its keys in the order of
/// `docs/description.md`, then the names that stand twice, then the tables inside it. It reports nothing of what stands
/// inside a table of the wrong kind.
pub fn description_from_table<'a, A: Allocator + Copy>(
    alloc: A,
    names: &mut Names,
    table: &'a Table,
) -> Result<Description<'a, A>, DescriptionError<'a, A>>
    ensures ok { IfOk result (λ d. described (table_view table.now) ≡ Some (description_said d)) }
    ensures refused { IfErr result (λ e. ¬ IsMemory e → described (table_view table.now) ≡ None) }
    ensures told { IfErr result (λ e. TellsSome e) }
{
    let mut teller = Teller::new(alloc);
    match description_of(&mut teller, names, table) {
        Ok(description) => Ok(description),
        Err(refused) => Err(teller.error(refused)),
    }
}

#[tactic(auto, unfolding(crate::specs::Described::described))]
fn description_of<'a, A: Allocator + Copy>(
    teller: &mut Teller<'a, A>,
    names: &mut Names,
    table: &'a Table,
) -> Result<Description<'a, A>, Refused>
    ensures { Reads (described (table_view table.now)) (λ d. description_said d) result }
{
    let head = match description_head(teller, names, table) {
        Ok(head) => head,
        Err(refused) => {
            read_tables_on(teller, names, table);
            return Err(refused);
        }
    };
    let words = fixed_in(teller, head.fixed);
    let help_options = help_options_in(teller, names, head.help_options);
    let level = level_of(teller, names, head.outline);
    Ok(Description {
        name: head.name,
        section: head.words.section,
        date: head.words.date,
        vendor: head.words.vendor,
        title: head.words.title,
        language: head.language,
        words: words?,
        help_options: help_options?,
        level: level?,
    })
}

// Reads the tables of a description whose own keys were refused, to report their faults.
fn read_tables_on<'a, A: Allocator + Copy>(
    teller: &mut Teller<'a, A>,
    names: &mut Names,
    table: &'a Table,
) {
    drop(fixed_in(teller, table_there(table, "words")));
    drop(help_options_in(teller, names, tables_there(table, "help_option")));
    read_level_on(teller, names, table);
}

// The words of the title line.
#[derive(Clone, Copy)]
struct TitleWords<'a> {
    section: &'a str,
    date: Option<&'a str>,
    vendor: Option<&'a str>,
    title: Option<&'a str>,
}

// What a description says of itself, with the tables in it still to be read.
#[derive(Clone, Copy)]
struct DescriptionHead<'a> {
    name: &'static str,
    words: TitleWords<'a>,
    language: &'a str,
    fixed: Option<&'a Table>,
    help_options: &'a [Value],
    outline: Outline<'a>,
}

#[tactic(auto, unfolding(crate::specs::Described::title_words))]
fn title_words<'a, A: Allocator + Copy>(
    teller: &mut Teller<'a, A>,
    names: &mut Names,
    table: &'a Table,
) -> Result<TitleWords<'a>, Refused>
    ensures { Reads (title_words (table_view table.now)) (λ words. words_seen words) result }
{
    let section = section_at(teller, table, "section");
    let date = date_at(teller, names, table);
    let vendor = text_at(teller, table, "vendor", Kind::Title);
    let title = text_at(teller, table, "title", Kind::Title);
    Ok(TitleWords {
        section: section_of(section?),
        date: date?,
        vendor: vendor?,
        title: title?,
    })
}

#[tactic(auto, unfolding(crate::specs::Described::description_head))]
fn description_head<'a, A: Allocator + Copy>(
    teller: &mut Teller<'a, A>,
    names: &mut Names,
    table: &'a Table,
) -> Result<DescriptionHead<'a>, Refused>
    ensures head { Reads (description_head (table_view table.now)) (λ head. description_head_seen head) result }
    ensures groups { IfOk result (λ head. groups_at (codes "group") (table_view table.now)
        ≡ each_group (description_head_seen head).outline.lists.groups) }
    ensures commands { IfOk result (λ head. commands_at (codes "command") (table_view table.now)
        ≡ each_command (description_head_seen head).outline.lists.commands) }
{
    let are_known = check_keys(teller, table, &DESCRIPTION_KEYS);
    let name = required_word_at(teller, names, table, "name", Kind::Command);
    let words = title_words(teller, names, table);
    let language = text_at(teller, table, "language", Kind::Language);
    let fixed = table_at(teller, table, "words");
    let help_options = tables_at(teller, table, "help_option");
    let outline = outline_from(teller, table);
    are_known?;
    Ok(DescriptionHead {
        name: name?,
        words: words?,
        language: language_of(language?),
        fixed: fixed?,
        help_options: help_options?,
        outline: outline?,
    })
}

// The first section where none is named.
fn section_of(name: Option<&str>) -> &str
    ensures { result.now ≡ section_from (text_of name.entry) }
{
    match name {
        None => "1",
        Some(name) => name,
    }
}

// English where none is named.
fn language_of(tag: Option<&str>) -> &str
    ensures { result.now ≡ language_from (text_of tag.entry) }
{
    match tag {
        None => "en",
        Some(tag) => tag,
    }
}

// The date, as a text or as a TOML date, whose text is kept with the names.
fn date_at<'a, A: Allocator + Copy>(
    teller: &mut Teller<'a, A>,
    names: &mut Names,
    table: &'a Table,
) -> Result<Option<&'a str>, Refused>
    ensures { Reads (optional_at as_date (codes "date") (table_view table.now)) (λ date. text_of date) result }
{
    match value_at(table, "date") {
        None => Ok(None),
        Some(Value::String(text)) => Ok(Some(checked(teller, text.as_str(), "date", Kind::Title)?)),
        Some(
            Value::Datetime(
                Datetime {
                    date: Some(day),
                    time: None,
                    offset: None,
                },
            ),
        ) => Ok(Some(day_of(teller, names, *day)?)),
        Some(_) => Err(teller.tell("date", " is no text and no date")),
    }
}

// The text of a day, kept with the names.
fn day_of<'a, A: Allocator + Copy>(
    teller: &mut Teller<'a, A>,
    names: &mut Names,
    day: Date,
) -> Result<&'static str, Refused>
    ensures { Reads (Some (date_text day)) (λ text. text.now) result }
{
    match format!(in teller.alloc(); "{day}") {
        Ok(text) => lasting(teller, names, &text),
        Err(_) => Err(teller.out_of_memory()),
    }
}
