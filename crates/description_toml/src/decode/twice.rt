//! Which names of a level stand twice, and where. This is looked for once it is known that one does.
use super::taken::{put_names_of, put_words_of, text_under};
use super::teller::{Refused, Teller};
use super::texts::{Kind, refused_as_short};
use super::values::{only_character, tables_there};
use crate::syntax::{are_paired, have_pieces_ink};
use keyed::Step;
use std::alloc::{AllocError, Allocator};
use std::collections::BTreeMap;
use toml::{Table, Value};

// The path to the key where each name stood first.
type Seen<'a, A> = BTreeMap<&'a str, Vec<Step<'a>, A>, A>;

/// A name of an option, which stands after dashes, or of a command.
#[derive(Clone, Copy)]
pub struct Named<'a> {
    pub dashes: &'static str,
    pub text: &'a str,
    /// The key at which it stands.
    pub key: &'static str,
}

/// Reports which names of options stand twice on the level of a table: those after two dashes, or after one.
pub fn tell_options<'a, A: Allocator + Copy>(
    teller: &mut Teller<'a, A>,
    table: &'a Table,
    are_two: bool,
) -> Result<(), Refused> {
    let mut seen = BTreeMap::new(teller.alloc());
    look_at_own(teller, &mut seen, table, are_two)?;
    let groups = tables_there(table, "group");
    teller.enter("group", groups)?;
    for group in groups {
        if let Value::Table(group) = group {
            look_at_own(teller, &mut seen, group, are_two)?;
        }
        teller.go_on();
    }
    teller.leave();
    Ok(())
}

fn look_at_own<'a, A: Allocator + Copy>(
    teller: &mut Teller<'a, A>,
    seen: &mut Seen<'a, A>,
    table: &'a Table,
    are_two: bool,
) -> Result<(), Refused> {
    look_at_options(teller, seen, table, are_two)?;
    let choices = tables_there(table, "choice");
    teller.enter("choice", choices)?;
    for choice in choices {
        if let Value::Table(choice) = choice {
            look_at_options(teller, seen, choice, are_two)?;
        }
        teller.go_on();
    }
    teller.leave();
    Ok(())
}

fn look_at_options<'a, A: Allocator + Copy>(
    teller: &mut Teller<'a, A>,
    seen: &mut Seen<'a, A>,
    table: &'a Table,
    are_two: bool,
) -> Result<(), Refused> {
    let options = tables_there(table, "option");
    teller.enter("option", options)?;
    for option in options {
        if let Value::Table(option) = option {
            look_at_option(teller, seen, option, are_two)?;
        }
        teller.go_on();
    }
    teller.leave();
    Ok(())
}

fn look_at_option<'a, A: Allocator + Copy>(
    teller: &mut Teller<'a, A>,
    seen: &mut Seen<'a, A>,
    option: &'a Table,
    are_two: bool,
) -> Result<(), Refused> {
    let mut own = Vec::new(teller.alloc());
    if put_names_of(&mut own, option, are_two, teller.alloc()).is_err() {
        return Err(teller.out_of_memory());
    }
    for name in &own {
        let named = option_named(option, *name, are_two);
        look_at(teller, seen, option, named)?;
    }
    Ok(())
}

fn option_named<'a>(option: &'a Table, text: &'a str, are_two: bool) -> Named<'a> {
    let key = if are_two { "long" } else { "short" };
    Named {
        dashes: if are_two { "--" } else { "-" },
        text,
        key: if text_under(option, key) == Some(text) {
            key
        } else {
            "syntax"
        },
    }
}

/// Reports which names of commands stand twice on the level of a table.
pub fn tell_commands<'a, A: Allocator + Copy>(
    teller: &mut Teller<'a, A>,
    table: &'a Table,
) -> Result<(), Refused> {
    let mut seen = BTreeMap::new(teller.alloc());
    look_at_commands(teller, &mut seen, table)?;
    let groups = tables_there(table, "group");
    teller.enter("group", groups)?;
    for group in groups {
        if let Value::Table(group) = group {
            look_at_commands(teller, &mut seen, group)?;
        }
        teller.go_on();
    }
    teller.leave();
    Ok(())
}

fn look_at_commands<'a, A: Allocator + Copy>(
    teller: &mut Teller<'a, A>,
    seen: &mut Seen<'a, A>,
    table: &'a Table,
) -> Result<(), Refused> {
    let commands = tables_there(table, "command");
    teller.enter("command", commands)?;
    for command in commands {
        if let Value::Table(command) = command {
            look_at_command(teller, seen, command)?;
        }
        teller.go_on();
    }
    teller.leave();
    Ok(())
}

fn look_at_command<'a, A: Allocator + Copy>(
    teller: &mut Teller<'a, A>,
    seen: &mut Seen<'a, A>,
    command: &'a Table,
) -> Result<(), Refused> {
    let mut own = Vec::new(teller.alloc());
    if put_words_of(&mut own, command, teller.alloc()).is_err() {
        return Err(teller.out_of_memory());
    }
    for word in &own {
        look_at(teller, seen, command, command_named(command, *word))?;
    }
    Ok(())
}

fn command_named<'a>(command: &'a Table, text: &'a str) -> Named<'a> {
    let key = if text_under(command, "name") == Some(text) {
        "name"
    } else if text_under(command, "short") == Some(text) {
        "short"
    } else {
        "aliases"
    };
    Named {
        dashes: "",
        text,
        key,
    }
}

// Reports a name that stood before, and keeps the place of one that did not. A name that is refused is skipped, since
// it is reported where its table is read.
fn look_at<'a, A: Allocator + Copy>(
    teller: &mut Teller<'a, A>,
    seen: &mut Seen<'a, A>,
    table: &'a Table,
    named: Named<'a>,
) -> Result<(), Refused> {
    match is_sound(teller.alloc(), table, named) {
        Ok(true) => {}
        Ok(false) => return Ok(()),
        Err(_) => return Err(teller.out_of_memory()),
    }
    if let Some(earlier) = seen.get(named.text) {
        teller.tell_twice(named, earlier);
        return Ok(());
    }
    keep(teller, seen, named)
}

fn keep<'a, A: Allocator + Copy>(
    teller: &mut Teller<'a, A>,
    seen: &mut Seen<'a, A>,
    named: Named<'a>,
) -> Result<(), Refused> {
    let Ok(path) = teller.path_to(named.key) else {
        return Err(teller.out_of_memory());
    };
    match seen.insert(named.text, path) {
        Ok(_) => Ok(()),
        Err(_) => Err(teller.out_of_memory()),
    }
}

fn is_sound<A: Allocator>(alloc: A, table: &Table, named: Named<'_>) -> Result<bool, AllocError> {
    match named.key {
        "long" => Ok(Kind::Long.refuses_text(named.text).is_none()),
        "short" => Ok(is_short(named.text)),
        "syntax" => is_syntax(alloc, text_under(table, "syntax")),
        _ => Ok(Kind::Command.refuses_text(named.text).is_none()),
    }
}

fn is_short(text: &str) -> bool {
    match only_character(text) {
        Some(character) => refused_as_short(character).is_none(),
        None => false,
    }
}

fn is_syntax<A: Allocator>(alloc: A, syntax: Option<&str>) -> Result<bool, AllocError> {
    let Some(text) = syntax else {
        return Ok(false);
    };
    Ok(
        Kind::Value.refuses_text(text).is_none()
            && are_paired(alloc, text)?
            && have_pieces_ink(text),
    )
}
