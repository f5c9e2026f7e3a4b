//! Members of an object that are written only where they say something.
ghost use Rattle.std.specs.Prelude.{◌≡◌, ◌++◌, ◌∷◌, [], Some, OnOk, map};
ghost use Rattle.description.specs.Values.{listed_values};
ghost use Rattle.description.specs.View.{text_of};
ghost use Rattle.json.specs.Json.{string};
ghost use Rattle.json.specs.Token.{begin_array, key as key_token};
ghost use Rattle.json_of_descriptions.specs.Descriptions.{hint_at, values_at};
ghost use Rattle.json_of_descriptions.specs.Fields.{character_at, flag_unless, optional_at, text_at, text_unless};
ghost use Rattle.json_of_descriptions.specs.Listed.{written_values};
ghost use Rattle.json_of_descriptions.specs.Steps.{PutsFields, PutsValues};

use crate::listed::has_empty_value;
use description::{ValueHint, split_value};
use json::{Pretty, Token};
use std::alloc::{AllocError, Allocator};

pub fn put_text<A: Allocator>(out: &mut Pretty<A>, key: &str, text: &str) -> Result<(), AllocError>
    ensures { OnOk result (PutsFields out.old out.new (text_at key.now text.now)) }
{
    out.token(Token::Key(key))?;
    out.token(Token::String(text))
}

pub fn put_optional<A: Allocator>(
    out: &mut Pretty<A>,
    key: &str,
    text: Option<&str>,
) -> Result<(), AllocError>
    ensures { OnOk result (PutsFields out.old out.new (optional_at key.now (text_of text.entry))) }
{
    match text {
        Some(text) => put_text(out, key, text),
        None => Ok(()),
    }
}

pub fn put_text_unless<A: Allocator>(
    out: &mut Pretty<A>,
    usual: &str,
    key: &str,
    text: &str,
) -> Result<(), AllocError>
    ensures { OnOk result (PutsFields out.old out.new (text_unless usual.now key.now text.now)) }
{
    if text == usual {
        Ok(())
    } else {
        put_text(out, key, text)
    }
}

pub fn put_character<A: Allocator + Copy>(
    alloc: A,
    out: &mut Pretty<A>,
    key: &str,
    character: char,
) -> Result<(), AllocError>
    ensures { OnOk result (PutsFields out.old out.new (character_at key.now (Some character))) }
{
    let mut text = String::new(alloc);
    text.push(character)?;
    put_text(out, key, text.as_str())
}

pub fn put_flag_unless<A: Allocator>(
    out: &mut Pretty<A>,
    usual: bool,
    key: &str,
    flag: bool,
) -> Result<(), AllocError>
    ensures { OnOk result (PutsFields out.old out.new (flag_unless usual key.now flag)) }
{
    if flag == usual {
        return Ok(());
    }
    out.token(Token::Key(key))?;
    out.token(Token::Bool(flag))
}

pub fn put_hint<A: Allocator>(
    out: &mut Pretty<A>,
    key: &str,
    hint: ValueHint,
) -> Result<(), AllocError>
    ensures { OnOk result (PutsFields out.old out.new (hint_at key.now hint)) }
{
    match hint {
        ValueHint::File => Ok(()),
        _ => put_text(out, key, hint.word()),
    }
}

/// Begins an array at a key.
pub fn begin_list<A: Allocator>(out: &mut Pretty<A>, key: &str) -> Result<(), AllocError>
    ensures { OnOk result (out.new ≡ out.old ++ key_token key.now ∷ begin_array ∷ []) }
{
    out.token(Token::Key(key))?;
    out.token(Token::BeginArray)
}

fn put_each<A: Allocator>(out: &mut Pretty<A>, text: &str) -> Result<(), AllocError>
    ensures { OnOk result (PutsValues out.old out.new (map string (listed_values text.now))) }
{
    let mut rest = text;
    while let Some((value, after)) = split_value(rest) {
        out.token(Token::String(value))?;
        rest = after;
    }
    out.token(Token::String(rest))
}

fn put_listed<A: Allocator>(out: &mut Pretty<A>, text: &str) -> Result<(), AllocError>
    ensures { OnOk result (PutsValues out.old out.new (map string (written_values text.now))) }
{
    if has_empty_value(text) {
        out.token(Token::String(text))
    } else {
        put_each(out, text)
    }
}

fn put_value_list<A: Allocator>(
    out: &mut Pretty<A>,
    key: &str,
    text: &str,
) -> Result<(), AllocError>
    ensures { OnOk result (PutsFields out.old out.new (values_at key.now (Some text.now))) }
{
    begin_list(out, key)?;
    put_listed(out, text)?;
    out.token(Token::EndArray)
}

pub fn put_values<A: Allocator>(
    out: &mut Pretty<A>,
    key: &str,
    values: Option<&str>,
) -> Result<(), AllocError>
    ensures { OnOk result (PutsFields out.old out.new (values_at key.now (text_of values.entry))) }
{
    match values {
        Some(text) => put_value_list(out, key, text),
        None => Ok(()),
    }
}
