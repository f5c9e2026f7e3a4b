//! Arrays of options, choices, positional values, topics and words.
ghost use Rattle.std.specs.Prelude.{◌≡◌, ◌∷◌, [], OnOk, map};
ghost use Rattle.description.specs.View.{choice_said, opt_said, positional_said, topic_said};
ghost use Rattle.json.specs.Json.{string};
ghost use Rattle.json_of_descriptions.specs.Descriptions.{choice_json, choices_at, option_json, options_at, positional_json};
ghost use Rattle.json_of_descriptions.specs.Descriptions.{positionals_at, topic_json, topics_at};
ghost use Rattle.json_of_descriptions.specs.Fields.{list_at};
ghost use Rattle.json_of_descriptions.specs.Steps.{PutsFields, PutsValues};

use crate::fields::{begin_list, put_flag_unless, put_text};
use crate::options::{put_option_fields, put_positional_fields};
use description::{Choice, Opt, Positional, Topic};
use json::{Pretty, Token};
use std::alloc::{AllocError, Allocator};

// ---- options

#[tactic(auto, using(crate::proofs::Putting::values_none))]
fn put_each_option<A: Allocator + Copy>(
    alloc: A,
    out: &mut Pretty<A>,
    options: &[Opt<'_>],
) -> Result<(), AllocError>
    ensures { OnOk result (PutsValues out.old out.new (map option_json (map opt_said options.now))) }
{
    for option in options {
        out.token(Token::BeginObject)?;
        put_option_fields(alloc, out, option)?;
        out.token(Token::EndObject)?;
    }
    Ok(())
}

pub fn put_options<A: Allocator + Copy, B: Allocator>(
    alloc: A,
    out: &mut Pretty<A>,
    key: &str,
    options: &Vec<Opt<'_>, B>,
) -> Result<(), AllocError>
    ensures { OnOk result (PutsFields out.old out.new (options_at key.now (map opt_said options.now.items))) }
{
    let options = options.as_slice();
    if options.is_empty() {
        return Ok(());
    }
    begin_list(out, key)?;
    put_each_option(alloc, out, options)?;
    out.token(Token::EndArray)
}

// ---- choices

fn put_choice<A: Allocator + Copy, B: Allocator>(
    alloc: A,
    out: &mut Pretty<A>,
    choice: &Choice<'_, B>,
) -> Result<(), AllocError>
    ensures { OnOk result (PutsValues out.old out.new (choice_json (choice_said choice.now) ∷ [])) }
{
    out.token(Token::BeginObject)?;
    put_options(alloc, out, "option", &choice.options)?;
    put_flag_unless(out, false, "required", choice.required)?;
    out.token(Token::EndObject)
}

#[tactic(auto, using(crate::proofs::Putting::values_none))]
fn put_each_choice<A: Allocator + Copy, B: Allocator>(
    alloc: A,
    out: &mut Pretty<A>,
    choices: &[Choice<'_, B>],
) -> Result<(), AllocError>
    ensures { OnOk result (PutsValues out.old out.new (map choice_json (map choice_said choices.now))) }
{
    for choice in choices {
        put_choice(alloc, out, choice)?;
    }
    Ok(())
}

pub fn put_choices<A: Allocator + Copy, B: Allocator>(
    alloc: A,
    out: &mut Pretty<A>,
    key: &str,
    choices: &Vec<Choice<'_, B>, B>,
) -> Result<(), AllocError>
    ensures { OnOk result (PutsFields out.old out.new (choices_at key.now (map choice_said choices.now.items))) }
{
    let choices = choices.as_slice();
    if choices.is_empty() {
        return Ok(());
    }
    begin_list(out, key)?;
    put_each_choice(alloc, out, choices)?;
    out.token(Token::EndArray)
}

// ---- positional values

#[tactic(auto, using(crate::proofs::Putting::values_none))]
fn put_each_positional<A: Allocator>(
    out: &mut Pretty<A>,
    positionals: &[Positional<'_>],
) -> Result<(), AllocError>
    ensures { OnOk result (PutsValues out.old out.new (map positional_json (map positional_said positionals.now))) }
{
    for positional in positionals {
        out.token(Token::BeginObject)?;
        put_positional_fields(out, positional)?;
        out.token(Token::EndObject)?;
    }
    Ok(())
}

pub fn put_positionals<A: Allocator, B: Allocator>(
    out: &mut Pretty<A>,
    key: &str,
    positionals: &Vec<Positional<'_>, B>,
) -> Result<(), AllocError>
    ensures { OnOk result (PutsFields out.old out.new (positionals_at key.now (map positional_said positionals.now.items))) }
{
    let positionals = positionals.as_slice();
    if positionals.is_empty() {
        return Ok(());
    }
    begin_list(out, key)?;
    put_each_positional(out, positionals)?;
    out.token(Token::EndArray)
}

// ---- topics

fn put_topic<A: Allocator>(out: &mut Pretty<A>, topic: &Topic<'_>) -> Result<(), AllocError>
    ensures { OnOk result (PutsValues out.old out.new (topic_json (topic_said topic.now) ∷ [])) }
{
    out.token(Token::BeginObject)?;
    put_text(out, "title", topic.title)?;
    put_text(out, "text", topic.text)?;
    out.token(Token::EndObject)
}

#[tactic(auto, using(crate::proofs::Putting::values_none))]
fn put_each_topic<A: Allocator>(out: &mut Pretty<A>, topics: &[Topic<'_>]) -> Result<(), AllocError>
    ensures { OnOk result (PutsValues out.old out.new (map topic_json (map topic_said topics.now))) }
{
    for topic in topics {
        put_topic(out, topic)?;
    }
    Ok(())
}

pub fn put_topics<A: Allocator, B: Allocator>(
    out: &mut Pretty<A>,
    key: &str,
    topics: &Vec<Topic<'_>, B>,
) -> Result<(), AllocError>
    ensures { OnOk result (PutsFields out.old out.new (topics_at key.now (map topic_said topics.now.items))) }
{
    let topics = topics.as_slice();
    if topics.is_empty() {
        return Ok(());
    }
    begin_list(out, key)?;
    put_each_topic(out, topics)?;
    out.token(Token::EndArray)
}

// ---- words

#[tactic(auto, using(crate::proofs::Putting::values_none))]
fn put_each_word<A: Allocator>(
    out: &mut Pretty<A>,
    words: &[&'static str],
) -> Result<(), AllocError>
    ensures { OnOk result (PutsValues out.old out.new (map string (map (λ word. word.now) words.now))) }
{
    for word in words {
        out.token(Token::String(word))?;
    }
    Ok(())
}

pub fn put_words<A: Allocator, B: Allocator>(
    out: &mut Pretty<A>,
    key: &str,
    words: &Vec<&'static str, B>,
) -> Result<(), AllocError>
    ensures { OnOk result (PutsFields out.old out.new (list_at key.now (map string (map (λ word. word.now) words.now.items)))) }
{
    let words = words.as_slice();
    if words.is_empty() {
        return Ok(());
    }
    begin_list(out, key)?;
    put_each_word(out, words)?;
    out.token(Token::EndArray)
}
