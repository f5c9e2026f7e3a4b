//! A whole description.
ghost use Rattle.std.specs.Prelude.{◌≡◌, ◌++◌, codes, IfOk, OnOk, string_bytes};
ghost use Rattle.std.specs.Str.{IsUtf8};
ghost use Rattle.description.specs.View.{description_said};
ghost use Rattle.json.specs.Tree.{json_tokens};
ghost use Rattle.json_of_descriptions.specs.Descriptions.{IsReadBack, description_fields, json_of, json_text, title_fields};
ghost use Rattle.json_of_descriptions.specs.Steps.{PutsFields};

use crate::fields::{put_optional, put_text, put_text_unless};
use crate::levels::put_level;
use crate::lists::put_options;
use crate::words::put_fixed_words;
use description::Description;
use json::{Pretty, Token};
use std::alloc::{AllocError, Allocator};

fn put_title<A: Allocator, B: Allocator>(
    out: &mut Pretty<A>,
    description: &Description<'_, B>,
) -> Result<(), AllocError>
    ensures { OnOk result (PutsFields out.old out.new (title_fields (description_said description.now))) }
{
    put_text(out, "name", description.name)?;
    put_text_unless(out, "1", "section", description.section)?;
    put_optional(out, "date", description.date)?;
    put_optional(out, "vendor", description.vendor)?;
    put_optional(out, "title", description.title)
}

fn put_description<A: Allocator + Copy, B: Allocator>(
    alloc: A,
    out: &mut Pretty<A>,
    description: &Description<'_, B>,
) -> Result<(), AllocError>
    ensures { OnOk result (PutsFields out.old out.new (description_fields (description_said description.now))) }
{
    put_title(out, description)?;
    put_text_unless(out, "en", "language", description.language)?;
    put_fixed_words(out, "words", &description.words)?;
    put_options(alloc, out, "help_option", &description.help_options)?;
    put_level(alloc, out, &description.level)
}

fn put_object<A: Allocator + Copy, B: Allocator>(
    alloc: A,
    description: &Description<'_, B>,
) -> Result<Pretty<A>, AllocError>
    ensures { IfOk result (λ out. out ≡ json_tokens (json_of (description_said description.now))) }
{
    let mut out = Pretty::new(alloc);
    out.token(Token::BeginObject)?;
    put_description(alloc, &mut out, description)?;
    out.token(Token::EndObject)?;
    Ok(out)
}

// The text of these bytes, with a newline after it.
fn finished<A: Allocator>(bytes: Vec<u8, A>) -> Result<String<A>, AllocError>
    requires { IsUtf8 bytes.items }
    ensures { IfOk result (λ text. string_bytes text ≡ bytes.items ++ codes "\n") }
{
    // The contract asks that the bytes are UTF-8.
    let mut text = unsafe { String::from_utf8_unchecked(bytes) };
    text.push('\n')?;
    Ok(text)
}

/// The description as JSON: its keys in the order of `docs/keys.md`, without those that say the default. The value of
/// the text is `json_of` of the description.
pub fn json_text<A: Allocator + Copy, B: Allocator>(
    alloc: A,
    description: &Description<'_, B>,
) -> Result<String<A>, AllocError>
    ensures text { IfOk result (λ text. string_bytes text ≡ json_text (description_said description.now)) }
    ensures reads_back { IfOk result (λ text. IsReadBack (string_bytes text) (json_of (description_said description.now))) }
{
    let out = put_object(alloc, description)?;
    finished(out.into_inner())
}
