//! A name, and a text about it.

ghost use Rattle.std.specs.Prelude.{◌≡◌, [], ◌∷◌, IfOk, None};
ghost use Rattle.description_texts.specs.Texts.{text_blocks};
ghost use Rattle.page_model.specs.Content.{literal};
ghost use Rattle.page_model.specs.View.{entry_of};

use bumpalo::Bump;
use description_texts::blocks;
use page_model::{Entry, Inline};
use std::alloc::AllocError;

/// An entry of a list: a name that is typed as it stands, and what a text says of it.
pub fn text_entry<'a>(
    arena: &'a Bump,
    name: &'a str,
    text: &'a str,
) -> Result<Entry<'a, &'a Bump>, AllocError>
    ensures { IfOk result (λ entry. entry_of entry ≡ record {
      word = name.now;
      target = None;
      terms = (literal name.now ∷ []) ∷ [];
      body = text_blocks text.now;
    }) }
{
    let term = vec![in arena; Inline::Literal(name)]?;
    Ok(Entry {
        word: name,
        target: None,
        terms: vec![in arena; term]?,
        body: blocks(arena, text)?,
    })
}
