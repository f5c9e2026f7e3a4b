//! Usages.
#![tactic(auto, using(crate::proofs::Outcomes::putting))]

ghost use Rattle.std.specs.Prelude.{◌++◌, ◌∷◌, [], codes, flat_map, map};
ghost use Rattle.std.specs.List.{join_by};
ghost use Rattle.page_model.specs.View.{form_of, line_of, piece_of};
ghost use Rattle.html_page.specs.Events.{inside, say, text_in};
ghost use Rattle.html_page.specs.Page.{form_events, usage_events, usage_item, usage_piece};
ghost use Rattle.html_page.specs.Steps.{Puts};

use crate::elements::{end, put_text_in, say, start};
use page_model::{Form, Inline, Line};
use std::alloc::Allocator;
use web_page::{Element, Level, Page, PageError};

fn put_usage_piece<A: Allocator>(page: &mut Page<A>, piece: Inline<'_>) -> Result<(), PageError>
    ensures { Puts page.old (usage_piece (piece_of piece.entry)) page.new result }
{
    match piece {
        Inline::Words(text) => say(page, text),
        Inline::Literal(text) => put_text_in(page, Element::Strong, text),
        Inline::Value(text) => put_text_in(page, Element::Var, text),
        Inline::Link(address) => say(page, address),
        Inline::Page(name) => say(page, name),
    }
}

fn put_usage_pieces<A: Allocator>(
    page: &mut Page<A>,
    pieces: &[Inline<'_>],
) -> Result<(), PageError>
    ensures { Puts page.old (flat_map usage_piece (line_of pieces.now)) page.new result }
{
    for piece in pieces {
        put_usage_piece(page, *piece)?;
    }
    Ok(())
}

fn put_usage_item<A: Allocator>(page: &mut Page<A>, pieces: &[Inline<'_>]) -> Result<(), PageError>
    ensures { Puts page.old (usage_item (line_of pieces.now)) page.new result }
{
    say(page, " ")?;
    start(page, Element::Code)?;
    put_usage_pieces(page, pieces)?;
    end(page)
}

fn put_usage_items<A: Allocator, B: Allocator>(
    page: &mut Page<A>,
    items: &[Line<'_, B>],
) -> Result<(), PageError>
    ensures { Puts page.old (flat_map usage_item (map (λ item. line_of item.items) items.now)) page.new result }
{
    for item in items {
        put_usage_item(page, item.as_slice())?;
    }
    Ok(())
}

fn put_form_name<A: Allocator>(page: &mut Page<A>, name: &str) -> Result<(), PageError>
    ensures { Puts page.old (inside Element.Code (text_in Element.Strong name.now)) page.new result }
{
    start(page, Element::Code)?;
    put_text_in(page, Element::Strong, name)?;
    end(page)
}

fn put_form<A: Allocator, B: Allocator>(
    page: &mut Page<A>,
    form: &Form<'_, B>,
) -> Result<(), PageError>
    ensures { Puts page.old (form_events (form_of form.now)) page.new result }
{
    put_form_name(page, form.name)?;
    put_usage_items(page, form.items.as_slice())
}

// Forms, each on a new line.
fn put_further_forms<A: Allocator, B: Allocator>(
    page: &mut Page<A>,
    forms: &[Form<'_, B>],
) -> Result<(), PageError>
    ensures { Puts page.old (flat_map (λ form. say (codes "\n") ∷ [] ++ form_events form)
        (map form_of forms.now)) page.new result }
{
    for form in forms {
        say(page, "\n")?;
        put_form(page, form)?;
    }
    Ok(())
}

fn put_forms<A: Allocator, B: Allocator>(
    page: &mut Page<A>,
    forms: &[Form<'_, B>],
) -> Result<(), PageError>
    ensures { Puts page.old (join_by form_events (say (codes "\n") ∷ []) (map form_of forms.now))
        page.new result }
{
    let Some((first, others)) = forms.split_first() else {
        return Ok(());
    };
    put_form(page, first)?;
    put_further_forms(page, others)
}

/// Puts a usage under its title.
pub fn put_usage<A: Allocator, B: Allocator>(
    page: &mut Page<A>,
    title: &str,
    forms: &[Form<'_, B>],
) -> Result<(), PageError>
    ensures { Puts page.old (usage_events title.now (map form_of forms.now)) page.new result }
{
    put_text_in(page, Element::Heading(Level::Three), title)?;
    start(page, Element::Pre)?;
    put_forms(page, forms)?;
    end(page)
}
