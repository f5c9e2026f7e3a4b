//! The ids that sites give to headings.

ghost use Rattle.std.specs.Prelude.{◌≡◌, ◌++◌, chars, flat_map, IfOk, OnOk, string_bytes};
ghost use Rattle.ucd_category.specs.GeneralCategory.{general_category};
ghost use Rattle.markdown_page.specs.Slugs.{is_blank_there, is_word_category, slug, slug_character, stays};

use std::alloc::{AllocError, Allocator};
use unicode::properties::{GeneralCategory, GeneralCategoryGroup};

fn is_word_category(category: GeneralCategory) -> bool
    ensures { result ≡ is_word_category category }
{
    GeneralCategoryGroup::Letter.contains(category)
        || GeneralCategoryGroup::Number.contains(category)
        || GeneralCategoryGroup::Mark.contains(category)
}

fn stays(character: char) -> bool
    ensures { result ≡ stays character }
{
    matches!(character, '-' | '_') || is_word_category(GeneralCategory::for_char(character))
}

fn is_blank_there(character: char) -> bool
    ensures { result ≡ is_blank_there character }
{
    matches!(character, ' ' | '\t' | '\n')
}

fn push_slug_character<A: Allocator>(
    slug: &mut String<A>,
    character: char,
) -> Result<(), AllocError>
    ensures { OnOk result (string_bytes slug.new ≡ string_bytes slug.old ++ slug_character character) }
{
    if is_blank_there(character) {
        return slug.push('-');
    }
    if stays(character) {
        return slug.push(character);
    }
    Ok(())
}

fn push_slug<A: Allocator>(slug: &mut String<A>, small: &str) -> Result<(), AllocError>
    ensures { OnOk result (string_bytes slug.new
        ≡ string_bytes slug.old ++ flat_map slug_character (chars small.now)) }
{
    for character in small.chars() {
        push_slug_character(slug, character)?;
    }
    Ok(())
}

/// The id of a heading with this title.
pub fn slug<A: Allocator + Copy>(alloc: A, title: &str) -> Result<String<A>, AllocError>
    ensures { IfOk result (λ id. string_bytes id ≡ slug title.now) }
{
    let small = title.to_lowercase(alloc)?;
    let mut id = String::new(alloc);
    push_slug(&mut id, small.as_str())?;
    Ok(id)
}
