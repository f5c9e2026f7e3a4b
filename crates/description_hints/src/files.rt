//! Names of files that pages would have, and which of them no file may have.
ghost use Rattle.std.specs.Prelude.{◌≡◌, ◌++◌, ◌||◌, [], List, bytes_eq, false, flat_map, map, ℕ, IfOk, OnOk};
ghost use Rattle.description.specs.View.{description_said};
ghost use Rattle.file_names.specs.Names.{name_key};
ghost use Rattle.description_hints.specs.Content.{alike_name};
ghost use Rattle.description_hints.specs.Hints.{about_path, alike_warnings, file_warnings, hint_if, name_hints};
ghost use Rattle.description_hints.specs.Hints.{page_key, page_warnings};
ghost use Rattle.description_hints.specs.Pages.{manual_name, web_name};
ghost use Rattle.description_hints.specs.View.{holds, page_site_said, path_said, warning_said};

use crate::hints::Hint;
use crate::known::Known;
use crate::pages::{PageSite, pages};
use crate::rules::{Warnings, push_if};
use bumpalo::Bump;
use bumpalo::collections::into_bump_slice;
use description::Description;
use file_names::{check_name, name_key};
use keyed::Step;
use std::alloc::{AllocError, Allocator, Global};
use std::collections::BTreeSet;

// ---- names of files

fn manual_name<'p>(arena: &'p Bump, section: &str, page: &str) -> Result<&'p str, AllocError>
    ensures { IfOk result (λ name. name.now ≡ manual_name section.now page.now) }
{
    let mut name = String::from_str(arena, page)?;
    name.push_str(".")?;
    name.push_str(section)?;
    arena.try_alloc_str(name.as_str())
}

fn with_ending<'p>(arena: &'p Bump, page: &str, ending: &'static str) -> Result<&'p str, AllocError>
    ensures { IfOk result (λ name. name.now ≡ page.now ++ ending.now) }
{
    let mut name = String::from_str(arena, page)?;
    name.push_str(ending)?;
    arena.try_alloc_str(name.as_str())
}

// ---- names that no file may have

// Puts the hint about a name of a file, if no file may have it.
fn push_name_hint<'p>(
    found: &mut Warnings<'p>,
    path: &'p [Step<'p>],
    name: &'p str,
) -> Result<(), AllocError>
    ensures { OnOk result (map warning_said found.new.items ≡ map warning_said found.old.items
        ++ about_path (path_said path.now) (name_hints name.now)) }
{
    let is_refused = !check_name(name).is_ok();
    push_if(found, path, is_refused, Hint::NoFileName(name))
}

// Of the names of a page's two files, the hint about the first that no file may have.
fn push_hint_of_page<'p>(
    arena: &'p Bump,
    found: &mut Warnings<'p>,
    section: &str,
    page: PageSite<'p>,
) -> Result<(), AllocError>
    ensures { OnOk result (map warning_said found.new.items ≡ map warning_said found.old.items
        ++ page_warnings section.now (page_site_said page.entry)) }
{
    let manual = manual_name(arena, section, page.name)?;
    if !check_name(manual).is_ok() {
        return push_if(found, page.path, true, Hint::NoFileName(manual));
    }
    push_name_hint(found, page.path, with_ending(arena, page.name, ".md")?)
}

fn push_page_hints<'p>(
    arena: &'p Bump,
    found: &mut Warnings<'p>,
    section: &str,
    pages: &[PageSite<'p>],
) -> Result<(), AllocError>
    ensures { OnOk result (map warning_said found.new.items ≡ map warning_said found.old.items
        ++ flat_map (page_warnings section.now) (map page_site_said pages.now)) }
{
    for page in pages {
        push_hint_of_page(arena, found, section, *page)?;
    }
    Ok(())
}

// Puts the hint about the name of the page in HTML.
fn push_web_hint<'p>(
    arena: &'p Bump,
    found: &mut Warnings<'p>,
    name: &str,
) -> Result<(), AllocError>
    ensures { OnOk result (map warning_said found.new.items ≡ map warning_said found.old.items
        ++ about_path [] (name_hints (web_name name.now))) }
{
    let top: &'p [Step<'p>] = into_bump_slice(Vec::new(arena));
    push_name_hint(found, top, with_ending(arena, name, ".html")?)
}

// ---- pages that some folders take for one

// What a name is compared by, in the arena.
fn key_of<'p>(arena: &'p Bump, global: Global, name: &str) -> Result<&'p [u8], AllocError>
    ensures { IfOk result (λ key. key.now ≡ name_key name.now) }
{
    let key = name_key(global, name)?;
    Ok(arena.try_alloc_str(key.as_str())?.as_bytes())
}

// Puts the hint about a page whose key is among those before it, and then its key to them.
fn push_alike_hint<'p>(
    arena: &'p Bump,
    global: Global,
    found: &mut Warnings<'p>,
    before: &mut Known<'p>,
    page: PageSite<'p>,
) -> Result<(), AllocError>
    ensures told { OnOk result (map warning_said found.new.items ≡ map warning_said found.old.items
        ++ about_path (path_said page.entry.path.now)
        (hint_if (holds before.old (page_key (page_site_said page.entry))) (alike_name page.entry.name.now))) }
    ensures kept { OnOk result ((word : List ℕ) → holds before.new word
        ≡ (holds before.old word || (bytes_eq word (page_key (page_site_said page.entry)) || false))) }
{
    let key = key_of(arena, global, page.name)?;
    let is_alike = before.has(key);
    push_if(found, page.path, is_alike, Hint::AlikeName(page.name))?;
    before.put(key)
}

fn push_all_alike_hints<'p>(
    arena: &'p Bump,
    global: Global,
    found: &mut Warnings<'p>,
    pages: &[PageSite<'p>],
) -> Result<(), AllocError>
    ensures { OnOk result (map warning_said found.new.items ≡ map warning_said found.old.items
        ++ alike_warnings [] (map page_site_said pages.now)) }
{
    let mut before = Known {
        words: BTreeSet::new(arena),
    };
    for page in pages {
        push_alike_hint(arena, global, found, &mut before, *page)?;
    }
    Ok(())
}

/// Puts the hints about the names of the files of a description. What names are compared by is made in `global`. An
/// error comes only where an allocation failed.
pub fn push_file_hints<'p, 'a: 'p, C: Allocator>(
    arena: &'p Bump,
    global: Global,
    found: &mut Warnings<'p>,
    description: &'p Description<'a, C>,
) -> Result<(), AllocError>
    ensures { OnOk result (map warning_said found.new.items ≡ map warning_said found.old.items
        ++ file_warnings (description_said description.now)) }
{
    let pages = pages(arena, description)?;
    push_page_hints(arena, found, description.section, pages.as_slice())?;
    push_web_hint(arena, found, description.name)?;
    push_all_alike_hints(arena, global, found, pages.as_slice())
}
