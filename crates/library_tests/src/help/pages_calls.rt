//! The calls that make pages and sections, and may return `AllocError`.
use crate::arenas::leave;
use crate::help::calls::Ended;
use crate::help::trees::{DESCRIBED, info, make_path, path};
use bpaf_doc::buffer::Doc;
use bpaf_help::headline::{Sources, show};
use bpaf_help::item::{Item, ShortLong};
use bpaf_help::meta::Meta;
use bpaf_help::meta_help::{EnvTexts, HelpError, Info, render_help};
use bpaf_help::pages::{
    DocSection, ManualTitle, Section, collect_html, extract_sections, render_html, render_manpage,
    render_markdown,
};
use bpaf_roff::roff::Roff;
use bumpalo::Bump;
use std::alloc::{AllocError, Allocator};
use std::fmt::{Debug, Write};
use std::process::Abort;

#[derive(Clone, Copy)]
pub enum PageCall {
    /// The check that stands before each page, alone.
    Check,
    Help,
    Collected,
    Html,
    Markdown,
    Manual,
    /// The same, by the words of a title line.
    Titled,
    /// All forms of a document and of the application.
    Forms,
    /// The sections once more, after themselves in a list.
    Sections,
    /// A copy of the last section.
    Section,
    /// How many sections there are: gathered with a path of their own, as a page gathers them before it is begun.
    Count,
    /// What stands before `Sections`.
    SectionsOnce,
    /// What stands before `Section`.
    LastSection,
}

/// How a page ends over an arena with that many free bytes.
pub fn page_ended<'a>(
    rt: &impl Abort,
    arena: &'a Bump,
    room: usize,
    tree: &Meta<&'a Bump>,
    call: PageCall,
    shown: &mut String,
) -> Ended {
    let info = info(rt, arena, DESCRIBED);
    let ended = match call {
        PageCall::Help => help_ended(rt, arena, room, tree, &info, shown),
        PageCall::Sections | PageCall::SectionsOnce | PageCall::Section | PageCall::LastSection => {
            Ended::of(are_put(rt, arena, room, tree, &info, call, shown))
        }
        PageCall::Forms => Ended::of(are_forms_shown(rt, arena, room, tree, &info, shown)),
        _ => {
            leave(rt, arena, room);
            match call {
                PageCall::Check => ended(rt, checked(tree), shown),
                PageCall::Collected => ended(rt, collect_html(arena, "app", tree, &info), shown),
                PageCall::Count => ended(rt, count(arena, tree, &info), shown),
                _ => ended(rt, text_of(arena, tree, &info, call), shown),
            }
        }
    };
    drop(info);
    ended
}

fn help_ended<'a>(
    rt: &impl Abort,
    arena: &'a Bump,
    room: usize,
    tree: &Meta<&'a Bump>,
    info: &Info<&'a Bump>,
    shown: &mut String,
) -> Ended {
    let path = path(rt, arena);
    let texts = EnvTexts::new(arena);
    leave(rt, arena, room);
    let page = render_help(arena, &path, info, tree, tree, true, &texts);
    let ended = ended(rt, page, shown);
    drop(texts);
    drop(path);
    ended
}

// Shows what was made.
fn ended<T: Debug + Drop>(
    rt: &impl Abort,
    made: Result<T, HelpError<'_, &Bump>>,
    shown: &mut String,
) -> Ended {
    match made {
        Ok(made) => {
            write!(shown, "{made:?}").expect(rt, "a text");
            drop(made);
            Ended::Given
        }
        Err(
            HelpError::Misplaced(
                Item::Flag {
                    name: ShortLong::Short(letter),
                    ..
                },
            ),
        ) => Ended::Misplaced(*letter),
        Err(_) => Ended::Refused,
    }
}

// Shows all forms of the application and of its description, whose roff stands after a heading.
fn are_forms_shown<'a, 's>(
    rt: &impl Abort,
    arena: &'a Bump,
    room: usize,
    tree: &'s Meta<&'a Bump>,
    info: &'s Info<&'a Bump>,
    shown: &mut String,
) -> bool {
    let Some(document) = &info.descr else {
        return false;
    };
    let mut page = Roff::new(arena);
    page.append_control("SH", &["d"]).expect(rt, "a page");
    let of = Sources {
        document,
        width: 6,
        app: "app",
        title: ManualTitle::new(Section::Game).vendor("V"),
        tree,
        info,
        for_usage: true,
    };
    leave(rt, arena, room);
    let Ok(made) = show(arena, page, &of) else {
        return false;
    };
    write!(shown, "{made:?}").expect(rt, "a text");
    drop(made);
    true
}

/// A page of an application as a text.
pub fn text_of<'m, A: Allocator + Copy>(
    alloc: A,
    tree: &'m Meta<A>,
    info: &'m Info<A>,
    call: PageCall,
) -> Result<String<A>, HelpError<'m, A>> {
    match call {
        PageCall::Html => render_html(alloc, "app", tree, info),
        PageCall::Markdown => render_markdown(alloc, "app", tree, info),
        PageCall::Titled => {
            let page = ManualTitle::new(Section::General).page(alloc, "app", tree, info)?;
            Ok(page)
        }
        _ => {
            let section = Section::General;
            let page = render_manpage(alloc, "app", section, None, None, None, tree, info)?;
            Ok(page)
        }
    }
}

fn checked<'m, A: Allocator>(tree: &'m Meta<A>) -> Result<(), HelpError<'m, A>> {
    match tree.positional_invariant_check() {
        Ok(()) => Ok(()),
        Err(item) => Err(HelpError::Misplaced(item)),
    }
}

fn count<'a, 'm>(
    arena: &'a Bump,
    tree: &'m Meta<&'a Bump>,
    info: &'m Info<&'a Bump>,
) -> Result<usize, HelpError<'m, &'a Bump>> {
    let mut path = make_path(arena)?;
    let sections = gathered(arena, &mut path, tree, info)?;
    let count = sections.len();
    drop(sections);
    drop(path);
    Ok(count)
}

/// The sections of an application in a list of their own.
pub fn gathered<'m, A: Allocator, L: Allocator + Copy>(
    alloc: L,
    path: &mut Vec<String<L>, L>,
    tree: &'m Meta<A>,
    info: &'m Info<A>,
) -> Result<Vec<DocSection<'m, A, L>, L>, AllocError> {
    let mut sections: Vec<DocSection<'m, A, L>, L> = Vec::new(alloc);
    extract_sections(tree, info, path, &mut sections)?;
    Ok(sections)
}

// Puts the sections after themselves, or copies the last one, or neither, and shows what stands then.
fn are_put<'a>(
    rt: &impl Abort,
    arena: &'a Bump,
    room: usize,
    tree: &Meta<&'a Bump>,
    info: &Info<&'a Bump>,
    call: PageCall,
    shown: &mut String,
) -> bool {
    let mut path = path(rt, arena);
    let mut sections = gathered(arena, &mut path, tree, info).expect(rt, "sections");
    leave(rt, arena, room);
    let is_done = match call {
        PageCall::Sections => extract_sections(tree, info, &mut path, &mut sections).is_ok(),
        PageCall::SectionsOnce => true,
        _ => last_is_shown(rt, &sections, call, shown),
    };
    if let PageCall::Sections | PageCall::SectionsOnce = call {
        show_sections(rt, &path, &sections, shown);
    }
    drop(sections);
    drop(path);
    is_done
}

fn show_sections<A: Allocator, L: Allocator + Copy>(
    rt: &impl Abort,
    path: &[String<L>],
    sections: &[DocSection<'_, A, L>],
    shown: &mut String,
) {
    write!(shown, "{path:?} {sections:?}").expect(rt, "a text");
}

// Shows the last section, or a copy of it where one is asked for and made. Returns whether what is asked for is shown.
fn last_is_shown<A: Allocator, L: Allocator + Copy>(
    rt: &impl Abort,
    sections: &[DocSection<'_, A, L>],
    call: PageCall,
    shown: &mut String,
) -> bool {
    let Some(section) = sections.last() else {
        return false;
    };
    if let PageCall::Section = call {
        if let Ok(copy) = section.clone() {
            write!(shown, "{copy:?}").expect(rt, "a text");
            drop(copy);
            return true;
        }
    }
    write!(shown, "{section:?}").expect(rt, "a text");
    matches!(call, PageCall::LastSection)
}
