//! The page of each form, and places in a text.

ghost use Rattle.std.specs.Prelude.{IfSome};
ghost use Rattle.clidoc_engine.specs.Chosen.{page_said};
ghost use Rattle.clidoc_engine.specs.Runs.{HasPage};

use crate::engines::AMPLE;
use clidoc_engine::engine::run_description;
use clidoc_engine::places::{Place, place_after};
use clidoc_engine::room::Room;
use clidoc_engine::words::{Console, ConsoleForm, Extent, Page, Shell, TitleGiven};
use description_pages::Depth;
use linked_list_allocator::LocalHeap;
use std::alloc::Global;
use watched::Watched;

/// A description.
pub const INPUT: &[u8] = b"name = 'app'
about = 'Prints things'
[[option]]
short = 'v'
long = 'verbose'
help = 'Talk more'
required = true
";

/// A page of the application.
#[derive(Clone, Copy)]
pub enum Form {
    Usage,
    Full,
    Brief,
    Html,
    Fragment,
    Markdown,
    Man,
    Completion(Shell),
}

// No words for a title line.
const NOTHING_GIVEN: TitleGiven<'static> = TitleGiven {
    date: None,
    vendor: None,
};

fn html(global: Global, extent: Extent) -> Page<'static, Global> {
    Page::Html {
        extent,
        commands: Vec::new(global),
        title: NOTHING_GIVEN,
    }
}

/// The page, of 100 columns where it has any.
pub fn page_of(global: Global, form: Form) -> Page<'static, Global> {
    let form = match form {
        Form::Usage => ConsoleForm::Usage,
        Form::Full => ConsoleForm::Full,
        Form::Brief => ConsoleForm::Brief,
        Form::Html => return html(global, Extent::Page),
        Form::Fragment => return html(global, Extent::Fragment),
        Form::Completion(shell) => return Page::Completion(shell),
        Form::Markdown => {
            return Page::Markdown {
                commands: Vec::new(global),
                depth: Depth::Alone,
            };
        }
        Form::Man => {
            return Page::Man {
                commands: Vec::new(global),
                depth: Depth::Alone,
                title: NOTHING_GIVEN,
            };
        }
    };
    Page::Console(Console {
        form,
        commands: Vec::new(global),
        width: 100,
    })
}

/// The page of it on a console.
pub const HELP: &[u8] =
    b"Prints things\n\nUsage: app -v\n\nOptions:\n    -v, --verbose  Talk more\n";

/// The page in memory of the description in a file of this name. The engine's promises over ends with known bytes say
/// which page it is.
pub fn page<'a>(
    heap: &'a LocalHeap,
    global: Global,
    asked: &Page<'_, Global>,
    file: &str,
    input: &[u8],
) -> Option<Vec<u8, &'a LocalHeap>>
    ensures { IfSome result (λ page. HasPage (page_said asked.now) file.now input.now page.items) }
{
    let mut reader = Watched::new(input);
    let mut writer = Watched::new(Vec::new(heap));
    let outcome = run_description(
        heap,
        Room::new(global, usize::MAX),
        asked,
        file,
        &mut reader,
        &mut writer,
    );
    if outcome.is_ok() {
        Some(writer.into_inner())
    } else {
        None
    }
}

/// Whether the page of a description in this form in memory is this one.
pub fn has_page(global: Global, form: Form, input: &[u8], want: &[u8]) -> bool {
    let Ok(heap) = LocalHeap::new(global, AMPLE) else {
        return false;
    };
    let asked = page_of(global, form);
    match page(&heap, global, &asked, "-", input) {
        Some(page) => page.as_slice() == want,
        None => false,
    }
}

/// The page of a description in this form, with ample memory.
pub fn whole_page(global: Global, form: Form, input: &[u8]) -> Option<Vec<u8>> {
    let heap = LocalHeap::new(global, AMPLE).ok()?;
    let page = page(&heap, global, &page_of(global, form), "-", input)?;
    let mut kept = Vec::new(global);
    kept.extend_from_slice(&page).ok()?;
    Some(kept)
}

// A front of a text, and the line and the column of the place after it.
const FRONTS: &[(&str, usize, usize)] = &[
    ("", 1, 1),
    ("ab", 1, 3),
    ("ab\n", 2, 1),
    ("ab\nc", 2, 2),
    ("\n\n\n", 4, 1),
    ("\r\nx", 2, 2),
    ("é日😀", 1, 4),
    ("é\n日\n😀a\u{301}", 3, 4),
];

#[test]
fn counts_lines_and_characters(rt: HostRuntime) {
    for &(front, line, column) in FRONTS {
        let place = place_after(front.as_bytes());
        assert!(rt; place == (Place { line, column }), "{line} {column}");
    }
}
