//! The help page of a command line that describes itself.

ghost use Rattle.std.specs.Prelude.{◌≡◌, IfOk, string_bytes};
ghost use Rattle.command_pages.specs.Pages.{application, console_page};
ghost use Rattle.command_pages.specs.declared.given.ConsoleForm.TheVariants as ConsoleForm;
ghost use Rattle.description.specs.View.{description_said};

use bumpalo::Bump;
use command_pages::{ConsoleForm, PageFault, application, console_page_of};
use description::Description;
use std::alloc::Global;

fn help_in<'p, 'a: 'p>(
    alloc: Global,
    arena: &'p Bump,
    app: &'p Description<'a>,
) -> Result<String, PageFault>
    ensures { IfOk result (λ text. string_bytes text ≡ console_page ConsoleForm.Full 80
        (description_said app.now).words (application (description_said app.now))) }
{
    let level = application(arena, app)?;
    console_page_of(alloc, arena, ConsoleForm::Full, 80, &app.words, level)
}

/// The help page of a command line for a terminal of 80 columns.
pub fn help_of(alloc: Global, app: &Description<'_>) -> Result<String, PageFault>
    ensures { IfOk result (λ text. string_bytes text ≡ console_page ConsoleForm.Full 80
        (description_said app.now).words (application (description_said app.now))) }
{
    let arena = Bump::new(alloc);
    help_in(alloc, &arena, app)
}
