//! The pages of a description. What a page says is made in an arena, and goes with it.

ghost use Rattle.std.specs.Prelude.{◌≡◌, IfErr, IfOk, Some, string_bytes};
ghost use Rattle.description.specs.View.{description_said};
ghost use Rattle.description_pages.specs.LevelsView.{subject_of};
ghost use Rattle.command_pages.specs.Pages.{level_at};
ghost use Rattle.command_pages.specs.View.{title_said};
ghost use Rattle.help_differences.specs.View.{help_said};
ghost use Rattle.clidoc_engine.specs.Chosen.{console_said, page_said};
ghost use Rattle.clidoc_engine.specs.Chosen.{words_said as names_said};
ghost use Rattle.clidoc_engine.specs.Rendering.{IsPage, is_of_no_name, needs_advice};
ghost use Rattle.clidoc_engine.specs.Steps.{IsLost, IsNoCommand, IsUnmade};
ghost use Rattle.clidoc_engine.specs.Words.{completion, differences, html, in_json, man, markdown};

use crate::faults::Fault;
use crate::meant::meant_by;
use crate::room::Room;
use crate::words::{Console, Page, TitleGiven};
use bumpalo::Bump;
use command_pages::{
    Depth, Extent, LevelSubject, application, console_page_of, html_page_of, manual_page_of,
    markdown_page_of,
};
use completions::{Shell, completion_script};
use description::Description;
use description_pages::subjects::enter;
use help_differences::{HelpText, difference_text, has_no_name};
use json_of_descriptions::json_text;
use std::alloc::{AllocError, Allocator, Global};

/// A page of the description, made in an arena of its own.
pub(crate) fn rendered<A: Allocator + Copy, B: Allocator>(
    alloc: A,
    room: Room,
    page: &Page<'_, B>,
    description: &Description<'_>,
) -> Result<String<A>, Fault>
    ensures page { IfOk result (λ made.
        IsPage (page_said page.now) (description_said description.now) (string_bytes made)) }
    ensures unmade { IfErr result (IsUnmade (page_said page.now) (description_said description.now)) }
{
    let arena = room.arena();
    rendered_in(alloc, &arena, room.global, page, description)
}

fn rendered_in<'p, 'a: 'p, A: Allocator + Copy, B: Allocator>(
    alloc: A,
    arena: &'p Bump,
    global: Global,
    page: &Page<'_, B>,
    description: &'p Description<'a>,
) -> Result<String<A>, Fault>
    ensures page { IfOk result (λ made.
        IsPage (page_said page.now) (description_said description.now) (string_bytes made)) }
    ensures unmade { IfErr result (IsUnmade (page_said page.now) (description_said description.now)) }
{
    match page {
        Page::Console(console) => on_console(alloc, arena, global, console, description),
        Page::Html {
            extent,
            commands,
            title,
        } => in_html(alloc, arena, global, *extent, commands, *title, description),
        Page::Markdown { commands, depth } => {
            in_markdown(alloc, arena, global, commands, *depth, description)
        }
        Page::Man {
            commands,
            depth,
            title,
        } => as_manual(alloc, arena, global, commands, *depth, *title, description),
        Page::Completion(shell) => completing(alloc, arena, *shell, description),
        Page::Json => as_json(alloc, description),
        Page::Differences { help, commands } => {
            compared(alloc, arena, global, help.lent(), commands, description)
        }
    }
}

// ---- levels

// The level that commands lead to.
#[tactic(auto, using(crate::proofs::Led::led_on, crate::proofs::Led::led_nowhere, crate::proofs::Led::lost))]
fn level_at<'p, 'a: 'p>(
    arena: &'p Bump,
    global: Global,
    commands: &[&str],
    description: &'p Description<'a>,
) -> Result<LevelSubject<'p, 'a, Global>, Fault>
    ensures ok { IfOk result (λ level.
        level_at (names_said commands.now) (description_said description.now) ≡ Some (subject_of level)) }
    ensures lost { IfErr result (IsLost (names_said commands.now) (description_said description.now)) }
{
    let mut level = application(arena, description)?;
    for command in commands {
        match enter(arena, level, *command)? {
            Some(found) => level = found,
            None => return Err(no_command(arena, global, *command, level)?),
        }
    }
    Ok(level)
}

// The fault of a command that is not on the level.
fn no_command<'p, 'a: 'p>(
    arena: &'p Bump,
    global: Global,
    command: &str,
    level: LevelSubject<'p, 'a, Global>,
) -> Result<Fault, AllocError>
    ensures { IfOk result IsNoCommand }
{
    let meant = meant_by(arena, global, command, level)?;
    let path = level.names.join(global, " ")?;
    let name = String::from_str(global, command)?;
    Ok(Fault::NoCommand { name, path, meant })
}

// ---- on the console

#[tactic(auto, using(crate::proofs::Led::unwritten, crate::proofs::Led::lost_unmade, crate::proofs::Made::a_console_page))]
fn on_console<'p, 'a: 'p, A: Allocator + Copy, B: Allocator>(
    alloc: A,
    arena: &'p Bump,
    global: Global,
    console: &Console<'_, B>,
    description: &'p Description<'a>,
) -> Result<String<A>, Fault>
    ensures page { IfOk result (λ made.
        IsPage (console_said console.now) (description_said description.now) (string_bytes made)) }
    ensures unmade { IfErr result (IsUnmade (console_said console.now) (description_said description.now)) }
{
    let level = level_at(arena, global, &console.commands, description)?;
    let page = console_page_of(
        alloc,
        arena,
        console.form,
        console.width,
        &description.words,
        level,
    )?;
    Ok(page)
}

// ---- HTML

#[tactic(auto, using(crate::proofs::Led::unwritten_html, crate::proofs::Led::lost_unmade, crate::proofs::Made::an_html_page))]
fn in_html<'p, 'a: 'p, A: Allocator + Copy>(
    alloc: A,
    arena: &'p Bump,
    global: Global,
    extent: Extent,
    commands: &[&str],
    given: TitleGiven<'_>,
    description: &'p Description<'a>,
) -> Result<String<A>, Fault>
    ensures page { IfOk result (λ made. IsPage (html extent (names_said commands.now) (title_said given.entry))
        (description_said description.now) (string_bytes made)) }
    ensures unmade { IfErr result (IsUnmade (html extent (names_said commands.now) (title_said given.entry))
        (description_said description.now)) }
{
    let level = level_at(arena, global, commands, description)?;
    let page = html_page_of(alloc, arena, description, extent, given, level)?;
    Ok(page)
}

// ---- manual pages

#[tactic(auto, using(crate::proofs::Led::unwritten, crate::proofs::Led::lost_unmade, crate::proofs::Made::a_manual))]
fn as_manual<'p, 'a: 'p, A: Allocator + Copy>(
    alloc: A,
    arena: &'p Bump,
    global: Global,
    commands: &[&str],
    depth: Depth,
    given: TitleGiven<'_>,
    description: &'p Description<'a>,
) -> Result<String<A>, Fault>
    ensures page { IfOk result (λ made. IsPage (man (names_said commands.now) depth (title_said given.entry))
        (description_said description.now) (string_bytes made)) }
    ensures unmade { IfErr result (IsUnmade (man (names_said commands.now) depth (title_said given.entry))
        (description_said description.now)) }
{
    let level = level_at(arena, global, commands, description)?;
    let page = manual_page_of(alloc, arena, description, depth, given, level)?;
    Ok(page)
}

// ---- markdown

#[tactic(auto, using(crate::proofs::Led::unwritten, crate::proofs::Led::lost_unmade, crate::proofs::Made::a_markdown))]
fn in_markdown<'p, 'a: 'p, A: Allocator + Copy>(
    alloc: A,
    arena: &'p Bump,
    global: Global,
    commands: &[&str],
    depth: Depth,
    description: &'p Description<'a>,
) -> Result<String<A>, Fault>
    ensures page { IfOk result (λ made. IsPage (markdown (names_said commands.now) depth)
        (description_said description.now) (string_bytes made)) }
    ensures unmade { IfErr result (IsUnmade (markdown (names_said commands.now) depth)
        (description_said description.now)) }
{
    let level = level_at(arena, global, commands, description)?;
    let page = markdown_page_of(alloc, arena, &description.words, depth, level)?;
    Ok(page)
}

// ---- completions

#[tactic(auto, using(crate::proofs::Made::a_script))]
fn completing<'p, 'a: 'p, A: Allocator + Copy>(
    alloc: A,
    arena: &'p Bump,
    shell: Shell,
    description: &'p Description<'a>,
) -> Result<String<A>, Fault>
    ensures page { IfOk result (λ made.
        IsPage (completion shell) (description_said description.now) (string_bytes made)) }
    ensures unmade { IfErr result (IsUnmade (completion shell) (description_said description.now)) }
{
    let script = completion_script(arena, shell, description)?;
    Ok(String::from_str(alloc, script.as_str())?)
}

// ---- the description itself

fn as_json<A: Allocator + Copy>(alloc: A, description: &Description<'_>) -> Result<String<A>, Fault>
    ensures page { IfOk result (λ made.
        IsPage in_json (description_said description.now) (string_bytes made)) }
    ensures unmade { IfErr result (IsUnmade in_json (description_said description.now)) }
{
    Ok(json_text(alloc, description)?)
}

// ---- beside a help text

#[tactic(auto, using(crate::proofs::Led::lost_unmade, crate::proofs::Made::a_comparison))]
fn compared<'p, 'a: 'p, A: Allocator + Copy>(
    alloc: A,
    arena: &'p Bump,
    global: Global,
    help: HelpText<'_>,
    commands: &[&str],
    description: &'p Description<'a>,
) -> Result<String<A>, Fault>
    ensures page { IfOk result (λ made. IsPage (differences (help_said help.entry) (names_said commands.now))
        (description_said description.now) (string_bytes made)) }
    ensures unmade { IfErr result (IsUnmade (differences (help_said help.entry) (names_said commands.now))
        (description_said description.now)) }
{
    let level = level_at(arena, global, commands, description)?;
    let text = difference_text(alloc, arena, help, level.help_options, level.level)?;
    Ok(text)
}

// Whether the page is of a help text that has no name.
fn is_of_no_name<B: Allocator>(global: Global, page: &Page<'_, B>) -> Result<bool, AllocError>
    ensures { IfOk result (λ is_so. is_so ≡ is_of_no_name (page_said page.now)) }
{
    match page {
        Page::Differences { help, .. } => {
            let arena = Bump::new(global);
            has_no_name(&arena, help.printed.as_str())
        }
        Page::Console(_)
        | Page::Html { .. }
        | Page::Markdown { .. }
        | Page::Man { .. }
        | Page::Completion(_)
        | Page::Json => Ok(false),
    }
}

/// Whether a line has to go with a page of that many bytes, which says that the help text has no name: exactly where
/// that is so, and the description has some.
pub(crate) fn needs_advice<B: Allocator>(
    global: Global,
    page: &Page<'_, B>,
    written: usize,
) -> Result<bool, AllocError>
    ensures { IfOk result (λ is_so. is_so ≡ needs_advice (page_said page.now) written) }
{
    Ok(written > 0 && is_of_no_name(global, page)?)
}
