//! The hints about descriptions that are read from TOML, one per line: the path, and what is said.
use bumpalo::Bump;
use description::Description;
use description_hints::{Hint, Warning, warnings_of};
use description_toml::description_from_table;
use keyed::Step;
use lasting_names::Names;
use std::alloc::{AllocError, Global};
use std::process::Abort;

/// A description in TOML, and its hints.
pub type Row<'a> = (&'a str, &'a str);

fn push_step(rt: &impl Abort, out: Global, text: &mut String, step: &Step<'_>) {
    let said = match step {
        Step::Key(key) => format!(in out; "{key} "),
        Step::Index(at) => format!(in out; "{at} "),
    };
    text.push_str(said.expect(rt, "a step").as_str())
        .expect(rt, "a way");
}

fn push_hint(rt: &impl Abort, out: Global, text: &mut String, hint: Hint<'_>) {
    let said = format!(in out; "- {hint}").expect(rt, "a hint");
    text.push_str(said.as_str()).expect(rt, "a line");
}

fn push_way(rt: &impl Abort, out: Global, text: &mut String, way: &[Step<'_>]) {
    for step in way {
        push_step(rt, out, text, step);
    }
}

fn push_warning(rt: &impl Abort, out: Global, text: &mut String, warning: &Warning<'_>) {
    push_way(rt, out, text, warning.path);
    push_hint(rt, out, text, warning.hint);
    if let Some(first) = warning.first() {
        text.push_str(" beside ").expect(rt, "a line");
        push_way(rt, out, text, first);
    }
    text.push_str("\n").expect(rt, "a line");
}

fn lines(rt: &impl Abort, out: Global, warnings: &[Warning<'_>]) -> String {
    let mut text = String::new(out);
    for warning in warnings {
        push_warning(rt, out, &mut text, warning);
    }
    text
}

/// Whether these are the hints about a description. None where a growth of the arena is refused.
pub fn is_said_of(
    rt: &impl Abort,
    out: Global,
    arena: &Bump,
    app: &Description<'_>,
    wanted: &str,
) -> Option<bool> {
    match warnings_of(arena, out, app) {
        Ok(warnings) => Some(lines(rt, out, warnings.as_slice()).as_str() == wanted),
        Err(AllocError) => None,
    }
}

/// Whether these are the hints of a row.
pub fn is_said(rt: &impl Abort, out: Global, row: &Row<'_>) -> bool {
    let arena = Bump::new(out);
    let table = toml::table_from_str(out, row.0).ok().expect(rt, "a table");
    let mut names = Names::new(out);
    let app = description_from_table(out, &mut names, &table);
    let app = app.ok().expect(rt, "a description");
    is_said_of(rt, out, &arena, &app, row.1) == Some(true)
}
