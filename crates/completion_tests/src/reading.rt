//! Scripts of descriptions that are read from TOML.
use bumpalo::Bump;
use completions::{Shell, completion_script};
use description::Description;
use description_toml::description_from_table;
use lasting_names::Names;
use std::alloc::{AllocError, Global};
use std::process::Abort;

/// A description in TOML, a shell, and a text of its script.
pub type Row<'a> = (&'a str, Shell, &'a str);

/// Whether the script of a description holds a text. None where a growth of the arena is refused.
pub fn is_in_script(
    arena: &Bump,
    app: &Description<'_>,
    shell: Shell,
    wanted: &str,
) -> Option<bool> {
    match completion_script(arena, shell, app) {
        Ok(script) => Some(script.as_str().contains(wanted)),
        Err(AllocError) => None,
    }
}

// Whether the script of a row has its text. None where a growth of the arena is refused.
fn is_found(rt: &impl Abort, out: Global, row: &Row<'_>) -> Option<bool> {
    let arena = Bump::new(out);
    let table = toml::table_from_str(out, row.0).ok().expect(rt, "a table");
    let mut names = Names::new(out);
    let app = description_from_table(out, &mut names, &table);
    let app = app.ok().expect(rt, "a description");
    is_in_script(&arena, &app, row.1, row.2)
}

/// Whether the script of a row is made and has its text.
pub fn is_written(rt: &impl Abort, out: Global, row: &Row<'_>) -> bool {
    is_found(rt, out, row) == Some(true)
}

/// Whether it is made and does not have it.
pub fn is_left_out(rt: &impl Abort, out: Global, row: &Row<'_>) -> bool {
    is_found(rt, out, row) == Some(false)
}
