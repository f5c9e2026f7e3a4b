//! What of a description is shown, as a text.
use description::Description;
use std::alloc::{AllocError, Allocator};

/// What of a description is shown.
#[derive(Clone, Copy)]
pub enum Form {
    /// That it was read.
    Read,
    /// The fixed words as debug text.
    Words,
    /// The top level as debug text.
    Level,
}

/// The text of a form.
pub fn made<A: Allocator, B: Allocator>(
    alloc: B,
    app: &Description<'_, A>,
    form: Form,
) -> Result<String<B>, AllocError> {
    match form {
        Form::Read => String::from_str(alloc, "read"),
        Form::Words => format!(in alloc; "{:?}", app.words),
        Form::Level => format!(in alloc; "{:?}", app.level),
    }
}
