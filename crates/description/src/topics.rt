//! Parts of a page of their own.
ghost use Rattle.std.specs.Prelude.{◌≡◌};
ghost use Rattle.description.specs.View.{topic_said};

/// A part of a page after its lists, under a title: examples, files, the exit status, the author.
///
/// The text has the grammar of `about` and `help`.
#[derive(Clone, Copy, Debug)]
pub struct Topic<'a> {
    pub title: &'a str,
    pub text: &'a str,
}

impl<'a> Topic<'a> {
    /// A topic with its title and its text.
    pub fn new(title: &'a str, text: &'a str) -> Topic<'a>
        ensures { topic_said result ≡ record { title = title.now; text = text.now } }
    {
        Topic { title, text }
    }
}
