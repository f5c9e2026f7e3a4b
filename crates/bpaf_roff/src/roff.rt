//! Roff as labelled pieces: controls, plain text and fonts.

ghost use Rattle.std.specs.Prelude.{◌≡◌, ◌++◌, [], ◌∷◌, List, map, take, length, flat_map, IfOk, OnOk, OnErr};
ghost use Rattle.std.specs.Prelude.{string_bytes, if◌then◌else◌};
ghost use Rattle.std.specs.Borrow.{Bor};
ghost use Rattle.std.specs.Iterator.{IsFinite, Drains};
ghost use Rattle.bpaf_roff.specs.Pieces.{labelled_text};
ghost use Rattle.bpaf_roff.specs.Roff.{Script, no_script, with_pieces, script_sum, scripts_sum, script_at, piece};
ghost use Rattle.bpaf_roff.specs.Roff.{font_escape, font_change, text_at, argument_word, argument_pieces};
ghost use Rattle.bpaf_roff.specs.Roff.{control_pieces, linebreak_pieces, escape_pieces, plaintext_pieces, text_pieces};
ghost use Rattle.bpaf_roff.specs.Roff.{preamble_for, rendering, text_of};
ghost use Rattle.bpaf_roff.specs.Steps.Output.{OnlyAdds};

use crate::escape::bytes::escape;
use crate::escape::{APOSTROPHE_PREABMLE, Apostrophes, Escape};
use crate::monoid::FreeMonoid;
use crate::writer::RoffWriter;
use std::alloc::{AllocError, Allocator, Global};
use std::marker::Model;

/// A typeface.
#[derive(Clone, Copy, Debug, PartialEq, Eq)]
pub enum Font {
    Roman,
    Bold,
    Italic,
}

/// The escape that restores the previous font.
pub const RESTORE_FONT: &str = "\\fP";

impl Font {
    /// The escape that changes to this font: `\fR`, `\fB` or `\fI`.
    pub fn escape(self) -> &'static str
        ensures { result.now ≡ font_escape self }
    {
        match self {
            Font::Roman => "\\fR",
            Font::Bold => "\\fB",
            Font::Italic => "\\fI",
        }
    }
}

/// A roff text, as the pieces that its calls added.
#[derive(Drop)]
#[derive_where(Debug)]
pub struct Roff<A: Allocator = Global> {
    payload: FreeMonoid<Escape, A>,
    /// Whether plain text gets a blank for each newline.
    pub strip_newlines: bool,
}

impl<A: Allocator> Model for Roff<A> {
    ghost use Rattle.std.specs.Prelude.{◌≡◌, false};
    ghost use Rattle.bpaf_roff.specs.Roff.{Script};

    ghost Value = { Script };

    ghost view = { λ r. record { pieces = r.payload.pieces; strip_newlines = r.strip_newlines } };

    ghost invariant = { λ r. r.payload.squash ≡ false };
}

impl<A: Allocator + Copy> Roff<A> {
    /// An empty text that keeps newlines.
    pub fn new(alloc: A) -> Self
        ensures { result ≡ no_script }
    {
        Roff {
            payload: FreeMonoid::new(alloc),
            strip_newlines: false,
        }
    }
}

// Whether the items before left this font set.
fn is_set(before: Option<Font>, font: Font) -> bool
    ensures { font_change before font ≡ (if result then [] else escape_pieces (font_escape font)) }
{
    before == Some(font)
}

impl<A: Allocator> Roff<A> {
    /// The allocator that its memory comes from.
    pub fn allocator(&self) -> &A {
        self.payload.allocator()
    }

    /// Sets whether plain text gets a blank for each newline from here on.
    pub fn strip_newlines(&mut self, state: bool) -> &mut Self
        ensures same { result.ghost_name ≡ self.entry.ghost_name }
        ensures set { result.now ≡ record self.old { strip_newlines = state } }
    {
        self.strip_newlines = state;
        self
    }

    fn put(&mut self, label: Escape, text: &str) -> Result<(), AllocError>
        ensures ok { OnOk result (self.new ≡ with_pieces self.old (piece label text.now ∷ [])) }
        ensures err { OnErr result (self.new ≡ self.old) }
    {
        self.payload.append_str(label, text)?;
        Ok(())
    }

    // Returns `written`; where it is an error, first removes what was added after the first pieces.
    fn settle(&mut self, count: usize, written: Result<(), AllocError>) -> Result<(), AllocError>
        ensures same { result ≡ written }
        ensures ok { OnOk written (self.new ≡ self.old) }
        ensures err { OnErr written (self.new
            ≡ record self.old { pieces = take count self.old.pieces }) }
    {
        if written.is_err() {
            self.payload.truncate(count);
        }
        written
    }

    fn write_argument(&mut self, argument: &str) -> Result<(), AllocError>
        ensures ok { OnOk result (self.new ≡ with_pieces self.old (argument_pieces argument.now)) }
        ensures kept { OnlyAdds self.old self.new }
    {
        let word = if argument.is_empty() {
            "\"\""
        } else {
            argument
        };
        self.put(Escape::Unescaped, " ")?;
        self.put(Escape::Spaces, word)
    }

    #[tactic(auto, using(crate::proofs::lemmas::Scripts::script_lemmas))]
    fn write_arguments(&mut self, args: &[&str]) -> Result<(), AllocError>
        ensures ok { OnOk result (self.new
            ≡ with_pieces self.old (flat_map argument_pieces (map text_at args.now))) }
        ensures kept { OnlyAdds self.old self.new }
    {
        for argument in args {
            self.write_argument(argument)?;
        }
        Ok(())
    }

    #[tactic(auto, using(crate::proofs::lemmas::Scripts::script_lemmas))]
    fn write_control(&mut self, name: &str, args: &[&str]) -> Result<(), AllocError>
        ensures ok { OnOk result (self.new
            ≡ with_pieces self.old (control_pieces name.now (map text_at args.now))) }
        ensures kept { OnlyAdds self.old self.new }
    {
        self.put(Escape::UnescapedAtNewline, ".")?;
        self.put(Escape::Unescaped, name)?;
        self.write_arguments(args)?;
        self.append_linebreak()
    }

    /// Adds the line of a control: its name, which is written as it is, and each argument after a blank. An error comes
    /// where an allocation failed; then nothing changed.
    pub fn append_control(&mut self, name: &str, args: &[&str]) -> Result<(), AllocError>
        ensures ok { OnOk result (self.new
            ≡ with_pieces self.old (control_pieces name.now (map text_at args.now))) }
        ensures err { OnErr result (self.new ≡ self.old) }
    {
        let count = self.payload.len();
        let written = self.write_control(name, args);
        self.settle(count, written)
    }

    /// Adds the line of a control without arguments. An error comes where an allocation failed; then nothing changed.
    pub fn append_control0(&mut self, name: &str) -> Result<(), AllocError>
        ensures ok { OnOk result (self.new ≡ with_pieces self.old (control_pieces name.now [])) }
        ensures err { OnErr result (self.new ≡ self.old) }
    {
        self.append_control(name, &[])
    }

    /// Starts a line, unless the text is at a line start. An error comes where an allocation failed; then nothing
    /// changed.
    pub fn append_linebreak(&mut self) -> Result<(), AllocError>
        ensures ok { OnOk result (self.new ≡ with_pieces self.old linebreak_pieces) }
        ensures err { OnErr result (self.new ≡ self.old) }
    {
        self.put(Escape::UnescapedAtNewline, "")
    }

    /// Adds a text without escaping it. An error comes where an allocation failed; then nothing changed.
    pub fn append_escape(&mut self, text: &str) -> Result<(), AllocError>
        ensures ok { OnOk result (self.new ≡ with_pieces self.old (escape_pieces text.now)) }
        ensures err { OnErr result (self.new ≡ self.old) }
    {
        self.put(Escape::Unescaped, text)
    }

    /// Adds a text that a reader sees as it is, with blanks for its newlines if `strip_newlines` is set. An error comes
    /// where an allocation failed; then nothing changed.
    pub fn append_plaintext(&mut self, text: &str) -> Result<(), AllocError>
        ensures ok { OnOk result (self.new
            ≡ with_pieces self.old (plaintext_pieces self.old.strip_newlines text.now)) }
        ensures err { OnErr result (self.new ≡ self.old) }
    {
        let label = if self.strip_newlines {
            Escape::SpecialNoNewline
        } else {
            Escape::Special
        };
        self.put(label, text)
    }

    fn write_font(&mut self, before: Option<Font>, font: Font) -> Result<(), AllocError>
        ensures ok { OnOk result (self.new ≡ with_pieces self.old (font_change before font)) }
        ensures err { OnErr result (self.new ≡ self.old) }
    {
        if is_set(before, font) {
            Ok(())
        } else {
            self.append_escape(font.escape())
        }
    }

    fn write_item(&mut self, before: Option<Font>, font: Font, text: &str) -> Result<(), AllocError>
        ensures ok { OnOk result (self.new
            ≡ with_pieces self.old (font_change before font
            ++ plaintext_pieces self.old.strip_newlines text.now)) }
        ensures kept { OnlyAdds self.old self.new }
    {
        self.write_font(before, font)?;
        self.append_plaintext(text)
    }

    fn write_text(&mut self, items: &[(Font, &str)]) -> Result<(), AllocError>
        ensures ok { OnOk result (self.new
            ≡ with_pieces self.old (text_pieces self.old.strip_newlines (map labelled_text items.now))) }
        ensures kept { OnlyAdds self.old self.new }
    {
        let mut before = None;
        for (font, text) in items {
            self.write_item(before, *font, text)?;
            before = Some(*font);
        }
        if before.is_some() {
            self.append_escape(RESTORE_FONT)?;
        }
        Ok(())
    }

    /// Adds plain texts, each in its font, and restores the previous font after the last. An error comes where an
    /// allocation failed; then nothing changed.
    pub fn append_text(&mut self, items: &[(Font, &str)]) -> Result<(), AllocError>
        ensures ok { OnOk result (self.new
            ≡ with_pieces self.old (text_pieces self.old.strip_newlines (map labelled_text items.now))) }
        ensures err { OnErr result (self.new ≡ self.old) }
    {
        let count = self.payload.len();
        let written = self.write_text(items);
        self.settle(count, written)
    }
}

// The same calls in a chain. The call that each passes on to says what an error leaves.
impl<A: Allocator> Roff<A> {
    /// `append_control`, for a chain, with the same error.
    pub fn control(&mut self, name: &str, args: &[&str]) -> Result<&mut Self, AllocError>
        ensures same { IfOk result (λ roff. roff.ghost_name ≡ self.entry.ghost_name) }
        ensures added { IfOk result (λ roff. roff.now
            ≡ with_pieces self.old (control_pieces name.now (map text_at args.now))) }
    {
        self.append_control(name, args)?;
        Ok(self)
    }

    /// `append_control0`, for a chain, with the same error.
    pub fn control0(&mut self, name: &str) -> Result<&mut Self, AllocError>
        ensures same { IfOk result (λ roff. roff.ghost_name ≡ self.entry.ghost_name) }
        ensures added { IfOk result (λ roff. roff.now
            ≡ with_pieces self.old (control_pieces name.now [])) }
    {
        self.append_control0(name)?;
        Ok(self)
    }

    /// `append_linebreak`, for a chain, with the same error.
    pub fn roff_linebreak(&mut self) -> Result<&mut Self, AllocError>
        ensures same { IfOk result (λ roff. roff.ghost_name ≡ self.entry.ghost_name) }
        ensures added { IfOk result (λ roff. roff.now ≡ with_pieces self.old linebreak_pieces) }
    {
        self.append_linebreak()?;
        Ok(self)
    }

    /// `append_escape`, for a chain, with the same error.
    pub fn escape(&mut self, text: &str) -> Result<&mut Self, AllocError>
        ensures same { IfOk result (λ roff. roff.ghost_name ≡ self.entry.ghost_name) }
        ensures added { IfOk result (λ roff. roff.now
            ≡ with_pieces self.old (escape_pieces text.now)) }
    {
        self.append_escape(text)?;
        Ok(self)
    }

    /// `append_plaintext`, for a chain, with the same error.
    pub fn plaintext(&mut self, text: &str) -> Result<&mut Self, AllocError>
        ensures same { IfOk result (λ roff. roff.ghost_name ≡ self.entry.ghost_name) }
        ensures added { IfOk result (λ roff. roff.now
            ≡ with_pieces self.old (plaintext_pieces self.old.strip_newlines text.now)) }
    {
        self.append_plaintext(text)?;
        Ok(self)
    }

    /// `append_text`, for a chain, with the same error.
    pub fn text(&mut self, items: &[(Font, &str)]) -> Result<&mut Self, AllocError>
        ensures same { IfOk result (λ roff. roff.ghost_name ≡ self.entry.ghost_name) }
        ensures added { IfOk result (λ roff. roff.now
            ≡ with_pieces self.old (text_pieces self.old.strip_newlines (map labelled_text items.now))) }
    {
        self.append_text(items)?;
        Ok(self)
    }
}

impl<A: Allocator> Roff<A> {
    /// Puts the pieces of another after its own, and takes over the other's setting for newlines. An error comes where
    /// an allocation failed; then nothing changed.
    pub fn add_assign<B: Allocator>(&mut self, other: &Roff<B>) -> Result<(), AllocError>
        ensures ok { OnOk result (self.new ≡ script_sum self.old other.now) }
        ensures err { OnErr result (self.new ≡ self.old) }
    {
        self.payload.add_assign(&other.payload)?;
        self.strip_newlines = other.strip_newlines;
        Ok(())
    }

    /// This one with another after it, as `add_assign` leaves it. An error comes where an allocation failed; then this
    /// one is dropped.
    pub fn add<B: Allocator>(mut self, other: &Roff<B>) -> Result<Self, AllocError>
        ensures { IfOk result (λ sum. sum ≡ script_sum self other.now) }
    {
        self.add_assign(other)?;
        Ok(self)
    }

    /// Appends several, in order. An error comes where an allocation failed; then nothing changed, even if some had
    /// been appended.
    pub fn extend<'a, B: Allocator + 'a, I: Iterator<Item = &'a Roff<B>> + Drop>(
        &mut self,
        items: I,
    ) -> Result<(), AllocError>
        requires can { I.can_next items }
        requires ends { IsFinite (I.remaining items) }
        ensures ok { OnOk result ((xs : List (Bor Script)) × Drains I.next_gives items xs
            × (self.new ≡ scripts_sum self.old (map script_at xs))) }
        ensures err { OnErr result (self.new ≡ self.old) }
    {
        let count = self.payload.len();
        let strip_newlines = self.strip_newlines;
        for other in items {
            if let Err(refused) = self.add_assign(other) {
                self.payload.truncate(count);
                self.strip_newlines = strip_newlines;
                return Err(refused);
            }
        }
        Ok(())
    }
}

// What stands before all pieces.
fn preamble(apostrophes: Apostrophes) -> &'static str
    ensures { result.now ≡ preamble_for apostrophes }
{
    match apostrophes {
        Apostrophes::Handle => APOSTROPHE_PREABMLE,
        Apostrophes::DontHandle => "",
    }
}

impl<A: Allocator + Copy> Roff<A> {
    /// The same pieces and the same setting. An error comes where an allocation failed.
    pub fn clone(&self) -> Result<Self, AllocError>
        ensures { IfOk result (λ copy. copy ≡ self.now) }
    {
        Ok(Roff {
            payload: self.payload.clone()?,
            strip_newlines: self.strip_newlines,
        })
    }

    /// The text: the preamble where apostrophes are handled, and then the escaped pieces. An error comes where an
    /// allocation failed.
    pub fn render(&self, apostrophes: Apostrophes) -> Result<String<A>, AllocError>
        ensures { IfOk result (λ text. string_bytes text ≡ rendering apostrophes self.now.pieces) }
    {
        let room = self.payload.payload_size().saturating_mul(2);
        Ok(self.begin(apostrophes, room)?.into_string())
    }

    /// A writer that continues the text of `render`. Memory for `room` bytes is asked for at once. An error comes where
    /// an allocation failed.
    pub fn begin(&self, apostrophes: Apostrophes, room: usize) -> Result<RoffWriter<A>, AllocError>
        ensures { IfOk result (λ writer. writer ≡ text_of apostrophes self.now.pieces) }
    {
        let mut out = Vec::with_capacity(*self.payload.allocator(), room)?;
        out.extend_from_slice(preamble(apostrophes).as_bytes())?;
        escape(self.payload.iter(), &mut out, apostrophes)?;
        // `escape` puts a text after a text.
        Ok(RoffWriter::new(out, apostrophes))
    }
}
