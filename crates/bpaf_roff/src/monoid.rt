//! Labelled texts, one after another, over one payload.

ghost use Rattle.std.specs.Prelude.{◌≡◌, ◌+◌, ◌<◌, ◌≤◌, ◌^◌, ◌&&◌, ◌++◌, length, map, take, ℕ, List, All, IfOk, OnOk};
ghost use Rattle.std.specs.Prelude.{OnErr, vec_len, vec_capacity, string_bytes, encode_utf8};
ghost use Rattle.std.specs.Borrow.{Bor};
ghost use Rattle.std.specs.Iterator.{IsFinite, Drains};
ghost use Rattle.bpaf_roff.specs.Pieces.{no_pieces, with_text, with_texts, sum_of, AreCopies, IsSumOf, ClonesAreSame};
ghost use Rattle.bpaf_roff.specs.Pieces.{payload_len, labelled_text};
ghost use Rattle.bpaf_roff.specs.Steps.Labels.{with_label, ending_at, EndsInClones, end_of};

use std::alloc::{AllocError, Allocator, Global};
use std::marker::Model;

/// A label, and the place in the payload where its text ends.
#[derive(Debug, Drop)]
struct Label<T> {
    end: usize,
    label: T,
}

/// Labelled texts in order. A sum has the texts of the left side and then those of the right one.
#[derive(Drop)]
#[derive_where(Debug; T)]
pub struct FreeMonoid<T, A: Allocator = Global> {
    payload: String<A>,
    labels: Vec<Label<T>, A>,
    /// Whether an appended text goes into the last piece where their labels are equal.
    pub squash: bool,
}

impl<T, A: Allocator> Model for FreeMonoid<T, A> {
    ghost use Rattle.std.specs.Prelude.{string_bytes};
    ghost use Rattle.bpaf_roff.specs.Pieces.{Labelled};
    ghost use Rattle.bpaf_roff.specs.Steps.Labels.{pieces_of, Cuts};

    ghost Value = { Labelled T };

    ghost view = { λ m. record {
      pieces = pieces_of m.labels.items 0 (string_bytes m.payload);
      squash = m.squash;
    } };

    ghost invariant = { λ m. Cuts m.labels.items 0 (string_bytes m.payload) };
}

impl<T, A: Allocator + Copy> FreeMonoid<T, A> {
    /// No pieces, with `squash` off.
    pub fn new(alloc: A) -> Self
        ensures { result ≡ no_pieces }
    {
        FreeMonoid {
            payload: String::new(alloc),
            labels: Vec::new(alloc),
            squash: false,
        }
    }
}

impl<T, A: Allocator> FreeMonoid<T, A> {
    /// How many bytes all texts have together.
    #[tactic(auto, using(crate::proofs::lemmas::Labels::labels_lemmas))]
    pub fn payload_size(&self) -> usize
        ensures { result ≡ payload_len self.now.pieces }
    {
        self.payload.len()
    }

    /// The pieces in order, each as its label and its text.
    pub fn iter(&self) -> AnnotatedSlicesIter<'_, T>
        ensures { result ≡ self.now.pieces }
    {
        AnnotatedSlicesIter {
            text: self.payload.as_str(),
            at: 0,
            labels: self.labels.as_slice(),
        }
    }
}

// Whether an appended text goes into the last piece.
fn joins<T: PartialEq>(squash: bool, last: &T, label: &T) -> bool
    ensures { result ≡ (squash && T.eq last.now label.now) }
{
    squash && last == label
}

// The label of an appended text, for which there is room.
#[tactic(auto, using(crate::proofs::lemmas::Labels::labels_lemmas))]
fn push_label<T: PartialEq + Drop, A: Allocator>(
    labels: &mut Vec<Label<T>, A>,
    squash: bool,
    label: T,
    end: usize,
)
    requires { vec_len labels.old < vec_capacity labels.old }
    ensures { labels.new.items ≡ with_label T.eq squash labels.old.items label end }
{
    match labels.pop() {
        None => labels.push_reserved(Label { end, label }),
        Some(mut last) => {
            if joins(squash, &last.label, &label) {
                last.end = end;
                labels.push_reserved(last);
            } else {
                labels.push_reserved(last);
                labels.push_reserved(Label { end, label });
            }
        }
    }
}

// The first `count` labels, the last of which ends at `end`.
#[tactic(auto, using(crate::proofs::lemmas::Labels::labels_lemmas))]
fn cut_back<T: Drop, A: Allocator>(labels: &mut Vec<Label<T>, A>, count: usize, end: usize)
    ensures { labels.new.items ≡ ending_at end (take count labels.old.items) }
{
    labels.truncate(count);
    if let Some(mut last) = labels.pop() {
        last.end = end;
        labels.push_reserved(last);
    }
}

#[tactic(auto, using(crate::proofs::lemmas::Labels::labels_lemmas))]
fn end_of_last<T>(labels: &[Label<T>]) -> usize
    ensures { result ≡ end_of 0 labels.now }
{
    match labels.split_last() {
        None => 0,
        Some((last, _)) => last.end,
    }
}

impl<T: Drop, A: Allocator> FreeMonoid<T, A> {
    #[tactic(auto, using(crate::proofs::lemmas::Labels::labels_lemmas))]
    pub(crate) fn len(&self) -> usize
        ensures { result ≡ length self.now.pieces }
    {
        self.labels.len()
    }

    // Leaves only the first pieces.
    #[tactic(auto, using(crate::proofs::lemmas::Labels::cut_at))]
    pub(crate) fn truncate(&mut self, count: usize)
        ensures { self.new ≡ record self.old { pieces = take count self.old.pieces } }
    {
        self.labels.truncate(count);
        let end = end_of_last(self.labels.as_slice());
        self.payload.truncate(end);
    }

    pub(crate) fn allocator(&self) -> &A {
        self.labels.allocator()
    }
}

impl<T: PartialEq + Drop, A: Allocator> FreeMonoid<T, A> {
    /// Appends a text: to the last piece if `squash` is on and its label equal, else as a piece of its own. An error
    /// comes where an allocation failed; then nothing changed.
    #[tactic(auto, using(crate::proofs::lemmas::Labels::append_lemmas))]
    pub fn append_str(&mut self, label: T, text: &str) -> Result<(), AllocError>
        ensures ok { OnOk result (self.new ≡ with_text T.eq self.old label text.now) }
        ensures err { OnErr result (self.new ≡ self.old) }
    {
        self.labels.reserve(1)?;
        self.payload.push_str(text)?;
        push_label(&mut self.labels, self.squash, label, self.payload.len());
        Ok(())
    }

    /// Appends a character, as `append_str` appends a text.
    #[tactic(auto, using(crate::proofs::lemmas::Labels::append_lemmas))]
    pub fn append_char(&mut self, label: T, text: char) -> Result<(), AllocError>
        ensures ok { OnOk result (self.new ≡ with_text T.eq self.old label (encode_utf8 text)) }
        ensures err { OnErr result (self.new ≡ self.old) }
    {
        self.labels.reserve(1)?;
        self.payload.push(text)?;
        push_label(&mut self.labels, self.squash, label, self.payload.len());
        Ok(())
    }

    /// `append_str`, for a chain, with the same error.
    pub fn push_str(&mut self, label: T, text: &str) -> Result<&mut Self, AllocError>
        ensures same { IfOk result (λ monoid. monoid.ghost_name ≡ self.entry.ghost_name) }
        ensures pushed { IfOk result (λ monoid. monoid.now
            ≡ with_text T.eq self.old label text.now) }
    {
        self.append_str(label, text)?;
        Ok(self)
    }

    /// `append_char`, for a chain, with the same error.
    pub fn push(&mut self, label: T, text: char) -> Result<&mut Self, AllocError>
        ensures same { IfOk result (λ monoid. monoid.ghost_name ≡ self.entry.ghost_name) }
        ensures pushed { IfOk result (λ monoid. monoid.now
            ≡ with_text T.eq self.old label (encode_utf8 text)) }
    {
        self.append_char(label, text)?;
        Ok(self)
    }

    /// Appends each text, in order. An error comes where an allocation failed; then nothing changed, even if some texts
    /// had been appended.
    pub fn extend<'a, I: Iterator<Item = (T, &'a str)> + Drop>(
        &mut self,
        items: I,
    ) -> Result<(), AllocError>
        requires can { I.can_next items }
        requires ends { IsFinite (I.remaining items) }
        ensures ok { OnOk result ((xs : List (T × Bor (List ℕ))) × Drains I.next_gives items xs
            × (self.new ≡ with_texts T.eq self.old (map labelled_text xs))) }
        ensures err { OnErr result (self.new ≡ self.old) }
    {
        let count = self.labels.len();
        let end = self.payload.len();
        for (label, text) in items {
            if self.labels.reserve(1).is_err() || self.payload.push_str(text).is_err() {
                cut_back(&mut self.labels, count, end);
                self.payload.truncate(end);
                return Err(AllocError);
            }
            push_label(&mut self.labels, self.squash, label, self.payload.len());
        }
        Ok(())
    }
}

// Appends the labels of another payload, which stands `shift` bytes further on, or none of them.
#[tactic(auto, using(crate::proofs::lemmas::Clones::clone_lemmas))]
fn append_labels<T: Clone, A: Allocator>(
    labels: &mut Vec<Label<T>, A>,
    more: &[Label<T>],
    shift: usize,
) -> Result<(), AllocError>
    requires { All (λ l. shift + l.end < 2 ^ 64) more.now }
    ensures ok { OnOk result (EndsInClones T.is_clone labels.old.items more.now shift labels.new.items) }
    ensures err { OnErr result (labels.new.items ≡ labels.old.items) }
{
    let count = labels.len();
    labels.reserve(more.len())?;
    for next in more {
        match next.label.clone() {
            Ok(label) => labels.push_reserved(Label {
                end: shift + next.end,
                label,
            }),
            Err(refused) => {
                labels.truncate(count);
                return Err(refused);
            }
        }
    }
    Ok(())
}

impl<T: Clone, A: Allocator> FreeMonoid<T, A> {
    /// Appends copies of the pieces of another, each with a clone of its label. Nothing is joined where the two meet,
    /// and `squash` stays. An error comes where an allocation failed or a label could not be cloned; then nothing
    /// changed.
    #[tactic(auto, using(crate::proofs::lemmas::Clones::sum_cut))]
    pub fn add_assign<B: Allocator>(&mut self, other: &FreeMonoid<T, B>) -> Result<(), AllocError>
        ensures ok { OnOk result (IsSumOf T.is_clone self.old other.now self.new) }
        ensures exact { ClonesAreSame T.is_clone → OnOk result (self.new ≡ sum_of self.old other.now) }
        ensures err { OnErr result (self.new ≡ self.old) }
    {
        let count = self.labels.len();
        let shift = self.payload.len();
        append_labels(&mut self.labels, other.labels.as_slice(), shift)?;
        if let Err(refused) = self.payload.push_str(other.payload.as_str()) {
            self.labels.truncate(count);
            return Err(refused);
        }
        Ok(())
    }

    /// This one with the pieces of another after its own, as `add_assign` leaves it. An error comes where `add_assign`
    /// has one; then this one is dropped.
    pub fn add<B: Allocator>(mut self, other: &FreeMonoid<T, B>) -> Result<Self, AllocError>
        ensures ok { IfOk result (λ sum. IsSumOf T.is_clone self other.now sum) }
        ensures exact { ClonesAreSame T.is_clone → IfOk result (λ sum. sum ≡ sum_of self other.now) }
    {
        self.add_assign(other)?;
        Ok(self)
    }
}

impl<T: Clone, A: Allocator + Copy> FreeMonoid<T, A> {
    /// The same texts under clones of their labels, and the same setting. An error comes where `add_assign` has one.
    pub fn clone(&self) -> Result<Self, AllocError>
        ensures ok { IfOk result (λ copy. copy.squash ≡ self.now.squash
            × AreCopies T.is_clone self.now.pieces copy.pieces) }
        ensures exact { ClonesAreSame T.is_clone → IfOk result (λ copy. copy ≡ self.now) }
    {
        let mut copy = FreeMonoid::new(*self.labels.allocator());
        copy.squash = self.squash;
        copy.add_assign(self)?;
        Ok(copy)
    }
}

/// The remaining pieces, in order, each as its label and its text.
#[derive(Drop)]
pub struct AnnotatedSlicesIter<'a, T> {
    text: &'a str,
    at: usize,
    labels: &'a [Label<T>],
}

impl<'a, T> Model for AnnotatedSlicesIter<'a, T> {
    ghost use Rattle.std.specs.Prelude.{List};
    ghost use Rattle.bpaf_roff.specs.Pieces.{Piece};
    ghost use Rattle.bpaf_roff.specs.Steps.Labels.{pieces_of, Cuts};

    ghost Value = { List (Piece T) };

    ghost view = { λ left. pieces_of left.labels.now left.at left.text.now };

    ghost invariant = { λ left. Cuts left.labels.now left.at left.text.now };
}

impl<'a, T> Iterator for AnnotatedSlicesIter<'a, T> {
    ghost use Rattle.std.specs.Iterator.{YieldsFirstBy, item_count};
    ghost use Rattle.bpaf_roff.specs.Pieces.{piece_at};

    type Item = (&'a T, &'a str);

    ghost next_gives = { YieldsFirstBy piece_at (λ left. left) };

    ghost remaining = { item_count (λ left. left) };

    #[tactic(auto, using(crate::proofs::lemmas::Labels::first_cut))]
    fn next(&mut self) -> Option<(&'a T, &'a str)> {
        let (first, others) = self.labels.split_first()?;
        let (text, rest) = self.text.split_at(first.end - self.at);
        self.text = rest;
        self.at = first.end;
        self.labels = others;
        Some((&first.label, text))
    }
}

impl<'a, T, A: Allocator> IntoIterator for &'a FreeMonoid<T, A> {
    ghost use Rattle.std.specs.Prelude.{◌≡◌};

    type Item = (&'a T, &'a str);

    type IntoIter = AnnotatedSlicesIter<'a, T>;

    ghost into_iter_gives = { λ monoid pieces. pieces ≡ monoid.now.pieces };

    fn into_iter(self) -> AnnotatedSlicesIter<'a, T> {
        self.iter()
    }
}

impl<T: PartialEq, A: Allocator> PartialEq for FreeMonoid<T, A> {
    ghost use Rattle.bpaf_roff.specs.Equality.{labelled_eq};
    ghost use Rattle.bpaf_roff.specs.Steps.Order.{labelled_per};

    ghost eq = { labelled_eq T.eq };

    ghost laws = { labelled_per T.laws };

    fn eq(&self, other: &Self) -> bool {
        if self.squash != other.squash {
            return false;
        }
        let mut theirs = other.iter();
        for (label, text) in self.iter() {
            match theirs.next() {
                None => return false,
                Some((their_label, their_text)) => {
                    if label != their_label || text != their_text {
                        return false;
                    }
                }
            }
        }
        theirs.next().is_none()
    }
}

impl<T: Eq, A: Allocator> Eq for FreeMonoid<T, A> {
    ghost use Rattle.bpaf_roff.specs.Steps.Order.{labelled_equiv};

    ghost laws = { labelled_equiv T.Eq.laws };
}
