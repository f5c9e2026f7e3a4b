//! How a list tells two items apart.
ghost use Rattle.std.specs.Prelude.{◌≡◌, fold};
ghost use Rattle.std.specs.Option.{option_cmp, option_copied};
ghost use Rattle.std.specs.Ordering.{ordering_then};
ghost use Rattle.bpaf_meta.specs.View.{name_of};
ghost use Rattle.bpaf_doc.specs.Buffer.Equality.{document_cmp};
ghost use Rattle.bpaf_doc.specs.Buffer.View.{part_of};
ghost use Rattle.bpaf_items.specs.Listing.Keys.{document_input, help_input, name_cmp, name_input, part_input};
ghost use Rattle.bpaf_items.specs.Listing.Keys.{same_help, same_name};

use bpaf_doc::buffer::{Doc, Part};
use bpaf_meta::item::ShortLong;
use bpaf_meta::meta_help::Metavar;
use std::alloc::{Allocator, Global};
use std::cmp::Ordering;
use std::hash::{Hash, Hasher};

/// The key of an item: of the items of one group or heading with equal keys, only the first is shown. A positional
/// value and a command share a class. Short command names, names of environment variables and `anywhere` are not part
/// of a key. Each key ends in the help.
#[derive_where(Clone, Copy, Debug)]
pub enum ItemKey<'a, A: Allocator = Global> {
    /// The metavar of an `Any`.
    Any(&'a Doc<A>, Option<&'a Doc<A>>),
    /// The metavar of a positional value, or the name of a command.
    Word(&'static str, Option<&'a Doc<A>>),
    Flag(ShortLong, Option<&'a Doc<A>>),
    Argument(ShortLong, Metavar, Option<&'a Doc<A>>),
}

impl<'a, A: Allocator> PartialEq for ItemKey<'a, A> {
    ghost use Rattle.std.specs.Ordering.{on};
    ghost use Rattle.std.specs.Cmp.{on_equiv, partial_equiv_from_equiv};
    ghost use Rattle.bpaf_items.specs.Listing.Keys.{same_key};
    ghost use Rattle.bpaf_items.specs.Steps.KeyOrder.{keys_equiv};
    ghost use Rattle.bpaf_items.specs.View.{key_in};

    ghost eq = { on key_in same_key };

    ghost laws = { partial_equiv_from_equiv (on_equiv key_in keys_equiv) };

    fn eq(&self, other: &Self) -> bool {
        match self {
            ItemKey::Any(metavar, help) => match other {
                ItemKey::Any(also, others) => **metavar == **also && is_same_help(*help, *others),
                _ => false,
            },
            ItemKey::Word(word, help) => match other {
                ItemKey::Word(also, others) => *word == *also && is_same_help(*help, *others),
                _ => false,
            },
            ItemKey::Flag(name, help) => match other {
                ItemKey::Flag(also, others) => {
                    is_same_name(*name, *also) && is_same_help(*help, *others)
                }
                _ => false,
            },
            ItemKey::Argument(name, metavar, help) => match other {
                ItemKey::Argument(also, value, others) => {
                    is_same_name(*name, *also)
                        && metavar.0 == value.0
                        && is_same_help(*help, *others)
                }
                _ => false,
            },
        }
    }
}

impl<'a, A: Allocator> Eq for ItemKey<'a, A> {
    ghost use Rattle.std.specs.Cmp.{on_equiv};
    ghost use Rattle.bpaf_items.specs.Steps.KeyOrder.{keys_equiv};
    ghost use Rattle.bpaf_items.specs.View.{key_in};

    ghost laws = { on_equiv key_in keys_equiv };
}

impl<'a, A: Allocator> PartialOrd for ItemKey<'a, A> {
    ghost use Rattle.std.specs.Ordering.{as_partial_cmp, on};
    ghost use Rattle.std.specs.Cmp.{on_po};
    ghost use Rattle.bpaf_items.specs.Listing.Keys.{key_cmp};
    ghost use Rattle.bpaf_items.specs.Steps.KeyOrder.{keys_partial};
    ghost use Rattle.bpaf_items.specs.View.{key_in};

    ghost partial_cmp = { as_partial_cmp (on key_in key_cmp) };

    ghost laws = { on_po key_in keys_partial };

    fn partial_cmp(&self, other: &Self) -> Option<Ordering> {
        Some(self.cmp(other))
    }
}

impl<'a, A: Allocator> Ord for ItemKey<'a, A> {
    ghost use Rattle.std.proofs.Common.{refl};
    ghost use Rattle.std.specs.Ordering.{on};
    ghost use Rattle.std.specs.Cmp.{on_total};
    ghost use Rattle.bpaf_items.specs.Listing.Keys.{key_cmp};
    ghost use Rattle.bpaf_items.specs.Steps.KeyOrder.{keys_tied, keys_total};
    ghost use Rattle.bpaf_items.specs.View.{key_in};

    ghost cmp = { on key_in key_cmp };

    ghost total = { on_total key_in keys_total };

    ghost matches_partial_cmp = { λ x y. refl };

    ghost matches_eq = { λ x y. keys_tied (key_in x) (key_in y) };

    fn cmp(&self, other: &Self) -> Ordering {
        match self {
            ItemKey::Any(metavar, help) => match other {
                ItemKey::Any(also, others) => {
                    then_by_help(Doc::cmp(metavar, also), *help, *others)
                }
                _ => Ordering::Less,
            },
            ItemKey::Word(word, help) => match other {
                ItemKey::Any(_, _) => Ordering::Greater,
                ItemKey::Word(also, others) => then_by_help(word.cmp(also), *help, *others),
                _ => Ordering::Less,
            },
            ItemKey::Flag(name, help) => match other {
                ItemKey::Flag(also, others) => {
                    then_by_help(name_order(*name, *also), *help, *others)
                }
                ItemKey::Argument(_, _, _) => Ordering::Less,
                _ => Ordering::Greater,
            },
            ItemKey::Argument(name, metavar, help) => match other {
                ItemKey::Argument(also, value, others) => {
                    let order = name_order(*name, *also).then(metavar.0.cmp(value.0));
                    then_by_help(order, *help, *others)
                }
                _ => Ordering::Greater,
            },
        }
    }
}

impl<'a, A: Allocator> Hash for ItemKey<'a, A> {
    ghost use Rattle.bpaf_items.specs.Listing.Keys.{key_input};
    ghost use Rattle.bpaf_items.specs.Steps.KeyOrder.{key_fed};
    ghost use Rattle.bpaf_items.specs.View.{key_in};

    ghost hash_input = { λ key. key_input (key_in key) };

    ghost respects_eq = { λ x y. key_fed (key_in x) (key_in y) };

    fn hash<H: Hasher>(&self, state: &mut H) {
        match *self {
            ItemKey::Any(metavar, help) => {
                feed_document(metavar, state);
                feed_help(help, state);
            }
            ItemKey::Word(word, help) => {
                state.write(word.as_bytes());
                feed_help(help, state);
            }
            ItemKey::Flag(name, help) => {
                feed_name(name, state);
                feed_help(help, state);
            }
            ItemKey::Argument(name, metavar, help) => {
                feed_name(name, state);
                state.write(metavar.0.as_bytes());
                feed_help(help, state);
            }
        }
    }
}

fn feed_name<H: Hasher>(name: ShortLong, state: &mut H)
    ensures { state.new ≡ fold H.write state.old (name_input (name_of name)) }
{
    match name {
        ShortLong::Short(short) => short.hash(state),
        ShortLong::Long(long) | ShortLong::Both(_, long) => state.write(long.as_bytes()),
    }
}

fn feed_help<A: Allocator, H: Hasher>(help: Option<&Doc<A>>, state: &mut H)
    ensures { state.new ≡ fold H.write state.old (help_input (option_copied help.entry)) }
{
    if let Some(help) = help {
        feed_document(help, state);
    }
}

fn feed_document<A: Allocator, H: Hasher>(document: &Doc<A>, state: &mut H)
    ensures { state.new ≡ fold H.write state.old (document_input document.now) }
{
    for part in document.parts() {
        feed_part(part, state);
    }
}

fn feed_part<H: Hasher>(part: Part<'_>, state: &mut H)
    ensures { state.new ≡ fold H.write state.old (part_input (part_of part.entry)) }
{
    if let Part::Text(text, _) = part {
        state.write(text.as_bytes());
    }
}

fn is_same_name(left: ShortLong, right: ShortLong) -> bool
    ensures { result ≡ same_name (name_of left) (name_of right) }
{
    left == right
}

fn name_order(left: ShortLong, right: ShortLong) -> Ordering
    ensures { result ≡ name_cmp (name_of left) (name_of right) }
{
    left.cmp(&right)
}

fn is_same_help<A: Allocator>(left: Option<&Doc<A>>, right: Option<&Doc<A>>) -> bool
    ensures { result ≡ same_help (option_copied left.entry) (option_copied right.entry) }
{
    match (left, right) {
        (None, None) => true,
        (Some(left), Some(right)) => left == right,
        _ => false,
    }
}

// Helps are compared only where nothing before them differs. No help comes before a help.
fn then_by_help<A: Allocator>(
    order: Ordering,
    left: Option<&Doc<A>>,
    right: Option<&Doc<A>>,
) -> Ordering
    ensures { result
        ≡ ordering_then order (option_cmp document_cmp (option_copied left.entry) (option_copied right.entry)) }
{
    if order != Ordering::Equal {
        return order;
    }
    match (left, right) {
        (None, None) => Ordering::Equal,
        (None, Some(_)) => Ordering::Less,
        (Some(_), None) => Ordering::Greater,
        (Some(left), Some(right)) => left.cmp(right),
    }
}
