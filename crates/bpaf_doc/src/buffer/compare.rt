//! Documents are equal, and ordered, as their lists of parts are.

ghost use Rattle.std.specs.Prelude.{◌≡◌};
ghost use Rattle.bpaf_doc.specs.Buffer.Equality.{part_cmp, same_part};
ghost use Rattle.bpaf_doc.specs.Buffer.View.{part_of};

use crate::buffer::{Doc, Part};
use std::alloc::Allocator;
use std::cmp::Ordering;
use std::fmt;

impl<A: Allocator> fmt::Debug for Doc<A> {
    fn fmt<W: fmt::Write>(&self, f: &mut fmt::Formatter<W>) -> fmt::Result {
        f.debug_list().entries(self.parts()).finish()
    }
}

fn is_same(left: &Part<'_>, right: &Part<'_>) -> bool
    ensures { result ≡ same_part (part_of left.now) (part_of right.now) }
{
    left == right
}

impl<A: Allocator> PartialEq for Doc<A> {
    ghost use Rattle.std.specs.Cmp.{partial_equiv_from_equiv};
    ghost use Rattle.bpaf_doc.specs.Buffer.Equality.{same_document};
    ghost use Rattle.bpaf_doc.specs.Buffer.Steps.Order.{documents_equiv};

    ghost eq = { same_document };

    ghost laws = { partial_equiv_from_equiv documents_equiv };

    fn eq(&self, other: &Self) -> bool {
        let mut others = other.parts();
        for part in self.parts() {
            match others.next() {
                None => return false,
                Some(also) => {
                    if !is_same(&part, &also) {
                        return false;
                    }
                }
            }
        }
        others.next().is_none()
    }
}

impl<A: Allocator> Eq for Doc<A> {
    ghost use Rattle.bpaf_doc.specs.Buffer.Steps.Order.{documents_equiv};

    ghost laws = { documents_equiv };
}

fn part_order(left: &Part<'_>, right: &Part<'_>) -> Ordering
    ensures { result ≡ part_cmp (part_of left.now) (part_of right.now) }
{
    match left {
        Part::Text(left, style) => match right {
            Part::Text(right, other) => left.cmp(right).then(style.cmp(other)),
            Part::Start(_) | Part::End(_) => Ordering::Less,
        },
        Part::Start(left) => match right {
            Part::Text(_, _) => Ordering::Greater,
            Part::Start(right) => left.cmp(right),
            Part::End(_) => Ordering::Less,
        },
        Part::End(left) => match right {
            Part::Text(_, _) | Part::Start(_) => Ordering::Greater,
            Part::End(right) => left.cmp(right),
        },
    }
}

impl<A: Allocator> PartialOrd for Doc<A> {
    ghost use Rattle.std.specs.Ordering.{as_partial_cmp};
    ghost use Rattle.bpaf_doc.specs.Buffer.Equality.{document_cmp};
    ghost use Rattle.bpaf_doc.specs.Buffer.Steps.Order.{documents_partial};

    ghost partial_cmp = { as_partial_cmp document_cmp };

    ghost laws = { documents_partial };

    fn partial_cmp(&self, other: &Self) -> Option<Ordering> {
        Some(self.cmp(other))
    }
}

impl<A: Allocator> Ord for Doc<A> {
    ghost use Rattle.std.proofs.Common.{refl};
    ghost use Rattle.bpaf_doc.specs.Buffer.Equality.{document_cmp};
    ghost use Rattle.bpaf_doc.specs.Buffer.Steps.Order.{documents_tied, documents_total};

    ghost cmp = { document_cmp };

    ghost total = { documents_total };

    ghost matches_partial_cmp = { λ x y. refl };

    ghost matches_eq = { documents_tied };

    fn cmp(&self, other: &Self) -> Ordering {
        let mut others = other.parts();
        for part in self.parts() {
            match others.next() {
                None => return Ordering::Greater,
                Some(also) => {
                    let order = part_order(&part, &also);
                    if order != Ordering::Equal {
                        return order;
                    }
                }
            }
        }
        if others.next().is_none() {
            Ordering::Equal
        } else {
            Ordering::Less
        }
    }
}
