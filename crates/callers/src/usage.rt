//! A usage line.

ghost use Rattle.std.specs.Prelude.{◌≡◌, true, IfOk};
ghost use Rattle.bpaf_doc.specs.Buffer.Writes.{document_of};
ghost use Rattle.bpaf_meta.specs.View.{tree_of};
ghost use Rattle.bpaf_meta.specs.Usage.Writes.{usage_writes};

use bpaf_doc::buffer::Doc;
use bpaf_help::meta::Meta;
use bpaf_help::usage::write_meta;
use std::alloc::{AllocError, Global};

/// The usage line of a tree, as a document of its own.
pub fn usage_line(alloc: Global, tree: &Meta) -> Result<Doc, AllocError>
    ensures { IfOk result (λ d. d ≡ document_of (usage_writes true (tree_of tree.now))) }
{
    let mut doc = Doc::new(alloc);
    write_meta(&mut doc, tree, true)?;
    Ok(doc)
}

/// Whether each named item stands before the positional ones.
pub fn is_sound(tree: &Meta) -> bool {
    tree.positional_invariant_check().is_ok()
}
