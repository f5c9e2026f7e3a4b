//! A document and an application in all forms.

ghost use Rattle.std.specs.Prelude.{true, false, IfOk, None, Some, codes, string_bytes};
ghost use Rattle.bpaf_roff.specs.Roff.{no_script};
ghost use Rattle.bpaf_doc.specs.Buffer.Parts.{IsWellNested};
ghost use Rattle.bpaf_doc.specs.Console.Layout.{IsLayout};
ghost use Rattle.bpaf_doc.specs.Html.Page.{IsHtmlPageOf};
ghost use Rattle.bpaf_doc.specs.Manpage.Page.{IsPageOf};
ghost use Rattle.bpaf_meta.specs.View.{head_of, tree_of};
ghost use Rattle.bpaf_meta.specs.Meta.Sequences.{ShowsSame};
ghost use Rattle.bpaf_help.specs.PageAnswers.{IsManualOf};

use bpaf_doc::buffer::Doc;
use bpaf_help::headline::{Headline, Sources, show};
use bpaf_help::meta::Meta;
use bpaf_help::meta_help::Info;
use bpaf_help::pages::{ManualTitle, Section};
use bpaf_roff::roff::Roff;
use std::alloc::{AllocError, Global};

/// A document, at a width of 80 columns where it is for a console, and an application, as a page of section 8 of the
/// manual and with its tree as a usage line has it.
pub fn all_forms<'s>(
    alloc: Global,
    document: &'s Doc,
    app: &'s str,
    tree: &'s Meta,
    info: &'s Info,
) -> Result<Headline, AllocError>
    ensures console { IfOk result (λ made. IsLayout document.now true 80 (string_bytes made.console)) }
    ensures html { IfOk result (λ made. IsWellNested document.now
        → IsHtmlPageOf document.now true false (string_bytes made.html)) }
    ensures roff { IfOk result (λ made. IsPageOf no_script document.now (string_bytes made.roff)) }
    ensures manual { IfOk result (λ made. IsManualOf app.now (codes "8") None (Some (codes "app 1.2")) None
        (tree_of tree.now) (head_of info.now) (string_bytes made.manual)) }
    ensures normal { IfOk result (λ made. ShowsSame true (tree_of made.normal) (tree_of tree.now)) }
{
    let of = Sources {
        document,
        width: 80,
        app,
        title: ManualTitle {
            section: Section::Sysadmin,
            date: None,
            vendor: Some("app 1.2"),
            title: None,
        },
        tree,
        info,
        for_usage: true,
    };
    show(alloc, Roff::new(alloc), &of)
}
