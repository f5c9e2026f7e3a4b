//! The sample application and its page in each form.

ghost use Rattle.std.specs.Prelude.{◌≡◌, [], ◌∷◌, IfErr, IfOk, map, string_bytes};
ghost use Rattle.bpaf_meta.specs.View.{head_of, tree_of};
ghost use Rattle.helpdoc_engine.specs.Rendering.{IsPage};
ghost use Rattle.helpdoc_engine.specs.Sample.{sample_document, sample_info, sample_name, sample_title, sample_tree};

use crate::faults::Fault;
use crate::words::Form;
use bpaf_doc::buffer::Doc;
use bpaf_doc::console::MAX_WIDTH;
use bpaf_help::item::{Item, ShortLong};
use bpaf_help::meta::Meta;
use bpaf_help::meta_help::{EnvTexts, Info, render_help};
use bpaf_help::pages::laws::pages_are_nested;
use bpaf_help::pages::{Section, render_html, render_manpage, render_markdown};
use std::alloc::{AllocError, Allocator};

// The name of the application.
const NAME: &str = "app";

/// The page of the application in this form. It fails only where an allocation failed.
pub fn sample_page<A: Allocator + Copy>(alloc: A, form: Form) -> Result<String<A>, Fault>
    ensures page { IfOk result (λ page.
        IsPage sample_title form (sample_document form) (string_bytes page)) }
    ensures fault { IfErr result (λ fault. fault ≡ Fault.Memory) }
{
    let tree = tree(alloc)?;
    let info = info(alloc)?;
    page_of(alloc, form, &tree, &info)
}

fn page_of<'m, A: Allocator + Copy>(
    alloc: A,
    form: Form,
    tree: &'m Meta<A>,
    info: &'m Info<A>,
) -> Result<String<A>, Fault>
    requires tree { tree_of tree.now ≡ sample_tree }
    requires info { head_of info.now ≡ sample_info }
    ensures page { IfOk result (λ page.
        IsPage sample_title form (sample_document form) (string_bytes page)) }
    ensures fault { IfErr result (λ fault. fault ≡ Fault.Memory) }
{
    match form {
        Form::Full => Ok(help_page(alloc, tree, info)?.render_console(alloc, true, MAX_WIDTH)?),
        Form::Brief => Ok(help_page(alloc, tree, info)?.render_console(alloc, false, MAX_WIDTH)?),
        Form::Html => html_page(alloc, tree, info),
        Form::Markdown => markdown_page(alloc, tree, info),
        Form::Man => manual_page(alloc, tree, info),
    }
}

// Its help page, which shows nothing of an environment.
fn help_page<A: Allocator + Copy>(alloc: A, tree: &Meta<A>, info: &Info<A>) -> Result<Doc<A>, Fault>
    requires tree { tree_of tree.now ≡ sample_tree }
    requires info { head_of info.now ≡ sample_info }
    ensures document { IfOk result (λ document. document ≡ sample_document Form.Full) }
    ensures fault { IfErr result (λ fault. fault ≡ Fault.Memory) }
{
    let path = path(alloc)?;
    let texts = EnvTexts::new(alloc);
    Ok(render_help(alloc, &path, info, tree, &Meta::Skip, false, &texts)?)
}

fn html_page<'m, A: Allocator + Copy>(
    alloc: A,
    tree: &'m Meta<A>,
    info: &'m Info<A>,
) -> Result<String<A>, Fault>
    requires tree { tree_of tree.now ≡ sample_tree }
    requires info { head_of info.now ≡ sample_info }
    ensures page { IfOk result (λ page.
        IsPage sample_title Form.Html (sample_document Form.Html) (string_bytes page)) }
    ensures fault { IfErr result (λ fault. fault ≡ Fault.Memory) }
{
    pages_are_nested();
    Ok(render_html(alloc, NAME, tree, info)?)
}

fn markdown_page<'m, A: Allocator + Copy>(
    alloc: A,
    tree: &'m Meta<A>,
    info: &'m Info<A>,
) -> Result<String<A>, Fault>
    requires tree { tree_of tree.now ≡ sample_tree }
    requires info { head_of info.now ≡ sample_info }
    ensures page { IfOk result (λ page.
        IsPage sample_title Form.Markdown (sample_document Form.Markdown) (string_bytes page)) }
    ensures fault { IfErr result (λ fault. fault ≡ Fault.Memory) }
{
    Ok(render_markdown(alloc, NAME, tree, info)?)
}

fn manual_page<A: Allocator + Copy>(
    alloc: A,
    tree: &Meta<A>,
    info: &Info<A>,
) -> Result<String<A>, Fault>
    requires tree { tree_of tree.now ≡ sample_tree }
    requires info { head_of info.now ≡ sample_info }
    ensures page { IfOk result (λ page.
        IsPage sample_title Form.Man (sample_document Form.Man) (string_bytes page)) }
    ensures fault { IfErr result (λ fault. fault ≡ Fault.Memory) }
{
    let section = Section::General;
    Ok(render_manpage(alloc, NAME, section, None, None, None, tree, info)?)
}

// The path to it: its name.
fn path<A: Allocator + Copy>(alloc: A) -> Result<Vec<String<A>, A>, AllocError>
    ensures { IfOk result (λ path. map string_bytes path.items ≡ sample_name ∷ []) }
{
    let mut path = Vec::new(alloc);
    path.push(String::from_str(alloc, NAME)?)?;
    Ok(path)
}

// Its tree: one flag.
fn tree<A: Allocator + Copy>(alloc: A) -> Result<Meta<A>, AllocError>
    ensures { IfOk result (λ tree. tree_of tree ≡ sample_tree) }
{
    let help = Doc::from_text(alloc, "Talk more")?;
    Meta::from_item(
        alloc,
        Item::Flag {
            name: ShortLong::Both('v', "verbose"),
            shorts: Vec::new(alloc),
            env: None,
            help: Some(help),
        },
    )
}

// Its info: a description.
fn info<A: Allocator + Copy>(alloc: A) -> Result<Info<A>, AllocError>
    ensures { IfOk result (λ info. head_of info ≡ sample_info) }
{
    Ok(Info {
        descr: Some(Doc::from_text(alloc, "Prints things")?),
        header: None,
        footer: None,
        usage: None,
        help: Meta::Skip,
    })
}
