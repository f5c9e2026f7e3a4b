//! What belongs to items and commands: names of values, and texts around a help page.
ghost use Rattle.std.specs.Prelude.{◌≡◌, IfOk};
ghost use Rattle.bpaf_meta.specs.View.{head_of};

use crate::meta::Meta;
use bpaf_doc::buffer::Doc;
use std::alloc::{AllocError, Allocator, Global};

/// The name of a value in a usage line, for example `FILE`.
#[derive(Clone, Copy, Debug, PartialEq, Eq, PartialOrd, Ord)]
pub struct Metavar(pub &'static str);

/// The texts of a help page, and the tree of the flags that ask for help.
#[cycle(tree)]
#[derive(Drop)]
#[derive_where(Debug)]
pub struct Info<A: Allocator = Global> {
    /// What the program does. The page begins with it.
    pub descr: Option<Doc<A>>,
    /// Stands between the usage and the lists.
    pub header: Option<Doc<A>>,
    /// Stands last.
    pub footer: Option<Doc<A>>,
    /// Stands in place of the usage.
    pub usage: Option<Doc<A>>,
    pub help: Meta<A>,
}

/// No texts, and no flags that ask for help.
impl<A: Allocator> Default for Info<A> {
    ghost use Rattle.std.specs.Prelude.{◌≡◌, None};
    ghost use Rattle.bpaf_meta.specs.Content.{head, skip};
    ghost use Rattle.bpaf_meta.specs.View.{head_of};

    ghost is_default = { λ info. head_of info ≡ head None None None None skip };

    fn default() -> Info<A> {
        Info {
            descr: None,
            header: None,
            footer: None,
            usage: None,
            help: Meta::Skip,
        }
    }
}

impl<A: Allocator + Copy> Info<A> {
    /// A copy with the same content.
    #[cycle(copy)]
    pub fn clone(&self) -> Result<Info<A>, AllocError>
        ensures { IfOk result (λ i. head_of i ≡ head_of self.now) }
    {
        Ok(Info {
            descr: clone_help(&self.descr)?,
            header: clone_help(&self.header)?,
            footer: clone_help(&self.footer)?,
            usage: clone_help(&self.usage)?,
            help: self.help.clone()?,
        })
    }
}

#[cycle(copy)]
pub(crate) fn clone_info<A: Allocator + Copy>(
    info: &Box<Info<A>, A>,
) -> Result<Box<Info<A>, A>, AllocError>
    ensures { IfOk result (λ i. head_of i.value ≡ head_of info.now.value) }
{
    Ok(Box::new(*Box::allocator(info), Info::clone(info)?)?)
}

pub(crate) fn clone_help<A: Allocator + Copy>(
    help: &Option<Doc<A>>,
) -> Result<Option<Doc<A>>, AllocError>
    ensures { IfOk result (λ d. d ≡ help.now) }
{
    match help {
        None => Ok(None),
        Some(help) => Ok(Some(help.clone()?)),
    }
}
