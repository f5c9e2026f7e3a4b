//! The items of a command line: flags, arguments, positional values and commands.
ghost use Rattle.std.specs.Prelude.{◌≡◌, ◌↔◌, IfOk, IsTrue, map, if◌then◌else◌};
ghost use Rattle.std.specs.Option.{option_map};
ghost use Rattle.std.specs.Result.{result_ok};
ghost use Rattle.bpaf_meta.specs.Content.{item, optional};
ghost use Rattle.bpaf_meta.specs.View.{name_of, leaf_of, tree_of, text_of};
ghost use Rattle.bpaf_meta.specs.Names.{short_text, long_text, short_name, long_name, IsFormOf, first_names};
ghost use Rattle.bpaf_meta.specs.Meta.Normal.{name_form, item_form};
ghost use Rattle.bpaf_meta.specs.Meta.Misplaced.{is_positional};

use crate::meta::{Meta, clone_boxed};
use crate::meta_help::{Info, Metavar, clone_help, clone_info};
use bpaf_doc::buffer::Doc;
use std::alloc::{AllocError, Allocator, Global};
use std::error::Error;
use std::fmt;

/// A short name, a long name, or both.
#[derive(Clone, Copy, Debug, PartialEq, Eq, PartialOrd, Ord)]
pub enum ShortLong {
    Short(char),
    Long(&'static str),
    Both(char, &'static str),
}

/// One thing that a user can write on a command line, with its help text.
#[cycle(tree)]
#[derive(Drop)]
#[derive_where(Debug)]
pub enum Item<A: Allocator = Global> {
    /// Anything that fits, shown as a document. With `anywhere` it may stand among the named items.
    Any {
        metavar: Doc<A>,
        anywhere: bool,
        help: Option<Doc<A>>,
    },
    /// A value that is taken by its place.
    Positional {
        metavar: Metavar,
        help: Option<Doc<A>>,
    },
    /// A command, with a command line of its own and the texts around its help page.
    Command {
        name: &'static str,
        short: Option<char>,
        help: Option<Doc<A>>,
        meta: Box<Meta<A>, A>,
        info: Box<Info<A>, A>,
    },
    /// A name without a value. `shorts` are all its short names, and `env` a variable that stands for it.
    Flag {
        name: ShortLong,
        shorts: Vec<char, A>,
        env: Option<&'static str>,
        help: Option<Doc<A>>,
    },
    /// A name with a value after it.
    Argument {
        name: ShortLong,
        shorts: Vec<char, A>,
        metavar: Metavar,
        env: Option<&'static str>,
        help: Option<Doc<A>>,
    },
}

impl<A: Allocator> Item<A> {
    /// Whether the item is taken by its place: a positional value, a command, or an `Any` without `anywhere`.
    pub fn is_pos(&self) -> bool
        ensures { result ≡ is_positional (leaf_of self.now) }
    {
        match self {
            Item::Any { anywhere, .. } => !*anywhere,
            Item::Positional { .. } | Item::Command { .. } => true,
            Item::Flag { .. } | Item::Argument { .. } => false,
        }
    }

    /// Keeps one name of a flag or an argument that has both: the short one for true, the long one for false.
    pub fn normalize(&mut self, short: bool)
        ensures { leaf_of self.new ≡ item_form short (leaf_of self.old) }
    {
        match self {
            Item::Flag { name, .. } => name.normalize(short),
            Item::Argument { name, .. } => name.normalize(short),
            Item::Any { .. } | Item::Positional { .. } | Item::Command { .. } => {}
        }
    }
}

impl<A: Allocator + Copy> Item<A> {
    /// The item as a tree, inside `Optional` if not required. After `AllocError` the item is dropped.
    pub fn required(self, alloc: A, required: bool) -> Result<Meta<A>, AllocError>
        ensures { IfOk result (λ m. tree_of m
            ≡ (if required then item (leaf_of self) else optional (item (leaf_of self)))) }
    {
        let tree = Meta::from_item(alloc, self)?;
        if required {
            Ok(tree)
        } else {
            Ok(Meta::Optional(Box::new(alloc, tree)?))
        }
    }

    /// A copy with the same content.
    #[cycle(copy)]
    pub fn clone(&self) -> Result<Item<A>, AllocError>
        ensures { IfOk result (λ i. leaf_of i ≡ leaf_of self.now) }
    {
        match self {
            Item::Any {
                metavar,
                anywhere,
                help,
            } => Ok(Item::Any {
                metavar: metavar.clone()?,
                anywhere: *anywhere,
                help: clone_help(help)?,
            }),
            Item::Positional { metavar, help } => Ok(Item::Positional {
                metavar: *metavar,
                help: clone_help(help)?,
            }),
            Item::Command {
                name,
                short,
                help,
                meta,
                info,
            } => Ok(Item::Command {
                name: *name,
                short: *short,
                help: clone_help(help)?,
                meta: clone_boxed(meta)?,
                info: clone_info(info)?,
            }),
            Item::Flag {
                name,
                shorts,
                env,
                help,
            } => Ok(Item::Flag {
                name: *name,
                shorts: clone_shorts(shorts)?,
                env: *env,
                help: clone_help(help)?,
            }),
            Item::Argument {
                name,
                shorts,
                metavar,
                env,
                help,
            } => Ok(Item::Argument {
                name: *name,
                shorts: clone_shorts(shorts)?,
                metavar: *metavar,
                env: *env,
                help: clone_help(help)?,
            }),
        }
    }
}

fn clone_shorts<A: Allocator + Copy>(shorts: &Vec<char, A>) -> Result<Vec<char, A>, AllocError>
    ensures { IfOk result (λ c. c.items ≡ shorts.now.items) }
{
    shorts.clone()
}

impl ShortLong {
    /// The long name, where there is one.
    pub fn as_long(&self) -> Option<&'static str>
        ensures { text_of result ≡ long_name (name_of self.now) }
    {
        match *self {
            ShortLong::Long(long) | ShortLong::Both(_, long) => Some(long),
            ShortLong::Short(_) => None,
        }
    }

    /// The short name, where there is one.
    pub fn as_short(&self) -> Option<char>
        ensures { result ≡ short_name (name_of self.now) }
    {
        match *self {
            ShortLong::Short(short) | ShortLong::Both(short, _) => Some(short),
            ShortLong::Long(_) => None,
        }
    }

    /// Keeps one name of `Both`: the short one for true, the long one for false.
    pub fn normalize(&mut self, short: bool)
        ensures { name_of self.new ≡ name_form short (name_of self.old) }
    {
        if let ShortLong::Both(initial, long) = *self {
            *self = if short {
                ShortLong::Short(initial)
            } else {
                ShortLong::Long(long)
            };
        }
    }

    /// Whether the text is `-` and the short name, or `--` and the long name.
    pub fn matches(&self, text: &str) -> bool
        ensures { IsTrue result ↔ IsFormOf (name_of self.now) text.now }
    {
        match *self {
            ShortLong::Short(short) => is_short(short, text),
            ShortLong::Long(long) => is_long(long, text),
            ShortLong::Both(short, long) => is_short(short, text) || is_long(long, text),
        }
    }

    /// The first of each list; `NoName` where both are empty.
    pub fn from_names(shorts: &[char], longs: &[&'static str]) -> Result<ShortLong, NoName>
        ensures { option_map name_of (result_ok result) ≡ first_names shorts.now (map (λ long. long.now) longs.now) }
    {
        match (shorts.first(), longs.first()) {
            (None, None) => Err(NoName),
            (None, Some(long)) => Ok(ShortLong::Long(*long)),
            (Some(short), None) => Ok(ShortLong::Short(*short)),
            (Some(short), Some(long)) => Ok(ShortLong::Both(*short, *long)),
        }
    }
}

fn is_short(short: char, text: &str) -> bool
    ensures { IsTrue result ↔ (text.now ≡ short_text short) }
{
    let mut bytes = [0u8; 4];
    match text.strip_prefix('-') {
        Some(rest) => rest == short.encode_utf8(&mut bytes),
        None => false,
    }
}

fn is_long(long: &str, text: &str) -> bool
    ensures { IsTrue result ↔ (text.now ≡ long_text long.now) }
{
    match text.strip_prefix("--") {
        Some(rest) => rest == long,
        None => false,
    }
}

/// Neither a short name nor a long one was given.
#[derive(Clone, Copy, Debug, PartialEq, Eq)]
pub struct NoName;

impl fmt::Display for NoName {
    fn fmt<W: fmt::Write>(&self, f: &mut fmt::Formatter<W>) -> fmt::Result {
        f.write_str("no name")
    }
}

impl Error for NoName {}
