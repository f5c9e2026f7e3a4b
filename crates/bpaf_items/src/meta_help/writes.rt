//! What each entry of a list writes.
ghost use Rattle.std.specs.Prelude.{◌≡◌, ◌∷◌, [], ◌++◌, ℕ, List, false};
ghost use Rattle.std.specs.Option.{option_copied};
ghost use Rattle.bpaf_meta.specs.Content.{argument};
ghost use Rattle.bpaf_meta.specs.View.{name_of, text_of};
ghost use Rattle.bpaf_doc.specs.Buffer.Writes.{end, inside, plain, start};
ghost use Rattle.bpaf_items.specs.View.{entry_of};
ghost use Rattle.bpaf_items.specs.Page.EntryWrites.{body, command_writes, entry_writes, env_body, env_term, env_text};
ghost use Rattle.bpaf_items.specs.Page.EntryWrites.{env_writes, help_writes, listed_writes, term};
ghost use Rattle.bpaf_items.specs.Page.EnvTexts.{texts_in};
ghost use Rattle.bpaf_items.specs.Page.Steps.Pages.{shown_text};
ghost use Rattle.bpaf_items.specs.Page.Steps.Pieces.{Leaves, joined, piece_writes, pieces_write};

use crate::meta_help::entry::HelpItem;
use crate::meta_help::env_texts::EnvTexts;
use crate::meta_help::pieces::{Piece, put, put_inside, put_words};
use bpaf_doc::buffer::{Block, Doc, Style};
use bpaf_meta::item::ShortLong;
use bpaf_meta::meta_help::Metavar;
use std::alloc::{AllocError, Allocator};

/// What the calls that write a list share: whether the texts of environment variables are shown, these texts, and the
/// allocator of working memory.
#[derive(Drop)]
pub struct Writer<'t, C: Allocator, L: Allocator> {
    pub include_env: bool,
    pub texts: &'t EnvTexts<C>,
    pub alloc: L,
}

// What is shown of the value of a variable: whether there is one, or its text.
#[derive(Clone, Copy)]
pub enum Shown {
    IsSet,
    Value,
}

impl<'t, C: Allocator, L: Allocator + Copy> Writer<'t, C, L> {
    /// Writes an entry: its term and its help, or the marks around a group or an adjacent block.
    pub fn put_entry<'a, A: Allocator, B: Allocator + Copy>(
        &self,
        doc: &mut Doc<A>,
        entry: &HelpItem<'a, B>,
    ) -> Result<(), AllocError>
        ensures { Leaves result doc.old doc.new
            (entry_writes self.now.include_env (texts_in self.now.texts.now) (entry_of entry.now)) }
    {
        match *entry {
            HelpItem::GroupStart { help, .. } => put_list_start(doc, Piece::Title(help)),
            HelpItem::GroupEnd { .. } => put_list_end(doc),
            HelpItem::AdjacentStart { inner, .. } => {
                put_inside(doc, Block::Section4, &[Piece::Usage(inner)])
            }
            HelpItem::AdjacentStop { .. } => put_empty(doc, Block::Block),
            HelpItem::DecorSuffix { help, .. } => put_item(doc, &[], Some(help)),
            HelpItem::Any { metavar, help, .. } => put_item(doc, &[Piece::Document(metavar)], help),
            HelpItem::Positional { metavar, help } => put_item(doc, &[Piece::Value(metavar)], help),
            HelpItem::Command {
                name,
                short,
                help,
                ..
            } => put_command(doc, name, short, help),
            HelpItem::Flag { name, env, help } => {
                self.put_named(doc, &[Piece::Names(name)], help, env, Shown::IsSet)
            }
            HelpItem::Argument {
                name,
                metavar,
                env,
                help,
            } => self.put_argument(doc, name, metavar, help, env),
        }
    }

    fn put_argument<'a, A: Allocator, B: Allocator + Copy>(
        &self,
        doc: &mut Doc<A>,
        name: ShortLong,
        metavar: Metavar,
        help: Option<&'a Doc<B>>,
        env: Option<&'static str>,
    ) -> Result<(), AllocError>
        ensures { Leaves result doc.old doc.new (listed_writes self.now.include_env (texts_in self.now.texts.now)
            (argument (name_of name) [] metavar.0.now (text_of env.entry) (option_copied help.entry))) }
    {
        let names = [
            Piece::Names(name),
            Piece::Text("=", Style::Text),
            Piece::Value(metavar),
        ];
        self.put_named(doc, &names, help, env, Shown::Value)
    }

    // A flag or an argument.
    fn put_named<'a, A: Allocator, B: Allocator + Copy>(
        &self,
        doc: &mut Doc<A>,
        names: &[Piece<'a, B>],
        help: Option<&'a Doc<B>>,
        env: Option<&'static str>,
        shown: Shown,
    ) -> Result<(), AllocError>
        ensures { Leaves result doc.old doc.new (term (pieces_write names.now) ++ help_writes (option_copied help.entry)
            ++ env_writes self.now.include_env (λ name. shown_text shown name (texts_in self.now.texts.now name))
            (option_copied help.entry) (text_of env.entry)) }
    {
        put_item(doc, names, help)?;
        self.put_env(doc, help, env, shown)
    }

    fn put_env<A: Allocator, B: Allocator>(
        &self,
        doc: &mut Doc<A>,
        help: Option<&Doc<B>>,
        env: Option<&'static str>,
        shown: Shown,
    ) -> Result<(), AllocError>
        ensures { Leaves result doc.old doc.new
            (env_writes self.now.include_env (λ name. shown_text shown name (texts_in self.now.texts.now name))
            (option_copied help.entry) (text_of env.entry)) }
    {
        let Some(name) = env else {
            return Ok(());
        };
        put_env_term(doc, help)?;
        if !self.include_env {
            return put_env_name(doc, name);
        }
        put_env_text(doc, name, shown.of(self.texts.get(name)))
    }
}

impl Shown {
    fn of<'t>(self, text: Option<&'t str>) -> (&'t str, &'t str)
        ensures { (name : List ℕ) → env_text name (result.0.now ++ result.1.now)
            ≡ shown_text self name (option_copied text.entry) }
    {
        match (self, text) {
            (Shown::IsSet, None) => (": not set", ""),
            (Shown::IsSet, Some(_)) => (": set", ""),
            (Shown::Value, None) => (": N/A", ""),
            (Shown::Value, Some(text)) => (" = ", text),
        }
    }
}

/// Writes a title and the start of the list below it.
pub fn put_list_start<'a, A: Allocator, B: Allocator + Copy>(
    doc: &mut Doc<A>,
    title: Piece<'a, B>,
) -> Result<(), AllocError>
    ensures { Leaves result doc.old doc.new
        (start Block.Block ∷ inside Block.Section2 (piece_writes title.entry) ++ start Block.DefinitionList ∷ []) }
{
    put(
        doc,
        &[
            Piece::Start(Block::Block),
            Piece::Start(Block::Section2),
            title,
            Piece::End(Block::Section2),
            Piece::Start(Block::DefinitionList),
        ],
    )
}

/// Writes the end of a list that `put_list_start` started.
pub fn put_list_end<A: Allocator>(doc: &mut Doc<A>) -> Result<(), AllocError>
    ensures { Leaves result doc.old doc.new (end Block.DefinitionList ∷ end Block.Block ∷ []) }
{
    put_words(
        doc,
        &[Piece::End(Block::DefinitionList), Piece::End(Block::Block)],
    )
}

// An item's term and its help.
fn put_item<'a, A: Allocator, B: Allocator + Copy>(
    doc: &mut Doc<A>,
    pieces: &[Piece<'a, B>],
    help: Option<&'a Doc<B>>,
) -> Result<(), AllocError>
    ensures { Leaves result doc.old doc.new (term (pieces_write pieces.now) ++ help_writes (option_copied help.entry)) }
{
    put_inside(doc, Block::ItemTerm, pieces)?;
    put_help(doc, help)
}

fn put_help<A: Allocator, B: Allocator + Copy>(
    doc: &mut Doc<A>,
    help: Option<&Doc<B>>,
) -> Result<(), AllocError>
    ensures { Leaves result doc.old doc.new (help_writes (option_copied help.entry)) }
{
    match help {
        None => Ok(()),
        Some(help) => put_inside(doc, Block::ItemBody, &[Piece::Document(help)]),
    }
}

fn put_command<'a, A: Allocator, B: Allocator + Copy>(
    doc: &mut Doc<A>,
    name: &'static str,
    short: Option<char>,
    help: Option<&'a Doc<B>>,
) -> Result<(), AllocError>
    ensures { Leaves result doc.old doc.new
        (term (command_writes name.now short) ++ help_writes (option_copied help.entry)) }
{
    let name = Piece::Text(name, Style::Literal);
    match short {
        None => put_item(doc, &[name], help),
        Some(short) => put_item(
            doc,
            &[
                name,
                Piece::Text(", ", Style::Text),
                Piece::Character(short),
            ],
            help,
        ),
    }
}

fn put_empty<A: Allocator>(doc: &mut Doc<A>, block: Block) -> Result<(), AllocError>
    ensures { Leaves result doc.old doc.new (inside block []) }
{
    put_words(doc, &[Piece::Start(block), Piece::End(block)])
}

// After a help the environment gets an empty term of its own.
fn put_env_term<A: Allocator, B: Allocator>(
    doc: &mut Doc<A>,
    help: Option<&Doc<B>>,
) -> Result<(), AllocError>
    ensures { Leaves result doc.old doc.new (env_term (option_copied help.entry)) }
{
    match help {
        None => Ok(()),
        Some(_) => put_empty(doc, Block::ItemTerm),
    }
}

fn put_env_name<A: Allocator>(doc: &mut Doc<A>, name: &str) -> Result<(), AllocError>
    ensures { Leaves result doc.old doc.new (body (env_body false name.now [])) }
{
    put_words(
        doc,
        &[
            Piece::Start(Block::ItemBody),
            Piece::Text("Uses environment variable ", Style::Text),
            Piece::Text(name, Style::Literal),
            Piece::End(Block::ItemBody),
        ],
    )
}

fn put_env_text<'a, A: Allocator>(
    doc: &mut Doc<A>,
    name: &'a str,
    shown: (&'a str, &'a str),
) -> Result<(), AllocError>
    ensures { Leaves result doc.old doc.new
        (body (plain (env_text name.now (shown.entry.0.now ++ shown.entry.1.now)) ∷ [])) }
{
    put_joined_body(doc, &["[env:", name, shown.0, shown.1, "]"])
}

fn put_joined_body<A: Allocator>(doc: &mut Doc<A>, texts: &[&str]) -> Result<(), AllocError>
    ensures { Leaves result doc.old doc.new (body (plain (joined texts.now) ∷ [])) }
{
    put_words(
        doc,
        &[
            Piece::Start(Block::ItemBody),
            Piece::Joined(texts, Style::Text),
            Piece::End(Block::ItemBody),
        ],
    )
}
