//! What pages say, as constants, and the parts that are made of them.
use page_model::{Block, Entry, Form, Inline, Line, Part, Rank, Target};
use std::alloc::{AllocError, Global};

/// Lines, each of pieces.
pub type Lines = &'static [&'static [Inline<'static>]];

pub enum Shown {
    Paragraph(Lines),
    Code(&'static [&'static str]),
    /// Items of one line each.
    List(Lines),
}

/// An entry: its terms and its body.
pub struct Item(pub Lines, pub &'static [Shown]);

/// An entry that leads to the page of this name.
pub struct Leading(pub &'static str, pub Item);

pub enum Said {
    Section(&'static str),
    Subsection(&'static str),
    /// One form: its name and its items.
    Usage(&'static str, Lines),
    Block(Shown),
    Entries(&'static [Item]),
    LeadingEntries(&'static [Leading]),
}

fn line(alloc: Global, pieces: &[Inline<'static>]) -> Result<Line<'static>, AllocError> {
    let mut line = Vec::new(alloc);
    for piece in pieces {
        line.push(*piece)?;
    }
    Ok(line)
}

fn lines(alloc: Global, said: Lines) -> Result<Vec<Line<'static>>, AllocError> {
    let mut lines = Vec::new(alloc);
    for pieces in said {
        lines.push(line(alloc, pieces)?)?;
    }
    Ok(lines)
}

fn items(alloc: Global, said: Lines) -> Result<Vec<Vec<Line<'static>>>, AllocError> {
    let mut items = Vec::new(alloc);
    for pieces in said {
        let mut item = Vec::new(alloc);
        item.push(line(alloc, pieces)?)?;
        items.push(item)?;
    }
    Ok(items)
}

fn texts(alloc: Global, said: &[&'static str]) -> Result<Vec<&'static str>, AllocError> {
    let mut texts = Vec::new(alloc);
    for text in said {
        texts.push(*text)?;
    }
    Ok(texts)
}

fn block(alloc: Global, shown: &Shown) -> Result<Block<'static>, AllocError> {
    match shown {
        Shown::Paragraph(said) => Ok(Block::Paragraph(lines(alloc, said)?)),
        Shown::Code(said) => Ok(Block::Code(texts(alloc, said)?)),
        Shown::List(said) => Ok(Block::List(items(alloc, said)?)),
    }
}

fn blocks(alloc: Global, said: &[Shown]) -> Result<Vec<Block<'static>>, AllocError> {
    let mut blocks = Vec::new(alloc);
    for shown in said {
        blocks.push(block(alloc, shown)?)?;
    }
    Ok(blocks)
}

fn entry(
    alloc: Global,
    target: Option<Target<'static>>,
    said: &Item,
) -> Result<Entry<'static>, AllocError> {
    Ok(Entry {
        word: "",
        target,
        terms: lines(alloc, said.0)?,
        body: blocks(alloc, said.1)?,
    })
}

fn entries(alloc: Global, said: &[Item]) -> Result<Vec<Entry<'static>>, AllocError> {
    let mut entries = Vec::new(alloc);
    for item in said {
        entries.push(entry(alloc, None, item)?)?;
    }
    Ok(entries)
}

fn leading_entries(alloc: Global, said: &[Leading]) -> Result<Vec<Entry<'static>>, AllocError> {
    let mut entries = Vec::new(alloc);
    for leading in said {
        entries.push(entry(alloc, Some(Target::Page(leading.0)), &leading.1)?)?;
    }
    Ok(entries)
}

pub fn forms(
    alloc: Global,
    name: &'static str,
    said: Lines,
) -> Result<Vec<Form<'static>>, AllocError> {
    let mut forms = Vec::new(alloc);
    forms.push(Form {
        name,
        items: lines(alloc, said)?,
    })?;
    Ok(forms)
}

fn part(alloc: Global, said: &Said) -> Result<Part<'static>, AllocError> {
    match said {
        Said::Section(title) => Ok(Part::Heading(Rank::Section, title)),
        Said::Subsection(title) => Ok(Part::Heading(Rank::Subsection, title)),
        Said::Usage(name, said) => Ok(Part::Usage(forms(alloc, name, said)?)),
        Said::Block(shown) => Ok(Part::Block(block(alloc, shown)?)),
        Said::Entries(said) => Ok(Part::Entries(entries(alloc, said)?)),
        Said::LeadingEntries(said) => Ok(Part::Entries(leading_entries(alloc, said)?)),
    }
}

pub fn parts(alloc: Global, page: &[Said]) -> Result<Vec<Part<'static>>, AllocError> {
    let mut parts = Vec::new(alloc);
    for said in page {
        parts.push(part(alloc, said)?)?;
    }
    Ok(parts)
}
