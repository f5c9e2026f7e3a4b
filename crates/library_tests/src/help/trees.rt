//! Trees from short texts.
use bpaf_doc::buffer::Doc;
use bpaf_help::item::{Item, ShortLong};
use bpaf_help::meta::Meta;
use bpaf_help::meta_help::{Info, Metavar};
use std::alloc::{AllocError, Allocator};
use std::process::Abort;

/// The tree that a text spells over a stack of trees. `X` is a positional value with help, `C` a command of the
/// same name and help, `P` a positional value without help, `A` and `S` an argument, `Y` an `Any`, `.` a `Skip`,
/// and `B`, each small letter and each letter that is not ASCII a flag. Each other sign takes trees off and puts one
/// on: `&` an `And` of two, `|` an `Or` of two, and of the last one `?` Optional, `^` Required, `@` Adjacent, `+` Many,
/// `-` Strict, `#` and `%` Subsection, `~` and `!` Suffix, `$` CustomUsage, and each digit and `R` a command. Where
/// there is none to take off, it takes `Skip`.
pub fn tree<A: Allocator + Copy>(rt: &impl Abort, alloc: A, text: &str) -> Meta<A> {
    let mut stack = Vec::new(alloc);
    for sign in text.chars() {
        let made = made(rt, alloc, &mut stack, sign);
        stack.push(made).expect(rt, "a tree");
    }
    let tree = top(&mut stack);
    drop(stack);
    tree
}

fn top<A: Allocator>(stack: &mut Vec<Meta<A>, A>) -> Meta<A> {
    match stack.pop() {
        Some(tree) => tree,
        None => Meta::Skip,
    }
}

fn made<A: Allocator + Copy>(
    rt: &impl Abort,
    alloc: A,
    stack: &mut Vec<Meta<A>, A>,
    sign: char,
) -> Meta<A> {
    match sign {
        '.' => Meta::Skip,
        '&' => Meta::And(both(rt, alloc, stack)),
        '|' => Meta::Or(both(rt, alloc, stack)),
        '?' | '^' | '@' | '+' | '-' => wrapped(rt, alloc, top(stack), sign),
        '#' | '%' | '~' | '!' | '$' => noted(rt, alloc, top(stack), sign),
        'R' | '0'..='7' => command(rt, alloc, top(stack), sign),
        'C' => command(rt, alloc, Meta::Skip, sign),
        _ => leaf(rt, alloc, sign),
    }
}

// The last two trees of the stack.
fn both<A: Allocator + Copy>(
    rt: &impl Abort,
    alloc: A,
    stack: &mut Vec<Meta<A>, A>,
) -> Vec<Meta<A>, A> {
    let last = top(stack);
    let first = top(stack);
    let mut trees = Vec::new(alloc);
    trees.push(first).expect(rt, "a tree");
    trees.push(last).expect(rt, "a tree");
    trees
}

fn wrapped<A: Allocator>(rt: &impl Abort, alloc: A, inner: Meta<A>, sign: char) -> Meta<A> {
    let inner = Box::new(alloc, inner).expect(rt, "a tree");
    match sign {
        '?' => Meta::Optional(inner),
        '^' => Meta::Required(inner),
        '@' => Meta::Adjacent(inner),
        '+' => Meta::Many(inner),
        _ => Meta::Strict(inner),
    }
}

fn noted<A: Allocator + Copy>(rt: &impl Abort, alloc: A, inner: Meta<A>, sign: char) -> Meta<A> {
    let note = match sign {
        '#' => "G",
        '%' => "Extra",
        '~' => "S",
        _ => "T",
    };
    let note = Doc::from_text(alloc, note).expect(rt, "a note");
    let note = Box::new(alloc, note).expect(rt, "a note");
    let inner = Box::new(alloc, inner).expect(rt, "a tree");
    match sign {
        '#' | '%' => Meta::Subsection(inner, note),
        '$' => Meta::CustomUsage(inner, note),
        _ => Meta::Suffix(inner, note),
    }
}

// The name of a command, its short name and its help.
fn command_words(sign: char) -> (&'static str, Option<char>, &'static str) {
    match sign {
        'R' => ("run", Some('r'), "a command"),
        'C' => ("X", None, "h"),
        '1' => ("put", None, ""),
        '2' => ("get", None, ""),
        '3' => ("list", None, ""),
        '4' => ("show", None, ""),
        '5' => ("find", None, ""),
        '6' => ("drop", None, ""),
        '7' => ("help", None, ""),
        _ => ("run", None, ""),
    }
}

fn command<A: Allocator + Copy>(rt: &impl Abort, alloc: A, below: Meta<A>, sign: char) -> Meta<A> {
    let (name, short, help) = command_words(sign);
    let texts = if sign == 'R' { FULL } else { BARE };
    let command = Item::Command {
        name,
        short,
        help: text_doc(rt, alloc, help),
        meta: Box::new(alloc, below).expect(rt, "a tree"),
        info: Box::new(alloc, info(rt, alloc, texts)).expect(rt, "an info"),
    };
    Meta::from_item(alloc, command).expect(rt, "a command")
}

/// A description, a header, a footer and a usage.
pub type Texts<'a> = [&'a str; 4];

// Each of them differs.
const FULL: Texts<'static> = ["what", "head", "foot", "use"];

/// None of them.
pub const BARE: Texts<'static> = ["", "", "", ""];

/// A description alone.
pub const DESCRIBED: Texts<'static> = ["Prints things", "", "", ""];

/// What goes with a page: the texts that are not empty, and nothing else.
pub fn info<A: Allocator + Copy>(
    rt: &impl Abort,
    alloc: A,
    [descr, header, footer, usage]: Texts<'_>,
) -> Info<A> {
    Info {
        descr: text_doc(rt, alloc, descr),
        header: text_doc(rt, alloc, header),
        footer: text_doc(rt, alloc, footer),
        usage: text_doc(rt, alloc, usage),
        help: Meta::Skip,
    }
}

/// The tree of one item.
pub fn leaf<A: Allocator + Copy>(rt: &impl Abort, alloc: A, sign: char) -> Meta<A> {
    let item = match sign {
        'X' | 'P' => positional(rt, alloc, sign),
        'Y' => Item::Any {
            metavar: Doc::from_text(alloc, "rest").expect(rt, "a document"),
            anywhere: false,
            help: text_doc(rt, alloc, "all else"),
        },
        _ => named(rt, alloc, sign),
    };
    Meta::from_item(alloc, item).expect(rt, "an item")
}

fn positional<A: Allocator + Copy>(rt: &impl Abort, alloc: A, sign: char) -> Item<A> {
    let (name, help) = if sign == 'X' { ("X", "h") } else { ("P", "") };
    Item::Positional {
        metavar: Metavar(name),
        help: text_doc(rt, alloc, help),
    }
}

// The names of a flag or an argument, its environment variable and its help.
fn words(sign: char) -> (ShortLong, Option<&'static str>, &'static str) {
    match sign {
        'A' => (ShortLong::Long("n"), Some("V"), "N it"),
        'S' => (ShortLong::Both('s', "speed"), Some("SPEED"), "a number"),
        'a' => (ShortLong::Short('a'), None, "A"),
        'B' => (ShortLong::Short('b'), None, "B"),
        'e' => (ShortLong::Short('e'), Some("V"), "E"),
        'f' => (ShortLong::Short('e'), Some("W"), "E"),
        'x' => (ShortLong::Long("x"), None, "X it"),
        'v' => (ShortLong::Both('v', "verbose"), None, "Talk more"),
        _ if sign.is_ascii() => (ShortLong::Short(sign), None, ""),
        _ => (ShortLong::Short(sign), None, "h"),
    }
}

fn named<A: Allocator + Copy>(rt: &impl Abort, alloc: A, sign: char) -> Item<A> {
    let (name, env, help) = words(sign);
    let shorts = shorts(rt, alloc, name);
    let help = text_doc(rt, alloc, help);
    match sign {
        'A' | 'S' => Item::Argument {
            name,
            shorts,
            metavar: Metavar(if sign == 'A' {
                "N"
            } else {
                "the number of units"
            }),
            env,
            help,
        },
        _ => Item::Flag {
            name,
            shorts,
            env,
            help,
        },
    }
}

// The short name among these.
fn shorts<A: Allocator>(rt: &impl Abort, alloc: A, name: ShortLong) -> Vec<char, A> {
    match name {
        ShortLong::Short(short) | ShortLong::Both(short, _) => {
            Vec::from_slice(alloc, &[short]).expect(rt, "a name")
        }
        ShortLong::Long(_) => Vec::new(alloc),
    }
}

// No document of an empty text.
fn text_doc<A: Allocator + Copy>(rt: &impl Abort, alloc: A, text: &str) -> Option<Doc<A>> {
    if text.is_empty() {
        None
    } else {
        Some(Doc::from_text(alloc, text).expect(rt, "a document"))
    }
}

/// A path of the application's name. `AllocError` says that an allocation failed.
pub fn make_path<L: Allocator + Copy>(alloc: L) -> Result<Vec<String<L>, L>, AllocError> {
    let mut path = Vec::new(alloc);
    path.push(String::from_str(alloc, "app")?)?;
    Ok(path)
}

/// The same, with ample memory.
pub fn path<L: Allocator + Copy>(rt: &impl Abort, alloc: L) -> Vec<String<L>, L> {
    make_path(alloc).expect(rt, "a path")
}
