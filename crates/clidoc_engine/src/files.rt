//! Files of pages, and which names they may have.

ghost use Rattle.std.specs.Prelude.{◌≡◌, IfOk, is_ok, map};
ghost use Rattle.file_names.specs.Names.{are_file_names, names_said};
ghost use Rattle.clidoc_engine.specs.Files.{file_said, names_of};

use description_toml::words::Brief;
use file_names::NameFault;
use std::alloc::{AllocError, Allocator, Global};
use std::fmt;
use std::fmt::Display;

/// The name of a file, and the page that it holds.
#[derive(Drop)]
#[derive_where(Debug)]
pub struct PageFile<A: Allocator = Global> {
    pub name: String<A>,
    pub page: String<A>,
}

/// Why files are not written, shown as the line that the program writes on standard error.
#[derive(Clone, Copy, Debug)]
pub struct NoFiles<'f>(pub NameFault<'f>);

impl Display for NoFiles<'_> {
    fn fmt<W: fmt::Write>(&self, f: &mut fmt::Formatter<W>) -> fmt::Result {
        let NoFiles(fault) = self;
        let (name, why) = match fault {
            NameFault::Slash(name) => (*name, "holds a slash"),
            NameFault::Foreign(name) => (
                *name,
                "holds one of \" * : < > ? \\ |, which other systems refuse",
            ),
            NameFault::Dot(name) => (*name, "begins with a dot"),
            NameFault::Dash(name) => (*name, "begins with -"),
            NameFault::Long(name) => (*name, "is over 200 bytes long"),
            NameFault::Device(name) => (*name, "is a device of other systems"),
            NameFault::Index(name) => (*name, "is that of the page of the folder itself"),
            NameFault::Twice(name) => {
                return write!(f, "clidoc: two files have the name {}", Brief(*name));
            }
            NameFault::Alike(one, other) => {
                return write_two(f, *one, *other, "differ in case alone");
            }
            NameFault::Same(one, other) => {
                return write_two(f, *one, *other, "are one to some systems");
            }
        };
        write!(f, "clidoc: file name {} {why}", Brief(name))
    }
}

fn write_two<W: fmt::Write>(
    f: &mut fmt::Formatter<W>,
    one: &str,
    other: &str,
    why: &str,
) -> fmt::Result {
    let (one, other) = (Brief(one), Brief(other));
    write!(f, "clidoc: file names {one} and {other} {why}")
}

/// Refuses files of which one has a name that no file may have, or two have names that some folders take for one. The
/// first that is refused is reported. The names are kept in `alloc`, and what they are compared by in `global`.
/// `AllocError` where an allocation failed.
pub fn check_names<'f, A: Allocator, B: Allocator + Copy>(
    alloc: B,
    global: Global,
    files: &'f [PageFile<A>],
) -> Result<Result<(), NoFiles<'f>>, AllocError>
    ensures { IfOk result (λ judged. is_ok judged ≡ are_file_names (names_of (map file_said files.now))) }
{
    let names = names_of(alloc, files)?;
    match file_names::check_names(alloc, global, names.as_slice())? {
        Ok(()) => Ok(Ok(())),
        Err(fault) => Ok(Err(NoFiles(fault))),
    }
}

fn names_of<'f, A: Allocator, B: Allocator>(
    alloc: B,
    files: &'f [PageFile<A>],
) -> Result<Vec<&'f str, B>, AllocError>
    ensures { IfOk result (λ names. names_said names.items ≡ names_of (map file_said files.now)) }
{
    let mut names = Vec::new(alloc);
    for file in files {
        names.push(file.name.as_str())?;
    }
    Ok(names)
}
