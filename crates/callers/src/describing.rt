//! A command line that describes itself.

use description::{Command, Description, Group, Level, Opt};
use std::alloc::{AllocError, Global};

/// A command line with options, a group and two commands.
pub fn describe(alloc: Global) -> Result<Description<'static>, AllocError> {
    let mut run = Level::new(alloc).about("Runs a thing");
    run.option(Opt::short('n').help("Only say what would be done"))?;
    let mut writing = Group::new(alloc, "Writing");
    writing.option(Opt::long("output").value("FILE").help("Write to this file"))?;
    let mut level = Level::new(alloc).about("Prints things");
    level.option(Opt::flag('v', "verbose").help("Talk more"))?;
    level.group(writing)?;
    level.command(Command::new("run", run).help("Run a thing"))?;
    level.command(Command::new("stop", Level::new(alloc)).short('s'))?;
    Ok(Description::new(alloc, "app", level))
}
