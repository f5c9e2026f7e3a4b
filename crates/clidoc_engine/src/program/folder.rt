//! Pages as files of a folder that others may write into too. No clause can say what a folder then holds.

use crate::beside::{is_beside, name_beside};
use crate::echoed::Echoed;
use crate::files::PageFile;
use crate::program::{Failure, Reason};
use std::alloc::{Allocator, Global};
use std::fs::{Metadata, OpenFile, OpenOptions, Permissions};
use std::io::{ErrorKind, Write};
use std::os::unix::fs::{MetadataExt, OpenOptionsExt, PermissionsExt};
use std::random::RandomSource;
use std::rt::{Env, Files};
use std::{env, fs, io};

/// How many names beside a place are tried.
const TRIES: u32 = 8;

/// How many files that earlier runs have left are reported.
const MOST_TOLD: u32 = 8;

/// The bits of a file's mode that say who may read, write and run it. The bits
/// beside these would have it run as its owner.
const MODE: u32 = 0o777;

/// Goes into the folder, and so holds it: what is put in its place from here on is not written into. Refuses a folder
/// that is not there.
pub fn enter<R: Env>(rt: &R, global: Global, folder: &str) -> Result<(), Failure> {
    let Err(error) = env::set_current_dir(rt, folder) else {
        return Ok(());
    };
    let name = String::from_str(global, folder)?;
    match error.kind() {
        ErrorKind::NotADirectory => Err(Failure::NoFolder(name)),
        kind => Err(Failure::NotOpened {
            name,
            reason: reason_of(kind),
        }),
    }
}

// Why a folder is not gone into.
fn reason_of(kind: ErrorKind) -> Reason {
    match kind {
        ErrorKind::NotFound => Reason::NoFolder,
        _ => Reason::Other(kind),
    }
}

/// Says how many files were written into the folder, and which of them, the last, leads to all that the others hold.
pub fn tell_written<R: Eprint, A: Allocator>(rt: &R, folder: &str, files: &[PageFile<A>]) {
    let (count, inside) = (files.len(), Echoed(folder.trim_end_matches('/')));
    let _ = match files.last() {
        Some(page) => {
            let (folder, name) = (Echoed(folder), Echoed(page.name.as_str()));
            eprintln!(rt; "clidoc: wrote {count} files to {folder}; see {inside}/{name}")
        }
        None => Ok(()),
    };
}

/// Says which files runs that were stopped have left in the folder that was entered, some at least, as far as it can be
/// read.
pub fn tell_left<R: Alloc + Files + Eprint>(rt: &R, folder: &str) {
    let Ok(entries) = fs::read_dir(&rt, ".") else {
        return;
    };
    let mut told = 0;
    for entry in entries {
        if let Ok(entry) = entry {
            if told < MOST_TOLD && is_beside(entry.file_name()) {
                told += 1;
                let (folder, name) = (Echoed(folder), Echoed(entry.file_name()));
                let _ = eprintln!(rt;
                    "clidoc: {folder}/{name} is of a run that was stopped or goes on"
                );
            }
        }
    }
}

/// Writes each page beside its place in the folder that was entered, and renames it there, so that no page of before is
/// lost for a part of a new one. All are kept when the machine stops, as far as the system says so. Where a file fails,
/// nothing is left beside its place; the files before it stay where they are, and are kept.
pub fn write_files<R: Files + RandomSource, A: Allocator>(
    rt: &R,
    global: Global,
    folder: &str,
    files: &[PageFile<A>],
) -> Result<(), Failure> {
    let written = write_each(rt, global, folder, files);
    let kept = keep_folder(rt);
    written?;
    match kept {
        Ok(()) => Ok(()),
        Err(error) => Err(not_written(String::from_str(global, folder)?, error)),
    }
}

fn write_each<R: Files + RandomSource, A: Allocator>(
    rt: &R,
    global: Global,
    folder: &str,
    files: &[PageFile<A>],
) -> Result<(), Failure> {
    for file in files {
        if let Err(error) = write_file(rt, global, &file.name, &file.page) {
            let place = format!(in global; "{folder}/{}", file.name)?;
            return Err(not_written(place, error));
        }
    }
    Ok(())
}

fn not_written(name: String, error: io::Error) -> Failure {
    match error.kind() {
        ErrorKind::OutOfMemory => Failure::Memory,
        kind => Failure::NotWritten {
            name,
            reason: reason_of(kind),
        },
    }
}

fn write_file<R: Files + RandomSource>(
    rt: &R,
    global: Global,
    place: &str,
    page: &str,
) -> io::Result<()> {
    let before = file_before(rt, place);
    let (beside, file) = create_beside(rt, global, place, &options(&before))?;
    let written = fill(file, page, &before).and_then(|()| fs::rename(rt, &beside, place));
    if written.is_err() {
        let _ = fs::remove_file(rt, &beside);
    }
    written
}

// The file that stands in the place, which is to be replaced. What a link leads to is none.
fn file_before<R: Files>(rt: &R, place: &str) -> Option<Metadata> {
    let found = fs::symlink_metadata(rt, place).ok()?;
    found.is_file().then_some(found)
}

// A file that nobody had, with the mode of the one before: nothing that stands there is opened, and no link followed.
fn options(before: &Option<Metadata>) -> OpenOptions {
    let mut options = OpenOptions::new();
    options.write(true).create_new(true);
    if let Some(found) = before {
        options.mode(found.mode() & MODE);
    }
    options
}

// Creates a file beside the place, under a name that cannot be foreseen, and that no other run has.
fn create_beside<R: Files + RandomSource>(
    rt: &R,
    global: Global,
    place: &str,
    options: &OpenOptions,
) -> io::Result<(String, R::File)> {
    for _ in 0..TRIES {
        let mut drawn = [0; 4];
        rt.fill_bytes(&mut drawn)?;
        let beside = name_beside(global, place, drawn)?;
        match options.open(rt, &beside) {
            Ok(file) => return Ok((beside, file)),
            Err(error) if error.kind() == ErrorKind::AlreadyExists => {}
            Err(error) => return Err(error),
        }
    }
    Err(ErrorKind::AlreadyExists.into())
}

// Writes the page, and waits until it is kept. Its file has the mode of the one before, where both have the same owner
// and group; else what the system left of that.
fn fill<F: Write + OpenFile + Drop>(
    mut file: F,
    page: &str,
    before: &Option<Metadata>,
) -> io::Result<()> {
    if let Some(found) = before {
        let made = file.metadata()?;
        if made.uid() == found.uid() && made.gid() == found.gid() {
            file.set_permissions(Permissions::from_mode(found.mode() & MODE))?;
        }
    }
    file.write_all(page.as_bytes())?;
    file.sync_all()
}

// Waits until the names in the folder are kept. There are folders that cannot be opened, and that know no such wait.
fn keep_folder<R: Files>(rt: &R) -> io::Result<()> {
    let Ok(folder) = fs::open(rt, ".") else {
        return Ok(());
    };
    match folder.sync_all() {
        Err(error) if is_unknown(error) => Ok(()),
        outcome => outcome,
    }
}

fn is_unknown(error: io::Error) -> bool {
    matches!(
        error.kind(),
        ErrorKind::InvalidInput | ErrorKind::Unsupported
    )
}
