//! How much a run reads and writes at most, as the environment may say.

use crate::echoed::Echoed;
use crate::program::Failure;
use crate::room::Room;
use crate::words::columns;
use bumpalo::Bump;
use std::alloc::{AllocError, Allocator, Global};
use std::env::VarError;
use std::fmt::Display;
use std::rt::Env;
use std::{env, fmt};

/// How many bytes of an arena a byte of a text takes at most: the arena keeps what a text has grown out of.
const KEPT_FOR_A_BYTE: usize = 8;

/// How many arenas hold at once what pages say: one the levels, and one a page.
const ARENAS: usize = 2;

/// The bounds of a run.
#[derive(Clone, Copy)]
pub struct Limits {
    /// Of what is read.
    pub input: Limit,
    /// Of what is written, and of what is made to write it.
    pub output: Limit,
}

impl Limits {
    /// Those of which nothing is said.
    pub const USUAL: Limits = Limits {
        input: Limit {
            variable: "CLIDOC_INPUT_MIB",
            mib: 16,
        },
        output: Limit {
            variable: "CLIDOC_OUTPUT_MIB",
            mib: 256,
        },
    };

    /// Those that the environment says, each a number from 1 on; what is none is a failure.
    pub fn said<R: Alloc + Env>(rt: &R, global: Global) -> Result<Limits, Failure> {
        Ok(Limits {
            input: said(rt, global, Limits::USUAL.input)?,
            output: said(rt, global, Limits::USUAL.output)?,
        })
    }

    /// Memory for what pages say.
    pub fn room(self, global: Global) -> Room {
        Room::new(global, self.output.bytes())
    }

    /// An arena for texts, those that are read and the pages. It has room for all that the bounds let through.
    pub fn texts<A: Allocator>(self, alloc: A) -> Bump<A> {
        let texts = Bump::new(alloc);
        texts.set_allocation_limit(Some(self.most_kept()));
        texts
    }

    fn most_kept(self) -> usize {
        let bytes = self.input.bytes().saturating_add(self.output.bytes());
        bytes.saturating_mul(KEPT_FOR_A_BYTE)
    }

    /// Whether there is memory for all that the bounds let a run ask for, so that it was a bound that refused a growth.
    pub fn have_memory<A: Allocator + Copy>(
        self,
        alloc: A,
        global: Global,
        texts: &Bump<A>,
    ) -> bool {
        let said = self.output.bytes().saturating_mul(ARENAS);
        let kept = self.most_kept().saturating_sub(texts.allocated_bytes());
        let said = room_for(global, said);
        let kept = room_for(alloc, kept);
        said.is_ok() && kept.is_ok()
    }
}

fn room_for<A: Allocator>(alloc: A, bytes: usize) -> Result<Vec<u8, A>, AllocError> {
    Vec::with_capacity(alloc, bytes)
}

/// A bound in MiB, and the variable that says another one. It is shown as what is said of more.
#[derive(Clone, Copy)]
pub struct Limit {
    variable: &'static str,
    mib: usize,
}

impl Limit {
    /// How many bytes these are.
    pub fn bytes(self) -> usize {
        self.mib.saturating_mul(1 << 20)
    }
}

impl Display for Limit {
    fn fmt<W: fmt::Write>(&self, f: &mut fmt::Formatter<W>) -> fmt::Result {
        let Limit { variable, mib } = self;
        write!(f, "over {mib} MiB long; {variable} sets the bound")
    }
}

// The limit as the environment says it.
fn said<R: Alloc + Env>(rt: &R, global: Global, usual: Limit) -> Result<Limit, Failure> {
    let said = match env::var(rt, usual.variable) {
        Ok(said) => said,
        Err(VarError::NotPresent) => return Ok(usual),
        Err(VarError::OutOfMemory) => return Err(Failure::Memory),
        Err(_) => return Err(no_number(global, usual.variable, "no text")),
    };
    match columns(said.as_str()) {
        Ok(mib) => Ok(Limit { mib, ..usual }),
        Err(_) => Err(no_number(global, usual.variable, said.as_str())),
    }
}

fn no_number(global: Global, variable: &str, said: &str) -> Failure {
    match format!(in global; "clidoc: {variable} is no number of MiB: {}", Echoed(said)) {
        Ok(line) => Failure::Told(line),
        Err(_) => Failure::Memory,
    }
}
