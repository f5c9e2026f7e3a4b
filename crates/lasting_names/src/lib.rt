//! Texts that last as long as the program.
#![tactic(auto)]

ghost use Rattle.std.specs.Prelude.{◌≡◌, [], IfOk, OnOk, OnErr};
ghost use Rattle.lasting_names.specs.Kept.{KeepsTheSame, KeepsAlso, EachOnce};

use std::alloc::{AllocError, Allocator, Global};
use std::collections::BTreeSet;
use std::marker::Model;
use std::str;

/// Texts that were asked for, each kept once: an item of a command line holds its names as texts that last as long
/// as the program. So memory grows with the distinct texts that were asked for, and none of it is freed.
#[derive(Drop)]
pub struct Names {
    alloc: Global,
    kept: BTreeSet<&'static str>,
}

/// Contracts see the texts that are kept, each as its bytes.
impl Model for Names {
    ghost use Rattle.std.specs.Prelude.{List, ℕ, map};
    ghost use Rattle.std.specs.BTreeSet.{IsOrdered};
    ghost use Rattle.std.specs.Cmp.Lexicographic.{slice_cmp};
    ghost use Rattle.std.specs.Ordering.{nat_cmp};

    ghost Value = { List (List ℕ) };

    ghost view = { λ n. map (λ k. k.now) n.kept.keys };

    // The keys ascend, as the set itself promises.
    ghost invariant = { λ n. IsOrdered (λ x y. slice_cmp nat_cmp x.now y.now) n.kept };
}

impl Names {
    /// No text yet. It takes no memory.
    pub fn new(alloc: Global) -> Names
        ensures { result ≡ [] }
    {
        Names {
            alloc,
            kept: BTreeSet::new(alloc),
        }
    }

    /// The text as one that lasts: the one that was kept when it was first asked for.
    /// `AllocError` comes where an allocation failed, and then the kept texts are as they were; a copy that was made of
    /// this one is not freed.
    pub fn get(&mut self, text: &str) -> Result<&'static str, AllocError>
        ensures text { IfOk result (λ name. name.now ≡ text.now) }
        ensures ok { OnOk result (KeepsAlso text.now self.old self.new) }
        ensures err { OnErr result (KeepsTheSame self.old self.new) }
        ensures once { EachOnce self.new }
    {
        if let Some(known) = self.kept.get(text) {
            return Ok(*known);
        }
        let name = lasting_copy(self.alloc, text)?;
        self.kept.insert(name)?;
        Ok(name)
    }
}

// A copy of the text that is never freed.
fn lasting_copy<'a, A: Allocator + 'a>(alloc: A, text: &str) -> Result<&'a str, AllocError>
    ensures { IfOk result (λ copy. copy.now ≡ text.now) }
{
    let bytes = Vec::from_slice(alloc, text.as_bytes())?;
    let lasting: &'a mut [u8] = bytes.leak();
    str::from_utf8(&*lasting).map_err(|_| AllocError)
}
