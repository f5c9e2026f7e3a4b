//! What is reported of a table while it is read.
ghost use Rattle.std.specs.Prelude.{IfErr};
ghost use Rattle.description_toml.specs.Faults.{IsMemory, IsRefusal, Joins, TellsSome};

use super::faults::{DescriptionError, Fault, Faults};
use super::places::{Header, Place, Way, path_through};
use super::twice::Named;
use super::unknown::{Table, Unknown};
use crate::words::{Brief, Quoted};
use keyed::Step;
use std::alloc::{AllocError, Allocator};
use toml::Value;

/// Why something could not be read.
#[derive(Clone, Copy)]
pub enum Refused {
    /// An allocation failed, which says nothing of the table.
    Memory,
    /// What is wrong was reported, or will be reported of a table inside.
    Told,
}

// How many faults are reported.
const MOST: usize = 20;

// What is wrong.
#[derive(Clone, Copy)]
enum Wrong<'a> {
    At {
        key: &'static str,
        after: &'static str,
    },
    Missing(&'static str),
    NoTables {
        key: &'static str,
        is_one: bool,
    },
    Unknown {
        key: &'a str,
        known: &'static [&'static str],
    },
    NoHint(&'a str),
    Lone {
        key: &'static str,
        word: &'a str,
    },
}

/// Reports what is wrong, and where. Each failed allocation goes through it, so that it knows of one at the end.
#[derive(Drop)]
pub struct Teller<'a, A: Allocator> {
    alloc: A,
    // From the top to the table that is read.
    places: Vec<Place<'a>, A>,
    told: Vec<Fault<'a, A>, A>,
    more: usize,
    is_out_of_memory: bool,
}

impl<'a, A: Allocator + Copy> Teller<'a, A> {
    pub fn new(alloc: A) -> Teller<'a, A> {
        Teller {
            alloc,
            places: Vec::new(alloc),
            told: Vec::new(alloc),
            more: 0,
            is_out_of_memory: false,
        }
    }

    pub fn alloc(&self) -> A {
        self.alloc
    }

    /// Says that an allocation failed.
    pub fn out_of_memory(&mut self) -> Refused
        ensures { IsRefusal result }
    {
        self.is_out_of_memory = true;
        Refused::Memory
    }

    /// Goes to the first table of the array at a key. After an error it stays where it was.
    pub fn enter(&mut self, kind: &'static str, items: &'a [Value]) -> Result<(), Refused>
        ensures { IfErr result (λ refused. IsRefusal refused) }
    {
        self.go(Place::Item {
            kind,
            items,
            index: 0,
        })
    }

    /// Goes to the table at a key. After an error it stays where it was.
    pub fn enter_the_only(&mut self, kind: &'static str) -> Result<(), Refused>
        ensures { IfErr result (λ refused. IsRefusal refused) }
    {
        self.go(Place::Only(kind))
    }

    fn go(&mut self, place: Place<'a>) -> Result<(), Refused>
        ensures { IfErr result (λ refused. IsRefusal refused) }
    {
        match self.places.push(place) {
            Ok(_) => Ok(()),
            Err(_) => Err(self.out_of_memory()),
        }
    }

    /// Goes to the next table of the array.
    pub fn go_on(&mut self) {
        if let Some(place) = self.places.last_mut() {
            *place = place.next();
        }
    }

    /// Goes back to the table around.
    pub fn leave(&mut self) {
        self.places.pop();
    }

    /// The list with one more, where both were read. The new one is that of the table where this stands; it then goes
    /// to the next table.
    pub fn joined<T: Drop>(
        &mut self,
        list: Result<Vec<T, A>, Refused>,
        one: Result<T, Refused>,
    ) -> Result<Vec<T, A>, Refused>
        ensures { Joins (λ list. list.items) list one result }
    {
        self.go_on();
        let mut list = list?;
        let one = one?;
        match list.push(one) {
            Ok(_) => Ok(list),
            Err(_) => Err(self.out_of_memory()),
        }
    }

    /// Reports what is wrong with a key.
    pub fn tell(&mut self, key: &'static str, after: &'static str) -> Refused {
        self.say(Wrong::At { key, after })
    }

    /// Reports that a key is missing.
    pub fn tell_missing(&mut self, key: &'static str) -> Refused {
        self.say(Wrong::Missing(key))
    }

    /// Reports that there is no array of tables at a key, but one table or something else.
    pub fn tell_no_tables(&mut self, key: &'static str, is_one: bool) -> Refused {
        self.say(Wrong::NoTables { key, is_one })
    }

    /// Reports a text at a key that takes an array of texts.
    pub fn tell_lone(&mut self, key: &'static str, word: &'a str) -> Refused {
        self.say(Wrong::Lone { key, word })
    }

    /// Reports a key that is not known.
    pub fn tell_unknown(&mut self, key: &'a str, known: &'static [&'static str]) -> Refused {
        self.say(Wrong::Unknown { key, known })
    }

    /// Reports a word that is not one of those of `hint`.
    pub fn tell_no_hint(&mut self, word: &'a str) -> Refused {
        self.say(Wrong::NoHint(word))
    }

    /// Reports a name that stood before, at the end of this path.
    pub fn tell_twice(&mut self, named: Named<'a>, earlier: &[Step<'a>]) -> Refused {
        if self.is_full() {
            return Refused::Told;
        }
        match self.fault_of_twice(named, earlier) {
            Ok(fault) => self.put(fault),
            Err(_) => self.out_of_memory(),
        }
    }

    fn fault_of_twice(
        &self,
        named: Named<'a>,
        earlier: &[Step<'a>],
    ) -> Result<Fault<'a, A>, AllocError> {
        let (way, name) = (Way(&self.places), Brief(named.text));
        let after = is_already(named, earlier);
        Ok(Fault {
            path: self.path_to(named.key)?,
            earlier: copied(self.alloc, earlier)?,
            words: format!(in self.alloc; "{way}{}{name} {after}", named.dashes)?,
        })
    }

    fn say(&mut self, wrong: Wrong<'a>) -> Refused {
        if self.is_full() {
            return Refused::Told;
        }
        match self.fault(wrong) {
            Ok(fault) if self.is_told(&fault.path) => Refused::Told,
            Ok(fault) => self.put(fault),
            Err(_) => self.out_of_memory(),
        }
    }

    fn fault(&self, wrong: Wrong<'a>) -> Result<Fault<'a, A>, AllocError> {
        Ok(Fault {
            path: self.path_of(wrong)?,
            earlier: Vec::new(self.alloc),
            words: self.words_of(wrong)?,
        })
    }

    fn path_of(&self, wrong: Wrong<'a>) -> Result<Vec<Step<'a>, A>, AllocError> {
        match wrong {
            Wrong::Missing(_) => path_through(self.alloc, &self.places),
            Wrong::At { key, .. } => self.path_to(key),
            Wrong::NoTables { key, .. } => self.path_to(key),
            Wrong::Unknown { key, .. } => self.path_to(key),
            Wrong::Lone { key, .. } => self.path_to(key),
            Wrong::NoHint(_) => self.path_to("hint"),
        }
    }

    fn words_of(&self, wrong: Wrong<'a>) -> Result<String<A>, AllocError> {
        let way = Way(&self.places);
        match wrong {
            Wrong::At { key, after } => format!(in self.alloc; "{way}{key}{after}"),
            Wrong::Missing(key) => format!(in self.alloc; "{way}{key} is missing"),
            Wrong::NoTables { key, is_one: true } => {
                let header = Header(&self.places, key);
                format!(in self.alloc; "{way}{key} is no array of tables; write [[{header}]]")
            }
            Wrong::NoTables { key, is_one: false } => {
                format!(in self.alloc; "{way}{key} is no array of tables")
            }
            Wrong::Unknown { key, known } => {
                let unknown = Unknown::key(self.alloc, key, known, self.kind_of_table())?;
                format!(in self.alloc; "{way}{unknown}")
            }
            Wrong::NoHint(word) => {
                let unknown = Unknown::hint(self.alloc, word)?;
                format!(in self.alloc; "{way}{unknown}")
            }
            Wrong::Lone { key, word } => {
                let word = Quoted(word);
                format!(in self.alloc; "{way}{key} is no array of texts; write {key} = [{word}]")
            }
        }
    }

    // Where this stands. Of what has no key only the name of the top is missing at the top.
    fn kind_of_table(&self) -> Table {
        if self.places.is_empty() {
            Table::Top
        } else if self.told.iter().any(|fault| fault.path.is_empty()) {
            Table::BelowNoName
        } else {
            Table::Below
        }
    }

    /// The path to a key of the table where this stands.
    pub fn path_to(&self, key: &'a str) -> Result<Vec<Step<'a>, A>, AllocError> {
        let mut path = path_through(self.alloc, &self.places)?;
        path.push(Step::Key(key))?;
        Ok(path)
    }

    // Whether a fault that comes now is only counted. Then it is.
    fn is_full(&mut self) -> bool {
        let is_full = self.told.len() >= MOST;
        if is_full {
            self.more = self.more.saturating_add(1);
        }
        is_full
    }

    fn put(&mut self, fault: Fault<'a, A>) -> Refused {
        match self.told.push(fault) {
            Ok(_) => Refused::Told,
            Err(_) => self.out_of_memory(),
        }
    }

    // One fault is reported for a key, besides those of names that stand twice.
    fn is_told(&self, path: &[Step<'a>]) -> bool {
        let leads_to_a_key = matches!(path.last(), Some(Step::Key(_)));
        leads_to_a_key && self.told.iter().any(|fault| is_of(fault, path))
    }

    // Only tests show that some fault of each refused table is reported. Where none was, this one is.
    fn tell_the_whole(&mut self) {
        match String::from_str(self.alloc, "the table is no description") {
            Ok(words) => self.put(Fault {
                path: Vec::new(self.alloc),
                earlier: Vec::new(self.alloc),
                words,
            }),
            Err(_) => self.out_of_memory(),
        };
    }

    /// The error that reports all, where the whole could not be read.
    pub fn error(self, refused: Refused) -> DescriptionError<'a, A>
        ensures memory { ¬ IsMemory result → ¬ IsRefusal refused }
        ensures told { TellsSome result }
    {
        let mut teller = self;
        if teller.told.is_empty() {
            teller.tell_the_whole();
        }
        let Teller {
            told,
            more,
            is_out_of_memory,
            ..
        } = teller;
        match refused {
            Refused::Told if !(is_out_of_memory || told.is_empty()) => {
                DescriptionError::Content(Faults { told, more })
            }
            _ => DescriptionError::Memory(AllocError),
        }
    }
}

fn is_of<A: Allocator>(fault: &Fault<'_, A>, path: &[Step<'_>]) -> bool {
    fault.earlier.is_empty() && fault.path.iter().eq(path.iter())
}

// What is said of a name that stands twice.
fn is_already(named: Named<'_>, earlier: &[Step<'_>]) -> &'static str {
    if !named.dashes.is_empty() {
        return "is an option already";
    }
    match earlier.last() {
        Some(Step::Key("name")) => "is a command already",
        _ => "is a name of a command already",
    }
}

fn copied<'a, A: Allocator>(alloc: A, path: &[Step<'a>]) -> Result<Vec<Step<'a>, A>, AllocError> {
    let mut copy = Vec::new(alloc);
    for step in path {
        copy.push(*step)?;
    }
    Ok(copy)
}
