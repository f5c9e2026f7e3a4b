//! The lines of a terminal, with the cursor in the last one.

ghost use Rattle.std.specs.Prelude.{◌≡◌, ◌++◌, IfOk, OnOk, encode_utf8, flat_map, is_ok, reverse, string_bytes};
ghost use Rattle.std.specs.Vec.{vec_items};
ghost use Rattle.shown_letters.specs.Terminal as terminal;

use crate::place::Place;
use std::alloc::{AllocError, Allocator};
use std::marker::Model;

/// The letters before the cursor in order, and those from it to the end of its line in reverse.
#[derive(Drop)]
pub struct Screen<A: Allocator> {
    place: Place,
    before: Vec<char, A>,
    after: Vec<char, A>,
}

impl<A: Allocator> Model for Screen<A> {
    ghost Value = { terminal.Screen };

    ghost view = { λ s. record {
      place = s.place;
      before = reverse (vec_items s.before);
      after = reverse (vec_items s.after);
    } };
}

impl<A: Allocator + Copy> Screen<A> {
    /// A screen without letters.
    pub fn new(alloc: A) -> Self
        ensures { result ≡ terminal.blank_screen }
    {
        Screen {
            place: Place::Letters,
            before: Vec::new(alloc),
            after: Vec::new(alloc),
        }
    }
}

impl<A: Allocator> Screen<A> {
    fn is_at_start(&self) -> bool
        ensures { result ≡ terminal.is_at_start self.now.before }
    {
        match self.before.last() {
            None => true,
            Some(letter) => *letter == '\n',
        }
    }

    fn back(&mut self) -> Result<(), AllocError>
        ensures { OnOk result (self.new ≡ terminal.back self.old) }
    {
        if self.is_at_start() {
            return Ok(());
        }
        if let Some(letter) = self.before.pop() {
            self.after.push(letter)?;
        }
        Ok(())
    }

    fn to_start(&mut self) -> Result<(), AllocError>
        ensures { OnOk result (self.new ≡ terminal.to_start self.old) }
    {
        while !self.is_at_start() {
            self.back()?;
        }
        Ok(())
    }

    fn to_end(&mut self) -> Result<(), AllocError>
        ensures { OnOk result (self.new ≡ terminal.to_end self.old) }
    {
        while let Some(letter) = self.after.pop() {
            self.before.push(letter)?;
        }
        Ok(())
    }

    fn put(&mut self, letter: char) -> Result<(), AllocError>
        ensures { OnOk result (self.new ≡ terminal.with_letter letter self.old) }
    {
        self.after.pop();
        self.before.push(letter)?;
        Ok(())
    }

    fn end_line(&mut self) -> Result<(), AllocError>
        ensures { OnOk result (self.new ≡ terminal.with_newline self.old) }
    {
        self.to_end()?;
        self.put('\n')
    }

    fn show(&mut self, character: char) -> Result<(), AllocError>
        ensures { OnOk result (self.new ≡ terminal.with_character self.old character) }
    {
        match character {
            '\n' => self.end_line(),
            '\r' => self.to_start(),
            '\u{8}' => self.back(),
            '\t' => self.put('\t'),
            control if control.is_control() => Ok(()),
            letter => self.put(letter),
        }
    }

    /// Takes the next character of the text.
    pub fn take(&mut self, character: char) -> Result<(), AllocError>
        ensures { OnOk result (self.new ≡ terminal.step self.old character) }
    {
        if self.place.holds(character) {
            self.place = self.place.after(character);
            return Ok(());
        }
        self.place = Place::entered(character);
        self.show(character)
    }
}

impl<A: Allocator + Copy> Screen<A> {
    /// The letters of all lines.
    pub fn into_text(mut self) -> Result<String<A>, AllocError>
        ensures { IfOk result (λ text. string_bytes text ≡ flat_map encode_utf8 (terminal.letters_on self)) }
    {
        self.to_end()?;
        let mut text = String::new(*self.before.allocator());
        for letter in &self.before {
            text.push(*letter)?;
        }
        Ok(text)
    }
}
