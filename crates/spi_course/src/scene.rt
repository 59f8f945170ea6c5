// What the text of a course is written from.

use crate::NoMemory;
use crate::course::Taken;
use crate::follow::{Follower, Side, Standing};
use crate::naming::{Naming, put, put_message, put_name, put_number};
use crate::source::{Source, binder_at};
use spi_lex::Token;
use spi_run::Step;
use spi_scope::File;
use spi_term::{Form, Msg};
use std::alloc::Global;

/// A file with its text, how far its schedule has come, and what is written of it.
#[derive(Drop)]
pub struct Scene<'f> {
    pub alloc: Global,
    pub file: &'f File,
    pub tokens: &'f [Token],
    pub source: Source<'f>,
    pub names: Naming<'f>,
    pub follower: Follower<'f>,
    pub out: Vec<u8>,
}

impl<'f> Scene<'f> {
    // Where the node of a place begins.
    fn offset(&self, at: Standing) -> u32 {
        match at.side {
            Side::Process => self.file.process_place(at.node).from,
            Side::Opponent => self.file.opponent_place(at.node).from,
        }
    }

    /// Appends a text.
    pub fn put(&mut self, text: &str) -> Result<(), NoMemory> {
        put(&mut self.out, text)
    }

    /// Appends the line and the column of an offset.
    pub fn put_offset(&mut self, offset: u32) -> Result<(), NoMemory> {
        match self.source.place(offset) {
            Some(place) => {
                self.put_number(place.line as u64)?;
                self.put(":")?;
                self.put_number(place.column as u64)
            }
            None => self.put("?"),
        }
    }

    /// Appends the line and the column of the node of a place.
    pub fn put_at(&mut self, at: Standing) -> Result<(), NoMemory> {
        let offset = self.offset(at);
        self.put_offset(offset)
    }

    /// Appends a number.
    pub fn put_number(&mut self, number: u64) -> Result<(), NoMemory> {
        put_number(self.alloc, &mut self.out, number)
    }

    /// Appends a name.
    pub fn put_name(&mut self, x: u32) -> Result<(), NoMemory> {
        put_name(self.alloc, &mut self.out, &self.names, x)
    }

    /// Appends a message without bound names.
    pub fn put_message(&mut self, m: &Msg) -> Result<(), NoMemory> {
        put_message(self.alloc, &mut self.out, &self.names, m)
    }

    /// A message of the node of a place, with the messages of the names in it.
    pub fn instance(&self, at: Standing, m: &Msg) -> Result<Msg, NoMemory> {
        match self.follower.node(at) {
            Some(node) => self.follower.instance(at.last, node.scope, m),
            None => m.copy(self.alloc),
        }
    }

    /// Appends a message of the node of a place.
    pub fn put_said(&mut self, at: Standing, m: &Msg) -> Result<(), NoMemory> {
        let said = self.instance(at, m)?;
        self.put_message(&said)
    }

    /// Appends a word, and a message of the node of a place.
    pub fn put_part(&mut self, word: &str, at: Standing, m: &Msg) -> Result<(), NoMemory> {
        self.put(word)?;
        self.put_said(at, m)
    }

    /// Appends a step as a schedule writes it.
    pub fn put_step(&mut self, step: Step) -> Result<(), NoMemory> {
        match step {
            Step::Act(place) => {
                self.put("act ")?;
                self.put_number(place as u64)
            }
            Step::Talk(from, to) => {
                self.put("talk ")?;
                self.put_number(from as u64)?;
                self.put(" ")?;
                self.put_number(to as u64)
            }
        }
    }

    /// The form that a place holds, where it is there and isn't done.
    pub fn held(&self, place: u32) -> Option<(Standing, &'f Form)> {
        let at = self.follower.standing(place)?;
        match self.follower.node(at) {
            Some(node) => Some((at, &node.form)),
            None => None,
        }
    }

    /// The name that a step made is spelled as its binder.
    pub fn note(&mut self, taken: &Taken) -> Result<(), NoMemory> {
        let Step::Act(place) = taken.step else {
            return Ok(());
        };
        if taken.made.is_none() {
            return Ok(());
        }
        let word = match self.follower.standing(place) {
            Some(at) => binder_at(self.tokens, self.offset(at)),
            None => "",
        };
        self.names.made.push(word)?;
        Ok(())
    }
}
