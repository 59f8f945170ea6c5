// The roles of a protocol: the top parts of its process.

use crate::NoMemory;
use crate::follow::{Side, Standing};
use spi_scope::File;
use spi_term::{Form, Process};
use std::alloc::Global;

/// The first nodes of the top parts of a process, behind the names that it makes first.
#[derive(Drop)]
pub struct Roles {
    pub starts: Vec<u32>,
}

/// Whose a place is.
#[derive(Clone, Copy, PartialEq, Eq)]
pub enum Role {
    /// All parts, which stand there together.
    All,
    /// A part, by its number.
    Part(usize),
    Opponent,
}

// The form of a node, where the process has it.
fn form_at(process: &Process, node: u32) -> Option<&Form> {
    if node < process.len() {
        Some(&process.node(node).form)
    } else {
        None
    }
}

/// Whether a composition is written as an output with what follows: both stand at the same tokens.
pub fn is_sequence(file: &File, side: Side, node: u32, first: u32) -> bool {
    match side {
        Side::Process => file.process_place(node) == file.process_place(first),
        Side::Opponent => file.opponent_place(node) == file.opponent_place(first),
    }
}

// The node behind the names that the process makes first.
fn behind_names(process: &Process) -> u32 {
    let mut at = 0;
    for _ in 0..process.len() {
        match form_at(process, at) {
            Some(Form::Fresh { body, .. }) => at = *body,
            _ => return at,
        }
    }
    at
}

impl Roles {
    /// The top parts of a file's process.
    pub fn of(alloc: Global, file: &File) -> Result<Roles, NoMemory> {
        let mut starts = Vec::new(alloc);
        let mut at = behind_names(&file.process);
        for _ in 0..file.process.len() {
            match form_at(&file.process, at) {
                Some(Form::Par { first, rest }) if !is_sequence(file, Side::Process, at, *first) =>
                    {
                        starts.push(*first)?;
                        at = *rest;
                    }
                _ => break,
            }
        }
        starts.push(at)?;
        Ok(Roles { starts })
    }

    /// Whose a place is that stands there. Its node is that of the last part that begins at or before it.
    pub fn role(&self, at: Standing) -> Role {
        if at.side == Side::Opponent {
            return Role::Opponent;
        }
        let mut role = Role::All;
        for (number, start) in self.starts.iter().enumerate() {
            if *start <= at.node {
                role = Role::Part(number);
            }
        }
        role
    }
}
