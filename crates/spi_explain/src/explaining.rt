// What is found of a file's process.

ghost use Rattle.std.specs.Prelude.{◌≡◌, ◌≤◌, ℕ, length, reverse, IfOk};
ghost use Rattle.spi_explain.specs.Findings.{finding_line, AreOrigins};
ghost use Rattle.spi_fault.specs.Faults.{Explains};
ghost use Rattle.spi_origin.specs.Listing.{AreAll};
ghost use Rattle.spi_origin.specs.Origins.{IsOriginIn};
ghost use Rattle.spi_rules.specs.Blocking.{Blocks};
ghost use Rattle.spi_rules.specs.Environment.{untrusted};
ghost use Rattle.spi_scope.specs.Chains.{chain_at};
ghost use Rattle.spi_scope.specs.Places.{place_in};
ghost use Rattle.spi_term.specs.View.{atom as atom_of};

use crate::NoMemory;
use spi_fault::{Fault, Shown, explain};
use spi_infer::infer;
use spi_origin::{blocked, origins};
use spi_report::{no_fault, yes};
use spi_scope::File;
use spi_term::{Atom, Process};
use spi_text::Lines;
use std::alloc::Global;

/// What is found of a file's process.
#[derive(Drop)]
pub struct Explained {
    /// The line that `check` writes on the file, with its LF.
    pub line: Vec<u8>,
    /// Why no typing derivation has the empty effect. None where one has.
    pub fault: Option<Fault>,
    /// The nodes that block, by their numbers, the least first.
    pub blocked: Vec<u32>,
    /// Where the fault shows an atom, the nodes that put it in the effect in which it stands, the least first.
    pub origins: Vec<u32>,
}

// The line of this fault, or of none.
fn line(
    alloc: Global,
    file: &File,
    lines: &Lines<'_>,
    fault: &Option<Fault>,
) -> Result<Vec<u8>, NoMemory>
    requires { (i : ℕ) → (place_in file.now.marks.process.items i).from ≤ length lines.now }
    ensures { IfOk result
        (λ text. text.items ≡ finding_line lines.now (λ i. place_in file.now.marks.process.items i)
        (λ i. reverse (chain_at file.now.marks.scopes i)) fault.now) }
{
    match fault {
        None => yes().to_vec(alloc),
        Some(fault) => no_fault(alloc, file, lines, fault),
    }
}

// The origins of the atom in the effect of a node's process. There is no such node above the last.
fn origins_in(
    alloc: Global,
    process: &Process,
    node: u32,
    atom: &Atom,
) -> Result<Vec<u32>, NoMemory>
    ensures { IfOk result
        (λ v. AreAll (IsOriginIn process.now.names process.now.process node (atom_of atom.now)) v.items) }
{
    if node < process.len() {
        origins(alloc, process, node, atom)
    } else {
        Ok(Vec::new(alloc))
    }
}

// The origins of the atom that the fault shows.
fn shown_origins(
    alloc: Global,
    process: &Process,
    fault: &Option<Fault>,
) -> Result<Vec<u32>, NoMemory>
    ensures { IfOk result (λ v. AreOrigins process.now.names process.now.process fault.now v.items) }
{
    match fault {
        None => Ok(Vec::new(alloc)),
        Some(fault) => match &fault.shown {
            None => Ok(Vec::new(alloc)),
            Some(Shown::Message(_)) => Ok(Vec::new(alloc)),
            Some(Shown::Atom(atom)) => origins_in(alloc, process, fault.scope_of, atom),
        },
    }
}

/// What is found of a file's process. The condition is that its nodes stand in the bytes of the lines.
pub fn explain_file(alloc: Global, file: &File, lines: &Lines<'_>) -> Result<Explained, NoMemory>
    requires { (i : ℕ) → (place_in file.now.marks.process.items i).from ≤ length lines.now }
    ensures line { IfOk result
        (λ r. r.line.items ≡ finding_line lines.now (λ i. place_in file.now.marks.process.items i)
        (λ i. reverse (chain_at file.now.marks.scopes i)) r.fault) }
    ensures fault { IfOk result (λ r. Explains (λ i. reverse (chain_at file.now.marks.scopes i))
        file.now.process.names file.now.process.process r.fault) }
    ensures blocked { IfOk result
        (λ r. AreAll (Blocks (untrusted file.now.process.names) file.now.process.process) r.blocked.items) }
    ensures origins { IfOk result
        (λ r. AreOrigins file.now.process.names file.now.process.process r.fault r.origins.items) }
{
    let inferred = infer(alloc, &file.process)?;
    let fault = explain(alloc, file, &inferred)?;
    let line = line(alloc, file, lines, &fault)?;
    let blocked = blocked(alloc, &file.process)?;
    let origins = shown_origins(alloc, &file.process, &fault)?;
    Ok(Explained {
        line,
        fault,
        blocked,
        origins,
    })
}
