// The canonical text of a process.

ghost use Rattle.std.specs.Prelude.{◌≡◌, ◌≤◌, [], ◌++◌, slice_get, IfOk, OnOk};
ghost use Rattle.spi_term.specs.Term.{process_size};
ghost use Rattle.spi_term.specs.Spelling.{numbered, spelled, HasSmallParts, IsSmall};
ghost use Rattle.spi_term.specs.View.{shape_of};
ghost use Rattle.spi_show.specs.Spells.{spelling};
ghost use Rattle.spi_show.specs.Processes.{alone, process_text};
ghost use Rattle.spi_show.specs.Pieces.{standing, piece, tops, is_output_at, output_in, pieces_at, IsPut};

use crate::NoMemory;
use crate::nodes::put_head;
use crate::pieces::{Piece, Place, push_parts, push_sequel, push_sides};
use crate::spell::Spell;
use spi_term::{Form, Node, Process};

fn is_output(node: &Node) -> bool
    ensures { result ≡ is_output_at (shape_of node.now) }
{
    matches!(&node.form, Form::Send { .. })
}

// There is a node with this number, and it is an output.
fn output_at(process: &Process, nodes: u32, id: u32) -> bool
    requires { nodes ≡ process_size process.now.process }
    ensures { result ≡ output_in (slice_get (spelled process.now.names process.now.process) id) }
{
    if id < nodes {
        is_output(process.node(id))
    } else {
        false
    }
}

// The processes in a node are to be written.
fn put_off(
    spell: &Spell,
    node: &Node,
    at: Place,
    output: bool,
    pending: &mut Vec<Piece>,
) -> Result<(), NoMemory>
    requires small { HasSmallParts (shape_of node.now) }
    requires few { node.now.scope ≤ 300000 }
    ensures { OnOk result
        (tops pending.new.items ≡ pieces_at (spelling spell.now) (standing at) output (shape_of node.now)
        ++ tops pending.old.items) }
{
    match &node.form {
        Form::Send { .. } | Form::Stop => Ok(()),
        Form::Recv { .. }
        | Form::Serve { .. }
        | Form::Split { .. }
        | Form::Select { .. }
        | Form::Decrypt { .. }
        | Form::Check { .. }
        | Form::Begin { .. }
        | Form::End { .. }
        | Form::EndMany { .. }
        | Form::Cast { .. }
        | Form::Fresh { .. } => push_sequel(pending),
        Form::Branch { right, .. } => push_sides(spell, node.scope, right, pending),
        Form::Par { .. } => push_parts(at, output, pending),
    }
}

// A piece is written: of a process the next node, up to the first process in it. It gives the next node.
fn put_piece(
    spell: &Spell,
    process: &Process,
    nodes: u32,
    id: u32,
    x: Piece,
    pending: &mut Vec<Piece>,
    out: &mut Vec<u8>,
) -> Result<u32, NoMemory>
    requires nodes { nodes ≡ process_size process.now.process }
    requires small { IsSmall process.now.names process.now.process }
    ensures { IfOk result
        (λ next. IsPut (spelling spell.now) (spelled process.now.names process.now.process) id next (piece x)
        out.old.items out.new.items (tops pending.old.items) (tops pending.new.items)) }
{
    match x {
        Piece::Bar => out.extend_from_slice(b" | ")?,
        Piece::Semicolon => out.extend_from_slice(b"; ")?,
        Piece::Close => out.extend_from_slice(b")")?,
        Piece::Words(words) => out.extend_from_slice(words.as_slice())?,
        Piece::Process(at) => {
            if id < nodes {
                let output = output_at(process, nodes, id + 1);
                let node = process.node(id);
                put_head(spell, node, at, output, out)?;
                put_off(spell, node, at, output, pending)?;
                return Ok(id + 1);
            }
        }
    }
    Ok(id)
}

// The process in which bound names are numbers, as its nodes have them.
fn put_nodes(
    spell: &Spell,
    process: &Process,
    nodes: u32,
    out: &mut Vec<u8>,
) -> Result<(), NoMemory>
    requires nodes { nodes ≡ process_size process.now.process }
    requires small { IsSmall process.now.names process.now.process }
    ensures { OnOk result
        (out.new.items ≡ out.old.items
        ++ process_text (spelling spell.now) alone process.now.names
        (numbered [] process.now.names process.now.process)) }
{
    let mut pending = Vec::new(spell.alloc);
    pending.push(Piece::Process(Place::Alone))?;
    let mut id = 0;
    while let Some(x) = pending.pop() {
        id = put_piece(spell, process, nodes, id, x, &mut pending, out)?;
    }
    Ok(())
}

/// Appends the canonical text of a process. It goes over the nodes once.
pub fn put_process(spell: &Spell, process: &Process, out: &mut Vec<u8>) -> Result<(), NoMemory>
    ensures { OnOk result
        (out.new.items ≡ out.old.items
        ++ process_text (spelling spell.now) alone process.now.names process.now.process) }
{
    let nodes = process.len();
    put_nodes(spell, process, nodes, out)
}
