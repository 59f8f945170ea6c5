//! Effects.

ghost use Rattle.std.specs.Prelude.{◌≡◌, ◌+◌, ◌≤◌, [], ◌∷◌, map, IfOk};
ghost use Rattle.spi_tree.specs.Views.{atom_of};
ghost use Rattle.spi_parse.specs.Places.{state_of, effect_form, GivesPart};
ghost use Rattle.spi_parse.specs.Table.{atom, atoms, atoms_item, effect, delta_bracket};
ghost use Rattle.spi_parse.specs.Reading.{read, limited, behind_move, item_of};

use crate::NoMemory;
use crate::cursor::{MESSAGE_LIMIT, Reader, accept, fits, span_from, syntax};
use crate::fault::Stop;
use crate::messages::{Node, any_message, message_of};
use crate::seen::Seen;
use spi_lex::{Mark, Reserved};
use spi_text::Span;
use spi_tree::{Room, SAtom};
use std::alloc::Global;

fn atom<'b>(room: Room<'b>, at: &mut Reader<'_>, node: Node) -> Result<SAtom<'b>, Stop>
    requires { node.nesting ≤ 1001 }
    ensures { GivesPart atom_of result (state_of at.new)
        (read limited (atom node.later node.numbered node.nesting) (state_of at.old)) }
{
    let first = at.first()?;
    let inner = Node {
        nesting: node.nesting + 1,
        ..node
    };
    match first.kind {
        Seen::Reserved(Reserved::End) => {
            fits(node.nesting, MESSAGE_LIMIT, at)?;
            at.advance();
            let label = message_of(room, at, inner)?;
            let span = span_from(first.span, at);
            Ok(SAtom::End { label, span })
        }
        Seen::Reserved(Reserved::Check) => {
            fits(node.nesting, MESSAGE_LIMIT, at)?;
            at.advance();
            let nonce = message_of(room, at, inner)?;
            let span = span_from(first.span, at);
            Ok(SAtom::Check { nonce, span })
        }
        Seen::Reserved(Reserved::Many) => {
            accept(node.later, at)?;
            fits(node.nesting, MESSAGE_LIMIT, at)?;
            at.advance();
            let label = any_message(room, at, inner)?;
            let span = span_from(first.span, at);
            Ok(SAtom::Many { label, span })
        }
        _ => Err(syntax(at)),
    }
}

fn next_atom<'b>(room: Room<'b>, at: &mut Reader<'_>, node: Node) -> Result<Option<SAtom<'b>>, Stop>
    requires { node.nesting ≤ 1001 }
    ensures { GivesPart (item_of atom_of tt) result (state_of at.new)
        (read limited (atoms_item node.later node.numbered node.nesting) (state_of at.old)) }
{
    let first = at.first()?;
    match first.kind {
        Seen::Mark(Mark::Comma) => {
            at.advance();
            let part = atom(room, at, node)?;
            Ok(Some(part))
        }
        Seen::Mark(Mark::BracketClose) => {
            at.advance();
            Ok(None)
        }
        _ => Err(syntax(at)),
    }
}

fn more_atoms<'b>(room: Room<'b>, at: &mut Reader<'_>, node: Node) -> Result<Vec<SAtom<'b>>, Stop>
    requires { node.nesting ≤ 1001 }
    ensures { GivesPart (λ v. (map atom_of v.items, tt)) result (state_of at.new)
        (read limited (atoms node.later node.numbered node.nesting) (state_of at.old)) }
{
    let mut more = Vec::new(room.alloc);
    'items: loop {
        let item = next_atom(room, at, node)?;
        match item {
            Some(part) => more.push(part)?,
            None => return Ok(more),
        }
    }
}

/// An effect whose atoms have this nesting, or 0 where they have none.
pub fn effect<'b>(room: Room<'b>, at: &mut Reader<'_>, node: Node) -> Result<Vec<SAtom<'b>>, Stop>
    requires { node.nesting ≤ 1001 }
    ensures { GivesPart (λ v. map atom_of v.items) result (state_of at.new)
        (read limited (effect node.later node.numbered node.nesting) (state_of at.old)) }
{
    let first = at.first()?;
    match first.kind {
        Seen::Mark(Mark::BracketOpen) => {
            at.advance();
            effect_in_brackets(room, first.span, at, node)
        }
        _ => Err(syntax(at)),
    }
}

fn effect_in_brackets<'b>(
    room: Room<'b>,
    _first: Span,
    at: &mut Reader<'_>,
    node: Node,
) -> Result<Vec<SAtom<'b>>, Stop>
    requires { node.nesting ≤ 1001 }
    ensures { GivesPart (λ v. map atom_of v.items) result (state_of at.new)
        (behind_move limited (read limited)
        (delta_bracket node.later node.numbered node.nesting) (_first ∷ [])
        (state_of at.old)) }
{
    let second = at.first()?;
    match second.kind {
        Seen::Mark(Mark::BracketClose) => {
            at.advance();
            Ok(Vec::new(room.alloc))
        }
        _ => some_atoms(room, at, node),
    }
}

fn some_atoms<'b>(room: Room<'b>, at: &mut Reader<'_>, node: Node) -> Result<Vec<SAtom<'b>>, Stop>
    requires { node.nesting ≤ 1001 }
    ensures { GivesPart (λ v. map atom_of v.items) result (state_of at.new)
        (effect_form node.later node.numbered node.nesting [] (state_of at.old)) }
{
    let first = atom(room, at, node)?;
    let more = more_atoms(room, at, node)?;
    let atoms = put_first(room, first, more)?;
    Ok(atoms)
}

/// The atoms with one before them.
fn put_first<'b>(
    room: Room<'b>,
    first: SAtom<'b>,
    more: Vec<SAtom<'b>>,
) -> Result<Vec<SAtom<'b>>, NoMemory>
    ensures { IfOk result (λ v. v.items ≡ first.entry ∷ more.entry.items) }
{
    let mut more = more;
    more.insert(0, first)?;
    Ok(more)
}
