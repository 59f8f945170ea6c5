//! The nodes of a process in preorder.

ghost use Rattle.std.specs.Prelude.{◌≡◌, ◌+◌, ◌<◌, [], ◌∷◌, ◌++◌, map, length, IfOk, IfErr, OnOk, slice_set};
ghost use Rattle.spi_term.specs.declared.term.Form.TheVariants.{Par};
ghost use Rattle.spi_term.specs.View.{shape_of_form, shape_of};
ghost use Rattle.spi_scope.specs.declared.fault.ScopeFault.TheVariants.{NoMemory as OutOfMemory};

use crate::NoMemory;
use crate::fault::ScopeFault;
use crate::scope::Scope;
use spi_term::{Form, Node};
use spi_text::Span;
use std::alloc::AllocError;
use std::mem::replace;

/// Nodes in preorder, and where they stand.
#[derive(Drop)]
pub struct Arena {
    pub nodes: Vec<Node>,
    pub places: Vec<Span>,
}

/// The place of the next node. There is no room for 2 ^ 32 nodes, and so many don't come: each node begins with a token of its
/// own, and a file has at most 16,777,216 bytes.
pub fn here(arena: &Arena) -> Result<u32, NoMemory>
    ensures { IfOk result (λ n. (n ≡ length arena.now.nodes.items) × (n < 4294967290)) }
{
    if arena.nodes.len() >= 4_294_967_290 {
        return Err(AllocError);
    }
    Ok(arena.nodes.len() as u32)
}

/// One more node, with the names in scope there.
#[inline(always)]
pub fn push(
    scope: &mut Scope,
    arena: &mut Arena,
    base: u32,
    form: Form,
    place: Span,
) -> Result<(), ScopeFault>
    ensures nodes { OnOk result
        (map shape_of arena.new.nodes.items
        ≡ map shape_of arena.old.nodes.items ++ shape_of_form base form ∷ []) }
    ensures len { OnOk result (length arena.new.nodes.items ≡ length arena.old.nodes.items + 1) }
    ensures places { OnOk result (arena.new.places.items ≡ arena.old.places.items ++ place ∷ []) }
    ensures names { OnOk result (scope.new.held.names ≡ scope.old.held.names) }
    ensures noted { OnOk result (scope.new.held.noted ≡ scope.old.held.noted ++ scope.old.held.names ∷ []) }
    ensures types { OnOk result (scope.new.types ≡ scope.old.types) }
    ensures count { OnOk result (scope.new.count ≡ scope.old.count) }
    ensures err { IfErr result (λ e. e ≡ OutOfMemory) }
{
    arena.nodes.push(Node { scope: base, form })?;
    arena.places.push(place)?;
    scope.held.note()?;
    Ok(())
}

/// The place's old value is dropped.
pub fn put<T: Drop>(place: &mut T, value: T)
    ensures { place.new ≡ value }
{
    drop(replace(place, value));
}

/// The node of a composition is written when the place of its second process is known.
pub fn close(arena: &mut Arena, at: usize, base: u32, form: Form)
    requires { at < length arena.old.nodes.items }
    ensures nodes { map shape_of arena.new.nodes.items
        ≡ slice_set (map shape_of arena.old.nodes.items) at (shape_of_form base form) }
    ensures places { arena.new.places ≡ arena.old.places }
    ensures len { length arena.new.nodes.items ≡ length arena.old.nodes.items }
{
    put(&mut arena.nodes[at], Node { scope: base, form });
}

/// The node of a composition is written when the place of its second process is known.
pub fn close_pair(arena: &mut Arena, at: usize, base: u32, first: u32, rest: u32)
    requires { at < length arena.old.nodes.items }
    ensures nodes { map shape_of arena.new.nodes.items
        ≡ slice_set (map shape_of arena.old.nodes.items) at (shape_of_form base (Par first rest)) }
    ensures places { arena.new.places ≡ arena.old.places }
    ensures len { length arena.new.nodes.items ≡ length arena.old.nodes.items }
{
    write_pair(&mut arena.nodes[at], base, first, rest);
}

/// The node is a composition from now on.
#[inline(always)]
fn write_pair(node: &mut Node, base: u32, first: u32, rest: u32)
    ensures { shape_of node.new ≡ shape_of_form base (Par first rest) }
{
    node.scope = base;
    match &mut node.form {
        Form::Par {
            first: left,
            rest: right,
        } => {
            *left = first;
            *right = rest;
        }
        form => put(form, Form::Par { first, rest }),
    }
}
