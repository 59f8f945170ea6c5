// Places.

ghost use Rattle.std.specs.Prelude.{◌+◌, IfOk};
ghost use Rattle.spi_term.specs.Names.{MessageOver};
ghost use Rattle.spi_term.specs.View.{message, shape_of};
ghost use Rattle.spi_intern.specs.Meaning.{Keeps};
ghost use Rattle.spi_replay.specs.Moves.{move_of};
ghost use Rattle.spi_intern.specs.Table.{KeepsAll, AllDiffer};
ghost use Rattle.spi_replay.specs.Standing.{HasNames, IsInstance, WaitsFor, AreBelow, CanEnter, HasEntered, CanBind, HasBound, CanBindTwo, HasBoundTwo};

use crate::NoMemory;
use crate::names::{Link, Scope, bind, instance};
use crate::operands::{Operands, joint_wait, lone_wait, operands_of};
use crate::waits::Wait;
use spi_intern::{MsgId, Store};
use spi_term::{Msg, Node, Process};

/// A place: a node of a process, the link of the name bound last above it, and what it waits for. A place that is done
/// holds `stop`.
#[derive(Clone, Copy)]
pub struct Place<'p> {
    pub source: &'p Process,
    pub node: u32,
    pub bound: u32,
    pub last: usize,
    pub done: bool,
    pub wait: Wait,
}

// The numbers of two messages, with the messages for their names.
fn instances(
    store: &mut Store,
    links: &[Link],
    scope: Scope,
    first: &Msg,
    second: &Msg,
) -> Result<(MsgId, MsgId), NoMemory>
    requires first { MessageOver (scope.free + scope.bound) 0 (message first.now) }
    requires second { MessageOver (scope.free + scope.bound) 0 (message second.now) }
    requires names { HasNames store.old.messages links.now scope }
    ensures first { IfOk result
        (λ p. IsInstance store.old.messages store.new.messages links.now scope (message first.now) p.0) }
    ensures second { IfOk result
        (λ p. IsInstance store.old.messages store.new.messages links.now scope (message second.now) p.1) }
    ensures differ { IfOk result (λ _. AllDiffer store.new.messages) }
    ensures kept { Keeps store.old store.new }
{
    let id = instance(store, links, scope, first)?;
    let other = instance(store, links, scope, second)?;
    // The count is asked for what its answer says: no message has two numbers.
    let _ = store.distinct();
    Ok((id, other))
}

// What a node waits for, with messages for the names in scope.
fn wait_at(store: &mut Store, links: &[Link], scope: Scope, node: &Node) -> Result<Wait, NoMemory>
    requires below { AreBelow (scope.free + scope.bound) (shape_of node.now) }
    requires names { HasNames store.old.messages links.now scope }
    ensures at { IfOk result
        (λ w. WaitsFor store.old.messages store.new.messages links.now scope
        (λ f. move_of f (shape_of node.now)) w) }
    ensures kept { Keeps store.old store.new }
{
    match operands_of(node) {
        Operands::Stays => Ok(Wait::Stays),
        Operands::Freshes(body) => Ok(Wait::Freshes(body)),
        Operands::Forks(first, rest) => Ok(Wait::Forks(first, rest)),
        Operands::One(m, lone) => {
            let id = instance(store, links, scope, m)?;
            Ok(lone_wait(lone, id, store.part(id)))
        }
        Operands::Two(m, other, joint) => {
            let (id, second) = instances(store, links, scope, m, other)?;
            Ok(joint_wait(joint, id, store.part(id), second))
        }
    }
}

/// The place at a node of a process, with messages for the names bound above it.
pub fn entered<'p>(
    store: &mut Store,
    links: &[Link],
    source: &'p Process,
    node: u32,
    last: usize,
) -> Result<Place<'p>, NoMemory>
    requires { CanEnter store.old.messages links.now source.now node last }
    ensures at { IfOk result
        (λ p. HasEntered store.old.messages store.new.messages links.now source.now node last p) }
    ensures kept { Keeps store.old store.new }
{
    let at = source.node(node);
    let free = source.names();
    let bound = at.scope - free;
    let scope = Scope { free, bound, last };
    let wait = wait_at(store, links, scope, at)?;
    Ok(Place {
        source,
        node,
        bound,
        last,
        done: false,
        wait,
    })
}

/// The place at a node below a name that is bound to a message.
pub fn entered_with<'p>(
    store: &mut Store,
    links: &mut Vec<Link>,
    source: &'p Process,
    node: u32,
    last: usize,
    value: MsgId,
) -> Result<Place<'p>, NoMemory>
    requires { CanBind store.old.messages links.old.items source.now node last value }
    ensures at { IfOk result
        (λ p. HasBound store.old.messages store.new.messages links.old.items links.new.items source.now node
        last value p) }
    ensures kept { Keeps store.old store.new }
    ensures links { KeepsAll links.old.items links.new.items }
{
    let before = bind(links, value, last)?;
    entered(store, links, source, node, before)
}

/// The place at a node below two names that are bound to messages.
pub fn entered_with_two<'p>(
    store: &mut Store,
    links: &mut Vec<Link>,
    source: &'p Process,
    node: u32,
    last: usize,
    first: MsgId,
    second: MsgId,
) -> Result<Place<'p>, NoMemory>
    requires { CanBindTwo store.old.messages links.old.items source.now node last first second }
    ensures at { IfOk result
        (λ p. HasBoundTwo store.old.messages store.new.messages links.old.items links.new.items source.now
        node last first second p) }
    ensures kept { Keeps store.old store.new }
    ensures links { KeepsAll links.old.items links.new.items }
{
    let before = bind(links, first, last)?;
    entered_with(store, links, source, node, before, second)
}
