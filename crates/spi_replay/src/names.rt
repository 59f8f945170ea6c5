// The messages of the names in scope, shared between places.

ghost use Rattle.std.specs.Prelude.{◌≡◌, ◌+◌, ◌<◌, ◌++◌, ◌∷◌, [], length, IfOk, OnErr};
ghost use Rattle.spi_term.specs.Names.{MessageOver};
ghost use Rattle.spi_term.specs.Term as Term;
ghost use Rattle.spi_term.specs.View.{message};
ghost use Rattle.spi_intern.specs.Meaning.{Keeps};
ghost use Rattle.spi_replay.specs.Standing.{HasLink, IsValueAt, HasNames, IsInstance};

use crate::NoMemory;
use spi_intern::{MsgId, MsgPart, Store};
use spi_term::Msg;

/// The message of a bound name, and the link of the name that was bound before it.
#[derive(Clone, Copy)]
pub struct Link {
    pub value: MsgId,
    pub before: usize,
}

/// The names in scope at a node: so many free ones, and so many bound ones with messages, of which `last` links the last.
#[derive(Clone, Copy)]
pub struct Scope {
    pub free: u32,
    pub bound: u32,
    pub last: usize,
}

/// A message for one more name, and its link.
pub fn bind(links: &mut Vec<Link>, value: MsgId, before: usize) -> Result<usize, NoMemory>
    ensures links { IfOk result
        (λ last. links.new.items ≡ links.old.items ++ record { value = value; before = before } ∷ []) }
    ensures last { IfOk result (λ last. last ≡ length links.old.items) }
    ensures same { OnErr result (links.new.items ≡ links.old.items) }
{
    let last = links.len();
    links.push(Link { value, before })?;
    Ok(last)
}

/// The message of the name that was bound `steps` names before that of a link.
pub fn value_at(links: &[Link], last: usize, steps: u32) -> MsgId
    requires { HasLink links.now last steps }
    ensures { IsValueAt links.now last steps result }
{
    let mut at = last;
    let mut left = steps;
    while left > 0 {
        at = links[at].before;
        left -= 1;
    }
    links[at].value
}

// The number of a name's message.
fn named(store: &mut Store, links: &[Link], scope: Scope, x: u32) -> Result<MsgId, NoMemory>
    requires over { x < scope.free + scope.bound }
    requires names { HasNames store.old.messages links.now scope }
    ensures at { IfOk result
        (λ id. IsInstance store.old.messages store.new.messages links.now scope (Term.name x) id) }
    ensures kept { Keeps store.old store.new }
{
    if x < scope.free {
        store.message_over(MsgPart::Name(x))
    } else {
        Ok(value_at(links, scope.last, scope.bound - 1 - (x - scope.free)))
    }
}

/// The number of a message, with the messages for its names.
pub fn instance(store: &mut Store, links: &[Link], scope: Scope, m: &Msg) -> Result<MsgId, NoMemory>
    requires over { MessageOver (scope.free + scope.bound) 0 (message m.now) }
    requires names { HasNames store.old.messages links.now scope }
    ensures at { IfOk result
        (λ id. IsInstance store.old.messages store.new.messages links.now scope (message m.now) id) }
    ensures kept { Keeps store.old store.new }
{
    match m {
        Msg::Bound(i) => store.message_over(MsgPart::Bound(*i)),
        Msg::Name(x) => named(store, links, scope, *x),
        Msg::Unit => store.message_over(MsgPart::Unit),
        Msg::Pair(two) => {
            let first = instance(store, links, scope, &two.first)?;
            let second = instance(store, links, scope, &two.second)?;
            store.message_over(MsgPart::Pair(first, second))
        }
        Msg::Inl(a) => {
            let part = instance(store, links, scope, a)?;
            store.message_over(MsgPart::Inl(part))
        }
        Msg::Inr(a) => {
            let part = instance(store, links, scope, a)?;
            store.message_over(MsgPart::Inr(part))
        }
        Msg::Enc(sealed) => {
            let body = instance(store, links, scope, &sealed.body)?;
            let key = instance(store, links, scope, &sealed.key)?;
            store.message_over(MsgPart::Enc(body, key))
        }
        Msg::Hash(a) => {
            let part = instance(store, links, scope, a)?;
            store.message_over(MsgPart::Hash(part))
        }
    }
}
