// Whether a message is known, and how.

ghost use Rattle.std.specs.Prelude.{◌≡◌, ◌+◌, ◌<◌, ◌≤◌, ◌^◌, ◌-◌, ℕ, List, [], IfOk, OnOk, length, map};
ghost use Rattle.spi_term.specs.Term.{Message, message_size};
ghost use Rattle.spi_term.specs.View.{message};
ghost use Rattle.spi_horn.specs.Leading.{IsOrder, IsPlacedAt, StartsWithin};
ghost use Rattle.spi_know.specs.Cert.{Certifies, AllUsed};
ghost use Rattle.spi_know.specs.Numbered.{HasNumber, AreClauses, AreFirstNumbers, StartsWith, nodes_in};
ghost use Rattle.spi_know.specs.Knowledge.{Decides, DecidesNumber};

use crate::NoMemory;
use crate::cert::{Cert, CertLine};
use crate::clauses::{Way, clauses_of};
use crate::spelling::spell;
use spi_horn::{Closure, Rule, close, trace};
use spi_intern::Store;
use spi_term::Msg;
use std::alloc::Global;

/// Whether a message is known: it is, with a certificate, or it isn't.
#[derive(Drop)]
pub enum Knowledge {
    Known(Cert),
    Unknown,
}

// The numbers of the messages sent.
fn number_sent(alloc: Global, store: &mut Store, sent: &[Msg]) -> Result<Vec<usize>, NoMemory>
    requires { store.old.messages ≡ [] }
    ensures numbers { IfOk result
        (λ start. AreFirstNumbers store.new.messages (map message sent.now) (length sent.now) start.items) }
    ensures few { OnOk result (length store.new.messages ≤ nodes_in (map message sent.now)) }
{
    let mut start = Vec::new(alloc);
    for m in sent {
        let id = store.message(m)?;
        start.push(id.place())?;
    }
    Ok(start)
}

// The numbers of the messages sent, and then that of unit.
fn number_all(alloc: Global, store: &mut Store, sent: &[Msg]) -> Result<Vec<usize>, NoMemory>
    requires { store.old.messages ≡ [] }
    ensures starts { IfOk result (λ start. StartsWith store.new.messages (map message sent.now) start.items) }
    ensures few { OnOk result (length store.new.messages ≤ nodes_in (map message sent.now) + 1) }
{
    let mut start = number_sent(alloc, store, sent)?;
    let unit = store.message(&Msg::Unit)?;
    start.push(unit.place())?;
    Ok(start)
}

// The certificate for the number at a place of the closure.
fn certify(
    alloc: Global,
    store: &Store,
    sent: u32,
    rules: &[Rule],
    ways: &[Way],
    closure: &Closure,
    place: usize,
) -> Result<Vec<CertLine>, NoMemory>
    requires clauses { AreClauses store.now.messages (length store.now.messages) rules.now ways.now }
    requires within { place < length closure.now.order.items }
    requires order { (start : List ℕ)
        × IsOrder rules.now start closure.now.order.items closure.now.places.items
        × StartsWithin (length store.now.messages) start }
    requires few { length closure.now.order.items < 2 ^ 32 }
    ensures { IfOk result
        (λ cert. (start : List ℕ) (from : List Message) (target : ℕ) (m : Message)
        → IsOrder rules.now start closure.now.order.items closure.now.places.items
        → StartsWith store.now.messages from start → length from ≡ sent
        → IsPlacedAt closure.now.places.items target place → HasNumber store.now.messages target m
        → Certifies from cert.items m × AllUsed cert.items) }
{
    let lines = trace(alloc, rules, closure, place)?;
    let cert = spell(alloc, store, sent, ways, &lines)?;
    Ok(cert)
}

// Whether the message with a number is known by these clauses, where so many were sent.
fn decide_by(
    alloc: Global,
    store: &Store,
    sent: u32,
    rules: &[Rule],
    ways: &[Way],
    start: &[usize],
    target: usize,
) -> Result<Knowledge, NoMemory>
    requires clauses { AreClauses store.now.messages (length store.now.messages) rules.now ways.now }
    requires start { StartsWithin (length store.now.messages) start.now }
    requires target { target < length store.now.messages }
    requires few { length store.now.messages < 2 ^ 32 }
    ensures { IfOk result (DecidesNumber store.now.messages start.now sent target) }
{
    let count = store.message_count();
    let closure = close(alloc, rules, start, count)?;
    match closure.places[target] {
        None => Ok(Knowledge::Unknown),
        Some(place) => {
            let lines = certify(alloc, store, sent, rules, ways, &closure, place)?;
            Ok(Knowledge::Known(Cert { lines }))
        }
    }
}

// Whether the message with a number is known, where so many were sent.
fn decide_numbers(
    alloc: Global,
    store: &Store,
    sent: u32,
    start: &[usize],
    target: usize,
) -> Result<Knowledge, NoMemory>
    requires start { StartsWithin (length store.now.messages) start.now }
    requires target { target < length store.now.messages }
    requires few { length store.now.messages < 2 ^ 32 }
    ensures { IfOk result (DecidesNumber store.now.messages start.now sent target) }
{
    let clauses = clauses_of(alloc, store)?;
    let knowledge = decide_by(
        alloc,
        store,
        sent,
        &clauses.rules,
        &clauses.ways,
        start,
        target,
    )?;
    Ok(knowledge)
}

/// Whether the target is known from the messages sent: `Unknown` exactly where it isn't, and else a certificate that
/// `check_cert` accepts, each line of which but the last is used by a later one. Which certificate is free. All messages
/// together have fewer than 4,294,967,294 nodes. The time is linear in these, and in the nodes of the certificate. The
/// only error is NoMemory.
pub fn decide(alloc: Global, sent: &[Msg], target: &Msg) -> Result<Knowledge, NoMemory>
    requires { nodes_in (map message sent.now) + message_size (message target.now) < 2 ^ 32 - 2 }
    ensures { IfOk result (Decides (map message sent.now) (message target.now)) }
{
    let mut store = Store::new(alloc);
    let start = number_all(alloc, &mut store, sent)?;
    let id = store.message(target)?;
    let count = sent.len() as u32;
    let knowledge = decide_numbers(alloc, &store, count, &start, id.place())?;
    Ok(knowledge)
}
