// The clauses of knowledge at the messages of a store, as rules over their numbers.

ghost use Rattle.std.specs.Prelude.{◌≡◌, ◌++◌, ◌∷◌, [], OnOk, IfOk, length};
ghost use Rattle.spi_know.specs.Numbered.{rule, rules_of_part, ways_of, AreClauses};

use crate::NoMemory;
use spi_horn::Rule;
use spi_intern::{MsgId, MsgPart, Store};
use std::alloc::Global;

/// The clause of knowledge that a rule stands for.
#[derive(Clone, Copy)]
pub enum Way {
    MakePair,
    First,
    Second,
    MakeInl,
    MakeInr,
    TakeInl,
    TakeInr,
    MakeEnc,
    Open,
    MakeHash,
}

/// Rules, and for each the clause that it stands for.
#[derive(Drop)]
pub struct Clauses {
    pub rules: Vec<Rule>,
    pub ways: Vec<Way>,
}

fn add(
    clauses: &mut Clauses,
    first: usize,
    second: usize,
    gives: usize,
    way: Way,
) -> Result<(), NoMemory>
    ensures rules { OnOk result
        (clauses.new.rules.items ≡ clauses.old.rules.items ++ rule first second gives ∷ []) }
    ensures ways { OnOk result (clauses.new.ways.items ≡ clauses.old.ways.items ++ way ∷ []) }
{
    clauses.rules.push(Rule {
        first,
        second,
        gives,
    })?;
    clauses.ways.push(way)?;
    Ok(())
}

fn add_pair(clauses: &mut Clauses, j: usize, a: usize, b: usize) -> Result<(), NoMemory>
    ensures rules { OnOk result
        (clauses.new.rules.items ≡ clauses.old.rules.items ++ rule a b j ∷ rule j j a ∷ rule j j b ∷ []) }
    ensures ways { OnOk result
        (clauses.new.ways.items ≡ clauses.old.ways.items ++ Way.MakePair ∷ Way.First ∷ Way.Second ∷ []) }
{
    add(clauses, a, b, j, Way::MakePair)?;
    add(clauses, j, j, a, Way::First)?;
    add(clauses, j, j, b, Way::Second)
}

fn add_enc(clauses: &mut Clauses, j: usize, a: usize, k: usize) -> Result<(), NoMemory>
    ensures rules { OnOk result
        (clauses.new.rules.items ≡ clauses.old.rules.items ++ rule a k j ∷ rule j k a ∷ []) }
    ensures ways { OnOk result
        (clauses.new.ways.items ≡ clauses.old.ways.items ++ Way.MakeEnc ∷ Way.Open ∷ []) }
{
    add(clauses, a, k, j, Way::MakeEnc)?;
    add(clauses, j, k, a, Way::Open)
}

fn add_one(
    clauses: &mut Clauses,
    j: usize,
    a: usize,
    makes: Way,
    takes: Way,
) -> Result<(), NoMemory>
    ensures rules { OnOk result
        (clauses.new.rules.items ≡ clauses.old.rules.items ++ rule a a j ∷ rule j j a ∷ []) }
    ensures ways { OnOk result (clauses.new.ways.items ≡ clauses.old.ways.items ++ makes ∷ takes ∷ []) }
{
    add(clauses, a, a, j, makes)?;
    add(clauses, j, j, a, takes)
}

// The clauses that make the message with the number j of its parts, and take it apart.
fn add_part(clauses: &mut Clauses, j: usize, part: MsgPart) -> Result<(), NoMemory>
    ensures rules { OnOk result (clauses.new.rules.items ≡ clauses.old.rules.items ++ rules_of_part j part) }
    ensures ways { OnOk result (clauses.new.ways.items ≡ clauses.old.ways.items ++ ways_of part) }
{
    match part {
        MsgPart::Pair(a, b) => add_pair(clauses, j, a.place(), b.place()),
        MsgPart::Inl(a) => add_one(clauses, j, a.place(), Way::MakeInl, Way::TakeInl),
        MsgPart::Inr(a) => add_one(clauses, j, a.place(), Way::MakeInr, Way::TakeInr),
        MsgPart::Enc(a, k) => add_enc(clauses, j, a.place(), k.place()),
        MsgPart::Hash(a) => add(clauses, a.place(), a.place(), j, Way::MakeHash),
        MsgPart::Bound(_) => Ok(()),
        MsgPart::Name(_) => Ok(()),
        MsgPart::Unit => Ok(()),
    }
}

/// The clauses of knowledge at all messages of a store. Their number is linear in that of the messages. The only error
/// is NoMemory.
pub fn clauses_of(alloc: Global, store: &Store) -> Result<Clauses, NoMemory>
    ensures { IfOk result
        (λ clauses. AreClauses store.now.messages (length store.now.messages) clauses.rules.items
        clauses.ways.items) }
{
    let rules = Vec::new(alloc);
    let ways = Vec::new(alloc);
    let mut clauses = Clauses { rules, ways };
    let count = store.message_count();
    for j in 0..count {
        add_part(&mut clauses, j, store.part(MsgId::at(j)))?;
    }
    Ok(clauses)
}
