// Messages that a judge gives numbers, with their keys.
ghost use Rattle.std.specs.Prelude.{IfOk, OnOk};
ghost use Rattle.spi_term.specs.View.{message, atom, effect};
ghost use Rattle.spi_message.specs.Judging.{IsKept};
ghost use Rattle.spi_count.specs.Keeping.{with_keys, HaveKeys, AreKept, GrowsTo};
ghost use Rattle.spi_intern.specs.Parts.{message_of};

use crate::NoMemory;
use crate::keys::Keys;
use spi_intern::MsgId;
use spi_message::Judge;
use spi_term::{Atom, Effect, Msg};

/// The number of a message, whose key is kept. An error is want of memory.
pub fn keep_message(judge: &mut Judge, keys: &mut Keys, m: &Msg) -> Result<MsgId, NoMemory>
    requires { AreKept judge.old.store keys.old }
    ensures at { IfOk result (λ id. with_keys judge.new.store keys.new id.place (message m.now)) }
    ensures grows { OnOk result (GrowsTo judge.old.store keys.old judge.new.store keys.new) }
    ensures kept { IsKept judge.old judge.new }
{
    let id = judge.message(m)?;
    keys.keep(id, m)?;
    Ok(id)
}

fn keep_atom(judge: &mut Judge, keys: &mut Keys, a: &Atom) -> Result<MsgId, NoMemory>
    requires { AreKept judge.old.store keys.old }
    ensures at { IfOk result (λ id. with_keys judge.new.store keys.new id.place (message_of (atom a.now))) }
    ensures grows { OnOk result (GrowsTo judge.old.store keys.old judge.new.store keys.new) }
    ensures kept { IsKept judge.old judge.new }
{
    match a {
        Atom::End(m) => keep_message(judge, keys, m),
        Atom::Check(m) => keep_message(judge, keys, m),
        Atom::Many(m) => keep_message(judge, keys, m),
    }
}

/// The keys of an effect's messages are kept. An error is want of memory.
#[tactic(auto, using(spi_message::proofs::Tested::kept_more, spi_message::proofs::Tested::kept_same))]
pub fn keep_atoms(judge: &mut Judge, keys: &mut Keys, e: &Effect) -> Result<(), NoMemory>
    requires { AreKept judge.old.store keys.old }
    ensures at { OnOk result (HaveKeys judge.new.store keys.new (effect e.now)) }
    ensures grows { OnOk result (GrowsTo judge.old.store keys.old judge.new.store keys.new) }
    ensures kept { IsKept judge.old judge.new }
{
    for a in &e.atoms {
        keep_atom(judge, keys, a)?;
    }
    Ok(())
}
