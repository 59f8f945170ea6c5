// Good types over shared terms.

ghost use Rattle.std.specs.Prelude.{◌≡◌, ◌<◌, length, IfOk, OnOk};
ghost use Rattle.spi_intern.specs.Meaning.{Keeps};
ghost use Rattle.spi_message.specs.Filling.{message_in, AreIdsBelow};
ghost use Rattle.spi_message.specs.Added.{AtomGives, AtomsGive, GoodGives};
ghost use Rattle.spi_message.specs.Asking.{IsEnvironment, IsGoodAtom, IsAskedAtoms, AreGood, IsAskedGood, IsGood};

use crate::NoMemory;
use crate::filling::{filled_message, filled_type, message_of};
use crate::typing::{has_type, is_label};
use spi_intern::{AtomId, MsgId, MsgPart, Store, TyId, TyPart};
use std::alloc::Global;

fn is_good_atom(
    alloc: Global,
    store: &mut Store,
    env: &[TyId],
    a: AtomId,
    values: &[MsgId],
) -> Result<bool, NoMemory>
    requires atom { (message_in a).place < length store.old.messages }
    requires names { IsEnvironment store.old env.now }
    requires values { AreIdsBelow values.now (length store.old.messages) }
    ensures answer { IfOk result (IsGoodAtom store.old env.now a values.now) }
    ensures adds { OnOk result (AtomGives store.old store.new env.now a values.now) }
    ensures kept { Keeps store.old store.new }
{
    let filled = filled_message(store, values, 0, message_of(a))?;
    match a {
        AtomId::End(_) => is_label(alloc, store, env, filled),
        AtomId::Check(_) => {
            let un = store.un()?;
            let mut none = Vec::new(alloc);
            has_type(alloc, store, env, filled, un, &mut none)
        }
        AtomId::Many(_) => is_label(alloc, store, env, filled),
    }
}

fn are_good_atoms(
    alloc: Global,
    store: &mut Store,
    env: &[TyId],
    atoms: &[AtomId],
    values: &[MsgId],
) -> Result<bool, NoMemory>
    requires { IsAskedAtoms store.old env.now atoms.now values.now }
    ensures answer { IfOk result (AreGood store.old env.now atoms.now values.now) }
    ensures adds { OnOk result (AtomsGive store.old store.new env.now atoms.now values.now) }
    ensures kept { Keeps store.old store.new }
{
    for a in atoms {
        if !is_good_atom(alloc, store, env, *a, values)? {
            return Ok(false);
        }
    }
    Ok(true)
}

/// The type is good. The environment stands as before.
pub fn is_good_type(
    alloc: Global,
    store: &mut Store,
    env: &mut Vec<TyId>,
    t: TyId,
    values: &mut Vec<MsgId>,
) -> Result<bool, NoMemory>
    requires { IsAskedGood store.old env.old.items t values.old.items }
    ensures answer { IfOk result (IsGood store.old env.old.items t values.old.items) }
    ensures adds { OnOk result (GoodGives store.old store.new env.old.items t values.old.items) }
    ensures kept { Keeps store.old store.new }
    ensures names { env.new.items ≡ env.old.items }
    ensures values { OnOk result (values.new.items ≡ values.old.items) }
{
    match store.ty_part(t) {
        TyPart::Un => Ok(true),
        TyPart::Unit => Ok(true),
        TyPart::Pair(first, second) => {
            if !is_good_type(alloc, store, env, first, values)? {
                return Ok(false);
            }
            let count = env.len();
            let passed = values.len();
            let name = store.message_over(MsgPart::Name(count as u32))?;
            let outer = filled_type(alloc, store, values, 0, first)?;
            values.push(name)?;
            env.push(outer)?;
            let answer = is_good_type(alloc, store, env, second, values);
            env.truncate(count);
            values.truncate(passed);
            answer
        }
        TyPart::Sum(left, right) => {
            if is_good_type(alloc, store, env, left, values)? {
                is_good_type(alloc, store, env, right, values)
            } else {
                Ok(false)
            }
        }
        TyPart::Key(payload) => is_good_type(alloc, store, env, payload, values),
        TyPart::Nonce(atoms) => {
            let atoms = atoms.to_vec(alloc)?;
            are_good_atoms(alloc, store, env, &atoms, values)
        }
    }
}
