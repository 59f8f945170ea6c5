// Messages in place of names.

ghost use Rattle.std.specs.Prelude.{◌≡◌, ℕ, IfOk, ◌^◌, ◌≤◌, suc, min, map};
ghost use Rattle.spi_term.specs.Substitution.{put, replace, value_for, atom_map, effect_map, ty_map, ty_put};
ghost use Rattle.spi_term.specs.View.{message, ty, atom, effect};

use crate::NoMemory;
use crate::copy::boxed;
use crate::term::{Atom, Effect, Msg, Ty};
use std::alloc::Global;

// One more binder: past 2 ^ 32 no index can name it, so the count stands still there.
fn deeper(depth: u64) -> u64
    requires { depth ≤ 2 ^ 32 }
    ensures limit { result ≤ 2 ^ 32 }
    ensures next { (d : ℕ) → min d (2 ^ 32) ≡ depth → min (suc d) (2 ^ 32) ≡ result }
{
    if depth < 4_294_967_296 {
        depth + 1
    } else {
        depth
    }
}

// The value for the index of the binder at this depth.
fn put_message(alloc: Global, value: &Msg, depth: u64, m: &Msg) -> Result<Msg, NoMemory>
    requires { depth ≤ 2 ^ 32 }
    ensures { IfOk result
        (λ r. (d : ℕ) → min d (2 ^ 32) ≡ depth → message r ≡ put (message value.now) d (message m.now)) }
{
    match m {
        Msg::Bound(i) => {
            if *i as u64 == depth {
                value.copy(alloc)
            } else {
                Ok(Msg::Bound(*i))
            }
        }
        Msg::Name(x) => Ok(Msg::Name(*x)),
        Msg::Unit => Ok(Msg::Unit),
        Msg::Pair(two) => {
            let first = put_message(alloc, value, depth, &two.first)?;
            let second = put_message(alloc, value, depth, &two.second)?;
            Msg::paired(alloc, first, second)
        }
        Msg::Inl(a) => Ok(Msg::Inl(boxed(alloc, put_message(alloc, value, depth, a))?)),
        Msg::Inr(a) => Ok(Msg::Inr(boxed(alloc, put_message(alloc, value, depth, a))?)),
        Msg::Enc(sealed) => {
            let body = put_message(alloc, value, depth, &sealed.body)?;
            let key = put_message(alloc, value, depth, &sealed.key)?;
            Msg::sealed(alloc, body, key)
        }
        Msg::Hash(a) => Ok(Msg::Hash(boxed(alloc, put_message(alloc, value, depth, a))?)),
    }
}

fn put_atom(alloc: Global, value: &Msg, depth: u64, a: &Atom) -> Result<Atom, NoMemory>
    requires { depth ≤ 2 ^ 32 }
    ensures { IfOk result
        (λ r. (d : ℕ) → min d (2 ^ 32) ≡ depth → atom r ≡ atom_map (put (message value.now) d) (atom a.now)) }
{
    match a {
        Atom::End(m) => Ok(Atom::End(put_message(alloc, value, depth, m)?)),
        Atom::Check(m) => Ok(Atom::Check(put_message(alloc, value, depth, m)?)),
        Atom::Many(m) => Ok(Atom::Many(put_message(alloc, value, depth, m)?)),
    }
}

fn put_effect(alloc: Global, value: &Msg, depth: u64, e: &Effect) -> Result<Effect, NoMemory>
    requires { depth ≤ 2 ^ 32 }
    ensures { IfOk result
        (λ r. (d : ℕ) → min d (2 ^ 32) ≡ depth
        → effect r ≡ effect_map (put (message value.now) d) (effect e.now)) }
{
    let mut atoms = Vec::new(alloc);
    for a in &e.atoms {
        atoms.push(put_atom(alloc, value, depth, a)?)?;
    }
    Ok(Effect { atoms })
}

fn put_ty(alloc: Global, value: &Msg, depth: u64, t: &Ty) -> Result<Ty, NoMemory>
    requires { depth ≤ 2 ^ 32 }
    ensures { IfOk result
        (λ r. (d : ℕ) → min d (2 ^ 32) ≡ depth → ty r ≡ ty_map (put (message value.now)) d (ty t.now)) }
{
    match t {
        Ty::Un => Ok(Ty::Un),
        Ty::Unit => Ok(Ty::Unit),
        Ty::Pair(two) => {
            let first = put_ty(alloc, value, depth, &two.first)?;
            let second = put_ty(alloc, value, deeper(depth), &two.second)?;
            Ty::paired(alloc, first, second)
        }
        Ty::Sum(two) => {
            let first = put_ty(alloc, value, depth, &two.first)?;
            let second = put_ty(alloc, value, depth, &two.second)?;
            Ty::summed(alloc, first, second)
        }
        Ty::Key(a) => Ok(Ty::Key(boxed(alloc, put_ty(alloc, value, depth, a))?)),
        Ty::Nonce(e) => Ok(Ty::Nonce(boxed(alloc, put_effect(alloc, value, depth, e))?)),
    }
}

/// `t{x := m}`, where `t` stands under one binder x: each index that leads to that binder
/// becomes `m`. A name of `m` isn't bound by a binder of `t`, since a bound name is an index.
/// Its only error is NoMemory.
pub fn opened(alloc: Global, t: &Ty, m: &Msg) -> Result<Ty, NoMemory>
    ensures { IfOk result (λ r. ty r ≡ ty_put (message m.now) (ty t.now)) }
{
    put_ty(alloc, m, 0, t)
}

// The value for this name, or the name itself where no value is meant for it.
fn value_of_name(alloc: Global, name: u32, from: u32, values: &[Msg]) -> Result<Msg, NoMemory>
    ensures { IfOk result (λ r. message r ≡ value_for from (map message values.now) name) }
{
    if name < from {
        return Ok(Msg::Name(name));
    }
    match values.get((name - from) as usize) {
        Some(value) => value.copy(alloc),
        None => Ok(Msg::Name(name)),
    }
}

/// The message with `values[i]` in place of each `Name(from + i)`, all at once: a name that comes
/// in by a value is left as it is. A name below `from`, or past the last value, stays.
/// Its only error is NoMemory.
pub fn put_in(alloc: Global, m: &Msg, from: u32, values: &[Msg]) -> Result<Msg, NoMemory>
    ensures { IfOk result
        (λ r. message r ≡ replace (value_for from (map message values.now)) (message m.now)) }
{
    match m {
        Msg::Bound(i) => Ok(Msg::Bound(*i)),
        Msg::Name(x) => value_of_name(alloc, *x, from, values),
        Msg::Unit => Ok(Msg::Unit),
        Msg::Pair(two) => {
            let first = put_in(alloc, &two.first, from, values)?;
            let second = put_in(alloc, &two.second, from, values)?;
            Msg::paired(alloc, first, second)
        }
        Msg::Inl(a) => Ok(Msg::Inl(boxed(alloc, put_in(alloc, a, from, values))?)),
        Msg::Inr(a) => Ok(Msg::Inr(boxed(alloc, put_in(alloc, a, from, values))?)),
        Msg::Enc(sealed) => {
            let body = put_in(alloc, &sealed.body, from, values)?;
            let key = put_in(alloc, &sealed.key, from, values)?;
            Msg::sealed(alloc, body, key)
        }
        Msg::Hash(a) => Ok(Msg::Hash(boxed(alloc, put_in(alloc, a, from, values))?)),
    }
}
