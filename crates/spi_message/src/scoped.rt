// The tests that decide the judgements, over an environment in two lists: the names of a caller, and after them
// those that a type's own binders bind.

ghost use Rattle.std.specs.Prelude.{◌≡◌, ◌+◌, ◌^◌, ◌<◌, ltb, IfOk, OnOk, IfSome, IfNone, length, Some, None, slice_get};
ghost use Rattle.spi_term.specs.Term.{name, pair, enc};
ghost use Rattle.spi_term.specs.Spelling.{ty_nodes};
ghost use Rattle.spi_term.specs.View.{message, atom, effect, ty};
ghost use Rattle.spi_message.specs.Tests.{scope_of_types, type_of_key, typed, labelled, good_atom, good_effect, good};

use crate::NoMemory;
use crate::slices::is_un_type;
use crate::written::{is_unit_type, payload_of};
use spi_effect::is_same_type;
use spi_term::{Atom, Effect, Msg, Ty, opened};
use std::alloc::Global;

// The type of a name.
fn type_of<'a>(x: u32, env: &'a [Ty], inner: &'a [Ty]) -> Option<&'a Ty>
    ensures some { IfSome result (λ t. slice_get (scope_of_types env.now inner.now) x ≡ Some (ty t.now)) }
    ensures none { IfNone result (slice_get (scope_of_types env.now inner.now) x ≡ None) }
{
    let place = x as usize;
    if place < env.len() {
        return Some(&env[place]);
    }
    let rest = place - env.len();
    if rest < inner.len() {
        return Some(&inner[rest]);
    }
    None
}

// The T of a name of type Key(T).
fn key_type<'a>(m: &Msg, env: &'a [Ty], inner: &'a [Ty]) -> Option<&'a Ty>
    ensures some { IfSome result
        (λ t. type_of_key (scope_of_types env.now inner.now) (message m.now) ≡ Some (ty t.now)) }
    ensures none { IfNone result (type_of_key (scope_of_types env.now inner.now) (message m.now) ≡ None) }
{
    match m {
        Msg::Name(x) => match type_of(*x, env, inner) {
            Some(t) => payload_of(t),
            None => None,
        },
        _ => None,
    }
}

fn has_name_type(x: u32, env: &[Ty], inner: &[Ty], t: &Ty) -> bool
    ensures { result ≡ typed (name x) (scope_of_types env.now inner.now) (ty t.now) }
{
    match type_of(x, env, inner) {
        Some(s) => is_same_type(s, t),
        None => false,
    }
}

fn is_below(x: u32, env: &[Ty], inner: &[Ty]) -> bool
    ensures { result ≡ ltb x (length (scope_of_types env.now inner.now)) }
{
    match type_of(x, env, inner) {
        Some(_) => true,
        None => false,
    }
}

/// The message has the type.
#[cycle(typing)]
pub fn has_type(alloc: Global, m: &Msg, env: &[Ty], inner: &[Ty], t: &Ty) -> Result<bool, NoMemory>
    ensures { IfOk result (λ b. b ≡ typed (message m.now) (scope_of_types env.now inner.now) (ty t.now)) }
{
    match m {
        Msg::Bound(_) => Ok(false),
        Msg::Name(x) => Ok(has_name_type(*x, env, inner, t)),
        Msg::Unit => Ok(is_unit_type(t)),
        Msg::Pair(two) => pair_has_type(alloc, &two.first, &two.second, env, inner, t),
        Msg::Inl(a) => match t {
            Ty::Un => has_type(alloc, a, env, inner, t),
            Ty::Sum(two) => has_type(alloc, a, env, inner, &two.first),
            _ => Ok(false),
        },
        Msg::Inr(a) => match t {
            Ty::Un => has_type(alloc, a, env, inner, t),
            Ty::Sum(two) => has_type(alloc, a, env, inner, &two.second),
            _ => Ok(false),
        },
        Msg::Enc(sealed) => {
            if is_un_type(t) {
                is_sealed(alloc, &sealed.body, &sealed.key, env, inner)
            } else {
                Ok(false)
            }
        }
        Msg::Hash(a) => {
            if is_un_type(t) {
                is_label(alloc, a, env, inner)
            } else {
                Ok(false)
            }
        }
    }
}

#[cycle(typing)]
fn pair_has_type(
    alloc: Global,
    a: &Msg,
    b: &Msg,
    env: &[Ty],
    inner: &[Ty],
    t: &Ty,
) -> Result<bool, NoMemory>
    ensures { IfOk result
        (λ x. x ≡ typed (pair (message a.now) (message b.now))
        (scope_of_types env.now inner.now) (ty t.now)) }
{
    match t {
        Ty::Un => {
            if has_type(alloc, a, env, inner, t)? {
                has_type(alloc, b, env, inner, t)
            } else {
                Ok(false)
            }
        }
        Ty::Pair(two) => {
            if has_type(alloc, a, env, inner, &two.first)? {
                let rest = opened(alloc, &two.second, a)?;
                has_type(alloc, b, env, inner, &rest)
            } else {
                Ok(false)
            }
        }
        _ => Ok(false),
    }
}

// The message under the key has type Un. A name of a Key type isn't of type Un itself, so that the body is asked for
// once.
#[cycle(typing)]
fn is_sealed(
    alloc: Global,
    body: &Msg,
    key: &Msg,
    env: &[Ty],
    inner: &[Ty],
) -> Result<bool, NoMemory>
    ensures { IfOk result
        (λ b. b ≡ labelled (enc (message body.now) (message key.now)) (scope_of_types env.now inner.now)) }
{
    if let Some(payload) = key_type(key, env, inner) {
        return has_type(alloc, body, env, inner, payload);
    }
    if has_type(alloc, body, env, inner, &Ty::Un)? {
        has_type(alloc, key, env, inner, &Ty::Un)
    } else {
        Ok(false)
    }
}

/// The message is a label.
#[cycle(typing)]
pub fn is_label(alloc: Global, m: &Msg, env: &[Ty], inner: &[Ty]) -> Result<bool, NoMemory>
    ensures { IfOk result (λ b. b ≡ labelled (message m.now) (scope_of_types env.now inner.now)) }
{
    match m {
        Msg::Bound(_) => Ok(false),
        Msg::Name(x) => Ok(is_below(*x, env, inner)),
        Msg::Unit => Ok(true),
        Msg::Pair(two) => {
            if is_label(alloc, &two.first, env, inner)? {
                is_label(alloc, &two.second, env, inner)
            } else {
                Ok(false)
            }
        }
        Msg::Inl(a) => is_label(alloc, a, env, inner),
        Msg::Inr(a) => is_label(alloc, a, env, inner),
        Msg::Enc(sealed) => is_sealed(alloc, &sealed.body, &sealed.key, env, inner),
        Msg::Hash(a) => is_label(alloc, a, env, inner),
    }
}

fn is_good_atom(alloc: Global, a: &Atom, env: &[Ty], inner: &[Ty]) -> Result<bool, NoMemory>
    ensures { IfOk result (λ b. b ≡ good_atom (atom a.now) (scope_of_types env.now inner.now)) }
{
    match a {
        Atom::End(m) => is_label(alloc, m, env, inner),
        Atom::Check(m) => has_type(alloc, m, env, inner, &Ty::Un),
        Atom::Many(m) => is_label(alloc, m, env, inner),
    }
}

/// The effect is good.
pub fn is_good_effect(alloc: Global, e: &Effect, env: &[Ty], inner: &[Ty]) -> Result<bool, NoMemory>
    ensures { IfOk result (λ b. b ≡ good_effect (effect e.now) (scope_of_types env.now inner.now)) }
{
    for a in &e.atoms {
        if !is_good_atom(alloc, a, env, inner)? {
            return Ok(false);
        }
    }
    Ok(true)
}

/// The type is good. The inner names are used as a stack, and stand as before.
#[tactic(auto, using(crate::proofs::Deciding::good_of_sum))]
pub fn is_good_type(
    alloc: Global,
    t: &Ty,
    env: &[Ty],
    inner: &mut Vec<Ty>,
) -> Result<bool, NoMemory>
    requires { length env.now + length inner.old.items + ty_nodes (ty t.now) < 2 ^ 32 }
    ensures answer { IfOk result (λ b. b ≡ good (scope_of_types env.now inner.old.items) (ty t.now)) }
    ensures inner { OnOk result (inner.new.items ≡ inner.old.items) }
{
    match t {
        Ty::Un => Ok(true),
        Ty::Pair(two) => {
            if !is_good_type(alloc, &two.first, env, inner)? {
                return Ok(false);
            }
            let count = inner.len();
            let name = Msg::Name((env.len() + count) as u32);
            let under = opened(alloc, &two.second, &name)?;
            let outer = two.first.copy(alloc)?;
            inner.push(outer)?;
            let answer = is_good_type(alloc, &under, env, inner)?;
            inner.truncate(count);
            Ok(answer)
        }
        Ty::Unit => Ok(true),
        Ty::Sum(two) => {
            if is_good_type(alloc, &two.first, env, inner)? {
                is_good_type(alloc, &two.second, env, inner)
            } else {
                Ok(false)
            }
        }
        Ty::Key(payload) => is_good_type(alloc, payload, env, inner),
        Ty::Nonce(e) => is_good_effect(alloc, e, env, inner),
    }
}
