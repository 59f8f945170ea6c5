// Typing of messages and labels over shared terms. A type may stand under binders: the values say what stands for
// them, so that no type is opened but where it is compared.

ghost use Rattle.std.specs.Prelude.{◌≡◌, ◌<◌, List, IfOk, OnOk, IfSome, IfNone, length};
ghost use Rattle.spi_term.specs.Term.{Message, name, pair, enc};
ghost use Rattle.spi_intern.specs.Messages.{message_at};
ghost use Rattle.spi_intern.specs.Given.{IsGiven};
ghost use Rattle.spi_intern.specs.Meaning.{Keeps};
ghost use Rattle.spi_intern.specs.declared.types.TyId.{TyId};
ghost use Rattle.spi_message.specs.Filling.{AreIdsBelow, FillsTy};
ghost use Rattle.spi_message.specs.Added.{TypingGives, LabelGives};
ghost use Rattle.spi_message.specs.Asking.{IsEnvironment, IsAsked, IsTyped, IsLabelled, IsPayload, IsNoPayload};

use crate::NoMemory;
use crate::filling::filled_type;
use crate::heads::{is_un_type, is_unit_type, payload_of, sides_of};
use spi_intern::{MsgId, MsgPart, Store, TyId, TyPart};
use std::alloc::Global;

// The T of a name of type Key(T).
fn key_payload(store: &Store, env: &[TyId], m: MsgId) -> Option<TyId>
    requires message { m.place < length store.now.messages }
    requires names { IsEnvironment store.now env.now }
    ensures some { IfSome result (IsPayload store.now env.now (message_at store.now.messages m)) }
    ensures none { IfNone result (IsNoPayload store.now env.now (message_at store.now.messages m)) }
{
    match store.part(m) {
        MsgPart::Name(x) => match env.get(x as usize) {
            Some(t) => payload_of(store, *t),
            None => None,
        },
        _ => None,
    }
}

// The type that a message is asked for: no value stands for a binder where there is none.
fn wanted_type(
    alloc: Global,
    store: &mut Store,
    values: &[MsgId],
    t: TyId,
) -> Result<TyId, NoMemory>
    requires ty { IsGiven store.old t.place }
    requires values { AreIdsBelow values.now (length store.old.messages) }
    ensures at { IfOk result (FillsTy store.old store.new values.now 0 t) }
    ensures adds { OnOk result
        ((env : List TyId) (n : Message) → TypingGives store.old store.new env n t values.now) }
    ensures kept { Keeps store.old store.new }
{
    if values.is_empty() {
        return Ok(t);
    }
    filled_type(alloc, store, values, 0, t)
}

fn name_has_type(
    alloc: Global,
    store: &mut Store,
    env: &[TyId],
    x: u32,
    t: TyId,
    values: &[MsgId],
) -> Result<bool, NoMemory>
    requires { IsAsked store.old env.now t values.now }
    ensures answer { IfOk result (IsTyped store.old env.now (name x) t values.now) }
    ensures adds { OnOk result (TypingGives store.old store.new env.now (name x) t values.now) }
    ensures kept { Keeps store.old store.new }
{
    match env.get(x as usize) {
        Some(known) => {
            let wanted = wanted_type(alloc, store, values, t)?;
            // The count is asked for what its answer says: types with two numbers aren't the same.
            let _ = store.distinct();
            Ok(*known == wanted)
        }
        None => Ok(false),
    }
}

/// The message has the type.
#[cycle(typing)]
pub fn has_type(
    alloc: Global,
    store: &mut Store,
    env: &[TyId],
    m: MsgId,
    t: TyId,
    values: &mut Vec<MsgId>,
) -> Result<bool, NoMemory>
    requires message { m.place < length store.old.messages }
    requires asked { IsAsked store.old env.now t values.old.items }
    ensures answer { IfOk result
        (IsTyped store.old env.now (message_at store.old.messages m) t values.old.items) }
    ensures adds { OnOk result
        (TypingGives store.old store.new env.now (message_at store.old.messages m) t values.old.items) }
    ensures kept { Keeps store.old store.new }
    ensures values { OnOk result (values.new.items ≡ values.old.items) }
{
    match store.part(m) {
        MsgPart::Bound(_) => Ok(false),
        MsgPart::Name(x) => name_has_type(alloc, store, env, x, t, values),
        MsgPart::Unit => Ok(is_unit_type(store, t)),
        MsgPart::Pair(a, b) => pair_has_type(alloc, store, env, a, b, t, values),
        MsgPart::Inl(a) => match sides_of(store, t) {
            Some((left, _)) => has_type(alloc, store, env, a, left, values),
            None => Ok(false),
        },
        MsgPart::Inr(a) => match sides_of(store, t) {
            Some((_, right)) => has_type(alloc, store, env, a, right, values),
            None => Ok(false),
        },
        MsgPart::Enc(a, b) => {
            if is_un_type(store, t) {
                is_sealed(alloc, store, env, a, b)
            } else {
                Ok(false)
            }
        }
        MsgPart::Hash(a) => {
            if is_un_type(store, t) {
                is_label(alloc, store, env, a)
            } else {
                Ok(false)
            }
        }
    }
}

#[cycle(typing)]
fn pair_has_type(
    alloc: Global,
    store: &mut Store,
    env: &[TyId],
    a: MsgId,
    b: MsgId,
    t: TyId,
    values: &mut Vec<MsgId>,
) -> Result<bool, NoMemory>
    requires first { a.place < length store.old.messages }
    requires second { b.place < length store.old.messages }
    requires asked { IsAsked store.old env.now t values.old.items }
    ensures answer { IfOk result
        (IsTyped store.old env.now (pair (message_at store.old.messages a) (message_at store.old.messages b))
        t values.old.items) }
    ensures adds { OnOk result
        (TypingGives store.old store.new env.now
        (pair (message_at store.old.messages a) (message_at store.old.messages b)) t values.old.items) }
    ensures kept { Keeps store.old store.new }
    ensures values { OnOk result (values.new.items ≡ values.old.items) }
{
    match store.ty_part(t) {
        TyPart::Un => {
            if has_type(alloc, store, env, a, t, values)? {
                has_type(alloc, store, env, b, t, values)
            } else {
                Ok(false)
            }
        }
        TyPart::Pair(first, second) => {
            if !has_type(alloc, store, env, a, first, values)? {
                return Ok(false);
            }
            let count = values.len();
            values.push(a)?;
            let answer = has_type(alloc, store, env, b, second, values)?;
            values.truncate(count);
            Ok(answer)
        }
        _ => Ok(false),
    }
}

// The message under the key has type Un. A name of a Key type isn't of type Un itself, so of the two rules for
// ciphertexts one alone can fit, and the body is asked for once.
#[cycle(typing)]
fn is_sealed(
    alloc: Global,
    store: &mut Store,
    env: &[TyId],
    body: MsgId,
    key: MsgId,
) -> Result<bool, NoMemory>
    requires body { body.place < length store.old.messages }
    requires key { key.place < length store.old.messages }
    requires names { IsEnvironment store.old env.now }
    ensures answer { IfOk result
        (IsLabelled store.old env.now
        (enc (message_at store.old.messages body) (message_at store.old.messages key))) }
    ensures adds { OnOk result
        (LabelGives store.old store.new env.now
        (enc (message_at store.old.messages body) (message_at store.old.messages key))) }
    ensures kept { Keeps store.old store.new }
{
    let mut values = Vec::new(alloc);
    match key_payload(store, env, key) {
        Some(payload) => has_type(alloc, store, env, body, payload, &mut values),
        None => {
            let un = store.un()?;
            if has_type(alloc, store, env, key, un, &mut values)? {
                has_type(alloc, store, env, body, un, &mut values)
            } else {
                Ok(false)
            }
        }
    }
}

/// The message is a label.
#[cycle(typing)]
pub fn is_label(alloc: Global, store: &mut Store, env: &[TyId], m: MsgId) -> Result<bool, NoMemory>
    requires message { m.place < length store.old.messages }
    requires names { IsEnvironment store.old env.now }
    ensures answer { IfOk result (IsLabelled store.old env.now (message_at store.old.messages m)) }
    ensures adds { OnOk result (LabelGives store.old store.new env.now (message_at store.old.messages m)) }
    ensures kept { Keeps store.old store.new }
{
    match store.part(m) {
        MsgPart::Bound(_) => Ok(false),
        MsgPart::Name(x) => Ok((x as usize) < env.len()),
        MsgPart::Unit => Ok(true),
        MsgPart::Pair(a, b) => {
            if is_label(alloc, store, env, a)? {
                is_label(alloc, store, env, b)
            } else {
                Ok(false)
            }
        }
        MsgPart::Inl(a) => is_label(alloc, store, env, a),
        MsgPart::Inr(a) => is_label(alloc, store, env, a),
        MsgPart::Enc(a, b) => is_sealed(alloc, store, env, a, b),
        MsgPart::Hash(a) => is_label(alloc, store, env, a),
    }
}
