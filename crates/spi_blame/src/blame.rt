// The first part of a message that lacks what typing asks of it.

ghost use Rattle.std.specs.Prelude.{◌≡◌, IfOk, IfSome, IfNone, IsTrue, ◌↔◌, [], ◌∷◌, reverse, Some};
ghost use Rattle.spi_term.specs.Term.{name, key, Ty as Sort};
ghost use Rattle.spi_term.specs.View.{message, ty};
ghost use Rattle.spi_rules.specs.Environment.{Env as Names};
ghost use Rattle.spi_rules.specs.Messages.{HasType};
ghost use Rattle.spi_blame.specs.Blaming.{Question, typed, labelled, Asks, IsMisfit, IsKeyName, AnswersYes};
ghost use Rattle.spi_blame.specs.Told.{TellsBlame, IsKeyOfMessage, AsksSealed};

use crate::NoMemory;
use spi_rules::Env;
use spi_term::{Msg, Ty, opened, same_type};
use std::alloc::Global;

/// A part of a message that lacks what typing asks of it: the steps to it, the last one first, the part, and the type that
/// it lacks, or none where it is to be a label. A step is the number of a part: of a pair and of `{M}N` it is 0 or 1, where
/// the key N is part 0, and else 0.
#[derive(Drop)]
pub struct Blame {
    pub steps: Vec<u32>,
    pub part: Msg,
    pub wanted: Option<Ty>,
}

// The same, seen from the message whose part number `step` was asked.
fn below(b: Blame, step: u32) -> Result<Blame, NoMemory>
    ensures steps { IfOk result (λ r. reverse r.steps.items ≡ step ∷ reverse b.steps.items) }
    ensures part { IfOk result (λ r. r.part ≡ b.part) }
    ensures wanted { IfOk result (λ r. r.wanted ≡ b.wanted) }
{
    let mut b = b;
    b.steps.push(step)?;
    Ok(b)
}

// What is to blame for the no of a message that asks one question, from the answer for it.
fn of_one(part: Option<Blame>) -> Result<Option<Blame>, NoMemory>
    ensures { IfOk result (λ o. (env : Names) (q a : Question)
        → Asks env q (a ∷ []) → TellsBlame env a part → TellsBlame env q o) }
{
    match part {
        None => Ok(None),
        Some(b) => Ok(Some(below(b, 0)?)),
    }
}

// The same where it asks two.
fn of_two(first: Option<Blame>, second: Option<Blame>) -> Result<Option<Blame>, NoMemory>
    ensures { IfOk result (λ o. (env : Names) (q a b : Question)
        → Asks env q (a ∷ b ∷ []) → TellsBlame env a first → TellsBlame env b second → TellsBlame env q o) }
{
    match first {
        Some(d) => Ok(Some(below(d, 0)?)),
        None => match second {
            None => Ok(None),
            Some(d) => Ok(Some(below(d, 1)?)),
        },
    }
}

// The same of {M}N, where N has the type that its own question asks, from the answer for M.
fn of_body(body: Option<Blame>) -> Result<Option<Blame>, NoMemory>
    ensures { IfOk result (λ o. (env : Names) (q k a : Question)
        → Asks env q (k ∷ a ∷ []) → AnswersYes env k → TellsBlame env a body → TellsBlame env q o) }
{
    of_two(None, body)
}

// The whole message: no rule is for it at this type.
fn itself(alloc: Global, m: &Msg, t: &Ty) -> Result<Option<Blame>, NoMemory>
    ensures { IfOk result (λ o. (env : Names)
        → IsMisfit env (typed (message m.now) (ty t.now))
        → TellsBlame env (typed (message m.now) (ty t.now)) o) }
{
    Ok(Some(Blame {
        steps: Vec::new(alloc),
        part: m.copy(alloc)?,
        wanted: Some(t.copy(alloc)?),
    }))
}

// The whole message: no rule is for it as a label.
fn no_label(alloc: Global, m: &Msg) -> Result<Option<Blame>, NoMemory>
    ensures { IfOk result (λ o. (env : Names)
        → IsMisfit env (labelled (message m.now)) → TellsBlame env (labelled (message m.now)) o) }
{
    Ok(Some(Blame {
        steps: Vec::new(alloc),
        part: m.copy(alloc)?,
        wanted: None,
    }))
}

// The T of a type Key(T).
fn payload_of(t: &Ty) -> Option<&Ty>
    ensures some { IfSome result (λ u. ty t.now ≡ key (ty u.now)) }
    ensures none { IfNone result ((u : Sort) → ty t.now ≡ key u → ⊥) }
{
    match t {
        Ty::Key(u) => Some(u),
        _ => None,
    }
}

// The T, where the message is a name of type Key(T).
fn payload<'a>(env: &'a Env, m: &Msg) -> Option<&'a Ty>
    ensures some { IfSome result (λ t. IsKeyOfMessage env.now (message m.now) (ty t.now)) }
    ensures none { IfNone result (IsKeyName env.now (message m.now) → ⊥) }
{
    match m {
        Msg::Name(x) => match env.get(*x) {
            Some(t) => payload_of(t),
            None => None,
        },
        _ => None,
    }
}

// Whether the name has the type.
fn has_type(env: &Env, x: u32, t: &Ty) -> bool
    ensures { IsTrue result ↔ HasType [] env.now (name x) (ty t.now) }
{
    match env.get(x) {
        Some(s) => same_type(s, t),
        None => false,
    }
}

/// The first part that lacks what typing asks of it, where the message is no label. `None` where it is one.
#[cycle(lacks)]
pub fn lacking_label(alloc: Global, env: &Env, m: &Msg) -> Result<Option<Blame>, NoMemory>
    ensures { IfOk result (λ o. TellsBlame env.now (labelled (message m.now)) o) }
{
    match m {
        Msg::Name(x) => match env.get(*x) {
            Some(_) => Ok(None),
            None => no_label(alloc, m),
        },
        Msg::Bound(_) => no_label(alloc, m),
        Msg::Unit => Ok(None),
        Msg::Pair(two) => {
            let first = lacking_label(alloc, env, &two.first)?;
            let second = lacking_label(alloc, env, &two.second)?;
            of_two(first, second)
        }
        Msg::Inl(a) => of_one(lacking_label(alloc, env, a)?),
        Msg::Inr(a) => of_one(lacking_label(alloc, env, a)?),
        Msg::Enc(sealed) => lacking_sealed(alloc, env, &sealed.body, &sealed.key),
        Msg::Hash(a) => of_one(lacking_label(alloc, env, a)?),
    }
}

// What is to blame of two messages that are each asked for a type, the first message before the second.
#[cycle(lacks)]
fn lacking_both(
    alloc: Global,
    env: &Env,
    m: &Msg,
    t: &Ty,
    n: &Msg,
    u: &Ty,
) -> Result<Option<Blame>, NoMemory>
    ensures { IfOk result (λ o. (q : Question)
        → Asks env.now q (typed (message m.now) (ty t.now) ∷ typed (message n.now) (ty u.now) ∷ [])
        → TellsBlame env.now q o) }
{
    let first = lacking(alloc, env, m, t)?;
    let second = lacking(alloc, env, n, u)?;
    of_two(first, second)
}

// What is to blame of the parts of {M}N. It asks the same of them where it is to be Un and where it is to be a label.
#[cycle(lacks)]
fn lacking_sealed(
    alloc: Global,
    env: &Env,
    body: &Msg,
    key: &Msg,
) -> Result<Option<Blame>, NoMemory>
    ensures { IfOk result (λ o. (q : Question)
        → AsksSealed env.now q (message body.now) (message key.now) → TellsBlame env.now q o) }
{
    match payload(env, key) {
        Some(t) => of_body(lacking(alloc, env, body, t)?),
        None => lacking_both(alloc, env, key, &Ty::Un, body, &Ty::Un),
    }
}

/// The first part that lacks what typing asks of it, where the message lacks the type. `None` where it has the type.
#[cycle(lacks)]
pub fn lacking(alloc: Global, env: &Env, m: &Msg, t: &Ty) -> Result<Option<Blame>, NoMemory>
    ensures { IfOk result (λ o. TellsBlame env.now (typed (message m.now) (ty t.now)) o) }
{
    match m {
        Msg::Name(x) => {
            if has_type(env, *x, t) {
                Ok(None)
            } else {
                itself(alloc, m, t)
            }
        }
        Msg::Bound(_) => itself(alloc, m, t),
        Msg::Unit => match t {
            Ty::Un | Ty::Unit => Ok(None),
            _ => itself(alloc, m, t),
        },
        Msg::Pair(two) => match t {
            Ty::Un => lacking_both(alloc, env, &two.first, t, &two.second, t),
            Ty::Pair(types) => {
                let wanted = opened(alloc, &types.second, &two.first)?;
                lacking_both(alloc, env, &two.first, &types.first, &two.second, &wanted)
            }
            _ => itself(alloc, m, t),
        },
        Msg::Inl(a) => match t {
            Ty::Un => of_one(lacking(alloc, env, a, t)?),
            Ty::Sum(types) => of_one(lacking(alloc, env, a, &types.first)?),
            _ => itself(alloc, m, t),
        },
        Msg::Inr(a) => match t {
            Ty::Un => of_one(lacking(alloc, env, a, t)?),
            Ty::Sum(types) => of_one(lacking(alloc, env, a, &types.second)?),
            _ => itself(alloc, m, t),
        },
        Msg::Enc(sealed) => match t {
            Ty::Un => lacking_sealed(alloc, env, &sealed.body, &sealed.key),
            _ => itself(alloc, m, t),
        },
        Msg::Hash(a) => match t {
            Ty::Un => of_one(lacking_label(alloc, env, a)?),
            _ => itself(alloc, m, t),
        },
    }
}
