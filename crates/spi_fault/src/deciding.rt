// Whether a check passes.
ghost use Rattle.std.specs.Prelude.{ℕ, List, None, ◌≡◌, ◌⊎◌, ◌+◌, ◌^◌, ◌<◌, ◌≤◌, ◌↔◌, [], ◌∷◌, length, reverse, IfOk, IsTrue};
ghost use Rattle.spi_term.specs.Term as Term;
ghost use Rattle.spi_term.specs.Term.{un, key, name};
ghost use Rattle.spi_term.specs.View.{message, ty as type_of, effect as effect_of};
ghost use Rattle.spi_effect.specs.Effect.{IsDifference};
ghost use Rattle.spi_rules.specs.Environment as Rules;
ghost use Rattle.spi_rules.specs.Environment.{untrusted};
ghost use Rattle.spi_rules.specs.Messages.{HasType};
ghost use Rattle.spi_rules.specs.Processes.{IsGenerative, IsNonce};
ghost use Rattle.spi_rules.specs.Least.{Least};
ghost use Rattle.spi_rules.specs.Blocking.{NodeOf, HasSome, BlocksAt};
ghost use Rattle.spi_scope.specs.Chains.{chain_at};
ghost use Rattle.spi_fault.specs.Passing.{IsCastable, Passes};
ghost use Rattle.spi_fault.specs.Checks.{process_of};
ghost use Rattle.spi_fault.specs.Faults.{the_message, subject_checked, thing};
ghost use Rattle.spi_fault.specs.Trying.{check as check_of, IsOf, CanBe, IsAskedOf, CanBeCounted, TellsFailure, TellsAtom};

use crate::check::Check;
use crate::least::{Kind, least_text};
use crate::{NoMemory, Shown};
use spi_effect::minus;
use spi_infer::effect_at;
use spi_message::written::is_nonce_type;
use spi_message::{good_type, has_type, is_label, key_type};
use spi_rules::Env;
use spi_scope::File;
use spi_term::{Atom, Effect, Msg, Ty};
use std::alloc::Global;

/// What is shown of a check that failed, and the node in whose scope it is read.
#[derive(Drop)]
pub struct Found {
    pub scope_of: u32,
    pub shown: Option<Shown>,
}

fn is_un(t: &Ty) -> bool
    ensures { IsTrue result ↔ (type_of t.now ≡ un) }
{
    match t {
        Ty::Un => true,
        _ => false,
    }
}

fn is_generative(t: &Ty) -> bool
    ensures { IsTrue result ↔ IsGenerative (type_of t.now) }
{
    match t {
        Ty::Un | Ty::Key(_) => true,
        _ => false,
    }
}

fn is_castable(t: &Ty) -> bool
    ensures { IsTrue result ↔ IsCastable (type_of t.now) }
{
    match t {
        Ty::Un | Ty::Nonce(_) => true,
        _ => false,
    }
}

fn is_scrutinee(
    alloc: Global,
    env: &Env,
    m: &Msg,
    whole: &Ty,
    first: &Ty,
    second: &Ty,
) -> Result<bool, NoMemory>
    ensures { IfOk result
        (λ b. IsTrue b
        ↔ (HasType [] env.now (message m.now) (type_of whole.now)
        ⊎ (HasType [] env.now (message m.now) un × (type_of first.now ≡ un) × (type_of second.now ≡ un)))) }
{
    if has_type(alloc, env, m, whole)? {
        return Ok(true);
    }
    if !is_un(first) || !is_un(second) {
        return Ok(false);
    }
    has_type(alloc, env, m, &Ty::Un)
}

fn is_key_of(alloc: Global, env: &Env, m: &Msg, t: &Ty) -> Result<bool, NoMemory>
    ensures { IfOk result
        (λ b. IsTrue b
        ↔ (HasType [] env.now (message m.now) (key (type_of t.now))
        ⊎ (HasType [] env.now (message m.now) un × (type_of t.now ≡ un)))) }
{
    let wanted = key_type(alloc, t)?;
    if has_type(alloc, env, m, &wanted)? {
        return Ok(true);
    }
    if !is_un(t) {
        return Ok(false);
    }
    has_type(alloc, env, m, &Ty::Un)
}

fn is_nonce_at(env: &Env, x: u32) -> bool
    ensures { IsTrue result ↔ ((fs : Term.Effect) × IsNonce [] env.now (name x) fs) }
{
    match env.get(x) {
        Some(t) => is_nonce_type(t),
        None => false,
    }
}

fn is_nonce_name(env: &Env, m: &Msg) -> bool
    ensures { IsTrue result ↔ ((fs : Term.Effect) × IsNonce [] env.now (message m.now) fs) }
{
    match m {
        Msg::Name(x) => is_nonce_at(env, *x),
        _ => false,
    }
}

fn is_nonce(alloc: Global, env: &Env, m: &Msg) -> Result<bool, NoMemory>
    ensures { IfOk result
        (λ b. IsTrue b
        ↔ (((fs : Term.Effect) × IsNonce [] env.now (message m.now) fs)
        ⊎ HasType [] env.now (message m.now) un)) }
{
    if is_nonce_name(env, m) {
        return Ok(true);
    }
    has_type(alloc, env, m, &Ty::Un)
}

// Whether a check passes that asks about no effect.
fn holds(alloc: Global, env: &Env, check: &Check) -> Result<bool, NoMemory>
    requires { CanBeCounted (length env.now) (check_of check.now) }
    ensures { IfOk result
        (λ b. process_of (check_of check.now) ≡ None → (p : Term.Process)
        → IsTrue b ↔ Passes env.now p (check_of check.now)) }
{
    match check {
        Check::Channel(m) => has_type(alloc, env, m, &Ty::Un),
        Check::Datum(m) => has_type(alloc, env, m, &Ty::Un),
        Check::Sealed(m) => has_type(alloc, env, m, &Ty::Un),
        Check::Untrusted(t) => Ok(is_un(t)),
        Check::Good(t) => good_type(alloc, env, t),
        Check::Scrutinee(m, whole, first, second) => {
            is_scrutinee(alloc, env, m, whole, first, second)
        }
        Check::First(m, t) => has_type(alloc, env, m, t),
        Check::KeyOf(m, t) => is_key_of(alloc, env, m, t),
        Check::NonceOf(m) => is_nonce(alloc, env, m),
        Check::Label(m) => is_label(alloc, env, m),
        Check::Generative(t) => Ok(is_generative(t)),
        Check::Castable(t) => Ok(is_castable(t)),
        Check::Served(_) => Ok(true),
        Check::Stays(_, _) => Ok(true),
        Check::Made(_) => Ok(true),
    }
}

fn the_message(alloc: Global, m: &Msg) -> Result<Option<Shown>, NoMemory>
    ensures { IfOk result (λ r. thing r ≡ the_message (message m.now)) }
{
    Ok(Some(Shown::Message(m.copy(alloc)?)))
}

// What a check shows that asks about no effect.
fn subject(alloc: Global, check: &Check) -> Result<Option<Shown>, NoMemory>
    ensures { IfOk result (λ r. thing r ≡ subject_checked (check_of check.now)) }
{
    match check {
        Check::Channel(m) => the_message(alloc, m),
        Check::Datum(m) => the_message(alloc, m),
        Check::Sealed(m) => the_message(alloc, m),
        Check::Untrusted(_) => Ok(None),
        Check::Good(_) => Ok(None),
        Check::Scrutinee(m, _, _, _) => the_message(alloc, m),
        Check::First(m, _) => the_message(alloc, m),
        Check::KeyOf(m, _) => the_message(alloc, m),
        Check::NonceOf(m) => the_message(alloc, m),
        Check::Label(m) => the_message(alloc, m),
        Check::Generative(_) => Ok(None),
        Check::Castable(_) => Ok(None),
        Check::Served(_) => Ok(None),
        Check::Stays(_, _) => Ok(None),
        Check::Made(_) => Ok(None),
    }
}

// What is shown where a check fails that asks about no effect.
fn failing_here(alloc: Global, id: u32, env: &Env, check: &Check) -> Result<Option<Found>, NoMemory>
    requires { CanBeCounted (length env.now) (check_of check.now) }
    ensures { IfOk result
        (λ r. process_of (check_of check.now) ≡ None → (spelled : ℕ → List (List ℕ)) (q : Term.Process)
        → TellsFailure spelled id env.now q (check_of check.now) r) }
{
    if holds(alloc, env, check)? {
        return Ok(None);
    }
    Ok(Some(Found {
        scope_of: id,
        shown: subject(alloc, check)?,
    }))
}

/// The atom of an effect, in the scope of a node, that is shown.
pub fn shown_atom(
    alloc: Global,
    file: &File,
    scope_of: u32,
    kind: Kind,
    effect: &Effect,
) -> Result<Option<Found>, NoMemory>
    requires { CanBe kind }
    ensures { IfOk result
        (λ r. TellsAtom (λ i. reverse (chain_at file.now.marks.scopes i)) scope_of (IsOf kind)
        (effect_of effect.now) r) }
{
    let names = file.scope_names(alloc, scope_of)?;
    match least_text(alloc, &names, kind, &effect.atoms)? {
        None => Ok(None),
        Some(i) => {
            let atom = effect.atoms[i].copy(alloc)?;
            Ok(Some(Found {
                scope_of,
                shown: Some(Shown::Atom(atom)),
            }))
        }
    }
}

// The atom of the least effect at a node that is shown.
fn spoiled(alloc: Global, file: &File, node: u32, kind: Kind) -> Result<Option<Found>, NoMemory>
    requires kind { CanBe kind }
    requires there { (e : Rules.Env) × (q : Term.Process)
        × NodeOf (untrusted file.now.process.names) file.now.process.process node e q × HasSome e q }
    ensures { IfOk result
        (λ r. (e : Rules.Env) (q : Term.Process)
        → NodeOf (untrusted file.now.process.names) file.now.process.process node e q
        → (es : Term.Effect) × Least e q es
        × TellsAtom (λ i. reverse (chain_at file.now.marks.scopes i)) node (IsOf kind) es r) }
{
    let _ = file.process.len();
    match effect_at(alloc, &file.process, node)? {
        Some(effect) => shown_atom(alloc, file, node, kind, &effect),
        None => unreachable!(),
    }
}

// The effect of one check of a name.
fn one_check(alloc: Global, name: u32) -> Result<Effect, NoMemory>
    ensures { IfOk result (λ e. effect_of e ≡ Term.checks (Term.name name) ∷ []) }
{
    let mut atoms = Vec::new(alloc);
    atoms.push(Atom::Check(Msg::Name(name)))?;
    Ok(Effect { atoms })
}

// The same, with one check of this name taken off.
fn unchecked(alloc: Global, file: &File, node: u32, name: u32) -> Result<Option<Found>, NoMemory>
    requires kind { name + 1 < 2 ^ 32 }
    requires there { (e : Rules.Env) × (q : Term.Process)
        × NodeOf (untrusted file.now.process.names) file.now.process.process node e q × HasSome e q }
    ensures { IfOk result
        (λ r. (e : Rules.Env) (q : Term.Process)
        → NodeOf (untrusted file.now.process.names) file.now.process.process node e q
        → (es ds : Term.Effect) × Least e q es × IsDifference ds es (Term.checks (Term.name name) ∷ [])
        × TellsAtom (λ i. reverse (chain_at file.now.marks.scopes i)) node (IsOf (Kind.Naming name 1)) ds r) }
{
    let _ = file.process.len();
    match effect_at(alloc, &file.process, node)? {
        Some(effect) => {
            let check = one_check(alloc, name)?;
            let rest = minus(alloc, &effect, &check)?;
            shown_atom(alloc, file, node, Kind::Naming(name, 1), &rest)
        }
        None => unreachable!(),
    }
}

/// What is shown where the check of a node fails, and `None` where it passes.
pub fn failing(
    alloc: Global,
    file: &File,
    id: u32,
    env: &Env,
    check: &Check,
) -> Result<Option<Found>, NoMemory>
    requires fits { CanBeCounted (length env.now) (check_of check.now) }
    requires few { length env.now ≤ 300000 }
    requires node { (q : Term.Process)
        × NodeOf (untrusted file.now.process.names) file.now.process.process id env.now q × BlocksAt env.now q
        × IsAskedOf env.now q (check_of check.now) }
    ensures { IfOk result
        (λ r. (q : Term.Process)
        → NodeOf (untrusted file.now.process.names) file.now.process.process id env.now q
        → TellsFailure (λ i. reverse (chain_at file.now.marks.scopes i)) id env.now q (check_of check.now)
        r) }
{
    let _ = file.process.len();
    let n = env.len();
    match check {
        Check::Served(at) => spoiled(alloc, file, id + *at, Kind::NotMany),
        Check::Stays(names, at) => spoiled(alloc, file, id + *at, Kind::Naming(n, *names)),
        Check::Made(at) => unchecked(alloc, file, id + *at, n),
        _ => failing_here(alloc, id, env, check),
    }
}
