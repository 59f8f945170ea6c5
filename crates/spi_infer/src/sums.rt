// What forms do to effects by counts.
ghost use Rattle.std.specs.Prelude.{◌≡◌, ◌≤◌, ◌<◌, length, slice_get, Some, IfOk};
ghost use Rattle.spi_term.specs.Term as Term;
ghost use Rattle.spi_term.specs.View.{shape_of};
ghost use Rattle.spi_term.specs.Arena.{scope_of};
ghost use Rattle.spi_intern.specs.declared.store.Store.{Store};
ghost use Rattle.spi_infer.specs.Accounts.{kept_if, MayBeType, AfterOne, AfterTwo, AfterServe, AfterMake, AfterCast, AfterCheck, AfterForm, BothForm, BothPiles, OwnCheck, OwnCast, OwnMake, OwnBegin, OwnEnd, OwnMany, CheckGiven, CastGiven, OwnGiven};

use crate::own::Own;
use spi_count::{Keys, NoMemory, Pile, drop_atom, drop_type, put_atom, put_type};
use spi_intern::{AtomId, MsgId, Store, TyId};
use spi_term::{Form, Node};

/// Whether a form that binds the name `scope`, or that and the next one, has the effect of its process: where they stand
/// in no atom of it.
#[inline(always)]
pub fn after_binder(scope: u32, pile: &mut Pile) -> Result<bool, NoMemory>
    requires { scope ≤ 300000 }
    ensures one { IfOk result (λ b. AfterOne scope pile.old (kept_if b pile.new)) }
    ensures two { IfOk result (λ b. AfterTwo scope pile.old (kept_if b pile.new)) }
{
    let reached = pile.reaches((scope as u64 + 1) * 4_294_967_296)?;
    Ok(!reached)
}

/// Whether `repeat inp M (x: Un); P` has the effect of P: each atom is a `many`, and x stands in none.
pub fn after_serve(scope: u32, pile: &mut Pile) -> Result<bool, NoMemory>
    requires { scope ≤ 300000 }
    ensures { IfOk result (λ b. AfterServe scope pile.old (kept_if b pile.new)) }
{
    pile.settle()?;
    if pile.sum.is_all_many() {
        after_binder(scope, pile)
    } else {
        Ok(false)
    }
}

/// The effect of `check M is N; P` from that of P: what the nonce pays for is taken out, and `check M` comes to it.
fn after_check(
    store: &Store,
    keys: &Keys,
    m: MsgId,
    paid: Option<TyId>,
    pile: &mut Pile,
) -> Result<bool, NoMemory>
    requires { MayBeType store.now paid }
    ensures { IfOk result (λ b. AfterCheck store.now keys.now m paid pile.old (kept_if b pile.new)) }
{
    match paid {
        None => Ok(true),
        Some(t) => {
            drop_type(store, keys, t, pile)?;
            put_atom(keys, AtomId::Check(m), pile)?;
            Ok(true)
        }
    }
}

/// What is checked, and what the check pays for. Whether there is an effect.
pub fn checked(store: &Store, keys: &Keys, own: Own, pile: &mut Pile) -> Result<bool, NoMemory>
    requires { CheckGiven store.now own }
    ensures { IfOk result (λ b. OwnCheck store.now keys.now own pile.old (kept_if b pile.new)) }
{
    match own {
        Own::Checked(m, paid) => after_check(store, keys, m, paid, pile),
        _ => Ok(false),
    }
}

/// The effect of `cast M is (x: Nonce fs); P` from that of P: x stands in no atom, and fs comes to it. Whether there is
/// one.
fn after_cast(
    scope: u32,
    store: &Store,
    keys: &Keys,
    t: TyId,
    pile: &mut Pile,
) -> Result<bool, NoMemory>
    requires scope { scope ≤ 300000 }
    requires ty { t.place < length store.now.types }
    ensures { IfOk result (λ b. AfterCast scope store.now keys.now t pile.old (kept_if b pile.new)) }
{
    let stays = after_binder(scope, pile)?;
    if stays {
        put_type(store, keys, t, pile)?;
        Ok(true)
    } else {
        Ok(false)
    }
}

/// The effect of a `cast` from that of its process. Whether there is one.
pub fn cast(
    scope: u32,
    store: &Store,
    keys: &Keys,
    own: Own,
    pile: &mut Pile,
) -> Result<bool, NoMemory>
    requires scope { scope ≤ 300000 }
    requires own { CastGiven store.now own }
    ensures { IfOk result (λ b. OwnCast scope store.now keys.now own pile.old (kept_if b pile.new)) }
{
    match own.cast() {
        None => Ok(false),
        Some(t) => after_cast(scope, store, keys, t, pile),
    }
}

/// The effect of `new (x: T); P` from that of P: one `check x` is taken out, and then x stands in no atom. Whether there
/// is one.
fn after_fresh(scope: u32, keys: &Keys, name: MsgId, pile: &mut Pile) -> Result<bool, NoMemory>
    requires { scope ≤ 300000 }
    ensures { IfOk result
        (λ b. (s : Store) → slice_get s.messages name.place ≡ Some (Term.name scope)
        → AfterMake scope s keys.now pile.old (kept_if b pile.new)) }
{
    drop_atom(keys, AtomId::Check(name), pile)?;
    after_binder(scope, pile)
}

/// The effect of a `new` from that of its process. Whether there is one.
pub fn made(scope: u32, keys: &Keys, own: Own, pile: &mut Pile) -> Result<bool, NoMemory>
    requires { scope ≤ 300000 }
    ensures { IfOk result (λ b. OwnMake scope keys.now own pile.old (kept_if b pile.new)) }
{
    match own.made() {
        None => Ok(false),
        Some(name) => after_fresh(scope, keys, name, pile),
    }
}

/// A `begin` pays for the ends of its label.
pub fn begun(keys: &Keys, own: Own, pile: &mut Pile) -> Result<bool, NoMemory>
    ensures { IfOk result (λ b. OwnBegin keys.now own pile.old (kept_if b pile.new)) }
{
    match own.label() {
        None => Ok(false),
        Some(label) => {
            drop_atom(keys, AtomId::End(label), pile)?;
            drop_atom(keys, AtomId::Many(label), pile)?;
            Ok(true)
        }
    }
}

/// An `end` asks for a begin of its label.
pub fn ended(keys: &Keys, own: Own, pile: &mut Pile) -> Result<bool, NoMemory>
    ensures { IfOk result (λ b. OwnEnd keys.now own pile.old (kept_if b pile.new)) }
{
    match own.label() {
        None => Ok(false),
        Some(label) => {
            put_atom(keys, AtomId::End(label), pile)?;
            Ok(true)
        }
    }
}

/// An `endmany` asks for a begin of its label, which pays for any number of them.
pub fn ended_many(keys: &Keys, own: Own, pile: &mut Pile) -> Result<bool, NoMemory>
    ensures { IfOk result (λ b. OwnMany keys.now own pile.old (kept_if b pile.new)) }
{
    match own.label() {
        None => Ok(false),
        Some(label) => {
            put_atom(keys, AtomId::Many(label), pile)?;
            Ok(true)
        }
    }
}

/// The effect of a form from that of its process. Whether there is one.
pub fn after_form(
    store: &Store,
    keys: &Keys,
    node: &Node,
    own: Own,
    pile: &mut Pile,
) -> Result<bool, NoMemory>
    requires scope { scope_of (shape_of node.now) ≤ 300000 }
    requires own { OwnGiven store.now (shape_of node.now) own }
    ensures { IfOk result
        (λ b. AfterForm store.now keys.now (shape_of node.now) own pile.old (kept_if b pile.new)) }
{
    let scope = node.scope;
    match &node.form {
        Form::Recv { .. } => after_binder(scope, pile),
        Form::Serve { .. } => after_serve(scope, pile),
        Form::Split { .. } => after_binder(scope, pile),
        Form::Select { .. } => after_binder(scope, pile),
        Form::Decrypt { .. } => after_binder(scope, pile),
        Form::Check { .. } => checked(store, keys, own, pile),
        Form::Begin { .. } => begun(keys, own, pile),
        Form::End { .. } => ended(keys, own, pile),
        Form::EndMany { .. } => ended_many(keys, own, pile),
        Form::Cast { .. } => cast(scope, store, keys, own, pile),
        Form::Fresh { .. } => made(scope, keys, own, pile),
        _ => Ok(false),
    }
}

// The effect of `case M is inl (x: T); P is inr (y: U); Q` from those of P and Q: the greater counts, where x and y stand
// in no atom. None waits afterwards.
fn both_sides(scope: u32, a: Pile, b: &mut Pile) -> Result<bool, NoMemory>
    requires { scope ≤ 300000 }
    ensures { IfOk result (λ r. BothPiles scope a b.old (kept_if r b.new)) }
{
    let mut first = a;
    let stays = after_binder(scope, &mut first)?;
    if !stays {
        return Ok(false);
    }
    let stay = after_binder(scope, b)?;
    if !stay {
        return Ok(false);
    }
    first.settle()?;
    b.settle()?;
    let Pile { sum, late: _ } = first;
    b.sum.rise_to(sum)?;
    Ok(true)
}

/// The effect of a form from those of its two processes, in place of that of the second. Whether there is one.
pub fn both_form(node: &Node, a: Pile, b: &mut Pile) -> Result<bool, NoMemory>
    requires { scope_of (shape_of node.now) ≤ 300000 }
    ensures { IfOk result (λ r. BothForm (shape_of node.now) a b.old (kept_if r b.new)) }
{
    match &node.form {
        Form::Par { .. } => {
            b.join(a)?;
            Ok(true)
        }
        Form::Branch { .. } => both_sides(node.scope, a, b),
        _ => Ok(false),
    }
}
