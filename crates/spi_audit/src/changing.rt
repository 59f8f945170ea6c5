// The backward pass: the effects of the open processes, from the last use to the first.
ghost use Rattle.std.specs.Prelude.{◌≡◌, ℕ, suc, true, ◌<◌, ◌^◌, not, ◌&&◌, ◌≤◌, [], ◌∷◌, List, IfOk, vec_len};
ghost use Rattle.spi_term.specs.Term.{Effect};
ghost use Rattle.spi_effect.specs.Made.{mentions};
ghost use Rattle.spi_intern.specs.declared.store.Store.{Store};
ghost use Rattle.spi_count.specs.declared.keys.Keys.{Keys};
ghost use Rattle.spi_count.specs.Keeping.{IsKeyed};
ghost use Rattle.spi_audit.specs.Accounts.{Held, IsHeld};
ghost use Rattle.spi_audit.specs.Changes.{Change, run_changes, first_unpaid_change, AreScoped, top_effect};
ghost use Rattle.spi_audit.specs.Notes.{AreNoted, ChangesOne, ChangesAll, IsBeforeChange, IsBeforeOne, IsSmallNote, IsUnaryNote, AreSmallNotes, IsRooted};

use crate::NoMemory;
use crate::accounts::{
    Account, both, drop_atom, drop_type, empty_account, leave_one, leave_two, put_atom, put_type,
    serve, written_over,
};
use crate::notes::Note;
use spi_count::Keys;
use spi_intern::{AtomId, MsgId, Store, TyId};
use std::alloc::Global;

// A message is checked: it goes in, and the effect of a Nonce type out.
fn checked(
    store: &Store,
    keys: &Keys,
    id: MsgId,
    t: TyId,
    account: &mut Account,
) -> Result<bool, NoMemory>
    requires { IsBeforeOne store.now keys.now (Note.Check id t) account.old }
    ensures { IfOk result (λ b. ChangesOne store.now keys.now (Note.Check id t) account.old b account.new) }
{
    drop_type(store, keys, t, account);
    put_atom(keys, AtomId::Check(id), account)?;
    Ok(true)
}

// A `begin` pays for the ends of its label.
fn begun(keys: &Keys, id: MsgId, account: &mut Account) -> bool
    ensures { (s : Store) → IsKeyed s keys.now
        → ChangesOne s keys.now (Note.Begin id) account.old result account.new }
{
    drop_atom(keys, AtomId::End(id), account);
    drop_atom(keys, AtomId::Many(id), account);
    true
}

fn ended(keys: &Keys, id: MsgId, account: &mut Account) -> Result<bool, NoMemory>
    ensures { IfOk result
        (λ b. (s : Store) → IsKeyed s keys.now
        → ChangesOne s keys.now (Note.End id) account.old b account.new) }
{
    put_atom(keys, AtomId::End(id), account)?;
    Ok(true)
}

fn ended_many(keys: &Keys, id: MsgId, account: &mut Account) -> Result<bool, NoMemory>
    ensures { IfOk result
        (λ b. (s : Store) → IsKeyed s keys.now
        → ChangesOne s keys.now (Note.EndMany id) account.old b account.new) }
{
    put_atom(keys, AtomId::Many(id), account)?;
    Ok(true)
}

fn casted(
    store: &Store,
    keys: &Keys,
    scope: u32,
    t: TyId,
    account: &mut Account,
) -> Result<bool, NoMemory>
    requires scope { scope ≤ 300000 }
    requires before { IsBeforeOne store.now keys.now (Note.Cast scope t) account.old }
    ensures { IfOk result (λ b. ChangesOne store.now keys.now (Note.Cast scope t) account.old b account.new) }
{
    let pays = leave_one(store, keys, scope, account)?;
    put_type(store, keys, t, account)?;
    Ok(pays)
}

fn made(
    store: &Store,
    keys: &Keys,
    scope: u32,
    id: MsgId,
    account: &mut Account,
) -> Result<bool, NoMemory>
    requires scope { scope ≤ 300000 }
    requires before { IsBeforeOne store.now keys.now (Note.Make scope id) account.old }
    ensures { IfOk result
        (λ b. ChangesOne store.now keys.now (Note.Make scope id) account.old b account.new) }
{
    drop_atom(keys, AtomId::Check(id), account);
    leave_one(store, keys, scope, account)
}

// What a use with one process in its premises does to that one's effect, and whether it pays.
fn change_one(
    alloc: Global,
    store: &Store,
    keys: &Keys,
    note: &Note,
    account: &mut Account,
) -> Result<bool, NoMemory>
    requires small { IsSmallNote note.now }
    requires before { IsBeforeOne store.now keys.now note.now account.old }
    requires one { IsUnaryNote note.now }
    ensures { IfOk result (λ b. ChangesOne store.now keys.now note.now account.old b account.new) }
{
    match note {
        Note::Same => Ok(true),
        Note::LeaveOne(scope) => leave_one(store, keys, *scope, account),
        Note::LeaveTwo(scope) => leave_two(store, keys, *scope, account),
        Note::Serve(scope) => serve(store, keys, *scope, account),
        Note::Check(id, t) => checked(store, keys, *id, *t, account),
        Note::Begin(id) => Ok(begun(keys, *id, account)),
        Note::End(id) => ended(keys, *id, account),
        Note::EndMany(id) => ended_many(keys, *id, account),
        Note::Cast(scope, t) => casted(store, keys, *scope, *t, account),
        Note::Make(scope, id) => made(store, keys, *scope, *id, account),
        Note::Taken(ids) => written_over(alloc, keys, ids, account),
        _ => unreachable!(),
    }
}

// A use with one process in its premises.
fn change_top(
    alloc: Global,
    store: &Store,
    keys: &Keys,
    note: &Note,
    stack: &mut Vec<Account>,
) -> Result<bool, NoMemory>
    requires small { IsSmallNote note.now }
    requires before { IsBeforeChange store.now keys.now note.now stack.old.items }
    requires one { IsUnaryNote note.now }
    ensures { IfOk result (λ b. ChangesAll store.now keys.now note.now stack.old.items b stack.new.items) }
{
    match stack.pop() {
        None => Ok(true),
        Some(account) => {
            let mut next = account;
            let pays = change_one(alloc, store, keys, note, &mut next)?;
            stack.push(next)?;
            Ok(pays)
        }
    }
}

// The use of a form with no process in it.
fn change_none(alloc: Global, stack: &mut Vec<Account>) -> Result<bool, NoMemory>
    ensures { IfOk result
        (λ b. (s : Store) (keys : Keys) → IsKeyed s keys
        → ChangesAll s keys Note.Empty stack.old.items b stack.new.items) }
{
    stack.push(empty_account(alloc))?;
    Ok(true)
}

// Two processes side by side.
fn change_both(stack: &mut Vec<Account>) -> Result<bool, NoMemory>
    ensures { IfOk result
        (λ b. (s : Store) (keys : Keys) → IsKeyed s keys
        → ChangesAll s keys Note.Both stack.old.items b stack.new.items) }
{
    match stack.pop() {
        None => Ok(true),
        Some(a) => match stack.pop() {
            None => Ok(true),
            Some(b) => {
                let sum = a.summed(b)?;
                stack.push(sum)?;
                Ok(true)
            }
        },
    }
}

// The effects of a case's two processes in one.
fn both_sides(
    store: &Store,
    keys: &Keys,
    scope: u32,
    a: &mut Account,
    b: &mut Account,
) -> Result<bool, NoMemory>
    requires scope { scope ≤ 300000 }
    requires first { IsHeld store.now keys.now a.old }
    requires second { IsHeld store.now keys.now b.old }
    ensures { IfOk result
        (λ r. (es fs : Effect) → Held store.now keys.now (suc scope) a.old es
        → Held store.now keys.now (suc scope) b.old fs
        → Held store.now keys.now scope a.new es × Held store.now keys.now scope b.new fs
        × (r ≡ not (mentions scope es) && not (mentions scope fs))) }
{
    let first = leave_one(store, keys, scope, a)?;
    let second = leave_one(store, keys, scope, b)?;
    Ok(both(first, second))
}

fn change_branch(
    store: &Store,
    keys: &Keys,
    scope: u32,
    stack: &mut Vec<Account>,
) -> Result<bool, NoMemory>
    requires scope { scope ≤ 300000 }
    requires before { IsBeforeChange store.now keys.now (Note.Case scope) stack.old.items }
    ensures { IfOk result
        (λ b. ChangesAll store.now keys.now (Note.Case scope) stack.old.items b stack.new.items) }
{
    match stack.pop() {
        None => Ok(true),
        Some(a) => match stack.pop() {
            None => Ok(true),
            Some(b) => {
                let mut first = a;
                let mut second = b;
                let pays = both_sides(store, keys, scope, &mut first, &mut second)?;
                let most = first.greatest(second)?;
                stack.push(most)?;
                Ok(pays)
            }
        },
    }
}

// One use of the backward pass: whether it pays.
fn change(
    alloc: Global,
    store: &Store,
    keys: &Keys,
    note: &Note,
    stack: &mut Vec<Account>,
) -> Result<bool, NoMemory>
    requires small { IsSmallNote note.now }
    requires before { IsBeforeChange store.now keys.now note.now stack.old.items }
    ensures { IfOk result (λ b. ChangesAll store.now keys.now note.now stack.old.items b stack.new.items) }
{
    match note {
        Note::Nothing => Ok(true),
        Note::Empty => change_none(alloc, stack),
        Note::Both => change_both(stack),
        Note::Case(scope) => change_branch(store, keys, *scope, stack),
        _ => change_top(alloc, store, keys, note, stack),
    }
}

/// The effect of the root by counts, and the first use that doesn't pay.
pub fn account(
    alloc: Global,
    store: &Store,
    keys: &Keys,
    notes: Vec<Note>,
) -> Result<(Account, Option<u32>), NoMemory>
    requires few { vec_len notes < 2 ^ 32 }
    requires small { AreSmallNotes notes.items }
    requires noted { IsRooted store.now keys.now notes.items }
    ensures effect { IfOk result
        (λ r. (cs : List Change) (n : ℕ) → AreNoted store.now keys.now cs notes.items → AreScoped (n ∷ []) cs
        → Held store.now keys.now n r.0 (top_effect (run_changes cs))) }
    ensures unpaid { IfOk result
        (λ r. (cs : List Change) (n : ℕ) → AreNoted store.now keys.now cs notes.items → AreScoped (n ∷ []) cs
        → r.1 ≡ first_unpaid_change 0 cs) }
{
    // The count is asked for what its answer says: nothing has two numbers.
    let _ = store.distinct();
    let mut rest = notes;
    let mut stack = Vec::new(alloc);
    let mut unpaid = None;
    while let Some(note) = rest.pop() {
        let pays = change(alloc, store, keys, &note, &mut stack)?;
        drop(note);
        if !pays {
            unpaid = Some(rest.len() as u32);
        }
    }
    match stack.pop() {
        Some(root) => Ok((root, unpaid)),
        None => unreachable!(),
    }
}
