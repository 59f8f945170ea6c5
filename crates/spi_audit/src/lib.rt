//! Audits of typing derivations: a derivation that anyone made is judged use by use, by the rules alone.
#![tactic(auto)]

ghost use Rattle.std.specs.Prelude.{◌<◌, ◌^◌, ℕ, List, [], ◌∷◌, IfOk, vec_len};
ghost use Rattle.spi_term.specs.Term as Term;
ghost use Rattle.spi_rules.specs.Deriv.{rule_uses, IsTree};
ghost use Rattle.spi_audit.specs.Audit.{IsAudited};
ghost use Rattle.spi_audit.specs.Accounts.{IsHeld, Held};
ghost use Rattle.spi_audit.specs.Changes.{Change, AreScoped};
ghost use Rattle.spi_count.specs.Sums.{Below};
ghost use Rattle.spi_audit.specs.Notes.{AreNoted, AreSmallNotes, IsRooted};
ghost use Rattle.spi_audit.specs.Settled.{IsLeftOver, IsSettled};

mod accounts;
mod asked;
mod audited;
mod changing;
mod forms;
mod laws;
mod messages;
mod notes;
mod noting;
mod opening;
mod walking;

use crate::accounts::Account;
use crate::changing::account;
use crate::notes::Note;
use crate::walking::{Walk, walk_uses};
pub use audited::Audited;
pub use laws::{judged_is_proved, one_audit};
use spi_count::{Keys, effect_of_sum};
use spi_intern::Store;
use spi_message::Judge;
use spi_rules::Deriv;
use spi_term::{Effect, Process};
use std::alloc::{AllocError, Global};

/// Memory ran out.
pub type NoMemory = AllocError;

// What is left unpaid where each use pays.
fn left(alloc: Global, store: &Store, keys: &Keys, root: Account) -> Result<Audited, NoMemory>
    requires { IsHeld store.now keys.now root }
    ensures { IfOk result
        (λ r. (es : Term.Effect) (n : ℕ) → Held store.now keys.now n root es → Below n es → IsLeftOver es r) }
{
    let effect = effect_of_sum(alloc, store, keys, root.into_sum())?;
    if effect.atoms.is_empty() {
        Ok(Audited::Proved)
    } else {
        Ok(Audited::Unpaid { effect })
    }
}

// What the uses come to, where each fits.
fn settled(alloc: Global, store: &Store, keys: &Keys, notes: Vec<Note>) -> Result<Audited, NoMemory>
    requires few { vec_len notes < 2 ^ 32 }
    requires small { AreSmallNotes notes.items }
    requires noted { IsRooted store.now keys.now notes.items }
    ensures { IfOk result
        (λ r. (cs : List Change) (n : ℕ) → AreNoted store.now keys.now cs notes.items → AreScoped (n ∷ []) cs
        → IsSettled cs r) }
{
    // The count is asked for what its answer says: nothing has two numbers.
    let _ = store.distinct();
    let (root, unpaid) = account(alloc, store, keys, notes)?;
    match unpaid {
        Some(index) => Ok(Audited::WrongStep { index }),
        None => left(alloc, store, keys, root),
    }
}

/// Judges a derivation of a process whose free names are untrusted, use by use. Nothing is inferred: each use is held
/// against its row of the table of rules.
pub fn audit(alloc: Global, process: &Process, d: &Deriv) -> Result<Audited, NoMemory>
    requires few { vec_len d.now.uses < 2 ^ 32 }
    requires tree { IsTree (rule_uses d.now) }
    ensures { IfOk result (λ a. IsAudited process.now.names process.now.process (rule_uses d.now) a) }
{
    let _ = process.len();
    let mut judge = Judge::new(alloc, process.names())?;
    let mut keys = Keys::new(alloc);
    match walk_uses(alloc, &mut judge, &mut keys, process, d)? {
        Walk::Misfit(index) => Ok(Audited::WrongStep { index }),
        Walk::Fitting(notes) => settled(alloc, judge.store(), &keys, notes),
    }
}
