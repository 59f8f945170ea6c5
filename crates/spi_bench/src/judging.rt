// What a bench asks its judge: whether the shared types are in order, and the least effect of a part.
ghost use Rattle.std.specs.Prelude.{◌≡◌, ◌↔◌, ◌+◌, ◌<◌, ◌≤◌, ◌++◌, ◌∷◌, [], true, length, map, All, IfOk, OnOk, IsTrue};
ghost use Rattle.spi_term.specs.Spelling.{HasFewTy};
ghost use Rattle.spi_term.specs.Term.{process_size};
ghost use Rattle.spi_term.specs.View.{ty};
ghost use Rattle.spi_rules.specs.Environment.{Env};
ghost use Rattle.spi_rules.specs.Good.{GoodTy};
ghost use Rattle.spi_rules.specs.Processes.{IsGenerative};
ghost use Rattle.spi_message.specs.Judging.{Stands, IsKept};
ghost use Rattle.spi_infer.specs.Inferring.{IsLeast};
ghost use Rattle.spi_bench.specs.Whole.{AreShared};

use crate::NoMemory;
use spi_infer::{Inferred, Steps, infer_in};
use spi_message::Judge;
use spi_term::{Effect, Process, Ty};
use std::alloc::Global;
use std::sync::ledger::Ledger;

// Whether `new` may make a name of the type.
fn is_made(t: &Ty) -> bool
    ensures { IsTrue result ↔ IsGenerative (ty t.now) }
{
    match t {
        Ty::Un => true,
        Ty::Key(_) => true,
        Ty::Unit => false,
        Ty::Pair(_) => false,
        Ty::Sum(_) => false,
        Ty::Nonce(_) => false,
    }
}

fn are_all(fine: bool, made: bool, good: bool) -> bool
    ensures { IsTrue result ↔ (IsTrue fine × IsTrue made × IsTrue good) }
{
    fine && made && good
}

// One shared name more. It answers whether all was in order before, `new` may make the type, and the type is good.
fn bind_shared(alloc: Global, judge: &mut Judge, t: &Ty, fine: bool) -> Result<bool, NoMemory>
    requires names { length judge.old.types < 100000 }
    requires small { HasFewTy (ty t.now) }
    ensures stands { OnOk result
        ((env : Env) → Stands judge.old env → Stands judge.new (env ++ ty t.now ∷ [])) }
    ensures answer { IfOk result
        (λ b. (env : Env) → Stands judge.old env
        → (b ≡ true) ↔ ((fine ≡ true) × (IsGenerative (ty t.now) × GoodTy [] env (ty t.now)))) }
    ensures more { OnOk result (length judge.new.types ≡ length judge.old.types + 1) }
{
    let id = judge.ty(alloc, t)?;
    let good = judge.good_type(alloc, id)?;
    judge.bind(id)?;
    let made = is_made(t);
    Ok(are_all(fine, made, good))
}

/// Binds the shared types in order. It answers whether each is one that `new` may make, and good in the environment of the
/// names before it.
pub fn bind_all(alloc: Global, judge: &mut Judge, shared: &[Ty]) -> Result<bool, NoMemory>
    requires names { length judge.old.types + length shared.now ≤ 100000 }
    requires small { All (λ t. HasFewTy (ty t)) shared.now }
    ensures stands { OnOk result
        ((env : Env) → Stands judge.old env → Stands judge.new (env ++ map ty shared.now)) }
    ensures answer { IfOk result
        (λ b. (env : Env) → Stands judge.old env → (b ≡ true) ↔ AreShared env (map ty shared.now)) }
{
    let mut fine = true;
    for t in shared {
        fine = bind_shared(alloc, judge, t, fine)?;
    }
    Ok(fine)
}

/// The least effect of a part in the judge's environment, where it has one.
pub fn least_of<L: Ledger>(
    alloc: Global,
    judge: &mut Judge,
    part: &Process,
    steps: &mut Steps<L>,
) -> Result<Option<Effect>, NoMemory>
    requires { length judge.old.types ≡ part.now.names }
    ensures least { IfOk result (λ r. (env : Env) → Stands judge.old env → IsLeast env part.now.process r) }
    ensures kept { IsKept judge.old judge.new }
    ensures steps { (steps.old ≤ steps.new) × (steps.new ≤ steps.old + process_size part.now.process) }
{
    match infer_in(alloc, judge, part, steps) {
        Ok(inferred) => match inferred {
            Inferred::Least(effect) => Ok(Some(effect)),
            Inferred::Blocked(_) => Ok(None),
        },
        Err(fault) => Err(fault),
    }
}
