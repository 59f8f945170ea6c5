// The environment of the forward pass: a judge's names grow at binders, and are cut back to each node's scope.
ghost use Rattle.std.specs.Prelude.{◌≡◌, ◌+◌, ◌-◌, ◌<◌, ◌≤◌, List, [], ◌∷◌, ◌++◌, OnOk, length};
ghost use Rattle.spi_term.specs.Term.{name};
ghost use Rattle.spi_term.specs.Substitution.{ty_put};
ghost use Rattle.spi_term.specs.Term as Term;
ghost use Rattle.spi_term.specs.View.{shape_of};
ghost use Rattle.spi_intern.specs.Meaning.{Keeps};
ghost use Rattle.spi_message.specs.Judging.{Numbered};
ghost use Rattle.spi_infer.specs.Passes.{Wait, entered, settled, left_waiting};
ghost use Rattle.spi_infer.specs.Waiting.{Queued, CanReach};
ghost use Rattle.spi_message.specs.Tested.{NumbersMessage, NumbersType, Turns};
ghost use Rattle.spi_infer.specs.Terms.{IsMessage, IsType, AreTermsOf};
ghost use Rattle.spi_infer.specs.Walking.{IsAbove};

use crate::terms::Terms;
use crate::waiting::{Pending, due};
use spi_intern::{MsgId, TyId};
use spi_message::{Judge, NoMemory, cut_to};
use spi_term::{Form, Msg, Node};
use std::alloc::Global;

// One more name of the type with this number.
#[tactic(auto, using(crate::proofs::Bound::above_kept))]
fn bind_type(judge: &mut Judge, id: TyId) -> Result<(), NoMemory>
    requires room { length judge.old.types ≤ 400000 }
    requires ty { IsType judge.old id }
    ensures bound { OnOk result
        ((t : Term.Ty) → NumbersType judge.old id t → Turns judge.old judge.new (λ e. e ++ t ∷ [])) }
    ensures more { OnOk result (length judge.new.types ≡ length judge.old.types + 1) }
    ensures above { IsAbove judge.old judge.new }
{
    judge.bind(id)
}

// One more name, of a type that stands under a binder, for which the message with this number stands.
#[tactic(auto, using(crate::proofs::Bound::above_kept, crate::proofs::Bound::above_more))]
fn bind_opened(alloc: Global, judge: &mut Judge, id: TyId, value: MsgId) -> Result<(), NoMemory>
    requires room { length judge.old.types ≤ 400000 }
    requires ty { IsType judge.old id }
    requires message { IsMessage judge.old value }
    ensures bound { OnOk result
        ((t : Term.Ty) (m : Term.Message) → NumbersType judge.old id t → NumbersMessage judge.old value m
        → Turns judge.old judge.new (λ e. e ++ ty_put m t ∷ [])) }
    ensures above { IsAbove judge.old judge.new }
{
    let filled = judge.opened(alloc, id, value)?;
    judge.bind(filled)
}

#[tactic(auto, using(crate::proofs::Bound::above_kept, crate::proofs::Bound::above_more))]
fn enter_split(alloc: Global, judge: &mut Judge, terms: Terms) -> Result<(), NoMemory>
    requires room { length judge.old.types ≤ 300001 }
    requires first { IsType judge.old terms.ty }
    requires second { IsType judge.old terms.second }
    ensures bound { OnOk result
        ((t u : Term.Ty) → NumbersType judge.old terms.ty t → NumbersType judge.old terms.second u
        → Turns judge.old judge.new (λ e. e ++ t ∷ (ty_put (name (length e)) u ∷ []))) }
    ensures above { IsAbove judge.old judge.new }
{
    let name = Msg::Name(judge.len());
    bind_type(judge, terms.ty)?;
    let value = judge.message(&name)?;
    bind_opened(alloc, judge, terms.second, value)
}

/// The names that a form binds in its first process are bound, by the numbers of its terms.
#[tactic(auto, using(crate::proofs::Bound::turns_same, crate::proofs::Bound::turns_nil, crate::proofs::Bound::above_same))]
pub fn enter(alloc: Global, judge: &mut Judge, node: &Node, terms: Terms) -> Result<(), NoMemory>
    requires room { length judge.old.types ≤ 300001 }
    requires terms { AreTermsOf judge.old (shape_of node.now) terms }
    ensures bound { OnOk result (Turns judge.old judge.new (λ e. entered e (shape_of node.now))) }
    ensures above { IsAbove judge.old judge.new }
{
    match &node.form {
        Form::Recv { .. } => bind_type(judge, terms.ty),
        Form::Serve { .. } => bind_type(judge, terms.ty),
        Form::Split { .. } => enter_split(alloc, judge, terms),
        Form::Select { .. } => bind_opened(alloc, judge, terms.second, terms.other),
        Form::Branch { .. } => bind_type(judge, terms.ty),
        Form::Decrypt { .. } => bind_type(judge, terms.ty),
        Form::Cast { .. } => bind_type(judge, terms.ty),
        Form::Fresh { .. } => bind_type(judge, terms.ty),
        _ => Ok(()),
    }
}

/// The environment is cut back to a node's scope, and the type that waits for the node is bound.
#[tactic(auto, using(spi_intern::proofs::Meanings::terms_same))]
pub fn settle(
    judge: &mut Judge,
    id: u32,
    scope: u32,
    pending: &mut Vec<Pending>,
) -> Result<(), NoMemory>
    requires low { CanReach judge.old.free id scope judge.old.store pending.old.items }
    requires few { scope ≤ 300000 }
    ensures bound { OnOk result
        ((ws : List Wait) → Queued judge.old.store pending.old.items ws
        → Turns judge.old judge.new (λ e. settled id scope e ws)) }
    ensures rest { OnOk result
        ((ws : List Wait) → Queued judge.old.store pending.old.items ws
        → Queued judge.new.store pending.new.items (left_waiting id ws)) }
    ensures few { OnOk result (length judge.new.types ≤ 300001) }
    ensures store { Keeps judge.old.store judge.new.store }
    ensures above { (first : Numbered) → IsAbove first judge.old
        → CanReach (length first.types) id scope judge.old.store pending.old.items → IsAbove first judge.new }
{
    match due(id, pending)? {
        None => {
            cut_to(judge, scope);
            Ok(())
        }
        Some(ty) => {
            let outer = scope.saturating_sub(1);
            cut_to(judge, outer);
            judge.bind(ty)
        }
    }
}
