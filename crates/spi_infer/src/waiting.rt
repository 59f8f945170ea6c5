// Types that wait for the second processes of cases.
ghost use Rattle.std.specs.Prelude.{◌≡◌, List, reverse, IfOk, OnOk, IfSome, IfNone};
ghost use Rattle.spi_term.specs.View.{shape_of};
ghost use Rattle.spi_message.specs.Judging.{Numbered};
ghost use Rattle.spi_infer.specs.Passes.{Wait, waiting};
ghost use Rattle.spi_infer.specs.Terms.{AreTermsOf};
ghost use Rattle.spi_infer.specs.Waiting.{Queued, IsDue, IsNotDue};

use crate::terms::Terms;
use spi_intern::TyId;
use spi_message::NoMemory;
use spi_term::{Form, Node};

/// The number of a type that waits for the second process of a case, and the number of the node at which that process
/// begins.
#[derive(Clone, Copy)]
pub struct Pending {
    pub at: u32,
    pub ty: TyId,
}

/// The type of a case's second name waits for its process, by its number.
pub fn put_off(node: &Node, terms: Terms, pending: &mut Vec<Pending>) -> Result<(), NoMemory>
    ensures { OnOk result
        ((j : Numbered) (ws : List Wait) → AreTermsOf j (shape_of node.now) terms
        → Queued j.store pending.old.items ws
        → Queued j.store pending.new.items (waiting ws (shape_of node.now))) }
{
    match &node.form {
        Form::Branch { on_right, .. } => {
            pending.push(Pending {
                at: *on_right,
                ty: terms.second,
            })?;
            Ok(())
        }
        _ => Ok(()),
    }
}

/// The last type that waits, if it waits for this place.
pub fn due(id: u32, pending: &mut Vec<Pending>) -> Result<Option<TyId>, NoMemory>
    ensures some { IfOk result (λ r. IfSome r (IsDue id pending.old.items pending.new.items)) }
    ensures none { IfOk result
        (λ r. IfNone r ((pending.new.items ≡ pending.old.items) × IsNotDue id (reverse pending.old.items))) }
{
    match pending.pop() {
        None => Ok(None),
        Some(last) => {
            if last.at == id {
                Ok(Some(last.ty))
            } else {
                pending.push(last)?;
                Ok(None)
            }
        }
    }
}
