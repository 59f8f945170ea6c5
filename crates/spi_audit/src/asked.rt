// What uses are asked of, by numbers.
ghost use Rattle.std.specs.Prelude.{◌≡◌, ◌++◌, reverse, OnOk};
ghost use Rattle.spi_audit.specs.Asked.{listed};

use crate::NoMemory;
use spi_intern::{MsgId, TyId};

/// The types of the names that are bound before a process, by the numbers of a store.
#[derive(Clone, Copy)]
pub enum Binding {
    Nothing,
    OneName(TyId),
    TwoNames(TyId, TyId),
}

/// What a use is asked of, by the numbers of a store.
#[derive(Clone, Copy)]
pub enum Asked {
    /// That a message has a type.
    Message(MsgId, TyId),
    /// Which effect the process at a node has, where so many of the names in scope are its, and then some more.
    Process(u32, u32, Binding),
}

/// What the premises of a use are asked of, in their order.
#[derive(Clone, Copy)]
pub enum Premises {
    NoPremise,
    OnePremise(Asked),
    TwoPremises(Asked, Asked),
    ThreePremises(Asked, Asked, Asked),
}

/// The premises of a use where it fits, and none where it doesn't.
pub type FittingPremises = Result<Option<Premises>, NoMemory>;

/// The first premise comes to the top.
pub fn push_premises(asked: &mut Vec<Asked>, premises: Premises) -> Result<(), NoMemory>
    ensures { OnOk result (reverse asked.new.items ≡ listed premises ++ reverse asked.old.items) }
{
    match premises {
        Premises::NoPremise => Ok(()),
        Premises::OnePremise(a) => {
            asked.push(a)?;
            Ok(())
        }
        Premises::TwoPremises(a, b) => {
            asked.push(b)?;
            asked.push(a)?;
            Ok(())
        }
        Premises::ThreePremises(a, b, c) => {
            asked.push(c)?;
            asked.push(b)?;
            asked.push(a)?;
            Ok(())
        }
    }
}
