// What is kept of a use, by numbers.
use spi_intern::{AtomId, MsgId, TyId};

/// What a use does to the effects of the processes in its premises, by the numbers of a store. A number of names is the
/// number of names in scope at the use.
#[derive(Drop)]
pub enum Note {
    /// A message's use does nothing.
    Nothing,
    /// The empty effect, of a form with no process in it.
    Empty,
    /// The effect of the process.
    Same,
    /// The same, which must not have the name that is bound.
    LeaveOne(u32),
    /// The same, which must not have the two names that are bound.
    LeaveTwo(u32),
    /// The same, of which each atom must be a `many`, without the name that is bound.
    Serve(u32),
    /// The greater counts of two, neither with the name that is bound.
    Case(u32),
    /// The message that is checked goes in, and the effect of a Nonce type out.
    Check(MsgId, TyId),
    /// The ends of a label go out.
    Begin(MsgId),
    End(MsgId),
    EndMany(MsgId),
    /// The effect of a Nonce type goes in.
    Cast(u32, TyId),
    /// The check of a name that is made goes out.
    Make(u32, MsgId),
    /// The sum of two.
    Both,
    /// An effect that is written in place of the process's.
    Taken(Vec<AtomId>),
}
