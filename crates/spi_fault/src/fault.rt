// Faults: why a process isn't derivable with the empty effect.
use spi_term::{Atom, Msg};

/// Why a process isn't derivable with the empty effect.
#[derive(Clone, Copy, PartialEq, Eq)]
pub enum Reason {
    /// The channel doesn't have type `Un`.
    ChannelNotUn,
    /// What is put out doesn't have type `Un`.
    DatumNotUn,
    /// A written type isn't good, or isn't `Un` where nothing else may stand.
    BadType,
    /// What is split, matched, looked at, decrypted, checked or cast doesn't have the type that this asks for.
    WrongScrutinee,
    /// The key isn't one of this type.
    WrongKey,
    /// What a nonce is checked against is neither a name of a Nonce type nor untrusted.
    NotANonce,
    /// What begins or ends isn't a label.
    NotALabel,
    /// `new` makes neither an untrusted name nor a key.
    NotGenerative,
    /// The effect of the process of `repeat` has an atom that isn't a `many`.
    BodyHasEffect,
    /// A name that the node binds is free in the effect of the process behind it.
    EffectEscapes,
    /// Each node is well typed, and an atom of the least effect isn't paid for.
    Unpaid,
    /// The first part that `match` asks for doesn't have the written type.
    WrongFirst,
    /// `cast` asks for neither `Un` nor a Nonce type.
    BadCast,
}

/// What a fault shows.
pub enum Shown {
    Message(Msg),
    Atom(Atom),
}

impl Drop for Shown {
    fn drop(self) {
        match self {
            Shown::Message(_) | Shown::Atom(_) => {}
        }
    }
}

/// A fault of a process.
#[derive(Drop)]
pub struct Fault {
    pub reason: Reason,
    /// The number of the node, in preorder from 0.
    pub node: u32,
    /// The number of the node in whose scope the shown term is read: for `BodyHasEffect` and `EffectEscapes` that of the
    /// process which has the effect, and else `node`.
    pub scope_of: u32,
    /// The message or the atom that fails, where the reason has one.
    pub shown: Option<Shown>,
}
