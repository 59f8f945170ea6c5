// What the passes keep of a node by numbers.

ghost use Rattle.std.specs.Prelude.{◌≡◌};
ghost use Rattle.spi_intern.specs.declared.messages.MsgId as Ids;
ghost use Rattle.spi_intern.specs.declared.types.TyId as Types;

use spi_count::Keys;
use spi_intern::{MsgId, TyId};

/// What a form adds to the effect of its process or takes off, by the numbers of a store.
#[derive(Clone, Copy)]
pub enum Own {
    /// Nothing.
    Nothing,
    /// The label of a `begin`, an `end` or an `endmany`.
    Label(MsgId),
    /// The message that is checked, and the type of the nonce where that is a Nonce type.
    Checked(MsgId, Option<TyId>),
    /// The type that a message is cast to.
    Cast(TyId),
    /// The name that is made.
    Made(MsgId),
}

impl Own {
    /// The label, where one is kept.
    pub fn label(self) -> Option<MsgId>
        ensures { (id : Ids.MsgId) → self ≡ Own.Label id → result ≡ Some id }
    {
        match self {
            Own::Label(id) => Some(id),
            _ => None,
        }
    }

    /// The type that is cast to, where one is kept.
    pub fn cast(self) -> Option<TyId>
        ensures given { (t : Types.TyId) → self ≡ Own.Cast t → result ≡ Some t }
        ensures taken { (t : Types.TyId) → result ≡ Some t → self ≡ Own.Cast t }
    {
        match self {
            Own::Cast(t) => Some(t),
            _ => None,
        }
    }

    /// The name that is made, where one is kept.
    pub fn made(self) -> Option<MsgId>
        ensures { (id : Ids.MsgId) → self ≡ Own.Made id → result ≡ Some id }
    {
        match self {
            Own::Made(id) => Some(id),
            _ => None,
        }
    }
}

/// What the forward pass keeps of a node: whether what the form asks for itself holds, and where it does what it adds to
/// an effect or takes off.
#[derive(Clone, Copy)]
pub struct OwnNote {
    pub fine: bool,
    pub own: Own,
}

/// What the forward pass keeps of a process: what it keeps of each node, and the keys of the messages that may stand in
/// effects.
pub struct Noted {
    pub notes: Vec<OwnNote>,
    pub keys: Keys,
}

impl Drop for Noted {
    fn drop(self) {
        let Noted { notes: _, keys: _ } = self;
    }
}
