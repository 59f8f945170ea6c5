//! Effects by counts: the form of an effect in which one is merged into another in the time of the smaller. The messages in
//! one are those of a judge's store, each with a key.
#![tactic(auto)]

mod atoms;
mod counts;
mod keeping;
mod keys;
mod pile;
mod piling;
mod reading;
mod sum;

pub use atoms::{add_atom, add_atoms, add_type, take_atom, take_type};
pub use counts::Counts;
pub use keeping::{keep_atoms, keep_message};
pub use keys::Keys;
pub use pile::{Late, Pile};
pub use piling::{drop_atom, drop_type, put_atom, put_type};
pub use reading::{effect_of_pile, effect_of_sum};
use std::alloc::AllocError;
pub use sum::{AtomKind, Sum};

/// Memory ran out.
pub type NoMemory = AllocError;
