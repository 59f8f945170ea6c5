//! Typing derivations of accepted processes, and their text.
#![tactic(auto)]

mod agenda;
mod choosing;
mod derivation;
mod laws;
mod messages;
mod seeing;

pub use derivation::{derive, write};
pub use laws::one_canonical;
use std::alloc::AllocError;

/// Memory ran out.
pub type NoMemory = AllocError;
