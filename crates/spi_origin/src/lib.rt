//! What stands behind a verdict: every node that blocks, and the nodes that put an atom in an effect.
#![tactic(auto)]

mod adding;
mod finding;
mod gathering;
mod laws;

pub use finding::{blocked, origins};
pub use laws::left_atoms_have_origins;
use std::alloc::AllocError;

/// Memory ran out.
pub type NoMemory = AllocError;
