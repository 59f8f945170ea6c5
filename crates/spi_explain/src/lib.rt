//! Explanations of a verdict: the line that `check` writes, every node that blocks, where an unpaid atom comes from, and
//! what is to blame in a node's messages.
#![tactic(auto)]

mod blaming;
mod explaining;

pub use blaming::{Answer, blames};
pub use explaining::{Explained, explain_file};
use std::alloc::AllocError;

/// Memory ran out.
pub type NoMemory = AllocError;
