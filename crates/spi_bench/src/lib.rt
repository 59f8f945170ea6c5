//! The workbench: parts of a protocol by name, and the verdict of the whole after each edit.
#![tactic(auto)]

mod bench;
mod judging;
mod laws;
mod naming;
mod slot;
mod sums;
mod table;

pub use bench::{Bench, PutFault};
pub use laws::parts_decide;
use std::alloc::AllocError;

/// Memory ran out.
pub type NoMemory = AllocError;
