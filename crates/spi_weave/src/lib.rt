//! The file that a narration is woven into.
#![tactic(auto)]

mod copies;
mod forms;
mod laws;
mod roles;
mod woven;

pub use laws::{woven_nodes_start_within, woven_trees_are_formed};
use std::alloc::AllocError;
pub use woven::{weave, weave_declared};

/// Memory ran out.
pub type NoMemory = AllocError;
