//! The tree of a file's tokens, or the exact fault.
#![tactic(auto, using(crate::proofs::Readers::read_is_step))]

mod boxes;
mod bytes;
mod cursor;
mod declarations;
mod derivations;
mod effects;
mod fault;
mod files;
mod forms;
mod heads;
mod laws;
mod messages;
mod parts;
mod processes;
mod reading;
mod schedules;
mod seen;
mod types;
mod whole;

pub use bytes::parse_bytes;
pub use fault::{ByteFault, ParseFault};
pub use laws::one_placed_tree;
pub use parts::{
    decl_at, decl_in, message_at, message_in, one_tree, process_at, process_in, type_at, type_in,
};
use std::alloc::AllocError;
pub use whole::parse;

/// Memory ran out.
pub type NoMemory = AllocError;
