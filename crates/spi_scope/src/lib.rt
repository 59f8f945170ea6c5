//! The file that a tree stands for: names and abbreviations resolved, types expanded, nodes counted.
#![tactic(auto)]

mod arena;
mod declarations;
mod derivations;
mod fault;
mod file;
mod forms;
mod guesses;
mod heads;
mod laws;
mod marks;
mod messages;
mod names;
mod processes;
mod resolution;
mod room;
mod schedules;
mod scope;
mod small;
mod spelling;
mod trail;
mod types;

pub use fault::ScopeFault;
pub use file::File;
pub use laws::{faults_stand_at_nodes, points_stand_at_tokens};
pub use resolution::{one_or_other, resolve};
use std::alloc::AllocError;

/// Memory ran out.
pub type NoMemory = AllocError;
