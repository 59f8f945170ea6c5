//! The honest schedule of a narration.
#![tactic(auto)]

mod fault;
mod free;
mod honest;
mod laws;
mod lines;
mod opening;
mod roles;
mod schedule;
mod stage;

pub use fault::HonestFault;
pub use free::FreeNames;
pub use honest::Honest;
pub use laws::faultless_is_tellable;
pub use schedule::schedule_of;
use std::alloc::AllocError;

/// Memory ran out.
pub type NoMemory = AllocError;
