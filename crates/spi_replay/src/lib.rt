//! Pools: configurations that are run step by step.
#![tactic(auto)]

mod acting;
mod fault;
mod handing;
pub mod index;
mod laws;
mod listing;
mod names;
mod operands;
mod places;
mod pool;
mod reading;
mod running;
mod tables;
mod waits;

pub use fault::StepFault;
pub use laws::one_order;
pub use pool::Pool;
use std::alloc::AllocError;

/// Memory ran out.
pub type NoMemory = AllocError;
