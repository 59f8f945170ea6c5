//! Generated files: sessions of the nonce handshake beside one another.
#![tactic(auto)]

mod beside;
mod parts;

pub use beside::sessions;
use std::alloc::AllocError;

/// Memory ran out.
pub type NoMemory = AllocError;
