//! Events: which begin pays for which end, and whether each end is paid for.
#![tactic(auto)]

mod labels;
mod laws;
mod paid;
mod pair;
mod queue;

pub use laws::{each_begin_once, one_pairing, paired_is_paid};
pub use paid::{always_paid, always_paid_many};
pub use pair::{Pairing, pair_up};
use std::alloc::AllocError;

/// Memory ran out.
pub type NoMemory = AllocError;
