//! What an intruder knows who has the messages sent: a decision with certificates, their check, and the laws of knowledge.
#![tactic(auto)]

mod cert;
mod clauses;
mod deciding;
mod laws;
mod secret;
mod spelling;

pub use cert::{By, Cert, CertLine, check_cert};
pub use deciding::{Knowledge, decide};
pub use laws::{
    certified_is_known, closed_has_all, knowledge_is_local, known_is_made_of_reached,
    reached_is_least,
};
pub use secret::{keys_stay_unknown, sent_is_shown};
use std::alloc::AllocError;

/// Memory ran out.
pub type NoMemory = AllocError;
