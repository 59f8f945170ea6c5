//! Why a narration has no honest schedule.

use thiserror::Error;

/// Why a narration has no honest schedule. `line` is the number of the first line that is wrong, counted from 0.
#[derive(Debug, Drop, Error)]
pub enum HonestFault {
    /// The line isn't ready: it has no value.
    #[error("line {line} isn't ready")]
    LineNotReady { line: u32 },
    /// A message that the line binds or reports has more than 1,000 nodes. It is the number of nodes of the largest, and
    /// stops at u64's greatest value.
    #[error("a message of {nodes} nodes in line {line}")]
    NarratedTooLarge { line: u32, nodes: u64 },
    /// Memory ran out.
    #[error("out of memory")]
    NoMemory,
}
