//! What a narration answers.

use spi_scope::{File, ScopeFault};
use spi_text::{Span, Text};

/// Why a narration is refused, and where.
pub enum Refusal {
    /// The first word after `on` that isn't a free name.
    NotFree { span: Span, word: Text },
    /// The first fault of the tree that the narration is woven into.
    Scope(ScopeFault),
    /// The line, which has this span, has no value.
    NotReady { span: Span },
    /// A message that the line binds or reports has more than 1,000 nodes: the nodes of the largest.
    TooLarge { span: Span, nodes: u64 },
}

impl Drop for Refusal {
    fn drop(self) {
        match self {
            Refusal::NotFree { span: _, word: _ } => {}
            Refusal::Scope(_) => {}
            Refusal::NotReady { span: _ } => {}
            Refusal::TooLarge { span: _, nodes: _ } => {}
        }
    }
}

/// What a narration answers.
#[derive(Drop)]
pub enum Answer {
    /// The file that it is woven into, with the honest schedule.
    Told(File),
    Refused(Refusal),
}
