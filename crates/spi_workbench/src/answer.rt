//! What a bench answers.

use spi_scope::ScopeFault;
use spi_text::{Span, Text};

/// Why a bench is refused, and where.
#[derive(Drop)]
pub enum Refusal {
    /// There are more than 16 shared names, `count` of them. The span is that of the seventeenth.
    TooManyShared { span: Span, count: u64 },
    /// The first fault of the declarations and shared types, or of a part behind them.
    Scope(ScopeFault),
    /// There are more than 1,000 edits, `count` of them. The span is that of edit 1,001.
    TooManyEdits { span: Span, count: u64 },
    /// A part is dropped that isn't there.
    UnknownPart { span: Span, word: Text },
    /// The declarations, the shared types and all parts put so far have more than 100,000 nodes, `count` of them with the
    /// part whose name is at `span`.
    BenchTooLarge { span: Span, count: u64 },
}

/// The verdicts of a bench.
#[derive(Drop)]
pub struct Verdicts {
    /// One for each edit, in order.
    pub each: Vec<bool>,
    /// That of the parts that are there in the end, and with no edits that of no parts.
    pub last: bool,
}

/// What a bench answers.
#[derive(Drop)]
pub enum Answer {
    Judged(Verdicts),
    Refused(Refusal),
}
