//! What a bench is written as.

use spi_heading::Shared;
use spi_text::Span;
use spi_tree::{Decl, SProc, SWord};

/// A bench: what it declares, the names that all parts share, and edits of its parts.
#[derive(Drop)]
pub struct BenchText<'b> {
    /// 1, or 2 where the bench begins with `version 2;`
    pub version: u32,
    pub decls: Vec<Decl<'b>>,
    pub shared: Vec<Shared<'b>>,
    pub edits: Vec<Edit<'b>>,
    pub span: Span,
}

/// An edit of one part.
pub enum Edit<'b> {
    /// `put A { P }`
    Put {
        name: SWord,
        part: SProc<'b>,
        span: Span,
    },
    /// `drop A;`
    Drop {
        name: SWord,
        span: Span,
    },
}

impl<'b> Drop for Edit<'b> {
    fn drop(self) {
        match self {
            Edit::Put {
                name: _,
                part: _,
                span: _,
            } => {}
            Edit::Drop { name: _, span: _ } => {}
        }
    }
}
