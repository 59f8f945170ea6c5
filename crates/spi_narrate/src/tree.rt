//! The trees of narrations.

use spi_heading::{Named, Shared};
use spi_text::Span;
use spi_tree::{Decl, SMsg, SWord};

/// A narration: `["version" 2 ";"]? {Decl}* {Shared}* "roles" A, B, ..; {Line}*`. The first role stands apart, since there is one.
#[derive(Drop)]
pub struct Narration<'b> {
    pub version: u32,
    pub decls: Vec<Decl<'b>>,
    pub shared: Vec<Shared<'b>>,
    pub first: SWord,
    pub more: Vec<SWord>,
    pub lines: Vec<Line<'b>>,
    pub span: Span,
}

/// A line of a narration.
#[derive(Drop)]
pub enum Line<'b> {
    /// `A: X;`
    Local {
        role: SWord,
        prefix: Prefix<'b>,
        span: Span,
    },
    /// `A to B on c: M as x;`
    Pass {
        from: SWord,
        to: SWord,
        channel: SWord,
        datum: SMsg<'b>,
        name: SWord,
        span: Span,
    },
}

/// What a role does by itself: the part of a process form before `; P`. The second of two names lies in a place of its own,
/// and so does what the first is equal to, so that each line stays small.
#[derive(Drop)]
pub enum Prefix<'b> {
    /// `split M is (x: T, y: U)`
    Split {
        whole: SMsg<'b>,
        left: Named<'b>,
        right: Box<Named<'b>>,
        span: Span,
    },
    /// `match M is (x: T = N, y: U)`
    Match {
        whole: SMsg<'b>,
        left: Named<'b>,
        equal: Box<SMsg<'b>>,
        right: Box<Named<'b>>,
        span: Span,
    },
    /// `decrypt M is {x: T}N`
    Decrypt {
        whole: SMsg<'b>,
        bound: Named<'b>,
        key: SMsg<'b>,
        span: Span,
    },
    /// `check M is N`
    Check {
        whole: SMsg<'b>,
        nonce: SMsg<'b>,
        span: Span,
    },
    /// `begin L`
    Begin {
        label: SMsg<'b>,
        span: Span,
    },
    /// `end L`
    End {
        label: SMsg<'b>,
        span: Span,
    },
    /// `endmany L`, in version 2
    EndMany {
        label: SMsg<'b>,
        span: Span,
    },
    /// `cast M is (x: T)`
    Cast {
        whole: SMsg<'b>,
        bound: Named<'b>,
        span: Span,
    },
    /// `new (x: T)`
    New {
        bound: Named<'b>,
        span: Span,
    },
}
