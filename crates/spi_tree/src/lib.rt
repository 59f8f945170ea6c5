//! The trees that files are written as, and the tokens that spell them.
#![tactic(auto)]

mod list;
mod listed_processes;
mod listed_types;
mod room;
mod tokens;
mod tree;

pub use room::{Room, abbreviated, named, place_to, placed, row, single};
use std::alloc::AllocError;
pub use tokens::tokens_of;
pub use tree::{
    BothParts, CaseParts, CastParts, CheckParts, Decl, DecryptParts, EncParts, EventParts,
    InpParts, Last, MatchParts, MsgParts, NewParts, OutParts, OutThenParts, SAtom, SDeriv, SEffect,
    SField, SMsg, SProc, SStep, STy, SWord, SplitParts, SumParts, Tree, TyParts,
};

/// Memory ran out.
pub type NoMemory = AllocError;
