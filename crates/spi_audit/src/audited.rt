// What an audit finds.
use spi_term::Effect;

/// What an audit finds.
#[derive(Drop)]
pub enum Audited {
    /// The derivation proves that the process has the empty effect.
    Proved,
    /// The use with this index, counted from 0 in preorder, is the first that doesn't fit, or, where all fit, the
    /// first that doesn't pay.
    WrongStep { index: u32 },
    /// Each use fits and pays, and the derivation's effect isn't empty.
    Unpaid { effect: Effect },
}
