//! What is in scope, and how many nodes were counted.

ghost use Rattle.std.specs.Prelude.{◌≡◌};
ghost use Rattle.spi_term.specs.Spelling.{ty_nodes};
ghost use Rattle.spi_term.specs.View.{ty as type_value};

use crate::names::Names;
use indexmap::IndexMap;
use spi_term::Ty;

/// The type that an abbreviation stands for, and its nodes.
pub struct Abbr {
    pub ty: Ty,
    pub nodes: u64,
    ghost counted: { nodes ≡ ty_nodes (type_value ty) },
}

impl Drop for Abbr {
    fn drop(self) {
        let Abbr { ty: _, nodes: _ } = self;
    }
}

/// The names and abbreviations in scope, and the running count.
pub struct Scope<'t> {
    pub held: Names<'t>,
    pub types: IndexMap<&'t str, Abbr>,
    pub count: u64,
}

impl Drop for Scope<'_> {
    fn drop(self) {
        let Scope {
            held: _,
            types: _,
            count: _,
        } = self;
    }
}
