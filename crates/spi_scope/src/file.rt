//! Files.

ghost use Rattle.std.specs.Prelude.{◌≡◌, reverse, IfOk};
ghost use Rattle.spi_scope.specs.Chains.{chain_at};
ghost use Rattle.spi_scope.specs.Places.{place_in};

use crate::NoMemory;
use crate::marks::{Marks, place_at};
use spi_rules::Deriv;
use spi_run::Step;
use spi_term::Process;
use spi_text::{Span, Text};
use std::alloc::Global;

/// A file: what a tree stands for. `marks` has where its parts stand in the tree, and how names were spelled there. Two
/// files are equal where all fields but `marks` are.
pub struct File {
    /// 1 or 2.
    pub version: u32,
    /// The free names in the order of their numbers: 100,000 at most.
    pub names: Vec<Text>,
    /// The process, over the free names.
    pub process: Process,
    /// The opponent, over the free names.
    pub opponent: Option<Process>,
    /// 10,000 steps at most.
    pub schedule: Option<Vec<Step>>,
    pub derivation: Option<Deriv>,
    pub(crate) marks: Marks,
}

impl Drop for File {
    fn drop(self) {
        let File {
            version: _,
            names: _,
            process: _,
            opponent: _,
            schedule: _,
            derivation: _,
            marks: _,
        } = self;
    }
}

impl File {
    /// Where the node of the process with this number stands, from its first token to its last. It is the empty span at
    /// 0 where the tree didn't have such a node.
    pub fn process_place(&self, node: u32) -> Span
        ensures { result ≡ place_in self.now.marks.process.items node }
    {
        place_at(&self.marks.process, node)
    }

    /// Where the node of the opponent with this number stands. It is the empty span at 0 where the tree didn't have such
    /// a node.
    pub fn opponent_place(&self, node: u32) -> Span
        ensures { result ≡ place_in self.now.marks.opponent.items node }
    {
        place_at(&self.marks.opponent, node)
    }

    /// Where the step with this number stands, from 0 on. It is the empty span at 0 where the tree didn't have such a
    /// step.
    pub fn step_place(&self, index: u32) -> Span
        ensures { result ≡ place_in self.now.marks.steps.items index }
    {
        place_at(&self.marks.steps, index)
    }

    /// Where the rule use with this number stands, in preorder from 0 on, with those of its premises. It is the empty
    /// span at 0 where the tree didn't have such a use.
    pub fn rule_place(&self, index: u32) -> Span
        ensures { result ≡ place_in self.now.marks.rules.items index }
    {
        place_at(&self.marks.rules, index)
    }

    /// The spellings of names 0, 1 and so on in scope at that node of the process: none where the tree didn't have such
    /// a node. It takes memory for each of them.
    pub fn scope_names(&self, alloc: Global, node: u32) -> Result<Vec<Text>, NoMemory>
        ensures { IfOk result (λ v. v.items ≡ reverse (chain_at self.now.marks.scopes node)) }
    {
        self.marks.scopes.names_at(alloc, node)
    }
}
