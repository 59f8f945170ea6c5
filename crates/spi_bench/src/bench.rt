// The workbench.
ghost use Rattle.std.specs.Prelude.{◌≡◌, ◌↔◌, ◌+◌, ◌≤◌, [], length, map, vec_len, All, IfOk, IfErr, OnOk, OnErr, IsTrue};
ghost use Rattle.spi_term.specs.Spelling.{HasFewTy};
ghost use Rattle.spi_term.specs.Term.{process_size};
ghost use Rattle.spi_term.specs.View.{ty};
ghost use Rattle.spi_bench.specs.Parts.{part_named, with_part, without, nodes_in_parts, IsYes};
ghost use Rattle.spi_bench.specs.Whole.{AreOver};

use crate::NoMemory;
use crate::judging::{bind_all, least_of};
use crate::naming::{drop_from, put_fitting};
use crate::table::Table;
use indexmap::IndexMap;
use spi_infer::Steps;
use spi_message::Judge;
use spi_term::{Process, Ty};
use spi_text::Text;
use std::alloc::Global;
use std::marker::Model;
use std::sync::ledger::Ledger;

/// Parts of a protocol by name over shared names, with what the verdict of their whole needs: how often their least effects
/// have a `check` of each shared name, how many other atoms they have, and how many parts have none.
#[derive(Drop)]
pub struct Bench {
    alloc: Global,
    judge: Judge,
    free: u32,
    shared: Vec<Ty>,
    fine: bool,
    table: Table,
    places: IndexMap<Text, usize>,
}

impl Model for Bench {
    ghost use Rattle.std.specs.Prelude.{map};
    ghost use Rattle.std.specs.Str.{bytes_eq};
    ghost use Rattle.std.specs.Coded.{codes};
    ghost use Rattle.indexmap.specs.IndexMap.{get};
    ghost use Rattle.spi_term.specs.Codes.{coded_spelling, coded_types};
    ghost use Rattle.spi_term.specs.View.{ty};
    ghost use Rattle.spi_bench.specs.Parts.{Benched};
    ghost use Rattle.spi_bench.specs.Slots.{IsJudgedBench, slot_parts};
    ghost use Rattle.spi_bench.specs.Sums.{shared_in};

    ghost Value = { Benched };

    ghost coded = { Prim.hlevel (codes, coded_spelling, coded_types) };

    ghost view = { λ b.
        record { free = b.free; shared = map ty b.shared.items; parts = slot_parts b.table.slots.items } };

    ghost invariant = { λ b. IsJudgedBench b.judge b.free (map ty b.shared.items) b.fine b.table.sums.free
        (shared_in b.table.sums) b.table.slots.items (get bytes_eq b.places) };
}

/// Why a put failed: memory ran out. The part is given back.
#[derive(Drop)]
pub enum PutFault {
    NoMemory(Process),
}

impl Bench {
    /// A bench with no parts, over so many free names and the names with these shared types. There are at most 16 shared
    /// types and 100,000 names, and each type is closed over the names before it and has at most 10,000 nodes.
    pub fn new(alloc: Global, free: u32, shared: Vec<Ty>) -> Result<Bench, NoMemory>
        requires count { vec_len shared ≤ 16 }
        requires names { free + vec_len shared ≤ 100_000 }
        requires over { AreOver free (map ty shared.items) }
        requires small { All (λ t. HasFewTy (ty t)) shared.items }
        ensures { IfOk result (λ b. b ≡ record { free = free; shared = map ty shared.items; parts = [] }) }
    {
        let mut judge = Judge::new(alloc, free)?;
        let fine = bind_all(alloc, &mut judge, &shared)?;
        let table = Table::new(alloc, free, shared.len())?;
        Ok(Bench {
            alloc,
            judge,
            free,
            shared,
            fine,
            table,
            places: IndexMap::new(alloc),
        })
    }

    /// How many nodes the parts have that are there.
    pub fn held(&self) -> u64
        ensures { result ≡ nodes_in_parts self.now.parts }
    {
        self.table.nodes()
    }

    /// The verdict of the whole of the parts that are there. It looks at counts alone.
    pub fn verdict(&self) -> bool
        ensures { IsTrue result ↔ IsYes self.now }
    {
        self.fine && self.table.is_paid()
    }

    /// Puts a part under a name. A part that is there under that name goes, and is given back. The part is over the free and
    /// the shared names, and with it the bench has at most 100,000 nodes. A step is a visit of a node of the part, of which
    /// each is visited at most once. Where memory runs out, the bench is as before and the part is given back.
    pub fn put<L: Ledger>(
        &mut self,
        name: &Text,
        part: Process,
        steps: &mut Steps<L>,
    ) -> Result<Option<Process>, PutFault>
        requires names { part.names ≡ self.old.free + length self.old.shared }
        requires nodes { nodes_in_parts self.old.parts + process_size part.process ≤ 100_000 }
        ensures before { IfOk result (λ r. r ≡ part_named name.now self.old.parts) }
        ensures parts { OnOk result
            (self.new ≡ record self.old { parts = with_part name.now part self.old.parts }) }
        ensures unchanged { OnErr result (self.new ≡ self.old) }
        ensures part { IfErr result (λ f. f ≡ PutFault.NoMemory part) }
        ensures steps { (steps.old ≤ steps.new) × (steps.new ≤ steps.old + process_size part.process) }
    {
        // The number of nodes is asked for what it says: the part is over its names.
        let _ = part.len();
        let least = match least_of(self.alloc, &mut self.judge, &part, steps) {
            Ok(least) => least,
            Err(_) => return Err(PutFault::NoMemory(part)),
        };
        match put_fitting(
            self.alloc,
            &mut self.table,
            &mut self.places,
            name,
            part,
            least,
        ) {
            Ok(before) => Ok(before),
            Err(part) => Err(PutFault::NoMemory(part)),
        }
    }

    /// The part of that name goes, and is given back. `None` where no part has that name.
    pub fn drop_part(&mut self, name: &Text) -> Option<Process>
        ensures part { result ≡ part_named name.now self.old.parts }
        ensures parts { self.new ≡ record self.old { parts = without name.now self.old.parts } }
    {
        drop_from(&mut self.table, &mut self.places, name)
    }
}
