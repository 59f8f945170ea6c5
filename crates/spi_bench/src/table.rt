// The slots of a bench, with what is counted over them.
ghost use Rattle.std.specs.Prelude.{◌≡◌, ◌↔◌, ◌+◌, ◌<◌, ◌^◌, ◌++◌, ◌∷◌, [], Option, None, Some, length, IfOk, OnOk, OnErr, IsTrue, slice_get, slice_set};
ghost use Rattle.spi_bench.specs.Sums.{slot_in, of_least, total_in, shared_in, AreSums};
ghost use Rattle.spi_bench.specs.Sums as S;
ghost use Rattle.spi_bench.specs.Slots.{HaveNoneTwice, IsPadded};

use crate::NoMemory;
use crate::slot::Slot;
use crate::sums::Sums;
use spi_term::Effect;
use std::alloc::{AllocError, Global};
use std::mem::replace;

/// Slots with what is counted over them.
#[derive(Drop)]
pub struct Table {
    pub slots: Vec<Option<Slot>>,
    pub sums: Sums,
    ghost summed: { AreSums sums slots.items },
}

// The atoms of the effect can be counted beside so many.
fn fits(atoms: u64, least: &Option<Effect>) -> bool
    ensures { IsTrue result → atoms + of_least length least.now < 2 ^ 64 }
{
    match least {
        None => true,
        Some(e) => atoms.checked_add(e.atoms.len() as u64).is_some(),
    }
}

// One empty slot more.
fn push_none(slots: &mut Vec<Option<Slot>>) -> Result<(), NoMemory>
    ensures ok { OnOk result (slots.new.items ≡ slots.old.items ++ None ∷ []) }
    ensures err { OnErr result (slots.new.items ≡ slots.old.items) }
    ensures padded { IsPadded slots.old.items slots.new.items }
{
    match slots.push(None) {
        Ok(()) => Ok(()),
        Err(_) => Err(AllocError),
    }
}

impl Table {
    /// No slots, where so many names are free and so many are shared.
    pub fn new(alloc: Global, free: u32, shared: usize) -> Result<Table, NoMemory>
        ensures free { IfOk result (λ t. t.sums.free ≡ free) }
        ensures shared { IfOk result (λ t. shared_in t.sums ≡ shared) }
        ensures slots { IfOk result (λ t. t.slots.items ≡ []) }
    {
        let sums = Sums::new(alloc, free, shared)?;
        Ok(Table {
            slots: Vec::new(alloc),
            sums,
        })
    }

    /// One empty slot more. Its number is how many there were.
    pub fn push_empty(&mut self) -> Result<usize, NoMemory>
        ensures at { IfOk result (λ at. at ≡ length self.old.slots.items) }
        ensures ok { OnOk result (self.new.slots.items ≡ self.old.slots.items ++ None ∷ []) }
        ensures err { OnErr result (self.new.slots.items ≡ self.old.slots.items) }
        ensures padded { IsPadded self.old.slots.items self.new.slots.items }
        ensures sums { self.new.sums ≡ self.old.sums }
    {
        let at = self.slots.len();
        push_none(&mut self.slots)?;
        Ok(at)
    }

    /// Whether the atoms of one more least effect can be counted. 2 ^ 64 atoms never stand in memory at once.
    pub fn has_room(&self, least: &Option<Effect>) -> bool
        ensures { IsTrue result
            → total_in self.now.sums S.atoms self.now.slots.items + of_least length least.now < 2 ^ 64 }
    {
        fits(self.sums.atoms, least)
    }

    /// Empties a slot, and gives back what was there.
    pub fn clear(&mut self, at: usize) -> Option<Slot>
        requires { at < length self.old.slots.items }
        ensures before { slice_get self.old.slots.items at ≡ Some result }
        ensures after { self.new.slots.items ≡ slice_set self.old.slots.items at None }
        ensures free { self.new.sums.free ≡ self.old.sums.free }
        ensures shared { shared_in self.new.sums ≡ shared_in self.old.sums }
    {
        let before = replace(&mut self.slots[at], None);
        self.sums.take(&before);
        before
    }

    /// Puts this into a slot, and gives back what was there.
    pub fn set(&mut self, at: usize, slot: Option<Slot>) -> Option<Slot>
        requires at { at < length self.old.slots.items }
        requires nodes { total_in self.old.sums S.nodes self.old.slots.items
            + slot_in self.old.sums S.nodes slot < 2 ^ 64 }
        requires atoms { total_in self.old.sums S.atoms self.old.slots.items
            + slot_in self.old.sums S.atoms slot < 2 ^ 64 }
        ensures before { slice_get self.old.slots.items at ≡ Some result }
        ensures after { self.new.slots.items ≡ slice_set self.old.slots.items at slot }
        ensures free { self.new.sums.free ≡ self.old.sums.free }
        ensures shared { shared_in self.new.sums ≡ shared_in self.old.sums }
    {
        let before = self.clear(at);
        self.sums.add(&slot);
        self.slots[at] = slot;
        before
    }

    /// How many nodes the parts have.
    pub fn nodes(&self) -> u64
        ensures { result ≡ total_in self.now.sums S.nodes self.now.slots.items }
    {
        self.sums.nodes
    }

    /// Whether each part has an effect, and their atoms are at most one `check x` for each shared name x.
    pub fn is_paid(&self) -> bool
        ensures { IsTrue result
            ↔ HaveNoneTwice self.now.sums.free (shared_in self.now.sums) self.now.slots.items }
    {
        self.sums.are_paid()
    }
}
