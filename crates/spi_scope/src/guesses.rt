//! Where in a table a spelling is looked for first.

use crate::NoMemory;
use crate::spelling::Spelling;
use std::alloc::Global;

/// A guess of the slot of each spelling: that of the last spelling with the same place among the guesses. A wrong guess costs
/// a look-up and nothing else, so nothing is said of it.
#[derive(Drop)]
pub struct Guesses {
    slots: Vec<u32>,
}

/// The place of a spelling among so many guesses.
#[inline(always)]
fn place(spelling: &Spelling, guesses: usize) -> usize {
    let product = spelling.number().wrapping_mul(0x9e37_79b9_7f4a_7c15);
    (product >> 32 ^ product >> 48) as usize & guesses.wrapping_sub(1)
}

impl Guesses {
    /// No guesses.
    pub fn new(alloc: Global) -> Self {
        Guesses {
            slots: Vec::new(alloc),
        }
    }

    /// Room for guesses of so many spellings.
    pub fn reserve(&mut self, alloc: Global, spellings: usize) -> Result<(), NoMemory> {
        let room = spellings.clamp(256, 131_072).next_power_of_two();
        if self.slots.len() < room {
            self.slots = vec![in alloc; 0u32; room]?;
        }
        Ok(())
    }

    /// The slot that is guessed.
    #[inline(always)]
    pub fn slot(&self, spelling: &Spelling) -> Option<u32> {
        self.slots.get(place(spelling, self.slots.len())).copied()
    }

    /// The slot that is guessed from now on.
    #[inline(always)]
    pub fn put(&mut self, spelling: &Spelling, slot: u32) {
        let at = place(spelling, self.slots.len());
        if let Some(stored) = self.slots.get_mut(at) {
            *stored = slot;
        }
    }
}
