// What is counted over the parts.
ghost use Rattle.std.specs.Prelude.{◌≡◌, ◌↔◌, ◌+◌, ◌<◌, ◌≤◌, ◌^◌, ◌∷◌, ℕ, [], Option, length, IfOk, IsTrue};
ghost use Rattle.spi_term.specs.View.{message, atom, effect};
ghost use Rattle.spi_bench.specs.Sums.{shared_name, place_of_atom, times_in, Measure, slot_in, at_place, counted, shared_in, IsSharedPlace, IsMeasure, AddsAtoms, AddsSlot, ArePaid};

use crate::NoMemory;
use crate::slot::Slot;
use spi_term::{Atom, Effect, Msg};
use std::alloc::Global;

/// How many nodes the parts have, how many of them have no effect, how many atoms their least effects have, and of these
/// how many are a `check x` of each shared name x, and how many are none.
#[derive(Drop)]
pub struct Sums {
    pub free: u32,
    pub nodes: u64,
    pub blocked: u64,
    pub atoms: u64,
    pub checks: Vec<u64>,
    pub others: u64,
}

// The number of the shared name that the message is.
fn shared_name_of(free: u32, shared: usize, m: &Msg) -> Option<usize>
    ensures { result ≡ shared_name free shared (message m.now) }
{
    match m {
        Msg::Name(x) => {
            if *x < free {
                return None;
            }
            let at = (*x - free) as usize;
            if at < shared { Some(at) } else { None }
        }
        Msg::Bound(_) => None,
        Msg::Unit => None,
        Msg::Pair(_) => None,
        Msg::Inl(_) => None,
        Msg::Inr(_) => None,
        Msg::Enc(_) => None,
        Msg::Hash(_) => None,
    }
}

// Where the atom is counted: at the shared name that it checks, or with the others.
fn place(free: u32, shared: usize, a: &Atom) -> Option<usize>
    ensures { result ≡ place_of_atom free shared (atom a.now) }
{
    match a {
        Atom::Check(m) => shared_name_of(free, shared, m),
        Atom::End(_) => None,
        Atom::Many(_) => None,
    }
}

impl Sums {
    /// Nothing is counted, where so many names are free and so many are shared.
    pub fn new(alloc: Global, free: u32, shared: usize) -> Result<Sums, NoMemory>
        ensures free { IfOk result (λ s. s.free ≡ free) }
        ensures shared { IfOk result (λ s. shared_in s ≡ shared) }
        ensures nothing { IfOk result (λ s. (m : Measure) → IsMeasure shared m → counted s m ≡ 0) }
    {
        let checks = vec![in alloc; 0; shared]?;
        Ok(Sums {
            free,
            nodes: 0,
            blocked: 0,
            atoms: 0,
            checks,
            others: 0,
        })
    }

    fn add_atom(&mut self, a: &Atom)
        requires { (w : Option ℕ) → IsSharedPlace (shared_in self.old) w → at_place self.old w + 1 < 2 ^ 64 }
        ensures { AddsAtoms self.old self.new (atom a.now ∷ []) }
    {
        match place(self.free, self.checks.len(), a) {
            Some(at) => self.checks[at] += 1,
            None => self.others += 1,
        }
    }

    fn take_atom(&mut self, a: &Atom)
        requires { (w : Option ℕ) → IsSharedPlace (shared_in self.old) w
            → times_in self.old w (atom a.now ∷ []) ≤ at_place self.old w }
        ensures { AddsAtoms self.new self.old (atom a.now ∷ []) }
    {
        match place(self.free, self.checks.len(), a) {
            Some(at) => self.checks[at] -= 1,
            None => self.others -= 1,
        }
    }

    fn add_atoms(&mut self, e: &Effect)
        requires { (w : Option ℕ) → IsSharedPlace (shared_in self.old) w
            → at_place self.old w + length (effect e.now) < 2 ^ 64 }
        ensures { AddsAtoms self.old self.new (effect e.now) }
    {
        for a in &e.atoms {
            self.add_atom(a);
        }
    }

    fn take_atoms(&mut self, e: &Effect)
        requires { (w : Option ℕ) → IsSharedPlace (shared_in self.old) w
            → times_in self.old w (effect e.now) ≤ at_place self.old w }
        ensures { AddsAtoms self.new self.old (effect e.now) }
    {
        for a in &e.atoms {
            self.take_atom(a);
        }
    }

    /// Counts what stands in a slot.
    pub fn add(&mut self, slot: &Option<Slot>)
        requires room { (m : Measure) → IsMeasure (shared_in self.old) m
            → counted self.old m + slot_in self.old m slot.now < 2 ^ 64 }
        requires atoms { (w : Option ℕ) → IsSharedPlace (shared_in self.old) w
            → at_place self.old w ≤ self.old.atoms }
        ensures { AddsSlot self.old self.new slot.now }
    {
        if let Some(slot) = slot {
            self.nodes += slot.part.len() as u64;
            match &slot.least {
                None => self.blocked += 1,
                Some(e) => {
                    self.add_atoms(e);
                    self.atoms += e.atoms.len() as u64;
                }
            }
        }
    }

    /// Counts what stands in a slot no longer.
    pub fn take(&mut self, slot: &Option<Slot>)
        requires { (m : Measure) → IsMeasure (shared_in self.old) m
            → slot_in self.old m slot.now ≤ counted self.old m }
        ensures { AddsSlot self.new self.old slot.now }
    {
        if let Some(slot) = slot {
            self.nodes -= slot.part.len() as u64;
            match &slot.least {
                None => self.blocked -= 1,
                Some(e) => {
                    self.take_atoms(e);
                    self.atoms -= e.atoms.len() as u64;
                }
            }
        }
    }

    /// Whether each part has an effect, and their atoms are at most one `check x` for each shared name x.
    pub fn are_paid(&self) -> bool
        ensures { IsTrue result ↔ ArePaid self.now }
    {
        if self.blocked != 0 || self.others != 0 {
            return false;
        }
        for count in &self.checks {
            if *count > 1 {
                return false;
            }
        }
        true
    }
}
