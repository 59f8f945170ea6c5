// Counts by key, in the order of the keys.
ghost use Rattle.std.specs.Prelude.{false, ◌≡◌, ◌↔◌, ◌+◌, ◌-◌, ◌<◌, ◌≤◌, ℕ, max, IfSome, IfNone, OnOk, IsTrue};
ghost use Rattle.std.specs.BTreeMap.{btree_map_len};
ghost use Rattle.spi_count.specs.Counts.{ArePositive, count_of, Sets, IsNothing};

use std::alloc::{AllocError, Global};
use std::collections::BTreeMap;

/// How high each key is counted. A key that isn't kept is counted 0.
pub struct Counts {
    pub(crate) counts: BTreeMap<u64, u64>,
    ghost positive: { ArePositive counts },
}

impl Drop for Counts {
    fn drop(self) {
        let Counts { counts: _ } = self;
    }
}

impl Counts {
    /// Nothing is counted.
    pub fn new(alloc: Global) -> Counts
        ensures { IsNothing result.counts }
    {
        Counts {
            counts: BTreeMap::new(alloc),
        }
    }

    /// How many keys are counted.
    pub fn len(&self) -> usize
        ensures { result ≡ btree_map_len self.now.counts }
    {
        self.counts.len()
    }

    /// Whether nothing is counted.
    pub fn is_empty(&self) -> bool
        ensures { IsTrue result ↔ IsNothing self.now.counts }
    {
        self.last().is_none()
    }

    /// How high a key is counted.
    pub fn count(&self, key: u64) -> u64
        ensures { result ≡ count_of self.now.counts key }
    {
        self.counts.get(&key).copied().unwrap_or(0)
    }

    /// The greatest key that is counted.
    pub fn last(&self) -> Option<u64>
        ensures some { IfSome result
            (λ k. (0 < count_of self.now.counts k) × ((q : ℕ) → 0 < count_of self.now.counts q → q ≤ k)) }
        ensures none { IfNone result (IsNothing self.now.counts) }
    {
        match self.counts.last_key_value() {
            Some((key, _)) => Some(*key),
            None => None,
        }
    }

    /// Whether a key from this one on is counted.
    pub fn reaches(&self, least: u64) -> bool
        ensures reached { IsTrue result → (k : ℕ) × (0 < count_of self.now.counts k) × (least ≤ k) }
        ensures unreached { result ≡ false → (q : ℕ) → 0 < count_of self.now.counts q → q < least }
    {
        match self.last() {
            Some(key) => least <= key,
            None => false,
        }
    }

    /// Counts a key higher. A count of 2 ^ 64 doesn't come: it is of atoms that a process of at most 100,000 nodes adds, each
    /// at most the 10,000 of a type.
    pub fn raise(&mut self, key: u64, by: u64) -> Result<(), AllocError>
        requires { 0 < by }
        ensures { OnOk result (Sets self.old.counts self.new.counts key (count_of self.old.counts key + by)) }
    {
        if let Some(before) = self.counts.insert(key, by)? {
            let Some(count) = before.checked_add(by) else {
                return Err(AllocError);
            };
            self.counts.insert(key, count)?;
        }
        Ok(())
    }

    /// Counts a key so high at least.
    pub fn raise_to(&mut self, key: u64, least: u64) -> Result<(), AllocError>
        requires { 0 < least }
        ensures { OnOk result
            (Sets self.old.counts self.new.counts key (max (count_of self.old.counts key) least)) }
    {
        if let Some(before) = self.counts.insert(key, least)? {
            self.counts.insert(key, before.max(least))?;
        }
        Ok(())
    }

    /// Counts a key lower.
    pub fn lower(&mut self, key: u64, by: u64)
        ensures { Sets self.old.counts self.new.counts key (count_of self.old.counts key - by) }
    {
        let before = self.count(key);
        if before == 0 {
            return;
        }
        let left = before.saturating_sub(by);
        if left == 0 {
            self.counts.remove(&key);
        } else if let Some(count) = self.counts.get_mut(&key) {
            *count = left;
        }
    }

    /// Takes the greatest key out, with its count.
    pub fn take(&mut self) -> Option<(u64, u64)>
        ensures some { IfSome result
            (λ p. (0 < p.1) × (count_of self.old.counts p.0 ≡ p.1)
            × Sets self.old.counts self.new.counts p.0 0) }
        ensures none { IfNone result (IsNothing self.old.counts × IsNothing self.new.counts) }
        ensures less { IfSome result (λ p. btree_map_len self.new.counts < btree_map_len self.old.counts) }
    {
        self.counts.pop_last()
    }

    /// Takes the greatest key out, with its count, where it is at least this one.
    pub fn take_from(&mut self, least: u64) -> Option<(u64, u64)>
        ensures some { IfSome result
            (λ p. (least ≤ p.0) × (0 < p.1) × (count_of self.old.counts p.0 ≡ p.1)
            × Sets self.old.counts self.new.counts p.0 0) }
        ensures none { IfNone result ((q : ℕ) → 0 < count_of self.old.counts q → q < least) }
        ensures same { IfNone result (self.new.counts ≡ self.old.counts) }
        ensures less { IfSome result (λ p. btree_map_len self.new.counts < btree_map_len self.old.counts) }
    {
        match self.last() {
            Some(key) => {
                if least <= key {
                    self.counts.pop_last()
                } else {
                    None
                }
            }
            None => None,
        }
    }

    /// Adds the counts of another.
    pub fn absorb(&mut self, other: Counts) -> Result<(), AllocError>
        ensures { OnOk result
            ((q : ℕ) → count_of self.new.counts q ≡ count_of self.old.counts q + count_of other.counts q) }
    {
        let Counts { counts } = other;
        for (key, by) in counts.iter() {
            self.raise(*key, *by)?;
        }
        Ok(())
    }

    /// Takes the greater count of each key.
    pub fn rise_to(&mut self, other: Counts) -> Result<(), AllocError>
        ensures { OnOk result
            ((q : ℕ) → count_of self.new.counts q
            ≡ max (count_of self.old.counts q) (count_of other.counts q)) }
    {
        let mut rest = other;
        while let Some((key, least)) = rest.take() {
            self.raise_to(key, least)?;
        }
        Ok(())
    }
}
