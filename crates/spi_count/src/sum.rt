// The counts of the atoms of an effect, by the keys of their messages.
ghost use Rattle.std.specs.Prelude.{false, ◌≡◌, ◌≢◌, ◌↔◌, ◌+◌, ◌-◌, ◌<◌, ◌≤◌, ℕ, max, Some, IfSome, IfNone, IfOk, OnOk, IsTrue};
ghost use Rattle.spi_count.specs.Counts.{count_of, Sets, IsNothing};
ghost use Rattle.spi_count.specs.Sums.{counts_of, entries_of, part, one_more, both_counts, counted_keys, sum_keys, Puts};
ghost use Rattle.spi_count.specs.Piles.{waits_once, waits};
ghost use Rattle.spi_count.specs.declared.sum.AtomKind.{AtomKind};
ghost use Rattle.spi_count.specs.declared.sum.AtomKind.TheVariants as kinds;

use crate::NoMemory;
use crate::counts::Counts;
use crate::pile::{Late, put_off};
use std::alloc::Global;
use std::mem::replace;

/// What an atom says of its message.
#[derive(Clone, Copy)]
pub enum AtomKind {
    End,
    Check,
    Many,
}

/// An effect by its counts: how often each message stands in its `end` and `check` atoms, and which messages
/// stand in its `many` atoms. A message is given by a key, which is 2 ^ 32 times the least number above its names, and a
/// number of its own below 2 ^ 32.
///
/// Most effects have no atoms, and each is moved often: the counts lie in a box, that is made when the first atom comes.
#[derive(Drop)]
pub struct Sum {
    alloc: Global,
    counted: Option<Box<Counted>>,
}

// The counts of an effect that had an atom.
#[derive(Drop)]
struct Counted {
    ends: Counts,
    checks: Counts,
    lasting: Counts,
}

impl Counted {
    fn new(alloc: Global) -> Counted
        ensures ends { IsNothing result.ends.counts }
        ensures checks { IsNothing result.checks.counts }
        ensures lasting { IsNothing result.lasting.counts }
    {
        Counted {
            ends: Counts::new(alloc),
            checks: Counts::new(alloc),
            lasting: Counts::new(alloc),
        }
    }

    // How many keys are counted.
    fn keys(&self) -> usize {
        self.ends
            .len()
            .saturating_add(self.checks.len())
            .saturating_add(self.lasting.len())
    }

    // Takes an atom out, where it stands there.
    fn take(&mut self, kind: AtomKind, key: u64)
        ensures here { Sets (counts_of kind self.old) (counts_of kind self.new) key
            (count_of (counts_of kind self.old) key - 1) }
        ensures others { (k : AtomKind) → k ≢ kind → counts_of k self.new ≡ counts_of k self.old }
    {
        match kind {
            AtomKind::End => self.ends.lower(key, 1),
            AtomKind::Check => self.checks.lower(key, 1),
            AtomKind::Many => self.lasting.lower(key, 1),
        }
    }

    // Takes all atoms of one kind over one message with a key from this one on out.
    fn take_from(&mut self, least: u64) -> Option<(AtomKind, u64, u64)>
        ensures some { IfSome result
            (λ p. (least ≤ p.1) × (0 < p.2) × (count_of (counts_of p.0 self.old) p.1 ≡ p.2)) }
        ensures here { IfSome result (λ p. Sets (counts_of p.0 self.old) (counts_of p.0 self.new) p.1 0) }
        ensures others { IfSome result
            (λ p. (k : AtomKind) → k ≢ p.0 → counts_of k self.new ≡ counts_of k self.old) }
        ensures less { IfSome result (λ p. counted_keys self.new < counted_keys self.old) }
        ensures none { IfNone result
            ((kind : AtomKind) (q : ℕ) → 0 < count_of (counts_of kind self.old) q → q < least) }
        ensures same { IfNone result
            ((kind : AtomKind) → counts_of kind self.new ≡ counts_of kind self.old) }
    {
        match self.ends.take_from(least) {
            Some((key, count)) => Some((AtomKind::End, key, count)),
            None => match self.checks.take_from(least) {
                Some((key, count)) => Some((AtomKind::Check, key, count)),
                None => match self.lasting.take_from(least) {
                    Some((key, count)) => Some((AtomKind::Many, key, count)),
                    None => None,
                },
            },
        }
    }

    // Adds the atoms of another.
    fn absorb(&mut self, other: Counted) -> Result<(), NoMemory>
        ensures { OnOk result
            ((kind : AtomKind) (k : ℕ)
            → count_of (counts_of kind self.new) k
            ≡ both_counts kind (count_of (counts_of kind self.old) k) (count_of (counts_of kind other) k)) }
    {
        let Counted {
            ends,
            checks,
            lasting,
        } = other;
        merge(&mut self.ends, ends)?;
        merge(&mut self.checks, checks)?;
        rise(&mut self.lasting, lasting)
    }

    // Takes the greater count of each atom.
    fn rise_to(&mut self, other: Counted) -> Result<(), NoMemory>
        ensures { OnOk result
            ((kind : AtomKind) (k : ℕ)
            → count_of (counts_of kind self.new) k
            ≡ max (count_of (counts_of kind self.old) k) (count_of (counts_of kind other) k)) }
    {
        let Counted {
            ends,
            checks,
            lasting,
        } = other;
        rise(&mut self.ends, ends)?;
        rise(&mut self.checks, checks)?;
        rise(&mut self.lasting, lasting)
    }

    // Whether each atom is a `many`.
    fn is_all_many(&self) -> bool
        ensures { IsTrue result
            ↔ (IsNothing (counts_of kinds.End self.now) × IsNothing (counts_of kinds.Check self.now)) }
    {
        self.ends.is_empty() && self.checks.is_empty()
    }
}

impl Sum {
    /// The effect without atoms.
    pub fn new(alloc: Global) -> Sum
        ensures { (kind : AtomKind) → IsNothing (part kind result) }
    {
        Sum {
            alloc,
            counted: None,
        }
    }

    // The counts are taken out. Where there are none yet, they are made.
    fn take_counted(&mut self) -> Result<Box<Counted>, NoMemory>
        ensures { IfOk result
            (λ c. (kind : AtomKind) → entries_of kind (Some c) ≡ entries_of kind self.old.counted) }
    {
        match self.counted.take() {
            Some(counted) => Ok(counted),
            None => Ok(Box::new(self.alloc, Counted::new(self.alloc))?),
        }
    }

    /// Adds an atom.
    pub fn add(&mut self, kind: AtomKind, key: u64) -> Result<(), NoMemory>
        ensures { OnOk result
            (Puts kind self.old self.new key (one_more kind (count_of (part kind self.old) key))) }
    {
        let mut counted = self.take_counted()?;
        match kind {
            AtomKind::End => counted.ends.raise(key, 1)?,
            AtomKind::Check => counted.checks.raise(key, 1)?,
            AtomKind::Many => counted.lasting.raise_to(key, 1)?,
        }
        self.counted = Some(counted);
        Ok(())
    }

    /// Takes an atom out, where it stands there.
    pub fn take(&mut self, kind: AtomKind, key: u64)
        ensures { Puts kind self.old self.new key (count_of (part kind self.old) key - 1) }
    {
        if let Some(counted) = &mut self.counted {
            counted.take(kind, key);
        }
    }

    /// Takes all atoms of one kind over one message out, where there are some: the kind, the key of the message and how
    /// often the atom stood there.
    pub fn pop(&mut self) -> Option<(AtomKind, u64, u64)>
        ensures some { IfSome result
            (λ p. (0 < p.2) × (count_of (part p.0 self.old) p.1 ≡ p.2) × Puts p.0 self.old self.new p.1 0) }
        ensures none { IfNone result ((kind : AtomKind) → IsNothing (part kind self.old)) }
        ensures less { IfSome result (λ p. sum_keys self.new < sum_keys self.old) }
    {
        self.take_from(0)
    }

    /// Takes all atoms of one kind over one message with a key from this one on out, where there are some: the kind, the
    /// key of the message and how often the atom stood there.
    pub fn take_from(&mut self, least: u64) -> Option<(AtomKind, u64, u64)>
        ensures some { IfSome result
            (λ p. (least ≤ p.1) × (0 < p.2) × (count_of (part p.0 self.old) p.1 ≡ p.2)
            × Puts p.0 self.old self.new p.1 0) }
        ensures none { IfNone result
            ((kind : AtomKind) (q : ℕ) → 0 < count_of (part kind self.old) q → q < least) }
        ensures same { IfNone result ((kind : AtomKind) → part kind self.new ≡ part kind self.old) }
        ensures less { IfSome result (λ p. sum_keys self.new < sum_keys self.old) }
    {
        match &mut self.counted {
            Some(counted) => counted.take_from(least),
            None => None,
        }
    }

    /// How often an atom stands there.
    pub fn count(&self, kind: AtomKind, key: u64) -> u64
        ensures { result ≡ count_of (part kind self.now) key }
    {
        let Some(counted) = &self.counted else {
            return 0;
        };
        match kind {
            AtomKind::End => counted.ends.count(key),
            AtomKind::Check => counted.checks.count(key),
            AtomKind::Many => counted.lasting.count(key),
        }
    }

    // How many keys are counted.
    pub(crate) fn keys(&self) -> usize {
        match &self.counted {
            Some(counted) => counted.keys(),
            None => 0,
        }
    }

    // Adds an atom that waited.
    pub(crate) fn put(&mut self, atom: Late) -> Result<(), NoMemory>
        ensures { OnOk result
            ((kind : AtomKind) (k : ℕ)
            → count_of (part kind self.new) k
            ≡ both_counts kind (count_of (part kind self.old) k) (waits_once kind atom k)) }
    {
        if atom.count == 0 {
            return Ok(());
        }
        let mut counted = self.take_counted()?;
        match atom.kind {
            AtomKind::End => counted.ends.raise(atom.key, atom.count)?,
            AtomKind::Check => counted.checks.raise(atom.key, atom.count)?,
            AtomKind::Many => counted.lasting.raise_to(atom.key, atom.count)?,
        }
        self.counted = Some(counted);
        Ok(())
    }

    // The atoms wait to be counted with others.
    pub(crate) fn put_off(self, late: &mut Vec<Late>) -> Result<(), NoMemory>
        ensures { OnOk result
            ((kind : AtomKind) (k : ℕ)
            → waits kind late.new.items k
            ≡ both_counts kind (waits kind late.old.items k) (count_of (part kind self) k)) }
    {
        let Sum { alloc: _, counted } = self;
        let Some(counted) = counted else {
            return Ok(());
        };
        let Counted {
            ends,
            checks,
            lasting,
        } = Box::into_inner(counted);
        put_off(ends, AtomKind::End, late)?;
        put_off(checks, AtomKind::Check, late)?;
        put_off(lasting, AtomKind::Many, late)
    }

    // Adds the atoms of another.
    pub(crate) fn absorb(&mut self, other: Sum) -> Result<(), NoMemory>
        ensures { OnOk result
            ((kind : AtomKind) (k : ℕ)
            → count_of (part kind self.new) k
            ≡ both_counts kind (count_of (part kind self.old) k) (count_of (part kind other) k)) }
    {
        let Sum { alloc: _, counted } = other;
        let Some(more) = counted else {
            return Ok(());
        };
        match &mut self.counted {
            Some(counted) => counted.absorb(Box::into_inner(more)),
            None => {
                self.counted = Some(more);
                Ok(())
            }
        }
    }

    /// Takes the greater count of each atom.
    pub fn rise_to(&mut self, other: Sum) -> Result<(), NoMemory>
        ensures { OnOk result
            ((kind : AtomKind) (k : ℕ)
            → count_of (part kind self.new) k
            ≡ max (count_of (part kind self.old) k) (count_of (part kind other) k)) }
    {
        let Sum { alloc: _, counted } = other;
        let Some(more) = counted else {
            return Ok(());
        };
        match &mut self.counted {
            Some(counted) => counted.rise_to(Box::into_inner(more)),
            None => {
                self.counted = Some(more);
                Ok(())
            }
        }
    }

    /// The sum of two effects.
    pub fn joined(a: Sum, b: Sum) -> Result<Sum, NoMemory>
        ensures { IfOk result
            (λ s. (kind : AtomKind) (k : ℕ)
            → count_of (part kind s) k
            ≡ both_counts kind (count_of (part kind a) k) (count_of (part kind b) k)) }
    {
        let mut both = a;
        both.absorb(b)?;
        Ok(both)
    }

    /// The greater count of each atom.
    pub fn greatest(a: Sum, b: Sum) -> Result<Sum, NoMemory>
        ensures { IfOk result
            (λ s. (kind : AtomKind) (k : ℕ)
            → count_of (part kind s) k ≡ max (count_of (part kind a) k) (count_of (part kind b) k)) }
    {
        let mut most = a;
        most.rise_to(b)?;
        Ok(most)
    }

    /// Whether each atom is a `many`.
    pub fn is_all_many(&self) -> bool
        ensures { IsTrue result
            ↔ (IsNothing (part kinds.End self.now) × IsNothing (part kinds.Check self.now)) }
    {
        match &self.counted {
            Some(counted) => counted.is_all_many(),
            None => true,
        }
    }

    /// Whether an atom has a key from this one on.
    pub fn reaches(&self, least: u64) -> bool
        ensures reached { IsTrue result
            → (kind : AtomKind) × (k : ℕ) × (0 < count_of (part kind self.now) k) × (least ≤ k) }
        ensures unreached { result ≡ false → (kind : AtomKind) (k : ℕ) → 0 < count_of (part kind self.now) k
            → k < least }
    {
        let Some(counted) = &self.counted else {
            return false;
        };
        counted.ends.reaches(least)
            || counted.checks.reaches(least)
            || counted.lasting.reaches(least)
    }
}

// Adds the counts of another, of which the smaller is gone over.
fn merge(counts: &mut Counts, other: Counts) -> Result<(), NoMemory>
    ensures { OnOk result
        ((k : ℕ) → count_of counts.new.counts k ≡ count_of counts.old.counts k + count_of other.counts k) }
{
    if counts.len() < other.len() {
        let less = replace(counts, other);
        counts.absorb(less)
    } else {
        counts.absorb(other)
    }
}

// Takes the greater count of each key. The smaller is gone over.
fn rise(counts: &mut Counts, other: Counts) -> Result<(), NoMemory>
    ensures { OnOk result
        ((k : ℕ) → count_of counts.new.counts k
        ≡ max (count_of counts.old.counts k) (count_of other.counts k)) }
{
    if counts.len() < other.len() {
        let less = replace(counts, other);
        counts.rise_to(less)
    } else {
        counts.rise_to(other)
    }
}
