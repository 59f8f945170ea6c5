// Effects of which atoms wait to be counted: those that were joined and not asked anything since.
ghost use Rattle.std.specs.Prelude.{◌≡◌, ◌-◌, ◌<◌, ◌≤◌, if◌then◌else◌, ℕ, [], true, false, slice_get, Some, IfSome, IfNone, IfOk, OnOk, IsTrue};
ghost use Rattle.spi_count.specs.Counts.{count_of};
ghost use Rattle.spi_count.specs.Sums.{part, both_counts};
ghost use Rattle.spi_count.specs.Piles.{is_kind, once, waits_once, waits, piled};
ghost use Rattle.spi_count.specs.declared.sum.AtomKind as Kinds;
ghost use Rattle.spi_count.specs.declared.sum.AtomKind.TheVariants as AtomKinds;

use crate::NoMemory;
use crate::counts::Counts;
use crate::sum::{AtomKind, Sum};
use std::alloc::Global;
use std::mem::replace;

// Where fewer keys are counted, no atom waits.
const FEW: usize = 2;

// So many atoms may wait at any time, and two more for each key that is counted.
const WAITING: usize = 16_384;

// So many atoms are looked at one by one. Where more wait, they are counted.
pub(crate) const SHORT: usize = 8;

/// An atom that waits to be counted: what it says, the key of its message and how often it stands there.
#[derive(Clone, Copy)]
pub struct Late {
    pub kind: AtomKind,
    pub key: u64,
    pub count: u64,
}

/// An effect by its counts, and atoms of it that wait to be counted with them.
#[derive(Drop)]
pub struct Pile {
    pub sum: Sum,
    pub late: Vec<Late>,
}

// Each key waits, as an atom of this kind.
pub(crate) fn put_off(counts: Counts, kind: AtomKind, late: &mut Vec<Late>) -> Result<(), NoMemory>
    ensures { OnOk result
        ((l : Kinds.AtomKind) (q : ℕ) → waits l late.new.items q
        ≡ both_counts l (waits l late.old.items q)
        (if is_kind l kind then count_of counts.counts q else 0)) }
{
    if counts.len() == 0 {
        return Ok(());
    }
    for (key, count) in counts.counts.iter() {
        let atom = Late {
            kind,
            key: *key,
            count: *count,
        };
        late.push(atom)?;
    }
    Ok(())
}

// Each of the atoms is counted.
fn count_all(sum: &mut Sum, late: &[Late]) -> Result<(), NoMemory>
    ensures { OnOk result ((kind : Kinds.AtomKind) (k : ℕ)
        → count_of (part kind sum.new) k
        ≡ both_counts kind (count_of (part kind sum.old) k) (waits kind late.now k)) }
{
    for atom in late {
        sum.put(*atom)?;
    }
    Ok(())
}

fn is_same(a: AtomKind, b: AtomKind) -> bool
    ensures { result ≡ is_kind a b }
{
    match a {
        AtomKind::End => match b {
            AtomKind::End => true,
            AtomKind::Check => false,
            AtomKind::Many => false,
        },
        AtomKind::Check => match b {
            AtomKind::End => false,
            AtomKind::Check => true,
            AtomKind::Many => false,
        },
        AtomKind::Many => match b {
            AtomKind::End => false,
            AtomKind::Check => false,
            AtomKind::Many => true,
        },
    }
}

// Whether an atom is of this kind, over the message with this key, and stands there.
#[tactic(auto, using(crate::proofs::Waiting::key_apart, crate::proofs::Waiting::kind_apart, crate::proofs::Waiting::none_apart))]
fn is_at(atom: Late, kind: AtomKind, key: u64) -> bool
    ensures at { IsTrue result → (is_kind kind atom.kind ≡ true) × (atom.key ≡ key) × (0 < atom.count) }
    ensures apart { result ≡ false → waits_once kind atom key ≡ 0 }
{
    if atom.key != key {
        return false;
    }
    if !is_same(kind, atom.kind) {
        return false;
    }
    0 < atom.count
}

// Where an atom of this kind over the message with this key waits.
fn place_among(late: &[Late], kind: AtomKind, key: u64) -> Option<usize>
    ensures some { IfSome result (λ i. (w : Late) × (slice_get late.now i ≡ Some w)
        × (is_kind kind w.kind ≡ true) × (w.key ≡ key) × (0 < w.count)) }
    ensures none { IfNone result (waits kind late.now key ≡ 0) }
{
    for i in 0..late.len() {
        if is_at(late[i], kind, key) {
            return Some(i);
        }
    }
    None
}

// Whether an atom stands there and has a key from this one on.
fn is_from(atom: Late, least: u64) -> bool
    ensures from { IsTrue result → (least ≤ atom.key) × (0 < atom.count) }
    ensures below { result ≡ false → 0 < atom.count → atom.key < least }
{
    if atom.key < least {
        return false;
    }
    0 < atom.count
}

// Whether an atom with a key from this one on waits.
fn waits_from(late: &[Late], least: u64) -> bool
    ensures reached { IsTrue result
        → (kind : Kinds.AtomKind) × (k : ℕ) × (0 < waits kind late.now k) × (least ≤ k) }
    ensures unreached { result ≡ false → (kind : Kinds.AtomKind) (k : ℕ) → 0 < waits kind late.now k
        → k < least }
{
    for atom in late {
        if is_from(*atom, least) {
            return true;
        }
    }
    false
}

// Whether a `many` waits.
fn waits_many(late: &[Late]) -> bool {
    for atom in late {
        if is_same(AtomKind::Many, atom.kind) {
            return true;
        }
    }
    false
}

impl Pile {
    /// The effect without atoms.
    pub fn new(alloc: Global) -> Pile
        ensures { (kind : Kinds.AtomKind) (k : ℕ) → piled kind result k ≡ 0 }
    {
        Pile {
            sum: Sum::new(alloc),
            late: Vec::new(alloc),
        }
    }

    // How many keys are counted, and how many atoms wait.
    fn len(&self) -> usize {
        self.sum.keys().saturating_add(self.late.len())
    }

    // The atoms that wait are counted. The room that they took is given back.
    fn count_late(&mut self) -> Result<(), NoMemory>
        ensures counted { OnOk result ((kind : Kinds.AtomKind) (k : ℕ)
            → count_of (part kind self.new.sum) k ≡ piled kind self.old k) }
        ensures none { OnOk result (self.new.late.items ≡ []) }
    {
        count_all(&mut self.sum, &self.late)?;
        self.late.clear();
        self.late.shrink_to_fit();
        Ok(())
    }

    /// Each atom that waits is counted.
    #[inline(always)]
    pub fn settle(&mut self) -> Result<(), NoMemory>
        ensures counted { OnOk result ((kind : Kinds.AtomKind) (k : ℕ)
            → count_of (part kind self.new.sum) k ≡ piled kind self.old k) }
        ensures none { OnOk result (self.new.late.items ≡ []) }
    {
        if self.late.is_empty() {
            Ok(())
        } else {
            self.count_late()
        }
    }

    /// One more atom, which waits.
    #[inline(always)]
    pub fn add(&mut self, kind: AtomKind, key: u64) -> Result<(), NoMemory>
        ensures { OnOk result ((l : Kinds.AtomKind) (q : ℕ)
            → piled l self.new q ≡ both_counts l (piled l self.old q) (once kind key l q)) }
    {
        let atom = Late {
            kind,
            key,
            count: 1,
        };
        self.late.push(atom)?;
        Ok(())
    }

    // Where more atoms wait than are looked at one by one, they are counted.
    #[inline(always)]
    fn shorten(&mut self) -> Result<(), NoMemory>
        ensures { OnOk result ((kind : Kinds.AtomKind) (k : ℕ)
            → piled kind self.new k ≡ piled kind self.old k) }
    {
        if self.late.len() > SHORT {
            self.settle()
        } else {
            Ok(())
        }
    }

    // Takes an `end` or a `check` out once that waits in this place.
    fn take_late(&mut self, place: usize) -> Result<(), NoMemory>
        requires { (w : Late) × (slice_get self.old.late.items place ≡ Some w) × (0 < w.count)
            × (is_kind AtomKinds.Many w.kind ≡ false) }
        ensures { OnOk result ((w : Late) → slice_get self.old.late.items place ≡ Some w
            → (l : Kinds.AtomKind) (q : ℕ)
            → piled l self.new q ≡ piled l self.old q - once w.kind w.key l q) }
    {
        let atom = self.late.remove(place);
        if 1 < atom.count {
            let rest = Late {
                kind: atom.kind,
                key: atom.key,
                count: atom.count - 1,
            };
            self.late.push(rest)?;
        }
        Ok(())
    }

    // Takes a `many` out. None waits afterwards.
    fn take_lasting(&mut self, key: u64) -> Result<(), NoMemory>
        ensures { OnOk result ((l : Kinds.AtomKind) (q : ℕ)
            → piled l self.new q ≡ piled l self.old q - once AtomKinds.Many key l q) }
    {
        self.settle()?;
        self.sum.take(AtomKind::Many, key);
        Ok(())
    }

    // Takes an atom out that waits in this place.
    fn take_waiting(&mut self, kind: AtomKind, key: u64, place: usize) -> Result<(), NoMemory>
        requires { (w : Late) × (slice_get self.old.late.items place ≡ Some w)
            × (is_kind kind w.kind ≡ true) × (w.key ≡ key) × (0 < w.count) }
        ensures { OnOk result ((l : Kinds.AtomKind) (q : ℕ)
            → piled l self.new q ≡ piled l self.old q - once kind key l q) }
    {
        match kind {
            AtomKind::End => self.take_late(place),
            AtomKind::Check => self.take_late(place),
            AtomKind::Many => self.take_lasting(key),
        }
    }

    /// Takes an atom out, where it stands there.
    pub fn take(&mut self, kind: AtomKind, key: u64) -> Result<(), NoMemory>
        ensures { OnOk result ((l : Kinds.AtomKind) (q : ℕ)
            → piled l self.new q ≡ piled l self.old q - once kind key l q) }
    {
        self.shorten()?;
        match place_among(&self.late, kind, key) {
            Some(place) => self.take_waiting(kind, key, place),
            None => {
                self.sum.take(kind, key);
                Ok(())
            }
        }
    }

    /// Whether an atom has a key from this one on.
    #[inline(always)]
    pub fn reaches(&mut self, least: u64) -> Result<bool, NoMemory>
        ensures same { OnOk result ((kind : Kinds.AtomKind) (k : ℕ)
            → piled kind self.new k ≡ piled kind self.old k) }
        ensures reached { IfOk result (λ b. b ≡ true
            → (kind : Kinds.AtomKind) × (k : ℕ) × (0 < piled kind self.old k) × (least ≤ k)) }
        ensures unreached { IfOk result (λ b. b ≡ false
            → (kind : Kinds.AtomKind) (k : ℕ) → 0 < piled kind self.old k → k < least) }
    {
        self.shorten()?;
        if waits_from(&self.late, least) {
            return Ok(true);
        }
        Ok(self.sum.reaches(least))
    }

    // Where a `many` waits, all are counted, so that none stands there twice.
    pub(crate) fn settle_lasting(&mut self) -> Result<(), NoMemory>
        ensures { OnOk result ((kind : Kinds.AtomKind) (k : ℕ)
            → piled kind self.new k ≡ piled kind self.old k) }
    {
        if waits_many(&self.late) {
            self.settle()
        } else {
            Ok(())
        }
    }

    // Where too many atoms wait, they are counted.
    fn settle_many(&mut self) -> Result<(), NoMemory>
        ensures { OnOk result ((kind : Kinds.AtomKind) (k : ℕ)
            → piled kind self.new k ≡ piled kind self.old k) }
    {
        if self.late.len().saturating_sub(WAITING) / 2 > self.sum.keys() {
            self.settle()
        } else {
            Ok(())
        }
    }

    // The atoms of another come to it. They wait, unless there are few.
    fn take_in(&mut self, other: Pile) -> Result<(), NoMemory>
        ensures { OnOk result ((kind : Kinds.AtomKind) (k : ℕ)
            → piled kind self.new k ≡ both_counts kind (piled kind self.old k) (piled kind other k)) }
    {
        let few = self.len() < FEW;
        let Pile { sum, late } = other;
        let mut others = late;
        self.late.append(&mut others)?;
        if few {
            return self.sum.absorb(sum);
        }
        sum.put_off(&mut self.late)?;
        self.settle_many()
    }

    /// The atoms of another come to it. The smaller of the two is taken in, and its atoms wait, unless there are few.
    pub fn join(&mut self, other: Pile) -> Result<(), NoMemory>
        ensures { OnOk result ((kind : Kinds.AtomKind) (k : ℕ)
            → piled kind self.new k ≡ both_counts kind (piled kind self.old k) (piled kind other k)) }
    {
        if self.len() < other.len() {
            let less = replace(self, other);
            self.take_in(less)
        } else {
            self.take_in(other)
        }
    }
}
