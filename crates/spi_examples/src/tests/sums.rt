// Counts and sums by example.

use super::samples::{NoMemory, shows};
use spi_count::{AtomKind, Counts, Sum};
use std::alloc::Global;

/// Counts of 1 and 5: 5 three times, 1 twice and one less.
fn counted(alloc: Global) -> Result<Counts, NoMemory> {
    let mut counts = Counts::new(alloc);
    counts.raise(5, 3)?;
    counts.raise_to(1, 2)?;
    counts.lower(1, 1);
    Ok(counts)
}

/// Whether counts are taken from both ends, the last one first.
fn are_taken(counts: &mut Counts) -> bool {
    let known = counts.count(5) == 3 && counts.last() == Some(5) && counts.len() == 2;
    let last = counts.reaches(5) && matches!(counts.take_from(2), Some((5, 3)));
    let first = matches!(counts.take(), Some((1, 1)));
    known && last && first && counts.is_empty()
}

fn are_counts_kept(alloc: Global) -> Result<bool, NoMemory> {
    let mut sum = counted(alloc)?;
    sum.absorb(counted(alloc)?)?;
    sum.rise_to(counted(alloc)?)?;
    let twice = sum.count(5) == 6 && sum.count(1) == 2;
    Ok(twice && are_taken(&mut counted(alloc)?))
}

#[test]
fn numbers_are_counted(rt: HostRuntime) {
    shows(&rt, "counts of 1 and 5", are_counts_kept(rt.alloc()));
}

/// Ends of 1 twice, and a many of 2.
fn summed(alloc: Global) -> Result<Sum, NoMemory> {
    let mut sum = Sum::new(alloc);
    sum.add(AtomKind::End, 1)?;
    sum.add(AtomKind::End, 1)?;
    sum.add(AtomKind::Many, 2)?;
    Ok(sum)
}

fn are_kinds_kept(alloc: Global) -> Result<bool, NoMemory> {
    let mut sum = Sum::joined(summed(alloc)?, summed(alloc)?)?;
    let four = sum.count(AtomKind::End, 1) == 4 && sum.count(AtomKind::Many, 2) == 1;
    sum.take(AtomKind::End, 1);
    let far = sum.reaches(2) && matches!(sum.take_from(2), Some((AtomKind::Many, 2, 1)));
    let near = matches!(sum.pop(), Some((AtomKind::End, 1, 3)));
    let most = Sum::greatest(sum, Sum::new(alloc))?;
    Ok(four && far && near && most.is_all_many())
}

#[test]
fn atoms_are_counted_by_kind(rt: HostRuntime) {
    shows(&rt, "ends of 1 and a many of 2", are_kinds_kept(rt.alloc()));
}
