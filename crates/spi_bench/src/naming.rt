// Parts under their names, in the slots of a table.
ghost use Rattle.std.specs.Prelude.{◌≡◌, ◌+◌, ◌<◌, ◌^◌, ◌++◌, ◌∷◌, [], Option, None, Some, length, IfOk, IfErr, OnOk, OnErr};
ghost use Rattle.std.specs.Str.{bytes_eq};
ghost use Rattle.indexmap.specs.IndexMap.{get, IsUnchanged, Updates};
ghost use Rattle.spi_term.specs.Term.{process_size};
ghost use Rattle.spi_bench.specs.Slots.{AreNamed, IsPadded, SetsPart, PutsPart, Drops, Stays};
ghost use Rattle.spi_bench.specs.Sums.{of_least, total_in, shared_in};
ghost use Rattle.spi_bench.specs.Sums as S;

use crate::NoMemory;
use crate::slot::Slot;
use crate::table::Table;
use indexmap::IndexMap;
use spi_term::{Effect, Process};
use spi_text::Text;
use std::alloc::Global;
use std::mem::replace;

// An empty slot under the name: the name in memory of its own, and the number of the slot.
fn new_place(
    alloc: Global,
    table: &mut Table,
    places: &mut IndexMap<Text, usize>,
    name: &Text,
) -> Result<(Text, usize), NoMemory>
    ensures name { IfOk result (λ r. r.0 ≡ name.now) }
    ensures at { IfOk result (λ r. r.1 ≡ length table.old.slots.items) }
    ensures slots { OnOk result (table.new.slots.items ≡ table.old.slots.items ++ None ∷ []) }
    ensures placed { OnOk result
        (Updates bytes_eq places.old places.new name.now (Some (length table.old.slots.items))) }
    ensures padded { IsPadded table.old.slots.items table.new.slots.items }
    ensures unchanged { OnErr result (IsUnchanged places.old places.new) }
    ensures sums { table.new.sums ≡ table.old.sums }
{
    let owned = Text::of(alloc, name.as_str())?;
    let key = Text::of(alloc, name.as_str())?;
    let at = table.push_empty()?;
    places.insert(key, at)?;
    Ok((owned, at))
}

// Another part in the slot, whose name stays: the part that was there.
fn put_there(table: &mut Table, at: usize, part: Process, least: Option<Effect>) -> Option<Process>
    requires at { at < length table.old.slots.items }
    requires nodes { total_in table.old.sums S.nodes table.old.slots.items + process_size part.process
        < 2 ^ 64 }
    requires atoms { total_in table.old.sums S.atoms table.old.slots.items + of_least length least < 2 ^ 64 }
    ensures set { SetsPart at part least result table.old.slots.items table.new.slots.items }
    ensures free { table.new.sums.free ≡ table.old.sums.free }
    ensures shared { shared_in table.new.sums ≡ shared_in table.old.sums }
{
    match table.clear(at) {
        Some(slot) => {
            let mut slot = slot;
            let before = replace(&mut slot.part, part);
            slot.least = least;
            let _ = table.set(at, Some(slot));
            Some(before)
        }
        None => None,
    }
}

/// A part under a name: another one in its place where the name is there, and else the last one. It gives back the part
/// that was there. Without memory the new part is given back.
pub fn put_fitting(
    alloc: Global,
    table: &mut Table,
    places: &mut IndexMap<Text, usize>,
    name: &Text,
    part: Process,
    least: Option<Effect>,
) -> Result<Option<Process>, Process>
    requires places { AreNamed table.old.slots.items (get bytes_eq places.old) }
    requires nodes { total_in table.old.sums S.nodes table.old.slots.items + process_size part.process
        < 2 ^ 64 }
    ensures ok { IfOk result
        (λ r. PutsPart name.now part least r table.old.slots.items table.new.slots.items
        (get bytes_eq places.new)) }
    ensures err { OnErr result (Stays table.old.slots.items table.new.slots.items (get bytes_eq places.new)) }
    ensures part { IfErr result (λ p. p ≡ part) }
    ensures free { table.new.sums.free ≡ table.old.sums.free }
    ensures shared { shared_in table.new.sums ≡ shared_in table.old.sums }
{
    if !table.has_room(&least) {
        return Err(part);
    }
    match places.get(name).copied() {
        Some(at) => Ok(put_there(table, at, part, least)),
        None => match new_place(alloc, table, places, name) {
            Ok((name, at)) => {
                let _ = table.set(at, Some(Slot { name, part, least }));
                Ok(None)
            }
            Err(_) => Err(part),
        },
    }
}

/// The part under the name goes, where there is one, and is given back.
pub fn drop_from(
    table: &mut Table,
    places: &mut IndexMap<Text, usize>,
    name: &Text,
) -> Option<Process>
    requires { AreNamed table.old.slots.items (get bytes_eq places.old) }
    ensures dropped { Drops name.now result table.old.slots.items table.new.slots.items
        (get bytes_eq places.new) }
    ensures free { table.new.sums.free ≡ table.old.sums.free }
    ensures shared { shared_in table.new.sums ≡ shared_in table.old.sums }
{
    match places.swap_remove(name) {
        Some(at) => match table.clear(at) {
            Some(slot) => {
                let Slot {
                    name: _,
                    part,
                    least: _,
                } = slot;
                Some(part)
            }
            None => None,
        },
        None => None,
    }
}
