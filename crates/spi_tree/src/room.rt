//! Where the parts of trees lie.

ghost use Rattle.std.specs.Prelude.{◌≡◌, [], ◌∷◌, IfOk, IfSome};
ghost use Rattle.spi_tree.specs.Trees.{name, abbr};
ghost use Rattle.spi_tree.specs.Views.{msg_of, ty_of, word_to};

use crate::{NoMemory, SMsg, STy, SWord};
use bumpalo::Bump;
use bumpalo::collections::into_bump_slice;
use spi_text::{Span, Text};
use std::alloc::Global;

/// A list with more items than this stays where it was read: the memory for it is given back when the process ends. No
/// message or type of so many nodes is accepted; the effect that a rule writes may be so long.
const LONG: usize = 1024;

/// Where the parts of a tree are put. All that lies in `bump` is given back at once, when that is dropped.
#[derive(Clone, Copy)]
pub struct Room<'b> {
    pub alloc: Global,
    pub bump: &'b Bump,
}

/// A part of a tree, in a place of its own.
#[inline(always)]
pub fn placed<'b, T: Drop>(room: Room<'b>, part: T) -> Result<&'b T, NoMemory>
    ensures { IfOk result (λ place. place.now ≡ part) }
{
    Ok(room.bump.try_alloc(part)?)
}

/// A part of a tree in a place of its own, as a list of one.
pub fn single<'b, T: Drop>(room: Room<'b>, part: T) -> Result<&'b [T], NoMemory>
    ensures { IfOk result (λ row. row.now ≡ part ∷ []) }
{
    let mut one = Vec::with_capacity(room.bump, 1)?;
    one.push(part)?;
    Ok(into_bump_slice(one))
}

/// The items of a list, in places side by side.
pub fn row<'b, T: Drop>(room: Room<'b>, items: Vec<T>) -> Result<&'b [T], NoMemory>
    ensures { IfOk result (λ row. row.now ≡ items.items) }
{
    if items.len() > LONG {
        let all = placed(room, items)?;
        return Ok(all.as_slice());
    }
    let mut exact = Vec::with_capacity(room.bump, items.len())?;
    for item in items {
        exact.push(item)?;
    }
    Ok(into_bump_slice(exact))
}

/// Where a word stands that ends at this offset, with as many bytes before it as it has.
#[inline(always)]
pub fn place_to(to: u32, word: &Text) -> Span
    ensures { result ≡ (word_to to word.now).span }
{
    let from = (to as usize).saturating_sub(word.as_str().len()) as u32;
    Span { from, to }
}

/// Where a word ends, if it stands over as many bytes as it has.
#[inline(always)]
fn end_of(name: &SWord) -> Option<u32>
    ensures { IfSome result (λ to. name.now ≡ word_to to name.now.word) }
{
    let place = place_to(name.span.to, &name.word);
    if name.span.from == place.from {
        Some(place.to)
    } else {
        None
    }
}

/// The message that is this name.
#[inline(always)]
pub fn named<'b>(room: Room<'b>, word: SWord) -> Result<SMsg<'b>, NoMemory>
    ensures { IfOk result (λ m. msg_of m ≡ name word.span word) }
{
    match end_of(&word) {
        Some(to) => Ok(SMsg::Name {
            to,
            word: word.word,
        }),
        None => Ok(SMsg::Placed {
            name: placed(room, word)?,
        }),
    }
}

/// The type that is declared with this name.
#[inline(always)]
pub fn abbreviated<'b>(room: Room<'b>, word: SWord) -> Result<STy<'b>, NoMemory>
    ensures { IfOk result (λ t. ty_of t ≡ abbr word.span word) }
{
    match end_of(&word) {
        Some(to) => Ok(STy::Abbr {
            to,
            word: word.word,
        }),
        None => Ok(STy::Placed {
            name: placed(room, word)?,
        }),
    }
}
