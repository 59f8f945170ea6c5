//! Terms of few nodes. Each is made only where there are at most 1,000 nodes, so that one that is too large takes
//! little memory.

ghost use Rattle.std.specs.Prelude.{◌≡◌, ◌≤◌, ◌++◌, ◌∷◌, [], map, IfOk, OnOk};
ghost use Rattle.spi_term.specs.Term.{pair, in_left, in_right, enc, hash, sum_ty, key as key_of, nonce};
ghost use Rattle.spi_term.specs.View.{message, atom, ty};

use spi_term::{Atom, Effect, Msg, Ty};
use std::alloc::{AllocError, Global};

/// So many nodes a term has at most, with those that were counted before it.
const MOST: u64 = 1000;

/// There is room for so many parts of a list from the first, and for more once they are read.
const SHORT: usize = 16;

/// Room for the parts of a list that has so many: exactly enough where the list is short.
#[inline(always)]
pub fn room_for<T: Drop>(alloc: Global, len: usize) -> Result<Vec<T>, AllocError>
    ensures { IfOk result (λ v. v.items ≡ []) }
{
    Vec::with_capacity(alloc, len.min(SHORT))
}

/// Keeps one more part of a list where there are few enough nodes with it.
#[inline(always)]
pub fn keep<T: Drop>(total: u64, read: &mut Vec<T>, part: T) -> Result<(), AllocError>
    ensures { OnOk result (total ≤ 1000 → read.new.items ≡ read.old.items ++ part ∷ []) }
{
    if total > MOST {
        return Ok(());
    }
    read.push(part)?;
    Ok(())
}

/// The pair of these two, or `()` where there are too many nodes.
#[inline(always)]
pub fn paired(alloc: Global, total: u64, first: Msg, second: Msg) -> Result<Msg, AllocError>
    ensures { IfOk result (λ m. total ≤ 1000 → message m ≡ pair (message first) (message second)) }
{
    if total > MOST {
        return Ok(Msg::Unit);
    }
    Msg::paired(alloc, first, second)
}

/// The message `inl M`, of this `M`, or `()` where there are too many nodes.
#[inline(always)]
pub fn left(alloc: Global, total: u64, part: Msg) -> Result<Msg, AllocError>
    ensures { IfOk result (λ m. total ≤ 1000 → message m ≡ in_left (message part)) }
{
    if total > MOST {
        return Ok(Msg::Unit);
    }
    Ok(Msg::Inl(Box::new(alloc, part)?))
}

/// The message `inr M`, of this `M`, or `()` where there are too many nodes.
#[inline(always)]
pub fn right(alloc: Global, total: u64, part: Msg) -> Result<Msg, AllocError>
    ensures { IfOk result (λ m. total ≤ 1000 → message m ≡ in_right (message part)) }
{
    if total > MOST {
        return Ok(Msg::Unit);
    }
    Ok(Msg::Inr(Box::new(alloc, part)?))
}

/// The body, encrypted under the key, or `()` where there are too many nodes.
#[inline(always)]
pub fn sealed(alloc: Global, total: u64, body: Msg, key: Msg) -> Result<Msg, AllocError>
    ensures { IfOk result (λ m. total ≤ 1000 → message m ≡ enc (message body) (message key)) }
{
    if total > MOST {
        return Ok(Msg::Unit);
    }
    Msg::sealed(alloc, body, key)
}

/// The message `hash(M)`, of this `M`, or `()` where there are too many nodes.
#[inline(always)]
pub fn hashed(alloc: Global, total: u64, part: Msg) -> Result<Msg, AllocError>
    ensures { IfOk result (λ m. total ≤ 1000 → message m ≡ hash (message part)) }
{
    if total > MOST {
        return Ok(Msg::Unit);
    }
    Ok(Msg::Hash(Box::new(alloc, part)?))
}

/// The sum of these two types, or `Un` where there are too many nodes.
#[inline(always)]
pub fn summed(alloc: Global, total: u64, left: Ty, right: Ty) -> Result<Ty, AllocError>
    ensures { IfOk result (λ t. total ≤ 1000 → ty t ≡ sum_ty (ty left) (ty right)) }
{
    if total > MOST {
        return Ok(Ty::Un);
    }
    Ty::summed(alloc, left, right)
}

/// The type `Key(T)`, of this `T`, or `Un` where there are too many nodes.
#[inline(always)]
pub fn key(alloc: Global, total: u64, part: Ty) -> Result<Ty, AllocError>
    ensures { IfOk result (λ t. total ≤ 1000 → ty t ≡ key_of (ty part)) }
{
    if total > MOST {
        return Ok(Ty::Un);
    }
    Ok(Ty::Key(Box::new(alloc, part)?))
}

/// The type of nonces with this effect, or `Un` where there are too many nodes.
#[inline(always)]
pub fn nonce(alloc: Global, total: u64, atoms: Vec<Atom>) -> Result<Ty, AllocError>
    ensures { IfOk result (λ t. total ≤ 1000 → ty t ≡ nonce (map atom atoms.items)) }
{
    if total > MOST {
        return Ok(Ty::Un);
    }
    Ok(Ty::Nonce(Box::new(alloc, Effect { atoms })?))
}
