// Shared terms by example.

use super::samples::{MISSING, NoMemory, Sample, SampleQuestion, TURNED, each};
use spi_intern::{MsgPart, Store, TyPart};
use spi_term::{Msg, Ty};
use std::alloc::Global;

/// What is asked of a store with the parts of a sample.
#[derive(Clone, Copy)]
enum OfStores {
    OneMessage,
    OneType,
    Distinct,
    Part,
    TypePart,
    Name,
    Pair,
    Sum,
    Key,
    Nonce,
}

fn is_one_message(store: &mut Store, m: &Msg, n: &Msg) -> Result<bool, NoMemory> {
    let first = store.message(m)?;
    let second = store.message(n)?;
    Ok(first == second && first.place() == second.place())
}

fn is_one_type(alloc: Global, store: &mut Store, t: &Ty, u: &Ty) -> Result<bool, NoMemory> {
    let first = store.ty(alloc, t)?;
    let second = store.ty(alloc, u)?;
    Ok(first == second)
}

/// How many terms have numbers once this message has one.
fn distinct(store: &mut Store, m: &Msg) -> Result<u64, NoMemory> {
    store.message(m)?;
    Ok(store.distinct())
}

/// Whether the message is a hash.
fn is_hash(store: &mut Store, m: &Msg) -> Result<bool, NoMemory> {
    let id = store.message(m)?;
    Ok(matches!(store.part(id), MsgPart::Hash(_)))
}

/// How many atoms of a Nonce type the store tells.
fn atoms_told(alloc: Global, store: &mut Store, t: &Ty) -> Result<u64, NoMemory> {
    let id = store.ty(alloc, t)?;
    match store.ty_part(id) {
        TyPart::Nonce(ids) => Ok(ids.len() as u64),
        _ => Ok(MISSING),
    }
}

fn is_named(store: &mut Store, m: &Msg) -> Result<bool, NoMemory> {
    let made = store.message_over(MsgPart::Name(0))?;
    Ok(made == store.message(m)?)
}

/// Whether the second type is the pair of the first with itself.
fn is_paired(alloc: Global, store: &mut Store, t: &Ty, u: &Ty) -> Result<bool, NoMemory> {
    let id = store.ty(alloc, t)?;
    let made = store.pair_over(id, id)?;
    Ok(made == store.ty(alloc, u)?)
}

fn is_summed(alloc: Global, store: &mut Store, t: &Ty, u: &Ty) -> Result<bool, NoMemory> {
    let id = store.ty(alloc, t)?;
    let made = store.sum_over(id, id)?;
    Ok(made == store.ty(alloc, u)?)
}

fn is_keyed(alloc: Global, store: &mut Store, t: &Ty, u: &Ty) -> Result<bool, NoMemory> {
    let id = store.ty(alloc, t)?;
    let made = store.key_over(id)?;
    Ok(made == store.ty(alloc, u)?)
}

/// Whether the type is a Nonce that promises nothing.
fn is_bare(alloc: Global, store: &mut Store, u: &Ty) -> Result<bool, NoMemory> {
    let made = store.nonce_over(alloc, Vec::new(alloc))?;
    Ok(made == store.ty(alloc, u)?)
}

fn answer_by(
    alloc: Global,
    question: OfStores,
    store: &mut Store,
    parts: &Sample<'_>,
) -> Result<u64, NoMemory> {
    let (t, u) = (parts.first, parts.second);
    match question {
        OfStores::OneMessage => Ok(is_one_message(store, parts.channel, parts.datum)? as u64),
        OfStores::OneType => Ok(is_one_type(alloc, store, t, u)? as u64),
        OfStores::Distinct => distinct(store, parts.datum),
        OfStores::Part => Ok(is_hash(store, parts.datum)? as u64),
        OfStores::TypePart => atoms_told(alloc, store, t),
        OfStores::Name => Ok(is_named(store, parts.datum)? as u64),
        OfStores::Pair => Ok(is_paired(alloc, store, t, u)? as u64),
        OfStores::Sum => Ok(is_summed(alloc, store, t, u)? as u64),
        OfStores::Key => Ok(is_keyed(alloc, store, t, u)? as u64),
        OfStores::Nonce => Ok(is_bare(alloc, store, u)? as u64),
    }
}

impl SampleQuestion for OfStores {
    fn answer_of(self, alloc: Global, parts: &Sample<'_>) -> Result<u64, NoMemory> {
        answer_by(alloc, self, &mut Store::new(alloc), parts)
    }
}

#[test]
fn equal_terms_have_equal_numbers(rt: HostRuntime) {
    let twice =
        "free a, b; process new (x: Nonce [end a, end a]); new (y: Nonce [end a]); out a (a, a)";
    let equal = [(TURNED, 1), (twice, 0)];
    each(&rt, OfStores::OneMessage, &equal);
    each(&rt, OfStores::OneType, &equal);
    each(&rt, OfStores::Distinct, &[(TURNED, 1), (twice, 2)]);
}

#[test]
fn parts_are_told(rt: HostRuntime) {
    let hash =
        "version 2; free a; process new (x: Nonce [end a, many a, many a]); new (y: Un); out a hash(a)";
    each(&rt, OfStores::Part, &[(hash, 1), (TURNED, 0)]);
    each(&rt, OfStores::TypePart, &[(hash, 2), (TURNED, 2)]);
}

#[test]
fn terms_are_made_over_numbers(rt: HostRuntime) {
    let pair = "free a; process new (x: Un); new (y: (p: Un, Un)); out a a";
    let sum = "free a; process new (x: ()); new (y: (() + ())); out a ()";
    let key = "free a; process new (x: Un); new (y: Key(Un)); out a a";
    let nonce = "free a; process new (x: Un); new (y: Nonce []); out a a";
    for (question, made, other) in [
        (OfStores::Name, pair, sum),
        (OfStores::Pair, pair, sum),
        (OfStores::Sum, sum, pair),
        (OfStores::Key, key, pair),
        (OfStores::Nonce, nonce, key),
    ] {
        each(&rt, question, &[(made, 1), (other, 0)]);
    }
}
