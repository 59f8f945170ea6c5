// Judgements on messages by example, in the environment of `new (x: FIRST); new (y: SECOND); out CHANNEL DATUM`.

use super::samples::{BARE, CHECKED, MISSING, NoMemory, SEALED, Sample, SampleQuestion, each};
use spi_infer::reached;
use spi_message::{good_effect, good_type, has_type, is_label, slices};
use spi_rules::Env;
use spi_term::{Ty, type_nodes};
use std::alloc::Global;

/// What is asked of the datum and the second type where both names are in scope.
#[derive(Clone, Copy)]
enum OfMessages {
    Typed,
    Labelled,
    GoodType,
    GoodEffect,
    Untrusted,
    Fresh,
}

/// Whether the type is good, where it is small.
fn is_good(alloc: Global, env: &Env, ty: &Ty) -> Result<bool, NoMemory> {
    if env.len() > 1000 || type_nodes(ty) > 1000 {
        return Ok(false);
    }
    good_type(alloc, env, ty)
}

fn is_effect_good(alloc: Global, env: &Env, ty: &Ty) -> Result<bool, NoMemory> {
    match ty {
        Ty::Nonce(effect) => good_effect(alloc, env, effect),
        _ => Ok(false),
    }
}

fn answer_in(
    alloc: Global,
    question: OfMessages,
    env: &Env,
    parts: &Sample<'_>,
) -> Result<bool, NoMemory> {
    match question {
        OfMessages::Typed => has_type(alloc, env, parts.datum, parts.second),
        OfMessages::Labelled => is_label(alloc, env, parts.datum),
        OfMessages::GoodType => is_good(alloc, env, parts.second),
        OfMessages::GoodEffect => is_effect_good(alloc, env, parts.second),
        OfMessages::Untrusted => Ok(slices::is_un_type(parts.second)),
        OfMessages::Fresh => Ok(slices::is_fresh_type(parts.second)),
    }
}

impl SampleQuestion for OfMessages {
    fn answer_of(self, alloc: Global, parts: &Sample<'_>) -> Result<u64, NoMemory> {
        if parts.process.len() < 3 {
            return Ok(MISSING);
        }
        let env = reached(alloc, parts.process, 2)?;
        Ok(answer_in(alloc, self, &env, parts)? as u64)
    }
}

#[test]
fn keys_make_ciphertexts_untrusted(rt: HostRuntime) {
    let paired =
        "free a; process new (x: Nonce [end a]); new (y: (p: Un, Nonce [end p])); out a (a, x)";
    let other =
        "free a, b; process new (x: Nonce [end a]); new (y: (p: Un, Nonce [end p])); out a (b, x)";
    let typed = [(SEALED, 1), (BARE, 0), (paired, 1), (other, 0)];
    each(&rt, OfMessages::Typed, &typed);
}

#[test]
fn each_name_is_a_label(rt: HostRuntime) {
    let text = "free a; process new (x: Key(Un)); new (y: Un); out a (x, y)";
    each(&rt, OfMessages::Labelled, &[(text, 1)]);
}

#[test]
fn checks_want_untrusted_names_and_ends_labels(rt: HostRuntime) {
    let ends = "free a; process new (x: Key(Un)); new (y: Nonce [end x]); out a a";
    let good = [(ends, 1), (CHECKED, 0)];
    each(&rt, OfMessages::GoodType, &good);
    each(&rt, OfMessages::GoodEffect, &good);
}

#[test]
fn keys_and_untrusted_names_may_be_made(rt: HostRuntime) {
    let key = "free a; process new (x: Nonce [end a]); new (y: Key(Un)); out a x";
    let unit = "free a; process new (x: Un); new (y: ()); out a a";
    for (text, untrusted, fresh) in [(BARE, 1, 1), (key, 0, 1), (unit, 0, 0)] {
        each(&rt, OfMessages::Untrusted, &[(text, untrusted)]);
        each(&rt, OfMessages::Fresh, &[(text, fresh)]);
    }
}
