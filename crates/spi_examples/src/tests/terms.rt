// Terms by example.

use super::samples::{
    Line, NoMemory, OPENED_WRONG, Sample, SampleQuestion, TURNED, each, each_line, sample_of, shows,
};
use spi_scope::File;
use spi_show::show_message;
use spi_term::{
    Form, Node, Process, Ty, free_in, free_in_type, is_same_type, nodes, opened, put_in,
    same_message, same_type, type_nodes,
};
use std::alloc::Global;

/// What is asked of the parts of a sample.
#[derive(Clone, Copy)]
enum OfTerms {
    SameMessage,
    SameType,
    EqualType,
    Opened,
    Nodes,
    TypeNodes,
    Free,
    FreeInType,
    Copied,
}

/// Whether the second type is the second part of the first, with the channel for its binder.
fn is_opened(alloc: Global, parts: &Sample<'_>) -> Result<bool, NoMemory> {
    match parts.first {
        Ty::Pair(two) => {
            let made = opened(alloc, &two.second, parts.channel)?;
            Ok(same_type(&made, parts.second))
        }
        _ => Ok(false),
    }
}

fn is_copied(alloc: Global, parts: &Sample<'_>) -> Result<bool, NoMemory> {
    let datum = parts.datum.copy(alloc)?;
    let first = parts.first.copy(alloc)?;
    Ok(same_message(&datum, parts.datum) && same_type(&first, parts.first))
}

impl SampleQuestion for OfTerms {
    fn answer_of(self, alloc: Global, parts: &Sample<'_>) -> Result<u64, NoMemory> {
        match self {
            OfTerms::SameMessage => Ok(same_message(parts.channel, parts.datum) as u64),
            OfTerms::SameType => Ok(same_type(parts.first, parts.second) as u64),
            OfTerms::EqualType => Ok(is_same_type(parts.first, parts.second) as u64),
            OfTerms::Opened => Ok(is_opened(alloc, parts)? as u64),
            OfTerms::Nodes => Ok(nodes(parts.datum)),
            OfTerms::TypeNodes => Ok(type_nodes(parts.first)),
            OfTerms::Free => Ok(free_in(0, parts.datum) as u64),
            OfTerms::FreeInType => Ok(free_in_type(0, parts.first) as u64),
            OfTerms::Copied => Ok(is_copied(alloc, parts)? as u64),
        }
    }
}

/// A name that is sent beside its sum, over a bound name.
const INJECTED: &str = "free a; process new (x: Un); new (y: Un); out x (x, inl a)";

#[test]
fn equal_messages_and_copies_are_the_same(rt: HostRuntime) {
    let equal = "free a; process new (x: Un); new (y: Un); out (a, x) (a, x)";
    let turned = "free a; process new (x: Un); new (y: Un); out (a, x) (x, a)";
    each(&rt, OfTerms::SameMessage, &[(equal, 1), (turned, 0)]);
    each(&rt, OfTerms::Copied, &[(INJECTED, 1)]);
}

#[test]
fn nodes_are_counted_and_free_names_found(rt: HostRuntime) {
    let sealed = "free a; process new (x: Un); new (y: Un); out a {()}x";
    each(&rt, OfTerms::Nodes, &[(sealed, 3)]);
    each(&rt, OfTerms::Free, &[(sealed, 0), (INJECTED, 1)]);
    let key =
        "version 2; free a; process new (x: Key(Nonce [end {()}a, many a])); new (y: Un); out a a";
    each(&rt, OfTerms::TypeNodes, &[(key, 8)]);
    each(&rt, OfTerms::FreeInType, &[(key, 1)]);
}

#[test]
fn types_are_the_same_by_counts(rt: HostRuntime) {
    let fewer =
        "free a, b; process new (x: Nonce [end a, end b]); new (y: Nonce [end a, end a]); out a a";
    let many =
        "version 2; free a; process new (x: Nonce [many a]); new (y: Nonce [many a, many a]); out a a";
    let other = "version 2; free a; process new (x: Nonce [many a]); new (y: Un); out a a";
    let same = [(TURNED, 1), (fewer, 0), (many, 1), (other, 0)];
    each(&rt, OfTerms::SameType, &same);
    each(&rt, OfTerms::EqualType, &same);
}

#[test]
fn a_message_takes_the_place_of_a_binder(rt: HostRuntime) {
    let pair =
        "free a; process new (x: (p: Un, Nonce [end p])); new (y: Nonce [end (a, ())]); out (a, ()) a";
    let under =
        "free a; process new (x: (p: Un, q: Un, Nonce [end p])); new (y: (q: Un, Nonce [end a])); out a a";
    let opened = [(pair, 1), (OPENED_WRONG, 0), (under, 1)];
    each(&rt, OfTerms::Opened, &opened);
}

/// The datum with the channel in place of the first name.
#[derive(Clone, Copy)]
struct Put;

impl Line for Put {
    fn line(self, alloc: Global, _text: &str, file: &File) -> Result<Vec<u8>, NoMemory> {
        let Some(parts) = sample_of(file) else {
            return Ok(Vec::new(alloc));
        };
        let made = put_in(alloc, parts.datum, 0, &[parts.channel.copy(alloc)?])?;
        show_message(alloc, &file.names, &made)
    }
}

#[test]
fn messages_take_the_places_of_names(rt: HostRuntime) {
    let free = "free a, b; process new (x: Un); new (y: Un); out (a, b) {(a, b)}inr a";
    let bound = "free a; process new (x: Un); new (y: Un); out () (x, y)";
    let put = [(free, "{((a, b), b)}inr (a, b)"), (bound, "(#1, #2)")];
    each_line(&rt, Put, &put);
}

/// Whether one node `stop` is a process over no name.
fn is_stop(alloc: Global) -> Result<bool, NoMemory> {
    let stop = Node {
        scope: 0,
        form: Form::Stop,
    };
    let nodes = Vec::from_array(alloc, [stop])?;
    match Process::from_nodes(0, nodes) {
        Some(process) => Ok(process.len() == 1 && process.names() == 0),
        None => Ok(false),
    }
}

#[test]
fn nodes_spell_a_process(rt: HostRuntime) {
    shows(&rt, "one node", is_stop(rt.alloc()));
}
