// What is to blame in a message.
ghost use Rattle.std.specs.Prelude.{◌<◌};
ghost use Rattle.spi_term.specs.Term.{process_size};

use crate::NoMemory;
use crate::case::Case;
use crate::find::{Spot, binder_at, binder_of, part_at, span_of};
use crate::help::put_help;
use crate::page::{Kind, Page};
use crate::source::Source;
use crate::terms::{Names, put_name, quote_message, quote_name, quote_type};
use spi_blame::Blame;
use spi_explain::Answer;
use spi_fault::Reason;
use spi_infer::reached;
use spi_rules::Env;
use spi_term::{Form, Msg, Ty};
use spi_text::Span;
use std::alloc::Global;

/// What is said of a node: the case that it is of, the node, the types of the names in scope there, and spellings of names.
#[derive(Drop)]
pub struct Scene<'a> {
    pub case: &'a Case<'a>,
    pub node: u32,
    pub env: Env,
    pub names: Names,
}

impl<'a> Scene<'a> {
    /// That of this node, with the spellings of the names in scope at another.
    pub fn at(
        case: &'a Case<'a>,
        alloc: Global,
        node: u32,
        scope_of: u32,
    ) -> Result<Scene<'a>, NoMemory>
        requires { node < process_size case.now.file.now.process.process }
    {
        let names = Names::at(alloc, case.file, scope_of)?;
        let env = reached(alloc, &case.file.process, node)?;
        Ok(Scene {
            case,
            node,
            env,
            names,
        })
    }
}

// Part number `step` of a message: of {M}N the key N is part 0.
fn child(m: &Msg, step: u32) -> Option<&Msg> {
    match m {
        Msg::Bound(_) => None,
        Msg::Name(_) => None,
        Msg::Unit => None,
        Msg::Pair(two) => {
            if step == 0 {
                Some(&two.first)
            } else {
                Some(&two.second)
            }
        }
        Msg::Inl(a) => Some(a),
        Msg::Inr(a) => Some(a),
        Msg::Enc(sealed) => {
            if step == 0 {
                Some(&sealed.key)
            } else {
                Some(&sealed.body)
            }
        }
        Msg::Hash(a) => Some(a),
    }
}

// The name of a Key type under which a ciphertext is, and what it takes.
fn key_of<'a>(env: &'a Env, m: &Msg) -> Option<(u32, &'a Ty)> {
    match m {
        Msg::Enc(sealed) => match &sealed.key {
            Msg::Name(x) => match env.get(*x) {
                Some(Ty::Key(payload)) => Some((*x, payload)),
                _ => None,
            },
            _ => None,
        },
        _ => None,
    }
}

// The innermost key over the part at the end of the steps, of which the last comes first.
fn key_over<'a>(env: &'a Env, whole: &Msg, steps: &[u32]) -> Option<(u32, &'a Ty)> {
    let mut found = None;
    let mut m = whole;
    for step in steps.iter().rev() {
        if *step == 1 {
            if let Some(key) = key_of(env, m) {
                found = Some(key);
            }
        }
        match child(m, *step) {
            Some(part) => m = part,
            None => return found,
        }
    }
    found
}

// What a message without a type of its own is.
fn form_of(m: &Msg) -> &'static str {
    match m {
        Msg::Bound(_) => " isn't in scope",
        Msg::Name(_) => " isn't in scope",
        Msg::Unit => " is the empty message",
        Msg::Pair(_) => " is a pair",
        Msg::Inl(_) => " is tagged by inl",
        Msg::Inr(_) => " is tagged by inr",
        Msg::Enc(_) => " is a ciphertext, and so of type `Un`",
        Msg::Hash(_) => " is a hash, and so of type `Un`",
    }
}

/// The type of a name, where the message is one.
pub fn type_of<'a>(env: &'a Env, m: &Msg) -> Option<&'a Ty> {
    match m {
        Msg::Name(x) => env.get(*x),
        _ => None,
    }
}

// What is wanted of a part, and what it has.
fn put_misfit(page: &mut Page, scene: &Scene<'_>, blame: &Blame) {
    quote_message(page, &scene.names, &blame.part);
    match type_of(&scene.env, &blame.part) {
        Some(t) => {
            page.put(" is of type ");
            quote_type(page, &scene.names, t);
        }
        None => page.put(form_of(&blame.part)),
    }
    match &blame.wanted {
        Some(t) => {
            page.put(", and ");
            quote_type(page, &scene.names, t);
            page.put(" is wanted");
        }
        None => page.put(", and a label is wanted"),
    }
}

/// In a message, the first part that fails, with what is wanted of it and what it has.
pub fn put_blame(page: &mut Page, scene: &Scene<'_>, whole: &Msg, blame: &Blame) {
    if !blame.steps.is_empty() {
        page.put("in ");
        quote_message(page, &scene.names, whole);
        page.put(": ");
    }
    if let Some((key, payload)) = key_over(&scene.env, whole, &blame.steps) {
        quote_name(page, &scene.names, key);
        page.put(" takes ");
        quote_type(page, &scene.names, payload);
        page.put("; ");
    }
    put_misfit(page, scene, blame);
}

fn spelling<'a>(source: &Source<'a>, span: Option<Span>) -> &'a str {
    match span {
        Some(span) => crate::source::text_at(source, span),
        None => "",
    }
}

// Where a name is bound, as a note.
fn note_binder(page: &mut Page, scene: &Scene<'_>, x: u32, word: &str) {
    let Some(binder) = binder_of(&scene.case.file.process, scene.node, x) else {
        return;
    };
    let place = scene.case.file.process_place(binder);
    let span = Some(binder_at(scene.case.source, place.from, word));
    page.open(Kind::Note, span);
    page.put("`");
    put_name(page, &scene.names, x);
    page.put("` is bound here");
    page.close(scene.case.source, span);
}

/// The note on an answer of no, with the place of the part, where that isn't the whole message, where its name is bound, and
/// what usually mends it. The message that was asked about stands at the spot.
pub fn note_blame(
    page: &mut Page,
    scene: &Scene<'_>,
    reason: Reason,
    form: &Form,
    answer: &Answer,
    spot: Spot,
) {
    let Some(blame) = &answer.blame else {
        return;
    };
    let tokens = scene.case.source.tokens();
    let span = span_of(tokens, part_at(tokens, spot, &blame.steps));
    page.open(Kind::Note, span);
    put_blame(page, scene, &answer.message, blame);
    page.close(
        scene.case.source,
        if blame.steps.is_empty() { None } else { span },
    );
    if let Msg::Name(x) = &blame.part {
        note_binder(page, scene, *x, spelling(scene.case.source, span));
    }
    put_help(page, scene, reason, form, blame);
}
