// The text of a no: what is wrong, where and why, and what usually mends it.
use crate::NoMemory;
use crate::blame::{Scene, note_blame};
use crate::case::{Case, node_span};
use crate::find::{Spot, first_message, second_message, span_of, token_at};
use crate::others::{Asked, asked_by, is_for, is_of_written};
use crate::page::{Kind, Page};
use crate::paid::{help_atom, note_origins};
use crate::terms::{Names, quote_atom, quote_message, quote_name};
use spi_explain::{Answer, blames};
use spi_fault::{Fault, Reason, Shown};
use spi_term::{Atom, Form, Msg, free_in};
use spi_text::Span;

/// The word that a form begins with.
pub fn word_of(form: &Form) -> &'static str {
    match form {
        Form::Send { .. } => "out",
        Form::Recv { .. } => "inp",
        Form::Serve { .. } => "repeat inp",
        Form::Split { .. } => "split",
        Form::Select { .. } => "match",
        Form::Branch { .. } => "case",
        Form::Decrypt { .. } => "decrypt",
        Form::Check { .. } => "check",
        Form::Begin { .. } => "begin",
        Form::End { .. } => "end",
        Form::EndMany { .. } => "endmany",
        Form::Cast { .. } => "cast",
        Form::Fresh { .. } => "new",
        Form::Par { .. } => "|",
        Form::Stop => "stop",
    }
}

/// What is wrong with a message, as the sentence goes on behind it.
pub fn message_words(reason: Reason, form: &Form) -> &'static str {
    match reason {
        Reason::ChannelNotUn => " stands in the place of the channel, and isn't of type `Un`",
        Reason::DatumNotUn => " is sent, and isn't of type `Un`",
        Reason::WrongKey => " isn't a key for what is written between the braces",
        Reason::NotANonce => " is neither a nonce by its type nor of type `Un`",
        Reason::NotALabel => " is no label: it has no type",
        Reason::WrongFirst => " isn't of the type that is written for the first part",
        _ => match form {
            Form::Check { .. } => " stands first in a `check`, and isn't of type `Un`",
            Form::Decrypt { .. } => " is opened by `decrypt`, and isn't of type `Un`",
            Form::Cast { .. } => " is cast, and isn't of type `Un`",
            _ => " isn't of the type that is written for it",
        },
    }
}

/// What is wrong with a type that is written.
pub fn type_words(reason: Reason, form: &Form) -> &'static str {
    match reason {
        Reason::BadCast => "a `cast` is to a Nonce type or to `Un`, and to no other",
        Reason::NotGenerative =>
            "`new` makes a name of type `Un` or of a Key type, and of no other",
        _ => match form {
            Form::Recv { .. } => "what comes in is of type `Un`, and another type is written",
            Form::Serve { .. } => "what comes in is of type `Un`, and another type is written",
            _ => "the type that is written speaks of something that is no label",
        },
    }
}

// What usually mends a type that is written.
fn type_help(reason: Reason, form: &Form) -> &'static str {
    match reason {
        Reason::BadCast =>
            "a cast puts a promise into a nonce; take a pair apart by `split`, and open a ciphertext by `decrypt`",
        Reason::NotGenerative =>
            "make a nonce by `new (n: Un)`; who answers casts it to the Nonce type",
        _ => match form {
            Form::Recv { .. } =>
                "write `Un`; only `decrypt` with a key gives what came in another type",
            Form::Serve { .. } =>
                "write `Un`; only `decrypt` with a key gives what came in another type",
            _ =>
                "labels are names, pairs, tags and hashes; a ciphertext is one only where it may be sent",
        },
    }
}

/// How many names a form binds.
pub fn binds(form: &Form) -> u32 {
    match form {
        Form::Split { .. } => 2,
        _ => 1,
    }
}

/// The message of an atom.
pub fn label_of(atom: &Atom) -> &Msg {
    match atom {
        Atom::End(m) => m,
        Atom::Check(m) => m,
        Atom::Many(m) => m,
    }
}

// The names that the form binds and the atom speaks of.
fn put_escaped(page: &mut Page, names: &Names, scope: u32, form: &Form, atom: &Atom) {
    let mut join = "";
    for i in 0..binds(form) {
        let x = scope.saturating_add(i);
        if free_in(x, label_of(atom)) {
            page.put(join);
            quote_name(page, names, x);
            join = " and ";
        }
    }
}

// The sentence on an atom that is left to pay.
fn put_unpaid(
    page: &mut Page,
    reason: Reason,
    names: &Names,
    scope: u32,
    form: &Form,
    atom: &Atom,
) {
    page.put("nothing pays for ");
    quote_atom(page, names, atom);
    match reason {
        Reason::BodyHasEffect => {
            page.put(
                " behind this `repeat inp`, and nothing in front of it can: it's needed in each of the runs",
            );
        }
        Reason::EffectEscapes => {
            page.put(" behind this `");
            page.put(word_of(form));
            page.put("`, and nothing in front of it can: it speaks of ");
            put_escaped(page, names, scope, form, atom);
            page.put(", bound here");
        }
        _ => {}
    }
}

// The fault of an effect.
fn tell_atom(page: &mut Page, case: &Case<'_>, fault: &Fault, atom: &Atom) -> Result<(), NoMemory> {
    let process = &case.file.process;
    if fault.node >= process.len() {
        return Ok(());
    }
    let names = Names::at(page.alloc(), case.file, fault.scope_of)?;
    let node = process.node(fault.node);
    let span = Some(node_span(case, fault.node));
    page.open(Kind::Wrong, span);
    put_unpaid(page, fault.reason, &names, node.scope, &node.form, atom);
    page.close(case.source, span);
    note_origins(page, case, atom)?;
    help_atom(page, case, fault.reason, atom);
    Ok(())
}

// Where the message of an answer stands.
fn spot_of(scene: &Scene<'_>, form: &Form, is_second: bool) -> Spot {
    let tokens = scene.case.source.tokens();
    let head = token_at(tokens, scene.case.file.process_place(scene.node).from);
    if is_second {
        second_message(tokens, head, form)
    } else {
        first_message(tokens, head)
    }
}

// The notes on the answers that are for this reason. An answer by the rule for untrusted parts is one where the types that
// are written are `Un`.
fn note_answers(
    page: &mut Page,
    scene: &Scene<'_>,
    fault: &Fault,
    form: &Form,
    answers: &[Answer],
) {
    for (i, answer) in answers.iter().enumerate() {
        let asked: Asked = asked_by(form, i);
        if is_for(fault.reason, form, i) && is_of_written(form, asked) {
            let spot = spot_of(scene, form, asked.is_second);
            note_blame(page, scene, fault.reason, form, answer, spot);
        }
    }
}

// The wrong message's place.
fn message_span(scene: &Scene<'_>, form: &Form, reason: Reason) -> Option<Span> {
    let is_second = match reason {
        Reason::DatumNotUn => true,
        Reason::WrongKey => true,
        Reason::NotANonce => true,
        Reason::WrongFirst => true,
        _ => false,
    };
    span_of(scene.case.source.tokens(), spot_of(scene, form, is_second))
}

// The fault of a message.
fn tell_message(page: &mut Page, case: &Case<'_>, fault: &Fault, m: &Msg) -> Result<(), NoMemory> {
    let process = &case.file.process;
    if fault.node >= process.len() {
        return Ok(());
    }
    let scene = Scene::at(case, page.alloc(), fault.node, fault.scope_of)?;
    let answers = blames(page.alloc(), process, fault.node)?;
    let form = &process.node(fault.node).form;
    let span = message_span(&scene, form, fault.reason);
    page.open(Kind::Wrong, span);
    quote_message(page, &scene.names, m);
    page.put(message_words(fault.reason, form));
    page.close(case.source, span);
    note_answers(page, &scene, fault, form, &answers);
    Ok(())
}

// The fault of a type.
fn tell_type(page: &mut Page, case: &Case<'_>, fault: &Fault) {
    let process = &case.file.process;
    if fault.node >= process.len() {
        return;
    }
    let form = &process.node(fault.node).form;
    let span = Some(node_span(case, fault.node));
    page.open(Kind::Wrong, span);
    page.put(type_words(fault.reason, form));
    page.close(case.source, span);
    page.open(Kind::Help, None);
    page.put(type_help(fault.reason, form));
    page.close(case.source, None);
}

/// What is wrong by this fault, why, and what usually mends it.
pub fn tell_fault(page: &mut Page, case: &Case<'_>, fault: &Fault) -> Result<(), NoMemory> {
    match &fault.shown {
        None => {
            tell_type(page, case, fault);
            Ok(())
        }
        Some(Shown::Message(m)) => tell_message(page, case, fault, m),
        Some(Shown::Atom(atom)) => tell_atom(page, case, fault, atom),
    }
}
