// The other nodes that block, each with its reason in a line, and which question of a form is for which reason.
use crate::NoMemory;
use crate::blame::{Scene, put_blame};
use crate::case::{Case, node_span};
use crate::fault::{binds, label_of, message_words, type_words, word_of};
use crate::page::{Kind, Page};
use crate::terms::{Names, quote_atom, quote_message};
use spi_explain::{Answer, blames};
use spi_fault::Reason;
use spi_infer::effect_at;
use spi_term::{Atom, Effect, Form, Msg, Ty, free_in};

/// How many other nodes are told with their reasons.
const REASONED: usize = 100;

/// And how many with the atom that nothing pays for, where that is why.
const NEAR: usize = 6;

/// What a question is about: the form's second message, and whether it's the one of the rule for untrusted parts, or of the
/// other, or of both.
#[derive(Clone, Copy)]
pub struct Asked {
    pub is_second: bool,
    pub is_typed: bool,
    pub is_untrusted: bool,
}

fn about(is_second: bool, is_typed: bool, is_untrusted: bool) -> Asked {
    Asked {
        is_second,
        is_typed,
        is_untrusted,
    }
}

/// What question number i of a form is about.
pub fn asked_by(form: &Form, i: usize) -> Asked {
    match form {
        Form::Send { .. } => about(i == 1, true, true),
        Form::Check { .. } => about(i == 1, true, true),
        Form::Split { .. } => about(false, i == 0, i == 1),
        Form::Branch { .. } => about(false, i == 0, i == 1),
        Form::Select { .. } => about(i == 1 || i == 3, i < 2, i >= 2),
        Form::Decrypt { .. } => about(i >= 1, i <= 1, i != 1),
        _ => about(false, true, true),
    }
}

fn is_un(t: &Ty) -> bool {
    match t {
        Ty::Un => true,
        _ => false,
    }
}

// The types that are written in a form are `Un`.
fn is_untrusted(form: &Form) -> bool {
    match form {
        Form::Split { first, second, .. } => is_un(first) && is_un(second),
        Form::Select { first, second, .. } => is_un(first) && is_un(second),
        Form::Branch { left, right, .. } => is_un(left) && is_un(right),
        Form::Decrypt { ty, .. } => is_un(ty),
        _ => true,
    }
}

/// A question is of a rule that the written types leave open.
pub fn is_of_written(form: &Form, asked: Asked) -> bool {
    asked.is_typed || is_untrusted(form)
}

/// Question number i of a form is for this reason.
pub fn is_for(reason: Reason, form: &Form, i: usize) -> bool {
    match reason {
        Reason::ChannelNotUn => i == 0,
        Reason::DatumNotUn => i == 1,
        Reason::WrongKey => i >= 1,
        Reason::NotANonce => i == 1,
        Reason::NotALabel => i == 0,
        Reason::WrongFirst => i == 1,
        Reason::WrongScrutinee => match form {
            Form::Split { .. } => true,
            Form::Branch { .. } => true,
            Form::Select { .. } => i == 0 || i == 2,
            _ => i == 0,
        },
        _ => false,
    }
}

// The reason for which a question of a form is asked.
fn reason_for(form: &Form, i: usize) -> Reason {
    match form {
        Form::Send { .. } if i == 0 => Reason::ChannelNotUn,
        Form::Send { .. } => Reason::DatumNotUn,
        Form::Recv { .. } => Reason::ChannelNotUn,
        Form::Serve { .. } => Reason::ChannelNotUn,
        Form::Select { .. } if i == 1 || i == 3 => Reason::WrongFirst,
        Form::Decrypt { .. } if i >= 1 => Reason::WrongKey,
        Form::Check { .. } if i == 1 => Reason::NotANonce,
        Form::Begin { .. } => Reason::NotALabel,
        Form::End { .. } => Reason::NotALabel,
        Form::EndMany { .. } => Reason::NotALabel,
        _ => Reason::WrongScrutinee,
    }
}

// A nonce by its type, which is as good as one of type `Un`.
fn is_nonce(scene: &Scene<'_>, form: &Form, i: usize, m: &Msg) -> bool {
    match form {
        Form::Check { .. } if i == 1 => match crate::blame::type_of(&scene.env, m) {
            Some(Ty::Nonce(_)) => true,
            _ => false,
        },
        _ => false,
    }
}

// The first message of the node that fails, with what is to blame in it.
fn put_message_reason(page: &mut Page, scene: &Scene<'_>, form: &Form, answers: &[Answer]) -> bool {
    for (i, answer) in answers.iter().enumerate() {
        let is_meant = if is_untrusted(form) {
            asked_by(form, i).is_untrusted
        } else {
            asked_by(form, i).is_typed
        };
        if let Some(blame) = &answer.blame {
            if is_meant && !is_nonce(scene, form, i, &answer.message) {
                quote_message(page, &scene.names, &answer.message);
                page.put(message_words(reason_for(form, i), form));
                page.put(": ");
                put_blame(page, scene, &answer.message, blame);
                return true;
            }
        }
    }
    false
}

fn has_cipher(m: &Msg) -> bool {
    match m {
        Msg::Bound(_) => false,
        Msg::Name(_) => false,
        Msg::Unit => false,
        Msg::Pair(two) => has_cipher(&two.first) || has_cipher(&two.second),
        Msg::Inl(a) => has_cipher(a),
        Msg::Inr(a) => has_cipher(a),
        Msg::Enc(_) => true,
        Msg::Hash(a) => has_cipher(a),
    }
}

fn effect_has_cipher(e: &Effect) -> bool {
    for a in &e.atoms {
        let has = match a {
            Atom::End(m) => has_cipher(m),
            Atom::Check(m) => has_cipher(m),
            Atom::Many(m) => has_cipher(m),
        };
        if has {
            return true;
        }
    }
    false
}

fn type_has_cipher(t: &Ty) -> bool {
    match t {
        Ty::Un => false,
        Ty::Unit => false,
        Ty::Pair(two) => type_has_cipher(&two.first) || type_has_cipher(&two.second),
        Ty::Sum(two) => type_has_cipher(&two.first) || type_has_cipher(&two.second),
        Ty::Key(t) => type_has_cipher(t),
        Ty::Nonce(e) => effect_has_cipher(e),
    }
}

// The reason for which a node whose messages are right blocks by its types, where it does so.
fn type_reason(form: &Form) -> Option<Reason> {
    let is_bad = match form {
        Form::Recv { ty, .. } => !is_un(ty),
        Form::Serve { ty, .. } => !is_un(ty),
        Form::Split { first, second, .. } => type_has_cipher(first) || type_has_cipher(second),
        Form::Select { first, second, .. } => type_has_cipher(first) || type_has_cipher(second),
        Form::Branch { left, right, .. } => type_has_cipher(left) || type_has_cipher(right),
        Form::Decrypt { ty, .. } => type_has_cipher(ty),
        Form::Cast { ty, .. } => match ty {
            Ty::Un => false,
            Ty::Nonce(e) => effect_has_cipher(e),
            _ => return Some(Reason::BadCast),
        },
        Form::Fresh { ty, .. } => match ty {
            Ty::Un => false,
            Ty::Key(t) => type_has_cipher(t),
            _ => return Some(Reason::NotGenerative),
        },
        _ => false,
    };
    if is_bad { Some(Reason::BadType) } else { None }
}

// An atom of an effect that the form can't let out.
fn held_back<'a>(scope: u32, form: &Form, effect: &'a Effect) -> Option<&'a Atom> {
    let mut found = None;
    for atom in &effect.atoms {
        let mut is_held = false;
        for i in 0..binds(form) {
            is_held = is_held || free_in(scope.saturating_add(i), label_of(atom));
        }
        if let (Form::Serve { .. }, Atom::End(_) | Atom::Check(_)) = (form, atom) {
            is_held = true;
        }
        if is_held {
            found = Some(atom);
        }
    }
    found
}

// The atom that nothing pays for behind the node.
fn put_effect_reason(
    page: &mut Page,
    scene: &Scene<'_>,
    form: &Form,
    is_near: bool,
) -> Result<(), NoMemory> {
    let body = scene.node.saturating_add(1);
    let process = &scene.case.file.process;
    let mut is_shown = false;
    if is_near && body < process.len() {
        let names = Names::at(page.alloc(), scene.case.file, body)?;
        if let Some(effect) = effect_at(page.alloc(), process, body)? {
            let scope = process.node(body).scope.saturating_sub(binds(form));
            if let Some(atom) = held_back(scope, form, &effect) {
                page.put("nothing pays for ");
                quote_atom(page, &names, atom);
                is_shown = true;
            }
        }
    }
    if !is_shown {
        page.put("something isn't paid for");
    }
    page.put(" behind this `");
    page.put(word_of(form));
    page.put("`, and nothing in front of it can");
    Ok(())
}

// Why a node blocks.
fn put_reason(
    page: &mut Page,
    scene: &Scene<'_>,
    form: &Form,
    answers: &[Answer],
    is_near: bool,
) -> Result<(), NoMemory> {
    if let Some(reason) = type_reason(form) {
        page.put(type_words(reason, form));
        Ok(())
    } else if put_message_reason(page, scene, form, answers) {
        Ok(())
    } else {
        put_effect_reason(page, scene, form, is_near)
    }
}

// One other node that blocks, and why.
fn tell_other(page: &mut Page, case: &Case<'_>, node: u32, is_near: bool) -> Result<(), NoMemory> {
    let process = &case.file.process;
    if node >= process.len() {
        return Ok(());
    }
    let scene = Scene::at(case, page.alloc(), node, node)?;
    let answers = blames(page.alloc(), process, node)?;
    let form = &process.node(node).form;
    let span = node_span(case, node);
    page.open(Kind::Also, Some(span));
    put_reason(page, &scene, form, &answers, is_near)?;
    page.close_short(case.source, span);
    Ok(())
}

// One other node that blocks.
fn name_other(page: &mut Page, case: &Case<'_>, node: u32) {
    let span = node_span(case, node);
    page.open(Kind::Also, Some(span));
    page.put("this is wrong by itself too");
    page.close_short(case.source, span);
}

/// The nodes that block, but for the first.
pub fn tell_others(page: &mut Page, case: &Case<'_>) -> Result<(), NoMemory> {
    let blocked = &case.found.blocked;
    if blocked.len() > 1 && !page.is_in_lines() {
        page.put("\n");
    }
    for (i, node) in blocked.iter().enumerate().skip(1) {
        if i <= REASONED {
            tell_other(page, case, *node, i <= NEAR)?;
        } else {
            name_other(page, case, *node);
        }
    }
    Ok(())
}
