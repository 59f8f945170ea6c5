// What is left to pay: where it comes from, and what is paid on the way there.
use crate::NoMemory;
use crate::case::{Case, node_span};
use crate::fault::label_of;
use crate::page::{Kind, Page};
use crate::terms::{Names, put_effect, quote_message};
use spi_fault::Reason;
use spi_infer::reached;
use spi_rules::Env;
use spi_term::{Atom, Form, Msg, Node, Process, Ty, same_message};

/// How many findings of a kind have their line of the source.
const SHOWN: usize = 8;

/// How many begins and checks on the way are told.
const TOLD: usize = 6;

fn origin_text(form: &Form) -> &'static str {
    match form {
        Form::End { .. } => "this `end` needs it",
        Form::EndMany { .. } => "this `endmany` needs it",
        Form::Check { .. } => "this `check` needs it: it uses the nonce up",
        Form::Cast { .. } => "this `cast` needs it: what a cast promises is paid in front of it",
        _ => "it comes from here",
    }
}

// One origin.
fn note_origin(page: &mut Page, case: &Case<'_>, node: u32, is_short: bool) {
    if node >= case.file.process.len() {
        return;
    }
    let span = node_span(case, node);
    page.open(Kind::Note, Some(span));
    page.put(origin_text(&case.file.process.node(node).form));
    if is_short {
        page.close_short(case.source, span);
    } else {
        page.close(case.source, Some(span));
    }
}

// The child of a node that has the node `target`, or stands on the way to it.
fn towards(id: u32, node: &Node, target: u32) -> u32 {
    match &node.form {
        Form::Branch { on_right, .. } if target >= *on_right => *on_right,
        Form::Par { rest, .. } if target >= *rest => *rest,
        _ => id.saturating_add(1),
    }
}

// The last of the begins and checks that stand on the way from the root to a node.
fn payers_above(process: &Process, target: u32, payers: &mut Vec<u32>) -> Result<(), NoMemory> {
    let mut id = 0;
    for _ in 0..process.len() {
        if id >= target || id >= process.len() {
            return Ok(());
        }
        let node = process.node(id);
        if let Form::Begin { .. } | Form::Check { .. } = &node.form {
            payers.push(id)?;
        }
        id = towards(id, node, target);
    }
    Ok(())
}

// What a `begin` in front pays for.
fn note_begin(
    page: &mut Page,
    case: &Case<'_>,
    names: &Names,
    node: u32,
    is_same: bool,
    label: &Msg,
) {
    let span = Some(node_span(case, node));
    page.open(Kind::Note, span);
    if is_same {
        page.put("this `begin` in front pays for one such end, and another needs it too");
    } else {
        page.put("this `begin` in front is for another label: ");
        quote_message(page, names, label);
    }
    page.close(case.source, span);
}

// What a `check` in front pays for.
fn note_check(page: &mut Page, case: &Case<'_>, names: &Names, env: &Env, node: u32, nonce: &Msg) {
    let Msg::Name(x) = nonce else { return };
    let Some(Ty::Nonce(effect)) = env.get(*x) else {
        return;
    };
    let span = Some(node_span(case, node));
    page.open(Kind::Note, span);
    page.put("this `check` in front pays for `");
    put_effect(page, names, 0, effect);
    page.put("`");
    page.close(case.source, span);
}

// What one node in front pays for.
fn note_payer(page: &mut Page, case: &Case<'_>, node: u32, atom: &Atom) -> Result<(), NoMemory> {
    let process = &case.file.process;
    if node >= process.len() {
        return Ok(());
    }
    let names = Names::at(page.alloc(), case.file, node)?;
    match &process.node(node).form {
        Form::Begin { label, .. } => {
            let is_same = same_message(label, label_of(atom));
            note_begin(page, case, &names, node, is_same, label);
        }
        Form::Check { nonce, .. } => {
            let env = reached(page.alloc(), process, node)?;
            note_check(page, case, &names, &env, node, nonce);
        }
        _ => {}
    }
    Ok(())
}

// What the last begins and checks in front of a node pay for.
fn note_payers(page: &mut Page, case: &Case<'_>, node: u32, atom: &Atom) -> Result<(), NoMemory> {
    let mut payers = Vec::new(page.alloc());
    payers_above(&case.file.process, node, &mut payers)?;
    let skipped = payers.len().saturating_sub(TOLD);
    for payer in payers.iter().skip(skipped) {
        note_payer(page, case, *payer, atom)?;
    }
    Ok(())
}

/// Each origin of the atom that is shown, and what is paid in front of the first.
pub fn note_origins(page: &mut Page, case: &Case<'_>, atom: &Atom) -> Result<(), NoMemory> {
    for (i, node) in case.found.origins.iter().enumerate() {
        note_origin(page, case, *node, i >= SHOWN);
    }
    match case.found.origins.first() {
        Some(node) => note_payers(page, case, *node, atom),
        None => Ok(()),
    }
}

// The first origin is a cast.
fn is_cast(case: &Case<'_>) -> bool {
    let process = &case.file.process;
    match case.found.origins.first() {
        Some(node) if *node < process.len() => match &process.node(*node).form {
            Form::Cast { .. } => true,
            _ => false,
        },
        _ => false,
    }
}

// What usually mends it.
fn atom_help(reason: Reason, is_cast: bool, atom: &Atom) -> &'static str {
    match atom {
        Atom::Check(_) => {
            "a nonce is good for one `check`: make it by `new (n: Un)` in front of the check, in the same run, and check it once"
        }
        Atom::End(_) if reason == Reason::BodyHasEffect => {
            "put the `begin` behind the `repeat`, one for each run; or write `endmany` and `many`, where one begin is meant for many ends"
        }
        Atom::End(_) if is_cast => {
            "put a `begin` with this very label in front of the `cast`: first `begin`, then `cast`, then `out`"
        }
        Atom::End(_) => {
            "in front of the `end` put a `begin` with this very label, or a `check` of a nonce whose type promises it; each pays for one `end`, and none pays for what stands in front of it or behind another bar"
        }
        Atom::Many(_) => {
            "in front of it put a `begin` with this very label, or a `check` of a nonce whose type promises it by `many`"
        }
    }
}

/// What usually mends an atom that nothing pays for.
pub fn help_atom(page: &mut Page, case: &Case<'_>, reason: Reason, atom: &Atom) {
    page.open(Kind::Help, None);
    page.put(atom_help(reason, is_cast(case), atom));
    page.close(case.source, None);
}
