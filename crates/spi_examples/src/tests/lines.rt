// What is written of files, by example.

use super::samples::{Line, NoMemory, UNPAID, each_line, sample_of, shows};
use spi_deriv::{derive, write};
use spi_fault::{explain, unpaid};
use spi_infer::{Inferred, infer};
use spi_report::{Refusal, loaded, no_fault, refused, wrong_step, yes};
use spi_scope::File;
use spi_show::{least_behind, show_atom, show_derivation, show_file, show_message, show_steps};
use spi_term::Ty;
use spi_text::Lines;
use std::alloc::Global;

/// What is written of a file.
#[derive(Clone, Copy)]
enum Written {
    Fault,
    WrongStep,
    File,
    Message,
    Atom,
    Steps,
    Derivation,
    Derived,
}

/// The line of the fault of a file, where it has one.
fn fault_line(alloc: Global, text: &str, file: &File) -> Result<Vec<u8>, NoMemory> {
    let bytes = text.as_bytes();
    if bytes.len() > 16_777_216 {
        return Ok(Vec::new(alloc));
    }
    let lines = Lines::of(alloc, bytes)?;
    let inferred = infer(alloc, &file.process)?;
    match explain(alloc, file, &inferred)? {
        Some(fault) if file.process_place(fault.node).from as usize <= bytes.len() => {
            no_fault(alloc, file, &lines, &fault)
        }
        _ => Ok(Vec::new(alloc)),
    }
}

/// The line of a wrong step at the first use of a rule.
fn wrong_line(alloc: Global, text: &str, file: &File) -> Result<Vec<u8>, NoMemory> {
    let bytes = text.as_bytes();
    if bytes.len() > 16_777_216 || file.rule_place(0).from as usize > bytes.len() {
        return Ok(Vec::new(alloc));
    }
    let lines = Lines::of(alloc, bytes)?;
    wrong_step(alloc, file, &lines, 0)
}

fn message_line(alloc: Global, file: &File) -> Result<Vec<u8>, NoMemory> {
    match sample_of(file) {
        Some(parts) => show_message(alloc, &file.names, parts.datum),
        None => Ok(Vec::new(alloc)),
    }
}

/// The first atom of the first type.
fn atom_line(alloc: Global, file: &File) -> Result<Vec<u8>, NoMemory> {
    let Some(parts) = sample_of(file) else {
        return Ok(Vec::new(alloc));
    };
    match parts.first {
        Ty::Nonce(effect) => match effect.atoms.as_slice() {
            [atom, ..] => show_atom(alloc, &file.names, atom),
            [] => Ok(Vec::new(alloc)),
        },
        _ => Ok(Vec::new(alloc)),
    }
}

fn derived(alloc: Global, file: &File) -> Result<Vec<u8>, NoMemory> {
    match derive(alloc, &file.process)? {
        Some(found) => write(alloc, &found),
        None => Ok(Vec::new(alloc)),
    }
}

impl Line for Written {
    fn line(self, alloc: Global, text: &str, file: &File) -> Result<Vec<u8>, NoMemory> {
        match self {
            Written::Fault => fault_line(alloc, text, file),
            Written::WrongStep => wrong_line(alloc, text, file),
            Written::File => show_file(alloc, file),
            Written::Message => message_line(alloc, file),
            Written::Atom => atom_line(alloc, file),
            Written::Steps => match &file.schedule {
                Some(steps) => show_steps(alloc, steps),
                None => Ok(Vec::new(alloc)),
            },
            Written::Derivation => match &file.derivation {
                Some(known) => show_derivation(alloc, known),
                None => Ok(Vec::new(alloc)),
            },
            Written::Derived => derived(alloc, file),
        }
    }
}

#[test]
fn faults_have_lines(rt: HostRuntime) {
    let escapes = "process new (x: Un); end x; stop";
    let faults = [
        (UNPAID, "no: 50 Unpaid at 1:17: end a\n"),
        (escapes, "no: 49 EffectEscapes at 1:9: end x\n"),
        ("process stop", ""),
    ];
    let stop = "process stop derivation ProcStop";
    let wrong = "no: 90 WrongStep at 1:25: 0\n";
    each_line(&rt, Written::Fault, &faults);
    each_line(&rt, Written::WrongStep, &[(stop, wrong)]);
}

#[test]
fn given_names_are_spelled_and_others_numbered(rt: HostRuntime) {
    let sealed = "free a; process new (x: Un); new (y: Un); out a {(a, x)}()";
    let many = "version 2; free a; process new (x: Nonce [many {a}()]); new (y: Un); out a a";
    each_line(&rt, Written::Message, &[(sealed, "{(a, #1)}()")]);
    each_line(&rt, Written::Atom, &[(many, "many {a}()")]);
}

#[test]
fn a_bound_name_is_no_free_name(rt: HostRuntime) {
    let text = "free v1; process new (x: Un); (out v1 x | stop)";
    let written = "free v1;\nprocess new (v3: Un); out v1 v3; stop\n";
    each_line(&rt, Written::File, &[(text, written)]);
}

#[test]
fn steps_and_rules_have_lines(rt: HostRuntime) {
    let steps = (
        "process stop opponent stop schedule act 0; talk 10 2;",
        "schedule\nact 0;\ntalk 10 2;\n",
    );
    each_line(&rt, Written::Steps, &[steps]);
    let rules = (
        "process stop derivation ProcSub [end #0, check (#1, #2, #3)] ProcStop",
        "derivation\nProcSub [end #0, check (#1, #2, #3)]\nProcStop\n",
    );
    each_line(&rt, Written::Derivation, &[rules]);
}

#[test]
fn a_typed_rule_comes_before_its_un_form(rt: HostRuntime) {
    let typed = "free a; process split (a, ()) is (x: Un, y: Un); stop";
    let untyped = "free a; process split a is (x: Un, y: Un); stop";
    let derived = [
        (
            typed,
            "derivation\nProcSplit\nMsgPair\nMsgName\nMsgUnitUn\nProcStop\n",
        ),
        (untyped, "derivation\nProcSplitUn\nMsgName\nProcStop\n"),
        (UNPAID, ""),
    ];
    each_line(&rt, Written::Derived, &derived);
}

/// The text of a file whose least effect has an atom, which nothing pays for.
#[derive(Clone, Copy)]
struct LeftOver;

impl Line for LeftOver {
    fn line(self, alloc: Global, text: &str, file: &File) -> Result<Vec<u8>, NoMemory> {
        match infer(alloc, &file.process)? {
            Inferred::Least(effect) => match unpaid(alloc, file, &effect)? {
                Some(_) => text.as_bytes().to_vec(alloc),
                None => Ok(Vec::new(alloc)),
            },
            Inferred::Blocked(_) => Ok(Vec::new(alloc)),
        }
    }
}

#[test]
fn an_effect_with_an_atom_is_unpaid(rt: HostRuntime) {
    each_line(&rt, LeftOver, &[(UNPAID, UNPAID), ("process stop", "")]);
}

/// Whether a refusal at the last byte of two lines has this line.
fn is_refused(alloc: Global, wanted: &str) -> Result<bool, NoMemory> {
    let lines = Lines::of(alloc, b"a\nb $")?;
    let refusal = Refusal {
        number: 30,
        offset: Some(4),
        shown: b"x".to_vec(alloc)?,
    };
    let line = refused(alloc, &lines, &refusal)?;
    Ok(line.as_slice() == wanted.as_bytes())
}

/// Whether a generated load that is accepted has this line.
fn is_loaded(alloc: Global, wanted: &str) -> Result<bool, NoMemory> {
    let line = loaded(alloc, 1, 92, 30)?;
    Ok(line.as_slice() == wanted.as_bytes())
}

#[test]
fn refusals_loads_and_a_yes_have_lines(rt: HostRuntime) {
    let refused = "refused: 30 UnknownName at 2:3: x\n";
    shows(&rt, "a refusal", is_refused(rt.alloc(), refused));
    let loaded = "load 1: 92 nodes, 30 rules, yes\n";
    shows(&rt, "a load", is_loaded(rt.alloc(), loaded));
    shows(&rt, "a yes", Ok(yes() == b"yes\n".as_slice()));
}

/// The least number behind `hash_` that no free name has.
#[derive(Clone, Copy)]
struct Behind;

impl Line for Behind {
    fn line(self, alloc: Global, _text: &str, file: &File) -> Result<Vec<u8>, NoMemory> {
        let number = least_behind(alloc, &file.names, "hash_")?;
        let shown = format!(in alloc; "{number}")?;
        Ok(shown.into_bytes())
    }
}

#[test]
fn a_number_behind_a_word_is_new(rt: HostRuntime) {
    let hashes = "free hash_2, many_1, hash_01, hash_0; process stop";
    let none = "free many_0; process stop";
    each_line(&rt, Behind, &[(hashes, "1"), (none, "0")]);
}
