// The line of a no.
ghost use Rattle.std.specs.Prelude.{◌≡◌, ◌≤◌, ◌++◌, Some, length, reverse, codes, IfOk, OnOk, string_bytes};
ghost use Rattle.std.specs.Fmt.{decimal};
ghost use Rattle.spi_scope.specs.Chains.{chain_at};
ghost use Rattle.spi_scope.specs.Places.{place_in};
ghost use Rattle.spi_fault.specs.Faults.{thing, told};
ghost use Rattle.spi_report.specs.Fault.{reason_number, reason_text, thing_text, fault_text};

use crate::NoMemory;
use crate::refusal::put_place;
use spi_fault::{Fault, Reason, Shown};
use spi_scope::File;
use spi_show::{show_atom, show_message};
use spi_text::{Lines, Text};
use std::alloc::Global;

/// The number of a reason.
fn number_of(reason: Reason) -> u32
    ensures { result ≡ reason_number reason }
{
    match reason {
        Reason::ChannelNotUn => 40,
        Reason::DatumNotUn => 41,
        Reason::BadType => 42,
        Reason::WrongScrutinee => 43,
        Reason::WrongKey => 44,
        Reason::NotANonce => 45,
        Reason::NotALabel => 46,
        Reason::NotGenerative => 47,
        Reason::BodyHasEffect => 48,
        Reason::EffectEscapes => 49,
        Reason::Unpaid => 50,
        Reason::WrongFirst => 51,
        Reason::BadCast => 52,
    }
}

/// The name of a reason.
fn reason_name(reason: Reason) -> &'static str
    ensures { result.now ≡ reason_text reason }
{
    match reason {
        Reason::ChannelNotUn => "ChannelNotUn",
        Reason::DatumNotUn => "DatumNotUn",
        Reason::BadType => "BadType",
        Reason::WrongScrutinee => "WrongScrutinee",
        Reason::WrongKey => "WrongKey",
        Reason::NotANonce => "NotANonce",
        Reason::NotALabel => "NotALabel",
        Reason::NotGenerative => "NotGenerative",
        Reason::BodyHasEffect => "BodyHasEffect",
        Reason::EffectEscapes => "EffectEscapes",
        Reason::Unpaid => "Unpaid",
        Reason::WrongFirst => "WrongFirst",
        Reason::BadCast => "BadCast",
    }
}

/// The start of the line: `no: N Name`.
fn fault_head(alloc: Global, number: u32, name: &str) -> Result<String, NoMemory>
    ensures { IfOk result
        (λ text. string_bytes text ≡ codes "no: " ++ decimal number ++ codes " " ++ name.now) }
{
    let text = format!(in alloc; "no: {number} {name}")?;
    Ok(text)
}

/// Appends `: ` and a term.
fn put_term(alloc: Global, out: &mut Vec<u8>, names: &[Text], shown: &Shown) -> Result<(), NoMemory>
    ensures { OnOk result (out.new.items ≡ out.old.items ++ thing_text names.now (thing (Some shown.now))) }
{
    out.extend_from_slice(b": ")?;
    match shown {
        Shown::Message(m) => out.extend_from_slice(&show_message(alloc, names, m)?),
        Shown::Atom(a) => out.extend_from_slice(&show_atom(alloc, names, a)?),
    }
}

/// Appends what a fault shows, as `: shown`, or nothing where it shows nothing.
fn put_thing(alloc: Global, out: &mut Vec<u8>, file: &File, f: &Fault) -> Result<(), NoMemory>
    ensures { OnOk result
        (out.new.items ≡ out.old.items
        ++ thing_text (reverse (chain_at file.now.marks.scopes f.now.scope_of)) (thing f.now.shown)) }
{
    let names = file.scope_names(alloc, f.scope_of)?;
    match &f.shown {
        None => Ok(()),
        Some(shown) => put_term(alloc, out, &names, shown),
    }
}

/// The line of a fault of the file's process: `no: N Name at L:C`, then `: ` and what it shows, if anything, and a LF. The
/// place is that of the node's first token, and names are shown as the file spells them. The condition is that the node
/// stands in the bytes of the lines.
pub fn no_fault(
    alloc: Global,
    file: &File,
    lines: &Lines<'_>,
    f: &Fault,
) -> Result<Vec<u8>, NoMemory>
    requires { (place_in file.now.marks.process.items f.now.node).from ≤ length lines.now }
    ensures { IfOk result
        (λ text. text.items
        ≡ fault_text lines.now (λ i. place_in file.now.marks.process.items i)
        (λ i. reverse (chain_at file.now.marks.scopes i)) (told f.now)) }
{
    let mut out = fault_head(alloc, number_of(f.reason), reason_name(f.reason))?.into_bytes();
    put_place(
        alloc,
        &mut out,
        lines,
        Some(file.process_place(f.node).from),
    )?;
    put_thing(alloc, &mut out, file, f)?;
    out.push(b'\n')?;
    Ok(out)
}
