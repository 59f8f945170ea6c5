// The text of a certificate of knowledge.
ghost use Rattle.std.specs.Prelude.{◌≡◌, ◌+◌, ◌<◌, ◌^◌, ◌++◌, IfOk, OnOk};
ghost use Rattle.spi_commands.specs.Certificate.{by_text, known_text, certificate_line, of_one, of_two, unknown_text};

use crate::NoMemory;
use spi_know::{By, Cert, CertLine};
use spi_show::show_message;
use spi_text::Text;
use std::alloc::Global;

/// Appends a word and the line that it names.
fn put_one(alloc: Global, out: &mut Vec<u8>, word: &[u8], i: u32) -> Result<(), NoMemory>
    ensures { OnOk result (out.new.items ≡ out.old.items ++ of_one word.now i) }
{
    let number = i as u64 + 1;
    out.extend_from_slice(word)?;
    out.extend_from_slice(format!(in alloc; " {number}")?.as_bytes())
}

/// Appends a word and the two lines that it names.
fn put_two(alloc: Global, out: &mut Vec<u8>, word: &[u8], i: u32, j: u32) -> Result<(), NoMemory>
    ensures { OnOk result (out.new.items ≡ out.old.items ++ of_two word.now i j) }
{
    let first = i as u64 + 1;
    let second = j as u64 + 1;
    out.extend_from_slice(word)?;
    out.extend_from_slice(format!(in alloc; " {first} {second}")?.as_bytes())
}

/// Appends the clause by which a message is known.
fn put_by(alloc: Global, out: &mut Vec<u8>, by: By) -> Result<(), NoMemory>
    ensures { OnOk result (out.new.items ≡ out.old.items ++ by_text by) }
{
    match by {
        By::Sent(i) => out.extend_from_slice(format!(in alloc; "Sent {i}")?.as_bytes()),
        By::MakeUnit => out.extend_from_slice(b"MakeUnit"),
        By::MakePair(i, j) => put_two(alloc, out, b"MakePair", i, j),
        By::First(i) => put_one(alloc, out, b"First", i),
        By::Second(i) => put_one(alloc, out, b"Second", i),
        By::MakeInl(i) => put_one(alloc, out, b"MakeInl", i),
        By::MakeInr(i) => put_one(alloc, out, b"MakeInr", i),
        By::TakeInl(i) => put_one(alloc, out, b"TakeInl", i),
        By::TakeInr(i) => put_one(alloc, out, b"TakeInr", i),
        By::MakeEnc(i, j) => put_two(alloc, out, b"MakeEnc", i, j),
        By::Open(i, j) => put_two(alloc, out, b"Open", i, j),
        By::MakeHash(i) => put_one(alloc, out, b"MakeHash", i),
    }
}

/// Appends a line, by its number from 0 on.
fn put_line(
    alloc: Global,
    out: &mut Vec<u8>,
    names: &[Text],
    k: usize,
    line: &CertLine,
) -> Result<(), NoMemory>
    requires { k + 1 < 2 ^ 64 }
    ensures { OnOk result (out.new.items ≡ out.old.items ++ certificate_line names.now k line.now) }
{
    let number = k as u64 + 1;
    out.extend_from_slice(format!(in alloc; "{number} ")?.as_bytes())?;
    out.extend_from_slice(&show_message(alloc, names, &line.message)?)?;
    out.extend_from_slice(b" by ")?;
    put_by(alloc, out, line.by)?;
    out.extend_from_slice(b"\n")
}

/// The text of a name that is known by this certificate, where the free names are spelled so. The time is linear in the text.
pub fn show_known(
    alloc: Global,
    names: &[Text],
    name: u32,
    cert: &Cert,
) -> Result<Vec<u8>, NoMemory>
    ensures { IfOk result (λ text. text.items ≡ known_text names.now name cert.now.lines.items) }
{
    let mut out = format!(in alloc; "known: #{name}\n")?.into_bytes();
    for k in 0..cert.lines.len() {
        put_line(alloc, &mut out, names, k, &cert.lines[k])?;
    }
    Ok(out)
}

/// The text of a name that isn't known.
pub fn show_unknown(alloc: Global, name: u32) -> Result<Vec<u8>, NoMemory>
    ensures { IfOk result (λ text. text.items ≡ unknown_text name) }
{
    Ok(format!(in alloc; "unknown: #{name}\n")?.into_bytes())
}
