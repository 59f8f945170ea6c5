// From bytes to an explanation.
ghost use Rattle.std.specs.Prelude.{◌≡◌, ℕ, ◌≤◌, ◌<◌, ◌++◌, List, length, IfOk};
ghost use Rattle.spi_advice.specs.Advising.{Advises, verdict};
ghost use Rattle.spi_commands.specs.Reading.{IsRead};
ghost use Rattle.spi_commands.specs.Refusals.{Refuses};

use crate::NoMemory;
use crate::refusing::refusal_line;
use crate::tokens::{LIMIT, tokens_of};
use spi_commands::{Afterwards, Status, Unread, read, refuse_too_many};
use spi_explain::{Explained, explain_file};
use spi_fault::Fault;
use spi_lex::Tokens;
use spi_report::Refusal;
use spi_scope::File;
use spi_text::Lines;
use spi_wording::{
    Case, Page, Source, Style, tell_expected, tell_fault, tell_others, tell_refusal, tell_yes,
};
use std::alloc::{AllocError, Global};

/// An explanation, with the status of `check`.
#[derive(Drop)]
pub struct Advice {
    /// Yes, no or refused.
    pub status: Status,
    /// The line of `check`, and behind it the explanation.
    pub output: Vec<u8>,
}

// This status, this line, and behind it this text.
fn joined(status: Status, line: Vec<u8>, rest: &[u8]) -> Result<Advice, NoMemory>
    ensures { IfOk result (λ a. (a.status ≡ status) × (a.output.items ≡ line.items ++ rest.now)) }
{
    let mut output = line;
    output.extend_from_slice(rest)?;
    Ok(Advice { status, output })
}

// What `check` answers to a process with this fault, or with none.
fn verdict(fault: &Option<Fault>) -> Status
    ensures { result ≡ verdict fault.now }
{
    match fault {
        None => Status::Yes,
        Some(_) => Status::No,
    }
}

// The text behind the line of a file.
fn text_of(
    alloc: Global,
    bytes: &[u8],
    lines: &Lines<'_>,
    file: &File,
    found: &Explained,
    style: Style,
) -> Result<Vec<u8>, NoMemory>
    requires sized { length bytes.now ≤ 16_777_216 }
    requires lines { lines.now ≡ bytes.now }
{
    let mut page = Page::new(alloc, style);
    match &found.fault {
        None => tell_yes(&mut page),
        Some(fault) => {
            let tokens = tokens_of(alloc, bytes)?;
            let source = Source::new(bytes, lines, &tokens);
            let case = Case {
                source: &source,
                file: &*file,
                found: &*found,
            };
            tell_fault(&mut page, &case, fault)?;
            tell_others(&mut page, &case)?;
        }
    }
    page.into_text()
}

// The line of what was found.
fn line_of(alloc: Global, found: &Explained) -> Result<Vec<u8>, NoMemory>
    ensures { IfOk result (λ line. line.items ≡ found.now.line.items) }
{
    found.line.to_vec(alloc)
}

// The explanation of the file of these bytes.
fn of_file(alloc: Global, bytes: &[u8], file: &File, style: Style) -> Result<Advice, NoMemory>
    requires sized { length bytes.now ≤ 16_777_216 }
    requires read { IsRead bytes.now file.now }
    ensures { IfOk result (λ a. Advises bytes.now a.status a.output.items) }
{
    let lines = Lines::of(alloc, bytes)?;
    let found = explain_file(alloc, file, &lines)?;
    let rest = text_of(alloc, bytes, &lines, file, &found, style)?;
    let line = line_of(alloc, &found)?;
    joined(verdict(&found.fault), line, &rest)
}

// The explanation of bytes that spell no file, for this first reason.
fn of_refusal(alloc: Global, bytes: &[u8], r: &Refusal, style: Style) -> Result<Advice, NoMemory>
    requires sized { length bytes.now ≤ 16_777_216 }
    requires refuses { Refuses bytes.now r.now.number r.now.offset r.now.shown.items }
    ensures { IfOk result (λ a. Advises bytes.now a.status a.output.items) }
{
    let lines = Lines::of(alloc, bytes)?;
    let line = refusal_line(alloc, &lines, r)?;
    let tokens = tokens_of(alloc, bytes)?;
    let source = Source::new(bytes, &lines, &tokens);
    let mut page = Page::new(alloc, style);
    tell_refusal(&mut page, &source, r);
    tell_expected(&mut page, &source, bytes)?;
    let rest = page.into_text()?;
    joined(Status::Refused, line, &rest)
}

// The explanation of more bytes than a file may have.
fn of_too_many(alloc: Global, style: Style) -> Result<Advice, NoMemory>
    ensures { IfOk result (λ a. (bytes : List ℕ) → 16_777_216 < length bytes
        → Advises bytes a.status a.output.items) }
{
    let (r, line) = refuse_too_many(alloc)?;
    let lines = Lines::of(alloc, b"")?;
    let tokens = Tokens::List(&[]);
    let source = Source::new(b"", &lines, &tokens);
    let mut page = Page::new(alloc, style);
    tell_refusal(&mut page, &source, &r);
    let rest = page.into_text()?;
    joined(Status::Refused, line, &rest)
}

/// The explanation of the bytes: what `check` answers to them, and behind its line the explanation, in this style. More
/// than 16,777,216 bytes are refused, as by `check`.
pub fn advise(alloc: Global, bytes: &[u8], style: Style) -> Result<Advice, NoMemory>
    ensures { IfOk result (λ a. Advises bytes.now a.status a.output.items) }
{
    if bytes.len() > LIMIT {
        return of_too_many(alloc, style);
    }
    match read(alloc, Afterwards::GoesOn, bytes) {
        Ok(file) => of_file(alloc, bytes, &file, style),
        Err(Unread::Refused(r)) => of_refusal(alloc, bytes, &r, style),
        Err(Unread::NoMemory) => Err(AllocError),
    }
}
