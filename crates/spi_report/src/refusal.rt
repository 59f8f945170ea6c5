ghost use Rattle.std.specs.Prelude.{◌≡◌, ◌≤◌, ◌++◌, [], length, IfOk, IfSome, OnOk, IsSome, unwrap_or, string_bytes};
ghost use Rattle.spi_report.specs.Names.{name_of};
ghost use Rattle.spi_report.specs.Refused.{refused_head, place_text, shown_text, refused_text};

use crate::NoMemory;
use spi_text::Lines;
use std::alloc::Global;

/// A refusal: why a file, a play or a listing isn't answered.
#[derive(Drop)]
pub struct Refusal {
    /// The number of the cause, by which it has its name.
    pub number: u32,
    /// Where in the file it stands, for a cause that has a place.
    pub offset: Option<u32>,
    /// What is shown behind the name, as an identifier or a count. It is empty where nothing is.
    pub shown: Vec<u8>,
}

/// The name of the refusal with this number, or nothing for a number that no refusal has.
fn name_of(number: u32) -> &'static str
    ensures { result.now ≡ unwrap_or (name_of number) [] }
{
    match number {
        2 => "TooLong",
        10 => "NotUtf8",
        11 => "BadChar",
        12 => "BadNumber",
        13 => "NameTooLong",
        20 => "Syntax",
        21 => "TooDeep",
        30 => "UnknownName",
        31 => "UnknownType",
        32 => "NameTwice",
        33 => "TypeTwice",
        34 => "MessageTooLarge",
        35 => "TypeTooLarge",
        36 => "FileTooLarge",
        37 => "ScheduleTooLong",
        38 => "PartMissing",
        39 => "NotOpponent",
        60 => "NoPlace",
        61 => "NotReady",
        62 => "RunMessageTooLarge",
        63 => "TooManyPlaces",
        70 => "BadPick",
        71 => "RunMessageTooLarge",
        72 => "TooManyPlaces",
        80 => "ListingTooLong",
        100 => "UnknownRole",
        101 => "RoleTwice",
        102 => "LineNotReady",
        103 => "NarrationTooLarge",
        104 => "NarratedTooLarge",
        110 => "TooMuchSent",
        111 => "NoName",
        120 => "UnknownPart",
        121 => "TooManyEdits",
        122 => "TooManyShared",
        123 => "BenchTooLarge",
        _ => "",
    }
}

/// The start of the line: `refused: N Name`.
fn head(alloc: Global, number: u32, name: &str) -> Result<String, NoMemory>
    ensures { IfOk result (λ text. string_bytes text ≡ refused_head number name.now) }
{
    let text = format!(in alloc; "refused: {number} {name}")?;
    Ok(text)
}

/// Appends the place of an offset, as ` at L:C`, or nothing where there is no offset.
pub(crate) fn put_place(
    alloc: Global,
    out: &mut Vec<u8>,
    lines: &Lines<'_>,
    offset: Option<u32>,
) -> Result<(), NoMemory>
    requires { IfSome offset (λ offset. offset ≤ length lines.now) }
    ensures { OnOk result (out.new.items ≡ out.old.items ++ place_text lines.now offset) }
{
    match offset {
        Some(offset) => {
            let place = lines.place(offset);
            let text = format!(in alloc; " at {}:{}", place.line, place.column)?;
            out.extend_from_slice(text.as_bytes())
        }
        None => Ok(()),
    }
}

/// Appends what is shown, as `: shown`, or nothing where nothing is.
fn put_shown(out: &mut Vec<u8>, shown: &[u8]) -> Result<(), NoMemory>
    ensures { OnOk result (out.new.items ≡ out.old.items ++ shown_text shown.now) }
{
    if shown.is_empty() {
        return Ok(());
    }
    out.extend_from_slice(b": ")?;
    out.extend_from_slice(shown)
}

/// The line of a refusal: `refused: N Name`, then ` at L:C` where it has a place, then `: ` and what
/// is shown, if anything, and a LF. The conditions are that the number is one that has a name, and
/// that the offset is at most the length of the file.
pub fn refused(alloc: Global, lines: &Lines<'_>, r: &Refusal) -> Result<Vec<u8>, NoMemory>
    requires named { IsSome (name_of r.now.number) }
    requires within { IfSome r.now.offset (λ offset. offset ≤ length lines.now) }
    ensures { IfOk result (λ text. text.items ≡ refused_text lines.now r.now) }
{
    let mut out = head(alloc, r.number, name_of(r.number))?.into_bytes();
    put_place(alloc, &mut out, lines, r.offset)?;
    put_shown(&mut out, &r.shown)?;
    out.push(b'\n')?;
    Ok(out)
}
