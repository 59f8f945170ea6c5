// The causes of refusals: which number each has, where it stands, and what it shows.
ghost use Rattle.std.specs.Prelude.{◌≡◌, ◌≤◌, ◌⊎◌, [], length, drop, IfOk, OnErr, Err};
ghost use Rattle.std.specs.Fmt.{decimal};
ghost use Rattle.spi_lex.specs.Lexing.{Lexes};
ghost use Rattle.spi_lex.specs.Numbered.{listed};
ghost use Rattle.spi_scope.specs.FaultPlaces.{span_from};
ghost use Rattle.spi_commands.specs.Refusals.{IsRefusedFor, IsUnlexed, start_of_fault, scope_number, scope_shown};
ghost use Rattle.spi_commands.specs.Reading.{IsUnreadBy, IsCauseOf, StandsNamed, TellsRefusal};

use crate::answer::{Answer, Stop, refusal};
use crate::reading::Unread;
use spi_lex::{LexFault, Tokens};
use spi_report::Refusal;
use spi_scope::ScopeFault;
use spi_text::{Span, Text};
use std::alloc::Global;

/// The refusal of a lexical fault.
pub fn unlexed(alloc: Global, bytes: &[u8], fault: LexFault) -> Unread
    requires within { length bytes.now ≤ 16_777_216 }
    requires fault { (fault ≡ LexFault.NoMemory) ⊎ Lexes bytes.now (Err fault) }
    ensures { IsUnreadBy (IsUnlexed bytes.now) result }
{
    match fault {
        LexFault::NotUtf8 { at } => unspelled(alloc, 10, at),
        LexFault::BadChar { at } => unspelled(alloc, 11, at),
        LexFault::BadNumber { at } => unspelled(alloc, 12, at),
        LexFault::NameTooLong { at } => unspelled(alloc, 13, at),
        LexFault::NoMemory => Unread::NoMemory,
    }
}

/// The refusal of bytes that have a fault of syntax at a token, or at their end.
pub fn unparsed(alloc: Global, number: u32, bytes: &[u8], tokens: &Tokens<'_>, token: u32) -> Unread
    requires within { length bytes.now ≤ 16_777_216 }
    requires token { token ≤ length (listed tokens.now) }
    ensures { TellsRefusal number (start_of_fault bytes.now (drop token (listed tokens.now))) [] result }
{
    unspelled(alloc, number, start(bytes, tokens, token))
}

/// Where a token begins, and where the file ends.
fn start(bytes: &[u8], tokens: &Tokens<'_>, token: u32) -> u32
    requires within { length bytes.now ≤ 16_777_216 }
    requires token { token ≤ length (listed tokens.now) }
    ensures { result ≡ start_of_fault bytes.now (drop token (listed tokens.now)) }
{
    match tokens.get(token) {
        Some(next) => next.span.from,
        None => bytes.len() as u32,
    }
}

/// The refusal of a fault of scopes.
pub fn out_of_scope(alloc: Global, fault: &ScopeFault) -> Unread
    ensures tells { TellsRefusal (scope_number fault.now) (span_from fault.now) (scope_shown fault.now)
        result }
    ensures memory { fault.now ≡ ScopeFault.NoMemory → result ≡ Unread.NoMemory }
{
    match fault {
        ScopeFault::UnknownName { span, word } => shown_word(alloc, 30, *span, word),
        ScopeFault::UnknownType { span, word } => shown_word(alloc, 31, *span, word),
        ScopeFault::NameTwice { span, word } => shown_word(alloc, 32, *span, word),
        ScopeFault::TypeTwice { span, word } => shown_word(alloc, 33, *span, word),
        ScopeFault::MessageTooLarge { span, count } => shown_count(alloc, 34, *span, *count),
        ScopeFault::TypeTooLarge { span, count } => shown_count(alloc, 35, *span, *count),
        ScopeFault::FileTooLarge { span, count } => shown_count(alloc, 36, *span, *count),
        ScopeFault::ScheduleTooLong { span, count } => shown_count(alloc, 37, *span, *count),
        ScopeFault::NoMemory => Unread::NoMemory,
    }
}

/// A refusal that shows nothing.
pub fn unspelled(alloc: Global, number: u32, offset: u32) -> Unread
    ensures { TellsRefusal number offset [] result }
{
    Unread::Refused(Refusal {
        number,
        offset: Some(offset),
        shown: Vec::new(alloc),
    })
}

/// A refusal that shows a word.
pub fn shown_word(alloc: Global, number: u32, span: Span, word: &Text) -> Unread
    ensures { TellsRefusal number span.from word.now result }
{
    match word.as_str().as_bytes().to_vec(alloc) {
        Ok(shown) => Unread::Refused(Refusal {
            number,
            offset: Some(span.from),
            shown,
        }),
        Err(_) => Unread::NoMemory,
    }
}

/// A refusal that shows a count.
pub fn shown_count(alloc: Global, number: u32, span: Span, count: u64) -> Unread
    ensures { TellsRefusal number span.from (decimal count) result }
{
    match format!(in alloc; "{count}") {
        Ok(shown) => Unread::Refused(Refusal {
            number,
            offset: Some(span.from),
            shown: shown.into_bytes(),
        }),
        Err(_) => Unread::NoMemory,
    }
}

/// The refusal of bytes that are not read, where its number has a name and its place is in the bytes.
pub fn refused_for(alloc: Global, bytes: &[u8], cause: &Unread) -> Result<Answer, Stop>
    requires sized { length bytes.now ≤ 16_777_216 }
    requires stands { IsUnreadBy (StandsNamed bytes.now) cause.now }
    ensures ok { IfOk result (IsRefusedFor bytes.now (IsCauseOf cause.now)) }
    ensures err { OnErr result (result ≡ Err Stop.NoMemory) }
{
    match cause {
        Unread::Refused(r) => refusal(alloc, bytes, r),
        Unread::NoMemory => Err(Stop::NoMemory),
    }
}
