// The command `bench`.
ghost use Rattle.std.specs.Prelude.{◌≡◌, ◌+◌, ◌<◌, ◌≤◌, ◌^◌, ◌++◌, length, IfOk, IfErr, OnOk, OnErr, Ok, Err};
ghost use Rattle.spi_lex.specs.Lexing.{Lexes, kinds_of};
ghost use Rattle.spi_lex.specs.Numbered.{listed};
ghost use Rattle.spi_lex.specs.Writing.{AreKinds};
ghost use Rattle.spi_edits.specs.Edits.{Bench};
ghost use Rattle.spi_edits.specs.Views.{bench_of};
ghost use Rattle.spi_workbench.specs.Answers.{IsJudged};
ghost use Rattle.spi_commands.specs.Reading.{HasTokens, IsUnreadBy, TellsRefusal};
ghost use Rattle.spi_commands.specs.Benching.{IsBenchOf, AreVerdictsTold, IsUnjudged, RefusesBench, BenchesTo, bench_number, bench_place, bench_shown, verdict_text, verdicts_text};

use crate::NoMemory;
use crate::answer::{Answer, Stop};
use crate::causes::{out_of_scope, refused_for, shown_count, shown_word, unparsed};
use crate::reading::Unread;
use crate::status::Status;
use bumpalo::Bump;
use spi_edits::{BenchText, bench_in};
use spi_lex::Tokens;
use spi_parse::ParseFault;
use spi_scope::faults_stand_at_nodes;
use spi_tree::Room;
use spi_workbench::{Answer as Judged, Refusal as Unjudged, Verdicts, judge_edits};
use std::alloc::Global;

/// What `bench` answers on these bytes, which have these tokens.
pub fn benched(alloc: Global, bytes: &[u8], tokens: &Tokens<'_>) -> Result<Answer, Stop>
    requires { HasTokens bytes.now (listed tokens.now) }
    ensures ok { IfOk result (λ answer. BenchesTo bytes.now answer.status answer.output.items) }
    ensures err { OnErr result (result ≡ Err Stop.NoMemory) }
{
    let bump = Bump::new(alloc);
    benched_in(Room { alloc, bump: &bump }, bytes, tokens)
}

/// The same, of a bench whose trees lie in this room.
fn benched_in(room: Room<'_>, bytes: &[u8], tokens: &Tokens<'_>) -> Result<Answer, Stop>
    requires { HasTokens bytes.now (listed tokens.now) }
    ensures ok { IfOk result (λ answer. BenchesTo bytes.now answer.status answer.output.items) }
    ensures err { OnErr result (result ≡ Err Stop.NoMemory) }
{
    faults_stand_at_nodes();
    let alloc = room.alloc;
    match verdicts_of(room, bytes, tokens) {
        Ok(verdicts) => told(alloc, &verdicts),
        Err(cause) => refused_for(alloc, bytes, &cause),
    }
}

/// The verdicts of the bench that the tokens of these bytes spell.
fn verdicts_of(room: Room<'_>, bytes: &[u8], tokens: &Tokens<'_>) -> Result<Verdicts, Unread>
    requires within { length bytes.now ≤ 16_777_216 }
    requires few { length (listed tokens.now) ≤ 16_777_216 }
    requires lexed { Lexes bytes.now (Ok (listed tokens.now)) }
    requires kinds { AreKinds (kinds_of (listed tokens.now)) }
    ensures verdicts { IfOk result (λ verdicts. (b : Bench) × IsBenchOf bytes.now b
        × IsJudged b (length bytes.now) verdicts) }
    ensures unread { IfErr result (IsUnreadBy (RefusesBench bytes.now)) }
{
    let alloc = room.alloc;
    match bench_in(room, tokens) {
        Ok(text) => judged(alloc, text, bytes.len() as u32),
        Err(ParseFault::Syntax { token }) => Err(unparsed(alloc, 20, bytes, tokens, token)),
        Err(ParseFault::TooDeep { token }) => Err(unparsed(alloc, 21, bytes, tokens, token)),
        Err(ParseFault::NoMemory) => Err(Unread::NoMemory),
    }
}

/// The verdicts of this bench, of so many bytes.
fn judged(alloc: Global, text: BenchText<'_>, end: u32) -> Result<Verdicts, Unread>
    ensures verdicts { IfOk result (IsJudged (bench_of text.entry) end) }
    ensures unread { IfErr result (IsUnreadBy (IsUnjudged (bench_of text.entry) end)) }
{
    match judge_edits(alloc, text, end)? {
        Judged::Judged(verdicts) => Ok(verdicts),
        Judged::Refused(r) => Err(unjudged(alloc, r)),
    }
}

/// The refusal of a bench.
fn unjudged(alloc: Global, r: Unjudged) -> Unread
    ensures { TellsRefusal (bench_number r) (bench_place r) (bench_shown r) result }
{
    match r {
        Unjudged::TooManyShared { span, count } => shown_count(alloc, 122, span, count),
        Unjudged::Scope(fault) => out_of_scope(alloc, &fault),
        Unjudged::TooManyEdits { span, count } => shown_count(alloc, 121, span, count),
        Unjudged::UnknownPart { span, word } => shown_word(alloc, 120, span, &word),
        Unjudged::BenchTooLarge { span, count } => shown_count(alloc, 123, span, count),
    }
}

/// The answer with these verdicts. The last one is the status.
fn told(alloc: Global, verdicts: &Verdicts) -> Result<Answer, Stop>
    ensures ok { IfOk result (λ answer. AreVerdictsTold verdicts.now answer.status answer.output.items) }
    ensures err { OnErr result (result ≡ Err Stop.NoMemory) }
{
    let output = verdict_lines(alloc, &verdicts.each)?;
    let status = if verdicts.last {
        Status::Yes
    } else {
        Status::No
    };
    Ok(Answer { status, output })
}

/// Appends the line of a verdict, by the number of its edit from 0 on.
fn put_verdict(alloc: Global, out: &mut Vec<u8>, k: usize, yes: bool) -> Result<(), NoMemory>
    requires { k + 1 < 2 ^ 64 }
    ensures { OnOk result (out.new.items ≡ out.old.items ++ verdict_text k yes) }
{
    let number = k as u64 + 1;
    out.extend_from_slice(format!(in alloc; "{number}")?.as_bytes())?;
    if yes {
        out.extend_from_slice(b" yes\n")
    } else {
        out.extend_from_slice(b" no\n")
    }
}

/// A line for each verdict. The time is linear in their number.
fn verdict_lines(alloc: Global, verdicts: &[bool]) -> Result<Vec<u8>, NoMemory>
    ensures { IfOk result (λ text. text.items ≡ verdicts_text 0 verdicts.now) }
{
    let mut out = Vec::new(alloc);
    for k in 0..verdicts.len() {
        put_verdict(alloc, &mut out, k, verdicts[k])?;
    }
    Ok(out)
}
