// The command `replay`.
ghost use Rattle.std.specs.Prelude.{◌≡◌, ◌<◌, ◌^◌, ◌≤◌, length, map, IfOk, OnErr, Err};
ghost use Rattle.spi_run.specs.View.{event as event_of};
ghost use Rattle.spi_trace.specs.Pairing.{IsPairing};
ghost use Rattle.spi_scope.specs.Files.{meant};
ghost use Rattle.spi_commands.specs.Reading.{IsRead};
ghost use Rattle.spi_commands.specs.Replaying.{ReplaysTo, AreEventsJudged, IsReplayText};

use crate::afterwards::Afterwards;
use crate::answer::{Answer, Stop, answer_with};
use crate::schedule::{Ran, replay_of};
use crate::status::Status;
use spi_report::{events, first_unpaid};
use spi_run::Event;
use spi_scope::File;
use spi_trace::{Pairing, pair_up, paired_is_paid};
use std::alloc::Global;

/// What `replay` answers on the file of these bytes.
pub fn replayed(
    alloc: Global,
    afterwards: Afterwards,
    bytes: &[u8],
    file: &File,
) -> Result<Answer, Stop>
    requires sized { length bytes.now ≤ 16_777_216 }
    requires read { IsRead bytes.now file.now }
    ensures ok { IfOk result (λ answer. ReplaysTo bytes.now answer.status answer.output.items) }
    ensures err { OnErr result (result ≡ Err Stop.NoMemory) }
{
    match replay_of(alloc, bytes, file, false)? {
        Ran::Through(replay) => {
            let answer = judged(alloc, file, &replay.events);
            afterwards.let_go(replay);
            answer
        }
        Ran::Refused(line) => Ok(answer_with(Status::Refused, line)),
    }
}

/// The lines of these events, and whether they are paid.
fn judged(alloc: Global, file: &File, happened: &[Event]) -> Result<Answer, Stop>
    requires { length happened.now < 2 ^ 32 }
    ensures ok { IfOk result
        (λ answer. AreEventsJudged (map event_of happened.now) answer.status
        × IsReplayText (meant file.now) (map event_of happened.now) answer.output.items) }
    ensures err { OnErr result (result ≡ Err Stop.NoMemory) }
{
    let pairing = pair_up(alloc, happened)?;
    let output = events(alloc, file, happened, &pairing)?;
    Ok(Answer {
        status: judgement(happened, &pairing),
        output,
    })
}

/// Yes where the pairing has a begin for each end and endmany, and no elsewhere.
fn judgement(happened: &[Event], pairing: &Pairing) -> Status
    requires { IsPairing (map event_of happened.now) pairing.now.from.items }
    ensures { AreEventsJudged (map event_of happened.now) result }
{
    paired_is_paid();
    match first_unpaid(happened, &pairing.from) {
        None => Status::Yes,
        Some(_) => Status::No,
    }
}
