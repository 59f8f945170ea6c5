// The command `knows`.
ghost use Rattle.std.specs.Prelude.{◌≡◌, ◌≤◌, ◌++◌, true, length, map, IfOk, OnErr, Err};
ghost use Rattle.spi_term.specs.View.{message};
ghost use Rattle.spi_know.specs.Numbered.{nodes_in};
ghost use Rattle.spi_know.specs.Sent.{names_up};
ghost use Rattle.spi_scope.specs.Files.{meant};
ghost use Rattle.spi_commands.specs.declared.schedule.Ran.TheVariants.{Through};
ghost use Rattle.spi_commands.specs.Reading.{IsRead};
ghost use Rattle.spi_commands.specs.Ran.{IsRan};
ghost use Rattle.spi_commands.specs.Knowing.{IsDecided, KnowsTo};

use crate::NoMemory;
use crate::answer::{Answer, Stop, answer_with, refused_count};
use crate::certificate::{show_known, show_unknown};
use crate::schedule::{Ran, Replay, TALKED, Talks, replay_of};
use crate::status::Status;
use spi_know::{Knowledge, decide};
use spi_scope::File;
use spi_term::Msg;
use std::alloc::Global;

/// What `knows` answers on the file of these bytes, about the name with this number.
pub fn known(alloc: Global, bytes: &[u8], file: &File, name: u32) -> Result<Answer, Stop>
    requires sized { length bytes.now ≤ 16_777_216 }
    requires read { IsRead bytes.now file.now }
    ensures ok { IfOk result (λ answer. KnowsTo name bytes.now answer.status answer.output.items) }
    ensures err { OnErr result (result ≡ Err Stop.NoMemory) }
{
    match replay_of(alloc, bytes, file, true)? {
        Ran::Through(replay) => known_after(alloc, bytes, file, replay, name),
        Ran::Refused(line) => Ok(answer_with(Status::Refused, line)),
    }
}

/// What `knows` answers after this replay.
fn known_after(
    alloc: Global,
    bytes: &[u8],
    file: &File,
    replay: Replay,
    name: u32,
) -> Result<Answer, Stop>
    requires sized { length bytes.now ≤ 16_777_216 }
    requires read { IsRead bytes.now file.now }
    requires ran { IsRan bytes.now (meant file.now) true (Through replay) }
    ensures ok { IfOk result (λ answer. KnowsTo name bytes.now answer.status answer.output.items) }
    ensures err { OnErr result (result ≡ Err Stop.NoMemory) }
{
    if replay.talks.nodes > TALKED {
        return refused_count(alloc, bytes, 110, replay.talks.nodes);
    }
    if name >= replay.names {
        return refused_count(alloc, bytes, 111, name as u64);
    }
    decided(alloc, file, replay.talks, name)
}

/// Whether the name is known from the file's free names and the data of talks.
fn decided(alloc: Global, file: &File, talks: Talks, name: u32) -> Result<Answer, Stop>
    requires names { file.now.process.names ≤ 100_000 }
    requires few { nodes_in (map message talks.data.items) ≤ 20_000 }
    ensures ok { IfOk result
        (λ answer. IsDecided (meant file.now) (map message talks.data.items) name answer.status
        answer.output.items) }
    ensures err { OnErr result (result ≡ Err Stop.NoMemory) }
{
    let sent = sent_of(alloc, file.process.names(), talks.data)?;
    let knowledge = decide(alloc, &sent, &Msg::Name(name))?;
    match &knowledge {
        Knowledge::Known(cert) => Ok(Answer {
            status: Status::Yes,
            output: show_known(alloc, &file.names, name, cert)?,
        }),
        Knowledge::Unknown => Ok(Answer {
            status: Status::No,
            output: show_unknown(alloc, name)?,
        }),
    }
}

/// So many names in order, and then these data.
fn sent_of(alloc: Global, names: u32, talks: Vec<Msg>) -> Result<Vec<Msg>, NoMemory>
    ensures { IfOk result (λ sent. map message sent.items ≡ names_up names ++ map message talks.items) }
{
    let mut talks = talks;
    let mut sent = Vec::new(alloc);
    for x in 0..names {
        sent.push(Msg::Name(x))?;
    }
    sent.append(&mut talks)?;
    Ok(sent)
}
