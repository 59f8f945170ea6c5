// Lines of certificates, for lines over the numbers of a store.

ghost use Rattle.std.specs.Prelude.{◌≡◌, ◌<◌, IfOk, length};
ghost use Rattle.spi_know.specs.Spelled.{named_by as named_by_of, IsSmallGround, SaysBy, IsCertLineOf, AreLines, CanBeSpelled};

use crate::NoMemory;
use crate::cert::{By, CertLine};
use crate::clauses::Way;
use spi_horn::{Ground, Line};
use spi_intern::{MsgId, Store, message_of};
use std::alloc::Global;

fn named_by(way: Way, first: u32, second: u32) -> By
    ensures { result ≡ named_by_of way first second }
{
    match way {
        Way::MakePair => By::MakePair(first, second),
        Way::First => By::First(first),
        Way::Second => By::Second(first),
        Way::MakeInl => By::MakeInl(first),
        Way::MakeInr => By::MakeInr(first),
        Way::TakeInl => By::TakeInl(first),
        Way::TakeInr => By::TakeInr(first),
        Way::MakeEnc => By::MakeEnc(first, second),
        Way::Open => By::Open(first, second),
        Way::MakeHash => By::MakeHash(first),
    }
}

fn by_of(sent: u32, ways: &[Way], ground: Ground) -> By
    requires { IsSmallGround ways.now ground }
    ensures { SaysBy sent ways.now ground result }
{
    match ground {
        Ground::Start(j) => {
            if j < sent as usize {
                By::Sent(j as u32)
            } else {
                By::MakeUnit
            }
        }
        Ground::ByRule(k, first, second) => named_by(ways[k], first as u32, second as u32),
    }
}

fn cert_line(
    alloc: Global,
    store: &Store,
    sent: u32,
    ways: &[Way],
    line: Line,
) -> Result<CertLine, NoMemory>
    requires number { line.number < length store.now.messages }
    requires small { IsSmallGround ways.now line.ground }
    ensures { IfOk result (IsCertLineOf store.now.messages sent ways.now line) }
{
    let by = by_of(sent, ways, line.ground);
    let message = message_of(alloc, store, MsgId::at(line.number))?;
    Ok(CertLine { message, by })
}

/// The lines with their messages, where so many were sent. Its only error is NoMemory.
pub fn spell(
    alloc: Global,
    store: &Store,
    sent: u32,
    ways: &[Way],
    lines: &[Line],
) -> Result<Vec<CertLine>, NoMemory>
    requires { CanBeSpelled (length store.now.messages) ways.now lines.now }
    ensures { IfOk result
        (λ cert. AreLines store.now.messages sent ways.now lines.now (length lines.now) cert.items) }
{
    let mut cert = Vec::new(alloc);
    for line in lines {
        let spelled = cert_line(alloc, store, sent, ways, *line)?;
        cert.push(spelled)?;
    }
    Ok(cert)
}
