// The opponent part of a file.
ghost use Rattle.std.specs.Prelude.{◌≡◌, ◌≤◌, length, IfOk, OnErr, Err, Some};
ghost use Rattle.spi_term.specs.Spelling.{Spelling, spelled};
ghost use Rattle.spi_opponent.specs.Allowed.{IsFirstOffence};
ghost use Rattle.spi_scope.specs.Files.{meant};
ghost use Rattle.spi_commands.specs.Beside.{HasOffence};
ghost use Rattle.spi_commands.specs.Refusals.{IsRefusedFor};
ghost use Rattle.spi_commands.specs.Reading.{IsRead};

use crate::answer::{Answer, Stop, refusal};
use spi_report::Refusal;
use spi_scope::File;
use std::alloc::Global;

/// The refusal of an opponent part of which this is the first node that no opponent has.
pub fn not_opponent(alloc: Global, bytes: &[u8], file: &File, node: u32) -> Result<Answer, Stop>
    requires sized { length bytes.now ≤ 16_777_216 }
    requires read { IsRead bytes.now file.now }
    requires first { (o : Spelling) × ((meant file.now).opponent ≡ Some o)
        × IsFirstOffence (spelled o.names o.process) node }
    ensures ok { IfOk result (IsRefusedFor bytes.now (HasOffence bytes.now)) }
    ensures err { OnErr result (result ≡ Err Stop.NoMemory) }
{
    let offset = file.opponent_place(node).from;
    let r = Refusal {
        number: 39,
        offset: Some(offset),
        shown: Vec::new(alloc),
    };
    refusal(alloc, bytes, &r)
}
