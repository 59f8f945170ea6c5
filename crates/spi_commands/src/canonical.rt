// The canonical text of a file as an answer.
ghost use Rattle.std.specs.Prelude.{◌≡◌, ◌≤◌, length, IfOk, OnErr, Err};
ghost use Rattle.spi_scope.specs.Files.{meant};
ghost use Rattle.spi_commands.specs.Canonical.{ShowsTo};

use crate::answer::{Answer, Stop, too_much};
use crate::status::Status;
use crate::text::LIMIT;
use spi_scope::File;
use spi_show::show_file;
use std::alloc::Global;

/// The canonical text of this file, or the refusal where it is longer than a file may be.
pub fn shown(alloc: Global, bytes: &[u8], file: &File) -> Result<Answer, Stop>
    requires { length bytes.now ≤ 16_777_216 }
    ensures ok { IfOk result
        (λ answer. ShowsTo bytes.now (meant file.now) answer.status answer.output.items) }
    ensures err { OnErr result (result ≡ Err Stop.NoMemory) }
{
    let output = show_file(alloc, file)?;
    if output.len() <= LIMIT {
        Ok(Answer {
            status: Status::Yes,
            output,
        })
    } else {
        too_much(alloc, bytes, output.len() as u64)
    }
}
