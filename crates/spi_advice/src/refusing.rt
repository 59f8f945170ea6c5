// The line of a refusal.
ghost use Rattle.std.specs.Prelude.{IfOk};
ghost use Rattle.spi_commands.specs.Refusals.{IsLineOf, Refuses};

use crate::NoMemory;
use spi_report::{Refusal, refused};
use spi_scope::faults_stand_at_nodes;
use spi_text::Lines;
use std::alloc::Global;

/// The line of bytes that spell no file, for this first reason.
pub fn refusal_line(alloc: Global, lines: &Lines<'_>, r: &Refusal) -> Result<Vec<u8>, NoMemory>
    requires { Refuses lines.now r.now.number r.now.offset r.now.shown.items }
    ensures { IfOk result (λ line. IsLineOf lines.now (Refuses lines.now) line.items) }
{
    faults_stand_at_nodes();
    refused(alloc, lines, r)
}
