// The line of a load.
ghost use Rattle.std.specs.Prelude.{◌≡◌, IfOk};
ghost use Rattle.spi_report.specs.Loaded.{loaded_text};

use crate::NoMemory;
use std::alloc::Global;

/// The line of `load K`: `load K: N nodes, R rules, yes` and a LF, for so many sessions, nodes of their file and rules of
/// its derivation.
pub fn loaded(alloc: Global, k: u32, nodes: u64, rules: u64) -> Result<Vec<u8>, NoMemory>
    ensures { IfOk result (λ text. text.items ≡ loaded_text k nodes rules) }
{
    let line = format!(in alloc; "load {k}: {nodes} nodes, {rules} rules, yes\n")?;
    Ok(line.into_bytes())
}
