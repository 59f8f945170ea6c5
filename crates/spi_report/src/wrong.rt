// The line of a wrong step.
ghost use Rattle.std.specs.Prelude.{◌≡◌, ◌≤◌, ◌++◌, length, codes, IfOk, OnOk};
ghost use Rattle.std.specs.Fmt.{decimal};
ghost use Rattle.spi_scope.specs.Places.{place_in};
ghost use Rattle.spi_report.specs.Wrong.{wrong_text};

use crate::NoMemory;
use crate::refusal::put_place;
use spi_scope::File;
use spi_text::Lines;
use std::alloc::Global;

/// Appends the end of the line: `: I` and a LF.
fn put_index(alloc: Global, out: &mut Vec<u8>, index: u32) -> Result<(), NoMemory>
    ensures { OnOk result (out.new.items ≡ out.old.items ++ (codes ": " ++ decimal index ++ codes "\n")) }
{
    out.extend_from_slice(format!(in alloc; ": {index}\n")?.as_bytes())
}

/// The line of a wrong step of the file's derivation: `no: 90 WrongStep at L:C: I` and a LF. The place is that of the
/// rule's token, and I the number of the rule use, in preorder from 0 on. The condition is that the use stands in the bytes
/// of the lines.
pub fn wrong_step(
    alloc: Global,
    file: &File,
    lines: &Lines<'_>,
    index: u32,
) -> Result<Vec<u8>, NoMemory>
    requires { (place_in file.now.marks.rules.items index).from ≤ length lines.now }
    ensures { IfOk result
        (λ text. text.items ≡ wrong_text lines.now (place_in file.now.marks.rules.items index) index) }
{
    let mut out = b"no: 90 WrongStep".to_vec(alloc)?;
    put_place(alloc, &mut out, lines, Some(file.rule_place(index).from))?;
    put_index(alloc, &mut out, index)?;
    Ok(out)
}
