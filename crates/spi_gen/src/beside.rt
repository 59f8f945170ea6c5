// So many sessions beside one another.
ghost use Rattle.std.specs.Prelude.{◌≡◌, ◌≤◌, true, false, IfOk};
ghost use Rattle.spi_tree.specs.Views.{proc_of, file_of};
ghost use Rattle.spi_gen.specs.Sessions.{AreBeside, AreGrouped, IsSessions};

use crate::NoMemory;
use crate::parts::{NOWHERE, declarations, handshake};
use spi_tree::{BothParts, Room, SProc, Tree};

// So many sessions in the place of a part, where several are in parentheses, or in the place of a process.
fn beside<'b>(room: Room<'b>, n: u32, in_part: bool) -> Result<SProc<'b>, NoMemory>
    requires some { 1 ≤ n }
    requires few { n ≤ 500 }
    ensures part { IfOk result (λ p. in_part ≡ true → AreGrouped n (proc_of p)) }
    ensures process { IfOk result (λ p. in_part ≡ false → AreBeside n (proc_of p)) }
{
    if n == 1 {
        return handshake(room);
    }
    let half = (n + 1) / 2;
    let first = beside(room, half, true)?;
    let rest = beside(room, n - half, true)?;
    let parts = Box::new(room.alloc, BothParts { first, rest })?;
    let span = NOWHERE;
    if in_part {
        Ok(SProc::Group { parts, span })
    } else {
        Ok(SProc::Par { parts, span })
    }
}

/// The file of so many sessions of the nonce handshake beside one another, from 1 to 500: of two halves the first is rounded
/// up, and several sessions in one part stand in parentheses. Its nodes and words have the empty span at 0.
pub fn sessions<'b>(room: Room<'b>, k: u32) -> Result<Tree<'b>, NoMemory>
    requires some { 1 ≤ k }
    requires few { k ≤ 500 }
    ensures { IfOk result (λ tree. IsSessions k (file_of tree)) }
{
    Ok(Tree {
        version: 1,
        decls: declarations(room)?,
        process: beside(room, k, false)?,
        opponent: None,
        schedule: None,
        derivation: None,
        span: NOWHERE,
    })
}
