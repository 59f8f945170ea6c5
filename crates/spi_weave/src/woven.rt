//! Narrations as trees of files.

ghost use Rattle.std.specs.Prelude.{◌≡◌, map, IfOk};
ghost use Rattle.spi_tree.specs.Views.{decl_of, file_of};
ghost use Rattle.spi_narrate.specs.Views.{narration_of};
ghost use Rattle.spi_weave.specs.Woven.{woven};

use crate::NoMemory;
use crate::copies::declarations;
use crate::roles::{last_span, roles_beside, sharing};
use spi_narrate::Narration;
use spi_tree::{Decl, Room, SProc, Tree};

/// The tree of the file that a narration is woven into. The two share the parts of their messages and types, and its time is
/// that of the narration's lines, times the number of roles. Its only error is NoMemory.
pub fn weave<'b>(room: Room<'b>, n: &Narration<'b>) -> Result<Tree<'b>, NoMemory>
    ensures { IfOk result (λ tree. file_of tree ≡ woven (narration_of n.now)) }
{
    let decls = declarations(room.alloc, &n.decls)?;
    weave_declared(room, n, decls)
}

/// The tree of the file that a narration is woven into where these are its declarations, which the tree then holds. Else it is
/// as `weave` has it.
pub fn weave_declared<'b>(
    room: Room<'b>,
    n: &Narration<'b>,
    decls: Vec<Decl<'b>>,
) -> Result<Tree<'b>, NoMemory>
    ensures { IfOk result (λ tree. file_of tree
        ≡ woven (record (narration_of n.now) { decls = map decl_of decls.entry.items })) }
{
    let roles = roles_beside(room, &n.lines, &n.first, &n.more, true)?;
    let process = sharing(room.alloc, &n.shared, roles)?;
    Ok(Tree {
        version: n.version,
        decls,
        process,
        opponent: Some(SProc::Stop {
            span: last_span(n.first.span, &n.more),
        }),
        schedule: None,
        derivation: None,
        span: n.span,
    })
}
