//! Parts of trees in places of their own.

ghost use Rattle.spi_parse.specs.Places.{state_of, GivesPlaced};
ghost use Rattle.spi_parse.specs.Ends.{done};

use crate::cursor::Reader;
use crate::fault::Stop;
use spi_tree::{Room, placed};

/// A part of a tree.
pub trait TreePart: Drop {
    /// What it is without where it lies in memory.
    ghost Tree: { Type 0 };

    /// A contract sees it as this.
    ghost view: { Self → Tree };
}

/// The part in a place of its own, with the place behind it among the tokens.
#[inline(always)]
pub fn put<'b, T: TreePart>(room: Room<'b>, tree: T, at: &Reader<'_>) -> Result<&'b T, Stop>
    ensures { GivesPlaced T.view result (state_of at.now) (done (T.view tree) (state_of at.now)) }
{
    Ok(placed(room, tree)?)
}
