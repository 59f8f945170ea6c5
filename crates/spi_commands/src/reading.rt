// The file that bytes spell.
ghost use Rattle.std.specs.Prelude.{◌≡◌, ◌≤◌, length, IfOk, IfErr};
ghost use Rattle.spi_tree.specs.Views.{file_of};
ghost use Rattle.spi_scope.specs.Files.{meant};
ghost use Rattle.spi_commands.specs.Spelled.{IsTreeOf, SpellsFile};
ghost use Rattle.spi_commands.specs.Reading.{IsRead, IsUnread};
ghost use Rattle.spi_commands.specs.declared.reading.Unread.TheVariants.{NoMemory};

use crate::afterwards::Afterwards;
use crate::causes::{out_of_scope, unlexed, unspelled};
use bumpalo::Bump;
use spi_parse::{ByteFault, parse_bytes};
use spi_report::Refusal;
use spi_scope::{File, resolve};
use spi_tree::{Room, Tree};
use std::alloc::{AllocError, Global};

/// Why bytes are not read.
#[derive(Drop)]
pub enum Unread {
    /// They spell no file, for this first reason.
    Refused(Refusal),
    /// Memory ran out.
    NoMemory,
}

impl From<AllocError> for Unread {
    ghost from_gives = { λ _ e. e ≡ NoMemory };

    fn from(_: AllocError) -> Unread {
        Unread::NoMemory
    }
}

/// The file that the bytes spell, of which there are at most 16,777,216, or the first refusal of the numbers 10 to 37. Their
/// tokens are never all there at once. The messages and types of its tree are given back; where the process ends afterwards, the
/// processes of the tree are left for it to take along.
pub fn read(alloc: Global, afterwards: Afterwards, bytes: &[u8]) -> Result<File, Unread>
    requires { length bytes.now ≤ 16_777_216 }
    ensures file { IfOk result (λ f. SpellsFile bytes.now (meant f)) }
    ensures placed { IfOk result (λ f. IsRead bytes.now f) }
    ensures unread { IfErr result (λ u. IsUnread bytes.now u) }
{
    let bump = Bump::new(alloc);
    read_in(Room { alloc, bump: &bump }, afterwards, bytes)
}

/// The file that the bytes spell, whose tree lies in this room, or the first refusal.
fn read_in(room: Room<'_>, afterwards: Afterwards, bytes: &[u8]) -> Result<File, Unread>
    requires { length bytes.now ≤ 16_777_216 }
    ensures file { IfOk result (λ f. SpellsFile bytes.now (meant f)) }
    ensures placed { IfOk result (λ f. IsRead bytes.now f) }
    ensures unread { IfErr result (λ u. IsUnread bytes.now u) }
{
    let alloc = room.alloc;
    match parse_bytes(room, bytes) {
        Ok(tree) => {
            let read = read_tree(alloc, bytes, &tree);
            afterwards.let_go(tree);
            read
        }
        Err(ByteFault::Lexical(fault)) => Err(unlexed(alloc, bytes, fault)),
        Err(ByteFault::Syntax { at }) => Err(unspelled(alloc, 20, at)),
        Err(ByteFault::TooDeep { at }) => Err(unspelled(alloc, 21, at)),
        Err(ByteFault::NoMemory) => Err(Unread::NoMemory),
    }
}

/// The file that the tree of the bytes stands for.
fn read_tree(alloc: Global, bytes: &[u8], tree: &Tree) -> Result<File, Unread>
    requires { IsTreeOf bytes.now (file_of tree.now) }
    ensures file { IfOk result (λ f. SpellsFile bytes.now (meant f)) }
    ensures placed { IfOk result (λ f. IsRead bytes.now f) }
    ensures unread { IfErr result (λ u. IsUnread bytes.now u) }
{
    match resolve(alloc, tree) {
        Ok(file) => Ok(file),
        Err(fault) => Err(out_of_scope(alloc, &fault)),
    }
}
