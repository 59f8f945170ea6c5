// What is still to be written on the way through the nodes of a process.

ghost use Rattle.std.specs.Prelude.{◌≡◌, ◌+◌, ◌<◌, ◌^◌, ◌∷◌, ◌++◌, IfOk, OnOk};
ghost use Rattle.spi_term.specs.Spelling.{ty_nodes};
ghost use Rattle.spi_term.specs.View.{ty as type_of};
ghost use Rattle.spi_show.specs.Spells.{spelling};
ghost use Rattle.spi_show.specs.Terms.{type_text};
ghost use Rattle.spi_show.specs.Processes.{right_text, sequel};
ghost use Rattle.spi_show.specs.Pieces.{standing, piece, tops, parts_shown, process, words};

use crate::NoMemory;
use crate::spell::Spell;
use crate::terms::put_typed;
use spi_term::Ty;

/// Where a process stands: in the place of a part or behind a bar, or as the sequel of a form.
#[derive(Clone, Copy)]
pub enum Place {
    Alone,
    Sequel,
}

/// A piece of what is still to be written.
#[derive(Drop)]
pub enum Piece {
    Bar,
    Semicolon,
    Close,
    Words(Vec<u8>),
    Process(Place),
}

fn push_piece(x: Piece, pending: &mut Vec<Piece>) -> Result<(), NoMemory>
    ensures { OnOk result (tops pending.new.items ≡ piece x ∷ tops pending.old.items) }
{
    pending.push(x)?;
    Ok(())
}

/// The process in a form is to be written.
pub fn push_sequel(pending: &mut Vec<Piece>) -> Result<(), NoMemory>
    ensures { OnOk result (tops pending.new.items ≡ process sequel ∷ tops pending.old.items) }
{
    push_piece(Piece::Process(Place::Sequel), pending)
}

fn push_three(x: Piece, y: Piece, z: Piece, pending: &mut Vec<Piece>) -> Result<(), NoMemory>
    ensures { OnOk result
        (tops pending.new.items ≡ piece x ∷ (piece y ∷ (piece z ∷ tops pending.old.items))) }
{
    push_piece(z, pending)?;
    push_piece(y, pending)?;
    push_piece(x, pending)
}

/// The processes in a parallel composition are to be written, of which the first is an output or isn't.
pub fn push_parts(at: Place, output: bool, pending: &mut Vec<Piece>) -> Result<(), NoMemory>
    ensures { OnOk result
        (tops pending.new.items ≡ parts_shown (standing at) output ++ tops pending.old.items) }
{
    let first = Piece::Process(Place::Sequel);
    match at {
        Place::Alone => push_three(first, Piece::Bar, Piece::Process(Place::Alone), pending),
        Place::Sequel => {
            if output {
                push_three(
                    first,
                    Piece::Semicolon,
                    Piece::Process(Place::Sequel),
                    pending,
                )
            } else {
                push_piece(Piece::Close, pending)?;
                push_three(first, Piece::Bar, Piece::Process(Place::Alone), pending)
            }
        }
    }
}

// What stands between the processes of a `case`.
fn between(spell: &Spell, n: u32, right: &Ty) -> Result<Vec<u8>, NoMemory>
    requires { n + ty_nodes (type_of right.now) < 2 ^ 32 }
    ensures { IfOk result
        (λ v. v.items
        ≡ right_text (spelling spell.now) n (type_text (spelling spell.now) n (type_of right.now))) }
{
    let mut out = Vec::new(spell.alloc);
    out.extend_from_slice(b" is inr (")?;
    put_typed(spell, n, right, &mut out)?;
    out.extend_from_slice(b"); ")?;
    Ok(out)
}

/// The processes in a `case` are to be written.
pub fn push_sides(
    spell: &Spell,
    n: u32,
    right: &Ty,
    pending: &mut Vec<Piece>,
) -> Result<(), NoMemory>
    requires { n + ty_nodes (type_of right.now) < 2 ^ 32 }
    ensures { OnOk result
        (tops pending.new.items ≡ process sequel
        ∷ (words (right_text (spelling spell.now) n (type_text (spelling spell.now) n (type_of right.now)))
        ∷ (process sequel ∷ tops pending.old.items))) }
{
    let words = between(spell, n, right)?;
    push_three(
        Piece::Process(Place::Sequel),
        Piece::Words(words),
        Piece::Process(Place::Sequel),
        pending,
    )
}
