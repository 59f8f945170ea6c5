// What is told of messages and types by the names in scope alone.

ghost use Rattle.std.specs.Prelude.{◌≡◌, ◌<◌, IsTrue, length};
ghost use Rattle.spi_intern.specs.Messages.{message_at};
ghost use Rattle.spi_intern.specs.Given.{IsGiven};
ghost use Rattle.spi_message.specs.Filling.{message_in, atom_at, AtomsAreBelow};
ghost use Rattle.spi_message.specs.Plain.{plain, plain_atom, HavePlain, MeansPlain};

use spi_intern::{AtomId, MsgId, MsgPart, Store, TyId, TyPart};

/// How many atoms of one type are looked at at most: answers about larger ones are kept.
const FEW: usize = 8;

/// How many binders a type that is looked at stands under at most.
const MOST: u64 = 10_000;

/// Whether the message is made of names below a number and of indices below a depth, with no encryption in it.
pub fn is_plain(store: &Store, names: usize, depth: u64, m: MsgId) -> bool
    requires { m.place < length store.now.messages }
    ensures { result ≡ plain names depth (message_at store.now.messages m) }
{
    match store.part(m) {
        MsgPart::Bound(i) => (i as u64) < depth,
        MsgPart::Name(x) => (x as usize) < names,
        MsgPart::Unit => true,
        MsgPart::Pair(a, b) => is_plain(store, names, depth, a) && is_plain(store, names, depth, b),
        MsgPart::Inl(a) => is_plain(store, names, depth, a),
        MsgPart::Inr(a) => is_plain(store, names, depth, a),
        MsgPart::Enc(_, _) => false,
        MsgPart::Hash(a) => is_plain(store, names, depth, a),
    }
}

// Whether the atom is an `end` or a `many` of such a message.
fn is_plain_atom(store: &Store, names: usize, depth: u64, a: AtomId) -> bool
    requires { (message_in a).place < length store.now.messages }
    ensures { result ≡ plain_atom names depth (atom_at store.now.messages a) }
{
    match a {
        AtomId::End(m) => is_plain(store, names, depth, m),
        AtomId::Check(_) => false,
        AtomId::Many(m) => is_plain(store, names, depth, m),
    }
}

// Whether there are few atoms, and all are such.
fn are_plain_atoms(store: &Store, names: usize, depth: u64, atoms: &[AtomId]) -> bool
    requires { AtomsAreBelow atoms.now (length store.now.messages) }
    ensures { IsTrue result → HavePlain store.now names depth atoms.now }
{
    if atoms.len() > FEW {
        return false;
    }
    for place in 0..atoms.len() {
        if !is_plain_atom(store, names, depth, atoms[place]) {
            return false;
        }
    }
    true
}

/// Whether all atoms in a type under so many binders are such.
pub fn is_plain_type(store: &Store, names: usize, depth: u64, t: TyId) -> bool
    requires { IsGiven store.now t.place }
    ensures { IsTrue result → MeansPlain store.now names depth t }
{
    match store.ty_part(t) {
        TyPart::Un => true,
        TyPart::Unit => true,
        TyPart::Pair(a, b) => {
            if depth >= MOST {
                return false;
            }
            is_plain_type(store, names, depth, a) && is_plain_type(store, names, depth + 1, b)
        }
        TyPart::Sum(a, b) => {
            is_plain_type(store, names, depth, a) && is_plain_type(store, names, depth, b)
        }
        TyPart::Key(a) => is_plain_type(store, names, depth, a),
        TyPart::Nonce(atoms) => are_plain_atoms(store, names, depth, atoms),
    }
}
