// What the numbers of a store count.

ghost use Rattle.std.specs.Prelude.{List};
ghost use Rattle.spi_intern.specs.declared.store.Store.{Store};
ghost use Rattle.spi_intern.specs.Growing.{Given, Gave, CountsParts, GaveAtLeast, CountsPartsAtLeast};
ghost use Rattle.spi_intern.specs.Meaning.{NoneTwice};

/// A store that has given a number for each of some terms, by calls that each answered `Ok`, has one number for
/// each different message and each different type among them and their parts, and no other. A call over numbers of the
/// store gives one term alone, whose parts have theirs.
pub fn parts_are_counted()
    ensures { (gs : List Given) (s : Store) → Gave gs s → NoneTwice s → CountsParts gs s }
{}

/// Where calls on it have answered `NoMemory`, a store has a number for each different message and each different type
/// among the terms for which a call gave one, and their parts.
pub fn parts_are_counted_at_least()
    ensures { (gs : List Given) (s : Store) → GaveAtLeast gs s → NoneTwice s → CountsPartsAtLeast gs s }
{}
