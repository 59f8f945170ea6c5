// Questions about the counts of an effect.

ghost use Rattle.std.specs.Prelude.{◌≡◌, ◌↔◌, IsTrue};
ghost use Rattle.spi_term.specs.Names.{EffectAvoids};
ghost use Rattle.spi_term.specs.Counts.{count};
ghost use Rattle.spi_term.specs.View.{atom, effect};
ghost use Rattle.spi_effect.specs.Effect.{Within};

use spi_term::{Atom, Effect, count_in, is_effect_within, is_name_in_effect};

/// Whether no atom's count in `a` is above that in `b`. It takes no memory.
pub fn within(a: &Effect, b: &Effect) -> bool
    ensures { IsTrue result ↔ Within (effect a.now) (effect b.now) }
{
    is_effect_within(&a.atoms, &b.atoms)
}

/// The count of an atom: how often it stands in the effect, or 1 for a `many` that stands there
/// at all.
pub fn count_of(e: &Effect, a: &Atom) -> usize
    ensures { result ≡ count (atom a.now) (effect e.now) }
{
    count_in(&e.atoms, a)
}

/// Whether a name is free in some atom of the effect.
pub fn mentions(e: &Effect, name: u32) -> bool
    ensures { IsTrue result ↔ (EffectAvoids name (effect e.now) → ⊥) }
{
    is_name_in_effect(name, &e.atoms)
}
