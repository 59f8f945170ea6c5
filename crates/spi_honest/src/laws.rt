//! Which narrations can be told.

ghost use Rattle.spi_narrate.specs.Narrations.{Narration};
ghost use Rattle.spi_narrate.specs.Faults.{items_of, IsFaultless};
ghost use Rattle.spi_honest.specs.Roles.{IsTellable};

/// A narration in which nothing is wrong behind its grammar can be told.
pub fn faultless_is_tellable()
    ensures { (x : Narration) → IsFaultless (items_of x) → IsTellable x }
{}
