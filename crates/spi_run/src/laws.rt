// Laws of reduction.

ghost use Rattle.std.specs.Prelude.{◌≡◌, Option};
ghost use Rattle.spi_run.specs.Reduction.{Configuration, Step, Event, Takes};

/// A step that is ready in a configuration has one event, or none, and one configuration after it.
pub fn one_step()
    ensures { (c d d' : Configuration) (s : Step) (e e' : Option Event) → Takes c s e d → Takes c s e' d'
        → (e ≡ e') × (d ≡ d') }
{}
