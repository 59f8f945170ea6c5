// A law of origins.

ghost use Rattle.std.specs.Prelude.{◌↔◌, ℕ};
ghost use Rattle.spi_origin.specs.Origins.{IsLeft, IsOrigin};
ghost use Rattle.spi_rules.specs.Environment.{Env};
ghost use Rattle.spi_term.specs.Term.{Atom, Process};

/// An atom stands in the least effect of a process exactly where some node is an origin of it.
pub fn left_atoms_have_origins()
    ensures { (a : Atom) (env : Env) (p : Process) → IsLeft a env p ↔ ((i : ℕ) × IsOrigin a env p i) }
{}
