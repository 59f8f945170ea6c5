// Laws of what is inferred.
ghost use Rattle.std.specs.Prelude.{◌⊎◌, ◌↔◌, ℕ, length};
ghost use Rattle.spi_term.specs.Names.{ProcessOver};
ghost use Rattle.spi_term.specs.Term.{Effect, Process};
ghost use Rattle.spi_rules.specs.Environment.{Env};
ghost use Rattle.spi_rules.specs.Derivations.{Derivable};
ghost use Rattle.spi_rules.specs.Least.{Least};
ghost use Rattle.spi_rules.specs.Blocking.{Blocks};

/// A process over the names of an environment has a least effect there, or no effect is derivable for it. Some node of it
/// blocks exactly where none is.
pub fn least_or_blocked()
    ensures some { (env : Env) (p : Process) → ProcessOver (length env) p
        → ((es : Effect) × Least env p es) ⊎ ((es : Effect) → Derivable env p es → ⊥) }
    ensures blocked { (env : Env) (p : Process) → ProcessOver (length env) p
        → ((es : Effect) → Derivable env p es → ⊥) ↔ ((i : ℕ) × Blocks env p i) }
{}
