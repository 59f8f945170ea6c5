// Laws of the type system.

ghost use Rattle.std.specs.Prelude.{◌↔◌, List, []};
ghost use Rattle.spi_term.specs.Term.{Message, Effect, Ty, Process};
ghost use Rattle.spi_term.specs.Counts.{SameEffect};
ghost use Rattle.spi_term.specs.SameTy.{SameTy};
ghost use Rattle.spi_rules.specs.Environment.{Env, HasNoLooseIndex};
ghost use Rattle.spi_rules.specs.Messages.{Cast, HasType, IsLabel};
ghost use Rattle.spi_rules.specs.Processes.{HasEffect};
ghost use Rattle.spi_rules.specs.Derivations.{RuleUse, Derivable, Proves};
ghost use Rattle.spi_rules.specs.Least.{Least};
ghost use Rattle.spi_rules.specs.Deriv.{IsTree};

/// A message is a label exactly where it has some type, in an environment whose types have no loose index.
pub fn label_is_typed()
    ensures { (env : Env) (m : Message) → HasNoLooseIndex env
        → IsLabel [] env m ↔ ((t : Ty) × HasType [] env m t) }
{}

/// The rule uses of a derivation are one tree in preorder. They, with the effects written at `ProcSub`, determine
/// what it proves of a process, up to equal counts.
pub fn uses_determine_effect()
    ensures tree { (d : List RuleUse) (env : Env) (p : Process) (es : Effect) → Proves d env p es → IsTree d }
    ensures effect { (d : List RuleUse) (env : Env) (p : Process) (es fs : Effect) → Proves d env p es
        → Proves d env p fs → SameEffect es fs }
{}

/// An effect means its counts, and a type what it is up to equal counts: what has one has the other, and what proves one
/// proves the other.
pub fn effects_mean_counts()
    ensures types { (casts : List Cast) (env : Env) (m : Message) (t u : Ty) → SameTy t u
        → HasType casts env m t → HasType casts env m u }
    ensures has { (casts : List Cast) (env : Env) (p : Process) (es fs : Effect) → SameEffect es fs
        → HasEffect casts env p es → HasEffect casts env p fs }
    ensures derivable { (env : Env) (p : Process) (es fs : Effect) → SameEffect es fs → Derivable env p es
        → Derivable env p fs }
    ensures least { (env : Env) (p : Process) (es fs : Effect) → SameEffect es fs → Least env p es
        → Least env p fs }
    ensures proves { (d : List RuleUse) (env : Env) (p : Process) (es fs : Effect) → SameEffect es fs
        → Proves d env p es → Proves d env p fs }
{}
