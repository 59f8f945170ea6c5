// Laws of blame: there is one exactly where a message lacks a type, and what it is.

ghost use Rattle.std.specs.Prelude.{◌≡◌, ◌↔◌, ℕ, List, [], length};
ghost use Rattle.spi_term.specs.Term.{Message, Ty};
ghost use Rattle.spi_term.specs.Names.{MessageOver};
ghost use Rattle.spi_rules.specs.Environment.{Env};
ghost use Rattle.spi_rules.specs.Messages.{HasType, IsLabel};
ghost use Rattle.spi_blame.specs.Blaming.{Question, typed, labelled, subject, AnswersYes, Asks, EachHolds, Blamed, IsMisfit};
ghost use Rattle.spi_blame.specs.Paths.{IsFirstMisfit, PartAt, IsLeftOf};
ghost use Rattle.spi_blame.specs.Reasons.{Reason, Mismatch, MayHaveType};
ghost use Rattle.spi_blame.specs.Mending.{asked_of, Swapped};

/// What a question asks is what the typing rules ask: it holds exactly where it asks questions that each hold, and it asks
/// one list of them.
pub fn asks_are_the_rules()
    ensures rules { (env : Env) (q : Question)
        → AnswersYes env q ↔ ((qs : List Question) × Asks env q qs × EachHolds env qs) }
    ensures one { (env : Env) (q : Question) (qs rs : List Question)
        → Asks env q qs → Asks env q rs → qs ≡ rs }
{}

/// A message lacks a type exactly where a part of it is to blame, and only one part is, for lack of one type.
pub fn lacks_where_blamed()
    ensures lacks { (env : Env) (m : Message) (t : Ty)
        → (HasType [] env m t → ⊥) ↔ ((path : List ℕ) × (r : Question) × Blamed env (typed m t) path r) }
    ensures one { (env : Env) (q r s : Question) (p o : List ℕ)
        → Blamed env q p r → Blamed env q o s → (p ≡ o) × (r ≡ s) }
{}

/// A message is no label exactly where a part of it is to blame.
pub fn no_label_where_blamed()
    ensures { (env : Env) (m : Message)
        → (IsLabel [] env m → ⊥) ↔ ((path : List ℕ) × (r : Question) × Blamed env (labelled m) path r) }
{}

/// What is to blame is what is asked first that no rule is for. It is asked of the message's part at that path.
pub fn blamed_is_first()
    ensures first { (env : Env) (q r : Question) (path : List ℕ)
        → Blamed env q path r ↔ IsFirstMisfit env q path r }
    ensures part { (env : Env) (q r : Question) (path : List ℕ)
        → Blamed env q path r → PartAt (subject q) path (subject r) }
{}

/// No rule is for a question exactly where there is one of three reasons. A type that doesn't fit a message's form is one
/// that no message of this form has, in no environment.
pub fn misfits_have_reasons()
    ensures reason { (env : Env) (q : Question) → IsMisfit env q ↔ Reason env q }
    ensures never { (m : Message) (t : Ty) → (MayHaveType m t → ⊥) → (env : Env) → HasType [] env m t → ⊥ }
{}

/// Where each name of the message is in scope, what is to blame is a name that has another type, or a message whose form
/// never has such a type.
pub fn blamed_is_mismatch()
    ensures typed { (env : Env) (m : Message) (t : Ty) (path : List ℕ) (r : Question)
        → MessageOver (length env) 0 m → Blamed env (typed m t) path r → Mismatch env r }
    ensures label { (env : Env) (m : Message) (path : List ℕ) (r : Question)
        → MessageOver (length env) 0 m → Blamed env (labelled m) path r → Mismatch env r }
{}

/// Where the blamed part is replaced by a message that has what is asked of it, what is to blame then, if anything, stands
/// to its right.
pub fn mending_moves_right()
    ensures { (env : Env) (q r s : Question) (p o : List ℕ) (n m : Message)
        → Blamed env q p r → AnswersYes env (asked_of r n) → Swapped (subject q) p n m
        → Blamed env (asked_of q m) o s → IsLeftOf p o }
{}
