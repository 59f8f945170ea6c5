//! Laws of told narrations.

ghost use Rattle.std.specs.Prelude.{◌≡◌, ◌≤◌, ℕ, List, length};
ghost use Rattle.spi_lex.specs.Writing.{AreKinds};
ghost use Rattle.spi_tree.specs.Pieces.{kinds_in};
ghost use Rattle.spi_parse.specs.Exact.{IsWithin};
ghost use Rattle.spi_scope.specs.StandsFor.{Meant};
ghost use Rattle.spi_show.specs.Files.{IsCanonicalText};
ghost use Rattle.spi_spell.specs.Spelled.{limit, SpellsFile};
ghost use Rattle.spi_narrate.specs.Narrations.{Narration};
ghost use Rattle.spi_narrate.specs.Grammar.{IsNarration, whole_narration};
ghost use Rattle.spi_honest.specs.Roles.{IsTellable};
ghost use Rattle.spi_narrator.specs.declared.answer.Refusal.{Refusal};
ghost use Rattle.spi_narrator.specs.Answers.{IsTold, RefusesNarration};

use spi_scope::one_or_other;

/// The canonical text of a narration's file, where it isn't longer than a file may be, spells that file with its schedule.
pub fn told_files_read_back()
    ensures { (x : Narration) (told : Meant) (text : List ℕ) → IsNarration x → IsWithin (whole_narration x)
        → AreKinds (kinds_in (whole_narration x)) → IsTellable x → IsTold x told
        → IsCanonicalText told text → length text ≤ limit → SpellsFile text told }
{}

/// A narration that is told isn't refused, and one file tells it.
pub fn one_telling()
    ensures never_both { (x : Narration) (told : Meant) (r : Refusal) → IsTold x told → RefusesNarration x r
        → ⊥ }
    ensures one { (x : Narration) (told other : Meant) → IsTold x told → IsTold x other
        → told ≡ other }
{
    one_or_other();
}
