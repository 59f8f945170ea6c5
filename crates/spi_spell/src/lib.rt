//! What is written behind a file is read with it, and the canonical text of a file is read as that file.
#![tactic(auto)]

ghost use Rattle.std.specs.Prelude.{◌≡◌, ◌≤◌, ℕ, List, length, None, Ok};
ghost use Rattle.std.specs.List.{All};
ghost use Rattle.spi_rules.specs.Derivations.{RuleUse};
ghost use Rattle.spi_run.specs.Reduction.{Step};
ghost use Rattle.spi_lex.specs.declared.token.Token.{Token};
ghost use Rattle.spi_lex.specs.Lexing.{Lexes, kinds_of};
ghost use Rattle.spi_lex.specs.Writing.{AreKinds};
ghost use Rattle.spi_tree.specs.Trees.{File};
ghost use Rattle.spi_tree.specs.Pieces.{tokens_of};
ghost use Rattle.spi_tree.specs.Formed.{IsFormed};
ghost use Rattle.spi_gen.specs.Sessions.{IsSessions};
ghost use Rattle.spi_parse.specs.Exact.{IsWithin};
ghost use Rattle.spi_parse.specs.Formed.{IsFile, whole_file};
ghost use Rattle.spi_scope.specs.StandsFor.{Meant, StandsFor};
ghost use Rattle.spi_show.specs.Files.{IsCanonicalText};
ghost use Rattle.spi_deriv.specs.Canonical.{Canonical};
ghost use Rattle.spi_deriv.specs.Text.{derivation_text};
ghost use Rattle.spi_spell.specs.Spelled.{limit, SpellsFile};
ghost use Rattle.spi_spell.specs.Generated.{handshake_text};
ghost use Rattle.spi_spell.specs.Joined.{joined_texts, schedule_text, with_derivation, with_schedule, HasLowPlaces};

/// A file without a derivation, one line feed and the text of the canonical derivation of its process are a file with
/// that derivation.
pub fn derivation_joins()
    ensures { (bytes : List ℕ) (file : Meant) (d : List RuleUse) → SpellsFile bytes file
        → file.derivation ≡ None → Canonical d file.process.names file.process.process
        → length (joined_texts bytes (derivation_text d)) ≤ limit
        → SpellsFile (joined_texts bytes (derivation_text d)) (with_derivation file d) }
{}

/// A file with neither schedule nor derivation, one line feed and the text of a schedule of at most 10,000 steps, whose
/// places are below 2 ^ 32, are a file with that schedule.
pub fn schedule_joins()
    ensures { (bytes : List ℕ) (file : Meant) (steps : List Step) → SpellsFile bytes file
        → file.schedule ≡ None → file.derivation ≡ None → length steps ≤ 10000 → All HasLowPlaces steps
        → length (joined_texts bytes (schedule_text steps)) ≤ limit
        → SpellsFile (joined_texts bytes (schedule_text steps)) (with_schedule file steps) }
{}

/// The canonical text of a file that bytes spell, where it isn't longer than a file may be, spells that file as well.
pub fn canonical_reads_back()
    ensures { (bytes text : List ℕ) (file : Meant) → SpellsFile bytes file → IsCanonicalText file text
        → length text ≤ limit → SpellsFile text file }
{}

/// The same of each file that a tree stands for: a formed tree within the nesting limits, whose words and numbers are
/// those of tokens.
pub fn printed_trees_read_back()
    ensures { (tree : File) (file : Meant) (text : List ℕ) → IsFile tree → IsWithin (whole_file tree)
        → AreKinds (tokens_of tree) → StandsFor tree file → IsCanonicalText file text → length text ≤ limit
        → SpellsFile text file }
{}

/// The file of so many generated sessions is formed, so it's one that can be written and read.
pub fn sessions_are_formed()
    ensures { (count : ℕ) (file : File) → IsSessions count file → IsFormed file }
{}

/// The tokens of one generated session are those of the handshake as it is written by hand.
pub fn one_session_is_the_handshake()
    ensures { (file : File) → IsSessions 1 file
        → (tokens : List Token) × Lexes handshake_text (Ok tokens) × (kinds_of tokens ≡ tokens_of file) }
{}
