//! Laws of woven trees.

ghost use Rattle.std.specs.Prelude.{◌≤◌, ℕ, length};
ghost use Rattle.spi_lex.specs.Writing.{AreKinds};
ghost use Rattle.spi_tree.specs.Pieces.{kinds_in, tokens_of};
ghost use Rattle.spi_parse.specs.Exact.{IsWithin};
ghost use Rattle.spi_parse.specs.Formed.{IsFile, whole_file};
ghost use Rattle.spi_narrate.specs.Narrations.{Narration};
ghost use Rattle.spi_narrate.specs.Grammar.{HasRole, IsNarration, whole_narration};
ghost use Rattle.spi_weave.specs.Starts.{StartBy};
ghost use Rattle.spi_weave.specs.Woven.{woven};

/// Where a narration is formed, within the nesting limits, and has at most 16 shared names, 8 roles and 200 lines, the tree
/// that it is woven into is formed and within the nesting limits, and its words and numbers are those of tokens.
pub fn woven_trees_are_formed()
    ensures { (x : Narration) → IsNarration x → IsWithin (whole_narration x)
        → AreKinds (kinds_in (whole_narration x))
        → length x.shared ≤ 16 → length x.roles ≤ 8 → length x.lines ≤ 200
        → IsFile (woven x) × IsWithin (whole_file (woven x)) × AreKinds (tokens_of (woven x)) }
{}

/// Where each node and word of a narration starts at an offset or before, so does each of the tree that it is woven into.
pub fn woven_nodes_start_within()
    ensures { (x : Narration) (end : ℕ) → HasRole x.roles → StartBy end (whole_narration x)
        → StartBy end (whole_file (woven x)) }
{}
