// Laws of trees.

ghost use Rattle.std.specs.Prelude.{◌≡◌, List, []};
ghost use Rattle.spi_lex.specs.declared.token.Token.{Token};
ghost use Rattle.spi_tree.specs.Trees.{File};
ghost use Rattle.spi_parse.specs.Exact.{Spells};
ghost use Rattle.spi_parse.specs.Formed.{IsFile, whole_file};

/// Tokens spell at most one formed file, with the span of each of its nodes and words.
pub fn one_placed_tree()
    ensures { (f g : File) (ts : List Token) → IsFile f → IsFile g → Spells [] 0 (whole_file f) ts
        → Spells [] 0 (whole_file g) ts → f ≡ g }
{}
