// Laws of where faults and points stand.

ghost use Rattle.std.specs.Prelude.{◌≡◌};
ghost use Rattle.spi_tree.specs.Trees as t;
ghost use Rattle.spi_tree.specs.Pieces.{tokens_of};
ghost use Rattle.spi_scope.specs.declared.fault.ScopeFault.{ScopeFault};
ghost use Rattle.spi_scope.specs.Points.{in_order, file_points};
ghost use Rattle.spi_scope.specs.First.{HasFirst};
ghost use Rattle.spi_scope.specs.FaultPlaces.{StartsAt, span_from};
ghost use Rattle.spi_scope.specs.Scan.{kinds_in_scan, points_in_scan, file_scan};
ghost use Rattle.spi_scope.specs.Standing.{StandBehind};

/// The place of a tree's first fault is where a node or a word of the tree starts.
pub fn faults_stand_at_nodes()
    ensures { (tree : t.File) (fault : ScopeFault) → HasFirst tree fault → StartsAt tree (span_from fault) }
{}

/// The scan of a tree has each point right behind the token at which it stands: its tokens are those of the tree, and its
/// points are those of the tree in their order. At one token the fault with the lower number comes first.
pub fn points_stand_at_tokens()
    ensures tokens { (tree : t.File) → kinds_in_scan (file_scan tree) ≡ tokens_of tree }
    ensures points { (tree : t.File) → points_in_scan (file_scan tree) ≡ in_order (file_points tree) }
    ensures order { (tree : t.File) → StandBehind (file_scan tree) }
{}
