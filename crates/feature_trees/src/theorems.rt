//! What holds of puts and of equal trees, for the layers above.

ghost use Rattle.feature_trees.specs.Laws.{StandsWherePut, StandsElsewhere, StandsBelow, StandsAbove, PutsStaySound};
ghost use Rattle.feature_trees.specs.Laws.{EntriesDetermine};
ghost use Rattle.feature_trees.specs.TextLaws.{LinesStand, FirstFaults, TreesReadBack, FirstVersionSays};
ghost use Rattle.feature_trees.specs.TextLaws.{OldTreesReadBack};

/// A put changes what stands at its path, and what stands elsewhere stays.
pub fn puts_are_local()
    ensures same { StandsWherePut }
    ensures other { StandsElsewhere }
    ensures below { StandsBelow }
    ensures above { StandsAbove }
    ensures sound { PutsStaySound }
{}

/// A directory is the map of its entries: two with the same entry under every name are the same.
pub fn entries_determine()
    ensures { EntriesDetermine }
{}

/// The tree of a text is what its lines say, in whatever allowed order they stand; and a text that is no tree's is
/// refused for the first line that cannot stand behind those before it, for the least reason.
pub fn texts_are_trees()
    ensures stand { LinesStand }
    ensures faults { FirstFaults }
{}

/// The text of a tree is read as the tree, where no path of it has more than 4,096 names; so is the text of its lines as
/// the first version of reports has them, and each of these says what the tree's own line does.
pub fn trees_read_back()
    ensures now { TreesReadBack }
    ensures line { FirstVersionSays }
    ensures first { OldTreesReadBack }
{}
