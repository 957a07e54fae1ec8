ghost use Rattle.std.specs.Prelude.{◌≢◌, []};

use feature_trees::Value;
use script_names::{List, Mark, Path};
use utility_calls::deeds::Deed;

/// One step at a path of a run that may keep the tree.
#[derive(Clone, Copy, Debug)]
pub enum KeptStep {
    /// It is asked whether something stands there.
    Asks,
    /// A package manager places a file.
    Places,
    /// A package manager takes away what stands there, unless it is a directory.
    Discards,
    /// What stands there is taken away with all below it.
    Removes,
    /// The tree is kept as it is.
    Keeps,
    /// What stood there in the kept tree is put back.
    Returns,
}

/// A path with a name, and the steps that are done there, one after the other, on every tree.
#[derive(Drop)]
pub struct KeptPath {
    pub path: Path,
    pub steps: List<KeptStep>,
    ghost named: { path.names ≢ [] },
}

/// Where a run stands: its trees, and the marks and the deeds that were done.
#[derive(Drop)]
pub struct Standing {
    pub tree: Value,
    pub kept: Value,
    pub marks: List<Mark>,
    pub deeds: List<Deed>,
}
