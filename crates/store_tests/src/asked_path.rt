ghost use Rattle.std.specs.Prelude.{◌≢◌, []};

use script_names::{List, Path};

/// A path with a name, which is asked for and then made as a directory, on every tree.
#[derive(Drop)]
pub struct AskedPath {
    pub path: Path,
    ghost named: { path.names ≢ [] },
}

/// Paths that are asked for one after the other.
#[derive(Drop)]
pub struct AskedPaths {
    pub paths: List<Path>,
}
