//! What holds of paths in a package's files.

ghost use Rattle.package_lists.specs.Laws.{WritesBack};

/// A path is written in one way: the names that are read of a text are written as that text. So paths may be compared
/// as they are written.
pub fn paths_are_written_alike()
    ensures { WritesBack }
{}
