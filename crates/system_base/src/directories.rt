// The directories of a base.
ghost use Rattle.std.specs.Prelude.{◌≡◌, ◌||◌, ℕ, List as ListOf, IfOk, OnOk};
ghost use Rattle.std.specs.List.{list_any};
ghost use Rattle.system_base.specs.Bases.{is_directory, is_on_way, is_base_at, is_on_way_to, is_end_at, is_base};
ghost use Rattle.package_lists.specs.PathSets.{has};

use crate::base::{Base, KnownPath};
use feature_trees::Kinds;
use link_walks::{KnownLink, Reached, reach};
use package_lists::{PathSet, add_each, folders, path_text};
use script_names::{Memory, Path};
use std::alloc::Global;

/// The paths at which a directory of the base stands, those where its known links end, and those of the folders on the
/// way to one.
pub fn base_paths(alloc: Global, base: &Base) -> Result<PathSet, Memory>
    ensures { IfOk result (λ set. (path : ListOf ℕ) → has set path ≡ is_base base.now path) }
{
    let known = known_paths(alloc, base.known.as_slice())?;
    with_ends(alloc, known, base.links.as_slice())
}

// A set of paths with those where known links end, and the folders on the way there.
fn with_ends(alloc: Global, paths: PathSet, links: &[KnownLink]) -> Result<PathSet, Memory>
    ensures { IfOk result (λ set. (path : ListOf ℕ)
        → has set path ≡ (has paths path || list_any (is_end_at links.now path) links.now)) }
{
    let mut set = paths;
    for link in links {
        let end = reach(alloc, links, link.at(), true)?;
        add_end(alloc, &mut set, &end)?;
    }
    Ok(set)
}

// Adds where a known link ends, and the folders on the way there.
fn add_end(alloc: Global, set: &mut PathSet, end: &Reached) -> Result<(), Memory>
    ensures { OnOk result ((path : ListOf ℕ) → has set.new path ≡ (is_on_way_to path end.now || has set.old path)) }
{
    match end {
        Reached::At(path) => add_folder(alloc, set, path),
        Reached::Blocked(_) => Ok(()),
    }
}

// The directories among known paths.
fn known_paths(alloc: Global, known: &[KnownPath]) -> Result<PathSet, Memory>
    ensures { IfOk result (λ set. (path : ListOf ℕ) → has set path ≡ list_any (is_base_at path) known.now) }
{
    let mut set = PathSet::new(alloc);
    for one in known {
        add_known(alloc, &mut set, one)?;
    }
    Ok(set)
}

// Adds a path where a directory stands, and the folders on the way to it.
fn add_known(alloc: Global, set: &mut PathSet, known: &KnownPath) -> Result<(), Memory>
    ensures { OnOk result ((path : ListOf ℕ) → has set.new path ≡ (is_base_at path known.now || has set.old path)) }
{
    if !is_directory(known.kinds) {
        return Ok(());
    }
    add_folder(alloc, set, &known.path)
}

// Whether of these kinds a directory is the one.
fn is_directory(kinds: Kinds) -> bool
    ensures { result ≡ is_directory kinds }
{
    if kinds.fifo || kinds.socket || kinds.block || kinds.char {
        return false;
    }
    kinds.dir && !kinds.absent && !kinds.reg && !kinds.link
}

// Adds a path and the folders on the way to it.
fn add_folder(alloc: Global, set: &mut PathSet, end: &Path) -> Result<(), Memory>
    ensures { OnOk result ((path : ListOf ℕ) → has set.new path ≡ (is_on_way path end.now || has set.old path)) }
{
    let text = path_text(alloc, end.names())?;
    let above = folders(alloc, end.names())?;
    add_each(set, above.as_slice())?;
    set.add(text.as_slice())
}
