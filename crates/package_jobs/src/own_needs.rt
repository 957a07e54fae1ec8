// What the folders of a package need that hold no foreign entry.
ghost use Rattle.std.specs.Prelude.{◌≡◌, ◌≤◌, ◌++◌, ◌∷◌, [], false, length, IfOk, OnOk};
ghost use Rattle.std.specs.List.{flat_map};
ghost use Rattle.package_lists.specs.FolderNames.{names_at};
ghost use Rattle.package_lists.specs.PathSets.{has};
ghost use Rattle.package_jobs.specs.Needed.{kinds_owned, names_need, folder_needs, own_needs, needs_to_own};
ghost use Rattle.package_lists.specs.Paths.{path_text as path_text_of, plain_path};
ghost use Rattle.link_walks.specs.Reaching.{reach as reach_of};
ghost use Rattle.package_jobs.specs.Owning.{GoesBy};
ghost use Rattle.package_jobs.specs.StartTrees.{owner, is_own_folder, is_to_own, reached_path, places_to, entry_places};

use crate::needs::{absent_or, add_kinds, place_of};
use dpkg_scenarios::OwnFolders;
use feature_trees::Kind;
use link_walks::{KnownLink, Reached, reach};
use package_lists::{
    Entry, FolderNames, PathSet, Which, has_entry, is_within, path_text, paths_of,
};
use script_names::{Copied, List, MAX_NAMES, Memory, Name, Path};
use start_trees::{Need, Wanted};
use std::alloc::Global;
use system_base::{Base, base_paths};

// The entries of the package that `own` speaks of.
fn owner<'a>(own: OwnFolders, new: &'a [Entry], old: &'a [Entry]) -> &'a [Entry]
    ensures { result.now ≡ owner own new.now old.now }
{
    match own {
        OwnFolders::Dropped => old,
        OwnFolders::NoFolder | OwnFolders::Standing | OwnFolders::Left => new,
    }
}

// Whether an entry is a folder at one of these paths, or below one.
fn is_own_folder(alloc: Global, paths: &PathSet, entry: &Entry) -> Result<bool, Memory>
    ensures { IfOk result (λ answer. answer ≡ is_own_folder (has paths.now) entry.now) }
{
    if !entry.kind().is_folder() {
        return Ok(false);
    }
    is_within(alloc, paths, entry.path().names())
}

// Whether `own` speaks of an entry, from the paths that `own` lines name and those that the new package lists.
fn is_to_own(
    alloc: Global,
    own: OwnFolders,
    paths: &PathSet,
    listed: &PathSet,
    entry: &Entry,
) -> Result<bool, Memory>
    ensures { IfOk result (λ answer. answer ≡ is_to_own own (has paths.now) (has listed.now) entry.now) }
{
    match own {
        OwnFolders::NoFolder => Ok(false),
        OwnFolders::Dropped => {
            let is_folder = is_own_folder(alloc, paths, entry)?;
            let is_listed = has_entry(alloc, listed, entry)?;
            Ok(is_folder & !is_listed)
        }
        OwnFolders::Standing | OwnFolders::Left => is_own_folder(alloc, paths, entry),
    }
}

// Adds the need of the kinds that may stand at a path where a folder is that holds no foreign entry.
fn add_kinds_owned(
    alloc: Global,
    needs: &mut List<Need>,
    own: OwnFolders,
    path: &Path,
) -> Result<(), Memory>
    ensures { OnOk result (needs.new ≡ needs.old ++ kinds_owned own path.now) }
{
    match own {
        OwnFolders::Left => add_kinds(alloc, needs, path, absent_or(Kind::Dir)),
        OwnFolders::NoFolder | OwnFolders::Dropped | OwnFolders::Standing => Ok(()),
    }
}

// What `own` goes by: the paths that its lines name, those that the new package lists, the directories of the base, and
// the names below each path.
#[derive(Drop)]
pub struct Owning {
    paths: PathSet,
    listed: PathSet,
    based: PathSet,
    names: FolderNames,
}

// Adds what is needed at a path where a folder is that holds no foreign entry.
fn add_names(
    alloc: Global,
    needs: &mut List<Need>,
    own: OwnFolders,
    names: &FolderNames,
    path: Path,
) -> Result<(), Memory>
    ensures { OnOk result (needs.new ≡ needs.old
        ++ (kinds_owned own path ++ names_need path (names_at names.now (path_text_of path.names)) ∷ [])) }
{
    add_kinds_owned(alloc, needs, own, &path)?;
    let below = names.below(&path)?;
    needs.add(Need {
        path,
        wanted: Wanted::Names(below),
    })
}

// Adds what is needed where a folder leads that holds no foreign entry.
fn add_folder(
    alloc: Global,
    needs: &mut List<Need>,
    own: OwnFolders,
    owning: &Owning,
    place: Reached,
) -> Result<(), Memory>
    ensures { let by = owning.now in
        OnOk result (needs.new ≡ needs.old ++ folder_needs own (has by.based) (names_at by.names) place) }
{
    match place {
        Reached::Blocked(_) => Ok(()),
        Reached::At(path) => {
            let text = path_text(alloc, path.names())?;
            let is_based = owning.based.has(text.as_slice());
            if is_based {
                return Ok(());
            }
            add_names(alloc, needs, own, &owning.names, path)
        }
    }
}

// Adds what an entry needs by `own`, if it speaks of it.
fn add_own(
    alloc: Global,
    needs: &mut List<Need>,
    own: OwnFolders,
    owning: &Owning,
    links: &[KnownLink],
    entry: &Entry,
) -> Result<(), Memory>
    ensures { let by = owning.now in OnOk result (needs.new ≡ needs.old
        ++ own_needs own (has by.paths) (has by.listed) (has by.based) (names_at by.names) links.now entry.now) }
{
    let is_owned = is_to_own(alloc, own, &owning.paths, &owning.listed, entry)?;
    if !is_owned {
        return Ok(());
    }
    let place = place_of(alloc, links, entry)?;
    add_folder(alloc, needs, own, owning, place)
}

// Adds what these entries need by `own`.
fn add_own_entries(
    alloc: Global,
    needs: &mut List<Need>,
    own: OwnFolders,
    owning: &Owning,
    links: &[KnownLink],
    entries: &[Entry],
) -> Result<(), Memory>
    ensures { let by = owning.now in
        let needed = own_needs own (has by.paths) (has by.listed) (has by.based) (names_at by.names) links.now in
        OnOk result (needs.new ≡ needs.old ++ flat_map needed entries.now) }
{
    for entry in entries {
        add_own(alloc, needs, own, owning, links, entry)?;
    }
    Ok(())
}

// Adds where a path leads that is followed along no link at its last name, if it is not blocked.
fn add_place(
    alloc: Global,
    places: &mut List<Path>,
    links: &[KnownLink],
    path: &Path,
) -> Result<(), Memory>
    ensures { OnOk result (places.new ≡ places.old ++ reached_path (reach_of links.now false path.now)) }
{
    match reach(alloc, links, path, false)? {
        Reached::At(path) => places.add(path),
        Reached::Blocked(_) => Ok(()),
    }
}

// The path of these names.
fn path_of(alloc: Global, names: &[Name]) -> Result<Path, Memory>
    requires { length names.now ≤ MAX_NAMES }
    ensures { IfOk result (λ path. path ≡ plain_path names.now) }
{
    let names = List::copies(alloc, names)?;
    Ok(Path::new(names, false))
}

// Adds where a path leads, and each folder on the way to it.
fn add_places(
    alloc: Global,
    places: &mut List<Path>,
    links: &[KnownLink],
    path: &Path,
) -> Result<(), Memory>
    ensures { OnOk result
        (places.new ≡ places.old ++ places_to links.now path.now.names (length path.now.names)) }
{
    let names = path.names();
    for count in 0..names.len() {
        let way = path_of(alloc, &names[..count + 1])?;
        add_place(alloc, places, links, &way)?;
    }
    Ok(())
}

// Where the paths of entries lead, and the folders on the way to them.
fn entry_places(alloc: Global, links: &[KnownLink], entries: &[Entry]) -> Result<List<Path>, Memory>
    ensures { IfOk result (λ places. places ≡ entry_places links.now entries.now) }
{
    let mut places = List::new(alloc);
    for entry in entries {
        add_places(alloc, &mut places, links, entry.path())?;
    }
    Ok(places)
}

// What `own` goes by for these entries, which are of the package that it speaks of.
fn owning_of(alloc: Global, base: &Base, new: &[Entry], entries: &[Entry]) -> Result<Owning, Memory>
    ensures { IfOk result (GoesBy base.now new.now entries.now) }
{
    let places = entry_places(alloc, base.links.as_slice(), entries)?;
    let paths = PathSet::of(alloc, base.own.as_slice())?;
    let listed = paths_of(alloc, Which::All, new)?;
    let based = base_paths(alloc, base)?;
    let names = FolderNames::of(alloc, places.as_slice())?;
    Ok(Owning {
        paths,
        listed,
        based,
        names,
    })
}

/// Adds what the package's folders need to hold no foreign entry, as far as the base says `own`.
pub fn add_owns(
    alloc: Global,
    needs: &mut List<Need>,
    own: OwnFolders,
    base: &Base,
    new: &[Entry],
    old: &[Entry],
) -> Result<(), Memory>
    ensures { OnOk result (needs.new ≡ needs.old ++ needs_to_own own base.now new.now old.now) }
{
    if base.own.as_slice().is_empty() {
        return Ok(());
    }
    let entries = owner(own, new, old);
    let owning = owning_of(alloc, base, new, entries)?;
    add_own_entries(alloc, needs, own, &owning, base.links.as_slice(), entries)
}
