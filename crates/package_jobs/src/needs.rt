ghost use Rattle.std.specs.Prelude.{◌≡◌, ◌↔◌, ◌++◌, ◌∷◌, [], map, IfOk, OnOk};
ghost use Rattle.std.specs.List.{flat_map};
ghost use Rattle.feature_trees.specs.declared.value.Value.{Value};
ghost use Rattle.feature_trees.specs.Kinds.{but, two};
ghost use Rattle.start_trees.specs.Needs.{IsStart};
ghost use Rattle.package_lists.specs.PathSets.{has};
ghost use Rattle.package_jobs.specs.Needed.{kinds_asked, need_at, entry_need, known_need, link_needs, kept_needs};
ghost use Rattle.package_jobs.specs.Needed.{needs_before, fit_needs, needs_to_fit};
ghost use Rattle.package_jobs.specs.StartTrees.{place_of, IsStartTree};
ghost use Rattle.start_trees.specs.declared.need.Wanted.TheVariants as Wanted;

use crate::gone_needs::add_gone;
use crate::own_needs::add_owns;
use crate::plain_needs::add_plain;
use crate::sides::old_package;
use checker_input::Packages;
use dpkg_scenarios::{Before, NewEntries, Scenario, columns_of};
use feature_trees::{Kind, Kinds};
use link_walks::{KnownLink, Reached, reach};
use package_lists::{Entry, EntryKind, PathSet, Which, is_one_of, paths_of};
use script_names::{Bytes, Copied, List, Memory, Path};
use start_trees::{Need, Wanted};
use std::alloc::Global;
use system_base::{Base, KnownPath};

// What is asked of what stands where an entry is: what stands there where the package is in place, or what the entry
// fits.
#[derive(Clone, Copy)]
pub enum Asked {
    Placed,
    Fit,
}

// Every kind but a directory.
fn no_folder() -> Kinds
    ensures { result ≡ but Kind.Dir }
{
    Kinds::but(Kind::Dir)
}

/// Nothing, or something of this kind.
pub fn absent_or(kind: Kind) -> Kinds
    ensures { result ≡ two Kind.Absent kind }
{
    Kinds::either(Kinds::of(Kind::Absent), Kinds::of(kind))
}

// The kinds that may stand where an entry of this kind is.
fn kinds_asked(asked: Asked, kind: &EntryKind) -> Kinds
    ensures { result ≡ kinds_asked asked kind.now }
{
    match asked {
        Asked::Placed => match kind {
            EntryKind::Folder => Kinds::of(Kind::Dir),
            EntryKind::File | EntryKind::Conf | EntryKind::LinkTo(_) => no_folder(),
        },
        Asked::Fit => match kind {
            EntryKind::Folder => absent_or(Kind::Dir),
            EntryKind::Conf => absent_or(Kind::Reg),
            EntryKind::File | EntryKind::LinkTo(_) => no_folder(),
        },
    }
}

/// Where the path of an entry leads: that of a folder along a link at its last name too, any other not.
pub fn place_of(alloc: Global, links: &[KnownLink], entry: &Entry) -> Result<Reached, Memory>
    ensures { IfOk result (λ place. place ≡ place_of links.now entry.now) }
{
    let is_folder = entry.kind().is_folder();
    reach(alloc, links, entry.path(), is_folder)
}

/// The need of these kinds where a path leads; where it is blocked, of no kind at the link that blocks it.
pub fn need_at(reached: Reached, kinds: Kinds) -> Need
    ensures { result ≡ need_at reached kinds }
{
    match reached {
        Reached::At(path) => Need {
            path,
            wanted: Wanted::Kinds(kinds),
        },
        Reached::Blocked(path) => Need {
            path,
            wanted: Wanted::Kinds(Kinds::NONE),
        },
    }
}

// Adds what an entry needs.
fn add_entry(
    alloc: Global,
    needs: &mut List<Need>,
    asked: Asked,
    links: &[KnownLink],
    entry: &Entry,
) -> Result<(), Memory>
    ensures { OnOk result (needs.new ≡ needs.old ++ entry_need asked links.now entry.now ∷ []) }
{
    let kinds = kinds_asked(asked, entry.kind());
    let place = place_of(alloc, links, entry)?;
    needs.add(need_at(place, kinds))
}

// Adds what each of these entries needs.
fn add_entries(
    alloc: Global,
    needs: &mut List<Need>,
    asked: Asked,
    links: &[KnownLink],
    entries: &[Entry],
) -> Result<(), Memory>
    ensures { OnOk result (needs.new ≡ needs.old ++ map (entry_need asked links.now) entries.now) }
{
    for entry in entries {
        add_entry(alloc, needs, asked, links, entry)?;
    }
    Ok(())
}

/// Adds the need of these kinds at a path.
pub fn add_kinds(
    alloc: Global,
    needs: &mut List<Need>,
    path: &Path,
    kinds: Kinds,
) -> Result<(), Memory>
    ensures { OnOk result (needs.new
        ≡ needs.old ++ record { path = path.now; wanted = Wanted.Kinds kinds } ∷ []) }
{
    let path = path.copy(alloc)?;
    needs.add(Need {
        path,
        wanted: Wanted::Kinds(kinds),
    })
}

/// Adds what is known of these paths.
pub fn add_known(alloc: Global, needs: &mut List<Need>, known: &[KnownPath]) -> Result<(), Memory>
    ensures { OnOk result (needs.new ≡ needs.old ++ map known_need known.now) }
{
    for one in known {
        add_kinds(alloc, needs, &one.path, one.kinds)?;
    }
    Ok(())
}

// Adds the need of a link to a target at a path.
fn add_target(
    alloc: Global,
    needs: &mut List<Need>,
    path: &Path,
    target: &[u8],
) -> Result<(), Memory>
    ensures { OnOk result (needs.new
        ≡ needs.old ++ record { path = path.now; wanted = Wanted.Target target.now } ∷ []) }
{
    let path = path.copy(alloc)?;
    let target = Bytes::from_slice(alloc, target)?;
    needs.add(Need {
        path,
        wanted: Wanted::Target(target),
    })
}

// Adds what is needed of a known link.
fn add_link(
    alloc: Global,
    needs: &mut List<Need>,
    links: &[KnownLink],
    link: &KnownLink,
) -> Result<(), Memory>
    ensures { OnOk result (needs.new ≡ needs.old ++ link_needs links.now link.now) }
{
    add_target(alloc, needs, link.at(), link.target())?;
    let end = reach(alloc, links, link.at(), true)?;
    needs.add(need_at(end, Kinds::of(Kind::Dir)))
}

// Adds what is needed of the known links.
fn add_links(alloc: Global, needs: &mut List<Need>, links: &[KnownLink]) -> Result<(), Memory>
    ensures { OnOk result (needs.new ≡ needs.old ++ flat_map (link_needs links.now) links.now) }
{
    for link in links {
        add_link(alloc, needs, links, link)?;
    }
    Ok(())
}

// Adds what is needed of the base's paths and links.
fn add_base(alloc: Global, needs: &mut List<Need>, base: &Base) -> Result<(), Memory>
    ensures { OnOk result (needs.new ≡ needs.old
        ++ (map known_need base.now.known ++ flat_map (link_needs base.now.links) base.now.links)) }
{
    add_known(alloc, needs, base.known.as_slice())?;
    add_links(alloc, needs, base.links.as_slice())
}

// Adds what an entry needs to be placed, if it is a configuration file.
fn add_kept(
    alloc: Global,
    needs: &mut List<Need>,
    links: &[KnownLink],
    entry: &Entry,
) -> Result<(), Memory>
    ensures { OnOk result (needs.new ≡ needs.old ++ kept_needs links.now entry.now) }
{
    if !entry.kind().is_conf() {
        return Ok(());
    }
    add_entry(alloc, needs, Asked::Placed, links, entry)
}

// Adds what the configuration files among these entries need to be placed.
fn add_kept_entries(
    alloc: Global,
    needs: &mut List<Need>,
    links: &[KnownLink],
    entries: &[Entry],
) -> Result<(), Memory>
    ensures { OnOk result (needs.new ≡ needs.old ++ flat_map (kept_needs links.now) entries.now) }
{
    for entry in entries {
        add_kept(alloc, needs, links, entry)?;
    }
    Ok(())
}

// Adds what is needed of the files that are there before the scenario.
fn add_before(
    alloc: Global,
    needs: &mut List<Need>,
    before: Before,
    links: &[KnownLink],
    new: &[Entry],
    old: &[Entry],
) -> Result<(), Memory>
    ensures { OnOk result (needs.new ≡ needs.old ++ needs_before before links.now new.now old.now) }
{
    match before {
        Before::NotInstalled => Ok(()),
        Before::ConfigFiles => add_kept_entries(alloc, needs, links, new),
        Before::Installed => add_entries(alloc, needs, Asked::Placed, links, new),
        Before::OldInstalled => add_entries(alloc, needs, Asked::Placed, links, old),
    }
}

// Adds what an entry of the new package needs to fit, if it has to, from the paths that the old package lists.
fn add_fit(
    alloc: Global,
    needs: &mut List<Need>,
    which: NewEntries,
    listed: &PathSet,
    links: &[KnownLink],
    entry: &Entry,
) -> Result<(), Memory>
    ensures { OnOk result (needs.new ≡ needs.old ++ fit_needs which (has listed.now) links.now entry.now) }
{
    let has_to = is_one_of(alloc, which, listed, entry)?;
    if !has_to {
        return Ok(());
    }
    add_entry(alloc, needs, Asked::Fit, links, entry)
}

// Adds what the new package's entries need to fit, where the base says `fits`.
fn add_fits(
    alloc: Global,
    needs: &mut List<Need>,
    which: NewEntries,
    base: &Base,
    new: &[Entry],
    old: &[Entry],
) -> Result<(), Memory>
    ensures { OnOk result (needs.new ≡ needs.old ++ needs_to_fit which base.now new.now old.now) }
{
    if !base.fits {
        return Ok(());
    }
    let listed = paths_of(alloc, Which::All, old)?;
    let links = base.links.as_slice();
    for entry in new {
        add_fit(alloc, needs, which, &listed, links, entry)?;
    }
    Ok(())
}

/// What is needed of a tree that a scenario may begin from, a need for each path that something is known of. The trees
/// that have what is needed are the scenario's start trees. The one fault is want of memory.
pub fn needs_of(
    alloc: Global,
    scenario: Scenario,
    packages: &Packages,
) -> Result<List<Need>, Memory>
    ensures { IfOk result (λ needs. (tree : Value) → IsStart needs tree ↔ IsStartTree scenario packages.now tree) }
{
    let base = &packages.base;
    let new = packages.new_package.entries.as_slice();
    let old = old_package(packages).entries.as_slice();
    let columns = columns_of(scenario);
    let mut needs = List::new(alloc);
    add_base(alloc, &mut needs, base)?;
    add_before(
        alloc,
        &mut needs,
        columns.before,
        base.links.as_slice(),
        new,
        old,
    )?;
    add_fits(alloc, &mut needs, columns.fits, base, new, old)?;
    add_owns(alloc, &mut needs, columns.own, base, new, old)?;
    add_gone(alloc, &mut needs, columns.own, base, new)?;
    add_plain(alloc, &mut needs, columns, packages)?;
    Ok(needs)
}
