// What a package needs that an earlier removal took away.
ghost use Rattle.std.specs.Prelude.{◌≡◌, ◌&&◌, ◌++◌, ℕ, List as ListOf, IfOk, OnOk};
ghost use Rattle.std.specs.List.{flat_map};
ghost use Rattle.package_lists.specs.Entries.{is_folder, has_conf_below};
ghost use Rattle.package_lists.specs.PathSets.{has};
ghost use Rattle.package_lists.specs.Paths.{path_text as path_text_of};
ghost use Rattle.system_base.specs.Bases.{is_base};
ghost use Rattle.package_jobs.specs.Needed.{gone_needs, needs_gone, needs_removed};
ghost use Rattle.package_jobs.specs.StartTrees.{reaches_one, leads_to_base, is_left};

use crate::needs::{need_at, place_of};
use dpkg_scenarios::OwnFolders;
use feature_trees::{Kind, Kinds};
use link_walks::{Reached, reach};
use package_lists::{Entry, PathSet, conf_folders, has_entry, path_text};
use script_names::{List, Memory};
use start_trees::Need;
use std::alloc::Global;
use system_base::{Base, base_paths};

// Whether the path that is reached is in a set.
fn reaches_one(alloc: Global, set: &PathSet, reached: &Reached) -> Result<bool, Memory>
    ensures { IfOk result (λ answer. answer ≡ reaches_one (has set.now) reached.now) }
{
    match reached {
        Reached::Blocked(_) => Ok(false),
        Reached::At(path) => {
            let text = path_text(alloc, path.names())?;
            let answer = set.has(text.as_slice());
            Ok(answer)
        }
    }
}

// Whether the path of an entry is, or leads to, a directory of the base, of which `based` has the paths.
fn leads_to_base(alloc: Global, base: &Base, based: &PathSet, entry: &Entry) -> Result<bool, Memory>
    requires { (path : ListOf ℕ) → has based.now path ≡ is_base base.now path }
    ensures { IfOk result (λ answer. answer ≡ leads_to_base base.now entry.now.names) }
{
    let is_based = has_entry(alloc, based, entry)?;
    if is_based {
        return Ok(true);
    }
    let end = reach(alloc, base.links.as_slice(), entry.path(), true)?;
    reaches_one(alloc, based, &end)
}

// Whether an entry is a folder whose path is in a set.
fn is_folder_in(alloc: Global, set: &PathSet, entry: &Entry) -> Result<bool, Memory>
    ensures { let path = path_text_of entry.now.names in
        IfOk result (λ answer. answer ≡ (is_folder entry.now.kind && has set.now path)) }
{
    if !entry.kind().is_folder() {
        return Ok(false);
    }
    has_entry(alloc, set, entry)
}

// Whether a removal leaves an entry, from the directories of the base and the paths that have a configuration file below
// them.
fn is_left(
    alloc: Global,
    base: &Base,
    based: &PathSet,
    above: &PathSet,
    entry: &Entry,
) -> Result<bool, Memory>
    requires { (path : ListOf ℕ) → has based.now path ≡ is_base base.now path }
    ensures { IfOk result (λ answer. answer ≡ is_left base.now (has above.now) entry.now) }
{
    if entry.kind().is_conf() {
        return Ok(true);
    }
    let has_conf = is_folder_in(alloc, above, entry)?;
    if has_conf {
        return Ok(true);
    }
    leads_to_base(alloc, base, based, entry)
}

// Adds what an entry needs that a removal took away, unless it leaves it.
fn add_gone_entry(
    alloc: Global,
    needs: &mut List<Need>,
    base: &Base,
    based: &PathSet,
    above: &PathSet,
    entry: &Entry,
) -> Result<(), Memory>
    requires { (path : ListOf ℕ) → has based.now path ≡ is_base base.now path }
    ensures { OnOk result (needs.new ≡ needs.old ++ gone_needs base.now (has above.now) entry.now) }
{
    let stays = is_left(alloc, base, based, above, entry)?;
    if stays {
        return Ok(());
    }
    let place = place_of(alloc, base.links.as_slice(), entry)?;
    needs.add(need_at(place, Kinds::of(Kind::Absent)))
}

// Adds what the entries need that a removal took away, but those that it leaves.
fn add_gone_entries(
    alloc: Global,
    needs: &mut List<Need>,
    base: &Base,
    new: &[Entry],
) -> Result<(), Memory>
    ensures { OnOk result (needs.new ≡ needs.old ++ flat_map (gone_needs base.now (has_conf_below new.now)) new.now) }
{
    let based = base_paths(alloc, base)?;
    let above = conf_folders(alloc, new)?;
    for entry in new {
        add_gone_entry(alloc, needs, base, &based, &above, entry)?;
    }
    Ok(())
}

/// Adds what is needed of a package that an earlier removal took away, where the base says `removed`.
pub fn add_gone(
    alloc: Global,
    needs: &mut List<Need>,
    own: OwnFolders,
    base: &Base,
    new: &[Entry],
) -> Result<(), Memory>
    ensures { OnOk result (needs.new ≡ needs.old ++ needs_removed own base.now new.now) }
{
    if !base.removed {
        return Ok(());
    }
    match own {
        OwnFolders::Left => add_gone_entries(alloc, needs, base, new),
        OwnFolders::NoFolder | OwnFolders::Dropped | OwnFolders::Standing => Ok(()),
    }
}
