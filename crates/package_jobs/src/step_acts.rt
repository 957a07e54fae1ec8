ghost use Rattle.std.specs.Prelude.{◌≡◌, ◌≤◌, ◌+◌, ◌*◌, ◌++◌, ℕ, List as ListOf, length, map, reverse, All, IfOk};
ghost use Rattle.std.specs.Prelude.{OnOk};
ghost use Rattle.std.specs.List.{flat_map};
ghost use Rattle.utility_calls.specs.Acts.{IsPerformed};
ghost use Rattle.scenario_runs.specs.Acts.{HasName};
ghost use Rattle.system_base.specs.Bases.{is_base};
ghost use Rattle.package_jobs.specs.FileActs.{unpacked, folder_gone, removed};
ghost use Rattle.package_jobs.specs.FileActs.{removed_old, conf_gone, dir_gone, acts_of, IsOfPackage};
ghost use Rattle.package_lists.specs.Paths.{path_text as path_text_of};
ghost use Rattle.package_lists.specs.PathSets.{has};

use dpkg_scenarios::{NewEntries, Scenario, StepWork, columns_of};
use package_lists::{
    Entry, EntryKind, PathSet, Which, entries_are_named, has_entry, is_one_of, paths_of,
};
use script_names::{Copied, List, Memory};
use std::alloc::Global;
use system_base::Base;
use utility_calls::acts::Act;

/// The acts of a step of a scenario that places or takes away files, in order, from the entries of the new and of the
/// old package and from the base, of which `kept` has the directories (Debian Policy, 6.6 and 6.8); their paths are
/// those that are listed, and no known link is followed. Entries are placed
/// in the order of the list, and taken away from the last one to the first; a directory of the base is not taken away.
/// A step that calls a script has no acts, nor has one that puts back what was placed. Each act can be done on every
/// tree, and its path has a name; there are at most two for each entry.
pub fn file_acts(
    alloc: Global,
    scenario: Scenario,
    work: StepWork,
    new: &List<Entry>,
    old: &List<Entry>,
    base: &Base,
    kept: &PathSet,
) -> Result<List<Act>, Memory>
    requires { (path : ListOf ℕ) → has kept.now path ≡ is_base base.now path }
    ensures acts { IfOk result (λ acts. acts ≡ acts_of scenario work new.now old.now base.now) }
    ensures performed { IfOk result (λ acts. All IsPerformed acts) }
    ensures named { IfOk result (λ acts. All HasName acts) }
    ensures of_package { IfOk result (λ acts. All IsOfPackage acts) }
    ensures few { IfOk result (λ acts. length acts ≤ 2 * (length new.now + length old.now)) }
{
    entries_are_named(new.as_slice());
    entries_are_named(old.as_slice());
    let acts = acts_of_step(alloc, scenario, work, new, old, base, kept)?;
    Ok(acts)
}

// The acts of a step of a scenario that places or takes away files.
fn acts_of_step(
    alloc: Global,
    scenario: Scenario,
    work: StepWork,
    new: &List<Entry>,
    old: &List<Entry>,
    base: &Base,
    kept: &PathSet,
) -> Result<List<Act>, Memory>
    requires { (path : ListOf ℕ) → has kept.now path ≡ is_base base.now path }
    ensures { IfOk result (λ acts. acts ≡ acts_of scenario work new.now old.now base.now) }
{
    match work {
        StepWork::Script { .. } => Ok(List::new(alloc)),
        StepWork::Restore => Ok(List::new(alloc)),
        StepWork::Unpack => {
            let conffiles = paths_of(alloc, Which::Conffiles, old.as_slice())?;
            let placed = columns_of(scenario).conffiles;
            unpack(alloc, placed, &conffiles, new.as_slice())
        }
        StepWork::RemoveFiles => {
            let back = from_last(alloc, new.as_slice())?;
            remove(alloc, kept, back.as_slice())
        }
        StepWork::RemoveOld => {
            let listed = paths_of(alloc, Which::All, new.as_slice())?;
            let back = from_last(alloc, old.as_slice())?;
            remove_old(alloc, &listed, kept, back.as_slice())
        }
        StepWork::RemoveConf => {
            let back = from_last(alloc, new.as_slice())?;
            remove_conf(alloc, kept, back.as_slice())
        }
    }
}

// The acts that place entries, of the configuration files those that are `placed`, from those of the old package.
fn unpack(
    alloc: Global,
    placed: NewEntries,
    old: &PathSet,
    entries: &[Entry],
) -> Result<List<Act>, Memory>
    ensures { IfOk result (λ acts. acts ≡ flat_map (unpacked placed (has old.now)) entries.now) }
{
    let mut acts = List::new(alloc);
    for entry in entries {
        add_placing(alloc, &mut acts, placed, old, entry)?;
    }
    Ok(acts)
}

// Adds the act that places an entry.
fn add_placing(
    alloc: Global,
    acts: &mut List<Act>,
    placed: NewEntries,
    old: &PathSet,
    entry: &Entry,
) -> Result<(), Memory>
    ensures { OnOk result (acts.new ≡ acts.old ++ unpacked placed (has old.now) entry.now) }
{
    let path = entry.path().copy(alloc)?;
    match entry.kind() {
        EntryKind::Folder => acts.add(Act::EnsureDir(path)),
        EntryKind::File => acts.add(Act::PlaceFile(path)),
        EntryKind::LinkTo(target) => {
            let target = target.copy(alloc)?;
            acts.add(Act::PlaceLink { p: path, target })
        }
        EntryKind::Conf => {
            let is_placed = is_one_of(alloc, placed, old, entry)?;
            if !is_placed {
                return Ok(());
            }
            acts.add(Act::PlaceConf(path))
        }
    }
}

// The entries from the last to the first.
fn from_last(alloc: Global, entries: &[Entry]) -> Result<Vec<&Entry>, Memory>
    ensures { IfOk result (λ back. map (λ entry. entry.now) back.items ≡ reverse entries.now) }
{
    let back = entries.iter().rev().collect(alloc)?;
    Ok(back)
}

// The acts that take entries away which are no configuration files.
fn remove(alloc: Global, kept: &PathSet, entries: &[&Entry]) -> Result<List<Act>, Memory>
    ensures { let all = map (λ entry. entry.now) entries.now in
        IfOk result (λ acts. acts ≡ flat_map (removed (has kept.now)) all) }
{
    let mut acts = List::new(alloc);
    for entry in entries {
        add_removing(alloc, &mut acts, kept, entry)?;
    }
    Ok(acts)
}

// Adds the act that takes an entry away which is no configuration file.
fn add_removing(
    alloc: Global,
    acts: &mut List<Act>,
    kept: &PathSet,
    entry: &Entry,
) -> Result<(), Memory>
    ensures { OnOk result (acts.new ≡ acts.old ++ removed (has kept.now) entry.now) }
{
    match entry.kind() {
        EntryKind::Conf => Ok(()),
        EntryKind::Folder => add_folder_gone(alloc, acts, kept, entry),
        EntryKind::File => acts.add(Act::Discard(entry.path().copy(alloc)?)),
        EntryKind::LinkTo(_) => acts.add(Act::Discard(entry.path().copy(alloc)?)),
    }
}

// Adds the act that takes a directory away, unless it is one of the base.
fn add_folder_gone(
    alloc: Global,
    acts: &mut List<Act>,
    kept: &PathSet,
    entry: &Entry,
) -> Result<(), Memory>
    ensures { let kept = has kept.now (path_text_of entry.now.names) in
        OnOk result (acts.new ≡ acts.old ++ folder_gone kept entry.now.names) }
{
    let is_kept = has_entry(alloc, kept, entry)?;
    if is_kept {
        return Ok(());
    }
    let path = entry.path().copy(alloc)?;
    acts.add(Act::DiscardDir(path))
}

// The acts that take the old package's entries away which the new one does not list.
fn remove_old(
    alloc: Global,
    listed: &PathSet,
    kept: &PathSet,
    entries: &[&Entry],
) -> Result<List<Act>, Memory>
    ensures { let old = map (λ entry. entry.now) entries.now in
        IfOk result (λ acts. acts ≡ flat_map (removed_old (has listed.now) (has kept.now)) old) }
{
    let mut acts = List::new(alloc);
    for entry in entries {
        add_removing_old(alloc, &mut acts, listed, kept, entry)?;
    }
    Ok(acts)
}

// Adds the act that takes an entry of the old package away, unless the new one lists its path.
fn add_removing_old(
    alloc: Global,
    acts: &mut List<Act>,
    listed: &PathSet,
    kept: &PathSet,
    entry: &Entry,
) -> Result<(), Memory>
    ensures { OnOk result (acts.new ≡ acts.old ++ removed_old (has listed.now) (has kept.now) entry.now) }
{
    let is_listed = has_entry(alloc, listed, entry)?;
    if is_listed {
        return Ok(());
    }
    add_removing(alloc, acts, kept, entry)
}

// The acts that take the configuration files away, and then the directories.
fn remove_conf(alloc: Global, kept: &PathSet, entries: &[&Entry]) -> Result<List<Act>, Memory>
    ensures { let all = map (λ entry. entry.now) entries.now in
        IfOk result (λ acts. acts ≡ flat_map conf_gone all ++ flat_map (dir_gone (has kept.now)) all) }
{
    let mut acts = List::new(alloc);
    for entry in entries {
        add_conf_gone(alloc, &mut acts, entry)?;
    }
    add_dirs_gone(alloc, &mut acts, kept, entries)?;
    Ok(acts)
}

// Adds the act that takes an entry away, if it is a configuration file.
fn add_conf_gone(alloc: Global, acts: &mut List<Act>, entry: &Entry) -> Result<(), Memory>
    ensures { OnOk result (acts.new ≡ acts.old ++ conf_gone entry.now) }
{
    if !entry.kind().is_conf() {
        return Ok(());
    }
    acts.add(Act::Discard(entry.path().copy(alloc)?))
}

// Adds the acts that take the directories away, but those of the base.
fn add_dirs_gone(
    alloc: Global,
    acts: &mut List<Act>,
    kept: &PathSet,
    entries: &[&Entry],
) -> Result<(), Memory>
    ensures { let all = map (λ entry. entry.now) entries.now in
        OnOk result (acts.new ≡ acts.old ++ flat_map (dir_gone (has kept.now)) all) }
{
    for entry in entries {
        add_dir_gone(alloc, acts, kept, entry)?;
    }
    Ok(())
}

// Adds the act that takes an entry away, if it is a directory and none of the base.
fn add_dir_gone(
    alloc: Global,
    acts: &mut List<Act>,
    kept: &PathSet,
    entry: &Entry,
) -> Result<(), Memory>
    ensures { OnOk result (acts.new ≡ acts.old ++ dir_gone (has kept.now) entry.now) }
{
    match entry.kind() {
        EntryKind::Folder => add_folder_gone(alloc, acts, kept, entry),
        EntryKind::File => Ok(()),
        EntryKind::Conf => Ok(()),
        EntryKind::LinkTo(_) => Ok(()),
    }
}
