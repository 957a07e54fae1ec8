// What is known of the paths that settled commands name, if each is of the sort that its command takes.
ghost use Rattle.std.specs.Prelude.{◌≡◌, ◌≤◌, ◌++◌, ◌-◌, length, take, IfOk, OnOk};
ghost use Rattle.std.specs.List.{flat_map};
ghost use Rattle.std.specs.Option.{option_copied};
ghost use Rattle.package_lists.specs.Paths.{plain_path};
ghost use Rattle.settled_commands.specs.Sorts.{changed, no_file, no_folder, kinds_taken, second_path, ways_to};
ghost use Rattle.settled_commands.specs.Sorts.{way_known, end_known, second_known, act_known};
ghost use Rattle.settled_commands.specs.Sorts.{command_known, sorts_known};

use feature_trees::{Kind, Kinds};
use link_walks::{KnownLink, Reached, reach};
use script_names::{Bytes, Copied, List, Memory, Path};
use std::alloc::Global;
use system_base::{Base, KnownPath};
use utility_calls::acts::Act;
use utility_calls::calls::{Planned, plan};

/// Adds what is known of the paths of the changes among these commands, each given as its fields, if what stands there
/// is of the sort that the command takes: on the way to a path of an act neither a regular file nor one of the special
/// kinds; no directory where one file is taken away; neither a directory nor one of the special kinds where a file is
/// made; and neither a regular file nor one of the special kinds where a directory is made or taken away. Of stated
/// calls nothing is known. Paths are taken along the known links without their last name.
pub fn add_sorts(
    alloc: Global,
    known: &mut List<KnownPath>,
    base: &Base,
    commands: &[List<Bytes>],
) -> Result<(), Memory>
    ensures { OnOk result (known.new ≡ known.old ++ sorts_known base.now commands.now) }
{
    for fields in commands {
        add_command(alloc, known, base, fields)?;
    }
    Ok(())
}

// Adds what is known by a command with these fields.
fn add_command(
    alloc: Global,
    known: &mut List<KnownPath>,
    base: &Base,
    fields: &List<Bytes>,
) -> Result<(), Memory>
    ensures { OnOk result (known.new ≡ known.old ++ command_known base.now fields.now) }
{
    match fields.as_slice() {
        [] => Ok(()),
        [name, ..] => {
            match base.calls.find(name.as_slice()) {
                Some(_) => Ok(()),
                None => {
                    let planned = plan(alloc, fields)?;
                    add_planned(alloc, known, base.links.as_slice(), &planned)
                }
            }
        }
    }
}

// Adds what is known by a planned call.
fn add_planned(
    alloc: Global,
    known: &mut List<KnownPath>,
    links: &[KnownLink],
    planned: &Planned,
) -> Result<(), Memory>
    ensures { OnOk result (known.new ≡ known.old ++ flat_map (act_known links.now) (changed planned.now)) }
{
    match planned {
        Planned::Change(lists) => add_lists(alloc, known, links, lists.as_slice()),
        Planned::Known(_) | Planned::Ask { .. } | Planned::Print(_) | Planned::Unspecified(_) => Ok(
            (),
        ),
    }
}

// Adds what is known by lists of acts.
fn add_lists(
    alloc: Global,
    known: &mut List<KnownPath>,
    links: &[KnownLink],
    lists: &[List<Act>],
) -> Result<(), Memory>
    ensures { OnOk result (known.new
        ≡ known.old ++ flat_map (act_known links.now) (flat_map (λ acts. acts) lists.now)) }
{
    for acts in lists {
        add_acts(alloc, known, links, acts.as_slice())?;
    }
    Ok(())
}

// Adds what is known by acts.
fn add_acts(
    alloc: Global,
    known: &mut List<KnownPath>,
    links: &[KnownLink],
    acts: &[Act],
) -> Result<(), Memory>
    ensures { OnOk result (known.new ≡ known.old ++ flat_map (act_known links.now) acts.now) }
{
    for act in acts {
        add_act(alloc, known, links, act)?;
    }
    Ok(())
}

// Adds what is known by an act.
fn add_act(
    alloc: Global,
    known: &mut List<KnownPath>,
    links: &[KnownLink],
    act: &Act,
) -> Result<(), Memory>
    ensures { OnOk result (known.new ≡ known.old ++ act_known links.now act.now) }
{
    let reached = reach(alloc, links, act.path(), false)?;
    add_way(alloc, known, &reached)?;
    add_end(alloc, known, kinds_taken(act), &reached)?;
    add_second(alloc, known, links, act)
}

// A path of a directory: neither a regular file nor one of the special kinds stands there.
fn no_file() -> Kinds
    ensures { result ≡ no_file }
{
    Kinds::either(
        Kinds::of(Kind::Absent),
        Kinds::either(Kinds::of(Kind::Link), Kinds::of(Kind::Dir)),
    )
}

// A path of a file that may be made: neither a directory nor one of the special kinds stands there.
fn no_folder() -> Kinds
    ensures { result ≡ no_folder }
{
    Kinds::either(
        Kinds::of(Kind::Absent),
        Kinds::either(Kinds::of(Kind::Reg), Kinds::of(Kind::Link)),
    )
}

// What an act takes at its path, beside what it takes on the way there.
fn kinds_taken(act: &Act) -> Option<Kinds>
    ensures { result ≡ kinds_taken act.now }
{
    match act {
        Act::MakeDir(_) | Act::EnsureDir(_) | Act::RemoveDir(_) => Some(no_file()),
        Act::Remove { deep, .. } => {
            if *deep {
                return None;
            }
            Some(Kinds::but(Kind::Dir))
        }
        Act::Touch(_) => Some(no_folder()),
        Act::Exists(_) | Act::IsReg(_) | Act::IsDir(_) | Act::IsLink(_) | Act::CanRun { .. } =>
            None,
        Act::IsSpecial { .. } | Act::Symlink { .. } | Act::Move { .. } => None,
        Act::Attr(_) | Act::Copy { .. } => None,
        Act::PlaceFile(_) | Act::PlaceLink { .. } | Act::PlaceConf(_) => None,
        Act::Discard(_) | Act::DiscardDir(_) => None,
    }
}

// The second path of an act that has one.
fn second_path(act: &Act) -> Option<&Path>
    ensures { option_copied result ≡ second_path act.now }
{
    match act {
        Act::Move { b, .. } | Act::Copy { b, .. } => Some(b),
        Act::Exists(_) | Act::IsReg(_) | Act::IsDir(_) | Act::IsLink(_) | Act::CanRun { .. } =>
            None,
        Act::MakeDir(_) | Act::EnsureDir(_) | Act::RemoveDir(_) | Act::Touch(_) => None,
        Act::IsSpecial { .. } | Act::Remove { .. } | Act::Symlink { .. } => None,
        Act::Attr(_) => None,
        Act::PlaceFile(_) | Act::PlaceLink { .. } | Act::PlaceConf(_) => None,
        Act::Discard(_) | Act::DiscardDir(_) => None,
    }
}

// Adds that a directory may stand at each path on the way to one that is reached.
fn add_way(alloc: Global, known: &mut List<KnownPath>, reached: &Reached) -> Result<(), Memory>
    ensures { OnOk result (known.new ≡ known.old ++ way_known reached.now) }
{
    match reached {
        Reached::At(path) => add_ways(alloc, known, path),
        Reached::Blocked(_) => Ok(()),
    }
}

// Adds that a directory may stand at each path on the way to one.
fn add_ways(alloc: Global, known: &mut List<KnownPath>, path: &Path) -> Result<(), Memory>
    ensures { OnOk result (known.new ≡ known.old ++ ways_to path.now.names (length path.now.names - 1)) }
{
    for count in 1..path.names().len() {
        let path = beginning(alloc, path, count)?;
        known.add(KnownPath {
            path,
            kinds: no_file(),
        })?;
    }
    Ok(())
}

// The path of the first names of a path, so many.
fn beginning(alloc: Global, path: &Path, count: usize) -> Result<Path, Memory>
    requires { count ≤ length path.now.names }
    ensures { IfOk result (λ way. way ≡ plain_path (take count path.now.names)) }
{
    let names = List::copies(alloc, &path.names()[..count])?;
    Ok(Path::new(names, false))
}

// Adds what is known at a path that is reached.
fn add_end(
    alloc: Global,
    known: &mut List<KnownPath>,
    kinds: Option<Kinds>,
    reached: &Reached,
) -> Result<(), Memory>
    ensures { OnOk result (known.new ≡ known.old ++ end_known kinds reached.now) }
{
    match kinds {
        None => Ok(()),
        Some(kinds) => match reached {
            Reached::At(path) => {
                let path = path.copy(alloc)?;
                known.add(KnownPath { path, kinds })
            }
            Reached::Blocked(_) => Ok(()),
        },
    }
}

// Adds what is known on the way to the second path of an act, where it has one.
fn add_second(
    alloc: Global,
    known: &mut List<KnownPath>,
    links: &[KnownLink],
    act: &Act,
) -> Result<(), Memory>
    ensures { OnOk result (known.new ≡ known.old ++ second_known links.now (second_path act.now)) }
{
    match second_path(act) {
        None => Ok(()),
        Some(path) => {
            let reached = reach(alloc, links, path, false)?;
            add_way(alloc, known, &reached)
        }
    }
}
