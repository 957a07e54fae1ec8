ghost use Rattle.std.specs.Prelude.{◌≡◌, ℕ, List as ListOf, IfOk};
ghost use Rattle.std.specs.List.{find};
ghost use Rattle.std.specs.Option.{option_copied};
ghost use Rattle.package_lists.specs.EntrySets.{is_kept, kept_path};
ghost use Rattle.package_lists.specs.PathSets.{has};

use crate::entry::Entry;
use crate::entry_sets::{Which, has_entry, paths_of};
use crate::path_set::PathSet;
use script_names::{Memory, Path};
use std::alloc::Global;

/// The path of the first entry of another package that is no folder and is not listed by the new one, so that it is
/// kept where the new package is installed; None where nothing is kept, and the other package disappears (Debian
/// Policy, 6.6).
pub fn kept_path<'a>(
    alloc: Global,
    new: &[Entry],
    other: &'a [Entry],
) -> Result<Option<&'a Path>, Memory>
    ensures { IfOk result (λ path. option_copied path ≡ kept_path new.now other.now) }
{
    let listed = paths_of(alloc, Which::All, new)?;
    let found = first_kept(alloc, &listed, other)?;
    match found {
        None => Ok(None),
        Some(entry) => Ok(Some(entry.path())),
    }
}

// The first of the entries that is kept beside a package that lists these paths.
fn first_kept<'a>(
    alloc: Global,
    listed: &PathSet,
    other: &'a [Entry],
) -> Result<Option<&'a Entry>, Memory>
    ensures { IfOk result (λ found. option_copied found ≡ find (is_kept (has listed.now)) other.now) }
{
    for entry in other {
        let kept = is_kept(alloc, listed, entry)?;
        if kept {
            return Ok(Some(entry));
        }
    }
    Ok(None)
}

// Whether an entry is kept beside a package that lists these paths.
fn is_kept(alloc: Global, listed: &PathSet, entry: &Entry) -> Result<bool, Memory>
    ensures { IfOk result (λ answer. answer ≡ is_kept (has listed.now) entry.now) }
{
    if entry.kind().is_folder() {
        return Ok(false);
    }
    let is_listed = has_entry(alloc, listed, entry)?;
    Ok(!is_listed)
}
