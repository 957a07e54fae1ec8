ghost use Rattle.std.specs.Prelude.{◌≡◌, length, map, Some, None, IfOk, OnErr};
ghost use Rattle.package_lists.specs.Conffiles.{has_space_slash, is_flagged, form_why, line_why, path_why};
ghost use Rattle.package_lists.specs.Conffiles.{marked_entry, conffiles_of};
ghost use Rattle.package_lists.specs.Faults.{IsLeft};
ghost use Rattle.package_lists.specs.Named.{IsNamed};
ghost use Rattle.package_lists.specs.PathSets.{has};

use crate::entry::Entry;
use crate::entry_sets::{Which, has_file, paths_of};
use crate::fault::LineFault;
use crate::kind::EntryKind;
use crate::lines::text_lines;
use crate::path_set::PathSet;
use crate::paths::read_path;
use script_names::{Copied, List, Memory};
use std::alloc::Global;

/// Marks the configuration files of a package among its entries: a path a line, each that of a file of the list; the
/// last line may lack its newline. The whys: 1, the line is no path; 2, an earlier line names it; 3, the list has no
/// file there; 4, the line has a flag before a path, as `remove-on-upgrade`. On a fault the entries stay.
pub fn read_conffiles(
    alloc: Global,
    text: &[u8],
    entries: &mut List<Entry>,
) -> Result<(), LineFault>
    ensures marked { IsLeft (conffiles_of text.now entries.old) entries.new result }
    ensures kept { OnErr result (entries.new ≡ entries.old) }
    ensures same_length { length entries.new ≡ length entries.old }
{
    let lines = text_lines(alloc, text)?;
    let files = paths_of(alloc, Which::Files, entries.as_slice())?;
    let named = match read_paths(alloc, lines.as_slice(), &files) {
        Ok(named) => named,
        Err(fault) => return Err(fault),
    };
    let marked = mark(alloc, entries.as_slice(), &named)?;
    *entries = marked;
    Ok(())
}

// The paths of lines, each of which is to be among those of files.
fn read_paths(alloc: Global, lines: &[&[u8]], files: &PathSet) -> Result<PathSet, LineFault>
    ensures { IsNamed (has files.now) (map (λ line. line.now) lines.now) result }
{
    let mut named = PathSet::new(alloc);
    let mut number = 0u64;
    for line in lines {
        number += 1;
        match line_why(alloc, line, files, &named)? {
            Some(why) => return Err(LineFault::Line { line: number, why }),
            None => named.add(line)?,
        }
    }
    Ok(named)
}

// Why a line is at fault behind those that name these paths, if it is.
fn line_why(
    alloc: Global,
    line: &[u8],
    files: &PathSet,
    named: &PathSet,
) -> Result<Option<u8>, Memory>
    ensures { IfOk result (λ why. why ≡ line_why (has files.now) (has named.now) line.now) }
{
    match read_path(alloc, line)? {
        None => Ok(Some(form_why(line))),
        Some(_) => Ok(path_why(line, files, named)),
    }
}

// Why a path is at fault behind these, if it is.
fn path_why(path: &[u8], files: &PathSet, named: &PathSet) -> Option<u8>
    ensures { result ≡ path_why (has files.now) (has named.now) path.now }
{
    if named.has(path) {
        return Some(2);
    }
    if files.has(path) {
        return None;
    }
    Some(3)
}

// Why a line that is no path is at fault.
fn form_why(line: &[u8]) -> u8
    ensures { result ≡ form_why line.now }
{
    if is_flagged(line) { 4 } else { 1 }
}

// Whether a line has a flag before a path.
fn is_flagged(line: &[u8]) -> bool
    ensures { result ≡ is_flagged line.now }
{
    match line {
        [] => false,
        [byte, ..] => *byte != b'/' && has_space_slash(line),
    }
}

// Whether a space stands directly before a slash.
fn has_space_slash(line: &[u8]) -> bool
    ensures { result ≡ has_space_slash line.now }
{
    let mut left = line;
    while let [_, rest @ ..] = left {
        if left.starts_with(b" /") {
            return true;
        }
        left = rest;
    }
    false
}

// The entries with those of these paths that are files as configuration files.
fn mark(alloc: Global, entries: &[Entry], named: &PathSet) -> Result<List<Entry>, Memory>
    ensures { IfOk result (λ all. all ≡ map (marked_entry (has named.now)) entries.now) }
{
    let mut all = List::new(alloc);
    for entry in entries {
        all.add(mark_entry(alloc, entry, named)?)?;
    }
    Ok(all)
}

// An entry, which is a configuration file if it is a file with one of these paths.
fn mark_entry(alloc: Global, entry: &Entry, named: &PathSet) -> Result<Entry, Memory>
    ensures { IfOk result (λ one. one ≡ marked_entry (has named.now) entry.now) }
{
    let is_named = has_file(alloc, named, entry)?;
    if is_named {
        return entry.with_kind(alloc, EntryKind::Conf);
    }
    entry.copy(alloc)
}
