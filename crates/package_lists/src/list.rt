ghost use Rattle.std.specs.Prelude.{◌≡◌, ◌≤◌, ◌&&◌, ◌||◌, ◌++◌, ◌∷◌, [], ℕ, List as ListOf, length, map};
ghost use Rattle.std.specs.Prelude.{Some, None, IfOk, OnOk};
ghost use Rattle.std.specs.Prelude.{if◌then◌else◌};
ghost use Rattle.std.specs.List.{list_any};
ghost use Rattle.std.specs.Option.{option_map};
ghost use Rattle.std.specs.Str.{bytes_eq};
ghost use Rattle.script_names.specs.Paths.{is_nul};
ghost use Rattle.package_lists.specs.declared.fault.LineFault.TheVariants.{Line};
ghost use Rattle.package_lists.specs.Entries.{entry_at, is_link};
ghost use Rattle.package_lists.specs.Faults.{IsAnswer};
ghost use Rattle.package_lists.specs.Indexes.{IsIndex, Continues};
ghost use Rattle.package_lists.specs.Lists.{cut_at_arrow, is_target, said_of, plain_line, link_line, line_says};
ghost use Rattle.package_lists.specs.Lists.{crosses, entry_why, with_entry, with_line, with_lines, list_of};
ghost use Rattle.package_lists.specs.Lists.{finished, finished_entry};
ghost use Rattle.package_lists.specs.Paths.{path_text as path_text_of, folders as folders_of};
ghost use Rattle.package_lists.specs.PathSets.{has};

use crate::entry::Entry;
use crate::entry_sets::{Which, add_which, has_file};
use crate::fault::LineFault;
use crate::kind::EntryKind;
use crate::lines::text_lines;
use crate::path_set::{PathSet, add_each, has_any};
use crate::paths::{folders, path_text};
use script_names::{Bytes, Copied, List, Memory};
use std::alloc::Global;

// What a line of a list says: nothing, where it is not of the form; the root, which is no entry; or an entry, whose
// kind is a file's as long as nothing is known to be below it.
#[derive(Drop)]
pub enum Said {
    Nothing,
    Root,
    Names(Entry),
}

// The entries so far, and what is looked up for each further one: the paths of all, those of links, and the folders on
// the way to each.
#[derive(Drop)]
struct Index {
    entries: List<Entry>,
    named: PathSet,
    links: PathSet,
    above: PathSet,
}

/// The entries of a list of files, in its order: a path a line, `/.` for the root, a directory's with a `/` at its end,
/// which it may lack where something is listed below it, a symbolic link's with ` -> ` and its target. The last line
/// may lack its newline. The whys: 1, the line is not of the form; 2, an earlier line names its path; 3, of a link and
/// a line below its path it is the later one. There are no more entries than bytes.
pub fn read_list(alloc: Global, text: &[u8]) -> Result<List<Entry>, LineFault>
    ensures entries { IsAnswer (list_of text.now) result }
    ensures few { IfOk result (λ entries. length entries ≤ length text.now) }
{
    let lines = text_lines(alloc, text)?;
    let index = match read_lines(alloc, lines.as_slice()) {
        Ok(index) => index,
        Err(fault) => return Err(fault),
    };
    let entries = finish(alloc, &index)?;
    Ok(entries)
}

// No entries.
fn no_entries(alloc: Global) -> Index
    ensures entries { result.entries ≡ [] }
    ensures index { IsIndex result }
{
    Index {
        entries: List::new(alloc),
        named: PathSet::new(alloc),
        links: PathSet::new(alloc),
        above: PathSet::new(alloc),
    }
}

// The entries of lines.
fn read_lines(alloc: Global, lines: &[&[u8]]) -> Result<Index, LineFault>
    ensures { Continues (with_lines 1 [] (map (λ line. line.now) lines.now)) result }
{
    let mut index = no_entries(alloc);
    let mut number = 0u64;
    for line in lines {
        number += 1;
        index = match add_line(alloc, index, number, line) {
            Ok(index) => index,
            Err(fault) => return Err(fault),
        };
    }
    Ok(index)
}

// The entries with what a line says.
fn add_line(alloc: Global, index: Index, number: u64, line: &[u8]) -> Result<Index, LineFault>
    requires { IsIndex index }
    ensures { Continues (with_line number index.entries (line_says line.now)) result }
{
    match read_line(alloc, line)? {
        Said::Nothing => Err(line_fault(number, 1)),
        Said::Root => Ok(index),
        Said::Names(entry) => add_entry(alloc, index, number, entry),
    }
}

// The entries with one more.
fn add_entry(alloc: Global, index: Index, number: u64, entry: Entry) -> Result<Index, LineFault>
    requires { IsIndex index }
    ensures { Continues (with_entry number index.entries entry (entry_why index.entries entry)) result }
{
    let path = path_text(alloc, entry.path().names())?;
    let folders = folders(alloc, entry.path().names())?;
    match entry_why(&index, &entry, &path, folders.as_slice()) {
        Some(why) => Err(line_fault(number, why)),
        None => {
            let index = with_entry(index, entry, &path, folders.as_slice())?;
            Ok(index)
        }
    }
}

// Why an entry cannot stand behind the others, if it cannot.
fn entry_why(index: &Index, entry: &Entry, path: &Bytes, folders: &[Bytes]) -> Option<u8>
    requires index { IsIndex index.now }
    requires path { path.now ≡ path_text_of entry.now.names }
    requires folders { folders.now ≡ folders_of entry.now.names }
    ensures { result ≡ entry_why index.now.entries entry.now }
{
    if index.named.has(path.as_slice()) {
        return Some(2);
    }
    if crosses(index, entry, path, folders) {
        return Some(3);
    }
    None
}

// Whether a link and an entry below its path would stand in one list.
fn crosses(index: &Index, entry: &Entry, path: &Bytes, folders: &[Bytes]) -> bool
    requires index { IsIndex index.now }
    requires path { path.now ≡ path_text_of entry.now.names }
    requires folders { folders.now ≡ folders_of entry.now.names }
    ensures { result ≡ crosses index.now.entries entry.now }
{
    if entry.kind().is_link() && index.above.has(path.as_slice()) {
        return true;
    }
    has_any(&index.links, folders)
}

// The entries with one more, whose path and folders are written so.
fn with_entry(index: Index, entry: Entry, path: &Bytes, folders: &[Bytes]) -> Result<Index, Memory>
    requires index { IsIndex index }
    requires path { path.now ≡ path_text_of entry.names }
    requires folders { folders.now ≡ folders_of entry.names }
    ensures entries { IfOk result (λ more. more.entries ≡ index.entries ++ entry ∷ []) }
    ensures index { IfOk result IsIndex }
{
    let Index {
        mut entries,
        mut named,
        mut links,
        mut above,
    } = index;
    named.add(path.as_slice())?;
    add_which(&mut links, Which::Links, entry.kind(), path.as_slice())?;
    add_each(&mut above, folders)?;
    entries.add(entry)?;
    Ok(Index {
        entries,
        named,
        links,
        above,
    })
}

// The entries, with a directory wherever something is listed below a path.
fn finish(alloc: Global, index: &Index) -> Result<List<Entry>, Memory>
    requires { IsIndex index.now }
    ensures { IfOk result (λ entries. entries ≡ finished index.now.entries) }
{
    let mut entries = List::new(alloc);
    for entry in index.entries.as_slice() {
        entries.add(finish_entry(alloc, entry, index)?)?;
    }
    Ok(entries)
}

// An entry, which is a directory's if it is among the folders on the way to others.
fn finish_entry(alloc: Global, entry: &Entry, index: &Index) -> Result<Entry, Memory>
    requires { IsIndex index.now }
    ensures { IfOk result (λ finished. finished ≡ finished_entry index.now.entries entry.now) }
{
    let is_above = has_file(alloc, &index.above, entry)?;
    if is_above {
        return entry.with_kind(alloc, EntryKind::Folder);
    }
    entry.copy(alloc)
}

// What a line says.
fn read_line(alloc: Global, line: &[u8]) -> Result<Said, Memory>
    ensures { IfOk result (λ said. said ≡ line_says line.now) }
{
    match cut_at_arrow(line) {
        None => plain_line(alloc, line),
        Some((path, target)) => link_line(alloc, path, target),
    }
}

// What stands before the first ` -> ` of a line and behind it, where there is one.
fn cut_at_arrow(line: &[u8]) -> Option<(&[u8], &[u8])>
    ensures { option_map (λ halves. (halves.0.now, halves.1.now)) result ≡ cut_at_arrow line.now }
{
    for i in 0..line.len() {
        if line[i..].starts_with(b" -> ") {
            return Some((&line[..i], &line[i + 4..]));
        }
    }
    None
}

// What a line without an arrow says.
fn plain_line(alloc: Global, line: &[u8]) -> Result<Said, Memory>
    ensures { IfOk result (λ said. said ≡ plain_line line.now) }
{
    if line == b"/.".as_slice() {
        return Ok(Said::Root);
    }
    if line.ends_with(b"/") {
        return read_entry(alloc, &line[..line.len() - 1], EntryKind::Folder);
    }
    read_entry(alloc, line, EntryKind::File)
}

// What a link's line says.
fn link_line(alloc: Global, path: &[u8], target: &[u8]) -> Result<Said, Memory>
    ensures { IfOk result (λ said. said ≡ link_line path.now target.now) }
{
    if !is_target(target) {
        return Ok(Said::Nothing);
    }
    let target = Bytes::from_slice(alloc, target)?;
    read_entry(alloc, path, EntryKind::LinkTo(target))
}

// Whether the bytes may be the target of a link.
fn is_target(target: &[u8]) -> bool
    ensures { result ≡ is_target target.now }
{
    !target.is_empty() && !has_nul(target)
}

// Whether a byte is NUL.
fn has_nul(bytes: &[u8]) -> bool
    ensures { result ≡ list_any is_nul bytes.now }
{
    bytes.iter().any(|b| *b == 0)
}

// What a line says of the path that is written so.
fn read_entry(alloc: Global, path: &[u8], kind: EntryKind) -> Result<Said, Memory>
    ensures { IfOk result (λ said. said ≡ said_of (entry_at path.now kind)) }
{
    match Entry::read(alloc, path, kind)? {
        Some(entry) => Ok(Said::Names(entry)),
        None => Ok(Said::Nothing),
    }
}

// A line at fault.
fn line_fault(line: u64, why: u8) -> LineFault
    ensures { result ≡ Line line why }
{
    LineFault::Line { line, why }
}
