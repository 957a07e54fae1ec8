ghost use Rattle.std.specs.Prelude.{◌≡◌, ◌++◌, [], length, take, map, IfOk, OnOk, OnErr};
ghost use Rattle.std.specs.List.{flat_map};
ghost use Rattle.shown_texts.specs.Paths.{after_slash, path_text, if_name, name_of, names_onto, names_of, path_of};

use crate::parts::cut;
use crate::spelling::{push_shown, read_shown};
use script_names::{Bytes, List, Memory, Name, NameFault};
use std::alloc::Global;

/// Adds a name to a text as a path has it: `/` and the name's spelling. For want of memory the text is as before.
pub fn push_name(text: &mut Bytes, name: &Name) -> Result<(), Memory>
    ensures ok { OnOk result (text.new ≡ text.old ++ after_slash name.now) }
    ensures kept { OnErr result (text.new ≡ text.old) }
{
    let len = text.len();
    text.push(b'/')?;
    match push_shown(text, name.as_slice()) {
        Ok(()) => Ok(()),
        Err(_) => {
            text.truncate(len);
            Err(Memory)
        }
    }
}

/// Adds a path to a text, `/` and its shown names joined by `/`; for want of memory the text is as before.
pub fn push_path(text: &mut Bytes, names: &[Name]) -> Result<(), Memory>
    ensures ok { OnOk result (text.new ≡ text.old ++ path_text names.now) }
    ensures kept { OnErr result (text.new ≡ text.old) }
{
    if names.is_empty() {
        return text.push(b'/');
    }
    let len = text.len();
    match push_names(text, names) {
        Ok(()) => Ok(()),
        Err(_) => {
            text.truncate(len);
            Err(Memory)
        }
    }
}

// Adds each name.
fn push_names(text: &mut Bytes, names: &[Name]) -> Result<(), Memory>
    ensures ok { OnOk result (text.new ≡ text.old ++ flat_map after_slash names.now) }
    ensures begins { OnErr result (take (length text.old) text.new ≡ text.old) }
{
    for name in names {
        push_name(text, name)?;
    }
    Ok(())
}

/// The names of the path that is shown so; None where no path is.
pub fn read_path(alloc: Global, text: &[u8]) -> Result<Option<List<Name>>, Memory>
    ensures { IfOk result (λ found. found ≡ path_of text.now) }
{
    match text {
        [] => Ok(None),
        [byte, names @ ..] => {
            if *byte == b'/' {
                read_names(alloc, names)
            } else {
                Ok(None)
            }
        }
    }
}

// The names that are spelled so, joined by slashes.
fn read_names(alloc: Global, text: &[u8]) -> Result<Option<List<Name>>, Memory>
    ensures { IfOk result (λ found. found ≡ names_of text.now) }
{
    if text.is_empty() {
        return Ok(Some(List::new(alloc)));
    }
    let parts = cut(alloc, text, b'/')?;
    read_each(alloc, parts.as_slice())
}

// The names of which each is spelled so.
fn read_each(alloc: Global, parts: &[&[u8]]) -> Result<Option<List<Name>>, Memory>
    ensures { IfOk result (λ found. found ≡ names_onto [] (map (λ part. part.now) parts.now)) }
{
    let mut names = List::new(alloc);
    for part in parts {
        match read_name(alloc, part)? {
            Some(name) => names.add(name)?,
            None => return Ok(None),
        }
    }
    Ok(Some(names))
}

// The name that is spelled so.
fn read_name(alloc: Global, text: &[u8]) -> Result<Option<Name>, Memory>
    ensures { IfOk result (λ found. found ≡ name_of text.now) }
{
    match read_shown(alloc, text)? {
        Some(bytes) => if_name(alloc, bytes.as_slice()),
        None => Ok(None),
    }
}

// The name, where the bytes are one.
fn if_name(alloc: Global, bytes: &[u8]) -> Result<Option<Name>, Memory>
    ensures { IfOk result (λ found. found ≡ if_name bytes.now) }
{
    match Name::read(alloc, bytes) {
        Ok(name) => Ok(Some(name)),
        Err(NameFault::Bad) => Ok(None),
        Err(NameFault::Memory) => Err(Memory),
    }
}
