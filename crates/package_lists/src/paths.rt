// Paths in a package's files.
ghost use Rattle.std.specs.Prelude.{◌≡◌, ◌<◌, ◌∷◌, ◌++◌, map, length, OnOk, IfOk};
ghost use Rattle.std.specs.Option.{IfSome};
ghost use Rattle.package_lists.specs.Paths.{path_of, path_text, folders, if_names};

use script_names::{Bytes, List, MAX_NAMES, Memory, Name, NameFault, Path};
use shown_texts::cut;
use std::alloc::Global;

/// The path that is written so, `/` and its 1 to 64 names joined by `/`; None where none is.
pub fn read_path(alloc: Global, text: &[u8]) -> Result<Option<Path>, Memory>
    ensures path { IfOk result (λ found. found ≡ path_of text.now) }
    ensures named { IfOk result (λ found. IfSome found (λ path. 0 < length path.names)) }
{
    match text {
        [] => Ok(None),
        [byte, rest @ ..] => {
            if *byte != b'/' {
                return Ok(None);
            }
            let parts = cut(alloc, rest, b'/')?;
            match read_names(alloc, parts.as_slice())? {
                Some(names) => Ok(Some(Path::new(names, false))),
                None => Ok(None),
            }
        }
    }
}

// The names, where the parts are 1 to 64 names.
fn read_names(alloc: Global, parts: &[&[u8]]) -> Result<Option<List<Name>>, Memory>
    ensures { IfOk result (λ found. found ≡ if_names (map (λ part. part.now) parts.now)) }
{
    if parts.is_empty() || parts.len() > MAX_NAMES {
        return Ok(None);
    }
    let mut names = List::new(alloc);
    for part in parts {
        match Name::read(alloc, part) {
            Ok(name) => {
                name.is_sound();
                names.add(name)?;
            }
            Err(NameFault::Bad) => return Ok(None),
            Err(NameFault::Memory) => return Err(Memory),
        }
    }
    Ok(Some(names))
}

/// How the path of these names is written.
pub fn path_text(alloc: Global, names: &[Name]) -> Result<Bytes, Memory>
    ensures { IfOk result (λ text. text ≡ path_text names.now) }
{
    let mut text = Bytes::new(alloc);
    for name in names {
        push_name(&mut text, name)?;
    }
    Ok(text)
}

// Adds a name behind a slash.
fn push_name(text: &mut Bytes, name: &Name) -> Result<(), Memory>
    ensures { OnOk result (text.new ≡ text.old ++ 47 ∷ name.now) }
{
    text.push(b'/')?;
    text.extend(name.as_slice())
}

/// The folders on the way to the path of these names, as they are written.
pub fn folders(alloc: Global, names: &[Name]) -> Result<List<Bytes>, Memory>
    ensures { IfOk result (λ found. found ≡ folders names.now) }
{
    let mut found = List::new(alloc);
    for count in 1..names.len() {
        found.add(path_text(alloc, &names[..count])?)?;
    }
    Ok(found)
}
