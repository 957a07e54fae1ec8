ghost use Rattle.std.specs.Prelude.{◌≡◌, ◌<◌, IfOk, length, map};
ghost use Rattle.link_walks.specs.Links.{is_rooted, behind_root, target_names, if_names, above, base_of};
ghost use Rattle.link_walks.specs.Links.{known_place, known_link, IsKnownLink};

use crate::names::joined;
use script_names::{Bytes, Copied, List, MAX_NAMES, Memory, Name, NameFault, Path};
use shown_texts::cut;
use std::alloc::Global;
use std::marker::Model;

/// A symbolic link of which it is stated that it leads to a directory (POSIX.1-2017, Base Definitions, 3.381): the path
/// at which it stands, which has a name; its target, which is one or more names joined by single slashes, perhaps with
/// one slash first; and its place, which is the path that the target names, of 64 names at most.
#[derive(Debug, Drop)]
pub struct KnownLink {
    at: Path,
    target: Bytes,
    place: Path,
}

impl Model for KnownLink {
    ghost use Rattle.link_walks.specs.Links.{LinkParts, IsKnownLink};

    ghost Value = { LinkParts };

    ghost view = { λ l. record { at = l.at; target = l.target; place = l.place } };

    ghost invariant = { λ l. IsKnownLink (record { at = l.at; target = l.target; place = l.place }) };
}

impl KnownLink {
    /// The known link at a path with a target; None exactly where the path has no name, the target is not of the form,
    /// or the place would have more than 64 names.
    pub fn new(alloc: Global, at: Path, target: &[u8]) -> Result<Option<KnownLink>, Memory>
        ensures { IfOk result (λ link. link ≡ known_link at target.now) }
    {
        let place = match place_of(alloc, at.names(), target)? {
            Some(place) => place,
            None => return Ok(None),
        };
        let target = Bytes::from_slice(alloc, target)?;
        Ok(Some(KnownLink { at, target, place }))
    }

    /// The path at which the link stands. It has a name.
    pub fn at(&self) -> &Path
        ensures path { result.now ≡ self.now.at }
        ensures named { 0 < length self.now.at.names }
    {
        &self.at
    }

    /// The bytes of the link.
    pub fn target(&self) -> &[u8]
        ensures { result.now ≡ self.now.target }
    {
        self.target.as_slice()
    }

    /// The path that the target names: from the root on, where it begins with a slash, else from the directory on that
    /// holds the link.
    pub fn place(&self) -> &Path
        ensures { result.now ≡ self.now.place }
    {
        &self.place
    }

    /// Says of the link what holds of each. It does nothing.
    pub fn is_sound(&self)
        ensures { IsKnownLink self.now }
    {
        let _at = &self.at;
    }
}

impl Copied for KnownLink {
    fn copy(&self, alloc: Global) -> Result<KnownLink, Memory> {
        let at = self.at.copy(alloc)?;
        let target = self.target.copy(alloc)?;
        let place = self.place.copy(alloc)?;
        Ok(KnownLink { at, target, place })
    }
}

// Whether a target begins at the root.
fn is_rooted(target: &[u8]) -> bool
    ensures { result ≡ is_rooted target.now }
{
    match target {
        [] => false,
        [byte, ..] => *byte == b'/',
    }
}

// A target without the slash that it begins with.
fn behind_root(target: &[u8]) -> &[u8]
    ensures { result.now ≡ behind_root target.now }
{
    if is_rooted(target) {
        &target[1..]
    } else {
        target
    }
}

// The parts, where each is a name.
fn read_names(alloc: Global, parts: &[&[u8]]) -> Result<Option<List<Name>>, Memory>
    ensures { IfOk result (λ names. names ≡ if_names (map (λ part. part.now) parts.now)) }
{
    let mut names = List::new(alloc);
    for part in parts {
        match Name::read(alloc, part) {
            Ok(name) => names.add(name)?,
            Err(NameFault::Bad) => return Ok(None),
            Err(NameFault::Memory) => return Err(Memory),
        }
    }
    Ok(Some(names))
}

// The names of a target, where it is of the form.
fn read_target(alloc: Global, target: &[u8]) -> Result<Option<List<Name>>, Memory>
    ensures { IfOk result (λ names. names ≡ if_names (target_names target.now)) }
{
    let parts = cut(alloc, behind_root(target), b'/')?;
    read_names(alloc, parts.as_slice())
}

// The names of the directory that holds what these name.
fn above(names: &[Name]) -> &[Name]
    ensures { result.now ≡ above names.now }
{
    let last = names.len().saturating_sub(1);
    &names[..last]
}

// The names from which a target is read on, of a link in this directory.
fn base_of<'a>(target: &[u8], directory: &'a [Name]) -> &'a [Name]
    ensures { result.now ≡ base_of target.now directory.now }
{
    if is_rooted(target) { &[] } else { directory }
}

// The place of a link at these names with this target, where it can be known.
fn place_of(alloc: Global, names: &[Name], target: &[u8]) -> Result<Option<Path>, Memory>
    ensures { IfOk result (λ place. place ≡ known_place names.now target.now) }
{
    if names.is_empty() {
        return Ok(None);
    }
    let behind = match read_target(alloc, target)? {
        Some(behind) => behind,
        None => return Ok(None),
    };
    let behind = behind.as_slice();
    let base = base_of(target, above(names));
    if base.len() + behind.len() > MAX_NAMES {
        return Ok(None);
    }
    let all = joined(alloc, base, behind)?;
    Ok(Some(Path::new(all, false)))
}
