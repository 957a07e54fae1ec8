ghost use Rattle.std.specs.Prelude.{◌≡◌};

use script_names::{Common, Copied, List, Memory};
use std::alloc::Global;

/// What leads to the entries of a place of the start tree, and from a directory to those that it is derived from.
#[derive(Debug, Drop)]
pub(crate) struct Kin {
    /// The variable's last entry, where there is one.
    pub(crate) youngest: Option<u32>,
    /// Of an entry, the one before it of the same place, where there is one.
    pub(crate) older: Option<u32>,
    /// Of an entry, its links to entries before it, by the place where their names differ first from its own; of a
    /// derived directory, those to directories that it is derived from.
    pub(crate) links: Common<List<Link>>,
    /// The derived directory that has the same entries as the variable, where there is one.
    pub(crate) top: Option<u32>,
    /// Where the way down through the definitions ends: a place of the start tree or a made value.
    pub(crate) end: u32,
}

/// A link to the last entry before it, or to the nearest directory, whose name differs first at this place.
#[derive(Clone, Copy, Debug)]
pub(crate) struct Link {
    pub(crate) place: u32,
    pub(crate) to: u32,
}

impl Copied for Kin {
    fn copy(&self, _alloc: Global) -> Result<Kin, Memory> {
        let links = self.links.fork()?;
        Ok(Kin {
            youngest: self.youngest,
            older: self.older,
            links,
            top: self.top,
            end: self.end,
        })
    }
}
