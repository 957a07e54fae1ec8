ghost use Rattle.std.specs.Prelude.{◌≡◌, true, false};
ghost use Rattle.package_lists.specs.Entries.{is_folder, is_file, is_conf, is_link};

use script_names::{Bytes, Copied, Memory};
use std::alloc::Global;

/// What a package has at a path.
#[derive(Debug, Drop)]
pub enum EntryKind {
    /// A directory.
    Folder,
    /// A regular file.
    File,
    /// A configuration file (Debian Policy, 10.7), which is a regular file.
    Conf,
    /// A symbolic link with this target.
    LinkTo(Bytes),
}

impl EntryKind {
    /// Whether it is a directory.
    pub fn is_folder(&self) -> bool
        ensures { result ≡ is_folder self.now }
    {
        match self {
            EntryKind::Folder => true,
            EntryKind::File | EntryKind::Conf | EntryKind::LinkTo(_) => false,
        }
    }

    /// Whether it is a regular file that is no configuration file.
    pub fn is_file(&self) -> bool
        ensures { result ≡ is_file self.now }
    {
        match self {
            EntryKind::File => true,
            EntryKind::Folder | EntryKind::Conf | EntryKind::LinkTo(_) => false,
        }
    }

    /// Whether it is a configuration file.
    pub fn is_conf(&self) -> bool
        ensures { result ≡ is_conf self.now }
    {
        match self {
            EntryKind::Conf => true,
            EntryKind::Folder | EntryKind::File | EntryKind::LinkTo(_) => false,
        }
    }

    /// Whether it is a symbolic link.
    pub fn is_link(&self) -> bool
        ensures { result ≡ is_link self.now }
    {
        match self {
            EntryKind::LinkTo(_) => true,
            EntryKind::Folder | EntryKind::File | EntryKind::Conf => false,
        }
    }
}

impl Copied for EntryKind {
    fn copy(&self, alloc: Global) -> Result<EntryKind, Memory> {
        match self {
            EntryKind::Folder => Ok(EntryKind::Folder),
            EntryKind::File => Ok(EntryKind::File),
            EntryKind::Conf => Ok(EntryKind::Conf),
            EntryKind::LinkTo(target) => Ok(EntryKind::LinkTo(target.copy(alloc)?)),
        }
    }
}
