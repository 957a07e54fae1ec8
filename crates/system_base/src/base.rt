ghost use Rattle.std.specs.Prelude.{◌≡◌, Ok, IfOk};
ghost use Rattle.system_base.specs.Bases.{nothing_known, base_of, usual, usual_text};

use crate::reading::read_base;
use feature_trees::Kinds;
use link_walks::KnownLink;
use package_lists::LineFault;
use script_names::{Copied, List, Memory, Path};
use std::alloc::Global;
use utility_calls::StatedCalls;

/// What is known of what stands at a path, before anything is done with a package.
#[derive(Debug, Drop)]
pub struct KnownPath {
    pub path: Path,
    /// What stands there is of one of these kinds; it is absent where nothing stands there.
    pub kinds: Kinds,
}

/// What is known of the system. The lines that say it stand in any order, and none changes what another says.
#[derive(Debug, Drop)]
pub struct Base {
    /// What stands where, in the order in which it was said.
    pub known: List<KnownPath>,
    /// Symbolic links that stand at their paths and lead to directories, in the order in which they were said. They are
    /// followed, by scripts and by dpkg; any other link is not.
    pub links: List<KnownLink>,
    /// In an installation and an upgrade the entries of the package fit what stands at their paths: a directory where
    /// nothing or a directory stands, a configuration file where nothing or a regular file, any other where no
    /// directory. In an upgrade this is said of the entries that the old package does not list.
    pub fits: bool,
    /// The folders of a package that stand at one of these paths or below one hold no foreign entry. In a removal and a
    /// purge, also one of a package that was removed before, this is said of the folders that the package lists and
    /// that are no directories of the base; in an upgrade of those of the old package that the new one does not list.
    pub own: List<Path>,
    /// Each call of one of these commands in the scripts ends as stated, prints nothing and changes nothing.
    pub calls: StatedCalls,
    /// A regular file may be executed.
    pub runs: bool,
    /// In a purge of a package that was removed before, none of its entries is there but its configuration files, the
    /// folders that hold one, and the directories of the base.
    pub removed: bool,
    /// `dpkg --compare-versions` answers by Debian's order of versions (deb-version(7)).
    pub versions: bool,
    /// Where a script names a file stands no directory, and where it names a directory no file: of each simple command
    /// of the new package's scripts whose words are settled before the run, and, where the old package's scripts are
    /// called too, of theirs.
    pub plain: bool,
}

// The text of the usual base.
const USUAL: &[u8] =
    b"dir /etc\ndir /usr\ndir /usr/bin\ndir /usr/sbin\ndir /usr/lib\ndir /usr/share\n\
    dir /usr/share/doc\ndir /var\ndir /var/lib\ndir /var/log\ndir /var/cache\ndir /srv\ndir /tmp\nfits\n";

impl Copied for KnownPath {
    fn copy(&self, alloc: Global) -> Result<KnownPath, Memory> {
        let path = self.path.copy(alloc)?;
        Ok(KnownPath {
            path,
            kinds: self.kinds,
        })
    }
}

impl Copied for Base {
    fn copy(&self, alloc: Global) -> Result<Base, Memory> {
        let known = self.known.copy(alloc)?;
        let links = self.links.copy(alloc)?;
        let own = self.own.copy(alloc)?;
        let calls = self.calls.copy(alloc)?;
        Ok(Base {
            known,
            links,
            fits: self.fits,
            own,
            calls,
            runs: self.runs,
            removed: self.removed,
            versions: self.versions,
            plain: self.plain,
        })
    }
}

impl Base {
    /// Of the system nothing is known.
    pub fn nothing_known(alloc: Global) -> Base
        ensures { result ≡ nothing_known }
    {
        Base {
            known: List::new(alloc),
            links: List::new(alloc),
            fits: false,
            own: List::new(alloc),
            calls: StatedCalls::new(alloc),
            runs: false,
            removed: false,
            versions: false,
            plain: false,
        }
    }

    /// What is assumed of a Debian system where nothing else is said: the directories of the Filesystem Hierarchy
    /// Standard that packages use, and that the package's entries fit.
    pub fn usual(alloc: Global) -> Result<Base, Memory>
        ensures usual { IfOk result (λ base. base ≡ usual) }
        ensures text { IfOk result (λ base. base_of usual_text ≡ Ok base) }
    {
        match read_base(alloc, USUAL) {
            Ok(base) => Ok(base),
            Err(LineFault::Line { .. }) => unreachable!(),
            Err(LineFault::Memory) => Err(Memory),
        }
    }
}
