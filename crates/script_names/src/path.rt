ghost use Rattle.std.specs.Prelude.{◌≡◌, ◌<◌, ◌≤◌, ◌-◌, ◌↔◌, ◌&&◌, [], ◌∷◌, ◌++◌, length, nat_lt, take, slice_get};
ghost use Rattle.std.specs.Prelude.{IfOk, IsTrue};
ghost use Rattle.std.specs.Option.{option_copied};
ghost use Rattle.script_names.specs.Paths.{PathGives, path_fault, path_of, IsStrictPrefix, parent_of, join_fault};
ghost use Rattle.script_names.specs.Paths.{joined};

use crate::component::{path_fault, read_names};
use crate::copied::Copied;
use crate::list::List;
use crate::memory::Memory;
use crate::name::Name;
use std::alloc::Global;
use std::marker::Model;

/// How many names a path has at most.
pub const MAX_NAMES: usize = 64;

/// Why a word spells no path, or a path can't be made. Where several apply, the first of this order is answered.
#[derive(Clone, Copy, Debug, PartialEq, Eq)]
pub enum PathFault {
    /// The word has no bytes.
    Empty,
    /// The word has a NUL byte.
    Nul,
    /// A component is `..`.
    DotDot,
    /// The last component that is not empty is `.`.
    Dot,
    /// A component has more than 255 bytes.
    LongName,
    /// There are more than 64 names.
    Many,
    Memory,
}

impl Copied for PathFault {
    fn copy(&self, _alloc: Global) -> Result<PathFault, Memory> {
        Ok(*self)
    }
}

impl From<Memory> for PathFault {
    ghost use Rattle.script_names.specs.declared.path.PathFault.TheVariants.{Memory as OutOfMemory};

    ghost from_gives = { λ _ fault. fault ≡ OutOfMemory };

    fn from(_refused: Memory) -> PathFault {
        PathFault::Memory
    }
}

/// A path of the file tree: at most 64 names from the root on, and whether the word that spelled it ends in `/`,
/// which is said only of a path with a name (POSIX.1-2017, Base Definitions, 3.271 Pathname).
#[derive(Debug, Drop)]
pub struct Path {
    names: List<Name>,
    slash: bool,
}

impl Model for Path {
    ghost use Rattle.script_names.specs.Paths.{PathParts, IsPath};

    ghost Value = { PathParts };

    ghost view = { λ p. record { names = p.names; slash = p.slash } };

    ghost invariant = { λ p. IsPath p.names p.slash };
}

impl Path {
    /// The path that a word spells (POSIX.1-2017, Base Definitions, 4.13 Pathname Resolution), read from the root on
    /// whether or not it begins with `/`. The word is cut into components at each `/`; those that are empty or `.` are
    /// dropped. Want of memory is answered only for words that spell a path.
    pub fn read(alloc: Global, word: &[u8]) -> Result<Path, PathFault>
        ensures { PathGives (path_fault word.now) (path_of word.now) result }
    {
        match path_fault(word) {
            Some(fault) => return Err(fault),
            None => {}
        }
        let names = read_names(alloc, word)?;
        let slash = names.len() > 0 && word.ends_with(b"/");
        Ok(Path { names, slash })
    }

    /// The path of these names, of which there are at most 64. A slash stands only behind a name.
    pub fn new(names: List<Name>, slash: bool) -> Path
        requires { length names ≤ MAX_NAMES }
        ensures { result ≡ record { names = names; slash = slash && nat_lt 0 (length names) } }
    {
        let slash = slash && names.len() > 0;
        Path { names, slash }
    }

    /// The names, from the outermost on.
    pub fn names(&self) -> &[Name]
        ensures names { result.now ≡ self.now.names }
        ensures few { length self.now.names ≤ MAX_NAMES }
    {
        self.names.as_slice()
    }

    /// Whether the word that spelled the path ends in `/`, behind a name.
    pub fn slash(&self) -> bool
        ensures value { result ≡ self.now.slash }
        ensures named { IsTrue result → 0 < length self.now.names }
    {
        self.slash
    }

    /// Whether the names of two paths are the same.
    pub fn same_names(&self, other: &Path) -> bool
        ensures { IsTrue result ↔ (self.now.names ≡ other.now.names) }
    {
        self.names.len() == other.names.len() && begins(other.names(), self.names())
    }

    /// Whether the names of another path are this one's with at least one more behind them.
    pub fn is_strict_prefix(&self, of: &Path) -> bool
        ensures { IsTrue result ↔ IsStrictPrefix self.now.names of.now.names }
    {
        self.names.len() < of.names.len() && begins(of.names(), self.names())
    }

    /// The last name, where there is one.
    pub fn last(&self) -> Option<&Name>
        ensures { option_copied result ≡ slice_get self.now.names (length self.now.names - 1) }
    {
        self.names().last()
    }

    /// The path of all names but the last, without a slash behind them; None exactly where there are no names.
    pub fn parent(&self, alloc: Global) -> Result<Option<Path>, Memory>
        ensures { IfOk result (λ parent. parent ≡ parent_of self.now) }
    {
        let names = self.names();
        if names.is_empty() {
            return Ok(None);
        }
        let names = List::copies(alloc, &names[..names.len() - 1])?;
        Ok(Some(Path {
            names,
            slash: false,
        }))
    }

    /// The path with one name more, without a slash behind it; Many exactly where there are 64 names.
    pub fn join(&self, alloc: Global, name: &Name) -> Result<Path, PathFault>
        ensures { PathGives (join_fault self.now) (joined self.now name.now) result }
    {
        let names = self.names();
        if names.len() >= MAX_NAMES {
            return Err(PathFault::Many);
        }
        let names = join_names(alloc, names, name)?;
        Ok(Path {
            names,
            slash: false,
        })
    }
}

// Whether the names of `longer` begin with `names`.
fn begins(longer: &[Name], names: &[Name]) -> bool
    ensures { IsTrue result ↔ (take (length names.now) longer.now ≡ names.now) }
{
    if longer.len() < names.len() {
        return false;
    }
    for i in 0..names.len() {
        if !names[i].equal(&longer[i]) {
            return false;
        }
    }
    true
}

// A copy of names, and one more.
fn join_names(alloc: Global, names: &[Name], name: &Name) -> Result<List<Name>, Memory>
    ensures { IfOk result (λ longer. longer ≡ names.now ++ name.now ∷ []) }
{
    let mut longer = List::copies(alloc, names)?;
    let copy = name.copy(alloc)?;
    longer.add(copy)?;
    Ok(longer)
}

impl Copied for Path {
    fn copy(&self, alloc: Global) -> Result<Path, Memory> {
        let names = self.names.copy(alloc)?;
        Ok(Path {
            names,
            slash: self.slash,
        })
    }
}
