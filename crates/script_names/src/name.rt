ghost use Rattle.std.specs.Prelude.{◌≡◌, ◌↔◌, IfOk, IsTrue, Err, false};
ghost use Rattle.std.specs.Ordering.{nat_cmp};
ghost use Rattle.std.specs.Cmp.Lexicographic.{slice_cmp};
ghost use Rattle.std.specs.List.{list_all};
ghost use Rattle.script_names.specs.Names.{is_name, is_dots, is_plain_byte};
ghost use Rattle.script_names.specs.declared.name.NameFault.TheVariants.{Bad};

use crate::bytes::Bytes;
use crate::copied::Copied;
use crate::memory::Memory;
use std::alloc::Global;
use std::cmp::Ordering;
use std::marker::Model;

/// How many bytes a name has at most (POSIX.1-2017, `<limits.h>`, {NAME_MAX}; 255 is its usual value).
pub const NAME_MAX: usize = 255;

/// The name of a directory entry: 1 to 255 bytes, none of them NUL or `/`, and neither `.` nor `..`
/// (POSIX.1-2017, Base Definitions, 3.170 Filename).
#[derive(Debug, Drop)]
pub struct Name {
    bytes: Bytes,
}

impl Model for Name {
    ghost use Rattle.std.specs.Prelude.{List, ℕ, IsTrue};
    ghost use Rattle.script_names.specs.Names.{is_name};

    ghost Value = { List ℕ };

    ghost view = { λ n. n.bytes };

    ghost invariant = { λ n. IsTrue (is_name n.bytes) };
}

/// Why bytes gave no name.
#[derive(Clone, Copy, Debug, PartialEq, Eq)]
pub enum NameFault {
    /// The bytes are no name.
    Bad,
    Memory,
}

impl Copied for NameFault {
    fn copy(&self, _alloc: Global) -> Result<NameFault, Memory> {
        Ok(*self)
    }
}

impl From<Memory> for NameFault {
    ghost use Rattle.script_names.specs.declared.name.NameFault.TheVariants.{Memory as OutOfMemory};

    ghost from_gives = { λ _ fault. fault ≡ OutOfMemory };

    fn from(_refused: Memory) -> NameFault {
        NameFault::Memory
    }
}

impl Name {
    /// The name that the bytes are.
    pub fn read(alloc: Global, bytes: &[u8]) -> Result<Name, NameFault>
        ensures ok { IfOk result (λ name. name ≡ bytes.now) }
        ensures bad { (result ≡ Err Bad) ↔ (is_name bytes.now ≡ false) }
    {
        if is_name(bytes) {
            let name = Name::of(alloc, bytes)?;
            Ok(name)
        } else {
            Err(NameFault::Bad)
        }
    }

    // The name that the bytes are, which are known to be one.
    pub(crate) fn of(alloc: Global, bytes: &[u8]) -> Result<Name, Memory>
        requires { IsTrue (is_name bytes.now) }
        ensures { IfOk result (λ name. name ≡ bytes.now) }
    {
        let bytes = Bytes::from_slice(alloc, bytes)?;
        Ok(Name { bytes })
    }

    /// The bytes, which are a name.
    pub fn as_slice(&self) -> &[u8]
        ensures bytes { result.now ≡ self.now }
        ensures name { IsTrue (is_name self.now) }
    {
        self.bytes.as_slice()
    }

    /// Says of the name that its bytes are one. It does nothing.
    pub fn is_sound(&self)
        ensures { IsTrue (is_name self.now) }
    {
        let _bytes = &self.bytes;
    }

    /// Which of two names comes first, by their bytes.
    pub fn compare(&self, other: &Name) -> Ordering
        ensures { result ≡ slice_cmp nat_cmp self.now other.now }
    {
        self.as_slice().cmp(&other.as_slice())
    }

    /// Whether two names are the same.
    pub fn equal(&self, other: &Name) -> bool
        ensures { IsTrue result ↔ (self.now ≡ other.now) }
    {
        self.as_slice() == other.as_slice()
    }
}

impl Copied for Name {
    fn copy(&self, alloc: Global) -> Result<Name, Memory> {
        let bytes = self.bytes.copy(alloc)?;
        Ok(Name { bytes })
    }
}

// Whether the bytes are a name.
fn is_name(bytes: &[u8]) -> bool
    ensures { result ≡ is_name bytes.now }
{
    !bytes.is_empty() && bytes.len() <= NAME_MAX && is_plain(bytes) && !is_dots(bytes)
}

// Whether no byte is NUL or `/`.
fn is_plain(bytes: &[u8]) -> bool
    ensures { result ≡ list_all is_plain_byte bytes.now }
{
    bytes.iter().all(|b| *b != 0 && *b != b'/')
}

// Whether the bytes are `.` or `..`.
fn is_dots(bytes: &[u8]) -> bool
    ensures { result ≡ is_dots bytes.now }
{
    match bytes {
        [a] => *a == b'.',
        [a, b] => *a == b'.' && *b == b'.',
        _ => false,
    }
}
