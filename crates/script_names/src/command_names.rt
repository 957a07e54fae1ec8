ghost use Rattle.std.specs.Prelude.{◌≡◌};
ghost use Rattle.script_names.specs.CommandNames.{is_one_of, special_names, utility_named, special_named, named};
ghost use Rattle.script_names.specs.CommandNames.{free_utilities, keeps_name, is_kept_name};

use crate::copied::Copied;
use crate::memory::Memory;
use std::alloc::Global;

/// A utility that has a meaning (POSIX.1-2017, XCU 4 Utilities).
#[derive(Clone, Copy, Debug, PartialEq, Eq)]
pub enum Utility {
    /// `true` and `:`
    True,
    False,
    Echo,
    MakeDir,
    RemoveDir,
    Remove,
    Touch,
    /// `ln`
    Link,
    /// `mv`
    Move,
    Test,
    /// `[`
    Bracket,
    /// `unlink`
    Unlink,
    /// `install`
    Install,
    /// `chmod`
    ChangeMode,
    /// `chown`
    ChangeOwner,
    /// `chgrp`
    ChangeGroup,
    /// `cp`
    Copy,
    /// `basename`
    BaseName,
    /// `dirname`
    DirName,
}

impl Copied for Utility {
    fn copy(&self, _alloc: Global) -> Result<Utility, Memory> {
        Ok(*self)
    }
}

/// A special built-in utility that has a meaning (POSIX.1-2017, XCU 2.14 Special Built-In Utilities).
#[derive(Clone, Copy, Debug, PartialEq, Eq)]
pub enum SpecialBuiltIn {
    /// `:`
    Colon,
    Break,
    Continue,
    Exit,
    Return,
    Set,
    Export,
    Unset,
}

impl Copied for SpecialBuiltIn {
    fn copy(&self, _alloc: Global) -> Result<SpecialBuiltIn, Memory> {
        Ok(*self)
    }
}

impl Utility {
    /// Whether no function may have the utility's name.
    pub fn keeps_name(self) -> bool
        ensures { result ≡ keeps_name self }
    {
        match self {
            Utility::True | Utility::False | Utility::Echo | Utility::MakeDir => true,
            Utility::RemoveDir | Utility::Remove | Utility::Touch | Utility::Link => true,
            Utility::Move | Utility::Test | Utility::Bracket => true,
            Utility::Unlink | Utility::Install | Utility::ChangeMode | Utility::ChangeOwner =>
                false,
            Utility::ChangeGroup | Utility::Copy | Utility::BaseName | Utility::DirName => false,
        }
    }
}

/// The utility of a name.
pub fn utility_named(name: &[u8]) -> Option<Utility>
    ensures { result ≡ utility_named name.now }
{
    if name == b"true".as_slice() || name == b":".as_slice() {
        return Some(Utility::True);
    }
    if name == b"false".as_slice() {
        return Some(Utility::False);
    }
    if name == b"echo".as_slice() {
        return Some(Utility::Echo);
    }
    if name == b"mkdir".as_slice() {
        return Some(Utility::MakeDir);
    }
    if name == b"rmdir".as_slice() {
        return Some(Utility::RemoveDir);
    }
    if name == b"rm".as_slice() {
        return Some(Utility::Remove);
    }
    if name == b"touch".as_slice() {
        return Some(Utility::Touch);
    }
    if name == b"ln".as_slice() {
        return Some(Utility::Link);
    }
    if name == b"mv".as_slice() {
        return Some(Utility::Move);
    }
    if name == b"test".as_slice() {
        return Some(Utility::Test);
    }
    if name == b"[".as_slice() {
        return Some(Utility::Bracket);
    }
    free_utility_named(name)
}

// The utility of a name, of those whose names functions may have.
fn free_utility_named(name: &[u8]) -> Option<Utility>
    ensures { result ≡ named free_utilities name.now }
{
    if name == b"unlink".as_slice() {
        return Some(Utility::Unlink);
    }
    if name == b"install".as_slice() {
        return Some(Utility::Install);
    }
    if name == b"chmod".as_slice() {
        return Some(Utility::ChangeMode);
    }
    if name == b"chown".as_slice() {
        return Some(Utility::ChangeOwner);
    }
    if name == b"chgrp".as_slice() {
        return Some(Utility::ChangeGroup);
    }
    if name == b"cp".as_slice() {
        return Some(Utility::Copy);
    }
    if name == b"basename".as_slice() {
        return Some(Utility::BaseName);
    }
    if name == b"dirname".as_slice() {
        return Some(Utility::DirName);
    }
    None
}

/// The special built-in of a name.
pub fn special_named(name: &[u8]) -> Option<SpecialBuiltIn>
    ensures { result ≡ special_named name.now }
{
    if name == b":".as_slice() {
        return Some(SpecialBuiltIn::Colon);
    }
    if name == b"break".as_slice() {
        return Some(SpecialBuiltIn::Break);
    }
    if name == b"continue".as_slice() {
        return Some(SpecialBuiltIn::Continue);
    }
    if name == b"exit".as_slice() {
        return Some(SpecialBuiltIn::Exit);
    }
    if name == b"return".as_slice() {
        return Some(SpecialBuiltIn::Return);
    }
    if name == b"set".as_slice() {
        return Some(SpecialBuiltIn::Set);
    }
    if name == b"export".as_slice() {
        return Some(SpecialBuiltIn::Export);
    }
    if name == b"unset".as_slice() {
        return Some(SpecialBuiltIn::Unset);
    }
    None
}

/// Whether a name is that of a special built-in.
pub fn is_special_name(name: &[u8]) -> bool
    ensures { result ≡ is_one_of name.now special_names }
{
    special_named(name).is_some()
}

/// Whether no function may have the name: its utility keeps it, or a special built-in has it.
pub fn is_kept_name(name: &[u8]) -> bool
    ensures { result ≡ is_kept_name name.now }
{
    match utility_named(name) {
        Some(utility) => utility.keeps_name() || is_special_name(name),
        None => is_special_name(name),
    }
}
