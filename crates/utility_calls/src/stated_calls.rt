ghost use Rattle.std.specs.Prelude.{◌≡◌, false, [], ◌∷◌, ◌++◌, IsTrue, OnOk, OnErr, IfOk};
ghost use Rattle.std.specs.List.{list_any, list_all, find};
ghost use Rattle.std.specs.Option.{option_copied};
ghost use Rattle.script_names.specs.CommandNames.{is_one_of};
ghost use Rattle.utility_calls.specs.StatedNames.{changing_special_built_ins, changing_utilities, changes_shell};
ghost use Rattle.utility_calls.specs.StatedNames.{is_name_byte, can_be_stated};
ghost use Rattle.utility_calls.specs.StatedCalls.{has_name, is_stated, are_stated, added_fault, AddGives};

use crate::stated_call::{CallEnd, StatedCall};
use script_names::{Bytes, Copied, List, Memory, NAME_MAX, is_kept_name};
use std::alloc::Global;
use std::marker::Model;

/// Stated calls, in the order in which they were stated. Each has a name that can be stated, and no two have one name.
#[derive(Debug, Drop)]
pub struct StatedCalls {
    calls: List<StatedCall>,
}

impl Model for StatedCalls {
    ghost use Rattle.std.specs.Prelude.{List, IsTrue};
    ghost use Rattle.utility_calls.specs.declared.stated_call.StatedCall.{StatedCall};
    ghost use Rattle.utility_calls.specs.StatedCalls.{are_stated};

    ghost Value = { List StatedCall };

    ghost view = { λ s. s.calls };

    ghost invariant = { λ s. IsTrue (are_stated s.calls) };
}

/// Why a call was not added.
#[derive(Clone, Copy, Debug, PartialEq, Eq)]
pub enum StatedFault {
    /// Its name can't be stated (why 1).
    NoName,
    /// Its name was stated before (why 2).
    Before,
    Memory,
}

impl Copied for StatedFault {
    fn copy(&self, _alloc: Global) -> Result<StatedFault, Memory> {
        Ok(*self)
    }
}

impl From<Memory> for StatedFault {
    ghost use Rattle.std.specs.Prelude.{◌≡◌};
    ghost use Rattle.utility_calls.specs.declared.stated_calls.StatedFault.TheVariants.{Memory as NoMemory};

    ghost from_gives = { λ _ fault. fault ≡ NoMemory };

    fn from(_refused: Memory) -> StatedFault {
        StatedFault::Memory
    }
}

impl StatedCalls {
    /// No stated calls.
    pub fn new(alloc: Global) -> StatedCalls
        ensures { result ≡ [] }
    {
        StatedCalls {
            calls: List::new(alloc),
        }
    }

    /// One stated call more, behind the others. Its name can be stated, by `can_be_stated` (else NoName); no call of that
    /// name was stated before, whatever its end (else Before). Where it is not added the calls are as before.
    pub fn add(&mut self, alloc: Global, name: &[u8], end: CallEnd) -> Result<(), StatedFault>
        ensures added { OnOk result (self.new ≡ self.old ++ record { name = name.now; end = end } ∷ []) }
        ensures kept { OnErr result (self.new ≡ self.old) }
        ensures answer { AddGives (added_fault self.old name.now) result }
    {
        if !can_be_stated(name) {
            return Err(StatedFault::NoName);
        }
        if is_stated(self.calls.as_slice(), name) {
            return Err(StatedFault::Before);
        }
        self.append(alloc, name, end)?;
        Ok(())
    }

    /// One stated call more, behind the others, whose name can be stated and is that of none of them, as a caller knows
    /// that keeps a set of the names. For want of memory the calls are as before.
    pub fn append(&mut self, alloc: Global, name: &[u8], end: CallEnd) -> Result<(), Memory>
        requires able { IsTrue (can_be_stated name.now) }
        requires fresh { is_stated self.old name.now ≡ false }
        ensures added { OnOk result (self.new ≡ self.old ++ record { name = name.now; end = end } ∷ []) }
        ensures kept { OnErr result (self.new ≡ self.old) }
    {
        let name = Bytes::from_slice(alloc, name)?;
        self.calls.add(StatedCall { name, end })?;
        Ok(())
    }

    /// The calls, in the order in which they were stated.
    pub fn as_slice(&self) -> &[StatedCall]
        ensures calls { result.now ≡ self.now }
        ensures stated { IsTrue (are_stated self.now) }
    {
        self.calls.as_slice()
    }

    /// The call of this name, where one is stated.
    pub fn find(&self, name: &[u8]) -> Option<&StatedCall>
        ensures { option_copied result ≡ find (has_name name.now) self.now }
    {
        self.calls
            .as_slice()
            .iter()
            .find(|call| call.name.as_slice() == name)
    }

    /// Says of the calls that each has a name that can be stated, and that no two have one name. It does nothing.
    pub fn is_sound(&self)
        ensures { IsTrue (are_stated self.now) }
    {
        let _calls = &self.calls;
    }
}

impl Copied for StatedCalls {
    fn copy(&self, alloc: Global) -> Result<StatedCalls, Memory> {
        let calls = self.calls.copy(alloc)?;
        Ok(StatedCalls { calls })
    }
}

// Whether one of the calls has this name.
fn is_stated(calls: &[StatedCall], name: &[u8]) -> bool
    ensures { result ≡ is_stated calls.now name.now }
{
    calls.iter().any(|call| call.name.as_slice() == name)
}

/// Whether a name can be stated: it is 1 to `NAME_MAX` bytes without blanks and NUL, none that has a meaning already, and
/// none of a utility that changes the shell itself (`cd`, `shift`, `exec`, `eval`, `local`, `read`, `trap`, `readonly`,
/// `getopts`), since no call of these changes nothing.
pub fn can_be_stated(name: &[u8]) -> bool
    ensures { result ≡ can_be_stated name.now }
{
    !name.is_empty()
        && name.len() <= NAME_MAX
        && are_name_bytes(name)
        && !is_kept_name(name)
        && !changes_shell(name)
}

// Whether a name is that of a utility that changes the shell itself.
fn changes_shell(name: &[u8]) -> bool
    ensures { result ≡ changes_shell name.now }
{
    is_changing_special_built_in(name) || is_changing_utility(name)
}

// Whether a name is that of a special built-in utility that changes the shell itself.
fn is_changing_special_built_in(name: &[u8]) -> bool
    ensures { result ≡ is_one_of name.now changing_special_built_ins }
{
    name == b"eval".as_slice()
        || name == b"exec".as_slice()
        || name == b"readonly".as_slice()
        || name == b"shift".as_slice()
        || name == b"trap".as_slice()
}

// Whether a name is that of another utility that changes the shell itself.
fn is_changing_utility(name: &[u8]) -> bool
    ensures { result ≡ is_one_of name.now changing_utilities }
{
    name == b"cd".as_slice()
        || name == b"getopts".as_slice()
        || name == b"local".as_slice()
        || name == b"read".as_slice()
}

// Whether no byte is a blank or NUL.
fn are_name_bytes(name: &[u8]) -> bool
    ensures { result ≡ list_all is_name_byte name.now }
{
    name.iter().all(|byte| is_name_byte(*byte))
}

// Whether a byte is neither a blank nor NUL.
fn is_name_byte(byte: u8) -> bool
    ensures { result ≡ is_name_byte byte }
{
    byte != 0 && byte != b' ' && byte != b'\t'
}
