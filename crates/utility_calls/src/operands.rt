ghost use Rattle.std.specs.Prelude.{◌≡◌, [], ◌∷◌, IfOk};
ghost use Rattle.script_names.specs.Paths.{path_of as path_spelled};
ghost use Rattle.utility_calls.specs.Gives.{Gives};
ghost use Rattle.utility_calls.specs.Operands.{operand_reason, file_reason, each_reason, each_acts, first_reason};
ghost use Rattle.utility_calls.specs.Operands.{all_acts, slash_reason, root_reason, call_fault};
ghost use Rattle.utility_calls.specs.declared.operands.Each.TheVariants.{EnsureDirs};

use crate::acts::Act;
use crate::fault::CallFault;
use crate::options::is_option;
use script_names::{Bytes, Copied, List, Memory, Name, Path, PathFault, Reason};
use std::alloc::Global;

/// What a utility does for each of its operands, a path.
#[derive(Clone, Copy, Debug, PartialEq, Eq)]
pub enum Each {
    /// `mkdir`
    MakeDir,
    /// `mkdir -p`
    EnsureDirs,
    /// `rmdir`
    RemoveDir,
    /// `rm`, with and without `-f` and `-r`
    Remove { force: bool, deep: bool },
    /// `touch`
    Touch,
    /// `chmod`, `chown` and `chgrp`, for each operand but the first
    Attr,
}

// The fault of a word that spells no path.
pub(crate) fn call_fault(fault: PathFault) -> CallFault
    ensures { result ≡ call_fault fault }
{
    match fault {
        PathFault::Empty => CallFault::Because(Reason::Empty),
        PathFault::Nul => CallFault::Because(Reason::Call),
        PathFault::DotDot => CallFault::Because(Reason::DotDot),
        PathFault::Dot => CallFault::Because(Reason::Dot),
        PathFault::LongName => CallFault::Because(Reason::Long),
        PathFault::Many => CallFault::Because(Reason::Long),
        PathFault::Memory => CallFault::Memory,
    }
}

// The path of an operand, by whether `--` ended the options.
pub(crate) fn read_operand(alloc: Global, ended: bool, word: &[u8]) -> Result<Path, CallFault>
    ensures { Gives (operand_reason ended word.now) (path_spelled word.now) result }
{
    if !ended && is_option(word) {
        return Err(CallFault::Because(Reason::Call));
    }
    match Path::read(alloc, word) {
        Ok(path) => below_root(path),
        Err(fault) => Err(call_fault(fault)),
    }
}

// The path, unless it is the root.
fn below_root(path: Path) -> Result<Path, CallFault>
    ensures { Gives (root_reason path.names) path result }
{
    if path.names().is_empty() {
        Err(CallFault::Because(Reason::Root))
    } else {
        Ok(path)
    }
}

// The path of an operand that is a file's path.
pub(crate) fn read_file(alloc: Global, ended: bool, word: &[u8]) -> Result<Path, CallFault>
    ensures { Gives (file_reason ended word.now) (path_spelled word.now) result }
{
    match read_operand(alloc, ended, word) {
        Ok(path) => without_slash(path),
        Err(fault) => Err(fault),
    }
}

// The path, unless it ends in a slash.
pub(crate) fn without_slash(path: Path) -> Result<Path, CallFault>
    ensures { Gives (slash_reason path) path result }
{
    if path.slash() {
        Err(CallFault::Because(Reason::Slash))
    } else {
        Ok(path)
    }
}

// The path of an operand of a utility that goes through its operands.
fn read_each(alloc: Global, each: Each, ended: bool, word: &[u8]) -> Result<Path, CallFault>
    ensures { Gives (each_reason each ended word.now) (path_spelled word.now) result }
{
    match each {
        Each::MakeDir => read_operand(alloc, ended, word),
        Each::EnsureDirs => read_operand(alloc, ended, word),
        Each::RemoveDir => read_operand(alloc, ended, word),
        Each::Remove { force: _, deep: _ } => read_operand(alloc, ended, word),
        Each::Touch => read_file(alloc, ended, word),
        Each::Attr => read_operand(alloc, ended, word),
    }
}

// A list of one act.
pub(crate) fn one_act(alloc: Global, act: Act) -> Result<List<Act>, Memory>
    ensures { IfOk result (λ acts. acts ≡ act ∷ []) }
{
    let mut acts = List::new(alloc);
    acts.add(act)?;
    Ok(acts)
}

// The acts of one operand.
fn acts_of(alloc: Global, each: Each, path: Path) -> Result<List<Act>, Memory>
    ensures { IfOk result (λ acts. acts ≡ each_acts each path) }
{
    match each {
        Each::MakeDir => one_act(alloc, Act::MakeDir(path)),
        Each::EnsureDirs => ensure_each(alloc, path),
        Each::RemoveDir => one_act(alloc, Act::RemoveDir(path)),
        Each::Remove { force, deep } => one_act(
            alloc,
            Act::Remove {
                p: path,
                force,
                deep,
            },
        ),
        Each::Touch => one_act(alloc, Act::Touch(path)),
        Each::Attr => one_act(alloc, Act::Attr(path)),
    }
}

// The acts that ensure each directory on the way to a path, and the one at it.
fn ensure_each(alloc: Global, path: Path) -> Result<List<Act>, Memory>
    ensures { IfOk result (λ acts. acts ≡ each_acts EnsureDirs path) }
{
    let mut acts = List::new(alloc);
    let names = path.names();
    for count in 1..names.len() {
        let above = List::copies(alloc, &names[..count])?;
        acts.add(Act::EnsureDir(Path::new(above, false)))?;
    }
    acts.add(Act::EnsureDir(path))?;
    Ok(acts)
}

// The acts of each operand.
pub(crate) fn read_all(
    alloc: Global,
    each: Each,
    ended: bool,
    words: &[Bytes],
) -> Result<List<List<Act>>, CallFault>
    ensures { Gives (first_reason each ended words.now) (all_acts each words.now) result }
{
    let mut all = List::new(alloc);
    let mut left = words;
    while let [word, rest @ ..] = left {
        let path = match read_each(alloc, each, ended, word.as_slice()) {
            Ok(path) => path,
            Err(fault) => return Err(fault),
        };
        let acts = acts_of(alloc, each, path)?;
        all.add(acts)?;
        left = rest;
    }
    Ok(all)
}
