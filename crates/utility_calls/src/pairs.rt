ghost use Rattle.std.specs.Prelude.{◌≡◌, ◌++◌, ◌∷◌, [], None, IfOk};
ghost use Rattle.std.specs.Str.{bytes_eq};
ghost use Rattle.script_names.specs.Paths.{path_of as path_spelled, path_fault, spelled_names};
ghost use Rattle.utility_calls.specs.Gives.{Gives};
ghost use Rattle.utility_calls.specs.Pairs.{same_names, full_reason, last_component, target_reason, reaches};
ghost use Rattle.utility_calls.specs.Pairs.{self_reason};
ghost use Rattle.utility_calls.specs.Pairs.{place_reason, end_reason, link_reason, ln_reason, ln_act, is_parent};
ghost use Rattle.utility_calls.specs.Pairs.{still_reason, to_reason, mv_reason, mv_act};
ghost use Rattle.utility_calls.specs.Pairs.{copies_itself, self_copy_reason, copy_to_reason, cp_reason, cp_act};
ghost use Rattle.utility_calls.specs.Pairs.{unlink_reason, unlink_act};

use crate::acts::Act;
use crate::fault::CallFault;
use crate::operands::{read_file, read_operand, without_slash};
use crate::places::is_prefix;
use script_names::{Bytes, Copied, MAX_NAMES, Memory, Name, NameFault, Path, PathFault, Reason};
use std::alloc::Global;

/// Whether two names are the same.
pub fn same_name(f: &Name, g: &Name) -> bool
    ensures { result ≡ bytes_eq f.now g.now }
{
    f.as_slice() == g.as_slice()
}

/// Whether two lists of names are the same.
pub fn same_names(p: &[Name], q: &[Name]) -> bool
    ensures { result ≡ same_names p.now q.now }
{
    let mut left = p;
    let mut right = q;
    while let [f, rest @ ..] = left {
        match right {
            [] => return false,
            [g, more @ ..] => {
                if !same_name(f, g) {
                    return false;
                }
                left = rest;
                right = more;
            }
        }
    }
    right.is_empty()
}

/// Whether names are those of the directory that holds what the others name.
pub fn is_parent(above: &[Name], names: &[Name]) -> bool
    ensures { result ≡ is_parent above.now names.now }
{
    let last = names.len().saturating_sub(1);
    same_names(above, &names[..last])
}

// The last component of a target that isn't empty; none is empty.
fn last_component(target: &[u8]) -> &[u8]
    ensures { result.now ≡ last_component target.now }
{
    let last = target
        .split(|b| *b == b'/')
        .filter(|part| !part.is_empty())
        .last();
    match last {
        Some(part) => part,
        None => &[],
    }
}

// The last name of a target of `ln`, by whether `-s` is among the options.
fn read_target(alloc: Global, symbolic: bool, target: &[u8]) -> Result<Name, CallFault>
    ensures { Gives (target_reason symbolic target.now) (last_component target.now) result }
{
    if !symbolic {
        return Err(CallFault::Because(Reason::Call));
    }
    if target.is_empty() {
        return Err(CallFault::Because(Reason::Empty));
    }
    match Name::read(alloc, last_component(target)) {
        Ok(name) => Ok(name),
        Err(NameFault::Bad) => Err(CallFault::Because(Reason::Call)),
        Err(NameFault::Memory) => Err(CallFault::Memory),
    }
}

// The path, unless it has 64 names.
fn not_full(path: Path) -> Result<Path, CallFault>
    ensures { Gives (full_reason path) path result }
{
    if path.names().len() >= MAX_NAMES {
        Err(CallFault::Because(Reason::Long))
    } else {
        Ok(path)
    }
}

/// Whether names are those of a path, with this one behind them.
pub fn is_in(target: &[Name], path: &[Name], last: &Name) -> bool
    ensures { result ≡ same_names target.now (path.now ++ last.now ∷ []) }
{
    let mut left = target;
    let mut right = path;
    while let [g, more @ ..] = right {
        match left {
            [] => return false,
            [f, rest @ ..] => {
                if !same_name(f, g) {
                    return false;
                }
                left = rest;
                right = more;
            }
        }
    }
    match left {
        [] => false,
        [f, rest @ ..] => same_name(f, last) && rest.is_empty(),
    }
}

/// Whether a target that is read from the root on is this path, or stands in it under the target's last name.
pub fn reaches(alloc: Global, target: &[u8], path: &Path, last: &Name) -> Result<bool, Memory>
    ensures { IfOk result (λ yes.
        yes ≡ reaches (path_fault target.now) (spelled_names target.now) path.now.names last.now) }
{
    match Path::read(alloc, target) {
        Ok(read) => Ok(same_or_below(&read, path, last)),
        Err(PathFault::Memory) => Err(Memory),
        Err(_) => Ok(false),
    }
}

/// Whether a path is this one, or stands in it under the name.
pub fn same_or_below(target: &Path, path: &Path, last: &Name) -> bool
    ensures { result ≡ reaches None target.now.names path.now.names last.now }
{
    same_names(target.names(), path.names()) || is_in(target.names(), path.names(), last)
}

// The path, unless a link that is put there with `-f` would be its own target.
fn not_itself(
    alloc: Global,
    force: bool,
    target: &[u8],
    path: Path,
    last: &Name,
) -> Result<Path, CallFault>
    requires { last.now ≡ last_component target.now }
    ensures { Gives (self_reason force target.now path) path result }
{
    if !force {
        return Ok(path);
    }
    match reaches(alloc, target, &path, last) {
        Ok(true) => Err(CallFault::Because(Reason::Same)),
        Ok(false) => Ok(path),
        Err(_) => Err(CallFault::Memory),
    }
}

// The path, if it is a place for a link to the target.
fn link_place(
    alloc: Global,
    force: bool,
    target: &[u8],
    path: Path,
    last: &Name,
) -> Result<Path, CallFault>
    requires { last.now ≡ last_component target.now }
    ensures { Gives (place_reason force target.now path) path result }
{
    let path = match not_full(path) {
        Ok(path) => path,
        Err(fault) => return Err(fault),
    };
    let path = match without_slash(path) {
        Ok(path) => path,
        Err(fault) => return Err(fault),
    };
    not_itself(alloc, force, target, path, last)
}

// The path, if there is no further word.
fn at_end(path: Path, more: &[Bytes]) -> Result<Path, CallFault>
    ensures { Gives (end_reason more.now) path result }
{
    match more {
        [] => Ok(path),
        [_, ..] => Err(CallFault::Because(Reason::Call)),
    }
}

// The path of a word, with those behind it, if it is a place for a link to the target.
fn read_place(
    alloc: Global,
    force: bool,
    ended: bool,
    target: &[u8],
    last: &Name,
    word: &[u8],
    more: &[Bytes],
) -> Result<Path, CallFault>
    requires { last.now ≡ last_component target.now }
    ensures { Gives (link_reason force ended target.now word.now more.now) (path_spelled word.now) result }
{
    let path = match read_operand(alloc, ended, word) {
        Ok(path) => path,
        Err(fault) => return Err(fault),
    };
    let path = match link_place(alloc, force, target, path, last) {
        Ok(path) => path,
        Err(fault) => return Err(fault),
    };
    at_end(path, more)
}

// The act of `ln` with these operands, by its options and by whether `--` ended them.
pub(crate) fn read_link(
    alloc: Global,
    symbolic: bool,
    force: bool,
    ended: bool,
    words: &[Bytes],
) -> Result<Act, CallFault>
    ensures { Gives (ln_reason symbolic force ended words.now) (ln_act force words.now) result }
{
    match words {
        [] => Err(CallFault::Because(Reason::Call)),
        [target] => match read_target(alloc, symbolic, target.as_slice()) {
            Ok(_) => Err(CallFault::Because(Reason::Call)),
            Err(fault) => Err(fault),
        },
        [target, word, more @ ..] => {
            let target = target.as_slice();
            let last = match read_target(alloc, symbolic, target) {
                Ok(last) => last,
                Err(fault) => return Err(fault),
            };
            let p = match read_place(alloc, force, ended, target, &last, word.as_slice(), more) {
                Ok(path) => path,
                Err(fault) => return Err(fault),
            };
            let target = Bytes::from_slice(alloc, target)?;
            Ok(Act::Symlink {
                p,
                target,
                last,
                force,
            })
        }
    }
}

// The path, unless a move of the other to it would move it to itself, or into the directory that it is in.
fn moves(a: &Path, b: Path) -> Result<Path, CallFault>
    ensures { Gives (still_reason a.now.names b.names) b result }
{
    if same_names(a.names(), b.names()) || is_parent(b.names(), a.names()) {
        Err(CallFault::Because(Reason::Same))
    } else {
        Ok(b)
    }
}

// The path of a word, with those behind it, if it is a place to move the other path to.
fn read_to(
    alloc: Global,
    ended: bool,
    a: &Path,
    word: &[u8],
    more: &[Bytes],
) -> Result<Path, CallFault>
    ensures { Gives (to_reason ended a.now word.now more.now) (path_spelled word.now) result }
{
    let b = match read_file(alloc, ended, word) {
        Ok(path) => path,
        Err(fault) => return Err(fault),
    };
    let b = match moves(a, b) {
        Ok(path) => path,
        Err(fault) => return Err(fault),
    };
    let b = match not_full(b) {
        Ok(path) => path,
        Err(fault) => return Err(fault),
    };
    at_end(b, more)
}

// The act of `mv` with these operands, by whether `--` ended the options.
pub(crate) fn read_move(alloc: Global, ended: bool, words: &[Bytes]) -> Result<Act, CallFault>
    ensures { Gives (mv_reason ended words.now) (mv_act words.now) result }
{
    match words {
        [] => Err(CallFault::Because(Reason::Call)),
        [a] => match read_file(alloc, ended, a.as_slice()) {
            Ok(_) => Err(CallFault::Because(Reason::Call)),
            Err(fault) => Err(fault),
        },
        [a, b, more @ ..] => {
            let a = match read_file(alloc, ended, a.as_slice()) {
                Ok(path) => path,
                Err(fault) => return Err(fault),
            };
            let b = match read_to(alloc, ended, &a, b.as_slice(), more) {
                Ok(path) => path,
                Err(fault) => return Err(fault),
            };
            Ok(Act::Move { a, b })
        }
    }
}

/// Whether a copy is of a path to itself, or into the directory that it is in, or with `deep` to below itself.
pub fn copies_itself(deep: bool, a: &[Name], b: &[Name]) -> bool
    ensures { result ≡ copies_itself deep a.now b.now }
{
    same_names(a, b) || is_parent(b, a) || (deep && is_prefix(a, b))
}

// The path, unless a copy of the other to it would be one to itself.
fn copies(deep: bool, a: &Path, b: Path) -> Result<Path, CallFault>
    ensures { Gives (self_copy_reason deep a.now.names b.names) b result }
{
    if copies_itself(deep, a.names(), b.names()) {
        Err(CallFault::Because(Reason::Same))
    } else {
        Ok(b)
    }
}

// The path of a word, with those behind it, if it is a place to copy the other path to.
fn read_copy_to(
    alloc: Global,
    deep: bool,
    ended: bool,
    a: &Path,
    word: &[u8],
    more: &[Bytes],
) -> Result<Path, CallFault>
    ensures { Gives (copy_to_reason deep ended a.now word.now more.now) (path_spelled word.now) result }
{
    let b = match read_file(alloc, ended, word) {
        Ok(path) => path,
        Err(fault) => return Err(fault),
    };
    let b = match copies(deep, a, b) {
        Ok(path) => path,
        Err(fault) => return Err(fault),
    };
    let b = match not_full(b) {
        Ok(path) => path,
        Err(fault) => return Err(fault),
    };
    at_end(b, more)
}

// The act of `cp` with these operands, by its options and by whether `--` ended them.
pub(crate) fn read_copy(
    alloc: Global,
    deep: bool,
    ended: bool,
    words: &[Bytes],
) -> Result<Act, CallFault>
    ensures { Gives (cp_reason deep ended words.now) (cp_act deep words.now) result }
{
    match words {
        [] => Err(CallFault::Because(Reason::Call)),
        [a] => match read_file(alloc, ended, a.as_slice()) {
            Ok(_) => Err(CallFault::Because(Reason::Call)),
            Err(fault) => Err(fault),
        },
        [a, b, more @ ..] => {
            let a = match read_file(alloc, ended, a.as_slice()) {
                Ok(path) => path,
                Err(fault) => return Err(fault),
            };
            let b = match read_copy_to(alloc, deep, ended, &a, b.as_slice(), more) {
                Ok(path) => path,
                Err(fault) => return Err(fault),
            };
            Ok(Act::Copy { a, b, deep })
        }
    }
}

// The act of `unlink` with this operand, by whether `--` ended the options.
pub(crate) fn read_unlink(alloc: Global, ended: bool, words: &[Bytes]) -> Result<Act, CallFault>
    ensures { Gives (unlink_reason ended words.now) (unlink_act words.now) result }
{
    match words {
        [] => Err(CallFault::Because(Reason::Call)),
        [word, more @ ..] => {
            let path = match read_operand(alloc, ended, word.as_slice()) {
                Ok(path) => path,
                Err(fault) => return Err(fault),
            };
            let p = match at_end(path, more) {
                Ok(path) => path,
                Err(fault) => return Err(fault),
            };
            Ok(Act::Remove {
                p,
                force: false,
                deep: false,
            })
        }
    }
}
