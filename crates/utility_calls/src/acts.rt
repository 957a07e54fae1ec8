ghost use Rattle.std.specs.Prelude.{◌≡◌, IfOk};
ghost use Rattle.utility_calls.specs.declared.acts.Act.TheVariants.{CanRun, IsSpecial, Remove, Symlink, Move, Copy};
ghost use Rattle.utility_calls.specs.declared.acts.Act.TheVariants.{PlaceLink};

use feature_trees::Special;
use script_names::{Bytes, Copied, Memory, Name, Path};
use std::alloc::Global;

/// One atomic step of a run: a question to the file tree, or a change of it (POSIX.1-2017, XCU; Debian Policy,
/// chapter 6, for the files that a package manager places and discards).
#[derive(Debug, Drop)]
pub enum Act {
    /// `test -e`: whether something stands at the path.
    Exists(Path),
    /// `test -f`: whether a regular file stands at the path.
    IsReg(Path),
    /// `test -d`: whether a directory stands at the path.
    IsDir(Path),
    /// `test -h`: whether a symbolic link stands at the path.
    IsLink(Path),
    /// `test -x`: whether what stands at the path may be run or searched. With `runs` it is taken that a regular file
    /// may be run; else its mode is not known.
    CanRun {
        p: Path,
        runs: bool,
    },
    /// `test -p`, `-S`, `-b`, `-c`: whether what stands at the path is of this special kind.
    IsSpecial {
        p: Path,
        kind: Special,
    },
    /// `mkdir`: makes an empty directory at the path.
    MakeDir(Path),
    /// One step of `mkdir -p`: makes a directory at the path unless one stands there.
    EnsureDir(Path),
    /// `rmdir`: takes an empty directory away.
    RemoveDir(Path),
    /// `rm`: takes away what stands at the path; with `force` nothing is no failure, with `deep` a directory goes with
    /// all below it.
    Remove {
        p: Path,
        force: bool,
        deep: bool,
    },
    /// `touch`: makes an empty regular file at the path unless something stands there.
    Touch(Path),
    /// `ln -s`: makes a symbolic link with this target at the path, or where a directory stands there, in it under the
    /// target's last name; with `force` also in place of a file or a special file, and in a directory of a link.
    Symlink {
        p: Path,
        target: Bytes,
        last: Name,
        force: bool,
    },
    /// `mv`: moves what stands at `a` to `b`, or where a directory stands there, into it.
    Move {
        a: Path,
        b: Path,
    },
    /// `chmod`, `chown`, `chgrp`: sets the mode or the owner of what stands at the path, which a tree does not have.
    Attr(Path),
    /// `cp`: puts what stands at `a` at `b` too, or where a directory stands there, in it; with `deep` also a directory,
    /// with all below it.
    Copy {
        a: Path,
        b: Path,
        deep: bool,
    },
    /// A package manager places a regular file at the path.
    PlaceFile(Path),
    /// A package manager places a symbolic link at the path.
    PlaceLink {
        p: Path,
        target: Bytes,
    },
    /// A package manager places a configuration file at the path.
    PlaceConf(Path),
    /// A package manager takes away what stands at the path, unless it is a directory.
    Discard(Path),
    /// A package manager takes away the directory at the path, if it is empty.
    DiscardDir(Path),
}

impl Copied for Act {
    fn copy(&self, alloc: Global) -> Result<Act, Memory> {
        match self {
            Act::Exists(p) => Ok(Act::Exists(p.copy(alloc)?)),
            Act::IsReg(p) => Ok(Act::IsReg(p.copy(alloc)?)),
            Act::IsDir(p) => Ok(Act::IsDir(p.copy(alloc)?)),
            Act::IsLink(p) => Ok(Act::IsLink(p.copy(alloc)?)),
            Act::CanRun { p, runs } => copy_can_run(alloc, p, *runs),
            Act::IsSpecial { p, kind } => copy_is_special(alloc, p, *kind),
            Act::MakeDir(p) => Ok(Act::MakeDir(p.copy(alloc)?)),
            Act::EnsureDir(p) => Ok(Act::EnsureDir(p.copy(alloc)?)),
            Act::RemoveDir(p) => Ok(Act::RemoveDir(p.copy(alloc)?)),
            Act::Remove { p, force, deep } => copy_remove(alloc, p, *force, *deep),
            Act::Touch(p) => Ok(Act::Touch(p.copy(alloc)?)),
            Act::Symlink {
                p,
                target,
                last,
                force,
            } => copy_symlink(alloc, p, target, last, *force),
            Act::Move { a, b } => copy_move(alloc, a, b),
            Act::Attr(p) => Ok(Act::Attr(p.copy(alloc)?)),
            Act::Copy { a, b, deep } => copy_copy(alloc, a, b, *deep),
            Act::PlaceFile(p) => Ok(Act::PlaceFile(p.copy(alloc)?)),
            Act::PlaceLink { p, target } => copy_place_link(alloc, p, target),
            Act::PlaceConf(p) => Ok(Act::PlaceConf(p.copy(alloc)?)),
            Act::Discard(p) => Ok(Act::Discard(p.copy(alloc)?)),
            Act::DiscardDir(p) => Ok(Act::DiscardDir(p.copy(alloc)?)),
        }
    }
}

// `test -x` of a copy of the path.
fn copy_can_run(alloc: Global, p: &Path, runs: bool) -> Result<Act, Memory>
    ensures { IfOk result (λ act. act ≡ CanRun p.now runs) }
{
    let p = p.copy(alloc)?;
    Ok(Act::CanRun { p, runs })
}

// The question of a copy of the path.
fn copy_is_special(alloc: Global, p: &Path, kind: Special) -> Result<Act, Memory>
    ensures { IfOk result (λ act. act ≡ IsSpecial p.now kind) }
{
    let p = p.copy(alloc)?;
    Ok(Act::IsSpecial { p, kind })
}

// `rm` of a copy of the path.
fn copy_remove(alloc: Global, p: &Path, force: bool, deep: bool) -> Result<Act, Memory>
    ensures { IfOk result (λ act. act ≡ Remove p.now force deep) }
{
    let p = p.copy(alloc)?;
    Ok(Act::Remove { p, force, deep })
}

// `ln -s` of copies of the parts.
fn copy_symlink(
    alloc: Global,
    p: &Path,
    target: &Bytes,
    last: &Name,
    force: bool,
) -> Result<Act, Memory>
    ensures { IfOk result (λ act. act ≡ Symlink p.now target.now last.now force) }
{
    let p = p.copy(alloc)?;
    let target = target.copy(alloc)?;
    let last = last.copy(alloc)?;
    Ok(Act::Symlink {
        p,
        target,
        last,
        force,
    })
}

// `mv` of copies of the paths.
fn copy_move(alloc: Global, a: &Path, b: &Path) -> Result<Act, Memory>
    ensures { IfOk result (λ act. act ≡ Move a.now b.now) }
{
    let a = a.copy(alloc)?;
    let b = b.copy(alloc)?;
    Ok(Act::Move { a, b })
}

// `cp` of copies of the paths.
fn copy_copy(alloc: Global, a: &Path, b: &Path, deep: bool) -> Result<Act, Memory>
    ensures { IfOk result (λ act. act ≡ Copy a.now b.now deep) }
{
    let a = a.copy(alloc)?;
    let b = b.copy(alloc)?;
    Ok(Act::Copy { a, b, deep })
}

// The placing of a link, of copies of the parts.
fn copy_place_link(alloc: Global, p: &Path, target: &Bytes) -> Result<Act, Memory>
    ensures { IfOk result (λ act. act ≡ PlaceLink p.now target.now) }
{
    let p = p.copy(alloc)?;
    let target = target.copy(alloc)?;
    Ok(Act::PlaceLink { p, target })
}
