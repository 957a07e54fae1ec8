ghost use Rattle.std.specs.Prelude.{◌≡◌, ◌↔◌, IsTrue, IfOk};
ghost use Rattle.std.specs.Option.{option_copied};
ghost use Rattle.utility_calls.specs.Acts.{path_of, place_of, inner_name, target_of, moved, source, takes, is_prefix};
ghost use Rattle.utility_calls.specs.Acts.{is_below};
ghost use Rattle.utility_calls.specs.Acts.{is_question, IsMove, IsPerformed};

use crate::acts::Act;
use crate::pairs::same_name;
use feature_trees::{Kind, Kinds};
use script_names::{Bytes, Copied, Memory, Name, Path};
use std::alloc::Global;

impl Act {
    /// The path of the act; of a move or a copy that of what is moved or copied.
    pub fn path(&self) -> &Path
        ensures { result.now ≡ path_of self.now }
    {
        match self {
            Act::Exists(p) | Act::IsReg(p) | Act::IsDir(p) | Act::IsLink(p) => p,
            Act::MakeDir(p) | Act::EnsureDir(p) | Act::RemoveDir(p) | Act::Touch(p) => p,
            Act::CanRun { p, .. } | Act::IsSpecial { p, .. } | Act::Remove { p, .. } => p,
            Act::Symlink { p, .. } | Act::PlaceLink { p, .. } => p,
            Act::Move { a, .. } | Act::Copy { a, .. } => a,
            Act::Attr(p) => p,
            Act::PlaceFile(p) | Act::PlaceConf(p) | Act::Discard(p) | Act::DiscardDir(p) => p,
        }
    }

    /// The path of the place that the act looks at; of a move or a copy its second path.
    pub fn place(&self) -> &Path
        ensures { result.now.names ≡ place_of self.now }
    {
        match self {
            Act::Exists(p) | Act::IsReg(p) | Act::IsDir(p) | Act::IsLink(p) => p,
            Act::MakeDir(p) | Act::EnsureDir(p) | Act::RemoveDir(p) | Act::Touch(p) => p,
            Act::CanRun { p, .. } | Act::IsSpecial { p, .. } | Act::Remove { p, .. } => p,
            Act::Symlink { p, .. } | Act::PlaceLink { p, .. } => p,
            Act::Move { b, .. } | Act::Copy { b, .. } => b,
            Act::Attr(p) => p,
            Act::PlaceFile(p) | Act::PlaceConf(p) | Act::Discard(p) | Act::DiscardDir(p) => p,
        }
    }

    /// The name under which a link, or what is moved or copied, is put in a directory at that place.
    pub fn inner_name(&self) -> Option<&Name>
        ensures { option_copied result ≡ inner_name self.now }
    {
        match self {
            Act::Symlink { last, .. } => Some(last),
            Act::Move { a, .. } | Act::Copy { a, .. } => a.last(),
            Act::Exists(_) | Act::IsReg(_) | Act::IsDir(_) | Act::IsLink(_) | Act::CanRun { .. } =>
                None,
            Act::MakeDir(_) | Act::EnsureDir(_) | Act::RemoveDir(_) | Act::Touch(_) => None,
            Act::IsSpecial { .. } | Act::Remove { .. } | Act::PlaceLink { .. } | Act::Attr(_) =>
                None,
            Act::PlaceFile(_) | Act::PlaceConf(_) | Act::Discard(_) | Act::DiscardDir(_) => None,
        }
    }

    /// The target of a link that the act makes, copied; no bytes for every other act.
    pub fn copy_target(&self, alloc: Global) -> Result<Bytes, Memory>
        ensures { IfOk result (λ target. target ≡ target_of self.now) }
    {
        match self {
            Act::Symlink { target, .. } => target.copy(alloc),
            Act::PlaceLink { target, .. } => target.copy(alloc),
            Act::Exists(_) | Act::IsReg(_) | Act::IsDir(_) | Act::IsLink(_) | Act::CanRun { .. } =>
                Ok(Bytes::new(alloc)),
            Act::MakeDir(_) | Act::EnsureDir(_) | Act::RemoveDir(_) | Act::Touch(_) => Ok(
                Bytes::new(alloc),
            ),
            Act::IsSpecial { .. } | Act::Remove { .. } | Act::Move { .. } => Ok(Bytes::new(alloc)),
            Act::Attr(_) | Act::Copy { .. } => Ok(Bytes::new(alloc)),
            Act::PlaceFile(_) | Act::PlaceConf(_) | Act::Discard(_) | Act::DiscardDir(_) => Ok(
                Bytes::new(alloc),
            ),
        }
    }

    /// The path of what is moved, for a move alone.
    pub fn moved(&self) -> Option<&Path>
        ensures { option_copied result ≡ moved self.now }
    {
        match self {
            Act::Move { a, .. } => Some(a),
            Act::Attr(_) | Act::Copy { .. } => None,
            Act::Exists(_) | Act::IsReg(_) | Act::IsDir(_) | Act::IsLink(_) | Act::CanRun { .. } =>
                None,
            Act::MakeDir(_) | Act::EnsureDir(_) | Act::RemoveDir(_) | Act::Touch(_) => None,
            Act::IsSpecial { .. } | Act::Remove { .. } => None,
            Act::Symlink { .. } | Act::PlaceLink { .. } => None,
            Act::PlaceFile(_) | Act::PlaceConf(_) | Act::Discard(_) | Act::DiscardDir(_) => None,
        }
    }

    /// The path of what is moved or copied, for a move and a copy alone.
    pub fn source(&self) -> Option<&Path>
        ensures { option_copied result ≡ source self.now }
    {
        match self {
            Act::Move { a, .. } | Act::Copy { a, .. } => Some(a),
            Act::Exists(_) | Act::IsReg(_) | Act::IsDir(_) | Act::IsLink(_) | Act::CanRun { .. } =>
                None,
            Act::MakeDir(_) | Act::EnsureDir(_) | Act::RemoveDir(_) | Act::Touch(_) => None,
            Act::IsSpecial { .. } | Act::Remove { .. } | Act::Attr(_) => None,
            Act::Symlink { .. } | Act::PlaceLink { .. } => None,
            Act::PlaceFile(_) | Act::PlaceConf(_) | Act::Discard(_) | Act::DiscardDir(_) => None,
        }
    }

    /// Whether what is of this kind is moved or copied: anything that is there is moved; a regular file is copied, and
    /// with `deep` a directory.
    pub fn takes(&self, kind: Kind) -> bool
        ensures { result ≡ takes self.now kind }
    {
        match self {
            Act::Copy { deep, .. } => match kind {
                Kind::Reg => true,
                Kind::Dir => *deep,
                Kind::Absent | Kind::Link | Kind::Special(_) => false,
            },
            _ => Kinds::but(Kind::Absent).has(kind),
        }
    }

    /// Whether a move's second path is below its first.
    pub fn is_below(&self) -> bool
        ensures { result ≡ is_below self.now }
    {
        match self.moved() {
            Some(a) => is_prefix(a.names(), self.place().names()),
            None => false,
        }
    }
}

/// Whether names begin others, which have at least one more.
pub fn is_prefix(p: &[Name], q: &[Name]) -> bool
    ensures { result ≡ is_prefix p.now q.now }
{
    let mut left = p;
    let mut right = q;
    while let [g, more @ ..] = right {
        match left {
            [] => return true,
            [f, rest @ ..] => {
                if !same_name(f, g) {
                    return false;
                }
                left = rest;
                right = more;
            }
        }
    }
    false
}

impl Act {
    /// Whether the act changes nothing of a tree: a question, or what sets a mode or an owner.
    pub fn asks(&self) -> bool
        ensures { result ≡ is_question self.now }
    {
        match self {
            Act::Exists(_) | Act::IsReg(_) | Act::IsDir(_) | Act::IsLink(_) | Act::CanRun { .. } =>
                true,
            Act::IsSpecial { .. } | Act::Attr(_) => true,
            Act::MakeDir(_) | Act::EnsureDir(_) | Act::RemoveDir(_) | Act::Touch(_) => false,
            Act::Remove { .. } | Act::Symlink { .. } | Act::PlaceLink { .. } | Act::Move { .. } =>
                false,
            Act::Copy { .. } => false,
            Act::PlaceFile(_) | Act::PlaceConf(_) | Act::Discard(_) | Act::DiscardDir(_) => false,
        }
    }

    // Whether the names of a move's paths differ.
    fn moves_apart(&self) -> bool
        ensures { IsTrue result ↔ IsMove self.now }
    {
        match self.moved() {
            Some(a) => !a.same_names(self.place()),
            None => true,
        }
    }

    /// Whether the act meets the conditions of one that is done: the paths of one that changes the tree have names,
    /// and those of a move differ.
    pub fn is_performed(&self) -> bool
        ensures { IsTrue result ↔ IsPerformed self.now }
    {
        if !self.moves_apart() {
            return false;
        }
        if self.asks() {
            return true;
        }
        if self.path().names().is_empty() {
            return false;
        }
        !self.place().names().is_empty()
    }
}
