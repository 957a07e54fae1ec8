ghost use Rattle.std.specs.Prelude.{◌≡◌, IfOk};
ghost use Rattle.link_walks.specs.Following.{follows_last, with_path, second_along, along};

use crate::known_link::KnownLink;
use crate::walks::{Reached, reach};
use script_names::{Memory, Path};
use std::alloc::Global;
use utility_calls::acts::Act;

// Whether an act follows a link at its path's last name too; of a move or a copy that is said of its first path.
fn follows_last(a: &Act) -> bool
    ensures { result ≡ follows_last a.now }
{
    match a {
        Act::Exists(_) | Act::IsReg(_) | Act::IsDir(_) | Act::IsSpecial { .. } => true,
        Act::CanRun { .. } | Act::EnsureDir(_) | Act::Touch(_) | Act::Symlink { .. } => true,
        Act::Attr(_) => true,
        Act::IsLink(_) | Act::MakeDir(_) | Act::RemoveDir(_) | Act::Remove { .. } => false,
        Act::Move { .. } | Act::Copy { .. } => false,
        Act::PlaceFile(_) | Act::PlaceLink { .. } => false,
        Act::PlaceConf(_) | Act::Discard(_) | Act::DiscardDir(_) => false,
    }
}

// The act with another path; of a move or a copy its first one.
fn with_path(a: Act, q: Path) -> Act
    ensures { result ≡ with_path a q }
{
    match a {
        Act::Exists(_) => Act::Exists(q),
        Act::IsReg(_) => Act::IsReg(q),
        Act::IsDir(_) => Act::IsDir(q),
        Act::IsLink(_) => Act::IsLink(q),
        Act::CanRun { p: _, runs } => Act::CanRun { p: q, runs },
        Act::IsSpecial { p: _, kind } => Act::IsSpecial { p: q, kind },
        Act::MakeDir(_) => Act::MakeDir(q),
        Act::EnsureDir(_) => Act::EnsureDir(q),
        Act::RemoveDir(_) => Act::RemoveDir(q),
        Act::Remove { p: _, force, deep } => Act::Remove { p: q, force, deep },
        Act::Touch(_) => Act::Touch(q),
        Act::Symlink {
            p: _,
            target,
            last,
            force,
        } => Act::Symlink {
            p: q,
            target,
            last,
            force,
        },
        Act::Attr(_) => Act::Attr(q),
        Act::Move { a: _, b } => Act::Move { a: q, b },
        Act::Copy { a: _, b, deep } => Act::Copy { a: q, b, deep },
        Act::PlaceFile(_) => Act::PlaceFile(q),
        Act::PlaceLink { p: _, target } => Act::PlaceLink { p: q, target },
        Act::PlaceConf(_) => Act::PlaceConf(q),
        Act::Discard(_) => Act::Discard(q),
        Act::DiscardDir(_) => Act::DiscardDir(q),
    }
}

// The act with the second path of a move or a copy taken along the links.
fn second_along(alloc: Global, links: &[KnownLink], a: Act) -> Result<Act, Memory>
    ensures { IfOk result (λ act. act ≡ second_along links.now a) }
{
    match a {
        Act::Move { a, b } => match reach(alloc, links, &b, true)? {
            Reached::At(q) => Ok(Act::Move { a, b: q }),
            Reached::Blocked(p) => Ok(Act::Exists(p)),
        },
        Act::Copy { a, b, deep } => match reach(alloc, links, &b, true)? {
            Reached::At(q) => Ok(Act::Copy { a, b: q, deep }),
            Reached::Blocked(p) => Ok(Act::Exists(p)),
        },
        other => Ok(other),
    }
}

/// An act with its paths taken along the links; where one is blocked, the question whether anything stands there.
pub(crate) fn along(alloc: Global, links: &[KnownLink], a: Act) -> Result<Act, Memory>
    ensures { IfOk result (λ act. act ≡ along links.now a) }
{
    let last = follows_last(&a);
    match reach(alloc, links, a.path(), last)? {
        Reached::At(q) => second_along(alloc, links, with_path(a, q)),
        Reached::Blocked(p) => Ok(Act::Exists(p)),
    }
}
