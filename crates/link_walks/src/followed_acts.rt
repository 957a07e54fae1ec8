ghost use Rattle.std.specs.Prelude.{◌≡◌, IfOk, false, ℕ, List};
ghost use Rattle.std.specs.List.{find};
ghost use Rattle.std.specs.Option.{option_copied, option_map};
ghost use Rattle.link_walks.specs.Following.{begin_at, changes_link, takes_away, takes_reached, takes_end, endangered};
ghost use Rattle.link_walks.specs.Following.{asked_at, spared, follow_act};

use crate::act_paths::along;
use crate::known_link::KnownLink;
use crate::walks::{Reached, reach};
use script_names::{Copied, Memory, Name, Path};
use std::alloc::Global;
use utility_calls::acts::Act;
use utility_calls::{is_in, is_prefix, same_names};

// Whether names are these, or begin them.
fn begin_at(p: &[Name], q: &[Name]) -> bool
    ensures { result ≡ begin_at p.now q.now }
{
    same_names(p, q) || is_prefix(p, q)
}

// Whether an act would change a link.
fn changes_link(a: &Act, link: &KnownLink) -> bool
    ensures { result ≡ changes_link a.now link.now }
{
    let at = link.at().names();
    match a {
        Act::Remove { p, deep, .. } => same_names(p.names(), at)
            || (*deep && is_prefix(p.names(), at)),
        Act::Symlink { p, last, force, .. } => *force && is_in(at, p.names(), last),
        Act::Move { a, .. } => begin_at(a.names(), at),
        Act::PlaceLink { p, target } => same_names(p.names(), at)
            && !(target.as_slice() == link.target()),
        Act::PlaceFile(p) | Act::PlaceConf(p) | Act::Discard(p) => same_names(p.names(), at),
        Act::Exists(_) | Act::IsReg(_) | Act::IsDir(_) | Act::IsLink(_) => false,
        Act::CanRun { .. } | Act::IsSpecial { .. } => false,
        Act::MakeDir(_) | Act::EnsureDir(_) | Act::RemoveDir(_) | Act::Touch(_) => false,
        Act::Attr(_) | Act::Copy { .. } | Act::DiscardDir(_) => false,
    }
}

// Whether an act could take the directory of these names away.
fn takes_away(a: &Act, names: &[Name]) -> bool
    ensures { result ≡ takes_away a.now names.now }
{
    match a {
        Act::RemoveDir(p) | Act::DiscardDir(p) => same_names(p.names(), names),
        Act::Remove { p, deep, .. } => *deep && begin_at(p.names(), names),
        Act::Move { a, .. } => begin_at(a.names(), names),
        Act::Exists(_) | Act::IsReg(_) | Act::IsDir(_) | Act::IsLink(_) => false,
        Act::CanRun { .. } | Act::IsSpecial { .. } | Act::Symlink { .. } => false,
        Act::MakeDir(_) | Act::EnsureDir(_) | Act::Touch(_) => false,
        Act::Attr(_) | Act::Copy { .. } => false,
        Act::PlaceFile(_) | Act::PlaceLink { .. } | Act::PlaceConf(_) | Act::Discard(_) => false,
    }
}

// Whether an act could take any directory away.
fn takes_some(a: &Act) -> bool
    ensures { result ≡ false → (names : List (List ℕ)) → takes_away a.now names ≡ false }
{
    match a {
        Act::RemoveDir(_) | Act::DiscardDir(_) | Act::Move { .. } => true,
        Act::Remove { deep, .. } => *deep,
        Act::Exists(_) | Act::IsReg(_) | Act::IsDir(_) | Act::IsLink(_) => false,
        Act::CanRun { .. } | Act::IsSpecial { .. } | Act::Symlink { .. } => false,
        Act::MakeDir(_) | Act::EnsureDir(_) | Act::Touch(_) => false,
        Act::Attr(_) | Act::Copy { .. } => false,
        Act::PlaceFile(_) | Act::PlaceLink { .. } | Act::PlaceConf(_) | Act::Discard(_) => false,
    }
}

// Whether an act could take the directory that is reached away, where one is.
fn takes_reached(a: &Act, reached: &Reached) -> bool
    ensures { result ≡ takes_reached a.now reached.now }
{
    match reached {
        Reached::At(p) => takes_away(a, p.names()),
        Reached::Blocked(_) => false,
    }
}

// Whether an act could take the end of a link away.
fn takes_end(alloc: Global, links: &[KnownLink], a: &Act, link: &KnownLink) -> Result<bool, Memory>
    ensures { IfOk result (λ takes. takes ≡ takes_end links.now a.now link.now) }
{
    let end = reach(alloc, links, link.at(), true)?;
    Ok(takes_reached(a, &end))
}

// The first link that an act would change.
fn first_changed<'a>(links: &'a [KnownLink], a: &Act) -> Option<&'a KnownLink>
    ensures { option_copied result ≡ find (changes_link a.now) links.now }
{
    links.iter().find(|link| changes_link(a, link))
}

// The first link whose end an act could take away.
fn first_taken<'a>(
    alloc: Global,
    links: &'a [KnownLink],
    a: &Act,
) -> Result<Option<&'a KnownLink>, Memory>
    ensures { IfOk result (λ found. option_copied found ≡ find (takes_end links.now a.now) links.now) }
{
    if !takes_some(a) {
        return Ok(None);
    }
    for link in links {
        let takes = takes_end(alloc, links, a, link)?;
        if takes {
            return Ok(Some(link));
        }
    }
    Ok(None)
}

// The first link that an act would change, or else the first whose end it could take away.
fn endangered<'a>(
    alloc: Global,
    links: &'a [KnownLink],
    a: &Act,
) -> Result<Option<&'a KnownLink>, Memory>
    ensures { IfOk result (λ found. option_copied found ≡ endangered links.now a.now) }
{
    match first_changed(links, a) {
        Some(link) => Ok(Some(link)),
        None => first_taken(alloc, links, a),
    }
}

// The path of that link, copied.
fn endangered_at(alloc: Global, links: &[KnownLink], a: &Act) -> Result<Option<Path>, Memory>
    ensures { IfOk result (λ at. at ≡ option_map (λ link. link.at) (endangered links.now a.now)) }
{
    match endangered(alloc, links, a)? {
        Some(link) => {
            let at = link.at().copy(alloc)?;
            Ok(Some(at))
        }
        None => Ok(None),
    }
}

// The question whether anything stands at a path, where there is one, else the act.
fn asked_at(at: Option<Path>, a: Act) -> Act
    ensures { result ≡ asked_at at a }
{
    match at {
        Some(p) => Act::Exists(p),
        None => a,
    }
}

/// An act with its paths taken along known links: at the last name too for questions but `test -h`, for `mkdir -p`,
/// `touch`, `ln -s`, `chmod` and those like it, and the second path of `mv` and `cp`. Where a path is blocked it becomes the question whether anything stands
/// at the link that blocks it. One that would change a known link, or could take the directory at its end away, becomes
/// that question at the first such link; on a tree in which the link stands it has no answer.
pub fn follow_act(alloc: Global, links: &[KnownLink], a: Act) -> Result<Act, Memory>
    ensures { IfOk result (λ act. act ≡ follow_act links.now a) }
{
    let there = along(alloc, links, a)?;
    let at = endangered_at(alloc, links, &there)?;
    Ok(asked_at(at, there))
}
