ghost use Rattle.std.specs.Prelude.{◌≡◌, map, IfOk};
ghost use Rattle.std.specs.List.{list_any};
ghost use Rattle.script_names.specs.Paths.{path_fault};
ghost use Rattle.utility_calls.specs.Performed.{HasPerformedActs};
ghost use Rattle.utility_calls.specs.declared.planned.Planned.TheVariants.{Ask, Change};
ghost use Rattle.link_walks.specs.Following.{follow_act, leads_to, target_leads, links_itself, is_same, unless_same};
ghost use Rattle.link_walks.specs.Following.{follow};

use crate::followed_acts::follow_act;
use crate::known_link::KnownLink;
use crate::walks::{Reached, reach};
use script_names::{List, Memory, Name, Path, PathFault, Reason};
use std::alloc::Global;
use utility_calls::acts::Act;
use utility_calls::calls::Planned;
use utility_calls::{copies_itself, is_parent, reaches, same_names, same_or_below};

// Whether a path that is reached is this one, or stands in it under the name.
fn leads_to(reached: &Reached, path: &Path, last: &Name) -> bool
    ensures { result ≡ leads_to reached.now path.now.names last.now }
{
    match reached {
        Reached::At(p) => same_or_below(p, path, last),
        Reached::Blocked(_) => false,
    }
}

// Whether a target leads along the links to this path, or to what stands in it under the name.
fn target_leads(
    alloc: Global,
    links: &[KnownLink],
    target: &[u8],
    path: &Path,
    last: &Name,
) -> Result<bool, Memory>
    ensures { IfOk result (λ leads.
        leads ≡ target_leads links.now (path_fault target.now) target.now path.now.names last.now) }
{
    match Path::read(alloc, target) {
        Ok(read) => {
            let reached = reach(alloc, links, &read, false)?;
            Ok(leads_to(&reached, path, last))
        }
        Err(PathFault::Memory) => Err(Memory),
        Err(_) => Ok(false),
    }
}

// Whether a link that replaces another one would be its own target.
fn links_itself(
    alloc: Global,
    links: &[KnownLink],
    target: &[u8],
    path: &Path,
    last: &Name,
) -> Result<bool, Memory>
    ensures { IfOk result (λ same. same ≡ links_itself links.now target.now path.now.names last.now) }
{
    let direct = reaches(alloc, target, path, last)?;
    if direct {
        return Ok(true);
    }
    target_leads(alloc, links, target, path, last)
}

// Whether an act that was taken along the links puts a link in place of its own target, moves a path to itself or into
// the directory that it is in, or copies one so, or with all below it to below itself.
fn is_same(alloc: Global, links: &[KnownLink], a: &Act) -> Result<bool, Memory>
    ensures { IfOk result (λ same. same ≡ is_same links.now a.now) }
{
    match a {
        Act::Symlink {
            p,
            target,
            last,
            force,
        } => {
            if !*force {
                return Ok(false);
            }
            links_itself(alloc, links, target.as_slice(), p, last)
        }
        Act::Move { a, b } => Ok(
            same_names(a.names(), b.names()) || is_parent(b.names(), a.names()),
        ),
        Act::Copy { a, b, deep } => Ok(copies_itself(*deep, a.names(), b.names())),
        Act::Exists(_) | Act::IsReg(_) | Act::IsDir(_) | Act::IsLink(_) => Ok(false),
        Act::CanRun { .. } | Act::IsSpecial { .. } | Act::Remove { .. } => Ok(false),
        Act::MakeDir(_) | Act::EnsureDir(_) | Act::RemoveDir(_) | Act::Touch(_) => Ok(false),
        Act::Attr(_) => Ok(false),
        Act::PlaceFile(_) | Act::PlaceLink { .. } | Act::PlaceConf(_) => Ok(false),
        Act::Discard(_) | Act::DiscardDir(_) => Ok(false),
    }
}

// Whether one of the acts is such an act.
fn some_same(alloc: Global, links: &[KnownLink], acts: &[Act]) -> Result<bool, Memory>
    ensures { IfOk result (λ same. same ≡ list_any (is_same links.now) acts.now) }
{
    for a in acts {
        let same = is_same(alloc, links, a)?;
        if same {
            return Ok(true);
        }
    }
    Ok(false)
}

// Whether an act of one of the lists is such an act.
fn any_same(alloc: Global, links: &[KnownLink], lists: &[List<Act>]) -> Result<bool, Memory>
    ensures { IfOk result (λ same. same ≡ list_any (list_any (is_same links.now)) lists.now) }
{
    for acts in lists {
        let same = some_same(alloc, links, acts.as_slice())?;
        if same {
            return Ok(true);
        }
    }
    Ok(false)
}

// What is planned, unless it comes to such an act.
fn unless_same(same: bool, planned: Planned) -> Planned
    ensures { result ≡ unless_same same planned }
{
    if same {
        Planned::Unspecified(Reason::Same)
    } else {
        planned
    }
}

// The acts, each followed.
fn follow_acts(alloc: Global, links: &[KnownLink], acts: List<Act>) -> Result<List<Act>, Memory>
    ensures { IfOk result (λ there. there ≡ map (follow_act links.now) acts) }
{
    let mut there = List::new(alloc);
    for a in acts.into_vec() {
        let followed = follow_act(alloc, links, a)?;
        there.add(followed)?;
    }
    Ok(there)
}

// The lists of acts, each act followed.
fn follow_lists(
    alloc: Global,
    links: &[KnownLink],
    lists: List<List<Act>>,
) -> Result<List<List<Act>>, Memory>
    ensures { IfOk result (λ there. there ≡ map (map (follow_act links.now)) lists) }
{
    let mut there = List::new(alloc);
    for acts in lists.into_vec() {
        let followed = follow_acts(alloc, links, acts)?;
        there.add(followed)?;
    }
    Ok(there)
}

// A question with its paths taken along the links.
fn follow_ask(alloc: Global, links: &[KnownLink], act: Act, negate: bool) -> Result<Planned, Memory>
    ensures { IfOk result (λ planned.
        planned ≡ unless_same (is_same links.now (follow_act links.now act)) (Ask (follow_act links.now act) negate)) }
{
    let act = follow_act(alloc, links, act)?;
    let same = is_same(alloc, links, &act)?;
    Ok(unless_same(same, Planned::Ask { act, negate }))
}

// Changes with their paths taken along the links.
fn follow_change(
    alloc: Global,
    links: &[KnownLink],
    lists: List<List<Act>>,
) -> Result<Planned, Memory>
    ensures { let there = map (map (follow_act links.now)) lists in
        IfOk result (λ planned. planned ≡ unless_same (list_any (list_any (is_same links.now)) there) (Change there)) }
{
    let there = follow_lists(alloc, links, lists)?;
    let same = any_same(alloc, links, there.as_slice())?;
    Ok(unless_same(same, Planned::Change(there)))
}

/// What a call comes to whose acts are taken along known links, each by `follow_act`. Where `mv` or `cp` then takes a
/// path to itself or into the directory that it is in, `cp -r` a directory into itself, or `ln -s -f` puts a link in
/// place of its own target, whose path is tried along the links too, it has no specified meaning (`Reason::Same`). Without links it stays as it is.
pub fn follow(alloc: Global, links: &[KnownLink], planned: Planned) -> Result<Planned, Memory>
    ensures follow { IfOk result (λ there. there ≡ follow links.now planned) }
    ensures performed { HasPerformedActs planned → IfOk result HasPerformedActs }
{
    if links.is_empty() {
        return Ok(planned);
    }
    match planned {
        Planned::Known(ok) => Ok(Planned::Known(ok)),
        Planned::Ask { act, negate } => follow_ask(alloc, links, act, negate),
        Planned::Print(text) => Ok(Planned::Print(text)),
        Planned::Change(lists) => follow_change(alloc, links, lists),
        Planned::Unspecified(reason) => Ok(Planned::Unspecified(reason)),
    }
}
