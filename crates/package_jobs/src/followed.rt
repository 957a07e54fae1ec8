// The acts on files as they are done: taken along known links.
ghost use Rattle.std.specs.Prelude.{◌≡◌, ◌∷◌, ◌++◌, [], map, All, IfOk, OnOk};
ghost use Rattle.link_walks.specs.Following.{follow_act};
ghost use Rattle.package_jobs.specs.FileActs.{AreListed, StandsSomewhere};
ghost use Rattle.package_jobs.specs.Written.{done_acts};

use link_walks::theorems::followed_acts_are_performed;
use link_walks::{KnownLink, follow_act};
use scenario_runs::FileActs;
use script_names::{Copied, List, Memory};
use std::alloc::Global;
use system_base::Base;
use utility_calls::acts::Act;

// Adds an act, taken along the links.
fn add_done(
    alloc: Global,
    links: &[KnownLink],
    acts: &mut List<Act>,
    listed: &Act,
) -> Result<(), Memory>
    ensures { OnOk result (acts.new ≡ acts.old ++ follow_act links.now listed.now ∷ []) }
{
    let copy = listed.copy(alloc)?;
    let done = follow_act(alloc, links, copy)?;
    acts.add(done)
}

// These acts, taken along the links.
fn done_acts(alloc: Global, links: &[KnownLink], listed: &[Act]) -> Result<List<Act>, Memory>
    ensures { IfOk result (λ acts. acts ≡ map (follow_act links.now) listed.now) }
{
    let mut acts = List::new(alloc);
    for act in listed {
        add_done(alloc, links, &mut acts, act)?;
    }
    Ok(acts)
}

// Says of links that the path of each has a name. It does nothing.
fn links_are_named(links: &[KnownLink])
    ensures { All StandsSomewhere links.now }
{
    for link in links {
        let _at = link.at();
    }
}

/// The acts of a step as they are done: the listed ones, taken along the known links of the base.
pub fn followed(alloc: Global, base: &Base, listed: &[Act]) -> Result<FileActs, Memory>
    requires { AreListed listed.now }
    ensures { IfOk result (λ acts. acts ≡ done_acts base.now listed.now) }
{
    let links = base.links.as_slice();
    followed_acts_are_performed();
    links_are_named(links);
    let acts = done_acts(alloc, links, listed)?;
    match FileActs::new(acts) {
        Some(acts) => Ok(acts),
        None => unreachable!(),
    }
}
