//! Directories that are derived one from another, each linked to those that it is derived from. To find an entry goes
//! over few of them, by the links for the places where names differ first.

ghost use Rattle.std.specs.Prelude.{◌≡◌, ℕ, ◌<◌, ◌≤◌, ◌++◌, [], ◌∷◌, length, MatchOption, IfOk, OnOk};
ghost use Rattle.clause_solver.specs.declared.variable.Definition.TheVariants.{Derived};
ghost use Rattle.clause_solver.specs.Linked.{AreLinked, AreLinksDown, kin_at, other_kin};

use crate::children::{
    add_between, add_links, difference_from, kin_at, link_at, links_at, other_kin,
};
use crate::kin::{Kin, Link};
use crate::places::definition_at;
use crate::variable::{Definition, MOST_VARIABLES, Variable};
use script_names::{List, Memory, Name};
use shared_table::{Shared, push_alone};
use std::alloc::Global;

/// The value that a definition puts under a name, where it does.
pub(crate) fn value_under(definition: &Definition, f: &Name) -> Option<u32>
    ensures { MatchOption result ((x y : ℕ) → definition.now ≡ Derived x f.now y → ⊥)
        (λ y. (x : ℕ) × (definition.now ≡ Derived x f.now y)) }
{
    match definition {
        Definition::Start => None,
        Definition::Child(_, _) => None,
        Definition::Derived(_, name, value) => {
            if name.equal(f) {
                return Some(*value);
            }
            None
        }
        Definition::Ensured(_) => None,
        Definition::Made(_) => None,
    }
}

// The links of a directory that is derived from x, with another value under f.
fn links_down(
    alloc: Global,
    vars: &Shared<Variable>,
    kin: &Shared<Kin>,
    x: u32,
    f: &Name,
) -> Result<List<Link>, Memory>
    requires inside { x < length vars.now }
    requires linked { AreLinked vars.now kin.now }
    ensures { IfOk result (λ links.
        AreLinksDown vars.now kin.now x f.now (kin_at kin.now x).end (length vars.now) links) }
{
    let mut links = List::new(alloc);
    let mut from = 0;
    let mut here = kin_at(kin, x as usize).top;
    'directories: loop {
        match here {
            None => return Ok(links),
            Some(m) => {
                let definition = definition_at(vars, m as usize);
                let place = difference_from(definition, f);
                let own = links_at(kin, m as usize);
                if let Some(_) = value_under(definition, f) {
                    add_between(&mut links, own, from, place + 1)?;
                    return Ok(links);
                }
                from = add_links(&mut links, from, place, m, own)?;
                here = link_at(own, place);
            }
        }
    }
}

/// Adds the links of one more directory, which is derived from x with another value under f.
pub(crate) fn add_derived(
    alloc: Global,
    vars: &Shared<Variable>,
    kin: &mut Shared<Kin>,
    x: u32,
    f: &Name,
) -> Result<(), Memory>
    requires inside { x < length vars.now }
    requires linked { AreLinked vars.now kin.old }
    requires small { length vars.now ≤ MOST_VARIABLES }
    ensures { let end = (kin_at kin.old x).end in OnOk result (
        (links : List Link) × AreLinksDown vars.now kin.old x f.now end (length vars.now) links
        × (kin.new ≡ kin.old ++ other_kin links (Some (length kin.old)) end ∷ [])) }
{
    let links = links_down(alloc, vars, kin, x, f)?;
    let y = kin.len() as u32;
    let own = other_kin(alloc, links, Some(y), kin_at(kin, x as usize).end)?;
    push_alone(kin, own)?;
    Ok(())
}

/// Adds the links of one more directory, which has the entries of x.
pub(crate) fn add_ensured(alloc: Global, kin: &mut Shared<Kin>, x: usize) -> Result<(), Memory>
    requires { x < length kin.old }
    ensures { OnOk result (kin.new
        ≡ kin.old ++ other_kin [] (kin_at kin.old x).top (kin_at kin.old x).end ∷ []) }
{
    let below = kin_at(kin, x);
    let own = other_kin(alloc, List::new(alloc), below.top, below.end)?;
    push_alone(kin, own)?;
    Ok(())
}

/// Adds the links of one more variable that is no entry of a place and has its value from no other.
pub(crate) fn add_end(alloc: Global, kin: &mut Shared<Kin>) -> Result<(), Memory>
    requires { length kin.old ≤ MOST_VARIABLES }
    ensures { OnOk result (kin.new ≡ kin.old ++ other_kin [] None (length kin.old) ∷ []) }
{
    let own = other_kin(alloc, List::new(alloc), None, kin.len() as u32)?;
    push_alone(kin, own)?;
    Ok(())
}
