//! The entries of the places of the start tree, linked from the last to the first. To find one goes over few of them,
//! by the links for the places where names differ first.

ghost use Rattle.std.specs.Prelude.{◌≡◌, ℕ, ◌<◌, ◌≤◌, ◌↔◌, ◌++◌, [], ◌∷◌, IsTrue, List, length};
ghost use Rattle.std.specs.Prelude.{MatchOption, IfOk, OnOk};
ghost use Rattle.clause_solver.specs.declared.variable.Definition.TheVariants.{Child, Derived};
ghost use Rattle.clause_solver.specs.Variables.{IsChild};
ghost use Rattle.clause_solver.specs.Differences.{difference};
ghost use Rattle.clause_solver.specs.Linked.{AreLinked, AreLinks, between, kin_at, link_at};
ghost use Rattle.clause_solver.specs.Linked.{more_links, more_places, other_kin, with_entry};

use crate::difference::difference;
use crate::kin::{Kin, Link};
use crate::lists::Lists;
use crate::places::definition_at;
use crate::variable::{Definition, MOST_VARIABLES, Variable};
use script_names::{Common, List, Memory, Name};
use shared_table::{Shared, push_alone, set_alone};
use std::alloc::Global;

/// The links of a variable that has no entry and is none.
pub(crate) fn other_kin(
    alloc: Global,
    links: List<Link>,
    top: Option<u32>,
    end: u32,
) -> Result<Kin, Memory>
    ensures { IfOk result (λ kin. kin ≡ other_kin links top end) }
{
    let links = Common::new(alloc, links)?;
    Ok(Kin {
        youngest: None,
        older: None,
        links,
        top,
        end,
    })
}

/// The links of the variable with this number.
pub(crate) fn kin_at(kin: &Shared<Kin>, i: usize) -> &Kin
    requires { i < length kin.now }
    ensures { result.now ≡ kin_at kin.now i }
{
    match kin.get(i) {
        Some(links) => links,
        None => unreachable!(),
    }
}

/// The links of the variable with this number to others.
pub(crate) fn links_at(kin: &Shared<Kin>, i: usize) -> &[Link]
    requires { i < length kin.now }
    ensures { result.now ≡ (kin_at kin.now i).links }
{
    kin_at(kin, i).links.get().as_slice()
}

/// Where the link for a place of difference leads, where there is one.
pub(crate) fn link_at(links: &[Link], place: u32) -> Option<u32>
    ensures { result ≡ link_at links.now place }
{
    let mut left = links;
    while let [link, rest @ ..] = left {
        if link.place == place {
            return Some(link.to);
        }
        left = rest;
    }
    None
}

/// The place where a name differs first from that of an entry or of a derived directory.
pub(crate) fn difference_from(definition: &Definition, f: &Name) -> u32
    ensures is { (p : ℕ) (h : List ℕ) → definition.now ≡ Child p h → result ≡ difference f.now h }
    ensures derived { (x y : ℕ) (h : List ℕ) → definition.now ≡ Derived x h y → result ≡ difference f.now h }
    ensures small { result ≤ 2295 }
{
    match definition {
        Definition::Child(_, h) => difference(f, h),
        Definition::Derived(_, h, _) => difference(f, h),
        _ => 0,
    }
}

/// The entry, or the derived directory, to look at behind one that has another name.
pub(crate) fn behind(definition: &Definition, kin: &Shared<Kin>, m: u32, f: &Name) -> Option<u32>
    requires { m < length kin.now }
    ensures entry { (p : ℕ) (h : List ℕ) → definition.now ≡ Child p h
        → result ≡ link_at (kin_at kin.now m).links (difference h f.now) }
    ensures derived { (x y : ℕ) (h : List ℕ) → definition.now ≡ Derived x h y
        → result ≡ link_at (kin_at kin.now m).links (difference h f.now) }
{
    match definition {
        Definition::Child(_, h) => link_at(links_at(kin, m as usize), difference(h, f)),
        Definition::Derived(_, h, _) => link_at(links_at(kin, m as usize), difference(h, f)),
        _ => None,
    }
}

impl Lists {
    /// The variable of an entry of a place, where there is one.
    pub(crate) fn find(&self, of: u32, f: &Name) -> Option<u32>
        requires inside { of < length self.now.vars }
        requires linked { AreLinked self.now.vars self.now.kin }
        ensures { let vars = self.now.vars in
            MatchOption result ((i : ℕ) → ¬ (IsChild vars of f.now i)) (λ i. IsChild vars of f.now i) }
    {
        let mut here = kin_at(&self.kin, of as usize).youngest;
        'entries: loop {
            match here {
                None => return None,
                Some(m) => {
                    let definition = definition_at(&self.vars, m as usize);
                    if is_child(definition, of, f) {
                        return Some(m);
                    }
                    here = behind(definition, &self.kin, m, f);
                }
            }
        }
    }
}

// Whether a definition is the entry f of a place.
fn is_child(definition: &Definition, of: u32, f: &Name) -> bool
    ensures { IsTrue result ↔ (definition.now ≡ Child of f.now) }
{
    match definition {
        Definition::Child(p, name) => *p == of && name.equal(f),
        _ => false,
    }
}

/// Adds the links for the places of difference from one up to another.
pub(crate) fn add_between(
    links: &mut List<Link>,
    own: &[Link],
    low: u32,
    high: u32,
) -> Result<(), Memory>
    ensures { OnOk result (links.new ≡ links.old ++ between low high own.now) }
{
    let mut left = own;
    while let [link, rest @ ..] = left {
        add_link(links, *link, low, high)?;
        left = rest;
    }
    Ok(())
}

// Adds a link that is for one of these places of difference.
fn add_link(links: &mut List<Link>, link: Link, low: u32, high: u32) -> Result<(), Memory>
    ensures { OnOk result (links.new ≡ links.old ++ between low high (link ∷ [])) }
{
    if low <= link.place && link.place < high {
        links.add(link)?;
        return Ok(());
    }
    Ok(())
}

/// Adds the links of a further entry for the places from one on up to that where its name differs first from that of
/// the entry m. Answers below which place the links are known then.
pub(crate) fn add_links(
    links: &mut List<Link>,
    from: u32,
    place: u32,
    m: u32,
    own: &[Link],
) -> Result<u32, Memory>
    requires { place ≤ 2295 }
    ensures links { OnOk result (links.new ≡ more_links links.old from place m own.now) }
    ensures places { IfOk result (λ places. places ≡ more_places from place) }
{
    if place < from {
        return Ok(from);
    }
    add_between(links, own, from, place)?;
    links.add(Link { place, to: m })?;
    Ok(place + 1)
}

/// The links of a further entry f of the place p.
pub(crate) fn links_of(
    alloc: Global,
    vars: &Shared<Variable>,
    kin: &Shared<Kin>,
    p: u32,
    f: &Name,
) -> Result<List<Link>, Memory>
    requires inside { p < length vars.now }
    requires linked { AreLinked vars.now kin.now }
    ensures { IfOk result (λ links. AreLinks vars.now p f.now (length vars.now) links) }
{
    let mut links = List::new(alloc);
    let mut from = 0;
    let mut here = kin_at(kin, p as usize).youngest;
    'entries: loop {
        match here {
            None => return Ok(links),
            Some(m) => {
                let place = difference_from(definition_at(vars, m as usize), f);
                let own = links_at(kin, m as usize);
                from = add_links(&mut links, from, place, m, own)?;
                here = link_at(own, place);
            }
        }
    }
}

/// Adds the links of one more entry of a place, which has these links of its own.
pub(crate) fn add_entry(
    alloc: Global,
    kin: &mut Shared<Kin>,
    p: usize,
    links: List<Link>,
) -> Result<(), Memory>
    requires inside { p < length kin.old }
    requires small { length kin.old ≤ MOST_VARIABLES }
    ensures { OnOk result (kin.new ≡ with_entry kin.old p links) }
{
    let y = kin.len() as u32;
    let parent = kin_at(kin, p);
    let older = parent.youngest;
    let last = Kin {
        youngest: Some(y),
        older: parent.older,
        links: parent.links.fork()?,
        top: parent.top,
        end: parent.end,
    };
    set_alone(kin, p, last)?;
    let entry = Kin {
        youngest: None,
        older,
        links: Common::new(alloc, links)?,
        top: None,
        end: y,
    };
    push_alone(kin, entry)?;
    Ok(())
}
