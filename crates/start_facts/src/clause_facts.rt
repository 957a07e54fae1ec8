ghost use Rattle.std.specs.Prelude.{◌≡◌, IfOk};
ghost use Rattle.std.specs.Option.{option_copied};
ghost use Rattle.start_facts.specs.ClauseFacts.{facts_of, literal_fact, on_fenced, on_filled, on_whole};
ghost use Rattle.start_facts.specs.SeenIn.{seen_in};

use crate::asked::asked_of;
use crate::fact::{Fact, PlaceFact};
use crate::standing::Standing;
use crate::standings::{Standings, joined};
use script_names::{Copied, List, Memory, Name};
use std::alloc::Global;
use tree_clauses::{Clause, Literal};

/// The facts of a clause on places of the start tree, in the order of its literals. Each of them holds of every tree
/// that the clause covers.
pub fn facts(alloc: Global, clause: &Clause) -> Result<List<PlaceFact>, Memory>
    ensures { IfOk result (λ facts. facts ≡ facts_of clause.entry.now) }
{
    let asked = asked_of(alloc, clause.literals.as_slice())?;
    let mut facts = List::new(alloc);
    let mut seen = Standings::of(alloc, clause.start)?;
    for literal in clause.literals.as_slice() {
        match literal_fact(alloc, &seen, literal)? {
            Some(fact) => facts.add(fact)?,
            None => {}
        }
        seen.add(alloc, literal, &asked)?;
    }
    Ok(facts)
}

// The fact of a literal, if it says one.
fn literal_fact(
    alloc: Global,
    seen: &Standings,
    literal: &Literal,
) -> Result<Option<PlaceFact>, Memory>
    ensures { IfOk result (λ fact. fact ≡ literal_fact (seen_in seen.now) literal.now) }
{
    match literal {
        Literal::Entry(_, _, _) => Ok(None),
        Literal::Kind(x, kinds) => on_whole(alloc, seen.stands(*x), Fact::Kinds(*kinds)),
        Literal::Fence(x, names) => on_fenced(alloc, seen.stands(*x), names),
        Literal::NotEmpty(x) => on_filled(alloc, seen.stands(*x)),
        Literal::Similar(_, _, _) => Ok(None),
        Literal::Target(x, target) => {
            let target = target.copy(alloc)?;
            on_whole(alloc, seen.stands(*x), Fact::Target(target))
        }
    }
}

// A fact on what stands at a place.
fn on_whole(
    alloc: Global,
    standing: Option<&Standing>,
    said: Fact,
) -> Result<Option<PlaceFact>, Memory>
    ensures { IfOk result (λ fact. fact ≡ on_whole (option_copied standing.entry) said) }
{
    match standing {
        None => Ok(None),
        Some(standing) => {
            if !standing.whole {
                return Ok(None);
            }
            let place = standing.place.copy(alloc)?;
            Ok(Some(PlaceFact { place, fact: said }))
        }
    }
}

// What has entries under these names alone.
fn on_fenced(
    alloc: Global,
    standing: Option<&Standing>,
    names: &List<Name>,
) -> Result<Option<PlaceFact>, Memory>
    ensures { IfOk result (λ fact. fact ≡ on_fenced (option_copied standing.entry) names.now) }
{
    match standing {
        None => Ok(None),
        Some(standing) => {
            let place = standing.place.copy(alloc)?;
            let names = joined(alloc, standing.but.as_slice(), names.as_slice())?;
            Ok(Some(PlaceFact {
                place,
                fact: Fact::Fence(names),
            }))
        }
    }
}

// What has an entry.
fn on_filled(alloc: Global, standing: Option<&Standing>) -> Result<Option<PlaceFact>, Memory>
    ensures { IfOk result (λ fact. fact ≡ on_filled (option_copied standing.entry)) }
{
    match standing {
        None => Ok(None),
        Some(standing) => {
            if standing.left.len() > 0 {
                return Ok(None);
            }
            let place = standing.place.copy(alloc)?;
            let names = standing.but.copy(alloc)?;
            Ok(Some(PlaceFact {
                place,
                fact: Fact::Beside(names),
            }))
        }
    }
}
