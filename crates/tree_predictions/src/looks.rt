// What clauses ask of the kinds of what stands at places of a tree.
ghost use Rattle.std.specs.Prelude.{◌≡◌, ◌≤◌, ◌++◌, length, take, IfOk, IsTrue, OnOk};
ghost use Rattle.feature_trees.specs.Tree.{at, kind_of};
ghost use Rattle.tree_predictions.specs.Looks.{holds, held_of, look_of, looks_in, AreNecessary};

use feature_trees::{Kind, Kinds, Value};
use script_names::{Copied, List, Memory, Name};
use start_facts::theorems::facts_hold;
use start_facts::{Fact, PlaceFact, facts};
use std::alloc::Global;
use tree_clauses::Clause;

/// What is asked of a place of a tree: the names of its path, and the kinds that what stands there may have.
#[derive(Drop)]
pub(crate) struct Look {
    pub(crate) names: List<Name>,
    pub(crate) kinds: Kinds,
}

impl Copied for Look {
    fn copy(&self, alloc: Global) -> Result<Look, Memory> {
        let names = self.names.copy(alloc)?;
        Ok(Look {
            names,
            kinds: self.kinds,
        })
    }
}

/// The looks of a clause, in the order of its literals. Each of them holds of every tree that the clause covers.
pub(crate) fn looks_of(alloc: Global, clause: &Clause) -> Result<List<Look>, Memory>
    ensures { IfOk result (AreNecessary clause.entry.now) }
{
    facts_hold();
    let facts = facts(alloc, clause)?;
    looks_in(alloc, facts)
}

// The looks among facts.
fn looks_in(alloc: Global, facts: List<PlaceFact>) -> Result<List<Look>, Memory>
    ensures { IfOk result (λ looks. looks ≡ looks_in facts) }
{
    let mut looks = List::new(alloc);
    for fact in facts.into_vec() {
        add_look(&mut looks, fact)?;
    }
    Ok(looks)
}

// Adds the look that a fact is, if it is one.
fn add_look(looks: &mut List<Look>, fact: PlaceFact) -> Result<(), Memory>
    ensures { OnOk result (looks.new ≡ looks.old ++ look_of fact.place fact.fact) }
{
    let PlaceFact { place, fact } = fact;
    match fact {
        Fact::Kinds(kinds) => looks.add(Look {
            names: place,
            kinds,
        }),
        Fact::Fence(_) | Fact::Beside(_) | Fact::Target(_) => Ok(()),
    }
}

/// How many looks are the same from the first on, of the first `most` of two lists.
pub(crate) fn same_front(a: &[Look], b: &[Look], most: usize) -> usize
    ensures first { result ≤ length a.now }
    ensures few { result ≤ most }
    ensures same { take result a.now ≡ take result b.now }
{
    let end = a.len().min(b.len()).min(most);
    for at in 0usize..end {
        if !is_same(&a[at], &b[at]) {
            return at;
        }
    }
    end
}

// Whether two looks are the same.
fn is_same(a: &Look, b: &Look) -> bool
    ensures { IsTrue result → (a.now ≡ b.now) }
{
    if !same_kinds(a.kinds, b.kinds) {
        return false;
    }
    are_same(a.names.as_slice(), b.names.as_slice())
}

// Whether two sets of kinds are the same.
fn same_kinds(a: Kinds, b: Kinds) -> bool
    ensures { IsTrue result → (a ≡ b) }
{
    a == b
}

// Whether names are the same, one by one.
fn are_same(a: &[Name], b: &[Name]) -> bool
    ensures { IsTrue result → (a.now ≡ b.now) }
{
    if a.len() != b.len() {
        return false;
    }
    for at in 0usize..a.len() {
        if !a[at].equal(&b[at]) {
            return false;
        }
    }
    true
}

// The kind of what stands in a tree at the path of these names.
fn kind_at(tree: &Value, names: &[Name]) -> Kind
    ensures { result ≡ kind_of (at tree.now names.now) }
{
    let mut here = tree;
    for f in names {
        match here.entry(f) {
            None => return Kind::Absent,
            Some(next) => here = next,
        }
    }
    here.kind()
}

// Whether a look holds of a tree.
fn holds(tree: &Value, look: &Look) -> bool
    ensures { result ≡ holds tree.now look.now }
{
    look.kinds.has(kind_at(tree, look.names.as_slice()))
}

/// How many looks hold of a tree, from the first on.
pub(crate) fn held_of(tree: &Value, looks: &[Look]) -> usize
    ensures count { result ≡ held_of tree.now looks.now }
    ensures within { result ≤ length looks.now }
{
    for at in 0usize..looks.len() {
        if !holds(tree, &looks[at]) {
            return at;
        }
    }
    looks.len()
}
