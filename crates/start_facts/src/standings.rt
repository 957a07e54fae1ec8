ghost use Rattle.std.specs.Prelude.{◌≡◌, [], ◌∷◌, ◌++◌, not, IfOk, OnOk};
ghost use Rattle.std.specs.BTreeSet.{contains};
ghost use Rattle.std.specs.List.{filter};
ghost use Rattle.std.specs.Option.{option_copied};
ghost use Rattle.std.specs.Ordering.{nat_cmp};
ghost use Rattle.std.specs.Str.{bytes_eq};
ghost use Rattle.start_facts.specs.Asked.{after_with, similar_if};
ghost use Rattle.start_facts.specs.Standings.{after, begins, closed, entered, entry_of, placed, similar_to, without};
ghost use Rattle.start_facts.specs.Standings.{whole_at, with_standing, are_nothing};
ghost use Rattle.tree_clauses.specs.declared.clause.Literal.TheVariants as Literal;

use crate::standing::Standing;
use feature_trees::Kinds;
use script_names::{Copied, List, Memory, Name};
use std::alloc::Global;
use std::collections::{BTreeMap, BTreeSet};
use tree_clauses::{Literal, Var};

/// Where variables of a clause stand, and which of them are nothing.
#[derive(Drop)]
pub(crate) struct Standings {
    stands: BTreeMap<u32, Standing>,
    nothing: BTreeSet<u32>,
}

impl Standings {
    ghost use Rattle.start_facts.specs.SeenIn.{seen_in};

    /// The variable stands at the root.
    pub(crate) fn of(alloc: Global, start: Var) -> Result<Standings, Memory>
        ensures { IfOk result (λ kept. seen_in kept ≡ begins start.0) }
    {
        let mut kept = Standings {
            stands: BTreeMap::new(alloc),
            nothing: BTreeSet::new(alloc),
        };
        kept.put(start, whole_at(alloc, List::new(alloc)))?;
        Ok(kept)
    }

    /// Where a variable stands, if that is known.
    pub(crate) fn stands(&self, x: Var) -> Option<&Standing>
        ensures { option_copied result ≡ (seen_in self.now).stands x.0 }
    {
        self.stands.get(&x.0)
    }

    // The variable stands so.
    fn put(&mut self, y: Var, standing: Standing) -> Result<(), Memory>
        ensures { OnOk result (seen_in self.new ≡ record (seen_in self.old) {
          stands = with_standing (seen_in self.old).stands y.0 standing;
        }) }
    {
        self.stands.insert(y.0, standing)?;
        Ok(())
    }

    // A variable that stands nowhere yet stands so, if that is known.
    fn place(&mut self, y: Var, standing: Option<Standing>) -> Result<(), Memory>
        ensures { OnOk result (seen_in self.new ≡ record (seen_in self.old) {
          stands = placed (seen_in self.old).stands y.0 standing;
        }) }
    {
        match standing {
            None => Ok(()),
            Some(standing) => match self.stands(y) {
                Some(_) => Ok(()),
                None => self.put(y, standing),
            },
        }
    }

    // The variable has no entry of this name.
    fn close(&mut self, alloc: Global, x: Var, f: &Name) -> Result<(), Memory>
        ensures { OnOk result (seen_in self.new ≡ record (seen_in self.old) {
          stands = closed (seen_in self.old).stands x.0 f.now ((seen_in self.old).stands x.0);
        }) }
    {
        match self.stands(x) {
            None => Ok(()),
            Some(standing) => {
                let standing = without(alloc, f, standing)?;
                self.put(x, standing)
            }
        }
    }

    // An entry of x is y.
    fn enter(&mut self, alloc: Global, x: Var, f: &Name, y: Var) -> Result<(), Memory>
        ensures { OnOk result (seen_in self.new ≡ record (seen_in self.old) {
          stands = entered (seen_in self.old) x.0 f.now y.0;
        }) }
    {
        let below = entry_of(alloc, self.stands(x), f)?;
        self.place(y, below)?;
        if !self.nothing.contains(&y.0) {
            return Ok(());
        }
        self.close(alloc, x, f)?;
        Ok(())
    }

    /// One literal more. Names are kept of the variables that are asked for them.
    pub(crate) fn add(
        &mut self,
        alloc: Global,
        literal: &Literal,
        asked: &BTreeSet<u32>,
    ) -> Result<(), Memory>
        ensures { OnOk result (seen_in self.new
            ≡ after_with (contains nat_cmp asked.now) (seen_in self.old) literal.now) }
    {
        match literal {
            Literal::Entry(x, f, y) => self.enter(alloc, *x, f, *y),
            Literal::Kind(x, kinds) => self.limit(*x, *kinds),
            Literal::Similar(y, names, x) => {
                let kept = asked.contains(&y.0);
                let standing = similar_if(alloc, kept, self.stands(*x), names)?;
                self.place(*y, standing)
            }
            Literal::Fence(_, _) => Ok(()),
            Literal::NotEmpty(_) => Ok(()),
            Literal::Target(_, _) => Ok(()),
        }
    }

    // The kinds of a variable.
    fn limit(&mut self, x: Var, kinds: Kinds) -> Result<(), Memory>
        ensures { OnOk result (seen_in self.new ≡ after (seen_in self.old) (Literal.Kind x kinds)) }
    {
        if are_nothing(kinds) {
            self.nothing.insert(x.0)?;
        }
        Ok(())
    }
}

// What stands at a place.
fn whole_at(alloc: Global, place: List<Name>) -> Standing
    ensures { result ≡ whole_at place }
{
    Standing {
        place,
        whole: true,
        but: List::new(alloc),
        left: List::new(alloc),
    }
}

// Where an entry of a variable stands.
fn entry_of(
    alloc: Global,
    standing: Option<&Standing>,
    f: &Name,
) -> Result<Option<Standing>, Memory>
    ensures { IfOk result (λ below. below ≡ entry_of (option_copied standing.entry) f.now) }
{
    match standing {
        None => Ok(None),
        Some(standing) => {
            if !standing.whole {
                return Ok(None);
            }
            let mut place = standing.place.copy(alloc)?;
            let name = f.copy(alloc)?;
            place.add(name)?;
            Ok(Some(whole_at(alloc, place)))
        }
    }
}

// Where a variable stands that has the entries of another under every name but these.
fn similar_to(
    alloc: Global,
    standing: Option<&Standing>,
    names: &List<Name>,
) -> Result<Option<Standing>, Memory>
    ensures { IfOk result (λ similar. similar ≡ similar_to (option_copied standing.entry) names.now) }
{
    match standing {
        None => Ok(None),
        Some(standing) => {
            let place = standing.place.copy(alloc)?;
            let but = joined(alloc, standing.but.as_slice(), names.as_slice())?;
            let left = joined(alloc, standing.left.as_slice(), names.as_slice())?;
            Ok(Some(Standing {
                place,
                whole: false,
                but,
                left,
            }))
        }
    }
}

// The same, without names unless they are kept.
fn similar_if(
    alloc: Global,
    kept: bool,
    standing: Option<&Standing>,
    names: &List<Name>,
) -> Result<Option<Standing>, Memory>
    ensures { IfOk result (λ similar. similar ≡ similar_if kept (option_copied standing.entry) names.now) }
{
    if kept {
        return similar_to(alloc, standing, names);
    }
    match standing {
        None => Ok(None),
        Some(standing) => {
            let place = standing.place.copy(alloc)?;
            Ok(Some(Standing {
                place,
                whole: false,
                but: List::new(alloc),
                left: List::new(alloc),
            }))
        }
    }
}

/// Copies of names, and behind them copies of more.
pub(crate) fn joined(alloc: Global, names: &[Name], more: &[Name]) -> Result<List<Name>, Memory>
    ensures { IfOk result (λ both. both ≡ names.now ++ more.now) }
{
    let mut both = List::copies(alloc, names)?;
    for f in more {
        let f = f.copy(alloc)?;
        both.add(f)?;
    }
    Ok(both)
}

// The standing of a variable that has no entry of this name.
fn without(alloc: Global, f: &Name, standing: &Standing) -> Result<Standing, Memory>
    ensures { IfOk result (λ closed. closed ≡ without f.now standing.now) }
{
    let place = standing.place.copy(alloc)?;
    let but = standing.but.copy(alloc)?;
    let left = others(alloc, f, standing.left.as_slice())?;
    Ok(Standing {
        place,
        whole: standing.whole,
        but,
        left,
    })
}

// The names but those that are this one.
fn others(alloc: Global, f: &Name, names: &[Name]) -> Result<List<Name>, Memory>
    ensures { IfOk result (λ others. others ≡ filter (λ g. not (bytes_eq f.now g)) names.now) }
{
    let mut others = List::new(alloc);
    let mut left = names;
    while let [g, rest @ ..] = left {
        add_other(alloc, &mut others, f, g)?;
        left = rest;
    }
    Ok(others)
}

// One name more, unless it is this one.
fn add_other(alloc: Global, others: &mut List<Name>, f: &Name, g: &Name) -> Result<(), Memory>
    ensures { OnOk result (others.new ≡ others.old ++ filter (λ h. not (bytes_eq f.now h)) (g.now ∷ [])) }
{
    if f.equal(g) {
        return Ok(());
    }
    let g = g.copy(alloc)?;
    others.add(g)
}

// Whether the kinds are nothing at most.
fn are_nothing(kinds: Kinds) -> bool
    ensures { result ≡ are_nothing kinds }
{
    !(kinds.reg
        || kinds.link
        || kinds.fifo
        || kinds.socket
        || kinds.block
        || kinds.char
        || kinds.dir)
}
