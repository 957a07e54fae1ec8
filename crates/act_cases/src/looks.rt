ghost use Rattle.std.specs.Prelude.{◌≡◌, ◌+◌, ◌≤◌, ◌++◌, ◌∷◌, [], length, OnOk};
ghost use Rattle.tree_clauses.specs.declared.clause.Literal.TheVariants as literal;
ghost use Rattle.act_cases.specs.Looks.{var, kinds_from, look_literals};

use feature_trees::Kinds;
use script_names::{Copied, List, Memory, Name};
use std::alloc::Global;
use tree_clauses::{Literal, Var};

/// Which kinds the values along names have.
#[derive(Clone, Copy, Debug, PartialEq, Eq)]
pub struct Ways {
    /// The values at the strict prefixes of the names, but the one that the last name is an entry of.
    pub strict: Kinds,
    /// The value that the last name is an entry of.
    pub parent: Kinds,
    /// The value at all names.
    pub last: Kinds,
}

// The kinds of the value from which these names go on.
fn kinds_from(ways: &Ways, names: &[Name]) -> Kinds
    ensures { result ≡ kinds_from ways.now names.now }
{
    match names {
        [] => ways.last,
        [_] => ways.parent,
        [_, _, ..] => ways.strict,
    }
}

// Adds the literals of an entry, and of its kinds.
fn add_entry(
    alloc: Global,
    literals: &mut List<Literal>,
    x: u32,
    f: &Name,
    y: u32,
    kinds: Kinds,
) -> Result<(), Memory>
    ensures { OnOk result (literals.new ≡ literals.old
        ++ (literal.Entry (var x) f.now (var y) ∷ literal.Kind (var y) kinds ∷ [])) }
{
    let name = f.copy(alloc)?;
    literals.add(Literal::Entry(Var(x), name, Var(y)))?;
    literals.add(Literal::Kind(Var(y), kinds))
}

/// Adds the literals of the kinds of the values along names: `x` is the variable of the value that the names go from,
/// and the entries get variables from `y` on.
pub(crate) fn add_look(
    alloc: Global,
    literals: &mut List<Literal>,
    ways: &Ways,
    x: u32,
    y: u32,
    names: &[Name],
) -> Result<(), Memory>
    requires { y + length names.now ≤ u32.MAX }
    ensures { OnOk result (literals.new ≡ literals.old ++ look_literals ways.now x y names.now) }
{
    literals.add(Literal::Kind(Var(x), kinds_from(ways, names)))?;
    let mut from = x;
    let mut next = y;
    let mut left = names;
    while let [f, rest @ ..] = left {
        add_entry(alloc, literals, from, f, next, kinds_from(ways, rest))?;
        from = next;
        next += 1;
        left = rest;
    }
    Ok(())
}
