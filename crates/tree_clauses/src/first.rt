ghost use Rattle.std.specs.Prelude.{◌≡◌};
ghost use Rattle.tree_clauses.specs.ClauseText.{has_all_special, has_some_special, is_first_kinds, is_first_literal};
ghost use Rattle.tree_clauses.specs.ClauseText.{is_first_clause};

use crate::clause::{Clause, Literal};
use feature_trees::Kinds;

impl Clause {
    /// Whether the clause has a text of the first version: of the special kinds, each set of kinds has all four or none.
    pub fn has_first_kinds(&self) -> bool
        ensures { result ≡ is_first_clause self.entry.now }
    {
        let literals = self.literals.as_slice();
        literals.iter().all(|literal| is_first_literal(literal))
    }
}

/// Whether a literal has a line of the first version.
pub(crate) fn is_first_literal(literal: &Literal) -> bool
    ensures { result ≡ is_first_literal literal.now }
{
    match literal {
        Literal::Entry(_, _, _) => true,
        Literal::Kind(_, kinds) => is_first_kinds(*kinds),
        Literal::Fence(_, _) => true,
        Literal::NotEmpty(_) => true,
        Literal::Similar(_, _, _) => true,
        Literal::Target(_, _) => true,
    }
}

// Whether of the special kinds all four are in the set, or none.
fn is_first_kinds(kinds: Kinds) -> bool
    ensures { result ≡ is_first_kinds kinds }
{
    has_all_special(kinds) || !has_some_special(kinds)
}

/// Whether all four special kinds are in a set.
pub(crate) fn has_all_special(kinds: Kinds) -> bool
    ensures { result ≡ has_all_special kinds }
{
    kinds.fifo && kinds.socket && kinds.block && kinds.char
}

// Whether one of the special kinds is in a set.
fn has_some_special(kinds: Kinds) -> bool
    ensures { result ≡ has_some_special kinds }
{
    kinds.fifo || kinds.socket || kinds.block || kinds.char
}
