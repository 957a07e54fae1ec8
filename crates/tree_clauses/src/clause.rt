ghost use Rattle.std.specs.Prelude.{◌≡◌, IfOk};

use feature_trees::Kinds;
use script_names::{Bytes, Copied, List, Memory, Name};
use std::alloc::Global;

/// A variable of a clause, by its number. A valuation gives it a value of the file tree.
#[derive(Clone, Copy, Debug, PartialEq, Eq)]
pub struct Var(pub u32);

/// A fact on the values of variables: a constraint of feature trees (Jeannerod and Treinen, "Deciding the First-Order
/// Theory of an Algebra of Feature Trees with Updates", IJCAR 2018); `NotEmpty` and `Target` are this project's own.
#[derive(Debug, Drop)]
pub enum Literal {
    /// The entry of that name of the first variable is the second one's value.
    Entry(Var, Name, Var),
    /// The variable's kind is in the set.
    Kind(Var, Kinds),
    /// The variable has entries under these names alone.
    Fence(Var, List<Name>),
    /// The variable has an entry.
    NotEmpty(Var),
    /// The first variable is a directory, and has the entries of the second under every other name than these.
    Similar(Var, List<Name>, Var),
    /// The variable is a link to that target.
    Target(Var, Bytes),
}

/// Which pairs of trees belong together: those for which some values of the variables meet all literals.
/// `start` stands for the tree before and `now` for the tree after.
#[derive(Debug, Drop)]
pub struct Clause {
    pub literals: List<Literal>,
    pub start: Var,
    pub now: Var,
}

impl Copied for Var {
    fn copy(&self, _alloc: Global) -> Result<Var, Memory> {
        Ok(*self)
    }
}

impl Copied for Literal {
    fn copy(&self, alloc: Global) -> Result<Literal, Memory> {
        match self {
            Literal::Entry(x, f, y) => Ok(Literal::Entry(*x, f.copy(alloc)?, *y)),
            Literal::Kind(x, kinds) => Ok(Literal::Kind(*x, *kinds)),
            Literal::Fence(x, names) => Ok(Literal::Fence(*x, names.copy(alloc)?)),
            Literal::NotEmpty(x) => Ok(Literal::NotEmpty(*x)),
            Literal::Similar(y, names, x) => Ok(Literal::Similar(*y, names.copy(alloc)?, *x)),
            Literal::Target(x, target) => Ok(Literal::Target(*x, target.copy(alloc)?)),
        }
    }
}

impl Copied for Clause {
    fn copy(&self, alloc: Global) -> Result<Clause, Memory> {
        let literals = self.literals.copy(alloc)?;
        Ok(Clause {
            literals,
            start: self.start,
            now: self.now,
        })
    }
}
