ghost use Rattle.std.specs.Prelude.{◌≡◌};

use crate::clause::{Literal, Var};
use script_names::{Copied, Done, List, Memory};
use std::alloc::Global;

/// One row of an act, for all trees that take it, or of putting back, for all trees and kept trees that take it.
/// Variable 0 is the tree before, and `root` the tree after; in a back case variable 1 is the kept tree. These first
/// variables are given, and the others are the `locals` many behind them.
#[derive(Debug, Drop)]
pub struct Case {
    /// The number of the row.
    pub row: u8,
    /// How many variables there are beside the given ones.
    pub locals: u32,
    /// What holds of the variables.
    pub literals: List<Literal>,
    /// What the act answers.
    pub done: Done,
    pub root: Var,
}

impl Copied for Case {
    fn copy(&self, alloc: Global) -> Result<Case, Memory> {
        let literals = self.literals.copy(alloc)?;
        Ok(Case {
            row: self.row,
            locals: self.locals,
            literals,
            done: self.done,
            root: self.root,
        })
    }
}
