ghost use Rattle.std.specs.Prelude.{◌≡◌, IsTrue, Some};
ghost use Rattle.colis_syntax.specs.WellFormed.{is_well_formed, program_of};

use crate::def::Def;
use crate::syntax::Stmt;
use crate::well_formed::is_well_formed;
use script_names::{Copied, List, Memory};
use std::alloc::Global;
use std::marker::Model;

/// A program: whether the strict flag is set before it is run, its functions, and its body. Every program is well
/// formed: its lists and and-or lists have two members or more, each `if` an arm, each arm of `case` a pattern,
/// arguments are numbered from 1 to 9, no two functions have one name, a function is called only where it is defined
/// before, `break` and `continue` stand in a loop, `return` in a function, and no subshell or substitution stands
/// between.
#[derive(Drop)]
pub struct Program {
    strict: bool,
    defs: List<Def>,
    body: Stmt,
}

impl Model for Program {
    ghost use Rattle.std.specs.Prelude.{IsTrue};
    ghost use Rattle.colis_syntax.specs.WellFormed.{ProgramParts, is_well_formed};
    ghost use Rattle.std.specs.Coded.{codes};
    ghost use Rattle.colis_syntax.specs.contracts.syntax.Stmt as stmt;

    ghost Value = { ProgramParts };

    ghost coded = { Prim.hlevel (codes, stmt.the_row.coded) };

    ghost view = { λ p. record { strict = p.strict; defs = p.defs; body = p.body } };

    ghost invariant = { λ p. IsTrue (is_well_formed p.defs p.body) };
}

impl Program {
    /// The program of these parts; None where it is not well formed.
    pub fn new(strict: bool, defs: List<Def>, body: Stmt) -> Option<Program>
        ensures { result ≡ program_of strict defs body }
    {
        if !is_well_formed(defs.as_slice(), &body) {
            return None;
        }
        Some(Program { strict, defs, body })
    }

    /// The program of these parts, which are known to be well formed, so that none of them is looked at.
    pub fn from_well_formed(strict: bool, defs: List<Def>, body: Stmt) -> Program
        requires { IsTrue (is_well_formed defs body) }
        ensures { Some result ≡ program_of strict defs body }
    {
        Program { strict, defs, body }
    }

    /// Whether the strict flag is set before the program is run.
    pub fn strict(&self) -> bool
        ensures { result ≡ self.now.strict }
    {
        self.strict
    }

    /// The functions, in the order of the text.
    pub fn defs(&self) -> &[Def]
        ensures { result.now ≡ self.now.defs }
    {
        self.defs.as_slice()
    }

    /// The body.
    pub fn body(&self) -> &Stmt
        ensures { result.now ≡ self.now.body }
    {
        &self.body
    }

    /// Says of the program that it is well formed.
    pub fn is_sound(&self)
        ensures { IsTrue (is_well_formed self.now.defs self.now.body) }
    {
        let _defs = &self.defs;
    }
}

impl Copied for Program {
    fn copy(&self, alloc: Global) -> Result<Program, Memory> {
        let defs = self.defs.copy(alloc)?;
        let body = self.body.copy(alloc)?;
        Ok(Program {
            strict: self.strict,
            defs,
            body,
        })
    }
}
