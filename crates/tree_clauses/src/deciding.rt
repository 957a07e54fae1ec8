ghost use Rattle.std.specs.Prelude.{◌≡◌, ◌↔◌, IfOk, IsTrue};
ghost use Rattle.tree_clauses.specs.Decides.{Decides};
ghost use Rattle.tree_clauses.specs.KnownValues.{known_in};
ghost use Rattle.tree_clauses.specs.Literals.{CoversTree};
ghost use Rattle.tree_clauses.specs.Solved.{IsSolved, subject};
ghost use Rattle.tree_clauses.specs.Steps.{StepIs};

use crate::clause::{Clause, Literal, Var};
use crate::facts::read_fact;
use crate::known_values::Values;
use crate::making::make;
use feature_trees::Value;
use script_names::Memory;
use std::alloc::Global;

/// Whether the clause covers the tree: whether some tree stands for `now` when this tree stands for `start`. None
/// exactly where the clause isn't in solved order.
pub fn meets(alloc: Global, clause: &Clause, tree: &Value) -> Result<Option<bool>, Memory>
    ensures { IfOk result (λ found. Decides clause.entry.now tree.now found) }
{
    tree.is_sound();
    let mut values = Values::of(alloc, clause.start, tree)?;
    let mut holds = true;
    let mut left = clause.literals.as_slice();
    while let [literal, rest @ ..] = left {
        match pass(alloc, &mut values, literal, rest)? {
            Some(one) => holds = holds & one,
            None => return Ok(None),
        }
        left = rest;
    }
    match values.is_directory(clause.now) {
        Some(directory) => Ok(Some(holds & directory)),
        None => Ok(None),
    }
}

/// Whether the clause is in solved order.
pub fn is_solved(alloc: Global, clause: &Clause) -> Result<bool, Memory>
    ensures { IfOk result (λ found. IsTrue found ↔ IsSolved clause.entry.now) }
{
    match meets(alloc, clause, &Value::Absent)? {
        Some(_) => Ok(true),
        None => Ok(false),
    }
}

/// Whether the clause, which is in solved order, covers the tree; it ends at the first literal that does not hold.
pub fn covers(alloc: Global, clause: &Clause, tree: &Value) -> Result<bool, Memory>
    requires { IsSolved clause.now }
    ensures { IfOk result (λ found. IsTrue found ↔ CoversTree clause.entry.now tree.now) }
{
    tree.is_sound();
    let mut values = Values::of(alloc, clause.start, tree)?;
    let mut left = clause.literals.as_slice();
    while let [literal, rest @ ..] = left {
        match pass(alloc, &mut values, literal, rest)? {
            Some(holds) => {
                if !holds {
                    return Ok(false);
                }
            }
            None => return Ok(false),
        }
        left = rest;
    }
    match values.is_directory(clause.now) {
        Some(directory) => Ok(directory),
        None => Ok(false),
    }
}

// Passes a literal that stands directly before others: whether it holds, and the value of its subject where it makes
// that known. None where the literals are in no solved order from there on.
fn pass(
    alloc: Global,
    values: &mut Values,
    literal: &Literal,
    rest: &[Literal],
) -> Result<Option<bool>, Memory>
    ensures { let old = known_in values.old in let new = known_in values.new in
        IfOk result (λ found. StepIs old new literal.now rest.now found) }
{
    match read_fact(alloc, values, literal)? {
        Some(holds) => Ok(Some(holds)),
        None => {
            let y = subject(literal);
            if values.has(y) {
                return Ok(None);
            }
            match make(alloc, values, literal, rest)? {
                Some(made) => {
                    values.give(y, made)?;
                    Ok(Some(true))
                }
                None => Ok(None),
            }
        }
    }
}

/// The variable that a literal can make known.
pub fn subject(literal: &Literal) -> Var
    ensures { result.0 ≡ subject literal.now }
{
    match literal {
        Literal::Entry(_, _, y) => *y,
        Literal::Kind(y, _) => *y,
        Literal::Fence(x, _) => *x,
        Literal::NotEmpty(x) => *x,
        Literal::Similar(y, _, _) => *y,
        Literal::Target(y, _) => *y,
    }
}
