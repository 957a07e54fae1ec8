ghost use Rattle.std.specs.Prelude.{◌≡◌, ◌+◌, ◌≤◌, ◌++◌, length, IfOk, OnOk};
ghost use Rattle.act_cases.specs.Looks.{end_of};
ghost use Rattle.act_cases.specs.Puts.{root_of};
ghost use Rattle.act_cases.specs.Moves.{moved_literals, moves_by, move_locals, move_root, move_case};
ghost use Rattle.act_cases.specs.Tables.{through};
ghost use Rattle.feature_trees.specs.Kinds.{all};

use crate::looks::{Ways, add_look};
use crate::plans::{End, add_end};
use crate::puts::add_put;
use feature_trees::{Kind, Kinds};
use script_names::{Done, List, Memory, Name};
use std::alloc::Global;
use tree_clauses::{Case, Literal, Var};

/// What becomes of what stands at the first path.
#[derive(Clone, Copy, Debug, PartialEq, Eq)]
pub enum Moving {
    /// It stays where it is.
    Stays,
    /// It is moved to the place.
    Moves,
    /// It stays, and is put at the place too.
    Copies,
}

/// A row of a move or a copy as it is made into a case: what the values along the path of what is moved or copied are,
/// what those along the path of the place, and what becomes of it.
#[derive(Clone, Copy, Debug, PartialEq, Eq)]
pub struct MovePlan {
    pub number: u8,
    pub answer: Done,
    pub source: Ways,
    pub place: Ways,
    pub end: End,
    pub moving: Moving,
}

/// The variable of what names lead to, where x is that of the value that they go from, and y that of the first entry.
pub(crate) fn end_of(x: u32, y: u32, names: &[Name]) -> u32
    requires { y + length names.now ≤ u32.MAX }
    ensures { result ≡ end_of x y names.now }
{
    let n = names.len() as u32;
    if n == 0 { x } else { y + (n - 1) }
}

/// The variable of a value with another one put at names: z is that of the other, and r the first that is made.
pub(crate) fn root_of(names: &[Name], z: u32, r: u32) -> u32
    requires { r + length names.now ≤ u32.MAX }
    ensures { result ≡ root_of names.now z r }
{
    let n = names.len() as u32;
    if n == 0 { z } else { r + (n - 1) }
}

// All kinds of what the names lead to, and directories all the way.
fn through_all() -> Ways
    ensures { result ≡ through all }
{
    Ways {
        strict: Kinds::of(Kind::Dir),
        parent: Kinds::of(Kind::Dir),
        last: Kinds::all(),
    }
}

// Adds the literals of a move from the one path to the other.
fn add_moved(
    alloc: Global,
    literals: &mut List<Literal>,
    p: &[Name],
    q: &[Name],
) -> Result<(), Memory>
    requires source { length p.now ≤ 65 }
    requires place { length q.now ≤ 65 }
    ensures { OnOk result (literals.new ≡ literals.old ++ moved_literals p.now q.now) }
{
    let n = p.len() as u32;
    let k = q.len() as u32;
    let spare = n + k + 1;
    literals.add(Literal::Kind(Var(spare), Kinds::of(Kind::Absent)))?;
    add_put(alloc, literals, 0, 1, p, spare, spare + 1)?;
    let freed = root_of(p, spare, spare + 1);
    let onward = spare + 1 + n;
    add_look(alloc, literals, &through_all(), freed, onward, q)?;
    add_put(alloc, literals, freed, onward, q, n, onward + k)
}

// Adds the literals of what becomes of what stands at the one path.
fn add_moving(
    alloc: Global,
    literals: &mut List<Literal>,
    moving: Moving,
    p: &[Name],
    q: &[Name],
) -> Result<(), Memory>
    requires source { length p.now ≤ 65 }
    requires place { length q.now ≤ 65 }
    ensures { OnOk result (literals.new ≡ literals.old ++ moves_by moving p.now q.now) }
{
    let n = p.len() as u32;
    let k = q.len() as u32;
    match moving {
        Moving::Stays => Ok(()),
        Moving::Moves => add_moved(alloc, literals, p, q),
        Moving::Copies => add_put(alloc, literals, 0, n + 1, q, n, n + k + 1),
    }
}

// How many variables there are beside that of the tree.
fn move_locals(moving: Moving, p: &[Name], q: &[Name]) -> u32
    requires source { length p.now ≤ 65 }
    requires place { length q.now ≤ 65 }
    ensures { result ≡ move_locals moving p.now q.now }
{
    let n = p.len() as u32;
    let k = q.len() as u32;
    match moving {
        Moving::Stays => n + k,
        Moving::Moves => n + k + 1 + n + k + k,
        Moving::Copies => n + k + k,
    }
}

// The variable of the tree afterwards.
fn move_root(moving: Moving, p: &[Name], q: &[Name]) -> u32
    requires source { length p.now ≤ 65 }
    requires place { length q.now ≤ 65 }
    ensures { result ≡ move_root moving p.now q.now }
{
    let n = p.len() as u32;
    let k = q.len() as u32;
    match moving {
        Moving::Stays => 0,
        Moving::Moves => root_of(q, n, n + k + 1 + 1 + n + k),
        Moving::Copies => root_of(q, n, n + k + 1),
    }
}

/// The case of a row that looks along both paths of a move or a copy, and of what it moves or copies.
pub(crate) fn make_move_case(
    alloc: Global,
    plan: &MovePlan,
    p: &[Name],
    q: &[Name],
) -> Result<Case, Memory>
    requires source { length p.now ≤ 65 }
    requires place { length q.now ≤ 65 }
    ensures { IfOk result (λ made. made ≡ move_case plan.now p.now q.now) }
{
    let n = p.len() as u32;
    let mut literals = List::new(alloc);
    literals.add(Literal::Kind(Var(0), Kinds::of(Kind::Dir)))?;
    add_look(alloc, &mut literals, &plan.source, 0, 1, p)?;
    add_look(alloc, &mut literals, &plan.place, 0, n + 1, q)?;
    add_end(alloc, &mut literals, plan.end, end_of(0, n + 1, q))?;
    add_moving(alloc, &mut literals, plan.moving, p, q)?;
    Ok(Case {
        row: plan.number,
        locals: move_locals(plan.moving, p, q),
        literals,
        done: plan.answer,
        root: Var(move_root(plan.moving, p, q)),
    })
}
