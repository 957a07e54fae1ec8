ghost use Rattle.std.specs.Prelude.{◌≡◌, ◌+◌, ◌≤◌, ◌++◌, [], length, IfOk, OnOk};
ghost use Rattle.utility_calls.specs.declared.sights.Effect.TheVariants.{MakesDir};
ghost use Rattle.act_cases.specs.Puts.{root_of};
ghost use Rattle.act_cases.specs.Plans.{is_put, made_literals, end_literals, change_literals, case_of};

use crate::looks::{Ways, add_look};
use crate::puts::add_put;
use feature_trees::{Kind, Kinds};
use script_names::{Bytes, Copied, Done, List, Memory, Name};
use std::alloc::Global;
use tree_clauses::{Case, Literal, Var};
use utility_calls::sights::Effect;

/// What is asked of the entries of the value at the end of names.
#[derive(Clone, Copy, Debug, PartialEq, Eq)]
pub enum End {
    Any,
    /// There are none.
    Empty,
    /// There is one.
    Full,
}

/// A row as it is made into a case: what the values along names are, and what is put at the names.
#[derive(Clone, Copy, Debug, PartialEq, Eq)]
pub struct Plan {
    pub number: u8,
    pub answer: Done,
    pub ways: Ways,
    pub end: End,
    pub effect: Effect,
}

// Whether the effect puts something at the names.
fn is_put(effect: Effect) -> bool
    ensures { result ≡ is_put effect }
{
    match effect {
        Effect::Nothing | Effect::Moves | Effect::MovesInside => false,
        Effect::Copies | Effect::CopiesInside => false,
        Effect::MakesDir | Effect::KeepsDir | Effect::MakesFile => true,
        Effect::MakesLink | Effect::LinksInside | Effect::TakesAway => true,
    }
}

/// Adds the literals of what is asked of the entries.
pub(crate) fn add_end(
    alloc: Global,
    literals: &mut List<Literal>,
    end: End,
    x: u32,
) -> Result<(), Memory>
    ensures { OnOk result (literals.new ≡ literals.old ++ end_literals end x) }
{
    match end {
        End::Any => Ok(()),
        End::Empty => literals.add(Literal::Fence(Var(x), List::new(alloc))),
        End::Full => literals.add(Literal::NotEmpty(Var(x))),
    }
}

// Adds the literals of the empty directory.
fn add_empty(alloc: Global, literals: &mut List<Literal>, z: u32) -> Result<(), Memory>
    ensures { OnOk result (literals.new ≡ literals.old ++ made_literals MakesDir [] z z) }
{
    literals.add(Literal::Kind(Var(z), Kinds::of(Kind::Dir)))?;
    literals.add(Literal::Fence(Var(z), List::new(alloc)))
}

// Adds the literals of what an effect puts: z is its variable, and x that of what stood there.
fn add_made(
    alloc: Global,
    literals: &mut List<Literal>,
    effect: Effect,
    target: &Bytes,
    x: u32,
    z: u32,
) -> Result<(), Memory>
    ensures { OnOk result (literals.new ≡ literals.old ++ made_literals effect target.now x z) }
{
    match effect {
        Effect::Nothing | Effect::Moves | Effect::MovesInside => Ok(()),
        Effect::Copies | Effect::CopiesInside => Ok(()),
        Effect::MakesDir => add_empty(alloc, literals, z),
        Effect::KeepsDir => literals.add(Literal::Similar(Var(z), List::new(alloc), Var(x))),
        Effect::MakesFile => literals.add(Literal::Kind(Var(z), Kinds::of(Kind::Reg))),
        Effect::TakesAway => literals.add(Literal::Kind(Var(z), Kinds::of(Kind::Absent))),
        Effect::MakesLink => literals.add(Literal::Target(Var(z), target.copy(alloc)?)),
        Effect::LinksInside => literals.add(Literal::Target(Var(z), target.copy(alloc)?)),
    }
}

// Adds the literals of the tree with what the effect puts at the names.
fn add_change(
    alloc: Global,
    literals: &mut List<Literal>,
    effect: Effect,
    names: &[Name],
    target: &Bytes,
) -> Result<(), Memory>
    requires { length names.now ≤ 65 }
    ensures { OnOk result (literals.new ≡ literals.old ++ change_literals effect names.now target.now) }
{
    let n = names.len() as u32;
    add_made(alloc, literals, effect, target, n, n + 1)?;
    add_put(alloc, literals, 0, 1, names, n + 1, n + 2)
}

// The variable of the tree with what is put at the names.
fn root(names: &[Name]) -> u32
    requires { length names.now ≤ 65 }
    ensures { result ≡ root_of names.now (length names.now + 1) (length names.now + 2) }
{
    let n = names.len() as u32;
    match names {
        [] => 1,
        [_, ..] => n + 1 + n,
    }
}

/// The case of a row that looks along names, and of what it puts there.
pub(crate) fn make_case(
    alloc: Global,
    plan: &Plan,
    names: &[Name],
    target: &Bytes,
) -> Result<Case, Memory>
    requires { length names.now ≤ 65 }
    ensures { IfOk result (λ made. made ≡ case_of plan.now names.now target.now) }
{
    let n = names.len() as u32;
    let mut literals = List::new(alloc);
    literals.add(Literal::Kind(Var(0), Kinds::of(Kind::Dir)))?;
    add_look(alloc, &mut literals, &plan.ways, 0, 1, names)?;
    add_end(alloc, &mut literals, plan.end, n)?;
    if !is_put(plan.effect) {
        return Ok(Case {
            row: plan.number,
            locals: n,
            literals,
            done: plan.answer,
            root: Var(0),
        });
    }
    add_change(alloc, &mut literals, plan.effect, names, target)?;
    Ok(Case {
        row: plan.number,
        locals: n + 1 + n,
        literals,
        done: plan.answer,
        root: Var(root(names)),
    })
}
