//! What a case adds to a store: its literals in their order, each by a step of a draft.

ghost use Rattle.std.specs.Prelude.{◌≡◌, ◌≤◌, ◌∷◌, length, drop, IfOk};
ghost use Rattle.tree_clauses.specs.declared.clause.Literal.TheVariants as literal;
ghost use Rattle.tree_clauses.specs.Plain.{IsPlainFrom};
ghost use Rattle.clause_solver.specs.Adds.{AllInside};
ghost use Rattle.clause_solver.specs.Drafts.{CanGo, GoesOn, IsDrafted};
ghost use Rattle.clause_solver.specs.Decided.{AreDecided};

use crate::drafts::Draft;
use crate::lists::Lists;
use crate::variable::MadeValue;
use feature_trees::{Kind, Kinds};
use script_names::{Copied, Memory, Name};
use std::alloc::Global;
use tree_clauses::{Case, Literal, Var, subject};

/// The lists of a store with what the literals of a case leave, whose given variables stand for these of the store.
pub(crate) fn drafted(
    alloc: Global,
    lists: Lists,
    given: &[Var],
    case: &Case,
) -> Result<Draft, Memory>
    requires plain { IsPlainFrom (length given.now) case.now }
    requires few { length given.now ≤ u32.MAX }
    requires decided { AreDecided lists }
    requires inside { AllInside given.now (length lists.vars) }
    ensures { IfOk result (IsDrafted lists.vars given.now case.now) }
{
    let mut draft = Draft::of(alloc, lists, given)?;
    let mut left = case.literals.as_slice();
    while let [literal, rest @ ..] = left {
        left = pass(alloc, &mut draft, literal, rest)?;
    }
    Ok(draft)
}

// Passes a literal that stands directly before others, and answers those that are left.
fn pass<'a>(
    alloc: Global,
    draft: &mut Draft,
    literal: &Literal,
    rest: &'a [Literal],
) -> Result<&'a [Literal], Memory>
    requires { CanGo draft.old (literal.now ∷ rest.now) }
    ensures goes { IfOk result (λ more. GoesOn draft.old (literal.now ∷ rest.now) draft.new more.now) }
    ensures fewer { IfOk result (λ more. length more.now ≤ length rest.now) }
{
    match literal {
        Literal::Entry(x, f, y) => {
            draft.enter(alloc, *y, *x, f)?;
            Ok(rest)
        }
        Literal::Kind(x, kinds) => pass_kinds(alloc, draft, *x, *kinds, rest),
        Literal::Fence(x, _) => {
            draft.empty(alloc, *x)?;
            Ok(rest)
        }
        Literal::NotEmpty(x) => {
            draft.fill(alloc, *x)?;
            Ok(rest)
        }
        Literal::Similar(y, names, x) => {
            pass_similar(alloc, draft, *y, names.as_slice(), *x, rest)
        }
        Literal::Target(y, target) => {
            let target = target.copy(alloc)?;
            draft.make(alloc, *y, MadeValue::Link(target))?;
            Ok(rest)
        }
    }
}

// Passes the kinds of a variable: a fact where it has a place, else nothing, a file, or, by the fence behind it, the
// directory without entries.
fn pass_kinds<'a>(
    alloc: Global,
    draft: &mut Draft,
    x: Var,
    kinds: Kinds,
    rest: &'a [Literal],
) -> Result<&'a [Literal], Memory>
    requires { CanGo draft.old (literal.Kind x kinds ∷ rest.now) }
    ensures goes { IfOk result (λ more. GoesOn draft.old (literal.Kind x kinds ∷ rest.now) draft.new more.now) }
    ensures fewer { IfOk result (λ more. length more.now ≤ length rest.now) }
{
    if draft.has(x) {
        draft.narrow(alloc, x, kinds)?;
        return Ok(rest);
    }
    if kinds.has(Kind::Absent) {
        draft.make(alloc, x, MadeValue::Absent)?;
        return Ok(rest);
    }
    if kinds.has(Kind::Reg) {
        draft.make(alloc, x, MadeValue::Reg)?;
        return Ok(rest);
    }
    draft.make(alloc, x, MadeValue::Dir)?;
    Ok(behind_first(rest))
}

// The literals behind the first of them.
fn behind_first(literals: &[Literal]) -> &[Literal]
    ensures behind { result.now ≡ drop 1 literals.now }
    ensures fewer { length result.now ≤ length literals.now }
{
    match literals {
        [] => literals,
        [_, rest @ ..] => rest,
    }
}

// Passes a directory that is similar to another, and the entry that is put there where there is a name.
fn pass_similar<'a>(
    alloc: Global,
    draft: &mut Draft,
    y: Var,
    names: &[Name],
    x: Var,
    rest: &'a [Literal],
) -> Result<&'a [Literal], Memory>
    requires { CanGo draft.old (literal.Similar y names.now x ∷ rest.now) }
    ensures goes { let all = literal.Similar y names.now x ∷ rest.now in
        IfOk result (λ more. GoesOn draft.old all draft.new more.now) }
    ensures fewer { IfOk result (λ more. length more.now ≤ length rest.now) }
{
    match names {
        [] => {
            draft.ensure(alloc, y, x)?;
            Ok(rest)
        }
        [f, ..] => match rest {
            [] => unreachable!(),
            [entry, more @ ..] => {
                f.is_sound();
                draft.derive(alloc, y, x, f, subject(entry))?;
                Ok(more)
            }
        },
    }
}
