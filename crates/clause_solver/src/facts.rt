//! What becomes known of a variable: its kinds, that it has an entry, and its target as a symbolic link.

ghost use Rattle.std.specs.Prelude.{◌≡◌, ◌<◌, length, IfOk, OnOk, IsTrue, true, Some};
ghost use Rattle.clause_solver.specs.Variables.{aimed, filled, fixed_in, narrowed, narrowed_kinds, var_at};

use crate::greatest::kind_made;
use crate::places::var_at;
use crate::variable::{Definition, Variable};
use feature_trees::{Kind, Kinds};
use script_names::{Bytes, Copied, Memory};
use shared_table::{Shared, set_alone};
use std::alloc::Global;

/// Narrows the variable at a place to a set of kinds; for want of memory all is as before.
pub(crate) fn narrow(
    alloc: Global,
    vars: &mut Shared<Variable>,
    x: usize,
    k: Kinds,
) -> Result<(), Memory>
    requires { x < length vars.old }
    ensures { OnOk result (vars.new ≡ narrowed vars.old x k) }
{
    if keeps_kinds(vars, x, k) {
        return Ok(());
    }
    let narrowed = narrowed_at(alloc, vars, x, k)?;
    set_alone(vars, x, narrowed)?;
    Ok(())
}

// Whether narrowing to a set of kinds leaves the variable at a place as it is.
fn keeps_kinds(vars: &Shared<Variable>, x: usize, k: Kinds) -> bool
    requires { x < length vars.now }
    ensures { IsTrue result → narrowed vars.now x k ≡ vars.now }
{
    let v = var_at(vars, x);
    are_same(narrowed_kinds(v, k), v.kinds)
}

// Whether two sets of kinds are the same.
fn are_same(a: Kinds, b: Kinds) -> bool
    ensures { IsTrue result → a ≡ b }
{
    a == b
}

// The variable at a place, narrowed to a set of kinds.
fn narrowed_at(
    alloc: Global,
    vars: &Shared<Variable>,
    x: usize,
    k: Kinds,
) -> Result<Variable, Memory>
    requires { x < length vars.now }
    ensures { IfOk result (λ v. v ≡ record (var_at vars.now x) { kinds = narrowed_kinds (var_at vars.now x) k }) }
{
    let v = var_at(vars, x);
    let definition = v.definition.fork()?;
    let fence = v.fence.copy(alloc)?;
    let target = v.target.copy(alloc)?;
    Ok(Variable {
        definition,
        kinds: narrowed_kinds(v, k),
        fence,
        not_empty: v.not_empty,
        target,
    })
}

/// Says of the variable at a place that it has an entry; for want of memory all is as before.
pub(crate) fn fill(alloc: Global, vars: &mut Shared<Variable>, x: usize) -> Result<(), Memory>
    requires { x < length vars.old }
    ensures { OnOk result (vars.new ≡ filled vars.old x) }
{
    let filled = filled_at(alloc, vars, x)?;
    set_alone(vars, x, filled)?;
    Ok(())
}

// The variable at a place, which has an entry.
fn filled_at(alloc: Global, vars: &Shared<Variable>, x: usize) -> Result<Variable, Memory>
    requires { x < length vars.now }
    ensures { IfOk result (λ v. v ≡ record (var_at vars.now x) { not_empty = true }) }
{
    let v = var_at(vars, x);
    let definition = v.definition.fork()?;
    let fence = v.fence.copy(alloc)?;
    let target = v.target.copy(alloc)?;
    Ok(Variable {
        definition,
        kinds: v.kinds,
        fence,
        not_empty: true,
        target,
    })
}

/// Gives the variable at a place its target as a symbolic link; for want of memory all is as before.
pub(crate) fn aim(
    alloc: Global,
    vars: &mut Shared<Variable>,
    x: usize,
    target: &Bytes,
) -> Result<(), Memory>
    requires { x < length vars.old }
    ensures { OnOk result (vars.new ≡ aimed vars.old x target.now) }
{
    let aimed = aimed_at(alloc, vars, x, target)?;
    set_alone(vars, x, aimed)?;
    Ok(())
}

// The variable at a place, with this target.
fn aimed_at(
    alloc: Global,
    vars: &Shared<Variable>,
    x: usize,
    target: &Bytes,
) -> Result<Variable, Memory>
    requires { x < length vars.now }
    ensures { IfOk result (λ v. v ≡ record (var_at vars.now x) { target = Some target.now }) }
{
    let v = var_at(vars, x);
    let definition = v.definition.fork()?;
    let fence = v.fence.copy(alloc)?;
    let target = target.copy(alloc)?;
    Ok(Variable {
        definition,
        kinds: v.kinds,
        fence,
        not_empty: v.not_empty,
        target: Some(target),
    })
}

// The kinds of a variable that is narrowed to a set; where its definition says as much, they stay.
fn narrowed_kinds(v: &Variable, k: Kinds) -> Kinds
    ensures { result ≡ narrowed_kinds v.now k }
{
    if fixed_in(v.definition.get(), k) {
        v.kinds
    } else {
        Kinds::both(v.kinds, k)
    }
}

// Whether the definition fixes the kind, and it is one of the set.
fn fixed_in(definition: &Definition, k: Kinds) -> bool
    ensures { result ≡ fixed_in definition.now k }
{
    match definition {
        Definition::Start => false,
        Definition::Child(_, _) => false,
        Definition::Derived(_, _, _) => k.has(Kind::Dir),
        Definition::Ensured(_) => k.has(Kind::Dir),
        Definition::Made(value) => k.has(kind_made(value)),
    }
}
