ghost use Rattle.std.specs.Prelude.{◌≡◌, ◌++◌, ◌≤◌, length, OnOk, IfOk};
ghost use Rattle.clause_solver.specs.declared.variable.Definition.TheVariants as Definition;
ghost use Rattle.clause_solver.specs.Written.{made_literals, definition_literals, is_all, kinds_literals};
ghost use Rattle.clause_solver.specs.Written.{fence_literals, filled_literals, target_literals, literals_of, literals_from};

use crate::places::var_at;
use crate::variable::{Definition, MOST_VARIABLES, MadeValue, Variable};
use feature_trees::{Kind, Kinds};
use script_names::{Bytes, Copied, List, Memory, Name};
use shared_table::Shared;
use std::alloc::Global;
use tree_clauses::{Literal, Var};

// Whether every kind is in the set.
fn is_all(kinds: Kinds) -> bool
    ensures { result ≡ is_all kinds }
{
    kinds.absent
        && kinds.reg
        && kinds.link
        && kinds.fifo
        && kinds.socket
        && kinds.block
        && kinds.char
        && kinds.dir
}

// Adds the literals of a made value.
fn add_made(
    alloc: Global,
    literals: &mut List<Literal>,
    i: u32,
    value: &MadeValue,
) -> Result<(), Memory>
    ensures { OnOk result (literals.new ≡ literals.old ++ made_literals i value.now) }
{
    match value {
        MadeValue::Absent => literals.add(Literal::Kind(Var(i), Kinds::of(Kind::Absent))),
        MadeValue::Reg => literals.add(Literal::Kind(Var(i), Kinds::of(Kind::Reg))),
        MadeValue::Link(target) => literals.add(Literal::Target(Var(i), target.copy(alloc)?)),
        MadeValue::Dir => {
            literals.add(Literal::Kind(Var(i), Kinds::of(Kind::Dir)))?;
            literals.add(Literal::Fence(Var(i), List::new(alloc)))
        }
    }
}

// Adds the literals of a variable with one entry replaced.
fn add_derived(
    alloc: Global,
    literals: &mut List<Literal>,
    i: u32,
    of: u32,
    f: &Name,
    value: u32,
) -> Result<(), Memory>
    ensures { OnOk result (literals.new ≡ literals.old ++ definition_literals i (Definition.Derived of f.now value)) }
{
    let mut names = List::new(alloc);
    let name = f.copy(alloc)?;
    names.add(name)?;
    literals.add(Literal::Similar(Var(i), names, Var(of)))?;
    let name = f.copy(alloc)?;
    literals.add(Literal::Entry(Var(i), name, Var(value)))
}

// Adds the literals of a definition.
fn add_definition(
    alloc: Global,
    literals: &mut List<Literal>,
    i: u32,
    definition: &Definition,
) -> Result<(), Memory>
    ensures { OnOk result (literals.new ≡ literals.old ++ definition_literals i definition.now) }
{
    match definition {
        Definition::Start => Ok(()),
        Definition::Child(of, f) => literals.add(Literal::Entry(Var(*of), f.copy(alloc)?, Var(i))),
        Definition::Derived(of, f, value) => add_derived(alloc, literals, i, *of, f, *value),
        Definition::Ensured(of) => literals.add(Literal::Similar(
            Var(i),
            List::new(alloc),
            Var(*of),
        )),
        Definition::Made(value) => add_made(alloc, literals, i, value),
    }
}

// Adds the literal of the kinds, unless they are all kinds.
fn add_kinds(literals: &mut List<Literal>, i: u32, kinds: Kinds) -> Result<(), Memory>
    ensures { OnOk result (literals.new ≡ literals.old ++ kinds_literals i kinds) }
{
    if is_all(kinds) {
        Ok(())
    } else {
        literals.add(Literal::Kind(Var(i), kinds))
    }
}

// Adds the literal of a fence.
fn add_fence(
    alloc: Global,
    literals: &mut List<Literal>,
    i: u32,
    fence: &Option<List<Name>>,
) -> Result<(), Memory>
    ensures { OnOk result (literals.new ≡ literals.old ++ fence_literals i fence.now) }
{
    match fence {
        None => Ok(()),
        Some(names) => literals.add(Literal::Fence(Var(i), names.copy(alloc)?)),
    }
}

// Adds the literal of a variable that has an entry.
fn add_filled(literals: &mut List<Literal>, i: u32, not_empty: bool) -> Result<(), Memory>
    ensures { OnOk result (literals.new ≡ literals.old ++ filled_literals i not_empty) }
{
    if not_empty {
        literals.add(Literal::NotEmpty(Var(i)))
    } else {
        Ok(())
    }
}

// Adds the literal of a target.
fn add_target(
    alloc: Global,
    literals: &mut List<Literal>,
    i: u32,
    target: &Option<Bytes>,
) -> Result<(), Memory>
    ensures { OnOk result (literals.new ≡ literals.old ++ target_literals i target.now) }
{
    match target {
        None => Ok(()),
        Some(bytes) => literals.add(Literal::Target(Var(i), bytes.copy(alloc)?)),
    }
}

// Adds the literals of a variable.
fn add_variable(
    alloc: Global,
    literals: &mut List<Literal>,
    i: u32,
    v: &Variable,
) -> Result<(), Memory>
    ensures { OnOk result (literals.new ≡ literals.old ++ literals_of i v.now) }
{
    add_definition(alloc, literals, i, v.definition.get())?;
    add_kinds(literals, i, v.kinds)?;
    add_fence(alloc, literals, i, &v.fence)?;
    add_filled(literals, i, v.not_empty)?;
    add_target(alloc, literals, i, &v.target)
}

/// The literals of the variables, in order.
pub(crate) fn write_literals(
    alloc: Global,
    vars: &Shared<Variable>,
) -> Result<List<Literal>, Memory>
    requires { length vars.now ≤ MOST_VARIABLES }
    ensures { IfOk result (λ v. v ≡ literals_from 0 vars.now) }
{
    let mut literals = List::new(alloc);
    for i in 0..vars.len() {
        add_variable(alloc, &mut literals, i as u32, var_at(vars, i))?;
    }
    Ok(literals)
}
