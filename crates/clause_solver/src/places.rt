//! The variables of a store and their greatest kinds, by number.

ghost use Rattle.std.specs.Prelude.{◌≡◌, ◌<◌, length};
ghost use Rattle.clause_solver.specs.Variables.{var_at};
ghost use Rattle.clause_solver.specs.Greatest.{kind_at};

use crate::variable::{Definition, Variable};
use feature_trees::Kind;
use shared_table::Shared;

/// The variable with this number.
pub(crate) fn var_at(vars: &Shared<Variable>, i: usize) -> &Variable
    requires { i < length vars.now }
    ensures { result.now ≡ var_at vars.now i }
{
    match vars.get(i) {
        Some(v) => v,
        None => unreachable!(),
    }
}

/// The definition of the variable with this number.
pub(crate) fn definition_at(vars: &Shared<Variable>, i: usize) -> &Definition
    requires { i < length vars.now }
    ensures { result.now ≡ (var_at vars.now i).definition }
{
    var_at(vars, i).definition.get()
}

/// The kind at a place.
pub(crate) fn kind_at(best: &Shared<Kind>, i: usize) -> Kind
    requires { i < length best.now }
    ensures { result ≡ kind_at best.now i }
{
    match best.get(i) {
        Some(kind) => *kind,
        None => unreachable!(),
    }
}
