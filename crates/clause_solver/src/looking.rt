//! A look along the first literals of a case: most rows of most acts are excluded by it, with no store made.

ghost use Rattle.std.specs.Prelude.{◌≡◌, ◌<◌, ◌⊎◌, length, IsTrue, IfSome};
ghost use Rattle.tree_clauses.specs.declared.clause.Literal.TheVariants as literal;
ghost use Rattle.clause_solver.specs.Adds.{given_at, AllInside, LeadsNowhereFrom};
ghost use Rattle.clause_solver.specs.Looking.{Shows};

use crate::store::Store;
use feature_trees::Kinds;
use script_names::Name;
use tree_clauses::{Case, Literal, Var};

/// What a literal shows: that it never holds, or that a variable of the case has the value of one of the store; else
/// the look is over.
#[derive(Clone, Copy)]
pub(crate) enum Looked {
    Excluded,
    At(Var, Var),
    Over,
}

/// Whether the looks of a case along its paths exclude it, whose given variables stand for these of the store. Where
/// they do not, there may be a pair that it leads on from or none. It takes no memory.
pub(crate) fn is_excluded(store: &Store, given: &[Var], case: &Case) -> bool
    requires { AllInside given.now store.now.count }
    ensures { IsTrue result → LeadsNowhereFrom store.now given.now case.now }
{
    if given.is_empty() {
        return false;
    }
    let mut x = Var(0);
    let mut n = given[0];
    let mut left = case.literals.as_slice();
    while let [literal, rest @ ..] = left {
        match look(store, given, x, n, literal) {
            Looked::Excluded => return true,
            Looked::At(y, m) => {
                x = y;
                n = m;
            }
            Looked::Over => return false,
        }
        left = rest;
    }
    false
}

// What a literal shows where x has the value of the store's variable n.
fn look(store: &Store, given: &[Var], x: Var, n: Var, literal: &Literal) -> Looked
    requires inside { AllInside given.now store.now.count }
    requires known { n.0 < store.now.count }
    ensures { Shows store.now given.now x.0 n.0 literal.now result }
{
    match literal {
        Literal::Kind(y, k) => look_at_kinds(store, given, x, n, *y, *k),
        Literal::Entry(y, f, z) => look_at_entry(store, given, x, n, *y, f, *z),
        Literal::Fence(_, _) => Looked::Over,
        Literal::NotEmpty(_) => Looked::Over,
        Literal::Similar(_, _, _) => Looked::Over,
        Literal::Target(_, _) => Looked::Over,
    }
}

// What the kinds of a variable show.
fn look_at_kinds(store: &Store, given: &[Var], x: Var, n: Var, y: Var, k: Kinds) -> Looked
    requires inside { AllInside given.now store.now.count }
    requires known { n.0 < store.now.count }
    ensures { Shows store.now given.now x.0 n.0 (literal.Kind y k) result }
{
    match place_of(given, x, n, y) {
        Some(m) => {
            if store.excludes(m, k) {
                return Looked::Excluded;
            }
            Looked::At(x, n)
        }
        None => Looked::Over,
    }
}

// What an entry shows.
fn look_at_entry(store: &Store, given: &[Var], x: Var, n: Var, y: Var, f: &Name, z: Var) -> Looked
    requires inside { AllInside given.now store.now.count }
    requires known { n.0 < store.now.count }
    ensures { Shows store.now given.now x.0 n.0 (literal.Entry y f.now z) result }
{
    match place_of(given, x, n, y) {
        Some(m) => match store.look(m, f) {
            Some(l) => Looked::At(z, l),
            None => Looked::Over,
        },
        None => Looked::Over,
    }
}

// The store's variable that has the value of y, where that is x, which has the value of n, or a given variable.
fn place_of(given: &[Var], x: Var, n: Var, y: Var) -> Option<Var>
    ensures { IfSome result (λ m. ((y ≡ x) × (m ≡ n)) ⊎ ((y.0 < length given.now) × (m.0 ≡ given_at given.now y.0))) }
{
    if y == x {
        return Some(n);
    }
    let at = y.0 as usize;
    if at < given.len() {
        return Some(given[at]);
    }
    None
}
