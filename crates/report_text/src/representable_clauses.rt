// That the numbers of a clause fit their types and its names are of bytes, said of values of these types. These calls
// change nothing.
ghost use Rattle.std.specs.Prelude.{IsTrue};
ghost use Rattle.std.specs.List.{list_all};
ghost use Rattle.tree_clauses.specs.ClauseRead.{is_var, is_representable_name, is_literal, is_clause};

use crate::representable_pieces::are_bytes;
use script_names::Name;
use tree_clauses::{Clause, Literal, Var};

// The number of a variable fits.
fn is_var(x: &Var)
    ensures { IsTrue (is_var x.now) }
{
    let _number = x.0;
}

// A name is one that the program's types represent.
fn is_byte_name(name: &Name)
    ensures { IsTrue (is_representable_name name.now) }
{
    are_bytes(name.as_slice());
}

// Names are such as the program's types represent.
fn are_byte_names(names: &[Name])
    ensures { IsTrue (list_all is_representable_name names.now) }
{
    let mut left = names;
    while let [name, rest @ ..] = left {
        is_byte_name(name);
        left = rest;
    }
}

/// The variables of a literal fit, and its names are of bytes. The call changes nothing.
pub fn is_representable_literal(literal: &Literal)
    ensures { IsTrue (is_literal literal.now) }
{
    match literal {
        Literal::Entry(x, name, y) => {
            is_var(x);
            is_byte_name(name);
            is_var(y);
        }
        Literal::Kind(x, _) => is_var(x),
        Literal::Fence(x, names) => {
            is_var(x);
            are_byte_names(names.as_slice());
        }
        Literal::NotEmpty(x) => is_var(x),
        Literal::Similar(y, names, x) => {
            is_var(y);
            are_byte_names(names.as_slice());
            is_var(x);
        }
        Literal::Target(x, target) => {
            is_var(x);
            are_bytes(target.as_slice());
        }
    }
}

// In literals the numbers of variables fit, and names are names of bytes.
fn are_literals(literals: &[Literal])
    ensures { IsTrue (list_all is_literal literals.now) }
{
    let mut left = literals;
    while let [literal, rest @ ..] = left {
        is_representable_literal(literal);
        left = rest;
    }
}

/// The clause is one that its type represents: its numbers fit, and its names are of bytes. The call changes nothing.
pub fn is_representable_clause(clause: &Clause)
    ensures { IsTrue (is_clause clause.entry.now) }
{
    is_var(&clause.start);
    is_var(&clause.now);
    are_literals(clause.literals.as_slice());
}
