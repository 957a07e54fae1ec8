//! The texts of clauses, printed and read. For want of memory each answer is no.

use clause_solver::Store;
use script_names::{Boxed, Copied, Memory};
use std::alloc::Global;
use tree_clauses::{Case, Clause, Var, print_clause, read_clause};

/// The clause of a copy of a case, on the tree that the case has as variable 0.
pub(crate) fn clause_of(alloc: Global, made: &Case) -> Result<Boxed<Clause>, Memory> {
    let made = made.copy(alloc)?;
    let clause = Clause {
        literals: made.literals,
        start: Var(0),
        now: made.root,
    };
    Boxed::new(alloc, clause)
}

// Whether a clause is printed so.
fn is_printed(alloc: Global, clause: &Clause, text: &[u8]) -> bool {
    match print_clause(alloc, clause) {
        Ok(printed) => printed.as_slice() == text,
        Err(_) => false,
    }
}

// Whether the clause that is read from a text is printed with it.
fn is_read_again(alloc: Global, text: &[u8]) -> bool {
    match read_clause(alloc, text) {
        Ok(clause) => is_printed(alloc, &clause, text),
        Err(_) => false,
    }
}

/// Whether a clause has a text, and is read as it was printed.
pub(crate) fn has_text(alloc: Global, clause: &Clause, text: &[u8]) -> bool {
    is_printed(alloc, clause, text) && is_read_again(alloc, text)
}

/// Whether the clause of a store has a text, and is read as it was printed.
pub(crate) fn has_clause(alloc: Global, s: &Store, text: &[u8]) -> bool {
    match s.clause() {
        Ok(clause) => has_text(alloc, &clause, text),
        Err(_) => false,
    }
}
