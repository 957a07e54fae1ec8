//! Clauses over the variables of feature trees: what a clause covers, and a clause as text.
//! It stands on feature_trees, shown_texts and script_names. Begin with `clause`, and with specs/Literals.antt for
//! what a literal says; `covers` decides whether a clause covers a tree, and `theorems` says that the text of a clause
//! is read as the clause.
#![tactic(auto)]

mod case;
mod cell;
mod cells;
mod clause;
mod cuts;
mod deciding;
mod facts;
mod first;
mod known_values;
mod making;
mod name_set;
mod read;
mod rising;
mod text;
pub mod theorems;
mod whole;

pub use case::Case;
pub use clause::{Clause, Literal, Var};
pub use deciding::{covers, is_solved, meets, subject};
pub use read::{ClauseFault, read_clause};
pub use text::{print_clause, print_literal, put_clause};
