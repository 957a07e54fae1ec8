//! The grammar of shell scripts over tokens (POSIX.1-2017, XCU 2.10 Shell Grammar): which script tokens spell, and
//! where they are at fault. It stands on shell_lexer and shell_syntax. Begin with specs/PlainGrammar.antt, and for
//! faults with specs/Places.antt; what a parser reads by is the table in specs/Grammar.antt with specs/Reading.antt.
#![tactic(auto)]

mod fault;
mod form;
mod items;
mod look;
pub mod theorems;

pub use fault::ParseFault;
pub use form::{CommandForm, CompoundForm, Item};
pub use items::Items;
pub use look::{Look, Reserved};
