//! The syntax of shell scripts, as POSIX.1-2017, Shell and Utilities (XCU), chapter 2, has it: what a lexer and a
//! parser give, and what later layers take a meaning of. It stands on shown_texts. Begin with `syntax`.
#![tactic(auto)]

mod copies;
mod form;
mod key;
mod level;
mod members;
mod printed_parts;
mod printing;
mod redirect;
mod script;
mod syntax;

pub use form::Form;
pub use key::Key;
pub use members::{with_case_arm, with_command, with_if_arm, with_link};
pub use printing::print_script;
pub use redirect::Redirect;
pub use script::Script;
pub use syntax::{Assign, CaseArm, Command, IfArm, Link, Part, Word};
