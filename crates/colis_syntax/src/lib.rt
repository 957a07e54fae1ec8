//! The CoLiS language, into which shell scripts are translated: its types, which programs are well formed, and their
//! text. It stands on shown_texts and script_names. Begin with `syntax`.
#![tactic(auto)]

mod copies;
mod def;
mod members;
mod printing;
mod program;
mod syntax;
mod well_formed;

pub use def::Def;
pub use printing::print_program;
pub use program::Program;
pub use syntax::{ChainPart, Fields, PatArm, SetTo, Stmt, StmtArm, Str, StrPiece};
