//! Scripts in which no unsupported form stands: those that later layers take a meaning of. It stands on shell_parser
//! and what that stands on.
//! Begin with `accept` in `accepted`, and with specs/Forms.antt for what each form is.
#![tactic(auto)]

mod accepted;
mod finding;
mod found;
mod functions;
mod place;
mod words;

pub use accepted::{Accepted, FormFault, accept};
pub use place::{Place, Standing};
pub use words::{is_name, static_text};
