//! The JSON text of a report (RFC 8259): one line, no blanks, the keys of each object in byte order. It is printed in
//! the second version; values of the first, in which one kind stood for the four special ones, are made for readers.
//! It stands on report_text, and on serde_json, whose own definition says which text a value has. Begin with
//! specs/ReportJson.antt, which has the value of a report, key by key, and with `render_json`.
#![tactic(auto)]

mod first;
mod render;
mod texts;
pub mod theorems;
mod values;

pub use first::has_text;
pub use render::render_json;
pub use values::report_value;
