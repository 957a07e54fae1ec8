use script_names::{Bytes, List};

/// What a part of a word says before any expansion.
#[derive(Drop)]
pub enum SeenPart {
    /// It stands for these bytes, plain or quoted.
    Literal {
        bytes: Bytes,
        quoted: bool,
    },
    /// The value of a variable, or these bytes where it is unset or null (XCU 2.6.2 Parameter Expansion); `quoted`
    /// inside double quotes.
    Variable {
        name: Bytes,
        default: Bytes,
        quoted: bool,
    },
    /// The value of another parameter, or what a command writes.
    Unknown,
}

/// A simple command, or the head of a `for`: the names of the variables that it gives a value, and its words.
#[derive(Drop)]
pub struct SeenCommand {
    pub assigned: List<Bytes>,
    pub words: List<List<SeenPart>>,
}
