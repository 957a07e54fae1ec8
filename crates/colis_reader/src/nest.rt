use script_names::{Bytes, List};

/// A part of a nested text: a word, which has no members, or a list in parentheses, whose word has no bytes.
#[derive(Drop)]
pub(crate) enum Nest {
    Node(Bytes, List<Nest>),
}
