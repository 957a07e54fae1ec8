//! What contracts see of a directory's entries.

use crate::kind::Special;
use script_names::{Bytes, List};

/// What stands under a name.
#[cycle(shape)]
#[derive(Drop)]
pub enum Node {
    Reg,
    Link(Bytes),
    Special(Special),
    Dir(List<Entry>),
}

/// A name and what stands under it.
#[cycle(shape)]
#[derive(Drop)]
pub struct Entry {
    pub name: Bytes,
    pub node: Node,
}
