use crate::ends::GroupEnd;
use script_names::List;
use start_facts::PlaceFact;

/// Facts on places of start trees that are to hold together: those that tell the outcomes of a group from others that
/// did the same before, and then the others.
#[derive(Drop)]
pub struct FactBox {
    pub deciding: List<PlaceFact>,
    pub others: List<PlaceFact>,
}

/// Outcomes that end alike.
#[derive(Drop)]
pub struct Group {
    pub end: GroupEnd,
    /// The places of the outcomes in the part, counted from 0, rising.
    pub members: List<usize>,
    /// What is told of the start trees of its outcomes: of each of them all facts of some box hold.
    pub boxes: List<FactBox>,
    /// Whether no start tree of another outcome has all facts of a box.
    pub exactly: bool,
}
