// Chunks of trees, each of which one thread takes.
ghost use Rattle.std.specs.Prelude.{IfOk};
ghost use Rattle.tree_predictions.specs.Chunks.{Follow};

use script_names::{List, Memory};
use std::alloc::Global;

// How many trees a chunk has at most. No clause rests on the number.
const MOST_TREES: usize = 64;

/// Neighbouring places of a list: from one on, up to another that is none of them.
#[derive(Clone, Copy, Debug, PartialEq, Eq)]
pub(crate) struct Chunk {
    pub(crate) from: usize,
    pub(crate) to: usize,
}

/// The places of a list of so many trees in chunks, in their order.
pub(crate) fn chunks_of(alloc: Global, count: usize) -> Result<List<Chunk>, Memory>
    ensures { IfOk result (Follow 0 count) }
{
    let mut chunks = List::new(alloc);
    let mut from = 0usize;
    while from < count {
        let to = from + MOST_TREES.min(count - from);
        chunks.add(Chunk { from, to })?;
        from = to;
    }
    Ok(chunks)
}
