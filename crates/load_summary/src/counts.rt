// How many endings of outcomes are of each way to end.
ghost use Rattle.std.specs.Prelude.{◌≡◌, ◌+◌, ◌-◌, ◌^◌, ◌<◌, cond};
ghost use Rattle.load_summary.specs.Counts.{count, ends_in};

use dpkg_scenarios::Ending;
use script_names::{Copied, Memory};
use std::alloc::Global;

/// A way to end, without the state or the site.
#[derive(Clone, Copy, Debug, PartialEq, Eq)]
pub enum EndWay {
    Done,
    Failed,
    Incomplete,
    Bound,
}

impl Copied for EndWay {
    fn copy(&self, _alloc: Global) -> Result<EndWay, Memory> {
        Ok(*self)
    }
}

// Whether an ending is of this way.
fn ends_in(way: EndWay, ending: Ending) -> bool
    ensures { result ≡ ends_in way ending }
{
    match way {
        EndWay::Done => match ending {
            Ending::Done(_) => true,
            Ending::Failed(_) | Ending::Incomplete(_, _) | Ending::Bound(_) => false,
        },
        EndWay::Failed => match ending {
            Ending::Failed(_) => true,
            Ending::Done(_) | Ending::Incomplete(_, _) | Ending::Bound(_) => false,
        },
        EndWay::Incomplete => match ending {
            Ending::Incomplete(_, _) => true,
            Ending::Done(_) | Ending::Failed(_) | Ending::Bound(_) => false,
        },
        EndWay::Bound => match ending {
            Ending::Bound(_) => true,
            Ending::Done(_) | Ending::Failed(_) | Ending::Incomplete(_, _) => false,
        },
    }
}

// One more where this is set.
fn one_more(count: u64, counts: bool) -> u64
    requires { count < 2 ^ 64 - 1 }
    ensures { result ≡ count + cond counts 1 0 }
{
    if counts { count + 1 } else { count }
}

/// How many of the endings are of this way.
pub fn count(way: EndWay, endings: &[Ending]) -> u64
    ensures { result ≡ count way endings.now }
{
    let mut found = 0;
    for ending in endings {
        found = one_more(found, ends_in(way, *ending));
    }
    found
}
