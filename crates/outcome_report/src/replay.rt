ghost use Rattle.std.specs.Prelude.{◌≡◌};
ghost use Rattle.outcome_report.specs.Kept.{replay_of};

use dpkg_scenarios::Ending;
use feature_trees::Value;
use scenario_runs::{Replayed, ScriptCall};
use script_names::{Copied, List, Mark, Memory};
use std::alloc::Global;

/// What a report keeps of a run: its ending, the marks of its deeds, in order, the tree that it left, and the calls of
/// scripts, in order.
#[derive(Drop)]
pub struct Replay {
    pub ending: Ending,
    pub trace: List<Mark>,
    pub after: Value,
    pub calls: List<ScriptCall>,
}

impl Copied for Replay {
    fn copy(&self, alloc: Global) -> Result<Replay, Memory> {
        let trace = self.trace.copy(alloc)?;
        let after = self.after.copy(alloc)?;
        let calls = self.calls.copy(alloc)?;
        Ok(Replay {
            ending: self.ending,
            trace,
            after,
            calls,
        })
    }
}

/// What a report keeps of a run.
pub fn keep_replay(run: Replayed) -> Replay
    ensures { result ≡ replay_of run }
{
    let Replayed {
        ending,
        trace,
        after,
        calls,
        deeds: _,
    } = run;
    Replay {
        ending,
        trace,
        after,
        calls,
    }
}
