use crate::call::ScriptCall;
use dpkg_scenarios::Ending;
use feature_trees::Value;
use script_names::{Copied, List, Memory};
use shell_rules::Trace;
use std::alloc::Global;
use utility_calls::deeds::Deed;

/// The run of a scenario from one tree: its ending, the marks of the acts that were done and of what was put back, in
/// order, the tree that it left, the calls of scripts, in order, and what was done to the trees, in order.
#[derive(Drop)]
pub struct Replayed {
    pub ending: Ending,
    pub trace: Trace,
    pub after: Value,
    pub calls: List<ScriptCall>,
    pub deeds: List<Deed>,
}

impl Copied for Replayed {
    fn copy(&self, alloc: Global) -> Result<Replayed, Memory> {
        let trace = self.trace.copy(alloc)?;
        let after = self.after.copy(alloc)?;
        let calls = self.calls.copy(alloc)?;
        let deeds = self.deeds.copy(alloc)?;
        Ok(Replayed {
            ending: self.ending,
            trace,
            after,
            calls,
            deeds,
        })
    }
}
