ghost use Rattle.std.specs.Prelude.{◌≡◌};
ghost use Rattle.scenario_runs.specs.Runs.{call_end};

use dpkg_scenarios::{ScriptKind, Side};
use script_names::{Bytes, Copied, List, Memory};
use shell_rules::End;
use std::alloc::Global;

/// How a call of a script ended: with success, with failure, or without a status, where it was stopped or bound.
#[derive(Clone, Copy, Debug, PartialEq, Eq)]
pub enum CallEnd {
    Ok,
    Failed,
    Ended,
}

impl Copied for CallEnd {
    fn copy(&self, _alloc: Global) -> Result<CallEnd, Memory> {
        Ok(*self)
    }
}

/// A call of a maintainer script, of the old or of the new package, with its words (Debian Policy, 6.5). A missing
/// script is no call.
#[derive(Debug, Drop)]
pub struct ScriptCall {
    pub side: Side,
    pub script: ScriptKind,
    pub words: List<Bytes>,
    pub how: CallEnd,
}

impl Copied for ScriptCall {
    fn copy(&self, alloc: Global) -> Result<ScriptCall, Memory> {
        let words = self.words.copy(alloc)?;
        Ok(ScriptCall {
            side: self.side,
            script: self.script,
            words,
            how: self.how,
        })
    }
}

/// How the call of a script is told that ended so.
pub(crate) fn call_end(end: End) -> CallEnd
    ensures { result ≡ call_end end }
{
    match end {
        End::Status(true) => CallEnd::Ok,
        End::Status(false) => CallEnd::Failed,
        End::Stopped(_, _) => CallEnd::Ended,
        End::Bound(_) => CallEnd::Ended,
    }
}
