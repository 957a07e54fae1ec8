use crate::acts::Act;
use script_names::{Bytes, Copied, List, Memory, Reason};
use std::alloc::Global;

/// What a call of a utility comes to, as far as its words alone say.
#[derive(Debug, Drop)]
pub enum Planned {
    /// The status, without any act: true for success.
    Known(bool),
    /// The answer of one act, or where `negate` is set its opposite.
    Ask { act: Act, negate: bool },
    /// Success, after writing these bytes.
    Print(Bytes),
    /// A list of acts for each operand. Each list stops at its first failure, and the next one is still done; the call
    /// fails where some act failed.
    Change(List<List<Act>>),
    /// No specified meaning.
    Unspecified(Reason),
}

impl Copied for Planned {
    fn copy(&self, alloc: Global) -> Result<Planned, Memory> {
        match self {
            Planned::Known(ok) => Ok(Planned::Known(*ok)),
            Planned::Ask { act, negate } => {
                let act = act.copy(alloc)?;
                Ok(Planned::Ask {
                    act,
                    negate: *negate,
                })
            }
            Planned::Print(text) => Ok(Planned::Print(text.copy(alloc)?)),
            Planned::Change(lists) => Ok(Planned::Change(lists.copy(alloc)?)),
            Planned::Unspecified(reason) => Ok(Planned::Unspecified(*reason)),
        }
    }
}
