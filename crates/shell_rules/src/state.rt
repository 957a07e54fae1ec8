use crate::premises::Premises;
use script_names::{Bytes, Common, Copied, List, Mark, Memory};
use shell_words::Env;
use std::alloc::Global;

/// The state of a shell, without the tree (POSIX.1-2017, XCU 2.12 Shell Execution Environment).
#[derive(Drop)]
pub struct Conc {
    /// The variables (XCU 2.5.3 Shell Variables).
    pub vars: Env,
    /// The arguments (XCU 2.5.1 Positional Parameters).
    pub args: List<Bytes>,
    /// Whether `set -e` holds (XCU 2.14 Special Built-In Utilities, set).
    pub strict: bool,
    /// Whether the last command succeeded.
    pub status: bool,
    /// What was written so far, inside a command substitution (XCU 2.6.3 Command Substitution).
    pub captured: Option<Bytes>,
    /// How many more turns of loops may be taken.
    pub turns: u32,
    /// What is stated of the system beside its tree; no command changes it.
    pub premises: Common<Premises>,
}

/// The acts that a run did, in order.
pub type Trace = List<Mark>;

impl Copied for Conc {
    fn copy(&self, alloc: Global) -> Result<Conc, Memory> {
        let vars = self.vars.copy(alloc)?;
        let args = self.args.copy(alloc)?;
        let captured = self.captured.copy(alloc)?;
        let premises = self.premises.fork()?;
        Ok(Conc {
            vars,
            args,
            strict: self.strict,
            status: self.status,
            captured,
            turns: self.turns,
            premises,
        })
    }
}
