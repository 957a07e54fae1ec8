use crate::syntax::Stmt;
use script_names::{Bytes, Copied, Memory};
use std::alloc::Global;

/// A function of a program: its name and its body (POSIX.1-2017, XCU 2.9.5 Function Definition Command).
#[derive(Drop)]
pub struct Def {
    pub name: Bytes,
    pub body: Stmt,
}

impl Copied for Def {
    fn copy(&self, alloc: Global) -> Result<Def, Memory> {
        let name = self.name.copy(alloc)?;
        let body = self.body.copy(alloc)?;
        Ok(Def { name, body })
    }
}
