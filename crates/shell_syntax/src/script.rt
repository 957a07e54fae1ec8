ghost use Rattle.std.specs.Prelude.{◌≡◌};

use crate::syntax::Command;
use script_names::{Copied, Memory};
use std::alloc::Global;

/// A script: whether its first line has `-e` (XCU 2.14 Special Built-In Utilities, set), and its commands.
#[derive(Drop)]
pub struct Script {
    pub strict: bool,
    pub body: Command,
}

impl Copied for Script {
    fn copy(&self, alloc: Global) -> Result<Script, Memory> {
        let body = self.body.copy(alloc)?;
        Ok(Script {
            strict: self.strict,
            body,
        })
    }
}
