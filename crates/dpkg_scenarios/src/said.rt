use script_names::{Bytes, Copied, Memory};
use std::alloc::Global;

/// What is said of the packages of a scenario, of which the words of its calls are made (Debian Policy, 6.5): the
/// versions of both, and the name of the new one.
#[derive(Drop)]
pub struct Said {
    pub old_version: Bytes,
    pub new_version: Bytes,
    pub new_name: Bytes,
}

impl Copied for Said {
    fn copy(&self, alloc: Global) -> Result<Said, Memory> {
        let old_version = self.old_version.copy(alloc)?;
        let new_version = self.new_version.copy(alloc)?;
        let new_name = self.new_name.copy(alloc)?;
        Ok(Said {
            old_version,
            new_version,
            new_name,
        })
    }
}
