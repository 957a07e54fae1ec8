ghost use Rattle.std.specs.Prelude.{◌≡◌, All};
ghost use Rattle.utility_calls.specs.Acts.{IsPerformed};
ghost use Rattle.scenario_runs.specs.Acts.{AreFileActs, HasName, numbered};

use script_names::{Copied, List, Memory};
use std::alloc::Global;
use std::marker::Model;
use utility_calls::acts::Act;

/// The acts of a step that places or takes away files, in order. Each can be done on every tree, the path of each has a
/// name, and there are at most 4,294,967,295, so that each has a number.
#[derive(Drop)]
pub struct FileActs {
    acts: List<Act>,
}

impl Copied for FileActs {
    fn copy(&self, alloc: Global) -> Result<FileActs, Memory> {
        let acts = self.acts.copy(alloc)?;
        Ok(FileActs { acts })
    }
}

impl Model for FileActs {
    ghost use Rattle.std.specs.Prelude.{List as Items};
    ghost use Rattle.utility_calls.specs.declared.acts.Act.{Act as ActOf};
    ghost use Rattle.scenario_runs.specs.Acts.{AreFileActs};

    ghost Value = { Items ActOf };

    ghost view = { λ files. files.acts };

    ghost invariant = { λ files. AreFileActs files.acts };
}

impl FileActs {
    /// These acts; None where there are more than 4,294,967,295.
    pub fn new(acts: List<Act>) -> Option<FileActs>
        requires performed { All IsPerformed acts }
        requires named { All HasName acts }
        ensures { result ≡ numbered acts }
    {
        if acts.len() > 4_294_967_295 {
            return None;
        }
        Some(FileActs { acts })
    }

    /// The acts.
    pub fn as_slice(&self) -> &[Act]
        ensures acts { result.now ≡ self.now }
        ensures sound { AreFileActs self.now }
    {
        self.acts.as_slice()
    }
}
