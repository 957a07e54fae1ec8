ghost use Rattle.std.specs.Prelude.{◌≡◌, IfOk};
ghost use Rattle.scenario_runs.specs.Acts.{AreFileBacks, backs_of};

use crate::file_acts::FileActs;
use script_names::{Copied, List, Memory};
use std::alloc::Global;
use std::marker::Model;
use utility_calls::acts::Act;
use utility_calls::backs::{Back, back_of};

/// What undoes each act of an unpacking, in the acts' order. The path of each has a name, and there are at most
/// 4,294,967,295, so that each has a number.
#[derive(Drop)]
pub struct FileBacks {
    backs: List<Back>,
}

impl Copied for FileBacks {
    fn copy(&self, alloc: Global) -> Result<FileBacks, Memory> {
        let backs = self.backs.copy(alloc)?;
        Ok(FileBacks { backs })
    }
}

impl Model for FileBacks {
    ghost use Rattle.std.specs.Prelude.{List as Items};
    ghost use Rattle.utility_calls.specs.declared.backs.Back.{Back as BackOf};
    ghost use Rattle.scenario_runs.specs.Acts.{AreFileBacks};

    ghost Value = { Items BackOf };

    ghost view = { λ files. files.backs };

    ghost invariant = { λ files. AreFileBacks files.backs };
}

impl FileBacks {
    /// What undoes an unpacking by these acts, each of which is done for the listed act in its place: `back_of` of both.
    pub fn of(alloc: Global, listed: &[Act], acts: &FileActs) -> Result<FileBacks, Memory>
        ensures { IfOk result (λ backs. backs ≡ backs_of listed.now acts.now) }
    {
        let mut backs = List::new(alloc);
        let done = acts.as_slice();
        let count = listed.len().min(done.len());
        for i in 0..count {
            backs.add(back_of(alloc, &listed[i], &done[i])?)?;
        }
        Ok(FileBacks { backs })
    }

    /// What undoes each act.
    pub fn as_slice(&self) -> &[Back]
        ensures backs { result.now ≡ self.now }
        ensures sound { AreFileBacks self.now }
    {
        self.backs.as_slice()
    }
}
