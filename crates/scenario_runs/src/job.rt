ghost use Rattle.std.specs.Prelude.{◌≡◌};
ghost use Rattle.scenario_runs.specs.Performed.{ArePerformed};
ghost use Rattle.scenario_runs.specs.Runs.{scripts_in};

use crate::file_acts::FileActs;
use crate::file_backs::FileBacks;
use colis_syntax::Program;
use dpkg_scenarios::{Said, Scenario, Scripts, Side};
use script_names::{Common, Copied, Memory};
use shell_rules::Premises;
use std::alloc::Global;

/// What is done with files in the steps of a scenario, for each work of a step that is no script: the acts, and for
/// each act that unpacks what undoes it, in the same order.
#[derive(Drop)]
pub struct Files {
    pub unpack: FileActs,
    pub backs: FileBacks,
    pub remove_files: FileActs,
    pub remove_old: FileActs,
    pub remove_conf: FileActs,
}

impl Copied for Files {
    fn copy(&self, alloc: Global) -> Result<Files, Memory> {
        let unpack = self.unpack.copy(alloc)?;
        let backs = self.backs.copy(alloc)?;
        let remove_files = self.remove_files.copy(alloc)?;
        let remove_old = self.remove_old.copy(alloc)?;
        let remove_conf = self.remove_conf.copy(alloc)?;
        Ok(Files {
            unpack,
            backs,
            remove_files,
            remove_old,
            remove_conf,
        })
    }
}

/// What the run of a scenario needs: the scenario, whether the new package has neither a configuration file nor a
/// postrm, what its scripts are told of the packages, the scripts of both as programs, what is done with files, what is
/// known of the system, and how many turns of loops its scripts have, together.
#[derive(Drop)]
pub struct Job {
    pub scenario: Scenario,
    pub plain: bool,
    pub said: Said,
    pub new_scripts: Scripts<Program>,
    pub old_scripts: Scripts<Program>,
    pub files: Files,
    pub premises: Common<Premises>,
    pub turns: u32,
}

impl Copied for Job {
    fn copy(&self, alloc: Global) -> Result<Job, Memory> {
        let said = self.said.copy(alloc)?;
        let new_scripts = self.new_scripts.copy(alloc)?;
        let old_scripts = self.old_scripts.copy(alloc)?;
        let files = self.files.copy(alloc)?;
        let premises = self.premises.fork()?;
        Ok(Job {
            scenario: self.scenario,
            plain: self.plain,
            said,
            new_scripts,
            old_scripts,
            files,
            premises,
            turns: self.turns,
        })
    }
}

impl Job {
    /// The scripts of one of the packages.
    pub(crate) fn scripts(&self, side: Side) -> &Scripts<Program>
        ensures { result.now ≡ scripts_in self.now side }
    {
        match side {
            Side::New => &self.new_scripts,
            Side::Old => &self.old_scripts,
        }
    }

    /// Says of the acts on files that each can be done on every tree, and that what undoes an unpacking has a path with
    /// a name.
    pub fn acts_are_performed(&self)
        ensures { ArePerformed self.now.files }
    {
        let _unpack = self.files.unpack.as_slice();
        let _backs = self.files.backs.as_slice();
        let _remove_files = self.files.remove_files.as_slice();
        let _remove_old = self.files.remove_old.as_slice();
        let _remove_conf = self.files.remove_conf.as_slice();
    }
}
