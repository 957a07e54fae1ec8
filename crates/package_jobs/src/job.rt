ghost use Rattle.std.specs.Prelude.{◌≡◌, ℕ, List as ListOf, IfOk};
ghost use Rattle.std.specs.List.{list_any};
ghost use Rattle.feature_trees.specs.declared.value.Value.{Value};
ghost use Rattle.system_base.specs.Bases.{is_base};
ghost use Rattle.package_jobs.specs.FileActs.{AreListed, acts_of};
ghost use Rattle.package_lists.specs.PathSets.{has};
ghost use Rattle.scenario_runs.specs.Runs.{scenario_run};
ghost use Rattle.package_jobs.specs.Made.{AreProgramsOf};
ghost use Rattle.package_jobs.specs.Written.{is_conffile, is_plain, said_of, premises_of, done_acts, files_of};
ghost use Rattle.package_jobs.specs.Written.{written_run};

use crate::followed::followed;
use crate::programs::{Programs, programs_of};
use crate::sides::old_package;
use crate::step_acts::file_acts;
use checker_input::{Package, Packages};
use dpkg_scenarios::{Said, Scenario, StepWork};
use package_lists::{Entry, FileList, PathSet};
use scenario_runs::{FileActs, FileBacks, Files, Job};
use script_names::{Common, Copied, List, Memory};
use shell_rules::Premises;
use std::alloc::Global;
use system_base::{Base, base_paths};
use utility_calls::acts::Act;

// What the scripts are told of the packages.
fn said_of(alloc: Global, packages: &Packages) -> Result<Said, Memory>
    ensures { IfOk result (λ said. said ≡ said_of packages.now) }
{
    let old = old_package(packages);
    let old_version = old.version.copy(alloc)?;
    let new_version = packages.new_package.version.copy(alloc)?;
    let new_name = packages.name.copy(alloc)?;
    Ok(Said {
        old_version,
        new_version,
        new_name,
    })
}

/// Whether a package has neither a configuration file nor a postrm.
pub fn is_plain(written: &Package) -> bool
    ensures { result ≡ is_plain written.now }
{
    !has_conffile(written.entries.as_slice()) && written.scripts.postrm.is_none()
}

// Whether one of these entries is a configuration file.
fn has_conffile(entries: &[Entry]) -> bool
    ensures { result ≡ list_any is_conffile entries.now }
{
    for entry in entries {
        if entry.kind().is_conf() {
            return true;
        }
    }
    false
}

// The acts of a step as they are listed, where `kept` has the directories of the base. A site can number them, since
// there are at most two for each entry.
fn listed_acts(
    alloc: Global,
    scenario: Scenario,
    work: StepWork,
    new: &FileList,
    old: &FileList,
    base: &Base,
    kept: &PathSet,
) -> Result<List<Act>, Memory>
    requires { (path : ListOf ℕ) → has kept.now path ≡ is_base base.now path }
    ensures acts { IfOk result (λ acts. acts ≡ acts_of scenario work new.now old.now base.now) }
    ensures listed { IfOk result AreListed }
{
    let acts = file_acts(alloc, scenario, work, new.list(), old.list(), base, kept)?;
    Ok(acts)
}

// The acts of a step as they are done.
fn step_acts(
    alloc: Global,
    scenario: Scenario,
    work: StepWork,
    new: &FileList,
    old: &FileList,
    base: &Base,
    kept: &PathSet,
) -> Result<FileActs, Memory>
    requires { (path : ListOf ℕ) → has kept.now path ≡ is_base base.now path }
    ensures { IfOk result (λ acts. acts ≡ done_acts base.now (acts_of scenario work new.now old.now base.now)) }
{
    let listed = listed_acts(alloc, scenario, work, new, old, base, kept)?;
    let acts = followed(alloc, base, listed.as_slice())?;
    Ok(acts)
}

// What is done with files in the steps of a scenario.
fn files_of(
    alloc: Global,
    scenario: Scenario,
    new: &FileList,
    old: &FileList,
    base: &Base,
) -> Result<Files, Memory>
    ensures { IfOk result (λ files. files ≡ files_of scenario new.now old.now base.now) }
{
    let kept = base_paths(alloc, base)?;
    let listed = listed_acts(alloc, scenario, StepWork::Unpack, new, old, base, &kept)?;
    let unpack = followed(alloc, base, listed.as_slice())?;
    let backs = FileBacks::of(alloc, listed.as_slice(), &unpack)?;
    let remove_files = step_acts(
        alloc,
        scenario,
        StepWork::RemoveFiles,
        new,
        old,
        base,
        &kept,
    )?;
    let remove_old = step_acts(alloc, scenario, StepWork::RemoveOld, new, old, base, &kept)?;
    let remove_conf = step_acts(alloc, scenario, StepWork::RemoveConf, new, old, base, &kept)?;
    Ok(Files {
        unpack,
        backs,
        remove_files,
        remove_old,
        remove_conf,
    })
}

// What is stated of the system that the scripts run on.
fn premises_of(alloc: Global, base: &Base) -> Result<Premises, Memory>
    ensures { IfOk result (λ premises. premises ≡ premises_of base.now) }
{
    let links = base.links.copy(alloc)?;
    let calls = base.calls.copy(alloc)?;
    Ok(Premises {
        links,
        calls,
        runs: base.runs,
        versions: base.versions,
    })
}

/// The job of a scenario, with so many turns of loops, where the packages' scripts have these programs: its run, from
/// each tree, is the run of the packages as they are written, by the shell's own rules, under the premises that the base
/// states. The one fault is want of memory.
pub fn job_with(
    alloc: Global,
    scenario: Scenario,
    packages: &Packages,
    programs: &Programs,
    turns: u32,
) -> Result<Job, Memory>
    requires { AreProgramsOf packages.now programs.now }
    ensures run { IfOk result (λ job.
        (tree : Value) → scenario_run job tree ≡ written_run scenario packages.now turns tree) }
    ensures scenario { IfOk result (λ job. job.scenario ≡ scenario) }
{
    let new = &packages.new_package;
    let old = old_package(packages);
    let said = said_of(alloc, packages)?;
    let new_scripts = programs.new_package.copy(alloc)?;
    let old_scripts = programs.old_package.copy(alloc)?;
    let files = files_of(alloc, scenario, &new.entries, &old.entries, &packages.base)?;
    let stated = premises_of(alloc, &packages.base)?;
    let premises = Common::new(alloc, stated)?;
    Ok(Job {
        scenario,
        plain: is_plain(new),
        said,
        new_scripts,
        old_scripts,
        files,
        premises,
        turns,
    })
}

/// The job of a scenario, with so many turns of loops: its run, from each tree, is the run of the packages as they are
/// written, by the shell's own rules, under the premises that the base states. The one fault is want of memory.
pub fn job_of(
    alloc: Global,
    scenario: Scenario,
    packages: &Packages,
    turns: u32,
) -> Result<Job, Memory>
    ensures run { IfOk result (λ job.
        (tree : Value) → scenario_run job tree ≡ written_run scenario packages.now turns tree) }
    ensures scenario { IfOk result (λ job. job.scenario ≡ scenario) }
{
    let programs = programs_of(alloc, packages)?;
    let job = job_with(alloc, scenario, packages, &programs, turns)?;
    Ok(job)
}
