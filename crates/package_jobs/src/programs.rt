ghost use Rattle.std.specs.Prelude.{◌≡◌, IfOk, option_map};
ghost use Rattle.scenario_runs.specs.Runs.{program_meaning};
ghost use Rattle.package_jobs.specs.Made.{DoTheSame, AreProgramsOf};
ghost use Rattle.package_jobs.specs.Sides.{old_of};
ghost use Rattle.package_jobs.specs.Written.{script_meaning};

use checker_input::Packages;
use colis_syntax::Program;
use dpkg_scenarios::Scripts;
use script_names::{Copied, Memory, Slot};
use shell_forms::Accepted;
use shell_to_colis::translate;
use std::alloc::Global;

/// The programs of the packages' scripts. They are made once, and the jobs of all scenarios have their copies.
#[derive(Drop)]
pub struct Programs {
    pub new_package: Scripts<Program>,
    pub old_package: Scripts<Program>,
}

// The program of a script.
fn translated(alloc: Global, script: &Accepted) -> Result<Program, Memory>
    ensures { IfOk result (λ program. program_meaning program ≡ script_meaning script.now) }
{
    let program = translate(alloc, script)?;
    Ok(program)
}

// The program of a script, where there is one.
fn program_of(alloc: Global, script: &Slot<Accepted>) -> Result<Slot<Program>, Memory>
    ensures { IfOk result (λ program.
        option_map program_meaning program ≡ option_map script_meaning script.now) }
{
    match script.get() {
        None => Ok(Slot::empty(alloc)),
        Some(script) => {
            let program = translated(alloc, script)?;
            let slot = Slot::new(alloc, program)?;
            Ok(slot)
        }
    }
}

// The programs of a package's scripts.
fn scripts_programs(alloc: Global, scripts: &Scripts<Accepted>) -> Result<Scripts<Program>, Memory>
    ensures { IfOk result (λ programs. DoTheSame scripts.now programs) }
{
    let preinst = program_of(alloc, &scripts.preinst)?;
    let postinst = program_of(alloc, &scripts.postinst)?;
    let prerm = program_of(alloc, &scripts.prerm)?;
    let postrm = program_of(alloc, &scripts.postrm)?;
    Ok(Scripts {
        preinst,
        postinst,
        prerm,
        postrm,
    })
}

// The programs of the old package's scripts. Where none was named, they are those of the new one's.
fn old_programs(
    alloc: Global,
    packages: &Packages,
    new_package: &Scripts<Program>,
) -> Result<Scripts<Program>, Memory>
    requires { DoTheSame packages.now.new_package.scripts new_package.now }
    ensures { IfOk result (λ programs. DoTheSame (old_of packages.now).scripts programs) }
{
    match &packages.old_package {
        Some(old_package) => {
            let programs = scripts_programs(alloc, &old_package.scripts)?;
            Ok(programs)
        }
        None => {
            let programs = new_package.copy(alloc)?;
            Ok(programs)
        }
    }
}

/// The programs of the packages' scripts: each script is translated once. The one fault is want of memory.
pub fn programs_of(alloc: Global, packages: &Packages) -> Result<Programs, Memory>
    ensures { IfOk result (AreProgramsOf packages.now) }
{
    let new_package = scripts_programs(alloc, &packages.new_package.scripts)?;
    let old_package = old_programs(alloc, packages, &new_package)?;
    Ok(Programs {
        new_package,
        old_package,
    })
}
