// What is needed of what stands where the scripts name paths.
ghost use Rattle.std.specs.Prelude.{◌≡◌, ◌++◌, OnOk, IfOk};
ghost use Rattle.package_jobs.specs.Needed.{needs_plain};
ghost use Rattle.package_jobs.specs.Plain.{script_known, scripts_known, is_installed, has_old, old_known};
ghost use Rattle.package_jobs.specs.Plain.{known_by_scripts};

use crate::needs::add_known;
use crate::sides::old_package;
use checker_input::Packages;
use dpkg_scenarios::{Before, Columns, Scripts, State};
use script_names::{List, Memory, Slot};
use settled_commands::{add_sorts, settled_commands};
use shell_forms::Accepted;
use start_trees::Need;
use std::alloc::Global;
use system_base::{Base, KnownPath};

// Adds what a script makes known, where there is one.
fn add_script(
    alloc: Global,
    known: &mut List<KnownPath>,
    base: &Base,
    script: &Slot<Accepted>,
) -> Result<(), Memory>
    ensures { OnOk result (known.new ≡ known.old ++ script_known base.now script.now) }
{
    match script.get() {
        None => Ok(()),
        Some(accepted) => {
            let script = accepted.script();
            let commands = settled_commands(alloc, &script.body)?;
            add_sorts(alloc, known, base, commands.as_slice())
        }
    }
}

// Adds what the scripts of a package make known.
fn add_scripts(
    alloc: Global,
    known: &mut List<KnownPath>,
    base: &Base,
    scripts: &Scripts<Accepted>,
) -> Result<(), Memory>
    ensures { OnOk result (known.new ≡ known.old ++ scripts_known base.now scripts.now) }
{
    add_script(alloc, known, base, &scripts.preinst)?;
    add_script(alloc, known, base, &scripts.postinst)?;
    add_script(alloc, known, base, &scripts.prerm)?;
    add_script(alloc, known, base, &scripts.postrm)
}

// Whether a package is to be installed.
fn is_installed(aim: State) -> bool
    ensures { result ≡ is_installed aim }
{
    match aim {
        State::Installed => true,
        State::Unpacked | State::HalfConfigured | State::HalfInstalled => false,
        State::ConfigFiles | State::NotInstalled => false,
    }
}

// Whether a scenario has an old package beside the new one.
fn has_old(before: Before, aim: State) -> bool
    ensures { result ≡ has_old before aim }
{
    match before {
        Before::OldInstalled => true,
        Before::ConfigFiles => is_installed(aim),
        Before::NotInstalled | Before::Installed => false,
    }
}

// Adds what the old package's scripts make known, where the scenario has one.
fn add_old(
    alloc: Global,
    known: &mut List<KnownPath>,
    columns: Columns,
    packages: &Packages,
) -> Result<(), Memory>
    ensures { OnOk result (known.new ≡ known.old ++ old_known columns packages.now) }
{
    if !has_old(columns.before, columns.aim) {
        return Ok(());
    }
    let old = old_package(packages);
    add_scripts(alloc, known, &packages.base, &old.scripts)
}

// What the scripts make known that a scenario speaks of.
fn known_by_scripts(
    alloc: Global,
    columns: Columns,
    packages: &Packages,
) -> Result<List<KnownPath>, Memory>
    ensures { IfOk result (λ known. known ≡ known_by_scripts columns packages.now) }
{
    let mut known = List::new(alloc);
    let scripts = &packages.new_package.scripts;
    add_scripts(alloc, &mut known, &packages.base, scripts)?;
    add_old(alloc, &mut known, columns, packages)?;
    Ok(known)
}

/// Adds what is needed of what stands where the scripts name paths, where the base says `plain`.
pub fn add_plain(
    alloc: Global,
    needs: &mut List<Need>,
    columns: Columns,
    packages: &Packages,
) -> Result<(), Memory>
    ensures { OnOk result (needs.new ≡ needs.old ++ needs_plain columns packages.now) }
{
    if !packages.base.plain {
        return Ok(());
    }
    let known = known_by_scripts(alloc, columns, packages)?;
    add_known(alloc, needs, known.as_slice())
}
