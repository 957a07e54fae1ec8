//! Walks through the scenarios by hand, from Debian Policy, 6.5 to 6.8: every step is left once by its success and once
//! by its failure. A row has the scenario, how the steps end in turn (`o` for success, `f` for failure), and what is
//! done: `n` or `o` for the package, the script, its words with `-` for an empty one; the versions are 1 and 2, the new
//! package's name is `new`. A plain package has neither a configuration file nor a postrm.

ghost use Rattle.dpkg_scenarios.specs.Steps.{IsStep};

use dpkg_scenarios::theorems::scenarios_end;
use dpkg_scenarios::{
    Ending, Said, Scenario, ScriptKind, Side, State, StepNext, StepWork, call_words, next, work,
};
use script_names::{Bytes, Memory};
use std::alloc::Global;
use std::test::Fail;

const WALKS: &[(Scenario, &[u8], &[u8])] = &[
    (
        Scenario::Install,
        b"ooo",
        b"n preinst install;unpack;n postinst configure -;done Installed",
    ),
    (
        Scenario::Install,
        b"oof",
        b"n preinst install;unpack;n postinst configure -;failed Half-Configured",
    ),
    (
        Scenario::Install,
        b"ofoo",
        b"n preinst install;unpack;restore;n postrm abort-install;failed Not-Installed",
    ),
    (
        Scenario::Install,
        b"ofof",
        b"n preinst install;unpack;restore;n postrm abort-install;failed Half-Installed",
    ),
    (
        Scenario::Install,
        b"fo",
        b"n preinst install;n postrm abort-install;failed Not-Installed",
    ),
    (
        Scenario::Install,
        b"ff",
        b"n preinst install;n postrm abort-install;failed Half-Installed",
    ),
    (
        Scenario::InstallAgain,
        b"ooo",
        b"n preinst install 1 2;unpack;n postinst configure 1;done Installed",
    ),
    (
        Scenario::InstallAgain,
        b"oof",
        b"n preinst install 1 2;unpack;n postinst configure 1;failed Half-Configured",
    ),
    (
        Scenario::InstallAgain,
        b"ofoo",
        b"n preinst install 1 2;unpack;restore;n postrm abort-install 1 2;failed Config-Files",
    ),
    (
        Scenario::InstallAgain,
        b"offf",
        b"n preinst install 1 2;unpack;restore;n postrm abort-install 1 2;failed Half-Installed",
    ),
    (
        Scenario::InstallAgain,
        b"fo",
        b"n preinst install 1 2;n postrm abort-install 1 2;failed Config-Files",
    ),
    (
        Scenario::InstallAgain,
        b"ff",
        b"n preinst install 1 2;n postrm abort-install 1 2;failed Half-Installed",
    ),
    (
        Scenario::Remove,
        b"ooo",
        b"n prerm remove;remove files;n postrm remove;done Config-Files",
    ),
    (
        Scenario::Remove,
        b"oof",
        b"n prerm remove;remove files;n postrm remove;failed Half-Installed",
    ),
    (
        Scenario::Remove,
        b"fo",
        b"n prerm remove;n postinst abort-remove;failed Installed",
    ),
    (
        Scenario::Remove,
        b"ff",
        b"n prerm remove;n postinst abort-remove;failed Half-Configured",
    ),
    (
        Scenario::Purge,
        b"ooooo",
        b"n prerm remove;remove files;n postrm remove;remove conffiles;n postrm purge;done Not-Installed",
    ),
    (
        Scenario::Purge,
        b"oooof",
        b"n prerm remove;remove files;n postrm remove;remove conffiles;n postrm purge;failed Config-Files",
    ),
    (
        Scenario::Purge,
        b"oof",
        b"n prerm remove;remove files;n postrm remove;failed Half-Installed",
    ),
    (
        Scenario::Purge,
        b"fo",
        b"n prerm remove;n postinst abort-remove;failed Installed",
    ),
    (
        Scenario::Purge,
        b"ff",
        b"n prerm remove;n postinst abort-remove;failed Half-Configured",
    ),
    (
        Scenario::PurgeLater,
        b"oo",
        b"remove conffiles;n postrm purge;done Not-Installed",
    ),
    (
        Scenario::PurgeLater,
        b"of",
        b"remove conffiles;n postrm purge;failed Config-Files",
    ),
];

// The walks through an upgrade.
const UPGRADES: &[(Scenario, &[u8], &[u8])] = &[
    (
        Scenario::Upgrade,
        b"oooooo",
        b"o prerm upgrade 2;n preinst upgrade 1 2;unpack;o postrm upgrade 2;remove old;n postinst configure 1;done Installed",
    ),
    (
        Scenario::Upgrade,
        b"fooooof",
        b"o prerm upgrade 2;n prerm failed-upgrade 1 2;n preinst upgrade 1 2;unpack;o postrm upgrade 2;remove old;n postinst configure 1;failed Half-Configured",
    ),
    (
        Scenario::Upgrade,
        b"ooofooo",
        b"o prerm upgrade 2;n preinst upgrade 1 2;unpack;o postrm upgrade 2;n postrm failed-upgrade 1 2;remove old;n postinst configure 1;done Installed",
    ),
    (
        Scenario::Upgrade,
        b"oooffoooo",
        b"o prerm upgrade 2;n preinst upgrade 1 2;unpack;o postrm upgrade 2;n postrm failed-upgrade 1 2;o preinst abort-upgrade 2;restore;n postrm abort-upgrade 1 2;o postinst abort-upgrade 2;failed Installed",
    ),
    (
        Scenario::Upgrade,
        b"oooffofof",
        b"o prerm upgrade 2;n preinst upgrade 1 2;unpack;o postrm upgrade 2;n postrm failed-upgrade 1 2;o preinst abort-upgrade 2;restore;n postrm abort-upgrade 1 2;o postinst abort-upgrade 2;failed Unpacked",
    ),
    (
        Scenario::Upgrade,
        b"oooffoof",
        b"o prerm upgrade 2;n preinst upgrade 1 2;unpack;o postrm upgrade 2;n postrm failed-upgrade 1 2;o preinst abort-upgrade 2;restore;n postrm abort-upgrade 1 2;failed Half-Installed",
    ),
    (
        Scenario::Upgrade,
        b"ooofff",
        b"o prerm upgrade 2;n preinst upgrade 1 2;unpack;o postrm upgrade 2;n postrm failed-upgrade 1 2;o preinst abort-upgrade 2;failed Half-Installed",
    ),
    (
        Scenario::Upgrade,
        b"oofooo",
        b"o prerm upgrade 2;n preinst upgrade 1 2;unpack;restore;n postrm abort-upgrade 1 2;o postinst abort-upgrade 2;failed Installed",
    ),
    (
        Scenario::Upgrade,
        b"oofoof",
        b"o prerm upgrade 2;n preinst upgrade 1 2;unpack;restore;n postrm abort-upgrade 1 2;o postinst abort-upgrade 2;failed Unpacked",
    ),
    (
        Scenario::Upgrade,
        b"oofff",
        b"o prerm upgrade 2;n preinst upgrade 1 2;unpack;restore;n postrm abort-upgrade 1 2;failed Half-Installed",
    ),
    (
        Scenario::Upgrade,
        b"ffo",
        b"o prerm upgrade 2;n prerm failed-upgrade 1 2;o postinst abort-upgrade 2;failed Installed",
    ),
    (
        Scenario::Upgrade,
        b"fff",
        b"o prerm upgrade 2;n prerm failed-upgrade 1 2;o postinst abort-upgrade 2;failed Half-Configured",
    ),
    (
        Scenario::Upgrade,
        b"ofoo",
        b"o prerm upgrade 2;n preinst upgrade 1 2;n postrm abort-upgrade 1 2;o postinst abort-upgrade 2;failed Installed",
    ),
    (
        Scenario::Upgrade,
        b"ofof",
        b"o prerm upgrade 2;n preinst upgrade 1 2;n postrm abort-upgrade 1 2;o postinst abort-upgrade 2;failed Unpacked",
    ),
    (
        Scenario::Upgrade,
        b"off",
        b"o prerm upgrade 2;n preinst upgrade 1 2;n postrm abort-upgrade 1 2;failed Half-Installed",
    ),
];

// The walks through the scenarios of a pair, and of a package that is configured twice.
const PAIRS: &[(Scenario, &[u8], &[u8])] = &[
    (
        Scenario::InFavour,
        b"oooooo",
        b"o prerm remove in-favour new 2;n preinst install;unpack;remove old;o postrm remove;n postinst configure -;done Installed",
    ),
    (
        Scenario::InFavour,
        b"ooooof",
        b"o prerm remove in-favour new 2;n preinst install;unpack;remove old;o postrm remove;n postinst configure -;failed Half-Configured",
    ),
    (
        Scenario::InFavour,
        b"oooof",
        b"o prerm remove in-favour new 2;n preinst install;unpack;remove old;o postrm remove;failed Unpacked",
    ),
    (
        Scenario::InFavour,
        b"fo",
        b"o prerm remove in-favour new 2;o postinst abort-remove in-favour new 2;failed Not-Installed",
    ),
    (
        Scenario::InFavour,
        b"ff",
        b"o prerm remove in-favour new 2;o postinst abort-remove in-favour new 2;failed Not-Installed",
    ),
    (
        Scenario::InFavour,
        b"ofoo",
        b"o prerm remove in-favour new 2;n preinst install;n postrm abort-install;o postinst abort-remove in-favour new 2;failed Not-Installed",
    ),
    (
        Scenario::InFavour,
        b"off",
        b"o prerm remove in-favour new 2;n preinst install;n postrm abort-install;failed Half-Installed",
    ),
    (
        Scenario::InFavour,
        b"oofooo",
        b"o prerm remove in-favour new 2;n preinst install;unpack;restore;n postrm abort-install;o postinst abort-remove in-favour new 2;failed Not-Installed",
    ),
    (
        Scenario::InFavour,
        b"oofff",
        b"o prerm remove in-favour new 2;n preinst install;unpack;restore;n postrm abort-install;failed Half-Installed",
    ),
    (
        Scenario::Deconfigure,
        b"oooo",
        b"o prerm deconfigure in-favour new 2;n preinst install;unpack;n postinst configure -;done Installed",
    ),
    (
        Scenario::Deconfigure,
        b"ooof",
        b"o prerm deconfigure in-favour new 2;n preinst install;unpack;n postinst configure -;failed Half-Configured",
    ),
    (
        Scenario::Deconfigure,
        b"fo",
        b"o prerm deconfigure in-favour new 2;o postinst abort-deconfigure in-favour new 2;failed Not-Installed",
    ),
    (
        Scenario::Deconfigure,
        b"ff",
        b"o prerm deconfigure in-favour new 2;o postinst abort-deconfigure in-favour new 2;failed Not-Installed",
    ),
    (
        Scenario::Deconfigure,
        b"ofoo",
        b"o prerm deconfigure in-favour new 2;n preinst install;n postrm abort-install;o postinst abort-deconfigure in-favour new 2;failed Not-Installed",
    ),
    (
        Scenario::Deconfigure,
        b"off",
        b"o prerm deconfigure in-favour new 2;n preinst install;n postrm abort-install;failed Half-Installed",
    ),
    (
        Scenario::Deconfigure,
        b"oofoof",
        b"o prerm deconfigure in-favour new 2;n preinst install;unpack;restore;n postrm abort-install;o postinst abort-deconfigure in-favour new 2;failed Not-Installed",
    ),
    (
        Scenario::Disappear,
        b"oooo",
        b"n preinst install;unpack;o postrm disappear new 2;n postinst configure -;done Installed",
    ),
    (
        Scenario::Disappear,
        b"ooof",
        b"n preinst install;unpack;o postrm disappear new 2;n postinst configure -;failed Half-Configured",
    ),
    (
        Scenario::Disappear,
        b"oof",
        b"n preinst install;unpack;o postrm disappear new 2;failed Unpacked",
    ),
    (
        Scenario::Disappear,
        b"fo",
        b"n preinst install;n postrm abort-install;failed Not-Installed",
    ),
    (
        Scenario::Disappear,
        b"ff",
        b"n preinst install;n postrm abort-install;failed Half-Installed",
    ),
    (
        Scenario::Disappear,
        b"ofoo",
        b"n preinst install;unpack;restore;n postrm abort-install;failed Not-Installed",
    ),
    (
        Scenario::Twice,
        b"oo",
        b"n postinst configure -;n postinst configure 2;done Installed",
    ),
    (
        Scenario::Twice,
        b"of",
        b"n postinst configure -;n postinst configure 2;failed Half-Configured",
    ),
    (
        Scenario::Twice,
        b"f",
        b"n postinst configure -;failed Half-Configured",
    ),
];

// Walks of a plain package.
const PLAIN: &[(Scenario, &[u8], &[u8])] = &[
    (
        Scenario::Remove,
        b"ooo",
        b"n prerm remove;remove files;n postrm remove;done Not-Installed",
    ),
    (
        Scenario::Purge,
        b"ooooo",
        b"n prerm remove;remove files;n postrm remove;remove conffiles;n postrm purge;done Not-Installed",
    ),
];

fn script_name(script: ScriptKind) -> &'static [u8] {
    match script {
        ScriptKind::Preinst => b"preinst",
        ScriptKind::Postinst => b"postinst",
        ScriptKind::Prerm => b"prerm",
        ScriptKind::Postrm => b"postrm",
    }
}

fn state_name(state: State) -> &'static [u8] {
    match state {
        State::Installed => b"Installed",
        State::Unpacked => b"Unpacked",
        State::HalfConfigured => b"Half-Configured",
        State::HalfInstalled => b"Half-Installed",
        State::ConfigFiles => b"Config-Files",
        State::NotInstalled => b"Not-Installed",
    }
}

fn work_name(work: StepWork) -> &'static [u8] {
    match work {
        StepWork::Script { script, .. } => script_name(script),
        StepWork::Unpack => b"unpack",
        StepWork::RemoveFiles => b"remove files",
        StepWork::RemoveOld => b"remove old",
        StepWork::RemoveConf => b"remove conffiles",
        StepWork::Restore => b"restore",
    }
}

// `n` or `o` for the package of a script; nothing for files.
fn package_name(work: StepWork) -> &'static [u8] {
    match work {
        StepWork::Script { side, .. } => match side {
            Side::Old => b"o ",
            Side::New => b"n ",
        },
        StepWork::Unpack => b"",
        StepWork::RemoveFiles => b"",
        StepWork::RemoveOld => b"",
        StepWork::RemoveConf => b"",
        StepWork::Restore => b"",
    }
}

// What is done in a step.
fn put_step(alloc: Global, text: &mut Bytes, scenario: Scenario, step: u16) -> Result<(), Memory>
    requires { IsStep scenario step }
{
    let work = work(scenario, step);
    text.extend(package_name(work))?;
    text.extend(work_name(work))?;
    let said = Said {
        old_version: Bytes::from_slice(alloc, b"1")?,
        new_version: Bytes::from_slice(alloc, b"2")?,
        new_name: Bytes::from_slice(alloc, b"new")?,
    };
    let words = call_words(alloc, scenario, step, &said)?;
    for word in words.as_slice() {
        text.extend(b" ")?;
        text.extend(if word.len() == 0 {
            b"-"
        } else {
            word.as_slice()
        })?;
    }
    text.extend(b";")
}

// How a walk ends.
fn put_ending(text: &mut Bytes, ending: Ending) -> Result<(), Memory> {
    match ending {
        Ending::Done(state) => {
            text.extend(b"done ")?;
            text.extend(state_name(state))
        }
        Ending::Failed(state) => {
            text.extend(b"failed ")?;
            text.extend(state_name(state))
        }
        Ending::Incomplete(_, _) => text.extend(b"incomplete"),
        Ending::Bound(_) => text.extend(b"bound"),
    }
}

// What is done where the steps end so.
fn walked(alloc: Global, scenario: Scenario, plain: bool, ends: &[u8]) -> Result<Bytes, Memory> {
    scenarios_end();
    let mut text = Bytes::new(alloc);
    let mut step = 1u16;
    for end in ends {
        put_step(alloc, &mut text, scenario, step)?;
        match next(scenario, step, *end == b'o', plain) {
            StepNext::Go(more) => step = more,
            StepNext::Stop(ending) => {
                put_ending(&mut text, ending)?;
                return Ok(text);
            }
        }
    }
    Ok(text)
}

#[test]
fn steps_are_walked(rt: HostRuntime) -> Result<(), Fail> {
    for row in WALKS {
        let text = walked(rt.alloc(), row.0, false, row.1)?;
        assert_eq!(rt; text.as_slice(), row.2);
    }
    Ok(())
}

#[test]
fn upgrades_are_walked(rt: HostRuntime) -> Result<(), Fail> {
    for row in UPGRADES {
        let text = walked(rt.alloc(), row.0, false, row.1)?;
        assert_eq!(rt; text.as_slice(), row.2);
    }
    Ok(())
}

#[test]
fn pairs_are_walked(rt: HostRuntime) -> Result<(), Fail> {
    for row in PAIRS {
        let text = walked(rt.alloc(), row.0, false, row.1)?;
        assert_eq!(rt; text.as_slice(), row.2);
    }
    Ok(())
}

#[test]
fn plain_packages_are_walked(rt: HostRuntime) -> Result<(), Fail> {
    for row in PLAIN {
        let text = walked(rt.alloc(), row.0, true, row.1)?;
        assert_eq!(rt; text.as_slice(), row.2);
    }
    Ok(())
}
