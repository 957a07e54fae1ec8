ghost use Rattle.std.specs.Prelude.{◌≡◌};
ghost use Rattle.script_places.specs.StepWords.{scenario_words, script_words, state_words, work_words};

use dpkg_scenarios::{Scenario, ScriptKind, Side, State, StepWork};

/// What is done in a step, in words: the script that is called, or what dpkg does with files.
pub fn work_words(work: StepWork) -> &'static [u8]
    ensures { result.now ≡ work_words work }
{
    match work {
        StepWork::Script { side, script } => script_words(side, script),
        StepWork::Unpack => b"dpkg unpacks the files",
        StepWork::RemoveFiles => b"dpkg removes the files",
        StepWork::RemoveOld => b"dpkg removes what only the old package has",
        StepWork::RemoveConf => b"dpkg removes the conffiles",
        StepWork::Restore => b"dpkg puts the files back",
    }
}

/// The script of a package, in words; that of the old one is said to be so.
pub fn script_words(side: Side, script: ScriptKind) -> &'static [u8]
    ensures { result.now ≡ script_words side script }
{
    match (side, script) {
        (Side::New, ScriptKind::Preinst) => b"preinst",
        (Side::New, ScriptKind::Postinst) => b"postinst",
        (Side::New, ScriptKind::Prerm) => b"prerm",
        (Side::New, ScriptKind::Postrm) => b"postrm",
        (Side::Old, ScriptKind::Preinst) => b"old preinst",
        (Side::Old, ScriptKind::Postinst) => b"old postinst",
        (Side::Old, ScriptKind::Prerm) => b"old prerm",
        (Side::Old, ScriptKind::Postrm) => b"old postrm",
    }
}

/// How a package is left in this state, in words; where dpkg has another word for it, that too.
pub fn state_words(state: State) -> &'static [u8]
    ensures { result.now ≡ state_words state }
{
    match state {
        State::Installed => b"installed",
        State::Unpacked => b"unpacked, but not configured (dpkg: unpacked)",
        State::HalfConfigured => b"unpacked, but its configuration failed (dpkg: half-configured)",
        State::HalfInstalled => {
            b"neither installed nor removed as a whole (dpkg: half-installed)"
        },
        State::ConfigFiles => b"removed, but not purged (dpkg: config-files)",
        State::NotInstalled => b"not installed",
    }
}

/// What a scenario is, in words.
pub fn scenario_words(scenario: Scenario) -> &'static [u8]
    ensures { result.now ≡ scenario_words scenario }
{
    match scenario {
        Scenario::Install => b"the installation",
        Scenario::InstallAgain => b"the installation over conffiles that were left",
        Scenario::Upgrade => b"the upgrade",
        Scenario::Remove => b"the removal",
        Scenario::Purge => b"the purge",
        Scenario::PurgeLater => b"the purge of what a removal left",
        Scenario::InFavour => b"the installation in favour of which another package is removed",
        Scenario::Deconfigure => b"the installation for which another package is deconfigured",
        Scenario::Disappear => b"the installation by which another package disappears",
        Scenario::Twice => b"the configuration, and once more",
    }
}
