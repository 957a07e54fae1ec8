ghost use Rattle.std.specs.Prelude.{◌≡◌};
ghost use Rattle.std.specs.List.{find};
ghost use Rattle.std.specs.Option.{option_copied};
ghost use Rattle.std.specs.Str.{bytes_eq};
ghost use Rattle.dpkg_scenarios.specs.Names.{scenario_name, named_among, scenario_named, pair_named};
ghost use Rattle.dpkg_scenarios.specs.Names.{script_name};

use crate::columns::{checked_scenarios, pair_scenarios};
use crate::scenario::{Scenario, ScriptKind};

/// The name of a scenario.
pub fn scenario_name(scenario: Scenario) -> &'static str
    ensures { result.now ≡ scenario_name scenario }
{
    match scenario {
        Scenario::Install => "install",
        Scenario::InstallAgain => "install-again",
        Scenario::Upgrade => "upgrade",
        Scenario::Remove => "remove",
        Scenario::Purge => "purge",
        Scenario::PurgeLater => "purge-later",
        Scenario::InFavour => "in-favour",
        Scenario::Deconfigure => "deconfigure",
        Scenario::Disappear => "disappear",
        Scenario::Twice => "twice",
    }
}

/// The scenario of this name, of those that a check answers for.
pub fn scenario_named(name: &[u8]) -> Option<Scenario>
    ensures { result ≡ scenario_named name.now }
{
    named_among(checked_scenarios(), name)
}

/// The scenario of this name, of those of a pair.
pub fn pair_named(name: &[u8]) -> Option<Scenario>
    ensures { result ≡ pair_named name.now }
{
    named_among(pair_scenarios(), name)
}

// The first of these scenarios that has this name.
fn named_among(scenarios: &[Scenario], name: &[u8]) -> Option<Scenario>
    ensures { result ≡ named_among scenarios.now name.now }
{
    match found(scenarios, name) {
        Some(scenario) => Some(*scenario),
        None => None,
    }
}

// The first of these scenarios that has this name, in its place.
fn found<'a>(scenarios: &'a [Scenario], name: &[u8]) -> Option<&'a Scenario>
    ensures { option_copied result
        ≡ find (λ scenario. bytes_eq name.now (scenario_name scenario)) scenarios.now }
{
    scenarios.iter().find(|scenario| is_named(name, **scenario))
}

// Whether the scenario has this name.
fn is_named(name: &[u8], scenario: Scenario) -> bool
    ensures { result ≡ bytes_eq name.now (scenario_name scenario) }
{
    name == scenario_name(scenario).as_bytes()
}

/// The name of a maintainer script, which is that of its file.
pub fn script_name(script: ScriptKind) -> &'static str
    ensures { result.now ≡ script_name script }
{
    match script {
        ScriptKind::Preinst => "preinst",
        ScriptKind::Postinst => "postinst",
        ScriptKind::Prerm => "prerm",
        ScriptKind::Postrm => "postrm",
    }
}
