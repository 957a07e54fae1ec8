ghost use Rattle.std.specs.Prelude.{◌≡◌, Some, length, IfSome, if◌then◌else◌};
ghost use Rattle.dpkg_scenarios.specs.Lines.{then_of};
ghost use Rattle.dpkg_scenarios.specs.Scenarios.{table};
ghost use Rattle.dpkg_scenarios.specs.Steps.{IsStep, work_of, next_of};

use crate::scenario::{Ending, Scenario, State, StepNext, StepWork};
use crate::tables::{Then, line_of};

/// What is done in a step of a scenario. Steps are numbered from 1.
pub fn work(scenario: Scenario, step: u16) -> StepWork
    requires { IsStep scenario step }
    ensures { work_of scenario step ≡ Some result }
{
    line_of(scenario, step).work
}

// How many steps a scenario has.
fn step_count(scenario: Scenario) -> u16
    ensures { result ≡ length (table scenario) }
{
    match scenario {
        Scenario::Install => 5,
        Scenario::InstallAgain => 5,
        Scenario::Upgrade => 14,
        Scenario::Remove => 4,
        Scenario::Purge => 6,
        Scenario::PurgeLater => 2,
        Scenario::InFavour => 9,
        Scenario::Deconfigure => 7,
        Scenario::Disappear => 6,
        Scenario::Twice => 2,
    }
}

/// What is done in the step of a number; None exactly where the scenario has no such step.
pub fn work_at(scenario: Scenario, step: u16) -> Option<StepWork>
    ensures done { result ≡ work_of scenario step }
    ensures within { IfSome result (λ done. IsStep scenario step) }
{
    if step < 1 || step > step_count(scenario) {
        return None;
    }
    Some(work(scenario, step))
}

/// What follows a step of a scenario, by whether the step succeeded (Debian Policy, 6.6 to 6.8, with the unwinding of
/// errors). `plain` says that the package has neither a configuration file nor a postrm. After a step that takes files
/// away or puts them back the same follows in both cases.
pub fn next(scenario: Scenario, step: u16, ok: bool, plain: bool) -> StepNext
    requires { IsStep scenario step }
    ensures { next_of scenario step ok plain ≡ Some result }
{
    let line = line_of(scenario, step);
    if ok {
        then(line.ok, plain)
    } else {
        then(line.failed, plain)
    }
}

// What follows a step.
fn then(what: Then, plain: bool) -> StepNext
    ensures { result ≡ then_of what plain }
{
    match what {
        Then::Go(next) => StepNext::Go(next),
        Then::Done(state) => StepNext::Stop(Ending::Done(state)),
        Then::Failed(state) => StepNext::Stop(Ending::Failed(state)),
        Then::Removed => StepNext::Stop(Ending::Done(removed(plain))),
    }
}

// The state of a package that was removed.
fn removed(plain: bool) -> State
    ensures { result ≡ (if plain then State.NotInstalled else State.ConfigFiles) }
{
    if plain {
        State::NotInstalled
    } else {
        State::ConfigFiles
    }
}
