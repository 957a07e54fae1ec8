// The tables, a function for each scenario and a line for each step.
ghost use Rattle.std.specs.Prelude.{◌≡◌, ◌≤◌, ℕ, Bool, List, Some, true, false};
ghost use Rattle.dpkg_scenarios.specs.Steps.{IsStep};
ghost use Rattle.dpkg_scenarios.specs.Lines.{IsLine};

use crate::scenario::ScriptKind::{Postinst, Postrm, Preinst, Prerm};
use crate::scenario::State::{
    ConfigFiles, HalfConfigured, HalfInstalled, Installed, NotInstalled, Unpacked,
};
use crate::scenario::{Scenario, ScriptKind, Side, State, StepWork};
use crate::tables::Then::{Done, Failed, Go, Removed};
use crate::tables::Verb::{
    AbortDeconfigure, AbortInstall, AbortRemove, AbortUpgrade, Configure, Deconfigure, Disappear,
    FailedUpgrade, Install, Purge, Remove, Upgrade,
};
use crate::tables::Versions::{EmptyWord, FromOld, FromTo, InFavour, Named, NoWord, ToNew};

// The first word of a call.
#[derive(Clone, Copy)]
pub enum Verb {
    Install,
    AbortInstall,
    Configure,
    Upgrade,
    FailedUpgrade,
    AbortUpgrade,
    Remove,
    AbortRemove,
    Purge,
    Deconfigure,
    AbortDeconfigure,
    Disappear,
}

// The words behind the first one: none, an empty one, the old version, the new one, the old one and the new one; the new
// package's name and its version, or these behind `in-favour`.
#[derive(Clone, Copy)]
pub enum Versions {
    NoWord,
    EmptyWord,
    FromOld,
    ToNew,
    FromTo,
    Named,
    InFavour,
}

// The words of a step.
#[derive(Clone, Copy)]
pub enum Spoken {
    NoCall,
    Call(Verb, Versions),
}

// What follows: a step; the end, with success or with failure; after a removal the end by what is left.
#[derive(Clone, Copy)]
pub enum Then {
    Go(u16),
    Done(State),
    Failed(State),
    Removed,
}

// A line of a table.
#[derive(Clone, Copy)]
pub struct Line {
    pub work: StepWork,
    pub spoken: Spoken,
    pub ok: Then,
    pub failed: Then,
}

// A script of the new package is called.
fn new(script: ScriptKind, verb: Verb, versions: Versions, ok: Then, failed: Then) -> Line
    ensures { let work = StepWork.Script Side.New script in
        result ≡ record { work = work; spoken = Spoken.Call verb versions; ok = ok; failed = failed } }
{
    Line {
        work: StepWork::Script {
            side: Side::New,
            script,
        },
        spoken: Spoken::Call(verb, versions),
        ok,
        failed,
    }
}

// The new package is configured; where that fails, it is left half configured.
fn configures(versions: Versions, ok: Then) -> Line
    ensures { let work = StepWork.Script Side.New ScriptKind.Postinst in
        let spoken = Spoken.Call Verb.Configure versions in
        result ≡ record { work = work; spoken = spoken; ok = ok; failed = Then.Failed State.HalfConfigured } }
{
    new(Postinst, Configure, versions, ok, Failed(HalfConfigured))
}

// A script of the old package is called.
fn old(script: ScriptKind, verb: Verb, versions: Versions, ok: Then, failed: Then) -> Line
    ensures { let work = StepWork.Script Side.Old script in
        result ≡ record { work = work; spoken = Spoken.Call verb versions; ok = ok; failed = failed } }
{
    Line {
        work: StepWork::Script {
            side: Side::Old,
            script,
        },
        spoken: Spoken::Call(verb, versions),
        ok,
        failed,
    }
}

// Files are placed, taken away or put back.
fn files(work: StepWork, ok: Then, failed: Then) -> Line
    ensures { result ≡ record { work = work; spoken = Spoken.NoCall; ok = ok; failed = failed } }
{
    Line {
        work,
        spoken: Spoken::NoCall,
        ok,
        failed,
    }
}

fn install(step: u16) -> Line
    requires { IsStep Scenario.Install step }
    ensures { IsLine Scenario.Install step result }
{
    match step {
        1 => new(Preinst, Install, NoWord, Go(2), Go(4)),
        2 => files(StepWork::Unpack, Go(3), Go(5)),
        3 => configures(EmptyWord, Done(Installed)),
        4 => new(
            Postrm,
            AbortInstall,
            NoWord,
            Failed(NotInstalled),
            Failed(HalfInstalled),
        ),
        _ => files(StepWork::Restore, Go(4), Go(4)),
    }
}

fn install_again(step: u16) -> Line
    requires { IsStep Scenario.InstallAgain step }
    ensures { IsLine Scenario.InstallAgain step result }
{
    match step {
        1 => new(Preinst, Install, FromTo, Go(2), Go(4)),
        2 => files(StepWork::Unpack, Go(3), Go(5)),
        3 => configures(FromOld, Done(Installed)),
        4 => new(
            Postrm,
            AbortInstall,
            FromTo,
            Failed(ConfigFiles),
            Failed(HalfInstalled),
        ),
        _ => files(StepWork::Restore, Go(4), Go(4)),
    }
}

fn upgrade(step: u16) -> Line
    requires { IsStep Scenario.Upgrade step }
    ensures { IsLine Scenario.Upgrade step result }
{
    match step {
        1 => old(Prerm, Upgrade, ToNew, Go(3), Go(2)),
        2 => new(Prerm, FailedUpgrade, FromTo, Go(3), Go(9)),
        3 => new(Preinst, Upgrade, FromTo, Go(4), Go(10)),
        4 => files(StepWork::Unpack, Go(5), Go(12)),
        5 => old(Postrm, Upgrade, ToNew, Go(7), Go(6)),
        6 => new(Postrm, FailedUpgrade, FromTo, Go(7), Go(13)),
        7 => files(StepWork::RemoveOld, Go(8), Go(8)),
        8 => configures(FromOld, Done(Installed)),
        _ => upgrade_undone(step),
    }
}

// The steps that undo an upgrade.
fn upgrade_undone(step: u16) -> Line
    requires { IsStep Scenario.Upgrade step × (9 ≤ step) }
    ensures { IsLine Scenario.Upgrade step result }
{
    match step {
        9 => old(
            Postinst,
            AbortUpgrade,
            ToNew,
            Failed(Installed),
            Failed(HalfConfigured),
        ),
        10 => new(Postrm, AbortUpgrade, FromTo, Go(11), Failed(HalfInstalled)),
        11 => old(
            Postinst,
            AbortUpgrade,
            ToNew,
            Failed(Installed),
            Failed(Unpacked),
        ),
        12 => files(StepWork::Restore, Go(10), Go(10)),
        13 => old(Preinst, AbortUpgrade, ToNew, Go(14), Failed(HalfInstalled)),
        _ => files(StepWork::Restore, Go(10), Go(10)),
    }
}

fn remove(step: u16) -> Line
    requires { IsStep Scenario.Remove step }
    ensures { IsLine Scenario.Remove step result }
{
    match step {
        1 => new(Prerm, Remove, NoWord, Go(2), Go(4)),
        2 => files(StepWork::RemoveFiles, Go(3), Go(3)),
        3 => new(Postrm, Remove, NoWord, Removed, Failed(HalfInstalled)),
        _ => new(
            Postinst,
            AbortRemove,
            NoWord,
            Failed(Installed),
            Failed(HalfConfigured),
        ),
    }
}

fn purge(step: u16) -> Line
    requires { IsStep Scenario.Purge step }
    ensures { IsLine Scenario.Purge step result }
{
    match step {
        1 => new(Prerm, Remove, NoWord, Go(2), Go(6)),
        2 => files(StepWork::RemoveFiles, Go(3), Go(3)),
        3 => new(Postrm, Remove, NoWord, Go(4), Failed(HalfInstalled)),
        4 => files(StepWork::RemoveConf, Go(5), Go(5)),
        5 => new(
            Postrm,
            Purge,
            NoWord,
            Done(NotInstalled),
            Failed(ConfigFiles),
        ),
        _ => new(
            Postinst,
            AbortRemove,
            NoWord,
            Failed(Installed),
            Failed(HalfConfigured),
        ),
    }
}

fn purge_later(step: u16) -> Line
    requires { IsStep Scenario.PurgeLater step }
    ensures { IsLine Scenario.PurgeLater step result }
{
    match step {
        1 => files(StepWork::RemoveConf, Go(2), Go(2)),
        _ => new(
            Postrm,
            Purge,
            NoWord,
            Done(NotInstalled),
            Failed(ConfigFiles),
        ),
    }
}

fn in_favour(step: u16) -> Line
    requires { IsStep Scenario.InFavour step }
    ensures { IsLine Scenario.InFavour step result }
{
    match step {
        1 => old(Prerm, Remove, InFavour, Go(2), Go(7)),
        2 => new(Preinst, Install, NoWord, Go(3), Go(8)),
        3 => files(StepWork::Unpack, Go(4), Go(9)),
        4 => files(StepWork::RemoveOld, Go(5), Go(5)),
        5 => old(Postrm, Remove, NoWord, Go(6), Failed(Unpacked)),
        6 => configures(EmptyWord, Done(Installed)),
        7 => old(
            Postinst,
            AbortRemove,
            InFavour,
            Failed(NotInstalled),
            Failed(NotInstalled),
        ),
        8 => new(Postrm, AbortInstall, NoWord, Go(7), Failed(HalfInstalled)),
        _ => files(StepWork::Restore, Go(8), Go(8)),
    }
}

fn deconfigure(step: u16) -> Line
    requires { IsStep Scenario.Deconfigure step }
    ensures { IsLine Scenario.Deconfigure step result }
{
    match step {
        1 => old(Prerm, Deconfigure, InFavour, Go(2), Go(6)),
        2 => new(Preinst, Install, NoWord, Go(3), Go(5)),
        3 => files(StepWork::Unpack, Go(4), Go(7)),
        4 => configures(EmptyWord, Done(Installed)),
        5 => new(Postrm, AbortInstall, NoWord, Go(6), Failed(HalfInstalled)),
        6 => old(
            Postinst,
            AbortDeconfigure,
            InFavour,
            Failed(NotInstalled),
            Failed(NotInstalled),
        ),
        _ => files(StepWork::Restore, Go(5), Go(5)),
    }
}

fn disappear(step: u16) -> Line
    requires { IsStep Scenario.Disappear step }
    ensures { IsLine Scenario.Disappear step result }
{
    match step {
        1 => new(Preinst, Install, NoWord, Go(2), Go(5)),
        2 => files(StepWork::Unpack, Go(3), Go(6)),
        3 => old(Postrm, Disappear, Named, Go(4), Failed(Unpacked)),
        4 => configures(EmptyWord, Done(Installed)),
        5 => new(
            Postrm,
            AbortInstall,
            NoWord,
            Failed(NotInstalled),
            Failed(HalfInstalled),
        ),
        _ => files(StepWork::Restore, Go(5), Go(5)),
    }
}

fn twice(step: u16) -> Line
    requires { IsStep Scenario.Twice step }
    ensures { IsLine Scenario.Twice step result }
{
    match step {
        1 => configures(EmptyWord, Go(2)),
        _ => configures(ToNew, Done(Installed)),
    }
}

// The line of a step.
pub fn line_of(scenario: Scenario, step: u16) -> Line
    requires { IsStep scenario step }
    ensures { IsLine scenario step result }
{
    match scenario {
        Scenario::Install => install(step),
        Scenario::InstallAgain => install_again(step),
        Scenario::Upgrade => upgrade(step),
        Scenario::Remove => remove(step),
        Scenario::Purge => purge(step),
        Scenario::PurgeLater => purge_later(step),
        Scenario::InFavour => in_favour(step),
        Scenario::Deconfigure => deconfigure(step),
        Scenario::Disappear => disappear(step),
        Scenario::Twice => twice(step),
    }
}
