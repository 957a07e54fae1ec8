ghost use Rattle.std.specs.Prelude.{◌≡◌};

use script_names::{Copied, Memory, Reason, Site};
use std::alloc::Global;

/// What is done with a package, or with a new one and an installed one of another name (Debian Policy, 6.5 to 6.8).
#[derive(Clone, Copy, Debug, PartialEq, Eq)]
pub enum Scenario {
    /// A package that is not installed is installed.
    Install,
    /// A package whose configuration files were left is installed again.
    InstallAgain,
    /// A package is installed in place of an older version.
    Upgrade,
    /// A package is removed, without its configuration files.
    Remove,
    /// A package is removed with its configuration files.
    Purge,
    /// The configuration files that a removed package left are taken away.
    PurgeLater,
    /// A package is installed, in favour of which an installed one is removed that conflicts with it.
    InFavour,
    /// A package is installed that breaks an installed one, which is deconfigured.
    Deconfigure,
    /// A package is installed that has every file of an installed one, which disappears.
    Disappear,
    /// A package is configured, and once more.
    Twice,
}

/// The state of a package, as dpkg names them.
#[derive(Clone, Copy, Debug, PartialEq, Eq)]
pub enum State {
    Installed,
    Unpacked,
    HalfConfigured,
    HalfInstalled,
    ConfigFiles,
    NotInstalled,
}

/// A maintainer script (Debian Policy, 6.1).
#[derive(Clone, Copy, Debug, PartialEq, Eq)]
pub enum ScriptKind {
    Preinst,
    Postinst,
    Prerm,
    Postrm,
}

/// Which of the two packages of a scenario: the checked one, or the old one, which was there before it.
#[derive(Clone, Copy, Debug, PartialEq, Eq)]
pub enum Side {
    New,
    Old,
}

/// How a scenario ends: in a state, with success or with failure, or without one, where nothing is specified or no turn
/// is left.
#[derive(Clone, Copy, Debug, PartialEq, Eq)]
pub enum Ending {
    Done(State),
    Failed(State),
    Incomplete(Reason, Site),
    Bound(Site),
}

/// What is done in a step.
#[derive(Clone, Copy, Debug, PartialEq, Eq)]
pub enum StepWork {
    /// A script of one of the packages is called.
    Script { side: Side, script: ScriptKind },
    /// The files of the checked package are put in place; the tree is kept as it was before.
    Unpack,
    /// The files of the checked package are taken away, without its configuration files.
    RemoveFiles,
    /// The files of the old package that the checked one does not list are taken away.
    RemoveOld,
    /// The configuration files of the checked package are taken away.
    RemoveConf,
    /// What was put in place is put back, from the tree that was kept.
    Restore,
}

/// What follows a step: a further one, by its number, or the scenario's end.
#[derive(Clone, Copy, Debug, PartialEq, Eq)]
pub enum StepNext {
    Go(u16),
    Stop(Ending),
}

impl Copied for Scenario {
    fn copy(&self, _alloc: Global) -> Result<Scenario, Memory> {
        Ok(*self)
    }
}

impl Copied for State {
    fn copy(&self, _alloc: Global) -> Result<State, Memory> {
        Ok(*self)
    }
}

impl Copied for ScriptKind {
    fn copy(&self, _alloc: Global) -> Result<ScriptKind, Memory> {
        Ok(*self)
    }
}

impl Copied for Side {
    fn copy(&self, _alloc: Global) -> Result<Side, Memory> {
        Ok(*self)
    }
}

impl Copied for Ending {
    fn copy(&self, _alloc: Global) -> Result<Ending, Memory> {
        Ok(*self)
    }
}

impl Copied for StepWork {
    fn copy(&self, _alloc: Global) -> Result<StepWork, Memory> {
        Ok(*self)
    }
}

impl Copied for StepNext {
    fn copy(&self, _alloc: Global) -> Result<StepNext, Memory> {
        Ok(*self)
    }
}
