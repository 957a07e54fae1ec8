// What each scenario does beside its steps, as one record.
ghost use Rattle.std.specs.Prelude.{◌≡◌};
ghost use Rattle.dpkg_scenarios.specs.Scenarios.{does, columns_of, checked_scenarios, pair_scenarios};

use crate::columns::NewEntries::{Added, Every, NoEntry};
use crate::columns::OwnFolders::{Dropped, Left, NoFolder, Standing};
use crate::scenario::State::{ConfigFiles, Installed, NotInstalled};
use crate::scenario::{Scenario, State};
use script_names::{Copied, Memory};
use std::alloc::Global;

/// What is in place before a scenario, by the state of a package (Debian Policy, 6.6 to 6.8).
#[derive(Clone, Copy, Debug, PartialEq, Eq)]
pub enum Before {
    /// No package is known to be there.
    NotInstalled,
    /// The package was removed, and its configuration files were left.
    ConfigFiles,
    /// The package is installed.
    Installed,
    /// The old package is installed.
    OldInstalled,
}

impl Copied for Before {
    fn copy(&self, _alloc: Global) -> Result<Before, Memory> {
        Ok(*self)
    }
}

/// Which entries of the new package, by what the old one has.
#[derive(Clone, Copy, Debug, PartialEq, Eq)]
pub enum NewEntries {
    /// Each.
    Every,
    /// Those that the old package does not have.
    Added,
    /// None.
    NoEntry,
}

impl Copied for NewEntries {
    fn copy(&self, _alloc: Global) -> Result<NewEntries, Memory> {
        Ok(*self)
    }
}

/// Which folders are taken away where nothing is left in them, so that it tells what else they hold (Debian Policy, 6.6
/// and 6.8).
#[derive(Clone, Copy, Debug, PartialEq, Eq)]
pub enum OwnFolders {
    /// None.
    NoFolder,
    /// Those of the old package that the new one does not list.
    Dropped,
    /// Those of the package, which are there.
    Standing,
    /// Those of the package, of which an earlier removal may have taken some.
    Left,
}

impl Copied for OwnFolders {
    fn copy(&self, _alloc: Global) -> Result<OwnFolders, Memory> {
        Ok(*self)
    }
}

/// What a scenario does beside its steps.
#[derive(Clone, Copy, Debug, PartialEq, Eq)]
pub struct Columns {
    /// Its place among all scenarios, from 0, in the order in which they are reported.
    pub place: u8,
    /// What is in place before it.
    pub before: Before,
    /// The state that it is to bring the package to; a package that is to be left with configuration files, but has
    /// neither one nor a postrm, is Not-Installed.
    pub aim: State,
    /// The entries of the new package that are put where the packages before it have none, and have to fit there.
    pub fits: NewEntries,
    /// The configuration files of the new package that are placed when it is unpacked.
    pub conffiles: NewEntries,
    /// The folders that are its own to take away.
    pub own: OwnFolders,
}

impl Copied for Columns {
    fn copy(&self, _alloc: Global) -> Result<Columns, Memory> {
        Ok(*self)
    }
}

// What a scenario does, in the order of the fields.
fn does(
    place: u8,
    before: Before,
    aim: State,
    fits: NewEntries,
    conffiles: NewEntries,
    own: OwnFolders,
) -> Columns
    ensures { result ≡ does place before aim fits conffiles own }
{
    Columns {
        place,
        before,
        aim,
        fits,
        conffiles,
        own,
    }
}

/// The record of a scenario.
pub fn columns_of(scenario: Scenario) -> Columns
    ensures { result ≡ columns_of scenario }
{
    match scenario {
        Scenario::Install => does(0, Before::NotInstalled, Installed, Every, Every, NoFolder),
        Scenario::InstallAgain => does(1, Before::ConfigFiles, Installed, Every, NoEntry, NoFolder),
        Scenario::Upgrade => does(2, Before::OldInstalled, Installed, Added, Added, Dropped),
        Scenario::Remove => does(
            3,
            Before::Installed,
            ConfigFiles,
            NoEntry,
            NoEntry,
            Standing,
        ),
        Scenario::Purge => does(
            4,
            Before::Installed,
            NotInstalled,
            NoEntry,
            NoEntry,
            Standing,
        ),
        Scenario::PurgeLater => does(5, Before::ConfigFiles, NotInstalled, NoEntry, NoEntry, Left),
        Scenario::InFavour => does(6, Before::OldInstalled, Installed, Added, Added, NoFolder),
        Scenario::Deconfigure => does(7, Before::OldInstalled, Installed, Added, Added, NoFolder),
        Scenario::Disappear => does(8, Before::OldInstalled, Installed, Added, Added, NoFolder),
        Scenario::Twice => does(9, Before::Installed, Installed, NoEntry, NoEntry, NoFolder),
    }
}

/// The scenarios that a check of a package answers for, in the order in which they are reported.
pub fn checked_scenarios() -> &'static [Scenario]
    ensures { result.now ≡ checked_scenarios }
{
    &[
        Scenario::Install,
        Scenario::InstallAgain,
        Scenario::Upgrade,
        Scenario::Remove,
        Scenario::Purge,
        Scenario::PurgeLater,
    ]
}

/// The scenarios of a pair of packages.
pub fn pair_scenarios() -> &'static [Scenario]
    ensures { result.now ≡ pair_scenarios }
{
    &[
        Scenario::InFavour,
        Scenario::Deconfigure,
        Scenario::Disappear,
    ]
}
