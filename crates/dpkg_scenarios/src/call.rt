ghost use Rattle.std.specs.Prelude.{◌≡◌, [], ◌∷◌, ◌++◌, Some, IfOk, OnOk};
ghost use Rattle.dpkg_scenarios.specs.Lines.{verb_text, versions_text};
ghost use Rattle.dpkg_scenarios.specs.Steps.{IsStep, words_of};

use crate::said::Said;
use crate::scenario::Scenario;
use crate::tables::{Spoken, Verb, Versions, line_of};
use script_names::{Bytes, Copied, List, Memory};
use std::alloc::Global;

/// The words with which a step's script is called, from what is said of the packages (Debian Policy, 6.5). A step that
/// calls no script has none.
pub fn call_words(
    alloc: Global,
    scenario: Scenario,
    step: u16,
    said: &Said,
) -> Result<List<Bytes>, Memory>
    requires { IsStep scenario step }
    ensures { IfOk result (λ words. words_of scenario step said.now ≡ Some words) }
{
    let mut words = List::new(alloc);
    match line_of(scenario, step).spoken {
        Spoken::NoCall => Ok(words),
        Spoken::Call(verb, versions) => {
            words.add(Bytes::from_slice(alloc, verb_bytes(verb))?)?;
            add_versions(alloc, &mut words, versions, said)?;
            Ok(words)
        }
    }
}

// The bytes of a first word.
fn verb_bytes(verb: Verb) -> &'static [u8]
    ensures { result.now ≡ verb_text verb }
{
    match verb {
        Verb::Install => b"install",
        Verb::AbortInstall => b"abort-install",
        Verb::Configure => b"configure",
        Verb::Upgrade => b"upgrade",
        Verb::FailedUpgrade => b"failed-upgrade",
        Verb::AbortUpgrade => b"abort-upgrade",
        Verb::Remove => b"remove",
        Verb::AbortRemove => b"abort-remove",
        Verb::Purge => b"purge",
        Verb::Deconfigure => b"deconfigure",
        Verb::AbortDeconfigure => b"abort-deconfigure",
        Verb::Disappear => b"disappear",
    }
}

// Adds the words behind the first one.
fn add_versions(
    alloc: Global,
    words: &mut List<Bytes>,
    versions: Versions,
    said: &Said,
) -> Result<(), Memory>
    ensures { OnOk result (words.new ≡ words.old ++ versions_text versions said.now) }
{
    match versions {
        Versions::NoWord => Ok(()),
        Versions::EmptyWord => words.add(Bytes::new(alloc)),
        Versions::FromOld => words.add(said.old_version.copy(alloc)?),
        Versions::ToNew => words.add(said.new_version.copy(alloc)?),
        Versions::FromTo => {
            words.add(said.old_version.copy(alloc)?)?;
            words.add(said.new_version.copy(alloc)?)
        }
        Versions::Named => add_named(alloc, words, said),
        Versions::InFavour => {
            words.add(Bytes::from_slice(alloc, b"in-favour")?)?;
            add_named(alloc, words, said)
        }
    }
}

// Adds the new package's name and its version.
fn add_named(alloc: Global, words: &mut List<Bytes>, said: &Said) -> Result<(), Memory>
    ensures { OnOk result (words.new ≡ words.old ++ (said.now.new_name ∷ said.now.new_version ∷ [])) }
{
    let name = said.new_name.copy(alloc)?;
    let version = said.new_version.copy(alloc)?;
    words.add(name)?;
    words.add(version)
}
