// What is said first, and first of a scenario: the package, how the scenario ends, and how often.
ghost use Rattle.std.specs.Prelude.{◌≡◌, ◌++◌, length, OnOk};
ghost use Rattle.explanation.specs.Heads.{over_text, package_text, name_text, verdict_words, head_line, counts_line};
ghost use Rattle.explanation.specs.Heads.{failing_text, legend_text, undecided_text, well_text};

use crate::counting::{count_so, put_counted};
use crate::scripts::folder_of;
use checker_input::{Packages, Sources};
use dpkg_scenarios::{Scenario, Side, scenario_name};
use outcome_report::ReportEntry;
use script_names::{Bytes, Memory};
use shown_texts::{push_number, push_shown};

/// Adds what stands before all that is said: what an outcome is, and what is left out of lines.
#[tactic(auto, unfolding(crate::specs::Heads::legend_text))]
pub fn put_legend(text: &mut Bytes) -> Result<(), Memory>
    ensures { OnOk result (text.new ≡ text.old ++ legend_text) }
{
    text.extend(
        b"An outcome stands for all systems on which a scenario goes the same way, act by act.\n",
    )?;
    text.extend(
        b"An undecided one is known up to its place: what it does from there is not, nor how the package is left.\n",
    )?;
    text.extend(
        b"Lines that are known not to be reached stand at the end of a scenario; of others nothing is said.\n",
    )?;
    text.extend(b"In the line of a script [..] stands for what is left out.\n")?;
    text.extend(b"\n")
}

// Adds the version of the old package, where there is one.
fn put_over(text: &mut Bytes, packages: &Packages) -> Result<(), Memory>
    ensures { OnOk result (text.new ≡ text.old ++ over_text packages.now) }
{
    match &packages.old_package {
        Some(package) => {
            text.extend(b" over ")?;
            push_shown(text, package.version.as_slice())
        }
        None => Ok(()),
    }
}

/// Adds the package's folder and version, and the old one's version.
#[tactic(auto, unfolding(crate::specs::Heads::package_text))]
pub fn put_package(text: &mut Bytes, sources: &Sources, packages: &Packages) -> Result<(), Memory>
    ensures { OnOk result (text.new ≡ text.old ++ package_text sources.now packages.now) }
{
    push_shown(text, folder_of(sources, Side::New).as_bytes())?;
    text.extend(b" ")?;
    push_shown(text, packages.new_package.version.as_slice())?;
    put_over(text, packages)
}

// Adds the same, and the scenario.
#[tactic(auto, unfolding(crate::specs::Heads::name_text))]
fn put_name(
    text: &mut Bytes,
    sources: &Sources,
    packages: &Packages,
    scenario: Scenario,
) -> Result<(), Memory>
    ensures { OnOk result (text.new ≡ text.old ++ name_text sources.now packages.now scenario) }
{
    put_package(text, sources, packages)?;
    text.extend(b", ")?;
    text.extend(scenario_name(scenario).as_bytes())
}

/// Adds the first line of a scenario, which ends in these words.
#[tactic(auto, unfolding(crate::specs::Heads::head_line))]
pub fn put_head(
    text: &mut Bytes,
    sources: &Sources,
    packages: &Packages,
    scenario: Scenario,
    words: &[u8],
) -> Result<(), Memory>
    ensures { OnOk result (text.new ≡ text.old ++ head_line sources.now packages.now scenario words.now) }
{
    put_name(text, sources, packages, scenario)?;
    text.extend(b": ")?;
    text.extend(words)?;
    text.extend(b"\n")
}

/// What is said of a scenario that has this verdict.
pub fn verdict_words(verdict: u8) -> &'static [u8]
    ensures { result.now ≡ verdict_words verdict }
{
    match verdict {
        0 => b"ends well",
        1 => b"FAILS on some systems",
        _ => b"UNDECIDED",
    }
}

// Adds how many fail.
#[tactic(auto, unfolding(crate::specs::Heads::failing_text))]
fn put_failing(text: &mut Bytes, count: u64) -> Result<(), Memory>
    ensures { OnOk result (text.new ≡ text.old ++ failing_text count) }
{
    push_number(text, count)?;
    text.extend(b" failing, ")
}

// Adds how many are undecided.
#[tactic(auto, unfolding(crate::specs::Heads::undecided_text))]
fn put_undecided(text: &mut Bytes, count: u64) -> Result<(), Memory>
    ensures { OnOk result (text.new ≡ text.old ++ undecided_text count) }
{
    push_number(text, count)?;
    text.extend(b" undecided, ")
}

// Adds how many end well.
#[tactic(auto, unfolding(crate::specs::Heads::well_text))]
fn put_well(text: &mut Bytes, count: u64) -> Result<(), Memory>
    ensures { OnOk result (text.new ≡ text.old ++ well_text count) }
{
    push_number(text, count)?;
    text.extend(b" ending well")?;
    text.extend(b"\n")
}

/// Adds how many outcomes there are, and how many end in each way.
#[tactic(auto, unfolding(crate::specs::Heads::counts_line))]
pub fn put_counts(text: &mut Bytes, entries: &[ReportEntry]) -> Result<(), Memory>
    ensures { OnOk result (text.new ≡ text.old ++ counts_line entries.now) }
{
    put_counted(text, entries.len() as u64)?;
    text.extend(b": ")?;
    put_failing(text, count_so(1, entries))?;
    put_undecided(text, count_so(2, entries))?;
    put_well(text, count_so(0, entries))
}
