// Where in a scenario a site is, for people: in a script, or among the acts of a step on files.
ghost use Rattle.std.specs.Prelude.{◌≡◌, ◌++◌, replicate, OnOk};
ghost use Rattle.explanation.specs.Spots.{spot_at, spot_of, file_text, spot_text, source_text, written_text};

use crate::scripts::{folder_of, put_script_file, script_text};
use checker_input::Sources;
use dpkg_scenarios::{Scenario, ScriptKind, Side, StepWork, work_at};
use script_names::{Bytes, Memory, Site};
use script_places::{position_of, source_line, work_words};
use shown_texts::{push_number, push_shown};
use std::alloc::Global;

/// Where a site is.
#[derive(Clone, Copy, Debug, PartialEq, Eq)]
pub enum Spot {
    /// At a byte of a script of one of the packages.
    InScript {
        side: Side,
        script: ScriptKind,
        at: u32,
    },
    /// At an act of a step on files, counted from 0.
    InFiles {
        work: StepWork,
        at: u32,
    },
    /// At no site that is known.
    Nowhere,
}

// The place in what is done in a step.
fn spot_at(work: StepWork, at: u32) -> Spot
    ensures { result ≡ spot_at work at }
{
    match work {
        StepWork::Script { side, script } => Spot::InScript { side, script, at },
        StepWork::Unpack
        | StepWork::RemoveFiles
        | StepWork::RemoveOld
        | StepWork::RemoveConf
        | StepWork::Restore => Spot::InFiles { work, at },
    }
}

/// Where a site is in a scenario.
pub fn spot_of(scenario: Scenario, site: Option<Site>) -> Spot
    ensures { result ≡ spot_of scenario site }
{
    let site = match site {
        Some(site) => site,
        None => return Spot::Nowhere,
    };
    match work_at(scenario, site.step) {
        Some(work) => spot_at(work, site.at),
        None => Spot::Nowhere,
    }
}

// Adds where a byte of a script is: file, line and column.
#[tactic(auto, unfolding(crate::specs::Spots::file_text))]
fn put_file(
    text: &mut Bytes,
    sources: &Sources,
    side: Side,
    script: ScriptKind,
    at: u32,
) -> Result<(), Memory>
    ensures { OnOk result (text.new ≡ text.old ++ file_text sources.now side script at) }
{
    let place = position_of(script_text(sources, side, script), at as usize);
    put_script_file(text, sources, side, script)?;
    text.extend(b":")?;
    push_number(text, place.line as u64)?;
    text.extend(b":")?;
    push_number(text, place.column as u64)
}

/// Adds where it is.
pub fn put_spot(text: &mut Bytes, sources: &Sources, spot: Spot) -> Result<(), Memory>
    ensures { OnOk result (text.new ≡ text.old ++ spot_text sources.now spot) }
{
    match spot {
        Spot::InScript { side, script, at } => put_file(text, sources, side, script, at),
        Spot::InFiles { work, at } => {
            push_shown(text, folder_of(sources, Side::New).as_bytes())?;
            text.extend(b": ")?;
            text.extend(work_words(work))?;
            text.extend(b", act ")?;
            push_number(text, u64::from(at))
        }
        Spot::Nowhere => push_shown(text, folder_of(sources, Side::New).as_bytes()),
    }
}

// Adds a byte so many times.
fn put_repeated(text: &mut Bytes, count: usize, byte: u8) -> Result<(), Memory>
    ensures { OnOk result (text.new ≡ text.old ++ replicate count byte) }
{
    let mut done = 0;
    while done < count {
        text.push(byte)?;
        done += 1;
    }
    Ok(())
}

// Adds a line of a script, and below it a line that marks the command which begins at a byte.
#[tactic(auto, unfolding(crate::specs::Spots::source_text))]
fn put_source(alloc: Global, text: &mut Bytes, script: &[u8], at: u32) -> Result<(), Memory>
    ensures { OnOk result (text.new ≡ text.old ++ source_text script.now at) }
{
    let line = source_line(alloc, script, at as usize)?;
    text.extend(b"    ")?;
    text.extend(line.text.as_slice())?;
    text.extend(b"\n    ")?;
    put_repeated(text, line.before, b' ')?;
    put_repeated(text, line.marked, b'^')?;
    text.extend(b"\n")
}

/// Adds what is written there in a script.
pub fn put_written(
    alloc: Global,
    text: &mut Bytes,
    sources: &Sources,
    spot: Spot,
) -> Result<(), Memory>
    ensures { OnOk result (text.new ≡ text.old ++ written_text sources.now spot) }
{
    match spot {
        Spot::InScript { side, script, at } => {
            put_source(alloc, text, script_text(sources, side, script), at)
        }
        Spot::InFiles { .. } | Spot::Nowhere => Ok(()),
    }
}
