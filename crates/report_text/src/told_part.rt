//! A part of a report, told path by path, wholly or briefly: of each path its outcome and the run from the tree that it
//! shows are made, the lines on them are added, and they are let go. So there is one outcome at a time.

ghost use Rattle.std.specs.Prelude.{◌≡◌, ◌<◌, ◌+◌, ◌^◌, ◌++◌, length, false, IfOk, OnOk};
ghost use Rattle.clause_solver.specs.Stands.{Alive};
ghost use Rattle.case_paths.specs.Paths.{AllAlive, states};
ghost use Rattle.scenario_runs.specs.Runs.{scenario_run};
ghost use Rattle.start_trees.specs.Needs.{IsStart};
ghost use Rattle.report_text.specs.Telling.{PathReplays, PathsReplay, AddsEntry, AddsPath, TellsPaths};
ghost use Rattle.report_text.specs.Telling.{entry_lines, end_lines};
ghost use Rattle.report_text.specs.Told.{ToldAnswers};
ghost use Rattle.report_text.specs.ReportText.{heading};

use crate::brief_text::put_brief_entry;
use crate::place_text::put_counted_places;
use crate::places::{EndPlace, add_some, end_place};
use crate::report_text::{put_entry, put_heading};
use crate::representable::is_entry;
use case_paths::Found;
use dpkg_scenarios::{Ending, Scenario, ending_verdict};
use outcome_report::{ReportEntry, keep_replay, make_entry};
use scenario_outcomes::{OutcomesFault, job_paths, make_outcome};
use scenario_runs::{Job, ScriptCall, run};
use script_names::{Bytes, Copied, List, Memory};
use start_trees::Need;
use std::alloc::Global;

/// How much is told of each outcome: all, and behind the outcomes the places where those end that aren't done; or its
/// number, its ending and its trace alone.
#[derive(Clone, Copy, Debug, PartialEq, Eq)]
pub enum Telling {
    Wholly,
    Briefly,
}

/// A part of a report, as what is told of it: its lines, whether some outcome failed, and whether some outcome is
/// incomplete or bound.
#[derive(Drop)]
pub struct ToldPart {
    pub text: Bytes,
    pub failed: bool,
    pub unfinished: bool,
}

impl Copied for ToldPart {
    fn copy(&self, alloc: Global) -> Result<ToldPart, Memory> {
        let text = self.text.copy(alloc)?;
        Ok(ToldPart {
            text,
            failed: self.failed,
            unfinished: self.unfinished,
        })
    }
}

// The lines before the first outcome.
fn begin_part(alloc: Global, scenario: Scenario, outcomes: usize) -> Result<ToldPart, Memory>
    ensures text { IfOk result (λ told. told.text ≡ heading scenario outcomes) }
    ensures failed { IfOk result (λ told. told.failed ≡ false) }
    ensures unfinished { IfOk result (λ told. told.unfinished ≡ false) }
{
    let mut text = Bytes::new(alloc);
    put_heading(&mut text, scenario, outcomes)?;
    Ok(ToldPart {
        text,
        failed: false,
        unfinished: false,
    })
}

// Adds the lines of an entry that is told so.
fn put_told_entry(
    alloc: Global,
    telling: Telling,
    text: &mut Bytes,
    entry: &ReportEntry,
) -> Result<(), Memory>
    ensures { OnOk result (text.new ≡ text.old ++ entry_lines telling entry.now) }
{
    match telling {
        Telling::Wholly => put_entry(alloc, text, entry),
        Telling::Briefly => put_brief_entry(text, entry),
    }
}

// Adds the lines behind the outcomes, from the places where those end that aren't done.
fn put_end(
    alloc: Global,
    telling: Telling,
    text: &mut Bytes,
    places: &[EndPlace],
) -> Result<(), Memory>
    ensures { OnOk result (text.new ≡ text.old ++ end_lines telling places.now) }
{
    match telling {
        Telling::Wholly => put_counted_places(alloc, text, places),
        Telling::Briefly => Ok(()),
    }
}

// Tells one more entry: its lines, the place where it ends, and what it makes of the verdict.
fn tell_entry(
    alloc: Global,
    telling: Telling,
    entry: &ReportEntry,
    told: &mut ToldPart,
    places: &mut List<EndPlace>,
) -> Result<(), Memory>
    ensures { OnOk result (AddsEntry telling entry.now told.old told.new places.old places.new) }
{
    is_entry(entry);
    put_told_entry(alloc, telling, &mut told.text, entry)?;
    let place = end_place(entry.outcome.ending, entry.outcome.trace.as_slice());
    add_some(places, place)?;
    let verdict = ending_verdict(entry.outcome.ending);
    told.failed = told.failed | (verdict == 1);
    told.unfinished = told.unfinished | (verdict == 2);
    Ok(())
}

// Tells one more path, by its place in the list of paths.
fn tell_path(
    alloc: Global,
    job: &Job,
    telling: Telling,
    place: u32,
    path: Found<(Ending, List<ScriptCall>)>,
    told: &mut ToldPart,
    places: &mut List<EndPlace>,
) -> Result<(), Memory>
    requires alive { Alive path.state.store }
    requires numbered { place + 1 < 2 ^ 32 }
    requires replays { PathReplays (scenario_run job.now) place path }
    ensures { OnOk result (AddsPath telling (scenario_run job.now) place path told.old told.new places.old places.new) }
{
    let outcome = make_outcome(alloc, place, path)?;
    let replayed = run(alloc, job, &outcome.shown)?;
    let entry = make_entry(outcome, keep_replay(replayed));
    tell_entry(alloc, telling, &entry, told, places)?;
    Ok(())
}

// Tells the paths of a job.
fn tell_paths(
    alloc: Global,
    job: &Job,
    telling: Telling,
    paths: List<Found<(Ending, List<ScriptCall>)>>,
) -> Result<ToldPart, Memory>
    requires alive { AllAlive (states paths) }
    requires numbered { length paths < 2 ^ 32 }
    requires replays { PathsReplay (scenario_run job.now) 0 paths }
    ensures { IfOk result (TellsPaths telling (scenario_run job.now) job.now.scenario paths) }
{
    let mut told = begin_part(alloc, job.scenario, paths.len())?;
    let mut places = List::new(alloc);
    let mut number = 0u32;
    for path in paths.into_vec() {
        tell_path(alloc, job, telling, number, path, &mut told, &mut places)?;
        number += 1;
    }
    put_end(alloc, telling, &mut told.text, places.as_slice())?;
    Ok(told)
}

/// What is told, wholly or briefly, of the part of a report on a job's scenario, over all trees of files that have what
/// is needed. No list of outcomes is made for it. `NoStart` and `Over` come as for `make_part`.
pub fn tell_part(
    alloc: Global,
    job: &Job,
    needs: &List<Need>,
    limit: u32,
    telling: Telling,
) -> Result<ToldPart, OutcomesFault>
    ensures { ToldAnswers telling (scenario_run job.now) (IsStart needs.now) limit job.now.scenario result }
{
    match job_paths(alloc, job, needs, limit) {
        Ok(paths) => {
            let told = tell_paths(alloc, job, telling, paths)?;
            Ok(told)
        }
        Err(fault) => Err(fault),
    }
}
