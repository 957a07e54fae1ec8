//! Values of reports, made from rows and texts.

use dpkg_scenarios::{Ending, Scenario, ScriptKind, Side};
use feature_trees::{Value, read_tree};
use outcome_report::{Report, ReportEntry, ReportPart, keep_replay, make_entry};
use scenario_outcomes::Outcome;
use scenario_runs::{CallEnd, Replayed, ScriptCall};
use script_names::{Bytes, List, Mark, Memory, Site};
use std::alloc::Global;
use tree_clauses::{Clause, read_clause};

/// Acts: of each the step, the place in the step and the row.
pub type Acts<'a> = &'a [(u16, u32, u8)];

/// Calls of scripts: of each whose it is, which script it is, its words, and how it ended.
pub type Calls<'a> = &'a [(Side, ScriptKind, &'a [&'a str], CallEnd)];

/// A run: its ending, its acts, the calls of scripts, and the text of the tree that it left.
pub type RunRow<'a> = (Ending, Acts<'a>, Calls<'a>, &'a str);

/// An outcome: its number, its ending, its acts, and the texts of its clause and of the tree that it shows; and the run
/// from that tree.
pub type EntryRow<'a> = (u32, Ending, Acts<'a>, &'a str, &'a str, RunRow<'a>);

/// The outcomes of a scenario.
pub type PartRow<'a> = (Scenario, &'a [EntryRow<'a>]);

/// An outcome: its number, its ending and its acts. The run has the same, no calls, and empty trees.
pub type ShortRow<'a> = (u32, Ending, Acts<'a>);

fn marks(alloc: Global, acts: Acts<'_>) -> Result<List<Mark>, Memory> {
    let mut marks = List::new(alloc);
    for act in acts {
        let site = Site {
            step: act.0,
            at: act.1,
        };
        marks.add(Mark { site, row: act.2 })?;
    }
    Ok(marks)
}

fn tree(alloc: Global, text: &str) -> Result<Value, Memory> {
    match read_tree(alloc, text.as_bytes()) {
        Ok(tree) => Ok(tree),
        Err(_) => Err(Memory),
    }
}

fn clause(alloc: Global, text: &str) -> Result<Clause, Memory> {
    match read_clause(alloc, text.as_bytes()) {
        Ok(clause) => Ok(clause),
        Err(_) => Err(Memory),
    }
}

fn words(alloc: Global, texts: &[&str]) -> Result<List<Bytes>, Memory> {
    let mut words = List::new(alloc);
    for text in texts {
        let word = Bytes::from_slice(alloc, text.as_bytes())?;
        words.add(word)?;
    }
    Ok(words)
}

fn calls(alloc: Global, rows: Calls<'_>) -> Result<List<ScriptCall>, Memory> {
    let mut calls = List::new(alloc);
    for row in rows {
        let words = words(alloc, row.2)?;
        calls.add(ScriptCall {
            side: row.0,
            script: row.1,
            words,
            how: row.3,
        })?;
    }
    Ok(calls)
}

/// The run of a row.
pub(crate) fn replayed(alloc: Global, row: RunRow<'_>) -> Result<Replayed, Memory> {
    let trace = marks(alloc, row.1)?;
    let calls = calls(alloc, row.2)?;
    let after = tree(alloc, row.3)?;
    Ok(Replayed {
        ending: row.0,
        trace,
        after,
        calls,
        deeds: List::new(alloc),
    })
}

fn outcome(alloc: Global, row: EntryRow<'_>) -> Result<Outcome, Memory> {
    let trace = marks(alloc, row.2)?;
    let clause = clause(alloc, row.3)?;
    let shown = tree(alloc, row.4)?;
    Ok(Outcome {
        number: row.0,
        ending: row.1,
        trace,
        clause,
        shown,
    })
}

fn entry(alloc: Global, row: EntryRow<'_>) -> Result<ReportEntry, Memory> {
    let replayed = replayed(alloc, row.5)?;
    let outcome = outcome(alloc, row)?;
    Ok(make_entry(outcome, keep_replay(replayed)))
}

fn part(alloc: Global, row: PartRow<'_>) -> Result<ReportPart, Memory> {
    let mut entries = List::new(alloc);
    for row in row.1 {
        let entry = entry(alloc, *row)?;
        entries.add(entry)?;
    }
    Ok(ReportPart {
        scenario: row.0,
        entries,
    })
}

/// The report of rows.
pub(crate) fn report(alloc: Global, rows: &[PartRow<'_>]) -> Result<Report, Memory> {
    let mut parts = List::new(alloc);
    for row in rows {
        let part = part(alloc, *row)?;
        parts.add(part)?;
    }
    Ok(Report { parts })
}

/// The part of a scenario with short rows.
pub(crate) fn short_part(
    alloc: Global,
    scenario: Scenario,
    rows: &[ShortRow<'_>],
) -> Result<ReportPart, Memory> {
    let mut entries = List::new(alloc);
    for row in rows {
        let run = (row.1, row.2, [].as_slice(), "");
        let whole = (row.0, row.1, row.2, "clause start v0 now v0\n", "", run);
        let entry = entry(alloc, whole)?;
        entries.add(entry)?;
    }
    Ok(ReportPart { scenario, entries })
}
