ghost use Rattle.std.specs.Prelude.{◌≡◌, ◌++◌, ◌-◌, ◌↔◌, length, All, IfOk, IsTrue, OnOk, map, slice_get};
ghost use Rattle.tree_clauses.specs.Solved.{IsSolved};
ghost use Rattle.tree_predictions.specs.Picks.{ArePicks};
ghost use Rattle.prediction_text.specs.Adding.{AddsPart, AddsParts};
ghost use Rattle.prediction_text.specs.PredictionText.{clauses_of, entry_clauses, trees_of, AreSolved, IsPrediction};
ghost use Rattle.prediction_text.specs.PredictionText.{ending_text, picked_text, tree_line, tree_lines};
ghost use Rattle.prediction_text.specs.PredictionText.{scenario_heading};

use dpkg_scenarios::scenario_name;
use feature_trees::Value;
use outcome_report::{Report, ReportEntry, ReportPart};
use report_text::put_result;
use script_names::{Bytes, List, Memory};
use shown_texts::{push_line, push_number, push_shown};
use std::alloc::Global;
use std::thread::Threads;
use tree_clauses::Clause;
use tree_predictions::{NamedTree, first_unsolved, pick_each};

/// Whether each clause of a report is in solved order, so that trees can be looked at with it.
pub fn has_solved_clauses(alloc: Global, report: &Report) -> Result<bool, Memory>
    ensures { IfOk result (λ solved. IsTrue solved ↔ All AreSolved report.now.parts) }
{
    are_solved(alloc, report.parts.as_slice())
}

// Whether each clause of parts is in solved order.
fn are_solved(alloc: Global, parts: &[ReportPart]) -> Result<bool, Memory>
    ensures { IfOk result (λ solved. IsTrue solved ↔ All AreSolved parts.now) }
{
    for part in parts {
        let solved = is_solved_part(alloc, part)?;
        if !solved {
            return Ok(false);
        }
    }
    Ok(true)
}

// Whether each clause of a part is in solved order.
fn is_solved_part(alloc: Global, part: &ReportPart) -> Result<bool, Memory>
    ensures { IfOk result (λ solved. IsTrue solved ↔ AreSolved part.now) }
{
    let clauses = clauses_of(alloc, part.entries.as_slice())?;
    let unsolved = first_unsolved(alloc, clauses.as_slice())?;
    Ok(unsolved.is_none())
}

/// The outcome of each tree, in each scenario of a report whose clauses are in solved order: a first line, and for each
/// scenario its name and a line for each tree, in their order. Threads share the trees; the text does not depend on how
/// many there are.
pub fn predict_text<R: Threads + Sync>(
    rt: &R,
    alloc: Global,
    report: &Report,
    trees: &List<NamedTree>,
) -> Result<Bytes, Memory>
    requires { All AreSolved report.now.parts }
    ensures { IfOk result (IsPrediction report.now trees.now) }
{
    let mut text = Bytes::new(alloc);
    push_line(&mut text, b"colis predict 1")?;
    put_parts(
        rt,
        alloc,
        &mut text,
        report.parts.as_slice(),
        trees.as_slice(),
    )?;
    Ok(text)
}

// The clauses of entries.
fn clauses_of(alloc: Global, entries: &[ReportEntry]) -> Result<Vec<&Clause>, Memory>
    ensures { IfOk result (λ clauses. map (λ clause. clause.now) clauses.items ≡ entry_clauses entries.now) }
{
    let mut clauses = Vec::new(alloc);
    for entry in entries {
        clauses.push(&entry.outcome.clause)?;
    }
    Ok(clauses)
}

// The trees of named ones.
fn tree_values(alloc: Global, trees: &[NamedTree]) -> Result<Vec<&Value>, Memory>
    ensures { IfOk result (λ values. map (λ value. value.now) values.items ≡ trees_of trees.now) }
{
    let mut values = Vec::new(alloc);
    for named in trees {
        values.push(&named.tree)?;
    }
    Ok(values)
}

// Adds the lines of parts.
fn put_parts<R: Threads + Sync>(
    rt: &R,
    alloc: Global,
    text: &mut Bytes,
    parts: &[ReportPart],
    trees: &[NamedTree],
) -> Result<(), Memory>
    requires { All AreSolved parts.now }
    ensures { OnOk result (AddsParts trees.now parts.now text.old text.new) }
{
    for part in parts {
        put_part(rt, alloc, text, part, trees)?;
    }
    Ok(())
}

// Adds the lines of a part.
fn put_part<R: Threads + Sync>(
    rt: &R,
    alloc: Global,
    text: &mut Bytes,
    part: &ReportPart,
    trees: &[NamedTree],
) -> Result<(), Memory>
    requires { AreSolved part.now }
    ensures { OnOk result (AddsPart trees.now part.now text.old text.new) }
{
    let picks = picks_of(rt, alloc, part.entries.as_slice(), trees)?;
    put_heading(text, part)?;
    put_trees(text, &part.entries, trees, picks.as_slice())?;
    Ok(())
}

// The pick of the clauses of entries for each tree.
fn picks_of<R: Threads + Sync>(
    rt: &R,
    alloc: Global,
    entries: &[ReportEntry],
    trees: &[NamedTree],
) -> Result<List<Option<u64>>, Memory>
    requires { All IsSolved (entry_clauses entries.now) }
    ensures { IfOk result (ArePicks (entry_clauses entries.now) (trees_of trees.now)) }
{
    let clauses = clauses_of(alloc, entries)?;
    let values = tree_values(alloc, trees)?;
    let picks = pick_each(rt, alloc, clauses.as_slice(), values.as_slice())?;
    Ok(picks)
}

// Adds the line of a scenario.
#[tactic(auto, unfolding(crate::specs::PredictionText::scenario_heading))]
fn put_heading(text: &mut Bytes, part: &ReportPart) -> Result<(), Memory>
    ensures { OnOk result (text.new ≡ text.old ++ scenario_heading part.now.scenario) }
{
    text.extend(b"scenario ")?;
    push_line(text, scenario_name(part.scenario).as_bytes())
}

// Adds a line for each tree, of which each has a pick.
fn put_trees(
    text: &mut Bytes,
    entries: &List<ReportEntry>,
    trees: &[NamedTree],
    picks: &[Option<u64>],
) -> Result<(), Memory>
    requires { length picks.now ≡ length trees.now }
    ensures { OnOk result (text.new ≡ text.old ++ tree_lines entries.now trees.now picks.now) }
{
    for at in 0usize..trees.len() {
        put_tree_line(text, entries, &trees[at], picks[at])?;
    }
    Ok(())
}

// Adds the line of a tree.
#[tactic(auto, unfolding(crate::specs::PredictionText::tree_line))]
fn put_tree_line(
    text: &mut Bytes,
    entries: &List<ReportEntry>,
    named: &NamedTree,
    pick: Option<u64>,
) -> Result<(), Memory>
    ensures { OnOk result (text.new ≡ text.old ++ tree_line entries.now named.now.name pick) }
{
    push_shown(text, named.name.as_slice())?;
    put_pick(text, entries, pick)?;
    text.extend(b"\n")
}

// Adds what is said of a pick.
fn put_pick(text: &mut Bytes, entries: &List<ReportEntry>, pick: Option<u64>) -> Result<(), Memory>
    ensures { OnOk result (text.new ≡ text.old ++ picked_text entries.now pick) }
{
    match pick {
        None => text.extend(b" none"),
        Some(number) => {
            text.extend(b" outcome ")?;
            push_number(text, number)?;
            text.extend(b" ")?;
            put_ending(text, entries, number)
        }
    }
}

// Adds how the outcome of a number ends.
fn put_ending(text: &mut Bytes, entries: &List<ReportEntry>, number: u64) -> Result<(), Memory>
    ensures { OnOk result (text.new ≡ text.old ++ ending_text (slice_get entries.now (number - 1))) }
{
    match entries.get(number.saturating_sub(1) as usize) {
        Some(entry) => put_result(text, entry.outcome.ending),
        None => Ok(()),
    }
}
