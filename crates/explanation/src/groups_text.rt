// What is said of the outcomes that end at one place.
ghost use Rattle.std.specs.Prelude.{◌≡◌, ◌++◌, IfOk, OnOk, length};
ghost use Rattle.std.specs.List.{flat_map};
ghost use Rattle.std.specs.Option.{option_copied};
ghost use Rattle.scenario_runs.specs.Runs.{scenario_run};
ghost use Rattle.explanation.specs.GroupTexts.{shown_run, deeds_of, way_words, why_words, ending_words};
ghost use Rattle.explanation.specs.GroupTexts.{call_lines, call_settled, is_call, kept_lines, reason_settled};
ghost use Rattle.explanation.specs.GroupTexts.{group_head, settled_by, is_open, titled_settled, settling_line};
ghost use Rattle.explanation.specs.GroupTexts.{way_head, change_list, whole_hint, titled_lines};
ghost use Rattle.explanation.specs.GroupTexts.{making_lines, making_hint, is_small, making_text};
ghost use Rattle.explanation.specs.GroupTexts.{way_text, example_text, has_verdict, story_text, first_text};
ghost use Rattle.explanation.specs.GroupTexts.{group_title, group_body};
ghost use Rattle.explanation.specs.GroupTexts.{first_entry, group_text, if_verdict, severity, place_line, place_unless};

use crate::alike::{is_first, put_all_further, word_of};
use crate::changes::put_changed;
use crate::counting::{put_counted, put_numbered};
use crate::courses::{put_acts, put_calls};
use crate::spots::{Spot, put_spot, put_written, spot_of};
use crate::text_words::{is_kept_word, is_plain_name};
use crate::told_text::put_told;
use checker_input::Sources;
use dpkg_scenarios::{Ending, Scenario, ending_verdict};
use feature_trees::Value;
use outcome_groups::{FactBox, Group};
use outcome_report::{ReportEntry, ReportPart};
use scenario_runs::{Job, Replayed, run};
use script_names::{Bytes, Memory, Reason, Site};
use script_places::{reason_words, scenario_words, settling_words, state_words};
use shown_texts::push_shown;
use std::alloc::Global;
use tree_pictures::{put_shell_lines, tree_places};
use utility_calls::deeds::Deed;

/// The run from a tree that is shown.
pub fn shown_run(alloc: Global, job: &Job, tree: &Value) -> Result<Option<Replayed>, Memory>
    ensures { IfOk result (λ found. found ≡ shown_run (scenario_run job.now) tree.now) }
{
    match tree {
        Value::Dir(_) => {
            let replayed = run(alloc, job, tree)?;
            Ok(Some(replayed))
        }
        Value::Absent | Value::Reg | Value::Link(_) | Value::Special(_) => Ok(None),
    }
}

/// The deeds of a run.
pub fn deeds_of(replayed: &Option<Replayed>) -> &[Deed]
    ensures { result.now ≡ deeds_of replayed.now }
{
    match replayed {
        Some(replayed) => replayed.deeds.as_slice(),
        None => &[],
    }
}

// Whether outcomes end well, with failure, or undecided.
#[tactic(auto, unfolding(crate::specs::GroupTexts::way_words))]
fn way_words(ending: Ending) -> &'static [u8]
    ensures { result.now ≡ way_words ending }
{
    match ending {
        Ending::Done(_) => b": ends well; the package is left ",
        Ending::Failed(_) => b": failure; the package is left ",
        Ending::Incomplete(_, _) | Ending::Bound(_) => b": undecided: ",
    }
}

// In which state the package is left, or why that is undecided.
#[tactic(auto, unfolding(crate::specs::GroupTexts::why_words))]
fn why_words(ending: Ending) -> &'static [u8]
    ensures { result.now ≡ why_words ending }
{
    match ending {
        Ending::Done(state) => state_words(state),
        Ending::Failed(state) => state_words(state),
        Ending::Incomplete(reason, _) => reason_words(reason),
        Ending::Bound(_) => b"a loop takes more turns than it is given",
    }
}

/// Adds how outcomes end.
pub fn put_ending(text: &mut Bytes, ending: Ending) -> Result<(), Memory>
    ensures { OnOk result (text.new ≡ text.old ++ ending_words ending) }
{
    text.extend(way_words(ending))?;
    text.extend(why_words(ending))
}

// Adds the first line of a group: where its outcomes end, how, and how many there are.
#[tactic(auto, unfolding(crate::specs::GroupTexts::group_head))]
fn put_group_head(
    text: &mut Bytes,
    sources: &Sources,
    spot: Spot,
    ending: Ending,
    count: u64,
) -> Result<(), Memory>
    ensures { OnOk result (text.new ≡ text.old ++ group_head sources.now spot ending count) }
{
    put_spot(text, sources, spot)?;
    put_ending(text, ending)?;
    text.extend(b" (")?;
    put_counted(text, count)?;
    text.extend(b")\n")
}

// Whether a command has no meaning here.
fn is_call(reason: Reason) -> bool
    ensures { result ≡ is_call reason }
{
    match reason {
        Reason::Call => true,
        Reason::Echo | Reason::Link | Reason::Slash | Reason::Root => false,
        Reason::Empty | Reason::DotDot | Reason::Dot | Reason::Long => false,
        Reason::Glob | Reason::Pattern | Reason::Pipe | Reason::Message => false,
        Reason::Strict | Reason::Status | Reason::Run => false,
        Reason::Same | Reason::Conffile | Reason::Restore => false,
    }
}

// Adds base lines that say how the calls of a command end.
#[tactic(auto, unfolding(crate::specs::GroupTexts::call_lines))]
fn put_call_lines(text: &mut Bytes, name: &[u8]) -> Result<(), Memory>
    ensures { OnOk result (text.new ≡ text.old ++ call_lines name.now) }
{
    text.extend(b"a base line `call ")?;
    text.extend(name)?;
    text.extend(b" ok` or `call ")?;
    text.extend(name)?;
    text.extend(b" fails`, where it is true and the command changes no file that matters")
}

// Adds that no base line says that of a command, and which lines may help.
#[tactic(auto, unfolding(crate::specs::GroupTexts::kept_lines))]
fn put_kept_lines(text: &mut Bytes, name: &[u8]) -> Result<(), Memory>
    ensures { OnOk result (text.new ≡ text.old ++ kept_lines name.now) }
{
    text.extend(b"calls of ")?;
    push_shown(text, name)?;
    text.extend(
        b" cannot be stated (docs/FORMATS.md has the uses with a meaning); base lines on what stands at the places above may keep runs from here",
    )
}

// Adds what would decide a place of which a command without a meaning begins with this word.
#[tactic(auto, unfolding(crate::specs::GroupTexts::call_settled))]
fn put_call_settled(text: &mut Bytes, word: &[u8]) -> Result<(), Memory>
    ensures { OnOk result (text.new ≡ text.old ++ call_settled word.now) }
{
    if is_plain_name(word) {
        return put_call_lines(text, word);
    }
    if is_kept_word(word) {
        return put_kept_lines(text, word);
    }
    text.extend(settling_words(Reason::Call))
}

// Adds what would decide a place whose command begins with this word.
#[tactic(auto, unfolding(crate::specs::GroupTexts::reason_settled))]
fn put_reason_settled(text: &mut Bytes, word: &[u8], reason: Reason) -> Result<(), Memory>
    ensures { OnOk result (text.new ≡ text.old ++ reason_settled word.now reason) }
{
    if is_call(reason) {
        return put_call_settled(text, word);
    }
    text.extend(settling_words(reason))
}

// Adds what would decide it.
#[tactic(auto, unfolding(crate::specs::GroupTexts::settled_by))]
fn put_settled_by(text: &mut Bytes, word: &[u8], ending: Ending) -> Result<(), Memory>
    ensures { OnOk result (text.new ≡ text.old ++ settled_by word.now ending) }
{
    match ending {
        Ending::Done(_) | Ending::Failed(_) => Ok(()),
        Ending::Incomplete(reason, _) => put_reason_settled(text, word, reason),
        Ending::Bound(_) => text.extend(b"more turns (--turns)"),
    }
}

// Whether something is to be decided.
fn is_open(ending: Ending) -> bool
    ensures { result ≡ is_open ending }
{
    ending_verdict(ending) == 2
}

// Adds what would decide it, as a line behind a title.
#[tactic(auto, unfolding(crate::specs::GroupTexts::titled_settled))]
fn put_settled(text: &mut Bytes, title: &[u8], word: &[u8], ending: Ending) -> Result<(), Memory>
    ensures { OnOk result (text.new ≡ text.old ++ titled_settled title.now word.now ending) }
{
    text.extend(title)?;
    put_settled_by(text, word, ending)?;
    text.extend(b"\n")
}

/// Adds what would decide it, as a line, unless nothing is to be decided.
#[tactic(auto, unfolding(crate::specs::GroupTexts::settling_line))]
pub fn put_settling(text: &mut Bytes, word: &[u8], ending: Ending) -> Result<(), Memory>
    ensures { OnOk result (text.new ≡ text.old ++ settling_line word.now ending) }
{
    if is_open(ending) {
        return put_settled(text, b"  What would decide it: ", word, ending);
    }
    Ok(())
}

// Adds what is done in the step of a place, where it has a site.
#[tactic(auto, unfolding(crate::specs::GroupTexts::way_text))]
fn put_way(
    text: &mut Bytes,
    sources: &Sources,
    spot: Spot,
    site: Option<Site>,
    entry: &ReportEntry,
    deeds: &[Deed],
) -> Result<(), Memory>
    ensures { OnOk result (text.new ≡ text.old ++ way_text sources.now spot site entry.now deeds.now) }
{
    match site {
        Some(site) => put_acts(
            text,
            sources,
            spot,
            site,
            entry.outcome.trace.as_slice(),
            deeds,
        ),
        None => Ok(()),
    }
}

// Adds the line before the calls.
#[tactic(auto, unfolding(crate::specs::GroupTexts::way_head))]
fn put_way_head(text: &mut Bytes, number: u32) -> Result<(), Memory>
    ensures { OnOk result (text.new ≡ text.old ++ way_head number) }
{
    put_numbered(
        text,
        b"  How the run comes there (outcome ",
        number,
        b"):\n",
    )
}

// Adds what a run makes of a tree, with the places marked that decide.
#[tactic(auto, unfolding(crate::specs::GroupTexts::change_list))]
fn put_change_list(
    alloc: Global,
    text: &mut Bytes,
    boxes: &[FactBox],
    before: &Value,
    after: &Value,
) -> Result<(), Memory>
    ensures { OnOk result (text.new ≡ text.old ++ change_list boxes.now before.now after.now) }
{
    put_changed(
        alloc,
        text,
        b"  One such system, and what the run makes of it (- taken away, ~ changed, + made, <-- told above):\n",
        boxes,
        before,
        after,
    )
}

// Adds how the whole of an outcome is shown, by its number.
#[tactic(auto, unfolding(crate::specs::GroupTexts::whole_hint))]
fn put_whole_hint(text: &mut Bytes, number: u32) -> Result<(), Memory>
    ensures { OnOk result (text.new ≡ text.old ++ whole_hint number) }
{
    put_numbered(
        text,
        b"      (each place, and each act: --outcome ",
        number,
        b")\n",
    )
}

// Adds the shell lines that make a tree, behind a title.
#[tactic(auto, unfolding(crate::specs::GroupTexts::titled_lines))]
fn put_making(alloc: Global, text: &mut Bytes, title: &[u8], tree: &Value) -> Result<(), Memory>
    ensures { OnOk result (text.new ≡ text.old ++ titled_lines title.now tree.now) }
{
    text.extend(title)?;
    put_shell_lines(alloc, text, tree)
}

// Adds the shell lines that make a tree.
#[tactic(auto, unfolding(crate::specs::GroupTexts::making_lines))]
fn put_making_lines(alloc: Global, text: &mut Bytes, tree: &Value) -> Result<(), Memory>
    ensures { OnOk result (text.new ≡ text.old ++ making_lines tree.now) }
{
    put_making(
        alloc,
        text,
        b"  Shell lines that make it in an empty folder, whose path is in root:\n",
        tree,
    )
}

// Adds how these lines are shown.
#[tactic(auto, unfolding(crate::specs::GroupTexts::making_hint))]
fn put_making_hint(text: &mut Bytes, number: u32) -> Result<(), Memory>
    ensures { OnOk result (text.new ≡ text.old ++ making_hint number) }
{
    put_numbered(
        text,
        b"  Shell lines that make it: --outcome ",
        number,
        b"\n",
    )
}

// Whether a tree has few places.
fn is_small(alloc: Global, tree: &Value) -> Result<bool, Memory>
    ensures { IfOk result (λ is. is ≡ is_small tree.now) }
{
    let places = tree_places(alloc, tree)?;
    Ok(places.len() <= 40)
}

// Adds the shell lines that make a small tree; of a larger one, how they are shown.
#[tactic(auto, unfolding(crate::specs::GroupTexts::making_text))]
fn put_making_text(alloc: Global, text: &mut Bytes, number: u32, tree: &Value) -> Result<(), Memory>
    ensures { OnOk result (text.new ≡ text.old ++ making_text number tree.now) }
{
    let is = is_small(alloc, tree)?;
    if is {
        return put_making_lines(alloc, text, tree);
    }
    put_making_hint(text, number)
}

// Adds how the run comes to a place, from the tree that an outcome shows, and what it changes of that.
#[tactic(auto, unfolding(crate::specs::GroupTexts::example_text))]
fn put_example(
    alloc: Global,
    text: &mut Bytes,
    sources: &Sources,
    spot: Spot,
    site: Option<Site>,
    boxes: &[FactBox],
    entry: &ReportEntry,
    deeds: &[Deed],
) -> Result<(), Memory>
    ensures { OnOk result (text.new ≡ text.old ++ example_text sources.now spot site boxes.now entry.now deeds.now) }
{
    put_way_head(text, entry.outcome.number)?;
    put_calls(text, entry.replayed.calls.as_slice())?;
    put_way(text, sources, spot, site, entry, deeds)?;
    put_change_list(
        alloc,
        text,
        boxes,
        &entry.outcome.shown,
        &entry.replayed.after,
    )?;
    put_whole_hint(text, entry.outcome.number)?;
    put_making_text(alloc, text, entry.outcome.number, &entry.outcome.shown)
}

/// How a scenario ends in the outcomes of a group: 1 where they failed, 2 where they are undecided, else 0.
pub fn has_verdict(verdict: u8, group: &Group) -> bool
    ensures { result ≡ has_verdict verdict group.now }
{
    ending_verdict(group.end.ending) == verdict
}

// Adds how an outcome comes to a place.
fn put_story(
    alloc: Global,
    text: &mut Bytes,
    sources: &Sources,
    job: &Job,
    spot: Spot,
    site: Option<Site>,
    boxes: &[FactBox],
    entry: &ReportEntry,
) -> Result<(), Memory>
    ensures { OnOk result
        (text.new ≡ text.old ++ story_text sources.now (scenario_run job.now) spot site boxes.now entry.now) }
{
    let replayed = shown_run(alloc, job, &entry.outcome.shown)?;
    put_example(
        alloc,
        text,
        sources,
        spot,
        site,
        boxes,
        entry,
        deeds_of(&replayed),
    )
}

// Adds how one of the outcomes of a group comes to its place; of outcomes that are done nothing.
#[tactic(auto, unfolding(crate::specs::GroupTexts::first_text))]
fn put_first(
    alloc: Global,
    text: &mut Bytes,
    sources: &Sources,
    job: &Job,
    spot: Spot,
    group: &Group,
    entries: &[ReportEntry],
) -> Result<(), Memory>
    ensures { OnOk result
        (text.new ≡ text.old ++ first_text sources.now (scenario_run job.now) spot group.now entries.now) }
{
    if has_verdict(0, group) {
        return Ok(());
    }
    match first_entry(group.members.as_slice(), entries) {
        Some(entry) => put_story(
            alloc,
            text,
            sources,
            job,
            spot,
            group.end.site,
            group.boxes.as_slice(),
            entry,
        ),
        None => Ok(()),
    }
}

/// The outcome at the first of these places.
pub fn first_entry<'a>(members: &[usize], entries: &'a [ReportEntry]) -> Option<&'a ReportEntry>
    ensures { option_copied result ≡ first_entry members.now entries.now }
{
    match members {
        [] => None,
        [first, ..] => entries.get(*first),
    }
}

/// Adds the first line of a group.
pub fn put_group_title(
    text: &mut Bytes,
    sources: &Sources,
    scenario: Scenario,
    group: &Group,
) -> Result<(), Memory>
    ensures { OnOk result (text.new ≡ text.old ++ group_title sources.now scenario group.now) }
{
    put_group_head(
        text,
        sources,
        spot_of(scenario, group.end.site),
        group.end.ending,
        group.members.len() as u64,
    )
}

/// Adds what stands below it.
#[tactic(auto, unfolding(crate::specs::GroupTexts::group_body))]
pub fn put_group_body(
    alloc: Global,
    text: &mut Bytes,
    sources: &Sources,
    job: &Job,
    part: &ReportPart,
    groups: &[Group],
    group: &Group,
) -> Result<(), Memory>
    ensures { OnOk result
        (text.new ≡ text.old ++ group_body sources.now (scenario_run job.now) part.now groups.now group.now) }
{
    let spot = spot_of(part.scenario, group.end.site);
    put_written(alloc, text, sources, spot)?;
    put_told(alloc, text, group.exactly, group.boxes.as_slice())?;
    let word = word_of(sources, part.scenario, group);
    put_settling(text, word, group.end.ending)?;
    put_first(
        alloc,
        text,
        sources,
        job,
        spot,
        group,
        part.entries.as_slice(),
    )?;
    put_all_further(alloc, text, sources, part.scenario, group, groups)
}

// Adds a group.
#[tactic(auto, unfolding(crate::specs::GroupTexts::group_text))]
fn put_group(
    alloc: Global,
    text: &mut Bytes,
    sources: &Sources,
    job: &Job,
    part: &ReportPart,
    groups: &[Group],
    group: &Group,
) -> Result<(), Memory>
    ensures { OnOk result
        (text.new ≡ text.old ++ group_text sources.now (scenario_run job.now) part.now groups.now group.now) }
{
    text.extend(b"\n")?;
    put_group_title(text, sources, part.scenario, group)?;
    put_group_body(alloc, text, sources, job, part, groups, group)
}

// Adds a group, if it has this verdict, and is not told together with one that stands before it.
#[tactic(auto, unfolding(crate::specs::GroupTexts::if_verdict))]
fn put_if(
    alloc: Global,
    text: &mut Bytes,
    sources: &Sources,
    job: &Job,
    part: &ReportPart,
    verdict: u8,
    groups: &[Group],
    group: &Group,
) -> Result<(), Memory>
    ensures { OnOk result (text.new ≡ text.old
        ++ if_verdict sources.now (scenario_run job.now) part.now verdict groups.now group.now) }
{
    if has_verdict(verdict, group) && is_first(sources, part.scenario, groups, group) {
        return put_group(alloc, text, sources, job, part, groups, group);
    }
    Ok(())
}

/// Adds the groups that have this verdict.
pub fn put_groups(
    alloc: Global,
    text: &mut Bytes,
    sources: &Sources,
    job: &Job,
    part: &ReportPart,
    verdict: u8,
    groups: &[Group],
) -> Result<(), Memory>
    ensures { OnOk result (text.new ≡ text.old
        ++ flat_map (if_verdict sources.now (scenario_run job.now) part.now verdict groups.now) groups.now) }
{
    for group in groups {
        put_if(alloc, text, sources, job, part, verdict, groups, group)?;
    }
    Ok(())
}

// Adds how a group ends, in a word for editors.
fn severity(ending: Ending) -> &'static [u8]
    ensures { result.now ≡ severity ending }
{
    match ending {
        Ending::Done(_) | Ending::Failed(_) => b": error: ",
        Ending::Incomplete(_, _) | Ending::Bound(_) => b": note: ",
    }
}

// Adds the line of a group's place alone.
#[tactic(auto, unfolding(crate::specs::GroupTexts::place_line))]
fn put_place(
    text: &mut Bytes,
    sources: &Sources,
    scenario: Scenario,
    group: &Group,
) -> Result<(), Memory>
    ensures { OnOk result (text.new ≡ text.old ++ place_line sources.now scenario group.now) }
{
    put_spot(text, sources, spot_of(scenario, group.end.site))?;
    text.extend(severity(group.end.ending))?;
    text.extend(scenario_words(scenario))?;
    put_ending(text, group.end.ending)?;
    text.extend(b" (")?;
    put_counted(text, group.members.len() as u64)?;
    text.extend(b")\n")
}

// Adds the line of a group's place, unless its outcomes are done.
#[tactic(auto, unfolding(crate::specs::GroupTexts::place_unless))]
fn put_place_unless(
    text: &mut Bytes,
    sources: &Sources,
    scenario: Scenario,
    group: &Group,
) -> Result<(), Memory>
    ensures { OnOk result (text.new ≡ text.old ++ place_unless sources.now scenario group.now) }
{
    if has_verdict(0, group) {
        return Ok(());
    }
    put_place(text, sources, scenario, group)
}

/// Adds a line for each place at which outcomes end that are not done.
pub fn put_places(
    text: &mut Bytes,
    sources: &Sources,
    scenario: Scenario,
    groups: &[Group],
) -> Result<(), Memory>
    ensures { OnOk result (text.new ≡ text.old ++ flat_map (place_unless sources.now scenario) groups.now) }
{
    for group in groups {
        put_place_unless(text, sources, scenario, group)?;
    }
    Ok(())
}
