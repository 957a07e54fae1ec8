ghost use Rattle.std.specs.Prelude.{◌≡◌, ◌≤◌, ◌-◌, [], length, take, IfOk, IfSome, Some};
ghost use Rattle.std.specs.Option.{option_copied};
ghost use Rattle.outcome_groups.specs.Ends.{begin_alike, end_of, end_site, failed_call, is_call, is_failed, last_site};
ghost use Rattle.outcome_groups.specs.Ends.{makes, reason_number, same_end, same_ending, same_option, same_script};
ghost use Rattle.outcome_groups.specs.Ends.{same_side, same_site, speaks, state_number, up_to_call, up_to_end};
ghost use Rattle.outcome_groups.specs.Ends.{alike_ending, any_said, end_alike, filled_alike, same_step, up_to_failure};
ghost use Rattle.script_names.specs.Paths.{is_filled};

use dpkg_scenarios::{
    Ending, Said, Scenario, ScriptKind, Side, State, StepWork, call_words, work_at,
};
use outcome_report::ReportEntry;
use scenario_runs::{CallEnd, ScriptCall};
use script_names::{Bytes, Copied, List, Mark, Memory, Reason, Site};
use std::alloc::Global;

/// How the outcomes of a group end, and where: for a failure the site of the last mark of the step whose call failed
/// first, if it has any; where no call failed, that of the last mark. An outcome that is done has no site.
#[derive(Clone, Copy, Debug, PartialEq, Eq)]
pub struct GroupEnd {
    pub ending: Ending,
    pub site: Option<Site>,
}

impl Copied for GroupEnd {
    fn copy(&self, _alloc: Global) -> Result<GroupEnd, Memory> {
        Ok(*self)
    }
}

/// Whether both are the same package.
pub fn same_side(a: Side, b: Side) -> bool
    ensures { result ≡ same_side a b }
{
    match (a, b) {
        (Side::New, Side::New) => true,
        (Side::Old, Side::Old) => true,
        (Side::New, Side::Old) => false,
        (Side::Old, Side::New) => false,
    }
}

/// Whether both are the same script.
pub fn same_script(a: ScriptKind, b: ScriptKind) -> bool
    ensures { result ≡ same_script a b }
{
    match a {
        ScriptKind::Preinst => match b {
            ScriptKind::Preinst => true,
            ScriptKind::Postinst | ScriptKind::Prerm | ScriptKind::Postrm => false,
        },
        ScriptKind::Postinst => match b {
            ScriptKind::Postinst => true,
            ScriptKind::Preinst | ScriptKind::Prerm | ScriptKind::Postrm => false,
        },
        ScriptKind::Prerm => match b {
            ScriptKind::Prerm => true,
            ScriptKind::Preinst | ScriptKind::Postinst | ScriptKind::Postrm => false,
        },
        ScriptKind::Postrm => match b {
            ScriptKind::Postrm => true,
            ScriptKind::Preinst | ScriptKind::Postinst | ScriptKind::Prerm => false,
        },
    }
}

// What is done is a call of this script.
fn is_call(done: StepWork, call: &ScriptCall) -> bool
    ensures { result ≡ is_call (Some done) call.now }
{
    match done {
        StepWork::Script { side, script } => {
            same_side(side, call.side) && same_script(script, call.script)
        }
        StepWork::Unpack => false,
        StepWork::RemoveFiles => false,
        StepWork::RemoveOld => false,
        StepWork::RemoveConf => false,
        StepWork::Restore => false,
    }
}

// As many words, and the same ones of them are empty.
fn filled_alike(words: &[Bytes], other: &[Bytes]) -> bool
    ensures { result ≡ filled_alike words.now other.now }
{
    let mut words = words;
    let mut other = other;
    while let [word, more @ ..] = words {
        match other {
            [] => return false,
            [another, rest @ ..] => {
                if is_filled(word) != is_filled(another) {
                    return false;
                }
                words = more;
                other = rest;
            }
        }
    }
    other.is_empty()
}

// Whether a word has a byte.
fn is_filled(word: &Bytes) -> bool
    ensures { result ≡ is_filled word.now }
{
    match word.as_slice() {
        [] => false,
        [_, ..] => true,
    }
}

// The same first word, and behind it as many words, of which the same ones are empty.
fn begin_alike(words: &[Bytes], other: &[Bytes]) -> bool
    ensures { result ≡ begin_alike words.now other.now }
{
    match words {
        [] => other.is_empty(),
        [word, more @ ..] => match other {
            [] => false,
            [another, rest @ ..] => {
                word.as_slice() == another.as_slice() && filled_alike(more, rest)
            }
        },
    }
}

// Any versions and any name, which are not empty.
fn any_said(alloc: Global) -> Result<Said, Memory>
    ensures { IfOk result (λ said. said ≡ any_said) }
{
    let old_version = Bytes::from_slice(alloc, b"0")?;
    let new_version = Bytes::from_slice(alloc, b"0")?;
    let new_name = Bytes::from_slice(alloc, b"0")?;
    Ok(Said {
        old_version,
        new_version,
        new_name,
    })
}

// Whether a step of the scenario makes the call.
fn makes(alloc: Global, scenario: Scenario, call: &ScriptCall, step: u16) -> Result<bool, Memory>
    ensures { IfOk result (λ is. is ≡ makes scenario call.now step) }
{
    let done = match work_at(scenario, step) {
        Some(done) => done,
        None => return Ok(false),
    };
    if !is_call(done, call) {
        return Ok(false);
    }
    let said = any_said(alloc)?;
    let words = call_words(alloc, scenario, step, &said)?;
    let alike = begin_alike(words.as_slice(), call.words.as_slice());
    Ok(alike)
}

// The call failed.
fn is_failed(how: CallEnd) -> bool
    ensures { result ≡ is_failed how }
{
    match how {
        CallEnd::Ok => false,
        CallEnd::Failed => true,
        CallEnd::Ended => false,
    }
}

// The first call that failed.
fn failed_call(calls: &[ScriptCall]) -> Option<&ScriptCall>
    ensures { option_copied result ≡ failed_call calls.now }
{
    let mut left = calls;
    while let [call, rest @ ..] = left {
        if is_failed(call.how) {
            return Some(call);
        }
        left = rest;
    }
    None
}

// Whether a step makes the call, where that is known of another step.
fn makes_behind(
    alloc: Global,
    scenario: Scenario,
    call: &ScriptCall,
    known: (u16, bool),
    step: u16,
) -> Result<bool, Memory>
    requires { known.1 ≡ makes scenario call.now known.0 }
    ensures { IfOk result (λ is. is ≡ makes scenario call.now step) }
{
    if step == known.0 {
        return Ok(known.1);
    }
    makes(alloc, scenario, call, step)
}

// How many marks there are up to the last one of a step that makes the call.
fn up_to_call(
    alloc: Global,
    scenario: Scenario,
    call: &ScriptCall,
    trace: &[Mark],
) -> Result<usize, Memory>
    ensures { IfOk result (λ n. n ≡ up_to_call scenario call.now 0 0 trace.now) }
{
    let mut found = 0usize;
    let mut known = (0u16, false);
    for seen in 0usize..trace.len() {
        let step = trace[seen].site.step;
        let is = makes_behind(alloc, scenario, call, known, step)?;
        known = (step, is);
        found = if is { seen + 1 } else { found };
    }
    Ok(found)
}

// How many marks there are up to the one where a failure came.
fn up_to_failure(
    alloc: Global,
    scenario: Scenario,
    calls: &[ScriptCall],
    trace: &[Mark],
) -> Result<usize, Memory>
    ensures { IfOk result (λ n. n ≡ up_to_failure scenario (failed_call calls.now) trace.now) }
{
    match failed_call(calls) {
        None => Ok(trace.len()),
        Some(call) => up_to_call(alloc, scenario, call, trace),
    }
}

/// How many marks there are up to the one where an outcome came to its end.
pub(crate) fn up_to_end(
    alloc: Global,
    scenario: Scenario,
    ending: Ending,
    calls: &[ScriptCall],
    trace: &[Mark],
) -> Result<usize, Memory>
    ensures { IfOk result (λ n. n ≡ up_to_end scenario ending calls.now trace.now) }
{
    match ending {
        Ending::Done(_) => Ok(trace.len()),
        Ending::Failed(_) => up_to_failure(alloc, scenario, calls, trace),
        Ending::Incomplete(_, _) => Ok(trace.len()),
        Ending::Bound(_) => Ok(trace.len()),
    }
}

// The site of the last of so many marks.
fn last_site(n: usize, trace: &[Mark]) -> Option<Site>
    ensures { result ≡ last_site n trace.now }
{
    let marks = match trace.get(..n) {
        Some(marks) => marks,
        None => trace,
    };
    if n == 0 {
        return None;
    }
    match marks.get(n - 1) {
        Some(mark) => Some(mark.site),
        None => None,
    }
}

// The site at which an outcome ends, of which so many marks stand up to its end.
fn end_site(ending: Ending, n: usize, trace: &[Mark]) -> Option<Site>
    ensures { result ≡ end_site ending n trace.now }
{
    match ending {
        Ending::Done(_) => None,
        Ending::Failed(_) => last_site(n, trace),
        Ending::Incomplete(_, site) => Some(site),
        Ending::Bound(site) => Some(site),
    }
}

/// How an entry's outcome ends, and where.
pub fn end_of(alloc: Global, scenario: Scenario, entry: &ReportEntry) -> Result<GroupEnd, Memory>
    ensures { IfOk result (λ end. end ≡ end_of scenario entry.now) }
{
    let ending = entry.outcome.ending;
    let trace = entry.outcome.trace.as_slice();
    let calls = entry.replayed.calls.as_slice();
    let n = up_to_end(alloc, scenario, ending, calls, trace)?;
    Ok(GroupEnd {
        ending,
        site: end_site(ending, n, trace),
    })
}

// A state, numbered.
fn state_number(state: State) -> u8
    ensures { result ≡ state_number state }
{
    match state {
        State::Installed => 0,
        State::Unpacked => 1,
        State::HalfConfigured => 2,
        State::HalfInstalled => 3,
        State::ConfigFiles => 4,
        State::NotInstalled => 5,
    }
}

// A reason, numbered.
fn reason_number(reason: Reason) -> u8
    ensures { result ≡ reason_number reason }
{
    match reason {
        Reason::Call => 0,
        Reason::Echo => 1,
        Reason::Link => 2,
        Reason::Slash => 3,
        Reason::Root => 4,
        Reason::Empty => 5,
        Reason::DotDot => 6,
        Reason::Dot => 7,
        Reason::Long => 8,
        Reason::Glob => 9,
        Reason::Pattern => 10,
        Reason::Pipe => 11,
        Reason::Message => 12,
        Reason::Strict => 13,
        Reason::Status => 14,
        Reason::Run => 15,
        Reason::Same => 16,
        Reason::Conffile => 17,
        Reason::Restore => 18,
    }
}

/// The same site.
pub(crate) fn same_site(a: Site, b: Site) -> bool
    ensures { result ≡ same_site a b }
{
    a.step == b.step && a.at == b.at
}

// The same site, or none.
fn same_option(a: Option<Site>, b: Option<Site>) -> bool
    ensures { result ≡ same_option a b }
{
    match a {
        None => b.is_none(),
        Some(a) => match b {
            None => false,
            Some(b) => same_site(a, b),
        },
    }
}

// The same ending.
fn same_ending(a: Ending, b: Ending) -> bool
    ensures { result ≡ same_ending a b }
{
    match a {
        Ending::Done(s) => match b {
            Ending::Done(t) => state_number(s) == state_number(t),
            Ending::Failed(_) | Ending::Incomplete(_, _) | Ending::Bound(_) => false,
        },
        Ending::Failed(s) => match b {
            Ending::Failed(t) => state_number(s) == state_number(t),
            Ending::Done(_) | Ending::Incomplete(_, _) | Ending::Bound(_) => false,
        },
        Ending::Incomplete(r, x) => match b {
            Ending::Incomplete(q, y) => reason_number(r) == reason_number(q) && same_site(x, y),
            Ending::Done(_) | Ending::Failed(_) | Ending::Bound(_) => false,
        },
        Ending::Bound(x) => match b {
            Ending::Bound(y) => same_site(x, y),
            Ending::Done(_) | Ending::Failed(_) | Ending::Incomplete(_, _) => false,
        },
    }
}

/// Whether outcomes end alike.
pub fn same_end(a: &GroupEnd, b: &GroupEnd) -> bool
    ensures { result ≡ same_end a.now b.now }
{
    same_ending(a.ending, b.ending) && same_option(a.site, b.site)
}

// The same ending, wherever in a script.
fn alike_ending(a: Ending, b: Ending) -> bool
    ensures { result ≡ alike_ending a b }
{
    match a {
        Ending::Done(_) => false,
        Ending::Failed(s) => match b {
            Ending::Failed(t) => state_number(s) == state_number(t),
            Ending::Done(_) | Ending::Incomplete(_, _) | Ending::Bound(_) => false,
        },
        Ending::Incomplete(r, _) => match b {
            Ending::Incomplete(q, _) => reason_number(r) == reason_number(q),
            Ending::Done(_) | Ending::Failed(_) | Ending::Bound(_) => false,
        },
        Ending::Bound(_) => match b {
            Ending::Bound(_) => true,
            Ending::Done(_) | Ending::Failed(_) | Ending::Incomplete(_, _) => false,
        },
    }
}

// Whether both have a site, in the same step.
fn same_step(a: Option<Site>, b: Option<Site>) -> bool
    ensures { result ≡ same_step a b }
{
    match a {
        None => false,
        Some(a) => match b {
            None => false,
            Some(b) => a.step == b.step,
        },
    }
}

/// Whether outcomes end alike in the same step, wherever in it. One that is done ends nowhere.
pub fn end_alike(a: &GroupEnd, b: &GroupEnd) -> bool
    ensures { result ≡ end_alike a.now b.now }
{
    alike_ending(a.ending, b.ending) && same_step(a.site, b.site)
}
