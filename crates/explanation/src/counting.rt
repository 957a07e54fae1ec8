// How many outcomes end in each way.
ghost use Rattle.std.specs.Prelude.{◌≡◌, ◌+◌, ◌-◌, ◌^◌, ◌<◌, ◌++◌, cond, OnOk};
ghost use Rattle.explanation.specs.Counting.{ends_so, count_so, counted_text, numbered_text};

use dpkg_scenarios::ending_verdict;
use outcome_report::ReportEntry;
use script_names::{Bytes, Memory};
use shown_texts::push_number;

// Whether the outcome of an entry has this verdict.
fn ends_so(verdict: u8, entry: &ReportEntry) -> bool
    ensures { result ≡ ends_so verdict entry.now }
{
    ending_verdict(entry.outcome.ending) == verdict
}

// One more where this is set.
fn one_more(count: u64, counts: bool) -> u64
    requires { count < 2 ^ 64 - 1 }
    ensures { result ≡ count + cond counts 1 0 }
{
    if counts { count + 1 } else { count }
}

/// How many outcomes have this verdict.
pub fn count_so(verdict: u8, entries: &[ReportEntry]) -> u64
    ensures { result ≡ count_so verdict entries.now }
{
    let mut found = 0;
    for entry in entries {
        found = one_more(found, ends_so(verdict, entry));
    }
    found
}

/// Adds a number of outcomes.
#[tactic(auto, unfolding(crate::specs::Counting::counted_text))]
pub fn put_counted(text: &mut Bytes, count: u64) -> Result<(), Memory>
    ensures { OnOk result (text.new ≡ text.old ++ counted_text count) }
{
    if count == 1 {
        return text.extend(b"1 outcome");
    }
    push_number(text, count)?;
    text.extend(b" outcomes")
}

/// Adds a number between texts.
#[tactic(auto, unfolding(crate::specs::Counting::numbered_text))]
pub fn put_numbered(
    text: &mut Bytes,
    before: &[u8],
    number: u32,
    behind: &[u8],
) -> Result<(), Memory>
    ensures { OnOk result (text.new ≡ text.old ++ numbered_text before.now number behind.now) }
{
    text.extend(before)?;
    push_number(text, u64::from(number))?;
    text.extend(behind)
}
