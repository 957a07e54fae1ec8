// That bytes are bytes, and that the numbers of sites, marks and endings fit their types, said of values of these
// types. These calls change nothing.
ghost use Rattle.std.specs.Prelude.{IsTrue};
ghost use Rattle.std.specs.List.{list_all};
ghost use Rattle.shown_texts.specs.Marks.{is_site, is_mark};
ghost use Rattle.shown_texts.specs.Show.{are_bytes};
ghost use Rattle.report_text.specs.PieceRead.{is_ending, is_call};

use dpkg_scenarios::Ending;
use scenario_runs::ScriptCall;
use script_names::{Bytes, Mark, Site};

/// The bytes of a slice are bytes.
pub(crate) fn are_bytes(bytes: &[u8])
    ensures { IsTrue (are_bytes bytes.now) }
{
    let _first = bytes.first();
}

// The numbers of a site fit.
fn is_site(site: &Site)
    ensures { IsTrue (is_site site.now) }
{
    let _step = site.step;
    let _at = site.at;
}

// The numbers of a mark fit.
fn is_mark(mark: &Mark)
    ensures { IsTrue (is_mark mark.now) }
{
    is_site(&mark.site);
    let _row = mark.row;
}

/// The numbers of marks fit. The call changes nothing.
pub fn are_representable_marks(marks: &[Mark])
    ensures { IsTrue (list_all is_mark marks.now) }
{
    let mut left = marks;
    while let [mark, rest @ ..] = left {
        is_mark(mark);
        left = rest;
    }
}

/// The numbers of an ending's site fit. The call changes nothing.
pub fn is_representable_ending(ending: &Ending)
    ensures { IsTrue (is_ending ending.now) }
{
    match ending {
        Ending::Done(_) | Ending::Failed(_) => {}
        Ending::Incomplete(_, site) => is_site(site),
        Ending::Bound(site) => is_site(site),
    }
}

// Words are of bytes.
fn are_words(words: &[Bytes])
    ensures { IsTrue (list_all are_bytes words.now) }
{
    let mut left = words;
    while let [word, rest @ ..] = left {
        are_bytes(word.as_slice());
        left = rest;
    }
}

/// The words of a call are of bytes. The call changes nothing.
pub fn is_representable_call(call: &ScriptCall)
    ensures { IsTrue (is_call call.now) }
{
    are_words(call.words.as_slice());
}

/// The words of calls are of bytes.
pub(crate) fn are_calls(calls: &[ScriptCall])
    ensures { IsTrue (list_all is_call calls.now) }
{
    let mut left = calls;
    while let [call, rest @ ..] = left {
        is_representable_call(call);
        left = rest;
    }
}
