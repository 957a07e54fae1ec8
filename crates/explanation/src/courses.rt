// How a run comes to a place: the scripts that are called, and what is done in the step of the place.
ghost use Rattle.std.specs.Prelude.{◌≡◌, ◌++◌, drop, OnOk};
ghost use Rattle.std.specs.List.{flat_map};
ghost use Rattle.std.specs.Option.{option_copied};
ghost use Rattle.explanation.specs.Courses.{word_text, end_words, call_line, further_path, is_stated, done_name, done_text, spot_in};
ghost use Rattle.explanation.specs.Courses.{deed_text, line_number};
ghost use Rattle.explanation.specs.Courses.{act_line, is_told, told_act, acts_text};

use crate::scripts::script_text;
use crate::spots::Spot;
use crate::text_words::{is_plain_name, word_at};
use checker_input::Sources;
use scenario_runs::{CallEnd, ScriptCall};
use script_names::{Bytes, Mark, Memory, Path, Site};
use script_places::{
    act_name, back_name, back_row_words, deed_of_mark, position_of, row_words, script_words,
};
use shown_texts::{push_number, push_path, push_shown};
use utility_calls::acts::Act;
use utility_calls::deeds::Deed;
use utility_calls::same_names;

// Adds a word of a call.
fn put_word(text: &mut Bytes, word: &Bytes) -> Result<(), Memory>
    ensures { OnOk result (text.new ≡ text.old ++ word_text word.now) }
{
    if word.len() == 0 {
        return text.extend(b" \"\"");
    }
    text.extend(b" ")?;
    push_shown(text, word.as_slice())
}

// Adds the words of a call.
fn put_words(text: &mut Bytes, words: &[Bytes]) -> Result<(), Memory>
    ensures { OnOk result (text.new ≡ text.old ++ flat_map word_text words.now) }
{
    for word in words {
        put_word(text, word)?;
    }
    Ok(())
}

// How a call ends.
fn end_words(how: CallEnd) -> &'static [u8]
    ensures { result.now ≡ end_words how }
{
    match how {
        CallEnd::Ok => b"succeeds",
        CallEnd::Failed => b"FAILS",
        CallEnd::Ended => b"is undecided",
    }
}

// Adds the line of a call.
#[tactic(auto, unfolding(crate::specs::Courses::call_line))]
fn put_call(text: &mut Bytes, call: &ScriptCall) -> Result<(), Memory>
    ensures { OnOk result (text.new ≡ text.old ++ call_line call.now) }
{
    text.extend(b"      ")?;
    text.extend(script_words(call.side, call.script))?;
    put_words(text, call.words.as_slice())?;
    text.extend(b": ")?;
    text.extend(end_words(call.how))?;
    text.extend(b"\n")
}

/// Adds the lines of calls.
pub fn put_calls(text: &mut Bytes, calls: &[ScriptCall]) -> Result<(), Memory>
    ensures { OnOk result (text.new ≡ text.old ++ flat_map call_line calls.now) }
{
    for call in calls {
        put_call(text, call)?;
    }
    Ok(())
}

// Adds a further path, where it is another one.
#[tactic(auto, unfolding(crate::specs::Courses::further_path))]
fn put_further_path(text: &mut Bytes, path: &Path, other: &Path) -> Result<(), Memory>
    ensures { OnOk result (text.new ≡ text.old ++ further_path path.now.names other.now.names) }
{
    if same_names(path.names(), other.names()) {
        return Ok(());
    }
    text.extend(b" ")?;
    push_path(text, other.names())
}

// Whether an act is the question of a command whose calls a base states.
fn is_stated(word: &[u8], act: &Act) -> bool
    ensures { result ≡ is_stated word.now act.now }
{
    act_name(act) == b"test -e".as_slice() && is_plain_name(word) && word != b"command".as_slice()
}

// Adds what is done.
fn put_done_name(text: &mut Bytes, word: &[u8], act: &Act) -> Result<(), Memory>
    ensures { OnOk result (text.new ≡ text.old ++ done_name word.now act.now) }
{
    if is_stated(word, act) {
        text.extend(word)?;
        return text.extend(b" asks");
    }
    text.extend(act_name(act))
}

// Adds where something was done, with the words of its row.
fn put_done(text: &mut Bytes, path: &Path, other: &Path, words: &[u8]) -> Result<(), Memory>
    ensures { OnOk result
        (text.new ≡ text.old ++ done_text path.now.names other.now.names words.now) }
{
    text.extend(b" ")?;
    push_path(text, path.names())?;
    put_further_path(text, path, other)?;
    text.extend(b": ")?;
    text.extend(words)
}

/// Adds a deed of the command with this first word, by its row.
pub fn put_deed(text: &mut Bytes, word: &[u8], deed: &Deed, row: u8) -> Result<(), Memory>
    ensures { OnOk result (text.new ≡ text.old ++ deed_text word.now deed.now row) }
{
    match deed {
        Deed::Does(act) => {
            put_done_name(text, word, act)?;
            put_done(text, act.path(), act.place(), row_words(act, row))
        }
        Deed::Returns(back) => {
            text.extend(back_name(back))?;
            put_done(text, back.path(), back.path(), back_row_words(back, row))
        }
        Deed::Keeps => Ok(()),
    }
}

// A further place in the script of a place, or in none.
fn spot_in(spot: Spot, at: u32) -> Spot
    ensures { result ≡ spot_in spot at }
{
    match spot {
        Spot::InScript { side, script, .. } => Spot::InScript { side, script, at },
        Spot::InFiles { .. } | Spot::Nowhere => Spot::Nowhere,
    }
}

// Adds the number of the line of a byte of a script, in a script.
fn put_line_number(text: &mut Bytes, sources: &Sources, spot: Spot, at: u32) -> Result<(), Memory>
    ensures { OnOk result (text.new ≡ text.old ++ line_number sources.now spot at) }
{
    match spot {
        Spot::InScript { side, script, .. } => {
            let place = position_of(script_text(sources, side, script), at as usize);
            text.extend(script_words(side, script))?;
            text.extend(b", line ")?;
            push_number(text, place.line as u64)?;
            text.extend(b": ")
        }
        Spot::InFiles { .. } | Spot::Nowhere => Ok(()),
    }
}

// Adds the line of a deed of the step in which a place is.
#[tactic(auto, unfolding(crate::specs::Courses::act_line))]
fn put_act(
    text: &mut Bytes,
    sources: &Sources,
    spot: Spot,
    mark: Mark,
    deed: &Deed,
) -> Result<(), Memory>
    ensures { OnOk result (text.new ≡ text.old ++ act_line sources.now spot mark deed.now) }
{
    text.extend(b"        ")?;
    put_line_number(text, sources, spot, mark.site.at)?;
    let word = word_at(sources, spot_in(spot, mark.site.at));
    put_deed(text, word, deed, mark.row)?;
    text.extend(b"\n")
}

// Whether a mark is told at a place: all of its step in a script, and among acts on files that of the place alone.
fn is_told(spot: Spot, site: Site, mark: Mark) -> bool
    ensures { result ≡ is_told spot site mark }
{
    match spot {
        Spot::InScript { .. } => mark.site.step == site.step,
        Spot::InFiles { .. } => mark.site.step == site.step && mark.site.at == site.at,
        Spot::Nowhere => false,
    }
}

// Adds the line of a mark, where it is told.
fn put_told(
    text: &mut Bytes,
    sources: &Sources,
    spot: Spot,
    site: Site,
    mark: Mark,
    deed: Option<&Deed>,
) -> Result<(), Memory>
    ensures { OnOk result (text.new ≡ text.old ++ told_act sources.now spot site mark (option_copied deed.entry)) }
{
    if !is_told(spot, site, mark) {
        return Ok(());
    }
    match deed {
        Some(deed) => put_act(text, sources, spot, mark, deed),
        None => Ok(()),
    }
}

/// Adds what is done in the step of a place.
pub fn put_acts(
    text: &mut Bytes,
    sources: &Sources,
    spot: Spot,
    site: Site,
    trace: &[Mark],
    deeds: &[Deed],
) -> Result<(), Memory>
    ensures { OnOk result (text.new ≡ text.old ++ acts_text sources.now spot site deeds.now 0 trace.now) }
{
    for (i, mark) in trace.iter().enumerate() {
        put_told(text, sources, spot, site, *mark, deed_of_mark(deeds, i))?;
    }
    Ok(())
}
