// Which stated commands the scripts name.
ghost use Rattle.std.specs.Prelude.{◌≡◌, ◌++◌, IfOk, OnOk};
ghost use Rattle.std.specs.List.{flat_map};
ghost use Rattle.explanation.specs.StatedTexts.{all_words, around_path, end_text, named_line, some_named, named_text, named_texts};
ghost use Rattle.explanation.specs.StatedTexts.{script_words, side_words, stated_line, stated_text};

use crate::scripts::script_text;
use crate::text_words::{is_named, unquoted};
use checker_input::Sources;
use dpkg_scenarios::{ScriptKind, Side};
use script_names::{Bytes, Memory, Name};
use script_places::first_words;
use shown_texts::{push_path, push_shown};
use std::alloc::Global;
use utility_calls::{CallEnd, StatedCall};

// Adds the words of a script with which commands can begin, without quotes, in lines of their own.
#[tactic(auto, unfolding(crate::specs::StatedTexts::script_words))]
fn put_script_words(
    alloc: Global,
    words: &mut Bytes,
    sources: &Sources,
    side: Side,
    script: ScriptKind,
) -> Result<(), Memory>
    ensures { OnOk result (words.new ≡ words.old ++ script_words sources.now side script) }
{
    let first = first_words(alloc, script_text(sources, side, script))?;
    let text = unquoted(alloc, first.as_slice())?;
    words.extend(text.as_slice())?;
    words.extend(b"\n")
}

// Adds those of the scripts of a package.
#[tactic(auto, unfolding(crate::specs::StatedTexts::side_words))]
fn put_side_words(
    alloc: Global,
    words: &mut Bytes,
    sources: &Sources,
    side: Side,
) -> Result<(), Memory>
    ensures { OnOk result (words.new ≡ words.old ++ side_words sources.now side) }
{
    put_script_words(alloc, words, sources, side, ScriptKind::Preinst)?;
    put_script_words(alloc, words, sources, side, ScriptKind::Postinst)?;
    put_script_words(alloc, words, sources, side, ScriptKind::Prerm)?;
    put_script_words(alloc, words, sources, side, ScriptKind::Postrm)
}

// Those of all scripts.
#[tactic(auto, unfolding(crate::specs::StatedTexts::all_words))]
fn all_words(alloc: Global, sources: &Sources) -> Result<Bytes, Memory>
    ensures { IfOk result (λ words. words ≡ all_words sources.now) }
{
    let mut words = Bytes::new(alloc);
    put_side_words(alloc, &mut words, sources, Side::New)?;
    put_side_words(alloc, &mut words, sources, Side::Old)?;
    Ok(words)
}

// Adds a path between texts.
#[tactic(auto, unfolding(crate::specs::StatedTexts::around_path))]
fn put_around(text: &mut Bytes, before: &[u8], path: &[Name], behind: &[u8]) -> Result<(), Memory>
    ensures { OnOk result (text.new ≡ text.old ++ around_path before.now path.now behind.now) }
{
    text.extend(before)?;
    push_path(text, path)?;
    text.extend(behind)
}

// Adds how the calls of a command end that are not stated to succeed.
fn put_end(text: &mut Bytes, end: &CallEnd) -> Result<(), Memory>
    ensures { OnOk result (text.new ≡ text.old ++ end_text end.now) }
{
    match end {
        CallEnd::Succeeds => Ok(()),
        CallEnd::Fails => text.extend(b" (fails)"),
        CallEnd::Asks(path) => put_around(
            text,
            b" (asks ",
            path.names(),
            b": succeeds where something stands at this place, which is its answer)",
        ),
    }
}

// Adds the name of a stated command, and how its calls end.
#[tactic(auto, unfolding(crate::specs::StatedTexts::stated_text))]
fn put_stated(text: &mut Bytes, stated: &StatedCall) -> Result<(), Memory>
    ensures { OnOk result (text.new ≡ text.old ++ stated_text stated.now) }
{
    text.extend(b" ")?;
    push_shown(text, stated.name.as_slice())?;
    put_end(text, &stated.end)
}

// Adds the same, where the name stands in a text.
#[tactic(auto, unfolding(crate::specs::StatedTexts::named_text))]
fn put_named(text: &mut Bytes, words: &[u8], stated: &StatedCall) -> Result<(), Memory>
    ensures { OnOk result (text.new ≡ text.old ++ named_text words.now stated.now) }
{
    if is_named(stated.name.as_slice(), words) {
        return put_stated(text, stated);
    }
    Ok(())
}

// Those that stand in a text.
fn named_texts(alloc: Global, words: &[u8], calls: &[StatedCall]) -> Result<Bytes, Memory>
    ensures { IfOk result (λ names. names ≡ named_texts words.now calls.now) }
{
    let mut names = Bytes::new(alloc);
    for stated in calls {
        put_named(&mut names, words, stated)?;
    }
    Ok(names)
}

// Adds that there are some.
fn put_some_named(text: &mut Bytes, names: &[u8]) -> Result<(), Memory>
    ensures { OnOk result (text.new ≡ text.old ++ some_named names.now) }
{
    text.extend(b"  Stated commands that the scripts name:")?;
    text.extend(names)?;
    text.extend(b"\n")
}

// Adds a line of them, or that there are none.
#[tactic(auto, unfolding(crate::specs::StatedTexts::named_line))]
fn put_named_line(text: &mut Bytes, names: &[u8]) -> Result<(), Memory>
    ensures { OnOk result (text.new ≡ text.old ++ named_line names.now) }
{
    if names.len() == 0 {
        return text.extend(b"  The scripts name no stated command.\n");
    }
    put_some_named(text, names)
}

/// Adds which stated commands the scripts name, where commands are stated.
#[tactic(auto, unfolding(crate::specs::StatedTexts::stated_line))]
pub fn put_stated_line(
    alloc: Global,
    text: &mut Bytes,
    sources: &Sources,
    calls: &[StatedCall],
) -> Result<(), Memory>
    ensures { OnOk result (text.new ≡ text.old ++ stated_line sources.now calls.now) }
{
    if calls.len() == 0 {
        return Ok(());
    }
    let words = all_words(alloc, sources)?;
    let names = named_texts(alloc, words.as_slice(), calls)?;
    put_named_line(text, names.as_slice())
}
