ghost use Rattle.std.specs.Prelude.{◌≡◌, ◌++◌, ◌||◌, OnOk};
ghost use Rattle.script_places.specs.KindWords.{alike_words, all_four, each_word, is_special, kinds_words, none_of_four};
ghost use Rattle.script_places.specs.KindWords.{one_word, or_missing_words, separator, special_words, there_words};

use feature_trees::Kinds;
use script_names::{Bytes, Memory};

/// Adds a set of kinds to a text, in words to be read behind "is".
pub fn push_kinds(text: &mut Bytes, kinds: Kinds) -> Result<(), Memory>
    ensures { OnOk result (text.new ≡ text.old ++ kinds_words kinds) }
{
    if all_four(kinds) {
        return text.extend(alike_words(kinds, true));
    }
    if none_of_four(kinds) {
        return text.extend(alike_words(kinds, false));
    }
    push_each(text, kinds)
}

// Whether all four special kinds are in the set.
fn all_four(kinds: Kinds) -> bool
    ensures { result ≡ all_four kinds }
{
    kinds.fifo && kinds.socket && kinds.block && kinds.char
}

// Whether none of the four special kinds is in the set.
fn none_of_four(kinds: Kinds) -> bool
    ensures { result ≡ none_of_four kinds }
{
    !kinds.fifo && !kinds.socket && !kinds.block && !kinds.char
}

// The words of a set in which the four special kinds are alike.
fn alike_words(kinds: Kinds, special: bool) -> &'static [u8]
    ensures { result.now ≡ alike_words kinds special }
{
    if kinds.absent {
        or_missing_words(kinds.reg, kinds.link, special, kinds.dir)
    } else {
        there_words(kinds.reg, kinds.link, special, kinds.dir)
    }
}

// The words of a set without what is missing.
fn there_words(reg: bool, link: bool, special: bool, dir: bool) -> &'static [u8]
    ensures { result.now ≡ there_words reg link special dir }
{
    match (reg, link, special, dir) {
        (false, false, false, false) => b"nothing that can be",
        (false, false, false, true) => b"a directory",
        (false, false, true, false) => b"a pipe, socket or device",
        (false, false, true, true) => b"a directory, pipe, socket or device",
        (false, true, false, false) => b"a link",
        (false, true, false, true) => b"a link or a directory",
        (false, true, true, false) => b"a link, pipe, socket or device",
        (false, true, true, true) => b"there, and no file",
        (true, false, false, false) => b"a file",
        (true, false, false, true) => b"a file or a directory",
        (true, false, true, false) => b"a file, pipe, socket or device",
        (true, false, true, true) => b"there, and no link",
        (true, true, false, false) => b"a file or a link",
        (true, true, false, true) => b"a file, a link or a directory",
        (true, true, true, false) => b"there, and no directory",
        (true, true, true, true) => b"there",
    }
}

// The words of a set with what is missing.
fn or_missing_words(reg: bool, link: bool, special: bool, dir: bool) -> &'static [u8]
    ensures { result.now ≡ or_missing_words reg link special dir }
{
    match (reg, link, special, dir) {
        (false, false, false, false) => b"missing",
        (false, false, false, true) => b"missing or a directory",
        (false, false, true, false) => b"missing, or a pipe, socket or device",
        (false, false, true, true) => b"missing, or a directory, pipe, socket or device",
        (false, true, false, false) => b"missing or a link",
        (false, true, false, true) => b"missing, a link or a directory",
        (false, true, true, false) => b"missing, or a link, pipe, socket or device",
        (false, true, true, true) => b"no file",
        (true, false, false, false) => b"missing or a file",
        (true, false, false, true) => b"missing, a file or a directory",
        (true, false, true, false) => b"missing, or a file, pipe, socket or device",
        (true, false, true, true) => b"no link",
        (true, true, false, false) => b"missing, a file or a link",
        (true, true, false, true) => b"no pipe, socket or device",
        (true, true, true, false) => b"no directory",
        (true, true, true, true) => b"anything, or missing",
    }
}

// Adds the name of each kind in the set.

fn push_each(text: &mut Bytes, kinds: Kinds) -> Result<(), Memory>
    ensures { OnOk result (text.new ≡ text.old ++ each_word kinds) }
{
    push_one(text, false, kinds.absent, b"missing")?;
    let begun = kinds.absent;
    push_one(text, begun, kinds.reg, b"a file")?;
    let begun = either(begun, kinds.reg);
    push_one(text, begun, kinds.link, b"a link")?;
    let begun = either(begun, kinds.link);
    push_special(text, begun, kinds)?;
    let begun = either(begun, is_special(kinds));
    push_one(text, begun, kinds.dir, b"a directory")?;
    Ok(())
}

// Whether a special kind is in the set.
fn is_special(kinds: Kinds) -> bool
    ensures { result ≡ is_special kinds }
{
    kinds.fifo || kinds.socket || kinds.block || kinds.char
}

// Adds the name of each special kind in the set.

fn push_special(text: &mut Bytes, begun: bool, kinds: Kinds) -> Result<(), Memory>
    ensures { OnOk result (text.new ≡ text.old ++ special_words begun kinds) }
{
    push_one(text, begun, kinds.fifo, b"a pipe")?;
    let begun = either(begun, kinds.fifo);
    push_one(text, begun, kinds.socket, b"a socket")?;
    let begun = either(begun, kinds.socket);
    push_one(text, begun, kinds.block, b"a block device")?;
    let begun = either(begun, kinds.block);
    push_one(text, begun, kinds.char, b"a character device")?;
    Ok(())
}

// Whether one of two is so.
fn either(one: bool, other: bool) -> bool
    ensures { result ≡ one || other }
{
    one || other
}

// Adds the name of a kind, if it is in the set, behind what separates it from earlier ones.
#[tactic(auto, unfolding(crate::specs::KindWords::one_word))]
fn push_one(text: &mut Bytes, begun: bool, here: bool, name: &[u8]) -> Result<(), Memory>
    ensures { OnOk result (text.new ≡ text.old ++ one_word begun here name.now) }
{
    if !here {
        return Ok(());
    }
    text.extend(separator(begun))?;
    text.extend(name)
}

// What separates a name from earlier ones.
fn separator(begun: bool) -> &'static [u8]
    ensures { result.now ≡ separator begun }
{
    if begun { b" or " } else { b"" }
}
