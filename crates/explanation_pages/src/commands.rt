//! Command lines that a page shows, to be copied into a shell.

ghost use Rattle.std.specs.Prelude.{◌≡◌, ◌++◌, OnOk};
ghost use Rattle.std.specs.List.{flat_map, list_all};
ghost use Rattle.explanation_pages.specs.Commands.{check_line, command_html, folders_words, is_bare, is_bare_word};
ghost use Rattle.explanation_pages.specs.Commands.{outcome_line, quoted_byte, quoted_word, said_option, shell_word};
ghost use Rattle.explanation_pages.specs.Commands.{turns_words};

use crate::joined::{put_seven, put_three};
use checker_input::Sources;
use command_words::USUAL_TURNS;
use dpkg_scenarios::{Scenario, scenario_name};
use html_texts::push_html;
use script_names::{Bytes, Memory, Text};
use shown_texts::push_number;
use std::alloc::Global;

// Whether a byte means itself wherever it stands in a word.
fn is_bare(byte: u8) -> bool
    ensures { result ≡ is_bare byte }
{
    let small = b'a' <= byte && byte <= b'z';
    let large = b'@' <= byte && byte <= b'Z';
    let digit = b'+' <= byte && byte <= b':';
    small || (large || (digit || byte == b'_'))
}

// Whether each byte is such a one.
fn are_bare(word: &[u8]) -> bool
    ensures { result ≡ list_all is_bare word.now }
{
    word.iter().all(|byte| is_bare(*byte))
}

// Whether a word is written as it is: not one without bytes.
fn is_bare_word(word: &[u8]) -> bool
    ensures { result ≡ is_bare_word word.now }
{
    if word.len() == 0 {
        return false;
    }
    are_bare(word)
}

// Adds a byte of a word between single quotes.
fn put_quoted_byte(text: &mut Bytes, byte: u8) -> Result<(), Memory>
    ensures { OnOk result (text.new ≡ text.old ++ quoted_byte byte) }
{
    if byte == b'\'' {
        return text.extend(b"'\\''");
    }
    text.push(byte)
}

// Adds each byte.
fn put_quoted_bytes(text: &mut Bytes, word: &[u8]) -> Result<(), Memory>
    ensures { OnOk result (text.new ≡ text.old ++ flat_map quoted_byte word.now) }
{
    for byte in word {
        put_quoted_byte(text, *byte)?;
    }
    Ok(())
}

// Adds a word between single quotes.
#[tactic(auto, unfolding(crate::specs::Commands::quoted_word))]
fn put_quoted_word(alloc: Global, text: &mut Bytes, word: &[u8]) -> Result<(), Memory>
    ensures { OnOk result (text.new ≡ text.old ++ quoted_word word.now) }
{
    let mut quoted = Bytes::new(alloc);
    put_quoted_bytes(&mut quoted, word)?;
    put_three(text, b"'", quoted.as_slice(), b"'")
}

// Adds a word.
fn put_word(alloc: Global, text: &mut Bytes, word: &[u8]) -> Result<(), Memory>
    ensures { OnOk result (text.new ≡ text.old ++ shell_word word.now) }
{
    if is_bare_word(word) {
        return text.extend(word);
    }
    put_quoted_word(alloc, text, word)
}

// Adds an option with a name, where it was said.
fn put_option(
    alloc: Global,
    text: &mut Bytes,
    option: &[u8],
    name: &Option<Text>,
) -> Result<(), Memory>
    ensures { OnOk result (text.new ≡ text.old ++ said_option option.now name.now) }
{
    match name {
        Some(name) => {
            text.extend(option)?;
            put_word(alloc, text, name.as_str().as_bytes())
        }
        None => Ok(()),
    }
}

// Adds the folders and the base.
#[tactic(auto, unfolding(crate::specs::Commands::folders_words))]
fn put_folders(alloc: Global, text: &mut Bytes, sources: &Sources) -> Result<(), Memory>
    ensures { OnOk result (text.new ≡ text.old ++ folders_words sources.now) }
{
    let mut dir = Bytes::new(alloc);
    put_word(alloc, &mut dir, sources.folders.dir.as_str().as_bytes())?;
    let mut old = Bytes::new(alloc);
    put_option(alloc, &mut old, b" --old ", &sources.folders.old)?;
    let mut base = Bytes::new(alloc);
    put_option(alloc, &mut base, b" --base ", &sources.folders.base)?;
    put_three(text, dir.as_slice(), old.as_slice(), base.as_slice())
}

// Adds the turns of loops, where they are others than usual.
#[tactic(auto, unfolding(crate::specs::Commands::turns_words))]
fn put_turns(text: &mut Bytes, turns: u32) -> Result<(), Memory>
    ensures { OnOk result (text.new ≡ text.old ++ turns_words turns) }
{
    if turns == USUAL_TURNS {
        return Ok(());
    }
    text.extend(b" --turns ")?;
    push_number(text, u64::from(turns))
}

/// Adds the command line of the report, with so many turns of loops.
#[tactic(auto, unfolding(crate::specs::Commands::check_line))]
pub fn put_check_line(
    alloc: Global,
    text: &mut Bytes,
    sources: &Sources,
    turns: u32,
) -> Result<(), Memory>
    ensures { OnOk result (text.new ≡ text.old ++ check_line sources.now turns) }
{
    let mut folders = Bytes::new(alloc);
    put_folders(alloc, &mut folders, sources)?;
    let mut words = Bytes::new(alloc);
    put_turns(&mut words, turns)?;
    put_three(text, b"colis check ", folders.as_slice(), words.as_slice())
}

/// Adds the command line that shows an outcome whole, by its number in the report on the scenario.
#[tactic(auto, unfolding(crate::specs::Commands::outcome_line))]
pub fn put_outcome_line(
    alloc: Global,
    text: &mut Bytes,
    sources: &Sources,
    turns: u32,
    scenario: Scenario,
    number: u32,
) -> Result<(), Memory>
    ensures { OnOk result (text.new ≡ text.old ++ outcome_line sources.now turns scenario number) }
{
    let mut folders = Bytes::new(alloc);
    put_folders(alloc, &mut folders, sources)?;
    let mut words = Bytes::new(alloc);
    put_turns(&mut words, turns)?;
    let mut digits = Bytes::new(alloc);
    push_number(&mut digits, u64::from(number))?;
    put_seven(
        text,
        b"colis explain ",
        folders.as_slice(),
        b" --scenario ",
        scenario_name(scenario).as_bytes(),
        words.as_slice(),
        b" --outcome ",
        digits.as_slice(),
    )
}

/// Adds a command line to a page.
#[tactic(auto, unfolding(crate::specs::Commands::command_html))]
pub fn put_command(alloc: Global, text: &mut Bytes, line: &[u8]) -> Result<(), Memory>
    ensures { OnOk result (text.new ≡ text.old ++ command_html line.now) }
{
    let mut shown = Bytes::new(alloc);
    push_html(alloc, &mut shown, line)?;
    put_three(text, b"<code>", shown.as_slice(), b"</code>")
}
