// The words of the command line, one after another.
ghost use Rattle.std.specs.Prelude.{◌≡◌, IfOk};
ghost use Rattle.command_words.specs.Fields.{may};
ghost use Rattle.command_words.specs.Looks.{look};
ghost use Rattle.command_words.specs.Words.{say, step, open_step, is_ready, after, start, finished, line_form, form};
ghost use Rattle.command_words.specs.Words.{FormGives};

use crate::field::{Command, Field, command_named, most, needs_of, takes};
use crate::look::{Look, read_word};
use crate::request::Request;
use crate::said::{count, is_excluded, is_given, request_of};
use crate::setting::Setting;
use crate::value::{is_name, is_value};
use script_names::{Copied, List, Memory, Text};
use std::alloc::Global;

/// Why there is no request.
#[derive(Clone, Copy, Debug, PartialEq, Eq)]
pub enum WordsFault {
    /// The words are not of the form. The number is the least one such that no valid line begins with the first so many
    /// words; where all of them begin one, it is their count and one.
    Usage { word: u64 },
    /// Want of memory.
    Memory,
}

impl Copied for WordsFault {
    fn copy(&self, _alloc: Global) -> Result<WordsFault, Memory> {
        Ok(*self)
    }
}

impl From<Memory> for WordsFault {
    ghost use Rattle.command_words.specs.declared.read.WordsFault.TheVariants.{Memory as no_memory};
    ghost use Rattle.std.specs.Prelude.{◌≡◌};

    ghost from_gives = { λ _. λ fault. fault ≡ no_memory };

    fn from(_missing: Memory) -> WordsFault {
        WordsFault::Memory
    }
}

/// Where a line stands: options may come, the value of an option has to come, or the options have ended.
#[derive(Clone, Copy, Debug, PartialEq, Eq)]
pub enum Place {
    Options,
    Value(Field),
    Ended,
}

/// A line that is begun: what it says, and where it stands.
#[derive(Drop)]
pub struct Begun {
    pub said: List<Setting>,
    pub place: Place,
}

/// The request that the words spell, or the place of the first word that fits none.
pub fn read_words(alloc: Global, words: &List<Text>) -> Result<Request, WordsFault>
    ensures { FormGives (form words.now) result }
{
    match words.as_slice() {
        [] => Err(WordsFault::Usage { word: 1 }),
        [name, rest @ ..] => match command_named(name.as_str()) {
            None => Err(WordsFault::Usage { word: 1 }),
            Some(command) => read_line(alloc, command, rest),
        },
    }
}

// The request that the words behind a command spell.
fn read_line(alloc: Global, command: Command, words: &[Text]) -> Result<Request, WordsFault>
    ensures { FormGives (line_form command words.now) result }
{
    let begun = read_all(alloc, command, words)?;
    let request = finished(alloc, command, &begun)?;
    match request {
        None => Err(WordsFault::Usage {
            word: words.len() as u64 + 2,
        }),
        Some(request) => Ok(request),
    }
}

// The line that the words behind a command begin.
fn read_all(alloc: Global, command: Command, words: &[Text]) -> Result<Begun, WordsFault>
    ensures { FormGives (after command start words.now 2) result }
{
    let mut begun = Begun {
        said: List::new(alloc),
        place: Place::Options,
    };
    for (i, word) in words.iter().enumerate() {
        let next = step(alloc, command, begun, word.as_str())?;
        begun = match next {
            None => return Err(WordsFault::Usage { word: i as u64 + 2 }),
            Some(next) => next,
        };
    }
    Ok(begun)
}

// The request that a line makes where no word follows.
fn finished(alloc: Global, command: Command, begun: &Begun) -> Result<Option<Request>, Memory>
    ensures { IfOk result (λ request. request ≡ finished command begun.now) }
{
    match begun.place {
        Place::Value(_) => Ok(None),
        Place::Options | Place::Ended => request_of(alloc, command, begun.said.as_slice()),
    }
}

// The line with one more word; None where no valid line begins so.
fn step(alloc: Global, command: Command, begun: Begun, word: &str) -> Result<Option<Begun>, Memory>
    ensures { IfOk result (λ next. next ≡ step command begun word.now) }
{
    match begun.place {
        Place::Options => open_step(alloc, command, begun.said, word),
        Place::Value(field) => {
            if !is_name(word) {
                return Ok(None);
            }
            let text = Text::from_text(alloc, word)?;
            say(command, begun.said, Setting { field, text }, Place::Options)
        }
        Place::Ended => {
            if word == "--" {
                return Ok(None);
            }
            let text = Text::from_text(alloc, word)?;
            let field = Field::Named;
            say(command, begun.said, Setting { field, text }, Place::Ended)
        }
    }
}

// The line with one more word, while options may come.
fn open_step(
    alloc: Global,
    command: Command,
    said: List<Setting>,
    word: &str,
) -> Result<Option<Begun>, Memory>
    ensures { IfOk result (λ next. next ≡ open_step command said (look word.now)) }
{
    match read_word(alloc, word)? {
        Look::Says(setting) => say(command, said, setting, Place::Options),
        Look::Awaits(field) => {
            if !may(command, said.as_slice(), field) {
                return Ok(None);
            }
            let place = Place::Value(field);
            Ok(Some(Begun { said, place }))
        }
        Look::Ends => {
            if !is_ready(command, said.as_slice()) {
                return Ok(None);
            }
            let place = Place::Ended;
            Ok(Some(Begun { said, place }))
        }
        Look::Unknown => Ok(None),
    }
}

// The line that says one thing more, and then stands at a place; None where it may not say it.
fn say(
    command: Command,
    mut said: List<Setting>,
    setting: Setting,
    place: Place,
) -> Result<Option<Begun>, Memory>
    ensures { IfOk result (λ next. next ≡ say command said setting place) }
{
    if !may(command, said.as_slice(), setting.field) {
        return Ok(None);
    }
    if !is_value(command, setting.field, setting.text.as_str()) {
        return Ok(None);
    }
    said.add(setting)?;
    Ok(Some(Begun { said, place }))
}

// Whether the line may still say something of the field.
fn may(command: Command, said: &[Setting], field: Field) -> bool
    ensures { result ≡ may command said.now field }
{
    takes(command, field) && count(said, field) < most(command, field) && !is_excluded(said, field)
}

// Whether the options that the command needs have been said.
fn is_ready(command: Command, said: &[Setting]) -> bool
    ensures { result ≡ is_ready command said.now }
{
    needs_of(command)
        .iter()
        .all(|needed| is_given(said, *needed))
}
