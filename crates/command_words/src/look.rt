// What a word is, while options may come.
ghost use Rattle.std.specs.Prelude.{◌≡◌, None, Some, IfOk, MatchOption};
ghost use Rattle.command_words.specs.Looks.{cut, look, option_look};

use crate::field::{Field, option_named};
use crate::setting::Setting;
use crate::value::{is_flag, is_name};
use script_names::{Memory, Text};
use std::alloc::Global;

/// What a word is: it says something by itself, it is an option whose value is the next word, it ends the options, or
/// it is none of these.
#[derive(Drop)]
pub enum Look {
    Says(Setting),
    Awaits(Field),
    Ends,
    Unknown,
}

/// What the word is.
pub fn read_word(alloc: Global, word: &str) -> Result<Look, Memory>
    ensures { IfOk result (λ found. found ≡ look word.now) }
{
    if is_name(word) {
        let text = Text::from_text(alloc, word)?;
        return Ok(Look::Says(Setting {
            field: Field::Named,
            text,
        }));
    }
    if word == "--" {
        return Ok(Look::Ends);
    }
    if is_flag(word) {
        let text = Text::from_text(alloc, word)?;
        return Ok(Look::Says(Setting {
            field: Field::Layout,
            text,
        }));
    }
    look_option(alloc, word)
}

// What a word is that begins with a dash and is no flag.
fn look_option(alloc: Global, word: &str) -> Result<Look, Memory>
    ensures { IfOk result (λ found. found ≡ option_look word.now) }
{
    match cut(word) {
        None => match option_named(word) {
            None => Ok(Look::Unknown),
            Some(field) => Ok(Look::Awaits(field)),
        },
        Some((name, value)) => match option_named(name) {
            None => Ok(Look::Unknown),
            Some(field) => {
                let text = Text::from_text(alloc, value)?;
                Ok(Look::Says(Setting { field, text }))
            }
        },
    }
}

// What stands before the first equals sign, and behind it.
fn cut(word: &str) -> Option<(&str, &str)>
    ensures { MatchOption result (cut word.now ≡ None) (λ parts. cut word.now ≡ Some (parts.0.now, parts.1.now)) }
{
    word.split_once('=')
}
