// The variables that the commands of a script give a value.
ghost use Rattle.std.specs.Prelude.{◌≡◌, ◌<◌, ◌++◌, ℕ, List as ListOf, length, IfOk, OnOk, IfSome};
ghost use Rattle.std.specs.List.{list_any, flat_map};
ghost use Rattle.std.specs.Option.{option_copied};
ghost use Rattle.settled_commands.specs.Given.{literal, static_text, is_giving, giving, before};
ghost use Rattle.settled_commands.specs.Given.{first_equals, operand_name};
ghost use Rattle.settled_commands.specs.Given.{is_expansion, is_expanded};
ghost use Rattle.settled_commands.specs.Given.{names_given, gives_any, is_given};
ghost use Rattle.settled_commands.specs.KnownNames.{are_given};

use crate::seen::{SeenCommand, SeenPart};
use package_lists::{PathSet, add_each};
use script_names::{Bytes, Copied, List, Memory};
use std::alloc::Global;

/// The variables that commands give a value: any, or those of these names.
#[derive(Drop)]
pub struct Given {
    any: bool,
    names: PathSet,
}

impl Given {
    /// The variables that these commands give a value.
    pub fn of(alloc: Global, commands: &[SeenCommand]) -> Result<Given, Memory>
        ensures { IfOk result (λ given. (name : ListOf ℕ) → are_given given name ≡ is_given commands.now name) }
    {
        let names = names_of(alloc, commands)?;
        let mut set = PathSet::new(alloc);
        add_each(&mut set, names.as_slice())?;
        let any = some_give_any(alloc, commands)?;
        Ok(Given { any, names: set })
    }

    /// Whether a variable is among them.
    pub fn has(&self, name: &[u8]) -> bool
        ensures { result ≡ are_given self.now name.now }
    {
        self.any || self.names.has(name)
    }
}

// The bytes of a part without an expansion.
fn literal(part: &SeenPart) -> Option<&Bytes>
    ensures { option_copied result ≡ literal part.now }
{
    match part {
        SeenPart::Literal { bytes, .. } => Some(bytes),
        SeenPart::Variable { .. } | SeenPart::Unknown => None,
    }
}

// The text of a word without any expansion in it.
fn static_text(alloc: Global, parts: &[SeenPart]) -> Result<Option<Bytes>, Memory>
    ensures { IfOk result (λ text. text ≡ static_text parts.now) }
{
    let mut text = Bytes::new(alloc);
    for part in parts {
        match literal(part) {
            None => return Ok(None),
            Some(bytes) => text.extend(bytes.as_slice())?,
        }
    }
    Ok(Some(text))
}

// Whether a name is `export` or `unset`.
fn is_giving(name: &Option<Bytes>) -> bool
    ensures { result ≡ is_giving name.now }
{
    match name {
        None => false,
        Some(name) => name.as_slice() == b"export".as_slice()
            || name.as_slice() == b"unset".as_slice(),
    }
}

// The words behind the first, where that is static and `export` or `unset`.
fn giving(alloc: Global, words: &[List<SeenPart>]) -> Result<&[List<SeenPart>], Memory>
    ensures { IfOk result (λ operands. operands.now ≡ giving words.now) }
{
    match words {
        [] => Ok(&[]),
        [first, operands @ ..] => {
            let name = static_text(alloc, first.as_slice())?;
            if is_giving(&name) {
                return Ok(operands);
            }
            Ok(&[])
        }
    }
}

// Where the first `=` of a text stands.
fn first_equals(text: &[u8]) -> Option<usize>
    ensures at { result ≡ first_equals text.now }
    ensures within { IfSome result (λ at. at < length text.now) }
{
    text.iter().position(|b| *b == b'=')
}

// What stands before the first `=` of a text, or the whole text.
fn name_before(alloc: Global, text: &[u8]) -> Result<Bytes, Memory>
    ensures { IfOk result (λ name. name ≡ before text.now (first_equals text.now)) }
{
    match first_equals(text) {
        None => Bytes::from_slice(alloc, text),
        Some(at) => Bytes::from_slice(alloc, &text[..at]),
    }
}

// Adds the name that an operand of `export` or `unset` gives a value, where it is static.
fn add_operand(alloc: Global, names: &mut List<Bytes>, word: &List<SeenPart>) -> Result<(), Memory>
    ensures { OnOk result (names.new ≡ names.old ++ operand_name (static_text word.now)) }
{
    match static_text(alloc, word.as_slice())? {
        None => Ok(()),
        Some(text) => {
            let name = name_before(alloc, text.as_slice())?;
            names.add(name)
        }
    }
}

// Adds the names that a command gives a value.
fn add_names(alloc: Global, names: &mut List<Bytes>, command: &SeenCommand) -> Result<(), Memory>
    ensures { OnOk result (names.new ≡ names.old ++ names_given command.now) }
{
    add_copies(alloc, names, command.assigned.as_slice())?;
    let operands = giving(alloc, command.words.as_slice())?;
    add_operands(alloc, names, operands)
}

// Adds copies of these names.
fn add_copies(alloc: Global, names: &mut List<Bytes>, more: &[Bytes]) -> Result<(), Memory>
    ensures { OnOk result (names.new ≡ names.old ++ more.now) }
{
    for name in more {
        names.add(name.copy(alloc)?)?;
    }
    Ok(())
}

// Adds the names that operands of `export` or `unset` give a value.
fn add_operands(
    alloc: Global,
    names: &mut List<Bytes>,
    operands: &[List<SeenPart>],
) -> Result<(), Memory>
    ensures { OnOk result (names.new
        ≡ names.old ++ flat_map (λ word. operand_name (static_text word)) operands.now) }
{
    for word in operands {
        add_operand(alloc, names, word)?;
    }
    Ok(())
}

// The names that commands give a value.
fn names_of(alloc: Global, commands: &[SeenCommand]) -> Result<List<Bytes>, Memory>
    ensures { IfOk result (λ names. names ≡ flat_map names_given commands.now) }
{
    let mut names = List::new(alloc);
    for command in commands {
        add_names(alloc, &mut names, command)?;
    }
    Ok(names)
}

// Whether a part is an expansion.
fn is_expansion(part: &SeenPart) -> bool
    ensures { result ≡ is_expansion part.now }
{
    literal(part).is_none()
}

// Whether a word has an expansion.
fn is_expanded(word: &[SeenPart]) -> bool
    ensures { result ≡ is_expanded word.now }
{
    word.iter().any(|part| is_expansion(part))
}

// Whether an operand of `export` or `unset` is not static.
fn gives_any(alloc: Global, command: &SeenCommand) -> Result<bool, Memory>
    ensures { IfOk result (λ answer. answer ≡ gives_any command.now) }
{
    let operands = giving(alloc, command.words.as_slice())?;
    Ok(operands.iter().any(|word| is_expanded(word.as_slice())))
}

// Whether one of these commands may give any variable a value.
fn some_give_any(alloc: Global, commands: &[SeenCommand]) -> Result<bool, Memory>
    ensures { IfOk result (λ answer. answer ≡ list_any gives_any commands.now) }
{
    for command in commands {
        let any = gives_any(alloc, command)?;
        if any {
            return Ok(true);
        }
    }
    Ok(false)
}
