ghost use Rattle.std.specs.Prelude.{◌≡◌, [], ◌∷◌, Some, map, IfOk};
ghost use Rattle.std.specs.Str.{bytes_eq};
ghost use Rattle.shell_to_colis.specs.Translated.{flag_kind, called_kind, variable_kind, leaving_kind};
ghost use Rattle.shell_to_colis.specs.Translated.{named_kind, kind_of, static_word};

use crate::defs::Defs;
use script_names::{Bytes, Memory};
use shell_forms::static_text;
use shell_syntax::Word;
use std::alloc::Global;

/// Which statement a simple command becomes (POSIX.1-2017, XCU 2.9.1 Simple Commands, 2.14 Special Built-In
/// Utilities).
#[derive(Drop)]
pub(crate) enum Kind {
    /// It has no word: assignments, or none.
    Assignments,
    /// `set -e`.
    Strict,
    /// `set +e`.
    Lax,
    Exit,
    Return,
    Break,
    Continue,
    Export,
    Unset,
    /// A function that is defined before it, by its name.
    Function(Bytes),
    /// A utility, or a name that is computed.
    Utility,
}

/// Which statement a simple command becomes, where these functions are defined before it.
pub(crate) fn kind_of(alloc: Global, words: &[Word], defs: &Defs) -> Result<Kind, Memory>
    ensures { IfOk result (λ kind. kind ≡ kind_of (map static_word words.now) defs.now) }
{
    match words {
        [] => Ok(Kind::Assignments),
        [word, operands @ ..] => match static_text(alloc, word)? {
            None => Ok(Kind::Utility),
            Some(name) => named(alloc, name.as_slice(), operands, defs),
        },
    }
}

// A command of this static name.
fn named(alloc: Global, name: &[u8], operands: &[Word], defs: &Defs) -> Result<Kind, Memory>
    ensures { IfOk result (λ kind. kind ≡ named_kind name.now (map static_word operands.now) defs.now) }
{
    if is(name, b"set") {
        return flag(alloc, operands);
    }
    leaving(alloc, name, defs)
}

// Whether a name is this one.
fn is(name: &[u8], one: &[u8]) -> bool
    ensures { result ≡ bytes_eq name.now one.now }
{
    name == one
}

// A command of this static name, which is not `set`.
fn leaving(alloc: Global, name: &[u8], defs: &Defs) -> Result<Kind, Memory>
    ensures { IfOk result (λ kind. kind ≡ leaving_kind name.now defs.now) }
{
    if is(name, b"exit") {
        return Ok(Kind::Exit);
    }
    if is(name, b"return") {
        return Ok(Kind::Return);
    }
    if is(name, b"break") {
        return Ok(Kind::Break);
    }
    if is(name, b"continue") {
        return Ok(Kind::Continue);
    }
    on_variables(alloc, name, defs)
}

// A command of this static name, which leaves nothing.
fn on_variables(alloc: Global, name: &[u8], defs: &Defs) -> Result<Kind, Memory>
    ensures { IfOk result (λ kind. kind ≡ variable_kind name.now defs.now) }
{
    if is(name, b"export") {
        return Ok(Kind::Export);
    }
    if is(name, b"unset") {
        return Ok(Kind::Unset);
    }
    called(alloc, name, defs)
}

// `set` with these operands.
fn flag(alloc: Global, operands: &[Word]) -> Result<Kind, Memory>
    ensures { IfOk result (λ kind. kind ≡ flag_kind (map static_word operands.now)) }
{
    match operands {
        [] => Ok(Kind::Lax),
        [word, ..] => match static_text(alloc, word)? {
            None => Ok(Kind::Lax),
            Some(flag) => Ok(flag_of(flag.as_slice())),
        },
    }
}

// `set` with this static operand.
fn flag_of(flag: &[u8]) -> Kind
    ensures { result ≡ flag_kind (Some flag.now ∷ []) }
{
    match flag {
        b"-e" => Kind::Strict,
        _ => Kind::Lax,
    }
}

// A function or a utility.
fn called(alloc: Global, name: &[u8], defs: &Defs) -> Result<Kind, Memory>
    ensures { IfOk result (λ kind. kind ≡ called_kind name.now defs.now) }
{
    if defs.has(name) {
        return Ok(Kind::Function(Bytes::from_slice(alloc, name)?));
    }
    Ok(Kind::Utility)
}
