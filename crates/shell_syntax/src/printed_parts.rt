ghost use Rattle.std.specs.Prelude.{◌≡◌, ◌++◌, OnOk};
ghost use Rattle.std.specs.List.{flat_map};
ghost use Rattle.shell_syntax.specs.PrintedParts.{is_active, escaped, is_one_byte, quoted_text, double_quote};
ghost use Rattle.shell_syntax.specs.PrintedParts.{key_text, default_text, param_text};

use crate::key::Key;
use script_names::{Bytes, Memory};
use shown_texts::push_number;

// Whether a byte keeps a meaning of its own in double quotes (XCU 2.2.3 Double-Quotes).
fn is_active(byte: u8) -> bool
    ensures { result ≡ is_active byte }
{
    byte == b'"' || (byte == b'$' || (byte == b'\\' || byte == b'`'))
}

// Whether there is one byte alone that a backslash can quote (XCU 2.2.1 Escape Character).
fn is_one_byte(bytes: &[u8]) -> bool
    ensures { result ≡ is_one_byte bytes.now }
{
    match bytes {
        [] => false,
        [byte] => *byte != b'\n',
        [_, _, ..] => false,
    }
}

fn put_escaped(text: &mut Bytes, byte: u8) -> Result<(), Memory>
    ensures { OnOk result (text.new ≡ text.old ++ escaped byte) }
{
    if is_active(byte) {
        text.push(b'\\')?;
        return text.push(byte);
    }
    text.push(byte)
}

fn put_all_escaped(text: &mut Bytes, bytes: &[u8]) -> Result<(), Memory>
    ensures { OnOk result (text.new ≡ text.old ++ flat_map escaped bytes.now) }
{
    for byte in bytes {
        put_escaped(text, *byte)?;
    }
    Ok(())
}

/// Adds quoted bytes.
#[tactic(auto, unfolding(crate::specs::PrintedParts::quoted_text))]
pub(crate) fn put_quoted(text: &mut Bytes, bytes: &[u8]) -> Result<(), Memory>
    ensures { OnOk result (text.new ≡ text.old ++ quoted_text bytes.now) }
{
    if is_one_byte(bytes) {
        text.extend(b"\\")?;
        return text.extend(bytes);
    }
    text.extend(b"\"")?;
    put_all_escaped(text, bytes)?;
    text.extend(b"\"")
}

/// Adds the quotes before or behind an expansion that stands in double quotes.
pub(crate) fn put_double_quote(text: &mut Bytes, quoted: bool) -> Result<(), Memory>
    ensures { OnOk result (text.new ≡ text.old ++ double_quote quoted) }
{
    if quoted {
        return text.extend(b"\"");
    }
    Ok(())
}

fn put_key(text: &mut Bytes, key: &Key) -> Result<(), Memory>
    ensures { OnOk result (text.new ≡ text.old ++ key_text key.now) }
{
    match key {
        Key::Named(name) => text.extend(name.as_slice()),
        Key::Arg(number) => push_number(text, u64::from(*number)),
        Key::Count => text.extend(b"#"),
    }
}

fn put_default(text: &mut Bytes, default: &Option<Bytes>) -> Result<(), Memory>
    ensures { OnOk result (text.new ≡ text.old ++ default_text default.now) }
{
    match default {
        None => Ok(()),
        Some(default) => {
            text.extend(b":-")?;
            text.extend(default.as_slice())
        }
    }
}

/// Adds a parameter expansion (XCU 2.6.2 Parameter Expansion).
#[tactic(auto, unfolding(crate::specs::PrintedParts::param_text))]
pub(crate) fn put_param(
    text: &mut Bytes,
    key: &Key,
    default: &Option<Bytes>,
    quoted: bool,
) -> Result<(), Memory>
    ensures { OnOk result (text.new ≡ text.old ++ param_text key.now default.now quoted) }
{
    put_double_quote(text, quoted)?;
    text.extend(b"${")?;
    put_key(text, key)?;
    put_default(text, default)?;
    text.extend(b"}")?;
    put_double_quote(text, quoted)
}
