ghost use Rattle.std.specs.Prelude.{◌≡◌, ◌++◌, ◌<◌, ◌∷◌, length, take, slice_index, IfOk, OnOk, OnErr};
ghost use Rattle.std.specs.List.{flat_map};
ghost use Rattle.shown_texts.specs.Show.{is_literal, hex_digit, shown_byte, show, hex_value, escaped, bytes_after};
ghost use Rattle.shown_texts.specs.Show.{shown_of};

use script_names::{Bytes, Memory};
use std::alloc::Global;

/// The one spelling of bytes in texts: 0x21 to 0x7e but `\`, `,`, `{`, `}`, `(` and `)` stand for themselves,
/// every other byte is `\x` and two lower hexadecimal digits, and no bytes are `\e`.
pub fn show(alloc: Global, bytes: &[u8]) -> Result<Bytes, Memory>
    ensures { IfOk result (λ text. text ≡ show bytes.now) }
{
    let mut text = Bytes::new(alloc);
    push_shown(&mut text, bytes)?;
    Ok(text)
}

/// Adds the spelling of bytes to a text; for want of memory the text is as before.
pub fn push_shown(text: &mut Bytes, bytes: &[u8]) -> Result<(), Memory>
    ensures ok { OnOk result (text.new ≡ text.old ++ show bytes.now) }
    ensures kept { OnErr result (text.new ≡ text.old) }
{
    if bytes.is_empty() {
        return text.extend(b"\\e");
    }
    let len = text.len();
    match push_bytes(text, bytes) {
        Ok(()) => Ok(()),
        Err(_) => {
            text.truncate(len);
            Err(Memory)
        }
    }
}

// Adds the spelling of each byte.
fn push_bytes(text: &mut Bytes, bytes: &[u8]) -> Result<(), Memory>
    ensures ok { OnOk result (text.new ≡ text.old ++ flat_map shown_byte bytes.now) }
    ensures begins { OnErr result (take (length text.old) text.new ≡ text.old) }
{
    for byte in bytes {
        push_byte(text, *byte)?;
    }
    Ok(())
}

// Adds the spelling of one byte.
fn push_byte(text: &mut Bytes, byte: u8) -> Result<(), Memory>
    ensures ok { OnOk result (text.new ≡ text.old ++ shown_byte byte) }
    ensures kept { OnErr result (text.new ≡ text.old) }
{
    if is_literal(byte) {
        return text.push(byte);
    }
    text.extend(&[b'\\', b'x', hex_digit(byte / 16), hex_digit(byte % 16)])
}

// Whether the byte stands for itself.
fn is_literal(byte: u8) -> bool
    ensures { result ≡ is_literal byte }
{
    byte >= 0x21
        && byte <= 0x7e
        && byte != b'\\'
        && byte != b','
        && byte != b'{'
        && byte != b'}'
        && byte != b'('
        && byte != b')'
}

// The lower hexadecimal digit of a number below 16.
fn hex_digit(digit: u8) -> u8
    requires { digit < 16 }
    ensures { result ≡ hex_digit digit }
{
    if digit < 10 {
        b'0' + digit
    } else {
        b'a' + (digit - 10)
    }
}

/// The bytes that are spelled so; None where no bytes are.
pub fn read_shown(alloc: Global, text: &[u8]) -> Result<Option<Bytes>, Memory>
    ensures { IfOk result (λ found. found ≡ shown_of text.now) }
{
    if text == b"\\e".as_slice() {
        return Ok(Some(Bytes::new(alloc)));
    }
    let bytes = read_bytes(alloc, text)?;
    let again = show(alloc, bytes.as_slice())?;
    if again.as_slice() == text {
        Ok(Some(bytes))
    } else {
        Ok(None)
    }
}

// The bytes that the text spells, if it is a spelling.
fn read_bytes(alloc: Global, text: &[u8]) -> Result<Bytes, Memory>
    ensures { IfOk result (λ bytes. bytes ≡ bytes_after 0 text.now) }
{
    let mut bytes = Bytes::new(alloc);
    let mut passed = 0usize;
    let mut left = text;
    while let [byte, rest @ ..] = left {
        passed = read_byte(&mut bytes, passed, *byte, rest)?;
        left = rest;
    }
    Ok(bytes)
}

// Passes over a byte, or adds what is spelled from it on; answers how many are to be passed over then.
fn read_byte(bytes: &mut Bytes, passed: usize, byte: u8, rest: &[u8]) -> Result<usize, Memory>
    ensures { let all = bytes.old ++ bytes_after passed (byte ∷ rest.now) in
        IfOk result (λ next. bytes.new ++ bytes_after next rest.now ≡ all) }
{
    if passed > 0 {
        return Ok(passed - 1);
    }
    if byte == b'\\' {
        bytes.push(escaped(rest))?;
        return Ok(3);
    }
    bytes.push(byte)?;
    Ok(0)
}

// The byte of an escape, from what stands behind its backslash.
fn escaped(text: &[u8]) -> u8
    ensures { result ≡ escaped text.now }
{
    digit_at(text, 1) * 16 + digit_at(text, 2)
}

// The value of the hexadecimal digit at a place.
fn digit_at(text: &[u8], at: usize) -> u8
    ensures value { result ≡ hex_value (slice_index text.now at) }
    ensures small { result < 16 }
{
    if at < text.len() {
        hex_value(text[at])
    } else {
        0
    }
}

// The value of a lower hexadecimal digit.
fn hex_value(digit: u8) -> u8
    ensures value { result ≡ hex_value digit }
    ensures small { result < 16 }
{
    if digit < 58 {
        digit.saturating_sub(b'0') % 16
    } else {
        digit.saturating_sub(b'a' - 10) % 16
    }
}
