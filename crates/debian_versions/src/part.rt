ghost use Rattle.std.specs.Prelude.{◌≡◌, ◌++◌, [], ◌∷◌, IfOk, OnOk, drop};
ghost use Rattle.script_names.specs.ShellNames.{is_digit};
ghost use Rattle.debian_versions.specs.Parts.{is_letter, rank, leading, significant, number, added, at_end, part};

use script_names::{List, Memory};
use std::alloc::Global;

// Where no character stands more.
const END: u64 = 1;

// What every character that is no letter comes behind all letters by.
const BEHIND_LETTERS: u64 = 256;

/// Whether the byte is a decimal digit.
pub(crate) fn is_digit(byte: u8) -> bool
    ensures { result ≡ is_digit byte }
{
    byte >= b'0' && byte <= b'9'
}

/// Whether the byte is a letter.
pub(crate) fn is_letter(byte: u8) -> bool
    ensures { result ≡ is_letter byte }
{
    (byte >= b'a' && byte <= b'z') || (byte >= b'A' && byte <= b'Z')
}

// The rank of a character that is no digit.
fn rank(byte: u8) -> u64
    ensures { result ≡ rank byte }
{
    if byte == b'~' {
        return 0;
    }
    if is_letter(byte) {
        return u64::from(byte);
    }
    u64::from(byte) + BEHIND_LETTERS
}

// The digits that a text begins with.
fn leading(text: &[u8]) -> &[u8]
    ensures { result.now ≡ leading text.now }
{
    let mut count = 0;
    for byte in text {
        if !is_digit(*byte) {
            return &text[..count];
        }
        count += 1;
    }
    text
}

// Digits without the zeros that they begin with.
fn significant(digits: &[u8]) -> &[u8]
    ensures { result.now ≡ significant digits.now }
{
    let mut left = digits;
    while let [first, rest @ ..] = left {
        if *first != b'0' {
            return left;
        }
        left = rest;
    }
    left
}

/// Adds digits by their value.
pub(crate) fn push_number(key: &mut List<u64>, digits: &[u8]) -> Result<(), Memory>
    ensures { OnOk result (key.new ≡ key.old ++ number digits.now) }
{
    let digits = significant(digits);
    key.add(digits.len() as u64)?;
    push_digits(key, digits)
}

// Adds digits.
fn push_digits(key: &mut List<u64>, digits: &[u8]) -> Result<(), Memory>
    ensures { OnOk result (key.new ≡ key.old ++ digits.now) }
{
    for digit in digits {
        key.add(u64::from(*digit))?;
    }
    Ok(())
}

// Adds what the first byte of a text adds, behind a digit or not.
fn push_byte(key: &mut List<u64>, behind_digit: bool, byte: u8, text: &[u8]) -> Result<(), Memory>
    requires { text.now ≡ byte ∷ drop 1 text.now }
    ensures { OnOk result (key.new ≡ key.old ++ added behind_digit byte (drop 1 text.now)) }
{
    if !is_digit(byte) {
        return key.add(rank(byte));
    }
    if behind_digit {
        return Ok(());
    }
    key.add(END)?;
    push_number(key, leading(text))
}

// Adds what the end adds, behind a digit or not.
fn push_end(key: &mut List<u64>, behind_digit: bool) -> Result<(), Memory>
    ensures { OnOk result (key.new ≡ key.old ++ at_end behind_digit) }
{
    if !behind_digit {
        key.add(END)?;
        key.add(0)?;
    }
    key.add(END)
}

/// A part of a version, as the numbers that order it.
pub(crate) fn part_numbers(alloc: Global, text: &[u8]) -> Result<List<u64>, Memory>
    ensures { IfOk result (λ key. key ≡ part text.now) }
{
    let mut key = List::new(alloc);
    let mut behind_digit = false;
    let mut left = text;
    while let [byte, rest @ ..] = left {
        push_byte(&mut key, behind_digit, *byte, left)?;
        behind_digit = is_digit(*byte);
        left = rest;
    }
    push_end(&mut key, behind_digit)?;
    Ok(key)
}
