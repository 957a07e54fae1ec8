// The text of the script of a made package.
ghost use Rattle.std.specs.Prelude.{◌≡◌, ◌+◌, ◌<◌, ◌≤◌, ◌++◌, IfOk, OnOk};
ghost use Rattle.command_words.specs.declared.limits.TheConstants.{MOST_LOAD};
ghost use Rattle.load_maker.specs.LoadText.{three_digits, numbered_line, load_text};

use script_names::{Bytes, Memory};
use std::alloc::Global;

// A decimal digit.
fn digit(value: u16) -> u8
    requires { value < 10 }
    ensures { result ≡ 48 + value }
{
    b'0' + value as u8
}

// Adds a number in three digits.
fn push_digits(text: &mut Bytes, number: u16) -> Result<(), Memory>
    requires { number < 1000 }
    ensures { OnOk result (text.new ≡ text.old ++ three_digits number) }
{
    let hundreds = digit(number / 100);
    let tens = digit(number / 10 % 10);
    let ones = digit(number % 10);
    text.extend(&[hundreds, tens, ones])
}

// Adds a line of words with a number behind them.
fn push_line(text: &mut Bytes, words: &[u8], number: u16) -> Result<(), Memory>
    requires { number < 1000 }
    ensures { OnOk result (text.new ≡ text.old ++ numbered_line words.now number) }
{
    text.extend(words)?;
    push_digits(text, number)?;
    text.extend(b"\n")
}

/// The text of the script of this number.
pub fn load_text(alloc: Global, n: u16) -> Result<Bytes, Memory>
    requires { n ≤ MOST_LOAD }
    ensures { IfOk result (λ text. text ≡ load_text n) }
{
    let mut text = Bytes::from_slice(alloc, b"#!/bin/sh\nset -e\n")?;
    for done in 0u16..n {
        push_line(&mut text, b"mkdir -p /srv/k", done + 1)?;
    }
    Ok(text)
}
