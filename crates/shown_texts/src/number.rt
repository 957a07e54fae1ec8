ghost use Rattle.std.specs.Prelude.{◌≡◌, ◌++◌, ◌≤◌, length, take, OnOk, OnErr, IfSome};
ghost use Rattle.std.specs.List.{list_all};
ghost use Rattle.std.specs.Fmt.{decimal};
ghost use Rattle.shown_texts.specs.Numbers.{is_numeral, number_of};
ghost use Rattle.script_names.specs.ShellNames.{is_digit};

use script_names::{Bytes, Memory};

/// Adds a number in decimal to a text; for want of memory the text is as before.
pub fn push_number(text: &mut Bytes, number: u64) -> Result<(), Memory>
    ensures ok { OnOk result (text.new ≡ text.old ++ decimal number) }
    ensures kept { OnErr result (text.new ≡ text.old) }
{
    let len = text.len();
    match push_digits(text, number) {
        Ok(()) => Ok(()),
        Err(_) => {
            text.truncate(len);
            Err(Memory)
        }
    }
}

// Adds the digits of a number.
#[tactic(auto, using(std::proofs::lemmas::Fmt::decimal_digit))]
fn push_digits(text: &mut Bytes, number: u64) -> Result<(), Memory>
    ensures ok { OnOk result (text.new ≡ text.old ++ decimal number) }
    ensures begins { OnErr result (take (length text.old) text.new ≡ text.old) }
{
    if number < 10 {
        return text.push(b'0' + number as u8);
    }
    push_digits(text, number / 10)?;
    text.push(b'0' + (number % 10) as u8)
}

/// The number, up to `most`, whose decimal digits these are; None where there is none. A number has no leading 0.
pub fn read_number(text: &[u8], most: u32) -> Option<u32>
    ensures found { result ≡ number_of most text.now }
    ensures fits { IfSome result (λ n. n ≤ most) }
{
    if !is_numeral(text) {
        return None;
    }
    let mut number = 0u64;
    for digit in text {
        number = number * 10 + u64::from(*digit - b'0');
        if number > u64::from(most) {
            return None;
        }
    }
    Some(number as u32)
}

// Whether the text is digits, the first of which is no 0 unless it stands alone.
fn is_numeral(text: &[u8]) -> bool
    ensures { result ≡ is_numeral text.now }
{
    !text.is_empty() && are_digits(text) && (text.len() == 1 || text[0] != b'0')
}

// Whether each byte is a decimal digit.
fn are_digits(text: &[u8]) -> bool
    ensures { result ≡ list_all is_digit text.now }
{
    text.iter().all(|byte| is_digit(*byte))
}

// Whether the byte is a decimal digit.
fn is_digit(byte: u8) -> bool
    ensures { result ≡ is_digit byte }
{
    byte >= b'0' && byte <= b'9'
}
