ghost use Rattle.std.specs.Prelude.{take};
ghost use Rattle.shell_words.specs.Trimmed.{IsTrimmed};

use script_names::Bytes;

/// Takes away the newlines at the end of what a command substitution wrote (POSIX.1-2017, XCU 2.6.3).
pub fn trim_newlines(text: &mut Bytes)
    ensures { IsTrimmed text.old text.new }
{
    let len = trimmed_len(text.as_slice());
    text.truncate(len);
}

// How many bytes stand before the newlines at the end.
fn trimmed_len(bytes: &[u8]) -> usize
    ensures { IsTrimmed bytes.now (take result bytes.now) }
{
    let mut end = bytes.len();
    while end > 0 {
        let before = end - 1;
        if bytes[before] != b'\n' {
            return end;
        }
        end = before;
    }
    0
}
