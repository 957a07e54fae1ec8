//! The forms that are looked for once a word is whole.

ghost use Rattle.std.specs.Prelude.{◌≡◌, true, false};
ghost use Rattle.shell_lexer.specs.Late as table;

use crate::byte_kind::OPENING_BRACE;
use crate::fault::LexFault;
use crate::sight::ByteNote;
use shell_syntax::Form;

// The first `$@`.
fn first_all(notes: &[ByteNote]) -> Option<u32>
    ensures { result ≡ table.first_all notes.now }
{
    for note in notes {
        match *note {
            ByteNote::Gap => (),
            ByteNote::Plain(_, _) => (),
            ByteNote::All(at, _) => return Some(at),
        }
    }
    None
}

// Whether the word is `"$@"`.
fn is_all_word(notes: &[ByteNote]) -> bool
    ensures { result ≡ table.is_all_word notes.now }
{
    match notes {
        [ByteNote::All(_, quoted), ByteNote::Gap] => *quoted,
        _ => false,
    }
}

// The first `$@` of a word that is not `"$@"`.
fn all_args(notes: &[ByteNote]) -> Option<u32>
    ensures { result ≡ table.all_args notes.now }
{
    if is_all_word(notes) {
        None
    } else {
        first_all(notes)
    }
}

// A tilde that is first, or directly behind a plain `=` or `:`.
fn tilde(notes: &[ByteNote]) -> Option<u32>
    ensures { result ≡ table.tilde true notes.now }
{
    let mut may = true;
    for note in notes {
        match *note {
            ByteNote::Gap => may = false,
            ByteNote::All(_, _) => may = false,
            ByteNote::Plain(byte, at) => {
                if may && byte == b'~' {
                    return Some(at);
                }
                may = byte == b'=' || byte == b':';
            }
        }
    }
    None
}

// Whether a plain comma comes, or two plain dots side by side.
fn has_list(notes: &[ByteNote]) -> bool
    ensures { result ≡ table.has_list false notes.now }
{
    let mut dot = false;
    for note in notes {
        match *note {
            ByteNote::Gap => dot = false,
            ByteNote::All(_, _) => dot = false,
            ByteNote::Plain(byte, _) => {
                if byte == b',' || (dot && byte == b'.') {
                    return true;
                }
                dot = byte == b'.';
            }
        }
    }
    false
}

// The first plain `{`, where a comma or two dots come behind it.
fn brace(notes: &[ByteNote]) -> Option<u32>
    ensures { result ≡ table.brace notes.now }
{
    for i in 0..notes.len() {
        match notes[i] {
            ByteNote::Gap => (),
            ByteNote::All(_, _) => (),
            ByteNote::Plain(byte, at) => {
                if byte == OPENING_BRACE {
                    return if has_list(&notes[i + 1..]) {
                        Some(at)
                    } else {
                        None
                    };
                }
            }
        }
    }
    None
}

// Whether the word is just these plain bytes.
fn is_plainly(bytes: &[u8], notes: &[ByteNote]) -> bool
    ensures { result ≡ table.is_plainly bytes.now notes.now }
{
    match bytes {
        [] => notes.is_empty(),
        [byte, more @ ..] => match notes {
            [ByteNote::Plain(plain, _), rest @ ..] => *plain == *byte && is_plainly(more, rest),
            _ => false,
        },
    }
}

// The word `case`, which begins at a place, inside a substitution.
fn subst_case(depth: usize, at: u32, notes: &[ByteNote]) -> Option<u32>
    ensures { result ≡ table.subst_case depth at notes.now }
{
    if depth > 0 && is_plainly(b"case", notes) {
        Some(at)
    } else {
        None
    }
}

// A form with its offset.
fn found(which: Form, at: Option<u32>) -> Option<(u32, Form)>
    ensures { result ≡ table.found which at }
{
    match at {
        None => None,
        Some(at) => Some((at, which)),
    }
}

// The one with the lower offset; the first, where they have the same.
fn sooner(a: Option<(u32, Form)>, b: Option<(u32, Form)>) -> Option<(u32, Form)>
    ensures { result ≡ table.sooner a b }
{
    match a {
        None => b,
        Some(first) => match b {
            None => Some(first),
            Some(second) => {
                if first.0 <= second.0 {
                    Some(first)
                } else {
                    Some(second)
                }
            }
        },
    }
}

// The form of a whole word with these notes, which begins at a place inside so many substitutions.
pub(crate) fn late(depth: usize, at: u32, notes: &[ByteNote]) -> Option<LexFault>
    ensures { result ≡ table.late depth at notes.now }
{
    let all = found(Form::AllArgs, all_args(notes));
    let tilde = found(Form::Tilde, tilde(notes));
    let brace = found(Form::Brace, brace(notes));
    let case = found(Form::SubstCase, subst_case(depth, at, notes));
    match sooner(all, sooner(tilde, sooner(brace, case))) {
        None => None,
        Some((at, form)) => Some(LexFault::Unsupported { form, at }),
    }
}
