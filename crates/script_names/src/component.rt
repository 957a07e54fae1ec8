// The components of a word that is to spell a path.
ghost use Rattle.std.specs.Prelude.{◌≡◌, ◌<◌, None, filter, length, IfOk, IsTrue, map};
ghost use Rattle.std.specs.List.{list_any, list_all};
ghost use Rattle.script_names.specs.Names.{is_name};
ghost use Rattle.script_names.specs.Paths.{is_nul, is_filled, is_dot, is_dot_dot, is_long, names_entry, ends_in_dot};
ghost use Rattle.script_names.specs.Paths.{components, spelled_names, path_fault};

use crate::list::List;
use crate::memory::Memory;
use crate::name::{NAME_MAX, Name};
use crate::path::{MAX_NAMES, PathFault};
use std::alloc::Global;

// Why the word spells no path, where it spells none.
pub fn path_fault(word: &[u8]) -> Option<PathFault>
    ensures { result ≡ path_fault word.now }
{
    if word.is_empty() {
        Some(PathFault::Empty)
    } else if has_nul(word) {
        Some(PathFault::Nul)
    } else if has_dot_dot(word) {
        Some(PathFault::DotDot)
    } else if ends_in_dot(word) {
        Some(PathFault::Dot)
    } else if has_long_name(word) {
        Some(PathFault::LongName)
    } else if count_names(word) > MAX_NAMES {
        Some(PathFault::Many)
    } else {
        None
    }
}

// The names that the word spells.
pub fn read_names(alloc: Global, word: &[u8]) -> Result<List<Name>, Memory>
    requires { IsTrue (list_all is_name (spelled_names word.now)) }
    ensures { IfOk result (λ names. names ≡ spelled_names word.now) }
{
    let parts = parts_with_names(alloc, word)?;
    let mut names = List::new(alloc);
    for part in &parts {
        let name = Name::of(alloc, part)?;
        names.add(name)?;
    }
    Ok(names)
}

// The components that name an entry, in order.
fn parts_with_names(alloc: Global, word: &[u8]) -> Result<Vec<&[u8]>, Memory>
    ensures { IfOk result (λ parts. map (λ part. part.now) parts.items ≡ spelled_names word.now) }
{
    let parts = word
        .split(|b| *b == b'/')
        .filter(|part| names_entry(part))
        .collect(alloc)?;
    Ok(parts)
}

// Whether a byte is NUL.
fn has_nul(word: &[u8]) -> bool
    ensures { result ≡ list_any is_nul word.now }
{
    word.iter().any(|b| *b == 0)
}

// Whether a component is `..`.
fn has_dot_dot(word: &[u8]) -> bool
    ensures { result ≡ list_any is_dot_dot (components word.now) }
{
    word.split(|b| *b == b'/').any(|part| is_dot_dot(part))
}

// Whether a component has more bytes than a name may have.
fn has_long_name(word: &[u8]) -> bool
    ensures { result ≡ list_any is_long (components word.now) }
{
    word.split(|b| *b == b'/').any(|part| part.len() > NAME_MAX)
}

// How many names the word spells.
fn count_names(word: &[u8]) -> usize
    ensures { result ≡ length (spelled_names word.now) }
{
    word.split(|b| *b == b'/')
        .filter(|part| names_entry(part))
        .count()
}

// Whether the last component that is not empty is `.`.
fn ends_in_dot(word: &[u8]) -> bool
    ensures { result ≡ ends_in_dot word.now }
{
    let last = word
        .split(|b| *b == b'/')
        .filter(|part| !part.is_empty())
        .last();
    match last {
        Some(part) => is_dot(part),
        None => false,
    }
}

// Whether a component names an entry: it is neither empty nor `.`.
fn names_entry(part: &[u8]) -> bool
    ensures { result ≡ names_entry part.now }
{
    !part.is_empty() && !is_dot(part)
}

// Whether a component is `.`.
fn is_dot(part: &[u8]) -> bool
    ensures { result ≡ is_dot part.now }
{
    match part {
        [a] => *a == b'.',
        _ => false,
    }
}

// Whether a component is `..`.
fn is_dot_dot(part: &[u8]) -> bool
    ensures { result ≡ is_dot_dot part.now }
{
    match part {
        [a, b] => *a == b'.' && *b == b'.',
        _ => false,
    }
}
