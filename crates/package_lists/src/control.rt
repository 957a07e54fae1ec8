ghost use Rattle.std.specs.Prelude.{◌≡◌, map, IfOk, MatchOption, drop, codes, Some, None, Ok, if◌then◌else◌};
ghost use Rattle.std.specs.List.{list_all};
ghost use Rattle.package_lists.specs.Control.{is_blank, after_blanks, before_blanks, trimmed, first_field};
ghost use Rattle.package_lists.specs.Control.{is_version_byte, is_version, version_of, control_of};
ghost use Rattle.package_lists.specs.Control.{is_package_byte, is_package_name, name_of, package_name_of};
ghost use Rattle.package_lists.specs.Faults.{IsAnswer};

use crate::fault::LineFault;
use crate::lines::text_lines;
use script_names::{Bytes, Memory};
use std::alloc::Global;

/// The version of a package, from its control file (Debian Policy, 5.6.12): the value of the first line that begins
/// with `Version:`, without the spaces and tabs at both ends; `0` without such a line. Why 1: that value is empty, or
/// has a byte that is no letter, no digit and none of `.`, `+`, `-`, `:` and `~`. Nothing else is looked at.
pub fn read_control(alloc: Global, text: &[u8]) -> Result<Bytes, LineFault>
    ensures { IsAnswer (control_of text.now) result }
{
    let lines = text_lines(alloc, text)?;
    match first_field(lines.as_slice(), b"Version:") {
        None => {
            let zero = Bytes::from_slice(alloc, b"0")?;
            Ok(zero)
        }
        Some((number, value)) => version_of(alloc, number, value),
    }
}

/// The name of a package, from its control file (Debian Policy, 5.6.7): the value of the first line that begins with
/// `Package:`, without the spaces and tabs at both ends; `unnamed` without such a line. Why 2: that value is empty, or
/// has a byte that is no lower-case letter, no digit and none of `+`, `-` and `.`. Nothing else is looked at.
pub fn read_name(alloc: Global, text: &[u8]) -> Result<Bytes, LineFault>
    ensures { IsAnswer (package_name_of text.now) result }
{
    let lines = text_lines(alloc, text)?;
    match first_field(lines.as_slice(), b"Package:") {
        None => {
            let unnamed = Bytes::from_slice(alloc, b"unnamed")?;
            Ok(unnamed)
        }
        Some((number, value)) => name_of(alloc, number, value),
    }
}

// The number and the value of the first line that has a field, which begins so.
fn first_field<'a>(lines: &[&'a [u8]], field: &[u8]) -> Option<(u64, &'a [u8])>
    ensures { let found = first_field field.now 1 (map (λ line. line.now) lines.now) in
        MatchOption result (found ≡ None) (λ line. found ≡ Some (line.0, line.1.now)) }
{
    let mut number = 0u64;
    for line in lines {
        number += 1;
        if line.starts_with(field) {
            return Some((number, trimmed(&line[field.len()..])));
        }
    }
    None
}

// The version of a line, where the value is one.
fn version_of(alloc: Global, number: u64, value: &[u8]) -> Result<Bytes, LineFault>
    ensures { IsAnswer (version_of number value.now) result }
{
    if !is_version(value) {
        return Err(LineFault::Line {
            line: number,
            why: 1,
        });
    }
    let version = Bytes::from_slice(alloc, value)?;
    Ok(version)
}

// The name of a line, where the value is one.
fn name_of(alloc: Global, number: u64, value: &[u8]) -> Result<Bytes, LineFault>
    ensures { IsAnswer (name_of number value.now) result }
{
    if !is_package_name(value) {
        return Err(LineFault::Line {
            line: number,
            why: 2,
        });
    }
    let name = Bytes::from_slice(alloc, value)?;
    Ok(name)
}

// The bytes without the blanks at both ends.
fn trimmed(bytes: &[u8]) -> &[u8]
    ensures { result.now ≡ trimmed bytes.now }
{
    before_blanks(after_blanks(bytes))
}

// The bytes without the blanks at their beginning.
fn after_blanks(bytes: &[u8]) -> &[u8]
    ensures { result.now ≡ after_blanks bytes.now }
{
    let mut left = bytes;
    while let [byte, rest @ ..] = left {
        if !is_blank(*byte) {
            return left;
        }
        left = rest;
    }
    left
}

// The bytes without the blanks at their end.
fn before_blanks(bytes: &[u8]) -> &[u8]
    ensures { result.now ≡ before_blanks bytes.now }
{
    let mut end = bytes.len();
    while end > 0 {
        if !is_blank(bytes[end - 1]) {
            return &bytes[..end];
        }
        end -= 1;
    }
    &bytes[..0]
}

// Whether the byte is a space or a tab.
fn is_blank(byte: u8) -> bool
    ensures { result ≡ is_blank byte }
{
    byte == b' ' || byte == b'\t'
}

// Whether the bytes are a version.
fn is_version(bytes: &[u8]) -> bool
    ensures { result ≡ is_version bytes.now }
{
    !bytes.is_empty() && are_version_bytes(bytes)
}

// Whether a version may have each of the bytes.
fn are_version_bytes(bytes: &[u8]) -> bool
    ensures { result ≡ list_all is_version_byte bytes.now }
{
    bytes.iter().all(|b| is_version_byte(*b))
}

// Whether a version may have the byte.
fn is_version_byte(b: u8) -> bool
    ensures { result ≡ is_version_byte b }
{
    (b >= b'a' && b <= b'z')
        || (b >= b'A' && b <= b'Z')
        || (b >= b'0' && b <= b'9')
        || b == b'.'
        || b == b'+'
        || b == b'-'
        || b == b':'
        || b == b'~'
}

// Whether the bytes are the name of a package.
fn is_package_name(bytes: &[u8]) -> bool
    ensures { result ≡ is_package_name bytes.now }
{
    !bytes.is_empty() && are_package_bytes(bytes)
}

// Whether the name of a package may have each of the bytes.
fn are_package_bytes(bytes: &[u8]) -> bool
    ensures { result ≡ list_all is_package_byte bytes.now }
{
    bytes.iter().all(|b| is_package_byte(*b))
}

// Whether the name of a package may have the byte.
fn is_package_byte(b: u8) -> bool
    ensures { result ≡ is_package_byte b }
{
    (b >= b'a' && b <= b'z') || (b >= b'0' && b <= b'9') || b == b'+' || b == b'-' || b == b'.'
}
