ghost use Rattle.std.specs.Prelude.{◌≡◌, IfOk, Option as Maybe, option_map};
ghost use Rattle.std.specs.List.{list_all};
ghost use Rattle.script_names.specs.ShellNames.{is_digit};
ghost use Rattle.debian_versions.specs.Versions.{cut_first, cut_last, is_epoch, is_revision_byte, is_upstream_byte};
ghost use Rattle.debian_versions.specs.Versions.{is_upstream, is_revision, made_of, version_behind, version};
ghost use Rattle.debian_versions.specs.Versions.{version_cmp};

use crate::part::{is_digit, is_letter, part_numbers, push_number};
use script_names::{List, Memory};
use std::alloc::Global;
use std::cmp::Ordering;

/// The most digits of an epoch.
pub const MAX_EPOCH_DIGITS: usize = 9;

/// A version of a package, as it is ordered: each part as the numbers that are compared from left to right.
#[derive(Debug, Drop)]
pub struct Version {
    pub epoch: List<u64>,
    pub upstream: List<u64>,
    pub revision: List<u64>,
}

// What stands before the first of such bytes, and what stands behind it, where there is one.
fn cut_first(text: &[u8], at: u8) -> Option<(&[u8], &[u8])>
    ensures { option_map (λ cut. (cut.0.now, cut.1.now)) result ≡ cut_first at text.now }
{
    let mut place = 0;
    for byte in text {
        if *byte == at {
            return Some((&text[..place], &text[place + 1..]));
        }
        place += 1;
    }
    None
}

// What stands before the last of such bytes, and what stands behind it, where there is one.
fn cut_last(text: &[u8], at: u8) -> Option<(&[u8], &[u8])>
    ensures { option_map (λ cut. (cut.0.now, cut.1.now)) result ≡ cut_last at text.now }
{
    let mut place = text.len();
    while place > 0 {
        place -= 1;
        if text[place] == at {
            return Some((&text[..place], &text[place + 1..]));
        }
    }
    None
}

// Whether the text is an epoch.
fn is_epoch(text: &[u8]) -> bool
    ensures { result ≡ is_epoch text.now }
{
    !text.is_empty() && text.len() <= MAX_EPOCH_DIGITS && are_digits(text)
}

// Whether each byte is a digit.
fn are_digits(text: &[u8]) -> bool
    ensures { result ≡ list_all is_digit text.now }
{
    text.iter().all(|byte| is_digit(*byte))
}

// Whether the byte may stand in a revision.
fn is_revision_byte(byte: u8) -> bool
    ensures { result ≡ is_revision_byte byte }
{
    is_letter(byte) || is_digit(byte) || byte == b'.' || byte == b'+' || byte == b'~'
}

// Whether the byte may stand in an upstream version.
fn is_upstream_byte(byte: u8) -> bool
    ensures { result ≡ is_upstream_byte byte }
{
    is_revision_byte(byte) || byte == b'-' || byte == b':'
}

// Whether each byte may stand in an upstream version.
fn are_upstream_bytes(text: &[u8]) -> bool
    ensures { result ≡ list_all is_upstream_byte text.now }
{
    text.iter().all(|byte| is_upstream_byte(*byte))
}

// Whether the text is an upstream version.
fn is_upstream(text: &[u8]) -> bool
    ensures { result ≡ is_upstream text.now }
{
    match text {
        [] => false,
        [first, rest @ ..] => is_digit(*first) && are_upstream_bytes(rest),
    }
}

// Whether each byte may stand in a revision.
fn are_revision_bytes(text: &[u8]) -> bool
    ensures { result ≡ list_all is_revision_byte text.now }
{
    text.iter().all(|byte| is_revision_byte(*byte))
}

// Whether the text is a revision.
fn is_revision(text: &[u8]) -> bool
    ensures { result ≡ is_revision text.now }
{
    match text {
        [] => false,
        [_, ..] => are_revision_bytes(text),
    }
}

// The version of these parts, as it is ordered.
fn made_of(alloc: Global, epoch: &[u8], upstream: &[u8], revision: &[u8]) -> Result<Version, Memory>
    ensures { IfOk result (λ made. made ≡ made_of epoch.now upstream.now revision.now) }
{
    let mut number = List::new(alloc);
    push_number(&mut number, epoch)?;
    let upstream = part_numbers(alloc, upstream)?;
    let revision = part_numbers(alloc, revision)?;
    Ok(Version {
        epoch: number,
        upstream,
        revision,
    })
}

// The version behind an epoch.
fn version_behind(alloc: Global, epoch: &[u8], text: &[u8]) -> Result<Option<Version>, Memory>
    ensures { IfOk result (λ found. found ≡ version_behind epoch.now text.now) }
{
    match cut_last(text, b'-') {
        None => {
            if !is_upstream(text) {
                return Ok(None);
            }
            let made = made_of(alloc, epoch, text, b"".as_slice())?;
            Ok(Some(made))
        }
        Some((upstream, revision)) => {
            if !is_upstream(upstream) || !is_revision(revision) {
                return Ok(None);
            }
            let made = made_of(alloc, epoch, upstream, revision)?;
            Ok(Some(made))
        }
    }
}

/// The version that a text spells; None where it spells none.
pub(crate) fn read_version(alloc: Global, text: &[u8]) -> Result<Option<Version>, Memory>
    ensures { IfOk result (λ found. found ≡ version text.now) }
{
    match cut_first(text, b':') {
        None => version_behind(alloc, b"".as_slice(), text),
        Some((epoch, rest)) => {
            if !is_epoch(epoch) {
                return Ok(None);
            }
            version_behind(alloc, epoch, rest)
        }
    }
}

/// The order of two versions.
pub(crate) fn version_cmp(a: &Version, b: &Version) -> Ordering
    ensures { result ≡ version_cmp a.now b.now }
{
    let epochs = a.epoch.as_slice().cmp(b.epoch.as_slice());
    let upstreams = a.upstream.as_slice().cmp(b.upstream.as_slice());
    let revisions = a.revision.as_slice().cmp(b.revision.as_slice());
    epochs.then(upstreams.then(revisions))
}
