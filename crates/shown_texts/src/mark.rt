ghost use Rattle.std.specs.Prelude.{◌≡◌, ◌++◌, length, take, map, IfOk, OnOk, OnErr};
ghost use Rattle.shown_texts.specs.Marks.{site_text, mark_text, site_from, site_of_parts, site_of, mark_from};
ghost use Rattle.shown_texts.specs.Marks.{mark_of_parts, mark_of};

use crate::number::{push_number, read_number};
use crate::parts::cut;
use script_names::{Bytes, Mark, Memory, Site};
use std::alloc::Global;

/// Adds a site to a text: its step, a colon, and the place in the step. For want of memory the text is as before.
pub fn push_site(text: &mut Bytes, site: Site) -> Result<(), Memory>
    ensures ok { OnOk result (text.new ≡ text.old ++ site_text site) }
    ensures kept { OnErr result (text.new ≡ text.old) }
{
    let len = text.len();
    match push_numbers(text, site) {
        Ok(()) => Ok(()),
        Err(_) => {
            text.truncate(len);
            Err(Memory)
        }
    }
}

// Adds the numbers of a site.
fn push_numbers(text: &mut Bytes, site: Site) -> Result<(), Memory>
    ensures ok { OnOk result (text.new ≡ text.old ++ site_text site) }
    ensures begins { OnErr result (take (length text.old) text.new ≡ text.old) }
{
    push_number(text, u64::from(site.step))?;
    text.push(b':')?;
    push_number(text, u64::from(site.at))
}

/// Adds a mark to a text: its site, a colon, and its row. For want of memory the text is as before.
pub fn push_mark(text: &mut Bytes, mark: Mark) -> Result<(), Memory>
    ensures ok { OnOk result (text.new ≡ text.old ++ mark_text mark) }
    ensures kept { OnErr result (text.new ≡ text.old) }
{
    let len = text.len();
    match push_row(text, mark) {
        Ok(()) => Ok(()),
        Err(_) => {
            text.truncate(len);
            Err(Memory)
        }
    }
}

// Adds a mark.
fn push_row(text: &mut Bytes, mark: Mark) -> Result<(), Memory>
    ensures ok { OnOk result (text.new ≡ text.old ++ mark_text mark) }
    ensures begins { OnErr result (take (length text.old) text.new ≡ text.old) }
{
    push_site(text, mark.site)?;
    text.push(b':')?;
    push_number(text, u64::from(mark.row))
}

/// The site that is written so; None where no site is.
pub fn read_site(alloc: Global, text: &[u8]) -> Result<Option<Site>, Memory>
    ensures { IfOk result (λ found. found ≡ site_of text.now) }
{
    let parts = cut(alloc, text, b':')?;
    Ok(site_of_parts(parts.as_slice()))
}

/// The mark that is written so; None where no mark is.
pub fn read_mark(alloc: Global, text: &[u8]) -> Result<Option<Mark>, Memory>
    ensures { IfOk result (λ found. found ≡ mark_of text.now) }
{
    let parts = cut(alloc, text, b':')?;
    Ok(mark_of_parts(parts.as_slice()))
}

// The site of a text that is cut into these parts.
fn site_of_parts(parts: &[&[u8]]) -> Option<Site>
    ensures { result ≡ site_of_parts (map (λ part. part.now) parts.now) }
{
    match parts {
        [] => None,
        [_] => None,
        [step, at] => site_from(step, at),
        [_, _, _, ..] => None,
    }
}

// The mark of a text that is cut into these parts.
fn mark_of_parts(parts: &[&[u8]]) -> Option<Mark>
    ensures { result ≡ mark_of_parts (map (λ part. part.now) parts.now) }
{
    match parts {
        [] => None,
        [_] => None,
        [_, _] => None,
        [step, at, row] => mark_from(step, at, row),
        [_, _, _, _, ..] => None,
    }
}

// The site of a step and a place that are written so.
fn site_from(step: &[u8], at: &[u8]) -> Option<Site>
    ensures { result ≡ site_from step.now at.now }
{
    let step = match read_number(step, u16::MAX as u32) {
        Some(step) => step,
        None => return None,
    };
    match read_number(at, u32::MAX) {
        Some(at) => Some(Site {
            step: step as u16,
            at,
        }),
        None => None,
    }
}

// The mark of a step, a place and a row that are written so.
fn mark_from(step: &[u8], at: &[u8], row: &[u8]) -> Option<Mark>
    ensures { result ≡ mark_from step.now at.now row.now }
{
    let site = match site_from(step, at) {
        Some(site) => site,
        None => return None,
    };
    match read_number(row, u8::MAX as u32) {
        Some(row) => Some(Mark {
            site,
            row: row as u8,
        }),
        None => None,
    }
}
