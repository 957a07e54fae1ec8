//! The lines of a script in a table.

ghost use Rattle.std.specs.Prelude.{◌≡◌, ◌++◌, OnOk, length};
ghost use Rattle.std.specs.List.{flat_map};
ghost use Rattle.explanation_pages.specs.Rows.{count_cell, count_words, end_if, end_link, ends_cell, left_words};
ghost use Rattle.explanation_pages.specs.Rows.{row_begin, row_class, row_html, site_is_on, text_cell, verdict_count};

use crate::anchors::{put_group_anchor, put_row_anchor};
use crate::cut_lines::Line;
use crate::details::group_class;
use crate::joined::{put_seven, put_three};
use crate::margins::{act_count, is_left, is_on};
use crate::tables::{Table, site_in};
use checker_input::Sources;
use dpkg_scenarios::ending_verdict;
use html_texts::push_html;
use outcome_groups::Group;
use outcome_report::ReportPart;
use script_names::{Bytes, List, Memory};
use script_places::Lines;
use shown_texts::push_number;
use std::alloc::Global;

// The class of a line, as an attribute: in some lines outcomes have an act, and some are not reached.
fn row_class(left: bool, count: usize) -> &'static [u8]
    ensures { result.now ≡ row_class left count }
{
    if left {
        return b" class=\"left\"";
    }
    if count == 0 {
        return b"";
    }
    b" class=\"acts\""
}

// Adds the number of a line, which has a name.
#[tactic(auto, unfolding(crate::specs::Rows::row_begin))]
fn put_row_begin(
    alloc: Global,
    text: &mut Bytes,
    table: Table,
    number: usize,
    class: &[u8],
) -> Result<(), Memory>
    ensures { OnOk result (text.new ≡ text.old ++ row_begin table number class.now) }
{
    let mut anchor = Bytes::new(alloc);
    put_row_anchor(&mut anchor, table, number)?;
    let mut digits = Bytes::new(alloc);
    push_number(&mut digits, number as u64)?;
    put_seven(
        text,
        b"<tr",
        class,
        b" id=\"",
        anchor.as_slice(),
        b"\"><th scope=\"row\">",
        digits.as_slice(),
        b"</th>",
    )
}

// Adds a number that is not 0.
#[tactic(auto, unfolding(crate::specs::Rows::count_words))]
fn put_count_words(text: &mut Bytes, count: usize) -> Result<(), Memory>
    ensures { OnOk result (text.new ≡ text.old ++ count_words count) }
{
    if count == 0 {
        return Ok(());
    }
    push_number(text, count as u64)
}

// Adds of how many outcomes an act stands in a line.
#[tactic(auto, unfolding(crate::specs::Rows::count_cell))]
fn put_count_cell(alloc: Global, text: &mut Bytes, count: usize) -> Result<(), Memory>
    ensures { OnOk result (text.new ≡ text.old ++ count_cell count) }
{
    let mut words = Bytes::new(alloc);
    put_count_words(&mut words, count)?;
    put_three(text, b"<td>", words.as_slice(), b"</td>")
}

// How the outcomes of a verdict are counted.
fn verdict_count(verdict: u8) -> &'static [u8]
    ensures { result.now ≡ verdict_count verdict }
{
    match verdict {
        0 => b" end well",
        1 => b" fail",
        _ => b" undecided",
    }
}

// Adds a link to a group, with how many outcomes there are, and how they end.
#[tactic(auto, unfolding(crate::specs::Rows::end_link))]
fn put_end_link(text: &mut Bytes, part: &ReportPart, group: &Group) -> Result<(), Memory>
    ensures { OnOk result (text.new ≡ text.old ++ end_link part.now group.now) }
{
    text.extend(b"<a class=\"")?;
    text.extend(group_class(group))?;
    text.extend(b"\" href=\"#")?;
    put_group_anchor(text, part.scenario, part.entries.as_slice(), group)?;
    text.extend(b"\">")?;
    push_number(text, group.members.len() as u64)?;
    text.extend(verdict_count(ending_verdict(group.end.ending)))?;
    text.extend(b"</a> ")
}

// Whether a byte of a script stands in a line, where there is one.
fn site_is_on(line: &Line, site: Option<u32>) -> bool
    ensures { result ≡ site_is_on line.now site }
{
    match site {
        Some(at) => is_on(line, at),
        None => false,
    }
}

// Adds a link to a group, if its outcomes end in this line.
#[tactic(auto, unfolding(crate::specs::Rows::end_if))]
fn put_end_if(
    text: &mut Bytes,
    sources: &Sources,
    table: Table,
    part: &ReportPart,
    line: &Line,
    group: &Group,
) -> Result<(), Memory>
    ensures { OnOk result
        (text.new ≡ text.old ++ end_if sources.now table part.now line.now group.now) }
{
    if site_is_on(line, site_in(sources, table, group.end.site)) {
        return put_end_link(text, part, group);
    }
    Ok(())
}

// Adds a link to each group whose outcomes end in this line.
fn put_ends(
    text: &mut Bytes,
    sources: &Sources,
    table: Table,
    part: &ReportPart,
    line: &Line,
    groups: &[Group],
) -> Result<(), Memory>
    ensures { OnOk result (text.new ≡ text.old
        ++ flat_map (end_if sources.now table part.now line.now) groups.now) }
{
    for group in groups {
        put_end_if(text, sources, table, part, line, group)?;
    }
    Ok(())
}

// That no outcome reaches a line, where that is known.
fn left_words(left: bool) -> &'static [u8]
    ensures { result.now ≡ left_words left }
{
    if left {
        return b"not reached";
    }
    b""
}

// Adds which outcomes end in a line.
#[tactic(auto, unfolding(crate::specs::Rows::ends_cell))]
fn put_ends_cell(
    text: &mut Bytes,
    sources: &Sources,
    table: Table,
    part: &ReportPart,
    groups: &[Group],
    left: bool,
    line: &Line,
) -> Result<(), Memory>
    ensures { OnOk result
        (text.new ≡ text.old ++ ends_cell sources.now table part.now groups.now left line.now) }
{
    text.extend(b"<td>")?;
    text.extend(left_words(left))?;
    put_ends(text, sources, table, part, line, groups)?;
    text.extend(b"</td>")
}

// Adds what is written in a line.
#[tactic(auto, unfolding(crate::specs::Rows::text_cell))]
fn put_text_cell(alloc: Global, text: &mut Bytes, line: &Line) -> Result<(), Memory>
    ensures { OnOk result (text.new ≡ text.old ++ text_cell line.now) }
{
    let mut shown = Bytes::new(alloc);
    push_html(alloc, &mut shown, line.text.as_slice())?;
    put_three(text, b"<td>", shown.as_slice(), b"</td></tr>\n")
}

// Adds a line.
#[tactic(auto, unfolding(crate::specs::Rows::row_html))]
fn put_row(
    alloc: Global,
    text: &mut Bytes,
    sources: &Sources,
    table: Table,
    part: &ReportPart,
    groups: &[Group],
    sites: &[List<u32>],
    left: Option<Lines>,
    line: &Line,
) -> Result<(), Memory>
    ensures { OnOk result (text.new ≡ text.old
        ++ row_html sources.now table part.now groups.now sites.now left line.now) }
{
    let count = act_count(line, sites);
    let left = is_left(left, line.number);
    put_row_begin(alloc, text, table, line.number, row_class(left, count))?;
    put_count_cell(alloc, text, count)?;
    put_ends_cell(text, sources, table, part, groups, left, line)?;
    put_text_cell(alloc, text, line)
}

/// Adds lines.
pub fn put_rows(
    alloc: Global,
    text: &mut Bytes,
    sources: &Sources,
    table: Table,
    part: &ReportPart,
    groups: &[Group],
    sites: &[List<u32>],
    left: Option<Lines>,
    lines: &[Line],
) -> Result<(), Memory>
    ensures { OnOk result (text.new ≡ text.old
        ++ flat_map (row_html sources.now table part.now groups.now sites.now left) lines.now) }
{
    for line in lines {
        put_row(alloc, text, sources, table, part, groups, sites, left, line)?;
    }
    Ok(())
}
