//! The scripts in a page, each as a table of its lines, folded behind what is counted of it.

ghost use Rattle.std.specs.Prelude.{◌≡◌, ◌++◌, OnOk};
ghost use Rattle.std.specs.List.{flat_map};
ghost use Rattle.explanation_pages.specs.Scripts.{all_tables, file_html, open_words, rows_html, script_counts, side_tables, side_words};
ghost use Rattle.explanation_pages.specs.Scripts.{summary_html, table_begin, table_head, table_html, table_if};

use crate::cut_lines::lines_of;
use crate::joined::{put_five, put_four, put_seven, put_three};
use crate::margins::acting_count;
use crate::rows::put_rows;
use crate::tables::{Table, ender_count, sites_of};
use checker_input::Sources;
use dpkg_scenarios::{ScriptKind, Side, scenario_name};
use explanation::{is_alone, put_counted, put_script_file, script_text, unreached_lines};
use html_texts::push_html;
use outcome_groups::Group;
use outcome_report::ReportPart;
use script_names::{Bytes, List, Memory};
use shown_texts::push_number;
use std::alloc::Global;

// Adds the name of a script's file.
#[tactic(auto, unfolding(crate::specs::Scripts::file_html))]
fn put_file(alloc: Global, text: &mut Bytes, sources: &Sources, table: Table) -> Result<(), Memory>
    ensures { OnOk result (text.new ≡ text.old ++ file_html sources.now table) }
{
    let mut file = Bytes::new(alloc);
    put_script_file(&mut file, sources, table.side, table.script)?;
    push_html(alloc, text, file.as_slice())
}

// That a table is not folded, where outcomes fail or are undecided in it.
fn open_words(failing: usize, undecided: usize) -> &'static [u8]
    ensures { result.now ≡ open_words failing undecided }
{
    if failing == 0 && undecided == 0 {
        return b"";
    }
    b" open"
}

// Adds how many outcomes have an act in a script, fail in it, and are undecided in it.
#[tactic(auto, unfolding(crate::specs::Scripts::script_counts))]
fn put_script_counts(
    alloc: Global,
    text: &mut Bytes,
    acting: usize,
    failing: usize,
    undecided: usize,
) -> Result<(), Memory>
    ensures { OnOk result (text.new ≡ text.old ++ script_counts acting failing undecided) }
{
    let mut all = Bytes::new(alloc);
    put_counted(&mut all, acting as u64)?;
    let mut fail = Bytes::new(alloc);
    push_number(&mut fail, failing as u64)?;
    let mut left = Bytes::new(alloc);
    push_number(&mut left, undecided as u64)?;
    put_seven(
        text,
        b": acts of ",
        all.as_slice(),
        b"; here ",
        fail.as_slice(),
        b" fail, ",
        left.as_slice(),
        b" undecided",
    )
}

// Whose script it is, where it is the old package's.
fn side_words(side: Side) -> &'static [u8]
    ensures { result.now ≡ side_words side }
{
    match side {
        Side::New => b", ",
        Side::Old => b", of the old package: ",
    }
}

// Adds the first line of a script.
#[tactic(auto, unfolding(crate::specs::Scripts::summary_html))]
fn put_summary(
    alloc: Global,
    text: &mut Bytes,
    sources: &Sources,
    table: Table,
    acting: usize,
    failing: usize,
    undecided: usize,
) -> Result<(), Memory>
    ensures { OnOk result
        (text.new ≡ text.old ++ summary_html sources.now table acting failing undecided) }
{
    let mut file = Bytes::new(alloc);
    put_file(alloc, &mut file, sources, table)?;
    let mut counts = Bytes::new(alloc);
    put_script_counts(alloc, &mut counts, acting, failing, undecided)?;
    put_five(
        text,
        b"<summary>",
        scenario_name(table.scenario).as_bytes(),
        side_words(table.side),
        file.as_slice(),
        counts.as_slice(),
    )
}

// Adds what the columns of its lines say.
#[tactic(auto, unfolding(crate::specs::Scripts::table_head))]
fn put_table_head(text: &mut Bytes) -> Result<(), Memory>
    ensures { OnOk result (text.new ≡ text.old ++ table_head) }
{
    put_four(
        text,
        b"</summary>\n<table><caption>Acts: of how many outcomes an act stands in the line. Ends: how many end there. ",
        b"A line where both are blank may be passed all the same; lines that no outcome reaches say so, where that is known.</caption>\n",
        b"<thead><tr><th scope=\"col\">Line</th><th scope=\"col\">Acts</th><th scope=\"col\">Ends</th>",
        b"<th scope=\"col\">Text</th></tr></thead>\n<tbody>\n",
    )
}

// Adds what stands above its lines.
#[tactic(auto, unfolding(crate::specs::Scripts::table_begin))]
fn put_table_begin(
    alloc: Global,
    text: &mut Bytes,
    sources: &Sources,
    table: Table,
    acting: usize,
    failing: usize,
    undecided: usize,
) -> Result<(), Memory>
    ensures { OnOk result
        (text.new ≡ text.old ++ table_begin sources.now table acting failing undecided) }
{
    let mut summary = Bytes::new(alloc);
    put_summary(
        alloc,
        &mut summary,
        sources,
        table,
        acting,
        failing,
        undecided,
    )?;
    let mut head = Bytes::new(alloc);
    put_table_head(&mut head)?;
    put_five(
        text,
        b"<details class=\"script\"",
        open_words(failing, undecided),
        b">",
        summary.as_slice(),
        head.as_slice(),
    )
}

// Adds the lines of a script, by the bytes at which acts of each outcome are.
#[tactic(auto, unfolding(crate::specs::Scripts::rows_html))]
fn put_script_rows(
    alloc: Global,
    text: &mut Bytes,
    sources: &Sources,
    table: Table,
    part: &ReportPart,
    groups: &[Group],
    sites: &[List<u32>],
) -> Result<(), Memory>
    ensures { OnOk result
        (text.new ≡ text.old ++ rows_html sources.now table part.now groups.now sites.now) }
{
    let entries = part.entries.as_slice();
    let left = unreached_lines(alloc, sources, entries, table.side, table.script)?;
    let lines = lines_of(alloc, script_text(sources, table.side, table.script))?;
    put_rows(
        alloc,
        text,
        sources,
        table,
        part,
        groups,
        sites,
        left,
        lines.as_slice(),
    )
}

// Adds a script, line by line.
#[tactic(auto, unfolding(crate::specs::Scripts::table_html))]
fn put_table(
    alloc: Global,
    text: &mut Bytes,
    sources: &Sources,
    table: Table,
    part: &ReportPart,
    groups: &[Group],
) -> Result<(), Memory>
    ensures { OnOk result (text.new ≡ text.old ++ table_html sources.now table part.now groups.now) }
{
    let sites = sites_of(alloc, sources, table, part.entries.as_slice())?;
    let acting = acting_count(sites.as_slice());
    let failing = ender_count(alloc, sources, table, 1, groups)?;
    let undecided = ender_count(alloc, sources, table, 2, groups)?;
    let mut begin = Bytes::new(alloc);
    put_table_begin(
        alloc, &mut begin, sources, table, acting, failing, undecided,
    )?;
    let mut rows = Bytes::new(alloc);
    put_script_rows(
        alloc,
        &mut rows,
        sources,
        table,
        part,
        groups,
        sites.as_slice(),
    )?;
    put_three(
        text,
        begin.as_slice(),
        rows.as_slice(),
        b"</tbody></table></details>\n",
    )
}

// Adds a script of one of the packages, where there is one.
#[tactic(auto, unfolding(crate::specs::Scripts::table_if))]
fn put_table_if(
    alloc: Global,
    text: &mut Bytes,
    sources: &Sources,
    part: &ReportPart,
    groups: &[Group],
    side: Side,
    script: ScriptKind,
) -> Result<(), Memory>
    ensures { OnOk result (text.new ≡ text.old ++ table_if sources.now part.now groups.now side script) }
{
    if script_text(sources, side, script).len() == 0 {
        return Ok(());
    }
    let table = Table {
        scenario: part.scenario,
        side,
        script,
    };
    put_table(alloc, text, sources, table, part, groups)
}

// Adds the scripts of one of the packages.
#[tactic(auto, unfolding(crate::specs::Scripts::side_tables))]
fn put_side_tables(
    alloc: Global,
    text: &mut Bytes,
    sources: &Sources,
    part: &ReportPart,
    groups: &[Group],
    side: Side,
) -> Result<(), Memory>
    ensures { OnOk result (text.new ≡ text.old ++ side_tables sources.now part.now groups.now side) }
{
    put_table_if(
        alloc,
        text,
        sources,
        part,
        groups,
        side,
        ScriptKind::Preinst,
    )?;
    put_table_if(
        alloc,
        text,
        sources,
        part,
        groups,
        side,
        ScriptKind::Postinst,
    )?;
    put_table_if(alloc, text, sources, part, groups, side, ScriptKind::Prerm)?;
    put_table_if(alloc, text, sources, part, groups, side, ScriptKind::Postrm)
}

/// Adds all scripts.
#[tactic(auto, unfolding(crate::specs::Scripts::all_tables))]
pub fn put_tables(
    alloc: Global,
    text: &mut Bytes,
    sources: &Sources,
    part: &ReportPart,
    groups: &[Group],
) -> Result<(), Memory>
    ensures { OnOk result (text.new ≡ text.old ++ all_tables sources.now part.now groups.now) }
{
    put_side_tables(alloc, text, sources, part, groups, Side::New)?;
    if is_alone(&sources.old_texts) {
        return Ok(());
    }
    put_side_tables(alloc, text, sources, part, groups, Side::Old)
}
