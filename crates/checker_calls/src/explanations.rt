//! What is said of packages to people, scenario by scenario.

ghost use Rattle.std.specs.Prelude.{◌≡◌, ◌++◌, OnOk, IfOk};
ghost use Rattle.std.specs.List.{AllZip, flat_map, list_any};
ghost use Rattle.outcome_report.specs.declared.outcome_report.ReportPart.{ReportPart};
ghost use Rattle.package_jobs.specs.Made.{AreProgramsOf};
ghost use Rattle.checker_calls.specs.Explanations.{section_verdict, some_verdict, sections_verdict, is_missing};
ghost use Rattle.checker_calls.specs.Explanations.{reported_text, section_text, sections_text, is_whole, is_page};
ghost use Rattle.checker_calls.specs.Explanations.{legend_before, page_text, part_shown, plain_text};
ghost use Rattle.checker_calls.specs.Explanations.{section_item, section_shown};
ghost use Rattle.checker_calls.specs.Explanations.{ExplanationGives};
ghost use Rattle.checker_calls.specs.Reports.{chosen};

use crate::faults::{Refusal, TaskFault};
use crate::scenarios::each_account;
use crate::written::Written;
use case_pool::Gate;
use checker_input::{Packages, Sources};
use command_words::View;
use dpkg_scenarios::{Scenario, joint_verdict};
use explanation::{
    part_verdict, put_legend, put_no_start, put_over, put_part, put_premises, verdict_words,
};
use explanation_pages::{
    put_item, put_items_end, put_page_begin, put_page_end, put_page_no_start, put_page_over,
    put_page_part, verdict_class,
};
use outcome_report::ReportPart;
use package_jobs::{Programs, job_with, programs_of};
use script_names::{Bytes, Memory};
use std::alloc::Global;
use std::thread::Threads;

// What a section makes of the status.
fn section_verdict(section: &Result<ReportPart, TaskFault>) -> u8
    ensures { result ≡ section_verdict section.now }
{
    match section {
        Ok(part) => part_verdict(part),
        Err(_) => 2,
    }
}

// Whether some section has this verdict.
fn some_verdict(verdict: u8, sections: &[Result<ReportPart, TaskFault>]) -> bool
    ensures { result ≡ some_verdict verdict sections.now }
{
    sections
        .iter()
        .any(|section| section_verdict(section) == verdict)
}

// The status that sections make.
fn sections_verdict(sections: &[Result<ReportPart, TaskFault>]) -> u8
    ensures { result ≡ sections_verdict sections.now }
{
    joint_verdict(some_verdict(1, sections), some_verdict(2, sections))
}

// Whether there is no section for want of memory.
fn is_missing(section: &Result<ReportPart, TaskFault>) -> bool
    ensures { result ≡ is_missing section.now }
{
    match section {
        Ok(_) => false,
        Err(TaskFault::Refused(_)) => false,
        Err(TaskFault::Memory) => true,
    }
}

// Whether one of them is missing.
fn some_missing(sections: &[Result<ReportPart, TaskFault>]) -> bool
    ensures { result ≡ list_any is_missing sections.now }
{
    sections.iter().any(|section| is_missing(section))
}

// Adds what is said of a part of a report.
fn put_reported(
    alloc: Global,
    text: &mut Bytes,
    packages: &Packages,
    sources: &Sources,
    programs: &Programs,
    turns: u32,
    view: View,
    part: &ReportPart,
) -> Result<(), Memory>
    requires { AreProgramsOf packages.now programs.now }
    ensures { OnOk result (text.new ≡ text.old ++ reported_text packages.now sources.now turns view part.now) }
{
    let job = job_with(alloc, part.scenario, packages, programs, turns)?;
    put_part(alloc, text, sources, packages, view, &job, part)
}

// Adds a section.
fn put_section(
    alloc: Global,
    text: &mut Bytes,
    packages: &Packages,
    sources: &Sources,
    programs: &Programs,
    turns: u32,
    view: View,
    section: &Result<ReportPart, TaskFault>,
) -> Result<(), Memory>
    requires { AreProgramsOf packages.now programs.now }
    ensures { OnOk result (text.new ≡ text.old ++ section_text packages.now sources.now turns view section.now) }
{
    match section {
        Ok(part) => { put_reported(alloc, text, packages, sources, programs, turns, view, part) }
        Err(TaskFault::Refused(Refusal::NoStart { scenario })) => {
            put_no_start(text, sources, packages, view, *scenario)
        }
        Err(TaskFault::Refused(Refusal::Limit { scenario, limit })) => {
            put_over(alloc, text, sources, packages, view, *scenario, *limit)
        }
        Err(TaskFault::Refused(Refusal::Kept { .. })) => Ok(()),
        Err(TaskFault::Memory) => Ok(()),
    }
}

// Adds each section.
fn put_sections(
    alloc: Global,
    text: &mut Bytes,
    packages: &Packages,
    sources: &Sources,
    programs: &Programs,
    turns: u32,
    view: View,
    sections: &[Result<ReportPart, TaskFault>],
) -> Result<(), Memory>
    requires { AreProgramsOf packages.now programs.now }
    ensures { OnOk result
        (text.new ≡ text.old ++ flat_map (section_text packages.now sources.now turns view) sections.now) }
{
    for section in sections {
        put_section(
            alloc, text, packages, sources, programs, turns, view, section,
        )?;
    }
    Ok(())
}

// Whether a view is the whole text.
fn is_whole(view: View) -> bool
    ensures { result ≡ is_whole view }
{
    match view {
        View::Text => true,
        View::Places | View::Html | View::Outcome { .. } => false,
    }
}

// Whether a view is a page.
fn is_page(view: View) -> bool
    ensures { result ≡ is_page view }
{
    match view {
        View::Html => true,
        View::Text | View::Places | View::Outcome { .. } => false,
    }
}

// Adds a section to the list of a page.
fn put_section_item(text: &mut Bytes, section: &Result<ReportPart, TaskFault>) -> Result<(), Memory>
    ensures { OnOk result (text.new ≡ text.old ++ section_item section.now) }
{
    match section {
        Ok(part) => {
            let verdict = part_verdict(part);
            put_item(
                text,
                part.scenario,
                verdict_class(verdict),
                verdict_words(verdict),
            )
        }
        Err(TaskFault::Refused(Refusal::NoStart { scenario })) => {
            put_item(text, *scenario, b"undecided", b"NOT EXAMINED")
        }
        Err(TaskFault::Refused(Refusal::Limit { scenario, .. })) => {
            put_item(text, *scenario, b"undecided", b"NOT EXAMINED")
        }
        Err(TaskFault::Refused(Refusal::Kept { .. })) => Ok(()),
        Err(TaskFault::Memory) => Ok(()),
    }
}

// Adds each section to it.
fn put_section_items(
    text: &mut Bytes,
    sections: &[Result<ReportPart, TaskFault>],
) -> Result<(), Memory>
    ensures { OnOk result (text.new ≡ text.old ++ flat_map section_item sections.now) }
{
    for section in sections {
        put_section_item(text, section)?;
    }
    Ok(())
}

// Adds what a page says of a part of a report.
fn put_shown_part(
    alloc: Global,
    text: &mut Bytes,
    packages: &Packages,
    sources: &Sources,
    programs: &Programs,
    turns: u32,
    part: &ReportPart,
) -> Result<(), Memory>
    requires { AreProgramsOf packages.now programs.now }
    ensures { OnOk result (text.new ≡ text.old ++ part_shown packages.now sources.now turns part.now) }
{
    let job = job_with(alloc, part.scenario, packages, programs, turns)?;
    put_page_part(alloc, text, sources, turns, &job, part)
}

// Adds a section of a page.
fn put_shown_section(
    alloc: Global,
    text: &mut Bytes,
    packages: &Packages,
    sources: &Sources,
    programs: &Programs,
    turns: u32,
    section: &Result<ReportPart, TaskFault>,
) -> Result<(), Memory>
    requires { AreProgramsOf packages.now programs.now }
    ensures { OnOk result (text.new ≡ text.old ++ section_shown packages.now sources.now turns section.now) }
{
    match section {
        Ok(part) => put_shown_part(alloc, text, packages, sources, programs, turns, part),
        Err(TaskFault::Refused(Refusal::NoStart { scenario })) => {
            put_page_no_start(alloc, text, sources, packages, *scenario)
        }
        Err(TaskFault::Refused(Refusal::Limit { scenario, limit })) => {
            put_page_over(alloc, text, sources, packages, *scenario, *limit)
        }
        Err(TaskFault::Refused(Refusal::Kept { .. })) => Ok(()),
        Err(TaskFault::Memory) => Ok(()),
    }
}

// Adds each section of a page.
fn put_shown_sections(
    alloc: Global,
    text: &mut Bytes,
    packages: &Packages,
    sources: &Sources,
    programs: &Programs,
    turns: u32,
    sections: &[Result<ReportPart, TaskFault>],
) -> Result<(), Memory>
    requires { AreProgramsOf packages.now programs.now }
    ensures { OnOk result
        (text.new ≡ text.old ++ flat_map (section_shown packages.now sources.now turns) sections.now) }
{
    for section in sections {
        put_shown_section(alloc, text, packages, sources, programs, turns, section)?;
    }
    Ok(())
}

// Adds a page of sections.
#[tactic(auto, unfolding(crate::specs::Explanations::page_text))]
fn put_page(
    alloc: Global,
    text: &mut Bytes,
    packages: &Packages,
    sources: &Sources,
    programs: &Programs,
    turns: u32,
    sections: &[Result<ReportPart, TaskFault>],
) -> Result<(), Memory>
    requires { AreProgramsOf packages.now programs.now }
    ensures { OnOk result (text.new ≡ text.old ++ page_text packages.now sources.now turns sections.now) }
{
    put_page_begin(alloc, text, sources, packages)?;
    put_section_items(text, sections)?;
    put_items_end(text)?;
    put_shown_sections(alloc, text, packages, sources, programs, turns, sections)?;
    put_page_end(alloc, text, sources, &packages.base, turns)
}

// The page of sections.
fn print_page(
    alloc: Global,
    packages: &Packages,
    sources: &Sources,
    programs: &Programs,
    turns: u32,
    sections: &[Result<ReportPart, TaskFault>],
) -> Result<Bytes, Memory>
    requires { AreProgramsOf packages.now programs.now }
    ensures { IfOk result (λ text. text ≡ page_text packages.now sources.now turns sections.now) }
{
    let mut text = Bytes::new(alloc);
    put_page(
        alloc, &mut text, packages, sources, programs, turns, sections,
    )?;
    Ok(text)
}

// Adds what an outcome is, before the whole text.
fn put_legend_before(text: &mut Bytes, view: View) -> Result<(), Memory>
    ensures { OnOk result (text.new ≡ text.old ++ legend_before view) }
{
    if is_whole(view) {
        return put_legend(text);
    }
    Ok(())
}

// The text of sections, one behind another.
fn print_plain(
    alloc: Global,
    packages: &Packages,
    sources: &Sources,
    programs: &Programs,
    turns: u32,
    view: View,
    sections: &[Result<ReportPart, TaskFault>],
) -> Result<Bytes, Memory>
    requires { AreProgramsOf packages.now programs.now }
    ensures { IfOk result (λ text. text ≡ plain_text packages.now sources.now turns view sections.now) }
{
    let mut text = Bytes::new(alloc);
    put_legend_before(&mut text, view)?;
    put_sections(
        alloc, &mut text, packages, sources, programs, turns, view, sections,
    )?;
    if is_whole(view) {
        put_premises(alloc, &mut text, sources, &packages.base)?;
    }
    Ok(text)
}

// The text of sections.
fn print_sections(
    alloc: Global,
    packages: &Packages,
    sources: &Sources,
    programs: &Programs,
    turns: u32,
    view: View,
    sections: &[Result<ReportPart, TaskFault>],
) -> Result<Bytes, Memory>
    requires { AreProgramsOf packages.now programs.now }
    ensures { IfOk result (λ text. text ≡ sections_text packages.now sources.now turns view sections.now) }
{
    if is_page(view) {
        return print_page(alloc, packages, sources, programs, turns, sections);
    }
    print_plain(alloc, packages, sources, programs, turns, view, sections)
}

/// What there is to say of packages to people, in one scenario or in all, and its status. The one fault is want of
/// memory: a scenario that has no report is told in its place.
pub fn write_explanation<R: Threads + Sync, G: Gate>(
    rt: &R,
    alloc: Global,
    gate: &G,
    packages: &Packages,
    sources: &Sources,
    scenario: Option<Scenario>,
    turns: u32,
    limit: u32,
    view: View,
) -> Result<Written, TaskFault>
    ensures { ExplanationGives packages.now sources.now turns view limit (chosen scenario) result }
{
    let programs = programs_of(alloc, packages)?;
    let sections = each_account(rt, alloc, gate, packages, &programs, turns, limit, scenario)?;
    let all = sections.as_slice();
    if some_missing(all) {
        return Err(TaskFault::Memory);
    }
    let text = print_sections(alloc, packages, sources, &programs, turns, view, all)?;
    let status = sections_verdict(all);
    Ok(Written { text, status })
}
