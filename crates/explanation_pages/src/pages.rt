//! What stands in a page around its scenarios.

ghost use Rattle.std.specs.Prelude.{◌≡◌, ◌++◌, OnOk};
ghost use Rattle.explanation_pages.specs.Pages.{check_html, item_html, items_end, package_html, page_begin, page_end};
ghost use Rattle.explanation_pages.specs.Pages.{page_head, page_heading, premises_html, title_begin};

use crate::commands::{put_check_line, put_command};
use crate::joined::{put_five, put_nine, put_three};
use crate::shown_lines::put_pre;
use crate::styles::put_style;
use checker_input::{Packages, Sources};
use dpkg_scenarios::{Scenario, scenario_name};
use explanation::{put_package, put_premises};
use html_texts::push_html;
use script_names::{Bytes, Memory};
use std::alloc::Global;
use system_base::Base;

// Adds what stands before the title: what the text is, and that nothing is to be loaded.
#[tactic(auto, unfolding(crate::specs::Pages::title_begin))]
fn put_title_begin(text: &mut Bytes) -> Result<(), Memory>
    ensures { OnOk result (text.new ≡ text.old ++ title_begin) }
{
    put_three(
        text,
        b"<!doctype html>\n<html lang=\"en\">\n<head>\n<meta charset=\"utf-8\">\n",
        b"<meta name=\"viewport\" content=\"width=device-width, initial-scale=1\">\n",
        b"<meta http-equiv=\"Content-Security-Policy\" content=\"default-src 'none'; style-src 'unsafe-inline'\">\n",
    )
}

// Adds the package's folder and version.
#[tactic(auto, unfolding(crate::specs::Pages::package_html))]
fn put_package_html(
    alloc: Global,
    text: &mut Bytes,
    sources: &Sources,
    packages: &Packages,
) -> Result<(), Memory>
    ensures { OnOk result (text.new ≡ text.old ++ package_html sources.now packages.now) }
{
    let mut package = Bytes::new(alloc);
    put_package(&mut package, sources, packages)?;
    push_html(alloc, text, package.as_slice())
}

// Adds the head of a page.
#[tactic(auto, unfolding(crate::specs::Pages::page_head))]
fn put_page_head(
    alloc: Global,
    text: &mut Bytes,
    sources: &Sources,
    packages: &Packages,
) -> Result<(), Memory>
    ensures { OnOk result (text.new ≡ text.old ++ page_head sources.now packages.now) }
{
    put_title_begin(text)?;
    text.extend(b"<title>colis: ")?;
    put_package_html(alloc, text, sources, packages)?;
    text.extend(b"</title>\n<style>\n")?;
    put_style(text)?;
    text.extend(b"</style>\n</head>\n")
}

// Adds the heading, behind which the list of scenarios comes.
#[tactic(auto, unfolding(crate::specs::Pages::page_heading))]
fn put_heading(
    alloc: Global,
    text: &mut Bytes,
    sources: &Sources,
    packages: &Packages,
) -> Result<(), Memory>
    ensures { OnOk result (text.new ≡ text.old ++ page_heading sources.now packages.now) }
{
    let mut package = Bytes::new(alloc);
    put_package_html(alloc, &mut package, sources, packages)?;
    put_three(
        text,
        b"<body>\n<h1>",
        package.as_slice(),
        b"</h1>\n<nav aria-label=\"Scenarios\">\n<ul>\n",
    )
}

/// Adds what stands before the list of scenarios.
#[tactic(auto, unfolding(crate::specs::Pages::page_begin))]
pub fn put_page_begin(
    alloc: Global,
    text: &mut Bytes,
    sources: &Sources,
    packages: &Packages,
) -> Result<(), Memory>
    ensures { OnOk result (text.new ≡ text.old ++ page_begin sources.now packages.now) }
{
    put_page_head(alloc, text, sources, packages)?;
    put_heading(alloc, text, sources, packages)
}

/// Adds a scenario to the list, with words for how it ends, which have a class.
#[tactic(auto, unfolding(crate::specs::Pages::item_html))]
pub fn put_item(
    text: &mut Bytes,
    scenario: Scenario,
    class: &[u8],
    words: &[u8],
) -> Result<(), Memory>
    ensures { OnOk result (text.new ≡ text.old ++ item_html scenario class.now words.now) }
{
    put_nine(
        text,
        b"<li><a href=\"#",
        scenario_name(scenario).as_bytes(),
        b"\">",
        scenario_name(scenario).as_bytes(),
        b"</a>: <strong class=\"",
        class,
        b"\">",
        words,
        b"</strong></li>\n",
    )
}

/// Adds the end of the list.
pub fn put_items_end(text: &mut Bytes) -> Result<(), Memory>
    ensures { OnOk result (text.new ≡ text.old ++ items_end) }
{
    text.extend(b"</ul>\n</nav>\n<main>\n")
}

// Adds the command line of the report.
#[tactic(auto, unfolding(crate::specs::Pages::check_html))]
fn put_check_html(
    alloc: Global,
    text: &mut Bytes,
    sources: &Sources,
    turns: u32,
) -> Result<(), Memory>
    ensures { OnOk result (text.new ≡ text.old ++ check_html sources.now turns) }
{
    let mut check = Bytes::new(alloc);
    put_check_line(alloc, &mut check, sources, turns)?;
    put_command(alloc, text, check.as_slice())
}

// Adds the premises.
#[tactic(auto, unfolding(crate::specs::Pages::premises_html))]
fn put_premises_html(
    alloc: Global,
    text: &mut Bytes,
    sources: &Sources,
    base: &Base,
) -> Result<(), Memory>
    ensures { OnOk result (text.new ≡ text.old ++ premises_html sources.now base.now) }
{
    let mut premises = Bytes::new(alloc);
    put_premises(alloc, &mut premises, sources, base)?;
    put_pre(alloc, text, premises.as_slice())
}

/// Adds what stands behind the scenarios: the premises, and how the whole report is had, with so many turns of loops.
#[tactic(auto, unfolding(crate::specs::Pages::page_end))]
pub fn put_page_end(
    alloc: Global,
    text: &mut Bytes,
    sources: &Sources,
    base: &Base,
    turns: u32,
) -> Result<(), Memory>
    ensures { OnOk result (text.new ≡ text.old ++ page_end sources.now base.now turns) }
{
    let mut premises = Bytes::new(alloc);
    put_premises_html(alloc, &mut premises, sources, base)?;
    let mut check = Bytes::new(alloc);
    put_check_html(alloc, &mut check, sources, turns)?;
    put_five(
        text,
        b"</main>\n<footer>\n",
        premises.as_slice(),
        b"<p>The whole report: ",
        check.as_slice(),
        b"</p>\n</footer>\n</body>\n</html>\n",
    )
}
