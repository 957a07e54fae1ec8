//! Of which outcomes an act stands in a line.

ghost use Rattle.std.specs.Prelude.{◌≡◌, length};
ghost use Rattle.std.specs.List.{filter, list_any};
ghost use Rattle.explanation_pages.specs.Margins.{act_count, acting_count, acts_on, acts_somewhere, is_left, is_on};

use crate::cut_lines::Line;
use script_names::List;
use script_places::Lines;

/// Whether a byte of a script stands in a line, or is its newline.
pub fn is_on(line: &Line, at: u32) -> bool
    ensures { result ≡ is_on line.now at }
{
    let at = at as usize;
    at >= line.begin && at - line.begin <= line.text.len()
}

// Whether an act of an outcome stands in a line, whose acts are at these bytes.
fn acts_on(line: &Line, sites: &[u32]) -> bool
    ensures { result ≡ acts_on line.now sites.now }
{
    sites.iter().any(|at| is_on(line, *at))
}

/// Of how many outcomes an act stands in a line.
pub fn act_count(line: &Line, all: &[List<u32>]) -> usize
    ensures { result ≡ act_count line.now all.now }
{
    all.iter()
        .filter(|sites| acts_on(line, sites.as_slice()))
        .count()
}

// Whether an outcome has an act in the script, at some byte.
fn acts_somewhere(sites: &[u32]) -> bool
    ensures { result ≡ acts_somewhere sites.now }
{
    match sites {
        [] => false,
        [_, ..] => true,
    }
}

/// How many outcomes have an act in the script.
pub fn acting_count(all: &[List<u32>]) -> usize
    ensures { result ≡ acting_count all.now }
{
    all.iter()
        .filter(|sites| acts_somewhere(sites.as_slice()))
        .count()
}

/// Whether a line is one of these, where some are known.
pub fn is_left(left: Option<Lines>, number: usize) -> bool
    ensures { result ≡ is_left left number }
{
    match left {
        Some(lines) => number >= lines.first && number <= lines.last,
        None => false,
    }
}
