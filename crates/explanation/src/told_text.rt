// On which systems outcomes come, in words: a list of boxes, each a list of facts that hold together.
ghost use Rattle.std.specs.Prelude.{◌≡◌, ◌++◌, OnOk};
ghost use Rattle.std.specs.List.{flat_map, list_any};
ghost use Rattle.explanation.specs.ToldTexts.{is_empty, is_everywhere, everywhere_line, some_line, under_text};
ghost use Rattle.explanation.specs.ToldTexts.{others_text};
ghost use Rattle.explanation.specs.ToldTexts.{box_text, or_box, boxes_text, told_text};

use crate::braces::put_facts;
use outcome_groups::FactBox;
use script_names::{Bytes, Memory};
use start_facts::PlaceFact;
use std::alloc::Global;

// Whether a box has no facts.
fn is_empty(facts: &FactBox) -> bool
    ensures { result ≡ is_empty facts.now }
{
    facts.deciding.len() == 0 && facts.others.len() == 0
}

// Whether a box has no facts, so that every system is in it.
fn is_everywhere(boxes: &[FactBox]) -> bool
    ensures { result ≡ is_everywhere boxes.now }
{
    boxes.iter().any(|facts| is_empty(facts))
}

// Adds facts behind a title, if there are any.
#[tactic(auto, unfolding(crate::specs::ToldTexts::under_text))]
fn put_under(
    alloc: Global,
    text: &mut Bytes,
    title: &[u8],
    facts: &[PlaceFact],
) -> Result<(), Memory>
    ensures { OnOk result (text.new ≡ text.old ++ under_text title.now facts.now) }
{
    if facts.len() == 0 {
        return Ok(());
    }
    text.extend(title)?;
    put_facts(alloc, text, facts)
}

// Adds the further facts of a box, if there are any.
fn put_others(alloc: Global, text: &mut Bytes, facts: &FactBox) -> Result<(), Memory>
    ensures { OnOk result (text.new ≡ text.old ++ others_text facts.now) }
{
    put_under(alloc, text, b"    and besides\n", facts.others.as_slice())
}

// Adds the facts of a box: those that decide first.
#[tactic(auto, unfolding(crate::specs::ToldTexts::box_text))]
fn put_box(alloc: Global, text: &mut Bytes, facts: &FactBox) -> Result<(), Memory>
    ensures { OnOk result (text.new ≡ text.old ++ box_text facts.now) }
{
    put_facts(alloc, text, facts.deciding.as_slice())?;
    if facts.deciding.len() == 0 {
        return put_facts(alloc, text, facts.others.as_slice());
    }
    put_others(alloc, text, facts)
}

// Adds a box behind others.
#[tactic(auto, unfolding(crate::specs::ToldTexts::or_box))]
fn put_or_box(alloc: Global, text: &mut Bytes, facts: &FactBox) -> Result<(), Memory>
    ensures { OnOk result (text.new ≡ text.old ++ or_box facts.now) }
{
    text.extend(b"    or\n")?;
    put_box(alloc, text, facts)
}

// Adds boxes behind others.
fn put_or_boxes(alloc: Global, text: &mut Bytes, boxes: &[FactBox]) -> Result<(), Memory>
    ensures { OnOk result (text.new ≡ text.old ++ flat_map or_box boxes.now) }
{
    for facts in boxes {
        put_or_box(alloc, text, facts)?;
    }
    Ok(())
}

// Adds boxes.
#[tactic(auto, unfolding(crate::specs::ToldTexts::boxes_text))]
fn put_boxes(alloc: Global, text: &mut Bytes, boxes: &[FactBox]) -> Result<(), Memory>
    ensures { OnOk result (text.new ≡ text.old ++ boxes_text boxes.now) }
{
    match boxes {
        [] => Ok(()),
        [facts, rest @ ..] => {
            put_box(alloc, text, facts)?;
            put_or_boxes(alloc, text, rest)
        }
    }
}

/// Adds on which systems outcomes come: on exactly those that are in a box, or on some of them.
pub fn put_told(
    alloc: Global,
    text: &mut Bytes,
    exact: bool,
    boxes: &[FactBox],
) -> Result<(), Memory>
    ensures { OnOk result (text.new ≡ text.old ++ told_text exact boxes.now) }
{
    if is_everywhere(boxes) {
        return put_everywhere(text, exact);
    }
    put_some(text, exact)?;
    put_boxes(alloc, text, boxes)
}

// Adds that they come on every system, or that they are not told apart from others.
#[tactic(auto, unfolding(crate::specs::ToldTexts::everywhere_line))]
fn put_everywhere(text: &mut Bytes, exact: bool) -> Result<(), Memory>
    ensures { OnOk result (text.new ≡ text.old ++ everywhere_line exact) }
{
    if exact {
        return text.extend(b"  On every system that meets the premises.\n");
    }
    text.extend(b"  On some systems that meet the premises; which ones is not told.\n")
}

// Adds the line before boxes.
#[tactic(auto, unfolding(crate::specs::ToldTexts::some_line))]
fn put_some(text: &mut Bytes, exact: bool) -> Result<(), Memory>
    ensures { OnOk result (text.new ≡ text.old ++ some_line exact) }
{
    if exact {
        return text.extend(b"  On exactly these systems, where\n");
    }
    text.extend(b"  On systems like these, among others, where\n")
}
