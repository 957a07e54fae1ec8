// The lines of facts: facts that say the same of places in one folder stand on one line.
ghost use Rattle.std.specs.Prelude.{◌≡◌, ◌++◌, ◌&&◌, not, IfOk, OnOk};
ghost use Rattle.std.specs.List.{flat_map, list_all, list_any};
ghost use Rattle.explanation.specs.Braces.{are_beside, facts_text, first_line, further_name, is_first, is_further};
ghost use Rattle.explanation.specs.Braces.{is_joinable, is_like, is_loose, is_loose_name, joined_line, joined_names};
ghost use Rattle.explanation.specs.Braces.{last_name, parent, told_line};
ghost use Rattle.explanation.specs.FactTexts.{fact_words, is_implied};

use crate::facts_text::{is_implied, put_fact, put_said};
use script_names::{Bytes, Memory, Name};
use shown_texts::{push_path, push_shown};
use start_facts::{Fact, PlaceFact};
use std::alloc::Global;
use utility_calls::same_names;

// Whether a byte is no brace and no comma.
fn is_loose(byte: u8) -> bool
    ensures { result ≡ is_loose byte }
{
    byte != b'{' && (byte != b'}' && byte != b',')
}

// Whether a name is without braces and commas.
fn is_loose_name(name: &Name) -> bool
    ensures { result ≡ is_loose_name name.now }
{
    name.as_slice().iter().all(|byte| is_loose(*byte))
}

// Whether each name of a path is without them.
fn are_loose(place: &[Name]) -> bool
    ensures { result ≡ list_all is_loose_name place.now }
{
    place.iter().all(|name| is_loose_name(name))
}

// Whether a place is in a folder, and its path without braces and commas.
fn is_joinable(place: &[Name]) -> bool
    ensures { result ≡ is_joinable place.now }
{
    1 < place.len() && are_loose(place)
}

// The path of the folder.
fn parent(place: &[Name]) -> &[Name]
    ensures { result.now ≡ parent place.now }
{
    &place[..place.len().saturating_sub(1)]
}

// The name in the folder.
fn last_name(place: &[Name]) -> &[u8]
    ensures { result.now ≡ last_name place.now }
{
    match place.get(place.len().saturating_sub(1)) {
        Some(name) => name.as_slice(),
        None => b"",
    }
}

// Whether places are in one folder, and their paths without braces and commas.
fn are_beside(a: &[Name], b: &[Name]) -> bool
    ensures { result ≡ are_beside a.now b.now }
{
    let both = is_joinable(a) && is_joinable(b);
    both && same_names(parent(a), parent(b))
}

// What a fact says.
fn words_of(alloc: Global, fact: &Fact) -> Result<Bytes, Memory>
    ensures { IfOk result (λ words. words ≡ fact_words fact.now) }
{
    let mut words = Bytes::new(alloc);
    put_said(&mut words, fact)?;
    Ok(words)
}

// Whether both facts are of places in one folder, and say the same.
fn is_like(alloc: Global, a: &PlaceFact, b: &PlaceFact) -> Result<bool, Memory>
    ensures { IfOk result (λ like. like ≡ is_like a.now b.now) }
{
    if !are_beside(a.place.as_slice(), b.place.as_slice()) {
        return Ok(false);
    }
    let one = words_of(alloc, &a.fact)?;
    let other = words_of(alloc, &b.fact)?;
    Ok(one.as_slice() == other.as_slice())
}

// Whether no fact that is told and like this one stands before it.
fn is_first(alloc: Global, facts: &[PlaceFact], fact: &PlaceFact) -> Result<bool, Memory>
    ensures { IfOk result (λ first. first ≡ is_first facts.now facts.now fact.now) }
{
    let mut left = facts;
    while let [other, rest @ ..] = left {
        let like = is_like(alloc, other, fact)?;
        if like && !is_implied(facts, other) {
            return Ok(same_names(other.place.as_slice(), fact.place.as_slice()));
        }
        left = rest;
    }
    Ok(true)
}

// Whether another of these facts is told, and like this one.
fn is_further(
    alloc: Global,
    facts: &[PlaceFact],
    fact: &PlaceFact,
    other: &PlaceFact,
) -> Result<bool, Memory>
    ensures { IfOk result (λ further. further ≡ is_further facts.now fact.now other.now) }
{
    let like = is_like(alloc, fact, other)?;
    let told = like && !is_implied(facts, other);
    Ok(told && !same_names(fact.place.as_slice(), other.place.as_slice()))
}

// Whether there is one.
fn has_further(alloc: Global, facts: &[PlaceFact], fact: &PlaceFact) -> Result<bool, Memory>
    ensures { IfOk result (λ has. has ≡ list_any (is_further facts.now fact.now) facts.now) }
{
    let mut left = facts;
    while let [other, rest @ ..] = left {
        let further = is_further(alloc, facts, fact, other)?;
        if further {
            return Ok(true);
        }
        left = rest;
    }
    Ok(false)
}

// Adds the name of a further place.
#[tactic(auto, unfolding(crate::specs::Braces::further_name))]
fn put_further_name(
    alloc: Global,
    text: &mut Bytes,
    facts: &[PlaceFact],
    fact: &PlaceFact,
    other: &PlaceFact,
) -> Result<(), Memory>
    ensures { OnOk result (text.new ≡ text.old ++ further_name facts.now fact.now other.now) }
{
    let further = is_further(alloc, facts, fact, other)?;
    if !further {
        return Ok(());
    }
    text.extend(b",")?;
    push_shown(text, last_name(other.place.as_slice()))
}

// Adds the names of the further places.
fn put_further_names(
    alloc: Global,
    text: &mut Bytes,
    facts: &[PlaceFact],
    fact: &PlaceFact,
) -> Result<(), Memory>
    ensures { OnOk result (text.new ≡ text.old ++ flat_map (further_name facts.now fact.now) facts.now) }
{
    for other in facts {
        put_further_name(alloc, text, facts, fact, other)?;
    }
    Ok(())
}

// Adds the names of the places.
#[tactic(auto, unfolding(crate::specs::Braces::joined_names))]
fn put_joined_names(
    alloc: Global,
    text: &mut Bytes,
    facts: &[PlaceFact],
    fact: &PlaceFact,
) -> Result<(), Memory>
    ensures { OnOk result (text.new ≡ text.old ++ joined_names facts.now fact.now) }
{
    push_shown(text, last_name(fact.place.as_slice()))?;
    put_further_names(alloc, text, facts, fact)
}

// Adds one line for all of them.
#[tactic(auto, unfolding(crate::specs::Braces::joined_line))]
fn put_joined_line(
    alloc: Global,
    text: &mut Bytes,
    facts: &[PlaceFact],
    fact: &PlaceFact,
) -> Result<(), Memory>
    ensures { OnOk result (text.new ≡ text.old ++ joined_line facts.now fact.now) }
{
    text.extend(b"      ")?;
    push_path(text, parent(fact.place.as_slice()))?;
    text.extend(b"/{")?;
    put_joined_names(alloc, text, facts, fact)?;
    text.extend(b"}")?;
    put_said(text, &fact.fact)?;
    text.extend(b"\n")
}

// Adds the line of the first fact of its sort.
#[tactic(auto, unfolding(crate::specs::Braces::first_line))]
fn put_first_line(
    alloc: Global,
    text: &mut Bytes,
    facts: &[PlaceFact],
    fact: &PlaceFact,
) -> Result<(), Memory>
    ensures { OnOk result (text.new ≡ text.old ++ first_line facts.now fact.now) }
{
    let further = has_further(alloc, facts, fact)?;
    if further {
        return put_joined_line(alloc, text, facts, fact);
    }
    put_fact(text, fact)
}

// Whether a fact has a line of its own: it does not follow from another, and stands on no other's line.
fn has_line(alloc: Global, facts: &[PlaceFact], fact: &PlaceFact) -> Result<bool, Memory>
    ensures { IfOk result (λ has. has ≡ not (is_implied facts.now fact.now) && is_first facts.now facts.now fact.now) }
{
    if is_implied(facts, fact) {
        return Ok(false);
    }
    let first = is_first(alloc, facts, fact)?;
    Ok(first)
}

// Adds the line of one of these facts, if it has one.
#[tactic(auto, unfolding(crate::specs::Braces::told_line))]
fn put_told(
    alloc: Global,
    text: &mut Bytes,
    facts: &[PlaceFact],
    fact: &PlaceFact,
) -> Result<(), Memory>
    ensures { OnOk result (text.new ≡ text.old ++ told_line facts.now fact.now) }
{
    let has = has_line(alloc, facts, fact)?;
    if !has {
        return Ok(());
    }
    put_first_line(alloc, text, facts, fact)
}

/// Adds the lines of facts, those on one line that say the same of places in one folder.
pub fn put_facts(alloc: Global, text: &mut Bytes, facts: &[PlaceFact]) -> Result<(), Memory>
    ensures { OnOk result (text.new ≡ text.old ++ facts_text facts.now) }
{
    for fact in facts {
        put_told(alloc, text, facts, fact)?;
    }
    Ok(())
}
