// Facts on places of the start tree, in words.
ghost use Rattle.std.specs.Prelude.{◌≡◌, ◌++◌, [], if◌then◌else◌, OnOk};
ghost use Rattle.std.specs.List.{flat_map, list_any};
ghost use Rattle.tree_clauses.specs.NameSets.{is_among};
ghost use Rattle.explanation.specs.FactTexts.{name_text, once, names_text, but_names, beside_names, fact_words};
ghost use Rattle.explanation.specs.FactTexts.{fact_line, is_no_directory, is_fence, excludes};
ghost use Rattle.explanation.specs.FactTexts.{is_implied};

use script_names::{Bytes, Memory, Name};
use script_places::push_kinds;
use shown_texts::{push_path, push_shown};
use start_facts::{Fact, PlaceFact};
use utility_calls::same_names;

// Adds a name behind a space.
fn put_name(text: &mut Bytes, name: &Name) -> Result<(), Memory>
    ensures { OnOk result (text.new ≡ text.old ++ name_text name.now) }
{
    text.extend(b" ")?;
    push_shown(text, name.as_slice())
}

// Whether a name is among these.
fn is_among(names: &[Name], name: &Name) -> bool
    ensures { result ≡ is_among names.now name.now }
{
    let mut left = names;
    while let [other, rest @ ..] = left {
        if other.as_slice() == name.as_slice() {
            return true;
        }
        left = rest;
    }
    false
}

// Adds a name, unless it is among those behind it.
fn put_last(text: &mut Bytes, name: &Name, names: &[Name]) -> Result<(), Memory>
    ensures { OnOk result
        (text.new ≡ text.old ++ (if is_among names.now name.now then [] else name_text name.now)) }
{
    if is_among(names, name) {
        return Ok(());
    }
    put_name(text, name)
}

// Adds names, each once.
fn put_names(text: &mut Bytes, names: &[Name]) -> Result<(), Memory>
    ensures { OnOk result (text.new ≡ text.old ++ flat_map name_text (once names.now)) }
{
    let mut left = names;
    while let [name, rest @ ..] = left {
        put_last(text, name, rest)?;
        left = rest;
    }
    Ok(())
}

// Adds names, if there are any, behind a word.
#[tactic(auto, unfolding(crate::specs::FactTexts::names_text))]
fn put_named(text: &mut Bytes, word: &[u8], names: &[Name]) -> Result<(), Memory>
    ensures { OnOk result (text.new ≡ text.old ++ names_text word.now names.now) }
{
    if names.len() == 0 {
        return Ok(());
    }
    text.extend(word)?;
    put_names(text, names)
}

// Adds names behind `but`.
#[tactic(auto, unfolding(crate::specs::FactTexts::but_names))]
fn put_but(text: &mut Bytes, names: &[Name]) -> Result<(), Memory>
    ensures { OnOk result (text.new ≡ text.old ++ but_names names.now) }
{
    put_named(text, b" but", names)
}

// Adds names behind `beside`.
#[tactic(auto, unfolding(crate::specs::FactTexts::beside_names))]
fn put_beside(text: &mut Bytes, names: &[Name]) -> Result<(), Memory>
    ensures { OnOk result (text.new ≡ text.old ++ beside_names names.now) }
{
    put_named(text, b" beside", names)
}

/// Adds what a fact says.
pub fn put_said(text: &mut Bytes, fact: &Fact) -> Result<(), Memory>
    ensures { OnOk result (text.new ≡ text.old ++ fact_words fact.now) }
{
    match fact {
        Fact::Kinds(kinds) => {
            text.extend(b" is ")?;
            push_kinds(text, *kinds)
        }
        Fact::Fence(names) => {
            text.extend(b" has no entry")?;
            put_but(text, names.as_slice())
        }
        Fact::Beside(names) => {
            text.extend(b" has an entry")?;
            put_beside(text, names.as_slice())
        }
        Fact::Target(target) => {
            text.extend(b" is a link to ")?;
            push_shown(text, target.as_slice())
        }
    }
}

/// Adds the line of a fact.
#[tactic(auto, unfolding(crate::specs::FactTexts::fact_line))]
pub fn put_fact(text: &mut Bytes, fact: &PlaceFact) -> Result<(), Memory>
    ensures { OnOk result (text.new ≡ text.old ++ fact_line fact.now) }
{
    text.extend(b"      ")?;
    push_path(text, fact.place.as_slice())?;
    put_said(text, &fact.fact)?;
    text.extend(b"\n")
}

// Whether the fact says that no directory stands at its place.
fn is_no_directory(fact: &Fact) -> bool
    ensures { result ≡ is_no_directory fact.now }
{
    match fact {
        Fact::Kinds(kinds) => !kinds.dir,
        Fact::Fence(_) => false,
        Fact::Beside(_) => false,
        Fact::Target(_) => true,
    }
}

// Whether the fact says that nothing stands in its place under further names.
fn is_fence(fact: &Fact) -> bool
    ensures { result ≡ is_fence fact.now }
{
    match fact {
        Fact::Kinds(_) => false,
        Fact::Fence(_) => true,
        Fact::Beside(_) => false,
        Fact::Target(_) => false,
    }
}

// Whether the fact says of the place that it is no directory.
fn excludes(place: &[Name], fact: &PlaceFact) -> bool
    ensures { result ≡ excludes place.now fact.now }
{
    is_no_directory(&fact.fact) && same_names(place, fact.place.as_slice())
}

// Whether one of the facts says so.
fn some_excludes(place: &[Name], facts: &[PlaceFact]) -> bool
    ensures { result ≡ list_any (excludes place.now) facts.now }
{
    let mut left = facts;
    while let [fact, rest @ ..] = left {
        if excludes(place, fact) {
            return true;
        }
        left = rest;
    }
    false
}

/// Whether the fact follows from one of these.
pub fn is_implied(facts: &[PlaceFact], fact: &PlaceFact) -> bool
    ensures { result ≡ is_implied facts.now fact.now }
{
    is_fence(&fact.fact) && some_excludes(fact.place.as_slice(), facts)
}
