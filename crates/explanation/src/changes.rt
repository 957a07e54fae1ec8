// What a run makes of the tree that an outcome shows, with the places marked that decide.
ghost use Rattle.std.specs.Prelude.{◌≡◌, ◌++◌, [], not, IfOk, OnOk};
ghost use Rattle.std.specs.List.{list_any};
ghost use Rattle.std.specs.Option.{option_copied};
ghost use Rattle.feature_trees.specs.Kinds.{has};
ghost use Rattle.tree_pictures.specs.Placed.{tree_places};
ghost use Rattle.explanation.specs.Changes.{path_bytes, fact_path, kind_of, kind_at, is_link_to, is_against};
ghost use Rattle.explanation.specs.Changes.{is_refuted, with_path, with_places, is_out, box_places, marks, changed_text};

use feature_trees::{Kind, Value};
use outcome_groups::FactBox;
use script_names::{Bytes, List, Memory, Name};
use start_facts::{Fact, PlaceFact};
use std::alloc::Global;
use tree_pictures::{Placed, Standing, is_among, put_picture, standing_at, tree_places};

// Adds the bytes of a path.
fn put_path(path: &mut Bytes, names: &[Name]) -> Result<(), Memory>
    ensures { OnOk result (path.new ≡ path.old ++ path_bytes names.now) }
{
    let mut left = names;
    while let [name, rest @ ..] = left {
        path.push(b'/')?;
        path.extend(name.as_slice())?;
        left = rest;
    }
    Ok(())
}

// The place of a fact.
fn fact_path(alloc: Global, fact: &PlaceFact) -> Result<Bytes, Memory>
    ensures { IfOk result (λ path. path ≡ fact_path fact.now) }
{
    let mut path = Bytes::new(alloc);
    put_path(&mut path, fact.place.as_slice())?;
    Ok(path)
}

// The kind of what stands there.
fn kind_of(standing: Option<&Standing>) -> Kind
    ensures { result ≡ kind_of (option_copied standing.entry) }
{
    match standing {
        None => Kind::Absent,
        Some(Standing::Reg) => Kind::Reg,
        Some(Standing::Link(_)) => Kind::Link,
        Some(Standing::Special(special)) => Kind::Special(*special),
        Some(Standing::Dir) => Kind::Dir,
    }
}

// The kind of what stands at a path of a tree with these places.
fn kind_at(places: &[Placed], path: &[u8]) -> Kind
    ensures { result ≡ kind_at places.now path.now }
{
    match path {
        [] => Kind::Dir,
        [_, ..] => kind_of(standing_at(path, places)),
    }
}

// Whether it is a link to this target.
fn is_link_to(target: &[u8], standing: Option<&Standing>) -> bool
    ensures { result ≡ is_link_to target.now (option_copied standing.entry) }
{
    match standing {
        Some(Standing::Link(other)) => target == other.as_slice(),
        None => false,
        Some(Standing::Reg) => false,
        Some(Standing::Special(_)) => false,
        Some(Standing::Dir) => false,
    }
}

// Whether what stands at its path speaks against a fact.
fn is_against(places: &[Placed], path: &[u8], fact: &Fact) -> bool
    ensures { result ≡ is_against places.now path.now fact.now }
{
    match fact {
        Fact::Kinds(kinds) => !kinds.has(kind_at(places, path)),
        Fact::Fence(_) => false,
        Fact::Beside(_) => false,
        Fact::Target(target) => !is_link_to(target.as_slice(), standing_at(path, places)),
    }
}

// Whether a fact does not hold, as far as its place alone says so.
fn is_refuted(alloc: Global, places: &[Placed], fact: &PlaceFact) -> Result<bool, Memory>
    ensures { IfOk result (λ is. is ≡ is_refuted places.now fact.now) }
{
    let path = fact_path(alloc, fact)?;
    let against = is_against(places, path.as_slice(), &fact.fact);
    Ok(against)
}

// Whether one of the facts does not hold.
fn some_refuted(alloc: Global, places: &[Placed], facts: &[PlaceFact]) -> Result<bool, Memory>
    ensures { IfOk result (λ is. is ≡ list_any (is_refuted places.now) facts.now) }
{
    let mut left = facts;
    while let [fact, rest @ ..] = left {
        let refuted = is_refuted(alloc, places, fact)?;
        if refuted {
            return Ok(true);
        }
        left = rest;
    }
    Ok(false)
}

// Adds a path, unless it is among these.
fn put_place(paths: &mut List<Bytes>, path: Bytes) -> Result<(), Memory>
    ensures { OnOk result (paths.new ≡ with_path paths.old path) }
{
    let is = is_among(paths.as_slice(), path.as_slice());
    if is {
        return Ok(());
    }
    paths.add(path)
}

// Adds the places of facts, each once.
fn put_places(alloc: Global, paths: &mut List<Bytes>, facts: &[PlaceFact]) -> Result<(), Memory>
    ensures { OnOk result (paths.new ≡ with_places paths.old facts.now) }
{
    let mut left = facts;
    while let [fact, rest @ ..] = left {
        let path = fact_path(alloc, fact)?;
        put_place(paths, path)?;
        left = rest;
    }
    Ok(())
}

// Whether something speaks against a fact of a box.
fn is_out(alloc: Global, places: &[Placed], facts: &FactBox) -> Result<bool, Memory>
    ensures { IfOk result (λ is. is ≡ is_out places.now facts.now) }
{
    let refuted = some_refuted(alloc, places, facts.deciding.as_slice())?;
    if refuted {
        return Ok(true);
    }
    some_refuted(alloc, places, facts.others.as_slice())
}

// The places of the facts of a box, each once.
fn box_places(alloc: Global, facts: &FactBox) -> Result<List<Bytes>, Memory>
    ensures { IfOk result (λ paths. paths ≡ box_places facts.now) }
{
    let mut paths = List::new(alloc);
    put_places(alloc, &mut paths, facts.deciding.as_slice())?;
    put_places(alloc, &mut paths, facts.others.as_slice())?;
    Ok(paths)
}

// The places that are told.
fn marks(alloc: Global, places: &[Placed], boxes: &[FactBox]) -> Result<List<Bytes>, Memory>
    ensures { IfOk result (λ paths. paths ≡ marks places.now boxes.now) }
{
    let mut left = boxes;
    while let [facts, rest @ ..] = left {
        let out = is_out(alloc, places, facts)?;
        if !out {
            return box_places(alloc, facts);
        }
        left = rest;
    }
    Ok(List::new(alloc))
}

/// Adds, behind a title, what a run makes of a tree, with the places marked that are told, by these boxes.
#[tactic(auto, unfolding(crate::specs::Changes::changed_text))]
pub fn put_changed(
    alloc: Global,
    text: &mut Bytes,
    title: &[u8],
    boxes: &[FactBox],
    before: &Value,
    after: &Value,
) -> Result<(), Memory>
    ensures { OnOk result (text.new ≡ text.old ++ changed_text title.now boxes.now before.now after.now) }
{
    let places = tree_places(alloc, before)?;
    let marked = marks(alloc, places.as_slice(), boxes)?;
    text.extend(title)?;
    put_picture(alloc, text, marked.as_slice(), before, after)
}
