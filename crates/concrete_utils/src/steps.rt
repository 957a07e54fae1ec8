ghost use Rattle.std.specs.Prelude.{◌≡◌, ◌≢◌, ◌||◌, if◌then◌else◌, None, [], ◌∷◌, ◌++◌, IfOk, OnOk, OnErr, IsTrue};
ghost use Rattle.feature_trees.specs.declared.value.Value.{Value};
ghost use Rattle.feature_trees.specs.declared.value.Value.TheVariants.{Absent, Dir, Link};
ghost use Rattle.feature_trees.specs.Tree.{at, is_dir, kind_of, put, update, entries_of, has_parents};
ghost use Rattle.utility_calls.specs.declared.sights.Effect.TheVariants.{Nothing, Moves, MovesInside, Copies};
ghost use Rattle.utility_calls.specs.declared.sights.Effect.TheVariants.{CopiesInside};
ghost use Rattle.utility_calls.specs.Acts.{path_of, place_of, target_of, source_of, inner_name, inner_at, second_link};
ghost use Rattle.utility_calls.specs.Acts.{own_row, by_way, by_slash, takes, row as row_of, effect_on};
ghost use Rattle.utility_calls.specs.Acts.{tree_after, with_name, IsPerformed};
ghost use Rattle.utility_calls.specs.ActChanges.{IsInDirectory};
ghost use Rattle.utility_calls.specs.Sights.{sight_of};
ghost use Rattle.utility_calls.specs.Ways.{in_dir};

use crate::walks::{Seen, entry_or, has_entry, walk};
use feature_trees::{Entries, Kind, PutFault, Value};
use script_names::{Copied, Done, Memory, Name, Path, PathFault};
use std::alloc::Global;
use utility_calls::acts::Act;
use utility_calls::sights::{Effect, Row, Sight};
use utility_calls::theorems::{acts_change_trees, changes_are_in_directories};

// The row of a slash behind what is no directory, else the later one.
fn by_slash(slash: bool, kind: Kind, later: Row) -> Row
    ensures { result ≡ by_slash slash kind later }
{
    if !slash {
        return later;
    }
    match kind {
        Kind::Absent => later,
        Kind::Dir => later,
        Kind::Reg => Row::of_slash(),
        Kind::Link => Row::of_slash(),
        Kind::Special(_) => Row::of_slash(),
    }
}

// The kind of what is moved or copied, which stands at the end of the walk along the act's path.
fn source(a: &Act, first: Kind) -> Kind
    ensures { (tree : Value) → first ≡ kind_of (at tree (path_of a.now).names) → result ≡ source_of a.now tree }
{
    match a.source() {
        Some(_) => first,
        None => Kind::Absent,
    }
}

// What is seen where a walk ends, and at what stands there.
pub(crate) fn sight_of(seen: &Seen, inner: &Value) -> Sight
    ensures { result ≡ sight_of seen.now.in_dir seen.now.here.now inner.now }
{
    Sight {
        in_dir: seen.in_dir,
        kind: seen.here.kind(),
        filled: has_entry(seen.here),
        inner: inner.kind(),
        inner_filled: has_entry(inner),
    }
}

// What stands under the act's inner name at the place that it looks at.
fn inner<'a>(a: &Act, here: &'a Value, nothing: &'a Value) -> &'a Value
    requires { nothing.now ≡ Absent }
    ensures { result.now ≡ inner_at here.now (inner_name a.now) }
{
    match a.inner_name() {
        Some(f) => entry_or(here, f, nothing),
        None => nothing,
    }
}

// Whether an act looks at the way of its second path.
fn looks_at_way(a: &Act, below: bool, source: Kind) -> bool
    ensures { result ≡ (below || takes a.now source) }
{
    below || a.takes(source)
}

// The link on the way of an act's second path, if it is looked at.
fn second_link(looks: bool, link: Option<u8>) -> Option<u8>
    ensures { result ≡ (if looks then link else None) }
{
    if looks { link } else { None }
}

// The row of the own of an act with a second path, or of a link on the way of that path.
fn second_row(a: &Act, tree: &Value, source: Kind, nothing: &Value) -> Row
    requires nothing { nothing.now ≡ Absent }
    requires source { source ≡ source_of a.now tree.now }
    ensures { result ≡ by_way (second_link a.now tree.now) (own_row a.now tree.now) }
{
    let below = a.is_below();
    let seen = walk(128, tree, a.place().names(), nothing);
    match second_link(looks_at_way(a, below, source), seen.link) {
        Some(number) => Row::of_link(number),
        None => {
            let inner = inner(a, seen.here, nothing);
            a.own_row(below, source, &sight_of(&seen, inner))
        }
    }
}

// The row of the act's own, or of a link on the way of its second path. Where nothing is moved or copied, what is seen
// at the end of the act's own path is all that it looks at.
fn later_row(a: &Act, tree: &Value, first: &Seen, nothing: &Value) -> Row
    requires nothing { nothing.now ≡ Absent }
    requires in_dir { first.now.in_dir ≡ in_dir tree.now (path_of a.now).names }
    requires here { first.now.here.now ≡ at tree.now (path_of a.now).names }
    ensures { result ≡ by_way (second_link a.now tree.now) (own_row a.now tree.now) }
{
    match a.source() {
        Some(_) => second_row(a, tree, source(a, first.here.kind()), nothing),
        None => {
            let inner = inner(a, first.here, nothing);
            a.own_row(false, Kind::Absent, &sight_of(first, inner))
        }
    }
}

// The row that the act takes on a tree.
fn row_on(a: &Act, tree: &Value) -> Row
    ensures { result ≡ row_of a.now tree.now }
{
    let nothing = Value::Absent;
    let path = a.path();
    let first = walk(0, tree, path.names(), &nothing);
    match first.link {
        Some(number) => Row::of_link(number),
        None => {
            let kind = first.here.kind();
            let later = later_row(a, tree, &first, &nothing);
            by_slash(path.slash(), kind, later)
        }
    }
}

// Puts a value at a path that has a name and is in a directory.
pub(crate) fn put_at(path: &Path, value: Value, tree: &mut Value) -> Result<(), Memory>
    requires named { path.now.names ≢ [] }
    requires parents { IsTrue (has_parents tree.old path.now.names) }
    ensures ok { OnOk result (tree.new ≡ put tree.old path.now.names value) }
    ensures kept { OnErr result (tree.new ≡ tree.old) }
{
    match tree.put(path, value) {
        Ok(()) => Ok(()),
        Err(PutFault::Memory) => Err(Memory),
        Err(PutFault::NoParent) => unreachable!(),
    }
}

// What stands at a path, copied.
pub(crate) fn copy_at(alloc: Global, tree: &Value, path: &Path) -> Result<Value, Memory>
    ensures { IfOk result (λ value. value ≡ at tree.now path.now.names) }
{
    match tree.at(path) {
        Some(value) => value.copy(alloc),
        None => Ok(Value::Absent),
    }
}

// Whether a directory stands at a path.
fn has_dir(tree: &Value, path: &Path) -> bool
    ensures { result ≡ is_dir (at tree.now path.now.names) }
{
    match tree.at(path) {
        Some(Value::Dir(_)) => true,
        Some(_) => false,
        None => false,
    }
}

// Leaves a directory at a path as it is, and puts one without entries where none stands.
fn keep_dir(alloc: Global, path: &Path, tree: &mut Value) -> Result<(), Memory>
    requires named { path.now.names ≢ [] }
    requires parents { IsTrue (has_parents tree.old path.now.names) }
    ensures ok { let names = path.now.names in
        OnOk result (tree.new ≡ put tree.old names (Dir (entries_of (at tree.old names)))) }
    ensures kept { OnErr result (tree.new ≡ tree.old) }
{
    if has_dir(tree, path) {
        return Ok(());
    }
    put_at(path, Value::Dir(Entries::new(alloc)), tree)
}

// A directory with the entries of a value, and this value under a name.
fn dir_with(alloc: Global, value: Value, f: &Name, inner: Value) -> Result<Value, Memory>
    ensures { IfOk result (λ dir. dir ≡ Dir (update (entries_of value) f.now inner)) }
{
    match value {
        Value::Dir(entries) => with_entry(entries, f, inner),
        Value::Absent => with_entry(Entries::new(alloc), f, inner),
        Value::Reg => with_entry(Entries::new(alloc), f, inner),
        Value::Link(_) => with_entry(Entries::new(alloc), f, inner),
        Value::Special(_) => with_entry(Entries::new(alloc), f, inner),
    }
}

// A directory with these entries, and this value under a name.
fn with_entry(entries: Entries, f: &Name, inner: Value) -> Result<Value, Memory>
    ensures { IfOk result (λ dir. dir ≡ Dir (update entries f.now inner)) }
{
    let mut changed = entries;
    changed.set(f, inner)?;
    Ok(Value::Dir(changed))
}

// Puts a value under a name of the directory at a path, in a copy of the directory.
fn put_in_copy(
    alloc: Global,
    path: &Path,
    f: &Name,
    value: Value,
    tree: &mut Value,
) -> Result<(), Memory>
    requires named { path.now.names ≢ [] }
    requires parents { IsTrue (has_parents tree.old (path.now.names ++ f.now ∷ [])) }
    ensures ok { OnOk result (tree.new ≡ put tree.old (path.now.names ++ f.now ∷ []) value) }
    ensures kept { OnErr result (tree.new ≡ tree.old) }
{
    let old = copy_at(alloc, tree, path)?;
    let dir = dir_with(alloc, old, f, value)?;
    put_at(path, dir, tree)
}

// Puts a value under a name of the directory at a path. Where the path has as many names as one may have, the
// directory is copied, and the copy put in its place.
fn put_under(
    alloc: Global,
    path: &Path,
    f: &Name,
    value: Value,
    tree: &mut Value,
) -> Result<(), Memory>
    requires named { path.now.names ≢ [] }
    requires parents { IsTrue (has_parents tree.old (path.now.names ++ f.now ∷ [])) }
    ensures ok { OnOk result (tree.new ≡ put tree.old (path.now.names ++ f.now ∷ []) value) }
    ensures kept { OnErr result (tree.new ≡ tree.old) }
{
    match path.join(alloc, f) {
        Ok(longer) => put_at(&longer, value, tree),
        Err(PathFault::Memory) => Err(Memory),
        Err(_) => put_in_copy(alloc, path, f, value, tree),
    }
}

// Puts a value at a path, with the act's inner name behind it where it has one.
fn put_inside(
    alloc: Global,
    a: &Act,
    path: &Path,
    value: Value,
    tree: &mut Value,
) -> Result<(), Memory>
    requires named { path.now.names ≢ [] }
    requires parents { IsTrue (has_parents tree.old (with_name path.now.names (inner_name a.now))) }
    ensures ok { OnOk result (tree.new ≡ put tree.old (with_name path.now.names (inner_name a.now)) value) }
    ensures kept { OnErr result (tree.new ≡ tree.old) }
{
    match a.inner_name() {
        Some(f) => put_under(alloc, path, f, value, tree),
        None => put_at(path, value, tree),
    }
}

// A copy of the tree without what stands at the act's path.
fn copy_without(alloc: Global, a: &Act, tree: &Value) -> Result<Value, Memory>
    requires named { (path_of a.now).names ≢ [] }
    requires parents { IsTrue (has_parents tree.now (path_of a.now).names) }
    ensures { IfOk result (λ copy. copy ≡ put tree.now (path_of a.now).names Absent) }
{
    let mut copy = tree.copy(alloc)?;
    put_at(a.path(), Value::Absent, &mut copy)?;
    Ok(copy)
}

// Moves what stands at the act's path to its place. The tree is changed as a whole, so that it is as before where
// memory is missing half way.
fn move_to(alloc: Global, a: &Act, tree: &mut Value) -> Result<(), Memory>
    requires path { (path_of a.now).names ≢ [] }
    requires place { place_of a.now ≢ [] }
    requires parents { IsInDirectory Moves a.now tree.old }
    ensures ok { OnOk result (tree.new ≡ effect_on Moves a.now tree.old) }
    ensures kept { OnErr result (tree.new ≡ tree.old) }
{
    let value = copy_at(alloc, tree, a.path())?;
    let mut changed = copy_without(alloc, a, tree)?;
    put_at(a.place(), value, &mut changed)?;
    *tree = changed;
    Ok(())
}

// Moves what stands at the act's path to below its place, under the act's inner name.
fn move_inside(alloc: Global, a: &Act, tree: &mut Value) -> Result<(), Memory>
    requires path { (path_of a.now).names ≢ [] }
    requires place { place_of a.now ≢ [] }
    requires parents { IsInDirectory MovesInside a.now tree.old }
    ensures ok { OnOk result (tree.new ≡ effect_on MovesInside a.now tree.old) }
    ensures kept { OnErr result (tree.new ≡ tree.old) }
{
    let value = copy_at(alloc, tree, a.path())?;
    let mut changed = copy_without(alloc, a, tree)?;
    put_inside(alloc, a, a.place(), value, &mut changed)?;
    *tree = changed;
    Ok(())
}

// Puts what stands at the act's path at its place too.
fn copy_to(alloc: Global, a: &Act, tree: &mut Value) -> Result<(), Memory>
    requires place { place_of a.now ≢ [] }
    requires parents { IsInDirectory Copies a.now tree.old }
    ensures ok { OnOk result (tree.new ≡ effect_on Copies a.now tree.old) }
    ensures kept { OnErr result (tree.new ≡ tree.old) }
{
    let value = copy_at(alloc, tree, a.path())?;
    put_at(a.place(), value, tree)
}

// Puts what stands at the act's path below its place too, under the act's inner name.
fn copy_inside(alloc: Global, a: &Act, tree: &mut Value) -> Result<(), Memory>
    requires place { place_of a.now ≢ [] }
    requires parents { IsInDirectory CopiesInside a.now tree.old }
    ensures ok { OnOk result (tree.new ≡ effect_on CopiesInside a.now tree.old) }
    ensures kept { OnErr result (tree.new ≡ tree.old) }
{
    let value = copy_at(alloc, tree, a.path())?;
    put_inside(alloc, a, a.place(), value, tree)
}

// The link of an act, to its target.
fn link(alloc: Global, a: &Act) -> Result<Value, Memory>
    ensures { IfOk result (λ value. value ≡ Link (target_of a.now)) }
{
    Ok(Value::Link(a.copy_target(alloc)?))
}

// Leaves the tree that an effect of the act leaves.
fn change(alloc: Global, a: &Act, effect: Effect, tree: &mut Value) -> Result<(), Memory>
    requires named { effect ≢ Nothing → ((path_of a.now).names ≢ []) × (place_of a.now ≢ []) }
    requires parents { IsInDirectory effect a.now tree.old }
    ensures ok { OnOk result (tree.new ≡ effect_on effect a.now tree.old) }
    ensures kept { OnErr result (tree.new ≡ tree.old) }
{
    let path = a.path();
    match effect {
        Effect::Nothing => Ok(()),
        Effect::MakesDir => put_at(path, Value::Dir(Entries::new(alloc)), tree),
        Effect::KeepsDir => keep_dir(alloc, path, tree),
        Effect::MakesFile => put_at(path, Value::Reg, tree),
        Effect::MakesLink => {
            let made = link(alloc, a)?;
            put_at(path, made, tree)
        }
        Effect::LinksInside => {
            let made = link(alloc, a)?;
            put_inside(alloc, a, path, made, tree)
        }
        Effect::TakesAway => put_at(path, Value::Absent, tree),
        Effect::Moves => move_to(alloc, a, tree),
        Effect::MovesInside => move_inside(alloc, a, tree),
        Effect::Copies => copy_to(alloc, a, tree),
        Effect::CopiesInside => copy_inside(alloc, a, tree),
    }
}

/// The row that an act takes on a tree, and its answer; the tree becomes the one that the act leaves, and stays as it
/// was where memory was missing.
pub fn act(alloc: Global, a: &Act, tree: &mut Value) -> Result<(u8, Done), Memory>
    requires { IsPerformed a.now }
    ensures row { IfOk result (λ taken. taken.0 ≡ (row_of a.now tree.old).number) }
    ensures answer { IfOk result (λ taken. taken.1 ≡ (row_of a.now tree.old).answer) }
    ensures tree { OnOk result (tree.new ≡ tree_after a.now tree.old) }
    ensures kept { OnErr result (tree.new ≡ tree.old) }
{
    acts_change_trees();
    changes_are_in_directories();
    tree.is_sound();
    let row = row_on(a, tree);
    change(alloc, a, row.effect, tree)?;
    Ok((row.number, row.answer))
}
