ghost use Rattle.std.specs.Prelude.{◌≡◌, ◌≢◌, [], IfOk, OnOk, OnErr};
ghost use Rattle.utility_calls.specs.declared.sights.Effect.TheVariants.{Moves};
ghost use Rattle.utility_calls.specs.Backs.{names_of, kept_kind, back_row, back_after, put_back_by};
ghost use Rattle.utility_calls.specs.BackLaws.{IsBackInDirectory};

use crate::steps::{copy_at, put_at, sight_of};
use crate::walks::walk;
use feature_trees::{Kind, Value};
use script_names::{Done, Memory};
use std::alloc::Global;
use utility_calls::backs::Back;
use utility_calls::sights::{Effect, Row};
use utility_calls::theorems::one_back_row;

// The kind of what stood at the path in the kept tree.
fn kept_kind(b: &Back, kept: &Value) -> Kind
    ensures { result ≡ kept_kind b.now kept.now }
{
    match kept.at(b.path()) {
        Some(value) => value.kind(),
        None => Kind::Absent,
    }
}

// The row that the back takes on a tree.
fn row_on(b: &Back, tree: &Value, kept: &Value) -> Row
    ensures { result ≡ back_row b.now kept.now tree.now }
{
    let nothing = Value::Absent;
    let seen = walk(0, tree, b.path().names(), &nothing);
    match seen.link {
        Some(number) => Row::of_link(number),
        None => b.own_row(kept_kind(b, kept), &sight_of(&seen, &nothing)),
    }
}

// Puts what stood at the path in the kept tree there again.
fn put_kept(alloc: Global, b: &Back, tree: &mut Value, kept: &Value) -> Result<(), Memory>
    requires named { names_of b.now ≢ [] }
    requires parents { IsBackInDirectory Moves (names_of b.now) tree.old }
    ensures ok { OnOk result (tree.new ≡ put_back_by Moves (names_of b.now) kept.now tree.old) }
    ensures kept { OnErr result (tree.new ≡ tree.old) }
{
    let value = copy_at(alloc, kept, b.path())?;
    put_at(b.path(), value, tree)
}

// Leaves the tree that an effect of the back leaves.
fn change(
    alloc: Global,
    b: &Back,
    effect: Effect,
    tree: &mut Value,
    kept: &Value,
) -> Result<(), Memory>
    requires named { names_of b.now ≢ [] }
    requires parents { IsBackInDirectory effect (names_of b.now) tree.old }
    ensures ok { OnOk result (tree.new ≡ put_back_by effect (names_of b.now) kept.now tree.old) }
    ensures kept { OnErr result (tree.new ≡ tree.old) }
{
    match effect {
        Effect::Nothing | Effect::MakesDir | Effect::KeepsDir | Effect::MakesFile => Ok(()),
        Effect::MakesLink | Effect::LinksInside | Effect::MovesInside => Ok(()),
        Effect::Copies | Effect::CopiesInside => Ok(()),
        Effect::TakesAway => put_at(b.path(), Value::Absent, tree),
        Effect::Moves => put_kept(alloc, b, tree, kept),
    }
}

/// The row of putting back by a kept tree, and its answer; the tree becomes the one that it leaves, and stays as it was
/// where memory was missing.
pub fn put_back(
    alloc: Global,
    b: &Back,
    tree: &mut Value,
    kept: &Value,
) -> Result<(u8, Done), Memory>
    requires named { names_of b.now ≢ [] }
    ensures row { IfOk result (λ taken. taken.0 ≡ (back_row b.now kept.now tree.old).number) }
    ensures answer { IfOk result (λ taken. taken.1 ≡ (back_row b.now kept.now tree.old).answer) }
    ensures tree { OnOk result (tree.new ≡ back_after b.now kept.now tree.old) }
    ensures kept { OnErr result (tree.new ≡ tree.old) }
{
    one_back_row();
    let row = row_on(b, tree, kept);
    change(alloc, b, row.effect, tree, kept)?;
    Ok((row.number, row.answer))
}
