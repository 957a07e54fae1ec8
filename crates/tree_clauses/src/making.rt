ghost use Rattle.std.specs.Prelude.{◌≡◌, ◌↔◌, ℕ, List as AnyList, map, IsTrue, IfOk};
ghost use Rattle.std.specs.Option.{option_map};
ghost use Rattle.feature_trees.specs.declared.shape.Entry.{Entry};
ghost use Rattle.feature_trees.specs.declared.value.Value.{Value as AnyValue};
ghost use Rattle.tree_clauses.specs.declared.clause.Literal.TheVariants as Literal;
ghost use Rattle.tree_clauses.specs.Cells.{edited, made_value, AreEditsOf, IsEdit, IsMadeWithin};
ghost use Rattle.tree_clauses.specs.KnownValues.{known_in};
ghost use Rattle.tree_clauses.specs.MadeValues.{entry_value, replaced};
ghost use Rattle.tree_clauses.specs.Solved.{BeginEmpty, IsNoFence};
ghost use Rattle.tree_clauses.specs.Steps.{Known, MadeIs};

use crate::cell::{Cell, Edit, Made};
use crate::clause::{Literal, Var};
use crate::known_values::Values;
use crate::rising::in_order;
use feature_trees::{Kind, Kinds};
use script_names::{Copied, List, Memory, Name};
use std::alloc::Global;

/// The value that a literal, directly before others, gives its subject; None where it gives none.
pub(crate) fn make<'a>(
    alloc: Global,
    values: &Values<'a>,
    literal: &Literal,
    rest: &[Literal],
) -> Result<Option<Made<'a>>, Memory>
    ensures made { IfOk result (λ made. MadeIs (known_in values.now) literal.now rest.now
        (option_map (made_value values.now.cells) made)) }
    ensures within { IfOk result (IsMadeWithin values.now.cells) }
{
    match literal {
        Literal::Entry(x, f, _) => {
            let made = values.entry(*x, f);
            Ok(made)
        }
        Literal::Kind(y, kinds) => Ok(make_of_kind(*y, *kinds, rest)),
        Literal::Fence(_, _) => Ok(None),
        Literal::NotEmpty(_) => Ok(None),
        Literal::Similar(y, names, x) => {
            make_similar(alloc, values, *y, names.as_slice(), *x, rest)
        }
        Literal::Target(_, target) => {
            let target = target.copy(alloc)?;
            Ok(Some(Made::New(Cell::Link(target))))
        }
    }
}

// The one value that these kinds, directly before other literals, leave to a variable; None where they leave more.
fn make_of_kind<'a>(y: Var, kinds: Kinds, rest: &[Literal]) -> Option<Made<'a>>
    ensures made { (known : Known) (values : AnyList AnyValue) →
        MadeIs known (Literal.Kind y kinds) rest.now (option_map (made_value values) result) }
    ensures within { (values : AnyList AnyValue) → IsMadeWithin values result }
{
    if kinds == Kinds::of(Kind::Absent) {
        return Some(Made::New(Cell::Absent));
    }
    if kinds == Kinds::of(Kind::Reg) {
        return Some(Made::New(Cell::Reg));
    }
    if kinds == Kinds::of(Kind::Dir) {
        if begin_empty(y, rest) {
            return Some(Made::New(Cell::Empty));
        }
    }
    None
}

// Whether literals begin with the fence of a variable that has no name.
fn begin_empty(y: Var, literals: &[Literal]) -> bool
    ensures { IsTrue result ↔ BeginEmpty y.0 literals.now }
{
    match literals {
        [] => false,
        [literal, ..] => is_no_fence(y, literal),
    }
}

// Whether a literal is the fence of a variable that has no name.
fn is_no_fence(y: Var, literal: &Literal) -> bool
    ensures { IsTrue result ↔ IsNoFence y.0 literal.now }
{
    match literal {
        Literal::Fence(x, names) => x.0 == y.0 && names.len() == 0,
        _ => false,
    }
}

// A directory with the entries of a known value, but for those of y that the literals begin with.
fn make_similar<'a>(
    alloc: Global,
    values: &Values<'a>,
    y: Var,
    names: &[Name],
    x: Var,
    rest: &[Literal],
) -> Result<Option<Made<'a>>, Memory>
    ensures made { IfOk result (λ made.
        (listed : AnyList (AnyList ℕ)) → listed ≡ names.now
        → MadeIs (known_in values.now) (Literal.Similar y listed x) rest.now
        (option_map (made_value values.now.cells) made)) }
    ensures within { IfOk result (IsMadeWithin values.now.cells) }
{
    let from = match values.place(x) {
        Some(from) => from,
        None => return Ok(None),
    };
    values.are_sound();
    let rising = in_order(alloc, names)?;
    match edits(alloc, values, y, &rising, rest)? {
        Some(edits) => Ok(Some(Made::New(Cell::Edited(from, edits)))),
        None => Ok(None),
    }
}

// The edits that put the values of y under these names, where the literals begin with these.
fn edits(
    alloc: Global,
    values: &Values,
    y: Var,
    names: &[&[u8]],
    literals: &[Literal],
) -> Result<Option<List<Edit>>, Memory>
    ensures edits { let names = map (λ f. f.now) names.now in
        IfOk result (λ found. (es : AnyList Entry) →
        option_map (edited values.now.cells es) found
        ≡ replaced (known_in values.now) y.0 names literals.now es) }
    ensures names { IfOk result (AreEditsOf values.now.cells (map (λ f. f.now) names.now)) }
{
    let mut edits = List::new(alloc);
    let mut left = literals;
    for f in names {
        match left {
            [] => return Ok(None),
            [literal, rest @ ..] => {
                match edit(alloc, values, y, f, literal)? {
                    Some(edit) => edits.add(edit)?,
                    None => return Ok(None),
                }
                left = rest;
            }
        }
    }
    Ok(Some(edits))
}

// The edit that puts the value of y under a name, where the literal is this entry.
fn edit(
    alloc: Global,
    values: &Values,
    y: Var,
    f: &[u8],
    literal: &Literal,
) -> Result<Option<Edit>, Memory>
    ensures { let value = entry_value (known_in values.now) y.0 f.now literal.now in
        IfOk result (IsEdit values.now.cells f.now value) }
{
    match literal {
        Literal::Entry(x, g, z) => {
            if x.0 != y.0 || g.as_slice() != f {
                return Ok(None);
            }
            match values.place(*z) {
                Some(place) => {
                    let name = g.copy(alloc)?;
                    name.is_sound();
                    Ok(Some(Edit { name, place }))
                }
                None => Ok(None),
            }
        }
        _ => Ok(None),
    }
}
