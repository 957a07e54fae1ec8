ghost use Rattle.std.specs.Prelude.{◌≡◌, ◌-◌, ◌<◌, ◌≤◌, ◌++◌, ◌∷◌, [], length, map, All, IsTrue, IfOk, OnOk};
ghost use Rattle.script_names.specs.Names.{is_name};
ghost use Rattle.feature_trees.specs.declared.kind.Kind.TheVariants.{Link};
ghost use Rattle.feature_trees.specs.Kinds.{but};
ghost use Rattle.utility_calls.specs.Acts.{path_of, place_of, inner_name, target_of, source, with_name, is_below};
ghost use Rattle.utility_calls.specs.Acts.{IsPerformed};
ghost use Rattle.act_cases.specs.Tables.{fitting, through, free, beside, ways_of, end_of_place, is_inner, names_at};
ghost use Rattle.act_cases.specs.Tables.{plan_of, plan_of_row, link_plan, slash_plan};
ghost use Rattle.act_cases.specs.Moves.{source_where, is_anything, moving_of, copied, taken};
ghost use Rattle.act_cases.specs.Moves.{move_plan, looked, second_plan, second_names};
ghost use Rattle.act_cases.specs.Moves.{move_rule_case, second_cases, move_cases};
ghost use Rattle.act_cases.specs.Cases.{IsOnOnePath, HasSource, AreCases};
ghost use Rattle.act_cases.specs.Cases.{link_cases, slash_cases, rule_case, cases_of};

use crate::looks::Ways;
use crate::moves::{MovePlan, Moving, make_move_case};
use crate::plans::{End, Plan, make_case};
use feature_trees::{Kind, Kinds};
use script_names::{Bytes, Copied, List, Memory, Name};
use std::alloc::Global;
use tree_clauses::Case;
use utility_calls::acts::Act;
use utility_calls::sights::{Effect, Row, Rule, Where};

// The kinds that fit a path with a slash behind it.
fn fitting(slash: bool, kinds: Kinds) -> Kinds
    ensures { result ≡ fitting slash kinds }
{
    if slash {
        let fits = Kinds::either(Kinds::of(Kind::Absent), Kinds::of(Kind::Dir));
        Kinds::both(kinds, fits)
    } else {
        kinds
    }
}

// All kinds but Link.
fn not_link() -> Kinds
    ensures { result ≡ but Link }
{
    Kinds::but(Kind::Link)
}

// No link on the way.
fn free(kinds: Kinds) -> Ways
    ensures { result ≡ free kinds }
{
    Ways {
        strict: not_link(),
        parent: not_link(),
        last: kinds,
    }
}

/// Directories all the way.
pub(crate) fn through(kinds: Kinds) -> Ways
    ensures { result ≡ through kinds }
{
    Ways {
        strict: Kinds::of(Kind::Dir),
        parent: Kinds::of(Kind::Dir),
        last: kinds,
    }
}

// No link on the way, and what holds the last name is no directory.
fn beside(kinds: Kinds) -> Ways
    ensures { result ≡ beside kinds }
{
    let file = Kinds::either(Kinds::of(Kind::Reg), Kinds::special());
    Ways {
        strict: not_link(),
        parent: Kinds::either(Kinds::of(Kind::Absent), file),
        last: kinds,
    }
}

/// What a row looks at, by whether its path ends in a slash.
pub(crate) fn ways_of(slash: bool, place: Where) -> Ways
    ensures { result ≡ ways_of slash place }
{
    match place {
        Where::Anything => free(fitting(slash, Kinds::all())),
        Where::Is(kinds) => {
            if kinds.has(Kind::Absent) {
                free(fitting(slash, kinds))
            } else {
                through(fitting(slash, kinds))
            }
        }
        Where::Within => through(fitting(slash, Kinds::all())),
        Where::Inside(kinds) => through(fitting(slash, kinds)),
        Where::Outside => beside(fitting(slash, Kinds::all())),
        Where::Empty => through(Kinds::of(Kind::Dir)),
        Where::Full => through(Kinds::of(Kind::Dir)),
        Where::Into(kinds) => through(kinds),
        Where::IntoEmpty => through(Kinds::of(Kind::Dir)),
        Where::IntoFull => through(Kinds::of(Kind::Dir)),
    }
}

/// What a row asks of the entries.
pub(crate) fn end_of_place(place: Where) -> End
    ensures { result ≡ end_of_place place }
{
    match place {
        Where::Anything => End::Any,
        Where::Is(_) => End::Any,
        Where::Within => End::Any,
        Where::Inside(_) => End::Any,
        Where::Outside => End::Any,
        Where::Empty => End::Empty,
        Where::Full => End::Full,
        Where::Into(_) => End::Any,
        Where::IntoEmpty => End::Empty,
        Where::IntoFull => End::Full,
    }
}

// Whether a row looks below its path.
fn is_inner(place: Where) -> bool
    ensures { result ≡ is_inner place }
{
    match place {
        Where::Anything => false,
        Where::Is(_) => false,
        Where::Within => false,
        Where::Inside(_) => false,
        Where::Outside => false,
        Where::Empty => false,
        Where::Full => false,
        Where::Into(_) => true,
        Where::IntoEmpty => true,
        Where::IntoFull => true,
    }
}

// A row of a table as it is made into a case.
fn plan_of(slash: bool, rule: &Rule) -> Plan
    ensures { result ≡ plan_of slash rule.now }
{
    Plan {
        number: rule.number,
        answer: rule.answer,
        ways: ways_of(slash, rule.place),
        end: end_of_place(rule.place),
        effect: rule.effect,
    }
}

// A row that asks nothing of the entries, as it is made into a case.
fn plan_of_row(row: Row, ways: Ways) -> Plan
    ensures { result ≡ plan_of_row row ways }
{
    Plan {
        number: row.number,
        answer: row.answer,
        ways,
        end: End::Any,
        effect: row.effect,
    }
}

// The row of a link at the first so many names.
fn link_plan(number: u8) -> Plan
    ensures { result ≡ link_plan number }
{
    plan_of_row(Row::of_link(number), through(Kinds::of(Kind::Link)))
}

// The row of a slash behind a file, a link or a special file.
fn slash_plan() -> Plan
    ensures { result ≡ slash_plan }
{
    let file = Kinds::either(Kinds::of(Kind::Reg), Kinds::special());
    let seen = Kinds::either(Kinds::of(Kind::Link), file);
    plan_of_row(Row::of_slash(), through(seen))
}

/// How many strict prefixes with a name there are.
pub(crate) fn prefixes(names: &[Name]) -> usize
    ensures { result ≡ length names.now - 1 }
{
    if names.len() == 0 { 0 } else { names.len() - 1 }
}

// Adds the cases of links on the way.
fn add_links(alloc: Global, cases: &mut List<Case>, names: &[Name]) -> Result<(), Memory>
    requires { length names.now ≤ 64 }
    ensures { OnOk result (cases.new ≡ cases.old ++ link_cases names.now 1 (length names.now - 1)) }
{
    let target = Bytes::new(alloc);
    for k in 0..prefixes(names) {
        let n = k + 1;
        let made = make_case(alloc, &link_plan(n as u8), &names[..n], &target)?;
        cases.add(made)?;
    }
    Ok(())
}

// Adds the case of a slash, for a path that ends in one.
fn add_slash(
    alloc: Global,
    cases: &mut List<Case>,
    slash: bool,
    names: &[Name],
) -> Result<(), Memory>
    requires { length names.now ≤ 64 }
    ensures { OnOk result (cases.new ≡ cases.old ++ slash_cases slash names.now) }
{
    if !slash {
        return Ok(());
    }
    let target = Bytes::new(alloc);
    let made = make_case(alloc, &slash_plan(), names, &target)?;
    cases.add(made)
}

// Names, and the act's inner name behind them where it has one.
fn inside_names(alloc: Global, act: &Act, names: &[Name]) -> Result<List<Name>, Memory>
    ensures { IfOk result (λ longer. longer ≡ with_name names.now (inner_name act.now)) }
{
    let mut names = List::copies(alloc, names)?;
    match act.inner_name() {
        None => Ok(names),
        Some(f) => {
            let last = f.copy(alloc)?;
            names.add(last)?;
            Ok(names)
        }
    }
}

/// Each of the names is a name.
pub(crate) fn are_names(names: &[Name])
    ensures { All (λ f. IsTrue (is_name f)) names.now }
{
    for f in names {
        f.is_sound();
    }
}

// The names that a row looks along.
fn looked_at<'a>(act: &'a Act, inside: &'a [Name], inner: bool) -> &'a [Name]
    requires { inside.now ≡ with_name (path_of act.now).names (inner_name act.now) }
    ensures names { result.now ≡ names_at inner (path_of act.now).names (inner_name act.now) }
    ensures few { length result.now ≤ 65 }
{
    let names = act.path().names();
    if inner { inside } else { names }
}

// Adds the cases of the rows of the act's table.
fn add_rows(
    alloc: Global,
    cases: &mut List<Case>,
    act: &Act,
    inside: &[Name],
    rules: &[Rule],
) -> Result<(), Memory>
    requires { inside.now ≡ with_name (path_of act.now).names (inner_name act.now) }
    ensures { OnOk result (cases.new ≡ cases.old ++ map (rule_case act.now) rules.now) }
{
    let target = act.copy_target(alloc)?;
    let slash = act.path().slash();
    for rule in rules {
        let names = looked_at(act, inside, is_inner(rule.place));
        let made = make_case(alloc, &plan_of(slash, rule), names, &target)?;
        cases.add(made)?;
    }
    Ok(())
}

// The cases of an act on one path, as they are made.
fn make_cases(alloc: Global, act: &Act, inside: &[Name]) -> Result<List<Case>, Memory>
    requires one_path { IsOnOnePath act.now }
    requires inside { inside.now ≡ with_name (path_of act.now).names (inner_name act.now) }
    ensures { IfOk result (λ cases. cases ≡ cases_of act.now) }
{
    let mut cases = List::new(alloc);
    let path = act.path();
    add_links(alloc, &mut cases, path.names())?;
    add_slash(alloc, &mut cases, path.slash(), path.names())?;
    add_rows(alloc, &mut cases, act, inside, act.rules(false))?;
    Ok(cases)
}

// The cases of an act on one path.
fn path_cases(alloc: Global, act: &Act) -> Result<List<Case>, Memory>
    requires performed { IsPerformed act.now }
    requires one_path { IsOnOnePath act.now }
    ensures { IfOk result (λ cases. AreCases act.now cases) }
{
    let names = act.path().names();
    let inside = inside_names(alloc, act, names)?;
    are_names(names);
    are_names(inside.as_slice());
    let cases = make_cases(alloc, act, inside.as_slice())?;
    Ok(cases)
}

// Whether a row says nothing of the place.
fn is_anything(place: Where) -> bool
    ensures { result ≡ is_anything place }
{
    match place {
        Where::Anything => true,
        Where::Is(_) => false,
        Where::Within => false,
        Where::Inside(_) => false,
        Where::Outside => false,
        Where::Empty => false,
        Where::Full => false,
        Where::Into(_) => false,
        Where::IntoEmpty => false,
        Where::IntoFull => false,
    }
}

// What an effect does with what stands at the first path.
fn moving_of(effect: Effect) -> Moving
    ensures { result ≡ moving_of effect }
{
    match effect {
        Effect::Nothing | Effect::MakesDir | Effect::KeepsDir => Moving::Stays,
        Effect::MakesFile | Effect::MakesLink | Effect::LinksInside => Moving::Stays,
        Effect::TakesAway => Moving::Stays,
        Effect::Moves | Effect::MovesInside => Moving::Moves,
        Effect::Copies | Effect::CopiesInside => Moving::Copies,
    }
}

// What a row of a move or a copy says of what is moved or copied.
fn source_ways(slash: bool, source: Option<Kinds>) -> Ways
    ensures { result ≡ ways_of slash (source_where source) }
{
    match source {
        None => ways_of(slash, Where::Anything),
        Some(kinds) => ways_of(slash, Where::Is(kinds)),
    }
}

// A row of the table of a move or a copy as it is made into a case.
fn move_plan(slash: bool, rule: &Rule) -> MovePlan
    ensures { result ≡ move_plan slash rule.now }
{
    MovePlan {
        number: rule.number,
        answer: rule.answer,
        source: source_ways(slash, rule.source),
        place: ways_of(false, rule.place),
        end: end_of_place(rule.place),
        moving: moving_of(rule.effect),
    }
}

// The kinds of what is copied, by whether directories are.
fn copied(deep: bool) -> Kinds
    ensures { result ≡ copied deep }
{
    if deep {
        Kinds::either(Kinds::of(Kind::Reg), Kinds::of(Kind::Dir))
    } else {
        Kinds::of(Kind::Reg)
    }
}

// The kinds of what is moved or copied.
fn taken(act: &Act) -> Kinds
    ensures { result ≡ taken act.now }
{
    match act {
        Act::Copy { deep, .. } => copied(*deep),
        Act::Exists(_) | Act::IsReg(_) | Act::IsDir(_) | Act::IsLink(_) => Kinds::but(Kind::Absent),
        Act::CanRun { .. } | Act::IsSpecial { .. } | Act::Attr(_) => Kinds::but(Kind::Absent),
        Act::MakeDir(_) | Act::EnsureDir(_) | Act::RemoveDir(_) => Kinds::but(Kind::Absent),
        Act::Remove { .. } | Act::Touch(_) | Act::Symlink { .. } => Kinds::but(Kind::Absent),
        Act::Move { .. } | Act::PlaceFile(_) | Act::PlaceLink { .. } => Kinds::but(Kind::Absent),
        Act::PlaceConf(_) | Act::Discard(_) | Act::DiscardDir(_) => Kinds::but(Kind::Absent),
    }
}

// Where the way of the second path is looked at.
fn looked(act: &Act) -> Where
    ensures { result ≡ looked (is_below act.now) (taken act.now) }
{
    if act.is_below() {
        Where::Anything
    } else {
        Where::Is(taken(act))
    }
}

// The row of a link at the first so many names of the second path.
fn second_plan(slash: bool, source: Where, k: u8) -> MovePlan
    requires { k < 128 }
    ensures { result ≡ second_plan slash source k }
{
    let row = Row::of_link(128 + k);
    MovePlan {
        number: row.number,
        answer: row.answer,
        source: ways_of(slash, source),
        place: through(Kinds::of(Kind::Link)),
        end: End::Any,
        moving: Moving::Stays,
    }
}

// The names that a row of a move or a copy looks along to the place.
fn second_names<'a>(act: &'a Act, inside: &'a [Name], any: bool, inner: bool) -> &'a [Name]
    requires { inside.now ≡ with_name (place_of act.now) (inner_name act.now) }
    ensures names { result.now ≡ second_names any inner (place_of act.now) (inner_name act.now) }
    ensures few { length result.now ≤ 65 }
{
    let names = act.place().names();
    if any {
        return &names[..0];
    }
    if inner { inside } else { names }
}

// Adds the cases of the rows of the table of a move or a copy.
fn add_move_rows(
    alloc: Global,
    cases: &mut List<Case>,
    act: &Act,
    inside: &[Name],
    rules: &[Rule],
) -> Result<(), Memory>
    requires { inside.now ≡ with_name (place_of act.now) (inner_name act.now) }
    ensures { OnOk result (cases.new ≡ cases.old ++ map (move_rule_case act.now) rules.now) }
{
    let path = act.path();
    let slash = path.slash();
    for rule in rules {
        let names = second_names(act, inside, is_anything(rule.place), is_inner(rule.place));
        let made = make_move_case(alloc, &move_plan(slash, rule), path.names(), names)?;
        cases.add(made)?;
    }
    Ok(())
}

// Adds the cases of links on the way of the second path.
fn add_seconds(alloc: Global, cases: &mut List<Case>, act: &Act) -> Result<(), Memory>
    ensures { OnOk result (cases.new ≡ cases.old ++ second_cases act.now 1 (length (place_of act.now) - 1)) }
{
    let path = act.path();
    let source = looked(act);
    let names = act.place().names();
    for i in 0..prefixes(names) {
        let k = i + 1;
        let plan = second_plan(path.slash(), source, k as u8);
        let made = make_move_case(alloc, &plan, path.names(), &names[..k])?;
        cases.add(made)?;
    }
    Ok(())
}

// The cases of a move or a copy, as they are made.
fn make_move_cases(alloc: Global, act: &Act, inside: &[Name]) -> Result<List<Case>, Memory>
    requires { inside.now ≡ with_name (place_of act.now) (inner_name act.now) }
    ensures { IfOk result (λ cases. cases ≡ move_cases act.now) }
{
    let mut cases = List::new(alloc);
    let path = act.path();
    add_links(alloc, &mut cases, path.names())?;
    add_slash(alloc, &mut cases, path.slash(), path.names())?;
    add_move_rows(alloc, &mut cases, act, inside, act.rules(act.is_below()))?;
    add_seconds(alloc, &mut cases, act)?;
    Ok(cases)
}

// The cases of a move or a copy.
fn cases_of_move(alloc: Global, act: &Act) -> Result<List<Case>, Memory>
    requires performed { IsPerformed act.now }
    requires a_move { HasSource (source act.now) }
    ensures { IfOk result (λ cases. AreCases act.now cases) }
{
    let names = act.path().names();
    let place = act.place().names();
    let inside = inside_names(alloc, act, place)?;
    are_names(names);
    are_names(place);
    are_names(inside.as_slice());
    let cases = make_move_cases(alloc, act, inside.as_slice())?;
    Ok(cases)
}

/// The cases of an act that meets the conditions of one that is done: one plain case for each of its rows, by rising
/// row. On each tree the case of the row that the act takes leads to the tree that the act leaves, and no other case
/// leads anywhere.
pub fn cases(alloc: Global, act: &Act) -> Result<List<Case>, Memory>
    requires { IsPerformed act.now }
    ensures { IfOk result (λ cases. AreCases act.now cases) }
{
    match act.source() {
        Some(_) => cases_of_move(alloc, act),
        None => path_cases(alloc, act),
    }
}
