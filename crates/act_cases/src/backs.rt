ghost use Rattle.std.specs.Prelude.{◌≡◌, ◌+◌, ◌-◌, ◌≤◌, ◌++◌, ◌∷◌, length, map, IfOk, OnOk};
ghost use Rattle.feature_trees.specs.declared.kind.Kind.TheVariants.{Absent};
ghost use Rattle.feature_trees.specs.Kinds.{of};
ghost use Rattle.tree_clauses.specs.declared.clause.Literal.TheVariants as literal;
ghost use Rattle.utility_calls.specs.Backs.{IsNamed};
ghost use Rattle.act_cases.specs.Looks.{var};
ghost use Rattle.act_cases.specs.Puts.{put_literals};
ghost use Rattle.act_cases.specs.BackCases.{puts_of, behind, back_changes, back_locals, back_root, back_case};
ghost use Rattle.act_cases.specs.BackCases.{any_way, asked, kept_names, link_back_plan, back_plan};
ghost use Rattle.act_cases.specs.BackCases.{rule_back, link_backs, back_cases_of, AreBackCases};

use crate::looks::{Ways, add_look};
use crate::making::{are_names, end_of_place, prefixes, through, ways_of};
use crate::moves::{end_of, root_of};
use crate::plans::{End, add_end};
use crate::puts::add_put;
use feature_trees::{Kind, Kinds};
use script_names::{Done, List, Memory, Name};
use std::alloc::Global;
use tree_clauses::{Case, Literal, Var};
use utility_calls::backs::Back;
use utility_calls::sights::{Effect, Row, Rule};

/// What a row puts at the names of a back.
#[derive(Clone, Copy, Debug, PartialEq, Eq)]
pub enum Puts {
    /// The tree stays as it is.
    Leaves,
    /// Nothing stands there any more.
    Takes,
    /// What stood there in the kept tree.
    Returns,
}

/// A row of a back as it is made into a case: what the values along names in the kept tree are, what those in the tree
/// are, and what is put there.
#[derive(Clone, Copy, Debug, PartialEq, Eq)]
pub struct BackPlan {
    pub number: u8,
    pub answer: Done,
    pub kept: Ways,
    pub place: Ways,
    pub end: End,
    pub puts: Puts,
}

// What the effect of a row puts.
fn puts_of(effect: Effect) -> Puts
    ensures { result ≡ puts_of effect }
{
    match effect {
        Effect::Nothing | Effect::MakesDir | Effect::KeepsDir | Effect::MakesFile => Puts::Leaves,
        Effect::MakesLink | Effect::LinksInside | Effect::MovesInside => Puts::Leaves,
        Effect::Copies | Effect::CopiesInside => Puts::Leaves,
        Effect::TakesAway => Puts::Takes,
        Effect::Moves => Puts::Returns,
    }
}

// Whatever the values on the way are.
fn any_way(kinds: Kinds) -> Ways
    ensures { result ≡ any_way kinds }
{
    Ways {
        strict: Kinds::all(),
        parent: Kinds::all(),
        last: kinds,
    }
}

// The kinds that a row asks for in the kept tree.
fn asked(source: Option<Kinds>) -> Kinds
    ensures { result ≡ asked source }
{
    match source {
        None => Kinds::all(),
        Some(kinds) => kinds,
    }
}

// The names that it looks along there.
fn kept_names<'a>(source: Option<Kinds>, names: &'a [Name]) -> &'a [Name]
    requires { length names.now ≤ 64 }
    ensures names { result.now ≡ kept_names source names.now }
    ensures few { length result.now ≤ 64 }
{
    match source {
        None => &names[..0],
        Some(_) => names,
    }
}

// The row of a link at the first so many names, as it is made into a case.
fn link_back_plan(number: u8) -> BackPlan
    ensures { result ≡ link_back_plan number }
{
    let row = Row::of_link(number);
    BackPlan {
        number: row.number,
        answer: row.answer,
        kept: any_way(Kinds::all()),
        place: through(Kinds::of(Kind::Link)),
        end: End::Any,
        puts: Puts::Leaves,
    }
}

// A row of the table as it is made into a case.
fn back_plan(rule: &Rule) -> BackPlan
    ensures { result ≡ back_plan rule.now }
{
    BackPlan {
        number: rule.number,
        answer: rule.answer,
        kept: any_way(asked(rule.source)),
        place: ways_of(false, rule.place),
        end: end_of_place(rule.place),
        puts: puts_of(rule.effect),
    }
}

// The first variable behind those of the entries.
fn behind(p: &[Name], q: &[Name]) -> u32
    requires kept { length p.now ≤ 64 }
    requires place { length q.now ≤ 64 }
    ensures { result ≡ behind p.now q.now }
{
    p.len() as u32 + q.len() as u32 + 2
}

// Adds the literals of the tree with nothing at names, of which the first entry has the variable `y`; `z` is the
// variable of nothing.
fn add_taken(
    alloc: Global,
    literals: &mut List<Literal>,
    y: u32,
    names: &[Name],
    z: u32,
) -> Result<(), Memory>
    requires entries { y + length names.now ≤ u32.MAX }
    requires made { z + 1 + length names.now ≤ u32.MAX }
    ensures { OnOk result (literals.new ≡ literals.old
        ++ (literal.Kind (var z) (of Absent) ∷ put_literals 0 y names.now z (z + 1))) }
{
    literals.add(Literal::Kind(Var(z), Kinds::of(Kind::Absent)))?;
    add_put(alloc, literals, 0, y, names, z, z + 1)
}

// Adds the literals of what is put.
fn add_changes(
    alloc: Global,
    literals: &mut List<Literal>,
    puts: Puts,
    p: &[Name],
    q: &[Name],
) -> Result<(), Memory>
    requires kept { length p.now ≤ 64 }
    requires place { length q.now ≤ 64 }
    ensures { OnOk result (literals.new ≡ literals.old ++ back_changes puts p.now q.now) }
{
    let y = p.len() as u32 + 2;
    let z = behind(p, q);
    match puts {
        Puts::Leaves => Ok(()),
        Puts::Takes => add_taken(alloc, literals, y, q, z),
        Puts::Returns => add_put(alloc, literals, 0, y, q, end_of(1, 2, p), z),
    }
}

// How many variables there are beside those of the two trees.
fn locals(puts: Puts, p: &[Name], q: &[Name]) -> u32
    requires kept { length p.now ≤ 64 }
    requires place { length q.now ≤ 64 }
    ensures { result ≡ back_locals puts p.now q.now }
{
    let n = p.len() as u32;
    let k = q.len() as u32;
    match puts {
        Puts::Leaves => n + k,
        Puts::Takes => n + k + 1 + k,
        Puts::Returns => n + k + k,
    }
}

// The variable of the tree afterwards.
fn root(puts: Puts, p: &[Name], q: &[Name]) -> u32
    requires kept { length p.now ≤ 64 }
    requires place { length q.now ≤ 64 }
    ensures { result ≡ back_root puts p.now q.now }
{
    let z = behind(p, q);
    match puts {
        Puts::Leaves => 0,
        Puts::Takes => root_of(q, z, z + 1),
        Puts::Returns => root_of(q, end_of(1, 2, p), z),
    }
}

// The case of a row that looks along names in the kept tree and in the tree, and of what it puts there.
fn make_back_case(alloc: Global, plan: &BackPlan, p: &[Name], q: &[Name]) -> Result<Case, Memory>
    requires kept { length p.now ≤ 64 }
    requires place { length q.now ≤ 64 }
    ensures { IfOk result (λ made. made ≡ back_case plan.now p.now q.now) }
{
    let y = p.len() as u32 + 2;
    let mut literals = List::new(alloc);
    literals.add(Literal::Kind(Var(0), Kinds::of(Kind::Dir)))?;
    add_look(alloc, &mut literals, &plan.kept, 1, 2, p)?;
    add_look(alloc, &mut literals, &plan.place, 0, y, q)?;
    add_end(alloc, &mut literals, plan.end, end_of(0, y, q))?;
    add_changes(alloc, &mut literals, plan.puts, p, q)?;
    Ok(Case {
        row: plan.number,
        locals: locals(plan.puts, p, q),
        literals,
        done: plan.answer,
        root: Var(root(plan.puts, p, q)),
    })
}

// Adds the cases of links on the way.
fn add_link_backs(alloc: Global, cases: &mut List<Case>, names: &[Name]) -> Result<(), Memory>
    requires { length names.now ≤ 64 }
    ensures { OnOk result (cases.new ≡ cases.old ++ link_backs names.now 1 (length names.now - 1)) }
{
    for k in 0..prefixes(names) {
        let n = k + 1;
        let plan = link_back_plan(n as u8);
        let made = make_back_case(alloc, &plan, &names[..0], &names[..n])?;
        cases.add(made)?;
    }
    Ok(())
}

// Adds the cases of the rows of a back's table.
fn add_rule_backs(
    alloc: Global,
    cases: &mut List<Case>,
    names: &[Name],
    rules: &[Rule],
) -> Result<(), Memory>
    requires { length names.now ≤ 64 }
    ensures { OnOk result (cases.new ≡ cases.old ++ map (rule_back names.now) rules.now) }
{
    for rule in rules {
        let along = kept_names(rule.source, names);
        let made = make_back_case(alloc, &back_plan(rule), along, names)?;
        cases.add(made)?;
    }
    Ok(())
}

// The cases of a back, as they are made.
fn make_back_cases(alloc: Global, back: &Back) -> Result<List<Case>, Memory>
    ensures { IfOk result (λ cases. cases ≡ back_cases_of back.now) }
{
    let mut cases = List::new(alloc);
    let names = back.path().names();
    add_link_backs(alloc, &mut cases, names)?;
    add_rule_backs(alloc, &mut cases, names, back.rules())?;
    Ok(cases)
}

/// The cases of a back whose path has a name: one plain back case for each of its rows, by rising row. From each tree,
/// with each kept tree, the case of the row that the back takes leads to the tree that the back leaves, and no other
/// case leads anywhere.
pub fn back_cases(alloc: Global, back: &Back) -> Result<List<Case>, Memory>
    requires { IsNamed back.now }
    ensures { IfOk result (λ cases. AreBackCases back.now cases) }
{
    are_names(back.path().names());
    let cases = make_back_cases(alloc, back)?;
    Ok(cases)
}
