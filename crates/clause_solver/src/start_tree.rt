ghost use Rattle.std.specs.Prelude.{◌≡◌, ◌⊎◌, ℕ, ◌<◌, List, [], length, map, IsTrue, OnOk, IfOk, IfSome, Some};
ghost use Rattle.std.specs.Prelude.{unwrap_or};
ghost use Rattle.feature_trees.specs.declared.value.Value.TheVariants as value;
ghost use Rattle.tree_clauses.specs.Literals.{value_of_variable};
ghost use Rattle.clause_solver.specs.Variables.{Ordered, var_at};
ghost use Rattle.clause_solver.specs.Greatest.{IsSatisfied, HasEntryOutside, unfenced, kind_at};
ghost use Rattle.clause_solver.specs.Decided.{AreDecided};
ghost use Rattle.clause_solver.specs.Grown.{values, grown, some_target, extra};
ghost use Rattle.clause_solver.specs.NewNames.{beginning, begins, name_used, IsNew};
ghost use Rattle.clause_solver.specs.Opens.{mark_at, opened, AreReasoned, IsOpenedFor, IsRoot};
ghost use Rattle.clause_solver.specs.Gathered.{gathered};
ghost use Rattle.clause_solver.specs.Builds.{AreWithoutChildren, laid_by, ParentBelow};

use crate::greatest::{ReplacedNames, has_entry_outside};
use crate::growing::Growing;
use crate::lists::{Lists, number_at};
use crate::places::{definition_at, kind_at, var_at};
use crate::variable::{Definition, Variable};
use feature_trees::{Entries, Kind, Value};
use script_names::{Bytes, Copied, Memory, Name, NameFault};
use shared_table::Shared;
use std::alloc::Global;

// A directory with one entry of that name where it is wanted.
fn dir_without_children(alloc: Global, wanted: bool, z: &Name) -> Result<Value, Memory>
    ensures { IfOk result (λ v. v ≡ value.Dir (extra wanted z.now)) }
{
    let mut entries = Entries::new(alloc);
    if wanted {
        entries.set(z, Value::Reg)?;
    }
    Ok(Value::Dir(entries))
}

// The target of a link, and `x` where none is known.
fn link_target(alloc: Global, target: &Option<Bytes>) -> Result<Bytes, Memory>
    ensures { IfOk result (λ bytes. bytes ≡ unwrap_or target.now some_target) }
{
    match target {
        Some(bytes) => bytes.copy(alloc),
        None => Bytes::from_slice(alloc, b"x"),
    }
}

// A place of a kind before any entry is known, with this target where it is a link.
fn value_without_children(
    alloc: Global,
    kind: Kind,
    target: &Option<Bytes>,
    wanted: bool,
    z: &Name,
) -> Result<Value, Memory>
    ensures { IfOk result (λ v. v ≡ grown kind target.now (extra wanted z.now)) }
{
    match kind {
        Kind::Absent => Ok(Value::Absent),
        Kind::Reg => Ok(Value::Reg),
        Kind::Link => Ok(Value::Link(link_target(alloc, target)?)),
        Kind::Special(s) => Ok(Value::Special(s)),
        Kind::Dir => dir_without_children(alloc, wanted, z),
    }
}

// Whether a place is marked, and has no fence.
fn is_wanted(vars: &Shared<Variable>, marks: &[bool], i: usize) -> bool
    requires marks { length marks.now ≡ length vars.now }
    requires inside { i < length vars.now }
    ensures { result ≡ opened vars.now marks.now i }
{
    marks[i] && var_at(vars, i).fence.is_none()
}

// Every variable of its greatest kind before any entry is known.
fn places_without_children<'a>(
    alloc: Global,
    vars: &'a Shared<Variable>,
    best: &Shared<Kind>,
    marks: &[bool],
    z: &Name,
) -> Result<Vec<Growing<'a>>, Memory>
    requires same { length best.now ≡ length vars.now }
    requires marks { length marks.now ≡ length vars.now }
    ensures { IfOk result (λ v. AreWithoutChildren vars.now best.now marks.now z.now (map gathered v.items)) }
{
    let mut places = Vec::new(alloc);
    for i in 0..vars.len() {
        let wanted = is_wanted(vars, marks, i);
        let target = &var_at(vars, i).target;
        let base = value_without_children(alloc, kind_at(best, i), target, wanted, z)?;
        places.push(Growing::new(alloc, base))?;
    }
    Ok(places)
}

// Lays a value by at its parent, where it is an entry.
fn move_to_parent<'a>(
    places: &mut [Growing<'a>],
    definition: &'a Definition,
    v: Value,
) -> Result<(), Memory>
    requires { ParentBelow (length places.old) definition.now }
    ensures { OnOk result (map gathered places.new ≡ laid_by (map gathered places.old) definition.now v) }
{
    match definition {
        Definition::Child(of, f) => {
            places[*of as usize].push(f, v)?;
            Ok(())
        }
        _ => Ok(()),
    }
}

// The place of the start tree that a variable is made from, where there is one.
fn root(vars: &Shared<Variable>, x: usize) -> Option<usize>
    requires order { Ordered vars.now }
    requires inside { x < length vars.now }
    ensures within { IfSome result (λ r. r < length vars.now) }
    ensures root { (r : ℕ) → IsRoot vars.now x r → result ≡ Some r }
    ensures found { IfSome result (IsRoot vars.now x) }
{
    let mut here = x;
    loop {
        match definition_at(vars, here) {
            Definition::Start => return Some(here),
            Definition::Child(_, _) => return Some(here),
            Definition::Derived(of, _, _) => here = *of as usize,
            Definition::Ensured(of) => here = *of as usize,
            Definition::Made(_) => return None,
        }
    }
}

impl Lists {
    /// The start tree in which each place has its greatest kind, with one more entry of a new name at the marked
    /// places. The values are made from the last variable to the first, and each is moved into its parent once.
    pub(crate) fn grow(&self, alloc: Global, marks: &[bool], z: &Name) -> Result<Value, Memory>
        requires decided { AreDecided self.now }
        requires marks { length marks.now ≡ length self.now.vars }
        ensures { let vars = self.now.vars in IfOk result (λ v.
            v ≡ value_of_variable (values self.now.best (opened vars marks.now) z.now 0 vars) 0) }
    {
        let mut places = places_without_children(alloc, &self.vars, &self.best, marks, z)?;
        while let Some(last) = places.pop() {
            let v = last.finish()?;
            let i = places.len();
            if i == 0 {
                return Ok(v);
            }
            move_to_parent(&mut places, definition_at(&self.vars, i), v)?;
        }
        unreachable!()
    }

    // Marks the place that a variable is made from, where the variable needs an entry and has none otherwise.
    fn open_for(&self, alloc: Global, marks: &mut [bool], i: usize)
        requires decided { AreDecided self.now }
        requires marks { length marks.old ≡ length self.now.vars }
        requires inside { i < length self.now.vars }
        requires has_entry { let vars = self.now.vars in IsTrue (var_at vars i).not_empty
            → HasEntryOutside vars self.now.best (unfenced vars) i [] }
        ensures same { length marks.new ≡ length marks.old }
        ensures more { (n : ℕ) → IsTrue (mark_at marks.old n) → IsTrue (mark_at marks.new n) }
        ensures filled { let vars = self.now.vars in IsTrue (var_at vars i).not_empty
            → HasEntryOutside vars self.now.best (opened vars marks.new) i [] }
        ensures reasoned { (n : ℕ) → IsTrue (mark_at marks.new n)
            → IsTrue (mark_at marks.old n) ⊎ IsOpenedFor self.now.vars self.now.best n i }
    {
        if !var_at(&self.vars, i).not_empty {
            return;
        }
        let replaced = ReplacedNames::Nothing;
        if has_entry_outside(
            alloc, &self.vars, &self.best, &self.kin, false, i, &replaced,
        ) {
            return;
        }
        let r = match root(&self.vars, i) {
            Some(r) => r,
            None => return,
        };
        marks[r] = true;
    }

    /// Marks for the places that have to be shown with one more entry, so that each variable has one that needs it.
    pub(crate) fn open_places(&self, alloc: Global) -> Result<Vec<bool>, Memory>
        requires decided { AreDecided self.now }
        requires satisfied { IsSatisfied self.now.vars self.now.best (unfenced self.now.vars) }
        ensures same { IfOk result (λ v. length v.items ≡ length self.now.vars) }
        ensures satisfied { let vars = self.now.vars in
            IfOk result (λ v. IsSatisfied vars self.now.best (opened vars v.items)) }
        ensures reasoned { IfOk result (λ v. AreReasoned self.now.vars self.now.best v.items) }
    {
        let mut marks = vec![in alloc; false; self.vars.len()]?;
        for k in 0..self.filled.len() {
            let x = number_at(&self.filled, k) as usize;
            self.open_for(alloc, &mut marks, x);
        }
        Ok(marks)
    }
}
