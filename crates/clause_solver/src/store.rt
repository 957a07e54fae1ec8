ghost use Rattle.std.specs.Prelude.{◌≡◌, ℕ, ◌+◌, ◌<◌, ◌≤◌, ◌↔◌, List, [], ◌∷◌, length, take, IsTrue};
ghost use Rattle.std.specs.Prelude.{IfOk, IfSome, MatchOption, OnOk, OnErr};
ghost use Rattle.feature_trees.specs.declared.value.Value.{Value};
ghost use Rattle.feature_trees.specs.Kinds.{has, none, both};
ghost use Rattle.feature_trees.specs.Tree.{entry, kind_of};
ghost use Rattle.feature_trees.specs.Sound.{IsTree};
ghost use Rattle.tree_clauses.specs.Literals.{Valuation, value_of_variable, Covers};
ghost use Rattle.tree_clauses.specs.Plain.{IsPlain, IsPlainBack, IsPlainFrom};
ghost use Rattle.tree_clauses.specs.Solved.{IsSolved};
ghost use Rattle.clause_solver.specs.Adds.{AllInside, AddsFrom, LeadsNowhereFrom};
ghost use Rattle.clause_solver.specs.Adds.{AddsCase, LeadsNowhere, AddsBack, LeadsBackNowhere};
ghost use Rattle.clause_solver.specs.Bare.{IsBare};
ghost use Rattle.clause_solver.specs.Pairs.{HasPair};
ghost use Rattle.clause_solver.specs.Plainest.{IsPlainestTree};
ghost use Rattle.clause_solver.specs.Stands.{Seen, Stands, Alive, Extends, HasEntry, IsDirectory, HasPut, HasValue};
ghost use Rattle.clause_solver.specs.Stands.{Empties, Fences, HasEntriesOf, HasSome};
ghost use Rattle.clause_solver.specs.Variables.{made_value};
ghost use Rattle.clause_solver.specs.Variables.{possible, possible_by, var_at};
ghost use Rattle.feature_trees.specs.declared.value.Value.TheVariants as value;

use crate::add_case::drafted;
use crate::appended::Found;
use crate::children::other_kin;
use crate::greatest::kind_made;
use crate::lists::Lists;
use crate::literals::write_literals;
use crate::looking::is_excluded;
use crate::new_name::new_name;
use crate::places::var_at;
use crate::variable::{Definition, MadeValue, Variable};
use feature_trees::{Kind, Kinds, Value};
use script_names::{Bytes, Common, Copied, List as Names, Memory, Name};
use shared_table::{Shared, push_alone};
use std::alloc::Global;
use std::marker::Model;
use tree_clauses::{Case, Clause, Var};

/// A set of pairs of a start tree and a tree now, by values for variables: each variable is defined from earlier ones,
/// so that a start tree decides the values of all.
#[derive(Debug, Drop)]
pub struct Store {
    lists: Lists,
    current: u32,
    alloc: Global,
}

impl Model for Store {
    ghost use Rattle.clause_solver.specs.Stands.{Seen};

    ghost Value = { Seen };

    ghost use Rattle.clause_solver.specs.View.{seen, IsSettled};

    ghost view = { seen };

    ghost invariant = { IsSettled };
}

impl Store {
    /// All start trees, each with itself as the tree now, which is variable 0.
    pub fn start(alloc: Global) -> Result<Store, Memory>
        ensures seen { IfOk result (λ s. (s.count ≡ 1) × (s.current ≡ 0)) }
        ensures pairs { IfOk result (λ s. (t : Value) (g : Valuation) → Stands s t g ↔ ((g ≡ t ∷ []) × IsTree t)) }
    {
        let definition = Common::new(alloc, Definition::Start)?;
        let first = Variable {
            definition,
            kinds: Kinds::of(Kind::Dir),
            fence: None,
            not_empty: false,
            target: None,
        };
        let mut vars = Shared::new(alloc);
        push_alone(&mut vars, first)?;
        let mut best = Shared::new(alloc);
        push_alone(&mut best, Kind::Dir)?;
        let mut kin = Shared::new(alloc);
        push_alone(&mut kin, other_kin(alloc, Names::new(alloc), None, 0)?)?;
        let lists = Lists {
            vars,
            best,
            kin,
            filled: Shared::new(alloc),
            alive: true,
        };
        Ok(Store {
            lists,
            current: 0,
            alloc,
        })
    }

    /// An equal store, which owns the same nodes: no variable is copied, and a later change of the one store leaves
    /// the other.
    pub fn fork(&self) -> Result<Store, Memory>
        ensures { IfOk result (λ fork. fork ≡ self.now) }
    {
        let lists = self.lists.fork()?;
        Ok(Store {
            lists,
            current: self.current,
            alloc: self.alloc,
        })
    }

    /// The variable of the tree now. For each start tree the store has one valuation at most.
    pub fn now(&self) -> Var
        ensures now { result.0 ≡ self.now.current }
        ensures known { result.0 < self.now.count }
        ensures unique { (t : Value) (g h : Valuation) → Stands self.now t g → Stands self.now t h → g ≡ h }
    {
        Var(self.current)
    }

    /// Narrows a variable to a set of kinds, and says whether a pair is left. For want of memory the store is as
    /// before.
    pub fn limit(&mut self, x: Var, k: Kinds) -> Result<bool, Memory>
        requires { x.0 < self.old.count }
        ensures kept { (self.new.count ≡ self.old.count) × (self.new.current ≡ self.old.current) }
        ensures exact { IfOk result (λ left. (t : Value) (g : Valuation) → Stands self.new t g
            ↔ (Stands self.old t g × IsTrue (has k (kind_of (value_of_variable g x.0))))) }
        ensures alive { IfOk result (λ left. IsTrue left ↔ Alive self.new) }
        ensures unchanged { OnErr result (self.new ≡ self.old) }
    {
        let mut new = self.lists.fork()?;
        new.narrow(self.alloc, x.0, k)?;
        let left = new.alive;
        self.lists = new;
        Ok(left)
    }

    /// Leaves the pairs in which a variable is a symbolic link with this target, and says whether one is left. For want
    /// of memory the store is as before.
    pub fn lead(&mut self, x: Var, target: &Bytes) -> Result<bool, Memory>
        requires { x.0 < self.old.count }
        ensures kept { (self.new.count ≡ self.old.count) × (self.new.current ≡ self.old.current) }
        ensures exact { IfOk result (λ left. (t : Value) (g : Valuation) → Stands self.new t g
            ↔ (Stands self.old t g × (value_of_variable g x.0 ≡ value.Link target.now))) }
        ensures alive { IfOk result (λ left. IsTrue left ↔ Alive self.new) }
        ensures unchanged { OnErr result (self.new ≡ self.old) }
    {
        let mut new = self.lists.fork()?;
        new.lead(self.alloc, x.0, target)?;
        let left = new.alive;
        self.lists = new;
        Ok(left)
    }

    /// Whether the variable alone tells that no pair has a kind of this set there. Where it does not, there may be
    /// such a pair or none. It takes no memory.
    pub fn excludes(&self, x: Var, k: Kinds) -> bool
        requires { x.0 < self.now.count }
        ensures { IsTrue result → (t : Value) (g : Valuation) → Stands self.now t g
            → IsTrue (has k (kind_of (value_of_variable g x.0))) → ⊥ }
    {
        allows_none(&self.lists.vars, x.0 as usize, k)
    }

    /// The variable of an entry, where some variable stands for it. It takes no memory.
    pub fn look(&self, x: Var, f: &Name) -> Option<Var>
        requires { x.0 < self.now.count }
        ensures { IfSome result (λ y. HasEntry self.now x.0 f.now y.0) }
    {
        match self.lists.resolve(x.0, f) {
            Found::Known(y) => Some(Var(y)),
            Found::Nothing => None,
            Found::At(n) => {
                if let Some(y) = self.lists.find(n, f) {
                    return Some(Var(y));
                }
                None
            }
        }
    }

    /// The variable of an entry; it may be an older one. For want of memory the store is as before.
    pub fn child(&mut self, x: Var, f: &Name) -> Result<Var, Memory>
        requires { x.0 < self.old.count }
        ensures extends { Extends self.old self.new }
        ensures entry { IfOk result (λ y. HasEntry self.new x.0 f.now y.0) }
        ensures kept { OnErr result (self.new ≡ self.old) }
        ensures count { self.new.count ≤ self.old.count + 1 }
    {
        f.is_sound();
        match self.lists.resolve(x.0, f) {
            Found::Known(y) => Ok(Var(y)),
            Found::Nothing => {
                let made = Definition::Made(MadeValue::Absent);
                let y = self.lists.append(self.alloc, made)?;
                Ok(Var(y))
            }
            Found::At(n) => {
                if let Some(y) = self.lists.find(n, f) {
                    return Ok(Var(y));
                }
                let name = f.copy(self.alloc)?;
                let y = self.lists.append(self.alloc, Definition::Child(n, name))?;
                Ok(Var(y))
            }
        }
    }

    /// The variable of a directory with the value of y under a name, and its other entries as before; where y is
    /// absent the entry is gone. For want of memory the store is as before.
    pub fn derive(&mut self, x: Var, f: &Name, y: Var) -> Result<Var, Memory>
        requires known { (x.0 < self.old.count) × (y.0 < self.old.count) }
        requires directory { IsDirectory self.old x.0 }
        ensures extends { Extends self.old self.new }
        ensures put { IfOk result (λ z. HasPut self.new x.0 f.now y.0 z.0) }
        ensures kept { OnErr result (self.new ≡ self.old) }
        ensures count { self.new.count ≤ self.old.count + 1 }
    {
        f.is_sound();
        let name = f.copy(self.alloc)?;
        let derived = Definition::Derived(x.0, name, y.0);
        let z = self.lists.append(self.alloc, derived)?;
        Ok(Var(z))
    }

    /// A variable whose value is the directory without entries. For want of memory the store is as before.
    pub fn made_dir(&mut self) -> Result<Var, Memory>
        ensures extends { Extends self.old self.new }
        ensures empty { IfOk result (λ y. HasValue self.new y.0 (value.Dir [])) }
        ensures kept { OnErr result (self.new ≡ self.old) }
        ensures count { self.new.count ≤ self.old.count + 1 }
    {
        self.made(MadeValue::Dir)
    }

    /// A variable whose value is absent. For want of memory the store is as before.
    pub fn made_absent(&mut self) -> Result<Var, Memory>
        ensures extends { Extends self.old self.new }
        ensures absent { IfOk result (λ y. HasValue self.new y.0 value.Absent) }
        ensures kept { OnErr result (self.new ≡ self.old) }
        ensures count { self.new.count ≤ self.old.count + 1 }
    {
        self.made(MadeValue::Absent)
    }

    /// A variable whose value is a regular file. For want of memory the store is as before.
    pub fn made_reg(&mut self) -> Result<Var, Memory>
        ensures extends { Extends self.old self.new }
        ensures reg { IfOk result (λ y. HasValue self.new y.0 value.Reg) }
        ensures kept { OnErr result (self.new ≡ self.old) }
        ensures count { self.new.count ≤ self.old.count + 1 }
    {
        self.made(MadeValue::Reg)
    }

    /// A variable whose value is a symbolic link to the target. For want of memory the store is as before.
    pub fn made_link(&mut self, target: &Bytes) -> Result<Var, Memory>
        ensures extends { Extends self.old self.new }
        ensures link { IfOk result (λ y. HasValue self.new y.0 (value.Link target.now)) }
        ensures kept { OnErr result (self.new ≡ self.old) }
        ensures count { self.new.count ≤ self.old.count + 1 }
    {
        let target = target.copy(self.alloc)?;
        self.made(MadeValue::Link(target))
    }

    /// The variable of a directory with the entries of x; what is no directory has none. For want of memory the store
    /// is as before.
    pub fn ensure(&mut self, x: Var) -> Result<Var, Memory>
        requires known { x.0 < self.old.count }
        ensures extends { Extends self.old self.new }
        ensures entries { IfOk result (λ y. HasEntriesOf self.new x.0 y.0) }
        ensures kept { OnErr result (self.new ≡ self.old) }
        ensures count { self.new.count ≤ self.old.count + 1 }
    {
        let y = self.lists.append(self.alloc, Definition::Ensured(x.0))?;
        Ok(Var(y))
    }

    /// Leaves the pairs in which a variable has an entry, and says whether one is left. For want of memory the store
    /// is as before.
    pub fn not_empty(&mut self, x: Var) -> Result<bool, Memory>
        requires { x.0 < self.old.count }
        ensures kept { (self.new.count ≡ self.old.count) × (self.new.current ≡ self.old.current) }
        ensures exact { IfOk result (λ left. (t : Value) (g : Valuation) → Stands self.new t g
            ↔ (Stands self.old t g × HasSome (value_of_variable g x.0))) }
        ensures alive { IfOk result (λ left. IsTrue left ↔ Alive self.new) }
        ensures unchanged { OnErr result (self.new ≡ self.old) }
    {
        let mut new = self.lists.fork()?;
        new.fill(self.alloc, x.0)?;
        let left = new.alive;
        self.lists = new;
        Ok(left)
    }

    /// Leaves the pairs in which a variable has no entry, and says whether one is left; there may be further variables.
    /// For want of memory the store is as before.
    pub fn empty(&mut self, x: Var) -> Result<bool, Memory>
        requires { x.0 < self.old.count }
        ensures empties { IfOk result (λ left. Empties self.old self.new x.0) }
        ensures alive { IfOk result (λ left. IsTrue left ↔ Alive self.new) }
        ensures unchanged { OnErr result (self.new ≡ self.old) }
    {
        let new = self.lists.without_entries(self.alloc, x.0)?;
        let left = new.alive;
        self.lists = new;
        Ok(left)
    }

    /// Leaves the pairs in which a variable has entries under these names alone, and says whether one is left; there
    /// may be further variables. What is no directory has no entry. For want of memory the store is as before.
    pub fn fence(&mut self, x: Var, names: &Names<Name>) -> Result<bool, Memory>
        requires { x.0 < self.old.count }
        ensures fences { IfOk result (λ left. Fences self.old self.new x.0 names.now) }
        ensures alive { IfOk result (λ left. IsTrue left ↔ Alive self.new) }
        ensures unchanged { OnErr result (self.new ≡ self.old) }
    {
        let new = self.lists.with_fence(self.alloc, x.0, names)?;
        let left = new.alive;
        self.lists = new;
        Ok(left)
    }

    /// The pairs from whose tree now the case leads on, with the tree that it leads to as the tree now. None exactly
    /// where no pair is left. This store stays as it is.
    pub fn add_case(&self, case: &Case) -> Result<Option<Store>, Memory>
        requires plain { IsPlain case.now }
        ensures { let old = self.now in let made = case.now in
            IfOk result (λ found. MatchOption found (LeadsNowhere old made) (AddsCase old made)) }
    {
        let given = [self.now()];
        let found = self.add_from(&given, case)?;
        Ok(found)
    }

    /// What `add_case` gives, where this store is not needed any more: what it alone owns is changed in place.
    pub fn follow(self, case: &Case) -> Result<Option<Store>, Memory>
        requires plain { IsPlain case.now }
        ensures { let old = self in let made = case.now in
            IfOk result (λ found. MatchOption found (LeadsNowhere old made) (AddsCase old made)) }
    {
        let given = [self.now()];
        let found = self.follow_from(&given, case)?;
        Ok(found)
    }

    /// The pairs from whose tree now, and from the value of the kept variable, the back case leads on, with the tree
    /// that it leads to as the tree now. None exactly where no pair is left. This store stays as it is.
    pub fn add_back(&self, kept: Var, case: &Case) -> Result<Option<Store>, Memory>
        requires plain { IsPlainBack case.now }
        requires known { kept.0 < self.now.count }
        ensures { let old = self.now in let made = case.now in
            IfOk result (λ found. MatchOption found (LeadsBackNowhere old kept.0 made) (AddsBack old kept.0 made)) }
    {
        let given = [self.now(), kept];
        let found = self.add_from(&given, case)?;
        Ok(found)
    }

    /// The pairs from the values of whose given variables a case leads on, with the tree that it leads to as the tree
    /// now. These variables of the store stand for the first ones of the case, in their order, and may be one variable.
    /// None exactly where no pair is left. This store stays as it is.
    pub fn add_from(&self, given: &[Var], case: &Case) -> Result<Option<Store>, Memory>
        requires plain { IsPlainFrom (length given.now) case.now }
        requires few { length given.now ≤ u32.MAX }
        requires known { AllInside given.now self.now.count }
        ensures { let old = self.now in let made = case.now in let from = given.now in
            IfOk result (λ found. MatchOption found (LeadsNowhereFrom old from made) (AddsFrom old from made)) }
    {
        if is_excluded(self, given, case) {
            return Ok(None);
        }
        let fork = self.fork()?;
        let found = fork.follow_from(given, case)?;
        Ok(found)
    }

    /// What `add_from` gives, where this store is not needed any more: what it alone owns is changed in place.
    pub fn follow_from(self, given: &[Var], case: &Case) -> Result<Option<Store>, Memory>
        requires plain { IsPlainFrom (length given.now) case.now }
        requires few { length given.now ≤ u32.MAX }
        requires known { AllInside given.now self.count }
        ensures { let old = self in let made = case.now in let from = given.now in
            IfOk result (λ found. MatchOption found (LeadsNowhereFrom old from made) (AddsFrom old from made)) }
    {
        let draft = drafted(self.alloc, self.lists, given, case)?;
        let current = draft.place(case.root);
        let left = draft.lists.alive;
        if !left {
            return Ok(None);
        }
        Ok(Some(Store {
            lists: draft.lists,
            current,
            alloc: self.alloc,
        }))
    }

    // The variable of a made value.
    fn made(&mut self, value: MadeValue) -> Result<Var, Memory>
        ensures extends { Extends self.old self.new }
        ensures value { IfOk result (λ y. HasValue self.new y.0 (made_value value)) }
        ensures kept { OnErr result (self.new ≡ self.old) }
        ensures count { self.new.count ≤ self.old.count + 1 }
    {
        let y = self.lists.append(self.alloc, Definition::Made(value))?;
        Ok(Var(y))
    }

    /// Makes a variable the tree now. It takes no memory.
    pub fn set_now(&mut self, x: Var)
        requires known { x.0 < self.old.count }
        requires directory { IsDirectory self.old x.0 }
        ensures now { self.new ≡ record self.old { current = x.0 } }
        ensures same { (t : Value) (g : Valuation) → Stands self.new t g ↔ Stands self.old t g }
    {
        self.current = x.0;
    }

    /// A start tree of some pair, the same at each run. A directory of it has an entry that no variable stands for
    /// only where some directory that is made from it has to have one, and has no other.
    pub fn start_tree(&self, alloc: Global) -> Result<Value, Memory>
        requires { Alive self.now }
        ensures pair { IfOk result (λ t. (g : Valuation) × Stands self.now t g) }
        ensures bare { IfOk result (λ t. (g : Valuation) → Stands self.now t g → IsBare self.now t g) }
    {
        let marks = self.lists.open_places(alloc)?;
        let z = new_name(alloc, &self.lists.vars)?;
        let tree = self.lists.grow(alloc, &marks, &z)?;
        Ok(tree)
    }

    /// A start tree of some pair than which none has less there, of what variables stand for. Unless some directory has
    /// to have an entry, nothing is there then but what is there in each pair.
    pub fn plainest_tree(&self, alloc: Global) -> Result<Value, Memory>
        requires { Alive self.now }
        ensures pair { IfOk result (λ t. (g : Valuation) × Stands self.now t g) }
        ensures plainest { IfOk result (IsPlainestTree self.now) }
    {
        let lists = self.lists.plainest(self.alloc)?;
        let plain = Store {
            lists,
            current: self.current,
            alloc: self.alloc,
        };
        let tree = plain.start_tree(alloc)?;
        Ok(tree)
    }

    /// A clause in solved order with the same pairs: variable 0 is its start, and the tree now its `now`.
    pub fn clause(&self) -> Result<Clause, Memory>
        ensures seen { IfOk result (λ c. (c.literals ≡ self.now.literals) × (c.start.0 ≡ 0)
            × (c.now.0 ≡ self.now.current)) }
        ensures covers { IfOk result (λ c. (t u : Value) → Covers c t u ↔ HasPair self.now t u) }
        ensures solved { IfOk result IsSolved }
    {
        let literals = write_literals(self.alloc, &self.lists.vars)?;
        Ok(Clause {
            literals,
            start: Var(0),
            now: Var(self.current),
        })
    }
}

// Whether a variable can have none of these kinds.
fn allows_none(vars: &Shared<Variable>, x: usize, k: Kinds) -> bool
    requires { x < length vars.now }
    ensures { IsTrue result ↔ (both (possible (var_at vars.now x)) k ≡ none) }
{
    let kinds = possible(var_at(vars, x));
    Kinds::both(kinds, k).is_none()
}

// The kinds that a variable can have, by its definition and its own kinds.
fn possible(v: &Variable) -> Kinds
    ensures { result ≡ possible v.now }
{
    possible_by(v.definition.get(), v.kinds)
}

// The one kind that a definition fixes, else the kinds that are given.
fn possible_by(definition: &Definition, kinds: Kinds) -> Kinds
    ensures { result ≡ possible_by definition.now kinds }
{
    match definition {
        Definition::Start => kinds,
        Definition::Child(_, _) => kinds,
        Definition::Derived(_, _, _) => Kinds::of(Kind::Dir),
        Definition::Ensured(_) => Kinds::of(Kind::Dir),
        Definition::Made(value) => Kinds::of(kind_made(value)),
    }
}
