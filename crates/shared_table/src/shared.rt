ghost use Rattle.std.specs.Prelude.{◌≡◌, ◌+◌, ◌<◌, ◌≤◌, [], ◌∷◌, ◌++◌, length, slice_get, slice_set};
ghost use Rattle.std.specs.Prelude.{IfOk, OnOk, OnErr, OnSome};
ghost use Rattle.std.specs.Option.{option_copied};
ghost use Rattle.shared_table.specs.Cost.{TakesFewSteps};

use crate::node::{Node, append, item_at, replace, single};
use crate::steps::Steps;
use script_names::{Copied, Memory};
use std::alloc::Global;
use std::marker::Model;
use std::rc::Rc;
use std::sync::ledger::Ledger;

/// A list that may own its nodes together with other lists, which contracts see as the list of its items.
/// It is a tree in which each node has up to 16 children, and each leaf up to 16 items. `width` is how many items a
/// child of the root may have. A node that nobody else owns is changed in place; any other is copied before a change.
#[derive(Debug, Drop)]
pub struct Shared<T> {
    len: usize,
    width: usize,
    root: Option<Rc<Node<T>>>,
    alloc: Global,
}

impl<T> Model for Shared<T> {
    ghost use Rattle.std.specs.Prelude.{List};
    ghost use Rattle.std.specs.Coded.{coded_list};

    ghost Value = { List T };

    ghost coded = { coded_list T.code };

    ghost use Rattle.shared_table.specs.Roots.{items_in, IsRoot};

    ghost view = { λ list. items_in list.root };

    ghost invariant = { λ list. IsRoot list.len list.width list.root };
}

impl<T> Shared<T> {
    /// The empty list.
    pub fn new(alloc: Global) -> Shared<T>
        ensures { result ≡ [] }
    {
        Shared {
            len: 0,
            width: 1,
            root: None,
            alloc,
        }
    }

    /// How many items there are.
    pub fn len(&self) -> usize
        ensures { result ≡ length self.now }
    {
        self.len
    }

    /// The item at a place, counted from 0.
    pub fn get(&self, at: usize) -> Option<&T>
        ensures value { option_copied result ≡ slice_get self.now at }
        ensures within { OnSome result (at < length self.now) }
    {
        match &self.root {
            None => None,
            Some(root) => item_at(root, self.width, at),
        }
    }
}

impl<T: Copied> Shared<T> {
    /// An equal list, which owns the same nodes: none is copied, and a later change of the one list leaves the other.
    /// Where a node can have no further owner, that is want of memory.
    pub fn fork<L: Ledger>(&self, steps: &mut Steps<L>) -> Result<Shared<T>, Memory>
        ensures equal { IfOk result (λ fork. fork ≡ self.now) }
        ensures counter { steps.new ≡ steps.old }
    {
        let root = match &self.root {
            None => None,
            Some(root) => Some(root.clone()?),
        };
        Ok(Shared {
            len: self.len,
            width: self.width,
            root,
            alloc: self.alloc,
        })
    }

    /// Puts an item in place of the one that is there; for want of memory the list is as before.
    pub fn set<L: Ledger>(&mut self, at: usize, item: T, steps: &mut Steps<L>) -> Result<(), Memory>
        requires { at < length self.old }
        ensures ok { OnOk result (self.new ≡ slice_set self.old at item) }
        ensures kept { OnErr result (self.new ≡ self.old) }
        ensures counts { steps.old ≤ steps.new }
        ensures cost { TakesFewSteps self.old steps.old steps.new }
    {
        match &mut self.root {
            None => unreachable!(),
            Some(root) => {
                replace(root, self.width, at, item, self.alloc, steps)?;
                Ok(())
            }
        }
    }

    /// One more item at the end; for want of memory the list is as before.
    pub fn push<L: Ledger>(&mut self, item: T, steps: &mut Steps<L>) -> Result<(), Memory>
        ensures ok { OnOk result (self.new ≡ self.old ++ item ∷ []) }
        ensures kept { OnErr result (self.new ≡ self.old) }
        ensures counts { steps.old ≤ steps.new }
        ensures cost { TakesFewSteps self.old steps.old steps.new }
    {
        if self.len == usize::MAX {
            return Err(Memory);
        }
        match &mut self.root {
            None => {
                let root = single(self.alloc, 0, item, steps)?;
                self.root = Some(root);
                self.width = 1;
                self.len = 1;
                Ok(())
            }
            Some(root) => {
                let width = append(root, self.width, self.len, item, self.alloc, steps)?;
                self.width = width;
                self.len += 1;
                Ok(())
            }
        }
    }
}
