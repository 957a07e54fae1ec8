ghost use Rattle.std.specs.Prelude.{◌≡◌, ◌++◌, ◌∷◌, [], length, OnOk, MatchOption};

use script_names::Memory;
use std::alloc::Global;
use std::collections::VecDeque;
use std::marker::Model;

/// A queue, which contracts see as the list of its items, the next first.
#[derive(Drop)]
pub struct Queue<T> {
    inner: VecDeque<T>,
}

impl<T> Model for Queue<T> {
    ghost use Rattle.std.specs.Prelude.{List};

    ghost Value = { List T };

    ghost view = { λ q. q.inner.items };
}

impl<T: Drop> Queue<T> {
    /// The empty queue.
    pub fn new(alloc: Global) -> Queue<T>
        ensures { result ≡ [] }
    {
        Queue {
            inner: VecDeque::new(alloc),
        }
    }

    /// How many items there are.
    pub fn len(&self) -> usize
        ensures { result ≡ length self.now }
    {
        self.inner.len()
    }

    /// The next item, taken off the queue.
    pub fn pop(&mut self) -> Option<T>
        ensures { MatchOption result (self.old ≡ []) (λ x. self.old ≡ x ∷ self.new) }
    {
        if self.inner.is_empty() {
            return None;
        }
        self.inner.pop_front()
    }

    /// One more item at the end.
    pub fn push(&mut self, item: T) -> Result<(), Memory>
        ensures { OnOk result (self.new ≡ self.old ++ item ∷ []) }
    {
        self.inner.push_back(item)?;
        Ok(())
    }

    /// The last item, taken off the queue.
    pub fn pop_last(&mut self) -> Option<T>
        ensures { MatchOption result (self.old ≡ []) (λ x. self.old ≡ self.new ++ x ∷ []) }
    {
        if self.inner.is_empty() {
            return None;
        }
        self.inner.pop_back()
    }

    /// One more item in front.
    pub fn push_first(&mut self, item: T) -> Result<(), Memory>
        ensures { OnOk result (self.new ≡ item ∷ self.old) }
    {
        self.inner.push_front(item)?;
        Ok(())
    }

    /// The items of another queue in front of these, in their order.
    pub fn put_first(&mut self, mut first: Queue<T>) -> Result<(), Memory>
        ensures { OnOk result (self.new ≡ first ++ self.old) }
    {
        'items: loop {
            match first.pop_last() {
                None => return Ok(()),
                Some(item) => self.push_first(item)?,
            }
        }
    }

    /// The items of another queue behind these, in their order.
    pub fn put_last(&mut self, mut last: Queue<T>) -> Result<(), Memory>
        ensures { OnOk result (self.new ≡ self.old ++ last) }
    {
        'items: loop {
            match last.pop() {
                None => return Ok(()),
                Some(item) => self.push(item)?,
            }
        }
    }
}
