//! Changes and forks of shared lists where nobody counts the steps: each call counts for itself.

ghost use Rattle.std.specs.Prelude.{◌≡◌, ◌<◌, [], ◌∷◌, ◌++◌, length, slice_set, IfOk, OnOk, OnErr};

use crate::shared::Shared;
use crate::steps::Steps;
use script_names::{Copied, Memory};
use std::marker::Brand;
use std::sync::ledger::{Blank, Ledger};

/// An equal list, which owns the same nodes; a later change of the one leaves the other.
pub fn fork_alone<T: Copied>(list: &Shared<T>) -> Result<Shared<T>, Memory>
    ensures { IfOk result (λ fork. fork ≡ list.now) }
{
    fork_with::<T, Brand>(list, Blank::new(1))
}

fn fork_with<T: Copied, L: Ledger>(list: &Shared<T>, blank: Blank) -> Result<Shared<T>, Memory>
    requires name { blank.name ≡ L.name }
    requires parts { blank.parts ≡ L.parts }
    requires some { 0 < blank.parts }
    ensures { IfOk result (λ fork. fork ≡ list.now) }
{
    list.fork(&mut Steps::<L>::start(blank))
}

/// Puts an item in place of the one that is there; for want of memory the list is as before.
pub fn set_alone<T: Copied>(list: &mut Shared<T>, at: usize, item: T) -> Result<(), Memory>
    requires { at < length list.old }
    ensures ok { OnOk result (list.new ≡ slice_set list.old at item) }
    ensures kept { OnErr result (list.new ≡ list.old) }
{
    set_with::<T, Brand>(list, at, item, Blank::new(1))
}

fn set_with<T: Copied, L: Ledger>(
    list: &mut Shared<T>,
    at: usize,
    item: T,
    blank: Blank,
) -> Result<(), Memory>
    requires name { blank.name ≡ L.name }
    requires parts { blank.parts ≡ L.parts }
    requires some { 0 < blank.parts }
    requires within { at < length list.old }
    ensures ok { OnOk result (list.new ≡ slice_set list.old at item) }
    ensures kept { OnErr result (list.new ≡ list.old) }
{
    list.set(at, item, &mut Steps::<L>::start(blank))
}

/// One more item at the end; for want of memory the list is as before.
pub fn push_alone<T: Copied>(list: &mut Shared<T>, item: T) -> Result<(), Memory>
    ensures ok { OnOk result (list.new ≡ list.old ++ item ∷ []) }
    ensures kept { OnErr result (list.new ≡ list.old) }
{
    push_with::<T, Brand>(list, item, Blank::new(1))
}

fn push_with<T: Copied, L: Ledger>(
    list: &mut Shared<T>,
    item: T,
    blank: Blank,
) -> Result<(), Memory>
    requires name { blank.name ≡ L.name }
    requires parts { blank.parts ≡ L.parts }
    requires some { 0 < blank.parts }
    ensures ok { OnOk result (list.new ≡ list.old ++ item ∷ []) }
    ensures kept { OnErr result (list.new ≡ list.old) }
{
    list.push(item, &mut Steps::<L>::start(blank))
}
