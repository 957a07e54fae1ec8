ghost use Rattle.std.specs.Prelude.{◌≡◌, ◌↔◌, IsTrue, IfOk};
ghost use Rattle.feature_trees.specs.View.{seen, AllThere};

use crate::value::{Entries, NamedValue, Value};
use script_names::{Copied, Memory};
use std::alloc::Global;

impl Value {
    /// Whether two values are the same.
    pub fn equal(&self, other: &Value) -> bool
        ensures { IsTrue result ↔ (self.now ≡ other.now) }
    {
        same_value(self, other)
    }
}

impl Copied for Value {
    fn copy(&self, alloc: Global) -> Result<Value, Memory> {
        copy_value(alloc, self)
    }
}

#[cycle(equal)]
fn same_value(a: &Value, b: &Value) -> bool
    ensures { IsTrue result ↔ (a.now ≡ b.now) }
{
    match (a, b) {
        (Value::Absent, Value::Absent) => true,
        (Value::Reg, Value::Reg) => true,
        (Value::Link(x), Value::Link(y)) => x.equal(y),
        (Value::Special(x), Value::Special(y)) => x == y,
        (Value::Dir(x), Value::Dir(y)) => same_entries(x, y),
        _ => false,
    }
}

#[cycle(equal)]
fn same_entries(a: &Entries, b: &Entries) -> bool
    ensures { IsTrue result ↔ (a.now ≡ b.now) }
{
    let a = a.items.as_slice();
    let b = b.items.as_slice();
    if a.len() != b.len() {
        return false;
    }
    for i in 0..a.len() {
        if !same_named(&a[i], &b[i]) {
            return false;
        }
    }
    true
}

#[cycle(equal)]
fn same_named(a: &NamedValue, b: &NamedValue) -> bool
    ensures { IsTrue result ↔ (a.now ≡ b.now) }
{
    a.name.equal(&b.name) && same_value(&a.value, &b.value)
}

#[cycle(copying)]
fn copy_value(alloc: Global, v: &Value) -> Result<Value, Memory>
    ensures { IfOk result (λ c. c ≡ v.now) }
{
    match v {
        Value::Absent => Ok(Value::Absent),
        Value::Reg => Ok(Value::Reg),
        Value::Link(target) => Ok(Value::Link(target.copy(alloc)?)),
        Value::Special(s) => Ok(Value::Special(*s)),
        Value::Dir(entries) => {
            let items = copy_items(alloc, entries.items.as_slice())?;
            Ok(Value::Dir(Entries { items }))
        }
    }
}

#[cycle(copying)]
fn copy_items(alloc: Global, items: &[NamedValue]) -> Result<Vec<NamedValue>, Memory>
    ensures { IfOk result (λ v. v.items ≡ items.now) }
{
    let mut out = Vec::new(alloc);
    for item in items {
        let name = item.name.copy(alloc)?;
        let value = copy_value(alloc, &item.value)?;
        out.push(NamedValue { name, value })?;
    }
    Ok(out)
}
