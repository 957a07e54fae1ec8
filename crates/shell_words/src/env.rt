ghost use Rattle.std.specs.Prelude.{◌≡◌, OnOk, OnErr};
ghost use Rattle.std.specs.Option.{option_copied};
ghost use Rattle.std.specs.FinMap as map;

use script_names::{Bytes, Copied, Memory};
use std::alloc::Global;
use std::collections::BTreeMap;
use std::marker::Model;

/// The variables of a shell: a finite map from names to values, both byte strings, which contracts see as that map
/// (POSIX.1-2017, XCU 2.5 Parameters and Variables).
#[derive(Drop)]
pub struct Env {
    alloc: Global,
    values: BTreeMap<Vec<u8>, Bytes>,
}

impl Model for Env {
    ghost use Rattle.std.specs.Prelude.{List, ℕ};
    ghost use Rattle.std.specs.Ordering.{nat_cmp};
    ghost use Rattle.std.specs.Cmp.Lexicographic.{slice_cmp};
    ghost use Rattle.std.specs.FinMap as map;
    ghost use Rattle.std.specs.Coded.{coded_ℕ, coded_list};
    ghost use Rattle.shell_words.specs.Named.{named};

    ghost Value = { map.FinMap (slice_cmp nat_cmp) (List ℕ) };

    ghost coded = { map.code (coded_list coded_ℕ) (coded_list coded_ℕ) };

    ghost view = { λ e. map.from_entries (named e.values.entries) };
}

impl Env {
    /// No variables.
    pub fn new(alloc: Global) -> Env
        ensures { result ≡ map.empty }
    {
        Env {
            alloc,
            values: BTreeMap::new(alloc),
        }
    }

    /// The value of a variable, where it is set.
    pub fn get(&self, name: &[u8]) -> Option<&Bytes>
        ensures { option_copied result ≡ map.get self.now name.now }
    {
        self.values.get(name)
    }

    /// Sets a variable, whether or not it was set; for want of memory the variables are as before.
    pub fn set(&mut self, name: &[u8], value: Bytes) -> Result<(), Memory>
        ensures ok { OnOk result (self.new ≡ map.insert self.old name.now value) }
        ensures kept { OnErr result (self.new ≡ self.old) }
    {
        let key = Vec::from_slice(self.alloc, name)?;
        self.values.insert(key, value)?;
        Ok(())
    }

    /// Takes a variable away; one that isn't set stays unset.
    pub fn unset(&mut self, name: &[u8])
        ensures { self.new ≡ map.remove self.old name.now }
    {
        self.values.remove(name);
    }
}

impl Copied for Env {
    fn copy(&self, alloc: Global) -> Result<Env, Memory> {
        let mut twin = Env::new(alloc);
        for (name, value) in &self.values {
            let value = value.copy(alloc)?;
            twin.set(name.as_slice(), value)?;
        }
        Ok(twin)
    }
}
