ghost use Rattle.std.specs.Prelude.{◌≡◌, ◌∷◌, ℕ, List as ListOf, [], false, IfOk, OnOk, if◌then◌else◌};
ghost use Rattle.std.specs.Str.{bytes_eq};
ghost use Rattle.package_lists.specs.Below.{name_below, names_below, with_names};
ghost use Rattle.package_lists.specs.FolderNames.{names_at};
ghost use Rattle.package_lists.specs.Paths.{path_text};

use crate::name_list::NameList;
use crate::paths::path_text;
use script_names::{Copied, List, Memory, Name, Path};
use std::alloc::Global;
use std::collections::BTreeMap;

/// The names that paths have directly below others, each once, in their order.
#[derive(Drop)]
pub struct FolderNames {
    alloc: Global,
    names: BTreeMap<Vec<u8>, NameList>,
}

impl FolderNames {
    // The names of no paths.
    fn new(alloc: Global) -> FolderNames
        ensures { (path : ListOf ℕ) → names_at result path ≡ [] }
    {
        FolderNames {
            alloc,
            names: BTreeMap::new(alloc),
        }
    }

    /// The names of these paths, below each of their folders.
    pub fn of(alloc: Global, paths: &[Path]) -> Result<FolderNames, Memory>
        ensures { IfOk result (λ all. (path : ListOf ℕ) → names_at all path ≡ names_below paths.now path) }
    {
        let mut all = FolderNames::new(alloc);
        for path in paths {
            add_names(alloc, &mut all, path.names())?;
        }
        Ok(all)
    }

    /// The names directly below a path.
    pub fn below(&self, path: &Path) -> Result<List<Name>, Memory>
        ensures { IfOk result (λ names. names ≡ names_at self.now (path_text path.now.names)) }
    {
        let text = path_text(self.alloc, path.names())?;
        let names = self.at(text.as_slice())?;
        Ok(names)
    }

    // The names below the path that is written so.
    fn at(&self, path: &[u8]) -> Result<List<Name>, Memory>
        ensures { IfOk result (λ names. names ≡ names_at self.now path.now) }
    {
        match self.names.get(path) {
            None => Ok(List::new(self.alloc)),
            Some(names) => names.names().copy(self.alloc),
        }
    }

    // One more name below a path, unless it is there already.
    fn add(&mut self, path: &[u8], name: &Name) -> Result<(), Memory>
        ensures { OnOk result ((other : ListOf ℕ) → names_at self.new other
            ≡ with_names (names_at self.old other) (if bytes_eq path.now other then name.now ∷ [] else [])) }
    {
        let names = self.take(path);
        let names = names.with(self.alloc, name)?;
        let key = Vec::from_slice(self.alloc, path)?;
        self.names.insert(key, names)?;
        Ok(())
    }

    // The names below a path, which are taken out.
    fn take(&mut self, path: &[u8]) -> NameList
        ensures names { result ≡ names_at self.old path.now }
        ensures others { (other : ListOf ℕ) → bytes_eq path.now other ≡ false
            → names_at self.new other ≡ names_at self.old other }
        ensures alloc { self.new.alloc ≡ self.old.alloc }
    {
        match self.names.remove(path) {
            None => NameList::new(self.alloc),
            Some(names) => names,
        }
    }
}

// Adds each of these names, below the path of those before it.
fn add_names(alloc: Global, all: &mut FolderNames, names: &[Name]) -> Result<(), Memory>
    ensures { OnOk result ((path : ListOf ℕ)
        → names_at all.new path ≡ with_names (names_at all.old path) (name_below path names.now)) }
{
    for count in 0..names.len() {
        let folder = path_text(alloc, &names[..count])?;
        all.add(folder.as_slice(), &names[count])?;
    }
    Ok(())
}
