ghost use Rattle.std.specs.Prelude.{◌≡◌, [], IfOk, IfErr};
ghost use Rattle.shell_forms.specs.First.{script_forms, Refuses};
ghost use Rattle.shell_forms.specs.Spelled.{IsSpelled};

use crate::finding::first_form;
use crate::functions::Functions;
use script_names::{Copied, Memory};
use shell_syntax::{Form, Script};
use std::alloc::Global;
use std::marker::Model;

/// A script that some text spells, and in which no unsupported form stands.
#[derive(Drop)]
pub struct Accepted {
    script: Script,
}

impl Model for Accepted {
    ghost use Rattle.std.specs.Prelude.{◌≡◌, []};
    ghost use Rattle.shell_syntax.specs.declared.script.Script.{Script};
    ghost use Rattle.shell_forms.specs.First.{script_forms};
    ghost use Rattle.shell_forms.specs.Spelled.{IsSpelled};
    ghost use Rattle.std.specs.Coded.{codes};
    ghost use Rattle.shell_syntax.specs.contracts.syntax.Command as command;

    ghost Value = { Script };

    ghost coded = { Prim.hlevel (codes, command.the_row.coded) };

    ghost view = { λ a. a.script };

    ghost invariant = { λ a. IsSpelled a.script × (script_forms a.script.body ≡ []) };
}

impl Accepted {
    /// The script.
    pub fn script(&self) -> &Script
        ensures same { result.now ≡ self.now }
        ensures spelled { IsSpelled self.now }
        ensures accepted { script_forms self.now.body ≡ [] }
    {
        &self.script
    }
}

/// Why a script is not accepted.
#[derive(Clone, Copy, Debug, PartialEq, Eq)]
pub enum FormFault {
    /// An unsupported form, and the byte offset at which it stands: the first one of the script.
    Form { form: Form, at: u32 },
    Memory,
}

impl Copied for FormFault {
    fn copy(&self, _alloc: Global) -> Result<FormFault, Memory> {
        Ok(*self)
    }
}

/// The script, which some text spells, if no unsupported form stands in it; else the first one, which is the one of
/// least offset, and at one offset the one that is named first.
pub fn accept(alloc: Global, script: Script) -> Result<Accepted, FormFault>
    requires spelled { IsSpelled script }
    ensures same { IfOk result (λ accepted. accepted ≡ script) }
    ensures none { IfOk result (λ accepted. script_forms script.body ≡ []) }
    ensures fault { IfErr result (Refuses (script_forms script.body)) }
{
    let found = match first_form(alloc, &script.body) {
        Ok(found) => found,
        Err(_) => return Err(FormFault::Memory),
    };
    match found {
        None => Ok(Accepted { script }),
        Some((form, at)) => Err(FormFault::Form { form, at }),
    }
}

impl Copied for Accepted {
    fn copy(&self, alloc: Global) -> Result<Accepted, Memory> {
        let script = self.script.copy(alloc)?;
        Ok(Accepted { script })
    }
}
