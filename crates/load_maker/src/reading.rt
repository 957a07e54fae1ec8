ghost use Rattle.std.specs.Prelude.{IfOk};
ghost use Rattle.shell_syntax.specs.declared.script.Script.{Script};
ghost use Rattle.checker_input.specs.Script.{IsAccepted};

use checker_input::read_script;
use script_names::Memory;
use shell_forms::Accepted;
use std::alloc::Global;

/// The script of a text that is an accepted script, so that want of memory alone can come in its place.
pub fn accepted(alloc: Global, text: &[u8]) -> Result<Accepted, Memory>
    requires { (script : Script) × IsAccepted text.now script }
    ensures { IfOk result (IsAccepted text.now) }
{
    let came = read_script(alloc, text)?;
    match came {
        Ok(script) => Ok(script),
        Err(_fault) => unreachable!(),
    }
}
