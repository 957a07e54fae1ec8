ghost use Rattle.std.specs.Prelude.{◌≡◌, ◌↔◌, IfOk, IsTrue};
ghost use Rattle.colis_syntax.specs.ProgramText.{program_text};
ghost use Rattle.colis_syntax.specs.WellFormed.{program_of};
ghost use Rattle.colis_reader.specs.ReadsProgram.{ReadsProgram};
ghost use Rattle.colis_reader.specs.Readings.{reads, member};

use crate::fault::ProgramFault;
use crate::nest::Nest;
use crate::nesting::read_nests;
use crate::parts::{body_in, defs_in, strict_in};
use colis_syntax::{Program, print_program};
use script_names::Memory;
use std::alloc::Global;

/// The program that has this text; Bad exactly where no well formed program has it.
pub fn read_program(alloc: Global, text: &[u8]) -> Result<Program, ProgramFault>
    ensures { ReadsProgram text.now result }
{
    let nests = read_nests(alloc, text)?;
    let program = match program_in(alloc, nests.as_slice())? {
        Some(program) => program,
        None => return Err(ProgramFault::Bad),
    };
    let same = has_text(alloc, &program, text)?;
    if same {
        return Ok(program);
    }
    Err(ProgramFault::Bad)
}

// The program that the first of these is read as, if that is well formed.
fn program_in(alloc: Global, nests: &[Nest]) -> Result<Option<Program>, Memory>
    ensures { let parts = (member (reads nests.now) 0).program in
        IfOk result (λ found. found ≡ program_of parts.strict parts.defs parts.body) }
{
    let strict = strict_in(nests);
    let defs = defs_in(alloc, nests)?;
    let body = body_in(alloc, nests)?;
    Ok(Program::new(strict, defs, body))
}

// Whether the program has this text.
fn has_text(alloc: Global, program: &Program, text: &[u8]) -> Result<bool, Memory>
    ensures { IfOk result (λ same. IsTrue same ↔ (program_text program.now ≡ text.now)) }
{
    let printed = print_program(alloc, program)?;
    Ok(printed.as_slice() == text)
}
