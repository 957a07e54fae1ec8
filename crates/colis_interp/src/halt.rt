ghost use Rattle.std.specs.Prelude.{◌≡◌};
ghost use Rattle.colis_interp.specs.Halts.{ended_by_exit, ended_by_return, behind_body, behind_condition, halt_of};

use crate::place::Place;
use script_names::{Memory, Reason};
use shell_rules::Leave;
use shell_words::WordFault;

/// Why a command does not go on: it leaves what stands round it, or memory is missing.
#[derive(Clone, Copy, Debug, PartialEq, Eq)]
pub(crate) enum Halt {
    Left(Leave),
    Memory,
}

impl From<Memory> for Halt {
    ghost use Rattle.std.specs.Prelude.{◌≡◌};
    ghost use Rattle.colis_interp.specs.declared.halt.Halt.TheVariants.{Memory as NoMemory};

    ghost from_gives = { λ _ halt. halt ≡ NoMemory };

    fn from(_refused: Memory) -> Halt {
        Halt::Memory
    }
}

/// What comes behind the condition of a `while`: the turn of the body, the end of the loop, or the condition again.
#[derive(Clone, Copy, Debug, PartialEq, Eq)]
pub(crate) enum Behind {
    Holds,
    Ends,
    Again,
}

/// What `exit` ends goes on behind it.
pub(crate) fn ended_by_exit(ran: Result<(), Halt>) -> Result<(), Halt>
    ensures { result ≡ ended_by_exit ran }
{
    match ran {
        Ok(()) => Ok(()),
        Err(Halt::Left(Leave::Exited)) => Ok(()),
        Err(Halt::Left(Leave::Broke)) => Err(Halt::Left(Leave::Broke)),
        Err(Halt::Left(Leave::Continued)) => Err(Halt::Left(Leave::Continued)),
        Err(Halt::Left(Leave::Returned)) => Err(Halt::Left(Leave::Returned)),
        Err(Halt::Left(Leave::Stopped(reason, site))) => {
            Err(Halt::Left(Leave::Stopped(reason, site)))
        }
        Err(Halt::Left(Leave::Bound(site))) => Err(Halt::Left(Leave::Bound(site))),
        Err(Halt::Memory) => Err(Halt::Memory),
    }
}

/// What `return` ends goes on behind it.
pub(crate) fn ended_by_return(ran: Result<(), Halt>) -> Result<(), Halt>
    ensures { result ≡ ended_by_return ran }
{
    match ran {
        Ok(()) => Ok(()),
        Err(Halt::Left(Leave::Returned)) => Ok(()),
        Err(Halt::Left(Leave::Broke)) => Err(Halt::Left(Leave::Broke)),
        Err(Halt::Left(Leave::Continued)) => Err(Halt::Left(Leave::Continued)),
        Err(Halt::Left(Leave::Exited)) => Err(Halt::Left(Leave::Exited)),
        Err(Halt::Left(Leave::Stopped(reason, site))) => {
            Err(Halt::Left(Leave::Stopped(reason, site)))
        }
        Err(Halt::Left(Leave::Bound(site))) => Err(Halt::Left(Leave::Bound(site))),
        Err(Halt::Memory) => Err(Halt::Memory),
    }
}

/// Whether a loop goes on behind its body.
pub(crate) fn behind_body(ran: Result<(), Halt>) -> Result<bool, Halt>
    ensures { result ≡ behind_body ran }
{
    match ran {
        Ok(()) => Ok(true),
        Err(Halt::Left(Leave::Continued)) => Ok(true),
        Err(Halt::Left(Leave::Broke)) => Ok(false),
        Err(Halt::Left(Leave::Returned)) => Err(Halt::Left(Leave::Returned)),
        Err(Halt::Left(Leave::Exited)) => Err(Halt::Left(Leave::Exited)),
        Err(Halt::Left(Leave::Stopped(reason, site))) => {
            Err(Halt::Left(Leave::Stopped(reason, site)))
        }
        Err(Halt::Left(Leave::Bound(site))) => Err(Halt::Left(Leave::Bound(site))),
        Err(Halt::Memory) => Err(Halt::Memory),
    }
}

/// What comes behind a condition, by its status.
pub(crate) fn behind_condition(ran: Result<(), Halt>, status: bool) -> Result<Behind, Halt>
    ensures { result ≡ behind_condition ran status }
{
    match ran {
        Ok(()) => {
            if status {
                return Ok(Behind::Holds);
            }
            Ok(Behind::Ends)
        }
        Err(Halt::Left(Leave::Continued)) => Ok(Behind::Again),
        Err(Halt::Left(Leave::Broke)) => Ok(Behind::Ends),
        Err(Halt::Left(Leave::Returned)) => Err(Halt::Left(Leave::Returned)),
        Err(Halt::Left(Leave::Exited)) => Err(Halt::Left(Leave::Exited)),
        Err(Halt::Left(Leave::Stopped(reason, site))) => {
            Err(Halt::Left(Leave::Stopped(reason, site)))
        }
        Err(Halt::Left(Leave::Bound(site))) => Err(Halt::Left(Leave::Bound(site))),
        Err(Halt::Memory) => Err(Halt::Memory),
    }
}

/// What a word without a value stops the run for, at the command.
pub(crate) fn halt_of(fault: WordFault, place: Place) -> Halt
    ensures { result ≡ halt_of fault place.entry }
{
    match fault {
        WordFault::Long => place.stop(Reason::Long),
        WordFault::Glob => place.stop(Reason::Glob),
        WordFault::Pattern => place.stop(Reason::Pattern),
        WordFault::Memory => Halt::Memory,
    }
}
