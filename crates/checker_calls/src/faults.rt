ghost use Rattle.std.specs.Prelude.{◌≡◌};
ghost use Rattle.checker_calls.specs.Reports.{task_fault};

use checker_input::InputRefusal;
use dpkg_scenarios::Scenario;
use scenario_outcomes::OutcomesFault;
use script_names::{Memory, Path};

/// Why a call is refused.
#[derive(Debug, Drop)]
pub enum CallRefusal {
    /// The words are no command line; the number of the word at which that shows, counted from 1.
    Usage { word: u64 },
    /// A file is refused.
    Input(InputRefusal),
    /// A scenario is refused.
    Task(Refusal),
}

/// Why a scenario is refused.
#[derive(Debug, Drop)]
pub enum Refusal {
    /// No tree of files has what the scenario needs to begin.
    NoStart { scenario: Scenario },
    /// The runs of the scenario have more different traces than the limit.
    Limit { scenario: Scenario, limit: u32 },
    /// The other package of a pair is to disappear, and this file of it is kept.
    Kept { path: Path },
}

/// Why a task, whose files are as they should be, has no text.
#[derive(Debug, Drop)]
pub enum TaskFault {
    Refused(Refusal),
    Memory,
}

impl From<Memory> for TaskFault {
    ghost use Rattle.std.specs.Prelude.{◌≡◌};
    ghost use Rattle.checker_calls.specs.declared.faults.TaskFault.TheVariants.{Memory as NoMemory};

    ghost from_gives = { λ _ fault. fault ≡ NoMemory };

    fn from(_refused: Memory) -> TaskFault {
        TaskFault::Memory
    }
}

/// Why a scenario has no report, by why it has no outcomes.
pub fn task_fault(fault: OutcomesFault, scenario: Scenario, limit: u32) -> TaskFault
    ensures { result ≡ task_fault scenario limit fault }
{
    match fault {
        OutcomesFault::NoStart => TaskFault::Refused(Refusal::NoStart { scenario }),
        OutcomesFault::Over => TaskFault::Refused(Refusal::Limit { scenario, limit }),
        OutcomesFault::Memory => TaskFault::Memory,
    }
}
