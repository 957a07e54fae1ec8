ghost use Rattle.std.specs.Prelude.{◌≡◌};

use script_names::{Copied, Memory};
use shell_syntax::Form;
use std::alloc::Global;

/// Why a text is not cut into tokens; each offset is in bytes from the beginning of the text.
#[derive(Clone, Copy, Debug, PartialEq, Eq)]
pub enum LexFault {
    /// The first NUL.
    Nul { at: u32 },
    /// The first line names no accepted interpreter; the offset is 0.
    Interpreter { at: u32 },
    /// A quote that isn't closed.
    OpenQuote { at: u32 },
    /// The `$` of a `$(` or `${` that isn't closed.
    OpenSubstitution { at: u32 },
    /// A form that is not supported.
    Unsupported { form: Form, at: u32 },
    /// The `$` of a command substitution inside 64 others.
    Deep { at: u32 },
    Memory,
}

impl Copied for LexFault {
    fn copy(&self, _alloc: Global) -> Result<LexFault, Memory> {
        Ok(*self)
    }
}

impl From<Memory> for LexFault {
    ghost use Rattle.std.specs.Prelude.{◌≡◌};
    ghost use Rattle.shell_lexer.specs.declared.fault.LexFault.TheVariants.{Memory as MemoryFault};

    ghost from_gives = { λ _ e. e ≡ MemoryFault };

    fn from(_memory: Memory) -> LexFault {
        LexFault::Memory
    }
}
