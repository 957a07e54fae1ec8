use script_names::{Copied, Memory};
use std::alloc::Global;

/// Why tokens give no script.
#[derive(Clone, Copy, Debug, PartialEq, Eq, Drop)]
pub enum ParseFault {
    /// No script has these tokens; the byte offset of the first token that cannot stand where it stands, or that of
    /// the tokens' end; in a substitution that is cut short, that of its `$`.
    Syntax { at: u32 },
    /// A token, or a substitution in a word, opens the 65th level of nesting; its byte offset.
    Deep { at: u32 },
    /// Want of memory.
    Memory,
}

impl Copied for ParseFault {
    fn copy(&self, _alloc: Global) -> Result<ParseFault, Memory> {
        Ok(*self)
    }
}

impl From<Memory> for ParseFault {
    ghost use Rattle.std.specs.Prelude.{◌≡◌};
    ghost use Rattle.shell_grammar.specs.declared.fault.ParseFault.TheVariants.{Memory as MemoryFault};

    ghost from_gives = { λ _ fault. fault ≡ MemoryFault };

    fn from(_memory: Memory) -> ParseFault {
        ParseFault::Memory
    }
}
