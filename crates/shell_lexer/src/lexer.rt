ghost use Rattle.std.specs.Prelude.{◌≡◌, IfOk, IfErr};
ghost use Rattle.shell_lexer.specs.declared.token.Lexed.{Lexed as Cutting};
ghost use Rattle.shell_lexer.specs.declared.fault.LexFault.{LexFault as Fault};
ghost use Rattle.shell_lexer.specs.Lexed.{Cut, Faulty, Caused};

use crate::fault::LexFault;
use crate::first_line::{interpreter, nul_of, split_line};
use crate::scan::items;
use crate::token::Lexed;
use std::alloc::Global;

// The length of a text from which on offsets are no `u32`.
const TOO_LONG: usize = 4294967296;

/// Cuts a script's text into tokens (POSIX.1-2017, XCU 2.3 Token Recognition). A NUL is looked for first, then the
/// first line is judged, then the text behind it is read from left to right, and its first fault is answered. Offsets
/// are in bytes. A text of 2^32 bytes or more is answered as want of memory.
pub fn lex(alloc: Global, text: &[u8]) -> Result<Lexed, LexFault>
    ensures cut { IfOk result (Cut text.now) }
    ensures only { IfOk result (λ l. (other : Cutting) → Cut text.now other → other ≡ l) }
    ensures no_fault { IfOk result (λ l. (fault : Fault) → Faulty text.now fault → ⊥) }
    ensures fault { IfErr result (Caused (Faulty text.now)) }
    ensures no_other { IfErr result (Caused (λ fault. (other : Fault) → Faulty text.now other → other ≡ fault)) }
    ensures no_cut { IfErr result (Caused (λ fault. (l : Cutting) → Cut text.now l → ⊥)) }
{
    if text.len() >= TOO_LONG {
        return Err(LexFault::Memory);
    }
    match nul_of(text) {
        Some(at) => return Err(LexFault::Nul { at: at as u32 }),
        None => (),
    }
    let (line, begin) = split_line(text);
    let strict = match interpreter(line) {
        Some(strict) => strict,
        None => return Err(LexFault::Interpreter { at: 0 }),
    };
    let (tokens, _end) = items(alloc, text, begin, 0, 0)?;
    Ok(Lexed {
        strict,
        tokens,
        end: text.len() as u32,
    })
}
