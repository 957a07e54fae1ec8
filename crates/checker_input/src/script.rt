ghost use Rattle.std.specs.Prelude.{IfOk};
ghost use Rattle.checker_input.specs.Script.{TextComes};

use script_names::{Copied, Memory};
use shell_forms::{Accepted, FormFault, accept};
use shell_grammar::ParseFault;
use shell_lexer::{LexFault, lex};
use shell_parser::parse;
use shell_syntax::Form;
use std::alloc::Global;

/// Why a text is no accepted script. Each offset is in bytes from the beginning of the text.
#[derive(Clone, Copy, Debug, PartialEq, Eq)]
pub enum ScriptFault {
    /// There is a NUL in it.
    Nul { at: u32 },
    /// Its first line does not name the shell in an accepted form.
    Interpreter { at: u32 },
    /// A quote is not closed.
    OpenQuote { at: u32 },
    /// A substitution is not closed.
    OpenSubstitution { at: u32 },
    /// A token has an unsupported form.
    Unsupported { form: Form, at: u32 },
    /// A substitution stands inside 64 others.
    DeepSubstitution { at: u32 },
    /// Its tokens spell no script.
    Syntax { at: u32 },
    /// Its tokens spell no script within 64 levels.
    Deep { at: u32 },
    /// It is a script, of whose unsupported forms this is the first.
    Form { form: Form, at: u32 },
}

impl Copied for ScriptFault {
    fn copy(&self, _alloc: Global) -> Result<ScriptFault, Memory> {
        Ok(*self)
    }
}

/// The script of a text, or why it is none: the text is cut into tokens, these are read as a script (POSIX.1-2017, XCU
/// 2.3 Token Recognition, 2.10 Shell Grammar), and no unsupported form stands in it.
pub fn read_script(alloc: Global, text: &[u8]) -> Result<Result<Accepted, ScriptFault>, Memory>
    ensures { IfOk result (TextComes text.now) }
{
    let lexed = match lex(alloc, text) {
        Ok(lexed) => lexed,
        Err(LexFault::Nul { at }) => return Ok(Err(ScriptFault::Nul { at })),
        Err(LexFault::Interpreter { at }) => return Ok(Err(ScriptFault::Interpreter { at })),
        Err(LexFault::OpenQuote { at }) => return Ok(Err(ScriptFault::OpenQuote { at })),
        Err(LexFault::OpenSubstitution { at }) => {
            return Ok(Err(ScriptFault::OpenSubstitution { at }));
        }
        Err(LexFault::Unsupported { form, at }) => {
            return Ok(Err(ScriptFault::Unsupported { form, at }));
        }
        Err(LexFault::Deep { at }) => return Ok(Err(ScriptFault::DeepSubstitution { at })),
        Err(LexFault::Memory) => return Err(Memory),
    };
    let script = match parse(alloc, &lexed) {
        Ok(script) => script,
        Err(ParseFault::Syntax { at }) => return Ok(Err(ScriptFault::Syntax { at })),
        Err(ParseFault::Deep { at }) => return Ok(Err(ScriptFault::Deep { at })),
        Err(ParseFault::Memory) => return Err(Memory),
    };
    match accept(alloc, script) {
        Ok(script) => Ok(Ok(script)),
        Err(FormFault::Form { form, at }) => Ok(Err(ScriptFault::Form { form, at })),
        Err(FormFault::Memory) => Err(Memory),
    }
}
