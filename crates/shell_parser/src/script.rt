ghost use Rattle.std.specs.Prelude.{◌≡◌, IfOk, IfErr};
ghost use Rattle.shell_grammar.specs.Places.{FirstFault, NoFault};
ghost use Rattle.shell_grammar.specs.Spelling.{Spells, SpellsWithin, Stopped};
ghost use Rattle.shell_parser.specs.Reads.{Caused};

use crate::parser::lists::script;
use shell_grammar::ParseFault;
use shell_lexer::Lexed;
use shell_syntax::Script;
use std::alloc::Global;

/// The script that the tokens spell. Else the first fault in their order from left to right: of syntax at the first
/// token such that no script's tokens begin with those up to it, or at the text's end where all begin some script's;
/// of depth at a token that opens the 65th level. A word is judged before its substitutions, and these before the next
/// token; the tokens of a substitution are judged as a list of their own, which ends at the substitution's offset.
pub fn parse(alloc: Global, lexed: &Lexed) -> Result<Script, ParseFault>
    ensures spelled { IfOk result (λ script. Spells lexed.now.end lexed.now.tokens script.body) }
    ensures within { IfOk result (λ script. SpellsWithin lexed.now.end lexed.now.tokens script.body) }
    ensures strict { IfOk result (λ script. script.strict ≡ lexed.now.strict) }
    ensures fault { IfErr result (Caused (Stopped lexed.now.end lexed.now.tokens)) }
    ensures place { IfErr result (Caused (FirstFault 0 lexed.now.end lexed.now.tokens)) }
    ensures no_fault { IfOk result (λ _. NoFault lexed.now.end lexed.now.tokens) }
{
    let body = match script(alloc, 0, lexed.end, lexed.tokens.as_slice()) {
        Ok(body) => body,
        Err(fault) => return Err(fault),
    };
    Ok(Script {
        strict: lexed.strict,
        body: body.into_inner(),
    })
}
