ghost use Rattle.std.specs.Prelude.{◌≡◌};

use script_names::{Copied, Memory};
use std::alloc::Global;

/// A form of the shell that is not supported, by its name. The first ten are found while a text is cut into
/// tokens, the others in the syntax; `AllArgs` in both.
#[derive(Clone, Copy, Debug, PartialEq, Eq)]
pub enum Form {
    /// `<<`, a here-document (XCU 2.7.4 Here-Document).
    Heredoc,
    /// `$((`, or `((` where a token begins (XCU 2.6.4 Arithmetic Expansion).
    Arith,
    /// `&` that is no part of another operator (XCU 2.9.3 Lists, Asynchronous Lists).
    Background,
    /// A command substitution by backquotes (XCU 2.6.3 Command Substitution).
    Backquote,
    /// Any other parameter expansion (XCU 2.6.2 Parameter Expansion), or `$` before an opening quote outside quotes.
    Param,
    /// `$@` elsewhere than as the word `"$@"`; that word as the word or as a pattern of a `case` (XCU 2.5.2 Special
    /// Parameters).
    AllArgs,
    /// Any other `<` or `>` (XCU 2.7 Redirection).
    Redirect,
    /// An unquoted `~` first in a word, or after an unquoted `=` or `:` (XCU 2.6.1 Tilde Expansion).
    Tilde,
    /// An unquoted `{` with an unquoted `,` or `..` after it in one word, which some shells expand.
    Brace,
    /// The unquoted word `case` in a command substitution (XCU 2.6.3 Command Substitution, 2.9.4.3 Case Conditional
    /// Construct).
    SubstCase,
    /// `set` with other words than the one word `-e` or `+e` (XCU 2.14 Special Built-In Utilities, set).
    Option,
    /// An assignment or a `for` of `IFS` (XCU 2.6.5 Field Splitting).
    Ifs,
    /// Assignments before a command whose own they can't simply be (XCU 2.9.1 Simple Commands).
    Prefix,
    /// An operand of `export` with an unquoted expansion (XCU 2.14 Special Built-In Utilities, export).
    Export,
    /// `break` or `continue` with a further word, or outside a loop (XCU 2.14 Special Built-In Utilities, break,
    /// continue).
    LoopExit,
    /// `return` outside a function's body, or in a subshell or substitution of it (XCU 2.14 Special Built-In
    /// Utilities, return).
    Return,
    /// A function that is defined elsewhere than in the script's own list (XCU 2.9.5 Function Definition Command).
    FunctionPlace,
    /// A second definition of a function (XCU 2.9.5 Function Definition Command).
    FunctionTwice,
    /// A definition of a name that a utility or a built-in has (XCU 2.9.5 Function Definition Command).
    FunctionName,
    /// In a function's body, a call of itself or of a function that is defined later (XCU 2.9.5 Function Definition
    /// Command).
    CallOrder,
}

impl Copied for Form {
    fn copy(&self, _alloc: Global) -> Result<Form, Memory> {
        Ok(*self)
    }
}
