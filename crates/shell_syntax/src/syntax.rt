use crate::key::Key;
use crate::redirect::Redirect;
use script_names::{Boxed as Box, Bytes, List};

/// A part of a word: what it comes to at expansion (XCU 2.2 Quoting, 2.6 Word Expansions).
#[cycle(syntax)]
#[derive(Drop)]
pub enum Part {
    /// Bytes that stand unquoted for themselves (XCU 2.3 Token Recognition).
    Plain(Bytes),
    /// Bytes that stand quoted for themselves (XCU 2.2.1 Escape Character, 2.2.2 Single-Quotes, 2.2.3 Double-Quotes).
    Quoted(Bytes),
    /// The value of a parameter, or the default where it is unset or null; `quoted` inside double quotes
    /// (XCU 2.6.2 Parameter Expansion).
    Param {
        key: Key,
        default: Option<Bytes>,
        quoted: bool,
    },
    /// `"$@"`, each positional parameter a field of its own (XCU 2.5.2 Special Parameters).
    All,
    /// What a command writes to standard output, without the newlines at its end; `quoted` inside double quotes
    /// (XCU 2.6.3 Command Substitution). `at` is the byte offset of the `$(`.
    Run {
        at: u32,
        body: Box<Command>,
        quoted: bool,
    },
}

/// A word: its parts, in order (XCU 2.3 Token Recognition). `at` is the byte offset of its first byte; the value of an
/// assignment has that of the whole word, with the variable's name.
#[cycle(syntax)]
#[derive(Drop)]
pub struct Word {
    pub at: u32,
    pub parts: List<Part>,
}

/// A variable assignment (XCU 2.9.1 Simple Commands): the variable's name, and the word after the `=`.
#[cycle(syntax)]
#[derive(Drop)]
pub struct Assign {
    pub name: Bytes,
    pub value: Word,
}

/// A command (XCU 2.9 Shell Commands). A brace group is its body. `at` is the byte offset of the first token.
#[cycle(syntax)]
#[derive(Drop)]
pub enum Command {
    /// Assignments, then the words, of which the first names what is run; neither need be there
    /// (XCU 2.9.1 Simple Commands).
    Simple {
        at: u32,
        assigns: List<Assign>,
        words: List<Word>,
    },
    /// A command under redirections, which are done in order (XCU 2.7 Redirection).
    Redirected {
        at: u32,
        body: Box<Command>,
        redirects: List<Redirect>,
    },
    /// Commands of which each reads what the one before it writes (XCU 2.9.2 Pipelines).
    Pipe {
        at: u32,
        parts: List<Command>,
    },
    /// A command whose status is turned round by `!` (XCU 2.9.2 Pipelines).
    Not {
        at: u32,
        body: Box<Command>,
    },
    /// A command, and those that follow it behind `&&` and `||` (XCU 2.9.3 Lists, AND Lists, OR Lists).
    Chain {
        first: Box<Command>,
        rest: List<Link>,
    },
    /// Commands that are run one after another (XCU 2.9.3 Lists, Sequential Lists).
    Seq(List<Command>),
    /// The conditions of `if` and `elif` with their bodies, and the body of `else` (XCU 2.9.4.4 The if Conditional
    /// Construct).
    If {
        at: u32,
        arms: List<IfArm>,
        otherwise: Option<Box<Command>>,
    },
    /// A variable's name, the words that it goes over, and the body; without `in` it goes over the positional
    /// parameters (XCU 2.9.4.2 The for Loop).
    For {
        at: u32,
        name: Bytes,
        words: Option<List<Word>>,
        body: Box<Command>,
    },
    /// `while`, or `until` where that is true (XCU 2.9.4.5 The while Loop, 2.9.4.6 The until Loop).
    While {
        at: u32,
        until: bool,
        cond: Box<Command>,
        body: Box<Command>,
    },
    /// A word, and the patterns that it is matched against, arm by arm (XCU 2.9.4.3 Case Conditional Construct).
    Case {
        at: u32,
        subject: Word,
        arms: List<CaseArm>,
    },
    /// A list in parentheses, which is run in a subshell (XCU 2.9.4.1 Grouping Commands).
    Sub {
        at: u32,
        body: Box<Command>,
    },
    /// A definition of a function (XCU 2.9.5 Function Definition Command).
    Define {
        at: u32,
        name: Bytes,
        body: Box<Command>,
    },
}

/// A command behind `&&`, or behind `||` where `and` is false (XCU 2.9.3 Lists, AND Lists, OR Lists).
#[cycle(syntax)]
#[derive(Drop)]
pub struct Link {
    pub and: bool,
    pub command: Command,
}

/// A condition of `if` or `elif`, and what is run where it succeeds (XCU 2.9.4.4 The if Conditional Construct).
#[cycle(syntax)]
#[derive(Drop)]
pub struct IfArm {
    pub cond: Command,
    pub body: Command,
}

/// The patterns of an arm of `case`, and what is run where one of them matches (XCU 2.9.4.3 Case Conditional
/// Construct).
#[cycle(syntax)]
#[derive(Drop)]
pub struct CaseArm {
    pub patterns: List<Word>,
    pub body: Command,
}
