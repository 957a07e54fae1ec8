use script_names::{Boxed as Box, Bytes, List, Reason};

/// A string, as one value (POSIX.1-2017, XCU 2.6 Word Expansions).
#[cycle(syntax)]
#[derive(Drop)]
pub enum Str {
    /// Bytes that stand for themselves.
    Lit(Bytes),
    /// The value of a variable; no bytes where it is not set (XCU 2.5.3 Shell Variables).
    Var(Bytes),
    /// The argument with this number, from 1 to 9; no bytes where it is not set (XCU 2.5.1 Positional Parameters).
    Arg(u8),
    /// How many arguments there are, in decimal (XCU 2.5.2 Special Parameters).
    Count,
    /// A string, or the bytes where it has none (XCU 2.6.2 Parameter Expansion).
    Or(Box<Str>, Bytes),
    /// What a statement writes to standard output, without the newlines at its end (XCU 2.6.3 Command Substitution).
    Output(Box<Stmt>),
    /// Strings, one behind the other.
    Join(List<Str>),
}

/// A piece of a word: a string, and whether it is split into fields (XCU 2.6.5 Field Splitting).
#[cycle(syntax)]
#[derive(Drop)]
pub enum StrPiece {
    /// Text of the script that was not quoted.
    Plain(Str),
    /// What was quoted.
    Quoted(Str),
    /// What an expansion gives that was not quoted.
    Split(Str),
}

/// What gives fields: a word of pieces, or all arguments, each a field of its own (XCU 2.6.5 Field Splitting,
/// 2.5.2 Special Parameters).
#[cycle(syntax)]
#[derive(Drop)]
pub enum Fields {
    Word(List<StrPiece>),
    Args,
}

/// A statement of CoLiS. `at` is the byte offset, in the script, of the command that it stands for.
#[cycle(syntax)]
#[derive(Drop)]
pub enum Stmt {
    /// Succeeds.
    Skip,
    /// Assignments, one after another (XCU 2.9.1 Simple Commands).
    Set {
        at: u32,
        sets: List<SetTo>,
    },
    /// A utility, named by the first field (XCU 2.9.1 Simple Commands).
    Call {
        at: u32,
        fields: List<Fields>,
    },
    /// A function of the program, by its name, and its arguments (XCU 2.9.5 Function Definition Command).
    Fun {
        at: u32,
        name: Bytes,
        fields: List<Fields>,
    },
    /// Statements, one after another; two or more in a program (XCU 2.9.3 Lists).
    Seq(List<Stmt>),
    /// A statement, and those that follow it behind `&&` and `||`; one or more in a program (XCU 2.9.3 Lists).
    Chain {
        first: Box<Stmt>,
        rest: List<ChainPart>,
    },
    /// The other status (XCU 2.9.2 Pipelines).
    Not(Box<Stmt>),
    /// Conditions with their bodies, one or more in a program, and what is run where none holds (XCU 2.9.4.4 The if
    /// Conditional Construct).
    If {
        arms: List<StmtArm>,
        last: Box<Stmt>,
    },
    /// A loop over fields, each of them the variable's value in turn (XCU 2.9.4.2 The for Loop).
    For {
        at: u32,
        name: Bytes,
        fields: List<Fields>,
        body: Box<Stmt>,
    },
    /// A loop while a condition holds (XCU 2.9.4.5 The while Loop).
    While {
        at: u32,
        cond: Box<Stmt>,
        body: Box<Stmt>,
    },
    /// The body of the first arm with a pattern that matches (XCU 2.9.4.3 Case Conditional Construct).
    Case {
        at: u32,
        subject: Str,
        arms: List<PatArm>,
    },
    /// A subshell (XCU 2.9.4.1 Grouping Commands).
    Sub {
        at: u32,
        body: Box<Stmt>,
    },
    /// A statement whose standard output is taken away (XCU 2.7 Redirection).
    Quiet(Box<Stmt>),
    /// A statement whose standard error is joined to its standard output (XCU 2.7 Redirection).
    Err {
        at: u32,
        body: Box<Stmt>,
    },
    /// `set -e` (XCU 2.14 Special Built-In Utilities, set).
    Strict,
    /// `set +e` (XCU 2.14 Special Built-In Utilities, set).
    Lax,
    /// Ends the shell (XCU 2.14 Special Built-In Utilities, exit).
    Exit {
        at: u32,
        fields: List<Fields>,
    },
    /// Ends the function (XCU 2.14 Special Built-In Utilities, return).
    Return {
        at: u32,
        fields: List<Fields>,
    },
    /// Ends the innermost loop (XCU 2.14 Special Built-In Utilities, break).
    Break,
    /// Ends a turn of the innermost loop (XCU 2.14 Special Built-In Utilities, continue).
    Continue,
    /// `export` (XCU 2.14 Special Built-In Utilities, export).
    Export {
        at: u32,
        fields: List<Fields>,
    },
    /// `unset` (XCU 2.14 Special Built-In Utilities, unset).
    Unset {
        at: u32,
        fields: List<Fields>,
    },
    /// Ends the run without a result, for this reason.
    Stop {
        at: u32,
        reason: Reason,
    },
}

/// An assignment: a variable's name, and the string that it gets.
#[cycle(syntax)]
#[derive(Drop)]
pub struct SetTo {
    pub name: Bytes,
    pub value: Str,
}

/// A statement behind `&&`, or behind `||` where `and` is false.
#[cycle(syntax)]
#[derive(Drop)]
pub struct ChainPart {
    pub and: bool,
    pub stmt: Stmt,
}

/// A condition, and what is run where it holds.
#[cycle(syntax)]
#[derive(Drop)]
pub struct StmtArm {
    pub cond: Stmt,
    pub body: Stmt,
}

/// Patterns, one or more in a program, and what is run where one of them matches.
#[cycle(syntax)]
#[derive(Drop)]
pub struct PatArm {
    pub patterns: List<List<StrPiece>>,
    pub body: Stmt,
}
