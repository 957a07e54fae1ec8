use script_names::{Bytes, List};
use shell_syntax::{Key, Redirect};

/// A token, and the byte offset at which it begins (XCU 2.3 Token Recognition).
#[cycle(tokens)]
#[derive(Drop)]
pub struct Token {
    pub at: u32,
    pub kind: TokenKind,
}

/// A word by its parts, an operator, or a whole redirection.
#[cycle(tokens)]
#[derive(Drop)]
pub enum TokenKind {
    Word(List<RawPart>),
    Newline,
    /// `;`
    Semi,
    /// `;;`
    DoubleSemi,
    /// `&&`
    AndAnd,
    /// `||`
    OrOr,
    /// `|`
    Bar,
    LeftParen,
    RightParen,
    Redirect(Redirect),
}

/// A part of a word, in which a command substitution is still a list of tokens (XCU 2.2 Quoting, 2.6 Word Expansions).
#[cycle(tokens)]
#[derive(Drop)]
pub enum RawPart {
    /// A longest run of bytes outside quotes, each of which stands for itself.
    Plain(Bytes),
    /// A quoted byte, what stands in single quotes, or a longest run of bytes in double quotes that stand for
    /// themselves (XCU 2.2.1 to 2.2.3).
    Quoted(Bytes),
    /// A parameter expansion; `quoted` says that it stands in double quotes (XCU 2.6.2 Parameter Expansion). The
    /// default is used where the parameter is empty or not set.
    Param {
        key: Key,
        default: Option<Bytes>,
        quoted: bool,
    },
    /// `$@`, which is supported as the word `"$@"` alone (XCU 2.5.2 Special Parameters).
    All,
    /// A command substitution `$(..)`, with the byte offset of its `$` (XCU 2.6.3 Command Substitution).
    Run {
        at: u32,
        tokens: List<Token>,
        quoted: bool,
    },
}

/// The tokens of a script. `strict` says that its first line asks for `-e`; `end` is the count of its bytes.
#[derive(Drop)]
pub struct Lexed {
    pub strict: bool,
    pub tokens: List<Token>,
    pub end: u32,
}
