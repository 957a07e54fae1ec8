use script_names::{Copied, Memory};
use shell_syntax::Redirect;
use std::alloc::Global;

/// The reserved words (XCU 2.4 Reserved Words).
#[derive(Clone, Copy, Debug, PartialEq, Eq)]
pub enum Reserved {
    /// `{`
    Open,
    /// `}`
    Close,
    /// `!`
    Bang,
    If,
    Then,
    Elif,
    Else,
    Fi,
    For,
    In,
    Do,
    Done,
    While,
    Until,
    Case,
    Esac,
}

impl Copied for Reserved {
    fn copy(&self, _alloc: Global) -> Result<Reserved, Memory> {
        Ok(*self)
    }
}

/// The kinds of tokens that the grammar tells apart, and the tokens' end (XCU 2.10.1 Shell Grammar Lexical
/// Conventions).
#[derive(Clone, Copy, Debug, PartialEq, Eq)]
pub enum Look {
    AtEnd,
    Newline,
    /// `;`
    Semi,
    /// `;;`
    DoubleSemi,
    /// `&&`
    AndAnd,
    /// `||`
    OrOr,
    /// `|`
    Bar,
    LeftParen,
    RightParen,
    Redirection(Redirect),
    /// A word of one plain part that is a reserved word.
    Keyword(Reserved),
    /// A word of one plain part that is a name and no reserved word (XBD 3.235 Name).
    Name,
    /// A word whose first part is plain and begins with a name and `=`.
    Assignment,
    /// Any other word.
    Other,
}

impl Copied for Look {
    fn copy(&self, _alloc: Global) -> Result<Look, Memory> {
        Ok(*self)
    }
}
