use crate::fault::LexFault;
use crate::token::RawPart;
use shell_syntax::Redirect;

/// An operator, or a whole redirection.
#[derive(Clone, Copy, Debug, PartialEq, Eq)]
pub enum Sign {
    Newline,
    Semi,
    DoubleSemi,
    AndAnd,
    OrOr,
    Bar,
    LeftParen,
    RightParen,
    Redirect(Redirect),
}

/// What stands where a token may begin, with the place behind it.
#[derive(Clone, Copy)]
pub enum Sight {
    End,
    /// A blank or a comment.
    Passed(usize),
    Operator(Sign, usize),
    Wrong(LexFault),
    Word,
}

/// What stands in a word or in double quotes, with the place behind it.
#[derive(Drop)]
pub enum Look {
    /// The end of the word; in double quotes, of the text.
    Ends,
    /// A byte that stands for itself.
    Byte(u8, usize),
    /// A part that holds no others.
    Piece(RawPart, usize),
    /// `$@`
    AllArgs(usize),
    /// A double quote.
    DoubleQuote(usize),
    /// `$(`
    Substitution(usize),
    Bad(LexFault),
}

/// What a whole word is looked over by: each plain byte with its place, each `$@` with its place and whether it is
/// quoted, and what stands between two plain bytes that are no neighbours.
#[derive(Clone, Copy, Debug, PartialEq, Eq)]
pub enum ByteNote {
    Gap,
    Plain(u8, u32),
    All(u32, bool),
}
