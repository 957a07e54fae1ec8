/// `{`
pub(crate) const OPENING_BRACE: u8 = b'{';

/// What a byte is to the lexer.
#[derive(Clone, Copy, Debug, PartialEq, Eq)]
pub enum ByteKind {
    /// Space or tab.
    Blank,
    Newline,
    Semi,
    Amp,
    Bar,
    Open,
    Close,
    Less,
    Greater,
    Hash,
    Single,
    Double,
    Back,
    Tick,
    Dollar,
    /// `{`
    Brace,
    /// `@`
    At,
    /// `*`, `?`, `!` or `-`, which name special parameters that are not supported.
    Special,
    Digit,
    /// A letter or `_`.
    Name,
    Other,
}

/// Which bytes a run is made of.
#[derive(Clone, Copy, Debug, PartialEq, Eq)]
pub enum RunKind {
    Blanks,
    Digits,
    /// Letters, digits and `_`.
    Names,
    /// What the default of a parameter may have.
    Defaults,
}
