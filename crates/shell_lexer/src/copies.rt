ghost use Rattle.std.specs.Prelude.{◌≡◌, IfOk};

use crate::token::{Lexed, RawPart, Token, TokenKind};
use script_names::{Copied, List, Memory};
use std::alloc::Global;

impl Copied for Token {
    fn copy(&self, alloc: Global) -> Result<Token, Memory> {
        copy_token(alloc, self)
    }
}

impl Copied for TokenKind {
    fn copy(&self, alloc: Global) -> Result<TokenKind, Memory> {
        copy_kind(alloc, self)
    }
}

impl Copied for RawPart {
    fn copy(&self, alloc: Global) -> Result<RawPart, Memory> {
        copy_part(alloc, self)
    }
}

impl Copied for Lexed {
    fn copy(&self, alloc: Global) -> Result<Lexed, Memory> {
        let tokens = self.tokens.copy(alloc)?;
        Ok(Lexed {
            strict: self.strict,
            tokens,
            end: self.end,
        })
    }
}

#[cycle(copying)]
fn copy_token(alloc: Global, token: &Token) -> Result<Token, Memory>
    ensures { IfOk result (λ twin. twin ≡ token.now) }
{
    let kind = copy_kind(alloc, &token.kind)?;
    Ok(Token { at: token.at, kind })
}

#[cycle(copying)]
fn copy_kind(alloc: Global, kind: &TokenKind) -> Result<TokenKind, Memory>
    ensures { IfOk result (λ twin. twin ≡ kind.now) }
{
    match kind {
        TokenKind::Word(parts) => Ok(TokenKind::Word(copy_parts(alloc, parts.as_slice())?)),
        TokenKind::Newline => Ok(TokenKind::Newline),
        TokenKind::Semi => Ok(TokenKind::Semi),
        TokenKind::DoubleSemi => Ok(TokenKind::DoubleSemi),
        TokenKind::AndAnd => Ok(TokenKind::AndAnd),
        TokenKind::OrOr => Ok(TokenKind::OrOr),
        TokenKind::Bar => Ok(TokenKind::Bar),
        TokenKind::LeftParen => Ok(TokenKind::LeftParen),
        TokenKind::RightParen => Ok(TokenKind::RightParen),
        TokenKind::Redirect(which) => Ok(TokenKind::Redirect(*which)),
    }
}

#[cycle(copying)]
fn copy_part(alloc: Global, part: &RawPart) -> Result<RawPart, Memory>
    ensures { IfOk result (λ twin. twin ≡ part.now) }
{
    match part {
        RawPart::Plain(bytes) => Ok(RawPart::Plain(bytes.copy(alloc)?)),
        RawPart::Quoted(bytes) => Ok(RawPart::Quoted(bytes.copy(alloc)?)),
        RawPart::Param {
            key,
            default,
            quoted,
        } => {
            let key = key.copy(alloc)?;
            let default = default.copy(alloc)?;
            Ok(RawPart::Param {
                key,
                default,
                quoted: *quoted,
            })
        }
        RawPart::All => Ok(RawPart::All),
        RawPart::Run { at, tokens, quoted } => {
            let tokens = copy_tokens(alloc, tokens.as_slice())?;
            Ok(RawPart::Run {
                at: *at,
                tokens,
                quoted: *quoted,
            })
        }
    }
}

#[cycle(copying)]
fn copy_parts(alloc: Global, parts: &[RawPart]) -> Result<List<RawPart>, Memory>
    ensures { IfOk result (λ twins. twins ≡ parts.now) }
{
    let mut twins = List::with_room(alloc, parts.len())?;
    for part in parts {
        let twin = copy_part(alloc, part)?;
        twins.add(twin)?;
    }
    Ok(twins)
}

#[cycle(copying)]
fn copy_tokens(alloc: Global, tokens: &[Token]) -> Result<List<Token>, Memory>
    ensures { IfOk result (λ twins. twins ≡ tokens.now) }
{
    let mut twins = List::with_room(alloc, tokens.len())?;
    for token in tokens {
        let twin = copy_token(alloc, token)?;
        twins.add(twin)?;
    }
    Ok(twins)
}
