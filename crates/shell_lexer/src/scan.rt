//! The scanner: a loop for tokens, one for a word and one for what stands in double quotes.

ghost use Rattle.std.specs.Prelude.{◌≡◌, ◌≤◌, ◌<◌, ◌+◌, ◌^◌, ◌++◌, ◌∷◌, [], length, IfOk, OnOk};
ghost use Rattle.shell_lexer.specs.declared.token.RawPart.TheVariants.{Run};
ghost use Rattle.shell_lexer.specs.Reading as reading;
ghost use Rattle.shell_lexer.specs.Reads.{ItemsRead, TokenRead, WordRead, InnerRead, SubRead};

use crate::bytes::skip;
use crate::fault::LexFault;
use crate::late::late;
use crate::operators::sight;
use crate::parts::{inner, look};
use crate::sight::{ByteNote, Look, Sight, Sign};
use crate::token::{RawPart, Token, TokenKind};
use script_names::{Bytes, List, Memory};
use std::alloc::Global;

// How many substitutions one may stand inside.
const DEEPEST: usize = 64;

// The tokens from a place on, inside so many substitutions, of which the innermost began at `from`; and the place
// behind them.
#[cycle(scanning)]
pub(crate) fn items(
    alloc: Global,
    text: &[u8],
    at: usize,
    depth: usize,
    from: usize,
) -> Result<(List<Token>, usize), LexFault>
    requires small { length text.now < 2 ^ 32 }
    requires within { at ≤ length text.now }
    requires began { from ≤ length text.now }
    requires shallow { depth ≤ DEEPEST }
    ensures { ItemsRead text.now depth from at result }
{
    let mut out = List::new(alloc);
    let mut parens = 0usize;
    let mut place = at;
    'tokens: loop {
        let here = skip(text, place);
        match sight(alloc, text, here)? {
            Sight::End => {
                if depth == 0 {
                    return Ok((out, text.len()));
                }
                return Err(LexFault::OpenSubstitution { at: from as u32 });
            }
            Sight::Passed(rest) => {
                place = rest;
            }
            Sight::Operator(sign, rest) => {
                if closes(depth, parens, sign) {
                    return Ok((out, rest));
                }
                let kind = token_kind(sign);
                out.add(Token {
                    at: here as u32,
                    kind,
                })?;
                parens = opened(sign, parens);
                place = rest;
            }
            Sight::Wrong(fault) => return Err(fault),
            Sight::Word => {
                let (token, rest) = whole_word(alloc, text, place, here, depth)?;
                out.add(token)?;
                place = rest;
            }
        }
    }
}

// The token that an operator is.
fn token_kind(sign: Sign) -> TokenKind
    ensures { result ≡ reading.kind_of_sign sign }
{
    match sign {
        Sign::Newline => TokenKind::Newline,
        Sign::Semi => TokenKind::Semi,
        Sign::DoubleSemi => TokenKind::DoubleSemi,
        Sign::AndAnd => TokenKind::AndAnd,
        Sign::OrOr => TokenKind::OrOr,
        Sign::Bar => TokenKind::Bar,
        Sign::LeftParen => TokenKind::LeftParen,
        Sign::RightParen => TokenKind::RightParen,
        Sign::Redirect(which) => TokenKind::Redirect(which),
    }
}

// Whether the operator closes the substitution.
fn closes(depth: usize, parens: usize, sign: Sign) -> bool
    ensures { result ≡ reading.closes depth parens sign }
{
    match sign {
        Sign::RightParen => depth > 0 && parens == 0,
        _ => false,
    }
}

// How many parentheses of its own a substitution has open behind an operator.
fn opened(sign: Sign, parens: usize) -> usize
    requires { parens < 2 ^ 63 }
    ensures gives { result ≡ reading.opened sign parens }
    ensures few { result ≤ parens + 1 }
{
    match sign {
        Sign::LeftParen => parens + 1,
        Sign::RightParen => parens.saturating_sub(1),
        _ => parens,
    }
}

// The run as a part, where it has a byte; `quoted` says that it stands in double quotes.
fn flush(parts: &mut List<RawPart>, quoted: bool, run: Bytes) -> Result<(), Memory>
    ensures { OnOk result (parts.new ≡ parts.old ++ reading.either_run quoted run) }
{
    if run.len() == 0 {
        return Ok(());
    }
    if quoted {
        return parts.add(RawPart::Quoted(run));
    }
    parts.add(RawPart::Plain(run))
}

// The last part of double quotes; those that hold nothing have an empty one.
fn flush_last(parts: &mut List<RawPart>, fresh: bool, run: Bytes) -> Result<(), Memory>
    ensures { OnOk result (parts.new ≡ parts.old ++ reading.last_run fresh run) }
{
    if fresh && run.len() == 0 {
        return parts.add(RawPart::Quoted(run));
    }
    flush(parts, true, run)
}

// A part behind a run of bytes, with its note; then a run begins. `quoted` says that they stand in double quotes.
fn add_part(
    alloc: Global,
    parts: &mut List<RawPart>,
    notes: &mut List<ByteNote>,
    quoted: bool,
    run: Bytes,
    part: RawPart,
    note: ByteNote,
) -> Result<Bytes, Memory>
    ensures next { IfOk result (λ next. next ≡ []) }
    ensures parts { OnOk result (parts.new ≡ parts.old ++ (reading.either_run quoted run ++ part ∷ [])) }
    ensures notes { OnOk result (notes.new ≡ notes.old ++ note ∷ []) }
{
    flush(parts, quoted, run)?;
    parts.add(part)?;
    notes.add(note)?;
    Ok(Bytes::new(alloc))
}

// The part that a substitution is.
fn run_part(at: usize, tokens: List<Token>, quoted: bool) -> RawPart
    requires { at < 2 ^ 32 }
    ensures { result ≡ Run at tokens quoted }
{
    RawPart::Run {
        at: at as u32,
        tokens,
        quoted,
    }
}

// The token of a word that begins at `here`, with the joined lines before it from `place` on; and the place behind it.
#[cycle(scanning)]
fn whole_word(
    alloc: Global,
    text: &[u8],
    place: usize,
    here: usize,
    depth: usize,
) -> Result<(Token, usize), LexFault>
    requires small { length text.now < 2 ^ 32 }
    requires within { place ≤ length text.now }
    requires here { here ≤ length text.now }
    requires shallow { depth ≤ DEEPEST }
    ensures { TokenRead text.now depth place here result }
{
    let (parts, notes, rest) = word(alloc, text, place, depth)?;
    match late(depth, here as u32, notes.as_slice()) {
        Some(fault) => return Err(fault),
        None => (),
    }
    let token = Token {
        at: here as u32,
        kind: TokenKind::Word(parts),
    };
    Ok((token, rest))
}

// A word, its notes, and the place behind it. The list of its parts begins with room for one, since most have one.
#[cycle(scanning)]
fn word(
    alloc: Global,
    text: &[u8],
    at: usize,
    depth: usize,
) -> Result<(List<RawPart>, List<ByteNote>, usize), LexFault>
    requires small { length text.now < 2 ^ 32 }
    requires within { at ≤ length text.now }
    requires shallow { depth ≤ DEEPEST }
    ensures { WordRead text.now depth at result }
{
    let mut parts = List::with_room(alloc, 1)?;
    let mut notes = List::new(alloc);
    let mut run = Bytes::new(alloc);
    let mut place = at;
    'parts: loop {
        let here = skip(text, place);
        match look(alloc, text, here)? {
            Look::Ends => {
                flush(&mut parts, false, run)?;
                return Ok((parts, notes, place));
            }
            Look::Byte(byte, rest) => {
                run.push(byte)?;
                notes.add(ByteNote::Plain(byte, here as u32))?;
                place = rest;
            }
            Look::Piece(part, rest) => {
                run = add_part(
                    alloc,
                    &mut parts,
                    &mut notes,
                    false,
                    run,
                    part,
                    ByteNote::Gap,
                )?;
                place = rest;
            }
            Look::AllArgs(rest) => {
                let note = ByteNote::All(here as u32, false);
                run = add_part(
                    alloc,
                    &mut parts,
                    &mut notes,
                    false,
                    run,
                    RawPart::All,
                    note,
                )?;
                place = rest;
            }
            Look::DoubleQuote(begin) => {
                flush(&mut parts, false, run)?;
                place = quoted(alloc, text, begin, depth, here, &mut parts, &mut notes)?;
                notes.add(ByteNote::Gap)?;
                run = Bytes::new(alloc);
            }
            Look::Substitution(begin) => {
                let (tokens, rest) = substitution(alloc, text, begin, depth, here)?;
                let part = run_part(here, tokens, false);
                run = add_part(
                    alloc,
                    &mut parts,
                    &mut notes,
                    false,
                    run,
                    part,
                    ByteNote::Gap,
                )?;
                place = rest;
            }
            Look::Bad(fault) => return Err(fault),
        }
    }
}

// What stands in double quotes that began at `from`, added to the parts and notes of the word; the place behind the
// closing quote.
#[cycle(scanning)]
fn quoted(
    alloc: Global,
    text: &[u8],
    at: usize,
    depth: usize,
    from: usize,
    parts: &mut List<RawPart>,
    notes: &mut List<ByteNote>,
) -> Result<usize, LexFault>
    requires small { length text.now < 2 ^ 32 }
    requires within { at ≤ length text.now }
    requires began { from ≤ length text.now }
    requires shallow { depth ≤ DEEPEST }
    ensures { InnerRead text.now depth from at parts.old parts.new notes.old notes.new result }
{
    let mut run = Bytes::new(alloc);
    let mut fresh = true;
    let mut place = at;
    'inside: loop {
        let here = skip(text, place);
        match inner(alloc, text, here)? {
            Look::Ends => return Err(LexFault::OpenQuote { at: from as u32 }),
            Look::DoubleQuote(rest) => {
                flush_last(parts, fresh, run)?;
                return Ok(rest);
            }
            Look::Byte(byte, rest) => {
                run.push(byte)?;
                notes.add(ByteNote::Gap)?;
                place = rest;
            }
            Look::Piece(part, rest) => {
                run = add_part(alloc, parts, notes, true, run, part, ByteNote::Gap)?;
                fresh = false;
                place = rest;
            }
            Look::AllArgs(rest) => {
                let note = ByteNote::All(here as u32, true);
                run = add_part(alloc, parts, notes, true, run, RawPart::All, note)?;
                fresh = false;
                place = rest;
            }
            Look::Substitution(begin) => {
                let (tokens, rest) = substitution(alloc, text, begin, depth, here)?;
                let part = run_part(here, tokens, true);
                run = add_part(alloc, parts, notes, true, run, part, ByteNote::Gap)?;
                fresh = false;
                place = rest;
            }
            Look::Bad(fault) => return Err(fault),
        }
    }
}

// The tokens of a substitution that began at `from`, and the place behind its closing parenthesis.
#[cycle(scanning)]
fn substitution(
    alloc: Global,
    text: &[u8],
    at: usize,
    depth: usize,
    from: usize,
) -> Result<(List<Token>, usize), LexFault>
    requires small { length text.now < 2 ^ 32 }
    requires within { at ≤ length text.now }
    requires began { from ≤ length text.now }
    requires shallow { depth ≤ DEEPEST }
    ensures { SubRead text.now depth from at result }
{
    if depth >= DEEPEST {
        return Err(LexFault::Deep { at: from as u32 });
    }
    items(alloc, text, at, depth + 1, from)
}
