//! Texts and their tokens by hand (tokens/rows.rt), in a printed form: `strict ` where the first line has `-e`, and a
//! token as its offset, `:` and its spelling. A word is its parts: `[plain]`, `<quoted>`, `$name`,
//! `${name:-default}`, `$at(tokens)`, each expansion in `"` where it is quoted, and `"$@"`. A newline is `nl`, a
//! redirection `>null`, `2>null`, `<null`, `>&2` or `2>&1`. A fault is its name and its offset. Where there is
//! neither, `no tokens`.

mod rows;

use rows::{
    BLANKS_AND_COMMENTS, FAULTS_TOGETHER, OPENED, OPERATORS, PARAMETERS, QUOTES, REDIRECTIONS,
    REFUSED_PARAMETERS, REFUSED_REDIRECTIONS, SUBSTITUTIONS, TEMPLATE, TEMPLATE_TOKENS,
    WHOLE_TEXTS, WHOLE_WORDS,
};
use script_names::{Bytes, Copied, List, Memory};
use shell_lexer::{LexFault, RawPart, Token, TokenKind, lex};
use shell_syntax::{Form, Key, Redirect};
use std::alloc::Global;
use std::test::Fail;

// The first line of most texts.
const FIRST_LINE: &[u8] = b"#!/bin/sh\n";

// The offset behind it.
const BODY: u32 = 10;

// The name of a form.
fn form_name(form: Form) -> &'static str {
    match form {
        Form::Heredoc => "heredoc",
        Form::Arith => "arith",
        Form::Background => "background",
        Form::Backquote => "backquote",
        Form::Param => "param",
        Form::AllArgs => "all-args",
        Form::Redirect => "redirect",
        Form::Tilde => "tilde",
        Form::Brace => "brace",
        Form::SubstCase => "subst-case",
        _ => "no form of a text",
    }
}

// A fault's name and its offset. Want of memory is no fault of a text, and comes out of each test as it is.
fn fault_parts(fault: LexFault) -> Result<(&'static str, u32), Memory> {
    match fault {
        LexFault::Nul { at } => Ok(("nul", at)),
        LexFault::Interpreter { at } => Ok(("interpreter", at)),
        LexFault::OpenQuote { at } => Ok(("open-quote", at)),
        LexFault::OpenSubstitution { at } => Ok(("open-substitution", at)),
        LexFault::Unsupported { form, at } => Ok((form_name(form), at)),
        LexFault::Deep { at } => Ok(("deep", at)),
        LexFault::Memory => Err(Memory),
    }
}

// A number in decimal.
fn show_number(alloc: Global, out: &mut Bytes, number: u32) -> Result<(), Memory> {
    let digits = format!(in alloc; "{number}")?;
    out.extend(digits.as_bytes())
}

fn show_fault(alloc: Global, out: &mut Bytes, fault: LexFault) -> Result<(), Memory> {
    let (name, at) = fault_parts(fault)?;
    out.extend(name.as_bytes())?;
    out.push(b' ')?;
    show_number(alloc, out, at)
}

// Bytes between an opening and a closing byte.
fn show_bytes(out: &mut Bytes, open: u8, bytes: &Bytes, close: u8) -> Result<(), Memory> {
    out.push(open)?;
    out.extend(bytes.as_slice())?;
    out.push(close)
}

fn show_key(alloc: Global, out: &mut Bytes, key: &Key) -> Result<(), Memory> {
    match key {
        Key::Named(name) => out.extend(name.as_slice()),
        Key::Arg(number) => show_number(alloc, out, *number as u32),
        Key::Count => out.push(b'#'),
    }
}

fn show_param(
    alloc: Global,
    out: &mut Bytes,
    key: &Key,
    default: &Option<Bytes>,
) -> Result<(), Memory> {
    out.push(b'$')?;
    match default {
        None => show_key(alloc, out, key),
        Some(default) => {
            out.push(b'{')?;
            show_key(alloc, out, key)?;
            out.extend(b":")?;
            show_bytes(out, b'-', default, b'}')
        }
    }
}

// A double quote, where there is one.
fn show_quote(out: &mut Bytes, quoted: bool) -> Result<(), Memory> {
    if quoted { out.push(b'"') } else { Ok(()) }
}

#[cycle(showing)]
fn show_part(alloc: Global, out: &mut Bytes, part: &RawPart) -> Result<(), Memory> {
    match part {
        RawPart::Plain(bytes) => show_bytes(out, b'[', bytes, b']'),
        RawPart::Quoted(bytes) => show_bytes(out, b'<', bytes, b'>'),
        RawPart::Param {
            key,
            default,
            quoted,
        } => {
            show_quote(out, *quoted)?;
            show_param(alloc, out, key, default)?;
            show_quote(out, *quoted)
        }
        RawPart::All => out.extend(b"\"$@\""),
        RawPart::Run { at, tokens, quoted } => {
            show_quote(out, *quoted)?;
            out.push(b'$')?;
            show_number(alloc, out, *at)?;
            out.push(b'(')?;
            show_tokens(alloc, out, tokens)?;
            out.push(b')')?;
            show_quote(out, *quoted)
        }
    }
}

// The spelling of a token without parts.
fn spelling(kind: &TokenKind) -> &'static str {
    match kind {
        TokenKind::Word(_) => "",
        TokenKind::Newline => "nl",
        TokenKind::Semi => ";",
        TokenKind::DoubleSemi => ";;",
        TokenKind::AndAnd => "&&",
        TokenKind::OrOr => "||",
        TokenKind::Bar => "|",
        TokenKind::LeftParen => "(",
        TokenKind::RightParen => ")",
        TokenKind::Redirect(Redirect::OutNull) => ">null",
        TokenKind::Redirect(Redirect::ErrNull) => "2>null",
        TokenKind::Redirect(Redirect::InNull) => "<null",
        TokenKind::Redirect(Redirect::OutToErr) => ">&2",
        TokenKind::Redirect(Redirect::ErrToOut) => "2>&1",
    }
}

#[cycle(showing)]
fn show_token(alloc: Global, out: &mut Bytes, token: &Token) -> Result<(), Memory> {
    show_number(alloc, out, token.at)?;
    out.push(b':')?;
    out.extend(spelling(&token.kind).as_bytes())?;
    let kind = token.kind.copy(alloc)?;
    match &kind {
        TokenKind::Word(parts) => {
            for part in parts.as_slice() {
                let part = part.copy(alloc)?;
                show_part(alloc, out, &part)?;
            }
            Ok(())
        }
        _ => Ok(()),
    }
}

#[cycle(showing)]
fn show_tokens(alloc: Global, out: &mut Bytes, tokens: &List<Token>) -> Result<(), Memory> {
    let mut first = true;
    for token in tokens.as_slice() {
        if !first {
            out.push(b' ')?;
        }
        first = false;
        show_token(alloc, out, token)?;
    }
    Ok(())
}

// What a text is cut into, from a copy; where its end is not said right, nothing that a row has.
fn shown(alloc: Global, text: &[u8]) -> Result<Bytes, Memory> {
    let mut out = Bytes::new(alloc);
    match lex(alloc, text) {
        Ok(lexed) => {
            let lexed = lexed.copy(alloc)?;
            if lexed.end as usize != text.len() {
                out.extend(b"another end ")?;
            }
            if lexed.strict {
                out.extend(b"strict ")?;
            }
            if lexed.tokens.len() == 0 {
                out.extend(b"no tokens")?;
            }
            show_tokens(alloc, &mut out, &lexed.tokens)?;
        }
        Err(fault) => show_fault(alloc, &mut out, fault)?,
    }
    Ok(out)
}

// The bytes that a column of a row spells.
fn spelled(alloc: Global, column: &str) -> Result<Bytes, Memory> {
    let mut out = Bytes::new(alloc);
    for byte in column.as_bytes() {
        out.push(match *byte {
            b'N' => b'\n',
            b'T' => b'\t',
            b'R' => b'\r',
            b'Z' => 0,
            other => other,
        })?;
    }
    Ok(out)
}

// Whether a row's text behind these bytes is cut into what the row has.
fn holds(alloc: Global, begin: &[u8], row: &str) -> Result<bool, Memory> {
    match row.split_once(" -> ") {
        Some((text, form)) => {
            let mut whole = Bytes::from_slice(alloc, begin)?;
            let text = spelled(alloc, text)?;
            whole.extend(text.as_slice())?;
            let want = spelled(alloc, form)?;
            let got = shown(alloc, whole.as_slice())?;
            Ok(got.equal(&want))
        }
        None => Ok(false),
    }
}

// The tables of texts behind a first line.
const TABLES: &[&str] = &[
    BLANKS_AND_COMMENTS,
    OPERATORS,
    REDIRECTIONS,
    REFUSED_REDIRECTIONS,
    QUOTES,
    PARAMETERS,
    REFUSED_PARAMETERS,
    SUBSTITUTIONS,
    WHOLE_WORDS,
    FAULTS_TOGETHER,
];

#[test]
fn texts_have_their_tokens_or_faults(rt: HostRuntime) -> Result<(), Fail> {
    let alloc = rt.alloc();
    for table in TABLES {
        for row in table.lines() {
            let right = holds(alloc, FIRST_LINE, row)?;
            assert!(rt; right, "{row}");
        }
    }
    Ok(())
}

#[test]
fn whole_texts_have_their_tokens_or_faults(rt: HostRuntime) -> Result<(), Fail> {
    let alloc = rt.alloc();
    for row in WHOLE_TEXTS.lines() {
        let right = holds(alloc, b"", row)?;
        assert!(rt; right, "{row}");
    }
    Ok(())
}

#[test]
fn the_template_has_its_tokens(rt: HostRuntime) -> Result<(), Fail> {
    let got = shown(rt.alloc(), TEMPLATE.as_bytes())?;
    assert!(rt; got.as_slice() == TEMPLATE_TOKENS.as_bytes());
    Ok(())
}

// A piece again and again.
fn repeat(out: &mut Bytes, piece: &str, count: u32) -> Result<(), Memory> {
    for _ in 0..count {
        out.extend(piece.as_bytes())?;
    }
    Ok(())
}

// A piece again and again, and what is left.
fn opened(alloc: Global, piece: &str, count: u32, rest: &str) -> Result<Bytes, Memory> {
    let mut text = Bytes::from_slice(alloc, FIRST_LINE)?;
    repeat(&mut text, piece, count)?;
    text.extend(rest.as_bytes())?;
    Ok(text)
}

#[test]
fn open_substitutions_have_their_faults(rt: HostRuntime) -> Result<(), Fail> {
    let alloc = rt.alloc();
    for row in OPENED {
        let text = opened(alloc, row.0, row.1, row.2)?;
        let got = shown(alloc, text.as_slice())?;
        assert!(rt;
            got.as_slice() == row.3.as_bytes(),
            "{} {} {}",
            row.0,
            row.1,
            row.2
        );
    }
    Ok(())
}

// How many tokens a text has, and its end.
fn size(alloc: Global, text: &[u8]) -> Result<(usize, u32), Memory> {
    match lex(alloc, text) {
        Ok(lexed) => Ok((lexed.tokens.len(), lexed.end)),
        Err(fault) => {
            let (_name, at) = fault_parts(fault)?;
            Ok((0, at))
        }
    }
}

#[test]
fn a_text_of_a_mebibyte_has_its_tokens(rt: HostRuntime) -> Result<(), Fail> {
    let alloc = rt.alloc();
    let text = opened(alloc, "word ", 209_713, "a")?;
    let (count, end) = size(alloc, text.as_slice())?;
    assert!(rt; count == 209_714);
    assert!(rt; end == 1_048_576);
    Ok(())
}

// What 64 substitutions inside one another round the word `a` are cut into, each in double quotes or none.
fn nested_form(alloc: Global, quoted: bool) -> Result<Bytes, Memory> {
    let step = if quoted { 3u32 } else { 2u32 };
    let mut out = Bytes::new(alloc);
    for level in 0..64u32 {
        let at = BODY + level * step;
        show_number(alloc, &mut out, at)?;
        out.push(b':')?;
        show_quote(&mut out, quoted)?;
        out.push(b'$')?;
        show_number(alloc, &mut out, at + step - 2)?;
        out.push(b'(')?;
    }
    show_number(alloc, &mut out, BODY + 64 * step)?;
    out.extend(b":[a]")?;
    repeat(&mut out, if quoted { ")\"" } else { ")" }, 64)?;
    Ok(out)
}

#[test]
fn substitutions_nest_to_64(rt: HostRuntime) -> Result<(), Fail> {
    let alloc = rt.alloc();
    for row in [("$(", ")", false), ("\"$(", ")\"", true)] {
        let mut text = opened(alloc, row.0, 64, "a")?;
        repeat(&mut text, row.1, 64)?;
        let want = nested_form(alloc, row.2)?;
        let got = shown(alloc, text.as_slice())?;
        assert!(rt; got.equal(&want), "{}", row.0);
    }
    Ok(())
}

// The place of a text's fault, or its end.
fn last_place(alloc: Global, text: &[u8]) -> Result<u32, Memory> {
    match lex(alloc, text) {
        Ok(lexed) => Ok(lexed.end),
        Err(fault) => Ok(fault_parts(fault)?.1),
    }
}

#[test]
fn prefixes_are_answered(rt: HostRuntime) -> Result<(), Fail> {
    let alloc = rt.alloc();
    let mut text = Bytes::new(alloc);
    for byte in TEMPLATE.as_bytes() {
        text.push(*byte)?;
        let place = last_place(alloc, text.as_slice())?;
        assert!(rt; place as usize <= text.len(), "{place} in {}", text.len());
    }
    Ok(())
}

// Bytes that don't stand for themselves in a word of their own.
const SIGNS: &[u8] = b"\t\n \"#&'();<>`|~";

// What a text of a byte and a first line is cut into, where the byte stands for itself.
fn one_byte_form(alloc: Global, byte: u8) -> Result<Bytes, Memory> {
    let mut out = Bytes::from_slice(alloc, b"10:[")?;
    out.push(byte)?;
    out.push(b']')?;
    Ok(out)
}

#[test]
fn bytes_stand_for_themselves(rt: HostRuntime) -> Result<(), Fail> {
    let alloc = rt.alloc();
    for byte in 1..=255u8 {
        if !SIGNS.contains(&byte) {
            let mut text = opened(alloc, "", 0, "")?;
            text.push(byte)?;
            let want = one_byte_form(alloc, byte)?;
            let got = shown(alloc, text.as_slice())?;
            assert!(rt; got.equal(&want), "{byte}");
        }
    }
    Ok(())
}

// The bytes from one up to 255, behind a first line, and the fault of these; their backquote stands at 105.
const ALL_BYTES: &[(u8, &str)] = &[(0, "nul 10"), (1, "backquote 105")];

#[test]
fn all_bytes_are_answered(rt: HostRuntime) -> Result<(), Fail> {
    let alloc = rt.alloc();
    for row in ALL_BYTES {
        let mut text = opened(alloc, "", 0, "")?;
        for byte in row.0..=255u8 {
            text.push(byte)?;
        }
        let got = shown(alloc, text.as_slice())?;
        assert!(rt; got.as_slice() == row.1.as_bytes(), "{}", row.0);
    }
    Ok(())
}
