//! Words, strings and patterns by hand, a row for each: from POSIX.1-2017, XCU 2.6.5 and 2.13.
//! In a row `<..>` is a split piece, `".."` a quoted one and anything else plain; `_` is a newline, `~` a tab,
//! `%` a carriage return, and `#` stands for 65,535 times `a`. `|` ends a column.

use script_names::{Bytes, Copied, List, Memory};
use shell_words::{Env, Piece, WordFault, fields, join, matches, trim_newlines};
use std::alloc::Global;
use std::test::Fail;

// A word, and its fields in braces (a long one by its length), or its fault.
const WORDS: &str = "\
|
a|{a}
ab|{ab}
a b|{a b}
a~_b|{a~_b}
\"a b\"|{a b}
\"\"|{}
<>|
< >|
< ~_ >|
<a>|{a}
<a b>|{a}{b}
< a b >|{a}{b}
<a  b>|{a}{b}
<a~b>|{a}{b}
<a_b>|{a}{b}
<a ~_ b>|{a}{b}
<a%b>|{a%b}
a<b  c>d|{ab}{cd}
a< b  c >d|{a}{b}{c}{d}
<>\"\"|{}
\"\"<>|{}
< >\"\"|{}
\"\"< >|{}
\"\"< >\"\"|{}{}
<a >\"\"< b>|{a}{}{b}
<a >\"\"\"\"< b>|{a}{}{b}
<a>\"\"<b>|{ab}
<a >\"\"<b>|{a}{b}
<a>\"\"< b>|{a}{b}
\"a\"< >\"b\"|{a}{b}
\"a\"<>\"b\"|{ab}
\"a \"<b>|{a b}
<a>\" \"<b>|{a b}
\" \"|{ }
\"_\"|{_}
\"a_b\"< c>|{a_b}{c}
<a>b|{ab}
a<b>|{ab}
< >a|{a}
a< >|{a}
a< >b|{a}{b}
a<_>b|{a}{b}
a<~>b|{a}{b}
a< >< >b|{a}{b}
< ><a>< ><b>< >|{a}{b}
<a b c d e>|{a}{b}{c}{d}{e}
<a><b>|{ab}
<a ><b>|{a}{b}
<a>< b>|{a}{b}
\"\"\"\"|{}
\"\"<a>|{a}
<a>\"\"|{a}
\"a\"\"b\"|{ab}
\"a\"b\"c\"|{abc}
a\"b c\"d|{ab cd}
x=< a b >|{x=}{a}{b}
/srv/<a b>/c|{/srv/a}{b/c}
/srv/\"a b\"/c|{/srv/a b/c}
-n< -z>|{-n}{-z}
*|glob
?|glob
a*|glob
<*>|glob
<a ?>|glob
\"*\"|{*}
\"?\"|{?}
\"*\"a|{*a}
\"*\"*|glob
[|{[}
]|{]}
[]|glob
[a]|glob
[abc|{[abc}
][|{][}
]a[|{]a[}
[\"]\"|{[]}
\"[\"]|{[]}
[a\"b\"c]|glob
[<a>]|glob
[\"\"]|glob
<[>\"a\"<]>|glob
[< >]|{[}{]}
<[ ]>|{[}{]}
<[a ]>|{[a}{]}
<a[ b]>|{a[}{b]}
<a[ b] c[d]>|glob
a< * >b|glob
a< b >*|glob
\\|{\\}
<\\>|{\\}
<\\*>|glob
![^|{![^}
[^a]|glob
\"[\"*|glob
\"[\"a\"]\"|{[a]}
a\"*\"<b c>\"?\"|{a*b}{c?}
#|{65535}
#a|{65536}
#aa|long
\"#a\"|{65536}
\"#aa\"|long
<#aa>|long
<# #>|{65535}{65535}
<#a b>|{65536}{b}
<b #aa>|long
\"\"#a|{65536}
#\"a\"<a>|long
*#|glob
*#a|long
#a*|long
[#]|long
<* >#aa|glob
<#aa *>|long
<#a *>|glob
";

// A word that is not split, and its string or its fault.
const STRINGS: &str = "\
|{}
\"\"|{}
a< b  c >d|{a b  c d}
< >|{ }
<a_b>\" \"c|{a_b c}
*|{*}
[a]\"?\"|{[a]?}
<\\*>|{\\*}
#a|{65536}
<#>\"a\"|{65536}
#aa|long
#<a>\"a\"|long
##|long
*#a|long
";

// A pattern, a string, and whether it matches, or that a shape is left out.
const PATTERNS: &str = "\
||yes
|a|no
a||no
a|a|yes
a|b|no
a|ab|no
ab|a|no
ab|ab|yes
?|a|yes
?||no
?|ab|no
??|ab|yes
?|_|yes
a?c|abc|yes
a?c|ac|no
*||yes
*|a|yes
*|abc|yes
*|a/b|yes
*|.a|yes
a*|a|yes
a*|abc|yes
a*|ba|no
*a|a|yes
*a|ba|yes
*a|ab|no
a*c|abc|yes
a*c|ac|yes
a*c|abcb|no
a*b*c|aXbXc|yes
a*b*c|acb|no
**|a|yes
*a*a*|ba|no
*a*a*|baba|yes
*ab|aab|yes
*aab|aaab|yes
*aba|ababa|yes
a**b|ab|yes
*?|a|yes
*?||no
?*|a|yes
******************************b|#|no
******************************|#|yes
a*a*a*a*a*a*a*a*b|#|no
\"*\"|*|yes
\"*\"|a|no
\"?\"|?|yes
\"?\"|a|no
\"a\"|a|yes
a\"*\"b|a*b|yes
a\"*\"b|axb|no
<*>|abc|yes
<a b>|a b|yes
< >| |yes
\"\"||yes
\"\"a|a|yes
[abc]|a|yes
[abc]|c|yes
[abc]|d|no
[abc]||no
[abc]|ab|no
[a-c]|b|yes
[a-c]|d|no
[a-c]|-|no
[a-a]|a|yes
<[a-c]>|b|yes
[!abc]|d|yes
[!abc]|a|no
[!a-c]|b|no
[!a]||no
[]a]*|]x|yes
[]a]*|bx|no
[]a]|a|yes
[!]a]|]|no
[!]a]|b|yes
[]|[]|yes
[]|]|no
[!]|[!]|yes
[!]|a|no
[|[|yes
[a|[a|yes
[a|a|no
[a-]|-|yes
[a-]|a|yes
[a-]|b|no
[-a]|-|yes
[-a]|a|yes
[a-c-e]|b|yes
[a-c-e]|-|yes
[a-c-e]|e|yes
[a-c-e]|d|no
[a*]|*|yes
[a*]|b|no
[a?]|?|yes
[!!]|!|no
[!!]|a|yes
[a!]|!|yes
[\"!\"a]|!|yes
[\"!\"a]|b|no
[\"]\"a]|]|yes
[a\"]\"b]|]|yes
[a\"]\"|a|no
[a\"]\"|[a]|yes
[a\"-\"c]|b|no
[a\"-\"c]|-|yes
[\"a\"-\"c\"]|b|yes
[\"^\"a]|^|yes
[a^]|^|yes
\"[\"a]|[a]|yes
[[]|[|yes
[[a]|a|yes
[a]]|a]|yes
[[]]|[]|yes
x[|x[|yes
[a-c]*[0-9]|b7|yes
[a-c]*[0-9]|bx|no
[]-a]|^|yes
[--0]|.|yes
[!-a]|-|no
[:a]|:|yes
[a:]|:|yes
[^a]|b|pattern
[^|[^|pattern
x[^a]|y|pattern
[a[^b]|a|pattern
\"[\"^a]|[^a]|yes
[[:alpha:]]|a|pattern
[[.a.]]|a|pattern
[[=a=]]|a|pattern
[[:alpha:]|a|pattern
[[:|[[:|yes
[\"[\":a]|:|yes
[[\":\"a]|:|yes
[c-a]|b|pattern
x[c-a]|y|pattern
*[c-a]|x|pattern
[a--]|a|pattern
[c-a|[c-a|yes
[c\"-\"a]|c|yes
<\\>|\\|pattern
\\|\\|yes
\"\\\"|\\|yes
a<\\*>|a*|pattern
[<\\>]|\\|pattern
[\\]|\\|yes
[a-c][c-a]|zz|pattern
";

// What a command substitution wrote, and what is left of it.
const OUTPUTS: &str = "\
|
a|a
a_|a
a__|a
_|
___|
_a|_a
_a_|_a
a_b|a_b
a_b__|a_b
a_ _|a_ 
a %_|a %
a~_|a~
";

// The columns of a row.
fn columns(alloc: Global, row: &str) -> Result<Vec<&str>, Memory> {
    let mut out = Vec::new(alloc);
    for column in row.split('|') {
        out.push(column)?;
    }
    Ok(out)
}

// A byte of a row, spelled out behind what is there.
fn spell(text: &mut Bytes, byte: u8) -> Result<(), Memory> {
    match byte {
        b'_' => text.push(b'\n'),
        b'~' => text.push(b'\t'),
        b'%' => text.push(b'\r'),
        b'#' => {
            for _ in 0..65535 {
                text.push(b'a')?;
            }
            Ok(())
        }
        _ => text.push(byte),
    }
}

// The bytes that a column spells.
fn bytes_of(alloc: Global, column: &str) -> Result<Bytes, Memory> {
    let mut text = Bytes::new(alloc);
    for byte in column.as_bytes() {
        spell(&mut text, *byte)?;
    }
    Ok(text)
}

// A piece by the byte that opened it: `"` quoted, `<` split, else plain. A plain one without bytes is none.
fn add_piece(pieces: &mut List<Piece>, opened: u8, text: Bytes) -> Result<(), Memory> {
    match opened {
        b'"' => pieces.add(Piece::quoted(text)),
        b'<' => pieces.add(Piece::split(text)),
        _ => {
            if text.len() == 0 {
                Ok(())
            } else {
                pieces.add(Piece::plain(text))
            }
        }
    }
}

// The pieces that a column spells.
fn pieces_of(alloc: Global, column: &str) -> Result<List<Piece>, Memory> {
    let mut pieces = List::new(alloc);
    let mut text = Bytes::new(alloc);
    let mut opened = b' ';
    for byte in column.as_bytes() {
        let ends = (opened == b'"' && *byte == b'"') || (opened == b'<' && *byte == b'>');
        let begins = opened == b' ' && (*byte == b'"' || *byte == b'<');
        if ends || begins {
            add_piece(&mut pieces, opened, text)?;
            text = Bytes::new(alloc);
            opened = if begins { *byte } else { b' ' };
        } else {
            spell(&mut text, *byte)?;
        }
    }
    add_piece(&mut pieces, opened, text)?;
    Ok(pieces)
}

// The text of an answer: a field in braces, a long one by its length.
fn show(out: &mut Bytes, field: &Bytes) -> Result<(), Memory> {
    out.push(b'{')?;
    if field.len() == 65536 {
        out.extend(b"65536")?;
    } else if field.len() == 65535 {
        out.extend(b"65535")?;
    } else {
        out.extend(field.as_slice())?;
    }
    out.push(b'}')
}

// The text of a fault.
fn fault_text(fault: WordFault) -> &'static [u8] {
    match fault {
        WordFault::Long => b"long",
        WordFault::Glob => b"glob",
        WordFault::Pattern => b"pattern",
        WordFault::Memory => b"memory",
    }
}

#[test]
fn words_have_their_fields(rt: HostRuntime) -> Result<(), Fail> {
    let alloc = rt.alloc();
    for row in WORDS.lines() {
        let columns = columns(alloc, row)?;
        assert_eq!(rt; columns.len(), 2);
        let want = bytes_of(alloc, columns[1])?;
        let pieces = pieces_of(alloc, columns[0])?;
        let mut got = Bytes::new(alloc);
        match fields(alloc, &pieces) {
            Ok(found) => {
                for field in found.as_slice() {
                    show(&mut got, field)?;
                }
            }
            Err(fault) => got.extend(fault_text(fault))?,
        }
        assert!(rt; got.equal(&want), "{row}");
    }
    Ok(())
}

#[test]
fn two_hundred_pieces_have_their_fields(rt: HostRuntime) -> Result<(), Fail> {
    let alloc = rt.alloc();
    let mut pieces = List::new(alloc);
    for _ in 0..200 {
        pieces.add(Piece::split(Bytes::from_slice(alloc, b"a ")?))?;
    }
    let Ok(found) = fields(alloc, &pieces) else {
        return Err(Fail::from("no fields"));
    };
    assert_eq!(rt; found.len(), 200);
    for field in found.as_slice() {
        assert!(rt; field.as_slice() == b"a".as_slice());
    }
    Ok(())
}

#[test]
fn a_copied_piece_is_the_piece(rt: HostRuntime) -> Result<(), Fail> {
    let alloc = rt.alloc();
    let piece = Piece::split(Bytes::from_slice(alloc, b"a b")?);
    let twin = piece.copy(alloc)?;
    assert!(rt; twin.text.as_slice() == b"a b".as_slice());
    assert!(rt; twin.split);
    assert!(rt; !twin.quoted);
    Ok(())
}

#[test]
fn strings_are_joined(rt: HostRuntime) -> Result<(), Fail> {
    let alloc = rt.alloc();
    for row in STRINGS.lines() {
        let columns = columns(alloc, row)?;
        assert_eq!(rt; columns.len(), 2);
        let want = bytes_of(alloc, columns[1])?;
        let pieces = pieces_of(alloc, columns[0])?.copy(alloc)?;
        let mut got = Bytes::new(alloc);
        match join(alloc, &pieces) {
            Ok(text) => show(&mut got, &text)?,
            Err(fault) => got.extend(fault_text(fault))?,
        }
        assert!(rt; got.equal(&want), "{row}");
    }
    Ok(())
}

#[test]
fn patterns_match(rt: HostRuntime) -> Result<(), Fail> {
    let alloc = rt.alloc();
    for row in PATTERNS.lines() {
        let columns = columns(alloc, row)?;
        assert_eq!(rt; columns.len(), 3);
        let pattern = pieces_of(alloc, columns[0])?;
        let subject = bytes_of(alloc, columns[1])?;
        let got: &[u8] = match matches(alloc, &pattern, subject.as_slice()) {
            Ok(true) => b"yes",
            Ok(false) => b"no",
            Err(fault) => fault_text(fault),
        };
        assert!(rt; got == columns[2].as_bytes(), "{row}");
    }
    Ok(())
}

#[test]
fn newlines_at_the_end_are_trimmed(rt: HostRuntime) -> Result<(), Fail> {
    let alloc = rt.alloc();
    for row in OUTPUTS.lines() {
        let columns = columns(alloc, row)?;
        assert_eq!(rt; columns.len(), 2);
        let mut got = bytes_of(alloc, columns[0])?;
        let want = bytes_of(alloc, columns[1])?;
        trim_newlines(&mut got);
        assert!(rt; got.equal(&want), "{row}");
    }
    Ok(())
}

// Whether a variable has this value.
fn has(env: &Env, name: &[u8], value: &[u8]) -> bool {
    match env.get(name) {
        None => false,
        Some(found) => found.as_slice() == value,
    }
}

#[test]
fn variables_are_set_and_unset(rt: HostRuntime) -> Result<(), Fail> {
    let alloc = rt.alloc();
    let mut env = Env::new(alloc);
    env.set(b"b", Bytes::from_slice(alloc, b"1")?)?;
    env.set(b"a", Bytes::from_slice(alloc, b"2")?)?;
    env.set(b"b", Bytes::from_slice(alloc, b"3")?)?;
    let twin = env.copy(alloc)?;
    env.unset(b"b");
    env.unset(b"c");
    assert!(rt; env.get(b"b").is_none());
    assert!(rt; env.get(b"c").is_none());
    assert!(rt; has(&env, b"a", b"2"));
    assert!(rt; has(&twin, b"a", b"2"));
    assert!(rt; has(&twin, b"b", b"3"));
    Ok(())
}
