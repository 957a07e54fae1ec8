//! Scripts with what they are printed as, by hand from POSIX.1-2017, XCU 2.2, 2.6, 2.7, 2.9 and 2.10: what is printed
//! is read again, and printed as the same text.

use crate::readings::printed;
use script_names::{Bytes, Memory};
use std::alloc::Global;
use std::test::Fail;

// A text and what its script is printed as, both behind `#!/bin/sh` and a newline. `N` stands for a newline, `B` for a
// backslash; ` -> ` stands between the two.
const ROWS: &str = r#"a ->  a
a b  'c d' ->  a b "c d"
aB ->  aB
a 'b' '' "BNc" ->  a Bb "" Bc
x=1 y= a ->  x=1 y= a
x=$y"z 1" ->  x=${y}"z 1"
a $1 ${x:-y} "$#" "$@" ->  a ${1} ${x:-y} "${#}" "$@"
a >/dev/null 2>&1 ->  >/dev/null 2>&1 a
>/dev/null if ->  >/dev/null if
echo } ->  echo }
>/dev/null } ->  >/dev/null }
B} } ->  B} }
! { ! echo }; } ->  ! { ! echo }N }
{ a; } </dev/null ->  </dev/null a
{ a; b; } >&2 ->  { aN bN } >&2
a | b | c ->  a | b | c
{ a; b; } | c ->  { aN bN } | c
{ a | b; } | c ->  { a | bN } | c
! a | b ->  ! a | b
! { ! a; } ->  ! { ! aN }
a && b || c ->  a && b || c
a && { b || c; } ->  a && { b || cN }
a; b ->  aN b
{ a; b; }; c ->  { aN bN }N c
(a; b) ->  ( aN b )
if a; then b; fi ->  if aN then bN fi
if a; then b; elif c; then d; else e; f; fi ->  if aN then bN elif cN then dN else eN fN fi
for i in a b; do c; done ->  for i in a bN do cN done
for i; do c; done ->  for iN do cN done
while a; b; do c; done ->  while aN bN do cN done
until a; do b; done >/dev/null ->  until aN do bN done >/dev/null
case $x in a|b) c;; (*) ;; esac ->  case ${x} inN ( a | b ) c ;;N ( * ) ;;N esac
case a in esac ->  case a inN esac
f() { a; b; } ->  f ( ) { aN bN }
a $(b; c) "$(d)" $() ->  a $( bN c ) "$( d )" $( )
x=$(a "$(b)") ->  x=$( a "$( b )" )"#;

// A text as a row has it, behind its first line.
fn spelled(alloc: Global, text: &str) -> Result<Bytes, Memory> {
    let mut whole = Bytes::from_slice(alloc, b"#!/bin/sh\n")?;
    for byte in text.as_bytes() {
        whole.push(match *byte {
            b'N' => b'\n',
            b'B' => b'\\',
            other => other,
        })?;
    }
    Ok(whole)
}

// Whether a text is what a row says.
fn is_said(alloc: Global, text: &[u8], said: &str) -> Result<bool, Memory> {
    let wanted = spelled(alloc, said)?;
    Ok(text == wanted.as_slice())
}

// Whether a text's script is printed as itself.
fn is_printed_again(alloc: Global, text: &[u8]) -> Result<bool, Fail> {
    let again = printed(alloc, text)?;
    Ok(again.as_slice() == text)
}

// Whether a text's script is printed as a row says, and what is printed as itself.
fn is_printed(alloc: Global, text: &[u8], said: &str) -> Result<bool, Fail> {
    let first = printed(alloc, text)?;
    if !is_said(alloc, first.as_slice(), said)? {
        return Ok(false);
    }
    is_printed_again(alloc, first.as_slice())
}

// Whether a row's script is printed as the row says, and what is printed as itself.
fn holds(alloc: Global, row: &str) -> Result<bool, Fail> {
    match row.split_once(" -> ") {
        None => Ok(false),
        Some((text, said)) => {
            let text = spelled(alloc, text)?;
            is_printed(alloc, text.as_slice(), said)
        }
    }
}

#[test]
fn scripts_are_printed_and_read_again(rt: HostRuntime) -> Result<(), Fail> {
    for row in ROWS.lines() {
        assert!(rt; holds(rt.alloc(), row)?, "{row}");
    }
    Ok(())
}
