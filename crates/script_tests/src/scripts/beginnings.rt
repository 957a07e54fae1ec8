//! The usual template of a maintainer script, cut off behind each of its bytes, with what is answered by hand.

use crate::readings::{ReadFault, read};
use shell_grammar::ParseFault;
use std::alloc::Global;
use std::test::Fail;

const TEMPLATE: &str = r#"#!/bin/sh
set -e
case "$1" in
  configure)
    mkdir -p /var/lib/foo
  ;;
  abort-upgrade|abort-remove|abort-deconfigure)
  ;;
  *)
    echo "postinst called with unknown argument \`$1'" >&2
    exit 1
  ;;
esac
exit 0
"#;

#[derive(Clone, Copy, PartialEq, Eq)]
enum Answer {
    NoTokens,
    Script,
    Syntax(u32),
    Other,
}

// What the first `count` bytes are read as: up to 8 the first line is cut off, from 23 to 25 and from 142 to 185 a
// quote is open, behind 187 the redirection is cut off; a script ends from 9 to 20 and behind `esac`; `i` is no `in`,
// and `;` no `;;`.
fn wanted(count: u32) -> Answer {
    match count {
        0..=8 | 23..=25 | 142..=185 | 188..=189 => Answer::NoTokens,
        9..=20 | 211..=219 => Answer::Script,
        28 => Answer::Syntax(27),
        72 => Answer::Syntax(71),
        125 => Answer::Syntax(124),
        205 => Answer::Syntax(204),
        _ => Answer::Syntax(count),
    }
}

fn answered(alloc: Global, text: &[u8]) -> Answer {
    match read(alloc, text) {
        Ok(_) => Answer::Script,
        Err(ReadFault::Cut(_)) => Answer::NoTokens,
        Err(ReadFault::Tokens(ParseFault::Syntax { at })) => Answer::Syntax(at),
        Err(_) => Answer::Other,
    }
}

// Whether so many bytes are read as they should.
fn holds(alloc: Global, count: u32) -> bool {
    let got = match TEMPLATE.as_bytes().get(..count as usize) {
        Some(front) => answered(alloc, front),
        None => Answer::Other,
    };
    got == wanted(count)
}

#[test]
fn beginnings_have_their_places(rt: HostRuntime) -> Result<(), Fail> {
    assert!(rt; TEMPLATE.len() == 219);
    for count in 0u32..220 {
        assert!(rt; holds(rt.alloc(), count), "{count}");
    }
    Ok(())
}
