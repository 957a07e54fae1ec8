use script_names::{Bytes, Memory};
use script_places::{line_count, position_of, source_line};
use std::alloc::Global;
use std::test::Fail;

// A text, a byte of it, and the line and the column.
const POSITIONS: &[(&[u8], usize, usize, usize)] = &[
    (b"", 0, 1, 1),
    (b"a\nbc\n", 0, 1, 1),
    (b"a\nbc\n", 1, 1, 2),
    (b"a\nbc\n", 2, 2, 1),
    (b"a\nbc\n", 3, 2, 2),
    (b"a\nbc\n", 5, 3, 1),
    (b"a\nbc", 9, 2, 3),
    (b"\tx", 1, 1, 2),
    (b"# a\r\nb", 5, 2, 1),
    (b"a \\\nb c", 4, 2, 1),
    (b"a \\\nb c", 6, 2, 3),
    (b"cat <<E\nx\nE\nb", 12, 4, 1),
    (b"\xc3\xa9x", 2, 1, 2),
    (b"\xc3\xa9x", 1, 1, 1),
    (b"\xe2\x82\xacx", 3, 1, 2),
    (b"\xe2\x82\xacx", 2, 1, 1),
    (b"\xf0\x9f\x98\x80x", 4, 1, 2),
    (b"\xe2\x82x", 2, 1, 3),
    (b"\xed\xa0\x80x", 3, 1, 4),
    (b"\xc0\xafx", 2, 1, 3),
    (b"\xff\xfex", 2, 1, 3),
    (b"\xe2\x82\xac\n\xe2\x82\xacx", 7, 2, 2),
];

#[test]
fn a_byte_has_a_line_and_a_column(rt: HostRuntime) -> Result<(), Fail> {
    for row in POSITIONS {
        let place = position_of(row.0, row.1);
        assert!(rt; place.line == row.2 && place.column == row.3, "{row:?}");
    }
    Ok(())
}

// A text, and how many lines it has.
const LINES: &[(&[u8], usize)] = &[(b"", 0), (b"a", 1), (b"a\n", 1), (b"a\nb", 2), (b"\n\n", 2)];

#[test]
fn a_last_line_may_lack_its_newline(rt: HostRuntime) -> Result<(), Fail> {
    for row in LINES {
        assert!(rt; line_count(row.0) == row.1, "{row:?}");
    }
    Ok(())
}

// A script, a byte of it, the line as it is shown, the columns before the command, and those of the command.
const SHOWN: &[(&[u8], usize, &[u8], usize, usize)] = &[
    (b"rm -f /etc/inputrc\n", 0, b"rm -f /etc/inputrc", 0, 18),
    (b"a; rm -f b # c", 3, b"a; rm -f b # c", 3, 7),
    (b"x\n\trm -f a\ny", 3, b"    rm -f a", 4, 7),
    (b"a\tb c\n", 2, b"a   b c", 4, 3),
    (b"  abc\ta", 2, b"  abc   a", 2, 7),
    (b"# x\r\nb\n", 5, b"b", 0, 1),
    (b"# x\r\nb\n", 0, b"# x\\x0d", 0, 1),
    (b"echo \xc3\xa9; rm b\n", 9, b"echo \xc3\xa9; rm b", 8, 4),
    (b"echo \xe2\x82\xac b\n", 0, b"echo \xe2\x82\xac b", 0, 8),
    (b"a \xe2\x80\xae b\n", 0, b"a \\xe2\\x80\\xae b", 0, 16),
    (b"a \xff\x1b[1m\n", 0, b"a \\xff\\x1b[1m", 0, 13),
    (b"a \xef\xbb\xbf", 0, b"a \\xef\\xbb\\xbf", 0, 14),
    (b"rm a \\\n  b\n", 0, b"rm a \\", 0, 6),
    (b"rm a \\\n  b\n", 9, b"  b", 2, 1),
    (b"\n", 0, b"", 0, 1),
    (b"a", 9, b"a", 1, 1),
];

// Whether the line of a row is shown so.
fn is_shown(alloc: Global, row: &(&[u8], usize, &[u8], usize, usize)) -> Result<bool, Memory> {
    let line = source_line(alloc, row.0, row.1)?;
    Ok(line.text.as_slice() == row.2 && line.before == row.3 && line.marked == row.4)
}

#[test]
fn a_line_is_shown_with_its_command(rt: HostRuntime) -> Result<(), Fail> {
    for row in SHOWN {
        assert!(rt; is_shown(rt.alloc(), row)?, "{row:?}");
    }
    Ok(())
}

// Adds a byte so many times.
fn push_many(text: &mut Bytes, byte: u8, count: usize) -> Result<(), Memory> {
    for _ in 0..count {
        text.push(byte)?;
    }
    Ok(())
}

// Whether a line of 10,000 bytes is cut round a command in its middle, and one of 101 behind its begin.
fn are_cut(alloc: Global) -> Result<bool, Memory> {
    let mut script = Bytes::from_slice(alloc, b"# a\n")?;
    push_many(&mut script, b'a', 4998)?;
    script.extend(b"; rm b; echo ")?;
    push_many(&mut script, b'c', 4989)?;
    let mut shown = Bytes::from_slice(alloc, b"[..] ")?;
    push_many(&mut shown, b'a', 38)?;
    shown.extend(b"; rm b; echo ")?;
    push_many(&mut shown, b'c', 49)?;
    shown.extend(b" [..]")?;
    let middle = source_line(alloc, script.as_slice(), 5004)?;
    let mut long = Bytes::new(alloc);
    push_many(&mut long, b'a', 101)?;
    let begin = source_line(alloc, long.as_slice(), 0)?;
    Ok(
        middle.text.equal(&shown)
            && middle.before == 45
            && middle.marked == 4
            && begin.text.len() == 65
            && begin.marked == 60,
    )
}

#[test]
fn a_long_line_is_cut(rt: HostRuntime) -> Result<(), Fail> {
    assert!(rt; are_cut(rt.alloc())?);
    Ok(())
}
