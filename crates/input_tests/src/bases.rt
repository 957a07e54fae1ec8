//! Bases by hand, a row for each: a text, and the line at fault with its why, or none.

use crate::lists::place;
use script_names::{Bytes, Memory};
use std::alloc::Global;
use std::test::Fail;
use system_base::read_base;

// Lines that say what stands where, and of stated calls that succeed or fail: a text, and the line at fault
// with its why, or none.
const BASES: &[(&[u8], u64, u8)] = &[
    (b"", 0, 0),
    (b"dir /a\nfile /b/c\nabsent /d\nnodir /e f\nfits\n", 0, 0),
    (b"\n# x\n#\nfits", 0, 0),
    (b"dir /a\ndir /a\nabsent /a\n", 0, 0),
    (b"dir", 1, 1),
    (b"dir ", 1, 1),
    (b"dir /", 1, 1),
    (b"dir /a/", 1, 1),
    (b"dir a", 1, 1),
    (b"dir  /a", 1, 1),
    (b"Dir /a", 1, 1),
    (b" # x", 1, 1),
    (b"fits ", 1, 1),
    (b"link /a", 1, 1),
    (b"fits\nfits\nx\ny", 3, 1),
    (b"own", 0, 0),
    (b"own\nown\nfits\nown\n", 0, 0),
    (b"own ", 1, 1),
    (b" own", 1, 1),
    (b"Own", 1, 1),
    (b"call ldconfig ok", 0, 0),
    (b"call ldconfig fails\n", 0, 0),
    (b"call a ok\ncall b fails\ncall c ok\n", 0, 0),
    (b"call . ok\ncall command ok\ncall /usr/bin/x ok\n", 0, 0),
    (
        b"call x=y ok\ncall # ok\ncall \xc3\xa9 ok\ncall a\\b fails\n",
        0,
        0,
    ),
    (
        b"call true2 ok\ncall TRUE ok\ncall testing ok\ncall rm- ok\n",
        0,
        0,
    ),
    (b"call", 1, 1),
    (b"call ", 1, 1),
    (b"call a", 1, 1),
    (b"call a ", 1, 1),
    (b"call  ok", 1, 1),
    (b"call a  ok", 1, 1),
    (b"call a ok ", 1, 1),
    (b"call a b ok", 1, 1),
    (b"call a OK", 1, 1),
    (b"call a okay", 1, 1),
    (b"call a fail", 1, 1),
    (b"call a true", 1, 1),
    (b"call a\tok", 1, 1),
    (b"call a\tb ok", 1, 1),
    (b"call a\0b ok", 1, 1),
    (b"Call a ok", 1, 1),
    (b"callx a ok", 1, 1),
    (b"call true ok", 1, 1),
    (b"call : fails", 1, 1),
    (b"call false ok", 1, 1),
    (b"call echo ok", 1, 1),
    (b"call mkdir ok", 1, 1),
    (b"call rmdir fails", 1, 1),
    (b"call rm ok", 1, 1),
    (b"call touch ok", 1, 1),
    (b"call ln ok", 1, 1),
    (b"call mv ok", 1, 1),
    (b"call test ok", 1, 1),
    (b"call [ ok", 1, 1),
    (b"call break ok", 1, 1),
    (b"call continue ok", 1, 1),
    (b"call exit ok", 1, 1),
    (b"call return ok", 1, 1),
    (b"call set ok", 1, 1),
    (b"call export ok", 1, 1),
    (b"call unset fails", 1, 1),
    (b"call a ok\ncall a ok\n", 2, 2),
    (b"call a ok\nfits\n\ncall a fails\n", 4, 2),
    (b"call a ok\ncall b ok\ncall c ok\ncall b ok\nx", 4, 2),
    (b"call a ok\nx\ncall a ok\n", 2, 1),
    (b"call a ok\ncall a maybe\n", 2, 1),
    (b"call mkdir ok\ncall mkdir ok\n", 1, 1),
];

// Lines of links.
const LINKS: &[(&[u8], u64, u8)] = &[
    (b"link", 1, 1),
    (b"link ", 1, 1),
    (b"link /a", 1, 1),
    (b"link\t/a b", 1, 1),
    (b"Link /a b", 1, 1),
    (b" link /a b", 1, 1),
    (b"links /a b", 1, 1),
    (b"link  /a b", 1, 1),
    (b"link a b", 1, 1),
    (b"link / b", 1, 1),
    (b"link /a/ b", 1, 1),
    (b"link //a b", 1, 1),
    (b"link /a/../b c", 1, 1),
    (b"link /a/. c", 1, 1),
    (b"link /a\0 b", 1, 1),
    (b"link b usr//b", 1, 1),
    (b"link /a ", 1, 2),
    (b"link /a /", 1, 2),
    (b"link /a usr//bin", 1, 2),
    (b"link /a //usr/bin", 1, 2),
    (b"link /a usr/bin/", 1, 2),
    (b"link /a /usr/bin/", 1, 2),
    (b"link /a .", 1, 2),
    (b"link /a ..", 1, 2),
    (b"link /a ./usr", 1, 2),
    (b"link /a ../usr", 1, 2),
    (b"link /a/b ../c", 1, 2),
    (b"link /a usr/./bin", 1, 2),
    (b"link /a usr/../bin", 1, 2),
    (b"link /a b\0", 1, 2),
    (b"link /a b", 0, 0),
    (b"link /a /b\n", 0, 0),
    (b"link /bin usr/bin", 0, 0),
    (b"link /bin /usr/bin", 0, 0),
    (b"link /a b c", 0, 0),
    (b"link /a  b", 0, 0),
    (b"link /a b ", 0, 0),
    (b"link /a b # c", 0, 0),
    (b"link /a -> b", 0, 0),
    (b"link /a\tb c", 0, 0),
    (b"link /a ...", 0, 0),
    (b"link /a .b/..c", 0, 0),
    (b"link /a a", 0, 0),
    (b"link /a b\nlink /a b\nlink /a c\n", 0, 0),
    (b"link /a b\nlink /c .\nlink d e\n", 2, 2),
    (b"link /a b\nlink d e\nlink /c .\n", 2, 1),
    (b"dir /a\nlink /a b\nx", 3, 1),
];

// Links by how many names `/n` stand in their path and in their target: what stands before the names of the path,
// between the two and behind, and the why, or none.
const LONG_LINKS: &[(&[u8], usize, &[u8], usize, &[u8], u8)] = &[
    (b"link ", 1, b" n", 63, b"", 0),
    (b"link ", 1, b" n", 64, b"", 2),
    (b"link ", 1, b" ", 64, b"", 0),
    (b"link ", 1, b" ", 65, b"", 2),
    (b"link ", 2, b" n", 62, b"", 0),
    (b"link ", 2, b" n", 63, b"", 2),
    (b"link ", 2, b" ", 64, b"", 0),
    (b"link ", 64, b" n", 0, b"", 0),
    (b"link ", 64, b" n", 1, b"", 2),
    (b"link ", 64, b" ", 64, b"", 0),
    (b"link ", 65, b" n", 0, b"", 1),
    (b"link ", 1, b" n", 62, b"/.", 2),
    (b"own ", 64, b"", 0, b"", 0),
    (b"own ", 65, b"", 0, b"", 1),
    (b"call a asks ", 64, b"", 0, b"", 0),
    (b"call a asks ", 65, b"", 0, b"", 1),
    (b"dir ", 64, b"", 0, b"", 0),
    (b"dir ", 65, b"", 0, b"", 1),
];

// Calls that ask a path.
const ASKED: &[(&[u8], u64, u8)] = &[
    (b"call a asks /b", 0, 0),
    (b"call a asks /b/c d\n", 0, 0),
    (b"call a asks /b ", 0, 0),
    (b"call a asks /b # c", 0, 0),
    (b"call asks asks /b", 0, 0),
    (b"call a asks", 1, 1),
    (b"call a asks ", 1, 1),
    (b"call asks /b", 1, 1),
    (b"call a asks b", 1, 1),
    (b"call a asks /", 1, 1),
    (b"call a asks /b/", 1, 1),
    (b"call a asks //b", 1, 1),
    (b"call a asks  /b", 1, 1),
    (b"call a  asks /b", 1, 1),
    (b"call  asks /b", 1, 1),
    (b"call a b asks /c", 1, 1),
    (b"call a asks /b/../c", 1, 1),
    (b"call a asks /b\0", 1, 1),
    (b"call a Asks /b", 1, 1),
    (b"call a ask /b", 1, 1),
    (b"call a asks\t/b", 1, 1),
    (b"call a asks/b", 1, 1),
    (b"call a ok /b", 1, 1),
    (b"call rm asks /b", 1, 1),
    (b"call a asks /b\ncall c asks /b\n", 0, 0),
    (b"call a asks /b\ncall a asks /b\n", 2, 2),
    (b"call a ok\ncall a asks /b\n", 2, 2),
    (b"call a asks /b\n\ncall a fails\n", 3, 2),
    (b"call a asks /b\ncall a asks b\n", 2, 1),
];

// Names of utilities that change the shell itself, and others.
const SHELL_NAMES: &[(&[u8], u64, u8)] = &[
    (b"call cd ok", 1, 1),
    (b"call shift ok", 1, 1),
    (b"call exec ok", 1, 1),
    (b"call eval ok", 1, 1),
    (b"call local ok", 1, 1),
    (b"call read ok", 1, 1),
    (b"call trap ok", 1, 1),
    (b"call readonly ok", 1, 1),
    (b"call getopts ok", 1, 1),
    (b"call cd fails", 1, 1),
    (b"call trap asks /a", 1, 1),
    (b"call a ok\ncall read fails\n", 2, 1),
    (
        b"call cd2 ok\ncall CD ok\ncall readarray ok\ncall unread ok\n",
        0,
        0,
    ),
    (
        b"call . ok\ncall command ok\ncall umask ok\ncall times ok\n",
        0,
        0,
    ),
];

// Lines of one word, and folders of the package.
const WORDS: &[(&[u8], u64, u8)] = &[
    (b"runs", 0, 0),
    (b"removed\n", 0, 0),
    (b"plain", 0, 0),
    (b"versions", 0, 0),
    (
        b"runs\nremoved\nplain\nversions\nversions\nplain\nremoved\nruns\n",
        0,
        0,
    ),
    (b"plain \n", 1, 1),
    (b"plains", 1, 1),
    (b"Plain", 1, 1),
    (b"runs ", 1, 1),
    (b"run", 1, 1),
    (b"Runs", 1, 1),
    (b"runs /a", 1, 1),
    (b"removed /a", 1, 1),
    (b"remove", 1, 1),
    (b"plain\t", 1, 1),
    (b" plain", 1, 1),
    (b"plain /a", 1, 1),
    (b"version", 1, 1),
    (b"versions 1", 1, 1),
    (b"own /usr", 0, 0),
    (b"own /usr\nown\nown /usr\nown /usr/lib\n", 0, 0),
    (b"own /a b", 0, 0),
    (b"own /a ", 0, 0),
    (b"own /", 1, 1),
    (b"own /usr/", 1, 1),
    (b"own usr", 1, 1),
    (b"own  /usr", 1, 1),
    (b"own\t/usr", 1, 1),
    (b"own /usr/..", 1, 1),
    (b"owner /usr", 1, 1),
    (b"own /usr\nown /\n", 2, 1),
];

// A base with a line of each form.
const EACH: &[&[u8]] = &[
    b"dir /a\n",
    b"file /b\n",
    b"absent /c\n",
    b"nodir /d\n",
    b"link /e f\n",
    b"fits\n",
    b"own\n",
    b"own /g\n",
    b"call h ok\n",
    b"call i fails\n",
    b"call j asks /k\n",
    b"runs\n",
    b"removed\n",
    b"versions\n",
    b"plain\n",
    b"# l\n",
    b"\n",
];

// The line at fault in a base, and its why.
fn base_fault(alloc: Global, text: &[u8]) -> (u64, u8) {
    match read_base(alloc, text) {
        Ok(_) => (0, 0),
        Err(fault) => place(fault),
    }
}

// The number, from 1, of the first row of a table that is answered otherwise; 0 where none is.
fn wrong_row(alloc: Global, rows: &[(&[u8], u64, u8)]) -> usize {
    for k in 0..rows.len() {
        let row = &rows[k];
        if base_fault(alloc, row.0) != (row.1, row.2) {
            return k + 1;
        }
    }
    0
}

#[test]
fn bases_have_faults(rt: HostRuntime) -> Result<(), Fail> {
    assert_eq!(rt; wrong_row(rt.alloc(), BASES), 0);
    assert_eq!(rt; wrong_row(rt.alloc(), LINKS), 0);
    assert_eq!(rt; wrong_row(rt.alloc(), ASKED), 0);
    assert_eq!(rt; wrong_row(rt.alloc(), SHELL_NAMES), 0);
    assert_eq!(rt; wrong_row(rt.alloc(), WORDS), 0);
    Ok(())
}

// A text with names: what stands before them, names, what stands between, names, and what stands behind.
fn named(alloc: Global, row: &(&[u8], usize, &[u8], usize, &[u8], u8)) -> Result<Bytes, Memory> {
    let mut text = Bytes::from_slice(alloc, row.0)?;
    push_names(&mut text, row.1)?;
    text.extend(row.2)?;
    push_names(&mut text, row.3)?;
    text.extend(row.4)?;
    Ok(text)
}

fn push_names(text: &mut Bytes, count: usize) -> Result<(), Memory> {
    for _ in 0..count {
        text.extend(b"/n")?;
    }
    Ok(())
}

#[test]
fn paths_and_places_have_64_names_at_most(rt: HostRuntime) -> Result<(), Fail> {
    for row in LONG_LINKS {
        let text = named(rt.alloc(), row)?;
        let line = if row.5 == 0 { 0 } else { 1 };
        assert_eq!(rt;
            base_fault(rt.alloc(), text.as_slice()),
            (line, row.5),
            "{:?}",
            text.as_slice()
        );
    }
    Ok(())
}

// A line of names of so many bytes, between what stands before and behind them.
fn long_name(alloc: Global, front: &[u8], count: usize, back: &[u8]) -> Result<Bytes, Memory> {
    let mut text = Bytes::from_slice(alloc, front)?;
    for _ in 0..count {
        text.push(b'n')?;
    }
    text.extend(back)?;
    Ok(text)
}

// Lines with one name of any length, and the why of one of 256 bytes.
const LONG_NAMES: &[(&[u8], &[u8], u8)] = &[
    (b"call ", b" ok", 1),
    (b"call ", b" asks /a", 1),
    (b"call a asks /", b"", 1),
    (b"link /", b" a", 1),
    (b"link /a ", b"", 2),
    (b"link /a b/", b"/c", 2),
    (b"own /", b"", 1),
    (b"dir /a/", b"", 1),
];

#[test]
fn names_have_255_bytes_at_most(rt: HostRuntime) -> Result<(), Fail> {
    for row in LONG_NAMES {
        let longest = long_name(rt.alloc(), row.0, 255, row.1)?;
        assert_eq!(rt;
            base_fault(rt.alloc(), longest.as_slice()),
            (0, 0),
            "{:?}",
            row.0
        );
        let longer = long_name(rt.alloc(), row.0, 256, row.1)?;
        assert_eq!(rt;
            base_fault(rt.alloc(), longer.as_slice()),
            (1, row.2),
            "{:?}",
            row.0
        );
    }
    Ok(())
}

// The lines of `EACH` with one more behind so many of them.
fn with_line_at(alloc: Global, at: usize, line: &[u8]) -> Result<Bytes, Memory> {
    let mut text = Bytes::new(alloc);
    for k in 0..EACH.len() {
        if k == at {
            text.extend(line)?;
        }
        text.extend(EACH[k])?;
    }
    if at == EACH.len() {
        text.extend(line)?;
    }
    Ok(text)
}

// A line, and the why of its fault, in any place.
const ANYWHERE: &[(&[u8], u8)] = &[
    (b"link /m n\n", 0),
    (b"link /m ./n\n", 2),
    (b"link m n\n", 1),
    (b"call m asks /n\n", 0),
    (b"own /m\n", 0),
    (b"runs\n", 0),
    (b"plain\n", 0),
];

#[test]
fn lines_may_stand_in_any_place(rt: HostRuntime) -> Result<(), Fail> {
    for row in ANYWHERE {
        for at in 0..18usize {
            let text = with_line_at(rt.alloc(), at, row.0)?;
            let line = if row.1 == 0 { 0 } else { at as u64 + 1 };
            assert_eq!(rt;
                base_fault(rt.alloc(), text.as_slice()),
                (line, row.1),
                "{:?} {}",
                row.0,
                at
            );
        }
    }
    Ok(())
}
