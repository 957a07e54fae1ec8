//! Shelves and sinks, in memory and over files, and texts that are read and written by pieces.

use checker_io::{
    DirShelf, Following, MemShelf, MemSink, OutSink, PIECE, Shelf, ShelfFault, Sink, SinkFault,
    Stop, read_content, readings_follow, write_text,
};
use script_names::{Bytes, Memory};
use std::alloc::Global;
use std::fs;
use std::io::{self, ErrorKind, Write};
use std::test::Fail;

// A name, a limit of bytes, and what a read answers.
type Read<'a> = (&'a str, usize, Result<&'a [u8], ShelfFault>);

// Whether a read answers so.
fn reads<S: Shelf>(alloc: Global, shelf: &mut S, row: &Read) -> bool {
    match shelf.read(alloc, row.0, row.1) {
        Ok(bytes) => row.2 == Ok(bytes.as_slice()),
        Err(fault) => row.2 == Err(fault),
    }
}

// Two files, one of them put twice, and the reads that fail.
fn fill(shelf: &mut MemShelf) -> Result<(), Memory> {
    shelf.put("p/list", b"xyz")?;
    shelf.put("p/empty", b"")?;
    shelf.put("p/list", b"wx")?;
    shelf.fail_at(3)?;
    shelf.fail_at(8)?;
    shelf.fail_at(8)
}

// Reads, one after the other.
const READS: &[Read] = &[
    ("p/list", 2, Ok(b"wx")),
    ("p/list", 1, Err(ShelfFault::TooLong)),
    ("p/list", 2, Err(ShelfFault::Failed)),
    ("p/lis", 2, Err(ShelfFault::Missing)),
    ("p/empty", 0, Ok(b"")),
    ("p/list", 0, Err(ShelfFault::TooLong)),
    ("p/list", 1_048_576, Ok(b"wx")),
    ("p/none", 2, Err(ShelfFault::Failed)),
    ("p/none", 2, Err(ShelfFault::Missing)),
];

#[test]
fn shelf_in_memory(rt: HostRuntime) -> Result<(), Fail> {
    let mut shelf = MemShelf::new(rt.alloc());
    fill(&mut shelf)?;
    for row in READS {
        assert!(rt; reads(rt.alloc(), &mut shelf, row), "{}", row.0);
    }
    Ok(())
}

// The writes that fail, and how many bytes are taken then.
fn let_fail(sink: &mut MemSink) -> Result<(), Memory> {
    sink.fail_at(2, 3)?;
    sink.fail_at(2, 1)?;
    sink.fail_at(4, 10)?;
    sink.fail_at(5, 0)
}

// A piece, what a write of it answers, and the bytes that are taken until then.
type Written = (&'static [u8], Result<(), SinkFault>, &'static [u8]);

// Writes, one after the other.
const WRITES: &[Written] = &[
    (b"hello ", Ok(()), b"hello "),
    (b"world", Err(SinkFault::Failed), b"hello wor"),
    (b"", Ok(()), b"hello wor"),
    (b"k", Err(SinkFault::Failed), b"hello work"),
    (b"s", Err(SinkFault::Failed), b"hello work"),
    (b"ed", Ok(()), b"hello worked"),
];

fn are_same(bytes: &[u8], others: &[u8]) -> bool {
    bytes == others
}

// Whether a write answers so.
fn takes(sink: &mut MemSink, row: &Written) -> bool {
    let answer = sink.write(row.0);
    answer == row.1 && are_same(sink.bytes(), row.2)
}

#[test]
fn sink_in_memory(rt: HostRuntime) -> Result<(), Fail> {
    let mut sink = MemSink::new(rt.alloc());
    let_fail(&mut sink)?;
    for row in WRITES {
        assert!(rt; takes(&mut sink, row), "{row:?}");
    }
    Ok(())
}

// A text of so many bytes.
fn long_text(alloc: Global, count: u32) -> Result<Bytes, Memory> {
    let mut text = Bytes::new(alloc);
    for place in 0..count {
        text.push((place % 251) as u8)?;
    }
    Ok(text)
}

// The write that fails and how many bytes it takes, and how many bytes of the text are taken.
type Taken = (Option<(u32, u32)>, usize);

// Writes of a text of 131,172 bytes.
const WHOLE: &[Taken] = &[
    (None, 131_172),
    (Some((1, 10)), 10),
    (Some((2, 10)), 65_546),
    (Some((2, 65_536)), 131_072),
    (Some((3, 0)), 131_072),
    (Some((3, 1_000)), 131_172),
];

// Whether a text is written up to there, with a fault where a write fails.
fn writes(alloc: Global, text: &[u8], row: &Taken) -> Result<bool, Memory> {
    let mut sink = MemSink::new(alloc);
    let mut want = Ok(());
    if let Some((number, count)) = row.0 {
        sink.fail_at(number, count)?;
        want = Err(SinkFault::Failed);
    }
    let answer = write_text(&mut sink, text);
    Ok(answer == want && sink.bytes().len() == row.1 && text.starts_with(sink.bytes()))
}

// Whether an empty text and a piece take one write.
fn empty_takes_no_write(alloc: Global, piece: &[u8]) -> Result<bool, Memory> {
    let mut sink = MemSink::new(alloc);
    sink.fail_at(2, 0)?;
    let none = write_text(&mut sink, b"");
    let one = write_text(&mut sink, piece);
    Ok(none == Ok(()) && one == Ok(()) && sink.bytes().len() == 65_536)
}

#[test]
fn pieces(rt: HostRuntime) -> Result<(), Fail> {
    let text = long_text(rt.alloc(), 131_172)?;
    for row in WHOLE {
        assert!(rt; writes(rt.alloc(), text.as_slice(), row)?, "{row:?}");
    }
    Ok(())
}

#[test]
fn one_piece(rt: HostRuntime) -> Result<(), Fail> {
    let text = long_text(rt.alloc(), 65_536)?;
    assert!(rt; PIECE == 65_536);
    assert!(rt; writes(rt.alloc(), text.as_slice(), &(Some((1, 65_535)), 65_535))?);
    assert!(rt; empty_takes_no_write(rt.alloc(), text.as_slice())?);
    Ok(())
}

// The content of a file, and then no further one.
struct Nothing;

impl Following<u8, u8, Option<Bytes>, u8> for Nothing {
    ghost use Rattle.std.specs.Prelude.{Ok};
    ghost use Rattle.checker_io.specs.Reading.{content, done};

    ghost first = { content 7 5 9 };

    ghost next = { λ _. done (Ok 1) };
}

// A name, a limit of bytes, and what a read of a content answers.
type Content = (
    &'static str,
    usize,
    Result<Option<&'static [u8]>, Stop<u8, u8>>,
);

// Reads, one after the other; the fourth fails.
const CONTENTS: &[Content] = &[
    ("p/postinst", 5, Ok(Some(b"true\n"))),
    ("p/postinst", 4, Err(Stop::Refused(9))),
    ("p/prerm", 5, Ok(None)),
    ("p/postinst", 5, Err(Stop::ReadFailed(7))),
];

// Whether a read of a content answers so.
fn has_content(alloc: Global, shelf: &mut MemShelf, row: &Content) -> bool {
    match read_content(alloc, shelf, 7u8, row.0, row.1, 9u8) {
        Ok(Some(bytes)) => row.2 == Ok(Some(bytes.as_slice())),
        Ok(None) => row.2 == Ok(None),
        Err(stop) => row.2 == Err(stop),
    }
}

#[test]
fn contents(rt: HostRuntime) -> Result<(), Fail> {
    readings_follow::<u8, u8, Option<Bytes>, u8, Nothing>();
    let mut shelf = MemShelf::new(rt.alloc());
    shelf.put("p/postinst", b"true\n")?;
    shelf.fail_at(4)?;
    for row in CONTENTS {
        assert!(rt; has_content(rt.alloc(), &mut shelf, row), "{}", row.0);
    }
    Ok(())
}

// Reads of files beside `written/short`, which has five bytes.
const FILES: &[Read] = &[
    ("written/short", 5, Ok(b"hello")),
    ("written/short", 4, Err(ShelfFault::TooLong)),
    ("written/short", usize::MAX, Ok(b"hello")),
    ("written/none", 5, Err(ShelfFault::Missing)),
    ("written", 5, Err(ShelfFault::Failed)),
    ("written/none/none", 5, Err(ShelfFault::Missing)),
    ("written/short/none", 5, Err(ShelfFault::Missing)),
    ("written/short/none/none", 5, Err(ShelfFault::Missing)),
    ("written/short/", 5, Err(ShelfFault::Missing)),
    ("/dev/zero", 10_000, Err(ShelfFault::TooLong)),
];

#[test]
fn real_files(rt: HostRuntime) -> Result<(), Fail> {
    let _made = fs::create_dir(&rt, "written");
    fs::write(&rt, "written/short", b"hello")?;
    let mut shelf = DirShelf::new(&rt);
    for row in FILES {
        assert!(rt; reads(rt.alloc(), &mut shelf, row), "{}", row.0);
    }
    Ok(())
}

#[test]
fn a_long_file_is_written(rt: HostRuntime) -> Result<(), Fail> {
    let text = long_text(rt.alloc(), 10_000)?;
    let _made = fs::create_dir(&rt, "written");
    let mut sink = OutSink::new(fs::create(&rt, "written/long")?);
    assert!(rt; write_text(&mut sink, text.as_slice()) == Ok(()));
    let mut shelf = DirShelf::new(&rt);
    assert!(rt;
        reads(
            rt.alloc(),
            &mut shelf,
            &("written/long", 10_000, Ok(text.as_slice()))
        )
    );
    let short = ("written/long", 9_999, Err(ShelfFault::TooLong));
    assert!(rt; reads(rt.alloc(), &mut shelf, &short));
    Ok(())
}

#[test]
fn a_file_that_is_read_takes_no_byte(rt: HostRuntime) -> Result<(), Fail> {
    let _made = fs::create_dir(&rt, "written");
    fs::write(&rt, "written/closed", b"hello")?;
    let mut closed = OutSink::new(fs::open(&rt, "written/closed")?);
    assert!(rt; closed.write(b"x") == Err(SinkFault::Failed));
    Ok(())
}

// Takes at most three bytes at a time, and none once it has no room. Its flush may fail.
#[derive(Drop)]
struct Narrow {
    room: usize,
    flushes: bool,
}

impl Write for Narrow {
    fn write(&mut self, buf: &[u8]) -> io::Result<usize> {
        let count = buf.len().min(3).min(self.room);
        self.room -= count;
        Ok(count)
    }

    fn flush(&mut self) -> io::Result<()> {
        if self.flushes {
            Ok(())
        } else {
            Err(io::Error::from(ErrorKind::BrokenPipe))
        }
    }
}

// A piece, the room of a writer, whether it flushes, and what a write of the piece answers.
type Flushed = (&'static [u8], usize, bool, Result<(), SinkFault>);

const NARROW: &[Flushed] = &[
    (b"hello", 5, true, Ok(())),
    (b"hello", 4, true, Err(SinkFault::Failed)),
    (b"hello", 5, false, Err(SinkFault::Failed)),
    (b"", 0, true, Ok(())),
];

// Whether a write answers so.
fn is_written(row: &Flushed) -> bool {
    let mut sink = OutSink::new(Narrow {
        room: row.1,
        flushes: row.2,
    });
    sink.write(row.0) == row.3
}

#[test]
fn narrow_writers(rt: HostRuntime) {
    for row in NARROW {
        assert!(rt; is_written(row), "room {}", row.1);
    }
}
