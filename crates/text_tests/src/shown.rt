//! Each text by hand, a row for each: a value with its text, or a text that no value has, and why.

use script_names::{Bytes, List, Mark, Memory, Name, NameFault, Reason, Site};
use shown_texts::{
    push_line, push_lines, push_mark, push_name, push_number, push_path, push_reason, push_shown,
    push_site, read_lines, read_mark, read_number, read_path, read_reason, read_shown, read_site,
    show,
};
use std::alloc::Global;
use std::test::Fail;

// Bytes, and how they are spelled.
const SHOWN: &[(&[u8], &[u8])] = &[
    (b"", b"\\e"),
    (b"a", b"a"),
    (b"\\e", b"\\x5ce"),
    (b"a b", b"a\\x20b"),
    (b"!~/", b"!~/"),
    (b"\x00\n\x7f\xff", b"\\x00\\x0a\\x7f\\xff"),
    (b"{,}(*)", b"\\x7b\\x2c\\x7d\\x28*\\x29"),
];

// Texts that spell no bytes.
const NOT_SHOWN: &[(&[u8], &str)] = &[
    (b"", "no bytes are `\\e`"),
    (b"a b", "a blank is escaped"),
    (b"a,b", "a comma is escaped"),
    (b"\\", "the escape is cut off"),
    (b"\\x2", "the escape is cut off"),
    (b"\\x41", "`A` stands for itself"),
    (b"\\x2C", "the digits are lower ones"),
    (b"\\y20", "the escape has another letter"),
    (b"\\ea", "`\\e` stands alone"),
    (b"a\\e", "`\\e` stands alone"),
];

// Bytes as `show` spells them behind a text, and read again.
fn is_shown(alloc: Global, bytes: &[u8], text: &[u8]) -> Result<bool, Memory> {
    let mut printed = Bytes::from_slice(alloc, b"- ")?;
    push_shown(&mut printed, bytes)?;
    let spelled = show(alloc, bytes)?;
    match read_shown(alloc, text)? {
        Some(read) => Ok(
            read.as_slice() == bytes
                && spelled.as_slice() == text
                && printed.as_slice().ends_with(text)
                && printed.len() == text.len() + 2,
        ),
        None => Ok(false),
    }
}

// Whether the text spells no bytes.
fn is_not_shown(alloc: Global, text: &[u8]) -> Result<bool, Memory> {
    Ok(read_shown(alloc, text)?.is_none())
}

#[test]
fn bytes_are_shown(rt: HostRuntime) {
    for row in SHOWN {
        assert!(rt;
            matches!(is_shown(rt.alloc(), row.0, row.1), Ok(true)),
            "{row:?}"
        );
    }
}

#[test]
fn other_texts_spell_no_bytes(rt: HostRuntime) {
    for row in NOT_SHOWN {
        assert!(rt;
            matches!(is_not_shown(rt.alloc(), row.0), Ok(true)),
            "{row:?}"
        );
    }
}

// A limit, a text, and the number that it is.
const NUMBERS: &[(u32, &[u8], Option<u32>)] = &[
    (9, b"0", Some(0)),
    (9, b"9", Some(9)),
    (9, b"10", None),
    (65535, b"65535", Some(65535)),
    (65535, b"65536", None),
    (4294967295, b"1048576", Some(1048576)),
    (4294967295, b"4294967295", Some(4294967295)),
    (4294967295, b"4294967296", None),
    (4294967295, b"99999999999999999999999999", None),
    (4294967295, b"", None),
    (4294967295, b"00", None),
    (4294967295, b"07", None),
    (4294967295, b"+7", None),
    (4294967295, b"-7", None),
    (4294967295, b"7 ", None),
    (4294967295, b"7a", None),
];

// A number as text.
fn number_text(alloc: Global, number: u64) -> Result<Bytes, Memory> {
    let mut printed = Bytes::new(alloc);
    push_number(&mut printed, number)?;
    Ok(printed)
}

// Whether the text of a row is read so, and is that of the number that is read, if one is.
fn is_number(alloc: Global, row: &(u32, &[u8], Option<u32>)) -> Result<bool, Memory> {
    let read = read_number(row.1, row.0);
    let printed = number_text(alloc, u64::from(read.unwrap_or(0)))?;
    Ok(read == row.2 && (printed.as_slice() == row.1) == read.is_some())
}

#[test]
fn numbers_are_decimal(rt: HostRuntime) -> Result<(), Fail> {
    for row in NUMBERS {
        assert!(rt; is_number(rt.alloc(), row)?, "{row:?}");
    }
    let longest = number_text(rt.alloc(), 18446744073709551615)?;
    assert!(rt; longest.as_slice() == b"18446744073709551615".as_slice());
    Ok(())
}

// A text, and how many lines it has.
const LINES: &[(&[u8], Option<usize>)] = &[
    (b"", Some(0)),
    (b"\n", Some(1)),
    (b"a\n", Some(1)),
    (b"a\n\n b\n", Some(3)),
    (b"a", None),
    (b"a\nb", None),
    (b"\n ", None),
];

// How many lines a text has.
fn line_count(alloc: Global, text: &[u8]) -> Result<Option<usize>, Memory> {
    match read_lines(alloc, text)? {
        Some(lines) => Ok(Some(lines.len())),
        None => Ok(None),
    }
}

#[test]
fn lines_end_in_newlines(rt: HostRuntime) -> Result<(), Fail> {
    for row in LINES {
        assert!(rt; line_count(rt.alloc(), row.0)? == row.1, "{row:?}");
    }
    Ok(())
}

// A line, and the lines of a list behind it.
fn lines_text(alloc: Global) -> Result<Bytes, Memory> {
    let mut lines = List::new(alloc);
    lines.add(Bytes::from_slice(alloc, b"a")?)?;
    lines.add(Bytes::new(alloc))?;
    let mut text = Bytes::new(alloc);
    push_line(&mut text, b" b")?;
    push_lines(&mut text, lines.as_slice())?;
    Ok(text)
}

#[test]
fn lines_are_printed_in_order(rt: HostRuntime) -> Result<(), Fail> {
    let text = lines_text(rt.alloc())?;
    assert!(rt; text.as_slice() == b" b\na\n\n".as_slice());
    Ok(())
}

// Two names, the path of both, and the path of the first alone.
const PATHS: &[(&[u8], &[u8], &[u8], &[u8])] = &[
    (b"srv", b"www", b"/srv/www", b"/srv"),
    (b"a b", b"{}", b"/a\\x20b/\\x7b\\x7d", b"/a\\x20b"),
    (b"\xff", b"...", b"/\\xff/...", b"/\\xff"),
];

// Texts that show no path.
const NOT_PATHS: &[(&[u8], &str)] = &[
    (b"", "no slash"),
    (b"srv", "no slash in front"),
    (b"/srv/", "a name without bytes behind the slash"),
    (b"//srv", "a name without bytes between the slashes"),
    (b"/\\e", "no bytes are no name"),
    (b"/.", "a dot is no name"),
    (b"/srv/..", "two dots are no name"),
    (b"/a b", "a blank is escaped"),
    (
        b"/a\\x2fb",
        "a slash stands for itself, and stands in no name",
    ),
    (b"/\\x00", "NUL stands in no name"),
];

// The path of one name.
fn path_text(alloc: Global, name: &[u8]) -> Result<Bytes, NameFault> {
    let mut names = List::new(alloc);
    names.add(Name::read(alloc, name)?)?;
    let mut text = Bytes::new(alloc);
    push_path(&mut text, names.as_slice())?;
    Ok(text)
}

// How many names the path has that a text shows.
fn name_count(alloc: Global, text: &[u8]) -> Result<Option<usize>, Memory> {
    match read_path(alloc, text)? {
        Some(names) => Ok(Some(names.len())),
        None => Ok(None),
    }
}

// Whether the path of the first name, and that of both, is shown so, and read again.
fn is_path(alloc: Global, row: &(&[u8], &[u8], &[u8], &[u8])) -> Result<bool, NameFault> {
    let mut text = path_text(alloc, row.0)?;
    if text.as_slice() != row.3 {
        return Ok(false);
    }
    let second = Name::read(alloc, row.1)?;
    push_name(&mut text, &second)?;
    Ok(text.as_slice() == row.2 && name_count(alloc, row.2)? == Some(2))
}

#[test]
fn paths_are_shown(rt: HostRuntime) {
    for row in PATHS {
        assert!(rt; matches!(is_path(rt.alloc(), row), Ok(true)), "{row:?}");
    }
}

#[test]
fn other_texts_show_no_path(rt: HostRuntime) -> Result<(), Fail> {
    for row in NOT_PATHS {
        assert!(rt; name_count(rt.alloc(), row.0)?.is_none(), "{row:?}");
    }
    Ok(())
}

// Whether the path without names is a slash, and a slash is shown for it alone.
fn root_is_a_slash(alloc: Global) -> Result<bool, Memory> {
    let mut text = Bytes::new(alloc);
    push_path(&mut text, &[])?;
    Ok(text.as_slice() == b"/".as_slice() && name_count(alloc, b"/")? == Some(0))
}

#[test]
fn the_root_is_a_slash(rt: HostRuntime) {
    assert!(rt; matches!(root_is_a_slash(rt.alloc()), Ok(true)));
}

// A site, its text, a row, and the text of the mark.
const MARKS: &[(u16, u32, &[u8], u8, &[u8])] = &[
    (3, 17, b"3:17", 67, b"3:17:67"),
    (0, 0, b"0:0", 0, b"0:0:0"),
    (
        65535,
        4294967295,
        b"65535:4294967295",
        255,
        b"65535:4294967295:255",
    ),
];

// Texts that are neither a site nor a mark.
const NOT_MARKS: &[(&[u8], &str)] = &[
    (b"", "no numbers"),
    (b"3", "one number"),
    (b"3:", "no number behind the colon"),
    (b":17", "no number before the colon"),
    (b"3::17", "no number between the colons"),
    (b"03:17", "a leading 0"),
    (b"3: 17", "a blank"),
    (b"65536:0", "no u16"),
    (b"0:4294967296", "no u32"),
    (b"3:17:256", "no u8"),
    (b"3:17:67:1", "four numbers"),
];

// Whether a site has this text, and is read from it.
fn is_site(alloc: Global, site: Site, wanted: &[u8]) -> Result<bool, Memory> {
    let mut text = Bytes::new(alloc);
    push_site(&mut text, site)?;
    Ok(text.as_slice() == wanted && read_site(alloc, wanted)? == Some(site))
}

// Whether a mark has this text, and is read from it.
fn is_mark(alloc: Global, mark: Mark, wanted: &[u8]) -> Result<bool, Memory> {
    let mut text = Bytes::new(alloc);
    push_mark(&mut text, mark)?;
    Ok(text.as_slice() == wanted && read_mark(alloc, wanted)? == Some(mark))
}

// Whether the site and the mark of a row have its texts.
fn are_shown(alloc: Global, row: &(u16, u32, &[u8], u8, &[u8])) -> Result<bool, Memory> {
    let site = Site {
        step: row.0,
        at: row.1,
    };
    let mark = Mark { site, row: row.3 };
    Ok(is_site(alloc, site, row.2)? && is_mark(alloc, mark, row.4)?)
}

// Whether a text is neither that of a site nor that of a mark.
fn is_neither(alloc: Global, text: &[u8]) -> Result<bool, Memory> {
    Ok(read_site(alloc, text)?.is_none() && read_mark(alloc, text)?.is_none())
}

#[test]
fn sites_and_marks_are_numbers(rt: HostRuntime) {
    for row in MARKS {
        assert!(rt; matches!(are_shown(rt.alloc(), row), Ok(true)), "{row:?}");
    }
}

#[test]
fn other_texts_are_no_site_and_no_mark(rt: HostRuntime) {
    for row in NOT_MARKS {
        assert!(rt;
            matches!(is_neither(rt.alloc(), row.0), Ok(true)),
            "{row:?}"
        );
    }
}

// Names, and the reasons that have them.
const REASONS: &[(&[u8], Option<Reason>)] = &[
    (b"call", Some(Reason::Call)),
    (b"link", Some(Reason::Link)),
    (b"dotdot", Some(Reason::DotDot)),
    (b"dot", Some(Reason::Dot)),
    (b"conffile", Some(Reason::Conffile)),
    (b"restore", Some(Reason::Restore)),
    (b"", None),
    (b"Link", None),
    (b"link ", None),
    (b"lin", None),
];

// Whether the text is the name of this reason, which is printed so.
fn is_reason(alloc: Global, text: &[u8], wanted: Option<Reason>) -> Result<bool, Memory> {
    match read_reason(text) {
        None => Ok(wanted.is_none()),
        Some(reason) => {
            let mut printed = Bytes::new(alloc);
            push_reason(&mut printed, reason)?;
            Ok(wanted == Some(reason) && printed.as_slice() == text)
        }
    }
}

#[test]
fn reasons_have_names(rt: HostRuntime) {
    for row in REASONS {
        assert!(rt;
            matches!(is_reason(rt.alloc(), row.0, row.1), Ok(true)),
            "{row:?}"
        );
    }
}
