//! What bases say, by hand, told as a text.

use package_lists::path_text;
use script_names::{Bytes, Memory, Path};
use std::alloc::Global;
use std::test::Fail;
use system_base::{Base, base_paths, read_base};
use utility_calls::CallEnd;

// Bases and what they say: for each known path its kinds as eight digits and the path, for each link its path, its
// target and its place, for each folder of the package its path, for each call its name and how it ends, and the words.
const TOLD: &[(&[u8], &[u8])] = &[
    (b"", b""),
    (b"link /bin usr/bin\n", b"link /bin|usr/bin|/usr/bin\n"),
    (b"link /a/b/c d/e", b"link /a/b/c|d/e|/a/b/d/e\n"),
    (b"link /a/b/c /d/e", b"link /a/b/c|/d/e|/d/e\n"),
    (b"link /a /a", b"link /a|/a|/a\n"),
    (
        b"link /c d\nlink /a b c\nlink /c e\n",
        b"link /c|d|/d\nlink /a|b c|/b c\nlink /c|e|/e\n",
    ),
    (b"own", b"own \n"),
    (
        b"own /usr\nown\nown /usr/lib\n",
        b"own /usr\nown \nown /usr/lib\n",
    ),
    (b"own /a ", b"own /a \n"),
    (
        b"call b asks /c d\ncall a ok\ncall c fails\n",
        b"call b asks /c d\ncall a ok\ncall c fails\n",
    ),
    (b"runs", b"runs\n"),
    (b"removed", b"removed\n"),
    (b"versions", b"versions\n"),
    (b"plain", b"plain\n"),
    (
        b"plain\nown /usr\nplain\nversions\n",
        b"own /usr\nversions\nplain\n",
    ),
    (b"fits", b"fits\n"),
    (
        b"versions\nfits\nruns\nremoved\nruns\n",
        b"fits\nruns\nremoved\nversions\n",
    ),
    (
        b"runs\nfile /z\nown /y\ncall x ok\nlink /w v\ndir /u\n",
        b"file /z\ndir /u\nlink /w|v|/v\nown /y\ncall x ok\nruns\n",
    ),
    (b"absent /a\nnodir /b c\n", b"absent /a\nnodir /b c\n"),
];

fn push_path(alloc: Global, text: &mut Bytes, path: &Path) -> Result<(), Memory> {
    let path = path_text(alloc, path.names())?;
    text.extend(path.as_slice())
}

fn push_known(alloc: Global, text: &mut Bytes, base: &Base) -> Result<(), Memory> {
    for one in base.known.as_slice() {
        let word: &[u8] = match (one.kinds.dir, one.kinds.reg, one.kinds.link) {
            (true, false, false) => b"dir ",
            (false, true, false) => b"file ",
            (false, false, false) => b"absent ",
            (false, true, true) => b"nodir ",
            _ => b"other ",
        };
        text.extend(word)?;
        push_path(alloc, text, &one.path)?;
        text.push(b'\n')?;
    }
    Ok(())
}

fn push_links(alloc: Global, text: &mut Bytes, base: &Base) -> Result<(), Memory> {
    for link in base.links.as_slice() {
        text.extend(b"link ")?;
        push_path(alloc, text, link.at())?;
        text.push(b'|')?;
        text.extend(link.target())?;
        text.push(b'|')?;
        push_path(alloc, text, link.place())?;
        text.push(b'\n')?;
    }
    Ok(())
}

fn push_own(alloc: Global, text: &mut Bytes, base: &Base) -> Result<(), Memory> {
    for path in base.own.as_slice() {
        text.extend(b"own ")?;
        push_path(alloc, text, path)?;
        text.push(b'\n')?;
    }
    Ok(())
}

fn push_calls(alloc: Global, text: &mut Bytes, base: &Base) -> Result<(), Memory> {
    for call in base.calls.as_slice() {
        text.extend(b"call ")?;
        text.extend(call.name.as_slice())?;
        match &call.end {
            CallEnd::Succeeds => text.extend(b" ok")?,
            CallEnd::Fails => text.extend(b" fails")?,
            CallEnd::Asks(path) => {
                text.extend(b" asks ")?;
                push_path(alloc, text, path)?;
            }
        }
        text.push(b'\n')?;
    }
    Ok(())
}

fn push_words(text: &mut Bytes, base: &Base) -> Result<(), Memory> {
    let words: &[(bool, &[u8])] = &[
        (base.fits, b"fits\n"),
        (base.runs, b"runs\n"),
        (base.removed, b"removed\n"),
        (base.versions, b"versions\n"),
        (base.plain, b"plain\n"),
    ];
    for word in words {
        if word.0 {
            text.extend(word.1)?;
        }
    }
    Ok(())
}

// What a base says, as a text.
fn told(alloc: Global, base: &Base) -> Result<Bytes, Memory> {
    let mut text = Bytes::new(alloc);
    push_known(alloc, &mut text, base)?;
    push_links(alloc, &mut text, base)?;
    push_own(alloc, &mut text, base)?;
    push_calls(alloc, &mut text, base)?;
    push_words(&mut text, base)?;
    Ok(text)
}

// Whether a base is read, and says this.
fn tells(alloc: Global, text: &[u8], wanted: &[u8]) -> Result<bool, Memory> {
    match read_base(alloc, text) {
        Ok(base) => {
            let said = told(alloc, &base)?;
            Ok(said.as_slice() == wanted)
        }
        Err(_) => Ok(false),
    }
}

#[test]
fn bases_say_what_stands_in_them(rt: HostRuntime) -> Result<(), Fail> {
    for row in TOLD {
        assert!(rt; tells(rt.alloc(), row.0, row.1)?, "{:?}", row.0);
    }
    Ok(())
}

// Bases, paths, and whether these are base directories. Of `NINE` each link leads to the next one's path.
const NINE: &[u8] =
    b"link /1 2\nlink /2 3\nlink /3 4\nlink /4 5\nlink /5 6\nlink /6 7\nlink /7 8\nlink /8 9\nlink /9 x/y\n";

const DIRECTORIES: &[(&[u8], &[u8], bool)] = &[
    (b"dir /usr/bin\n", b"/usr", true),
    (b"dir /usr/bin\n", b"/usr/bin", true),
    (b"dir /usr/bin\n", b"/usr/bi", false),
    (b"dir /usr/bin\n", b"/usr/bin/x", false),
    (
        b"file /usr/bin\nnodir /a/b\nabsent /c/d\nown /e/f\n",
        b"/usr",
        false,
    ),
    (b"link /bin usr/bin\n", b"/usr/bin", true),
    (b"link /bin usr/bin\n", b"/usr", true),
    (b"link /bin usr/bin\n", b"/bin", false),
    (b"link /bin usr/bin\n", b"/usr/bin/x", false),
    (b"link /a/b c/d\n", b"/a/c/d", true),
    (b"link /a/b c/d\n", b"/a/c", true),
    (b"link /a/b c/d\n", b"/a", true),
    (b"link /a/b c/d\n", b"/c/d", false),
    (b"link /a/b /c/d\n", b"/c", true),
    (b"link /a/b /c/d\n", b"/a", false),
    (b"link /a b\nlink /b c\n", b"/c", true),
    (b"link /a b\nlink /b c\n", b"/b", false),
    (b"link /a b/c\nlink /b d\n", b"/d/c", true),
    (b"link /a b/c\nlink /b d\n", b"/d", true),
    (b"link /a b/c\nlink /b d\n", b"/b", false),
    (b"link /b d\nlink /a b/c\n", b"/b/c", false),
    (b"link /a a\n", b"/a", false),
    (b"link /a b\nlink /b a\n", b"/b", false),
    (b"link /a b\nlink /a c\n", b"/b", true),
    (b"link /a b\nlink /a c\n", b"/c", false),
    (b"dir /x\nlink /a b\n", b"/x", true),
    (
        b"link /1 2\nlink /2 3\nlink /3 4\nlink /4 5\nlink /5 6\nlink /6 7\nlink /7 8\nlink /8 x\n",
        b"/x",
        true,
    ),
    (NINE, b"/x/y", true),
    (NINE, b"/x", true),
    (NINE, b"/9", false),
];

// Whether a path is a base directory of a base; None where that is at fault.
fn is_directory(alloc: Global, text: &[u8], path: &[u8]) -> Result<Option<bool>, Memory> {
    match read_base(alloc, text) {
        Ok(base) => {
            let paths = base_paths(alloc, &base)?;
            Ok(Some(paths.has(path)))
        }
        Err(_) => Ok(None),
    }
}

#[test]
fn ends_of_links_are_base_directories(rt: HostRuntime) -> Result<(), Fail> {
    for row in DIRECTORIES {
        assert_eq!(rt;
            is_directory(rt.alloc(), row.0, row.1)?,
            Some(row.2),
            "{:?} {:?}",
            row.0,
            row.1
        );
    }
    Ok(())
}
