//! Words as paths by hand, a row for each: from POSIX.1-2017, Base Definitions, 3.271 and 4.13, and the limits of 255
//! bytes and 64 names. In a row `%` stands for NUL, `#` for 255 times `n`, and `@` for 63 times `a/`; `|` ends a
//! column. An answer is a fault, or the names in braces (one of 255 bytes by its length, more than 8 by their
//! number), and `/` where the path has a slash.

use script_names::{Bytes, Memory, Name, NameFault, Path, PathFault};
use std::alloc::Global;

// A word, and what it spells.
const WORDS: &str = "\
|empty
/|
//|
///|
.|dot
./|dot
/.|dot
/./|dot
.//|dot
//.|dot
./.|dot
..|dotdot
../|dotdot
/..|dotdot
/../|dotdot
a|{a}
/a|{a}
a/|{a}/
/a/|{a}/
a//|{a}/
//a|{a}
a/b|{a}{b}
a//b|{a}{b}
a//b/|{a}{b}/
a///b///|{a}{b}/
a/a|{a}{a}
./a|{a}
/./a|{a}
././a|{a}
./a/|{a}/
a/./b|{a}{b}
a/./b/|{a}{b}/
a/.//./b|{a}{b}
a/.|dot
a/./|dot
a/.//|dot
a/././|dot
a/b/.|dot
a/..|dotdot
a/../|dotdot
a//..|dotdot
../a|dotdot
a/../b|dotdot
./..|dotdot
../.|dotdot
a/../.|dotdot
./../.|dotdot
...|{...}
.../|{...}/
.a|{.a}
a.|{a.}
..a|{..a}
a..|{a..}
.a/.|dot
.../..|dotdot
a/.../b|{a}{...}{b}
/srv/www/index.html|{srv}{www}{index.html}
 |{ }
a b/c|{a b}{c}
-|{-}
*|{*}
\\|{\\}
%|nul
%a|nul
a%|nul
/%|nul
a/%|nul
a%/b|nul
.%|nul
..%|nul
../%|nul
%/..|nul
./%|nul
%/.|nul
#n/%|nul
%/#n|nul
@a/b/%|nul
%/@a/b|nul
#|{255}
#/|{255}/
/#|{255}
a/#|{a}{255}
#/a|{255}{a}
./#|{255}
#n|long
#n/|long
/#n|long
a/#n|long
#n/a|long
./#n|long
#./a|long
##|long
#n/.|dot
./#n/.|dot
#n/..|dotdot
../#n|dotdot
@|63 names/
@a|64 names
@a/|64 names/
@a//|64 names/
/@a|64 names
./@a|64 names
@./a|64 names
@#|64 names
@a/b|many
@a/b/|many
@/a/b|many
@a/#|many
@@|many
@a/.|dot
@a/./|dot
@a/b/.|dot
@a/..|dotdot
@a/b/..|dotdot
../@a/b|dotdot
@a/#n|long
@#n|long
#n/@a|long
@@#n|long
";

// A path, another, whether the first is a strict prefix, and whether the names are the same.
const PAIRS: &str = "\
/|/|no|yes
/|a|yes|no
a|/|no|no
a|a|no|yes
a|a/|no|yes
/a/|a|no|yes
a|a/b|yes|no
a/|a/b|yes|no
a|./a//b/|yes|no
a/b|a|no|no
a|b|no|no
a|ab|no|no
ab|a|no|no
a|b/c|no|no
b|a/b|no|no
a/b|b/b|no|no
a/b|a/c|no|no
a/b|a/c/d|no|no
a/b|c/b/d|no|no
a/b|a/b/c/d|yes|no
a/b/c|a/b/d|no|no
@|@a|yes|no
@a|@a|no|yes
@a|@b|no|no
#|#|no|yes
#|#/n|yes|no
";

// A path, a name, the path with the name more, the path's parent, and its last name.
const RELATIVES: &str = "\
/|a|{a}|none|none
a|b|{a}{b}||a
a/|b|{a}{b}||a
b|b|{b}{b}||b
a/b|c|{a}{b}{c}|{a}|b
a/b/|c|{a}{b}{c}|{a}|b
a/b/c|...|{a}{b}{c}{...}|{a}{b}|c
a|#|{a}{255}||a
@|a|64 names|62 names|a
@b|c|many|63 names|b
@b/|c|many|63 names|b
";

// The first column of a row, and those behind it.
fn cut(row: &str) -> (&str, &str) {
    row.split_once('|').unwrap_or((row, "no column"))
}

// Bytes, over and over.
fn repeat(text: &mut Bytes, bytes: &[u8], count: usize) -> Result<(), Memory> {
    for _ in 0..count {
        text.extend(bytes)?;
    }
    Ok(())
}

// The bytes that a column spells.
fn bytes_of(alloc: Global, column: &str) -> Result<Bytes, Memory> {
    let mut text = Bytes::new(alloc);
    for byte in column.as_bytes() {
        match *byte {
            b'%' => text.push(0)?,
            b'#' => repeat(&mut text, b"n", 255)?,
            b'@' => repeat(&mut text, b"a/", 63)?,
            other => text.push(other)?,
        }
    }
    Ok(text)
}

// The names of a path, one by one.
fn show_names(out: &mut Bytes, names: &[Name]) -> Result<(), Memory> {
    for name in names {
        out.push(b'{')?;
        if name.as_slice().len() == 255 {
            out.extend(b"255")?;
        } else {
            out.extend(name.as_slice())?;
        }
        out.push(b'}')?;
    }
    Ok(())
}

// The text of a path.
fn show_path(out: &mut Bytes, path: &Path) -> Result<(), Memory> {
    match path.names().len() {
        62 => out.extend(b"62 names")?,
        63 => out.extend(b"63 names")?,
        64 => out.extend(b"64 names")?,
        _ => show_names(out, path.names())?,
    }
    if path.slash() {
        out.push(b'/')?;
    }
    Ok(())
}

// The text of a fault.
fn fault_text(fault: PathFault) -> &'static [u8] {
    match fault {
        PathFault::Empty => b"empty",
        PathFault::Nul => b"nul",
        PathFault::DotDot => b"dotdot",
        PathFault::Dot => b"dot",
        PathFault::LongName => b"long",
        PathFault::Many => b"many",
        PathFault::Memory => b"memory",
    }
}

// The text of an answer.
fn show_answer(alloc: Global, answer: Result<Path, PathFault>) -> Result<Bytes, Memory> {
    let mut out = Bytes::new(alloc);
    match answer {
        Ok(path) => show_path(&mut out, &path)?,
        Err(fault) => out.extend(fault_text(fault))?,
    }
    Ok(out)
}

// The path of a column that spells one.
fn path_of(alloc: Global, column: &str) -> Result<Path, PathFault> {
    match bytes_of(alloc, column) {
        Ok(word) => Path::read(alloc, word.as_slice()),
        Err(_) => Err(PathFault::Memory),
    }
}

// The path of a column with one name more.
fn joined(alloc: Global, path: &Path, name: &str) -> Result<Path, PathFault> {
    match bytes_of(alloc, name) {
        Ok(bytes) => match Name::read(alloc, bytes.as_slice()) {
            Ok(name) => path.join(alloc, &name),
            Err(NameFault::Bad) => Err(PathFault::Empty),
            Err(NameFault::Memory) => Err(PathFault::Memory),
        },
        Err(_) => Err(PathFault::Memory),
    }
}

// The text of a parent.
fn parent_text(alloc: Global, path: &Path) -> Result<Bytes, Memory> {
    let mut out = Bytes::new(alloc);
    match path.parent(alloc)? {
        Some(parent) => show_path(&mut out, &parent)?,
        None => out.extend(b"none")?,
    }
    Ok(out)
}

// Whether a column spells a path that is shown, or refused, so.
fn spells(alloc: Global, column: &str, wanted: &str) -> Result<bool, Memory> {
    let answer = show_answer(alloc, path_of(alloc, column))?;
    Ok(answer.as_slice() == wanted.as_bytes())
}

#[test]
fn words_spell_paths(rt: HostRuntime) {
    for row in WORDS.lines() {
        let (word, wanted) = cut(row);
        assert!(rt;
            matches!(spells(rt.alloc(), word, wanted), Ok(true)),
            "{row}"
        );
    }
}

// The columns for what a path is to another.
fn relation(path: &Path, other: &Path) -> &'static str {
    match (path.is_strict_prefix(other), path.same_names(other)) {
        (false, false) => "no|no",
        (false, true) => "no|yes",
        (true, false) => "yes|no",
        (true, true) => "yes|yes",
    }
}

// Whether the paths of two columns are so to each other.
fn are_so(alloc: Global, first: &str, second: &str, wanted: &str) -> Result<bool, PathFault> {
    let path = path_of(alloc, first)?;
    let other = path_of(alloc, second)?;
    Ok(relation(&path, &other) == wanted)
}

#[test]
fn paths_begin_others(rt: HostRuntime) {
    for row in PAIRS.lines() {
        let (first, rest) = cut(row);
        let (second, wanted) = cut(rest);
        assert!(rt;
            matches!(are_so(rt.alloc(), first, second, wanted), Ok(true)),
            "{row}"
        );
    }
}

// Whether a path with a name more is shown, or refused, so.
fn joins(alloc: Global, path: &Path, name: &str, wanted: &str) -> Result<bool, Memory> {
    let longer = show_answer(alloc, joined(alloc, path, name))?;
    Ok(longer.as_slice() == wanted.as_bytes())
}

// Whether a path has this parent and this last name.
fn ends(alloc: Global, path: &Path, wanted: &str) -> Result<bool, Memory> {
    let (parent, name) = cut(wanted);
    let last = match path.last() {
        Some(name) => name.as_slice(),
        None => b"none",
    };
    Ok(last == name.as_bytes() && parent_text(alloc, path)?.as_slice() == parent.as_bytes())
}

// Whether the path of a column has the relatives of the columns behind it.
fn has_relatives(alloc: Global, column: &str, rest: &str) -> Result<bool, PathFault> {
    let path = path_of(alloc, column)?;
    let (name, rest) = cut(rest);
    let (longer, rest) = cut(rest);
    Ok(joins(alloc, &path, name, longer)? && ends(alloc, &path, rest)?)
}

#[test]
fn paths_have_relatives(rt: HostRuntime) {
    for row in RELATIVES.lines() {
        let (column, rest) = cut(row);
        assert!(rt;
            matches!(has_relatives(rt.alloc(), column, rest), Ok(true)),
            "{row}"
        );
    }
}
