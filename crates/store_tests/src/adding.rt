//! Calls one after the other, by the rows that they take.

ghost use Rattle.std.specs.Prelude.{All};
ghost use Rattle.tree_clauses.specs.Plain.{IsPlain};

use crate::call_words::call_cases;
use crate::clause_texts::has_clause;
use crate::steps::shows;
use clause_solver::Store;
use script_names::{Boxed, Bytes, Memory};
use shown_texts::push_number;
use std::alloc::Global;
use tree_clauses::Case;

// Calls with the row that each takes, from all trees on; a call behind them; and the rows that are left of it.
const LEFT: &str = "; | mkdir /a | 67 68
; | mkdir /a/b | 1 66 67 68
; | rmdir /a/ | 64 66 67 68
; | ln -s t /a | 65 67 68 70 71
mkdir /a 68; | mkdir /a | 67
mkdir /a 68; | mkdir /a/b | 68
mkdir /a 68; | rmdir /a | 68
mkdir /a 68; mkdir /a/b 68; | rmdir /a | 67
mkdir /a 68; mkdir /a/b 68; rmdir /a/b 68; | rmdir /a | 68
mkdir /a 68; touch /a/b 67; rm /a/b 68; | rmdir /a | 68
rmdir /a 67; | rmdir /a | 67
rmdir /a 67; | rm -rf /a | 72
rmdir /a 67; rm -f /a/b 71; | rmdir /a | 67 68
test -e /a/b 67; mkdir -p /a 68; | test -e /a/b | 67
test -e /a/b 66; mkdir -p /a 68; | test -e /a/b | 66
mkdir -p /a 68; | touch /a | 68
touch /a 67; | test -f /a | 67
ln -s t /a 68; | test -h /a | 67
ln -s t /a 68; | test -e /a | 65
rm -rf /a 72; | test -e /a | 66
touch /a 67; | mv /a /b | 65 68 71 72 77 79 81
touch /a 67; mv /a /b 68; | test -e /a | 66
touch /a 67; mv /a /b 68; | test -f /b | 67
rmdir /a 67; rmdir /b 67; | mv /a /b | 73 74 75 76
rmdir /a 67; mkdir /b 68; | mv /a /b | 73
; | chmod 755 /a | 65 66 67
; | cp /a /b | 65 66 67 69 70 71 72 73 74 75 82
; | cp -r /a /b | 65 66 69 70 71 72 73 74 75 77 78 79 80 81 82 83 84
ln -s t /a 68; | cp -r /a /b | 65
touch /a 67; | cp /a /b | 69 70 71 72 73 74 75
touch /a 67; cp /a /b 69; rm /a 68; | test -f /b | 67
test -d /a/x 67; cp -r /a /b 77; | test -d /b/x | 67
rmdir /a 67; cp -r /a /b 77; rm -rf /a 72; | rmdir /b | 67
mkdir /a 68; cp -r /a /b 77; touch /a/x 67; | test -e /b/x | 66
mkdir /a 68; touch /a/x 67; cp -r /a /b 77; rm /a/x 68; | test -f /b/x | 67";

// Calls with the row that each takes, from all trees on; the clause of the store behind them; and the shown start tree,
// where each place is of its greatest kind: a directory, else a file, a link, a special thing, nothing. `|` is a newline.
const CLAUSES: &str =
    "rmdir /a 67; -> now v0|kind v0 dir|entry v0 a v1|kind v1 dir|notempty v1| -> d /a|f /a/aaaaaaaaaaaaaaaaaaaaaaaaaaaaaaaa|
rmdir /a 68; -> now v3|kind v0 dir|entry v0 a v1|kind v1 dir|fence v1 {}|kind v2 absent|similar v3 {a} v0|entry v3 a v2| -> d /a|
mkdir -p /a 68; -> now v3|kind v0 dir|entry v0 a v1|kind v1 absent,dir|similar v2 {} v1|similar v3 {a} v0|entry v3 a v2| -> d /a|
touch /a 67; -> now v3|kind v0 dir|entry v0 a v1|kind v1 absent,reg|kind v2 reg|similar v3 {a} v0|entry v3 a v2| -> f /a|
ln -s t /a 68; -> now v3|kind v0 dir|entry v0 a v1|kind v1 absent|target v2 t|similar v3 {a} v0|entry v3 a v2| ->
mkdir /a 68; mkdir /a/b 68; -> now v7|kind v0 dir|entry v0 a v1|kind v1 absent|kind v2 dir|fence v2 {}|similar v3 {a} v0|entry v3 a v2|kind v4 absent|kind v5 dir|fence v5 {}|similar v6 {b} v2|entry v6 b v5|similar v7 {a} v3|entry v7 a v6| ->";

// The number of a row as text.
fn number_text(alloc: Global, number: u8) -> Result<Bytes, Memory> {
    let mut text = Bytes::new(alloc);
    push_number(&mut text, u64::from(number))?;
    Ok(text)
}

// Whether a text is that of a row's number.
fn is_number(alloc: Global, number: u8, text: &str) -> Result<bool, Memory> {
    let shown = number_text(alloc, number)?;
    Ok(shown.as_slice() == text.as_bytes())
}

// The store with the case, if anything is left of it.
fn added(alloc: Global, store: &Store, made: &Case) -> Result<Option<Boxed<Store>>, Memory>
    requires { IsPlain made.now }
{
    match store.add_case(made)? {
        Some(new) => {
            let new = Boxed::new(alloc, new)?;
            Ok(Some(new))
        }
        None => Ok(None),
    }
}

// Whether something is left of the store with the case.
fn is_left(alloc: Global, store: &Store, made: &Case) -> Result<bool, Memory>
    requires { IsPlain made.now }
{
    let added = added(alloc, store, made)?;
    Ok(added.is_some())
}

// The rows of the cases that are left, each with a blank before it.
fn put_rows(alloc: Global, rows: &mut Bytes, store: &Store, list: &[Case]) -> Result<(), Memory>
    requires { All IsPlain list.now }
{
    for made in list {
        if is_left(alloc, store, made)? {
            rows.extend(b" ")?;
            push_number(rows, u64::from(made.row))?;
        }
    }
    Ok(())
}

// The rows that are left of a call.
fn rows_text(alloc: Global, store: &Store, call: &str) -> Result<Bytes, Memory> {
    let list = call_cases(alloc, call)?;
    let mut rows = Bytes::new(alloc);
    put_rows(alloc, &mut rows, store, list.as_slice())?;
    Ok(rows)
}

// Whether these rows are left of a call.
fn are_left(alloc: Global, store: &Store, call: &str, wanted: &str) -> bool {
    match rows_text(alloc, store, call) {
        Ok(rows) => rows.as_slice() == wanted.as_bytes(),
        Err(_) => false,
    }
}

// The store with the case of a row; none where no case has the row, or nothing is left.
fn with_row(
    alloc: Global,
    store: &Store,
    list: &[Case],
    row: &str,
) -> Result<Option<Boxed<Store>>, Memory>
    requires { All IsPlain list.now }
{
    for made in list {
        if is_number(alloc, made.row, row)? {
            return added(alloc, store, made);
        }
    }
    Ok(None)
}

// The store with the case of a row of a call.
fn with_call(
    alloc: Global,
    store: &Store,
    call: &str,
    row: &str,
) -> Result<Option<Boxed<Store>>, Memory> {
    let list = call_cases(alloc, call)?;
    with_row(alloc, store, list.as_slice(), row)
}

// All trees.
fn start(alloc: Global) -> Result<Boxed<Store>, Memory> {
    let store = Store::start(alloc)?;
    Boxed::new(alloc, store)
}

// The store behind calls, each with the row that it takes, from all trees on; none where nothing is left of a row.
fn store_behind(alloc: Global, calls: &str) -> Result<Option<Boxed<Store>>, Memory> {
    let mut store = start(alloc)?;
    for call in calls.split(';') {
        if let Some((text, row)) = call.trim().rsplit_once(' ') {
            match with_call(alloc, store.get(), text, row)? {
                Some(new) => store = new,
                None => return Ok(None),
            }
        }
    }
    Ok(Some(store))
}

// Whether the rows of a line are left of its call.
fn is_line_left(alloc: Global, line: &str) -> bool {
    let (calls, rest) = line.split_once(" | ").unwrap_or(("", ""));
    let (call, rows) = rest.split_once(" |").unwrap_or(("", "none"));
    match store_behind(alloc, calls) {
        Ok(Some(store)) => are_left(alloc, store.get(), call, rows),
        _ => false,
    }
}

#[test]
fn rows_are_left(rt: HostRuntime) {
    for line in LEFT.lines() {
        assert!(rt; is_line_left(rt.alloc(), line), "{line}");
    }
}

// The text of a row, behind what it begins with.
fn text_of(alloc: Global, begin: &[u8], row: &str) -> Result<Bytes, Memory> {
    let mut text = Bytes::from_slice(alloc, begin)?;
    for sign in row.as_bytes() {
        text.push(if *sign == b'|' { b'\n' } else { *sign })?;
    }
    Ok(text)
}

// Whether a store's clause has the text of a row, and is read as it was printed.
fn has_row(alloc: Global, store: &Store, row: &str) -> bool {
    match text_of(alloc, b"clause start v0 ", row) {
        Ok(wanted) => has_clause(alloc, store, wanted.as_slice()),
        Err(_) => false,
    }
}

// Whether a store shows the tree of a row.
fn shows_row(alloc: Global, store: &mut Store, row: &str) -> bool {
    match text_of(alloc, b"", row) {
        Ok(wanted) => shows(alloc, store, wanted.as_slice()),
        Err(_) => false,
    }
}

// Whether a store has the clause and the tree of a row.
fn comes_to(alloc: Global, store: Boxed<Store>, clause: &str, tree: &str) -> bool {
    let mut store = store.into_inner();
    has_row(alloc, &store, clause) && shows_row(alloc, &mut store, tree)
}

// Whether the store behind the calls of a line has the clause and the tree of the line.
fn is_line(alloc: Global, line: &str) -> bool {
    let (calls, rest) = line.split_once(" -> ").unwrap_or(("", ""));
    let (clause, tree) = rest.split_once(" ->").unwrap_or(("", "none"));
    match store_behind(alloc, calls) {
        Ok(Some(store)) => comes_to(alloc, store, clause, tree.trim()),
        _ => false,
    }
}

#[test]
fn clauses_of_stores(rt: HostRuntime) {
    for line in CLAUSES.lines() {
        assert!(rt; is_line(rt.alloc(), line), "{line}");
    }
}
