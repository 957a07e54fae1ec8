//! Comparisons of versions by hand, a row for each: from Debian Policy, 5.6.12, and deb-version(7). In a row `,` stands
//! between fields and `|` before the answer: yes, no, or none where it is no such comparison.

use debian_versions::comparison;
use script_names::{Bytes, List, Memory};
use std::alloc::Global;

// Two versions with an operator between them, and the answer.
const COMPARISONS: &str = "\
1,lt,2|yes
2,lt,1|no
1,lt,1|no
1,le,1|yes
2,le,1|no
1,eq,1|yes
1,eq,2|no
1,ne,2|yes
1,ne,1|no
1,ge,1|yes
1,ge,2|no
2,gt,1|yes
1,gt,1|no
1,<<,2|yes
1,<<,1|no
1,<=,1|yes
2,<=,1|no
1,=,1|yes
1,=,2|no
1,>=,2|no
2,>=,2|yes
2,>>,1|yes
2,>>,2|no
9,lt,10|yes
1.9,lt,1.10|yes
1.09,eq,1.9|yes
1.0,eq,1.00|yes
1.0,gt,1|yes
1.0,eq,1.|yes
1,lt,1.|yes
1~,lt,1|yes
1~~,lt,1~|yes
1~~a,lt,1~|yes
1~,lt,1~a|yes
1~rc1,lt,1|yes
1~rc1,lt,1~rc2|yes
1~rc9,lt,1~rc10|yes
1a,gt,1|yes
1a,lt,1+|yes
1Z,lt,1a|yes
1a,lt,1b|yes
1a,lt,1.|yes
1+,gt,1-1|yes
1+,lt,1.|yes
1.2a,lt,1.2a1|yes
1.2a0,eq,1.2a|yes
1:1,gt,9|yes
0:1,eq,1|yes
00:1,eq,1|yes
1:0,lt,2:0|yes
10:0,gt,9:9|yes
999999999:1,gt,1|yes
1-1,gt,1|yes
1-0,eq,1|yes
1-00,eq,1|yes
1-0~,lt,1|yes
1-1,lt,1-2|yes
1-9,lt,1-10|yes
1-1,lt,1-1.1|yes
1-1,lt,1-1+b1|yes
1-1-1,gt,1-1|yes
1-1~bpo12+1,lt,1-1|yes
1.2-3,lt,1.10-1|yes
1:1:2,gt,1:1|yes
2.4.58-1+deb12u1,gt,2.4.58-1|yes
00000000000000000000000000001,eq,1|yes
100000000000000000000000000000,gt,99999999999999999999999999999|yes
,lt,1|yes
,le,0~|yes
,gt,1|no
1,gt,|yes
1,lt,|no
,eq,|yes
,ne,|no
,lt,|no
,le,|yes
,eq,0|no
,ne,0|yes
,lt-nl,1|no
,gt-nl,1|yes
1,lt-nl,|yes
1,le-nl,|yes
1,ge-nl,|no
1,gt-nl,|no
,ge-nl,|yes
,lt-nl,|no
1,lt-nl,2|yes
2,ge-nl,1|yes
1,>,2|none
1,<,2|none
1,==,1|none
1,LT,2|none
1,,2|none
1,lt-nl ,2|none
a,lt,1|none
1,lt,a|none
~1,lt,1|none
.1,lt,1|none
-1,lt,1|none
1-,lt,1|none
1-1-,lt,1|none
:1,lt,1|none
a:1,lt,1|none
1.0:1,lt,1|none
1:,lt,1|none
1:a,lt,1|none
1234567890:1,lt,1|none
1-1:1,lt,1|none
1:1-1:1,lt,1|none
1_1,lt,1|none
1-1_,lt,1|none
1 ,lt,1|none
 1,lt,1|none
1/1,lt,1|none";

// Fields that are no such comparison.
const OTHERS: &str = "\

dpkg
dpkg,--compare-versions
dpkg,--compare-versions,1
dpkg,--compare-versions,1,lt
dpkg,--compare-versions,1,lt,2,3
dpkg,--compare-version,1,lt,2
dpkg,compare-versions,1,lt,2
dpkg-query,--compare-versions,1,lt,2
/usr/bin/dpkg,--compare-versions,1,lt,2
,--compare-versions,1,lt,2";

// The text before the last `|`, and what stands behind it.
fn answer_behind(row: &str) -> (&str, &str) {
    match row.rsplit_once('|') {
        Some((fields, answer)) => (fields, answer),
        None => (row, "none"),
    }
}

// Adds the fields of a row.
fn add_fields(alloc: Global, fields: &mut List<Bytes>, row: &str) -> Result<(), Memory> {
    for field in row.split(',') {
        fields.add(Bytes::from_slice(alloc, field.as_bytes())?)?;
    }
    Ok(())
}

// The word for an answer.
fn word_for(answer: Option<bool>) -> &'static str {
    match answer {
        None => "none",
        Some(true) => "yes",
        Some(false) => "no",
    }
}

// The fields of a row, behind those that each row has.
fn fields(alloc: Global, first: &str, row: &str) -> Result<List<Bytes>, Memory> {
    let mut fields = List::new(alloc);
    if !first.is_empty() {
        add_fields(alloc, &mut fields, first)?;
    }
    add_fields(alloc, &mut fields, row)?;
    Ok(fields)
}

// Whether fields are answered so.
fn have_answer(alloc: Global, fields: &[Bytes], wanted: &str) -> bool {
    match comparison(alloc, fields) {
        Ok(answer) => word_for(answer) == wanted,
        Err(_) => false,
    }
}

// Whether the fields of a row are answered so, behind those that each row has.
fn is_answered(alloc: Global, first: &str, row: &str, wanted: &str) -> bool {
    match fields(alloc, first, row) {
        Ok(fields) => have_answer(alloc, fields.as_slice(), wanted),
        Err(_) => false,
    }
}

#[test]
fn versions_are_compared(rt: HostRuntime) {
    for row in COMPARISONS.lines() {
        let (fields, wanted) = answer_behind(row);
        assert!(rt;
            is_answered(rt.alloc(), "dpkg,--compare-versions", fields, wanted),
            "{row}"
        );
    }
}

#[test]
fn others_are_no_comparisons(rt: HostRuntime) {
    for row in OTHERS.lines() {
        assert!(rt; is_answered(rt.alloc(), "", row, "none"), "{row}");
    }
}
