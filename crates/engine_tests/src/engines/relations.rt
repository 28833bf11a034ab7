//! Comparisons of two paths by each relation, whichever side closes first, and however their matches nest.
use super::joins::builds;
use super::{Built, How, PIECES, ends, far, is_through, plainly};
use crate::large::{Part, spelled};
use engine::Ended;
use std::alloc::{AllocError, Global};
use std::fmt::Write;
use std::process::Abort;
use std::test::Fail;

/// The relations, in the order of the answers of a row.
const RELATIONS: [&str; 6] = ["=", "!=", "<", "<=", ">", ">="];

/// Loops, and the two paths that are compared in them.
#[derive(Clone, Copy)]
struct Paths(&'static str, &'static str, &'static str);

/// Paths from one node.
const ITEM: Paths = Paths("for $i in /r/i return ", "$i/a", "$i/b");

/// One path, twice.
const ITSELF: Paths = Paths("for $i in /r/i return ", "$i/a", "$i/a");

/// Paths whose matches may be inside each other.
const DEEP: Paths = Paths("", "//a", "//b");

/// The node of the left path is around that of the right one.
const AROUND: Paths = Paths(
    "for $x in /r/x return for $y in $x/y return ",
    "$x/a",
    "$y/b",
);

/// The other way round.
const INSIDE: Paths = Paths(
    "for $x in /r/x return for $y in $x/y return ",
    "$y/b",
    "$x/a",
);

/// The nodes stand beside each other, and the inner loop's is on the right.
const BESIDE: Paths = Paths(
    "for $x in /r/x return for $y in /r/y return ",
    "$x/a",
    "$y/b",
);

/// The same with the inner loop's on the left.
const TURNED: Paths = Paths(
    "for $x in /r/x return for $y in /r/y return ",
    "$y/b",
    "$x/a",
);

/// Nodes that are their own values.
const OWN: Paths = Paths("for $x in /r/x return for $y in $x/y return ", "$x", "$y");

/// Nodes inside each other, and the root.
const CHAIN: Paths = Paths("for $x in //a return ", "$x/b", "/r/c");

/// Paths, a document, and for each relation the names of the elements that are written: `y` where it holds, else `n`.
struct Related(Paths, &'static [u8], [&'static str; 6]);

/// A side has no value.
const NONE: [&str; 6] = ["n", "n", "n", "n", "n", "n"];

/// All pairs are equal.
const SAME: [&str; 6] = ["y", "n", "n", "y", "n", "y"];

/// In all pairs the left value is less.
const LESS: [&str; 6] = ["n", "y", "y", "y", "n", "n"];

/// In all pairs it is greater.
const MORE: [&str; 6] = ["n", "y", "n", "n", "y", "y"];

/// In some pairs it is less, in the others greater.
const APART: [&str; 6] = ["n", "y", "y", "y", "y", "y"];

/// In some pairs it is less, the others are equal.
const UP_TO: [&str; 6] = ["y", "y", "y", "y", "n", "y"];

/// In some pairs it is greater, the others are equal.
const FROM: [&str; 6] = ["y", "y", "n", "y", "y", "y"];

/// There is a pair of each kind.
const ALL: [&str; 6] = ["y", "y", "y", "y", "y", "y"];

const FLAT: [Related; 21] = [
    Related(ITEM, b"<r><i><a>1</a><b>1</b></i></r>", SAME),
    Related(ITEM, b"<r><i><a>1</a><b>2</b></i></r>", LESS),
    Related(ITEM, b"<r><i><b>1</b><a>2</a></i></r>", MORE),
    Related(ITEM, b"<r><i><a>1</a><a>3</a><b>2</b></i></r>", APART),
    Related(
        ITEM,
        b"<r><i><a>5</a><a>1</a><a>3</a><b>2</b></i></r>",
        APART,
    ),
    Related(ITEM, b"<r><i><a>1</a><b>1</b><a>2</a></i></r>", FROM),
    Related(
        ITEM,
        b"<r><i><b>2</b><a>2</a><b>2</b><a>2</a></i></r>",
        SAME,
    ),
    Related(
        ITEM,
        b"<r><i><b>1</b><a>1</a><a>1</a><b>2</b></i></r>",
        UP_TO,
    ),
    Related(
        ITEM,
        b"<r><i><a>1</a><a>2</a><b>2</b><b>3</b></i></r>",
        UP_TO,
    ),
    // As text 10 is less than 9.
    Related(ITEM, b"<r><i><a>10</a><b>9</b></i></r>", LESS),
    Related(ITEM, b"<r><i><a/><b>0</b></i></r>", LESS),
    Related(ITEM, b"<r><i><b></b><a/></i></r>", SAME),
    Related(ITEM, b"<r><i/></r>", NONE),
    Related(ITEM, b"<r><i><a>1</a></i></r>", NONE),
    Related(ITEM, b"<r><i><b>1</b><b/></i></r>", NONE),
    Related(
        ITEM,
        b"<r><i><a>1</a><b>2</b></i><i><a>2</a><b>1</b></i><i><b>1</b></i><i><a>1</a><b>1</b></i></r>",
        ["nnny", "yynn", "ynnn", "ynny", "nynn", "nyny"],
    ),
    Related(ITSELF, b"<r><i><a>1</a></i></r>", SAME),
    Related(ITSELF, b"<r><i><a>1</a><a>1</a></i></r>", SAME),
    Related(ITSELF, b"<r><i><a>1</a><a>2</a></i></r>", ALL),
    Related(ITSELF, b"<r><i/></r>", NONE),
    Related(
        ITSELF,
        b"<r><i><a>1</a></i><i><a>1</a><a>2</a></i><i/></r>",
        ["yyn", "nyn", "nyn", "yyn", "nyn", "yyn"],
    ),
];

const NESTED: [Related; 15] = [
    Related(DEEP, b"<a>1<b>2</b></a>", LESS),
    Related(DEEP, b"<b>1<a>2</a></b>", MORE),
    Related(DEEP, b"<r><a><a><b>1</b></a></a></r>", SAME),
    Related(DEEP, b"<r><a>2<a>1</a></a><b>1</b></r>", FROM),
    Related(DEEP, b"<r><b>1</b><a>2<a>1</a></a></r>", FROM),
    Related(DEEP, b"<r><a>1<a>2</a></a><b>12</b></r>", FROM),
    Related(DEEP, b"<r><a>3<b>2<a>1</a></b></a></r>", APART),
    Related(DEEP, b"<r><a>1<a>1<a/></a></a><b><b>0</b>2</b></r>", APART),
    Related(
        DEEP,
        b"<r><a><a><a>1</a>2</a>3</a><b><b>2</b>1</b></r>",
        LESS,
    ),
    Related(DEEP, b"<r><a><a>1</a><a>2</a><b>2</b></a></r>", UP_TO),
    // One value that is equal ends behind those inside it, and behind a value of the other side.
    Related(DEEP, b"<r><a>1<a/><b>2</b></a><b>12</b></r>", UP_TO),
    Related(DEEP, b"<r><b>1<b/><a>2</a></b><a>12</a></r>", FROM),
    Related(DEEP, b"<r><a><a/></a></r>", NONE),
    Related(DEEP, b"<r><b><b>1</b></b></r>", NONE),
    Related(DEEP, b"<r/>", NONE),
];

const TWO_NODES: [Related; 19] = [
    Related(AROUND, b"<r><x><a>1</a><y><b>1</b></y></x></r>", SAME),
    Related(AROUND, b"<r><x><y><b>1</b></y><a>2</a></x></r>", MORE),
    Related(AROUND, b"<r><x><y><b>2</b></y></x></r>", NONE),
    Related(AROUND, b"<r><x><a>1</a><y/></x></r>", NONE),
    Related(
        AROUND,
        b"<r><x><a>2</a><y><b>1</b><b>3</b></y><a>3</a></x></r>",
        ALL,
    ),
    Related(
        AROUND,
        b"<r><x><a>1</a><y><b>1</b></y><y><b>2</b></y><a>2</a></x></r>",
        ["yy", "yy", "ny", "yy", "yn", "yy"],
    ),
    Related(INSIDE, b"<r><x><a>1</a><y><b>2</b></y></x></r>", MORE),
    Related(
        INSIDE,
        b"<r><x><y><b>1</b></y><a>1</a><a>2</a></x></r>",
        UP_TO,
    ),
    Related(BESIDE, b"<r><x><a>1</a></x><y><b>2</b></y></r>", LESS),
    Related(BESIDE, b"<r><y><b>2</b></y><x><a>1</a></x></r>", LESS),
    Related(
        BESIDE,
        b"<r><x><a>1</a><a>3</a></x><y><b>2</b><b>2</b></y></r>",
        APART,
    ),
    Related(BESIDE, b"<r><y><b/></y><x/></r>", NONE),
    Related(
        BESIDE,
        b"<r><x><a>1</a><a>3</a></x><x><a>2</a></x><y><b>2</b></y><y><b>3</b></y><y/></r>",
        ["nynynn", "yynnyn", "yynnyn", "yynyyn", "ynnnnn", "yynynn"],
    ),
    Related(
        BESIDE,
        b"<r><y><b>2</b></y><y><b>3</b></y><y/><x><a>1</a><a>3</a></x><x><a>2</a></x></r>",
        ["nynynn", "yynnyn", "yynnyn", "yynyyn", "ynnnnn", "yynynn"],
    ),
    Related(TURNED, b"<r><x><a>1</a></x><y><b>2</b></y></r>", MORE),
    Related(OWN, b"<r><x>1<y>2</y></x></r>", LESS),
    Related(
        OWN,
        b"<r><x><y>1</y></x><x><y>1</y>2</x></r>",
        ["yn", "ny", "nn", "yn", "ny", "yy"],
    ),
    Related(
        CHAIN,
        b"<r><a><b>1</b><a><b>2</b></a></a><c>2</c></r>",
        ["ny", "yn", "yn", "yy", "nn", "ny"],
    ),
    Related(
        CHAIN,
        b"<r><c>2</c><a><b>1</b><a><b>2</b></a><b>3</b></a></r>",
        ["ny", "yn", "yn", "yy", "yn", "yy"],
    ),
];

/// The query that compares the paths by the relation.
fn query_of(alloc: Global, paths: Paths, relation: &str) -> Result<String, AllocError> {
    let Paths(loops, left, right) = paths;
    format!(in alloc; "{loops}if ({left} {relation} {right}) then <y/> else <n/>")
}

/// An element of each name.
fn elements(alloc: Global, names: &str) -> Result<String, Fail> {
    let mut out = String::new(alloc);
    for name in names.chars() {
        write!(out, "<{name}></{name}>")?;
    }
    Ok(out)
}

/// The run ends with the answer, and lets all go.
fn is_answer(
    rt: &impl Abort,
    alloc: Global,
    query: &[u8],
    document: &[u8],
    how: How<'_>,
    answer: &[u8],
) -> Result<(), Fail> {
    let report = ends(rt, alloc, query, document, how, Ended::Ok, answer)?;
    is_through(rt, report, document, query);
    Ok(())
}

/// The answer of the row for the relation, in pieces of each size, one token after the other and far ahead.
fn is_related(
    rt: &impl Abort,
    alloc: Global,
    row: &Related,
    relation: &str,
    names: &str,
) -> Result<(), Fail> {
    let query = query_of(alloc, row.0, relation)?;
    let answer = elements(alloc, names)?;
    let (query, answer) = (query.as_bytes(), answer.as_bytes());
    for most in PIECES {
        is_answer(rt, alloc, query, row.1, plainly(most), answer)?;
        is_answer(rt, alloc, query, row.1, far(most), answer)?;
    }
    Ok(())
}

/// The answers of the rows.
fn are_related(rt: &impl Abort, alloc: Global, rows: &[Related]) -> Result<(), Fail> {
    for row in rows {
        for (&relation, &names) in RELATIONS.iter().zip(row.2.iter()) {
            is_related(rt, alloc, row, relation, names)?;
        }
    }
    Ok(())
}

#[test]
fn paths_from_one_node_are_compared(rt: HostRuntime) -> Result<(), Fail> {
    are_related(&rt, rt.alloc(), &FLAT)
}

#[test]
fn paths_with_nested_matches_are_compared(rt: HostRuntime) -> Result<(), Fail> {
    are_related(&rt, rt.alloc(), &NESTED)
}

#[test]
fn paths_from_two_nodes_are_compared(rt: HostRuntime) -> Result<(), Fail> {
    are_related(&rt, rt.alloc(), &TWO_NODES)
}

/// The run with an index answers so, and makes no list.
fn is_told(
    rt: &impl Abort,
    alloc: Global,
    query: &[u8],
    parts: &[Part],
    answer: &[u8],
) -> Result<(), Fail> {
    let document = spelled(alloc, parts)?;
    let row = Built(query, &document, answer, 0);
    builds(rt, alloc, &row, plainly(65_536))
}

const MANY: &[Part] = &[
    ("<r><i>", 0, 1),
    ("<a>#</a>", 10_000, 15_000),
    ("<b>#</b>", 15_000, 20_000),
    ("</i></r>", 0, 1),
];

// Compared anew at each question they would take some 10^11 steps.
#[test]
fn many_values_are_compared_by_an_order(rt: HostRuntime) -> Result<(), Fail> {
    let query = b"for $i in /r/i return if ($i/b < $i/a) then <y/> else <n/>";
    is_told(&rt, rt.alloc(), query, MANY, b"<n></n>")
}

#[test]
fn many_equal_values_do_not_differ(rt: HostRuntime) -> Result<(), Fail> {
    let query = b"for $i in /r/i return if ($i/a != $i/a) then <y/> else <n/>";
    let parts = [("<r><i>", 0, 1), ("<a>1</a>", 0, 5_000), ("</i></r>", 0, 1)];
    is_told(&rt, rt.alloc(), query, &parts, b"<n></n>")
}

// Each value is as long as those inside it together.
#[test]
fn many_nested_values_are_compared(rt: HostRuntime) -> Result<(), Fail> {
    let query = b"for $i in /r/i return if ($i//a = $i//b) then <y/> else <n/>";
    let parts = [
        ("<r><i>", 0, 1),
        ("<a>#", 0, 400),
        ("</a>", 0, 400),
        ("<b>#", 400, 800),
        ("</b>", 0, 400),
        ("</i></r>", 0, 1),
    ];
    is_told(&rt, rt.alloc(), query, &parts, b"<n></n>")
}
