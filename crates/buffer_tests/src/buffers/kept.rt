//! How many pairs of a row and a role are kept: of a role that is given to whole subtrees those at its tops alone.
use super::{followed, is_same, plan_of};
use crate::large::spelled;
use raw_nodes::RawNodes;
use std::alloc::Global;
use std::fmt::Write;
use std::process::Abort;
use std::test::Fail;

/// The numbers of pairs and of rows behind the script, where roles are spread or aren't.
fn entries(
    alloc: Global,
    query: &str,
    document: &str,
    script: &str,
    spread: bool,
) -> Result<(u64, u64), Fail> {
    let plan = plan_of(alloc, query.as_bytes())?;
    let mut told = String::new(alloc);
    let nodes = RawNodes::new(alloc);
    let document = document.as_bytes();
    let buffer = followed(alloc, &mut told, nodes, &plan, document, script, spread)?;
    Ok((buffer.entries(), buffer.held()))
}

/// A query, a document, a script, and what is kept behind each of its words: how many pairs of a row and a role where
/// roles are spread, how many where they aren't, and how many rows.
type Order<'a> = (&'a str, &'a str, &'a str, &'a str);

/// Bases inside one another, which reach the same nodes.
const BELOW: &str = "for $x in //a return for $y in $x//b return $y";

const BELOW_IN: &str = "<a><a><b><b>1</b></b></a></a>";

/// Tops inside one another, by two statements.
const INSIDE: &str = "for $x in //a return ($x, for $y in $x/b return $y)";

const INSIDE_IN: &str = "<a><b>1</b><a><b>2</b><c>3</c></a></a>";

/// One base above all tops.
const ALONE: &str = "for $x in /a return (for $y in $x//b return $y, $x)";

const ALONE_IN: &str = "<a><b><b/></b>1<c>2</c></a>";

/// Several copies of the same subtrees.
const COPIES: &str = "for $x in /r/p return ($x, $x, $x)";

const COPIES_IN: &str = "<r><p>1<q/></p><p/></r>";

const ORDERS: [Order<'static>; 17] = [
    // a text has the role of the copy from above
    (
        "<r>{for $x in /a/b return $x}</r>",
        "<a><b>1</b><c/><b>2</b></a>",
        "3",
        " 4/5/4",
    ),
    (
        BELOW,
        BELOW_IN,
        "9 o3@2 o2@2 o3@1 o2@1",
        " 7/8/6 7/8/6 7/8/6 5/5/5 3/3/3",
    ),
    (
        BELOW,
        BELOW_IN,
        "9 o1@2 o3@1 o2@1 o3@2 o2@2 o1@1",
        " 7/8/6 6/7/6 6/7/6 6/7/6 4/4/5 2/2/2 1/1/1",
    ),
    (BELOW, BELOW_IN, "2 o3@1 7 o3@2", " 3/3/3 3/3/3 7/8/6 5/5/5"),
    (BELOW, BELOW_IN, "2 o3@1 o3@2 7", " 3/3/3 3/3/3 3/3/3 5/5/5"),
    (
        BELOW,
        BELOW_IN,
        "2 o3@2 2 o3@1 5",
        " 3/3/3 3/3/3 7/7/5 5/5/5 5/5/5",
    ),
    (
        BELOW,
        BELOW_IN,
        "4 o3@2 o2@2 5 o2@1 o3@1",
        " 7/7/5 7/7/5 7/7/5 7/8/6 5/6/6 3/3/3",
    ),
    (INSIDE, INSIDE_IN, "12 o2@4 o2@1", " 9/17/9 8/17/9 7/9/7"),
    (INSIDE, INSIDE_IN, "12 o2@1 o2@4", " 9/17/9 8/14/9 7/9/7"),
    (
        INSIDE,
        INSIDE_IN,
        "12 o4@2 o2@1 o4@5 o2@4",
        " 9/17/9 8/15/9 7/12/8 6/10/8 5/5/5",
    ),
    (
        INSIDE,
        INSIDE_IN,
        "12 o2@1 o1@1 o4@5 o3@5 o2@4 o4@2",
        " 9/17/9 8/14/9 7/13/9 6/11/9 5/10/9 4/5/5 3/3/4",
    ),
    (
        INSIDE,
        INSIDE_IN,
        "1 o2@1 11 o2@4",
        " 3/3/2 2/2/2 8/14/9 7/9/7",
    ),
    (
        INSIDE,
        INSIDE_IN,
        "5 o2@4 6 o4@5 o2@1",
        " 7/10/5 6/10/5 8/17/9 7/15/9 6/7/6",
    ),
    (
        ALONE,
        ALONE_IN,
        "10 o3@3 o4@1 o2@3 o3@2",
        " 7/12/7 6/12/7 5/6/4 4/5/4 3/3/3",
    ),
    (
        ALONE,
        ALONE_IN,
        "1 o4@1 2 o3@3 o3@2 7",
        " 3/3/2 2/2/2 6/6/4 5/6/4 4/4/4 4/4/4",
    ),
    (
        COPIES,
        COPIES_IN,
        "9 o4@5 o3@2 o2@2 o4@2 o5@5 o2@5 o5@2 o3@5",
        " 10/16/6 9/15/6 8/12/6 7/11/6 6/8/6 5/7/6 4/6/6 3/3/3 2/2/2",
    ),
    (
        COPIES,
        COPIES_IN,
        "2 o4@2 7 o3@2 o2@2 o5@2",
        " 6/6/3 5/5/3 9/13/6 8/10/6 7/9/6 6/6/3",
    ),
];

/// Tells what is kept behind the script.
fn put_kept(
    alloc: Global,
    out: &mut String,
    query: &str,
    document: &str,
    script: &str,
) -> Result<(), Fail> {
    let (spread, held) = entries(alloc, query, document, script, true)?;
    let (each, rows) = entries(alloc, query, document, script, false)?;
    if rows != held {
        return Err("other rows")?;
    }
    write!(out, " {spread}/{each}/{held}")?;
    Ok(())
}

/// What is kept behind each word of the script.
fn kept_along(alloc: Global, query: &str, document: &str, script: &str) -> Result<String, Fail> {
    let mut told = String::new(alloc);
    let mut so_far = String::new(alloc);
    for word in script.split_ascii_whitespace() {
        write!(so_far, " {word}")?;
        put_kept(alloc, &mut told, query, document, &so_far)?;
    }
    Ok(told)
}

fn is_kept(rt: &impl Abort, alloc: Global, order: Order<'_>) -> Result<(), Fail> {
    let (query, document, script, want) = order;
    let got = kept_along(alloc, query, document, script)?;
    is_same(rt, got.as_str(), want, "kept", query, script);
    Ok(())
}

#[test]
fn tops_go_with_the_last_base_in_any_order(rt: HostRuntime) -> Result<(), Fail> {
    for order in ORDERS {
        is_kept(&rt, rt.alloc(), order)?;
    }
    Ok(())
}

#[test]
fn a_copied_element_keeps_the_role_for_all_below_it(rt: HostRuntime) -> Result<(), Fail> {
    let alloc = rt.alloc();
    let document = spelled(alloc, &[("<a>", 0, 1), ("<b/>", 0, 100), ("</a>", 0, 1)])?;
    is_kept(&rt, alloc, ("/a", document.as_str(), "201", " 3/103/102"))
}
