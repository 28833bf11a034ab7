//! A buffer at its limits.
use super::is_told_over;
use crate::large::{Part, spelled};
use node_store::SlabNodes;
use raw_nodes::RawNodes;
use std::alloc::Global;
use std::process::Abort;
use std::test::Fail;

/// The parts of a query, a document, a script, and what is told.
type Large = [&'static [Part]; 4];

const LARGE: [Large; 3] = [
    // 999 elements `a` inside one another and a `b` in the innermost one, which each of them reaches. All are opened, and a
    // statement is carried out at each `a`: all but the last one leave `b` its role.
    [
        &[("for $x in //a return for $y in $x//b return <h/>", 0, 1)],
        &[("<a>", 0, 999), ("<b/>", 0, 1), ("</a>", 0, 999)],
        &[("1001", 0, 1), (" o2@#", 1, 1000)],
        &[
            ("+0{0}", 0, 1),
            (" +#{1}", 1, 1000),
            (" +1000{2} -1000", 0, 1),
            (" o", 0, 998),
            (" o ~1 x1000 most 1001", 0, 1),
        ],
    ],
    // 1,998 conditions that ask for a `b`, so that the plan has 2,000 roles. The role of each condition is taken back, and
    // then the others.
    [
        &[
            ("for $x in /a return if (exists($x/b)", 0, 1),
            (" and exists($x/b)", 0, 1997),
            (") then <y/> else ()", 0, 1),
        ],
        &[("<a><b/></a>", 0, 1)],
        &[("2", 0, 1), (" o#@1", 2, 2000), (" 1 o1@1 2 ?", 0, 1)],
        &[
            ("+0{0} +1{1} +2{2", 0, 1),
            (",#", 3, 2000),
            ("}", 0, 1),
            (" o ~1", 0, 1998),
            (" -2 x2 o ~1 -1 x1 -0 ( 0 h1 n3 t1999 w0 ) most 3", 0, 1),
        ],
    ],
    // Conditions that ask for each of the elements `b2` to `b299`, so that the plan has 300 roles, those from 64 on too, and
    // each node one of its own. The role of each condition is taken back, and then the other.
    [
        &[
            ("for $x in /a return if (exists($x/b2)", 0, 1),
            (" and exists($x/b#)", 3, 300),
            (") then <y/> else ()", 0, 1),
        ],
        &[("<a>", 0, 1), ("<b#/>", 2, 300), ("</a>", 0, 1)],
        &[("597", 0, 1), (" o#@1", 2, 300), (" o1@1 2 ?", 0, 1)],
        &[
            ("+0{0} +1{1}", 0, 1),
            (" +#{#} -#", 2, 300),
            (" o ~1 x#", 2, 300),
            (" o ~1 -1 x1 -0 ( 0 h1 n300 t299 w0 ) most 300", 0, 1),
        ],
    ],
];

/// The script tells that, over both stores.
fn is_told_large(rt: &impl Abort, alloc: Global, texts: &[String; 4]) -> Result<(), Fail> {
    let [query, document, script, want] = texts;
    let case = (
        query.as_str(),
        document.as_str(),
        script.as_str(),
        want.as_str(),
    );
    is_told_over(rt, alloc, SlabNodes::new(alloc), "slab", case, true)?;
    is_told_over(rt, alloc, RawNodes::new(alloc), "raw", case, false)
}

/// The four texts.
fn texts_of(alloc: Global, parts: Large) -> Result<[String; 4], Fail> {
    let [query, document, script, want] = parts;
    let query = spelled(alloc, query)?;
    let document = spelled(alloc, document)?;
    let script = spelled(alloc, script)?;
    let want = spelled(alloc, want)?;
    Ok([query, document, script, want])
}

#[test]
fn a_thousand_levels_two_thousand_roles_and_three_hundred_nodes(
    rt: HostRuntime,
) -> Result<(), Fail> {
    for parts in LARGE {
        let texts = texts_of(rt.alloc(), parts)?;
        is_told_large(&rt, rt.alloc(), &texts)?;
    }
    Ok(())
}
