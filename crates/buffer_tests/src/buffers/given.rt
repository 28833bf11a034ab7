//! The roles that are given to nodes, with no statement carried out.
use super::{Case, are_told};
use std::test::Fail;

const CASES: &[Case<'static>] = &[
    // the copies of /a/b
    (
        "<r>{for $x in /a/b return $x}</r>",
        "<a><b>1</b><c/><b>2</b></a>",
        "11 ?",
        "+0{0} +1{1} +2{2,3} +3{3} -2 +4 -4 x4 +5{2,3} +6{3} -5 -1 -0 ( 0 1 2 3 5 6 h6 n7 t0 w0 ) most 6",
    ),
    // nested matches of a descendant step, and one node from two of them
    (
        "for $x in //a return for $y in $x//b return <h/>",
        "<a><a><b/></a></a>",
        "7 ?",
        "+0{0} +1{1} +2{1} +3{2} -3 -2 -1 -0 ( 0 1 2 3 h4 n4 t0 w0 ) most 4",
    ),
    // the first match alone
    (
        "for $x in /r/p return if (exists($x/k)) then <y/> else <n/>",
        "<r><p><k/><k/></p></r>",
        "9 ?",
        "+0{0} +1{1} +2{2} +3{3} -3 +4 -4 x4 -2 -1 -0 ( 0 1 2 3 h4 n5 t0 w0 ) most 5",
    ),
    // child steps to no other level
    (
        "for $x in /r/a return <h/>",
        "<r><a><a/></a><b/><a>x</a></r>",
        "12 ?",
        "+0{0} +1{1} +2{2} +3 -3 x3 -2 +4 -4 x4 +5{2} +6 x6 -5 -1 -0 ( 0 1 2 5 h4 n7 t0 w0 ) most 4",
    ),
    // a descendant step behind another, and a child step behind it
    (
        "for $x in //a return (for $y in $x//b return <h/>, for $z in $x/c return <h/>)",
        "<a><b><c><b/></c></b><a><c/></a></a>",
        "13 ?",
        "+0{0} +1{1} +2{2} +3 +4{2} -4 -3 -2 +5{1} +6{3} -6 -5 -1 -0 ( 0 1 2 3 4 5 6 h7 n7 t0 w0 ) most 7",
    ),
    // whole subtrees in one another, and in those of another role
    (
        "for $x in //a return ($x, $x//b)",
        "<a><b>x<a><b/></a></b><c>y</c></a>",
        "13 ?",
        "+0{0} +1{1,2} +2{2,3,4} +3{2,4} +4{1,2,4} +5{2,3,4} -5 -4 -2 +6{2} +7{2} -6 -1 -0 ( 0 1 2 3 4 5 6 7 h8 n8 t0 w0 ) most 8",
    ),
    // texts below a match, and elsewhere
    (
        "for $x in /r/a return ($x/text(), $x//b)",
        "<r>1<a>2<b>3</b></a><b>4</b></r>",
        "13 ?",
        "+0{0} +1{1} +2 x2 +3{2} +4{3,4} +5{5,6} +6{6} -5 -3 +7 +8 x8 -7 x7 -1 -0 ( 0 1 3 4 5 6 h6 n9 t0 w0 ) most 7",
    ),
    // a first match for each context, or for several
    (
        "for $x in //a return if (exists($x//b)) then <y/> else ()",
        "<a><a><c/><b/></a><b/><a><b/></a></a>",
        "15 ?",
        "+0{0} +1{1} +2{1} +3 -3 x3 +4{2} -4 -2 +5 -5 x5 +6{1} +7{2} -7 -6 -1 -0 ( 0 1 2 4 6 7 h6 n8 t0 w0 ) most 6",
    ),
    // a tail with a descendant step before its last
    (
        "for $x in //a return if (exists($x//b/c)) then <y/> else ()",
        "<a><a><b><b><c/></b><c/></b></a><b><c/></b></a>",
        "17 ?",
        "+0{0} +1{1} +2{1} +3 +4 +5{2} -5 -4 +6 -6 x6 -3 -2 +7 +8 -8 x8 -7 x7 -1 -0 ( 0 1 2 3 4 5 h6 n9 t0 w0 ) most 8",
    ),
    // and behind a child step
    (
        "for $x in //a return if (exists($x/b//c)) then <y/> else ()",
        "<a><b><a><c/></a><b><c/></b></b><b><c/></b></a>",
        "17 ?",
        "+0{0} +1{1} +2 +3{1} +4{2} -4 -3 +5 +6 -6 x6 -5 x5 -2 +7 +8 -8 x8 -7 x7 -1 -0 ( 0 1 2 3 4 h5 n9 t0 w0 ) most 7",
    ),
    // first matches at the document node, of an element, of a text, of any node
    (
        "if (exists(//*) and exists(//text()) and exists(/r/node())) then <y/> else ()",
        "<r>1<a>2</a></r>",
        "7 ?",
        "+0{0} +1{1} +2{2,3} +3 +4 x4 -3 x3 -1 -0 ( 0 1 2 h3 n5 t0 w0 ) most 4",
    ),
    // any element and any node
    (
        "for $x in /* return for $y in $x/node() return <h/>",
        "<r>1<a>2</a>3</r>",
        "8 ?",
        "+0{0} +1{1} +2{2} +3{2} +4 x4 -3 +5{2} -1 -0 ( 0 1 2 3 5 h5 n6 t0 w0 ) most 5",
    ),
    // an empty tail
    (
        r#"for $x in /r/a return if ($x = "1") then <y/> else ()"#,
        "<r><a><b>1</b></a><b/></r>",
        "10 ?",
        "+0{0} +1{1} +2{2,3} +3{3} +4{3} -3 -2 +5 -5 x5 -1 -0 ( 0 1 2 3 4 h5 n6 t0 w0 ) most 6",
    ),
    // equal rows aren't merged
    (
        "for $x in /a return ($x/b, $x/b, if (exists($x/b) and exists($x/b)) then <y/> else ())",
        "<a><b/><b/></a>",
        "7 ?",
        "+0{0} +1{1} +2{2,3,4,5,6,7} -2 +3{2,3,4,5} -3 -1 -0 ( 0 1 2 3 h4 n4 t0 w0 ) most 4",
    ),
    // below a level with nothing to come
    (
        "(/r/a, /r/b/c)",
        "<r><d><a><c/></a></d><b><a/><c>1</c></b></r>",
        "16 ?",
        "+0{0} +1{1,4} +2 +3 +4 -4 x4 -3 x3 -2 x2 +5{5} +6 -6 x6 +7{6,7} +8{7} -7 -5 -1 -0 ( 0 1 5 7 8 h5 n9 t0 w0 ) most 5",
    ),
];

#[test]
fn nodes_are_given_their_roles(rt: HostRuntime) -> Result<(), Fail> {
    are_told(&rt, rt.alloc(), CASES)
}
