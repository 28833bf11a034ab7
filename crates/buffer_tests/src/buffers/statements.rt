//! Statements carried out at closed and at open nodes: the roles taken back, and the nodes that leave.
use super::{Case, are_told};
use std::test::Fail;

const BASES: &[Case<'static>] = &[
    // the copies of /a/b, each let go once it is written
    (
        "<r>{for $x in /a/b return $x}</r>",
        "<a><b>1</b><c/><b>2</b></a>",
        "4 o3@2 o2@2 5 o3@5 o2@5 ? 1 o1@1 1 o0@0 ?",
        "+0{0} +1{1} +2{2,3} +3{3} -2 o ~2 x3 o ~1 x2 +4 -4 x4 +5{2,3} +6{3} -5 o ~2 x6 o ~1 x5 ( 0+ 1+ h2 n7 t6 w0 ) -1 o ~1 x1 -0 o ~1 x0 ( h0 n7 t8 w0 ) most 4",
    ),
    // a first match, let go while its base is open
    (
        "for $x in /r/p return if (exists($x/k)) then <y/> else <n/>",
        "<r><p><k/></p></r>",
        "3 o3@2 o2@2 ? 1 ? 1 1 o1@1 1 o0@0 ?",
        "+0{0} +1{1} +2{2} +3{3} o ~1 o ~1 ( 0+ 1+ 2+ 3+ h4 n4 t2 w1 ) -3 x3 ( 0+ 1+ 2+ h3 n4 t2 w0 ) -2 x2 -1 o ~1 x1 -0 o ~1 x0 ( h0 n4 t4 w0 ) most 4",
    ),
    // a comparison that is true early
    (
        r#"for $x in /r/p return if ($x/k = "1") then <y/> else <n/>"#,
        "<r><p><k>1</k><k>2</k><k>3</k></p></r>",
        "5 o3@2 o2@2 3 3 ? 1 1 o1@1 1 o0@0 ?",
        "+0{0} +1{1} +2{2} +3{3} +4{3} -3 o ~2 x4 x3 o ~1 +5{3} ~1 +6{3} ~1 x6 -5 x5 +7{3} ~1 +8{3} ~1 x8 -7 x7 ( 0+ 1+ 2+ h3 n9 t7 w0 ) -2 x2 -1 o ~1 x1 -0 o ~1 x0 ( h0 n9 t9 w0 ) most 5",
    ),
    // a join: statements of another loop at the document node
    (
        "for $a in /r/x return for $b in /r/y return if ($a/k = $b/k) then <m/> else ()",
        "<r><x><k>1</k></x><y><k>1</k></y><y><k>2</k></y></r>",
        "16 o5@2 o2@2 ? o1@1 1 o3@0 ? 1 o4@0 o6@0 ? o0@0 ?",
        "+0{0} +1{1,3} +2{2} +3{5} +4{5} -3 -2 +5{4} +6{6} +7{6} -6 -5 +8{4} +9{6} +10{6} -9 -8 o ~2 x4 x3 o ~1 x2 ( 0+ 1+ 5 6 7 8 9 10 h8 n11 t3 w0 ) o ~1 -1 o ~1 ( 0+ 1 5 6 7 8 9 10 h8 n11 t5 w1 ) -0 o ~2 o ~4 x10 x9 x8 x7 x6 x5 x1 ( 0 h1 n11 t11 w0 ) o ~1 x0 ( h0 n11 t12 w0 ) most 11",
    ),
    // a node that two bases reach, the outer one signed first
    (
        "for $x in //a return for $y in $x//b return <h/>",
        "<a><a><b/></a></a>",
        "6 o2@1 o1@1 ? o2@2 o1@2 1 o0@0 ?",
        "+0{0} +1{1} +2{1} +3{2} -3 -2 -1 o o ~1 ( 0+ 1 2 3 h4 n4 t1 w0 ) o ~1 x3 o ~1 x2 x1 -0 o ~1 x0 ( h0 n4 t4 w0 ) most 4",
    ),
    // the inner one signed first
    (
        "for $x in //a return for $y in $x//b return <h/>",
        "<a><a><b/></a></a>",
        "6 o2@2 o1@2 ? o2@1 o1@1 1 o0@0 ?",
        "+0{0} +1{1} +2{1} +3{2} -3 -2 -1 o o ~1 ( 0+ 1 2 3 h4 n4 t1 w0 ) o ~1 x3 x2 o ~1 x1 -0 o ~1 x0 ( h0 n4 t4 w0 ) most 4",
    ),
    // both on open nodes: the node behind leaves as it comes to its end
    (
        "for $x in //a return for $y in $x//b return <h/>",
        "<a><a><b/></a><b/></a>",
        "2 o2@1 1 ? o2@2 1 1 ? 1 1 ? o1@2 o1@1 2 o0@0 ?",
        "+0{0} +1{1} +2{1} o +3{2} ( 0+ 1+ 2+ 3+ h4 n4 t0 w0 ) o ~1 -3 x3 -2 ( 0+ 1+ 2 h3 n4 t1 w0 ) +4{2} ~1 -4 x4 ( 0+ 1+ 2 h3 n5 t2 w0 ) o ~1 x2 o ~1 -1 x1 -0 o ~1 x0 ( h0 n5 t5 w0 ) most 4",
    ),
    // one of two bases signed ahead, and a third that opens later
    (
        "for $x in //a return for $y in $x//b return <h/>",
        "<a><a><b/></a><a><b/></a><b/></a>",
        "2 o2@1 3 ? 3 ? o2@4 ? 2 1 ? o2@2 o1@1 ? o1@2 o1@4 2 ?",
        "+0{0} +1{1} +2{1} o +3{2} -3 -2 ( 0+ 1+ 2 3 h4 n4 t0 w0 ) +4{1} +5{2} -5 ( 0+ 1+ 2 3 4+ 5 h6 n6 t0 w0 ) o ~1 x5 ( 0+ 1+ 2 3 4+ h5 n6 t1 w1 ) -4 +6{2} ~1 -6 x6 ( 0+ 1+ 2 3 4 h5 n7 t2 w0 ) o ~1 x3 o ~1 ( 0+ 1+ 2 4 h4 n7 t4 w0 ) o ~1 x2 o ~1 x4 -1 x1 -0 ( 0 h1 n7 t6 w0 ) most 6",
    ),
    // a first match for each base
    (
        "for $x in //a return if (exists($x//b)) then <y/> else ()",
        "<a><b/><a><b/></a></a>",
        "8 o2@1 o1@1 ? o2@3 o1@3 1 o0@0 ?",
        "+0{0} +1{1} +2{2} -2 +3{1} +4{2} -4 -3 -1 o ~1 x2 o ~1 ( 0+ 1 3 4 h4 n5 t2 w0 ) o ~1 x4 o ~1 x3 x1 -0 o ~1 x0 ( h0 n5 t5 w0 ) most 5",
    ),
    // the same one for both
    (
        "for $x in //a return if (exists($x//b)) then <y/> else ()",
        "<a><a><b/></a></a>",
        "3 o2@1 ? o2@2 ? 3 o1@1 o1@2 1 o0@0 ?",
        "+0{0} +1{1} +2{1} +3{2} o ( 0+ 1+ 2+ 3+ h4 n4 t0 w1 ) o ~1 ( 0+ 1+ 2+ 3+ h4 n4 t1 w2 ) -3 x3 -2 -1 o ~1 o ~1 x2 x1 -0 o ~1 x0 ( h0 n4 t4 w0 ) most 4",
    ),
    // a first match of many contexts of one base
    (
        "for $x in /r return for $y in //a return if (exists($y//b)) then <y/> else ()",
        "<r><a><a><b/></a><b/></a><a><b/></a></r>",
        "9 o1@1 ? o2@0 1 o3@0 ? 4 ? 1 ?",
        "+0{0} +1{1} +2{2} +3{2} +4{3} -4 -3 +5 -5 x5 -2 o ~1 ( 0+ 1+ 2 3 4 h5 n6 t1 w0 ) o ~2 +6{2} ~1 o ~1 x4 x3 x2 ( 0+ 1+ 6+ h3 n7 t5 w1 ) +7{3} ~1 -7 x7 -6 x6 -1 x1 ( 0+ h1 n8 t6 w0 ) -0 ( 0 h1 n8 t6 w0 ) most 6",
    ),
];

#[test]
fn roles_are_taken_back_at_one_base_and_at_two(rt: HostRuntime) -> Result<(), Fail> {
    are_told(&rt, rt.alloc(), BASES)
}

const SUBTREES: &[Case<'static>] = &[
    // a whole subtree from two bases
    (
        r#"for $x in //a return for $y in $x//b return if ($y/c = "1") then <y/> else ()"#,
        "<a><b><c>1</c></b><a><b><c/></b></a></a>",
        "13 o2@1 o3@1 ? o1@1 o2@5 o3@5 ? o1@5 1 o0@0 ?",
        "+0{0} +1{1} +2{2} +3{3} +4{3} -3 -2 +5{1} +6{2} +7{3} -7 -6 -5 -1 o ~1 o ~2 x4 x3 x2 ( 0+ 1 5 6 7 h5 n8 t3 w0 ) o ~1 o ~1 o ~1 x7 x6 ( 0+ 1 5 h3 n8 t6 w0 ) o ~1 x5 x1 -0 o ~1 x0 ( h0 n8 t8 w0 ) most 8",
    ),
    // whole subtrees in one another
    (
        "//a",
        "<a>1<a>2</a><b>3</b></a>",
        "5 o2@3 ? o1@3 4 ? o2@1 o1@1 1 o0@0 ?",
        "+0{0} +1{1,2} +2{2} +3{1,2} +4{2} -3 o ( 0+ 1+ 2 3 4 h5 n5 t0 w0 ) o ~1 +5{2} +6{2} -5 -1 ( 0+ 1 2 3 4 5 6 h7 n7 t1 w0 ) o ~6 x6 x5 x4 x3 x2 o ~1 x1 -0 o ~1 x0 ( h0 n7 t9 w0 ) most 7",
    ),
    // from the outside in
    (
        "//a",
        "<a>1<a>2</a><b>3</b></a>",
        "9 o2@1 ? o1@1 o2@3 ? o1@3 1 o0@0 ?",
        "+0{0} +1{1,2} +2{2} +3{1,2} +4{2} -3 +5{2} +6{2} -5 -1 o ~4 x6 x5 x2 ( 0+ 1 3 4 h4 n7 t4 w0 ) o ~1 o ~2 x4 ( 0+ 1 3 h3 n7 t7 w0 ) o ~1 x3 x1 -0 o ~1 x0 ( h0 n7 t9 w0 ) most 7",
    ),
    // on open nodes, in one another
    (
        "//a",
        "<a>1<a>2</a><b>3</b></a>",
        "2 o2@1 1 ? 1 ? o2@3 1 ? 4 ? o1@1 o1@3 1 ?",
        "+0{0} +1{1,2} +2{2} o ~2 x2 +3{1,2} ( 0+ 1+ 3+ h3 n4 t2 w0 ) +4{2} ( 0+ 1+ 3+ 4 h4 n5 t2 w0 ) o ~2 x4 -3 ( 0+ 1+ 3 h3 n5 t4 w0 ) +5{2} ~1 +6{2} ~1 x6 -5 x5 -1 ( 0+ 1 3 h3 n7 t6 w0 ) o ~1 o ~1 x3 x1 -0 ( 0 h1 n7 t8 w0 ) most 4",
    ),
    // the roles of a text, one after the other
    (
        "for $x in /a return ($x, $x//text())",
        "<a><b>1</b>2</a>",
        "1 o2@1 2 ? o4@3 o3@3 ? 2 ? o3@4 o4@4 ? 1 o1@1 1 o0@0 ?",
        "+0{0} +1{1,2} o ~1 +2{2} ~1 +3{2,3,4} ~1 ( 0+ 1+ 2+ 3 h4 n4 t3 w0 ) o ~1 o ~1 x3 ( 0+ 1+ 2+ h3 n4 t5 w0 ) -2 x2 +4{2,3,4} ~1 ( 0+ 1+ 4 h3 n5 t6 w0 ) o ~1 o ~1 x4 ( 0+ 1+ h2 n5 t8 w0 ) -1 o ~1 x1 -0 o ~1 x0 ( h0 n5 t10 w0 ) most 4",
    ),
    // what is signed goes with its node
    (
        "for $x in //a return for $y in $x//b return <h/>",
        "<r><a><b/></a><a><b/></a></r>",
        "2 o2@2 2 o1@2 4 ? 1 o2@4 o1@4 2 ?",
        "+0{0} +1 +2{1} o +3{2} ~1 -3 x3 o ~1 -2 x2 +4{1} +5{2} -5 ( 0+ 1+ 4+ 5 h4 n6 t2 w0 ) -4 o ~1 x5 o ~1 x4 -1 x1 -0 ( 0 h1 n6 t4 w0 ) most 4",
    ),
];

#[test]
fn roles_of_whole_subtrees_are_taken_back(rt: HostRuntime) -> Result<(), Fail> {
    are_told(&rt, rt.alloc(), SUBTREES)
}

const TIMES: &[Case<'static>] = &[
    // a statement before its base closes, another behind that
    (
        "for $x in /r/a return (if (exists($x/b)) then <y/> else (), $x/c)",
        "<r><a><b/><c>1</c><b/></a></r>",
        "4 o3@2 ? 5 1 ? o4@4 o5@4 ? o2@2 1 o1@1 1 o0@0 ?",
        "+0{0} +1{1} +2{2} +3{3} -3 o ~1 x3 ( 0+ 1+ 2+ h3 n4 t1 w1 ) +4{4,5} +5{5} -4 +6 -6 x6 -2 ( 0+ 1+ 2 4 5 h5 n7 t1 w0 ) o ~1 o ~2 x5 x4 ( 0+ 1+ 2 h3 n7 t4 w0 ) o ~1 x2 -1 o ~1 x1 -0 o ~1 x0 ( h0 n7 t7 w0 ) most 6",
    ),
    // a base's own role before its others
    (
        "for $x in /r/p return if (exists($x/k)) then <y/> else <n/>",
        "<r><p><k/></p><p/></r>",
        "3 o2@2 ? 1 1 ? o3@2 ? 1 o3@4 o2@4 1 ? o1@1 2 o0@0 ?",
        "+0{0} +1{1} +2{2} +3{3} o ~1 ( 0+ 1+ 2+ 3+ h4 n4 t1 w0 ) -3 -2 ( 0+ 1+ 2 3 h4 n4 t1 w0 ) o ~1 x3 x2 ( 0+ 1+ h2 n4 t2 w0 ) +4{2} o o ~1 -4 x4 ( 0+ 1+ h2 n5 t3 w0 ) o ~1 -1 x1 -0 o ~1 x0 ( h0 n5 t5 w0 ) most 4",
    ),
    // own roles of open nodes
    (
        "for $x in //a return <h/>",
        "<a><b><a/></b><c/></a>",
        "3 o1@1 o1@3 ? 2 ? 2 ? 2 o0@0 ?",
        "+0{0} +1{1} +2 +3{1} o ~1 o ~1 ( 0+ 1+ 2+ 3+ h4 n4 t2 w0 ) -3 x3 -2 x2 ( 0+ 1+ h2 n4 t2 w0 ) +4 -4 x4 ( 0+ 1+ h2 n5 t2 w0 ) -1 x1 -0 o ~1 x0 ( h0 n5 t3 w0 ) most 4",
    ),
    // two descendant steps from the base, a name twice on the way
    (
        "for $x in //a return for $y in $x//b return for $z in $y//c return <h/>",
        "<a><b><a><c/><b><c/></b></a></b></a>",
        "12 o3@1 ? o2@1 o1@1 ? o2@3 o3@3 ? o1@3 1 o0@0 ?",
        "+0{0} +1{1} +2{2} +3{1} +4{3} -4 +5{2} +6{3} -6 -5 -3 -2 -1 o ~1 x4 ( 0+ 1 2 3 5 6 h6 n7 t1 w0 ) o ~1 o ~1 ( 0+ 1 2 3 5 6 h6 n7 t3 w0 ) o ~1 o ~1 x6 x5 ( 0+ 1 2 3 h4 n7 t5 w0 ) o ~1 x3 x2 x1 -0 o ~1 x0 ( h0 n7 t7 w0 ) most 7",
    ),
    // whole subtrees below two bases, let go inside one of them
    (
        "for $x in //a return for $y in $x//b return $y",
        "<a><a><b>1<b/>2</b></a><b>3</b></a>",
        "4 o3@1 o2@1 ? o3@2 ? 2 ? 1 ? o2@2 1 ? 3 2 o1@1 ? o1@2 1 ?",
        "+0{0} +1{1} +2{1} +3{2,3} +4{3} o o ( 0+ 1+ 2+ 3+ 4 h5 n5 t0 w2 ) o ~2 x4 ( 0+ 1+ 2+ 3+ h4 n5 t2 w3 ) +5{2,3} ~1 -5 ( 0+ 1+ 2+ 3+ 5 h5 n6 t3 w0 ) +6{3} ~1 x6 ( 0+ 1+ 2+ 3+ 5 h5 n7 t4 w0 ) o ~2 x5 -3 x3 ( 0+ 1+ 2+ h3 n7 t6 w0 ) -2 +7{2,3} ~2 +8{3} ~1 x8 -7 x7 -1 o ~1 ( 0+ 1 2 h3 n9 t10 w0 ) o ~1 x2 x1 -0 ( 0 h1 n9 t11 w0 ) most 5",
    ),
    // bases at each level
    (
        "for $x in //* return if (exists($x/*//text())) then <y/> else ()",
        "<a><b><c>1</c><c/></b><b>2<c>3</c></b></a>",
        "4 o2@2 o2@1 ? o1@3 o2@3 2 ? o1@5 o2@5 2 ? 4 o2@6 o1@8 ? 2 o1@6 o1@2 ? 2 o1@1 o0@0 ?",
        "+0{0} +1{1} +2{1} +3{1} +4{2} o o ~1 x4 ( 0+ 1+ 2+ 3+ h4 n5 t1 w2 ) o ~1 o -3 x3 +5{1} ( 0+ 1+ 2+ 5+ h4 n6 t2 w0 ) o ~1 o -5 x5 -2 ( 0+ 1+ 2 h3 n6 t3 w0 ) +6{1} +7 x7 +8{1} +9{2} o ~1 x9 o ~1 ( 0+ 1+ 2 6+ 8+ h5 n10 t5 w1 ) -8 x8 -6 o ~1 x6 o ~1 x2 ( 0+ 1+ h2 n10 t7 w0 ) -1 -0 o ~1 x1 o ~1 x0 ( h0 n10 t9 w0 ) most 6",
    ),
    // nothing is wanted
    (
        "()",
        "<a><b>x</b></a>",
        "3 o0@0 ? 1 1 1 ?",
        "+0{0} +1 +2 +3 x3 o ~1 ( 0+ 1+ 2+ h3 n4 t1 w0 ) -2 x2 -1 x1 -0 x0 ( h0 n4 t1 w0 ) most 3",
    ),
    // equal rows, one after the other
    (
        "(/a/b, /a/b)",
        "<a><b>1</b><b/></a>",
        "4 o3@2 o2@2 ? o6@2 o5@2 ? 3 o3@4 o6@4 o5@4 o2@4 o4@1 o1@1 1 o0@0 ?",
        "+0{0} +1{1,4} +2{2,3,5,6} +3{3,6} -2 o ~2 o ~1 ( 0+ 1+ 2 3 h4 n4 t3 w0 ) o ~2 x3 o ~1 x2 ( 0+ 1+ h2 n4 t6 w0 ) +4{2,3,5,6} -4 -1 o ~1 o ~1 o ~1 o ~1 x4 o ~1 o ~1 x1 -0 o ~1 x0 ( h0 n5 t13 w0 ) most 4",
    ),
    // one context of two rows
    (
        "for $x in /a return if (exists($x/b) and exists($x/b)) then <y/> else ()",
        "<a><b/><b/></a>",
        "2 o2@1 ? o3@1 4 ? o1@1 1 ?",
        "+0{0} +1{1} +2{2,3} o ~1 ( 0+ 1+ 2+ h3 n3 t1 w1 ) o ~1 -2 x2 +3 -3 x3 -1 ( 0+ 1 h2 n4 t2 w0 ) o ~1 x1 -0 ( 0 h1 n4 t3 w0 ) most 3",
    ),
    // all is let go at the end
    (
        "<r>{for $x in /a/b return $x}</r>",
        "<a><b>1</b><c/><b>2</b></a>",
        "11 o3@5 o3@2 o2@2 o2@5 ? o0@0 o1@1 ?",
        "+0{0} +1{1} +2{2,3} +3{3} -2 +4 -4 x4 +5{2,3} +6{3} -5 -1 -0 o ~2 x6 o ~2 x3 o ~1 x2 o ~1 x5 ( 0 1 h2 n7 t6 w0 ) o ~1 o ~1 x1 x0 ( h0 n7 t8 w0 ) most 6",
    ),
    // a statement of the document node, ahead
    (
        "if (exists(//b)) then <y/> else ()",
        "<a><c/><b><b/></b><b/></a>",
        "4 o1@0 ? 1 1 1 ? 2 1 o0@0 1 ?",
        "+0{0} +1 +2 -2 x2 +3{1} o ~1 ( 0+ 1+ 3+ h3 n4 t1 w1 ) +4 -4 x4 -3 x3 ( 0+ 1+ h2 n5 t1 w0 ) +5 -5 x5 -1 x1 o ~1 -0 x0 ( h0 n6 t2 w0 ) most 4",
    ),
    // texts that are first matches
    (
        "for $x in //a return if (exists($x//text())) then <y/> else ()",
        "<a><b>1</b><a>2</a>3</a>",
        "4 o2@1 ? 1 1 1 ? o2@4 ? 1 1 o1@1 o1@4 1 ?",
        "+0{0} +1{1} +2 +3{2} -2 o ~1 x3 x2 ( 0+ 1+ h2 n4 t1 w1 ) +4{1} +5{2} -4 ( 0+ 1+ 4 5 h4 n6 t1 w0 ) o ~1 x5 ( 0+ 1+ 4 h3 n6 t2 w0 ) +6 x6 -1 o ~1 o ~1 x4 x1 -0 ( 0 h1 n7 t4 w0 ) most 4",
    ),
];

#[test]
fn roles_are_taken_back_at_any_time(rt: HostRuntime) -> Result<(), Fail> {
    are_told(&rt, rt.alloc(), TIMES)
}
