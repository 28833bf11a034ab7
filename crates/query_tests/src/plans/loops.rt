//! Plans of loops.
use super::{Row, are_explained};
use std::test::Fail;

const FOREIGN: &[Row] = &[
    // foreign loops: a nest in a nest
    (
        r#"for $a in /r/x return for $b in /r/y return <m/>"#,
        r#"var 0 root
var 1 of 0 child::r straight
var 2 of 1 child::x straight
var 3 of 0 child::r fsa 0
var 4 of 3 child::y fsa 0
role 0 own 0
role 1 own 1
role 2 own 2
role 3 own 3
role 4 own 4
plan
for 1 in 0/child::r
 for 2 in 1/child::x
  for 3 in 0/child::r
   for 4 in 3/child::y
    write <m>
    write </m>
  off 2 2 . . own
 off 1 1 . . own
off 0 3 child::r . own
off 0 4 child::r/child::y . own
off 0 0 . . own
"#,
    ),
    // foreign loop from an outer variable that isn't the nearest loop's
    (
        r#"for $x in /a return for $y in $x/b return for $z in $x/c return $z"#,
        r#"var 0 root
var 1 of 0 child::a straight
var 2 of 1 child::b straight
var 3 of 1 child::c fsa 1
role 0 own 0
role 1 own 1
role 2 own 2
role 3 own 3
role 4 whole 3 .
plan
for 1 in 0/child::a
 for 2 in 1/child::b
  for 3 in 1/child::c
   copy 3
  off 2 2 . . own
 off 1 3 child::c . own
 off 1 4 child::c . whole
 off 1 1 . . own
off 0 0 . . own
"#,
    ),
    // loops inside a foreign loop: none is straight
    (
        r#"for $x in /a return for $y in $x/b return for $z in $x/c return for $w in $z/d return $w/e"#,
        r#"var 0 root
var 1 of 0 child::a straight
var 2 of 1 child::b straight
var 3 of 1 child::c fsa 1
var 4 of 3 child::d fsa 1
var 5 of 4 child::e fsa 1
role 0 own 0
role 1 own 1
role 2 own 2
role 3 own 3
role 4 own 4
role 5 own 5
role 6 whole 5 .
plan
for 1 in 0/child::a
 for 2 in 1/child::b
  for 3 in 1/child::c
   for 4 in 3/child::d
    for 5 in 4/child::e
     copy 5
  off 2 2 . . own
 off 1 3 child::c . own
 off 1 4 child::c/child::d . own
 off 1 5 child::c/child::d/child::e . own
 off 1 6 child::c/child::d/child::e . whole
 off 1 1 . . own
off 0 0 . . own
"#,
    ),
    // a copy of an outer variable inside a foreign loop
    (
        r#"for $x in /a/b return for $y in //c return $x"#,
        r#"var 0 root
var 1 of 0 child::a straight
var 2 of 1 child::b straight
var 3 of 0 descendant::c fsa 0
role 0 own 0
role 1 own 1
role 2 own 2
role 3 own 3
role 4 whole 2 .
plan
for 1 in 0/child::a
 for 2 in 1/child::b
  for 3 in 0/descendant::c
   copy 2
  off 2 4 . . whole
  off 2 2 . . own
 off 1 1 . . own
off 0 3 descendant::c . own
off 0 0 . . own
"#,
    ),
    // three clauses in one for, the second foreign, the third of an outer variable
    (
        r#"for $a in /r/x, $b in /r/y, $c in $a/z return ($a, $c)"#,
        r#"var 0 root
var 1 of 0 child::r straight
var 2 of 1 child::x straight
var 3 of 0 child::r fsa 0
var 4 of 3 child::y fsa 0
var 5 of 2 child::z fsa 2
role 0 own 0
role 1 own 1
role 2 own 2
role 3 own 3
role 4 own 4
role 5 own 5
role 6 whole 2 .
role 7 whole 5 .
plan
for 1 in 0/child::r
 for 2 in 1/child::x
  for 3 in 0/child::r
   for 4 in 3/child::y
    for 5 in 2/child::z
     copy 2
     copy 5
  off 2 5 child::z . own
  off 2 6 . . whole
  off 2 7 child::z . whole
  off 2 2 . . own
 off 1 1 . . own
off 0 3 child::r . own
off 0 4 child::r/child::y . own
off 0 0 . . own
"#,
    ),
];

const DEEP: &[Row] = &[
    // two descendant steps on a path
    (
        r#"for $x in //a return for $y in $x//b return $y"#,
        r#"var 0 root
var 1 of 0 descendant::a straight
var 2 of 1 descendant::b fsa 1
role 0 own 0
role 1 own 1
role 2 own 2
role 3 whole 2 .
plan
for 1 in 0/descendant::a
 for 2 in 1/descendant::b
  copy 2
 off 1 2 descendant::b . own
 off 1 3 descendant::b . whole
 off 1 1 . . own
off 0 0 . . own
"#,
    ),
    // two descendant steps, with child steps between and behind
    (
        r#"for $x in //a, $y in $x/b//c, $z in $y/d return <z/>"#,
        r#"var 0 root
var 1 of 0 descendant::a straight
var 2 of 1 child::b straight
var 3 of 2 descendant::c fsa 2
var 4 of 3 child::d fsa 2
role 0 own 0
role 1 own 1
role 2 own 2
role 3 own 3
role 4 own 4
plan
for 1 in 0/descendant::a
 for 2 in 1/child::b
  for 3 in 2/descendant::c
   for 4 in 3/child::d
    write <z>
    write </z>
  off 2 3 descendant::c . own
  off 2 4 descendant::c/child::d . own
  off 2 2 . . own
 off 1 1 . . own
off 0 0 . . own
"#,
    ),
];

const SHADOWED: &[Row] = &[
    // shadowing, and a copy of the inner one
    (
        r#"for $x in /a return for $x in $x/b return ($x, $x/c)"#,
        r#"var 0 root
var 1 of 0 child::a straight
var 2 of 1 child::b straight
var 3 of 2 child::c straight
role 0 own 0
role 1 own 1
role 2 own 2
role 3 whole 2 .
role 4 own 3
role 5 whole 3 .
plan
for 1 in 0/child::a
 for 2 in 1/child::b
  copy 2
  for 3 in 2/child::c
   copy 3
   off 3 5 . . whole
   off 3 4 . . own
  off 2 3 . . whole
  off 2 2 . . own
 off 1 1 . . own
off 0 0 . . own
"#,
    ),
    // shadowing that ends: behind the inner loop the name is the outer one
    (
        r#"for $x in /a return (for $x in $x/b return <i/>, $x)"#,
        r#"var 0 root
var 1 of 0 child::a straight
var 2 of 1 child::b straight
role 0 own 0
role 1 own 1
role 2 own 2
role 3 whole 1 .
plan
for 1 in 0/child::a
 for 2 in 1/child::b
  write <i>
  write </i>
  off 2 2 . . own
 copy 1
 off 1 3 . . whole
 off 1 1 . . own
off 0 0 . . own
"#,
    ),
    // shadowing by a later clause of the same for, with a where
    (
        r#"for $x in /a, $x in $x/b where exists($x/c) return $x"#,
        r#"var 0 root
var 1 of 0 child::a straight
var 2 of 1 child::b straight
role 0 own 0
role 1 own 1
role 2 own 2
role 3 first 2 child::c
role 4 whole 2 .
plan
for 1 in 0/child::a
 for 2 in 1/child::b
  if exists(2/child::c)
   copy 2
  else
  off 2 3 . child::c first
  off 2 4 . . whole
  off 2 2 . . own
 off 1 1 . . own
off 0 0 . . own
"#,
    ),
    // shadowing by a foreign loop, a where at each: the outer condition goes into the inner loop
    (
        r#"for $x in /a where exists($x/k) return for $x in /b where exists($x/m) return $x"#,
        r#"var 0 root
var 1 of 0 child::a straight
var 2 of 0 child::b fsa 0
role 0 own 0
role 1 own 1
role 2 own 2
role 3 first 1 child::k
role 4 first 2 child::m
role 5 whole 2 .
plan
for 1 in 0/child::a
 for 2 in 0/child::b
  if exists(1/child::k)
   if exists(2/child::m)
    copy 2
   else
  else
 off 1 3 . child::k first
 off 1 1 . . own
off 0 2 child::b . own
off 0 4 child::b child::m first
off 0 5 child::b . whole
off 0 0 . . own
"#,
    ),
];

const SIDE_BY_SIDE: &[Row] = &[
    // sequences, and nothing between
    (
        r#"<a/>, (), (/b, ((), <c/>))"#,
        r#"var 0 root
var 1 of 0 child::b straight
role 0 own 0
role 1 own 1
role 2 whole 1 .
plan
write <a>
write </a>
for 1 in 0/child::b
 copy 1
 off 1 2 . . whole
 off 1 1 . . own
write <c>
write </c>
off 0 0 . . own
"#,
    ),
    // equal paths are two loops
    (
        r#"(//a, //a)"#,
        r#"var 0 root
var 1 of 0 descendant::a straight
var 2 of 0 descendant::a straight
role 0 own 0
role 1 own 1
role 2 whole 1 .
role 3 own 2
role 4 whole 2 .
plan
for 1 in 0/descendant::a
 copy 1
 off 1 2 . . whole
 off 1 1 . . own
for 2 in 0/descendant::a
 copy 2
 off 2 4 . . whole
 off 2 3 . . own
off 0 0 . . own
"#,
    ),
    // loops side by side, and a second part of the query
    (
        r#"for $x in /a return ($x/b, $x/c/d), /e"#,
        r#"var 0 root
var 1 of 0 child::a straight
var 2 of 1 child::b straight
var 3 of 1 child::c straight
var 4 of 3 child::d straight
var 5 of 0 child::e straight
role 0 own 0
role 1 own 1
role 2 own 2
role 3 whole 2 .
role 4 own 3
role 5 own 4
role 6 whole 4 .
role 7 own 5
role 8 whole 5 .
plan
for 1 in 0/child::a
 for 2 in 1/child::b
  copy 2
  off 2 3 . . whole
  off 2 2 . . own
 for 3 in 1/child::c
  for 4 in 3/child::d
   copy 4
   off 4 6 . . whole
   off 4 5 . . own
  off 3 4 . . own
 off 1 1 . . own
for 5 in 0/child::e
 copy 5
 off 5 8 . . whole
 off 5 7 . . own
off 0 0 . . own
"#,
    ),
    // keywords as names
    (
        r#"for $for in /for/if return $for/then"#,
        r#"var 0 root
var 1 of 0 child::for straight
var 2 of 1 child::if straight
var 3 of 2 child::then straight
role 0 own 0
role 1 own 1
role 2 own 2
role 3 own 3
role 4 whole 3 .
plan
for 1 in 0/child::for
 for 2 in 1/child::if
  for 3 in 2/child::then
   copy 3
   off 3 4 . . whole
   off 3 3 . . own
  off 2 2 . . own
 off 1 1 . . own
off 0 0 . . own
"#,
    ),
    // nothing
    (
        r#"()"#,
        r#"var 0 root
role 0 own 0
plan
off 0 0 . . own
"#,
    ),
];

#[test]
fn loops_over_another_variable_have_an_outer_base(rt: HostRuntime) -> Result<(), Fail> {
    are_explained(&rt, rt.alloc(), FOREIGN)
}

#[test]
fn a_second_descendant_step_has_an_outer_base(rt: HostRuntime) -> Result<(), Fail> {
    are_explained(&rt, rt.alloc(), DEEP)
}

#[test]
fn hidden_variables_are_renamed(rt: HostRuntime) -> Result<(), Fail> {
    are_explained(&rt, rt.alloc(), SHADOWED)
}

#[test]
fn loops_side_by_side_are_straight(rt: HostRuntime) -> Result<(), Fail> {
    are_explained(&rt, rt.alloc(), SIDE_BY_SIDE)
}
