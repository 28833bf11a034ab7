//! Plans that the documents show whole.
use super::{Row, are_explained};
use std::test::Fail;

const SHOWN: &[Row] = &[
    (
        "()",
        r#"var 0 root
role 0 own 0
plan
off 0 0 . . own
"#,
    ),
    (
        r#"<r>{for $x in /a/b return $x}</r>"#,
        r#"var 0 root
var 1 of 0 child::a straight
var 2 of 1 child::b straight
role 0 own 0
role 1 own 1
role 2 own 2
role 3 whole 2 .
plan
write <r>
for 1 in 0/child::a
 for 2 in 1/child::b
  copy 2
  off 2 3 . . whole
  off 2 2 . . own
 off 1 1 . . own
write </r>
off 0 0 . . own
"#,
    ),
    (
        r#"for $a in /r/x return for $b in /r/y return if ($a/k = $b/k) then <m/> else ()"#,
        r#"var 0 root
var 1 of 0 child::r straight
var 2 of 1 child::x straight
var 3 of 0 child::r fsa 0
var 4 of 3 child::y fsa 0
role 0 own 0
role 1 own 1
role 2 own 2
role 3 own 3
role 4 own 4
role 5 whole 2 child::k
role 6 whole 4 child::k
plan
for 1 in 0/child::r
 for 2 in 1/child::x
  for 3 in 0/child::r
   for 4 in 3/child::y
    if (2/child::k = 4/child::k)
     write <m>
     write </m>
    else
  off 2 5 . child::k whole
  off 2 2 . . own
 off 1 1 . . own
off 0 3 child::r . own
off 0 4 child::r/child::y . own
off 0 6 child::r/child::y child::k whole
off 0 0 . . own
"#,
    ),
    (
        r#"for $x in /r/p return if (exists($x/k)) then for $y in $x/j return $y else ()"#,
        r#"var 0 root
var 1 of 0 child::r straight
var 2 of 1 child::p straight
var 3 of 2 child::j straight
role 0 own 0
role 1 own 1
role 2 own 2
role 3 own 3
role 4 first 2 child::k
role 5 whole 3 .
plan
for 1 in 0/child::r
 for 2 in 1/child::p
  for 3 in 2/child::j
   if exists(2/child::k)
    copy 3
   else
   off 3 5 . . whole
   off 3 3 . . own
  off 2 4 . child::k first
  off 2 2 . . own
 off 1 1 . . own
off 0 0 . . own
"#,
    ),
];

#[test]
fn plans_are_explained_line_by_line(rt: HostRuntime) -> Result<(), Fail> {
    are_explained(&rt, rt.alloc(), SHOWN)
}
