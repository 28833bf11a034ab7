//! Plans with conditions.
use super::{Row, are_explained};
use std::test::Fail;

const EXISTS: &[Row] = &[
    // exists of a variable alone is true
    (
        r#"for $x in /a return if (exists($x) and not(exists($x/b))) then $x else ()"#,
        r#"var 0 root
var 1 of 0 child::a straight
role 0 own 0
role 1 own 1
role 2 first 1 child::b
role 3 whole 1 .
plan
for 1 in 0/child::a
 if all(true(), not(exists(1/child::b)))
  copy 1
 else
 off 1 2 . child::b first
 off 1 3 . . whole
 off 1 1 . . own
off 0 0 . . own
"#,
    ),
    // a where that is true
    (
        r#"for $x in /a/b where exists($x) return $x"#,
        r#"var 0 root
var 1 of 0 child::a straight
var 2 of 1 child::b straight
role 0 own 0
role 1 own 1
role 2 own 2
role 3 whole 2 .
plan
for 1 in 0/child::a
 for 2 in 1/child::b
  if true()
   copy 2
  else
  off 2 3 . . whole
  off 2 2 . . own
 off 1 1 . . own
off 0 0 . . own
"#,
    ),
    // kind tests and any element
    (
        r#"for $x in /*//node() return if (exists($x/text()) or $x//* = "v") then $x else ()"#,
        r#"var 0 root
var 1 of 0 child::* straight
var 2 of 1 descendant::node() straight
role 0 own 0
role 1 own 1
role 2 own 2
role 3 first 2 child::text()
role 4 whole 2 descendant::*
role 5 whole 2 .
plan
for 1 in 0/child::*
 for 2 in 1/descendant::node()
  if any(exists(2/child::text()), (2/descendant::* = "v"))
   copy 2
  else
  off 2 3 . child::text() first
  off 2 4 . descendant::* whole
  off 2 5 . . whole
  off 2 2 . . own
 off 1 1 . . own
off 0 0 . . own
"#,
    ),
    // an absolute path with a descendant step in its middle, in a condition that is moved
    (
        r#"for $x in /r/p where exists(/r//s/t) return $x/q"#,
        r#"var 0 root
var 1 of 0 child::r straight
var 2 of 1 child::p straight
var 3 of 2 child::q straight
role 0 own 0
role 1 own 1
role 2 own 2
role 3 own 3
role 4 first 0 child::r/descendant::s/child::t
role 5 whole 3 .
plan
for 1 in 0/child::r
 for 2 in 1/child::p
  for 3 in 2/child::q
   if exists(0/child::r/descendant::s/child::t)
    copy 3
   else
   off 3 5 . . whole
   off 3 3 . . own
  off 2 2 . . own
 off 1 1 . . own
off 0 4 . child::r/descendant::s/child::t first
off 0 0 . . own
"#,
    ),
];

const COMPARED: &[Row] = &[
    // a comparison of two paths of two variables
    (
        r#"for $a in /r/x, $b in $a/y where $a/k != $b/m/n return $b"#,
        r#"var 0 root
var 1 of 0 child::r straight
var 2 of 1 child::x straight
var 3 of 2 child::y straight
role 0 own 0
role 1 own 1
role 2 own 2
role 3 own 3
role 4 whole 2 child::k
role 5 whole 3 child::m/child::n
role 6 whole 3 .
plan
for 1 in 0/child::r
 for 2 in 1/child::x
  for 3 in 2/child::y
   if (2/child::k != 3/child::m/child::n)
    copy 3
   else
   off 3 5 . child::m/child::n whole
   off 3 6 . . whole
   off 3 3 . . own
  off 2 4 . child::k whole
  off 2 2 . . own
 off 1 1 . . own
off 0 0 . . own
"#,
    ),
    // a comparison of two variables
    (
        r#"for $x in //t, $y in //t where $x <= $y return <p/>"#,
        r#"var 0 root
var 1 of 0 descendant::t straight
var 2 of 0 descendant::t fsa 0
role 0 own 0
role 1 own 1
role 2 own 2
role 3 whole 1 .
role 4 whole 2 .
plan
for 1 in 0/descendant::t
 for 2 in 0/descendant::t
  if (1 <= 2)
   write <p>
   write </p>
  else
 off 1 3 . . whole
 off 1 1 . . own
off 0 2 descendant::t . own
off 0 4 descendant::t . whole
off 0 0 . . own
"#,
    ),
    // numbers in conditions
    (
        r#"if (/a > -2.50 and /a < 007 and 3.0 != /a and /a >= -0.0 and /a = 0.05 and -0.5 < /b) then <y/> else <n/>"#,
        r#"var 0 root
role 0 own 0
role 1 whole 0 child::a
role 2 whole 0 child::a
role 3 whole 0 child::a
role 4 whole 0 child::a
role 5 whole 0 child::a
role 6 whole 0 child::b
plan
if all((0/child::a > -2.5), (0/child::a < 7), (3 != 0/child::a), (0/child::a >= 0), (0/child::a = 0.05), (-0.5 < 0/child::b))
 write <y>
 write </y>
else
 write <n>
 write </n>
off 0 1 . child::a whole
off 0 2 . child::a whole
off 0 3 . child::a whole
off 0 4 . child::a whole
off 0 5 . child::a whole
off 0 6 . child::b whole
off 0 0 . . own
"#,
    ),
    // the widest numbers
    (
        r#"if (/a = -9223372036854775808.000000000000000001 or 9223372036854775807.999999999999999999 = /a) then () else <n/>"#,
        r#"var 0 root
role 0 own 0
role 1 whole 0 child::a
role 2 whole 0 child::a
plan
if any((0/child::a = -9223372036854775808.000000000000000001), (9223372036854775807.999999999999999999 = 0/child::a))
else
 write <n>
 write </n>
off 0 1 . child::a whole
off 0 2 . child::a whole
off 0 0 . . own
"#,
    ),
    // strings in conditions: doubled quotes and references
    (
        r#"if (/a = 'it''s "q" &amp; &#65;&lt;' or "x""y" = /b or /c = "") then <y/> else ()"#,
        r#"var 0 root
role 0 own 0
role 1 whole 0 child::a
role 2 whole 0 child::b
role 3 whole 0 child::c
plan
if any((0/child::a = "it's ""q"" &amp; A<"), ("x""y" = 0/child::b), (0/child::c = ""))
 write <y>
 write </y>
else
off 0 1 . child::a whole
off 0 2 . child::b whole
off 0 3 . child::c whole
off 0 0 . . own
"#,
    ),
];

const JOINED: &[Row] = &[
    // not, and, or
    (
        r#"for $x in /r return if (not($x/a = $x/b) and (true() or exists($x//c)) and ($x < 2 or $x > 5)) then <y/> else ()"#,
        r#"var 0 root
var 1 of 0 child::r straight
role 0 own 0
role 1 own 1
role 2 whole 1 child::a
role 3 whole 1 child::b
role 4 first 1 descendant::c
role 5 whole 1 .
role 6 whole 1 .
plan
for 1 in 0/child::r
 if all(not((1/child::a = 1/child::b)), any(true(), exists(1/descendant::c)), any((1 < 2), (1 > 5)))
  write <y>
  write </y>
 else
 off 1 2 . child::a whole
 off 1 3 . child::b whole
 off 1 4 . descendant::c first
 off 1 5 . . whole
 off 1 6 . . whole
 off 1 1 . . own
off 0 0 . . own
"#,
    ),
    // and binds closer than or; parentheses round one condition count for nothing
    (
        r#"if (exists(/a) and exists(/b) or (exists(/c)) and not((exists(/d) or exists(/e)))) then <y/> else ()"#,
        r#"var 0 root
role 0 own 0
role 1 first 0 child::a
role 2 first 0 child::b
role 3 first 0 child::c
role 4 first 0 child::d
role 5 first 0 child::e
plan
if any(all(exists(0/child::a), exists(0/child::b)), all(exists(0/child::c), not(any(exists(0/child::d), exists(0/child::e)))))
 write <y>
 write </y>
else
off 0 1 . child::a first
off 0 2 . child::b first
off 0 3 . child::c first
off 0 4 . child::d first
off 0 5 . child::e first
off 0 0 . . own
"#,
    ),
];

#[test]
fn a_path_that_is_looked_for_has_one_role(rt: HostRuntime) -> Result<(), Fail> {
    are_explained(&rt, rt.alloc(), EXISTS)
}

#[test]
fn each_path_of_a_comparison_has_a_role(rt: HostRuntime) -> Result<(), Fail> {
    are_explained(&rt, rt.alloc(), COMPARED)
}

#[test]
fn conditions_are_read_from_the_left(rt: HostRuntime) -> Result<(), Fail> {
    are_explained(&rt, rt.alloc(), JOINED)
}
