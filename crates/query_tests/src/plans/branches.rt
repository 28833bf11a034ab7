//! Plans of branches that are moved inside loops.
use super::{Row, are_explained};
use std::test::Fail;

const FILTERED: &[Row] = &[
    // a where over a loop: it goes inside the loop
    (
        r#"for $x in /a where exists($x/k) return for $y in $x/b return $y"#,
        r#"var 0 root
var 1 of 0 child::a straight
var 2 of 1 child::b straight
role 0 own 0
role 1 own 1
role 2 own 2
role 3 first 1 child::k
role 4 whole 2 .
plan
for 1 in 0/child::a
 for 2 in 1/child::b
  if exists(1/child::k)
   copy 2
  else
  off 2 4 . . whole
  off 2 2 . . own
 off 1 3 . child::k first
 off 1 1 . . own
off 0 0 . . own
"#,
    ),
    // a where over a constructor with a loop: three copies of the condition
    (
        r#"for $x in /a where $x/k = "v" return <o>{$x/b}</o>"#,
        r#"var 0 root
var 1 of 0 child::a straight
var 2 of 1 child::b straight
role 0 own 0
role 1 own 1
role 2 whole 1 child::k
role 3 own 2
role 4 whole 1 child::k
role 5 whole 2 .
role 6 whole 1 child::k
plan
for 1 in 0/child::a
 if (1/child::k = "v")
  write <o>
 else
 for 2 in 1/child::b
  if (1/child::k = "v")
   copy 2
  else
  off 2 5 . . whole
  off 2 3 . . own
 if (1/child::k = "v")
  write </o>
 else
 off 1 2 . child::k whole
 off 1 4 . child::k whole
 off 1 6 . child::k whole
 off 1 1 . . own
off 0 0 . . own
"#,
    ),
    // a where over nothing stays
    (
        r#"for $x in /a where exists($x/k) return ()"#,
        r#"var 0 root
var 1 of 0 child::a straight
role 0 own 0
role 1 own 1
role 2 first 1 child::k
plan
for 1 in 0/child::a
 if exists(1/child::k)
 else
 off 1 2 . child::k first
 off 1 1 . . own
off 0 0 . . own
"#,
    ),
    // a loop with an empty body gets by the move a branch with two empty sides
    (
        r#"if (exists(/k)) then for $x in /a return () else ()"#,
        r#"var 0 root
var 1 of 0 child::a straight
role 0 own 0
role 1 own 1
role 2 first 0 child::k
plan
for 1 in 0/child::a
 if exists(0/child::k)
 else
 off 1 1 . . own
off 0 2 . child::k first
off 0 0 . . own
"#,
    ),
    // a where over a sequence with an if whose branches are loops
    (
        r#"for $a in /r/a, $b in $a/b where $a/i = $b/i return (<s/>, if (exists($b/k)) then $b/c else $a/d, <e/>)"#,
        r#"var 0 root
var 1 of 0 child::r straight
var 2 of 1 child::a straight
var 3 of 2 child::b straight
var 4 of 3 child::c straight
var 5 of 2 child::d fsa 2
role 0 own 0
role 1 own 1
role 2 own 2
role 3 own 3
role 4 whole 2 child::i
role 5 whole 3 child::i
role 6 own 4
role 7 whole 2 child::i
role 8 whole 3 child::i
role 9 first 3 child::k
role 10 whole 4 .
role 11 own 5
role 12 whole 2 child::i
role 13 whole 3 child::i
role 14 first 3 child::k
role 15 whole 5 .
role 16 whole 2 child::i
role 17 whole 3 child::i
plan
for 1 in 0/child::r
 for 2 in 1/child::a
  for 3 in 2/child::b
   if (2/child::i = 3/child::i)
    write <s>
    write </s>
   else
   for 4 in 3/child::c
    if (2/child::i = 3/child::i)
     if exists(3/child::k)
      copy 4
     else
    else
    off 4 10 . . whole
    off 4 6 . . own
   for 5 in 2/child::d
    if (2/child::i = 3/child::i)
     if exists(3/child::k)
     else
      copy 5
    else
   if (2/child::i = 3/child::i)
    write <e>
    write </e>
   else
   off 3 5 . child::i whole
   off 3 8 . child::i whole
   off 3 9 . child::k first
   off 3 13 . child::i whole
   off 3 14 . child::k first
   off 3 17 . child::i whole
   off 3 3 . . own
  off 2 4 . child::i whole
  off 2 7 . child::i whole
  off 2 11 child::d . own
  off 2 12 . child::i whole
  off 2 15 child::d . whole
  off 2 16 . child::i whole
  off 2 2 . . own
 off 1 1 . . own
off 0 0 . . own
"#,
    ),
];

const NESTED: &[Row] = &[
    // nested ifs with loops in both branches
    (
        r#"for $x in /a return if (exists($x/p)) then (if (exists($x/q)) then $x/b else $x/c) else $x/d"#,
        r#"var 0 root
var 1 of 0 child::a straight
var 2 of 1 child::b straight
var 3 of 1 child::c straight
var 4 of 1 child::d straight
role 0 own 0
role 1 own 1
role 2 own 2
role 3 first 1 child::p
role 4 first 1 child::q
role 5 whole 2 .
role 6 own 3
role 7 first 1 child::p
role 8 first 1 child::q
role 9 whole 3 .
role 10 own 4
role 11 first 1 child::p
role 12 whole 4 .
plan
for 1 in 0/child::a
 for 2 in 1/child::b
  if exists(1/child::p)
   if exists(1/child::q)
    copy 2
   else
  else
  off 2 5 . . whole
  off 2 2 . . own
 for 3 in 1/child::c
  if exists(1/child::p)
   if exists(1/child::q)
   else
    copy 3
  else
  off 3 9 . . whole
  off 3 6 . . own
 for 4 in 1/child::d
  if exists(1/child::p)
  else
   copy 4
  off 4 12 . . whole
  off 4 10 . . own
 off 1 3 . child::p first
 off 1 4 . child::q first
 off 1 7 . child::p first
 off 1 8 . child::q first
 off 1 11 . child::p first
 off 1 1 . . own
off 0 0 . . own
"#,
    ),
    // an inner if without loops stays, in a run beside a loop
    (
        r#"if (exists(/a)) then (if (exists(/b)) then <t/> else <f/>, /c) else <n/>"#,
        r#"var 0 root
var 1 of 0 child::c straight
role 0 own 0
role 1 first 0 child::a
role 2 first 0 child::b
role 3 own 1
role 4 first 0 child::a
role 5 whole 1 .
role 6 first 0 child::a
plan
if exists(0/child::a)
 if exists(0/child::b)
  write <t>
  write </t>
 else
  write <f>
  write </f>
else
for 1 in 0/child::c
 if exists(0/child::a)
  copy 1
 else
 off 1 5 . . whole
 off 1 3 . . own
if exists(0/child::a)
else
 write <n>
 write </n>
off 0 1 . child::a first
off 0 2 . child::b first
off 0 4 . child::a first
off 0 6 . child::a first
off 0 0 . . own
"#,
    ),
    // writes and an if that stays are one run
    (
        r#"if (exists(/a)) then (<x/>, if (exists(/b)) then <y/> else (), /c) else ()"#,
        r#"var 0 root
var 1 of 0 child::c straight
role 0 own 0
role 1 first 0 child::a
role 2 first 0 child::b
role 3 own 1
role 4 first 0 child::a
role 5 whole 1 .
plan
if exists(0/child::a)
 write <x>
 write </x>
 if exists(0/child::b)
  write <y>
  write </y>
 else
else
for 1 in 0/child::c
 if exists(0/child::a)
  copy 1
 else
 off 1 5 . . whole
 off 1 3 . . own
off 0 1 . child::a first
off 0 2 . child::b first
off 0 4 . child::a first
off 0 0 . . own
"#,
    ),
    // runs and loops in the body of a moved loop
    (
        r#"if (exists(/k)) then for $x in /a return (<p/>, $x/b, $x/c, <q/>) else ()"#,
        r#"var 0 root
var 1 of 0 child::a straight
var 2 of 1 child::b straight
var 3 of 1 child::c straight
role 0 own 0
role 1 own 1
role 2 first 0 child::k
role 3 own 2
role 4 first 0 child::k
role 5 whole 2 .
role 6 own 3
role 7 first 0 child::k
role 8 whole 3 .
role 9 first 0 child::k
plan
for 1 in 0/child::a
 if exists(0/child::k)
  write <p>
  write </p>
 else
 for 2 in 1/child::b
  if exists(0/child::k)
   copy 2
  else
  off 2 5 . . whole
  off 2 3 . . own
 for 3 in 1/child::c
  if exists(0/child::k)
   copy 3
  else
  off 3 8 . . whole
  off 3 6 . . own
 if exists(0/child::k)
  write <q>
  write </q>
 else
 off 1 1 . . own
off 0 2 . child::k first
off 0 4 . child::k first
off 0 7 . child::k first
off 0 9 . child::k first
off 0 0 . . own
"#,
    ),
    // an if with loops inside a loop inside an if
    (
        r#"if (exists(/p)) then for $x in /a return if (exists($x/q)) then for $y in $x/b return <t/> else <u/> else <v/>"#,
        r#"var 0 root
var 1 of 0 child::a straight
var 2 of 1 child::b straight
role 0 own 0
role 1 own 1
role 2 own 2
role 3 first 0 child::p
role 4 first 1 child::q
role 5 first 0 child::p
role 6 first 1 child::q
role 7 first 0 child::p
plan
for 1 in 0/child::a
 for 2 in 1/child::b
  if exists(0/child::p)
   if exists(1/child::q)
    write <t>
    write </t>
   else
  else
  off 2 2 . . own
 if exists(0/child::p)
  if exists(1/child::q)
  else
   write <u>
   write </u>
 else
 off 1 4 . child::q first
 off 1 6 . child::q first
 off 1 1 . . own
if exists(0/child::p)
else
 write <v>
 write </v>
off 0 3 . child::p first
off 0 5 . child::p first
off 0 7 . child::p first
off 0 0 . . own
"#,
    ),
];

const PATHS: &[Row] = &[
    // output paths in branches, the second one from the document node
    (
        r#"for $x in /r return if ($x/k = 1) then $x/a/b else //c"#,
        r#"var 0 root
var 1 of 0 child::r straight
var 2 of 1 child::a straight
var 3 of 2 child::b straight
var 4 of 0 descendant::c fsa 0
role 0 own 0
role 1 own 1
role 2 own 2
role 3 own 3
role 4 whole 1 child::k
role 5 whole 3 .
role 6 own 4
role 7 whole 1 child::k
role 8 whole 4 .
plan
for 1 in 0/child::r
 for 2 in 1/child::a
  for 3 in 2/child::b
   if (1/child::k = 1)
    copy 3
   else
   off 3 5 . . whole
   off 3 3 . . own
  off 2 2 . . own
 for 4 in 0/descendant::c
  if (1/child::k = 1)
  else
   copy 4
 off 1 4 . child::k whole
 off 1 7 . child::k whole
 off 1 1 . . own
off 0 6 descendant::c . own
off 0 8 descendant::c . whole
off 0 0 . . own
"#,
    ),
    // a move into foreign loops, with a copy in the other branch
    (
        r#"for $x in /a return if ($x = "1") then for $y in /b, $z in $x/c return $z else $x"#,
        r#"var 0 root
var 1 of 0 child::a straight
var 2 of 0 child::b fsa 0
var 3 of 1 child::c fsa 1
role 0 own 0
role 1 own 1
role 2 own 2
role 3 own 3
role 4 whole 1 .
role 5 whole 3 .
role 6 whole 1 .
role 7 whole 1 .
plan
for 1 in 0/child::a
 for 2 in 0/child::b
  for 3 in 1/child::c
   if (1 = "1")
    copy 3
   else
 if (1 = "1")
 else
  copy 1
 off 1 3 child::c . own
 off 1 4 . . whole
 off 1 5 child::c . whole
 off 1 6 . . whole
 off 1 7 . . whole
 off 1 1 . . own
off 0 2 child::b . own
off 0 0 . . own
"#,
    ),
    // constructors in branches, without loops
    (
        r#"for $x in /r/p return if (exists($x/k)) then <y><z/>{$x, ()}</y> else <n/>"#,
        r#"var 0 root
var 1 of 0 child::r straight
var 2 of 1 child::p straight
role 0 own 0
role 1 own 1
role 2 own 2
role 3 first 2 child::k
role 4 whole 2 .
plan
for 1 in 0/child::r
 for 2 in 1/child::p
  if exists(2/child::k)
   write <y>
   write <z>
   write </z>
   copy 2
   write </y>
  else
   write <n>
   write </n>
  off 2 3 . child::k first
  off 2 4 . . whole
  off 2 2 . . own
 off 1 1 . . own
off 0 0 . . own
"#,
    ),
    // a constructor with a loop in a branch
    (
        r#"if (exists(/k)) then <o>{/a}</o> else <e/>"#,
        r#"var 0 root
var 1 of 0 child::a straight
role 0 own 0
role 1 first 0 child::k
role 2 own 1
role 3 first 0 child::k
role 4 whole 1 .
role 5 first 0 child::k
role 6 first 0 child::k
plan
if exists(0/child::k)
 write <o>
else
for 1 in 0/child::a
 if exists(0/child::k)
  copy 1
 else
 off 1 4 . . whole
 off 1 2 . . own
if exists(0/child::k)
 write </o>
else
if exists(0/child::k)
else
 write <e>
 write </e>
off 0 1 . child::k first
off 0 3 . child::k first
off 0 5 . child::k first
off 0 6 . child::k first
off 0 0 . . own
"#,
    ),
    // a loop with a constructor round a loop, in the other branch, inside a constructor
    (
        r#"for $x in /r return <o>{if (exists($x/k)) then <y/> else for $z in $x//z return <n>{$z/t}</n>}</o>"#,
        r#"var 0 root
var 1 of 0 child::r straight
var 2 of 1 descendant::z straight
var 3 of 2 child::t straight
role 0 own 0
role 1 own 1
role 2 first 1 child::k
role 3 own 2
role 4 first 1 child::k
role 5 own 3
role 6 first 1 child::k
role 7 whole 3 .
role 8 first 1 child::k
plan
for 1 in 0/child::r
 write <o>
 if exists(1/child::k)
  write <y>
  write </y>
 else
 for 2 in 1/descendant::z
  if exists(1/child::k)
  else
   write <n>
  for 3 in 2/child::t
   if exists(1/child::k)
   else
    copy 3
   off 3 7 . . whole
   off 3 5 . . own
  if exists(1/child::k)
  else
   write </n>
  off 2 3 . . own
 write </o>
 off 1 2 . child::k first
 off 1 4 . child::k first
 off 1 6 . child::k first
 off 1 8 . child::k first
 off 1 1 . . own
off 0 0 . . own
"#,
    ),
];

#[test]
fn a_where_is_moved_inside_the_loops_of_its_body(rt: HostRuntime) -> Result<(), Fail> {
    are_explained(&rt, rt.alloc(), FILTERED)
}

#[test]
fn a_branch_is_moved_with_those_round_it(rt: HostRuntime) -> Result<(), Fail> {
    are_explained(&rt, rt.alloc(), NESTED)
}

#[test]
fn output_paths_of_both_sides_are_loops(rt: HostRuntime) -> Result<(), Fail> {
    are_explained(&rt, rt.alloc(), PATHS)
}
