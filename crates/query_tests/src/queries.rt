//! Queries, parsed and printed, or refused.
use gcx_model::{Query, QueryFault};
use std::alloc::Global;
use std::process::Abort;
use std::test::Fail;
use xq_parse::parse;
use xq_print::print;

/// The query printed, or its refusal.
fn told(alloc: Global, query: &[u8]) -> Result<String, Fail> {
    match parse(alloc, query) {
        Ok(query) => printed(alloc, &query),
        Err(QueryFault::Memory) => Err(QueryFault::Memory)?,
        Err(fault) => Ok(format!(in alloc; "{fault:?}")?),
    }
}

fn printed(alloc: Global, query: &Query) -> Result<String, Fail> {
    let text = print(alloc, query)?;
    Ok(format!(in alloc; "{}", text.as_str())?)
}

/// The fault that the query is refused with, or none.
fn fault(alloc: Global, query: &[u8]) -> Option<QueryFault> {
    parse(alloc, query).err()
}

/// The query is told so.
fn is_told(rt: &impl Abort, alloc: Global, query: &str, wanted: &str) -> Result<(), Fail> {
    let told = told(alloc, query.as_bytes())?;
    assert_eq!(rt; told.as_str(), wanted, "{query:?}");
    Ok(())
}

/// The query is printed so, and what was printed is printed so again.
fn is_printed_again(
    rt: &impl Abort,
    alloc: Global,
    query: &str,
    printed: &str,
) -> Result<(), Fail> {
    is_told(rt, alloc, query, printed)?;
    is_told(rt, alloc, printed, printed)
}

/// A query with this condition.
fn chosen(alloc: Global, condition: &str) -> Result<String, Fail> {
    Ok(format!(in alloc; "if ({condition}) then () else ()")?)
}

/// A query with this condition is printed so, and again.
fn is_printed_as_condition(
    rt: &impl Abort,
    alloc: Global,
    condition: &str,
    printed: &str,
) -> Result<(), Fail> {
    let query = chosen(alloc, condition)?;
    let printed = chosen(alloc, printed)?;
    is_printed_again(rt, alloc, query.as_str(), printed.as_str())
}

/// The two parts of a line of a table.
pub(crate) fn parts(row: &str) -> Result<(&str, &str), Fail> {
    match row.split_once('→') {
        Some(parts) => Ok(parts),
        None => Err(Fail::new("not a row")),
    }
}

/// Each query of the table is told so.
fn are_told(rt: &impl Abort, alloc: Global, table: &str) -> Result<(), Fail> {
    for row in table.split('\n') {
        let (query, wanted) = parts(row)?;
        is_told(rt, alloc, query, wanted)?;
    }
    Ok(())
}

/// Each query of the table is printed so, and again.
fn are_printed(rt: &impl Abort, alloc: Global, table: &str) -> Result<(), Fail> {
    for row in table.split('\n') {
        let (query, printed) = parts(row)?;
        is_printed_again(rt, alloc, query, printed)?;
    }
    Ok(())
}

/// Each condition of the table is printed so, and again.
fn are_printed_as_conditions(rt: &impl Abort, alloc: Global, table: &str) -> Result<(), Fail> {
    for row in table.split('\n') {
        let (condition, printed) = parts(row)?;
        is_printed_as_condition(rt, alloc, condition, printed)?;
    }
    Ok(())
}

/// Each form.
const FORMS: &str = "<r>{/a, <b/>}</r>→<r>{/a, <b></b>}</r>
if (/a = -3.14) then () else ()→if (/a = -3.14) then () else ()
for $x in /a, $y in $x//node() where not(true()) and (\"1\" <= $y/text() or true() and exists($x/*)) return ((), /b), ()→for $x in /a, $y in $x//node() where not(true()) and (\"1\" <= $y/text() or true() and exists($x/*)) return ((), /b), ()";

/// Paths.
const PATHS: &str = "/a→/a
/a /b→/a/b
/child::a/descendant::b→/a//b
/child :: a→/a
/a/descendant::*→/a//*
//a→//a
//text()→//text()
/text ( )→/text()
/text(::)()→/text()
/a/node()→/a/node()
/text/node→/text/node
/child::text/child::node()→/text/node()
/descendant::text()→//text()
/child/descendant→/child/descendant
/child::child/descendant::descendant→/child//descendant
//child→//child
/child→/child
/*/*→/*/*
/for/if/in/where/return/then/else→/for/if/in/where/return/then/else
/or/and/not/true/exists→/or/and/not/true/exists
/a:b/:c/d:→/a:b/:c/d:
/a-1.b_→/a-1.b_
/\u{E9}\u{B7}→/\u{E9}\u{B7}
/\u{FEFF}a→/\u{FEFF}a
/a,/b , //c→/a, /b, //c
(: c :)/a→/a
/(: (: :) :)a→/a
/a(::)/b→/a/b
(:::)/a(:(: \" :) :)→/a";

/// Expressions.
const EXPRESSIONS: &str = "()→()
( )→()
(())→()
((/a))→/a
(/a,/b)→(/a, /b)
((/a, /b))→(/a, /b)
((/a, /b), ())→((/a, /b), ())
(), (), /a→(), (), /a
<a/>→<a></a>
< a />→<a></a>
<a></a>→<a></a>
<a> </ a >→<a></a>
<r>{ /a , <b/> }</r>→<r>{/a, <b></b>}</r>
<r><a/>{/a}<b></b>{(/a, /b), ()}</r>→<r>{<a></a>, /a, <b></b>, (/a, /b), ()}</r>
<for><if/></for>→<for>{<if></if>}</for>
<text>{()}</text>→<text>{()}</text>
<a:b/>, <\u{E9}/>→<a:b></a:b>, <\u{E9}></\u{E9}>";

/// Loops.
const LOOPS: &str = "for $x in /a return $x→for $x in /a return $x
for$x in/a return$x→for $x in /a return $x
for $x in /a,$y in $x//b return($x,$y/c)→for $x in /a, $y in $x//b return ($x, $y/c)
for $x in /a, $x in $x/b where $x = 1 return $x//c→for $x in /a, $x in $x/b where $x = 1 return $x//c
for $x in //a return for $x in $x/b return $x→for $x in //a return for $x in $x/b return $x
for $x in /a return (for $x in /b return $x, $x)→for $x in /a return (for $x in /b return $x, $x)
for $x in /a return for $y in $x/b where $x = $y return <h>{$x}</h>→for $x in /a return for $y in $x/b where $x = $y return <h>{$x}</h>
for $for in /in return $for→for $for in /in return $for
for $return in /where where $return = $return/in return $return→for $return in /where where $return = $return/in return $return
for $x in /a return $x, /b→for $x in /a return $x, /b
for $x in /a where exists($x) return <h/>→for $x in /a where exists($x) return <h></h>";

/// Branches.
const BRANCHES: &str = "if (true()) then /a else /b→if (true()) then /a else /b
if(true())then()else()→if (true()) then () else ()
if (true()) then if (true()) then /a else /b else /c→if (true()) then if (true()) then /a else /b else /c
if (true()) then /a else for $x in /b return $x→if (true()) then /a else for $x in /b return $x
for $x in /a return if (exists($x)) then $x else <n/>, ()→for $x in /a return if (exists($x)) then $x else <n></n>, ()";

/// Comparisons.
const COMPARISONS: &str = "exists(/a//b/c)→exists(/a//b/c)
//a/b = /c//d/e→//a/b = /c//d/e
/a=1→/a = 1
/a!=1→/a != 1
/a<1→/a < 1
/a<=/b→/a <= /b
/a>/b→/a > /b
/a>=1→/a >= 1
/a < /b→/a < /b
1 < /a→1 < /a
'x' != /a→\"x\" != /a
/true = /not/and→/true = /not/and";

/// Connectives.
const CONNECTIVES: &str = "(true())→true()
((/a = 1))→/a = 1
not(true())→not(true())
not((not(true())))→not(not(true()))
true() and true() and true()→true() and true() and true()
true() or true() or true()→true() or true() or true()
true() or true() and true()→true() or true() and true()
true() or (true() and true())→true() or true() and true()
(true() and true()) or true()→true() and true() or true()
(true() or true()) and true()→(true() or true()) and true()
true() and (true() and true())→true() and (true() and true())
true() or (true() or true())→true() or (true() or true())
not(true() or true()) and true()→not(true() or true()) and true()
(true() and (true() or true()))→true() and (true() or true())";

/// Literals.
const LITERALS: &str = "/a = 0→/a = 0
/a = -0→/a = 0
/a = -0.0→/a = 0
/a = 007→/a = 7
/a = 1.50→/a = 1.5
/a = -3.140→/a = -3.14
/a = -0.5→/a = -0.5
/a = 0.123456789012345678→/a = 0.123456789012345678
/a = 1.000000000000000000→/a = 1
/a = 0.000000000000000001→/a = 0.000000000000000001
/a = 9223372036854775807→/a = 9223372036854775807
/a = -9223372036854775808→/a = -9223372036854775808
/a = 9223372036854775807.999999999999999999→/a = 9223372036854775807.999999999999999999
/a = -9223372036854775808.5→/a = -9223372036854775808.5
/a = 00000000000000000000000000001→/a = 1
/a = \"\"→/a = \"\"
/a = ''→/a = \"\"
/a = 'it''s'→/a = \"it's\"
/a = \"say \"\"x\"\"\"→/a = \"say \"\"x\"\"\"
/a = '\"'→/a = \"\"\"\"
/a = '&lt;&gt;&amp;&apos;&quot;'→/a = \"<>&amp;'\"\"\"
/a = '&#65;&#x00e9;'→/a = \"A\u{E9}\"
/a = '(: :)'→/a = \"(: :)\"
/a = '\u{FEFF}'→/a = \"\u{FEFF}\"";

/// Queries and how they are printed.
const QUERIES: &[&str] = &[FORMS, PATHS, EXPRESSIONS, LOOPS, BRANCHES];

/// Conditions and how they are printed.
const CONDITIONS: &[&str] = &[COMPARISONS, CONNECTIVES, LITERALS];

#[test]
fn each_query_is_printed(rt: HostRuntime) -> Result<(), Fail> {
    for table in QUERIES {
        are_printed(&rt, rt.alloc(), table)?;
    }
    Ok(())
}

#[test]
fn each_condition_is_printed(rt: HostRuntime) -> Result<(), Fail> {
    for table in CONDITIONS {
        are_printed_as_conditions(&rt, rt.alloc(), table)?;
    }
    Ok(())
}

#[test]
fn line_feeds_are_spaces_but_in_strings(rt: HostRuntime) -> Result<(), Fail> {
    let alloc = rt.alloc();
    is_printed_again(&rt, alloc, " / a\t/b\n", "/a/b")?;
    is_printed_as_condition(&rt, alloc, "/a = 'a\n\tb'", "/a = \"a\n\tb\"")
}

mod nesting;
mod refused;
