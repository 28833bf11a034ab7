//! Queries that are refused, with their places.
use super::{are_told, fault};
use gcx_model::{QueryFault, What};
use std::alloc::{AllocError, Global};
use std::process::Abort;
use std::test::Fail;
use xq_parse::parse;

/// What has no tokens.
const NO_TOKENS: &str = "/a ; /b→Lex(3)
!→Lex(0)
$→Lex(0)
$ x→Lex(0)
$::a→Lex(0)
/a &→Lex(3)
/a [1]→Lex(3)
/@a→Lex(1)
/a\x01→Lex(2)
/a\u{FFFE}→Lex(2)
/\u{D7}→Lex(1)
(:)→Lex(0)
/a (: b→Lex(3)
/a (:(:)→Lex(3)
/a (: (: \x01 :) :)→Lex(3)
((:(:)→Lex(1)
(: :) ;→Lex(6)
; 9223372036854775808→Lex(0)
) ;→Lex(2)";

/// Other literals.
const LITERALS: &str = "if (/a = .5) then () else ()→Lex(9)
if (/a = 3.) then () else ()→Lex(10)
if (/a = - 3) then () else ()→Lex(9)
if (/a = --3) then () else ()→Lex(9)
if (/a = 3.4.5) then () else ()→Lex(12)
if (/a = 1e5) then () else ()→Syntax(10)
if (/a ! = 1) then () else ()→Lex(7)
if (/a = \"b) then () else ()→Lex(9)
if (/a = \"b\"\") then () else ()→Lex(9)
if (/a = 'b\") then () else ()→Lex(9)
if (/a = \"&nbsp;\") then () else ()→Lex(9)
if (/a = \"x&\") then () else ()→Lex(9)
if (/a = \"&lt\") then () else ()→Lex(9)
if (/a = '&#0;') then () else ()→Lex(9)
if (/a = '&#X41;') then () else ()→Lex(9)
if (/a = '&#x110000;') then () else ()→Lex(9)
if (/a = 'x\x01') then () else ()→Lex(9)";

/// Wide numbers.
const WIDE: &str = "if (/a = 9223372036854775808) then () else ()→IntegerWide(9)
if (/a = -9223372036854775809) then () else ()→IntegerWide(9)
if (/a = 0.1234567890123456789) then () else ()→IntegerWide(9)
if (/a = 1.0000000000000000000) then () else ()→IntegerWide(9)
if (/a = 99999999999999999999999999999999999999999) then () else ()→IntegerWide(9)
9223372036854775808 ;→IntegerWide(0)
) 9223372036854775808→IntegerWide(2)";

/// What no query begins with.
const BEGINNINGS: &str = "→Syntax(0)
  →Syntax(2)
(: c :)→Syntax(7)
a→Syntax(0)
*→Syntax(0)
1→Syntax(0)
\"a\"→Syntax(0)
{→Syntax(0)
\u{FEFF}/a→Syntax(0)
For $x in /a return $x→Syntax(0)
, /a→Syntax(0)";

/// Other sequences.
const SEQUENCES: &str = "/a)→Syntax(2)
/a,→Syntax(3)
/a, , /b→Syntax(4)
/a b→Syntax(3)
/a $x→Syntax(3)
/a <b/>→Syntax(3)
(/a→Syntax(3)
(→Syntax(1)
(/a,)→Syntax(4)
(,)→Syntax(1)
())→Syntax(2)
() ()→Syntax(3)
$x )→Syntax(3)";

/// Other paths.
const PATHS: &str = "/→Syntax(1)
/a/→Syntax(3)
//→Syntax(2)
///a→Syntax(2)
/$x→Syntax(1)
/1→Syntax(1)
/a::b→Syntax(2)
/following::a→Syntax(10)
//child::a→Syntax(7)
/child::→Syntax(8)
/child::child::a→Syntax(13)
/text(1)→Syntax(6)
/text(→Syntax(6)
/child::node(→Syntax(13)
/a()→Syntax(2)
/*()→Syntax(2)
/child()→Syntax(6)
/node ( ) ( )→Syntax(10)";

/// Other elements.
const ELEMENTS: &str = "<a>x</a>→Syntax(3)
<a>{}</a>→Syntax(4)
<a b=\"1\"/>→Syntax(3)
<a>→Syntax(3)
<a></a→Syntax(6)
<a></→Syntax(5)
<a>{/a</a>→Syntax(6)
<a>{/a}→Syntax(7)
<a>{/a}}→Syntax(7)
<1/>→Syntax(1)
<a>/b</a>→Syntax(3)
<a></ />→Syntax(6)
<a></>→Syntax(5)
<r></$r>→Syntax(5)
</a>→Syntax(0)
<a/><b/>→Syntax(4)
<a>,</a>→Syntax(3)
<a / >→Syntax(3)
<a>\"x\"</a>→Syntax(3)";

/// Other loops.
const LOOPS: &str = "for→Syntax(3)
for x in /a return ()→Syntax(4)
for $x /a return ()→Syntax(7)
for $x in a return ()→Syntax(10)
for $x in $x return ()→Syntax(13)
for $x in () return ()→Syntax(10)
for $x in /a→Syntax(12)
for $x in /a, return $x→Syntax(14)
for $x in /a, $y return $x→Syntax(17)
for $x in /a where return $x→Syntax(19)
for $x in /a where $x return $x→Syntax(22)
for $x in /a where 1 = 2 return $x→Syntax(23)
for $x in /a where $x </a return $x→Syntax(22)
for $x in /a return $x </a→Syntax(23)
for $x in /a for $y in /b return $y→Syntax(13)
for $x in /a return→Syntax(19)
for $x in /a return return $x→Syntax(20)
for $x in /a return for→Syntax(23)
for $x in /a $x→Syntax(13)
for $x in /a, for $y in /b return $y→Syntax(14)
for $x in /a where true() where true() return $x→Syntax(26)";

/// Other branches.
const BRANCHES: &str = "if true() then () else ()→Syntax(3)
if (true()) then ()→Syntax(19)
if (true()) then () else→Syntax(24)
if (true()) () else ()→Syntax(12)
if (true()) then else ()→Syntax(17)
if (true()), ()→Syntax(11)
if (true()→Syntax(10)
if (true() and true() or→Syntax(24)";

/// Other conditions.
const CONDITIONS: &str = "if (/a) then () else ()→Syntax(6)
if () then () else ()→Syntax(4)
if (1) then () else ()→Syntax(5)
if ('a' = \"b\") then () else ()→Syntax(10)
if (1 = 2) then () else ()→Syntax(8)
if (exists()) then () else ()→Syntax(11)
if (exists /a) then () else ()→Syntax(11)
if (exists(1)) then () else ()→Syntax(11)
if (exists(/a, /b)) then () else ()→Syntax(13)
if (true) then () else ()→Syntax(8)
if (true(1)) then () else ()→Syntax(9)
if (not true()) then () else ()→Syntax(8)
if (not()) then () else ()→Syntax(8)
if (false()) then () else ()→Syntax(4)
if (true() and) then () else ()→Syntax(14)
if (true() or or true()) then () else ()→Syntax(14)
if (true() true()) then () else ()→Syntax(11)
if (/a = ) then () else ()→Syntax(9)
if (/a == 1) then () else ()→Syntax(8)
if (/a = 1 = 2) then () else ()→Syntax(11)
if ((/a) = 1) then () else ()→Syntax(7)
if (/a = true()) then () else ()→Syntax(9)
if (/a = (1)) then () else ()→Syntax(9)
if (/a = 3-4) then () else ()→Syntax(10)
if (/a = 3a) then () else ()→Syntax(10)
if (/a </b) then () else ()→Syntax(7)";

/// Tags of other names.
const TAGS: &str = "<r></s>→TagMismatch(5)
<a><b></a></b>→TagMismatch(8)
<a></ b>→TagMismatch(6)
<a></ab>→TagMismatch(5)
<ab></a>→TagMismatch(6)
<r>{<a></b>}</r>→TagMismatch(9)
<a></for>→TagMismatch(5)
<a></b→TagMismatch(5)
<a></A>→TagMismatch(5)";

/// Unknown variables.
const UNKNOWN: &str = "$x→UnknownVar(0)
$x/a→UnknownVar(0)
if ($x = 1) then () else ()→UnknownVar(4)
if (exists($x)) then () else ()→UnknownVar(11)
if (1 < $x/a) then () else ()→UnknownVar(8)
if (not(/a = $x)) then () else ()→UnknownVar(13)
<a>{$x}</a>→UnknownVar(4)
//a/b, $x→UnknownVar(7)
if (true()) then $x else $y→UnknownVar(17)";

/// Variables out of their loops.
const OUTSIDE: &str = "for $x in $x/a return ()→UnknownVar(10)
for $x in /a return $y→UnknownVar(20)
for $x in /a return $x, $x→UnknownVar(24)
(for $x in /a return $x, $x)→UnknownVar(25)
for $x in /a, $y in $z/b return $y→UnknownVar(20)
for $x in /a, $y in $y/b return ()→UnknownVar(20)
for $x in /a where $y = 1 return ()→UnknownVar(19)
for $x in /a return for $y in $x/b return $z→UnknownVar(42)
(for $x in /a return <a/>), $x→UnknownVar(28)
for $x in /a return $X→UnknownVar(20)
for $x in $y//a/b return $z→UnknownVar(10)
for $x in /a//b/c return $z→UnknownVar(25)
for $x in $y/a return ()→UnknownVar(10)";

/// Descendant steps before others.
const STEPS: &str = "//b/c→DescendantNotLast(0)
/descendant::b/c→DescendantNotLast(0)
/a/descendant::b/c→DescendantNotLast(2)
//a//b→DescendantNotLast(0)
/a//b//c//d→DescendantNotLast(2)
//*/text()→DescendantNotLast(0)
/a//b/node()→DescendantNotLast(2)
for $x in /a//b/c return $x→DescendantNotLast(12)
for $x in //a//b return ()→DescendantNotLast(10)
for $x in /a return $x//b/c→DescendantNotLast(22)
for $x in /a, $y in $x//b/c return ()→DescendantNotLast(22)
<a>{/a//b/c}</a>→DescendantNotLast(6)
/a, //b/c, //d/e→DescendantNotLast(4)
if (exists(//a/b)) then //c/d else ()→DescendantNotLast(24)
for $x in /a where $x//b/c = 1 return $x//b / c→DescendantNotLast(40)";

/// The first fault in its order.
const ORDER: &str = "$x, //a/b ) ;→Lex(12)
$x, //a/b ) 9223372036854775808→IntegerWide(12)
$x, //a/b )→Syntax(10)
$x, //a/b, <a></b>→TagMismatch(16)
//a/b, $x→UnknownVar(7)
//a/b→DescendantNotLast(0)";

/// Queries and the faults that they are refused with.
const REFUSED: &[&str] = &[
    NO_TOKENS, LITERALS, WIDE, BEGINNINGS, SEQUENCES, PATHS, ELEMENTS, LOOPS, BRANCHES, CONDITIONS,
    TAGS, UNKNOWN, OUTSIDE, STEPS, ORDER,
];

#[test]
fn each_fault_is_told_with_its_place(rt: HostRuntime) -> Result<(), Fail> {
    for table in REFUSED {
        are_told(&rt, rt.alloc(), table)?;
    }
    Ok(())
}

#[test]
fn what_is_no_text_is_refused(rt: HostRuntime) {
    let rows: &[(&[u8], u64)] = &[
        (b"; \xFF", 2),
        (b"/a\xC3", 2),
        (b"/\xED\xA0\x80", 1),
        (b"(: \xFF", 3),
        (b"; $x //a/b ) \xFF", 13),
    ];
    for &(query, place) in rows {
        let wanted = QueryFault::Utf8(place);
        assert_eq!(rt; fault(rt.alloc(), query), Some(wanted), "{query:?}");
    }
}

/// The long query has this fault, or none.
fn has_fault(rt: &impl Abort, alloc: Global, query: &[u8], wanted: Option<QueryFault>) {
    assert_eq!(rt; fault(alloc, query), wanted);
}

/// A path and so many spaces.
fn padded(alloc: Global, count: usize) -> Result<Vec<u8>, AllocError> {
    let mut query = b"/a".to_vec(alloc)?;
    query.extend_from_slice(&vec![in alloc; b' '; count]?)?;
    Ok(query)
}

#[test]
fn a_query_has_a_limit(rt: HostRuntime) -> Result<(), Fail> {
    let most = padded(rt.alloc(), 1_048_574)?;
    has_fault(&rt, rt.alloc(), &most, None);
    Ok(())
}

#[test]
fn a_longer_query_is_refused_before_it_is_read(rt: HostRuntime) -> Result<(), Fail> {
    let wrong = vec![in rt.alloc(); 0xFFu8; 1_048_577]?;
    let too_large = QueryFault::TooLarge(What::Text, 1_048_576);
    has_fault(&rt, rt.alloc(), &wrong, Some(too_large));
    Ok(())
}

/// How many parts the query has, or its fault.
fn told(alloc: Global, text: &[u8]) -> Result<usize, QueryFault> {
    let query = parse(alloc, text)?;
    Ok(query.parts.items().len())
}

#[test]
fn each_text_is_read_or_refused(rt: HostRuntime) {
    let rows: &[(&[u8], Result<usize, QueryFault>)] = &[
        (b"/a, for $x in //b return <r>{$x}</r>", Ok(2)),
        (b"", Err(QueryFault::Syntax(0))),
        (b"/a)", Err(QueryFault::Syntax(2))),
        (b"/a ; /b", Err(QueryFault::Lex(3))),
        (b"<r></s>", Err(QueryFault::TagMismatch(5))),
        (b"for $x in /a return $y", Err(QueryFault::UnknownVar(20))),
        (b"/a//b/c", Err(QueryFault::DescendantNotLast(2))),
        (b"\xFF", Err(QueryFault::Utf8(0))),
        (
            b"if (/a = 9223372036854775808) then () else ()",
            Err(QueryFault::IntegerWide(9)),
        ),
        (b"if (exists(/a//b/c)) then /a else ()", Ok(1)),
    ];
    for &(text, want) in rows {
        assert_eq!(rt; told(rt.alloc(), text), want, "{text:?}");
    }
}

#[test]
fn too_many_parentheses_are_refused(rt: HostRuntime) {
    let too_large = QueryFault::TooLarge(What::Nesting, 200);
    assert_eq!(rt; told(rt.alloc(), &[b'('; 201]), Err(too_large));
}
