//! The tokens of queries, with their places.
use crate::queries::parts;
use gcx_model::QueryFault;
use std::alloc::{AllocError, Global};
use std::process::Abort;
use std::test::Fail;
use xq_lex::{Tok, TokKind, lex};

fn kind_told(alloc: Global, kind: &TokKind) -> Result<String, AllocError> {
    match kind {
        TokKind::Name(name) => format!(in alloc; "name {}", name.as_str()),
        TokKind::Var(name) => format!(in alloc; "var {}", name.as_str()),
        TokKind::Number(units) => format!(in alloc; "number {units}"),
        TokKind::Str(text) => format!(in alloc; "str {}", text.as_str()),
        TokKind::Sign(sign) => format!(in alloc; "{sign:?}"),
    }
}

fn put_told(alloc: Global, out: &mut String, token: &Tok) -> Result<(), AllocError> {
    let kind = kind_told(alloc, &token.kind)?;
    let part = format!(in alloc; "{}[{}-{}]", kind.as_str(), token.from, token.to)?;
    out.push_str(part.as_str())
}

fn all_told(alloc: Global, tokens: &[Tok]) -> Result<String, AllocError> {
    let mut all = String::new(alloc);
    for token in tokens {
        put_told(alloc, &mut all, token)?;
    }
    Ok(all)
}

/// The tokens with their places, or the fault.
fn told(alloc: Global, text: &[u8]) -> Result<String, AllocError> {
    match lex(alloc, text) {
        Ok(tokens) => all_told(alloc, tokens.items()),
        Err(fault) => format!(in alloc; "{fault:?}"),
    }
}

/// The query has these tokens, or this fault.
fn is_told(rt: &impl Abort, alloc: Global, text: &[u8], want: &str) -> Result<(), Fail> {
    let told = told(alloc, text)?;
    assert_eq!(rt; told.as_str(), want, "{text:?}");
    Ok(())
}

/// Each query of the table has these tokens or this fault.
fn are_told(rt: &impl Abort, alloc: Global, table: &str) -> Result<(), Fail> {
    for row in table.split('\n') {
        let (query, wanted) = parts(row)?;
        is_told(rt, alloc, query.as_bytes(), wanted)?;
    }
    Ok(())
}

/// Names and signs.
const SIGNS: &str = "→
/a/b→Slash[0-1]name a[1-2]Slash[2-3]name b[3-4]
a::b→name a[0-1]Axis[1-3]name b[3-4]
$x</a→var x[0-2]EndTag[2-4]name a[4-5]
$x < /a→var x[0-2]Lt[3-4]Slash[5-6]name a[6-7]
/*→Slash[0-1]Star[1-2]
<=→Le[0-2]
< =→Lt[0-1]Eq[2-3]
a-3.b_→name a-3.b_[0-6]
3a→number 3000000000000000000[0-1]name a[1-2]
(){},///::*=!=<<=>>=<//>→ParenOpen[0-1]ParenClose[1-2]BraceOpen[2-3]BraceClose[3-4]Comma[4-5]SlashSlash[5-7]Slash[7-8]Axis[8-10]Star[10-11]Eq[11-12]Ne[12-14]Lt[14-15]Le[15-17]Gt[17-18]Ge[18-20]EndTag[20-22]EmptyEnd[22-24]
/a ; /b→Lex(3)
!→Lex(0)
! =→Lex(0)
$→Lex(0)
$ x→Lex(0)
$3→Lex(0)
a &→Lex(2)
a \x01→Lex(2)
a\u{FFFE}→Lex(1)
<a/>→Lt[0-1]name a[1-2]EmptyEnd[2-4]";

/// Numbers.
const NUMBERS: &str = "-1→number -1000000000000000000[0-2]
1.5→number 1500000000000000000[0-3]
--1→Lex(0)
1-→Lex(1)
-0→number 0[0-2]
3-4→number 3000000000000000000[0-1]number -4000000000000000000[1-3]
3.25→number 3250000000000000000[0-4]
00000000000000000000000000001→number 1000000000000000000[0-29]
0.123456789012345678→number 123456789012345678[0-20]
- 3→Lex(0)
3.→Lex(1)
.5→Lex(0)
3.4.5→Lex(3)";

/// Wide numbers.
const WIDE: &str = "0.1234567890123456789→IntegerWide(0)
1.0000000000000000000→IntegerWide(0)
9223372036854775807→number 9223372036854775807000000000000000000[0-19]
9223372036854775808→IntegerWide(0)
-9223372036854775808→number -9223372036854775808000000000000000000[0-20]
-9223372036854775808.5→number -9223372036854775808500000000000000000[0-22]
 -9223372036854775809→IntegerWide(1)
99999999999999999999999999→IntegerWide(0)
9223372036854775808 ;→IntegerWide(0)
; 9223372036854775808→Lex(0)";

/// Strings.
const STRINGS: &str = "\"\"→str [0-2]
\"a\"b'c'→str a[0-3]name b[3-4]str c[4-7]
\"a\"\"b\"→str a\"b[0-6]
''''→str '[0-4]
\"'\"→str '[0-3]
\"(:\" a→str (:[0-4]name a[5-6]
\"\u{E9}\" a→str \u{E9}[0-4]name a[5-6]
'&lt;&gt;&amp;&apos;&quot;'→str <>&'\"[0-27]
'&#65;&#x0041;&#xe9;'→str AA\u{E9}[0-21]
 \"a\"\"→Lex(1)
a \"b→Lex(2)
\"a'→Lex(0)
\"&\"→Lex(0)
\"&lt\"→Lex(0)
\"&nbsp;\"→Lex(0)
\"&#0;\"→Lex(0)
\"&#;\"→Lex(0)
\"\x01\"→Lex(0)
\"a\u{FFFF}\"→Lex(0)";

/// Comments.
const COMMENTS: &str = "(: a :)b→name b[7-8]
(:(:):)→Lex(0)
(:(:):):)a→name a[9-10]
a(::)b→name a[0-1]name b[5-6]
(:(: :):)→
(:::)→
((:(:)→Lex(1)
(:\u{E9}:)a→name a[6-7]
(: ( : ) :)a→name a[11-12]
( :→ParenOpen[0-1]name :[2-3]
(:)→Lex(0)
(:(:)→Lex(0)
(:(: :)→Lex(0)
a (: b→Lex(2)
a (: (: \x01 :) :)→Lex(2)
(: \" :)\"→Lex(7)
(: :) ;→Lex(6)
(::)(::) \t(::)a→name a[14-15]";

/// Names of any script and with single colons.
const NAMES: &str = "a:b→name a:b[0-3]
a:→name a:[0-2]
:a→name :a[0-2]
::a→Axis[0-2]name a[2-3]
a:::b→name a[0-1]Axis[1-3]name :b[3-5]
a:b::c:d→name a:b[0-3]Axis[3-5]name c:d[5-8]
:::→Axis[0-2]name :[2-3]
$a:b→var a:b[0-4]
$a::b→var a[0-2]Axis[2-4]name b[4-5]
$::a→Lex(0)
(:a→Lex(0)
( :a→ParenOpen[0-1]name :a[2-4]
a1-.2→name a1-.2[0-5]
\u{3BB}\u{3CC}\u{3B3}\u{3BF}\u{3C2}/a→name \u{3BB}\u{3CC}\u{3B3}\u{3BF}\u{3C2}[0-10]Slash[10-11]name a[11-12]
$\u{4E00}→var \u{4E00}[0-4]
\u{10000}b→name \u{10000}b[0-5]
\u{FEFF}a→name \u{FEFF}a[0-4]
a \u{E9}.b→name a[0-1]name \u{E9}.b[2-6]
\u{D7}→Lex(0)
a\u{B7}→name a\u{B7}[0-3]
\u{B7}→Lex(0)
a\u{D7}b→Lex(1)";

/// Queries, and their tokens or faults.
const TABLES: &[&str] = &[SIGNS, NUMBERS, WIDE, STRINGS, COMMENTS, NAMES];

#[test]
fn queries_have_these_tokens(rt: HostRuntime) -> Result<(), Fail> {
    for table in TABLES {
        are_told(&rt, rt.alloc(), table)?;
    }
    Ok(())
}

#[test]
fn line_feeds_are_spaces_but_in_strings(rt: HostRuntime) -> Result<(), Fail> {
    let alloc = rt.alloc();
    is_told(&rt, alloc, b" \t\r\n", "")?;
    is_told(&rt, alloc, b"'a\nb'", "str a\nb[0-5]")
}

#[test]
fn what_is_no_text_has_no_tokens(rt: HostRuntime) -> Result<(), Fail> {
    let rows: &[(&[u8], &str)] = &[
        (b"a\xFF", "Utf8(1)"),
        (b"/a\xFF/b", "Utf8(2)"),
        (b"; \xC3", "Utf8(2)"),
        (b"\"\xED\xA0\x80", "Utf8(1)"),
    ];
    for &(bytes, want) in rows {
        is_told(&rt, rt.alloc(), bytes, want)?;
    }
    Ok(())
}

#[test]
fn a_query_has_a_limit(rt: HostRuntime) -> Result<(), Fail> {
    let most = vec![in rt.alloc(); b' '; 1_048_576]?;
    let told = told(rt.alloc(), &most)?;
    assert_eq!(rt; told.as_str(), "");
    Ok(())
}

#[test]
fn a_longer_query_is_refused(rt: HostRuntime) -> Result<(), Fail> {
    let more = vec![in rt.alloc(); 0xFFu8; 1_048_577]?;
    let told = told(rt.alloc(), &more)?;
    assert_eq!(rt; told.as_str(), "TooLarge(Text, 1048576)");
    Ok(())
}

/// How many tokens the text has, and where the first one stands.
fn measured(alloc: Global, text: &[u8]) -> Result<(usize, Option<(u64, u64)>), QueryFault> {
    let tokens = lex(alloc, text)?;
    let first = tokens.items().first().map(|token| (token.from, token.to));
    Ok((tokens.items().len(), first))
}

#[test]
fn a_name_has_no_limit_of_its_own(rt: HostRuntime) -> Result<(), Fail> {
    let long = vec![in rt.alloc(); b'a'; 5_000]?;
    assert_eq!(rt; measured(rt.alloc(), &long), Ok((1, Some((0, 5_000)))));
    Ok(())
}
