//! Joins: loops that pass the matches at which their bodies do nothing.
use super::{Answered, How, ends, far, is_answered_in_pieces, is_left, plainly, run_raw};
use crate::large::{Part, spelled};
use engine::Ended;
use gcx_model::DocFault;
use std::alloc::Global;
use std::process::Abort;
use std::test::Fail;

/// Two x, and behind them three y.
const XS_FIRST: &[u8] =
    b"<r><x><k>1</k></x><x><k>2</k></x><y><k>2</k><v>a</v></y><y><k>1</k><v>b</v></y><y><k>2</k><v>c</v></y></r>";

/// The same with the y first.
const YS_FIRST: &[u8] =
    b"<r><y><k>2</k><v>a</v></y><y><k>1</k><v>b</v></y><y><k>2</k><v>c</v></y><x><k>1</k></x><x><k>2</k></x></r>";

const JOIN: &[u8] = b"for $a in /r/x, $b in /r/y where $a/k = $b/k return <m>{$b/v}</m>";

const FLIPPED: &[u8] = b"for $a in /r/x, $b in /r/y where $b/k = $a/k return <m>{$b/v}</m>";

const BEFORE: &[u8] =
    b"for $a in /r/x, $b in /r/y where $b/v = \"c\" and $a/k = $b/k return <m>{$a/k}</m>";

const BEHIND: &[u8] =
    b"for $a in /r/x, $b in /r/y where $a/k = $b/k and $b/v = \"c\" return <m>{$a/k}</m>";

const EITHER: &[u8] =
    b"for $a in /r/x, $b in /r/y where $a/k = $b/k or $b/v = \"b\" return <m>{$b/v}</m>";

const ANTI: &[u8] = b"for $a in /r/x, $b in /r/y where not($a/k = $b/k) return <m>{$b/v}</m>";

const PAIRS: &[u8] =
    b"for $a in /r/x return for $b in /r/y return if ($a/k = $b/k) then <m/> else ()";

const ELSE: &[u8] =
    b"for $a in /r/x return for $b in /r/y return if ($a/k = $b/k) then <m/> else <n/>";

const LESS: &[u8] = b"for $a in /r/x, $b in /r/y where $a/k < $b/k return <m>{$b/v}</m>";

const OTHER: &[u8] = b"for $a in /r/x, $b in /r/y where $a/k != $b/k return <m>{$b/v}</m>";

const ITSELF: &[u8] = b"for $a in /r/x, $b in /r/y where $b = $a/k return <m/>";

const THREE: &[u8] =
    b"for $a in /r/x, $b in /r/y, $c in /r/z where $a/k = $b/k and $b/k = $c/k return <m>{$c/v}</m>";

const GROUPS: &[u8] =
    b"for $g in /r/g, $a in $g/x, $b in $g/y where $a/k = $b/k return <m>{$b/v}</m>";

const ROWS: [Answered; 25] = [
    Answered(
        JOIN,
        XS_FIRST,
        b"<m><v>b</v></m><m><v>a</v></m><m><v>c</v></m>",
    ),
    Answered(
        JOIN,
        YS_FIRST,
        b"<m><v>b</v></m><m><v>a</v></m><m><v>c</v></m>",
    ),
    Answered(
        FLIPPED,
        XS_FIRST,
        b"<m><v>b</v></m><m><v>a</v></m><m><v>c</v></m>",
    ),
    Answered(
        FLIPPED,
        YS_FIRST,
        b"<m><v>b</v></m><m><v>a</v></m><m><v>c</v></m>",
    ),
    Answered(BEFORE, XS_FIRST, b"<m><k>2</k></m>"),
    Answered(BEFORE, YS_FIRST, b"<m><k>2</k></m>"),
    Answered(BEHIND, XS_FIRST, b"<m><k>2</k></m>"),
    Answered(BEHIND, YS_FIRST, b"<m><k>2</k></m>"),
    Answered(
        EITHER,
        XS_FIRST,
        b"<m><v>b</v></m><m><v>a</v></m><m><v>b</v></m><m><v>c</v></m>",
    ),
    Answered(
        EITHER,
        YS_FIRST,
        b"<m><v>b</v></m><m><v>a</v></m><m><v>b</v></m><m><v>c</v></m>",
    ),
    Answered(
        ANTI,
        XS_FIRST,
        b"<m><v>a</v></m><m><v>c</v></m><m><v>b</v></m>",
    ),
    Answered(
        ANTI,
        YS_FIRST,
        b"<m><v>a</v></m><m><v>c</v></m><m><v>b</v></m>",
    ),
    Answered(
        ELSE,
        XS_FIRST,
        b"<n></n><m></m><n></n><m></m><n></n><m></m>",
    ),
    Answered(
        ELSE,
        YS_FIRST,
        b"<n></n><m></m><n></n><m></m><n></n><m></m>",
    ),
    Answered(LESS, XS_FIRST, b"<m><v>a</v></m><m><v>c</v></m>"),
    Answered(
        OTHER,
        YS_FIRST,
        b"<m><v>a</v></m><m><v>c</v></m><m><v>b</v></m>",
    ),
    Answered(
        ITSELF,
        b"<r><x><k>1</k></x><y>1</y><y>2</y><y>1</y></r>",
        b"<m></m><m></m>",
    ),
    Answered(
        THREE,
        b"<r><x><k>1</k></x><x><k>2</k></x><y><k>2</k></y><y><k>1</k></y><z><k>1</k><v>a</v></z><z><k>2</k><v>b</v></z><z><k>1</k><v>c</v></z></r>",
        b"<m><v>a</v></m><m><v>c</v></m><m><v>b</v></m>",
    ),
    Answered(
        GROUPS,
        b"<r><g><x><k>1</k></x><y><k>1</k><v>a</v></y><y><k>2</k><v>b</v></y></g><g><x><k>2</k></x><y><k>1</k><v>c</v></y><y><k>2</k><v>d</v></y></g></r>",
        b"<m><v>a</v></m><m><v>d</v></m>",
    ),
    // a node without a value, and one with two values
    Answered(
        JOIN,
        b"<r><x/><x><k>1</k><k>2</k></x><y><v>a</v></y><y><k>2</k><k>1</k><v>b</v></y><y><k>3</k><v>c</v></y></r>",
        b"<m><v>b</v></m>",
    ),
    // one value twice
    Answered(
        JOIN,
        b"<r><x><k>1</k><k>1</k></x><y><k>3</k><v>a</v></y><y><k>1</k><k>1</k><v>b</v></y></r>",
        b"<m><v>b</v></m>",
    ),
    // a value of several texts, and an empty one
    Answered(
        JOIN,
        b"<r><x><k>1<i>2</i>3</k></x><x><k/></x><y><k>12</k><v>a</v></y><y><k>123</k><v>b</v></y><y><k></k><v>c</v></y></r>",
        b"<m><v>b</v></m><m><v>c</v></m>",
    ),
    // keys in attributes
    Answered(
        JOIN,
        b"<r><x k='1'/><x k='2'/><y k='2' v='a'/><y k='1' v='b'/></r>",
        b"<m><v>b</v></m><m><v>a</v></m>",
    ),
    // a loop without a match, and none whose body writes
    Answered(JOIN, b"<r><x><k>1</k></x></r>", b""),
    Answered(
        JOIN,
        b"<r><x><k>1</k></x><y><k>2</k></y><y><k>3</k></y></r>",
        b"",
    ),
];

#[test]
fn joins_of_each_form_are_answered(rt: HostRuntime) -> Result<(), Fail> {
    for row in &ROWS {
        is_answered_in_pieces(&rt, rt.alloc(), row)?;
    }
    Ok(())
}

/// A query, a document that ends early, and what is settled by then.
struct Cut(&'static [u8], &'static [u8], &'static [u8]);

const CUTS: [Cut; 2] = [
    // the loop's own node is open
    Cut(
        PAIRS,
        b"<r><x><k>1</k></x><x><k>2</k></x><y><k>2</k></y><y><k>1</k></y>",
        b"<m></m>",
    ),
    // the loop's node is closed, and of the second y it isn't known whether it is written
    Cut(
        b"for $s in /r/g, $a in $s/x, $b in $s/y where $b/v = /r/z/v and $a/k = $b/k return <m/>",
        b"<r><z><v>1</v></z><g><y><k>5</k><v>1</v></y><y><k>6</k><v>9</v></y><y><k>5</k><v>1</v></y><x><k>5</k></x></g><h>",
        b"<m></m>",
    ),
];

fn is_cut(rt: &impl Abort, alloc: Global, row: &Cut, how: How<'_>) -> Result<(), Fail> {
    let Cut(query, document, written) = row;
    let ended = Ended::Refused(DocFault::Truncated(document.len() as u64));
    ends(rt, alloc, query, document, how, ended, written)?;
    Ok(())
}

#[test]
fn no_match_is_passed_that_may_be_written(rt: HostRuntime) -> Result<(), Fail> {
    for row in &CUTS {
        is_cut(&rt, rt.alloc(), row, plainly(1))?;
        is_cut(&rt, rt.alloc(), row, far(65_536))?;
    }
    Ok(())
}

/// Twenty thousand of each, of which three of one are joined with three of the other.
const MANY_PAIRS: &[Part] = &[
    ("<r>", 0, 1),
    ("<x><k>#</k></x>", 0, 20_000),
    ("<y><k>#</k></y>", 19_997, 39_997),
    ("</r>", 0, 1),
];

// Turn by turn they would take some minutes.
#[test]
fn twenty_thousand_are_joined_with_as_many(rt: HostRuntime) -> Result<(), Fail> {
    let alloc = rt.alloc();
    let document = spelled(alloc, MANY_PAIRS)?;
    let (ran, _) = run_raw(&rt, alloc, PAIRS, &document, plainly(65_536))?;
    is_left(&rt, &ran, PAIRS, Ended::Ok, b"<m></m><m></m><m></m>");
    Ok(())
}
