//! Equalities of two paths from nodes that are open: each value is looked at once, and the answers are those of a
//! comparison made anew.
use super::joins::builds;
use super::{Answered, Built, is_answered_in_pieces, plainly};
use crate::large::{Part, spelled};
use std::alloc::Global;
use std::process::Abort;
use std::test::Fail;

/// Two paths from the root.
const ROOT: &[u8] = b"if (/r/x/v = /r/y/k) then <m/> else <n/>";

/// The values that an absolute path has too.
const SEMI: &[u8] = b"for $b in /r/y where $b/k = /r/x/k return $b/k";

/// The same of nodes that are their own values.
const ITSELF: &[u8] = b"for $b in /r/y/k where $b = /r/x/k return $b";

/// One path from the loop around, one from its own node.
const GROUPS: &[u8] =
    b"for $g in /r/g return for $b in $g/y return if ($b/k = $g/x/k) then <m>{$b/k}</m> else ()";

/// Values that are looked up among those of another loop's node.
const LOOKED: &[u8] =
    b"for $a in /r/x return for $b in /r/y return if ($a/k = $b/k) then <m>{$b/v}</m> else ()";

/// The same with the other loop inside.
const TURNED: &[u8] =
    b"for $b in /r/y return for $a in /r/x return if ($a/k = $b/k) then <m>{$b/v}</m> else ()";

/// Values of nodes that may be inside each other.
const INSIDE: &[u8] =
    b"for $a in /r/x return for $b in /r/y return if ($a/k = $b//k) then <m/> else ()";

/// Paths whose matches may be inside each other.
const NESTED: &[u8] = b"if (//x = //y) then <m/> else <n/>";

const ROWS: [Answered; 29] = [
    Answered(ROOT, b"<r><x><v>1</v></x><y><k>2</k></y></r>", b"<n></n>"),
    Answered(
        ROOT,
        b"<r><x><v>1</v><v>2</v></x><y><k>3</k><k>2</k></y></r>",
        b"<m></m>",
    ),
    Answered(
        ROOT,
        b"<r><y><k>2</k></y><x><v>1</v></x><y/><x><v>2</v></x></r>",
        b"<m></m>",
    ),
    Answered(ROOT, b"<r><x><v>1</v></x><x><v/></x></r>", b"<n></n>"),
    Answered(ROOT, b"<r><x><v/></x><y><k></k></y></r>", b"<m></m>"),
    Answered(
        ROOT,
        b"<r><x><v>a<z>b</z></v></x><y><k><z>a</z>b</k></y></r>",
        b"<m></m>",
    ),
    Answered(
        SEMI,
        b"<r><x><k>1</k><k>3</k></x><y><k>3</k></y><y><k>2</k></y><y><k>1</k></y></r>",
        b"<k>3</k><k>1</k>",
    ),
    Answered(
        SEMI,
        b"<r><y><k>3</k></y><y><k>2</k></y><y><k>1</k></y><x><k>1</k><k>3</k></x></r>",
        b"<k>3</k><k>1</k>",
    ),
    // A value that was found once is there for the next node.
    Answered(
        SEMI,
        b"<r><y><k>1</k></y><y><k>1</k></y><x><k>1</k></x></r>",
        b"<k>1</k><k>1</k>",
    ),
    Answered(
        SEMI,
        b"<r><y><k>1</k></y><x><k>2</k></x><y><k>2</k></y><x><k>1</k></x></r>",
        b"<k>1</k><k>2</k>",
    ),
    Answered(
        SEMI,
        b"<r><y><k>1</k><k>2</k></y><y/><x/><x><k>2</k></x></r>",
        b"<k>1</k><k>2</k>",
    ),
    Answered(
        ITSELF,
        b"<r><x><k>1</k></x><y><k>2</k><k>1</k></y></r>",
        b"<k>1</k>",
    ),
    Answered(
        ITSELF,
        b"<r><y><k>2</k><k>1</k></y><x><k>1</k><k>2</k></x></r>",
        b"<k>2</k><k>1</k>",
    ),
    Answered(
        GROUPS,
        b"<r><g><x><k>1</k></x><y><k>1</k></y></g><g><x><k>2</k></x><y><k>1</k></y><y><k>2</k></y></g></r>",
        b"<m><k>1</k></m><m><k>2</k></m>",
    ),
    Answered(
        GROUPS,
        b"<r><g><y><k>1</k></y><x><k>1</k></x></g><g><y><k>1</k></y><x><k>2</k></x></g></r>",
        b"<m><k>1</k></m>",
    ),
    Answered(NESTED, b"<r><x><x>2</x><y>2</y>3</x></r>", b"<m></m>"),
    Answered(NESTED, b"<r><x><x>2</x>3</x><y>2</y></r>", b"<m></m>"),
    Answered(NESTED, b"<r><x><x>2</x>3</x><y>3</y></r>", b"<n></n>"),
    Answered(
        NESTED,
        b"<r><y>1<y>2</y></y><x>3</x><x>12</x></r>",
        b"<m></m>",
    ),
    Answered(
        b"for $b in /r/y where not($b/k = /r/x/k) return $b/k",
        b"<r><x><k>1</k></x><y><k>1</k></y><y><k>2</k></y></r>",
        b"<k>2</k>",
    ),
    Answered(
        b"for $b in /r/y where $b/j = /r/x/j or $b/k = /r/x/k return $b/k",
        b"<r><x><j>1</j><k>2</k></x><y><j>1</j><k>3</k></y><y><j>2</j><k>2</k></y><y><j>3</j><k>3</k></y></r>",
        b"<k>3</k><k>2</k>",
    ),
    Answered(
        b"if (/r/x/k = /r/x/k) then <m/> else <n/>",
        b"<r><x><k>1</k></x></r>",
        b"<m></m>",
    ),
    Answered(
        LOOKED,
        b"<r><x><k>1</k></x><y><v>a</v><k>2</k><k>3</k><k>1</k><k>4</k></y></r>",
        b"<m><v>a</v></m>",
    ),
    // Other lists, and other nodes whose values are looked up.
    Answered(
        LOOKED,
        b"<r><x><k>1</k><k>4</k></x><x><k>2</k></x><y><k>3</k><k>4</k><v>a</v></y><y><k>5</k><k>2</k><v>b</v></y></r>",
        b"<m><v>a</v></m><m><v>b</v></m>",
    ),
    Answered(
        LOOKED,
        b"<r><y><v>a</v><k>3</k><k>4</k></y><y><v>b</v><k>1</k></y><x><k>1</k></x><x><k>4</k></x><x/></r>",
        b"<m><v>b</v></m><m><v>a</v></m>",
    ),
    Answered(
        LOOKED,
        b"<r><x><k/></x><x><k>1</k></x><y><v>a</v></y><y><v>b</v><k>2</k><k/></y><y><k>1</k><v>c</v></y></r>",
        b"<m><v>b</v></m><m><v>c</v></m>",
    ),
    Answered(
        TURNED,
        b"<r><x><k>1</k><k>4</k></x><x><k>2</k><k>3</k></x><y><k>3</k><k>4</k><v>a</v></y><y><k>5</k><k>2</k><v>b</v></y></r>",
        b"<m><v>a</v></m><m><v>a</v></m><m><v>b</v></m>",
    ),
    Answered(
        INSIDE,
        b"<r><x><k>2</k></x><x><k>12</k></x><y><k>3</k><k>1<k>2</k></k></y></r>",
        b"<m></m><m></m>",
    ),
    Answered(
        INSIDE,
        b"<r><x><k>12</k></x><y><k>1<k>2</k><k/></k></y><y><k>4<k>1</k></k></y></r>",
        b"<m></m>",
    ),
];

#[test]
fn what_is_kept_tells_what_a_comparison_made_anew_does(rt: HostRuntime) -> Result<(), Fail> {
    for row in &ROWS {
        is_answered_in_pieces(&rt, rt.alloc(), row)?;
    }
    Ok(())
}

const X_FIRST: &[Part] = &[
    ("<r>", 0, 1),
    ("<x><v>#</v><k>#</k></x>", 0, 5_000),
    ("<y><v>#</v><k>#</k></y>", 5_000, 10_000),
    ("</r>", 0, 1),
];

const Y_FIRST: &[Part] = &[
    ("<r>", 0, 1),
    ("<y><v>#</v><k>#</k></y>", 5_000, 10_000),
    ("<x><v>#</v><k>#</k></x>", 0, 5_000),
    ("</r>", 0, 1),
];

// No value of one path is one of the other. Compared anew at each question they would take some 10^12 steps.
#[test]
fn many_values_are_compared_at_the_root(rt: HostRuntime) -> Result<(), Fail> {
    let alloc = rt.alloc();
    for parts in [X_FIRST, Y_FIRST] {
        let document = spelled(alloc, parts)?;
        let row = Built(ROOT, &document, b"<n></n>", 0);
        builds(&rt, alloc, &row, plainly(65_536))?;
    }
    Ok(())
}
