//! Comparisons of values.
ghost use Rattle.std.specs.Prelude.{◌≡◌};
ghost use Rattle.gcx_model.specs.Values.{compare, Bytes, Units};

use gcx_base::Rel;
use std::alloc::{AllocError, Global};
use std::cmp::Ordering;
use std::process::Abort;
use std::test::Fail;
use xq_values::{NumText, compare_text, holds};

/// A literal without a fraction, in units.
const ONE: i128 = 1_000_000_000_000_000_000;

/// The calls together are the definition on a value and a literal.
fn number_holds(value: &[u8], rel: Rel, units: i128) -> bool
    ensures { result ≡ compare rel (Bytes value.now) (Units units) }
{
    match NumText::read(value) {
        Some(number) => holds(rel, number.compare(units)),
        None => false,
    }
}

/// The same with the literal on the left.
fn literal_holds(units: i128, rel: Rel, value: &[u8]) -> bool
    ensures { result ≡ compare rel (Units units) (Bytes value.now) }
{
    match NumText::read(value) {
        Some(number) => holds(rel, number.compare(units).reverse()),
        None => false,
    }
}

/// The same on two texts.
fn text_holds(a: &[u8], rel: Rel, b: &[u8]) -> bool
    ensures { result ≡ compare rel (Bytes a.now) (Bytes b.now) }
{
    holds(rel, compare_text(a, b))
}

/// How the number that the value reads as stands to a literal. None where it is no number.
fn order(value: &[u8], units: i128) -> Option<Ordering> {
    Some(NumText::read(value)?.compare(units))
}

#[test]
fn reads_numbers(rt: HostRuntime) {
    let rows: &[(&str, i128)] = &[
        ("007", 7 * ONE),
        (" 7 ", 7 * ONE),
        ("7.0", 7 * ONE),
        ("7.", 7 * ONE),
        ("+3.", 3 * ONE),
        (".5", ONE / 2),
        ("-.5", -ONE / 2),
        ("\t\r\n-12.50\n ", -12 * ONE - ONE / 2),
        ("00.0500", ONE / 20),
        ("-0", 0),
        ("+0.000", 0),
        ("0.000000000000000001", 1),
        ("170141183460469231731.687303715884105727", i128::MAX),
        ("-170141183460469231731.687303715884105728", i128::MIN),
    ];
    for &(value, units) in rows {
        let found = order(value.as_bytes(), units);
        assert_eq!(rt; found, Some(Ordering::Equal), "{value}");
    }
}

#[test]
fn reads_nothing_else(rt: HostRuntime) {
    let rows: &[&str] = &[
        "", " \n", ".", "+", "-.", "- 3", "--3", "+-3", "3-", "2,6", "7x", "x7", "1 2", "1.2.3",
        "1..2", "1. 5", "1e3", "0x10", "NaN", "INF", "\u{b}7", "7\u{c}", "7\u{a0}", "\u{663}",
    ];
    for value in rows {
        assert!(rt; NumText::read(value.as_bytes()).is_none(), "{value}");
    }
}

/// A value, the relation, the units of a literal, and whether the value is so related to it.
type Comparison<'a> = (&'a str, Rel, i128, bool);

/// Each comparison has the truth that it names.
fn are_compared(rt: &impl Abort, rows: &[Comparison<'_>]) {
    for &(value, rel, units, want) in rows {
        assert_eq!(rt;
            number_holds(value.as_bytes(), rel, units),
            want,
            "{value} {rel:?}"
        );
    }
}

#[test]
fn compares_values_with_literals(rt: HostRuntime) {
    let rows: &[Comparison<'_>] = &[
        ("2.5", Rel::Ge, 5 * ONE / 2, true),
        ("2.49999999999999999999", Rel::Ge, 5 * ONE / 2, false),
        ("+3.", Rel::Ge, 5 * ONE / 2, true),
        (".5", Rel::Ge, 5 * ONE / 2, false),
        ("2,6", Rel::Ge, 5 * ONE / 2, false),
        ("2,6", Rel::Ne, 5 * ONE / 2, false),
        ("2,6", Rel::Lt, 5 * ONE / 2, false),
        ("", Rel::Le, 0, false),
        ("7.0", Rel::Eq, 7 * ONE, true),
        ("7.0", Rel::Ne, 7 * ONE, false),
        ("7.0000000000000000001", Rel::Eq, 7 * ONE, false),
        ("7.0000000000000000001", Rel::Gt, 7 * ONE, true),
        ("6.9999999999999999999", Rel::Lt, 7 * ONE, true),
        ("-7.0000000000000000001", Rel::Lt, -7 * ONE, true),
        ("-6.9999999999999999999", Rel::Le, -7 * ONE, false),
        ("-7", Rel::Lt, 7 * ONE, true),
        ("7", Rel::Gt, -7 * ONE, true),
        ("-0", Rel::Lt, 0, false),
        ("-0.00000000000000000000000001", Rel::Lt, 0, true),
        ("0.00000000000000000000000001", Rel::Gt, 0, true),
        ("-1", Rel::Ge, 1, false),
    ];
    are_compared(&rt, rows);
}

/// Values with more digits than a literal may have.
const WIDE: &[Comparison<'static>] = &[
    (
        "18446744073709551616",
        Rel::Gt,
        18_446_744_073_709_551_615 * ONE,
        true,
    ),
    (
        "9223372036854775808",
        Rel::Le,
        9_223_372_036_854_775_807 * ONE,
        false,
    ),
    (
        "170141183460469231731.687303715884105728",
        Rel::Gt,
        i128::MAX,
        true,
    ),
    (
        "-170141183460469231731.6873037158841057281",
        Rel::Lt,
        i128::MIN,
        true,
    ),
    (
        "-170141183460469231731.687303715884105729",
        Rel::Eq,
        i128::MIN,
        false,
    ),
    (
        "340282366920938463463.374607431768211456",
        Rel::Eq,
        0,
        false,
    ),
];

#[test]
fn compares_wide_values_with_literals(rt: HostRuntime) {
    are_compared(&rt, WIDE);
}

#[test]
fn compares_literals_with_values(rt: HostRuntime) {
    assert!(rt; literal_holds(7 * ONE, Rel::Lt, b"8"));
    assert!(rt; !literal_holds(7 * ONE, Rel::Gt, b"8"));
}

/// The bytes of each part, as often as it says.
fn joined(alloc: Global, parts: &[(&str, u32)]) -> Result<Vec<u8>, AllocError> {
    let mut value = Vec::new(alloc);
    for (part, count) in parts {
        for _ in 0..*count {
            value.extend_from_slice(part.as_bytes())?;
        }
    }
    Ok(value)
}

#[test]
fn compares_thousands_of_digits(rt: HostRuntime) -> Result<(), Fail> {
    let rows: &[(&[(&str, u32)], i128, Ordering)] = &[
        (
            &[("0", 5_000), ("7.", 1), ("0", 5_000)],
            7 * ONE,
            Ordering::Equal,
        ),
        (
            &[("0", 5_000), ("7.", 1), ("0", 5_000), ("1", 1)],
            7 * ONE,
            Ordering::Greater,
        ),
        (&[("6.", 1), ("9", 5_000)], 7 * ONE, Ordering::Less),
        (
            &[("-", 1), ("0", 5_000), ("7.", 1), ("0", 5_000), ("1", 1)],
            -7 * ONE,
            Ordering::Less,
        ),
        (&[("-6.", 1), ("9", 5_000)], -7 * ONE, Ordering::Greater),
        (&[("9", 5_000)], i128::MAX, Ordering::Greater),
        (
            &[("-", 1), ("9", 5_000), (".", 1), ("9", 5_000)],
            i128::MIN,
            Ordering::Less,
        ),
        (&[(".", 1), ("0", 5_000), ("1", 1)], 0, Ordering::Greater),
        (&[("-.", 1), ("0", 5_000)], 0, Ordering::Equal),
        (
            &[(" ", 5_000), ("1", 1), ("0", 5_000), (" ", 5_000)],
            1,
            Ordering::Greater,
        ),
    ];
    for &(parts, units, want) in rows {
        let value = joined(rt.alloc(), parts)?;
        assert_eq!(rt; order(&value, units), Some(want), "{parts:?}");
    }
    Ok(())
}

#[test]
fn compares_texts_by_code_points(rt: HostRuntime) {
    let rows: &[(&str, &str, Ordering)] = &[
        ("", "", Ordering::Equal),
        ("", "a", Ordering::Less),
        ("a", "aa", Ordering::Less),
        ("b", "aa", Ordering::Greater),
        ("10", "9", Ordering::Less),
        ("z", "\u{e9}", Ordering::Less),
        ("\u{ffff}", "\u{10000}", Ordering::Less),
        ("Z", "a", Ordering::Less),
    ];
    for &(a, b, want) in rows {
        let (a, b) = (a.as_bytes(), b.as_bytes());
        let found = (compare_text(a, b), compare_text(b, a));
        assert_eq!(rt; found, (want, want.reverse()), "{a:?} {b:?}");
    }
}

#[test]
fn texts_of_one_number_differ(rt: HostRuntime) {
    for value in &["007", "7x", " 7 "] {
        assert!(rt; !text_holds(value.as_bytes(), Rel::Eq, b"7"), "{value}");
    }
}

#[test]
fn relations_hold_of_orders(rt: HostRuntime) {
    let rows: &[(Rel, [bool; 3])] = &[
        (Rel::Eq, [false, true, false]),
        (Rel::Ne, [true, false, true]),
        (Rel::Lt, [true, false, false]),
        (Rel::Le, [true, true, false]),
        (Rel::Gt, [false, false, true]),
        (Rel::Ge, [false, true, true]),
    ];
    for &(rel, wanted) in rows {
        let found = [
            holds(rel, Ordering::Less),
            holds(rel, Ordering::Equal),
            holds(rel, Ordering::Greater),
        ];
        assert_eq!(rt; found, wanted, "{rel:?}");
    }
}
