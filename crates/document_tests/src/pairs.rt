//! Comparisons of all values of two sides, which are taken one by one.
use gcx_base::{Memory, Rel};
use std::alloc::Global;
use std::process::Abort;
use std::test::Fail;
use value_pairs::{Compared, Hand};

const RELATIONS: [Rel; 6] = [Rel::Eq, Rel::Ne, Rel::Lt, Rel::Le, Rel::Gt, Rel::Ge];

/// At most two values of the left side, at most two of the right side, and whether each of the relations holds of some
/// pair.
type Row<'a> = (&'a [&'a str], &'a [&'a str], [bool; 6]);

const ROWS: &[Row<'static>] = &[
    (&[], &[], [false, false, false, false, false, false]),
    (&["a"], &[], [false, false, false, false, false, false]),
    (&[], &["a", "b"], [false, false, false, false, false, false]),
    (&["a"], &["a"], [true, false, false, true, false, true]),
    (&["a"], &["b"], [false, true, true, true, false, false]),
    (&["b"], &["a"], [false, true, false, false, true, true]),
    (
        &["a", "a"],
        &["a", "a"],
        [true, false, false, true, false, true],
    ),
    (&["a", "b"], &["a"], [true, true, false, true, true, true]),
    (&["a"], &["a", "b"], [true, true, true, true, false, true]),
    (
        &["a", "b"],
        &["b", "c"],
        [true, true, true, true, false, true],
    ),
    (
        &["b", "c"],
        &["a", "b"],
        [true, true, false, true, true, true],
    ),
    (&["a", "c"], &["b"], [false, true, true, true, true, true]),
    (&["b"], &["a", "c"], [false, true, true, true, true, true]),
    (
        &["a", "b"],
        &["a", "b"],
        [true, true, true, true, true, true],
    ),
    (
        &["a", "b"],
        &["c", "d"],
        [false, true, true, true, false, false],
    ),
    (
        &["c", "d"],
        &["a", "b"],
        [false, true, false, false, true, true],
    ),
    // Texts are compared by their bytes, those of numbers too, and an empty one is a value.
    (&[""], &["", "a"], [true, true, true, true, false, true]),
    (&["10"], &["9"], [false, true, true, true, false, false]),
    (
        &["7"],
        &["7.0", "07"],
        [false, true, true, true, true, true],
    ),
    (
        &["\u{ffff}"],
        &["\u{10000}"],
        [false, true, true, true, false, false],
    ),
];

/// The order that a number below 256 writes with four digits, where each place comes once.
fn order_of(number: u32) -> Option<[usize; 4]> {
    let (a, b, c, d) = (number % 4, number / 4 % 4, number / 16 % 4, number / 64);
    if a == b || a == c || a == d || b == c || b == d || c == d {
        return None;
    }
    Some([a as usize, b as usize, c as usize, d as usize])
}

/// The value at one of four places, of which the left side has the first two.
fn take_at(
    compared: &mut Compared,
    alloc: Global,
    lefts: &[&str],
    rights: &[&str],
    place: usize,
) -> Result<(), Memory> {
    let (hand, value) = if place < 2 {
        (Hand::Left, lefts.get(place))
    } else {
        (Hand::Right, rights.get(place - 2))
    };
    match value {
        Some(value) => compared.take(alloc, hand, value.as_bytes()),
        None => Ok(()),
    }
}

/// Whether the relation holds of some pair, where the values are taken in this order.
fn found_in(
    alloc: Global,
    rel: Rel,
    lefts: &[&str],
    rights: &[&str],
    order: [usize; 4],
) -> Result<bool, Memory> {
    let mut compared = Compared::new(alloc, rel);
    for place in &order {
        take_at(&mut compared, alloc, lefts, rights, *place)?;
    }
    Ok(compared.found())
}

/// The same of each relation.
fn each_in(
    alloc: Global,
    lefts: &[&str],
    rights: &[&str],
    order: [usize; 4],
) -> Result<[bool; 6], Memory> {
    Ok([
        found_in(alloc, Rel::Eq, lefts, rights, order)?,
        found_in(alloc, Rel::Ne, lefts, rights, order)?,
        found_in(alloc, Rel::Lt, lefts, rights, order)?,
        found_in(alloc, Rel::Le, lefts, rights, order)?,
        found_in(alloc, Rel::Gt, lefts, rights, order)?,
        found_in(alloc, Rel::Ge, lefts, rights, order)?,
    ])
}

/// Each row tells what is found, where its values are taken in this order.
fn rows_hold(rt: &impl Abort, alloc: Global, order: [usize; 4]) -> Result<(), Memory> {
    for &(lefts, rights, wanted) in ROWS {
        let found = each_in(alloc, lefts, rights, order)?;
        assert_eq!(rt; found, wanted, "{lefts:?} {rights:?} {order:?}");
    }
    Ok(())
}

#[test]
fn the_order_of_taking_changes_nothing(rt: HostRuntime) -> Result<(), Fail> {
    for number in 0..256 {
        if let Some(order) = order_of(number) {
            rows_hold(&rt, rt.alloc(), order)?;
        }
    }
    Ok(())
}

fn take_all(
    compared: &mut Compared,
    alloc: Global,
    hand: Hand,
    values: &[&str],
) -> Result<(), Memory> {
    for value in values {
        compared.take(alloc, hand, value.as_bytes())?;
    }
    Ok(())
}

/// What is told of both sides: whether the left one is empty, whether the right one is, and whether a pair is found.
fn told(compared: &Compared) -> (bool, bool, bool) {
    (
        compared.is_empty(Hand::Left),
        compared.is_empty(Hand::Right),
        compared.found(),
    )
}

/// A comparison that took these values.
fn taken(alloc: Global, rel: Rel, lefts: &[&str], rights: &[&str]) -> Result<Compared, Memory> {
    let mut compared = Compared::new(alloc, rel);
    take_all(&mut compared, alloc, Hand::Left, lefts)?;
    take_all(&mut compared, alloc, Hand::Right, rights)?;
    Ok(compared)
}

/// Clears a side and takes its values again: what is told in between, and then.
fn again(
    compared: &mut Compared,
    alloc: Global,
    hand: Hand,
    values: &[&str],
) -> Result<[(bool, bool, bool); 2], Memory> {
    compared.clear(hand);
    let between = told(compared);
    take_all(compared, alloc, hand, values)?;
    Ok([between, told(compared)])
}

/// Each side of the row may be cleared, and taken again.
fn sides_clear(
    rt: &impl Abort,
    alloc: Global,
    row: Row<'_>,
    rel: Rel,
    want: bool,
) -> Result<(), Memory> {
    let (lefts, rights, _) = row;
    let mut compared = taken(alloc, rel, lefts, rights)?;
    let whole = (lefts.is_empty(), rights.is_empty(), want);
    assert_eq!(rt; told(&compared), whole, "{lefts:?} {rel:?} {rights:?}");
    let left = again(&mut compared, alloc, Hand::Left, lefts)?;
    assert_eq!(rt;
        left,
        [(true, rights.is_empty(), false), whole],
        "{lefts:?} {rel:?} {rights:?}"
    );
    let right = again(&mut compared, alloc, Hand::Right, rights)?;
    assert_eq!(rt;
        right,
        [(lefts.is_empty(), true, false), whole],
        "{lefts:?} {rel:?} {rights:?}"
    );
    Ok(())
}

/// So of each relation.
fn row_clears(rt: &impl Abort, alloc: Global, row: Row<'_>) -> Result<(), Memory> {
    let (_, _, wanted) = row;
    for (rel, want) in RELATIONS.iter().zip(&wanted) {
        sides_clear(rt, alloc, row, *rel, *want)?;
    }
    Ok(())
}

#[test]
fn a_cleared_side_is_as_it_began(rt: HostRuntime) -> Result<(), Fail> {
    for row in ROWS {
        row_clears(&rt, rt.alloc(), *row)?;
    }
    Ok(())
}

/// The relation, the values of the left side, those in place of them, those of the right side, and whether a pair is
/// found then.
type Turned<'a> = (Rel, &'a [&'a str], &'a [&'a str], &'a [&'a str], bool);

#[test]
fn a_cleared_side_keeps_nothing(rt: HostRuntime) -> Result<(), Fail> {
    let rows: &[Turned<'_>] = &[
        (Rel::Eq, &["a"], &["b"], &["a"], false),
        (Rel::Eq, &["a"], &["b"], &["a", "b"], true),
        (Rel::Ne, &["b"], &["a"], &["a"], false),
        (Rel::Lt, &["a"], &["c"], &["b"], false),
        (Rel::Le, &["a"], &["c"], &["b"], false),
        (Rel::Gt, &["c"], &["a"], &["b"], false),
        (Rel::Ge, &["c"], &["a", "b"], &["b"], true),
    ];
    for &(rel, before, now, rights, want) in rows {
        let mut compared = taken(rt.alloc(), rel, before, rights)?;
        compared.clear(Hand::Left);
        take_all(&mut compared, rt.alloc(), Hand::Left, now)?;
        assert_eq!(rt; compared.found(), want, "{now:?} {rel:?} {rights:?}");
    }
    Ok(())
}

/// The texts of four digits below 5,000 on the left, and those from there on on the right.
fn take_numbers(compared: &mut Compared, alloc: Global) -> Result<(), Fail> {
    for number in 1_000..5_000u32 {
        let left = format!(in alloc; "{number}")?;
        let right = format!(in alloc; "{}", number + 4_000)?;
        compared.take(alloc, Hand::Left, left.as_str().as_bytes())?;
        compared.take(alloc, Hand::Right, right.as_str().as_bytes())?;
    }
    Ok(())
}

#[test]
fn there_is_room_for_thousands(rt: HostRuntime) -> Result<(), Fail> {
    for rel in &RELATIONS {
        let mut compared = Compared::new(rt.alloc(), *rel);
        take_numbers(&mut compared, rt.alloc())?;
        let below = matches!(rel, Rel::Ne | Rel::Lt | Rel::Le);
        assert_eq!(rt; told(&compared), (false, false, below), "{rel:?}");
    }
    Ok(())
}
