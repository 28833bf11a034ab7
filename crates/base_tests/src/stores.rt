//! The stores of rows: one table of calls over both, and what a raw store gives back.
ghost use Rattle.std.specs.Prelude.{◌≡◌, IfOk, IfSome, IsSome, Some, []};
ghost use Rattle.std.specs.FinMap as map;

use node_store::{At, NodeStore, Place, SlabNodes};
use raw_nodes::RawNodes;
use std::alloc::Global;
use std::fmt::Write;
use std::fs;
use std::process::Abort;
use std::test::Fail;

/// A call on a store whose payloads tell the rows apart. An `Append` names the parent first.
#[derive(Drop)]
enum Call {
    Plant(u32),
    Append(u32, u32),
    Unlink(u32),
    Drop(u32),
    Write(u32, u32),
}

// A call, the rows after it as `draw` writes them forward and backward, and the greatest number of rows so far.
const CALLS: [(Call, &str, &str, usize); 16] = [
    (Call::Plant(1), "1", "1", 1),
    (Call::Append(1, 2), "1(2)", "1(2)", 2),
    (Call::Append(1, 3), "1(2 3)", "1(3 2)", 3),
    (Call::Append(1, 4), "1(2 3 4)", "1(4 3 2)", 4),
    (Call::Unlink(3), "1(2 4)", "1(4 2)", 4),
    (Call::Append(2, 5), "1(2(5) 4)", "1(4 2(5))", 4),
    (Call::Append(2, 6), "1(2(5 6) 4)", "1(4 2(6 5))", 5),
    (Call::Append(6, 7), "1(2(5 6(7)) 4)", "1(4 2(6(7) 5))", 6),
    (Call::Write(6, 8), "1(2(5 8(7)) 4)", "1(4 2(8(7) 5))", 6),
    (Call::Drop(5), "1(2(8(7)) 4)", "1(4 2(8(7)))", 6),
    (Call::Unlink(4), "1(2(8(7)))", "1(2(8(7)))", 6),
    (Call::Drop(7), "1(2(8))", "1(2(8))", 6),
    (Call::Unlink(8), "1(2)", "1(2)", 6),
    (Call::Unlink(2), "1", "1", 6),
    (Call::Drop(1), "", "", 6),
    (Call::Plant(9), "9", "9", 6),
];

/// Which child of a row comes first in a drawing.
#[derive(Clone, Copy)]
enum Order {
    Forward,
    Backward,
}

// The row with this payload: the one at `from`, one below it, or one after it.
fn find<N: NodeStore<u32>>(
    store: &N,
    from: Option<Place>,
    payload: u32,
    steps: u32,
) -> Option<Place>
    requires { IfSome from (λ p. IsSome (map.get (N.rows store.now) p.0)) }
    ensures { IfSome result (λ p. IsSome (map.get (N.rows store.now) p.0)) }
{
    let place = from?;
    if *store.payload(place) == payload {
        return Some(place);
    }
    if steps == 0 {
        return None;
    }
    match find(store, store.first(place), payload, steps - 1) {
        Some(found) => Some(found),
        None => find(store, store.next(place), payload, steps - 1),
    }
}

fn locate<N: NodeStore<u32>>(store: &N, payload: u32) -> Result<Place, Fail>
    ensures { IfOk result (λ p. IsSome (map.get (N.rows store.now) p.0)) }
{
    match find(store, store.root(), payload, 999) {
        Some(place) => Ok(place),
        None => Err(Fail::new("no row")),
    }
}

fn drop_at<T: Drop, N: NodeStore<T>>(store: &mut N, place: Place) -> Result<(), Fail>
    requires { IsSome (map.get (N.rows store.old) place.0) }
{
    if store.first(place).is_some() {
        return Err(Fail::new("no leaf"));
    }
    store.drop_leaf(place);
    Ok(())
}

fn plant<N: NodeStore<u32>>(store: &mut N, payload: u32) -> Result<(), Fail> {
    if store.root().is_some() {
        return Err(Fail::new("not empty"));
    }
    store.plant(payload)?;
    Ok(())
}

fn append<N: NodeStore<u32>>(store: &mut N, parent: u32, payload: u32) -> Result<(), Fail> {
    let parent = locate(&*store, parent)?;
    store.append(parent, payload)?;
    Ok(())
}

fn unlink<N: NodeStore<u32>>(store: &mut N, payload: u32) -> Result<(), Fail> {
    let place = locate(&*store, payload)?;
    if store.first(place).is_some() {
        return Err(Fail::new("no leaf"));
    }
    store.unlink_leaf(place);
    Ok(())
}

fn write_over<N: NodeStore<u32>>(store: &mut N, old: u32, new: u32) -> Result<(), Fail> {
    let place = locate(&*store, old)?;
    *store.payload_mut(place) = new;
    Ok(())
}

fn make_call<N: NodeStore<u32>>(store: &mut N, call: &Call) -> Result<(), Fail> {
    match *call {
        Call::Plant(payload) => plant(store, payload),
        Call::Append(parent, payload) => append(store, parent, payload),
        Call::Unlink(payload) => unlink(store, payload),
        Call::Drop(payload) => {
            let place = locate(&*store, payload)?;
            drop_at(store, place)
        }
        Call::Write(old, new) => write_over(store, old, new),
    }
}

fn head<'a, N: NodeStore<u32>>(at: At<'a, N, u32>, order: Order) -> Option<At<'a, N, u32>> {
    match order {
        Order::Forward => at.first(),
        Order::Backward => at.last(),
    }
}

fn follower<'a, N: NodeStore<u32>>(at: At<'a, N, u32>, order: Order) -> Option<At<'a, N, u32>> {
    match order {
        Order::Forward => at.next(),
        Order::Backward => at.prev(),
    }
}

// The payload of the parent.
fn above<N: NodeStore<u32>>(at: At<'_, N, u32>) -> Option<u32> {
    match at.parent() {
        Some(parent) => Some(*parent.payload()),
        None => None,
    }
}

// The rows from `at` on in this order, each with its children in parentheses.
fn draw<N: NodeStore<u32>>(
    rt: &impl Abort,
    out: &mut String,
    at: At<'_, N, u32>,
    order: Order,
    parent: Option<u32>,
    steps: u32,
) -> Result<(), Fail> {
    let payload = *at.payload();
    write!(out, "{payload}")?;
    assert_eq!(rt; above(at), parent);
    if steps == 0 {
        return Ok(());
    }
    if let Some(child) = head(at, order) {
        out.push('(')?;
        draw(rt, out, child, order, Some(payload), steps - 1)?;
        out.push(')')?;
    }
    if let Some(sibling) = follower(at, order) {
        out.push(' ')?;
        draw(rt, out, sibling, order, parent, steps - 1)?;
    }
    Ok(())
}

fn draw_all<N: NodeStore<u32>>(
    rt: &impl Abort,
    alloc: Global,
    store: &N,
    order: Order,
) -> Result<String, Fail> {
    let mut out = String::new(alloc);
    if let Some(root) = store.root() {
        draw(rt, &mut out, At::new(store, root), order, None, 999)?;
    }
    Ok(out)
}

fn assert_drawn<N: NodeStore<u32>>(
    rt: &impl Abort,
    alloc: Global,
    store: &N,
    order: Order,
    want: &str,
) -> Result<(), Fail> {
    let drawn = draw_all(rt, alloc, store, order)?;
    assert_eq!(rt; drawn.as_str(), want);
    Ok(())
}

fn assert_rows<N: NodeStore<u32>>(
    rt: &impl Abort,
    alloc: Global,
    store: &N,
    forward: &str,
    backward: &str,
    most: usize,
) -> Result<(), Fail> {
    assert_eq!(rt; store.most(), most, "at {forward}");
    assert_drawn(rt, alloc, store, Order::Forward, forward)?;
    assert_drawn(rt, alloc, store, Order::Backward, backward)
}

fn run<N: NodeStore<u32>>(rt: &impl Abort, alloc: Global, store: &mut N) -> Result<(), Fail> {
    for (step, forward, backward, most) in &CALLS {
        make_call(store, step)?;
        assert_rows(rt, alloc, &*store, forward, backward, *most)?;
    }
    Ok(())
}

#[test]
fn calls_answer_the_table(rt: HostRuntime) -> Result<(), Fail> {
    let alloc = rt.alloc();
    run(&rt, alloc, &mut RawNodes::new(alloc))?;
    run(&rt, alloc, &mut SlabNodes::new(alloc))
}

// The row of the root.
fn root_of<T, N: NodeStore<T>>(store: &N) -> Result<Place, Fail>
    ensures { IfOk result (λ p. IsSome (map.get (N.rows store.now) p.0)) }
{
    match store.root() {
        Some(root) => Ok(root),
        None => Err(Fail::new("no root")),
    }
}

fn append_text<N: NodeStore<String>>(alloc: Global, store: &mut N) -> Result<(), Fail> {
    let root = root_of(&*store)?;
    let text = String::from_str(alloc, "the text of its child")?;
    store.append(root, text)?;
    Ok(())
}

// Drops the last child of the root.
fn drop_last<N: NodeStore<String>>(store: &mut N) -> Result<(), Fail> {
    let root = root_of(&*store)?;
    match store.last(root) {
        Some(child) => drop_at(store, child),
        None => Err(Fail::new("no child")),
    }
}

fn drop_root<N: NodeStore<String>>(rt: &impl Abort, store: &mut N) -> Result<(), Fail> {
    let root = root_of(&*store)?;
    assert_eq!(rt; store.payload(root).as_str(), "the text of the root");
    drop_at(store, root)?;
    assert!(rt; store.root().is_none());
    Ok(())
}

// Each row's payload owns memory.
fn drop_texts<N: NodeStore<String>>(
    rt: &impl Abort,
    alloc: Global,
    store: &mut N,
) -> Result<(), Fail>
    requires { N.rows store.old ≡ map.empty }
{
    let text = String::from_str(alloc, "the text of the root")?;
    store.plant(text)?;
    append_text(alloc, store)?;
    drop_last(store)?;
    drop_root(rt, store)
}

#[test]
fn payloads_that_own_memory_are_dropped(rt: HostRuntime) -> Result<(), Fail> {
    let alloc = rt.alloc();
    drop_texts(&rt, alloc, &mut RawNodes::new(alloc))?;
    drop_texts(&rt, alloc, &mut SlabNodes::new(alloc))
}

fn make_calls<N: NodeStore<u32>>(store: &mut N, calls: &[Call]) -> Result<(), Fail> {
    for call in calls {
        make_call(store, call)?;
    }
    Ok(())
}

fn assert_place(rt: &impl Abort, found: Option<Place>, want: Option<Place>) {
    assert_eq!(rt; found, want);
}

// Row 1 has rows 2 and 4 as its children, and no other.
fn assert_two_children<N: NodeStore<u32>>(rt: &impl Abort, store: &N) -> Result<(), Fail> {
    let a = locate(store, 1)?;
    let b = locate(store, 2)?;
    let d = locate(store, 4)?;
    assert_place(rt, store.first(a), Some(b));
    assert_place(rt, store.next(b), Some(d));
    assert_place(rt, store.next(d), None);
    assert_place(rt, store.last(a), Some(d));
    assert_place(rt, store.prev(d), Some(b));
    assert_place(rt, store.prev(b), None);
    Ok(())
}

fn assert_cells(rt: &impl Abort, store: &RawNodes<u32>, cells: usize) {
    assert_eq!(rt; store.cells(), cells);
}

// A row between two others leaves.
const MIDDLE: [Call; 5] = [
    Call::Plant(1),
    Call::Append(1, 2),
    Call::Append(1, 3),
    Call::Append(1, 4),
    Call::Unlink(3),
];

fn leave_the_middle(rt: &impl Abort, store: &mut RawNodes<u32>) -> Result<(), Fail> {
    make_calls(store, &MIDDLE)?;
    assert_two_children(rt, &*store)?;
    assert_cells(rt, &*store, 256);
    Ok(())
}

#[test]
fn a_leaf_in_the_middle_leaves(rt: HostRuntime) -> Result<(), Fail> {
    leave_the_middle(&rt, &mut RawNodes::new(rt.alloc()))
}

// Calls on a store whose block is full, and its cells after each.
const FULL: [(Call, usize); 3] = [
    (Call::Unlink(100), 256),
    (Call::Append(0, 256), 256),
    (Call::Append(0, 257), 512),
];

// Fills a block with a root and its children.
fn fill_block(store: &mut RawNodes<u32>) -> Result<(), Fail> {
    plant(store, 0)?;
    for child in 1..256 {
        append(store, 0, child)?;
    }
    Ok(())
}

fn use_dead_cells(rt: &impl Abort, store: &mut RawNodes<u32>) -> Result<(), Fail> {
    fill_block(store)?;
    assert_cells(rt, &*store, 256);
    for (call, cells) in &FULL {
        make_call(store, call)?;
        assert_cells(rt, &*store, *cells);
    }
    Ok(())
}

#[test]
fn a_dead_cell_is_used_before_a_block(rt: HostRuntime) -> Result<(), Fail> {
    use_dead_cells(&rt, &mut RawNodes::new(rt.alloc()))
}

/// So wide a payload that blocks show in the memory of the process.
type Wide = [u64; 128];

const WIDE: Wide = [7; 128];

const STORES: u32 = 3_000;

// The second number of the text.
fn second_number(text: &str) -> Option<u64> {
    let mut numbers = text.split_whitespace();
    numbers.next();
    numbers.next()?.parse::<u64>().ok()
}

// How many pages of memory the process has, as Linux tells it.
fn pages(rt: &HostRuntime) -> Result<u64, Fail> {
    let text = fs::read_to_string(rt, "/proc/self/statm")?;
    match second_number(text.as_str()) {
        Some(pages) => Ok(pages),
        None => Err(Fail::new("no second number")),
    }
}

// Gives a store two blocks.
fn fill<N: NodeStore<Wide>>(store: &mut N) -> Result<(), Fail>
    requires { N.rows store.old ≡ map.empty }
{
    store.plant(WIDE)?;
    for _ in 1..257 {
        let root = root_of(&*store)?;
        store.append(root, WIDE)?;
    }
    Ok(())
}

// Makes a store, gives it two blocks, and lets it go.
fn fill_two_blocks(rt: &impl Abort, alloc: Global) -> Result<(), Fail> {
    let mut store = RawNodes::new(alloc);
    fill(&mut store)?;
    assert_eq!(rt; store.cells(), 512);
    Ok(())
}

// No clause says that a block is given back. One block of each store would take more than 800 MB, and 400 MB are granted
// to an allocator that keeps freed memory for a while.
#[test]
fn blocks_are_given_back(rt: HostRuntime) -> Result<(), Fail> {
    let before = pages(&rt)?;
    for _ in 0..STORES {
        fill_two_blocks(&rt, rt.alloc())?;
    }
    let after = pages(&rt)?;
    assert!(&rt;
        after < before.saturating_add(100_000),
        "{before} pages, then {after}"
    );
    Ok(())
}
