//! Each `If` moved inside the loops of its branches.
ghost use Rattle.std.specs.Prelude.{◌≡◌, ◌||◌, IfOk, OnOk};
ghost use Rattle.gcx_model.specs.Core.{BodyTree, Nil, Then};
ghost use Rattle.gcx_model.specs.CondView.{core_cond_tree};
ghost use Rattle.gcx_model.specs.ItemView.{body_tree, item_tree};
ghost use Rattle.gcx_model.specs.Normal.{branch, half, has_loop, join};
ghost use Rattle.xq_normal.specs.Raw.{flush, moved, moved_item, spread_on, turn_of};
ghost use Rattle.xq_normal.specs.Calls.{PutsItems, Spreads};

use crate::bodies::{put_body, put_item, single};
use gcx_base::Memory;
use gcx_model::{Body, Cond, Item};
use std::alloc::Global;
use std::mem;

fn has_loop(body: &Body) -> bool
    ensures { result ≡ has_loop (body_tree body.now) }
{
    for item in &body.members {
        if matches!(item, Item::For { .. }) {
            return true;
        }
    }
    false
}

/// An `If` with the body as one branch.
fn half(alloc: Global, cond: &Cond, first: bool, body: Body) -> Result<Item, Memory>
    ensures { IfOk result (λ item. item_tree item ≡ half (core_cond_tree cond.now) first (body_tree body)) }
{
    let cond = cond.copy(alloc)?;
    let empty = Body::new(alloc);
    if first {
        Ok(Item::If {
            cond,
            then: body,
            other: empty,
        })
    } else {
        Ok(Item::If {
            cond,
            then: empty,
            other: body,
        })
    }
}

/// Puts the run at the end as one branch of an `If`. There is none for an empty run.
fn flush(
    alloc: Global,
    cond: &Cond,
    first: bool,
    run: &mut Body,
    out: &mut Body,
) -> Result<(), Memory>
    ensures empty { OnOk result (body_tree run.new ≡ Nil) }
    ensures put { OnOk result (PutsItems out.old out.new
        (flush (core_cond_tree cond.now) first (body_tree run.old) Nil)) }
{
    if run.members.is_empty() {
        return Ok(());
    }
    let whole = mem::replace(run, Body::new(alloc));
    put_item(out, half(alloc, cond, first, whole)?)
}

/// The body of a loop, inside an `If` in its turn.
#[cycle(spreads)]
fn spread_turn(alloc: Global, cond: &Cond, first: bool, body: Body) -> Result<Body, Memory>
    ensures { IfOk result (λ turn. body_tree turn ≡ turn_of (core_cond_tree cond.now) first (body_tree body)) }
{
    if has_loop(&body) {
        spread(alloc, cond, first, body)
    } else {
        single(alloc, half(alloc, cond, first, body)?)
    }
}

/// Takes the next item of a branch: a loop stays, and goes behind the `If` of the run before it; any
/// other item goes on with the run.
#[cycle(spreads)]
fn spread_item(
    alloc: Global,
    cond: &Cond,
    first: bool,
    item: Item,
    run: &mut Body,
    out: &mut Body,
) -> Result<(), Memory>
    ensures { OnOk result (Spreads (core_cond_tree cond.now) first (item_tree item) run.old run.new out.old out.new) }
{
    match item {
        Item::For {
            var,
            from,
            step,
            body,
        } => {
            flush(alloc, cond, first, run, out)?;
            let body = spread_turn(alloc, cond, first, body)?;
            put_item(
                out,
                Item::For {
                    var,
                    from,
                    step,
                    body,
                },
            )
        }
        Item::Write(text) => put_item(run, Item::Write(text)),
        Item::Copy(var) => put_item(run, Item::Copy(var)),
        Item::If { cond, then, other } => put_item(run, Item::If { cond, then, other }),
        Item::Off(off) => put_item(run, Item::Off(off)),
    }
}

/// The items that stand for an `If` with the body as one branch.
#[cycle(spreads)]
fn spread(alloc: Global, cond: &Cond, first: bool, body: Body) -> Result<Body, Memory>
    ensures { IfOk result (λ items. body_tree items
        ≡ spread_on (core_cond_tree cond.now) first Nil (body_tree body)) }
{
    let mut run = Body::new(alloc);
    let mut out = Body::new(alloc);
    for item in body.members {
        spread_item(alloc, cond, first, item, &mut run, &mut out)?;
    }
    flush(alloc, cond, first, &mut run, &mut out)?;
    Ok(out)
}

fn any_loop(then: &Body, other: &Body) -> bool
    ensures { result ≡ (has_loop (body_tree then.now) || has_loop (body_tree other.now)) }
{
    has_loop(then) || has_loop(other)
}

/// Puts at the end what stands for an `If`: itself where its branches have no loop, else the items of
/// the first branch and then those of the other.
fn put_branch(
    alloc: Global,
    out: &mut Body,
    cond: Cond,
    then: Body,
    other: Body,
) -> Result<(), Memory>
    ensures { OnOk result (PutsItems out.old out.new
        (branch (core_cond_tree cond) (body_tree then) (body_tree other))) }
{
    if any_loop(&then, &other) {
        let then = spread(alloc, &cond, true, then)?;
        put_body(out, then)?;
        let other = spread(alloc, &cond, false, other)?;
        put_body(out, other)
    } else {
        put_item(out, Item::If { cond, then, other })
    }
}

/// Puts at the end what the item becomes.
#[cycle(moves)]
fn put_moved_item(alloc: Global, out: &mut Body, item: Item) -> Result<(), Memory>
    ensures { OnOk result (PutsItems out.old out.new (moved_item (item_tree item))) }
{
    match item {
        Item::For {
            var,
            from,
            step,
            body,
        } => {
            let body = moved(alloc, body)?;
            put_item(
                out,
                Item::For {
                    var,
                    from,
                    step,
                    body,
                },
            )
        }
        Item::If { cond, then, other } => {
            let then = moved(alloc, then)?;
            let other = moved(alloc, other)?;
            put_branch(alloc, out, cond, then, other)
        }
        Item::Write(text) => put_item(out, Item::Write(text)),
        Item::Copy(var) => put_item(out, Item::Copy(var)),
        Item::Off(off) => put_item(out, Item::Off(off)),
    }
}

/// The body with each `If` moved inside the loops of its branches.
#[cycle(moves)]
pub(crate) fn moved(alloc: Global, body: Body) -> Result<Body, Memory>
    ensures { IfOk result (λ items. body_tree items ≡ moved (body_tree body)) }
{
    let mut out = Body::new(alloc);
    for item in body.members {
        put_moved_item(alloc, &mut out, item)?;
    }
    Ok(out)
}
