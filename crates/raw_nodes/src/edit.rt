//! Links are set in the cells.
ghost use Rattle.std.specs.Prelude.{◌≡◌, Some, None, IsSome, IfSome};
ghost use Rattle.raw_nodes.specs.Spots.{found, updated, IsInSomeBlock};
ghost use Rattle.raw_nodes.specs.declared.node.Node.{Node};
ghost use Rattle.raw_nodes.specs.Edits.{to_first, to_last, to_prev, to_next, to_row, to_dead, right_put, left_put, join_put};

use crate::arena::{Arena, Link};
use crate::maybe_link::MaybeLink;
use crate::node::Node;

#[inline(always)]
fn set_first<T>(arena: &mut Arena<Node<T>>, at: Link, first: MaybeLink)
    requires { IsSome (found arena.old.cells at.ptr) }
    ensures { arena.new.cells ≡ updated (to_first first) arena.old.cells at.ptr }
{
    let node = arena.follow_mut(at);
    node.first = first;
}

#[inline(always)]
pub(crate) fn set_last<T>(arena: &mut Arena<Node<T>>, at: Link, last: MaybeLink)
    requires { IsSome (found arena.old.cells at.ptr) }
    ensures { arena.new.cells ≡ updated (to_last last) arena.old.cells at.ptr }
{
    let node = arena.follow_mut(at);
    node.last = last;
}

#[inline(always)]
fn set_prev<T>(arena: &mut Arena<Node<T>>, at: Link, prev: MaybeLink)
    requires { IsSome (found arena.old.cells at.ptr) }
    ensures { arena.new.cells ≡ updated (to_prev prev) arena.old.cells at.ptr }
{
    let node = arena.follow_mut(at);
    node.prev = prev;
}

#[inline(always)]
fn set_next<T>(arena: &mut Arena<Node<T>>, at: Link, next: MaybeLink)
    requires { IsSome (found arena.old.cells at.ptr) }
    ensures { arena.new.cells ≡ updated (to_next next) arena.old.cells at.ptr }
{
    let node = arena.follow_mut(at);
    node.next = next;
}

/// Makes a dead cell a row without children.
#[inline(always)]
pub(crate) fn set_row<T>(
    arena: &mut Arena<Node<T>>,
    at: Link,
    parent: MaybeLink,
    prev: MaybeLink,
    payload: T,
)
    requires { (n : Node T) × (found arena.old.cells at.ptr ≡ Some n) × (n.payload ≡ None) }
    ensures { arena.new.cells ≡ updated (to_row parent prev payload) arena.old.cells at.ptr }
{
    let nothing = MaybeLink::none();
    let node = arena.follow_mut(at);
    node.parent = parent;
    node.first = nothing;
    node.last = nothing;
    node.prev = prev;
    node.next = nothing;
    node.payload.put(payload);
}

/// Makes a row's cell a dead one, and hands its payload out.
#[inline(always)]
pub(crate) fn set_dead<T>(arena: &mut Arena<Node<T>>, at: Link, next: MaybeLink) -> T
    requires row { (n : Node T) × (found arena.old.cells at.ptr ≡ Some n) × IsSome n.payload }
    requires placed { IsInSomeBlock at.ptr }
    ensures cells { arena.new.cells ≡ updated (to_dead at next) arena.old.cells at.ptr }
    ensures payload { (n : Node T) → found arena.old.cells at.ptr ≡ Some n → n.payload ≡ Some result }
{
    let own = MaybeLink::to(at);
    let node = arena.follow_mut(at);
    node.last = own;
    node.next = next;
    node.payload.take()
}

/// Makes a row's cell a dead one, and drops its payload, which is read out of its room for that.
#[inline(always)]
pub(crate) fn set_empty<T: Drop>(arena: &mut Arena<Node<T>>, at: Link, next: MaybeLink)
    requires row { (n : Node T) × (found arena.old.cells at.ptr ≡ Some n) × IsSome n.payload }
    requires placed { IsInSomeBlock at.ptr }
    ensures { arena.new.cells ≡ updated (to_dead at next) arena.old.cells at.ptr }
{
    let own = MaybeLink::to(at);
    let node = arena.follow_mut(at);
    node.last = own;
    node.next = next;
    drop(node.payload.take());
}

#[inline(always)]
fn set_right<T>(arena: &mut Arena<Node<T>>, parent: MaybeLink, left: MaybeLink, right: MaybeLink)
    requires parent { IfSome parent (λ l. IsSome (found arena.old.cells l.ptr)) }
    requires left { IfSome left (λ l. IsSome (found arena.old.cells l.ptr)) }
    ensures { arena.new.cells ≡ right_put parent left right arena.old.cells }
{
    match (left.get(), parent.get()) {
        (Some(left), _) => set_next(arena, left, right),
        (None, Some(parent)) => set_first(arena, parent, right),
        (None, None) => {}
    }
}

#[inline(always)]
fn set_left<T>(arena: &mut Arena<Node<T>>, parent: MaybeLink, left: MaybeLink, right: MaybeLink)
    requires parent { IfSome parent (λ l. IsSome (found arena.old.cells l.ptr)) }
    requires right { IfSome right (λ l. IsSome (found arena.old.cells l.ptr)) }
    ensures { arena.new.cells ≡ left_put parent left right arena.old.cells }
{
    match (right.get(), parent.get()) {
        (Some(right), _) => set_prev(arena, right, left),
        (None, Some(parent)) => set_last(arena, parent, left),
        (None, None) => {}
    }
}

/// Makes `left` and `right` neighbours below the parent, where None is the list's end.
#[inline(always)]
pub(crate) fn join<T>(
    arena: &mut Arena<Node<T>>,
    parent: MaybeLink,
    left: MaybeLink,
    right: MaybeLink,
)
    requires parent { IfSome parent (λ l. IsSome (found arena.old.cells l.ptr)) }
    requires left { IfSome left (λ l. IsSome (found arena.old.cells l.ptr)) }
    requires right { IfSome right (λ l. IsSome (found arena.old.cells l.ptr)) }
    ensures { arena.new.cells ≡ join_put parent left right arena.old.cells }
{
    set_right(arena, parent, left, right);
    set_left(arena, parent, left, right);
}
