//! Two paths that are compared, and what is kept of their values.
ghost use Rattle.std.specs.Prelude.{◌≡◌, ◌&&◌, Some, IfOk};
ghost use Rattle.gcx_model.specs.Truth.{settle};
ghost use Rattle.gcx_model.specs.Tree.{Tree};
ghost use Rattle.cond_memo.specs.Waiting.{Fits};
ghost use Rattle.cond_memo.specs.Pairs.{IsPair, paths_of};
ghost use Rattle.cond_memo.specs.PairCalls.{IsAboutPaths, KeepsPaths, MayAskPair, MayLook, TakesSide, TellsFound, TellsTruth, TellsUnmet, TurnsSide};
ghost use Rattle.cond_memo.specs.Taking.{MayTake, TakesMore};

use crate::mark::Room;
use crate::taken::Taken;
use buf_tree::{Buffer, Row};
use cond_eval::{settle, value};
use gcx_base::{Memory, Rel, Serial, Steps, VarId};
use gcx_model::Truth;
use node_store::{NodeStore, Place};
use std::alloc::Global;
use value_pairs::{Compared, Hand};

/// A comparison of two paths, each from a variable, and what was taken of their values.
#[derive(Drop, Debug)]
pub(crate) struct Pair {
    pub var: VarId,
    pub other: VarId,
    pub rel: Rel,
    pub left: Taken,
    pub right: Taken,
    /// The values that were taken.
    pub compared: Compared,
}

/// Turns the side to the node of this serial. Where it was about another one its values are forgotten, those of the other
/// side aren't.
fn turn(side: &mut Taken, compared: &mut Compared, hand: Hand, of: Serial)
    ensures frame { side.new ≡ record side.old { of = Some of; below = side.new.below; waiting = side.new.waiting } }
    ensures turned { TurnsSide hand side.old side.new compared.old compared.new of }
{
    if side.is_of(of) {
        return;
    }
    side.turn_to(of);
    compared.clear(hand);
}

/// A side of the comparison, and the place of its node.
#[derive(Clone, Copy, Debug)]
pub(crate) struct End {
    pub node: Place,
    pub hand: Hand,
}

impl Taken {
    /// Takes the values of the closed matches that weren't taken yet, up to the first with which the comparison holds: true
    /// where there is one.
    fn take_values<N: NodeStore<Row>>(
        &mut self,
        alloc: Global,
        buffer: &Buffer<N>,
        end: End,
        compared: &mut Compared,
        room: &mut Room,
    ) -> Result<bool, Memory>
        requires may { MayTake buffer.now self.old end.node.0 }
        requires fits { Fits self.old.steps self.old.last }
        ensures frame { IfOk result (λ _. TakesMore self.old self.new) }
        ensures values { IfOk result (λ b. TakesSide buffer.now self.old self.new end.node.0
            end.hand compared.old compared.new b) }
    {
        let mut next = self.next(buffer, end.node, &mut room.flags)?;
        'matches: while let Some(place) = next {
            let bytes = value(buffer, place, &mut room.text)?;
            compared.take(alloc, end.hand, bytes)?;
            if compared.found() {
                return Ok(true);
            }
            next = self.take(buffer, end.node, place, &mut room.flags)?;
        }
        Ok(false)
    }
}

impl Pair {
    /// Nothing was taken.
    pub fn new(
        alloc: Global,
        left: (VarId, &Steps),
        rel: Rel,
        right: (VarId, &Steps),
    ) -> Result<Pair, Memory>
        ensures about { IfOk result (λ q. IsAboutPaths q
            left.entry.0 left.entry.1.now rel right.entry.0 right.entry.1.now) }
        ensures pair { IfOk result (λ q. (P : Tree) → IsPair q P) }
    {
        let (var, steps) = left;
        let (other, others) = right;
        let taken = Taken::new(alloc, steps)?;
        let also = Taken::new(alloc, others)?;
        Ok(Pair {
            var,
            other,
            rel,
            left: taken,
            right: also,
            compared: Compared::new(alloc, rel),
        })
    }

    /// The truth of the comparison at these nodes, each with its place and its serial.
    pub fn ask<N: NodeStore<Row>>(
        &mut self,
        alloc: Global,
        buffer: &Buffer<N>,
        one: (Place, Serial),
        two: (Place, Serial),
        room: &mut Room,
    ) -> Result<Truth, Memory>
        requires { MayAskPair buffer.now self.old one.0.0 one.1.0 two.0.0 two.1.0 }
        ensures paths { IfOk result (λ _. paths_of self.new ≡ paths_of self.old) }
        ensures told { IfOk result (λ t. TellsTruth buffer.now self.old self.new one.0.0 one.1.0 two.0.0 two.1.0 t) }
    {
        turn(&mut self.left, &mut self.compared, Hand::Left, one.1);
        turn(&mut self.right, &mut self.compared, Hand::Right, two.1);
        let found = self.look(alloc, buffer, one.0, two.0, room)?;
        let (first, second) = (buffer.is_closed(one.0), buffer.is_closed(two.0));
        Ok(settled(found, first, second))
    }

    /// Whether the relation holds of the values of two closed matches, from the nodes to which it was turned.
    fn look<N: NodeStore<Row>>(
        &mut self,
        alloc: Global,
        buffer: &Buffer<N>,
        node: Place,
        other: Place,
        room: &mut Room,
    ) -> Result<bool, Memory>
        requires { MayLook buffer.now self.old node.0 other.0 }
        ensures frame { IfOk result (λ _. KeepsPaths self.old self.new) }
        ensures found { IfOk result (λ b. TellsFound buffer.now self.old self.new node.0 other.0 b) }
    {
        if self.compared.found() {
            return Ok(true);
        }
        if self.compared.is_empty(Hand::Right) {
            return self.right_first(alloc, buffer, node, other, room);
        }
        self.left_first(alloc, buffer, node, other, room)
    }

    /// Takes the values that weren't taken yet, those of the right side only where the left one has some.
    fn left_first<N: NodeStore<Row>>(
        &mut self,
        alloc: Global,
        buffer: &Buffer<N>,
        node: Place,
        other: Place,
        room: &mut Room,
    ) -> Result<bool, Memory>
        requires { MayLook buffer.now self.old node.0 other.0 }
        ensures frame { IfOk result (λ _. KeepsPaths self.old self.new) }
        ensures found { IfOk result (λ b. TellsUnmet buffer.now self.old self.new node.0 other.0 b) }
    {
        let end = End {
            node,
            hand: Hand::Left,
        };
        if self
            .left
            .take_values(alloc, buffer, end, &mut self.compared, room)?
        {
            return Ok(true);
        }
        if self.compared.is_empty(Hand::Left) {
            return Ok(false);
        }
        let end = End {
            node: other,
            hand: Hand::Right,
        };
        self.right
            .take_values(alloc, buffer, end, &mut self.compared, room)
    }

    /// Takes the values that weren't taken yet, those of the left side only where the right one has some.
    fn right_first<N: NodeStore<Row>>(
        &mut self,
        alloc: Global,
        buffer: &Buffer<N>,
        node: Place,
        other: Place,
        room: &mut Room,
    ) -> Result<bool, Memory>
        requires { MayLook buffer.now self.old node.0 other.0 }
        ensures frame { IfOk result (λ _. KeepsPaths self.old self.new) }
        ensures found { IfOk result (λ b. TellsUnmet buffer.now self.old self.new node.0 other.0 b) }
    {
        let end = End {
            node: other,
            hand: Hand::Right,
        };
        if self
            .right
            .take_values(alloc, buffer, end, &mut self.compared, room)?
        {
            return Ok(true);
        }
        if self.compared.is_empty(Hand::Right) {
            return Ok(false);
        }
        let end = End {
            node,
            hand: Hand::Left,
        };
        self.left
            .take_values(alloc, buffer, end, &mut self.compared, room)
    }
}

/// The truth, where it is known whether the relation holds of some values, once one node and the other take no more nodes.
fn settled(found: bool, first: bool, second: bool) -> Truth
    ensures { result ≡ settle found (first && second) }
{
    settle(found, first && second)
}
