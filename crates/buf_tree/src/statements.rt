//! The statements that a buffer carries out.
ghost use Rattle.std.specs.Prelude.{◌≡◌, ◌+◌, ◌<◌, ◌≤◌, ◌^◌, true, ℕ, Some, None, OnOk, OnErr, IsSome, length, vec_len, vec_capacity};
ghost use Rattle.gcx_model.specs.ItemView.{off_tree};
ghost use Rattle.buf_tree.specs.Rows.{serials};
ghost use Rattle.buf_tree.specs.Shape.{cells, Shaped, row_count};
ghost use Rattle.buf_tree.specs.Walk.{Nested};
ghost use Rattle.buf_tree.specs.Purge.{Tidy};
ghost use Rattle.buf_tree.specs.Withdraw.{Taking, TakingFrom, top_for, walked_from, TellsKeepers, TakesPlain, TakesIf, TakesIn, TakesSpread, Withdraws, WithdrawsSpread};
ghost use Rattle.buf_tree.specs.Spread.{TellsCovered, is_alone_in};
ghost use Rattle.gcx_model.specs.Placed.{is_own};
ghost use Rattle.std.specs.FinMap as map;
ghost use Rattle.buf_tree.specs.Trail.{HasTrailRoom};
ghost use Rattle.buf_tree.specs.View.{Kept};
ghost use Rattle.buf_tree.specs.Calls.{Signed};
ghost use Rattle.buf_tree.specs.Stands.{Due, IsAhead, IsBehind, StandsSigned};

use crate::ahead::Ahead;
use crate::buffer::Buffer;
use crate::edits::{settle, sign};
use crate::recount::recount;
use crate::row::Row;
use crate::spread::{Spread, is_spread};
use crate::sweep::{drop_below, has_other_base, sweep, take_own};
use crate::trail::Trail;
use gcx_base::{Memory, Serial, VarId};
use gcx_model::Off;
use node_store::{NodeStore, Place};
use std::alloc::Global;

impl<N: NodeStore<Row>> Buffer<N> {
    /// Carries out the statement, which is due at the node: signs the node for it, takes its role from the nodes that
    /// lose it, and what nothing keeps then leaves. The node is closed, or the statement reaches it alone.
    ///
    /// After `Memory` the buffer is unchanged.
    pub fn sign_off(&mut self, place: Place, off: &Off) -> Result<(), Memory>
        requires due { Due self.old place.0 off.now }
        requires behind { IsBehind self.old place.0 off.now }
        ensures stands { OnOk result (StandsSigned self.old self.new place.0 off.now) }
        ensures signed { OnOk result (Signed self.old self.new off.now.role.0) }
        ensures waiting { OnOk result (self.new.waiting ≡ self.old.waiting) }
        ensures err { OnErr result (self.new ≡ self.old) }
        ensures loans { self.new.loans ≡ self.old.loans }
    {
        let others = may_be_kept(&self.nodes, &self.spread, off, place);
        self.trail.prepare(walked(&self.spread, off), others)?;
        sign(&mut self.nodes, place, off.role)?;
        let taken = withdraw(
            &mut self.nodes,
            &mut self.gone,
            &mut self.held,
            &self.spread,
            off,
            place,
            others,
            &mut self.trail,
        );
        self.taken = self.taken.saturating_add(taken as u128);
        Ok(())
    }

    /// Carries out the statement, which is due at the open node and may reach nodes that are still to come below it. It
    /// waits for the next token.
    ///
    /// After `Memory` the buffer is unchanged.
    pub fn sign_ahead(&mut self, alloc: Global, place: Place, off: &Off) -> Result<(), Memory>
        requires due { Due self.old place.0 off.now }
        requires ahead { IsAhead self.old place.0 off.now }
        ensures stands { OnOk result (StandsSigned self.old self.new place.0 off.now) }
        ensures signed { OnOk result (Signed self.old self.new off.now.role.0) }
        ensures err { OnErr result (self.new ≡ self.old) }
        ensures loans { self.new.loans ≡ self.old.loans }
    {
        let others = may_be_kept(&self.nodes, &self.spread, off, place);
        self.trail.prepare(walked(&self.spread, off), others)?;
        let level = self.nodes.payload(place).level();
        let copy = off.copy(alloc)?;
        self.waiting.reserve(1)?;
        sign(&mut self.nodes, place, off.role)?;
        self.waiting.push_reserved(Ahead { level, off: copy });
        let taken = withdraw(
            &mut self.nodes,
            &mut self.gone,
            &mut self.held,
            &self.spread,
            off,
            place,
            others,
            &mut self.trail,
        );
        self.taken = self.taken.saturating_add(taken as u128);
        Ok(())
    }
}

/// Takes the role of the statement, for which the node is signed, from the nodes that lose it, and lets go what
/// nothing keeps then. Answers how many roles were taken. `held` is the number of rows. `others` says whether another
/// base may keep the role, and then there is room for the walks.
#[inline(always)]
fn withdraw<N: NodeStore<Row>>(
    nodes: &mut N,
    gone: &mut Vec<Serial>,
    held: &mut usize,
    spread: &Option<Spread>,
    off: &Off,
    place: Place,
    others: bool,
    trail: &mut Trail,
) -> u64
    requires kept { (n : ℕ) × Kept (N.rows nodes.old) (serials gone.old.items) (vec_capacity gone.old) held.old n }
    requires covers { TellsCovered spread.now (cells (N.rows nodes.old)) }
    requires taking { TakingFrom (top_for spread.now off.now) (cells (N.rows nodes.old)) place.0 off.now others }
    requires room { others ≡ true → HasTrailRoom (walked_from (top_for spread.now off.now) off.now) trail.old }
    ensures kept { (n : ℕ) → Kept (N.rows nodes.old) (serials gone.old.items) (vec_capacity gone.old) held.old n
        → Kept (N.rows nodes.new) (serials gone.new.items) (vec_capacity gone.new) held.new n }
    ensures withdrawn { Withdraws spread.now off.now others place (N.rows nodes.old) (N.rows nodes.new)
        gone.old gone.new result }
    ensures spread { WithdrawsSpread spread.now off.now others place (N.rows nodes.old) (N.rows nodes.new)
        gone.old gone.new result }
    ensures most { N.most_held nodes.new ≡ N.most_held nodes.old }
    ensures loans { N.loans nodes.new ≡ N.loans nodes.old }
{
    let before = gone.len();
    let taken = take(nodes, gone, spread, off, place, others, trail);
    let left = *held - (gone.len() - before);
    let rest = settle(nodes, gone, place, left);
    *held = rest;
    taken
}

/// Takes the role of the statement from the rows that lose it, and takes out the rows below the base that nothing
/// keeps then. Answers how many roles were taken.
#[inline(always)]
fn take<N: NodeStore<Row>>(
    nodes: &mut N,
    gone: &mut Vec<Serial>,
    spread: &Option<Spread>,
    off: &Off,
    place: Place,
    others: bool,
    trail: &mut Trail,
) -> u64
    requires shape { Shaped (N.rows nodes.old) }
    requires nested { Nested (cells (N.rows nodes.old)) }
    requires tidy { Tidy (cells (N.rows nodes.old)) }
    requires rows { length (cells (N.rows nodes.old)) < 2 ^ 64 }
    requires covers { TellsCovered spread.now (cells (N.rows nodes.old)) }
    requires taking { TakingFrom (top_for spread.now off.now) (cells (N.rows nodes.old)) place.0 off.now others }
    requires departures { vec_len gone.old + length (cells (N.rows nodes.old)) ≤ vec_capacity gone.old }
    requires room { others ≡ true → HasTrailRoom (walked_from (top_for spread.now off.now) off.now) trail.old }
    ensures swept { TakesIf spread.now off.now others place (N.rows nodes.old) (N.rows nodes.new) gone.old gone.new result }
    ensures spread { TakesSpread spread.now off.now others place (N.rows nodes.old) (N.rows nodes.new)
        gone.old gone.new result }
    ensures count { vec_len gone.new + row_count (N.rows nodes.new) ≡ vec_len gone.old + row_count (N.rows nodes.old) }
    ensures capacity { vec_capacity gone.old ≤ vec_capacity gone.new }
    ensures most { N.most_held nodes.new ≡ N.most_held nodes.old }
    ensures loans { N.loans nodes.new ≡ N.loans nodes.old }
{
    if is_alone_own(spread, off) {
        return take_own(nodes, off, place);
    }
    take_all(nodes, gone, spread, off, place, others, trail)
}

/// Whether the statement reaches its base alone, and its role isn't spread.
#[inline(always)]
fn is_alone_own(spread: &Option<Spread>, off: &Off) -> bool
    ensures own { result ≡ true → is_own (off_tree off.now) ≡ true }
    ensures top { result ≡ true → top_for spread.now off.now ≡ None }
{
    if !off.is_own() {
        return false;
    }
    if is_spread(spread, off.role) {
        return false;
    }
    true
}

/// The same out of line, whatever the statement reaches.
#[inline(never)]
fn take_all<N: NodeStore<Row>>(
    nodes: &mut N,
    gone: &mut Vec<Serial>,
    spread: &Option<Spread>,
    off: &Off,
    place: Place,
    others: bool,
    trail: &mut Trail,
) -> u64
    requires shape { Shaped (N.rows nodes.old) }
    requires nested { Nested (cells (N.rows nodes.old)) }
    requires tidy { Tidy (cells (N.rows nodes.old)) }
    requires rows { length (cells (N.rows nodes.old)) < 2 ^ 64 }
    requires covers { TellsCovered spread.now (cells (N.rows nodes.old)) }
    requires taking { TakingFrom (top_for spread.now off.now) (cells (N.rows nodes.old)) place.0 off.now others }
    requires departures { vec_len gone.old + length (cells (N.rows nodes.old)) ≤ vec_capacity gone.old }
    requires room { others ≡ true → HasTrailRoom (walked_from (top_for spread.now off.now) off.now) trail.old }
    ensures swept { TakesIf spread.now off.now others place (N.rows nodes.old) (N.rows nodes.new) gone.old gone.new result }
    ensures spread { TakesSpread spread.now off.now others place (N.rows nodes.old) (N.rows nodes.new)
        gone.old gone.new result }
    ensures count { vec_len gone.new + row_count (N.rows nodes.new) ≡ vec_len gone.old + row_count (N.rows nodes.old) }
    ensures capacity { vec_capacity gone.old ≤ vec_capacity gone.new }
    ensures most { N.most_held nodes.new ≡ N.most_held nodes.old }
    ensures loans { N.loans nodes.new ≡ N.loans nodes.old }
{
    match spread {
        Some(spread) => take_spread(nodes, gone, spread, off, place, others, trail),
        None => take_back(nodes, gone, off, place, others, trail),
    }
}

/// The same of a role that isn't spread: it is kept at each row that has it.
#[inline(always)]
fn take_back<N: NodeStore<Row>>(
    nodes: &mut N,
    gone: &mut Vec<Serial>,
    off: &Off,
    place: Place,
    others: bool,
    trail: &mut Trail,
) -> u64
    requires shape { Shaped (N.rows nodes.old) }
    requires nested { Nested (cells (N.rows nodes.old)) }
    requires tidy { Tidy (cells (N.rows nodes.old)) }
    requires taking { Taking (cells (N.rows nodes.old)) place.0 off.now others }
    requires departures { vec_len gone.old + length (cells (N.rows nodes.old)) ≤ vec_capacity gone.old }
    requires room { others ≡ true → HasTrailRoom off.now trail.old }
    ensures swept { TakesPlain off.now others place (N.rows nodes.old) (N.rows nodes.new) gone.old gone.new result }
    ensures count { vec_len gone.new + row_count (N.rows nodes.new) ≡ vec_len gone.old + row_count (N.rows nodes.old) }
    ensures capacity { vec_capacity gone.old ≤ vec_capacity gone.new }
    ensures few { result ≤ length (cells (N.rows nodes.old)) }
    ensures most { N.most_held nodes.new ≡ N.most_held nodes.old }
    ensures loans { N.loans nodes.new ≡ N.loans nodes.old }
{
    if off.is_own() {
        return take_own(nodes, off, place);
    }
    sweep(nodes, gone, off, place, others, trail)
}

/// The same where roles are spread.
fn take_spread<N: NodeStore<Row>>(
    nodes: &mut N,
    gone: &mut Vec<Serial>,
    spread: &Spread,
    off: &Off,
    place: Place,
    others: bool,
    trail: &mut Trail,
) -> u64
    requires shape { Shaped (N.rows nodes.old) }
    requires nested { Nested (cells (N.rows nodes.old)) }
    requires tidy { Tidy (cells (N.rows nodes.old)) }
    requires rows { length (cells (N.rows nodes.old)) < 2 ^ 64 }
    requires covers { TellsCovered (Some spread.now) (cells (N.rows nodes.old)) }
    requires taking { TakingFrom (top_for (Some spread.now) off.now) (cells (N.rows nodes.old)) place.0 off.now others }
    requires departures { vec_len gone.old + length (cells (N.rows nodes.old)) ≤ vec_capacity gone.old }
    requires room { others ≡ true → HasTrailRoom (walked_from (top_for (Some spread.now) off.now) off.now) trail.old }
    ensures swept { TakesIn spread.now off.now others place (N.rows nodes.old) (N.rows nodes.new) gone.old gone.new result }
    ensures spread { TakesSpread (Some spread.now) off.now others place (N.rows nodes.old) (N.rows nodes.new)
        gone.old gone.new result }
    ensures count { vec_len gone.new + row_count (N.rows nodes.new) ≡ vec_len gone.old + row_count (N.rows nodes.old) }
    ensures capacity { vec_capacity gone.old ≤ vec_capacity gone.new }
    ensures most { N.most_held nodes.new ≡ N.most_held nodes.old }
    ensures loans { N.loans nodes.new ≡ N.loans nodes.old }
{
    match spread.top(off.role) {
        Some(top) => {
            let lost = recount(nodes, spread, top, place, others, trail);
            drop_below(nodes, gone, place);
            lost
        }
        None => take_back(nodes, gone, off, place, others, trail),
    }
}

/// Whether another base may keep the role of this one's statement somewhere. Where the path of the base has no
/// descendant step none can, and no row is looked at.
#[inline(always)]
fn may_be_kept<N: NodeStore<Row>>(
    nodes: &N,
    spread: &Option<Spread>,
    off: &Off,
    place: Place,
) -> bool
    requires shape { Shaped (N.rows nodes.now) }
    requires nested { Nested (cells (N.rows nodes.now)) }
    requires there { IsSome (map.get (N.rows nodes.now) place.0) }
    ensures { TellsKeepers (is_alone_in spread.now off.now.base.0) (cells (N.rows nodes.now)) place.0 off.now result }
{
    if is_alone(spread, off.base) {
        return false;
    }
    has_other_base(nodes, off, place)
}

#[inline(always)]
fn is_alone(spread: &Option<Spread>, base: VarId) -> bool
    ensures { result ≡ is_alone_in spread.now base.0 }
{
    match spread {
        Some(spread) => spread.is_alone(base),
        None => false,
    }
}

/// The statement with whose steps the rows are walked: for a spread role that which reaches its tops alone.
#[inline(always)]
fn walked<'a>(spread: &'a Option<Spread>, off: &'a Off) -> &'a Off
    ensures { result.now ≡ walked_from (top_for spread.now off.now) off.now }
{
    match spread {
        Some(spread) => match spread.top(off.role) {
            Some(top) => top,
            None => off,
        },
        None => off,
    }
}
