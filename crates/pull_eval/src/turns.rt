//! The matches of a loop by the values of an operand at each.
ghost use Rattle.std.specs.Prelude.{◌≡◌, ◌↔◌, true, List, Some, IfOk, OnOk};
ghost use Rattle.std.specs.List.Sorted.{IsPermutation};
ghost use Rattle.gcx_model.specs.Tree.{Node, Tree};
ghost use Rattle.buf_tree.specs.Shape.{Cell};
ghost use Rattle.cond_eval.specs.Comparing.{AreInUse, IsNodeRow};
ghost use Rattle.pull_eval.specs.Turns.{AreBySerial, AreByText, Chooses, Chosen, IsTurns, Leaps, Lists, Meets, TurnsToNode, turns_at};
ghost use Rattle.pull_eval.specs.Listing.{AreNodeRows, HitsAll, CountsBefore, ListsAll, PutsEntries, PutsHits};

use buf_tree::{Buffer, Row};
use cond_eval::{Member, closed_matches, value};
use gcx_base::{Memory, Serial, Step, Text, VarId};
use node_store::{NodeStore, Place};
use std::alloc::Global;
use std::slice::from_ref;
use xq_values::compare_text;

/// From which match on a loop goes on.
#[derive(Clone, Copy, Debug)]
pub(crate) enum Leap {
    /// From the next one.
    Stay,
    /// From the one at this place.
    To(Place),
    /// From none.
    Over,
}

/// A value of the loop's operand at a match.
#[derive(Drop, Debug)]
pub(crate) struct Entry {
    pub text: Text,
    pub hit: Member,
}

/// The matches of a loop's step from a closed node, by the values of the loop's operand at each, and those of them at which
/// it has a value of the other operand at another closed node.
#[derive(Drop, Debug)]
pub(crate) struct Turns<'p> {
    pub var: VarId,
    pub step: &'p Step,
    /// The operand that begins at a match.
    pub own: &'p [Step],
    /// The other one.
    pub other: &'p [Step],
    /// The node from which the loop takes its step. None: none was looked at.
    pub of: Option<Serial>,
    /// The first match.
    pub first: Option<Member>,
    /// By value.
    pub entries: Vec<Entry>,
    /// The node of the other operand. None: none was looked at.
    pub outer: Option<Serial>,
    /// By serial.
    pub hits: Vec<Member>,
}

impl<'p> Turns<'p> {
    /// Nothing was looked at.
    pub fn new(
        alloc: Global,
        var: VarId,
        step: &'p Step,
        own: &'p [Step],
        other: &'p [Step],
    ) -> Turns<'p>
        ensures var { result.var ≡ var }
        ensures step { result.step ≡ step.entry }
        ensures own { result.own ≡ own.entry }
        ensures other { result.other ≡ other.entry }
        ensures stands { (rows : List Cell) (P : Tree) → IsTurns rows P result }
    {
        Turns {
            var,
            step,
            own,
            other,
            of: None,
            first: None,
            entries: Vec::new(alloc),
            outer: None,
            hits: Vec::new(alloc),
        }
    }

    /// Looks at the matches from the closed node at this place, where they are others than those at hand.
    pub fn turn_to<N: NodeStore<Row>>(
        &mut self,
        alloc: Global,
        buffer: &Buffer<N>,
        context: Place,
    ) -> Result<(), Memory>
        requires { IsNodeRow buffer.now.rows context.0 }
        ensures var { self.new.var ≡ self.old.var }
        ensures step { self.new.step ≡ self.old.step }
        ensures own { self.new.own ≡ self.old.own }
        ensures other { self.new.other ≡ self.old.other }
        ensures turned { OnOk result (TurnsToNode buffer.now.rows self.old self.new context.0) }
    {
        let of = buffer.serial(context);
        if is_that(self.of, of) {
            return Ok(());
        }
        let matches = closed_matches(alloc, buffer, context, from_ref(self.step))?;
        let entries = entries_of(alloc, buffer, &matches, self.own)?;
        self.entries = by_text(entries)?;
        self.first = matches.first().copied();
        self.of = Some(of);
        self.outer = None;
        Ok(())
    }

    /// Looks for the matches with a value of the other operand at the closed node at this place, where it is another one
    /// than that at hand.
    pub fn choose<N: NodeStore<Row>>(
        &mut self,
        alloc: Global,
        buffer: &Buffer<N>,
        node: Place,
        outer: Serial,
    ) -> Result<(), Memory>
        requires { IsNodeRow buffer.now.rows node.0 }
        ensures var { self.new.var ≡ self.old.var }
        ensures step { self.new.step ≡ self.old.step }
        ensures own { self.new.own ≡ self.old.own }
        ensures other { self.new.other ≡ self.old.other }
        ensures chosen { OnOk result (Chooses buffer.now.rows self.old self.new node.0 outer) }
    {
        if is_that(self.outer, outer) {
            return Ok(());
        }
        let set = closed_matches(alloc, buffer, node, self.other)?;
        let hits = hits_of(alloc, buffer, &set, &self.entries)?;
        self.hits = by_serial(hits)?;
        self.outer = Some(outer);
        Ok(())
    }

    /// The first match of all.
    pub fn first_of_all(&self) -> Leap
        ensures { (rows : List Cell) (P : Tree) (a : Node) → Lists rows P self.now a
            → Leaps rows (turns_at P self.now a) (λ j. ⊥) 0 result }
    {
        match self.first {
            Some(hit) => Leap::To(Place(hit.place)),
            None => Leap::Over,
        }
    }

    /// The first one with a value of the other operand, of those from this serial on.
    pub fn first_from(&self, serial: Serial) -> Leap
        ensures { (rows : List Cell) (P : Tree) (a b : Node) → Chosen rows P self.now a b
            → Leaps rows (turns_at P self.now a) (λ j. Meets P self.now b j → ⊥) serial.0 result }
    {
        let at = self.hits.partition_point(|hit| hit.serial < serial.0);
        if at < self.hits.len() {
            Leap::To(Place(self.hits[at].place))
        } else {
            Leap::Over
        }
    }
}

/// Whether what is kept is of the node of this serial.
fn is_that(kept: Option<Serial>, serial: Serial) -> bool
    ensures { result ≡ true ↔ kept ≡ Some serial }
{
    match kept {
        Some(other) => other == serial,
        None => false,
    }
}

/// Puts the values of the set at the match.
fn put_entries<N: NodeStore<Row>>(
    entries: &mut Vec<Entry>,
    alloc: Global,
    buffer: &Buffer<N>,
    set: &[Member],
    hit: Member,
) -> Result<(), Memory>
    requires { AreInUse buffer.now.rows set.now }
    ensures { OnOk result (PutsEntries buffer.now.rows set.now hit entries.old.items entries.new.items) }
{
    let mut room = Vec::new(alloc);
    for member in set {
        let bytes = value(buffer, Place(member.place), &mut room)?;
        let text = Text::of_text(alloc, bytes)?;
        entries.push(Entry { text, hit })?;
    }
    Ok(())
}

/// The matches, each with each value of the steps at it.
fn entries_of<N: NodeStore<Row>>(
    alloc: Global,
    buffer: &Buffer<N>,
    matches: &[Member],
    steps: &[Step],
) -> Result<Vec<Entry>, Memory>
    requires { AreNodeRows buffer.now.rows matches.now }
    ensures { IfOk result (λ entries. ListsAll buffer.now.rows steps.now matches.now entries.items) }
{
    let mut entries = Vec::new(alloc);
    for hit in matches {
        let set = closed_matches(alloc, buffer, Place(hit.place), steps)?;
        put_entries(&mut entries, alloc, buffer, &set, *hit)?;
    }
    Ok(entries)
}

/// The entries by their texts.
fn by_text(entries: Vec<Entry>) -> Result<Vec<Entry>, Memory>
    ensures sorted { IfOk result (λ sorted. AreByText sorted.items) }
    ensures same { IfOk result (λ sorted. IsPermutation entries.items sorted.items) }
{
    let mut sorted = entries;
    sorted.sort_by(|one, other| compare_text(one.text.as_bytes(), other.text.as_bytes()))?;
    Ok(sorted)
}

/// How many entries stand before the value.
fn number_before(entries: &[Entry], value: &[u8]) -> usize
    ensures { AreByText entries.now → CountsBefore entries.now value.now result }
{
    entries.partition_point(|entry| compare_text(entry.text.as_bytes(), value).is_lt())
}

/// Puts the matches with the value.
fn put_hits(hits: &mut Vec<Member>, entries: &[Entry], value: &[u8]) -> Result<(), Memory>
    ensures { OnOk result (AreByText entries.now → PutsHits entries.now value.now hits.old.items hits.new.items) }
{
    let mut at = number_before(entries, value);
    'equal: while at < entries.len() {
        let entry = &entries[at];
        if entry.text.as_bytes() == value {
            hits.push(entry.hit)?;
            at += 1;
        } else {
            return Ok(());
        }
    }
    Ok(())
}

/// The matches with a value of the set.
fn hits_of<N: NodeStore<Row>>(
    alloc: Global,
    buffer: &Buffer<N>,
    set: &[Member],
    entries: &[Entry],
) -> Result<Vec<Member>, Memory>
    requires { AreInUse buffer.now.rows set.now }
    ensures { IfOk result (λ hits. AreByText entries.now → HitsAll buffer.now.rows set.now entries.now hits.items) }
{
    let (mut hits, mut room) = (Vec::new(alloc), Vec::new(alloc));
    for member in set {
        let bytes = value(buffer, Place(member.place), &mut room)?;
        put_hits(&mut hits, entries, bytes)?;
    }
    Ok(hits)
}

/// The matches by their serials.
fn by_serial(hits: Vec<Member>) -> Result<Vec<Member>, Memory>
    ensures sorted { IfOk result (λ sorted. AreBySerial sorted.items) }
    ensures same { IfOk result (λ sorted. IsPermutation hits.items sorted.items) }
{
    let mut sorted = hits;
    sorted.sort_by(|one, other| one.serial.cmp(&other.serial))?;
    Ok(sorted)
}
