//! The actors over tokens that are lent, where the rows of elements without a role are made late.
ghost use Rattle.std.specs.Prelude.{◌≡◌, ◌≤◌, ◌<◌, ◌+◌, ◌^◌, ◌&&◌, nat_lt, true, false, length, IfOk, OnOk, OnErr};
ghost use Rattle.doc_reader.specs.Standing.{AllLieWithin, LiesWithin, lent_token};
ghost use Rattle.run_part.specs.Actors.{is_quiet};
ghost use Rattle.outside.specs.Places.{Few};
ghost use Rattle.run_part.specs.Flows.{BreaksTo, FeedsTo, OnlyAt};
ghost use Rattle.run_part.specs.Groups.{BreaksAmongTo, BreaksGroupTo, EndsGroupTo, KeepsAmongTo, SomeAmongTo};
ghost use Rattle.run_part.specs.Late.{BalancesEachLate, BalancesLate, CountsPassed, FeedsEachLate, IsQuietLate, MayFeedLate};
ghost use Rattle.run_part.specs.Late.{SettlesFrom, SettlesOver, SomeFed, SomeGroupLate, SomeLate};
ghost use Rattle.run_part.specs.Late.{noted, said_lent, seen_counts};

use crate::actors::Actors;
use crate::lines::NoLines;
use crate::pace::Work;
use crate::tallies::{count, count_held, is_quiet};
use buf_tree::{Buffer, Row};
use cond_eval::Conds;
use doc_reader::Lent;
use gcx_base::Memory;
use node_store::NodeStore;
use outside::Outside;
use projector::{Projector, Tally};
use std::alloc::Global;

/// A group of tokens: how many may come to it still, and whether no action is possible behind those that came that wasn't
/// before.
#[derive(Clone, Copy)]
struct Group {
    left: u32,
    quiet: bool,
}

impl Group {
    /// The group with one token more, which was quiet or wasn't.
    #[inline(always)]
    fn grown(self, quiet: bool) -> Group
        requires { 1 ≤ self.left }
        ensures left { result.left + 1 ≡ self.left }
        ensures quiet { result.quiet ≡ (quiet && self.quiet) }
    {
        Group {
            left: self.left - 1,
            quiet: quiet && self.quiet,
        }
    }
}

/// Groups of tokens: the most of each, and the place to which is written what is possible behind them.
#[derive(Clone, Copy)]
pub(crate) struct Groups {
    pub ahead: u32,
    pub place: usize,
}

impl<'p, N: NodeStore<Row>, C: Conds> Work<'p, N, C> {
    /// Feeds the tokens, whose names and texts lie in these bytes, and takes every possible action behind each group of them
    /// and behind the last one, where there may be one. No row is left to be made then.
    #[inline(always)]
    pub(crate) fn feed_lent<O: Outside>(
        &mut self,
        alloc: Global,
        tokens: &[Lent],
        bytes: &[u8],
        groups: Groups,
        to: &mut O,
    ) -> Result<(), Memory>
        requires ahead { 1 ≤ groups.ahead }
        requires parts { AllLieWithin 0 (length bytes.now) bytes.now tokens.now }
        requires may { SomeFed C.stands groups.ahead self.old.actors (said_lent bytes.now tokens.now) }
        requires place { O.may to.old groups.place }
        requires few { Few (O.most to.old false) (length self.old.out.items) }
        ensures feeds { OnOk result (FeedsTo C.stands groups.ahead groups.place O.sinks
            (self.old, to.old) (self.new, to.new) (said_lent bytes.now tokens.now)) }
        ensures breaks { OnErr result (BreaksTo C.stands groups.ahead groups.place O.sinks
            (self.old, to.old) (self.new, to.new) (said_lent bytes.now tokens.now)) }
        ensures few { OnOk result (Few (O.most to.new false) (length self.new.out.items)) }
        ensures others { OnlyAt groups.place (O.sinks to.old) (O.sinks to.new) }
        ensures ahead { self.new.ahead ≡ self.old.ahead }
        ensures loans { self.new.actors.buffer.loans ≡ self.old.actors.buffer.loans }
        ensures writes { O.writes to.old to.new }
    {
        let mut group = Group {
            left: groups.ahead,
            quiet: true,
        };
        for token in tokens {
            let still = self.actors.feed_late(alloc, *token, bytes)?;
            let fed = group.grown(still);
            let next = self.close_group(alloc, fed, bytes, groups, to)?;
            group = next;
        }
        self.end_group(alloc, group.quiet, bytes, groups.place, to)?;
        self.actors.settle(alloc, bytes)
    }

    /// Ends the group where no token more may come to it. Answers the group that is fed then.
    #[inline(always)]
    fn close_group<O: Outside>(
        &mut self,
        alloc: Global,
        group: Group,
        bytes: &[u8],
        groups: Groups,
        to: &mut O,
    ) -> Result<Group, Memory>
        requires ahead { 1 ≤ groups.ahead }
        requires some { SomeAmongTo bytes.now C.stands O.sinks groups (self.old, to.old) group }
        requires place { O.may to.old groups.place }
        requires few { Few (O.most to.old false) (length self.old.out.items) }
        ensures keeps { IfOk result (KeepsAmongTo bytes.now C.stands O.sinks groups
            (self.old, to.old) (self.new, to.new) group) }
        ensures some { IfOk result (λ r. 1 ≤ r.left) }
        ensures breaks { OnErr result (BreaksAmongTo bytes.now C.stands O.sinks groups
            (self.old, to.old) (self.new, to.new) group) }
        ensures few { OnOk result (Few (O.most to.new false) (length self.new.out.items)) }
        ensures others { OnlyAt groups.place (O.sinks to.old) (O.sinks to.new) }
        ensures ahead { self.new.ahead ≡ self.old.ahead }
        ensures loans { self.new.actors.buffer.loans ≡ self.old.actors.buffer.loans }
        ensures writes { O.writes to.old to.new }
    {
        if group.left == 0 {
            self.end_group(alloc, group.quiet, bytes, groups.place, to)?;
            return Ok(Group {
                left: groups.ahead,
                quiet: true,
            });
        }
        Ok(group)
    }

    /// Takes every possible action, where there may be one behind the tokens of a group.
    #[inline(always)]
    fn end_group<O: Outside>(
        &mut self,
        alloc: Global,
        quiet: bool,
        bytes: &[u8],
        place: usize,
        to: &mut O,
    ) -> Result<(), Memory>
        requires some { SomeGroupLate bytes.now C.stands self.old.actors quiet }
        requires place { O.may to.old place }
        requires few { Few (O.most to.old false) (length self.old.out.items) }
        ensures ends { OnOk result (EndsGroupTo bytes.now C.stands O.sinks place
            (self.old, to.old) (self.new, to.new) quiet) }
        ensures breaks { OnErr result (BreaksGroupTo bytes.now C.stands O.sinks place
            (self.old, to.old) (self.new, to.new) quiet) }
        ensures few { OnOk result (Few (O.most to.new false) (length self.new.out.items)) }
        ensures others { OnlyAt place (O.sinks to.old) (O.sinks to.new) }
        ensures ahead { self.new.ahead ≡ self.old.ahead }
        ensures loans { self.new.actors.buffer.loans ≡ self.old.actors.buffer.loans }
        ensures writes { O.writes to.old to.new }
    {
        if quiet {
            return Ok(());
        }
        self.actors.settle(alloc, bytes)?;
        let mut lines = NoLines { place };
        self.act_all_told(alloc, &mut lines, to)
    }
}

impl<'p, N: NodeStore<Row>, C: Conds> Actors<'p, N, C> {
    /// Feeds one token. True where no action is possible behind it that wasn't before.
    #[inline(always)]
    fn feed_late(&mut self, alloc: Global, token: Lent, bytes: &[u8]) -> Result<bool, Memory>
        requires part { LiesWithin 0 (length bytes.now) bytes.now token }
        requires may { MayFeedLate bytes.now C.stands self.old (lent_token bytes.now token) }
        ensures feeds { OnOk result (FeedsEachLate bytes.now C.stands self.old self.new (lent_token bytes.now token)) }
        ensures quiet { IfOk result (λ q. q ≡ true → IsQuietLate bytes.now C.stands self.old (lent_token bytes.now token)) }
        ensures balance { OnErr result (BalancesEachLate bytes.now C.stands self.old self.new (lent_token bytes.now token)) }
        ensures machine { self.new.machine ≡ self.old.machine }
        ensures loans { self.new.buffer.loans ≡ self.old.buffer.loans }
    {
        let fed = self
            .projector
            .feed_lean(alloc, &mut self.buffer, token, bytes)?;
        match fed {
            Some(tally) => Ok(self.note(tally)),
            None => {
                self.note_passed(alloc, token, bytes)?;
                Ok(true)
            }
        }
    }

    /// Counts what a token did that was fed as always. True where no action is possible behind it that wasn't before.
    #[inline(always)]
    fn note(&mut self, tally: Tally) -> bool
        ensures noted { self.new ≡ noted self.old tally }
        ensures quiet { result ≡ is_quiet tally self.old.buffer }
    {
        let quiet = is_quiet(tally, &self.buffer);
        self.counts = count(self.counts, tally, self.buffer.held());
        self.buffer.clear_gone();
        quiet
    }

    /// Counts a token that was passed. A text and an end leave no more rows than were counted.
    #[inline(always)]
    fn note_passed(&mut self, alloc: Global, token: Lent, bytes: &[u8]) -> Result<(), Memory>
        requires some { SomeLate bytes.now C.stands self.old }
        requires few { length self.old.buffer.rows + length self.old.projector.passed < 2 ^ 64 }
        ensures counts { OnOk result (CountsPassed bytes.now C.stands self.old self.new (lent_token bytes.now token)) }
        ensures balance { OnErr result (BalancesLate bytes.now C.stands self.old self.new) }
        ensures machine { self.new.machine ≡ self.old.machine }
        ensures loans { self.new.buffer.loans ≡ self.old.buffer.loans }
    {
        match token {
            Lent::Start(_, _) => self.note_element(alloc, bytes),
            Lent::Text(_, _) => Ok(()),
            Lent::End => Ok(()),
        }
    }

    /// Counts an element that was passed, and makes the rows that are left to be made, where the store never had as many
    /// as are seen.
    #[inline(always)]
    fn note_element(&mut self, alloc: Global, bytes: &[u8]) -> Result<(), Memory>
        requires some { SomeLate bytes.now C.stands self.old }
        requires few { length self.old.buffer.rows + length self.old.projector.passed < 2 ^ 64 }
        ensures settles { OnOk result (SettlesOver bytes.now C.stands self.old self.new) }
        ensures balance { OnErr result (BalancesLate bytes.now C.stands self.old self.new) }
        ensures machine { self.new.machine ≡ self.old.machine }
        ensures counts { self.new.counts ≡ seen_counts self.old }
        ensures loans { self.new.buffer.loans ≡ self.old.buffer.loans }
    {
        let held = rows_late(&self.buffer, &self.projector);
        self.counts = count_held(self.counts, held);
        self.settle_over(alloc, bytes)
    }

    /// Makes the rows that are left to be made, where the store never had as many as are seen.
    #[inline(always)]
    fn settle_over(&mut self, alloc: Global, bytes: &[u8]) -> Result<(), Memory>
        requires some { SomeLate bytes.now C.stands self.old }
        requires few { length self.old.buffer.rows + length self.old.projector.passed < 2 ^ 64 }
        ensures settles { OnOk result (SettlesOver bytes.now C.stands self.old self.new) }
        ensures balance { OnErr result (BalancesLate bytes.now C.stands self.old self.new) }
        ensures machine { self.new.machine ≡ self.old.machine }
        ensures counts { self.new.counts ≡ self.old.counts }
        ensures loans { self.new.buffer.loans ≡ self.old.buffer.loans }
    {
        if is_over(&self.buffer, &self.projector) {
            return self.settle(alloc, bytes);
        }
        Ok(())
    }

    /// Makes the rows that are left to be made, of elements whose names lie in these bytes.
    #[inline(always)]
    fn settle(&mut self, alloc: Global, bytes: &[u8]) -> Result<(), Memory>
        requires { SomeLate bytes.now C.stands self.old }
        ensures settles { OnOk result (SettlesFrom bytes.now C.stands self.old self.new) }
        ensures balance { OnErr result (BalancesLate bytes.now C.stands self.old self.new) }
        ensures machine { self.new.machine ≡ self.old.machine }
        ensures counts { self.new.counts ≡ self.old.counts }
        ensures loans { self.new.buffer.loans ≡ self.old.buffer.loans }
    {
        let passed = self.projector.passed();
        if passed == 0 {
            return Ok(());
        }
        self.projector.settle(alloc, &mut self.buffer, bytes)
    }
}

/// How many nodes have rows, or will have them.
#[inline(always)]
fn rows_late<N: NodeStore<Row>>(buffer: &Buffer<N>, projector: &Projector) -> u64
    requires { length buffer.now.rows + length projector.now.passed < 2 ^ 64 }
    ensures { result ≡ length buffer.now.rows + length projector.now.passed }
{
    buffer.held() + projector.passed()
}

/// Whether more nodes have rows, or will have them, than the store ever had.
#[inline(always)]
fn is_over<N: NodeStore<Row>>(buffer: &Buffer<N>, projector: &Projector) -> bool
    requires { length buffer.now.rows + length projector.now.passed < 2 ^ 64 }
    ensures { result ≡ nat_lt buffer.now.most (length buffer.now.rows + length projector.now.passed) }
{
    rows_late(buffer, projector) > buffer.most()
}
