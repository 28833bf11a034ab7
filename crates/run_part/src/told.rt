//! What the actors do, with the lines of a trace where they are wanted.
ghost use Rattle.std.specs.Prelude.{◌≡◌, ◌∷◌, [], Some, true, false, length, IfOk, OnOk, OnErr};
ghost use Rattle.doc_reader.specs.Standing.{LiesWithin, lent_token, said_of};
ghost use Rattle.run_part.specs.Actors.{ActsOneFrom, ActsSomeFrom, BalancesEach, FeedsEach, IsQuietFor, MayFeed, SomeActors};
ghost use Rattle.run_part.specs.Flows.{ActsAlone, ActsSomeWork, ActsWork, FewBoth, FlowsSame, LeavesTaking, LeavesWork};
ghost use Rattle.run_part.specs.Flows.{MayWriteBoth, OnlyBoth, SameOutlets, TakesSomeWork, TakesWork, trace_seen};
ghost use Rattle.run_part.specs.Late.{SomeFed};
ghost use Rattle.run_part.specs.Order.{KeepsOrder, OrdersActs, OrdersLent};
ghost use Rattle.run_part.specs.Telling.{TellsEach, TellsFront, TellsAction, TellsPart};

use crate::actors::Actors;
use crate::lines::{Lines, TraceLines, kind_of};
use crate::pace::Work;
use crate::tallies::{count, is_quiet};
use buf_tree::Row;
use cond_eval::Conds;
use doc_reader::{Lent, Token};
use gcx_base::Memory;
use node_store::NodeStore;
use outside::Outside;
use pull_eval::Acted;
use std::alloc::Global;

impl<'p, N: NodeStore<Row>, C: Conds> Actors<'p, N, C> {
    /// Feeds one token, and appends its lines. True where no action is possible behind it that wasn't before. After `Memory`
    /// a front of the lines stands there.
    #[inline(never)]
    pub(crate) fn feed_told(
        &mut self,
        alloc: Global,
        token: Token,
        lines: &mut TraceLines,
    ) -> Result<bool, Memory>
        requires { MayFeed C.stands self.old (said_of token) }
        ensures feeds { OnOk result (FeedsEach C.stands self.old self.new (said_of token)) }
        ensures quiet { IfOk result (λ q. q ≡ true → IsQuietFor C.stands self.old (said_of token)) }
        ensures balance { OnErr result (BalancesEach C.stands self.old self.new (said_of token)) }
        ensures told { OnOk result (TellsEach C.stands self.old (said_of token) lines.old lines.new) }
        ensures part { OnErr result (TellsPart C.stands self.old (said_of token) lines.old lines.new) }
        ensures machine { self.new.machine ≡ self.old.machine }
        ensures loans { self.new.buffer.loans ≡ self.old.buffer.loans }
    {
        let kind = kind_of(alloc, &token)?;
        let fed = self.projector.feed_token(alloc, &mut self.buffer, token)?;
        let quiet = is_quiet(fed.tally(), &self.buffer);
        self.counts = count(self.counts, fed.tally(), self.buffer.held());
        lines.tell_token(fed, kind, self.buffer.gone())?;
        self.buffer.clear_gone();
        Ok(quiet)
    }

    /// Takes the next action, and appends its lines. False where none is left. After `Memory` a front of the lines stands
    /// there, and where none are wanted nothing was written. `to` is lent for one clause alone: few bytes wait before an
    /// action, so that nobody takes one after the other without having written what waits.
    #[inline(always)]
    pub(crate) fn act_told<L: Lines, O: Outside>(
        &mut self,
        alloc: Global,
        out: &mut Vec<u8>,
        lines: &mut L,
        _to: &O,
    ) -> Result<bool, Memory>
        requires some { SomeActors C.stands self.old }
        requires few { FewBoth (O.most _to.now false) out.old.items (L.seen lines.old) }
        ensures acts { IfOk result (ActsOneFrom C.stands self.old self.new out.old.items out.new.items) }
        ensures some { OnErr result (ActsSomeFrom C.stands self.old self.new out.old.items out.new.items) }
        ensures told { IfOk result (λ more. L.wanted ≡ true
            → TellsAction C.stands self.old (L.seen lines.old).waits (L.seen lines.new).waits more) }
        ensures part { OnErr result (L.wanted ≡ true
            → TellsFront C.stands self.old (L.seen lines.old).waits (L.seen lines.new).waits) }
        ensures err { L.wanted ≡ false → OnErr result (out.new.items ≡ out.old.items) }
        ensures places { SameOutlets (L.seen lines.old) (L.seen lines.new) }
        ensures alone { ActsAlone self.old self.new }
    {
        let acted = self.machine.act::<N, L>(alloc, &mut self.buffer, out)?;
        match acted {
            Acted::Blocked | Acted::Finished => Ok(false),
            Acted::Wrote(_) | Acted::SignedOff(..) => {
                lines.tell(acted, self.buffer.gone())?;
                self.buffer.clear_gone();
                Ok(true)
            }
        }
    }
}

impl<'p, N: NodeStore<Row>, C: Conds> Work<'p, N, C> {
    /// Takes one token, whose name or text lies in these bytes, and every action that is possible behind it, with the lines
    /// of both, and has them written where many bytes wait. After `Memory` a front of them flowed.
    pub(crate) fn take_told<O: Outside>(
        &mut self,
        alloc: Global,
        token: Lent,
        bytes: &[u8],
        lines: &mut TraceLines,
        to: &mut O,
    ) -> Result<(), Memory>
        requires lies { LiesWithin 0 (length bytes.now) bytes.now token }
        requires may { SomeFed C.stands self.old.ahead self.old.actors (lent_token bytes.now token ∷ []) }
        requires places { MayWriteBoth O.may to.old (trace_seen lines.old) }
        requires few { FewBoth (O.most to.old false) self.old.out.items (trace_seen lines.old) }
        ensures takes { OnOk result (TakesWork C.stands true trace_seen O.sinks
            (self.old, lines.old, to.old) (self.new, lines.new, to.new) (lent_token bytes.now token ∷ [])) }
        ensures part { OnErr result (TakesSomeWork C.stands true trace_seen O.sinks
            (self.old, lines.old, to.old) (self.new, lines.new, to.new) (lent_token bytes.now token ∷ [])) }
        ensures few { OnOk result (FewBoth (O.most to.new false) self.new.out.items (trace_seen lines.new)) }
        ensures others { OnlyBoth (trace_seen lines.old) (O.sinks to.old) (O.sinks to.new) }
        ensures order { O.most to.old true ≡ Some 0 → OrdersLent C.stands trace_seen O.sinks
            (self.old, lines.old, to.old) (self.new, lines.new, to.new) (lent_token bytes.now token ∷ []) }
        ensures leaves { LeavesTaking self.old self.new (trace_seen lines.old) (trace_seen lines.new) }
        ensures writes { O.writes to.old to.new }
    {
        let own = token.owned(alloc, bytes)?;
        let quiet = self.actors.feed_told(alloc, own, lines)?;
        self.spill(lines, to);
        if quiet {
            return Ok(());
        }
        self.act_all_told(alloc, lines, to)
    }

    /// Takes every action that is possible, with its lines, and has what waits written behind each, where many bytes wait.
    /// After `Memory` a front of them flowed. No run takes as many actions as the loop has turns.
    pub(crate) fn act_all_told<L: Lines, O: Outside>(
        &mut self,
        alloc: Global,
        lines: &mut L,
        to: &mut O,
    ) -> Result<(), Memory>
        requires some { SomeActors C.stands self.old.actors }
        requires places { MayWriteBoth O.may to.old (L.seen lines.old) }
        requires few { FewBoth (O.most to.old false) self.old.out.items (L.seen lines.old) }
        ensures acts { OnOk result (ActsWork C.stands L.wanted L.seen O.sinks
            (self.old, lines.old, to.old) (self.new, lines.new, to.new)) }
        ensures some { OnErr result (ActsSomeWork C.stands L.wanted L.seen O.sinks
            (self.old, lines.old, to.old) (self.new, lines.new, to.new)) }
        ensures few { OnOk result (FewBoth (O.most to.new false) self.new.out.items (L.seen lines.new)) }
        ensures others { OnlyBoth (L.seen lines.old) (O.sinks to.old) (O.sinks to.new) }
        ensures order { O.most to.old true ≡ Some 0 → L.wanted ≡ true → OrdersActs C.stands L.seen O.sinks
            (self.old, lines.old, to.old) (self.new, lines.new, to.new) }
        ensures leaves { LeavesWork self.old self.new (L.seen lines.old) (L.seen lines.new) }
        ensures writes { O.writes to.old to.new }
    {
        'actions: for _index in 0..u64::MAX {
            if !self.actors.act_told(alloc, &mut self.out, lines, to)? {
                return Ok(());
            }
            self.spill(lines, to);
        }
        Err(Memory)
    }

    /// Has what waits written, where many bytes wait: the output alone, or, where the lines may not wait, the whole output
    /// and then the lines.
    #[inline(always)]
    fn spill<L: Lines, O: Outside>(&mut self, lines: &mut L, to: &mut O)
        requires { MayWriteBoth O.may to.old (L.seen lines.old) }
        ensures flows { FlowsSame L.seen O.sinks (self.old, lines.old, to.old) (self.new, lines.new, to.new) }
        ensures few { FewBoth (O.most to.new false) self.new.out.items (L.seen lines.new) }
        ensures others { OnlyBoth (L.seen lines.old) (O.sinks to.old) (O.sinks to.new) }
        ensures order { O.most to.old true ≡ Some 0
            → KeepsOrder L.seen O.sinks (self.old, lines.old, to.old) (self.new, lines.new, to.new) [] }
        ensures places { SameOutlets (L.seen lines.old) (L.seen lines.new) }
        ensures rest { self.new ≡ record self.old { out = self.new.out } }
        ensures writes { O.writes to.old to.new }
    {
        if !lines.may_wait(to) {
            self.spill_all(lines, to);
            return;
        }
        to.spill(lines.output_place(), &mut self.out, false);
    }

    /// Has all written that waits, the output before the lines.
    pub(crate) fn spill_all<L: Lines, O: Outside>(&mut self, lines: &mut L, to: &mut O)
        requires { MayWriteBoth O.may to.old (L.seen lines.old) }
        ensures flows { FlowsSame L.seen O.sinks (self.old, lines.old, to.old) (self.new, lines.new, to.new) }
        ensures few { FewBoth (O.most to.new true) self.new.out.items (L.seen lines.new) }
        ensures others { OnlyBoth (L.seen lines.old) (O.sinks to.old) (O.sinks to.new) }
        ensures order { O.most to.old true ≡ Some 0
            → KeepsOrder L.seen O.sinks (self.old, lines.old, to.old) (self.new, lines.new, to.new) [] }
        ensures places { SameOutlets (L.seen lines.old) (L.seen lines.new) }
        ensures rest { self.new ≡ record self.old { out = self.new.out } }
        ensures writes { O.writes to.old to.new }
    {
        to.spill(lines.output_place(), &mut self.out, true);
        lines.spill(to);
    }
}
