//! How many tokens a part takes before it acts: a group of them, or one where lines are wanted.
ghost use Rattle.std.specs.Prelude.{◌≡◌, ◌≤◌, Some, true, false, length, OnOk, OnErr};
ghost use Rattle.doc_reader.specs.Standing.{AllLieWithin};
ghost use Rattle.run_part.specs.Flows.{FewBoth, LeavesTaking, MayWriteBoth, OnlyBoth, TakesSomeWork, TakesWork};
ghost use Rattle.run_part.specs.Late.{SomeFed, said_lent};
ghost use Rattle.run_part.specs.Order.{OrdersLent};

use crate::actors::Actors;
use crate::lent::Groups;
use crate::lines::{Lines, NoLines, TraceLines};
use buf_tree::Row;
use cond_eval::Conds;
use doc_reader::Lent;
use gcx_base::Memory;
use node_store::NodeStore;
use outside::Outside;
use std::alloc::Global;

/// What a part works with: its two actors, their output that waits, and the most tokens between two times at which every
/// possible action is taken, where no lines are wanted.
#[derive(Drop)]
pub struct Work<'p, N: NodeStore<Row>, C: Conds> {
    pub(crate) actors: Actors<'p, N, C>,
    pub(crate) out: Vec<u8>,
    pub(crate) ahead: u32,
}

/// How tokens that are lent are taken: in groups where no lines are wanted, and else one at a time, so that the lines are
/// those of the run.
pub trait Pace: Lines {
    /// Takes the tokens, whose names and texts lie in these bytes, and every action that is possible behind them, with the
    /// lines of both, and has them written where many bytes wait. After `Memory` a front of them flowed.
    fn take<N: NodeStore<Row>, C: Conds, O: Outside>(
        &mut self,
        alloc: Global,
        work: &mut Work<'_, N, C>,
        tokens: &[Lent],
        bytes: &[u8],
        to: &mut O,
    ) -> Result<(), Memory>
        requires ahead { 1 ≤ work.old.ahead }
        requires within { AllLieWithin 0 (length bytes.now) bytes.now tokens.now }
        requires may { SomeFed C.stands work.old.ahead work.old.actors (said_lent bytes.now tokens.now) }
        requires places { MayWriteBoth O.may to.old (Self.seen self.old) }
        requires few { FewBoth (O.most to.old false) work.old.out.items (Self.seen self.old) }
        ensures takes { OnOk result (TakesWork C.stands Self.wanted Self.seen O.sinks
            (work.old, self.old, to.old) (work.new, self.new, to.new) (said_lent bytes.now tokens.now)) }
        ensures part { OnErr result (TakesSomeWork C.stands Self.wanted Self.seen O.sinks
            (work.old, self.old, to.old) (work.new, self.new, to.new) (said_lent bytes.now tokens.now)) }
        ensures few { OnOk result (FewBoth (O.most to.new false) work.new.out.items (Self.seen self.new)) }
        ensures others { OnlyBoth (Self.seen self.old) (O.sinks to.old) (O.sinks to.new) }
        ensures order { O.most to.old true ≡ Some 0 → Self.wanted ≡ true → OrdersLent C.stands Self.seen O.sinks
            (work.old, self.old, to.old) (work.new, self.new, to.new) (said_lent bytes.now tokens.now) }
        ensures leaves { LeavesTaking work.old work.new (Self.seen self.old) (Self.seen self.new) }
        ensures writes { O.writes to.old to.new };
}

impl Pace for NoLines {
    #[inline(always)]
    fn take<N: NodeStore<Row>, C: Conds, O: Outside>(
        &mut self,
        alloc: Global,
        work: &mut Work<'_, N, C>,
        tokens: &[Lent],
        bytes: &[u8],
        to: &mut O,
    ) -> Result<(), Memory> {
        let place = self.place;
        let ahead = work.ahead;
        work.feed_lent(alloc, tokens, bytes, Groups { ahead, place }, to)
    }
}

impl Pace for TraceLines {
    fn take<N: NodeStore<Row>, C: Conds, O: Outside>(
        &mut self,
        alloc: Global,
        work: &mut Work<'_, N, C>,
        tokens: &[Lent],
        bytes: &[u8],
        to: &mut O,
    ) -> Result<(), Memory> {
        for token in tokens {
            work.take_told(alloc, *token, bytes, self, to)?;
        }
        Ok(())
    }
}
