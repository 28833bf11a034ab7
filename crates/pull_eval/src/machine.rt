//! The evaluator.
ghost use Rattle.std.specs.Prelude.{◌≡◌, true, false, None, IfOk, OnErr};
ghost use Rattle.gcx_model.specs.Core.{If};
ghost use Rattle.gcx_model.specs.CondView.{core_cond_tree};
ghost use Rattle.gcx_model.specs.PlanView.{plan_tree};
ghost use Rattle.gcx_model.specs.Past.{opening_past};
ghost use Rattle.buf_tree.specs.View.{View};
ghost use Rattle.buf_tree.specs.Stands.{StandsFor};
ghost use Rattle.pull_eval.specs.Position.{items};
ghost use Rattle.pull_eval.specs.Acting.{Beside, MayAct, Acts, MovesOn, IsNextItem};
ghost use Rattle.cond_eval.specs.Asking.{AnswersOver, MayAskOver};
ghost use Rattle.pull_eval.specs.Calls.{WasAsked, MovesAsking};

use crate::block::ForLoop;
use crate::position::Position;
use buf_tree::{Buffer, Row};
use cond_eval::{Conds, Env};
use gcx_base::{Memory, Role, Serial};
use gcx_model::{Cond, Item, Plan, Truth};
use node_store::NodeStore;
use std::alloc::Global;
use std::marker::Model;

/// What a call did.
#[derive(Clone, Copy, Debug, PartialEq, Eq)]
pub enum Acted {
    /// So many bytes were written.
    Wrote(u64),
    /// The role's statement was carried out at this node.
    SignedOff(Serial, Role),
    /// No action is left, and the query isn't done.
    Blocked,
    /// No action is left, and the query is done.
    Finished,
}

/// Where the run of a plan stands, and what finds the truth of its conditions.
#[derive(Drop)]
pub struct Runner<'p, C> {
    pub(crate) position: Position<'p>,
    pub(crate) conds: C,
}

/// Runs a plan over a buffer, one action a call.
#[derive(Drop)]
pub struct Machine<'p, C: Conds> {
    runner: Runner<'p, C>,
    /// Whether the last call asked the condition that comes next, and its truth isn't known.
    asked: bool,
}

impl<'p, C: Conds> Model for Machine<'p, C> {
    ghost use Rattle.std.specs.Prelude.{◌≡◌, true};
    ghost use Rattle.std.specs.Coded.{codes};
    ghost use Rattle.cond_eval.specs.contracts.env.Env as env;
    ghost use Rattle.gcx_model.specs.contracts.item.Item as item;
    ghost use Rattle.pull_eval.specs.Calls.{WasAsked};
    ghost use Rattle.pull_eval.specs.declared.machine.Runner.{Runner};

    ghost Value = { Runner C };

    ghost coded = { Prim.hlevel (codes, item.the_row.coded, env.the_row.coded, C.code) };

    ghost view = { λ m. m.runner };

    ghost invariant = { λ m. m.asked ≡ true → WasAsked (C.asked_last m.runner.conds) m.runner.position };
}

impl<'p, C: Conds> Machine<'p, C> {
    /// A machine before the first action of the plan.
    pub fn new(alloc: Global, plan: &'p Plan, conds: C) -> Result<Machine<'p, C>, Memory>
        ensures stands { IfOk result (λ m. (v : View) → StandsFor v (opening_past (plan_tree plan.now)) → v.taken ≡ 0
            → Beside m.position v (opening_past (plan_tree plan.now)) 0) }
        ensures conds { IfOk result (λ m. m.conds ≡ conds) }
    {
        Ok(Machine {
            runner: Runner {
                position: Position::new(alloc, plan.body.items()),
                conds,
            },
            asked: false,
        })
    }

    /// What finds the truth of conditions.
    pub fn conds(&self) -> &C
        ensures { result.now ≡ self.now.conds }
    {
        &self.runner.conds
    }

    /// Takes the next action of the plan's run, and answers which it is. A write goes to `out`, a statement is carried
    /// out in the buffer.
    ///
    /// After `Memory` the output is as before, and no further call may be made.
    ///
    /// `K` is the kind of caller, and says nothing: with it the compiler makes a body for each, and puts it in line there.
    #[inline(always)]
    pub fn act<N: NodeStore<Row>, K>(
        &mut self,
        alloc: Global,
        buffer: &mut Buffer<N>,
        out: &mut Vec<u8>,
    ) -> Result<Acted, Memory>
        requires { MayAct (C.stands self.old.conds) self.old.position buffer.old }
        ensures acts { IfOk result (λ a. Acts (C.stands self.old.conds) (C.stands self.new.conds)
            self.old.position self.new.position buffer.old buffer.new out.old.items out.new.items a) }
        ensures err { OnErr result (out.new.items ≡ out.old.items) }
        ensures kept { OnErr result (buffer.new ≡ buffer.old) }
        ensures most { buffer.new.most ≡ buffer.old.most }
        ensures loans { buffer.new.loans ≡ buffer.old.loans }
    {
        let again = self.asked;
        self.asked = false;
        self.runner
            .act::<N, K>(alloc, again, &mut self.asked, buffer, out)
    }
}

impl<'p, C: Conds> Runner<'p, C> {
    /// Takes the next action. Where `again` is true the condition that comes next was asked last; so it is behind the
    /// call where `asked` is.
    #[inline(always)]
    fn act<N: NodeStore<Row>, K>(
        &mut self,
        alloc: Global,
        again: bool,
        asked: &mut bool,
        buffer: &mut Buffer<N>,
        out: &mut Vec<u8>,
    ) -> Result<Acted, Memory>
        requires may { MayAct (C.stands self.old.conds) self.old.position buffer.old }
        requires again { again ≡ true → WasAsked (C.asked_last self.old.conds) self.old.position }
        requires fresh { asked.old ≡ false }
        ensures acts { IfOk result (λ a. Acts (C.stands self.old.conds) (C.stands self.new.conds)
            self.old.position self.new.position buffer.old buffer.new out.old.items out.new.items a) }
        ensures asked { asked.new ≡ true → WasAsked (C.asked_last self.new.conds) self.new.position }
        ensures err { OnErr result (out.new.items ≡ out.old.items) }
        ensures kept { OnErr result (buffer.new ≡ buffer.old) }
        ensures most { buffer.new.most ≡ buffer.old.most }
        ensures loans { buffer.new.loans ≡ buffer.old.loans }
    {
        self.position.begin(buffer)?;
        let mut again = again;
        'moves: loop {
            if let Some(acted) = self.advance::<N, K>(alloc, again, asked, buffer, out)? {
                return Ok(acted);
            }
            again = false;
            *asked = false;
        }
    }

    /// One move: an action or the end of all, or None for a move that takes no action.
    #[inline(always)]
    fn advance<N: NodeStore<Row>, K>(
        &mut self,
        alloc: Global,
        again: bool,
        asked: &mut bool,
        buffer: &mut Buffer<N>,
        out: &mut Vec<u8>,
    ) -> Result<Option<Acted>, Memory>
        requires may { MayAct (C.stands self.old.conds) self.old.position buffer.old }
        requires begun { self.old.position.is_begun ≡ true }
        requires again { again ≡ true → WasAsked (C.asked_last self.old.conds) self.old.position }
        requires fresh { asked.old ≡ false }
        ensures moves { IfOk result (λ a. MovesOn (C.stands self.old.conds) (C.stands self.new.conds)
            self.old.position self.new.position buffer.old buffer.new out.old.items out.new.items a) }
        ensures asked { asked.new ≡ true → WasAsked (C.asked_last self.new.conds) self.new.position }
        ensures begun { IfOk result (λ _. self.new.position.is_begun ≡ true) }
        ensures err { OnErr result (out.new.items ≡ out.old.items) }
        ensures kept { OnErr result (buffer.new ≡ buffer.old) }
        ensures most { buffer.new.most ≡ buffer.old.most }
        ensures loans { buffer.new.loans ≡ buffer.old.loans }
    {
        match self.position.copying {
            Some(copying) => self.position.copy_on(copying, buffer, out),
            None => self.run_on::<N, K>(alloc, again, asked, buffer, out),
        }
    }

    /// A move of the block that runs.
    #[inline(always)]
    fn run_on<N: NodeStore<Row>, K>(
        &mut self,
        alloc: Global,
        again: bool,
        asked: &mut bool,
        buffer: &mut Buffer<N>,
        out: &mut Vec<u8>,
    ) -> Result<Option<Acted>, Memory>
        requires may { MayAct (C.stands self.old.conds) self.old.position buffer.old }
        requires begun { self.old.position.is_begun ≡ true }
        requires no_copy { self.old.position.copying ≡ None }
        requires again { again ≡ true → WasAsked (C.asked_last self.old.conds) self.old.position }
        requires fresh { asked.old ≡ false }
        ensures moves { IfOk result (λ a. MovesOn (C.stands self.old.conds) (C.stands self.new.conds)
            self.old.position self.new.position buffer.old buffer.new out.old.items out.new.items a) }
        ensures asked { asked.new ≡ true → WasAsked (C.asked_last self.new.conds) self.new.position }
        ensures begun { IfOk result (λ _. self.new.position.is_begun ≡ true) }
        ensures err { OnErr result (out.new.items ≡ out.old.items) }
        ensures kept { OnErr result (buffer.new ≡ buffer.old) }
        ensures most { buffer.new.most ≡ buffer.old.most }
        ensures loans { buffer.new.loans ≡ buffer.old.loans }
    {
        let position = &mut self.position;
        match position.top.rest.split_first() {
            None => position.leave(alloc, buffer),
            Some((item, rest)) => match item {
                Item::Write(text) => position.write(text, rest, out),
                Item::Copy(var) => position.begin_copy(*var, rest, buffer, out),
                Item::For {
                    var,
                    from,
                    step,
                    body,
                } => {
                    let for_loop = ForLoop {
                        var: *var,
                        step,
                        body: body.items(),
                    };
                    position.enter(alloc, *from, for_loop, rest, buffer)
                }
                Item::If { cond, then, other } => {
                    let branches = (then.items(), other.items());
                    self.choose(alloc, again, asked, cond, branches, rest, buffer)
                }
                Item::Off(off) => position.sign(alloc, off, rest, buffer),
            },
        }
    }

    /// A branch is taken, where the condition is known.
    #[inline(always)]
    fn choose<N: NodeStore<Row>>(
        &mut self,
        alloc: Global,
        again: bool,
        asked: &mut bool,
        cond: &Cond,
        branches: (&'p [Item], &'p [Item]),
        rest: &'p [Item],
        buffer: &Buffer<N>,
    ) -> Result<Option<Acted>, Memory>
        requires next { IsNextItem self.old.position
            (If (core_cond_tree cond.now) (items branches.0.now) (items branches.1.now)) (items rest.now) }
        requires begun { self.old.position.is_begun ≡ true }
        requires may { MayAct (C.stands self.old.conds) self.old.position buffer.now }
        requires again { again ≡ true → WasAsked (C.asked_last self.old.conds) self.old.position }
        requires fresh { asked.old ≡ false }
        ensures moved { IfOk result (λ a. MovesAsking (C.stands self.old.conds) (C.stands self.new.conds)
            self.old.position self.new.position buffer.now a) }
        ensures asked { asked.new ≡ true → WasAsked (C.asked_last self.new.conds) self.new.position }
        ensures begun { IfOk result (λ _. self.new.position.is_begun ≡ true) }
    {
        let (then, other) = branches;
        match truth_of(
            &mut self.conds,
            alloc,
            again,
            cond,
            &self.position.env,
            buffer,
        )? {
            Truth::Unknown => {
                *asked = true;
                Ok(Some(Acted::Blocked))
            }
            Truth::True => self.position.begin_branch(then, rest),
            Truth::False => self.position.begin_branch(other, rest),
        }
    }
}

/// The truth of the condition, where it may have been asked last.
#[inline(always)]
fn truth_of<C: Conds, N: NodeStore<Row>>(
    conds: &mut C,
    alloc: Global,
    again: bool,
    cond: &Cond,
    env: &Env,
    buffer: &Buffer<N>,
) -> Result<Truth, Memory>
    requires may { MayAskOver buffer.now (C.stands conds.old) env.now (core_cond_tree cond.now) }
    requires again { again ≡ true → C.asked_last conds.old (core_cond_tree cond.now) }
    ensures answers { IfOk result (λ t. AnswersOver buffer.now (C.stands conds.old) (C.stands conds.new)
        env.now (core_cond_tree cond.now) t) }
    ensures last { IfOk result (λ _. C.asked_last conds.new (core_cond_tree cond.now)) }
{
    if again {
        conds.truth_again(alloc, cond, env, buffer)
    } else {
        conds.truth(alloc, cond, env, buffer)
    }
}
