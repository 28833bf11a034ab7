//! Turns of the two actors in any order.
ghost use Rattle.std.specs.Prelude.{◌≡◌, ◌≤◌, ◌<◌, ◌+◌, ◌^◌, ◌++◌, true, map, IfOk, OnOk, OnErr};
ghost use Rattle.std.specs.FinMap as store;
ghost use Rattle.gcx_model.specs.Core.{BodyTree};
ghost use Rattle.gcx_model.specs.Cores.{Good};
ghost use Rattle.gcx_model.specs.Placed.{Placed};
ghost use Rattle.gcx_model.specs.PlanView.{plan_tree};
ghost use Rattle.gcx_model.specs.Tree.{opening};
ghost use Rattle.gcx_model.specs.Growth.{may_all};
ghost use Rattle.gcx_model.specs.Seen.{AreWithin};
ghost use Rattle.gcx_model.specs.Turning.{Act};
ghost use Rattle.doc_reader.specs.Standing.{said_of};
ghost use Rattle.run_part.specs.Telling.{GrewPart};
ghost use Rattle.engine.specs.Turns.{FeedsTurn, Reaches, SomeTurns, TakesTurn, TellsState, TellsTurned, actions_in, from_start, turn_of, written};

use crate::report::few_roles;
use buf_tree::Row;
use cond_eval::Conds;
use doc_reader::Token;
use gcx_base::Memory;
use gcx_model::Plan;
use node_store::NodeStore;
use projector::Projector;
use run_part::Actors;
use std::alloc::Global;
use std::collections::VecDeque;

/// A turn: the next token is fed, or the next action is taken. Where there is none it does nothing.
#[derive(Clone, Copy, Debug, PartialEq, Eq)]
pub enum Turn {
    Feed,
    Act,
}

/// What turns reached: the tokens fed and the actions taken, the rows, the nodes so far, and the roles given and taken.
#[derive(Clone, Copy, Debug, PartialEq, Eq)]
pub struct Reached {
    pub fed: u64,
    pub acted: u64,
    pub held: u64,
    pub nodes: u64,
    pub given: u128,
    pub taken: u128,
}

/// The two actors, the tokens that are left, and how many turns of each were taken.
#[derive(Drop)]
struct Course<'p, N: NodeStore<Row>, C: Conds> {
    actors: Actors<'p, N, C>,
    tokens: VecDeque<Token>,
    fed: u64,
    acted: u64,
}

impl<'p, N: NodeStore<Row>, C: Conds> Course<'p, N, C> {
    /// The next token, if one is left.
    fn feed(&mut self, alloc: Global) -> Result<(), Memory>
        requires { SomeTurns C.stands self.old }
        ensures fed { OnOk result (FeedsTurn C.stands self.old self.new) }
        ensures acted { self.new.acted ≡ self.old.acted }
    {
        let Some(token) = self.tokens.pop_front() else {
            return Ok(());
        };
        self.actors.feed(alloc, token)?;
        self.fed += 1;
        Ok(())
    }

    /// The next action, if one is left.
    fn act(&mut self, alloc: Global, out: &mut Vec<u8>) -> Result<(), Memory>
        requires turns { SomeTurns C.stands self.old }
        requires few { self.old.acted + 1 < 2 ^ 64 }
        ensures acts { OnOk result (TakesTurn C.stands self.old Act self.new out.old.items out.new.items) }
        ensures acted { self.new.acted ≤ self.old.acted + 1 }
        ensures err { OnErr result (out.new.items ≡ out.old.items) }
    {
        let more = self.actors.act_one(alloc, out)?;
        self.acted += actions_in(more);
        Ok(())
    }

    fn turn(&mut self, alloc: Global, turn: Turn, out: &mut Vec<u8>) -> Result<(), Memory>
        requires turns { SomeTurns C.stands self.old }
        requires few { self.old.acted + 1 < 2 ^ 64 }
        ensures turns { OnOk result (TakesTurn C.stands self.old (turn_of turn) self.new out.old.items out.new.items) }
        ensures acted { self.new.acted ≤ self.old.acted + 1 }
        ensures err { OnErr result (out.new.items ≡ out.old.items) }
    {
        match turn {
            Turn::Feed => self.feed(alloc),
            Turn::Act => self.act(alloc, out),
        }
    }

    fn reached(&self) -> Reached
        ensures { TellsState C.stands self.now result }
    {
        Reached {
            fed: self.fed,
            acted: self.acted,
            held: self.actors.held(),
            nodes: self.actors.nodes(),
            given: self.actors.counts().given,
            taken: self.actors.taken(),
        }
    }
}

/// How many actions were taken: one, or none was left.
fn actions_in(more: bool) -> u64
    ensures is { result ≡ actions_in more }
    ensures few { result ≤ 1 }
{
    if more { 1 } else { 0 }
}

/// The actors before any turn.
fn course_of<'p, N: NodeStore<Row> + Drop, C: Conds + Drop>(
    alloc: Global,
    plan: &'p Plan,
    nodes: N,
    conds: C,
    tokens: VecDeque<Token>,
) -> Result<Course<'p, N, C>, Memory>
    requires placed { (core : BodyTree) × Good core × Placed core (plan_tree plan.now) }
    requires empty { N.rows nodes ≡ store.empty }
    requires conds { C.stands conds opening }
    requires tokens { may_all (map said_of tokens.items) opening ≡ true }
    requires within { AreWithin (map said_of tokens.items) }
    ensures reaches { IfOk result (Reaches C.stands (plan_tree plan.now) (map said_of tokens.items) from_start) }
    ensures acted { IfOk result (λ a. a.acted ≡ 0) }
{
    let projector = Projector::new(alloc, plan)?;
    let given = projector.document(alloc)?;
    let actors = Actors::new(alloc, plan, projector, given, nodes, conds)?;
    Ok(Course {
        actors,
        tokens,
        fed: 0,
        acted: 0,
    })
}

/// Takes the turns in their order, from the state before any token and any action, and answers what they reach. The
/// store is empty. The bytes of the actions go to `out`; after `Memory` a front of them has gone there.
pub fn interleave<N: NodeStore<Row> + Drop, C: Conds + Drop>(
    alloc: Global,
    plan: &Plan,
    nodes: N,
    conds: C,
    tokens: VecDeque<Token>,
    turns: &[Turn],
    out: &mut Vec<u8>,
) -> Result<Reached, Memory>
    requires placed { (core : BodyTree) × Good core × Placed core (plan_tree plan.now) }
    requires empty { N.rows nodes ≡ store.empty }
    requires conds { C.stands conds opening }
    requires tokens { may_all (map said_of tokens.items) opening ≡ true }
    requires within { AreWithin (map said_of tokens.items) }
    ensures reached { IfOk result (TellsTurned (plan_tree plan.now) (map said_of tokens.items) turns.now) }
    ensures written { OnOk result (out.new.items
        ≡ out.old.items ++ written (plan_tree plan.now) (map said_of tokens.items) turns.now) }
    ensures err { OnErr result (GrewPart out.old.items out.new.items
        (written (plan_tree plan.now) (map said_of tokens.items) turns.now)) }
{
    let mut course = course_of(alloc, plan, nodes, conds, tokens)?;
    for turn in turns {
        course.turn(alloc, *turn, out)?;
    }
    few_roles(plan);
    Ok(course.reached())
}
