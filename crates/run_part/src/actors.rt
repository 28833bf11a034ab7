//! The two actors over one buffer.
ghost use Rattle.std.specs.Prelude.{◌≡◌, true, length, max, IfOk, OnOk, OnErr};
ghost use Rattle.std.specs.FinMap as map;
ghost use Rattle.gcx_model.specs.Core.{BodyTree};
ghost use Rattle.gcx_model.specs.Cores.{Good};
ghost use Rattle.gcx_model.specs.Placed.{Placed};
ghost use Rattle.gcx_model.specs.PlanView.{plan_tree};
ghost use Rattle.gcx_model.specs.Tree.{opening};
ghost use Rattle.doc_reader.specs.Standing.{said_of};
ghost use Rattle.buf_tree.specs.Shape.{Shape, cells};
ghost use Rattle.buf_tree.specs.Spread.{SameButRoles};
ghost use Rattle.projector.specs.Calls.{BeginsFor, GivesDocument};
ghost use Rattle.run_part.specs.Actors.{ActorsBegin, ActsOneFrom, ActsSomeFrom, FeedsEach, MayFeed, SomeActors};

use crate::lines::NoLines;
use crate::tallies::count;
use buf_tree::{Buffer, Row};
use cond_eval::Conds;
use doc_reader::Token;
use gcx_base::Memory;
use gcx_model::{Given, Plan};
use node_store::NodeStore;
use outside::Nowhere;
use projector::Projector;
use pull_eval::Machine;
use std::alloc::Global;
use std::marker::Model;

/// What was counted: the greatest number of rows in the opening state or just behind a token, and the roles given to
/// nodes.
#[derive(Clone, Copy, Debug, PartialEq, Eq)]
pub struct Tallied {
    pub peak: u64,
    pub given: u128,
}

/// The projector, which takes the tokens of a document, and the machine, which takes the actions of a plan, over one
/// buffer. `Memory` is want of memory, and the only error of their calls; behind it none may be made.
#[derive(Drop)]
pub struct Actors<'p, N: NodeStore<Row>, C: Conds> {
    pub(crate) projector: Projector,
    pub(crate) buffer: Buffer<N>,
    pub(crate) machine: Machine<'p, C>,
    pub(crate) counts: Tallied,
}

impl<'p, N: NodeStore<Row>, C: Conds> Model for Actors<'p, N, C> {
    ghost use Rattle.std.specs.Coded.{codes};
    ghost use Rattle.gcx_model.specs.contracts.item.Item as item;
    ghost use Rattle.gcx_model.specs.contracts.item.Off as off;
    ghost use Rattle.buf_tree.specs.contracts.row.Row as row;
    ghost use Rattle.buf_tree.specs.contracts.ahead.Ahead as ahead;
    ghost use Rattle.buf_tree.specs.View.{view_code};
    ghost use Rattle.projector.specs.contracts.projector.Projector as feeder;
    ghost use Rattle.cond_eval.specs.contracts.env.Env as env;
    ghost use Rattle.run_part.specs.View.{ActorsView};

    ghost Value = { ActorsView C };

    ghost coded = { Prim.hlevel (codes, feeder.the_row.coded, view_code row.the_row.coded off.the_row.coded ahead.the_row.coded, item.the_row.coded, env.the_row.coded, C.code) };

    ghost view = { λ a. record { projector = a.projector; buffer = a.buffer; machine = a.machine; counts = a.counts } };
}

impl<'p, N: NodeStore<Row> + Drop, C: Conds + Drop> Actors<'p, N, C> {
    /// The actors before any token and any action, where the projector gives the document node these roles. The store is
    /// empty.
    pub fn new(
        alloc: Global,
        plan: &'p Plan,
        projector: Projector,
        given: Given,
        nodes: N,
        conds: C,
    ) -> Result<Actors<'p, N, C>, Memory>
        requires placed { (core : BodyTree) × Good core × Placed core (plan_tree plan.now) }
        requires projector { BeginsFor (plan_tree plan.now) projector }
        requires given { GivesDocument projector given }
        requires empty { N.rows nodes ≡ map.empty }
        requires conds { C.stands conds opening }
        ensures begins { IfOk result (λ a. ActorsBegin C.stands (plan_tree plan.now) a) }
        ensures most { IfOk result (λ a. a.buffer.most ≡ max (N.most_held nodes) 1) }
        ensures loans { IfOk result (λ a. a.buffer.loans ≡ N.loans nodes) }
    {
        let count = given.items().len() as u128;
        let buffer = Buffer::new_spread(alloc, nodes, given, plan)?;
        let machine = Machine::new(alloc, plan, conds)?;
        Ok(Actors {
            projector,
            buffer,
            machine,
            counts: Tallied {
                peak: 1,
                given: count,
            },
        })
    }

    /// The store, with the rows as they are kept.
    pub fn into_nodes(self) -> N
        ensures rows { cells (N.rows result) ≡ self.entry.buffer.kept }
        ensures shape { Shape (N.rows result) self.entry.buffer.kept }
        ensures alike { SameButRoles self.entry.buffer.kept self.entry.buffer.rows }
        ensures most { N.most_held result ≡ self.entry.buffer.most }
        ensures loans { N.loans result ≡ self.entry.buffer.loans }
    {
        let Actors {
            projector: _,
            buffer,
            machine: _,
            counts: _,
        } = self;
        buffer.into_nodes()
    }
}

impl<'p, N: NodeStore<Row>, C: Conds> Actors<'p, N, C> {
    /// Feeds one token, and counts what it did. No action is taken.
    pub fn feed(&mut self, alloc: Global, token: Token) -> Result<(), Memory>
        requires { MayFeed C.stands self.old (said_of token) }
        ensures { OnOk result (FeedsEach C.stands self.old self.new (said_of token)) }
    {
        let fed = self.projector.feed_token(alloc, &mut self.buffer, token)?;
        self.counts = count(self.counts, fed.tally(), self.buffer.held());
        self.buffer.clear_gone();
        Ok(())
    }

    /// Takes the next action. False where none is left. What it writes is appended to `out`; after `Memory` nothing was.
    pub fn act_one(&mut self, alloc: Global, out: &mut Vec<u8>) -> Result<bool, Memory>
        requires { SomeActors C.stands self.old }
        ensures acts { IfOk result (ActsOneFrom C.stands self.old self.new out.old.items out.new.items) }
        ensures some { OnErr result (ActsSomeFrom C.stands self.old self.new out.old.items out.new.items) }
        ensures err { OnErr result (out.new.items ≡ out.old.items) }
        ensures projector { self.new.projector ≡ self.old.projector }
        ensures counts { self.new.counts ≡ self.old.counts }
        ensures most { self.new.buffer.most ≡ self.old.buffer.most }
        ensures loans { self.new.buffer.loans ≡ self.old.buffer.loans }
    {
        let mut lines = NoLines { place: 0 };
        let nowhere = Nowhere::new(alloc);
        self.act_told(alloc, out, &mut lines, &nowhere)
    }

    /// How many nodes have rows.
    pub fn held(&self) -> u64
        ensures { result ≡ length self.now.buffer.rows }
    {
        self.buffer.held()
    }

    /// How many nodes there were.
    pub fn nodes(&self) -> u64
        ensures { result ≡ self.now.buffer.nodes }
    {
        self.buffer.nodes()
    }

    /// How many roles were taken back from nodes.
    pub fn taken(&self) -> u128
        ensures { result ≡ self.now.buffer.taken }
    {
        self.buffer.taken()
    }

    /// What was counted: rows, and roles given.
    pub fn counts(&self) -> Tallied
        ensures { result ≡ self.now.counts }
    {
        self.counts
    }

    /// What finds the truth of conditions.
    pub fn conds(&self) -> &C
        ensures { result.now ≡ self.now.machine.conds }
    {
        self.machine.conds()
    }
}
