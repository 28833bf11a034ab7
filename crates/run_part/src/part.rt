//! One of the plans, with its two actors, what it has written, and its lines.
ghost use Rattle.std.specs.Prelude.{◌≡◌, ◌≤◌, [], true, false, length, max, IfOk};
ghost use Rattle.std.specs.FinMap as map_of;
ghost use Rattle.gcx_model.specs.Demand.{text_of_lines, trace_lines};
ghost use Rattle.gcx_model.specs.PlanView.{plan_tree};
ghost use Rattle.gcx_model.specs.Tree.{opening};
ghost use Rattle.buf_tree.specs.Shape.{Shape, cells};
ghost use Rattle.buf_tree.specs.Spread.{SameButRoles};
ghost use Rattle.run_part.specs.Actors.{all_of, bytes_at};
ghost use Rattle.run_part.specs.Part.{MadeFrom, IsOfCore, PartStands};

use crate::actors::{Actors, Tallied};
use crate::lines::Lines;
use crate::pace::{Pace, Work};
use buf_tree::Row;
use cond_eval::Conds;
use doc_reader::Lent;
use gcx_base::Memory;
use gcx_model::Plan;
use node_store::NodeStore;
use outside::{Nowhere, Outside, TakesTokens};
use projector::Projector;
use std::alloc::Global;
use std::marker::Model;

/// A plan, its two actors, their output that waits, and their lines where they are wanted. `Memory` is want of memory, and
/// the only error of its calls; behind it none may be made but those that read or clear.
#[derive(Drop)]
pub struct Part<'p, N: NodeStore<Row>, C: Conds, L: Lines> {
    plan: &'p Plan,
    work: Work<'p, N, C>,
    lines: L,
}

impl<'p, N: NodeStore<Row>, C: Conds, L: Lines> Model for Part<'p, N, C, L> {
    ghost use Rattle.std.specs.Coded.{codes};
    ghost use Rattle.gcx_model.specs.contracts.item.Item as item;
    ghost use Rattle.gcx_model.specs.contracts.item.Off as off;
    ghost use Rattle.buf_tree.specs.contracts.row.Row as row;
    ghost use Rattle.buf_tree.specs.contracts.ahead.Ahead as waits;
    ghost use Rattle.buf_tree.specs.View.{view_code};
    ghost use Rattle.projector.specs.contracts.projector.Projector as feeder;
    ghost use Rattle.cond_eval.specs.contracts.env.Env as env;
    ghost use Rattle.run_part.specs.View.{PartView};

    ghost Value = { PartView C };

    ghost coded = { Prim.hlevel (codes, feeder.the_row.coded, view_code row.the_row.coded off.the_row.coded waits.the_row.coded, item.the_row.coded, env.the_row.coded, C.code) };

    ghost view = { λ p. record {
      plan = p.plan.now;
      ahead = p.work.ahead;
      tracing = L.wanted;
      actors = p.work.actors;
      out = p.work.out.items;
      trace = (L.seen p.lines).waits;
      output_at = (L.seen p.lines).output_at;
      lines_at = (L.seen p.lines).lines_at;
    } };
}

impl<'p, N: NodeStore<Row> + Drop, C: Conds + Drop, L: Lines + Drop> Part<'p, N, C, L> {
    /// A part before any token, with every action taken that is possible. The store is empty, and no line stands there.
    pub fn new(
        alloc: Global,
        plan: &'p Plan,
        nodes: N,
        conds: C,
        ahead: u32,
        lines: L,
    ) -> Result<Part<'p, N, C, L>, Memory>
        requires placed { IsOfCore plan.now }
        requires empty { N.rows nodes ≡ map_of.empty }
        requires conds { C.stands conds opening }
        requires ahead { 1 ≤ ahead }
        requires lines { (L.seen lines).waits ≡ [] }
        ensures stands { IfOk result (λ p. PartStands C.stands ahead [] p) }
        ensures written { IfOk result (λ p. p.out
            ≡ bytes_at (plan_tree plan.now) opening (all_of (plan_tree plan.now) opening)) }
        ensures traced { IfOk result (λ p. L.wanted ≡ true → p.trace
            ≡ text_of_lines (trace_lines (plan_tree plan.now) [])) }
        ensures silent { IfOk result (λ p. L.wanted ≡ false → p.trace ≡ []) }
        ensures made { IfOk result (MadeFrom plan.now L.wanted (L.seen lines)) }
        ensures most { IfOk result (λ p. p.actors.buffer.most ≡ max (N.most_held nodes) p.actors.counts.peak) }
        ensures loans { IfOk result (λ p. p.actors.buffer.loans ≡ N.loans nodes) }
    {
        let projector = Projector::new(alloc, plan)?;
        let given = projector.document(alloc)?;
        let mut lines = lines;
        lines.begin(alloc, &given)?;
        let actors = Actors::new(alloc, plan, projector, given, nodes, conds)?;
        let mut work = Work {
            actors,
            out: Vec::new(alloc),
            ahead,
        };
        let mut to = Nowhere::new(alloc);
        work.act_all_told(alloc, &mut lines, &mut to)?;
        Ok(Part { plan, work, lines })
    }

    /// The store, with the rows as they are kept.
    pub fn into_nodes(self) -> N
        ensures rows { cells (N.rows result) ≡ self.entry.actors.buffer.kept }
        ensures shape { Shape (N.rows result) self.entry.actors.buffer.kept }
        ensures alike { SameButRoles self.entry.actors.buffer.kept self.entry.actors.buffer.rows }
        ensures most { N.most_held result ≡ self.entry.actors.buffer.most }
        ensures loans { N.loans result ≡ self.entry.actors.buffer.loans }
    {
        let Part {
            plan: _,
            work,
            lines: _,
        } = self;
        let Work {
            actors,
            out: _,
            ahead: _,
        } = work;
        actors.into_nodes()
    }
}

impl<'p, N: NodeStore<Row>, C: Conds, L: Pace> TakesTokens for Part<'p, N, C, L> {
    ghost use Rattle.run_part.specs.Taker.{part_count, part_few, part_ordered, part_outs, part_peak, part_places, part_stands, part_texts};
    ghost use Rattle.run_part.specs.Taker.{PartStays};
    ghost use Rattle.run_part.specs.TakerLaws.{any_few, few_each, none_few, ordered_on, peak_on, peak_same, same_outputs, same_places};
    ghost use Rattle.run_part.specs.TakerLaws.{settles_on, stays_on, stays_same};

    ghost stands = { part_stands C.stands };

    ghost count = { λ p. part_count p.tracing };

    ghost texts = { part_texts };

    ghost outs = { part_outs };

    ghost places = { part_places };

    ghost few = { part_few };

    ghost ordered = { part_ordered };

    ghost keeps = { PartStays };

    ghost keeps_peak = { part_peak };

    fn take<O: Outside>(
        &mut self,
        alloc: Global,
        tokens: &[Lent],
        bytes: &[u8],
        to: &mut O,
    ) -> Result<(), Memory> {
        self.lines.take(alloc, &mut self.work, tokens, bytes, to)
    }

    fn write_out<O: Outside>(&mut self, to: &mut O) {
        self.work.spill_all(&mut self.lines, to);
    }

    ghost keeps_same = { stays_same };

    ghost keeps_on = { stays_on };

    ghost keeps_outputs = { same_outputs };

    ghost keeps_places = { same_places };

    ghost peak_same = { peak_same };

    ghost peak_on = { peak_on };

    ghost ordered_on = { ordered_on };

    ghost few_each = { few_each };

    ghost any_few = { any_few };

    ghost none_few = { none_few };

    ghost settles_on = { settles_on };
}

impl<'p, N: NodeStore<Row>, C: Conds, L: Lines> Part<'p, N, C, L> {
    /// The output that waits.
    pub fn output(&self) -> &[u8]
        ensures { result.now ≡ self.now.out }
    {
        &self.work.out
    }

    /// The text of the lines that wait.
    pub fn trace(&self) -> &[u8]
        ensures { result.now ≡ self.now.trace }
    {
        self.lines.text()
    }

    /// The output is written.
    pub fn clear_output(&mut self)
        ensures { self.new ≡ record self.old { out = [] } }
    {
        self.work.out.clear();
    }

    /// The lines are written.
    pub fn clear_trace(&mut self)
        ensures { self.new ≡ record self.old { trace = [] } }
    {
        self.lines.clear();
    }

    /// The plan.
    pub fn plan(&self) -> &Plan
        ensures { result.now ≡ self.now.plan }
    {
        self.plan
    }

    /// What was counted: rows, and roles given.
    pub fn counts(&self) -> Tallied
        ensures { result ≡ self.now.actors.counts }
    {
        self.work.actors.counts()
    }

    /// How many roles were taken back from nodes.
    pub fn taken(&self) -> u128
        ensures { result ≡ self.now.actors.buffer.taken }
    {
        self.work.actors.taken()
    }

    /// How many nodes there were.
    pub fn nodes(&self) -> u64
        ensures { result ≡ self.now.actors.buffer.nodes }
    {
        self.work.actors.nodes()
    }

    /// How many nodes have rows.
    pub fn held(&self) -> u64
        ensures { result ≡ length self.now.actors.buffer.rows }
    {
        self.work.actors.held()
    }

    /// What finds the truth of conditions.
    pub fn conds(&self) -> &C
        ensures { result.now ≡ self.now.actors.machine.conds }
    {
        self.work.actors.conds()
    }
}
