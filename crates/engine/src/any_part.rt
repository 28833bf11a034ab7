//! The part of an engine: with lines, or without.
ghost use Rattle.std.specs.Prelude.{◌≡◌, ◌≤◌, [], true, false, length, max, IfOk, OnOk, OnErr};
ghost use Rattle.std.specs.FinMap as map;
ghost use Rattle.gcx_model.specs.Demand.{text_of_lines, trace_lines};
ghost use Rattle.gcx_model.specs.PlanView.{plan_tree};
ghost use Rattle.gcx_model.specs.Tree.{opening};
ghost use Rattle.doc_reader.specs.Standing.{AllLieWithin};
ghost use Rattle.run_part.specs.Actors.{all_of, bytes_at};
ghost use Rattle.run_part.specs.Late.{said_lent};
ghost use Rattle.run_part.specs.Part.{IsOfCore, KeepsPart, MayTakeSome, PartStands, PartTakesSome, PartTakes};
ghost use Rattle.engine.specs.View.{seen_part};

use buf_tree::Row;
use cond_eval::Conds;
use doc_reader::Lent;
use gcx_base::Memory;
use gcx_model::Plan;
use node_store::NodeStore;
use outside::{Nowhere, TakesTokens};
use run_part::{NoLines, Part, Tallied, TraceLines};
use std::alloc::Global;

/// A part without lines, or with them. Which it is, is asked once a call, and never once a token.
#[derive(Drop)]
pub(crate) enum AnyPart<'p, N: NodeStore<Row>, C: Conds> {
    WithoutLines(Part<'p, N, C, NoLines>),
    WithLines(Part<'p, N, C, TraceLines>),
}

impl<'p, N: NodeStore<Row> + Drop, C: Conds + Drop> AnyPart<'p, N, C> {
    /// A part before any token, with every action taken that is possible, and with lines where they are wanted. The store is
    /// empty.
    pub fn new(
        alloc: Global,
        plan: &'p Plan,
        nodes: N,
        conds: C,
        ahead: u32,
        tracing: bool,
    ) -> Result<AnyPart<'p, N, C>, Memory>
        requires placed { IsOfCore plan.now }
        requires empty { N.rows nodes ≡ map.empty }
        requires conds { C.stands conds opening }
        requires ahead { 1 ≤ ahead }
        ensures stands { IfOk result (λ p. PartStands C.stands ahead [] (seen_part p)) }
        ensures written { IfOk result (λ p. (seen_part p).out
            ≡ bytes_at (plan_tree plan.now) opening (all_of (plan_tree plan.now) opening)) }
        ensures traced { IfOk result (λ p. tracing ≡ true → (seen_part p).trace
            ≡ text_of_lines (trace_lines (plan_tree plan.now) [])) }
        ensures silent { IfOk result (λ p. tracing ≡ false → (seen_part p).trace ≡ []) }
        ensures plan { IfOk result (λ p. ((seen_part p).plan ≡ plan.now) × ((seen_part p).tracing ≡ tracing)) }
        ensures most { IfOk result (λ p. (seen_part p).actors.buffer.most
            ≡ max (N.most_held nodes) (seen_part p).actors.counts.peak) }
        ensures loans { IfOk result (λ p. (seen_part p).actors.buffer.loans ≡ N.loans nodes) }
    {
        if tracing {
            let lines = TraceLines::new(alloc);
            let told = Part::new(alloc, plan, nodes, conds, ahead, lines)?;
            return Ok(AnyPart::WithLines(told));
        }
        let silent = Part::new(alloc, plan, nodes, conds, ahead, NoLines { place: 0 })?;
        Ok(AnyPart::WithoutLines(silent))
    }
}

impl<'p, N: NodeStore<Row>, C: Conds> AnyPart<'p, N, C> {
    /// Takes these tokens, whose names and texts lie in the bytes, and every action that is possible behind them.
    pub fn take(&mut self, alloc: Global, tokens: &[Lent], bytes: &[u8]) -> Result<(), Memory>
        requires within { AllLieWithin 0 (length bytes.now) bytes.now tokens.now }
        requires may { MayTakeSome C.stands (seen_part self.old) (said_lent bytes.now tokens.now) }
        ensures takes { OnOk result
            (PartTakes C.stands (seen_part self.old) (seen_part self.new) (said_lent bytes.now tokens.now)) }
        ensures part { OnErr result
            (PartTakesSome C.stands (seen_part self.old) (seen_part self.new) (said_lent bytes.now tokens.now)) }
        ensures same { KeepsPart (seen_part self.old) (seen_part self.new) }
    {
        let mut to = Nowhere::new(alloc);
        match self {
            AnyPart::WithoutLines(part) => part.take(alloc, tokens, bytes, &mut to),
            AnyPart::WithLines(part) => part.take(alloc, tokens, bytes, &mut to),
        }
    }

    /// The output that isn't written yet.
    pub fn output(&self) -> &[u8]
        ensures { result.now ≡ (seen_part self.now).out }
    {
        match self {
            AnyPart::WithoutLines(part) => part.output(),
            AnyPart::WithLines(part) => part.output(),
        }
    }

    /// The trace that isn't written yet.
    pub fn trace(&self) -> &[u8]
        ensures { result.now ≡ (seen_part self.now).trace }
    {
        match self {
            AnyPart::WithoutLines(part) => part.trace(),
            AnyPart::WithLines(part) => part.trace(),
        }
    }

    /// The output is written.
    pub fn clear_output(&mut self)
        ensures { seen_part self.new ≡ record (seen_part self.old) { out = [] } }
    {
        match self {
            AnyPart::WithoutLines(part) => part.clear_output(),
            AnyPart::WithLines(part) => part.clear_output(),
        }
    }

    /// The trace is written.
    pub fn clear_trace(&mut self)
        ensures { seen_part self.new ≡ record (seen_part self.old) { trace = [] } }
    {
        match self {
            AnyPart::WithoutLines(part) => part.clear_trace(),
            AnyPart::WithLines(part) => part.clear_trace(),
        }
    }

    /// The plan.
    pub fn plan(&self) -> &Plan
        ensures { result.now ≡ (seen_part self.now).plan }
    {
        match self {
            AnyPart::WithoutLines(part) => part.plan(),
            AnyPart::WithLines(part) => part.plan(),
        }
    }

    /// What was counted: rows, and roles given.
    pub fn counts(&self) -> Tallied
        ensures { result ≡ (seen_part self.now).actors.counts }
    {
        match self {
            AnyPart::WithoutLines(part) => part.counts(),
            AnyPart::WithLines(part) => part.counts(),
        }
    }

    /// How many roles were taken back from nodes.
    pub fn taken(&self) -> u128
        ensures { result ≡ (seen_part self.now).actors.buffer.taken }
    {
        match self {
            AnyPart::WithoutLines(part) => part.taken(),
            AnyPart::WithLines(part) => part.taken(),
        }
    }

    /// How many nodes there were.
    pub fn nodes(&self) -> u64
        ensures { result ≡ (seen_part self.now).actors.buffer.nodes }
    {
        match self {
            AnyPart::WithoutLines(part) => part.nodes(),
            AnyPart::WithLines(part) => part.nodes(),
        }
    }

    /// How many nodes have rows.
    pub fn held(&self) -> u64
        ensures { result ≡ length (seen_part self.now).actors.buffer.rows }
    {
        match self {
            AnyPart::WithoutLines(part) => part.held(),
            AnyPart::WithLines(part) => part.held(),
        }
    }

    /// What finds the truth of conditions.
    pub fn conds(&self) -> &C
        ensures { result.now ≡ (seen_part self.now).actors.machine.conds }
    {
        match self {
            AnyPart::WithoutLines(part) => part.conds(),
            AnyPart::WithLines(part) => part.conds(),
        }
    }
}
