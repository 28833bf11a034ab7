//! The engine.
ghost use Rattle.std.specs.Prelude.{◌≡◌, ◌≤◌, ◌<◌, ◌+◌, ◌^◌, ◌++◌, ℕ, Bool, true, false, [], List, length, None, Some, Err, IfOk, OnOk, OnErr};
ghost use Rattle.std.specs.FinMap as map;
ghost use Rattle.gcx_base.specs.declared.limits.Limits.{Limits};
ghost use Rattle.gcx_model.specs.Core.{BodyTree};
ghost use Rattle.gcx_model.specs.Cores.{Good};
ghost use Rattle.gcx_model.specs.Placed.{Placed};
ghost use Rattle.gcx_model.specs.PlanView.{plan_tree};
ghost use Rattle.gcx_model.specs.Tree.{opening};
ghost use Rattle.gcx_model.specs.declared.fault.DocFault.{DocFault};
ghost use Rattle.doc_reader.specs.Standing.{KeepsAnswer, answer_by, answer_of, waiting};
ghost use Rattle.buf_tree.specs.Shape.{Shape, cells};
ghost use Rattle.buf_tree.specs.Spread.{SameButRoles};
ghost use Rattle.engine.specs.Engine.{IsSilent, MayGoOn, MostIs, OnAnswer, OnRefusal, Starts, StandsOf, StandsSome};
ghost use Rattle.engine.specs.Going.{SomeParts};
ghost use Rattle.engine.specs.Calls.{AnswersEnd, AnswersPiece, BreaksFrom, FeedsFrom, TakesLent, GoesAlone, FeedsAllFrom, IsEmptied, SameRun, FeedsEnd, FeedsPiece, TellsEnd, TellsPiece, TellsTokens, TellsWaiting, TellsWithin};

use crate::any_part::AnyPart;
use crate::slices::{cut, is_left, lacking, refusal};
use buf_tree::Row;
use cond_eval::Conds;
use doc_reader::LentReader;
use gcx_base::{Limits, Memory};
use gcx_model::{DocFault, Plan};
use node_store::NodeStore;
use run_part::Tallied;
use std::alloc::Global;
use std::marker::Model;

/// The numbers of a run: the bytes fed, what was counted of rows and of roles given, and the roles taken back from nodes.
#[derive(Clone, Copy, Debug, PartialEq, Eq)]
pub struct Counts {
    pub bytes: u64,
    pub tallied: Tallied,
    pub taken: u128,
}

/// Runs a plan over a document that comes in pieces.
#[derive(Drop)]
pub struct Engine<'p, N: NodeStore<Row>, C: Conds> {
    reader: LentReader,
    part: AnyPart<'p, N, C>,
    /// Whether `finish` was called.
    ended: bool,
    /// How many bytes were fed.
    bytes: u64,
    refused: Option<DocFault>,
}

impl<'p, N: NodeStore<Row>, C: Conds> Model for Engine<'p, N, C> {
    ghost use Rattle.std.specs.Coded.{codes};
    ghost use Rattle.gcx_model.specs.contracts.item.Item as item;
    ghost use Rattle.gcx_model.specs.contracts.item.Off as off;
    ghost use Rattle.buf_tree.specs.contracts.row.Row as row;
    ghost use Rattle.buf_tree.specs.contracts.ahead.Ahead as waits;
    ghost use Rattle.buf_tree.specs.View.{view_code};
    ghost use Rattle.projector.specs.contracts.projector.Projector as feeder;
    ghost use Rattle.cond_eval.specs.contracts.env.Env as env;
    ghost use Rattle.engine.specs.View.{EngineView, over_part, seen_part};

    ghost Value = { EngineView C };

    ghost coded = { Prim.hlevel (codes, feeder.the_row.coded, view_code row.the_row.coded off.the_row.coded waits.the_row.coded, item.the_row.coded, env.the_row.coded, C.code) };

    ghost view = { λ e. over_part (seen_part e.part) e.reader e.bytes e.refused e.ended };
}

impl<'p, N: NodeStore<Row> + Drop, C: Conds + Drop> Engine<'p, N, C> {
    /// An engine before any input, with every action taken that is possible. The store is empty. `ahead` is 1 to 1,000. With
    /// `tracing` one token is taken at a time whatever `ahead` is, so the trace is that of the run.
    pub fn new(
        alloc: Global,
        plan: &'p Plan,
        nodes: N,
        conds: C,
        limits: Limits,
        ahead: u32,
        tracing: bool,
    ) -> Result<Engine<'p, N, C>, Memory>
        requires placed { (core : BodyTree) × Good core × Placed core (plan_tree plan.now) }
        requires empty { N.rows nodes ≡ map.empty }
        requires conds { C.stands conds opening }
        requires depth { limits.depth ≤ 1000 }
        requires bytes { limits.bytes ≤ 1099511627776 }
        requires ahead { (1 ≤ ahead) × (ahead ≤ 1000) }
        ensures starts { IfOk result (λ e. Starts C.stands limits e) }
        ensures most { IfOk result (λ e. MostIs (N.most_held nodes) e) }
        ensures plan { IfOk result (λ e. e.plan ≡ plan.now) }
        ensures ahead { IfOk result (λ e. e.ahead ≡ ahead) }
        ensures tracing { IfOk result (λ e. e.tracing ≡ tracing) }
        ensures silent { IfOk result (λ e. tracing ≡ false → IsSilent e) }
        ensures loans { IfOk result (λ e. e.actors.buffer.loans ≡ N.loans nodes) }
    {
        let part = AnyPart::new(alloc, plan, nodes, conds, ahead, tracing)?;
        let reader = LentReader::new(alloc, limits);
        Ok(Engine {
            reader,
            part,
            ended: false,
            bytes: 0,
            refused: None,
        })
    }

    /// The store, with the rows as they are kept.
    pub fn finish_nodes(self) -> N
        ensures rows { cells (N.rows result) ≡ self.entry.actors.buffer.kept }
        ensures shape { Shape (N.rows result) self.entry.actors.buffer.kept }
        ensures alike { SameButRoles self.entry.actors.buffer.kept self.entry.actors.buffer.rows }
        ensures most { N.most_held result ≡ self.entry.actors.buffer.most }
        ensures loans { N.loans result ≡ self.entry.actors.buffer.loans }
    {
        let Engine {
            reader: _,
            part,
            ended: _,
            bytes: _,
            refused: _,
        } = self;
        match part {
            AnyPart::WithoutLines(part) => part.into_nodes(),
            AnyPart::WithLines(part) => part.into_nodes(),
        }
    }
}

impl<'p, N: NodeStore<Row>, C: Conds> Engine<'p, N, C> {
    /// Takes the next piece of the document, and every action that is possible behind its tags. A refusal comes again, and
    /// changes nothing more.
    pub fn feed(&mut self, alloc: Global, piece: &[u8]) -> Result<(), DocFault>
        requires { MayGoOn C.stands self.old false }
        ensures fed { FeedsPiece C.stands (OnAnswer result) self.old self.new piece.now }
        ensures exact { AnswersPiece C.stands self.old result piece.now }
        ensures traced { TellsPiece C.stands (OnAnswer result) self.old self.new piece.now }
        ensures answer { result ≡ answer_by self.new.refused }
        ensures again { (f : DocFault) → self.old.refused ≡ Some f → self.new ≡ self.old }
        ensures bytes { self.old.refused ≡ None → self.new.bytes ≡ self.old.bytes + length piece.now }
        ensures same { SameRun self.old self.new }
    {
        match self.refused {
            Some(fault) => Err(fault),
            None => {
                self.feed_piece(alloc, piece);
                self.answer()
            }
        }
    }

    /// Takes the next piece of the document, of which nothing is refused yet.
    fn feed_piece(&mut self, alloc: Global, piece: &[u8])
        requires stands { StandsSome C.stands self.old false }
        requires fresh { self.old.refused ≡ None }
        ensures fed { FeedsPiece C.stands (OnRefusal self.new.refused) self.old self.new piece.now }
        ensures traced { TellsPiece C.stands (OnRefusal self.new.refused) self.old self.new piece.now }
        ensures bytes { self.new.bytes ≡ self.old.bytes + length piece.now }
        ensures same { SameRun self.old self.new }
    {
        let mut rest = piece;
        'slices: while self.wants(rest) {
            let (slice, others) = cut(rest);
            self.feed_slice(alloc, slice);
            rest = others;
        }
        self.pass(rest);
    }

    /// Whether bytes are left, and none was refused.
    fn wants(&self, rest: &[u8]) -> bool
        ensures left { result ≡ true → (self.now.refused ≡ None) × (0 < length rest.now) }
        ensures over { result ≡ false → self.now.refused ≡ None → rest.now ≡ [] }
    {
        is_left(self.refused, rest)
    }

    /// Counts bytes that aren't read.
    fn pass(&mut self, rest: &[u8])
        requires few { self.old.bytes + length rest.now < 2 ^ 64 }
        ensures { self.new ≡ record self.old { bytes = self.old.bytes + length rest.now } }
    {
        self.bytes += rest.len() as u64;
    }

    /// Ends the document: Ok exactly where it is one, and then the buffer is empty. A second call answers the same, and
    /// changes nothing.
    pub fn finish(&mut self, alloc: Global) -> Result<(), DocFault>
        requires { (ended : Bool) × MayGoOn C.stands self.old ended }
        ensures ended { FeedsEnd C.stands (OnAnswer result) self.old self.new }
        ensures exact { AnswersEnd C.stands self.old result }
        ensures traced { TellsEnd C.stands (OnAnswer result) self.old self.new }
        ensures empty { OnOk result (IsEmptied self.new) }
        ensures answer { result ≡ answer_by self.new.refused }
        ensures again { (f : DocFault) → self.old.refused ≡ Some f → self.new ≡ self.old }
        ensures once { (lim : Limits) (b : List ℕ) → StandsOf C.stands lim self.old b true → self.new ≡ self.old }
        ensures bytes { self.new.bytes ≡ self.old.bytes }
        ensures same { SameRun self.old self.new }
    {
        if self.ended {
            return self.answer();
        }
        match self.refused {
            Some(fault) => Err(fault),
            None => {
                self.end_input(alloc);
                self.answer()
            }
        }
    }

    /// Ends the document, of which nothing is refused yet.
    fn end_input(&mut self, alloc: Global)
        requires stands { (ended : Bool) × StandsSome C.stands self.old ended }
        requires fresh { self.old.refused ≡ None }
        ensures ended { FeedsEnd C.stands (OnRefusal self.new.refused) self.old self.new }
        ensures traced { TellsEnd C.stands (OnRefusal self.new.refused) self.old self.new }
        ensures empty { self.new.refused ≡ None → IsEmptied self.new }
        ensures bytes { self.new.bytes ≡ self.old.bytes }
        ensures same { SameRun self.old self.new }
    {
        let ended = self.reader.finish();
        self.ended = true;
        self.go_on(alloc, ended);
    }

    fn answer(&self) -> Result<(), DocFault>
        ensures { result ≡ answer_by self.now.refused }
    {
        match self.refused {
            Some(fault) => Err(fault),
            None => Ok(()),
        }
    }

    /// Takes a slice of a piece.
    fn feed_slice(&mut self, alloc: Global, slice: &[u8])
        requires stands { StandsSome C.stands self.old false }
        requires fresh { self.old.refused ≡ None }
        ensures fed { FeedsPiece C.stands (OnRefusal self.new.refused) self.old self.new slice.now }
        ensures traced { TellsPiece C.stands (OnRefusal self.new.refused) self.old self.new slice.now }
        ensures bytes { self.new.bytes ≡ self.old.bytes + length slice.now }
        ensures same { SameRun self.old self.new }
    {
        let read = self.reader.feed(slice);
        self.bytes += slice.len() as u64;
        self.go_on(alloc, read);
    }

    /// Feeds the tokens that wait. Keeps the reader's refusal, or want of memory.
    fn go_on(&mut self, alloc: Global, read: Result<(), DocFault>)
        requires fresh { self.old.refused ≡ None }
        requires read { read ≡ answer_of self.old.reader }
        requires parts { SomeParts C.stands self.old }
        ensures goes { FeedsAllFrom C.stands self.old self.new }
        ensures told { TellsWaiting C.stands (OnRefusal self.new.refused) self.old self.new }
        ensures keeps { KeepsAnswer self.old.reader self.new.reader }
        ensures bytes { self.new.bytes ≡ self.old.bytes }
        ensures closing { self.new.ended ≡ self.old.ended }
        ensures same { SameRun self.old self.new }
    {
        self.refused = refusal(read);
        let fed = self.feed_waiting(alloc);
        self.refused = lacking(self.refused, fed);
    }

    /// Feeds the tokens that wait, and takes every action that is possible behind them. The end of the document is lent once
    /// no token of a tag is.
    fn feed_waiting(&mut self, alloc: Global) -> Result<(), Memory>
        requires { SomeParts C.stands self.old }
        ensures feeds { OnOk result (FeedsFrom C.stands self.old self.new) }
        ensures none { OnOk result (waiting self.new.reader ≡ []) }
        ensures breaks { OnErr result (BreaksFrom C.stands self.old self.new) }
        ensures told { OnOk result (TellsTokens C.stands self.old self.new) }
        ensures part { OnErr result (TellsWithin C.stands self.old self.new) }
        ensures same { GoesAlone self.old self.new }
    {
        self.feed_lent(alloc)?;
        self.feed_lent(alloc)
    }

    /// Feeds those that are lent.
    fn feed_lent(&mut self, alloc: Global) -> Result<(), Memory>
        requires { SomeParts C.stands self.old }
        ensures feeds { OnOk result (FeedsFrom C.stands self.old self.new) }
        ensures takes { OnOk result (TakesLent self.old.reader self.new.reader) }
        ensures breaks { OnErr result (BreaksFrom C.stands self.old self.new) }
        ensures told { OnOk result (TellsTokens C.stands self.old self.new) }
        ensures part { OnErr result (TellsWithin C.stands self.old self.new) }
        ensures same { GoesAlone self.old self.new }
    {
        let (tokens, bytes) = self.reader.lent();
        let count = tokens.len();
        self.part.take(alloc, tokens, bytes)?;
        self.reader.take_lent(count);
        Ok(())
    }

    /// The output that isn't written yet.
    pub fn output(&self) -> &[u8]
        ensures { result.now ≡ self.now.out }
    {
        self.part.output()
    }

    /// The trace that isn't written yet.
    pub fn trace(&self) -> &[u8]
        ensures { result.now ≡ self.now.trace }
    {
        self.part.trace()
    }

    /// The output is written.
    pub fn clear_output(&mut self)
        ensures rest { self.new ≡ record self.old { out = self.new.out } }
        ensures empty { self.new.out ≡ [] }
    {
        self.part.clear_output();
    }

    /// The trace is written.
    pub fn clear_trace(&mut self)
        ensures rest { self.new ≡ record self.old { trace = self.new.trace } }
        ensures empty { self.new.trace ≡ [] }
    {
        self.part.clear_trace();
    }

    /// The numbers so far.
    pub fn counts(&self) -> Counts
        ensures bytes { result.bytes ≡ self.now.bytes }
        ensures tallied { result.tallied ≡ self.now.actors.counts }
        ensures taken { result.taken ≡ self.now.actors.buffer.taken }
    {
        Counts {
            bytes: self.bytes,
            tallied: self.part.counts(),
            taken: self.part.taken(),
        }
    }

    /// The plan.
    pub(crate) fn plan(&self) -> &Plan
        ensures { result.now ≡ self.now.plan }
    {
        self.part.plan()
    }

    /// How many nodes there were.
    pub(crate) fn nodes(&self) -> u64
        ensures { result ≡ self.now.actors.buffer.nodes }
    {
        self.part.nodes()
    }

    /// How many nodes have rows.
    pub(crate) fn held(&self) -> u64
        ensures { result ≡ length self.now.actors.buffer.rows }
    {
        self.part.held()
    }

    /// What finds the truth of conditions.
    pub fn conds(&self) -> &C
        ensures { result.now ≡ self.now.actors.machine.conds }
    {
        self.part.conds()
    }
}
