//! Several plans over one reader.
ghost use Rattle.std.specs.Prelude.{◌≡◌, ◌+◌, ◌<◌, ◌≤◌, ◌^◌, ◌++◌, ℕ, Bool, true, false, [], List, length, slice_get, None, Some, IfOk, IfSome, OnOk, OnErr};
ghost use Rattle.std.specs.FinMap as map_of;
ghost use Rattle.gcx_base.specs.declared.limits.Limits.{Limits};
ghost use Rattle.gcx_model.specs.Tree.{opening};
ghost use Rattle.gcx_model.specs.declared.fault.DocFault.{DocFault};
ghost use Rattle.doc_reader.specs.Standing.{AllLieWithin, KeepsAnswer, answer_by, answer_of, waiting};
ghost use Rattle.engine.specs.Calls.{TakesLent};
ghost use Rattle.engine.specs.Engine.{OnAnswer, OnRefusal};
ghost use Rattle.engine.specs.Going.{lacking};
ghost use Rattle.run_part.specs.Late.{said_lent};
ghost use Rattle.many_run.specs.Calls.{ClearsOutput, JudgesDocEnd, JudgesDocPiece, TakesDocEnd, TakesDocPiece};
ghost use Rattle.many_run.specs.Each.{AtEach, OfEach};
ghost use Rattle.run_part.specs.Part.{IsOfCore};
ghost use Rattle.many_run.specs.Many.{ManyStand, ManyStandSome, ManyStart, MayFeedMany, NoneHeld};
ghost use Rattle.many_run.specs.Parts.{BeginsParts, BreaksEach, FedBy, FedSome, OfGiven, SomeTokensGiven};
ghost use Rattle.run_part.specs.Part.{MayTakeSome, PartTakes, PartTakesSome};

use buf_tree::Row;
use cond_eval::Conds;
use doc_reader::{Lent, LentReader};
use engine::{cut, is_left, lacking, refusal};
use gcx_base::{Limits, Memory};
use gcx_model::{DocFault, Plan};
use node_store::NodeStore;
use outside::{Nowhere, TakesTokens};
use run_part::{NoLines, Part};
use std::alloc::Global;
use std::marker::Model;

/// Runs plans over a document that comes in pieces and is read once.
#[derive(Drop)]
pub struct Many<'p, N: NodeStore<Row>, C: Conds> {
    reader: LentReader,
    /// One for each plan, in order.
    parts: Vec<Part<'p, N, C, NoLines>>,
    /// How many bytes were fed.
    bytes: u64,
    /// Whether `finish` was called.
    ended: bool,
    refused: Option<DocFault>,
}

impl<'p, N: NodeStore<Row>, C: Conds> Model for Many<'p, N, C> {
    ghost use Rattle.std.specs.Coded.{codes};
    ghost use Rattle.gcx_model.specs.contracts.item.Item as item;
    ghost use Rattle.gcx_model.specs.contracts.item.Off as off;
    ghost use Rattle.buf_tree.specs.contracts.row.Row as row;
    ghost use Rattle.buf_tree.specs.contracts.ahead.Ahead as ahead;
    ghost use Rattle.buf_tree.specs.View.{view_code};
    ghost use Rattle.projector.specs.contracts.projector.Projector as feeder;
    ghost use Rattle.cond_eval.specs.contracts.env.Env as env;
    ghost use Rattle.many_run.specs.View.{ManyView};

    ghost Value = { ManyView C };

    ghost coded = { Prim.hlevel (codes, feeder.the_row.coded, view_code row.the_row.coded off.the_row.coded ahead.the_row.coded, item.the_row.coded, env.the_row.coded, C.code) };

    ghost view = { λ m. record {
      reader = m.reader;
      parts = m.parts.items;
      bytes = m.bytes;
      refused = m.refused;
      ended = m.ended;
    } };
}

impl<'p, N: NodeStore<Row> + Drop, C: Conds + Drop> Many<'p, N, C> {
    /// The plans before any input, with every action taken that is possible. There are as many stores, which are empty,
    /// and as many conditions as plans.
    pub fn new(
        alloc: Global,
        plans: &'p [Plan],
        nodes: Vec<N>,
        conds: Vec<C>,
        limits: Limits,
    ) -> Result<Many<'p, N, C>, Memory>
        requires placed { OfEach IsOfCore plans.now }
        requires stores { length nodes.items ≡ length plans.now }
        requires truths { length conds.items ≡ length plans.now }
        requires empty { OfEach (λ n. N.rows n ≡ map_of.empty) nodes.items }
        requires conds { OfEach (λ c. C.stands c opening) conds.items }
        requires depth { limits.depth ≤ 1000 }
        requires bytes { limits.bytes ≤ 1099511627776 }
        ensures { IfOk result (λ m. ManyStart C.stands plans.now limits m) }
    {
        let parts = parts_of(alloc, plans, nodes, conds)?;
        let reader = LentReader::new(alloc, limits);
        Ok(Many {
            reader,
            parts,
            bytes: 0,
            ended: false,
            refused: None,
        })
    }
}

/// A part for each plan, with its store and its conditions.
fn parts_of<'p, N: NodeStore<Row> + Drop, C: Conds + Drop>(
    alloc: Global,
    plans: &'p [Plan],
    nodes: Vec<N>,
    conds: Vec<C>,
) -> Result<Vec<Part<'p, N, C, NoLines>>, Memory>
    requires placed { OfEach IsOfCore plans.now }
    requires stores { length nodes.items ≡ length plans.now }
    requires truths { length conds.items ≡ length plans.now }
    requires empty { OfEach (λ n. N.rows n ≡ map_of.empty) nodes.items }
    requires conds { OfEach (λ c. C.stands c opening) conds.items }
    ensures { IfOk result (λ parts. BeginsParts C.stands plans.now parts.items) }
{
    let mut parts = Vec::new(alloc);
    let mut stores = nodes.into_iter();
    let mut truths = conds.into_iter();
    'plans: for plan in plans {
        let Some(nodes) = stores.next() else {
            unreachable!();
        };
        let Some(conds) = truths.next() else {
            unreachable!();
        };
        parts.push(Part::new(alloc, plan, nodes, conds, 1, NoLines { place: 0 })?)?;
    }
    Ok(parts)
}

impl<'p, N: NodeStore<Row>, C: Conds> Many<'p, N, C> {
    /// Takes the next piece of the document, and for each plan every action that is possible behind its tags. A refusal
    /// comes again, and changes nothing more.
    pub fn feed(&mut self, alloc: Global, piece: &[u8]) -> Result<(), DocFault>
        requires { MayFeedMany C.stands self.old false }
        ensures fed { TakesDocPiece C.stands (OnAnswer result) self.old self.new piece.now }
        ensures exact { JudgesDocPiece C.stands self.old result piece.now }
        ensures answer { result ≡ answer_by self.new.refused }
        ensures again { (f : DocFault) → self.old.refused ≡ Some f → self.new ≡ self.old }
        ensures bytes { self.old.refused ≡ None → self.new.bytes ≡ self.old.bytes + length piece.now }
    {
        match self.refused {
            Some(fault) => Err(fault),
            None => {
                self.feed_piece(alloc, piece);
                self.answer()
            }
        }
    }

    /// Takes the next piece of the document, of which nothing is refused yet.
    fn feed_piece(&mut self, alloc: Global, piece: &[u8])
        requires stands { ManyStandSome C.stands self.old false }
        requires fresh { self.old.refused ≡ None }
        ensures fed { TakesDocPiece C.stands (OnRefusal self.new.refused) self.old self.new piece.now }
        ensures bytes { self.new.bytes ≡ self.old.bytes + length piece.now }
    {
        let mut rest = piece;
        'slices: while self.wants(rest) {
            let (slice, others) = cut(rest);
            self.feed_slice(alloc, slice);
            rest = others;
        }
        self.pass(rest);
    }

    /// Whether bytes are left, and none was refused.
    fn wants(&self, rest: &[u8]) -> bool
        ensures left { result ≡ true → (self.now.refused ≡ None) × (0 < length rest.now) }
        ensures over { result ≡ false → self.now.refused ≡ None → rest.now ≡ [] }
    {
        is_left(self.refused, rest)
    }

    /// Counts bytes that aren't read.
    fn pass(&mut self, rest: &[u8])
        requires few { self.old.bytes + length rest.now < 2 ^ 64 }
        ensures { self.new ≡ record self.old { bytes = self.old.bytes + length rest.now } }
    {
        self.bytes += rest.len() as u64;
    }

    /// Takes a slice of a piece.
    fn feed_slice(&mut self, alloc: Global, slice: &[u8])
        requires stands { ManyStandSome C.stands self.old false }
        requires fresh { self.old.refused ≡ None }
        ensures fed { TakesDocPiece C.stands (OnRefusal self.new.refused) self.old self.new slice.now }
        ensures bytes { self.new.bytes ≡ self.old.bytes + length slice.now }
    {
        let read = self.reader.feed(slice);
        self.bytes += slice.len() as u64;
        self.go_on(alloc, read);
    }

    /// Ends the document: Ok exactly where it is one, and then no node is held. A second call answers the same, and changes
    /// nothing.
    pub fn finish(&mut self, alloc: Global) -> Result<(), DocFault>
        requires { (ended : Bool) × MayFeedMany C.stands self.old ended }
        ensures ended { TakesDocEnd C.stands (OnAnswer result) self.old self.new }
        ensures exact { JudgesDocEnd C.stands self.old result }
        ensures empty { OnOk result (NoneHeld self.new) }
        ensures answer { result ≡ answer_by self.new.refused }
        ensures again { (f : DocFault) → self.old.refused ≡ Some f → self.new ≡ self.old }
        ensures once { (lim : Limits) (b : List ℕ) → ManyStand C.stands lim self.old b true → self.new ≡ self.old }
        ensures bytes { self.new.bytes ≡ self.old.bytes }
    {
        if self.ended {
            return self.answer();
        }
        match self.refused {
            Some(fault) => Err(fault),
            None => {
                self.end_input(alloc);
                self.answer()
            }
        }
    }

    /// Ends the document, of which nothing is refused yet.
    fn end_input(&mut self, alloc: Global)
        requires stands { (ended : Bool) × ManyStandSome C.stands self.old ended }
        requires fresh { self.old.refused ≡ None }
        ensures ended { TakesDocEnd C.stands (OnRefusal self.new.refused) self.old self.new }
        ensures empty { self.new.refused ≡ None → NoneHeld self.new }
        ensures bytes { self.new.bytes ≡ self.old.bytes }
    {
        let ended = self.reader.finish();
        self.ended = true;
        self.go_on(alloc, ended);
    }

    fn answer(&self) -> Result<(), DocFault>
        ensures { result ≡ answer_by self.now.refused }
    {
        match self.refused {
            Some(fault) => Err(fault),
            None => Ok(()),
        }
    }

    /// Feeds the tokens that wait to every plan. Keeps the reader's refusal, or want of memory.
    fn go_on(&mut self, alloc: Global, read: Result<(), DocFault>)
        requires read { read ≡ answer_of self.old.reader }
        requires parts { SomeTokensGiven C.stands self.old }
        ensures goes { OfGiven C.stands self.old (FedBy C.stands self.old self.new) }
        ensures keeps { KeepsAnswer self.old.reader self.new.reader }
        ensures bytes { self.new.bytes ≡ self.old.bytes }
        ensures closing { self.new.ended ≡ self.old.ended }
    {
        let fed = self.feed_waiting(alloc);
        self.refused = lacking(refusal(read), fed);
    }

    /// Feeds the tokens that wait to every plan, to one plan after the other. The end of the document is lent once no token
    /// of a tag is.
    fn feed_waiting(&mut self, alloc: Global) -> Result<(), Memory>
        requires { SomeTokensGiven C.stands self.old }
        ensures feeds { OnOk result (OfGiven C.stands self.old (FedSome C.stands self.old self.new)) }
        ensures none { OnOk result (waiting self.new.reader ≡ []) }
        ensures breaks { OnErr result (OfGiven C.stands self.old (BreaksEach self.old self.new)) }
        ensures keeps { KeepsAnswer self.old.reader self.new.reader }
        ensures rest { self.new ≡ record self.old { reader = self.new.reader; parts = self.new.parts } }
    {
        self.feed_lent(alloc)?;
        self.feed_lent(alloc)
    }

    /// Feeds those that are lent.
    fn feed_lent(&mut self, alloc: Global) -> Result<(), Memory>
        requires { SomeTokensGiven C.stands self.old }
        ensures feeds { OnOk result (OfGiven C.stands self.old (FedSome C.stands self.old self.new)) }
        ensures takes { OnOk result (TakesLent self.old.reader self.new.reader) }
        ensures breaks { OnErr result (OfGiven C.stands self.old (BreaksEach self.old self.new)) }
        ensures keeps { KeepsAnswer self.old.reader self.new.reader }
        ensures rest { self.new ≡ record self.old { reader = self.new.reader; parts = self.new.parts } }
    {
        let (tokens, bytes) = self.reader.lent();
        let count = tokens.len();
        feed_parts(alloc, &mut self.parts, tokens, bytes)?;
        self.reader.take_lent(count);
        Ok(())
    }

    /// The output of the plan of this number that isn't written yet. Takes no memory.
    pub fn output(&self, query: usize) -> &[u8]
        requires { query < length self.now.parts }
        ensures { IfSome (slice_get self.now.parts query) (λ p. result.now ≡ p.out) }
    {
        self.parts[query].output()
    }

    /// That output is written. Takes no memory.
    pub fn clear_output(&mut self, query: usize)
        requires { query < length self.old.parts }
        ensures { ClearsOutput query self.old self.new }
    {
        self.parts[query].clear_output();
    }

    /// How many nodes the buffer of the plan of this number holds, which tests ask. Takes no memory.
    pub fn held(&self, query: usize) -> u64
        requires { query < length self.now.parts }
        ensures { IfSome (slice_get self.now.parts query) (λ p. result ≡ length p.actors.buffer.rows) }
    {
        self.parts[query].held()
    }

    /// How many bytes were fed. Takes no memory.
    pub(crate) fn bytes(&self) -> u64
        ensures { result ≡ self.now.bytes }
    {
        self.bytes
    }
}

/// Feeds the tokens, whose names and texts lie in the bytes, to every plan, to one plan after the other.
fn feed_parts<N: NodeStore<Row>, C: Conds>(
    alloc: Global,
    parts: &mut Vec<Part<'_, N, C, NoLines>>,
    tokens: &[Lent],
    bytes: &[u8],
) -> Result<(), Memory>
    requires within { AllLieWithin 0 (length bytes.now) bytes.now tokens.now }
    requires may { OfEach (λ p. MayTakeSome C.stands p (said_lent bytes.now tokens.now)) parts.old.items }
    ensures feeds { OnOk result
        (AtEach (λ p q. PartTakes C.stands p q (said_lent bytes.now tokens.now)) parts.old.items parts.new.items) }
    ensures breaks { OnErr result
        (AtEach (λ p q. PartTakesSome C.stands p q (said_lent bytes.now tokens.now)) parts.old.items parts.new.items) }
{
    let mut to = Nowhere::new(alloc);
    let mut index = 0;
    'parts: while index < parts.len() {
        parts[index].take(alloc, tokens, bytes, &mut to)?;
        index += 1;
    }
    Ok(())
}
