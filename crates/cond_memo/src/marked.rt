//! A mark for each `exists` and each comparison with a literal, and a pair for each comparison of two paths.
ghost use Rattle.std.specs.Prelude.{◌≡◌, ◌↔◌, ◌<◌, true, None, IfOk, option_map, vec_len, slice_index_or};
ghost use Rattle.gcx_model.specs.Core.{CondTree};
ghost use Rattle.gcx_model.specs.CondView.{core_cond_tree};
ghost use Rattle.gcx_base.specs.declared.steps.Step.{Step};
ghost use Rattle.gcx_model.specs.Tree.{Tree};
ghost use Rattle.gcx_model.specs.declared.cond.Operand.TheVariants as operand;
ghost use Rattle.cond_eval.specs.Asking.{MayAskOver, AnswersOver, IsLeaf};
ghost use Rattle.cond_eval.specs.Comparing.{comparison};
ghost use Rattle.cond_eval.specs.Literals.{IsLiteral};
ghost use Rattle.cond_memo.specs.Marks.{AsksLiteral, known as told, ask_of, IsAbout, AreMarks, MayFind};
ghost use Rattle.cond_memo.specs.Calls.{AddsMark, AnswersAsked};
ghost use Rattle.cond_memo.specs.Again.{AskedLast, LastIsAbout, TellsAgain};
ghost use Rattle.cond_memo.specs.PairCalls.{AddsPair, AnswersPaths, IsAboutPaths, MayAskVariables};
ghost use Rattle.cond_memo.specs.declared.mark.Mark.{Mark as KeptMark};
ghost use Rattle.cond_memo.specs.declared.pair.Pair.{Pair as KeptPair};

use crate::mark::{Ask, Mark, Room};
use crate::pair::Pair;
use buf_tree::{Buffer, Row};
use cond_eval::{Env, Leaves, compare_truth, flipped};
use gcx_base::{Memory, Rel, Step, Steps, VarId};
use gcx_model::{Cond, Operand, Truth};
use node_store::NodeStore;
use std::alloc::Global;

/// Finds the truth of an `exists` or a comparison by looking at the rows alone that are new since it was asked for the
/// same node, or for the same two.
#[derive(Drop, Debug)]
pub struct Marked {
    marks: Vec<Mark>,
    pairs: Vec<Pair>,
    room: Room,
    /// The number of the mark that answered last, where the condition was no more than its question.
    last: Option<usize>,
}

impl Marked {
    /// Nothing was asked.
    pub fn new(alloc: Global) -> Marked
        ensures { (P : Tree) → AreMarks result P }
    {
        Marked {
            marks: Vec::new(alloc),
            pairs: Vec::new(alloc),
            room: Room {
                flags: Vec::new(alloc),
                text: Vec::new(alloc),
            },
            last: None,
        }
    }

    /// No condition was asked last.
    #[inline(always)]
    pub fn forget_last(&mut self)
        ensures last { (c : CondTree) → AskedLast self.new c }
        ensures stays { (P : Tree) → AreMarks self.old P → AreMarks self.new P }
    {
        self.last = None;
    }

    /// The truth of the condition that was asked last, by the mark that answered it. None where no mark did.
    #[inline(always)]
    pub fn again<N: NodeStore<Row>>(
        &mut self,
        cond: &Cond,
        env: &Env,
        buffer: &Buffer<N>,
    ) -> Result<Option<Truth>, Memory>
        requires may { MayAskOver buffer.now (AreMarks self.old) env.now (core_cond_tree cond.now) }
        requires last { AskedLast self.old (core_cond_tree cond.now) }
        ensures { IfOk result (λ t. TellsAgain buffer.now self.old self.new env.now (core_cond_tree cond.now) t) }
    {
        match self.last {
            Some(index) => self.mark_again(index, cond, env, buffer),
            None => Ok(None),
        }
    }

    /// The truth of the condition that was asked last, by the mark of this number. None where there is none.
    #[inline(always)]
    fn mark_again<N: NodeStore<Row>>(
        &mut self,
        index: usize,
        cond: &Cond,
        env: &Env,
        buffer: &Buffer<N>,
    ) -> Result<Option<Truth>, Memory>
        requires index { self.old.last ≡ Some index }
        requires may { MayAskOver buffer.now (AreMarks self.old) env.now (core_cond_tree cond.now) }
        requires last { AskedLast self.old (core_cond_tree cond.now) }
        ensures { IfOk result (λ t. TellsAgain buffer.now self.old self.new env.now (core_cond_tree cond.now) t) }
    {
        if index >= self.marks.len() {
            return Ok(None);
        }
        let Some((node, of)) = env.get(self.marks[index].var) else {
            return Ok(None);
        };
        let known = self.marks[index].ask(buffer, node, of, &mut self.room)?;
        Ok(Some(truth_of_known(known)))
    }

    /// The number of the mark of this path and this question, which is made where there is none.
    #[inline(always)]
    fn mark_of(
        &mut self,
        alloc: Global,
        var: VarId,
        steps: &Steps,
        ask: Option<(Rel, &Operand)>,
    ) -> Result<usize, Memory>
        requires { AsksLiteral (option_map (λ q. ask_of q.0 q.1.now) ask) }
        ensures index { IfOk result (λ i. i < vec_len self.new.marks) }
        ensures mark { IfOk result (λ i. (m : KeptMark) × (m ≡ slice_index_or self.new.marks.items i m)
            × IsAbout m var steps.now (option_map (λ q. ask_of q.0 q.1.now) ask.entry)) }
        ensures stays { IfOk result (λ _. (P : Tree) → AreMarks self.old P → AreMarks self.new P) }
        ensures count { IfOk result (λ _. AddsMark self.old.marks.items self.new.marks.items var steps.now
            (option_map (λ q. ask_of q.0 q.1.now) ask.entry)) }
    {
        let mut index = 0;
        'marks: while index < self.marks.len() {
            if is_of(&self.marks[index], var, steps, ask) {
                return Ok(index);
            }
            index += 1;
        }
        let ask = own_ask(alloc, ask)?;
        let mark = Mark::new(alloc, var, steps, ask)?;
        self.marks.push(mark)?;
        Ok(index)
    }

    /// The truth of the question about the path.
    #[inline(always)]
    fn asked<N: NodeStore<Row>>(
        &mut self,
        alloc: Global,
        env: &Env,
        buffer: &Buffer<N>,
        var: VarId,
        steps: &Steps,
        ask: Option<(Rel, &Operand)>,
    ) -> Result<Truth, Memory>
        requires { MayFind self.old buffer.now.rows buffer.now.nodes env.now var.0 steps.now
            (option_map (λ q. ask_of q.0 q.1.now) ask) }
        ensures answers { IfOk result (λ t. AnswersAsked buffer.now self.old self.new env.now var.0 steps.now
            (option_map (λ q. ask_of q.0 q.1.now) ask.entry) t) }
        ensures last { IfOk result (λ _. LastIsAbout self.new var steps.now
            (option_map (λ q. ask_of q.0 q.1.now) ask.entry)) }
    {
        self.last = None;
        let Some((node, of)) = env.get(var) else {
            return Ok(Truth::Unknown);
        };
        let index = self.mark_of(alloc, var, steps, ask)?;
        self.last = Some(index);
        let known = self.marks[index].ask(buffer, node, of, &mut self.room)?;
        Ok(truth_of_known(known))
    }

    /// The truth of a comparison: of a path and a literal by a mark, of two paths by a pair.
    #[inline(always)]
    fn compared<N: NodeStore<Row>>(
        &mut self,
        alloc: Global,
        env: &Env,
        buffer: &Buffer<N>,
        left: &Operand,
        rel: Rel,
        right: &Operand,
    ) -> Result<Truth, Memory>
        requires { MayAskOver buffer.now (AreMarks self.old) env.now (comparison left.now rel right.now) }
        ensures answers { IfOk result (λ t. AnswersOver buffer.now (AreMarks self.old) (AreMarks self.new)
            env.now (comparison left.now rel right.now) t) }
        ensures last { IfOk result (λ _. AskedLast self.new (comparison left.now rel right.now)) }
    {
        match left {
            Operand::Path { var, steps } => {
                self.compared_path(alloc, env, buffer, *var, steps, rel, left, right)
            }
            _ => self.compared_literal(alloc, env, buffer, left, rel, right),
        }
    }

    /// The truth of a comparison with a path on the left.
    #[inline(always)]
    fn compared_path<N: NodeStore<Row>>(
        &mut self,
        alloc: Global,
        env: &Env,
        buffer: &Buffer<N>,
        var: VarId,
        steps: &Steps,
        rel: Rel,
        left: &Operand,
        right: &Operand,
    ) -> Result<Truth, Memory>
        requires path { left.now ≡ operand.Path var steps.now }
        requires may { MayAskOver buffer.now (AreMarks self.old) env.now (comparison left.now rel right.now) }
        ensures answers { IfOk result (λ t. AnswersOver buffer.now (AreMarks self.old) (AreMarks self.new)
            env.now (comparison left.now rel right.now) t) }
        ensures last { IfOk result (λ _. AskedLast self.new (comparison left.now rel right.now)) }
    {
        match right {
            Operand::Path {
                var: other,
                steps: others,
            } => self.paired(alloc, env, buffer, (var, steps), (rel, *other, others)),
            _ => self.asked(alloc, env, buffer, var, steps, Some((rel, right))),
        }
    }

    /// The truth of a comparison with a literal on the left.
    fn compared_literal<N: NodeStore<Row>>(
        &mut self,
        alloc: Global,
        env: &Env,
        buffer: &Buffer<N>,
        left: &Operand,
        rel: Rel,
        right: &Operand,
    ) -> Result<Truth, Memory>
        requires literal { IsLiteral left.now }
        requires may { MayAskOver buffer.now (AreMarks self.old) env.now (comparison left.now rel right.now) }
        ensures answers { IfOk result (λ t. AnswersOver buffer.now (AreMarks self.old) (AreMarks self.new)
            env.now (comparison left.now rel right.now) t) }
        ensures last { IfOk result (λ _. AskedLast self.new (comparison left.now rel right.now)) }
    {
        match right {
            Operand::Path { var, steps } => {
                self.asked(alloc, env, buffer, *var, steps, Some((flipped(rel), left)))
            }
            _ => {
                self.last = None;
                compare_truth(alloc, env, buffer, left, rel, right)
            }
        }
    }

    /// The number of the pair of these paths, which is made where there is none.
    fn pair_of(
        &mut self,
        alloc: Global,
        left: (VarId, &Steps),
        rel: Rel,
        right: (VarId, &Steps),
    ) -> Result<usize, Memory>
        ensures index { IfOk result (λ i. i < vec_len self.new.pairs) }
        ensures pair { IfOk result (λ i. (q : KeptPair) × (q ≡ slice_index_or self.new.pairs.items i q)
            × IsAboutPaths q left.entry.0 left.entry.1.now rel right.entry.0 right.entry.1.now) }
        ensures stays { IfOk result (λ _. (P : Tree) → AreMarks self.old P → AreMarks self.new P) }
        ensures last { self.new.last ≡ self.old.last }
        ensures count { IfOk result (λ _. AddsPair self.old.pairs.items self.new.pairs.items
            left.entry.0 left.entry.1.now rel right.entry.0 right.entry.1.now) }
    {
        let mut index = 0;
        'pairs: while index < self.pairs.len() {
            if is_pair_of(&self.pairs[index], left, rel, right) {
                return Ok(index);
            }
            index += 1;
        }
        let pair = Pair::new(alloc, left, rel, right)?;
        self.pairs.push(pair)?;
        Ok(index)
    }

    /// The truth of the comparison of these paths, the second of which comes with the relation.
    fn paired<N: NodeStore<Row>>(
        &mut self,
        alloc: Global,
        env: &Env,
        buffer: &Buffer<N>,
        left: (VarId, &Steps),
        right: (Rel, VarId, &Steps),
    ) -> Result<Truth, Memory>
        requires { MayAskVariables buffer.now self.old env.now left.0.0 right.1.0 left.1.now right.2.now }
        ensures answers { IfOk result (λ t. AnswersPaths buffer.now self.old self.new env.now
            left.entry.0.0 left.entry.1.now right.entry.0 right.entry.1.0 right.entry.2.now t) }
        ensures last { IfOk result (λ _. self.new.last ≡ None) }
    {
        let (rel, other, others) = right;
        self.last = None;
        let Some(one) = env.get(left.0) else {
            return Ok(Truth::Unknown);
        };
        let Some(two) = env.get(other) else {
            return Ok(Truth::Unknown);
        };
        let index = self.pair_of(alloc, left, rel, (other, others))?;
        let truth = self.pairs[index].ask(alloc, buffer, one, two, &mut self.room)?;
        Ok(truth)
    }
}

impl Leaves for Marked {
    ghost use Rattle.cond_memo.specs.Marks.{AreMarks};

    ghost holds_of = { AreMarks };

    fn leaf<N: NodeStore<Row>>(
        &mut self,
        alloc: Global,
        cond: &Cond,
        env: &Env,
        buffer: &Buffer<N>,
    ) -> Result<Truth, Memory>
        requires asked { MayAskOver buffer.now (AreMarks self.old) env.now (core_cond_tree cond.now) }
        requires leaf { IsLeaf (core_cond_tree cond.now) }
        ensures answers { IfOk result (λ t. AnswersOver buffer.now (AreMarks self.old) (AreMarks self.new)
            env.now (core_cond_tree cond.now) t) }
        ensures last { IfOk result (λ _. AskedLast self.new (core_cond_tree cond.now)) }
    {
        match cond {
            Cond::Exists { var, steps } => self.asked(alloc, env, buffer, *var, steps, None),
            Cond::Compare { left, rel, right } => self.compared(
                alloc, env, buffer, left, *rel, right,
            ),
            _ => Ok(Truth::Unknown),
        }
    }
}

/// The question with a literal of its own.
fn own_ask(alloc: Global, ask: Option<(Rel, &Operand)>) -> Result<Option<Ask>, Memory>
    ensures { IfOk result (λ a. a ≡ option_map (λ q. ask_of q.0 q.1.now) ask.entry) }
{
    match ask {
        Some((rel, literal)) => {
            let literal = literal.copy(alloc)?;
            Ok(Some(Ask { rel, literal }))
        }
        None => Ok(None),
    }
}

fn truth_of_known(known: Option<bool>) -> Truth
    ensures { result ≡ told known }
{
    match known {
        Some(true) => Truth::True,
        Some(false) => Truth::False,
        None => Truth::Unknown,
    }
}

/// Whether the mark is that of this path and this question.
#[inline(always)]
fn is_of(mark: &Mark, var: VarId, steps: &Steps, ask: Option<(Rel, &Operand)>) -> bool
    ensures is { result ≡ true → IsAbout mark.now var steps.now (option_map (λ q. ask_of q.0 q.1.now) ask.entry) }
    ensures all { AsksLiteral (option_map (λ q. ask_of q.0 q.1.now) ask.entry)
        → IsAbout mark.now var steps.now (option_map (λ q. ask_of q.0 q.1.now) ask.entry) → result ≡ true }
{
    mark.var == var && is_asked(&mark.ask, ask) && are_same(mark.steps.items(), steps.items())
}

#[inline(always)]
fn is_asked(kept: &Option<Ask>, ask: Option<(Rel, &Operand)>) -> bool
    ensures is { result ≡ true → kept.now ≡ option_map (λ q. ask_of q.0 q.1.now) ask.entry }
    ensures all { AsksLiteral (option_map (λ q. ask_of q.0 q.1.now) ask.entry)
        → kept.now ≡ option_map (λ q. ask_of q.0 q.1.now) ask.entry → result ≡ true }
{
    match (kept, ask) {
        (None, None) => true,
        (Some(kept), Some((rel, literal))) => kept.rel == rel && is_literal(&kept.literal, literal),
        _ => false,
    }
}

#[inline(always)]
fn is_literal(kept: &Operand, literal: &Operand) -> bool
    ensures is { result ≡ true → kept.now ≡ literal.now }
    ensures all { IsLiteral literal.now → kept.now ≡ literal.now → result ≡ true }
{
    match (kept, literal) {
        (Operand::Str(kept), Operand::Str(text)) => *kept == *text,
        (Operand::Num(kept), Operand::Num(units)) => kept == units,
        _ => false,
    }
}

/// Whether the pair is that of these paths.
fn is_pair_of(pair: &Pair, left: (VarId, &Steps), rel: Rel, right: (VarId, &Steps)) -> bool
    ensures is { result ≡ true → IsAboutPaths pair.now left.entry.0 left.entry.1.now rel right.entry.0 right.entry.1.now }
    ensures all { IsAboutPaths pair.now left.entry.0 left.entry.1.now rel right.entry.0 right.entry.1.now → result ≡ true }
{
    pair.var == left.0
        && pair.rel == rel
        && pair.other == right.0
        && are_same(pair.left.steps.items(), left.1.items())
        && are_same(pair.right.steps.items(), right.1.items())
}

// Step by step, which takes fewer instructions than the comparison of the two slices.
#[inline(always)]
fn are_same(kept: &[Step], steps: &[Step]) -> bool
    ensures { result ≡ true ↔ kept.now ≡ steps.now }
{
    if kept.len() != steps.len() {
        return false;
    }
    let mut i = 0;
    'steps: while i < steps.len() {
        if kept[i] != steps[i] {
            return false;
        }
        i += 1;
    }
    true
}
