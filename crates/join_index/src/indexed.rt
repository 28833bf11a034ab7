//! Conditions with an index for equalities.
ghost use Rattle.std.specs.Prelude.{◌≡◌, ◌↔◌, IfOk, cond};
ghost use Rattle.gcx_model.specs.Core.{OperandTree};
ghost use Rattle.gcx_model.specs.CondView.{core_cond_tree};
ghost use Rattle.gcx_model.specs.PlanView.{plan_tree};
ghost use Rattle.gcx_model.specs.Tree.{Tree};
ghost use Rattle.cond_eval.specs.Asking.{AnswersOver, IsLeaf, MayAskOver};
ghost use Rattle.cond_eval.specs.Comparing.{comparison};
ghost use Rattle.cond_memo.specs.Again.{AskedLast};
ghost use Rattle.join_index.specs.Equalities.{VariablesDiffer, BodyHas, HasEquality};
ghost use Rattle.join_index.specs.Index.{GoesAfterQuestion, IsIndex, IsReached, KeepsLists, TellsTruthOf, raised};
ghost use Rattle.join_index.specs.Lookups.{LooksUp, MarksTell};

use crate::comparisons::{gets_no_list, put_body};
use crate::equality::{Equality, Room, find};
use buf_tree::{Buffer, Row};
use cond_eval::{Conds, Env, Leaves, Truth, negate, settle};
use cond_memo::Marked;
use gcx_base::{Memory, Rel};
use gcx_model::{Cond, Operand, Plan};
use node_store::NodeStore;
use std::alloc::Global;
use std::marker::Model;

/// Finds the truth of an equality of the plan, of two paths with different variables, by a look-up of each value of the
/// inner one among those of the outer one, once the outer node is closed; and that of each other condition as `Marked`
/// does. Each equality has the list that was made last for it.
#[derive(Drop, Debug)]
pub struct Indexed {
    marked: Marked,
    equalities: Vec<Equality>,
    room: Room,
    /// How many lists were made. It stands still at its end.
    built: u64,
}

impl Model for Indexed {
    ghost use Rattle.join_index.specs.Index.{IndexView};

    ghost Value = { IndexView };

    ghost view = { λ k. record {
      marked = k.marked;
      equalities = k.equalities.items;
      built = k.built;
    } };
}

impl Indexed {
    /// An index for the plan. Nothing was asked.
    pub fn new(alloc: Global, plan: &Plan) -> Result<Indexed, Memory>
        ensures fresh { IfOk result (λ k. (P : Tree) → IsIndex k P) }
        ensures all { IfOk result (λ k. (l r : OperandTree) → HasEquality k.equalities l r
            ↔ (BodyHas l r (plan_tree plan.now).body × VariablesDiffer l r)) }
        ensures built { IfOk result (λ k. k.built ≡ 0) }
    {
        let mut equalities = Vec::new(alloc);
        put_body(alloc, &mut equalities, &plan.body)?;
        Ok(Indexed {
            marked: Marked::new(alloc),
            equalities,
            room: Room {
                flags: Vec::new(alloc),
                text: Vec::new(alloc),
            },
            built: 0,
        })
    }

    /// How many lists were made. It stands still at 2^64 - 1.
    pub fn built(&self) -> u64
        ensures { result ≡ self.now.built }
    {
        self.built
    }

    /// The truth of an equality of the plan whose outer node is closed. None of another comparison, for which nothing is
    /// done.
    fn looked_up<N: NodeStore<Row>>(
        &mut self,
        alloc: Global,
        env: &Env,
        buffer: &Buffer<N>,
        left: &Operand,
        rel: Rel,
        right: &Operand,
    ) -> Result<Option<Truth>, Memory>
        requires { MayAskOver buffer.now (IsIndex self.old) env.now (comparison left.now rel right.now) }
        ensures { IfOk result (λ t. LooksUp buffer.now env.now left.now rel right.now self.old self.new t) }
    {
        if rel != Rel::Eq {
            return Ok(None);
        }
        let Some(index) = find(&self.equalities, left, right) else {
            return Ok(None);
        };
        let Some((outer, of)) = env.get(self.equalities[index].outer().var) else {
            return Ok(None);
        };
        let Some((inner, inner_of)) = env.get(self.equalities[index].inner().var) else {
            return Ok(None);
        };
        if !buffer.is_closed(outer) {
            return Ok(None);
        }
        let made = self.equalities[index].keep_list(alloc, buffer, outer, of)?;
        self.built = risen(self.built, made);
        let found = self.equalities[index].finds(buffer, inner, inner_of, &mut self.room)?;
        Ok(Some(settle(found, buffer.is_closed(inner))))
    }

    /// The truth of a comparison.
    fn compared<N: NodeStore<Row>>(
        &mut self,
        alloc: Global,
        cond: &Cond,
        env: &Env,
        buffer: &Buffer<N>,
        left: &Operand,
        rel: Rel,
        right: &Operand,
    ) -> Result<Truth, Memory>
        requires cond { core_cond_tree cond.now ≡ comparison left.now rel right.now }
        requires may { MayAskOver buffer.now (IsIndex self.old) env.now (core_cond_tree cond.now) }
        ensures tells { IfOk result (λ t. TellsTruthOf buffer.now env.now (core_cond_tree cond.now) self.old self.new t) }
        ensures last { IfOk result (λ _. AskedLast self.new.marked (core_cond_tree cond.now)) }
    {
        match self.looked_up(alloc, env, buffer, left, rel, right)? {
            Some(truth) => {
                self.marked.forget_last();
                Ok(truth)
            }
            None => self.by_marks(alloc, cond, env, buffer),
        }
    }

    /// The truth of a condition without parts, as marks tell it. The lists stay.
    fn by_marks<N: NodeStore<Row>>(
        &mut self,
        alloc: Global,
        cond: &Cond,
        env: &Env,
        buffer: &Buffer<N>,
    ) -> Result<Truth, Memory>
        requires may { MayAskOver buffer.now (IsIndex self.old) env.now (core_cond_tree cond.now) }
        requires leaf { IsLeaf (core_cond_tree cond.now) }
        ensures tells { IfOk result (λ t. MarksTell buffer.now env.now (core_cond_tree cond.now) self.old self.new t) }
        ensures last { IfOk result (λ _. AskedLast self.new.marked (core_cond_tree cond.now)) }
    {
        self.marked.leaf(alloc, cond, env, buffer)
    }

    /// The truth of the condition, from that of its parts: `and` and `or` stop at the first member that settles them or
    /// isn't known.
    fn asked<N: NodeStore<Row>>(
        &mut self,
        alloc: Global,
        cond: &Cond,
        env: &Env,
        buffer: &Buffer<N>,
    ) -> Result<Truth, Memory>
        requires { MayAskOver buffer.now (IsIndex self.old) env.now (core_cond_tree cond.now) }
        ensures { IfOk result (λ t. TellsTruthOf buffer.now env.now (core_cond_tree cond.now) self.old self.new t) }
    {
        match cond {
            Cond::True => Ok(Truth::True),
            Cond::Exists { .. } => self.by_marks(alloc, cond, env, buffer),
            Cond::Compare { left, rel, right } => {
                self.compared(alloc, cond, env, buffer, left, *rel, right)
            }
            Cond::Not(inner) => Ok(negate(self.asked(alloc, inner, env, buffer)?)),
            Cond::All(conds) => {
                for inner in &conds.members {
                    let truth = self.asked(alloc, inner, env, buffer)?;
                    if truth != Truth::True {
                        return Ok(truth);
                    }
                }
                Ok(Truth::True)
            }
            Cond::Any(conds) => {
                for inner in &conds.members {
                    let truth = self.asked(alloc, inner, env, buffer)?;
                    if truth != Truth::False {
                        return Ok(truth);
                    }
                }
                Ok(Truth::False)
            }
        }
    }

    /// The truth of a condition with parts, of which no mark answered last.
    fn joined<N: NodeStore<Row>>(
        &mut self,
        alloc: Global,
        cond: &Cond,
        env: &Env,
        buffer: &Buffer<N>,
    ) -> Result<Truth, Memory>
        requires { MayAskOver buffer.now (IsIndex self.old) env.now (core_cond_tree cond.now) }
        ensures tells { IfOk result (λ t. TellsTruthOf buffer.now env.now (core_cond_tree cond.now) self.old self.new t) }
        ensures last { IfOk result (λ _. AskedLast self.new.marked (core_cond_tree cond.now)) }
    {
        let truth = self.asked(alloc, cond, env, buffer)?;
        self.marked.forget_last();
        Ok(truth)
    }
}

/// The count, one higher where a list was made.
fn risen(count: u64, made: bool) -> u64
    ensures { result ≡ raised count (cond made 1 0) }
{
    if made { count.saturating_add(1) } else { count }
}

impl Conds for Indexed {
    ghost use Rattle.cond_memo.specs.Again.{AskedLast};
    ghost use Rattle.join_index.specs.Index.{IsIndex};
    ghost use Rattle.join_index.specs.IndexStays.{index_stays};

    ghost stands = { IsIndex };

    ghost asked_last = { λ k c. AskedLast k.marked c };

    ghost stands_on = { index_stays };

    fn truth<N: NodeStore<Row>>(
        &mut self,
        alloc: Global,
        cond: &Cond,
        env: &Env,
        buffer: &Buffer<N>,
    ) -> Result<Truth, Memory>
        requires { MayAskOver buffer.now (IsIndex self.old) env.now (core_cond_tree cond.now) }
        ensures answers { IfOk result (λ t. AnswersOver buffer.now (IsIndex self.old) (IsIndex self.new)
            env.now (core_cond_tree cond.now) t) }
        ensures kept { IfOk result (λ _. KeepsLists buffer.now (IsIndex self.old) env.now (core_cond_tree cond.now)
            self.old.equalities self.new.equalities) }
        ensures goes { IfOk result (λ _. GoesAfterQuestion env.now
            (IsReached buffer.now (IsIndex self.old) env.now (core_cond_tree cond.now)) self.old self.new) }
        ensures last { IfOk result (λ _. AskedLast self.new.marked (core_cond_tree cond.now)) }
    {
        match cond {
            Cond::Exists { .. } => self.by_marks(alloc, cond, env, buffer),
            Cond::Compare { left, rel, right } => {
                self.compared(alloc, cond, env, buffer, left, *rel, right)
            }
            _ => self.joined(alloc, cond, env, buffer),
        }
    }

    fn truth_again<N: NodeStore<Row>>(
        &mut self,
        alloc: Global,
        cond: &Cond,
        env: &Env,
        buffer: &Buffer<N>,
    ) -> Result<Truth, Memory>
        requires may { MayAskOver buffer.now (IsIndex self.old) env.now (core_cond_tree cond.now) }
        requires last { AskedLast self.old.marked (core_cond_tree cond.now) }
        ensures answers { IfOk result (λ t. AnswersOver buffer.now (IsIndex self.old) (IsIndex self.new)
            env.now (core_cond_tree cond.now) t) }
        ensures kept { IfOk result (λ _. KeepsLists buffer.now (IsIndex self.old) env.now (core_cond_tree cond.now)
            self.old.equalities self.new.equalities) }
        ensures goes { IfOk result (λ _. GoesAfterQuestion env.now
            (IsReached buffer.now (IsIndex self.old) env.now (core_cond_tree cond.now)) self.old self.new) }
        ensures last { IfOk result (λ _. AskedLast self.new.marked (core_cond_tree cond.now)) }
    {
        if !gets_no_list(cond) {
            return self.truth(alloc, cond, env, buffer);
        }
        match self.marked.again(cond, env, buffer)? {
            Some(truth) => Ok(truth),
            None => self.truth(alloc, cond, env, buffer),
        }
    }
}
