//! Conditions: from the left, as far as they are settled.
ghost use Rattle.std.specs.Prelude.{IfOk};
ghost use Rattle.gcx_model.specs.Tree.{Tree, opening};
ghost use Rattle.gcx_model.specs.Core.{CondTree};
ghost use Rattle.gcx_model.specs.Growth.{Leads};
ghost use Rattle.gcx_model.specs.CondView.{core_cond_tree};
ghost use Rattle.cond_eval.specs.Asking.{MayAskOver, AnswersOver, IsLeaf};

use crate::env::Env;
use crate::truth::negate;
use buf_tree::{Buffer, Row};
use gcx_base::Memory;
use gcx_model::{Cond, Truth};
use node_store::NodeStore;
use std::alloc::Global;

/// How the truth of a condition is found. A value may keep what it found: it stands for the tokens so far, and for all
/// that come behind them.
pub trait Conds {
    /// The open trees for which a value stands.
    ghost stands: { Self → Tree → Type 0 };

    /// The conditions that may be asked again.
    ghost asked_last: { Self → CondTree → Type 0 };

    /// The truth of the condition over the tokens so far, of whose tree the buffer has the rows and the number of nodes.
    fn truth<N: NodeStore<Row>>(
        &mut self,
        alloc: Global,
        cond: &Cond,
        env: &Env,
        buffer: &Buffer<N>,
    ) -> Result<Truth, Memory>
        requires { MayAskOver buffer.now (stands self.old) env.now (core_cond_tree cond.now) }
        ensures answers { IfOk result (λ t. AnswersOver buffer.now (stands self.old) (stands self.new)
            env.now (core_cond_tree cond.now) t) }
        ensures last { IfOk result (λ _. asked_last self.new (core_cond_tree cond.now)) };

    /// The truth of the condition that was asked last. What is kept of it needn't be looked for.
    fn truth_again<N: NodeStore<Row>>(
        &mut self,
        alloc: Global,
        cond: &Cond,
        env: &Env,
        buffer: &Buffer<N>,
    ) -> Result<Truth, Memory>
        requires may { MayAskOver buffer.now (stands self.old) env.now (core_cond_tree cond.now) }
        requires last { asked_last self.old (core_cond_tree cond.now) }
        ensures answers { IfOk result (λ t. AnswersOver buffer.now (stands self.old) (stands self.new)
            env.now (core_cond_tree cond.now) t) }
        ensures last { IfOk result (λ _. asked_last self.new (core_cond_tree cond.now)) };

    ghost stands_on: { (s : Self) (P Q : Tree) → Leads opening P → Leads P Q → stands s P → stands s Q };
}

/// How the truth of a condition is found that is an `exists` or a comparison.
pub trait Leaves {
    /// The open trees for which a value stands.
    ghost holds_of: { Self → Tree → Type 0 };

    /// The truth of such a condition. That of another one is Unknown.
    fn leaf<N: NodeStore<Row>>(
        &mut self,
        alloc: Global,
        cond: &Cond,
        env: &Env,
        buffer: &Buffer<N>,
    ) -> Result<Truth, Memory>
        requires asked { MayAskOver buffer.now (holds_of self.old) env.now (core_cond_tree cond.now) }
        requires leaf { IsLeaf (core_cond_tree cond.now) }
        ensures { IfOk result (λ t. AnswersOver buffer.now (holds_of self.old) (holds_of self.new)
            env.now (core_cond_tree cond.now) t) };
}

/// The truth of a condition, from that of its parts: `and` and `or` stop at the first member that settles them or isn't
/// known.
pub fn truth_of<L: Leaves, N: NodeStore<Row>>(
    leaves: &mut L,
    alloc: Global,
    cond: &Cond,
    env: &Env,
    buffer: &Buffer<N>,
) -> Result<Truth, Memory>
    requires { MayAskOver buffer.now (L.holds_of leaves.old) env.now (core_cond_tree cond.now) }
    ensures { IfOk result (λ t. AnswersOver buffer.now (L.holds_of leaves.old) (L.holds_of leaves.new)
        env.now (core_cond_tree cond.now) t) }
{
    match cond {
        Cond::True => Ok(Truth::True),
        Cond::Exists { .. } | Cond::Compare { .. } => leaves.leaf(alloc, cond, env, buffer),
        Cond::Not(inner) => {
            let truth = truth_of(leaves, alloc, inner, env, buffer)?;
            Ok(negate(truth))
        }
        Cond::All(conds) => {
            for inner in &conds.members {
                let truth = truth_of(leaves, alloc, inner, env, buffer)?;
                if truth != Truth::True {
                    return Ok(truth);
                }
            }
            Ok(Truth::True)
        }
        Cond::Any(conds) => {
            for inner in &conds.members {
                let truth = truth_of(leaves, alloc, inner, env, buffer)?;
                if truth != Truth::False {
                    return Ok(truth);
                }
            }
            Ok(Truth::False)
        }
    }
}
