//! What is known of a plan's run by its times.
ghost use Rattle.std.specs.Prelude.{◌≡◌, true, map, IfOk};
ghost use Rattle.gcx_model.specs.Growth.{may_all};
ghost use Rattle.gcx_model.specs.PlanView.{plan_tree};
ghost use Rattle.gcx_model.specs.Tree.{opening};
ghost use Rattle.doc_reader.specs.Standing.{said_of};
ghost use Rattle.trace_check.specs.Telling.{IsCourse};

use crate::acts::TimedAct;
use crate::given::given_of;
use crate::leaving::Leaving;
use crate::running::acts_of;
use crate::timed::Timed;
use doc_reader::Token;
use gcx_base::Memory;
use gcx_model::{Given, Plan};
use std::alloc::Global;
use std::collections::VecDeque;

/// A plan's run over a document's tokens.
#[derive(Drop)]
pub(crate) struct Course<'p> {
    pub timed: Timed,
    /// The actions, in their order.
    pub acts: Vec<TimedAct<'p>>,
    /// For each node the roles given to it.
    pub given: Vec<Given>,
    pub leaving: Leaving,
}

impl<'p> Course<'p> {
    /// The plan's run over the tokens.
    pub fn of(alloc: Global, plan: &'p Plan, tokens: VecDeque<Token>) -> Result<Course<'p>, Memory>
        requires { may_all (map said_of tokens.items) opening ≡ true }
        ensures { IfOk result (IsCourse (plan_tree plan.now) (map said_of tokens.items)) }
    {
        let timed = Timed::of(alloc, tokens)?;
        let acts = acts_of(alloc, &timed, plan)?;
        let given = given_of(alloc, &timed.tree, plan)?;
        let leaving = Leaving::of(alloc, &timed.tree, &acts)?;
        Ok(Course {
            timed,
            acts,
            given,
            leaving,
        })
    }
}
