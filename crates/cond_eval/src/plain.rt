//! Conditions walked anew at each question.
ghost use Rattle.std.specs.Prelude.{IfOk};
ghost use Rattle.cond_eval.specs.Comparing.{comparison, IsAsked, Tells, IsNodeRow, TellsExists};

use crate::conds::{Conds, Leaves, truth_of};
use crate::env::{Env, place_of};
use crate::pairs::{literal_truth, paths_truth};
use crate::sets::reached;
use crate::truth::settle;
use crate::values::{flipped, literals_satisfy};
use buf_tree::{Buffer, Row};
use gcx_base::{Memory, Rel, Step};
use gcx_model::{Cond, Operand, Truth};
use node_store::{NodeStore, Place};
use std::alloc::Global;

/// Finds the truth of a condition by walking the buffer. Keeps nothing.
#[derive(Clone, Copy, Debug)]
pub struct Plain;

impl Conds for Plain {
    ghost stands = { λ _ _. Unit {0} };

    ghost asked_last = { λ _ _. Unit {0} };

    ghost stands_on = { λ _ _ _ _ _ _. tt };

    fn truth<N: NodeStore<Row>>(
        &mut self,
        alloc: Global,
        cond: &Cond,
        env: &Env,
        buffer: &Buffer<N>,
    ) -> Result<Truth, Memory> {
        truth_of(self, alloc, cond, env, buffer)
    }

    fn truth_again<N: NodeStore<Row>>(
        &mut self,
        alloc: Global,
        cond: &Cond,
        env: &Env,
        buffer: &Buffer<N>,
    ) -> Result<Truth, Memory> {
        truth_of(self, alloc, cond, env, buffer)
    }
}

impl Leaves for Plain {
    ghost holds_of = { λ _ _. Unit {0} };

    fn leaf<N: NodeStore<Row>>(
        &mut self,
        alloc: Global,
        cond: &Cond,
        env: &Env,
        buffer: &Buffer<N>,
    ) -> Result<Truth, Memory> {
        match cond {
            Cond::Exists { var, steps } => exists_truth(
                alloc,
                buffer,
                place_of(env, *var),
                steps.items(),
            ),
            Cond::Compare { left, rel, right } => compare_truth(
                alloc, env, buffer, left, *rel, right,
            ),
            _ => Ok(Truth::Unknown),
        }
    }
}

/// The truth of an `exists`: whether the steps have a match from the row at the place.
fn exists_truth<N: NodeStore<Row>>(
    alloc: Global,
    buffer: &Buffer<N>,
    place: Place,
    steps: &[Step],
) -> Result<Truth, Memory>
    requires { IsNodeRow buffer.now.rows place.0 }
    ensures { IfOk result (λ t. TellsExists buffer.now.rows place.0 steps.now t) }
{
    let set = reached(alloc, buffer, place, steps)?;
    Ok(settle(!set.is_empty(), buffer.is_closed(place)))
}

/// The truth of a comparison over the rows, found by walking them.
pub fn compare_truth<N: NodeStore<Row>>(
    alloc: Global,
    env: &Env,
    buffer: &Buffer<N>,
    left: &Operand,
    rel: Rel,
    right: &Operand,
) -> Result<Truth, Memory>
    requires { IsAsked buffer.now.rows env.now (comparison left.now rel right.now) }
    ensures { IfOk result (λ t. Tells buffer.now.rows env.now (comparison left.now rel right.now) t) }
{
    match left {
        Operand::Path { var, steps } => {
            let place = place_of(env, *var);
            match right {
                Operand::Path { var, steps: others } => {
                    let other = place_of(env, *var);
                    paths_truth(
                        alloc,
                        buffer,
                        place,
                        steps.items(),
                        rel,
                        other,
                        others.items(),
                    )
                }
                _ => literal_truth(alloc, buffer, place, steps.items(), rel, right),
            }
        }
        _ => match right {
            Operand::Path { var, steps } => {
                let place = place_of(env, *var);
                literal_truth(alloc, buffer, place, steps.items(), flipped(rel), left)
            }
            _ => Ok(settle(literals_satisfy(left, rel, right), true)),
        },
    }
}
