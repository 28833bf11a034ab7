//! Paths and the sides of comparisons.
ghost use Rattle.std.specs.Prelude.{◌≡◌, ◌≤◌, ◌<◌, true, false, length, bytes_eq, ◌||◌, OnOk, option_map};
ghost use Rattle.gcx_base.specs.declared.steps.Step.{Step};
ghost use Rattle.xq_parse.specs.Tokens.{child_, descendant_, node_, text_};
ghost use Rattle.xq_parse.specs.Machine.{deepest, State, axis, axis_named, first_step, kind_test, name_behind, no_trail, path, rel, rel_of, source, steps, steps_state, test};
ghost use Rattle.xq_parse.specs.Behind.{axis_found};
ghost use Rattle.xq_parse.specs.Reading.{run};
ghost use Rattle.xq_parse.specs.Calls.{Proceeds, ReadsOne, TakesCall, TakesColons, SeesSlash, StepsAre, ReadsLiteral, ReadsPathVar, ReadsSourceVar};

use crate::cursor::{Cursor, is_word};
use crate::refusal::{Refusal, Why};
use crate::route::{PlacedStep, Route, Trail, Var};
use gcx_base::{Axis, Name, Rel, Step, Test};
use gcx_model::QOperand;
use xq_lex::{Sign, Tok, TokKind};

fn is_axis(name: &Name) -> bool
    ensures { result ≡ (bytes_eq name.now child_ || bytes_eq name.now descendant_) }
{
    is_word(name, b"child") || is_word(name, b"descendant")
}

/// The axis of this name, of the two that there are.
fn axis_of(name: &Name) -> Axis
    ensures { result ≡ axis_named name.now }
{
    if is_word(name, b"descendant") {
        Axis::Descendant
    } else {
        Axis::Child
    }
}

fn is_kind(name: &Name) -> bool
    ensures { result ≡ (bytes_eq name.now text_ || bytes_eq name.now node_) }
{
    is_word(name, b"text") || is_word(name, b"node")
}

/// The kind test of this name, of the two that there are.
fn kind_of(name: &Name) -> Test
    ensures { result ≡ kind_test name.now }
{
    if is_word(name, b"text") {
        Test::AnyText
    } else {
        Test::AnyNode
    }
}

/// The relation that a sign stands for.
fn relation(found: Sign) -> Option<Rel>
    ensures { result ≡ rel_of found }
{
    match found {
        Sign::Eq => Some(Rel::Eq),
        Sign::Ne => Some(Rel::Ne),
        Sign::Lt => Some(Rel::Lt),
        Sign::Le => Some(Rel::Le),
        Sign::Gt => Some(Rel::Gt),
        Sign::Ge => Some(Rel::Ge),
        _ => None,
    }
}

impl<'a> Cursor<'a> {
    /// Whether another step follows.
    fn at_slash(&self) -> bool
        ensures more { SeesSlash self.now.rest.now result }
        ensures some { result ≡ true → StepsAre steps_state self.now.rest.now }
        ensures none { result ≡ false → StepsAre (λ k. k no_trail) self.now.rest.now }
    {
        matches!(
            self.rest,
            [
                Tok {
                    kind: TokKind::Sign(Sign::Slash | Sign::SlashSlash),
                    ..
                },
                ..
            ]
        )
    }

    /// Takes the `(` behind `text` or `node`, which is a kind test then.
    fn takes_call(&mut self, found: &Name) -> bool
        ensures moves { TakesCall found.now self.old.rest.now self.new.rest.now result }
        ensures shorter { length self.new.rest.now ≤ length self.old.rest.now }
    {
        if !is_kind(found) {
            return false;
        }
        match self.rest {
            [
                Tok {
                    kind: TokKind::Sign(Sign::ParenOpen),
                    ..
                },
                rest @ ..,
            ] => {
                self.rest = rest;
                true
            }
            _ => false,
        }
    }

    /// Reads what stands behind the name of a test.
    fn named_test(&mut self, axis: Axis, found: &Name) -> Result<Step, Refusal>
        ensures moves { ReadsOne (name_behind axis found.now) self.old.rest.now self.new.rest.now result }
        ensures shorter { length self.new.rest.now ≤ length self.old.rest.now }
    {
        if self.takes_call(found) {
            self.sign(Sign::ParenClose)?;
            Ok(Step {
                axis,
                test: kind_of(found),
            })
        } else {
            let name = found.copy(self.alloc)?;
            Ok(Step {
                axis,
                test: Test::Named(name),
            })
        }
    }

    /// Reads the test of a step.
    fn test(&mut self, axis: Axis) -> Result<Step, Refusal>
        ensures moves { ReadsOne (test axis) self.old.rest.now self.new.rest.now result }
        ensures shorter { length self.new.rest.now ≤ length self.old.rest.now }
    {
        match self.rest {
            [
                Tok {
                    kind: TokKind::Sign(Sign::Star),
                    ..
                },
                rest @ ..,
            ] => {
                self.rest = rest;
                Ok(Step {
                    axis,
                    test: Test::AnyElement,
                })
            }
            [
                Tok {
                    kind: TokKind::Name(found),
                    ..
                },
                rest @ ..,
            ] => {
                self.rest = rest;
                let step = self.named_test(axis, found)?;
                Ok(step)
            }
            _ => Err(Refusal::At(Why::Syntax, self.rest.len())),
        }
    }

    /// Takes `child` or `descendant` behind a slash.
    fn takes_axis_name(&mut self) -> Option<&'a Name>
        ensures moves { (k : Step → State) → run deepest (axis k) self.old.rest.now
            ≡ run deepest (axis_found (option_map (λ n. n.now) result) k) self.new.rest.now }
        ensures shorter { length self.new.rest.now ≤ length self.old.rest.now }
    {
        match self.rest {
            [
                Tok {
                    kind: TokKind::Name(found),
                    ..
                },
                rest @ ..,
            ] => {
                if is_axis(found) {
                    self.rest = rest;
                    Some(found)
                } else {
                    None
                }
            }
            _ => None,
        }
    }

    /// Takes the `::` behind such a name, which is an axis then.
    fn takes_colons(&mut self) -> bool
        ensures moves { TakesColons self.old.rest.now self.new.rest.now result }
        ensures shorter { length self.new.rest.now ≤ length self.old.rest.now }
    {
        match self.rest {
            [
                Tok {
                    kind: TokKind::Sign(Sign::Axis),
                    ..
                },
                rest @ ..,
            ] => {
                self.rest = rest;
                true
            }
            _ => false,
        }
    }

    /// Reads what stands behind the `/` of a step.
    fn axis_step(&mut self) -> Result<Step, Refusal>
        ensures moves { ReadsOne axis self.old.rest.now self.new.rest.now result }
        ensures shorter { length self.new.rest.now ≤ length self.old.rest.now }
    {
        match self.takes_axis_name() {
            Some(found) => {
                if self.takes_colons() {
                    self.test(axis_of(found))
                } else {
                    let name = found.copy(self.alloc)?;
                    Ok(Step {
                        axis: Axis::Child,
                        test: Test::Named(name),
                    })
                }
            }
            None => self.test(Axis::Child),
        }
    }

    /// Reads a step.
    fn step(&mut self) -> Result<PlacedStep, Refusal>
        ensures moves { Proceeds first_step (λ k s. k s.at s.step) self.old.rest.now self.new.rest.now result }
        ensures shorter { length self.new.rest.now ≤ length self.old.rest.now }
        ensures some { OnOk result (length self.new.rest.now < length self.old.rest.now) }
    {
        match self.rest {
            [
                Tok {
                    kind: TokKind::Sign(Sign::Slash),
                    from: at,
                    ..
                },
                rest @ ..,
            ] => {
                self.rest = rest;
                let step = self.axis_step()?;
                Ok(PlacedStep { at: *at, step })
            }
            [
                Tok {
                    kind: TokKind::Sign(Sign::SlashSlash),
                    from: at,
                    ..
                },
                rest @ ..,
            ] => {
                self.rest = rest;
                let step = self.test(Axis::Descendant)?;
                Ok(PlacedStep { at: *at, step })
            }
            _ => Err(Refusal::At(Why::Syntax, self.rest.len())),
        }
    }

    /// Reads one step or more.
    fn steps(&mut self) -> Result<Trail, Refusal>
        ensures moves { ReadsOne steps_state self.old.rest.now self.new.rest.now result }
        ensures shorter { length self.new.rest.now ≤ length self.old.rest.now }
    {
        let first = self.step()?;
        let mut trail = Trail::new(self.alloc);
        trail.push(first)?;
        while self.at_slash() {
            let step = self.step()?;
            trail.push(step)?;
        }
        Ok(trail)
    }

    /// Reads any number of steps.
    fn later_steps(&mut self) -> Result<Trail, Refusal>
        ensures moves { ReadsOne (steps no_trail) self.old.rest.now self.new.rest.now result }
        ensures shorter { length self.new.rest.now ≤ length self.old.rest.now }
    {
        if !self.at_slash() {
            return Ok(Trail::new(self.alloc));
        }
        self.steps()
    }

    /// Takes the variable that a path may begin with.
    fn takes_var(&mut self) -> Result<Option<Var>, Refusal>
        ensures paths { ReadsPathVar self.old.rest.now self.new.rest.now result }
        ensures sources { ReadsSourceVar self.old.rest.now self.new.rest.now result }
        ensures shorter { length self.new.rest.now ≤ length self.old.rest.now }
    {
        match self.rest {
            [
                Tok {
                    kind: TokKind::Var(found),
                    from: at,
                    ..
                },
                rest @ ..,
            ] => {
                let name = found.copy(self.alloc)?;
                self.rest = rest;
                Ok(Some(Var { name, at: *at }))
            }
            _ => Ok(None),
        }
    }

    /// Reads a path.
    pub(crate) fn path(&mut self) -> Result<Route, Refusal>
        ensures moves { ReadsOne path self.old.rest.now self.new.rest.now result }
        ensures shorter { length self.new.rest.now ≤ length self.old.rest.now }
    {
        match self.takes_var()? {
            Some(var) => {
                let trail = self.later_steps()?;
                Ok(trail.from(Some(var)))
            }
            None => {
                let trail = self.steps()?;
                Ok(trail.from(None))
            }
        }
    }

    /// Reads the path of a clause.
    pub(crate) fn source(&mut self) -> Result<Route, Refusal>
        ensures moves { ReadsOne source self.old.rest.now self.new.rest.now result }
        ensures shorter { length self.new.rest.now ≤ length self.old.rest.now }
    {
        let start = self.takes_var()?;
        let trail = self.steps()?;
        Ok(trail.from(start))
    }

    /// Reads the sign of a comparison.
    pub(crate) fn rel(&mut self) -> Result<Rel, Refusal>
        ensures moves { ReadsOne rel self.old.rest.now self.new.rest.now result }
        ensures shorter { length self.new.rest.now ≤ length self.old.rest.now }
    {
        match self.rest {
            [
                Tok {
                    kind: TokKind::Sign(found),
                    ..
                },
                rest @ ..,
            ] => {
                if let Some(rel) = relation(*found) {
                    self.rest = rest;
                    Ok(rel)
                } else {
                    Err(Refusal::At(Why::Syntax, self.rest.len()))
                }
            }
            _ => Err(Refusal::At(Why::Syntax, self.rest.len())),
        }
    }

    /// Takes a string or a number, if one stands next.
    pub(crate) fn takes_literal(&mut self) -> Result<Option<QOperand>, Refusal>
        ensures moves { ReadsLiteral self.old.rest.now self.new.rest.now result }
        ensures shorter { length self.new.rest.now ≤ length self.old.rest.now }
    {
        match self.rest {
            [
                Tok {
                    kind: TokKind::Str(found),
                    ..
                },
                rest @ ..,
            ] => {
                let text = found.copy(self.alloc)?;
                self.rest = rest;
                Ok(Some(QOperand::Str(text)))
            }
            [
                Tok {
                    kind: TokKind::Number(units),
                    ..
                },
                rest @ ..,
            ] => {
                self.rest = rest;
                Ok(Some(QOperand::Num(*units)))
            }
            _ => Ok(None),
        }
    }
}
