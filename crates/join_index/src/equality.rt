//! An equality of two paths, and the list that is kept for it.
ghost use Rattle.std.specs.Prelude.{◌≡◌, ◌↔◌, cond, ltb, true, Some, None, IfOk, MatchOption};
ghost use Rattle.gcx_model.specs.CondView.{operand_tree};
ghost use Rattle.cond_eval.specs.Comparing.{AreInUse, IsNodeRow};
ghost use Rattle.cond_memo.specs.Taking.{MayTake, TakesMore};
ghost use Rattle.cond_memo.specs.Waiting.{Fits};
ghost use Rattle.join_index.specs.Equalities.{VariablesDiffer, HasEquality, inner_of, path_of_side};
ghost use Rattle.join_index.specs.Index.{outer_of, same_serial, serial_kept};
ghost use Rattle.join_index.specs.Lookups.{AreValues, FindsIn, IsListedAt, IsMadeOf, IsOf, ListsAt, LooksOn, KeepsList, KeepsSeen, MayFindIn, TurnsSeen};

use crate::values::{Probes, Values};
use buf_tree::{Buffer, Row};
use cond_eval::{Member, closed_matches, value};
use cond_memo::Taken;
use gcx_base::{Memory, Serial, Step, Steps, Text, VarId};
use gcx_model::Operand;
use node_store::{NodeStore, Place};
use std::alloc::Global;

/// Room for walks and for values.
#[derive(Drop, Debug)]
pub struct Room {
    pub flags: Vec<bool>,
    pub text: Vec<u8>,
}

/// A path from a variable.
#[derive(Drop, Debug)]
pub struct Side {
    pub var: VarId,
    pub steps: Steps,
}

/// The values of a path's matches at the node of this serial.
#[derive(Drop, Debug)]
pub struct Listed {
    pub of: Serial,
    pub values: Values,
}

/// An equality of two paths. The outer one is that whose variable has the smaller number; of its values the last list that
/// was made is kept.
#[derive(Drop, Debug)]
pub struct Equality {
    pub left: Side,
    pub right: Side,
    pub list: Option<Listed>,
    /// The inner path, and which of its matches were looked up in the list. None of them has a value of it.
    pub seen: Taken,
}

impl Side {
    /// The path of the operand.
    fn copy_of(alloc: Global, var: VarId, steps: &Steps) -> Result<Side, Memory>
        ensures { IfOk result (λ s. (s.var ≡ var) × (s.steps ≡ steps.now)) }
    {
        let steps = steps.copy(alloc)?;
        Ok(Side { var, steps })
    }

    /// Whether the operand is this path.
    fn is_path(&self, operand: &Operand) -> bool
        ensures { result ≡ true ↔ path_of_side self.now ≡ operand_tree operand.now }
    {
        match operand {
            Operand::Path { var, steps } => {
                self.var == *var && self.steps.items() == steps.items()
            }
            Operand::Str(_) | Operand::Num(_) => false,
        }
    }
}

impl Equality {
    /// The equality of two paths with different variables, without a list. None of other operands.
    pub(crate) fn of(
        alloc: Global,
        left: &Operand,
        right: &Operand,
    ) -> Result<Option<Equality>, Memory>
        ensures { IfOk result (λ made. MatchOption made
            (VariablesDiffer (operand_tree left.now) (operand_tree right.now) → ⊥)
            (λ q. IsMadeOf q (operand_tree left.now) (operand_tree right.now))) }
    {
        let (
            Operand::Path { var, steps },
            Operand::Path {
                var: other,
                steps: others,
            },
        ) = (left, right)
        else {
            return Ok(None);
        };
        if var == other {
            return Ok(None);
        }
        let left = Side::copy_of(alloc, *var, steps)?;
        let right = Side::copy_of(alloc, *other, others)?;
        let seen = seen_of(alloc, &left, &right)?;
        Ok(Some(Equality {
            left,
            right,
            list: None,
            seen,
        }))
    }

    /// Whether it is that of these two.
    fn is_of(&self, left: &Operand, right: &Operand) -> bool
        ensures { result ≡ true ↔ IsOf self.now (operand_tree left.now) (operand_tree right.now) }
    {
        self.left.is_path(left) && self.right.is_path(right)
    }

    /// The path whose variable has the smaller number.
    pub(crate) fn outer(&self) -> &Side
        ensures { result.now ≡ outer_of self.now }
    {
        if self.left.var < self.right.var {
            &self.left
        } else {
            &self.right
        }
    }

    /// The other path.
    pub(crate) fn inner(&self) -> &Side
        ensures { result.now ≡ inner_of self.now }
    {
        if self.left.var < self.right.var {
            &self.right
        } else {
            &self.left
        }
    }

    /// Whether the list that is kept is that of this node.
    fn has_list_of(&self, of: Serial) -> bool
        ensures { result ≡ same_serial (serial_kept self.now) (Some of.0) }
    {
        match &self.list {
            Some(list) => list.of == of,
            None => false,
        }
    }

    /// Makes the list of the outer path's values at the node of the row at the place, unless it is kept. True where it was
    /// made.
    pub(crate) fn keep_list<N: NodeStore<Row>>(
        &mut self,
        alloc: Global,
        buffer: &Buffer<N>,
        place: Place,
        of: Serial,
    ) -> Result<bool, Memory>
        requires { IsNodeRow buffer.now.rows place.0 }
        ensures list { IfOk result (λ made. KeepsList buffer.now.rows place.0 of.0 self.old self.new made) }
        ensures seen { IfOk result (λ _. KeepsSeen self.old self.new) }
    {
        if self.has_list_of(of) {
            return Ok(false);
        }
        let values = list_at(alloc, buffer, place, self.outer().steps.items())?;
        self.list = Some(Listed { of, values });
        self.seen.forget();
        Ok(true)
    }

    /// Whether a closed match of the inner path from the row at the place has a value of the list that is kept.
    pub(crate) fn finds<N: NodeStore<Row>>(
        &mut self,
        buffer: &Buffer<N>,
        place: Place,
        of: Serial,
        room: &mut Room,
    ) -> Result<bool, Memory>
        requires { MayFindIn buffer.now place.0 of.0 self.old }
        ensures rest { IfOk result (λ _. self.new ≡ record self.old { seen = self.new.seen }) }
        ensures found { IfOk result (λ found. FindsIn buffer.now place.0 of.0 self.old self.new found) }
    {
        let Some(list) = &self.list else {
            return Ok(false);
        };
        turn_to(&mut self.seen, of);
        let found = look_up(&mut self.seen, buffer, place, &list.values, room)?;
        Ok(found)
    }
}

/// The inner one of two paths, of which no match was looked up.
fn seen_of(alloc: Global, left: &Side, right: &Side) -> Result<Taken, Memory>
    ensures steps { IfOk result (λ s. s.steps ≡ (cond (ltb left.now.var.0 right.now.var.0) right.now left.now).steps) }
    ensures fits { IfOk result (λ s. Fits s.steps s.last) }
{
    if left.var < right.var {
        Taken::new(alloc, &right.steps)
    } else {
        Taken::new(alloc, &left.steps)
    }
}

/// It is about the node of this serial. Which matches of another one were taken is forgotten.
fn turn_to(seen: &mut Taken, of: Serial)
    ensures { TurnsSeen seen.old seen.new of }
{
    if !seen.is_of(of) {
        seen.turn_to(of);
    }
}

/// Looks up the values of the closed matches that weren't taken, up to the first that is one of these: true where there
/// is one. Its match isn't taken, so that the next question finds it at once.
fn look_up<N: NodeStore<Row>>(
    seen: &mut Taken,
    buffer: &Buffer<N>,
    node: Place,
    values: &Values,
    room: &mut Room,
) -> Result<bool, Memory>
    requires may { MayTake buffer.now seen.old node.0 }
    requires fits { Fits seen.old.steps seen.old.last }
    ensures frame { IfOk result (λ _. TakesMore seen.old seen.new) }
    ensures told { IfOk result (λ found. LooksOn buffer.now node.0 seen.old seen.new values.now found) }
{
    let mut next = seen.next(buffer, node, &mut room.flags)?;
    'matches: while let Some(place) = next {
        let bytes = value(buffer, place, &mut room.text)?;
        if values.contains(bytes, &mut Probes::new()) {
            return Ok(true);
        }
        next = seen.take(buffer, node, place, &mut room.flags)?;
    }
    Ok(false)
}

/// The number of the equality of these two.
pub(crate) fn find(equalities: &[Equality], left: &Operand, right: &Operand) -> Option<usize>
    ensures { MatchOption result (HasEquality equalities.now (operand_tree left.now) (operand_tree right.now) → ⊥)
        (λ i. IsListedAt equalities.now i (operand_tree left.now) (operand_tree right.now)) }
{
    let mut index = 0;
    'equalities: while index < equalities.len() {
        if equalities[index].is_of(left, right) {
            return Some(index);
        }
        index += 1;
    }
    None
}

/// The values of the members.
fn values_of<N: NodeStore<Row>>(
    alloc: Global,
    buffer: &Buffer<N>,
    set: &[Member],
) -> Result<Vec<Text>, Memory>
    requires { AreInUse buffer.now.rows set.now }
    ensures { IfOk result (λ texts. AreValues buffer.now.rows set.now texts.items) }
{
    let (mut texts, mut room) = (Vec::new(alloc), Vec::new(alloc));
    for member in set {
        let bytes = value(buffer, Place(member.place), &mut room)?;
        let text = Text::of_text(alloc, bytes)?;
        texts.push(text)?;
    }
    Ok(texts)
}

/// The list of the values that the steps reach from the row at the place.
fn list_at<N: NodeStore<Row>>(
    alloc: Global,
    buffer: &Buffer<N>,
    place: Place,
    steps: &[Step],
) -> Result<Values, Memory>
    requires { IsNodeRow buffer.now.rows place.0 }
    ensures { IfOk result (λ values. ListsAt buffer.now.rows place.0 steps.now values) }
{
    let set = closed_matches(alloc, buffer, place, steps)?;
    let texts = values_of(alloc, buffer, &set)?;
    Values::make(texts)
}
