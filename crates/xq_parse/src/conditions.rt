//! Conditions.
ghost use Rattle.std.specs.Prelude.{◌≡◌, ◌≤◌, ◌<◌, true, length, IfOk, OnOk};
ghost use Rattle.gcx_model.specs.Query.{cond_tree, cond_trees};
ghost use Rattle.xq_parse.specs.Grammar.{all_of, any_of};
ghost use Rattle.xq_parse.specs.Machine.{deepest, all_state, alls_state, atom, atoms_state, compare_state, cond_state, exists_state, group_state, literal_state, not_state, operand, path, true_state};
ghost use Rattle.xq_parse.specs.Behind.{HasRoom};
ghost use Rattle.xq_parse.specs.Calls.{Parses, TakesAnd, TakesOr, TakesWhere, ReadsAtomStart};

use crate::cursor::{Cursor, MOST, is_word};
use crate::marks::Marks;
use crate::refusal::{Refusal, Why};
use crate::scope::Scope;
use gcx_model::{QCond, QConds, QOperand};
use xq_lex::{Sign, Tok, TokKind};

/// A parser by descent: a method for each rule.
#[derive(Drop)]
pub(crate) struct Parser<'a> {
    pub cursor: Cursor<'a>,
    pub scope: Scope,
    pub marks: Marks,
}

/// How an atom begins.
#[derive(Drop)]
pub(crate) enum AtomStart {
    Not,
    True,
    Exists,
    Group,
    Literal(QOperand),
    Path,
}

impl<'a> Cursor<'a> {
    /// Takes the word `and`, if it stands next.
    fn takes_and(&mut self) -> bool
        ensures moves { TakesAnd self.old.rest.now self.new.rest.now result }
        ensures shorter { length self.new.rest.now ≤ length self.old.rest.now }
        ensures some { result ≡ true → length self.new.rest.now < length self.old.rest.now }
    {
        match self.rest {
            [
                Tok {
                    kind: TokKind::Name(found),
                    ..
                },
                rest @ ..,
            ] if is_word(found, b"and") => {
                self.rest = rest;
                true
            }
            _ => false,
        }
    }

    /// Takes the word `or`, if it stands next.
    fn takes_or(&mut self) -> bool
        ensures moves { TakesOr self.old.rest.now self.new.rest.now result }
        ensures shorter { length self.new.rest.now ≤ length self.old.rest.now }
        ensures some { result ≡ true → length self.new.rest.now < length self.old.rest.now }
    {
        match self.rest {
            [
                Tok {
                    kind: TokKind::Name(found),
                    ..
                },
                rest @ ..,
            ] if is_word(found, b"or") => {
                self.rest = rest;
                true
            }
            _ => false,
        }
    }

    /// Takes the word `where`, if it stands next.
    pub(crate) fn takes_where(&mut self) -> bool
        ensures moves { TakesWhere self.old.rest.now self.new.rest.now result }
        ensures shorter { length self.new.rest.now ≤ length self.old.rest.now }
        ensures some { result ≡ true → length self.new.rest.now < length self.old.rest.now }
    {
        match self.rest {
            [
                Tok {
                    kind: TokKind::Name(found),
                    ..
                },
                rest @ ..,
            ] if is_word(found, b"where") => {
                self.rest = rest;
                true
            }
            _ => false,
        }
    }

    /// Takes what tells how an atom goes on.
    fn takes_atom(&mut self, depth: usize) -> Result<AtomStart, Refusal>
        requires { depth ≤ deepest }
        ensures moves { ReadsAtomStart depth self.old.rest.now self.new.rest.now result }
        ensures room { IfOk result (λ s. HasRoom depth s) }
        ensures shorter { length self.new.rest.now ≤ length self.old.rest.now }
    {
        let Some(next) = self.rest.first() else {
            return Ok(AtomStart::Path);
        };
        let start = match &next.kind {
            TokKind::Name(found) if is_word(found, b"not") => {
                self.open(depth)?;
                return Ok(AtomStart::Not);
            }
            TokKind::Sign(Sign::ParenOpen) => {
                self.open(depth)?;
                return Ok(AtomStart::Group);
            }
            TokKind::Name(found) if is_word(found, b"true") => AtomStart::True,
            TokKind::Name(found) if is_word(found, b"exists") => AtomStart::Exists,
            TokKind::Name(_) => return Err(Refusal::At(Why::Syntax, self.rest.len())),
            TokKind::Str(found) => AtomStart::Literal(QOperand::Str(found.copy(self.alloc)?)),
            TokKind::Number(units) => AtomStart::Literal(QOperand::Num(*units)),
            _ => return Ok(AtomStart::Path),
        };
        self.rest = &self.rest[1..];
        Ok(start)
    }
}

/// All of these; one alone is that one.
fn all_in(members: QConds) -> QCond
    ensures { cond_tree result ≡ all_of (cond_trees members) }
{
    if members.members.len() == 1 {
        let mut members = members.members;
        match members.pop() {
            Some(member) => member,
            None => unreachable!(),
        }
    } else {
        QCond::All(members)
    }
}

/// Any of these; one alone is that one.
fn any_in(members: QConds) -> QCond
    ensures { cond_tree result ≡ any_of (cond_trees members) }
{
    if members.members.len() == 1 {
        let mut members = members.members;
        match members.pop() {
            Some(member) => member,
            None => unreachable!(),
        }
    } else {
        QCond::Any(members)
    }
}

impl<'a> Parser<'a> {
    /// Reads the right side of a comparison.
    fn operand(&mut self) -> Result<QOperand, Refusal>
        ensures moves { Parses (λ o. o) operand self.old self.new result }
        ensures scope { OnOk result (self.new.scope ≡ self.old.scope) }
        ensures shorter { length self.new.cursor.rest.now ≤ length self.old.cursor.rest.now }
    {
        match self.cursor.takes_literal()? {
            Some(literal) => Ok(literal),
            None => {
                let route = self.cursor.path()?;
                self.marks.see(&self.scope, &route);
                Ok(QOperand::Path(route.path))
            }
        }
    }

    /// Reads what stands behind `true`.
    fn always(&mut self) -> Result<QCond, Refusal>
        ensures moves { Parses cond_tree (λ sc. true_state) self.old self.new result }
        ensures scope { OnOk result (self.new.scope ≡ self.old.scope) }
        ensures shorter { length self.new.cursor.rest.now ≤ length self.old.cursor.rest.now }
    {
        self.cursor.sign(Sign::ParenOpen)?;
        self.cursor.sign(Sign::ParenClose)?;
        Ok(QCond::True)
    }

    /// Reads what stands behind `exists`.
    #[tactic(auto, unfolding(crate::specs::Machine::exists_state))]
    fn existing(&mut self) -> Result<QCond, Refusal>
        ensures moves { Parses cond_tree exists_state self.old self.new result }
        ensures scope { OnOk result (self.new.scope ≡ self.old.scope) }
        ensures shorter { length self.new.cursor.rest.now ≤ length self.old.cursor.rest.now }
    {
        self.cursor.sign(Sign::ParenOpen)?;
        let route = self.cursor.path()?;
        self.cursor.sign(Sign::ParenClose)?;
        self.marks.see(&self.scope, &route);
        Ok(QCond::Exists(route.path))
    }

    /// Reads a comparison that begins with a path.
    fn comparison(&mut self) -> Result<QCond, Refusal>
        ensures moves { Parses cond_tree (λ sc m k. path (compare_state sc m k)) self.old self.new result }
        ensures scope { OnOk result (self.new.scope ≡ self.old.scope) }
        ensures shorter { length self.new.cursor.rest.now ≤ length self.old.cursor.rest.now }
    {
        let left = self.cursor.path()?;
        self.marks.see(&self.scope, &left);
        let rel = self.cursor.rel()?;
        let right = self.operand()?;
        Ok(QCond::Compare {
            left: QOperand::Path(left.path),
            rel,
            right,
        })
    }

    /// Reads a comparison behind the literal that it begins with.
    #[tactic(auto, unfolding(crate::specs::Machine::literal_state))]
    fn literal_comparison(&mut self, left: QOperand) -> Result<QCond, Refusal>
        ensures moves { Parses cond_tree (literal_state left) self.old self.new result }
        ensures scope { OnOk result (self.new.scope ≡ self.old.scope) }
        ensures shorter { length self.new.cursor.rest.now ≤ length self.old.cursor.rest.now }
    {
        let rel = self.cursor.rel()?;
        let right = self.cursor.path()?;
        self.marks.see(&self.scope, &right);
        Ok(QCond::Compare {
            left,
            rel,
            right: QOperand::Path(right.path),
        })
    }

    /// Reads an atom, with `depth` constructs open before it.
    #[cycle(conds)]
    fn atom(&mut self, depth: usize) -> Result<QCond, Refusal>
        requires { depth ≤ deepest }
        ensures moves { Parses cond_tree (atom depth) self.old self.new result }
        ensures scope { OnOk result (self.new.scope ≡ self.old.scope) }
        ensures shorter { length self.new.cursor.rest.now ≤ length self.old.cursor.rest.now }
    {
        match self.cursor.takes_atom(depth)? {
            AtomStart::Not => {
                let cond = self.negation(depth + 1)?;
                Ok(cond)
            }
            AtomStart::True => {
                let cond = self.always()?;
                Ok(cond)
            }
            AtomStart::Exists => {
                let cond = self.existing()?;
                Ok(cond)
            }
            AtomStart::Group => {
                let cond = self.group(depth + 1)?;
                Ok(cond)
            }
            AtomStart::Literal(left) => {
                let cond = self.literal_comparison(left)?;
                Ok(cond)
            }
            AtomStart::Path => {
                let cond = self.comparison()?;
                Ok(cond)
            }
        }
    }

    /// Reads what stands behind `not`.
    #[tactic(auto, unfolding(crate::specs::Machine::not_state))]
    #[cycle(conds)]
    fn negation(&mut self, depth: usize) -> Result<QCond, Refusal>
        requires { depth ≤ deepest }
        ensures moves { Parses cond_tree (not_state depth) self.old self.new result }
        ensures scope { OnOk result (self.new.scope ≡ self.old.scope) }
        ensures shorter { length self.new.cursor.rest.now ≤ length self.old.cursor.rest.now }
    {
        self.cursor.sign(Sign::ParenOpen)?;
        let cond = self.group(depth)?;
        Ok(QCond::Not(Box::new(self.cursor.alloc, cond)?))
    }

    /// Reads a condition and the `)` behind it.
    #[tactic(auto, unfolding(crate::specs::Machine::group_state))]
    #[cycle(conds)]
    fn group(&mut self, depth: usize) -> Result<QCond, Refusal>
        requires { depth ≤ deepest }
        ensures moves { Parses cond_tree (group_state depth) self.old self.new result }
        ensures scope { OnOk result (self.new.scope ≡ self.old.scope) }
        ensures shorter { length self.new.cursor.rest.now ≤ length self.old.cursor.rest.now }
    {
        let cond = self.condition(depth)?;
        self.cursor.sign(Sign::ParenClose)?;
        Ok(cond)
    }

    /// Reads atoms with `and` between them.
    #[cycle(conds)]
    fn atoms(&mut self, depth: usize) -> Result<QConds, Refusal>
        requires { depth ≤ deepest }
        ensures moves { Parses cond_trees (atoms_state depth) self.old self.new result }
        ensures scope { OnOk result (self.new.scope ≡ self.old.scope) }
        ensures shorter { length self.new.cursor.rest.now ≤ length self.old.cursor.rest.now }
    {
        let first = self.atom(depth)?;
        let mut conds = QConds::new(self.cursor.alloc);
        conds.push(first)?;
        while self.cursor.takes_and() {
            let cond = self.atom(depth)?;
            conds.push(cond)?;
        }
        Ok(conds)
    }

    /// Reads what may stand between `or`s.
    #[tactic(auto, unfolding(crate::specs::Machine::all_state))]
    #[cycle(conds)]
    fn all(&mut self, depth: usize) -> Result<QCond, Refusal>
        requires { depth ≤ deepest }
        ensures moves { Parses cond_tree (all_state depth) self.old self.new result }
        ensures scope { OnOk result (self.new.scope ≡ self.old.scope) }
        ensures shorter { length self.new.cursor.rest.now ≤ length self.old.cursor.rest.now }
    {
        let conds = self.atoms(depth)?;
        Ok(all_in(conds))
    }

    /// Reads conditions with `or` between them.
    #[cycle(conds)]
    fn alls(&mut self, depth: usize) -> Result<QConds, Refusal>
        requires { depth ≤ deepest }
        ensures moves { Parses cond_trees (alls_state depth) self.old self.new result }
        ensures scope { OnOk result (self.new.scope ≡ self.old.scope) }
        ensures shorter { length self.new.cursor.rest.now ≤ length self.old.cursor.rest.now }
    {
        let first = self.all(depth)?;
        let mut conds = QConds::new(self.cursor.alloc);
        conds.push(first)?;
        while self.cursor.takes_or() {
            let cond = self.all(depth)?;
            conds.push(cond)?;
        }
        Ok(conds)
    }

    /// Reads a condition.
    #[tactic(auto, unfolding(crate::specs::Machine::cond_state))]
    #[cycle(conds)]
    pub(crate) fn condition(&mut self, depth: usize) -> Result<QCond, Refusal>
        requires { depth ≤ deepest }
        ensures moves { Parses cond_tree (cond_state depth) self.old self.new result }
        ensures scope { OnOk result (self.new.scope ≡ self.old.scope) }
        ensures shorter { length self.new.cursor.rest.now ≤ length self.old.cursor.rest.now }
    {
        let conds = self.alls(depth)?;
        Ok(any_in(conds))
    }
}
