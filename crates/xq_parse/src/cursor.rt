//! What is left of the tokens of a query.
ghost use Rattle.std.specs.Prelude.{◌≡◌, ◌≤◌, ◌<◌, true, false, List, [], drop, length, bytes_eq, IfErr, OnOk};
ghost use Rattle.gcx_model.specs.Query.{ExprTree};
ghost use Rattle.xq_parse.specs.declared.marks.Marks.{Marks};
ghost use Rattle.xq_parse.specs.Signs.{is_slash, sign_eq};
ghost use Rattle.xq_parse.specs.Machine.{deepest, clauses, done, end_name, name, sign, var, word};
ghost use Rattle.xq_parse.specs.Reading.{Moves, run};
ghost use Rattle.xq_parse.specs.Calls.{ReadsOne, Skips, TakesComma, TakesClauseComma};

use crate::refusal::{Refusal, Why};
use gcx_base::Name;
use std::alloc::Global;
use xq_lex::{Sign, Tok, TokKind};

/// At most so many constructs are open at a token.
pub(crate) const MOST: usize = 200;

/// The tokens that are left.
#[derive(Drop)]
pub(crate) struct Cursor<'a> {
    pub alloc: Global,
    pub rest: &'a [Tok],
}

fn is_same(a: Sign, b: Sign) -> bool
    ensures { result ≡ sign_eq a b }
{
    a as u8 == b as u8
}

/// Whether the name is this word.
pub(crate) fn is_word(name: &Name, word: &[u8]) -> bool
    ensures { result ≡ bytes_eq name.now word.now }
{
    name.as_bytes() == word
}

impl<'a> Cursor<'a> {
    /// Takes this sign, which is no slash.
    pub(crate) fn sign(&mut self, wanted: Sign) -> Result<(), Refusal>
        requires { is_slash wanted ≡ false }
        ensures moves { Skips (sign wanted) self.old.rest.now self.new.rest.now result }
        ensures shorter { length self.new.rest.now ≤ length self.old.rest.now }
    {
        match self.rest {
            [
                Tok {
                    kind: TokKind::Sign(found),
                    ..
                },
                rest @ ..,
            ] if is_same(wanted, *found) => {
                self.rest = rest;
                Ok(())
            }
            _ => Err(Refusal::At(Why::Syntax, self.rest.len())),
        }
    }

    /// Takes the next token, which opens a construct inside `depth` others.
    pub(crate) fn open(&mut self, depth: usize) -> Result<(), Refusal>
        requires { 0 < length self.now.rest.now }
        ensures ok { OnOk result ((depth < deepest) × (self.new.rest.now ≡ drop 1 self.old.rest.now)) }
        ensures err { IfErr result (λ e. (deepest ≤ depth)
            × (e ≡ Refusal.At Why.Nesting (length self.old.rest.now))) }
        ensures shorter { length self.new.rest.now ≤ length self.old.rest.now }
    {
        if depth >= MOST {
            return Err(Refusal::At(Why::Nesting, self.rest.len()));
        }
        self.rest = &self.rest[1..];
        Ok(())
    }

    /// Wants no token more.
    pub(crate) fn end(&self) -> Result<(), Refusal>
        ensures { (m : Marks) (es : List ExprTree)
            → Moves (λ _. run deepest (done m es) []) result (run deepest (done m es) self.now.rest.now) }
    {
        match self.rest {
            [] => Ok(()),
            _ => Err(Refusal::At(Why::Syntax, self.rest.len())),
        }
    }

    /// Takes this word.
    pub(crate) fn word(&mut self, wanted: &[u8]) -> Result<(), Refusal>
        ensures moves { Skips (word wanted.now) self.old.rest.now self.new.rest.now result }
        ensures shorter { length self.new.rest.now ≤ length self.old.rest.now }
    {
        match self.rest {
            [
                Tok {
                    kind: TokKind::Name(found),
                    ..
                },
                rest @ ..,
            ] if is_word(found, wanted) => {
                self.rest = rest;
                Ok(())
            }
            _ => Err(Refusal::At(Why::Syntax, self.rest.len())),
        }
    }

    /// Takes the name of an end tag.
    pub(crate) fn end_name(&mut self, wanted: &Name) -> Result<(), Refusal>
        ensures moves { Skips (end_name wanted.now) self.old.rest.now self.new.rest.now result }
        ensures shorter { length self.new.rest.now ≤ length self.old.rest.now }
    {
        match self.rest {
            [
                Tok {
                    kind: TokKind::Name(found),
                    ..
                },
                rest @ ..,
            ] => {
                if !is_word(found, wanted.as_bytes()) {
                    return Err(Refusal::At(Why::TagMismatch, self.rest.len()));
                }
                self.rest = rest;
                Ok(())
            }
            _ => Err(Refusal::At(Why::Syntax, self.rest.len())),
        }
    }

    /// Takes a comma, if it stands next.
    pub(crate) fn takes_comma(&mut self) -> bool
        ensures parts { TakesComma self.old.rest.now self.new.rest.now result }
        ensures clauses { TakesClauseComma self.old.rest.now self.new.rest.now result }
        ensures shorter { length self.new.rest.now ≤ length self.old.rest.now }
        ensures some { result ≡ true → length self.new.rest.now < length self.old.rest.now }
    {
        match self.rest {
            [
                Tok {
                    kind: TokKind::Sign(Sign::Comma),
                    ..
                },
                rest @ ..,
            ] => {
                self.rest = rest;
                true
            }
            _ => false,
        }
    }

    /// Takes a variable.
    pub(crate) fn var(&mut self) -> Result<Name, Refusal>
        ensures moves { ReadsOne var self.old.rest.now self.new.rest.now result }
        ensures shorter { length self.new.rest.now ≤ length self.old.rest.now }
    {
        match self.rest {
            [
                Tok {
                    kind: TokKind::Var(found),
                    ..
                },
                rest @ ..,
            ] => {
                let name = found.copy(self.alloc)?;
                self.rest = rest;
                Ok(name)
            }
            _ => Err(Refusal::At(Why::Syntax, self.rest.len())),
        }
    }

    /// Takes a name.
    pub(crate) fn name(&mut self) -> Result<Name, Refusal>
        ensures moves { ReadsOne name self.old.rest.now self.new.rest.now result }
        ensures shorter { length self.new.rest.now ≤ length self.old.rest.now }
    {
        match self.rest {
            [
                Tok {
                    kind: TokKind::Name(found),
                    ..
                },
                rest @ ..,
            ] => {
                let name = found.copy(self.alloc)?;
                self.rest = rest;
                Ok(name)
            }
            _ => Err(Refusal::At(Why::Syntax, self.rest.len())),
        }
    }
}
