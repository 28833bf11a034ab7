//! Expressions.
ghost use Rattle.std.specs.Prelude.{◌≡◌, ◌≤◌, ◌<◌, ◌+◌, ◌++◌, ◌∷◌, [], length, IfOk, OnOk, box_value, option_map};
ghost use Rattle.gcx_model.specs.Query.{cond_tree, expr_tree, expr_trees};
ghost use Rattle.xq_parse.specs.Grammar.{seq_of};
ghost use Rattle.xq_parse.specs.Machine.{deepest, clause_state, clauses_state, condition, content, elem_state, else_state, expr, for_state, head_state, if_state, inner, list_state, loop_body_state, loop_head_state, tag};
ghost use Rattle.xq_parse.specs.Behind.{ExprHasRoom, Extends, PartHasRoom};
ghost use Rattle.xq_parse.specs.Calls.{Parses, ParsesClauses, ParsesHead, TakesClose, ReadsTagEnd, ReadsExprStart, ReadsPart};

use crate::conditions::Parser;
use crate::cursor::{Cursor, MOST, is_word};
use crate::refusal::{Refusal, Why};
use gcx_base::{Memory, Name};
use gcx_model::{Clause, Clauses, Expr, Exprs, QCond};
use xq_lex::{Sign, Tok, TokKind};

/// How an expression begins.
#[derive(Clone, Copy, Drop)]
pub(crate) enum ExprStart {
    For,
    If,
    Elem,
    Paren,
    Path,
}

/// What stands between `for` and `return`.
#[derive(Drop)]
struct LoopHead {
    clauses: Clauses,
    filter: Option<QCond>,
}

/// How a part of a constructor's body begins.
#[derive(Clone, Copy, Drop)]
pub(crate) enum Part {
    End,
    Nested,
    Braced,
}

impl<'a> Cursor<'a> {
    /// Takes what tells how an expression goes on.
    fn takes_expr(&mut self, depth: usize) -> Result<ExprStart, Refusal>
        requires { depth ≤ deepest }
        ensures moves { ReadsExprStart depth self.old.rest.now self.new.rest.now result }
        ensures room { IfOk result (λ s. ExprHasRoom depth s) }
        ensures shorter { length self.new.rest.now ≤ length self.old.rest.now }
    {
        let Some(next) = self.rest.first() else {
            return Ok(ExprStart::Path);
        };
        let start = match &next.kind {
            TokKind::Name(found) if is_word(found, b"for") => ExprStart::For,
            TokKind::Name(found) if is_word(found, b"if") => ExprStart::If,
            TokKind::Name(_) => return Err(Refusal::At(Why::Syntax, self.rest.len())),
            TokKind::Sign(Sign::Lt) => ExprStart::Elem,
            TokKind::Sign(Sign::ParenOpen) => ExprStart::Paren,
            _ => return Ok(ExprStart::Path),
        };
        self.open(depth)?;
        Ok(start)
    }

    /// Takes the `)` of an empty parenthesis.
    fn takes_close(&mut self) -> bool
        ensures moves { TakesClose self.old.rest.now self.new.rest.now result }
        ensures shorter { length self.new.rest.now ≤ length self.old.rest.now }
    {
        match self.rest {
            [
                Tok {
                    kind: TokKind::Sign(Sign::ParenClose),
                    ..
                },
                rest @ ..,
            ] => {
                self.rest = rest;
                true
            }
            _ => false,
        }
    }

    /// Takes the end of a start tag: whether the constructor ends with it.
    fn takes_tag_end(&mut self) -> Result<bool, Refusal>
        ensures moves { ReadsTagEnd self.old.rest.now self.new.rest.now result }
        ensures shorter { length self.new.rest.now ≤ length self.old.rest.now }
    {
        match self.rest {
            [
                Tok {
                    kind: TokKind::Sign(Sign::EmptyEnd),
                    ..
                },
                rest @ ..,
            ] => {
                self.rest = rest;
                Ok(true)
            }
            [
                Tok {
                    kind: TokKind::Sign(Sign::Gt),
                    ..
                },
                rest @ ..,
            ] => {
                self.rest = rest;
                Ok(false)
            }
            _ => Err(Refusal::At(Why::Syntax, self.rest.len())),
        }
    }

    /// Takes what tells what comes next in a constructor.
    fn takes_part(&mut self, depth: usize) -> Result<Part, Refusal>
        requires { depth ≤ deepest }
        ensures moves { ReadsPart depth self.old.rest.now self.new.rest.now result }
        ensures room { IfOk result (λ p. PartHasRoom depth p) }
        ensures shorter { length self.new.rest.now ≤ length self.old.rest.now }
        ensures some { OnOk result (length self.new.rest.now < length self.old.rest.now) }
    {
        let Some(next) = self.rest.first() else {
            return Err(Refusal::At(Why::Syntax, 0));
        };
        let part = match next.kind {
            TokKind::Sign(Sign::EndTag) => Part::End,
            TokKind::Sign(Sign::BraceOpen) => Part::Braced,
            TokKind::Sign(Sign::Lt) => {
                self.open(depth)?;
                return Ok(Part::Nested);
            }
            _ => return Err(Refusal::At(Why::Syntax, self.rest.len())),
        };
        self.rest = &self.rest[1..];
        Ok(part)
    }
}

/// Puts the expressions behind those before.
fn append(body: &mut Exprs, parts: Exprs) -> Result<(), Memory>
    ensures { OnOk result (expr_trees body.new ≡ expr_trees body.old ++ expr_trees parts) }
{
    let mut parts = parts.members;
    body.members.append(&mut parts)?;
    Ok(())
}

/// Expressions in a parenthesis; one alone is that one.
fn in_parens(parts: Exprs) -> Expr
    ensures { expr_tree result ≡ seq_of (expr_trees parts) }
{
    let mut parts = parts;
    match parts.members.len() {
        0 => Expr::Empty,
        1 => match parts.members.pop() {
            Some(part) => part,
            None => unreachable!(),
        },
        _ => Expr::Seq(parts),
    }
}

impl<'a> Parser<'a> {
    /// Reads a variable and its path. The variable is in scope from then on.
    #[tactic(auto, unfolding(crate::specs::Machine::clause_state))]
    fn clause(&mut self) -> Result<Clause, Refusal>
        ensures moves { Parses (λ c. c) clause_state self.old self.new result }
        ensures scope { IfOk result (λ c. self.new.scope ≡ c.var ∷ self.old.scope) }
        ensures shorter { length self.new.cursor.rest.now ≤ length self.old.cursor.rest.now }
    {
        let var = self.cursor.var()?;
        self.cursor.word(b"in")?;
        let route = self.cursor.source()?;
        self.marks.see_in_order(&self.scope, &route);
        self.scope.bind(var.copy(self.cursor.alloc)?)?;
        Ok(Clause {
            var,
            path: route.path,
        })
    }

    /// Reads the clauses of a loop.
    #[tactic(auto, using(crate::proofs::ScopeLaws::extends_after, crate::proofs::ScopeLaws::extends_one))]
    fn clauses(&mut self) -> Result<Clauses, Refusal>
        ensures moves { ParsesClauses clauses_state self.old self.new result }
        ensures scope { OnOk result (Extends self.new.scope self.old.scope) }
        ensures shorter { length self.new.cursor.rest.now ≤ length self.old.cursor.rest.now }
    {
        let first = self.clause()?;
        let mut clauses = Clauses::new(self.cursor.alloc);
        clauses.push(first)?;
        while self.cursor.takes_comma() {
            let clause = self.clause()?;
            clauses.push(clause)?;
        }
        Ok(clauses)
    }

    /// Reads the condition of a loop, if it has one.
    fn filter(&mut self, depth: usize) -> Result<Option<QCond>, Refusal>
        requires { depth ≤ deepest }
        ensures moves { Parses (λ c. option_map cond_tree c) (condition depth) self.old self.new result }
        ensures scope { OnOk result (self.new.scope ≡ self.old.scope) }
        ensures shorter { length self.new.cursor.rest.now ≤ length self.old.cursor.rest.now }
    {
        if !self.cursor.takes_where() {
            return Ok(None);
        }
        let cond = self.condition(depth)?;
        Ok(Some(cond))
    }

    /// Reads an expression, with `depth` constructs open before it.
    #[cycle(exprs)]
    fn expr(&mut self, depth: usize) -> Result<Expr, Refusal>
        requires { depth ≤ deepest }
        ensures moves { Parses expr_tree (expr depth) self.old self.new result }
        ensures scope { OnOk result (self.new.scope ≡ self.old.scope) }
        ensures shorter { length self.new.cursor.rest.now ≤ length self.old.cursor.rest.now }
    {
        match self.cursor.takes_expr(depth)? {
            ExprStart::For => {
                let expr = self.for_expr(depth + 1)?;
                Ok(expr)
            }
            ExprStart::If => {
                let expr = self.if_expr(depth + 1)?;
                Ok(expr)
            }
            ExprStart::Elem => {
                let expr = self.elem(depth + 1)?;
                Ok(expr)
            }
            ExprStart::Paren => {
                let expr = self.inner(depth + 1)?;
                Ok(expr)
            }
            ExprStart::Path => {
                let route = self.cursor.path()?;
                self.marks.see_in_order(&self.scope, &route);
                Ok(Expr::Path(route.path))
            }
        }
    }

    /// Reads the clauses of a loop and its condition, if it has one.
    fn loop_head(&mut self, depth: usize) -> Result<LoopHead, Refusal>
        requires { depth ≤ deepest }
        ensures moves { ParsesHead (loop_head_state depth) self.old self.new result }
        ensures scope { OnOk result (Extends self.new.scope self.old.scope) }
        ensures shorter { length self.new.cursor.rest.now ≤ length self.old.cursor.rest.now }
    {
        let clauses = self.clauses()?;
        let filter = self.filter(depth)?;
        Ok(LoopHead { clauses, filter })
    }

    /// Reads an expression that stands inside another one.
    #[cycle(exprs)]
    fn part(&mut self, depth: usize) -> Result<Box<Expr>, Refusal>
        requires { depth ≤ deepest }
        ensures moves { Parses (λ e. expr_tree (box_value e)) (expr depth) self.old self.new result }
        ensures scope { OnOk result (self.new.scope ≡ self.old.scope) }
        ensures shorter { length self.new.cursor.rest.now ≤ length self.old.cursor.rest.now }
    {
        let part = self.expr(depth)?;
        Ok(Box::new(self.cursor.alloc, part)?)
    }

    /// Reads `return` and the body of a loop.
    #[cycle(exprs)]
    fn loop_body(&mut self, depth: usize) -> Result<Box<Expr>, Refusal>
        requires { depth ≤ deepest }
        ensures moves { Parses (λ e. expr_tree (box_value e)) (loop_body_state depth) self.old self.new result }
        ensures scope { OnOk result (self.new.scope ≡ self.old.scope) }
        ensures shorter { length self.new.cursor.rest.now ≤ length self.old.cursor.rest.now }
    {
        self.cursor.word(b"return")?;
        let body = self.part(depth)?;
        Ok(body)
    }

    /// Reads what stands behind `for`.
    #[tactic(auto, unfolding(crate::specs::Machine::for_state))]
    #[cycle(exprs)]
    fn for_expr(&mut self, depth: usize) -> Result<Expr, Refusal>
        requires { depth ≤ deepest }
        ensures moves { Parses expr_tree (for_state depth) self.old self.new result }
        ensures scope { OnOk result (self.new.scope ≡ self.old.scope) }
        ensures shorter { length self.new.cursor.rest.now ≤ length self.old.cursor.rest.now }
    {
        let outer = self.scope.len();
        let LoopHead { clauses, filter } = self.loop_head(depth)?;
        let body = self.loop_body(depth)?;
        self.scope.leave(outer);
        Ok(Expr::For {
            clauses,
            filter,
            body,
        })
    }

    /// Reads what stands between `if` and the first branch.
    #[tactic(auto, unfolding(crate::specs::Machine::head_state))]
    fn head(&mut self, depth: usize) -> Result<QCond, Refusal>
        requires { depth ≤ deepest }
        ensures moves { Parses cond_tree (head_state depth) self.old self.new result }
        ensures scope { OnOk result (self.new.scope ≡ self.old.scope) }
        ensures shorter { length self.new.cursor.rest.now ≤ length self.old.cursor.rest.now }
    {
        self.cursor.sign(Sign::ParenOpen)?;
        let cond = self.condition(depth)?;
        self.cursor.sign(Sign::ParenClose)?;
        self.cursor.word(b"then")?;
        Ok(cond)
    }

    /// Reads `else` and the other branch.
    #[cycle(exprs)]
    fn other_branch(&mut self, depth: usize) -> Result<Box<Expr>, Refusal>
        requires { depth ≤ deepest }
        ensures moves { Parses (λ e. expr_tree (box_value e)) (else_state depth) self.old self.new result }
        ensures scope { OnOk result (self.new.scope ≡ self.old.scope) }
        ensures shorter { length self.new.cursor.rest.now ≤ length self.old.cursor.rest.now }
    {
        self.cursor.word(b"else")?;
        let other = self.part(depth)?;
        Ok(other)
    }

    /// Reads what stands behind `if`.
    #[tactic(auto, unfolding(crate::specs::Machine::if_state))]
    #[cycle(exprs)]
    fn if_expr(&mut self, depth: usize) -> Result<Expr, Refusal>
        requires { depth ≤ deepest }
        ensures moves { Parses expr_tree (if_state depth) self.old self.new result }
        ensures scope { OnOk result (self.new.scope ≡ self.old.scope) }
        ensures shorter { length self.new.cursor.rest.now ≤ length self.old.cursor.rest.now }
    {
        let cond = self.head(depth)?;
        let then = self.part(depth)?;
        let other = self.other_branch(depth)?;
        Ok(Expr::If { cond, then, other })
    }

    /// Reads what stands behind the `<` of a constructor.
    #[tactic(auto, unfolding(crate::specs::Machine::elem_state))]
    #[cycle(exprs)]
    fn elem(&mut self, depth: usize) -> Result<Expr, Refusal>
        requires { depth ≤ deepest }
        ensures moves { Parses expr_tree (elem_state depth) self.old self.new result }
        ensures scope { OnOk result (self.new.scope ≡ self.old.scope) }
        ensures shorter { length self.new.cursor.rest.now ≤ length self.old.cursor.rest.now }
    {
        let name = self.cursor.name()?;
        let body = self.tag(depth, &name)?;
        Ok(Expr::Elem { name, body })
    }

    /// Reads what stands behind the name of a start tag.
    #[cycle(exprs)]
    fn tag(&mut self, depth: usize, name: &Name) -> Result<Exprs, Refusal>
        requires { depth ≤ deepest }
        ensures moves { Parses expr_trees (λ sc m. tag depth sc m name.now) self.old self.new result }
        ensures scope { OnOk result (self.new.scope ≡ self.old.scope) }
        ensures shorter { length self.new.cursor.rest.now ≤ length self.old.cursor.rest.now }
    {
        if self.cursor.takes_tag_end()? {
            return Ok(Exprs::new(self.cursor.alloc));
        }
        let body = self.content(depth, name)?;
        Ok(body)
    }

    /// Reads the body of a constructor and its end tag.
    #[cycle(exprs)]
    fn content(&mut self, depth: usize, name: &Name) -> Result<Exprs, Refusal>
        requires { depth ≤ deepest }
        ensures moves { Parses expr_trees (λ sc m. content depth sc m name.now []) self.old self.new result }
        ensures scope { OnOk result (self.new.scope ≡ self.old.scope) }
        ensures shorter { length self.new.cursor.rest.now ≤ length self.old.cursor.rest.now }
    {
        let mut body = Exprs::new(self.cursor.alloc);
        loop {
            match self.cursor.takes_part(depth)? {
                Part::End => {
                    self.cursor.end_name(name)?;
                    self.cursor.sign(Sign::Gt)?;
                    return Ok(body);
                }
                Part::Nested => {
                    let expr = self.elem(depth + 1)?;
                    body.push(expr)?;
                }
                Part::Braced => {
                    let parts = self.list(depth)?;
                    self.cursor.sign(Sign::BraceClose)?;
                    append(&mut body, parts)?;
                }
            }
        }
    }

    /// Reads what stands behind the `(` of an expression.
    #[cycle(exprs)]
    fn inner(&mut self, depth: usize) -> Result<Expr, Refusal>
        requires { depth ≤ deepest }
        ensures moves { Parses expr_tree (inner depth) self.old self.new result }
        ensures scope { OnOk result (self.new.scope ≡ self.old.scope) }
        ensures shorter { length self.new.cursor.rest.now ≤ length self.old.cursor.rest.now }
    {
        if self.cursor.takes_close() {
            return Ok(Expr::Empty);
        }
        let parts = self.list(depth)?;
        self.cursor.sign(Sign::ParenClose)?;
        Ok(in_parens(parts))
    }

    /// Reads expressions with commas between them.
    #[cycle(exprs)]
    pub(crate) fn list(&mut self, depth: usize) -> Result<Exprs, Refusal>
        requires { depth ≤ deepest }
        ensures moves { Parses expr_trees (list_state depth) self.old self.new result }
        ensures scope { OnOk result (self.new.scope ≡ self.old.scope) }
        ensures shorter { length self.new.cursor.rest.now ≤ length self.old.cursor.rest.now }
    {
        let first = self.expr(depth)?;
        let mut parts = Exprs::new(self.cursor.alloc);
        parts.push(first)?;
        while self.cursor.takes_comma() {
            let part = self.expr(depth)?;
            parts.push(part)?;
        }
        Ok(parts)
    }
}
