//! Queries as trees (XQuery 1.0, section 3; the fragment is this project's).
//!
//! `Exprs` and `QConds` hold members that hold them again, so their clauses speak of plain trees.
ghost use Rattle.std.specs.Prelude.{◌≡◌, ◌++◌, ◌∷◌, [], map, box_value, IfOk, OnOk, OnErr, option_map};
ghost use Rattle.gcx_model.specs.Query.{cond_tree, cond_trees, expr_tree, expr_trees, exprs_of, query_trees};
ghost use Rattle.gcx_model.specs.Query as tree;

use gcx_base::{Memory, Name, Rel, Steps, Text};
use std::alloc::Global;
use std::marker::Model;

/// A path from a variable, or from the document node where `start` is None.
#[derive(Drop, Debug)]
pub struct PathExpr {
    pub start: Option<Name>,
    pub steps: Steps,
}

impl PathExpr {
    /// A copy of the path. `Memory`: there was no room for it.
    pub fn copy(&self, alloc: Global) -> Result<PathExpr, Memory>
        ensures { IfOk result (λ path. path ≡ self.now) }
    {
        let start = copy_name(&self.start, alloc)?;
        let steps = self.steps.copy(alloc)?;
        Ok(PathExpr { start, steps })
    }
}

fn copy_name(name: &Option<Name>, alloc: Global) -> Result<Option<Name>, Memory>
    ensures { IfOk result (λ copied. copied ≡ name.now) }
{
    match name {
        Some(name) => Ok(Some(name.copy(alloc)?)),
        None => Ok(None),
    }
}

/// One variable of a loop, and the path over which it runs.
#[derive(Drop, Debug)]
pub struct Clause {
    pub var: Name,
    pub path: PathExpr,
}

impl Clause {
    /// A copy of the clause. `Memory`: there was no room for it.
    pub fn copy(&self, alloc: Global) -> Result<Clause, Memory>
        ensures { IfOk result (λ clause. clause ≡ self.now) }
    {
        let var = self.var.copy(alloc)?;
        let path = self.path.copy(alloc)?;
        Ok(Clause { var, path })
    }
}

/// The clauses of one `for`, seen as a list.
#[derive(Drop, Debug)]
pub struct Clauses {
    clauses: Vec<Clause>,
}

impl Model for Clauses {
    ghost use Rattle.std.specs.Prelude.{List};
    ghost use Rattle.gcx_model.specs.declared.query.Clause.{Clause};

    ghost Value = { List Clause };

    ghost view = { λ c. c.clauses.items };
}

impl Clauses {
    /// The empty list.
    pub fn new(alloc: Global) -> Clauses
        ensures { result ≡ [] }
    {
        Clauses {
            clauses: Vec::new(alloc),
        }
    }

    /// Adds a clause at the end. After `Memory` the list is unchanged.
    pub fn push(&mut self, clause: Clause) -> Result<(), Memory>
        ensures ok { OnOk result (self.new ≡ self.old ++ clause ∷ []) }
        ensures err { OnErr result (self.new ≡ self.old) }
    {
        self.clauses.push(clause)?;
        Ok(())
    }

    /// The clauses in order.
    pub fn items(&self) -> &[Clause]
        ensures { result.now ≡ self.now }
    {
        &self.clauses
    }

    /// A copy of the list. `Memory`: there was no room for it.
    pub fn copy(&self, alloc: Global) -> Result<Clauses, Memory>
        ensures { IfOk result (λ clauses. clauses ≡ self.now) }
    {
        let mut copied = Clauses::new(alloc);
        for clause in &self.clauses {
            copied.push(clause.copy(alloc)?)?;
        }
        Ok(copied)
    }
}

/// One side of a comparison.
#[derive(Drop, Debug)]
pub enum QOperand {
    Path(PathExpr),
    Str(Text),
    /// A number in units of 10^-18.
    Num(i128),
}

impl QOperand {
    /// A copy of the operand. `Memory`: there was no room for it.
    pub fn copy(&self, alloc: Global) -> Result<QOperand, Memory>
        ensures { IfOk result (λ operand. operand ≡ self.now) }
    {
        match self {
            QOperand::Path(path) => Ok(QOperand::Path(path.copy(alloc)?)),
            QOperand::Str(text) => Ok(QOperand::Str(text.copy(alloc)?)),
            QOperand::Num(units) => Ok(QOperand::Num(*units)),
        }
    }
}

/// A condition of a query.
#[derive(Drop, Debug)]
#[cycle(conditions)]
pub enum QCond {
    True,
    Exists(PathExpr),
    /// At most one side is a literal.
    Compare {
        left: QOperand,
        rel: Rel,
        right: QOperand,
    },
    Not(Box<QCond>),
    /// At least two members.
    All(QConds),
    /// At least two members.
    Any(QConds),
}

impl QCond {
    /// A copy of the condition. `Memory`: there was no room for it.
    #[cycle(copy_conditions)]
    pub fn copy(&self, alloc: Global) -> Result<QCond, Memory>
        ensures { IfOk result (λ cond. cond_tree cond ≡ cond_tree self.now) }
    {
        match self {
            QCond::True => Ok(QCond::True),
            QCond::Exists(path) => Ok(QCond::Exists(path.copy(alloc)?)),
            QCond::Compare { left, rel, right } => {
                let left = left.copy(alloc)?;
                let right = right.copy(alloc)?;
                Ok(QCond::Compare {
                    left,
                    rel: *rel,
                    right,
                })
            }
            QCond::Not(cond) => Ok(QCond::Not(Box::new(alloc, cond.copy(alloc)?)?)),
            QCond::All(conds) => Ok(QCond::All(conds.copy(alloc)?)),
            QCond::Any(conds) => Ok(QCond::Any(conds.copy(alloc)?)),
        }
    }
}

/// A list of conditions.
#[derive(Drop, Debug)]
#[cycle(conditions)]
pub struct QConds {
    pub members: Vec<QCond>,
}

impl QConds {
    /// The empty list.
    pub fn new(alloc: Global) -> QConds
        ensures { cond_trees result ≡ [] }
    {
        QConds {
            members: Vec::new(alloc),
        }
    }

    /// Adds a condition at the end. After `Memory` the list is unchanged.
    pub fn push(&mut self, cond: QCond) -> Result<(), Memory>
        ensures ok { OnOk result (cond_trees self.new ≡ cond_trees self.old ++ cond_tree cond ∷ []) }
        ensures err { OnErr result (cond_trees self.new ≡ cond_trees self.old) }
    {
        self.members.push(cond)?;
        Ok(())
    }

    /// The conditions in order.
    pub fn items(&self) -> &[QCond]
        ensures same { result.now ≡ self.now.members.items }
        ensures trees { map cond_tree result.now ≡ cond_trees self.now }
    {
        &self.members
    }

    /// A copy of the list. `Memory`: there was no room for it.
    #[cycle(copy_conditions)]
    pub fn copy(&self, alloc: Global) -> Result<QConds, Memory>
        ensures { IfOk result (λ conds. cond_trees conds ≡ cond_trees self.now) }
    {
        let mut copied = QConds::new(alloc);
        for cond in self.items() {
            copied.push(cond.copy(alloc)?)?;
        }
        Ok(copied)
    }
}

/// An expression of a query.
#[derive(Drop, Debug)]
#[cycle(expressions)]
pub enum Expr {
    /// `()`
    Empty,
    /// A sequence of two parts or more.
    Seq(Exprs),
    /// A constructor.
    Elem {
        name: Name,
        body: Exprs,
    },
    Path(PathExpr),
    For {
        clauses: Clauses,
        filter: Option<QCond>,
        body: Box<Expr>,
    },
    If {
        cond: QCond,
        then: Box<Expr>,
        other: Box<Expr>,
    },
}

impl Expr {
    /// A copy of the expression. `Memory`: there was no room for it.
    #[cycle(copy_expressions)]
    pub fn copy(&self, alloc: Global) -> Result<Expr, Memory>
        ensures { IfOk result (λ expr. expr_tree expr ≡ expr_tree self.now) }
    {
        match self {
            Expr::Empty => Ok(Expr::Empty),
            Expr::Seq(parts) => Ok(Expr::Seq(parts.copy(alloc)?)),
            Expr::Elem { name, body } => copy_element(name, body, alloc),
            Expr::Path(path) => Ok(Expr::Path(path.copy(alloc)?)),
            Expr::For {
                clauses,
                filter,
                body,
            } => {
                let body = copy_box(body, alloc)?;
                loop_over(clauses, filter, body, alloc)
            }
            Expr::If { cond, then, other } => {
                let then = copy_box(then, alloc)?;
                let other = copy_box(other, alloc)?;
                choice_of(cond, then, other, alloc)
            }
        }
    }
}

/// The expression once more, in a box.
#[cycle(copy_expressions)]
fn copy_box(expr: &Expr, alloc: Global) -> Result<Box<Expr>, Memory>
    ensures { IfOk result (λ copied. expr_tree (box_value copied) ≡ expr_tree expr.now) }
{
    let expr = expr.copy(alloc)?;
    Ok(Box::new(alloc, expr)?)
}

/// A constructor with copies of the name and of the body.
#[cycle(copy_expressions)]
fn copy_element(name: &Name, body: &Exprs, alloc: Global) -> Result<Expr, Memory>
    ensures { IfOk result (λ expr. expr_tree expr ≡ tree.Elem name.now (exprs_of (expr_trees body.now))) }
{
    let name = name.copy(alloc)?;
    let body = body.copy(alloc)?;
    Ok(Expr::Elem { name, body })
}

/// A loop over this body, with copies of the clauses and of the filter.
fn loop_over(
    clauses: &Clauses,
    filter: &Option<QCond>,
    body: Box<Expr>,
    alloc: Global,
) -> Result<Expr, Memory>
    ensures { IfOk result (λ expr. expr_tree expr ≡
        tree.QueryFor clauses.now (option_map cond_tree filter.now) (expr_tree (box_value body))) }
{
    let clauses = clauses.copy(alloc)?;
    let filter = copy_filter(filter, alloc)?;
    Ok(Expr::For {
        clauses,
        filter,
        body,
    })
}

/// An `if` with these branches, and a copy of the condition.
fn choice_of(cond: &QCond, then: Box<Expr>, other: Box<Expr>, alloc: Global) -> Result<Expr, Memory>
    ensures { IfOk result (λ expr. expr_tree expr ≡
        tree.QueryIf (cond_tree cond.now) (expr_tree (box_value then)) (expr_tree (box_value other))) }
{
    let cond = cond.copy(alloc)?;
    Ok(Expr::If { cond, then, other })
}

fn copy_filter(filter: &Option<QCond>, alloc: Global) -> Result<Option<QCond>, Memory>
    ensures { IfOk result (λ copied. option_map cond_tree copied ≡ option_map cond_tree filter.now) }
{
    match filter {
        Some(cond) => Ok(Some(cond.copy(alloc)?)),
        None => Ok(None),
    }
}

/// A list of expressions.
#[derive(Drop, Debug)]
#[cycle(expressions)]
pub struct Exprs {
    pub members: Vec<Expr>,
}

impl Exprs {
    /// The empty list.
    pub fn new(alloc: Global) -> Exprs
        ensures { expr_trees result ≡ [] }
    {
        Exprs {
            members: Vec::new(alloc),
        }
    }

    /// Adds an expression at the end. After `Memory` the list is unchanged.
    pub fn push(&mut self, expr: Expr) -> Result<(), Memory>
        ensures ok { OnOk result (expr_trees self.new ≡ expr_trees self.old ++ expr_tree expr ∷ []) }
        ensures err { OnErr result (expr_trees self.new ≡ expr_trees self.old) }
    {
        self.members.push(expr)?;
        Ok(())
    }

    /// The expressions in order.
    pub fn items(&self) -> &[Expr]
        ensures same { result.now ≡ self.now.members.items }
        ensures trees { map expr_tree result.now ≡ expr_trees self.now }
    {
        &self.members
    }

    /// A copy of the list. `Memory`: there was no room for it.
    #[cycle(copy_expressions)]
    pub fn copy(&self, alloc: Global) -> Result<Exprs, Memory>
        ensures { IfOk result (λ exprs. expr_trees exprs ≡ expr_trees self.now) }
    {
        let mut copied = Exprs::new(alloc);
        for expr in self.items() {
            copied.push(expr.copy(alloc)?)?;
        }
        Ok(copied)
    }
}

/// A query: at least one part.
#[derive(Drop, Debug)]
pub struct Query {
    pub parts: Exprs,
}

impl Query {
    /// A copy of the query. `Memory`: there was no room for it.
    pub fn copy(&self, alloc: Global) -> Result<Query, Memory>
        ensures { IfOk result (λ query. query_trees query ≡ query_trees self.now) }
    {
        let parts = self.parts.copy(alloc)?;
        Ok(Query { parts })
    }
}
