//! How many loops the core of a query has. Counts stand still at their type's end.
ghost use Rattle.std.specs.Prelude.{◌≡◌, length};
ghost use Rattle.gcx_model.specs.Query.{expr_tree, expr_trees, exprs_of};
ghost use Rattle.gcx_model.specs.Normal.{all_loops, clause_loops, loops};
ghost use Rattle.xq_normal.specs.Shapes.{capped};

use gcx_model::{Clause, Expr, Exprs, PathExpr};

fn path_loops(path: &PathExpr) -> u64
    ensures { result ≡ capped (length path.now.steps) }
{
    path.steps.items().len() as u64
}

fn clause_loops(clauses: &[Clause]) -> u64
    ensures { result ≡ capped (clause_loops clauses.now) }
{
    let mut count: u64 = 0;
    for clause in clauses {
        count = count.saturating_add(path_loops(&clause.path));
    }
    count
}

#[cycle(loops)]
fn expr_loops(expr: &Expr) -> u64
    ensures { result ≡ capped (loops (expr_tree expr.now)) }
{
    match expr {
        Expr::Empty => 0,
        Expr::Seq(parts) => all_loops(parts),
        Expr::Elem { body, .. } => all_loops(body),
        Expr::Path(path) => path_loops(path),
        Expr::For { clauses, body, .. } => {
            let inside = expr_loops(body);
            clause_loops(clauses.items()).saturating_add(inside)
        }
        Expr::If { then, other, .. } => {
            let first = expr_loops(then);
            let second = expr_loops(other);
            first.saturating_add(second)
        }
    }
}

#[cycle(loops)]
pub(crate) fn all_loops(exprs: &Exprs) -> u64
    ensures { result ≡ capped (all_loops (exprs_of (expr_trees exprs.now))) }
{
    let mut count: u64 = 0;
    for expr in exprs.items() {
        count = count.saturating_add(expr_loops(expr));
    }
    count
}
