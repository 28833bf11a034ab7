//! The types of queries, cores and plans, and the definitions that everything above is proved against.
#![tactic(auto)]

mod cond;
mod fault;
mod given;
mod item;
mod plan;
mod query;
mod truth;

pub use cond::{Cond, CondList, Operand};
pub use fault::{DocFault, QueryFault, What};
pub use given::Given;
pub use item::{Body, Item, Off, RoleKind};
pub use plan::{Core, Flags, Plan, RoleRow, RoleRows, VarIds, VarRow, VarRows};
pub use query::{Clause, Clauses, Expr, Exprs, PathExpr, QCond, QConds, QOperand, Query};
pub use truth::Truth;
