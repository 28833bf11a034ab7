//! Cores of queries.
ghost use Rattle.std.specs.Prelude.{◌≡◌, map, IfOk};
ghost use Rattle.gcx_model.specs.Cores.{Good};
ghost use Rattle.gcx_model.specs.ItemView.{body_tree};
ghost use Rattle.gcx_model.specs.PlanView.{var_row_tree};
ghost use Rattle.gcx_model.specs.Variables.{var_rows};

use gcx_model::{Core, QueryFault};
use placed_laws::normal_is_good;
use std::alloc::Global;
use xq_normal::normalise;
use xq_parse::parse;

/// The core of a query.
pub(crate) fn core(alloc: Global, query: &[u8]) -> Result<Core, QueryFault>
    ensures good { IfOk result (λ core. Good (body_tree core.body)) }
    ensures rows { IfOk result (λ core. map var_row_tree core.vars ≡ var_rows (body_tree core.body)) }
{
    normal_is_good();
    let query = parse(alloc, query)?;
    let core = normalise(alloc, &query)?;
    Ok(core)
}
