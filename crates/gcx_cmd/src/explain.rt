//! `explain`: the plan of QUERY.
ghost use Rattle.gcx_words.specs.declared.command.Command.TheVariants.{Explain};
ghost use Rattle.gcx_cmd.specs.Does.{DoesBeside};

use crate::Status;
use crate::query::read_query;
use crate::writing::write_text;
use gcx_base::Text;
use gcx_io::{Shelf, Sink};
use signoff_place::explain;
use std::alloc::Global;

/// Runs `explain QUERY`: writes the plan.
pub(crate) fn write_plan<F: Shelf, O: Sink>(
    alloc: Global,
    query: &Text,
    files: &mut F,
    out: &mut O,
) -> Status
    ensures does { DoesBeside (Explain query.now) result
        (F.seen files.old) (F.seen files.new) (O.seen out.old) (O.seen out.new) }
{
    let accepted = match read_query(alloc, files, query) {
        Ok(accepted) => accepted,
        Err(refused) => return refused,
    };
    match explain(alloc, &accepted.plan) {
        Ok(text) => write_text(out, text.as_bytes()),
        Err(_) => Status::Memory,
    }
}
