//! `whole`: the answer of QUERY over the whole tree of DOC.
ghost use Rattle.gcx_words.specs.declared.command.Command.TheVariants.{Whole};
ghost use Rattle.gcx_cmd.specs.Does.{DoesBeside};

use crate::Status;
use crate::document::read_document;
use crate::query::read_query;
use crate::writing::write_text;
use gcx_base::Text;
use gcx_io::{Shelf, Sink};
use std::alloc::Global;
use tree_eval::answer_whole;

/// Runs `whole QUERY DOC`: reads DOC to its end, and then writes the answer of its tree.
pub(crate) fn write_whole<F: Shelf, O: Sink>(
    alloc: Global,
    query: &Text,
    document: &Text,
    files: &mut F,
    out: &mut O,
) -> Status
    ensures does { DoesBeside (Whole query.now document.now) result
        (F.seen files.old) (F.seen files.new) (O.seen out.old) (O.seen out.new) }
{
    let accepted = match read_query(alloc, files, query) {
        Ok(accepted) => accepted,
        Err(refused) => return refused,
    };
    let tree = match read_document(alloc, files, document) {
        Ok(tree) => tree,
        Err(stopped) => return stopped,
    };
    let Ok(answer) = answer_whole(alloc, &accepted.query, &tree) else {
        return Status::Memory;
    };
    write_text(out, &answer)
}
