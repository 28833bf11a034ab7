//! The text of QUERY.
ghost use Rattle.std.specs.Prelude.{IfOk, IfErr, IsErrOf};
ghost use Rattle.gcx_cmd.specs.Main.{HasNoMemory};
ghost use Rattle.gcx_cmd.specs.QueryDoes.{ReadsText, StopsInQuery};
ghost use Rattle.gcx_cmd.specs.Reads.{CausesFault, KeepsShelf, Opens};

use crate::Status;
use gcx_base::Text;
use gcx_io::Shelf;
use gcx_model::{QueryFault, What};
use std::alloc::Global;

/// The most bytes of a query.
const LIMIT: usize = 1_048_576;

/// The most bytes of one read.
const PIECE: usize = 4_096;

/// Reads the text of QUERY, or the status to end with. No call comes behind the end, behind the limit or behind a
/// fault.
pub(crate) fn read_text<F: Shelf>(
    alloc: Global,
    files: &mut F,
    name: &Text,
) -> Result<Vec<u8>, Status>
    ensures whole { IfOk result (λ text. Opens 1 (F.seen files.old) (F.seen files.new)
        × ReadsText name.now text.items (F.seen files.old) (F.seen files.new)) }
    ensures stops { IfErr result (λ status. StopsInQuery name.now status (F.seen files.old) (F.seen files.new)) }
    ensures keeps { KeepsShelf (F.seen files.old) (F.seen files.new) }
    ensures cause { IsErrOf result Status.ReadFault → CausesFault name.now (F.seen files.old) (F.seen files.new) }
    ensures memory { IfErr result HasNoMemory }
{
    let handle = files.attach(name)?;
    let mut text = Vec::new(alloc);
    let mut buf = [0u8; PIECE];
    'reading: while text.len() <= LIMIT {
        let Ok(count) = files.read(handle, &mut buf) else {
            return Err(Status::ReadFault);
        };
        if count == 0 {
            return Ok(text);
        }
        if text.extend_from_slice(&buf[..count]).is_err() {
            return Err(Status::Memory);
        }
    }
    Err(Status::QueryRefused(QueryFault::TooLarge(What::Text, LIMIT as u64)))
}
