//! DOC as a tree, or as tokens.
ghost use Rattle.std.specs.Prelude.{IfErr, IsErrOf};
ghost use Rattle.gcx_cmd.specs.DocumentDoes.{TokensDoes, TreeDoes};
ghost use Rattle.gcx_cmd.specs.Main.{HasNoMemory};
ghost use Rattle.gcx_cmd.specs.Reads.{CausesFault, KeepsShelf};

use crate::Status;
use doc_reader::Token;
use doc_tree::Tree;
use gcx_base::Text;
use gcx_io::{Opened, Shelf};
use std::alloc::Global;
use std::collections::VecDeque;
use tree_read::{DocumentEnd, read_tokens, read_tree};

impl From<DocumentEnd> for Status {
    ghost use Rattle.std.specs.Prelude.{◌≡◌};
    ghost use Rattle.gcx_cmd.specs.ReadEnd.{document_status};

    ghost from_gives = { λ end e. e ≡ document_status end };

    fn from(end: DocumentEnd) -> Status {
        match end {
            DocumentEnd::Refused(fault) => Status::DocumentRefused(fault),
            DocumentEnd::Fault => Status::ReadFault,
            DocumentEnd::Memory => Status::Memory,
        }
    }
}

/// The tree of a document, or the status to end with.
pub(crate) fn read_document<F: Shelf>(
    alloc: Global,
    files: &mut F,
    name: &Text,
) -> Result<Tree, Status>
    ensures reads { TreeDoes name.now result (F.seen files.old) (F.seen files.new) }
    ensures keeps { KeepsShelf (F.seen files.old) (F.seen files.new) }
    ensures cause { IsErrOf result Status.ReadFault → CausesFault name.now (F.seen files.old) (F.seen files.new) }
    ensures memory { IfErr result HasNoMemory }
{
    let handle = files.attach(name)?;
    let mut source = Opened::new(files, handle);
    match read_tree(alloc, &mut source) {
        Ok(tree) => Ok(tree),
        Err(end) => Err(Status::from(end)),
    }
}

/// The tokens of a document, or the status to end with.
pub(crate) fn read_document_tokens<F: Shelf>(
    alloc: Global,
    files: &mut F,
    name: &Text,
) -> Result<VecDeque<Token>, Status>
    ensures reads { TokensDoes name.now result (F.seen files.old) (F.seen files.new) }
    ensures keeps { KeepsShelf (F.seen files.old) (F.seen files.new) }
    ensures cause { IsErrOf result Status.ReadFault → CausesFault name.now (F.seen files.old) (F.seen files.new) }
    ensures memory { IfErr result HasNoMemory }
{
    let handle = files.attach(name)?;
    let mut source = Opened::new(files, handle);
    match read_tokens(alloc, &mut source) {
        Ok(tokens) => Ok(tokens),
        Err(end) => Err(Status::from(end)),
    }
}
