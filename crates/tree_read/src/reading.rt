//! A document's tree from its bytes.
ghost use Rattle.std.specs.Prelude.{◌≡◌, ◌≤◌, ◌++◌, [], ℕ, List, Some, Bool, true, false, map, OnOk, IfErr, IsErrOf};
ghost use Rattle.std.specs.Io.{ReadsAtMost};
ghost use Rattle.gcx_base.specs.declared.limits.Limits.{Limits};
ghost use Rattle.gcx_io.specs.Calls.{ReadsSource};
ghost use Rattle.gcx_model.specs.Tree.{grow_all};
ghost use Rattle.doc_reader.specs.Standing.{IsOpen, Stands, KeepsAnswer, waiting, said_of, Token as Given};
ghost use Rattle.tree_read.specs.Document.{HasGrown, IsWhole, EndsBy, ReadsDocument, SaysWhy};

use doc_reader::Reader;
use doc_tree::Tree;
use gcx_base::{Limits, Memory};
use gcx_io::{Failed, Source};
use gcx_model::DocFault;
use std::alloc::Global;
use thiserror::Error;

/// The most bytes of one read.
pub(crate) const PIECE: usize = 65_536;

/// Why there is no tree.
#[derive(Clone, Copy, Debug, PartialEq, Eq, Error)]
pub enum DocumentEnd {
    /// The document isn't accepted.
    #[error("{0}")]
    Refused(DocFault),
    /// A read failed.
    #[error("input or output failed")]
    Fault,
    /// Want of memory.
    #[error("out of memory")]
    Memory,
}

impl From<Failed> for DocumentEnd {
    ghost use Rattle.std.specs.Prelude.{◌≡◌};
    ghost use Rattle.tree_read.specs.declared.reading.DocumentEnd.TheVariants.{Fault};

    ghost from_gives = { λ _ e. e ≡ Fault };

    fn from(_: Failed) -> DocumentEnd {
        DocumentEnd::Fault
    }
}

impl From<Memory> for DocumentEnd {
    ghost use Rattle.std.specs.Prelude.{◌≡◌};
    ghost use Rattle.tree_read.specs.declared.reading.DocumentEnd.TheVariants as end;

    ghost from_gives = { λ _ e. e ≡ end.Memory };

    fn from(_: Memory) -> DocumentEnd {
        DocumentEnd::Memory
    }
}

impl From<DocFault> for DocumentEnd {
    ghost use Rattle.std.specs.Prelude.{◌≡◌};
    ghost use Rattle.tree_read.specs.Document.{end_of};

    ghost from_gives = { λ fault e. e ≡ end_of fault };

    fn from(fault: DocFault) -> DocumentEnd {
        match fault {
            DocFault::Memory => DocumentEnd::Memory,
            fault => DocumentEnd::Refused(fault),
        }
    }
}

/// One read. One that fails is a fault.
pub(crate) fn read_piece<S: Source>(
    source: &mut S,
    buf: &mut [u8; PIECE],
) -> Result<usize, DocumentEnd>
    ensures bound { ReadsAtMost result buf.new }
    ensures fault { IfErr result (λ end. end ≡ DocumentEnd.Fault) }
    ensures reads { ReadsSource (S.seen source.old) (S.seen source.new) result buf.new }
    ensures kept { S.keeps source.old source.new }
    ensures later { S.faults source.old ≤ S.faults source.new }
{
    let n = source.read(buf)?;
    Ok(n)
}

/// Grows the tree by the tokens that wait.
fn take_waiting(reader: &mut Reader, tree: &mut Tree) -> Result<(), Memory>
    ensures tree { OnOk result (tree.new ≡ grow_all (map said_of (waiting reader.old)) tree.old) }
    ensures waiting { OnOk result (waiting reader.new ≡ []) }
    ensures stands { OnOk result
        ((lim : Limits) (b : List ℕ) (ended : Bool) (given : List Given) → Stands reader.old lim b ended given
        → Stands reader.new lim b ended (given ++ waiting reader.old)) }
    ensures keeps { KeepsAnswer reader.old reader.new }
{
    'tokens: while let Some(token) = reader.next() {
        tree.take(token)?;
    }
    Ok(())
}

/// Feeds a piece to the reader, and grows the tree by the tokens of its whole tags.
fn take_piece(reader: &mut Reader, tree: &mut Tree, piece: &[u8]) -> Result<(), DocumentEnd>
    requires { IsOpen reader.old }
    ensures grown { (b : List ℕ) → HasGrown reader.old tree.old b
        → EndsBy false (b ++ piece.now) result (HasGrown reader.new tree.new (b ++ piece.now)) }
    ensures open { OnOk result (IsOpen reader.new) }
    ensures why { IfErr result SaysWhy }
    ensures read { IsErrOf result DocumentEnd.Fault → ⊥ }
{
    reader.feed(piece)?;
    take_waiting(reader, tree)?;
    Ok(())
}

/// Ends the input, and grows the tree by the tokens that are left.
fn take_end(reader: &mut Reader, tree: &mut Tree) -> Result<(), DocumentEnd>
    ensures whole { (b : List ℕ) → HasGrown reader.old tree.old b → EndsBy true b result (IsWhole b tree.new) }
    ensures why { IfErr result SaysWhy }
    ensures read { IsErrOf result DocumentEnd.Fault → ⊥ }
{
    reader.finish()?;
    take_waiting(reader, tree)?;
    Ok(())
}

/// The tree of the document that the source gives to its end. No read comes behind the end, behind a fault of the bytes or behind
/// one that failed.
pub fn read_tree<S: Source>(alloc: Global, source: &mut S) -> Result<Tree, DocumentEnd>
    ensures reads { ReadsDocument (S.seen source.old) (S.seen source.new) result }
    ensures why { IfErr result SaysWhy }
    ensures kept { S.keeps source.old source.new }
    ensures later { S.faults source.old ≤ S.faults source.new }
{
    let limits = Limits::full();
    let mut reader = Reader::new(alloc, limits);
    let mut tree = Tree::new(alloc)?;
    let mut buf = [0u8; PIECE];
    let mut count = 0;
    'reading: while count <= limits.bytes {
        let n = read_piece(source, &mut buf)?;
        if n == 0 {
            take_end(&mut reader, &mut tree)?;
            return Ok(tree);
        }
        take_piece(&mut reader, &mut tree, &buf[..n])?;
        count += n as u64;
    }
    Err(DocumentEnd::Refused(DocFault::TooLong(limits.bytes)))
}
