//! A document's tokens from its bytes.
ghost use Rattle.std.specs.Prelude.{◌≡◌, ◌≤◌, ◌++◌, [], ℕ, List, Bool, true, false, map, OnOk, IfErr, IsErrOf};
ghost use Rattle.gcx_base.specs.declared.limits.Limits.{Limits};
ghost use Rattle.doc_reader.specs.Standing.{IsOpen, Stands, KeepsAnswer, waiting, said_of, Token as Given};
ghost use Rattle.tree_read.specs.Document.{HasGiven, AreTokens, EndsBy, ReadsTokens, SaysWhy};

use crate::reading::{DocumentEnd, PIECE, read_piece};
use doc_reader::{Reader, Token};
use gcx_base::{Limits, Memory};
use gcx_io::Source;
use gcx_model::DocFault;
use std::alloc::Global;
use std::collections::VecDeque;

/// Puts the tokens that wait behind the others.
fn keep_waiting(reader: &mut Reader, tokens: &mut VecDeque<Token>) -> Result<(), Memory>
    ensures tokens { OnOk result (tokens.new.items ≡ tokens.old.items ++ waiting reader.old) }
    ensures waiting { OnOk result (waiting reader.new ≡ []) }
    ensures stands { OnOk result
        ((lim : Limits) (b : List ℕ) (ended : Bool) (given : List Given) → Stands reader.old lim b ended given
        → Stands reader.new lim b ended (given ++ waiting reader.old)) }
    ensures keeps { KeepsAnswer reader.old reader.new }
{
    'tokens: while let Some(token) = reader.next() {
        tokens.push_back(token)?;
    }
    Ok(())
}

/// Feeds a piece to the reader, and keeps the tokens of its whole tags.
fn keep_piece(
    reader: &mut Reader,
    tokens: &mut VecDeque<Token>,
    piece: &[u8],
) -> Result<(), DocumentEnd>
    requires { IsOpen reader.old }
    ensures given { (b : List ℕ) → HasGiven reader.old tokens.old.items b
        → EndsBy false (b ++ piece.now) result (HasGiven reader.new tokens.new.items (b ++ piece.now)) }
    ensures open { OnOk result (IsOpen reader.new) }
    ensures why { IfErr result SaysWhy }
    ensures read { IsErrOf result DocumentEnd.Fault → ⊥ }
{
    reader.feed(piece)?;
    keep_waiting(reader, tokens)?;
    Ok(())
}

/// Ends the input, and keeps the tokens that are left.
fn keep_end(reader: &mut Reader, tokens: &mut VecDeque<Token>) -> Result<(), DocumentEnd>
    ensures whole { (b : List ℕ) → HasGiven reader.old tokens.old.items b
        → EndsBy true b result (AreTokens b (map said_of tokens.new.items)) }
    ensures why { IfErr result SaysWhy }
    ensures read { IsErrOf result DocumentEnd.Fault → ⊥ }
{
    reader.finish()?;
    keep_waiting(reader, tokens)?;
    Ok(())
}

/// The tokens of the document that the source gives to its end, that of the document node the last. No read comes behind the end,
/// behind a fault of the bytes or behind one that failed.
pub fn read_tokens<S: Source>(alloc: Global, source: &mut S) -> Result<VecDeque<Token>, DocumentEnd>
    ensures reads { ReadsTokens (S.seen source.old) (S.seen source.new) result }
    ensures why { IfErr result SaysWhy }
    ensures kept { S.keeps source.old source.new }
    ensures later { S.faults source.old ≤ S.faults source.new }
{
    let limits = Limits::full();
    let mut reader = Reader::new(alloc, limits);
    let mut tokens = VecDeque::new(alloc);
    let mut buf = [0u8; PIECE];
    let mut count = 0;
    'reading: while count <= limits.bytes {
        let n = read_piece(source, &mut buf)?;
        if n == 0 {
            keep_end(&mut reader, &mut tokens)?;
            return Ok(tokens);
        }
        keep_piece(&mut reader, &mut tokens, &buf[..n])?;
        count += n as u64;
    }
    Err(DocumentEnd::Refused(DocFault::TooLong(limits.bytes)))
}
