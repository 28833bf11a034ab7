ghost use Rattle.std.specs.Prelude.{◌≡◌, ◌≤◌, ◌∷◌, ◌++◌, [], ℕ, List, Bool, false, true, length, take, map, OnOk, OnErr};
ghost use Rattle.doc_tokens.specs.Given.{given_token};
ghost use Rattle.doc_tokens.specs.Parts.{lent_token, AllLieWithin, LiesWithin};
ghost use Rattle.doc_reader.specs.Standing.{with_tokens, end_token, taken};

use crate::lent_reader::LentReader;
use doc_tokens::{Lent, Token};
use gcx_base::{Limits, Memory};
use gcx_model::DocFault;
use std::alloc::Global;
use std::collections::VecDeque;
use std::marker::Model;

/// A reader of one document in pieces.
#[derive(Drop)]
pub struct Reader {
    alloc: Global,
    lent: LentReader,
    /// The tokens that wait, but the one that says that the document ended.
    waits: VecDeque<Token>,
}

impl Model for Reader {
    ghost use Rattle.doc_reader.specs.Standing.{ReaderView};

    ghost Value = { ReaderView };

    ghost use Rattle.doc_reader.specs.Owned.{owned_view, IsDrained};

    ghost view = { owned_view };

    ghost invariant = { IsDrained };
}

/// Puts the token behind the others.
fn put_one(
    alloc: Global,
    token: Lent,
    bytes: &[u8],
    waits: &mut VecDeque<Token>,
) -> Result<(), Memory>
    requires { LiesWithin 0 (length bytes.now) bytes.now token }
    ensures ok { OnOk result (waits.new.items ≡ waits.old.items ++ (given_token (lent_token bytes.now token) ∷ [])) }
    ensures err { OnErr result (waits.new.items ≡ waits.old.items) }
{
    let token = token.owned(alloc, bytes)?;
    waits.push_back(token)?;
    Ok(())
}

/// Puts the tokens behind the others, after `Memory` some of them.
fn put_some(
    alloc: Global,
    lent: &[Lent],
    bytes: &[u8],
    waits: &mut VecDeque<Token>,
) -> Result<(), Memory>
    requires { AllLieWithin 0 (length bytes.now) bytes.now lent.now }
    ensures ok { OnOk result (waits.new.items
        ≡ waits.old.items ++ map given_token (map (lent_token bytes.now) lent.now)) }
    ensures err { OnErr result (take (length waits.old.items) waits.new.items ≡ waits.old.items) }
{
    for token in lent {
        put_one(alloc, *token, bytes, waits)?;
    }
    Ok(())
}

/// Puts the tokens behind the others, all or none of them.
fn put_all(
    alloc: Global,
    lent: &[Lent],
    bytes: &[u8],
    waits: &mut VecDeque<Token>,
) -> Result<(), Memory>
    requires { AllLieWithin 0 (length bytes.now) bytes.now lent.now }
    ensures ok { OnOk result (waits.new.items
        ≡ waits.old.items ++ map given_token (map (lent_token bytes.now) lent.now)) }
    ensures err { OnErr result (waits.new.items ≡ waits.old.items) }
{
    let before = waits.len();
    match put_some(alloc, lent, bytes, waits) {
        Ok(()) => Ok(()),
        Err(memory) => {
            waits.truncate(before);
            Err(memory)
        }
    }
}

/// Takes the tokens of tags that are lent, and puts them behind the others, all or none of them.
fn own_all(alloc: Global, lent: &mut LentReader, waits: &mut VecDeque<Token>) -> Result<(), Memory>
    ensures ok { OnOk result (waits.new.items ≡ waits.old.items ++ map given_token lent.old.state.tokens) }
    ensures err { OnErr result (waits.new.items ≡ waits.old.items) }
    ensures lent { lent.new ≡ with_tokens lent.old [] }
{
    let (tokens, bytes) = lent.lent_tags();
    let count = tokens.len();
    let put = put_all(alloc, tokens, bytes, waits);
    lent.take_tags(count);
    put
}

/// The token that says that the document ended, where it did.
#[inline(always)]
fn ended_token(ended: bool) -> Option<Token>
    ensures { taken result ≡ end_token ended }
{
    if ended {
        Some(Token::EndOfDocument)
    } else {
        None
    }
}

impl Reader {
    ghost use Rattle.doc_reader.specs.Standing.{Stands, IsOpen, IsDone, IsRefused, Answers, Takes, KeepsAnswer, Accepted, waiting, answer_of};

    /// A reader that has read nothing. The limits are at most 1,000 elements and 1,099,511,627,776 bytes.
    pub fn new(alloc: Global, limits: Limits) -> Reader
        requires depth { limits.depth ≤ 1000 }
        requires bytes { limits.bytes ≤ 1099511627776 }
        ensures stands { Stands result limits [] false [] }
        ensures open { IsOpen result }
        ensures nothing { waiting result ≡ [] }
    {
        let lent = LentReader::new(alloc, limits);
        let waits = VecDeque::new(alloc);
        Reader { alloc, lent, waits }
    }

    /// Takes the next piece. The tokens of its whole tags wait, up to the first fault, which is the error then and from then on.
    /// After `Memory` some of them may be missing, and `Memory` comes again.
    pub fn feed(&mut self, piece: &[u8]) -> Result<(), DocFault>
        requires { IsOpen self.old }
        ensures stands { (lim : Limits) (b : List ℕ) (given : List Token) → Stands self.old lim b false given
            → Stands self.new lim (b ++ piece.now) false given }
        ensures exact { (lim : Limits) (b : List ℕ) (given : List Token) → Stands self.old lim b false given
            → Answers result lim (b ++ piece.now) false }
        ensures answer { result ≡ answer_of self.new }
        ensures open { IsOpen self.new }
        ensures again { IsRefused self.old → self.new ≡ self.old }
    {
        self.take(piece);
        self.answer()
    }

    /// Takes the first token that waits. None exactly where none waits.
    pub fn next(&mut self) -> Option<Token>
        ensures takes { Takes result (waiting self.old) (waiting self.new) }
        ensures stands { (lim : Limits) (b : List ℕ) (ended : Bool) (given : List Token) → Stands self.old lim b ended given
            → Stands self.new lim b ended (given ++ taken result) }
        ensures keeps { KeepsAnswer self.old self.new }
    {
        match self.waits.pop_front() {
            Some(token) => Some(token),
            None => ended_token(self.lent.take_end()),
        }
    }

    /// Ends the input: Ok exactly where the bytes are a document within the limits, and then `EndOfDocument` waits behind its tokens.
    /// A refusal comes again. A second call answers the same and changes nothing.
    pub fn finish(&mut self) -> Result<(), DocFault>
        ensures stands { (lim : Limits) (b : List ℕ) (ended : Bool) (given : List Token) → Stands self.old lim b ended given
            → Stands self.new lim b true given }
        ensures exact { (lim : Limits) (b : List ℕ) (ended : Bool) (given : List Token) → Stands self.old lim b ended given
            → Answers result lim b true }
        ensures document { (lim : Limits) (b : List ℕ) (ended : Bool) (given : List Token) → Stands self.old lim b ended given
            → OnOk result (Accepted b (given ++ waiting self.new)) }
        ensures answer { result ≡ answer_of self.new }
        ensures done { IsDone self.new }
        ensures again { IsDone self.old → self.new ≡ self.old }
        ensures refused { IsRefused self.old → answer_of self.new ≡ answer_of self.old }
        ensures same { IsRefused self.old → waiting self.new ≡ waiting self.old }
    {
        self.lent.finish()
    }

    fn answer(&self) -> Result<(), DocFault>
        ensures { result ≡ answer_of self.now }
    {
        self.lent.answer()
    }

    /// Reads a piece, unless there was a refusal, and makes its tokens the reader's own.
    fn take(&mut self, piece: &[u8])
        requires { IsOpen self.old }
        ensures stands { (lim : Limits) (b : List ℕ) (given : List Token) → Stands self.old lim b false given
            → Stands self.new lim (b ++ piece.now) false given }
        ensures open { IsOpen self.new }
        ensures again { IsRefused self.old → self.new ≡ self.old }
    {
        if self.lent.is_refused() {
            return;
        }
        let _ = self.lent.feed(piece);
        match own_all(self.alloc, &mut self.lent, &mut self.waits) {
            Ok(()) => {}
            Err(_) => self.lent.refuse(),
        }
    }
}
