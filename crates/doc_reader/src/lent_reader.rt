ghost use Rattle.std.specs.Prelude.{◌≡◌, ◌+◌, ◌<◌, ◌≤◌, ◌++◌, [], ℕ, List, length, take, drop, map, Bool, false, true, Some, OnOk, is_some};
ghost use Rattle.gcx_model.specs.declared.fault.DocFault.TheVariants as doc_faults;
ghost use Rattle.doc_tokens.specs.Parts.{AreLent};
ghost use Rattle.doc_reader.specs.Piece.{char_fault as fault_of_char};

use crate::machine::Machine;
use doc_chars::{CharFault, Chars};
use doc_tokens::Lent;
use gcx_base::Limits;
use gcx_model::DocFault;
use std::alloc::Global;
use std::marker::Model;

/// A reader of one document in pieces, whose tokens are lent.
#[derive(Drop)]
pub struct LentReader {
    machine: Machine,
    chars: Chars,
    limits: Limits,
    /// How many bytes the characters take that the machine read.
    place: u64,
    /// How many bytes were fed, of those that may be.
    count: u64,
    refused: Option<DocFault>,
    finished: bool,
    /// Whether the document ended, and the token that says so wasn't given.
    end_waits: bool,
}

impl Model for LentReader {
    ghost use Rattle.doc_reader.specs.Standing.{ReaderView};

    ghost Value = { ReaderView };

    ghost use Rattle.doc_reader.specs.Inside.{view_of, IsInOrder};

    ghost view = { view_of };

    ghost invariant = { IsInOrder };
}

/// What isn't a character of a document.
fn char_fault(fault: CharFault) -> DocFault
    ensures { result ≡ fault_of_char fault }
{
    match fault {
        CharFault::Utf8(place) => DocFault::Utf8(place),
        CharFault::Char(place) => DocFault::Syntax(place),
    }
}

impl LentReader {
    ghost use Rattle.doc_reader.specs.Standing.{Stands, IsReading, IsOpen, IsDone, IsRefused, Answers, Accepted, Token, waiting, answer_of};
    ghost use Rattle.doc_reader.specs.Standing.{behind_lent, end_token, given_token, lent_next, said_of, with_tokens};
    ghost use Rattle.doc_reader.specs.Piece.{Took, Ends, IsSame};

    /// A reader that has read nothing. The limits are at most 1,000 elements and 1,099,511,627,776 bytes.
    pub fn new(alloc: Global, limits: Limits) -> LentReader
        requires depth { limits.depth ≤ 1000 }
        requires bytes { limits.bytes ≤ 1099511627776 }
        ensures stands { Stands result limits [] false [] }
        ensures open { IsOpen result }
        ensures nothing { waiting result ≡ [] }
    {
        LentReader {
            machine: Machine::new(alloc),
            chars: Chars::new(),
            limits,
            place: 0,
            count: 0,
            refused: None,
            finished: false,
            end_waits: false,
        }
    }

    /// Takes the next piece. The tokens of its whole tags wait, up to the first fault, which is the error then and from then on.
    /// After `Memory` some of them may be missing, and `Memory` comes again.
    pub fn feed(&mut self, piece: &[u8]) -> Result<(), DocFault>
        requires { IsOpen self.old }
        ensures stands { (lim : Limits) (b : List ℕ) (given : List Token) → Stands self.old lim b false given
            → Stands self.new lim (b ++ piece.now) false given }
        ensures exact { (lim : Limits) (b : List ℕ) (given : List Token) → Stands self.old lim b false given
            → Answers result lim (b ++ piece.now) false }
        ensures answer { result ≡ answer_of self.new }
        ensures open { IsOpen self.new }
        ensures again { IsRefused self.old → self.new ≡ self.old }
    {
        self.take(piece);
        self.answer()
    }

    /// The tokens of tags that wait, with their bytes. Where none does and the document ended, its end, and no bytes.
    #[inline(always)]
    pub fn lent(&self) -> (&[Lent], &[u8])
        ensures { AreLent result.0.now result.1.now (map said_of (lent_next self.now)) }
    {
        if self.is_last() {
            return (&[Lent::End], &[]);
        }
        self.lent_tags()
    }

    /// Takes so many of them.
    #[inline(always)]
    pub fn take_lent(&mut self, count: usize)
        requires { count ≤ length (lent_next self.old) }
        ensures takes { self.new ≡ behind_lent count self.old }
        ensures stands { (lim : Limits) (b : List ℕ) (ended : Bool) (given : List Token) → Stands self.old lim b ended given
            → Stands self.new lim b ended (given ++ take count (lent_next self.old)) }
    {
        if !self.is_last() {
            return self.take_tags(count);
        }
        if count > 0 {
            self.take_end();
        }
    }

    /// Whether the document's end waits, and no token of a tag does.
    #[inline(always)]
    fn is_last(&self) -> bool
        ensures last { result ≡ true → (self.now.state.tokens ≡ []) × (self.now.end_waits ≡ true) }
        ensures tags { result ≡ false → lent_next self.now ≡ map given_token self.now.state.tokens }
    {
        self.end_waits && self.has_no_tags()
    }

    /// Whether no token of a tag waits.
    fn has_no_tags(&self) -> bool
        ensures none { result ≡ true → self.now.state.tokens ≡ [] }
        ensures some { result ≡ false → 0 < length self.now.state.tokens }
    {
        let (tokens, _) = self.lent_tags();
        tokens.is_empty()
    }

    /// The tokens of tags that wait, with their bytes.
    #[inline(always)]
    pub(crate) fn lent_tags(&self) -> (&[Lent], &[u8])
        ensures { AreLent result.0.now result.1.now self.now.state.tokens }
    {
        self.machine.lent_whole()
    }

    /// Takes so many of the tokens of tags.
    #[inline(always)]
    pub(crate) fn take_tags(&mut self, count: usize)
        requires { count ≤ length self.old.state.tokens }
        ensures { self.new ≡ with_tokens self.old (drop count self.old.state.tokens) }
    {
        self.machine.take_whole(count)
    }

    /// Takes the token that says that the document ended, where no other one waits. True where there is it.
    #[inline(always)]
    pub(crate) fn take_end(&mut self) -> bool
        requires { self.old.state.tokens ≡ [] }
        ensures takes { self.new ≡ record self.old { end_waits = false } }
        ensures waits { result ≡ self.old.end_waits }
        ensures stands { (lim : Limits) (b : List ℕ) (ended : Bool) (given : List Token) → Stands self.old lim b ended given
            → Stands self.new lim b ended (given ++ end_token result) }
    {
        let waits = self.end_waits;
        self.end_waits = false;
        waits
    }

    /// Ends the input: Ok exactly where the bytes are a document within the limits, and then `EndOfDocument` waits behind its tokens.
    /// A refusal comes again. A second call answers the same and changes nothing.
    pub fn finish(&mut self) -> Result<(), DocFault>
        ensures stands { (lim : Limits) (b : List ℕ) (ended : Bool) (given : List Token) → Stands self.old lim b ended given
            → Stands self.new lim b true given }
        ensures exact { (lim : Limits) (b : List ℕ) (ended : Bool) (given : List Token) → Stands self.old lim b ended given
            → Answers result lim b true }
        ensures document { (lim : Limits) (b : List ℕ) (ended : Bool) (given : List Token) → Stands self.old lim b ended given
            → OnOk result (Accepted b (given ++ waiting self.new)) }
        ensures answer { result ≡ answer_of self.new }
        ensures done { IsDone self.new }
        ensures again { IsDone self.old → self.new ≡ self.old }
        ensures refused { IsRefused self.old → answer_of self.new ≡ answer_of self.old }
        ensures same { IsRefused self.old → waiting self.new ≡ waiting self.old }
        ensures state { self.new.state ≡ self.old.state }
    {
        self.end();
        self.answer()
    }

    /// Whether it has refused.
    pub(crate) fn is_refused(&self) -> bool
        ensures { result ≡ is_some self.now.refused }
    {
        self.refused.is_some()
    }

    /// Refuses all that follows, for want of memory.
    pub(crate) fn refuse(&mut self)
        ensures { self.new ≡ record self.old { refused = Some doc_faults.Memory } }
    {
        self.refused = Some(DocFault::Memory);
    }

    /// The refusal, or Ok.
    pub(crate) fn answer(&self) -> Result<(), DocFault>
        ensures { result ≡ answer_of self.now }
    {
        match self.refused {
            Some(fault) => Err(fault),
            None => Ok(()),
        }
    }

    /// Reads a piece, unless there was a refusal.
    fn take(&mut self, piece: &[u8])
        requires { IsOpen self.old }
        ensures stands { (lim : Limits) (b : List ℕ) (given : List Token) → Stands self.old lim b false given
            → Stands self.new lim (b ++ piece.now) false given }
        ensures open { IsOpen self.new }
        ensures again { IsRefused self.old → self.new ≡ self.old }
    {
        if self.refused.is_some() {
            return;
        }
        if let Err(fault) = self.read_allowed(piece) {
            self.refused = Some(fault);
        }
    }

    /// Reads the bytes that may be, and refuses one too many.
    fn read_allowed(&mut self, piece: &[u8]) -> Result<(), DocFault>
        ensures took { (b : List ℕ) (given : List Token) → IsReading self.old self.old.limits b given
            → Took result self.new self.old.limits (b ++ piece.now) given }
        ensures same { IsSame self.old self.new }
    {
        let room = (self.limits.bytes - self.count) as usize;
        if piece.len() <= room {
            return self.read_piece(piece);
        }
        self.read_piece(&piece[..room])?;
        Err(DocFault::TooLong(self.limits.bytes))
    }

    /// Reads a piece whose bytes all may be.
    fn read_piece(&mut self, piece: &[u8]) -> Result<(), DocFault>
        requires { self.old.count + length piece.now ≤ self.old.limits.bytes }
        ensures took { (b : List ℕ) (given : List Token) → IsReading self.old self.old.limits b given
            → Took result self.new self.old.limits (b ++ piece.now) given }
        ensures same { IsSame self.old self.new }
    {
        let split = self.chars.split(piece);
        self.count += piece.len() as u64;
        let place = self
            .machine
            .read_split(self.limits, self.place, split, piece)?;
        match split.fault {
            Some(fault) => Err(char_fault(fault)),
            None => {
                self.place = place;
                Ok(())
            }
        }
    }

    /// What the end of the input shows.
    fn last(&self) -> Result<(), DocFault>
        ensures { Ends result self.now }
    {
        if let Err(fault) = self.chars.finish() {
            return Err(char_fault(fault));
        }
        if self.machine.has_whole() {
            Ok(())
        } else {
            Err(DocFault::Truncated(self.count))
        }
    }

    /// Ends the input, unless it ended before.
    fn end(&mut self)
        ensures stands { (lim : Limits) (b : List ℕ) (ended : Bool) (given : List Token) → Stands self.old lim b ended given
            → Stands self.new lim b true given }
        ensures done { IsDone self.new }
        ensures again { IsDone self.old → self.new ≡ self.old }
        ensures refused { IsRefused self.old → answer_of self.new ≡ answer_of self.old }
        ensures same { IsRefused self.old → waiting self.new ≡ waiting self.old }
        ensures state { self.new.state ≡ self.old.state }
    {
        if self.finished {
            return;
        }
        self.finished = true;
        if self.refused.is_some() {
            return;
        }
        match self.last() {
            Ok(()) => self.end_waits = true,
            Err(fault) => self.refused = Some(fault),
        }
    }
}
