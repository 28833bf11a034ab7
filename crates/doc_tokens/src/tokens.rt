ghost use Rattle.std.specs.Prelude.{◌≡◌, ◌+◌, ◌<◌, ◌≤◌, ◌++◌, ◌∷◌, [], length, drop, take, map, not, vec_len, vec_capacity, OnOk};
ghost use Rattle.std.specs.Char.{encode_utf8};
ghost use Rattle.gcx_base.specs.Characters.{is_white};
ghost use Rattle.gcx_base.specs.Name.{IsNameBytes};
ghost use Rattle.gcx_model.specs.Document.{is_blank};
ghost use Rattle.gcx_model.specs.Fronts.{text_of};
ghost use Rattle.gcx_model.specs.Tree.{Start as start_of, End as end_of};
ghost use Rattle.doc_tokens.specs.Kept.{text_part, unless_blank};
ghost use Rattle.doc_tokens.specs.Parts.{AreLent, moved_by};

use crate::bytes::push_front;
use crate::lent::Lent;
use crate::open_names::behind;
use gcx_base::Memory;
use std::alloc::Global;
use std::marker::Model;

/// The text at hand, and the tokens that wait: those of the whole tags, and those of the tag that is being read.
#[derive(Drop)]
pub struct Tokens {
    /// The names and texts of the tokens, and behind them the text at hand.
    bytes: Vec<u8>,
    lent: Vec<Lent>,
    /// Where the bytes of the whole tags end.
    base: usize,
    /// Where the text at hand begins.
    start: usize,
    /// How many tokens were taken.
    taken: usize,
    /// How many are those of whole tags.
    whole: usize,
}

impl Model for Tokens {
    ghost use Rattle.doc_tokens.specs.Tokens.{Queue};
    ghost use Rattle.doc_tokens.specs.Kept.{lent_queue, AreKept};

    ghost Value = { Queue };

    ghost view = { λ l. lent_queue l.bytes.items l.lent.items l.start l.taken l.whole };

    ghost invariant = { λ l. AreKept l.bytes.items l.lent.items l.base l.start l.taken l.whole };
}

/// White space (XML 1.0, section 2.3).
#[inline(always)]
fn is_white(c: u8) -> bool
    ensures { result ≡ is_white c }
{
    c == b' ' || c == b'\t' || c == b'\r' || c == b'\n'
}

/// Whether it is empty or only white space.
#[inline(always)]
fn is_only_white(text: &[u8]) -> bool
    ensures { result ≡ is_blank text.now }
{
    text.iter().all(|c| is_white(*c))
}

/// Whether there is text from this place on that isn't only white space.
#[inline(always)]
fn has_text(bytes: &[u8], start: usize) -> bool
    ensures { result ≡ not (is_blank (drop start bytes.now)) }
{
    !is_only_white(behind(bytes, start))
}

/// The token, where so many bytes at the front are gone.
fn moved(token: Lent, by: usize) -> Lent
    ensures { result ≡ moved_by by token }
{
    match token {
        Lent::Start(from, to) => Lent::Start(from.saturating_sub(by), to.saturating_sub(by)),
        Lent::Text(from, to) => Lent::Text(from.saturating_sub(by), to.saturating_sub(by)),
        Lent::End => Lent::End,
    }
}

/// The tokens, where so many bytes at the front are gone.
fn move_each(lent: &mut [Lent], by: usize)
    ensures { lent.new ≡ map (moved_by by) lent.old }
{
    for i in 0..lent.len() {
        lent[i] = moved(lent[i], by);
    }
}

/// Forgets what stands from one place to another, and moves the others down.
fn cut<T: Copy>(xs: &mut Vec<T>, from: usize, to: usize)
    requires order { from ≤ to }
    requires within { to ≤ vec_len xs.old }
    ensures { xs.new.items ≡ take from xs.old.items ++ drop to xs.old.items }
{
    let len = xs.len();
    xs.as_mut_slice().copy_within(to..len, from);
    xs.truncate(len - (to - from));
}

/// Forgets the first `count` tokens, and so many bytes before the others.
fn move_down(lent: &mut Vec<Lent>, count: usize, by: usize)
    requires { count ≤ vec_len lent.old }
    ensures { lent.new.items ≡ map (moved_by by) (drop count lent.old.items) }
{
    cut(lent, 0, count);
    move_each(lent.as_mut_slice(), by);
}

/// Puts the text between two places as a token behind the others, if there is any.
#[inline(always)]
fn put_text(lent: &mut Vec<Lent>, from: usize, to: usize, text: bool)
    requires { vec_len lent.old < vec_capacity lent.old }
    ensures items { lent.new.items ≡ lent.old.items ++ text_part from to text }
    ensures len { vec_len lent.new ≤ vec_len lent.old + 1 }
    ensures capacity { vec_capacity lent.new ≡ vec_capacity lent.old }
{
    if text {
        lent.push_reserved(Lent::Text(from, to));
    }
}

impl Tokens {
    /// No text and no tokens.
    pub fn new(alloc: Global) -> Tokens
        ensures { result ≡ record { run = []; tokens = []; pending = [] } }
    {
        let bytes = Vec::new(alloc);
        let lent = Vec::new(alloc);
        Tokens {
            bytes,
            lent,
            base: 0,
            start: 0,
            taken: 0,
            whole: 0,
        }
    }

    /// How many bytes the text at hand has.
    #[inline(always)]
    pub fn run_len(&self) -> usize
        ensures { result ≡ length self.now.run }
    {
        let end = self.bytes.len();
        end - self.start
    }

    /// Adds text at its end.
    #[inline(always)]
    pub fn push_str(&mut self, text: &str) -> Result<(), Memory>
        ensures ok { OnOk result (self.new ≡ record self.old { run = self.old.run ++ text.now }) }
        ensures tokens { self.new.tokens ≡ self.old.tokens }
    {
        self.bytes.extend_from_slice(text.as_bytes())?;
        Ok(())
    }

    /// Adds a character at its end.
    #[inline(always)]
    pub fn push(&mut self, c: char) -> Result<(), Memory>
        ensures ok { OnOk result (self.new ≡ record self.old { run = self.old.run ++ encode_utf8 c }) }
        ensures tokens { self.new.tokens ≡ self.old.tokens }
    {
        let mut room = [0; 4];
        self.push_str(c.encode_utf8(&mut room))
    }

    /// The tokens of the whole tags, with their bytes.
    #[inline(always)]
    pub fn lent(&self) -> (&[Lent], &[u8])
        ensures { AreLent result.0.now result.1.now self.now.tokens }
    {
        let tokens = self.lent.as_slice();
        let bytes = self.bytes.as_slice();
        (&tokens[self.taken..self.whole], bytes)
    }

    /// Takes so many of them, and forgets their bytes where none of the whole tags is left.
    #[inline(always)]
    pub fn take(&mut self, count: usize)
        requires { count ≤ length self.old.tokens }
        ensures { self.new ≡ record self.old { tokens = drop count self.old.tokens } }
    {
        let taken = self.taken + count;
        if taken < self.whole {
            self.taken = taken;
        } else {
            self.settle();
        }
    }

    /// Forgets the tokens of the whole tags, and their bytes.
    fn settle(&mut self)
        ensures { self.new ≡ record self.old { tokens = [] } }
    {
        if self.whole == 0 {
            return;
        }
        cut(&mut self.bytes, 0, self.base);
        move_down(&mut self.lent, self.whole, self.base);
        self.start -= self.base;
        self.base = 0;
        self.taken = 0;
        self.whole = 0;
    }

    /// Forgets the tokens of the tag that is being read, and their bytes.
    #[inline(always)]
    pub fn forget_pending(&mut self)
        ensures { self.new ≡ record self.old { pending = [] } }
    {
        if self.whole < self.lent.len() {
            self.cut_pending();
        }
    }

    /// Cuts the tokens of the tag that is being read off, and their bytes out.
    fn cut_pending(&mut self)
        ensures { self.new ≡ record self.old { pending = [] } }
    {
        cut(&mut self.bytes, self.base, self.start);
        self.lent.truncate(self.whole);
        self.start = self.base;
    }

    /// Cuts the text at hand off where it is only white space, and says whether it isn't.
    #[inline(always)]
    fn cut_blank(&mut self) -> bool
        ensures text { result ≡ not (is_blank self.old.run) }
        ensures run { self.new ≡ record self.old { run = unless_blank self.old.run } }
    {
        let text = has_text(&self.bytes, self.start);
        if !text {
            self.bytes.truncate(self.start);
        }
        text
    }

    /// A tag begins, behind the text at hand: the name is whole.
    #[inline(always)]
    pub fn begin_tag(&mut self, name: &[u8]) -> Result<(), Memory>
        requires { IsNameBytes name.now }
        ensures ok { OnOk result (self.new
            ≡ record self.old { run = []; pending = text_of self.old.run ++ (start_of name.now ∷ []) }) }
        ensures tokens { self.new.tokens ≡ self.old.tokens }
    {
        self.begin_front(name, name.len())
    }

    /// A tag begins, behind the text at hand: the name is the first `n` of these bytes.
    #[inline(always)]
    pub fn begin_front(&mut self, bytes: &[u8], n: usize) -> Result<(), Memory>
        requires name { IsNameBytes (take n bytes.now) }
        requires within { n ≤ length bytes.now }
        ensures ok { OnOk result (self.new
            ≡ record self.old { run = []; pending = text_of self.old.run ++ (start_of (take n bytes.now) ∷ []) }) }
        ensures tokens { self.new.tokens ≡ self.old.tokens }
    {
        self.forget_pending();
        let text = self.cut_blank();
        self.lent.reserve(2)?;
        let first = self.bytes.len();
        push_front(&mut self.bytes, bytes, n)?;
        let end = self.bytes.len();
        put_text(&mut self.lent, self.start, first, text);
        self.lent.push_reserved(Lent::Start(first, end));
        self.start = end;
        Ok(())
    }

    /// An attribute is whole, whose value is the text at hand.
    pub fn add_attribute(&mut self, name: &[u8]) -> Result<(), Memory>
        requires { IsNameBytes name.now }
        ensures ok { OnOk result (self.new ≡ record self.old {
          run = [];
          pending =
              self.old.pending ++ (start_of name.now ∷ (text_of self.old.run ++ (end_of ∷ [])));
        }) }
        ensures tokens { self.new.tokens ≡ self.old.tokens }
    {
        let text = self.cut_blank();
        self.lent.reserve(3)?;
        let first = self.bytes.len();
        self.bytes.extend_from_slice(name)?;
        let end = self.bytes.len();
        self.lent.push_reserved(Lent::Start(first, end));
        put_text(&mut self.lent, self.start, first, text);
        self.lent.push_reserved(Lent::End);
        self.start = end;
        Ok(())
    }

    /// An element ends, behind the text at hand.
    #[inline(always)]
    pub fn add_end(&mut self) -> Result<(), Memory>
        ensures ok { OnOk result (self.new ≡ record self.old {
          run = [];
          pending =
              self.old.pending ++ (text_of self.old.run ++ (end_of ∷ []));
        }) }
        ensures tokens { self.new.tokens ≡ self.old.tokens }
    {
        let text = self.cut_blank();
        self.lent.reserve(2)?;
        let end = self.bytes.len();
        put_text(&mut self.lent, self.start, end, text);
        self.lent.push_reserved(Lent::End);
        self.start = end;
        Ok(())
    }

    /// An element ends, before the text at hand.
    pub fn add_empty_end(&mut self) -> Result<(), Memory>
        ensures ok { OnOk result (self.new ≡ record self.old { pending = self.old.pending ++ (end_of ∷ []) }) }
        ensures tokens { self.new.tokens ≡ self.old.tokens }
    {
        self.lent.push(Lent::End)?;
        Ok(())
    }

    /// The tag is whole.
    #[inline(always)]
    pub fn end_tag(&mut self)
        ensures { self.new ≡ record self.old { tokens = self.old.tokens ++ self.old.pending; pending = [] } }
    {
        self.whole = self.lent.len();
        self.base = self.start;
    }
}
