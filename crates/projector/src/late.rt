//! Rows that are made late: an open element that is given no role gets its row once one is needed.
ghost use Rattle.std.specs.Prelude.{◌≡◌, ◌++◌, ◌∷◌, ◌+◌, ◌≤◌, ◌^◌, ℕ, List, [], length, true, slice_range, IsUtf8, Some, IfOk, IfSome, OnOk, OnErr};
ghost use Rattle.gcx_base.specs.Name.{IsNameBytes};
ghost use Rattle.gcx_base.specs.declared.kind.Kind.TheVariants as kinds;
ghost use Rattle.gcx_model.specs.Tree.{Start, Chars, End};
ghost use Rattle.gcx_model.specs.Past.{Past, IsNode};
ghost use Rattle.doc_reader.specs.Standing.{LiesWithin, lent_token};
ghost use Rattle.matcher.specs.Calls.{GivesCount};
ghost use Rattle.buf_tree.specs.Loose.{Loosely, StandsLoosely, one_passed};
ghost use Rattle.buf_tree.specs.PassedCalls.{OpenedPassed, RestsLoosely};
ghost use Rattle.projector.specs.Projector.{KeepsPlace, Places};
ghost use Rattle.projector.specs.Late.{AreNamed, IsNamePart, IsTextPart, IsShallow, MayBeFedLate, StandLoosely, passed_of, passed_in};
ghost use Rattle.projector.specs.Late.{FeedsLate, MakesRows, MakesSome, SettlesAll, cleared};
ghost use Rattle.projector.specs.LateRows.{MayMake, MayOpenLate, OpensLate};

use crate::passed::PassedName;
use crate::projector::{Projector, Tally, clear_waiting, go_to, innermost, open_entered};
use crate::signing::sign_all;
use buf_tree::{Buffer, Row};
use doc_reader::Lent;
use gcx_base::{Kind, Memory, Name, Serial, Text};
use matcher::Matcher;
use node_store::{NodeStore, Place};
use std::alloc::Global;

impl Projector {
    /// The number of open elements that have no row yet. Takes no memory.
    #[inline(always)]
    pub fn passed(&self) -> u64
        ensures { result ≡ length self.now.passed }
    {
        self.passed.len() as u64
    }

    /// Makes the rows of the open elements that have none, whose names lie in these bytes.
    ///
    /// After `Memory` some of them are made, the outermost ones, and no further token may be fed.
    pub fn settle<N: NodeStore<Row>>(
        &mut self,
        alloc: Global,
        buffer: &mut Buffer<N>,
        bytes: &[u8],
    ) -> Result<(), Memory>
        requires place { Places self.old buffer.old }
        requires stand { (past : Past) × StandLoosely bytes.now self.old buffer.old past }
        requires depth { Loosely IsShallow (passed_in bytes.now self.old.passed) buffer.old }
        ensures settles { OnOk result (SettlesAll bytes.now self.old self.new buffer.old buffer.new) }
        ensures err { OnErr result (MakesSome (passed_in bytes.now self.old.passed) buffer.old buffer.new) }
        ensures loans { buffer.new.loans ≡ buffer.old.loans }
    {
        self.make_all(alloc, buffer, bytes)
    }

    /// One token more, an element whose name is the part of these bytes from one place to another. Where it is given no
    /// role it is passed, and None is answered: it gets no row before one is needed. Otherwise the rows of all passed
    /// elements are made first.
    ///
    /// After `Memory` some of these may be made, and no further token may be fed.
    #[inline(always)]
    pub fn start_late<N: NodeStore<Row>>(
        &mut self,
        alloc: Global,
        buffer: &mut Buffer<N>,
        bytes: &[u8],
        from: usize,
        to: usize,
    ) -> Result<Option<Tally>, Memory>
        requires name { IsNamePart bytes.now from to }
        requires place { Places self.old buffer.old }
        requires may { MayBeFedLate bytes.now self.old buffer.old (Start (slice_range bytes.now from to)) }
        requires nodes { buffer.old.nodes ≤ 2 ^ 40 + 1 }
        requires depth { Loosely IsShallow (passed_in bytes.now self.old.passed) buffer.old }
        ensures feeds { IfOk result (FeedsLate bytes.now self.old self.new buffer.old buffer.new
            (Start (slice_range bytes.now from to))) }
        ensures err { OnErr result (MakesSome (passed_in bytes.now self.old.passed) buffer.old buffer.new) }
        ensures taken { buffer.new.taken ≤ buffer.old.taken + 2 ^ 64 }
        ensures loans { buffer.new.loans ≡ buffer.old.loans }
    {
        sign_all(&mut self.matcher, buffer.waiting())?;
        let name = &bytes[from..to];
        self.matcher.go_name(alloc, name)?;
        let plain = self.matcher.plain();
        if gives_none(plain) {
            pass_element(&mut self.passed, buffer, from, to)?;
            return Ok(None);
        }
        let count = self.open_named(alloc, buffer, bytes, name, plain)?;
        Ok(Some(Tally::Opened(count)))
    }

    /// One token more, a text that is the part of these bytes from one place to another. Where it is given no role it is
    /// passed, and None is answered. Otherwise the rows of all passed elements are made first.
    ///
    /// After `Memory` some of these may be made, and no further token may be fed.
    #[inline(always)]
    pub fn text_late<N: NodeStore<Row>>(
        &mut self,
        alloc: Global,
        buffer: &mut Buffer<N>,
        bytes: &[u8],
        from: usize,
        to: usize,
    ) -> Result<Option<Tally>, Memory>
        requires text { IsTextPart bytes.now from to }
        requires place { Places self.old buffer.old }
        requires may { MayBeFedLate bytes.now self.old buffer.old (Chars (slice_range bytes.now from to)) }
        requires nodes { buffer.old.nodes ≤ 2 ^ 40 + 1 }
        requires depth { Loosely IsShallow (passed_in bytes.now self.old.passed) buffer.old }
        ensures feeds { IfOk result (FeedsLate bytes.now self.old self.new buffer.old buffer.new
            (Chars (slice_range bytes.now from to))) }
        ensures err { OnErr result (MakesSome (passed_in bytes.now self.old.passed) buffer.old buffer.new) }
        ensures taken { buffer.new.taken ≤ buffer.old.taken + 2 ^ 64 }
        ensures loans { buffer.new.loans ≡ buffer.old.loans }
    {
        sign_all(&mut self.matcher, buffer.waiting())?;
        self.matcher.go_text(alloc)?;
        let plain = self.matcher.plain();
        if gives_none(plain) {
            pass_node(buffer);
            self.matcher.leave();
            return Ok(None);
        }
        let count = self.open_text(alloc, buffer, bytes, &bytes[from..to], plain)?;
        Ok(Some(Tally::Opened(count)))
    }

    /// The end of the innermost open element, or of the document. None where the element was passed, so that no row is
    /// left of it.
    ///
    /// After `Memory` the buffer is unchanged, and no further token may be fed.
    #[inline(always)]
    pub fn end_late<N: NodeStore<Row>>(
        &mut self,
        buffer: &mut Buffer<N>,
    ) -> Result<Option<Tally>, Memory>
        requires place { Places self.old buffer.old }
        requires may { (bytes : List ℕ) × MayBeFedLate bytes self.old buffer.old End }
        ensures feeds { (bytes : List ℕ)
            → IfOk result (FeedsLate bytes self.old self.new buffer.old buffer.new End) }
        ensures err { OnErr result (buffer.new ≡ buffer.old) }
        ensures taken { buffer.new.taken ≡ buffer.old.taken }
        ensures loans { buffer.new.loans ≡ buffer.old.loans }
    {
        sign_all(&mut self.matcher, buffer.waiting())?;
        match self.passed.pop() {
            Some(_) => {
                clear_waiting(buffer);
                self.matcher.leave();
                Ok(None)
            }
            None => Ok(Some(self.feed_end(buffer).tally())),
        }
    }

    /// One token more, whose name or text lies in these bytes. None where it was passed.
    ///
    /// After `Memory` some rows of passed elements may be made, and no further token may be fed.
    #[inline(always)]
    pub fn feed_lean<N: NodeStore<Row>>(
        &mut self,
        alloc: Global,
        buffer: &mut Buffer<N>,
        token: Lent,
        bytes: &[u8],
    ) -> Result<Option<Tally>, Memory>
        requires part { LiesWithin 0 (length bytes.now) bytes.now token }
        requires place { Places self.old buffer.old }
        requires may { MayBeFedLate bytes.now self.old buffer.old (lent_token bytes.now token) }
        requires nodes { buffer.old.nodes ≤ 2 ^ 40 + 1 }
        requires depth { Loosely IsShallow (passed_in bytes.now self.old.passed) buffer.old }
        ensures feeds { IfOk result (FeedsLate bytes.now self.old self.new buffer.old buffer.new
            (lent_token bytes.now token)) }
        ensures err { OnErr result (MakesSome (passed_in bytes.now self.old.passed) buffer.old buffer.new) }
        ensures taken { buffer.new.taken ≤ buffer.old.taken + 2 ^ 64 }
        ensures loans { buffer.new.loans ≡ buffer.old.loans }
    {
        match token {
            Lent::Start(from, to) => self.start_late(alloc, buffer, bytes, from, to),
            Lent::Text(from, to) => self.text_late(alloc, buffer, bytes, from, to),
            Lent::End => self.end_late(buffer),
        }
    }

    /// Opens the matcher's innermost node, an element of this name, below the rows of the passed elements. Out of line, so
    /// that where an element is passed no name is made.
    #[inline(never)]
    fn open_named<N: NodeStore<Row>>(
        &mut self,
        alloc: Global,
        buffer: &mut Buffer<N>,
        bytes: &[u8],
        name: &[u8],
        plain: Option<usize>,
    ) -> Result<u64, Memory>
        requires name { IsNameBytes name.now }
        requires plain { IfSome plain (GivesCount self.old.matcher) }
        requires place { Places self.old buffer.old }
        requires may { MayOpenLate bytes.now self.old buffer.old (kinds.Element name.now) }
        requires nodes { buffer.old.nodes ≤ 2 ^ 40 + 1 }
        requires depth { Loosely IsShallow (passed_in bytes.now self.old.passed) buffer.old }
        ensures opens { IfOk result (OpensLate bytes.now self.old self.new buffer.old buffer.new
            (kinds.Element name.now)) }
        ensures err { OnErr result (MakesSome (passed_in bytes.now self.old.passed) buffer.old buffer.new) }
        ensures taken { buffer.new.taken ≤ buffer.old.taken + 2 ^ 64 }
        ensures loans { buffer.new.loans ≡ buffer.old.loans }
    {
        let name = Name::of_name(alloc, name)?;
        self.open_below_rows(alloc, buffer, bytes, Kind::Element(name), plain)
    }

    /// Opens the matcher's innermost node, this text, below the rows of the passed elements. Out of line, so that where a
    /// text is passed none is made.
    #[inline(never)]
    fn open_text<N: NodeStore<Row>>(
        &mut self,
        alloc: Global,
        buffer: &mut Buffer<N>,
        bytes: &[u8],
        text: &[u8],
        plain: Option<usize>,
    ) -> Result<u64, Memory>
        requires text { IsUtf8 text.now }
        requires plain { IfSome plain (GivesCount self.old.matcher) }
        requires place { Places self.old buffer.old }
        requires may { MayOpenLate bytes.now self.old buffer.old (kinds.Text text.now) }
        requires nodes { buffer.old.nodes ≤ 2 ^ 40 + 1 }
        requires depth { Loosely IsShallow (passed_in bytes.now self.old.passed) buffer.old }
        ensures opens { IfOk result (OpensLate bytes.now self.old self.new buffer.old buffer.new
            (kinds.Text text.now)) }
        ensures err { OnErr result (MakesSome (passed_in bytes.now self.old.passed) buffer.old buffer.new) }
        ensures taken { buffer.new.taken ≤ buffer.old.taken + 2 ^ 64 }
        ensures loans { buffer.new.loans ≡ buffer.old.loans }
    {
        let text = Text::of_text(alloc, text)?;
        self.open_below_rows(alloc, buffer, bytes, Kind::Text(text), plain)
    }

    /// Opens the matcher's innermost node, which is of this kind, below the rows of the passed elements.
    #[inline(always)]
    fn open_below_rows<N: NodeStore<Row>>(
        &mut self,
        alloc: Global,
        buffer: &mut Buffer<N>,
        bytes: &[u8],
        kind: Kind,
        plain: Option<usize>,
    ) -> Result<u64, Memory>
        requires plain { IfSome plain (GivesCount self.old.matcher) }
        requires place { Places self.old buffer.old }
        requires kind { IsNode kind }
        requires may { MayOpenLate bytes.now self.old buffer.old kind }
        requires nodes { buffer.old.nodes ≤ 2 ^ 40 + 1 }
        requires depth { Loosely IsShallow (passed_in bytes.now self.old.passed) buffer.old }
        ensures opens { IfOk result (OpensLate bytes.now self.old self.new buffer.old buffer.new kind) }
        ensures err { OnErr result (MakesSome (passed_in bytes.now self.old.passed) buffer.old buffer.new) }
        ensures taken { buffer.new.taken ≤ buffer.old.taken + 2 ^ 64 }
        ensures loans { buffer.new.loans ≡ buffer.old.loans }
    {
        let text = kind.is_text();
        self.make_all(alloc, buffer, bytes)?;
        let parent = innermost(buffer, self.at).place;
        let (place, count) = open_entered(&self.matcher, alloc, buffer, parent, kind, plain)?;
        clear_waiting(buffer);
        go_to(&mut self.matcher, &mut self.at, text, place);
        Ok(count)
    }

    /// Makes the rows of the passed elements. None is passed any more.
    #[inline(always)]
    fn make_all<N: NodeStore<Row>>(
        &mut self,
        alloc: Global,
        buffer: &mut Buffer<N>,
        bytes: &[u8],
    ) -> Result<(), Memory>
        requires place { Places self.old buffer.old }
        requires names { AreNamed bytes.now self.old.passed }
        requires stands { (past : Past) × StandsLoosely (passed_in bytes.now self.old.passed) buffer.old past }
        requires depth { Loosely IsShallow (passed_in bytes.now self.old.passed) buffer.old }
        ensures matcher { OnOk result (self.new.matcher ≡ self.old.matcher) }
        ensures none { OnOk result (self.new.passed ≡ []) }
        ensures makes { OnOk result (MakesRows (passed_in bytes.now self.old.passed) [] buffer.old buffer.new) }
        ensures place { OnOk result (Places self.new buffer.new) }
        ensures err { OnErr result (MakesSome (passed_in bytes.now self.old.passed) buffer.old buffer.new) }
        ensures loans { buffer.new.loans ≡ buffer.old.loans }
    {
        make_rows(alloc, buffer, &mut self.at, self.passed.as_slice(), bytes)?;
        self.passed.clear();
        Ok(())
    }
}

/// Whether it is plain that a node has no role.
#[inline(always)]
fn gives_none(plain: Option<usize>) -> bool
    ensures { result ≡ true → plain ≡ Some 0 }
{
    match plain {
        Some(count) => count == 0,
        None => false,
    }
}

/// Passes an element whose name lies there, where nothing waits then.
#[inline(always)]
fn pass_element<N: NodeStore<Row>>(
    passed: &mut Vec<PassedName>,
    buffer: &mut Buffer<N>,
    from: usize,
    to: usize,
) -> Result<(), Memory>
    requires nodes { buffer.old.nodes ≤ 2 ^ 40 + 1 }
    ensures passed { OnOk result (passed.new.items
        ≡ passed.old.items ++ record { from = from; to = to; serial = buffer.old.nodes } ∷ []) }
    ensures buffer { OnOk result (buffer.new ≡ one_passed (cleared buffer.old)) }
    ensures err { OnErr result (buffer.new ≡ buffer.old) }
{
    let serial = buffer.nodes();
    passed.push(PassedName { from, to, serial })?;
    pass_node(buffer);
    Ok(())
}

/// Passes a node, where nothing waits then.
#[inline(always)]
fn pass_node<N: NodeStore<Row>>(buffer: &mut Buffer<N>)
    requires nodes { buffer.old.nodes ≤ 2 ^ 40 + 1 }
    ensures { buffer.new ≡ one_passed (cleared buffer.old) }
{
    clear_waiting(buffer);
    buffer.pass();
}

/// Makes the rows of these elements below the innermost open row, whose place is kept.
#[inline(always)]
fn make_rows<N: NodeStore<Row>>(
    alloc: Global,
    buffer: &mut Buffer<N>,
    at: &mut Option<Place>,
    passed: &[PassedName],
    bytes: &[u8],
) -> Result<(), Memory>
    requires place { KeepsPlace at.old buffer.old.rows }
    requires names { AreNamed bytes.now passed.now }
    requires stands { (past : Past) × StandsLoosely (passed_in bytes.now passed.now) buffer.old past }
    requires depth { Loosely IsShallow (passed_in bytes.now passed.now) buffer.old }
    ensures makes { OnOk result (MakesRows (passed_in bytes.now passed.now) [] buffer.old buffer.new) }
    ensures place { OnOk result (KeepsPlace at.new buffer.new.rows) }
    ensures err { OnErr result (MakesSome (passed_in bytes.now passed.now) buffer.old buffer.new) }
    ensures loans { buffer.new.loans ≡ buffer.old.loans }
{
    for element in passed {
        let place = make_row(alloc, buffer, *at, *element, bytes)?;
        *at = Some(place);
    }
    Ok(())
}

/// Makes the row of this element, the outermost that has none.
#[inline(never)]
fn make_row<N: NodeStore<Row>>(
    alloc: Global,
    buffer: &mut Buffer<N>,
    at: Option<Place>,
    element: PassedName,
    bytes: &[u8],
) -> Result<Place, Memory>
    requires place { KeepsPlace at buffer.old.rows }
    requires name { IsNamePart bytes.now element.from element.to }
    requires may { MayMake (passed_of bytes.now element) buffer.old }
    ensures opened { IfOk result (λ p. OpenedPassed buffer.old buffer.new p.0 (passed_of bytes.now element)) }
    ensures rests { OnOk result (RestsLoosely buffer.old buffer.new (passed_of bytes.now element)) }
    ensures err { OnErr result (buffer.new ≡ buffer.old) }
    ensures loans { buffer.new.loans ≡ buffer.old.loans }
{
    let name = Name::of_name(alloc, &bytes[element.from..element.to])?;
    let parent = innermost(buffer, at).place;
    buffer.open_passed(alloc, parent, name, Serial(element.serial))
}
