//! The projector.
ghost use Rattle.std.specs.Prelude.{◌≡◌, ◌+◌, ◌<◌, ◌≤◌, ◌^◌, [], length, true, false, None, IfOk, OnErr, IfSome, IsSome, option_map};
ghost use Rattle.gcx_base.specs.Kinds.{is_text};
ghost use Rattle.gcx_model.specs.Tree.{Node, End};
ghost use Rattle.gcx_model.specs.Members.{In};
ghost use Rattle.gcx_model.specs.Paths.{head};
ghost use Rattle.gcx_model.specs.PlanView.{plan_tree};
ghost use Rattle.gcx_model.specs.Past.{Past, IsNode, token_for};
ghost use Rattle.doc_reader.specs.Standing.{said_of};
ghost use Rattle.matcher.specs.Calls.{GivesCount};
ghost use Rattle.matcher.specs.Matcher.{MatcherAt};
ghost use Rattle.node_store.specs.Rows.{parent_of};
ghost use Rattle.buf_tree.specs.Shape.{Cell, Shape, at_place};
ghost use Rattle.buf_tree.specs.Spread.{SameButRoles};
ghost use Rattle.buf_tree.specs.View.{Innermost, level_in};
ghost use Rattle.buf_tree.specs.Stands.{StandsFor, past_told};
ghost use Rattle.projector.specs.Projector.{Projects, KeepsPlace, Places, MayBeFed};
ghost use Rattle.projector.specs.Calls.{BeginsFor, GivesDocument, Feeds, tally_of};
ghost use Rattle.projector.specs.Opening.{HasHeard, LeavesBelow, MayOpenEntered, TellsTaken, OpensBelow, OpensEntered, HasInnermost};

use crate::passed::PassedName;
use crate::signing::sign_all;
use buf_tree::{Buffer, Row};
use doc_reader::Token;
use gcx_base::{Kind, Memory, Serial};
use gcx_model::{Given, Plan};
use matcher::Matcher;
use node_store::{At, NodeStore, Place};
use std::alloc::Global;
use std::marker::Model;

/// What a token did, with the node's number in document order.
#[derive(Drop, Debug)]
pub enum Fed {
    /// A node was opened and given these roles.
    Opened(Serial, Given),
    /// The innermost open node was closed.
    Closed(Serial),
}

/// What a token did, with the number of the roles alone.
#[derive(Clone, Copy, Debug)]
pub enum Tally {
    /// A node was opened and given so many roles.
    Opened(u64),
    /// The innermost open node was closed.
    Closed,
}

impl Fed {
    /// What the token did, with the number of the roles alone.
    #[inline(always)]
    pub fn tally(&self) -> Tally
        ensures { result ≡ tally_of self.now }
    {
        match self {
            Fed::Opened(_, given) => Tally::Opened(given.items().len() as u64),
            Fed::Closed(_) => Tally::Closed,
        }
    }
}

/// Feeds the tokens of a document to a buffer: it tells which roles each new node has. `Memory` is want of memory, and
/// the only error of its calls.
#[derive(Drop)]
pub struct Projector {
    pub(crate) matcher: Matcher,
    /// The place of the innermost open node that has a row. None is the document node's, before the first token, or none at
    /// the end.
    pub(crate) at: Option<Place>,
    /// The open elements below it, the outermost first: none of them is given a role, and none has a row yet.
    pub(crate) passed: Vec<PassedName>,
}

impl Model for Projector {
    ghost use Rattle.projector.specs.View.{ProjectorView};

    ghost Value = { ProjectorView };

    ghost view = { λ p. record { matcher = p.matcher; at = p.at; passed = p.passed.items } };
}

impl Projector {
    /// A projector for the plan, at the open document node.
    pub fn new(alloc: Global, plan: &Plan) -> Result<Projector, Memory>
        ensures { IfOk result (λ p. BeginsFor (plan_tree plan.now) p) }
    {
        let matcher = Matcher::new(alloc, plan)?;
        Ok(Projector {
            matcher,
            at: None,
            passed: Vec::new(alloc),
        })
    }

    /// The roles of the document node, by rising number.
    pub fn document(&self, alloc: Global) -> Result<Given, Memory>
        ensures { IfOk result (λ given. GivesDocument self.now given) }
    {
        let given = self.matcher.document(alloc)?;
        Ok(given)
    }

    /// One token more: a new node with its roles, or the innermost open node closed. The end of the document closes the
    /// document node.
    ///
    /// After `Memory` the buffer is unchanged, and no further token may be fed.
    pub fn feed_token<N: NodeStore<Row>>(
        &mut self,
        alloc: Global,
        buffer: &mut Buffer<N>,
        token: Token,
    ) -> Result<Fed, Memory>
        requires place { Places self.old buffer.old }
        requires may { MayBeFed (Projects self.old) buffer.old (said_of token) }
        requires nodes { buffer.old.nodes ≤ 2 ^ 40 + 1 }
        requires depth { (c : Cell) → In c buffer.old.rows → c.row.is_open ≡ true → c.row.level ≤ 1000 }
        ensures feeds { IfOk result (λ fed. Feeds (Projects self.old) self.new buffer.old buffer.new (said_of token) fed) }
        ensures err { OnErr result (buffer.new ≡ buffer.old) }
        ensures taken { buffer.new.taken ≤ buffer.old.taken + 2 ^ 64 }
        ensures loans { buffer.new.loans ≡ buffer.old.loans }
    {
        sign_all(&mut self.matcher, buffer.waiting())?;
        match token {
            Token::Start(name) => self.feed_node(alloc, buffer, Kind::Element(name)),
            Token::Text(text) => self.feed_node(alloc, buffer, Kind::Text(text)),
            Token::End | Token::EndOfDocument => Ok(self.feed_end(buffer)),
        }
    }

    /// Opens a node and answers its roles, where the matcher has heard of all statements.
    fn feed_node<N: NodeStore<Row>>(
        &mut self,
        alloc: Global,
        buffer: &mut Buffer<N>,
        kind: Kind,
    ) -> Result<Fed, Memory>
        requires place { Places self.old buffer.old }
        requires none { self.old.passed ≡ [] }
        requires may { MayBeFed (HasHeard self.old.matcher) buffer.old (token_for kind) }
        requires kind { IsNode kind }
        requires nodes { buffer.old.nodes ≤ 2 ^ 40 + 1 }
        requires depth { (c : Cell) → In c buffer.old.rows → c.row.is_open ≡ true → c.row.level ≤ 1000 }
        ensures feeds { IfOk result (λ f. Feeds (HasHeard self.old.matcher) self.new buffer.old buffer.new (token_for kind) f) }
        ensures err { OnErr result (buffer.new ≡ buffer.old) }
        ensures taken { buffer.new.taken ≤ buffer.old.taken + 2 ^ 64 }
        ensures loans { buffer.new.loans ≡ buffer.old.loans }
    {
        let text = kind.is_text();
        let serial = Serial(buffer.nodes());
        let parent = innermost(buffer, self.at).place;
        let (place, given) = open_below(&mut self.matcher, alloc, buffer, parent, kind)?;
        go_to(&mut self.matcher, &mut self.at, text, place);
        Ok(Fed::Opened(serial, given))
    }

    /// Closes the innermost open node, where the matcher has heard of all statements.
    #[inline(always)]
    pub(crate) fn feed_end<N: NodeStore<Row>>(&mut self, buffer: &mut Buffer<N>) -> Fed
        requires place { Places self.old buffer.old }
        requires none { self.old.passed ≡ [] }
        requires may { MayBeFed (HasHeard self.old.matcher) buffer.old End }
        ensures feeds { Feeds (HasHeard self.old.matcher) self.new buffer.old buffer.new End result }
        ensures taken { buffer.new.taken ≡ buffer.old.taken }
        ensures loans { buffer.new.loans ≡ buffer.old.loans }
    {
        let here = innermost(buffer, self.at);
        let place = here.place;
        let serial = here.payload().serial();
        let above = above(&here);
        clear_waiting(buffer);
        buffer.close_node(place);
        go_up(&mut self.matcher, &mut self.at, above);
        Fed::Closed(serial)
    }
}

/// Goes to the new node, which has this place. A text is left at once.
#[inline(always)]
pub(crate) fn go_to(matcher: &mut Matcher, at: &mut Option<Place>, text: bool, place: Option<Place>)
    ensures text { text ≡ true → (past : Past) → MatcherAt matcher.old past true → MatcherAt matcher.new past false }
    ensures text_place { text ≡ true → at.new ≡ at.old }
    ensures element { text ≡ false → matcher.new ≡ matcher.old }
    ensures element_place { text ≡ false → at.new ≡ place }
{
    if text {
        matcher.leave();
    } else {
        *at = place;
    }
}

/// Leaves the innermost open node, to its parent at this place. The document node, which has none, stays open in the
/// matcher.
#[inline(always)]
fn go_up(matcher: &mut Matcher, at: &mut Option<Place>, above: Option<Place>)
    ensures node { IsSome above → LeavesBelow matcher.old matcher.new }
    ensures document { above ≡ None → matcher.new ≡ matcher.old }
    ensures place { at.new ≡ above }
{
    if above.is_some() {
        matcher.leave();
    }
    *at = above;
}

/// Opens the node in the matcher and below this place in the buffer, where nothing waits then. Answers its place, if it
/// is held, and the roles that it is given.
fn open_below<N: NodeStore<Row>>(
    matcher: &mut Matcher,
    alloc: Global,
    buffer: &mut Buffer<N>,
    parent: Place,
    kind: Kind,
) -> Result<(Option<Place>, Given), Memory>
    requires parent { Innermost buffer.old.rows parent.0 }
    requires kind { IsNode kind }
    requires nodes { buffer.old.nodes ≤ 2 ^ 40 + 1 }
    requires depth { level_in (at_place parent.0 buffer.old.rows) ≤ 1000 }
    requires levels { (c : Cell) → In c buffer.old.rows → c.row.is_open ≡ true → c.row.level ≤ 1000 }
    requires may { MayBeFed (HasHeard matcher.old) buffer.old (token_for kind) }
    ensures opens { IfOk result (λ x. OpensBelow matcher.old matcher.new buffer.old buffer.new parent.0 kind x) }
    ensures err { OnErr result (buffer.new ≡ buffer.old) }
    ensures taken { buffer.new.taken ≤ buffer.old.taken + 2 ^ 64 }
    ensures loans { buffer.new.loans ≡ buffer.old.loans }
{
    matcher.go(alloc, &kind)?;
    let given = matcher.given(alloc)?;
    let plain = matcher.plain();
    let (place, _count) = open_entered(matcher, alloc, buffer, parent, kind, plain)?;
    clear_waiting(buffer);
    Ok((place, given))
}

/// Opens the matcher's innermost node below this place. `plain` is how many roles it has, where that is plain. Answers its
/// place, if it is held, and how many roles it is given.
#[inline(always)]
pub(crate) fn open_entered<N: NodeStore<Row>>(
    matcher: &Matcher,
    alloc: Global,
    buffer: &mut Buffer<N>,
    parent: Place,
    kind: Kind,
    plain: Option<usize>,
) -> Result<(Option<Place>, u64), Memory>
    requires plain { IfSome plain (GivesCount matcher.now) }
    requires parent { Innermost buffer.old.rows parent.0 }
    requires kind { IsNode kind }
    requires nodes { buffer.old.nodes ≤ 2 ^ 40 + 1 }
    requires depth { level_in (at_place parent.0 buffer.old.rows) ≤ 1000 }
    requires may { MayOpenEntered matcher.now buffer.old kind }
    ensures opens { IfOk result (λ x. OpensEntered matcher.now buffer.old buffer.new parent.0 kind x.0 x.1) }
    ensures err { OnErr result (buffer.new ≡ buffer.old) }
    ensures taken { buffer.new.taken ≤ buffer.old.taken + 2 ^ 64 }
    ensures loans { buffer.new.loans ≡ buffer.old.loans }
{
    match plain {
        Some(count) => {
            let (given, kept) = matcher.plain_sets();
            let place = buffer.open_kept(alloc, parent, kind, given, kept)?;
            Ok((place, count as u64))
        }
        None => open_listed(matcher, alloc, buffer, parent, kind),
    }
}

/// Opens the matcher's innermost node below this place as `open_entered` does, by a list of its roles, and of those that
/// are taken back already.
#[inline(never)]
fn open_listed<N: NodeStore<Row>>(
    matcher: &Matcher,
    alloc: Global,
    buffer: &mut Buffer<N>,
    parent: Place,
    kind: Kind,
) -> Result<(Option<Place>, u64), Memory>
    requires parent { Innermost buffer.old.rows parent.0 }
    requires kind { IsNode kind }
    requires nodes { buffer.old.nodes ≤ 2 ^ 40 + 1 }
    requires depth { level_in (at_place parent.0 buffer.old.rows) ≤ 1000 }
    requires may { MayOpenEntered matcher.now buffer.old kind }
    ensures opens { IfOk result (λ x. OpensEntered matcher.now buffer.old buffer.new parent.0 kind x.0 x.1) }
    ensures err { OnErr result (buffer.new ≡ buffer.old) }
    ensures taken { buffer.new.taken ≤ buffer.old.taken + 2 ^ 64 }
    ensures loans { buffer.new.loans ≡ buffer.old.loans }
{
    let given = matcher.given(alloc)?;
    let early = roles_ahead(matcher, alloc)?;
    let count = given.items().len() as u64;
    let place = buffer.open_node(alloc, parent, kind, given, early)?;
    Ok((place, count))
}

/// No statement waits any more.
#[inline(always)]
pub(crate) fn clear_waiting<N: NodeStore<Row>>(buffer: &mut Buffer<N>)
    ensures cleared { buffer.new ≡ record buffer.old { waiting = [] } }
    ensures stands { (past : Past) → StandsFor buffer.old past → StandsFor buffer.new (past_told past) }
{
    if !buffer.waiting().is_empty() {
        buffer.clear_waiting();
    }
}

/// The roles of the matcher's innermost node that are taken back already. A `usize` counts them.
#[inline(always)]
fn roles_ahead(matcher: &Matcher, alloc: Global) -> Result<Given, Memory>
    ensures roles { IfOk result (λ given. TellsTaken matcher.now given) }
    ensures few { IfOk result (λ given. length given < 2 ^ 64) }
{
    let given = matcher.ahead(alloc)?;
    let _count = given.items().len();
    Ok(given)
}

/// A cursor at the innermost open node, which stands at this place, or is the root.
#[inline(always)]
pub(crate) fn innermost<'a, N: NodeStore<Row>>(
    buffer: &'a Buffer<N>,
    kept: Option<Place>,
) -> At<'a, N, Row>
    requires place { KeepsPlace kept buffer.now.rows }
    requires rows { HasInnermost buffer.now.rows }
    ensures innermost { Innermost buffer.now.rows result.place.0 }
    ensures store { Shape (N.rows result.store.now) buffer.now.kept }
    ensures alike { SameButRoles buffer.now.kept buffer.now.rows }
{
    let place = match kept {
        Some(place) => place,
        None => root_of(buffer),
    };
    buffer.at(place)
}

/// The root's place.
fn root_of<N: NodeStore<Row>>(buffer: &Buffer<N>) -> Place
    requires { head buffer.now.rows ≡ None → ⊥ }
    ensures { IfSome (head buffer.now.rows) (λ c. c.place ≡ result.0) }
{
    match buffer.root() {
        Some(root) => root,
        None => unreachable!(),
    }
}

/// The place of the parent, or None at the document node.
#[inline(always)]
fn above<N: NodeStore<Row>>(here: &At<'_, N, Row>) -> Option<Place>
    ensures { option_map (λ p. p.0) result ≡ parent_of (N.rows here.now.store.now) here.now.place.0 }
{
    match here.parent() {
        Some(parent) => Some(parent.place),
        None => None,
    }
}
