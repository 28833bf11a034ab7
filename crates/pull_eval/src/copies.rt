//! Copies of nodes, tag by tag.
ghost use Rattle.std.specs.Prelude.{◌≡◌, ◌≤◌, ◌<◌, ◌-◌, ◌++◌, ℕ, true, length, Some, None, IfOk, OnOk, OnErr};
ghost use Rattle.gcx_model.specs.Core.{Copy};
ghost use Rattle.gcx_model.specs.Members.{In};
ghost use Rattle.gcx_model.specs.Past.{Past};
ghost use Rattle.gcx_model.specs.Answer.{child_step};
ghost use Rattle.buf_tree.specs.Shape.{Cell};
ghost use Rattle.buf_tree.specs.View.{InUse};
ghost use Rattle.gcx_base.specs.Kinds.{is_text};
ghost use Rattle.buf_tree.specs.Match.{GoesFrom};
ghost use Rattle.pull_eval.specs.Position.{items};
ghost use Rattle.pull_eval.specs.Copies.{first_bytes, last_bytes, present_place, begun_at, come_to};
ghost use Rattle.pull_eval.specs.Acting.{Beside, IsNextItem, NextIs, NoNext};
ghost use Rattle.pull_eval.specs.Calls.{MovesTo, FindsChild, RisesTo};
ghost use Rattle.pull_eval.specs.declared.machine.Acted.TheVariants as outcomes;

use crate::block::Copying;
use crate::machine::Acted;
use crate::position::Position;
use buf_tree::{Buffer, Row};
use cond_eval::place_of;
use doc_write::{put_end, put_start, put_text};
use gcx_base::{Axis, Kind, Memory, Step, Test, VarId};
use gcx_model::Item;
use node_store::{NodeStore, Place};

/// The step to all children.
fn to_children() -> Step
    ensures { result ≡ child_step }
{
    Step {
        axis: Axis::Child,
        test: Test::AnyNode,
    }
}

/// From where the next child is looked for.
fn behind(copying: &Copying) -> Place
    ensures { result ≡ present_place copying.now }
{
    match copying.present {
        Some(child) => child,
        None => copying.node,
    }
}

/// The next child behind the one that is present.
fn next_child<N: NodeStore<Row>>(buffer: &Buffer<N>, copying: &Copying) -> Option<Place>
    requires { GoesFrom buffer.now.rows copying.now.node.0 child_step.axis (present_place copying.now).0 }
    ensures { FindsChild buffer.now.rows copying.now.node.0 (present_place copying.now).0 result }
{
    buffer.match_behind(copying.node, &to_children(), behind(copying))
}

/// What the node of the row is.
fn kind_at<'b, N: NodeStore<Row>>(buffer: &'b Buffer<N>, place: Place) -> &'b Kind
    requires { InUse buffer.now.rows place.0 }
    ensures { (c : Cell) → In c buffer.now.rows → c.place ≡ place.0 → result.now ≡ c.row.kind }
{
    buffer.at(place).payload().kind()
}

/// Writes the start of the node's copy: a start tag or a text. Of the document node nothing is written.
fn put_begin<N: NodeStore<Row>>(
    buffer: &Buffer<N>,
    place: Place,
    out: &mut Vec<u8>,
) -> Result<(), Memory>
    requires { InUse buffer.now.rows place.0 }
    ensures ok { OnOk result ((c : Cell) → In c buffer.now.rows → c.place ≡ place.0
        → out.new.items ≡ out.old.items ++ first_bytes c.row.kind) }
    ensures err { OnErr result (out.new.items ≡ out.old.items) }
{
    match kind_at(buffer, place) {
        Kind::Element(name) => put_start(out, name),
        Kind::Text(text) => put_text(out, text),
        Kind::Document => Ok(()),
    }
}

/// Writes the end of the node's copy: an end tag. Of the document node nothing is written.
fn put_ending<N: NodeStore<Row>>(
    buffer: &Buffer<N>,
    place: Place,
    out: &mut Vec<u8>,
) -> Result<(), Memory>
    requires { InUse buffer.now.rows place.0 }
    ensures ok { OnOk result ((c : Cell) → In c buffer.now.rows → c.place ≡ place.0
        → out.new.items ≡ out.old.items ++ last_bytes c.row.kind) }
    ensures err { OnErr result (out.new.items ≡ out.old.items) }
{
    match kind_at(buffer, place) {
        Kind::Element(name) => put_end(out, name),
        Kind::Text(_) => Ok(()),
        Kind::Document => Ok(()),
    }
}

/// Whether the node has nothing below it, by its kind.
fn is_text<N: NodeStore<Row>>(buffer: &Buffer<N>, place: Place) -> bool
    requires { InUse buffer.now.rows place.0 }
    ensures { (c : Cell) → In c buffer.now.rows → c.place ≡ place.0 → result ≡ is_text c.row.kind }
{
    match kind_at(buffer, place) {
        Kind::Text(_) => true,
        Kind::Element(_) => false,
        Kind::Document => false,
    }
}

/// Where a copy stands that begins at the node: of a text it is over.
fn begun<N: NodeStore<Row>>(buffer: &Buffer<N>, place: Place) -> Option<Copying>
    requires { InUse buffer.now.rows place.0 }
    ensures { (c : Cell) → In c buffer.now.rows → c.place ≡ place.0 → result ≡ begun_at place c.row.kind }
{
    if is_text(buffer, place) {
        return None;
    }
    Some(Copying {
        top: place,
        node: place,
        present: None,
    })
}

/// Where a copy goes on that has come to this child: behind a text, or within an element.
fn come_to<N: NodeStore<Row>>(buffer: &Buffer<N>, copying: Copying, child: Place) -> Copying
    requires { InUse buffer.now.rows child.0 }
    ensures { (c : Cell) → In c buffer.now.rows → c.place ≡ child.0 → result ≡ come_to copying child c.row.kind }
{
    if is_text(buffer, child) {
        return Copying {
            present: Some(child),
            ..copying
        };
    }
    Copying {
        node: child,
        present: None,
        ..copying
    }
}

impl<'p> Position<'p> {
    /// A copy begins: of a text it is one action, of an element its start tag, of the document node none.
    pub(crate) fn begin_copy<N: NodeStore<Row>>(
        &mut self,
        var: VarId,
        rest: &'p [Item],
        buffer: &Buffer<N>,
        out: &mut Vec<u8>,
    ) -> Result<Option<Acted>, Memory>
        requires next { IsNextItem self.old (Copy var.0) (items rest.now) }
        requires begun { self.old.is_begun ≡ true }
        requires beside { (past : Past) × (k : ℕ) × Beside self.old buffer.now past k }
        ensures moved { IfOk result (λ a. MovesTo self.old self.new buffer.now buffer.now out.old.items out.new.items a) }
        ensures begun { self.new.is_begun ≡ true }
        ensures err { OnErr result (out.new.items ≡ out.old.items) }
    {
        let place = place_of(&self.env, var);
        let before = out.len();
        put_begin(buffer, place, out)?;
        self.top.go_on(rest);
        self.copying = begun(buffer, place);
        Ok(wrote(before, out))
    }

    /// A copy goes on: with the next child, or with its end where none comes.
    #[inline(always)]
    pub(crate) fn copy_on<N: NodeStore<Row>>(
        &mut self,
        copying: Copying,
        buffer: &Buffer<N>,
        out: &mut Vec<u8>,
    ) -> Result<Option<Acted>, Memory>
        requires copying { self.old.copying ≡ Some copying }
        requires begun { self.old.is_begun ≡ true }
        requires beside { (past : Past) × (k : ℕ) × Beside self.old buffer.now past k }
        ensures moved { IfOk result (λ a. MovesTo self.old self.new buffer.now buffer.now out.old.items out.new.items a) }
        ensures begun { self.new.is_begun ≡ true }
        ensures err { OnErr result (out.new.items ≡ out.old.items) }
    {
        match next_child(buffer, &copying) {
            Some(child) => self.copy_child(copying, child, buffer, out),
            None => {
                if !buffer.is_closed(copying.node) {
                    return Ok(Some(Acted::Blocked));
                }
                self.end_copy(copying, buffer, out)
            }
        }
    }

    /// The next child: a text is one action, an element's start tag is one.
    fn copy_child<N: NodeStore<Row>>(
        &mut self,
        copying: Copying,
        child: Place,
        buffer: &Buffer<N>,
        out: &mut Vec<u8>,
    ) -> Result<Option<Acted>, Memory>
        requires copying { self.old.copying ≡ Some copying }
        requires begun { self.old.is_begun ≡ true }
        requires used { InUse buffer.now.rows child.0 }
        requires next { (past : Past) (k : ℕ) → (b : Beside self.old buffer.now past k)
            → NextIs buffer.now.rows past.tree b.position.inner child.0 }
        ensures moved { IfOk result (λ a. MovesTo self.old self.new buffer.now buffer.now out.old.items out.new.items a) }
        ensures begun { self.new.is_begun ≡ true }
        ensures err { OnErr result (out.new.items ≡ out.old.items) }
    {
        let before = out.len();
        put_begin(buffer, child, out)?;
        self.copying = Some(come_to(buffer, copying, child));
        Ok(wrote(before, out))
    }

    /// The end tag of a node, of which no child is left. Of the document node there is none.
    fn end_copy<N: NodeStore<Row>>(
        &mut self,
        copying: Copying,
        buffer: &Buffer<N>,
        out: &mut Vec<u8>,
    ) -> Result<Option<Acted>, Memory>
        requires copying { self.old.copying ≡ Some copying }
        requires begun { self.old.is_begun ≡ true }
        requires used { InUse buffer.now.rows copying.node.0 }
        requires over { (past : Past) (k : ℕ) → (b : Beside self.old buffer.now past k)
            → NoNext past.tree b.position.inner }
        ensures moved { IfOk result (λ a. MovesTo self.old self.new buffer.now buffer.now out.old.items out.new.items a) }
        ensures begun { self.new.is_begun ≡ true }
        ensures err { OnErr result (out.new.items ≡ out.old.items) }
    {
        let before = out.len();
        put_ending(buffer, copying.node, out)?;
        self.copying = above(buffer, &copying);
        Ok(wrote(before, out))
    }
}

/// Behind the copy of the node: within its parent's, or out of the copy.
fn above<N: NodeStore<Row>>(buffer: &Buffer<N>, copying: &Copying) -> Option<Copying>
    requires { InUse buffer.now.rows copying.now.node.0 }
    ensures top { copying.now.node.0 ≡ copying.now.top.0 → result ≡ None }
    ensures below { RisesTo buffer.now.rows copying.now result }
{
    let node = buffer.at(copying.node);
    if copying.node.0 == copying.top.0 {
        return None;
    }
    match node.parent() {
        Some(parent) => Some(Copying {
            top: copying.top,
            node: parent.place,
            present: Some(copying.node),
        }),
        None => None,
    }
}

/// The action that wrote what is new, or None where nothing is.
fn wrote(before: usize, out: &Vec<u8>) -> Option<Acted>
    requires { before ≤ length out.now.items }
    ensures none { length out.now.items ≡ before → result ≡ None }
    ensures some { before < length out.now.items → result ≡ Some (outcomes.Wrote (length out.now.items - before)) }
{
    if out.len() == before {
        return None;
    }
    Some(Acted::Wrote((out.len() - before) as u64))
}
