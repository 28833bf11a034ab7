//! Where a machine stands, and its moves but for those that ask conditions.
ghost use Rattle.std.specs.Prelude.{◌≡◌, ℕ, true, false, [], None, IfOk, OnOk, OnErr};
ghost use Rattle.gcx_model.specs.Core as tree;
ghost use Rattle.gcx_model.specs.Core.{Write};
ghost use Rattle.buf_tree.specs.View.{View};
ghost use Rattle.buf_tree.specs.Calls.{Signed};
ghost use Rattle.buf_tree.specs.Stands.{Due};
ghost use Rattle.gcx_model.specs.ItemView.{off_tree};
ghost use Rattle.gcx_model.specs.Past.{Past};
ghost use Rattle.pull_eval.specs.Position.{items};
ghost use Rattle.pull_eval.specs.Acting.{Beside, IsNextItem};
ghost use Rattle.pull_eval.specs.Calls.{MovesTo, MovesSilently, MovesInto, MovesBehind, SignsFor};

use crate::block::{Block, Copying};
use crate::machine::Acted;
use crate::turns::Turns;
use buf_tree::{Buffer, Row};
use cond_eval::{Env, place_of};
use gcx_base::{Memory, Serial, Text, VarId};
use gcx_model::{Item, Off};
use node_store::{NodeStore, Place};
use std::alloc::Global;

/// Where a machine stands: the block that runs, those that go on behind it, the next one last, and a copy in progress.
#[derive(Drop, Debug)]
pub(crate) struct Position<'p> {
    pub top: Block<'p>,
    pub below: Vec<Block<'p>>,
    pub env: Env,
    pub copying: Option<Copying>,
    /// What loops go by whose bodies do nothing where an equality is false.
    pub turns: Vec<Turns<'p>>,
    /// Whether variable 0 is bound.
    pub is_begun: bool,
}

impl<'p> Position<'p> {
    /// Before the first item of the body.
    pub fn new(alloc: Global, body: &'p [Item]) -> Position<'p>
        ensures rest { result.top.rest.now ≡ body.now }
        ensures round { result.top.round ≡ None }
        ensures seen { result.top.seen ≡ 0 }
        ensures below { result.below.items ≡ [] }
        ensures copying { result.copying ≡ None }
        ensures turns { result.turns.items ≡ [] }
        ensures begun { result.is_begun ≡ false }
    {
        Position {
            top: Block::new(body),
            below: Vec::new(alloc),
            env: Env::new(alloc),
            copying: None,
            turns: Vec::new(alloc),
            is_begun: false,
        }
    }

    /// Binds variable 0 to the document node, before the first move.
    pub fn begin<N: NodeStore<Row>>(&mut self, buffer: &Buffer<N>) -> Result<(), Memory>
        requires { (past : Past) × (k : ℕ) × Beside self.old buffer.now past k }
        ensures stays { IfOk result (λ _. (past : Past) (k : ℕ) → Beside self.old buffer.now past k
            → Beside self.new buffer.now past k) }
        ensures begun { IfOk result (λ _. self.new.is_begun ≡ true) }
        ensures same { self.old.is_begun ≡ true → self.new ≡ self.old }
    {
        if self.is_begun {
            return Ok(());
        }
        let Some(root) = buffer.root() else {
            unreachable!()
        };
        self.env.bind(VarId(0), root, Serial(0))?;
        self.is_begun = true;
        Ok(())
    }

    /// Bytes are written.
    #[inline(always)]
    pub fn write(
        &mut self,
        text: &Text,
        rest: &'p [Item],
        out: &mut Vec<u8>,
    ) -> Result<Option<Acted>, Memory>
        requires next { IsNextItem self.old (Write text.now) (items rest.now) }
        requires begun { self.old.is_begun ≡ true }
        ensures moved { IfOk result (λ a. (v : View) → MovesTo self.old self.new v v out.old.items out.new.items a) }
        ensures begun { self.new.is_begun ≡ true }
        ensures err { OnErr result (out.new.items ≡ out.old.items) }
    {
        let bytes = text.as_bytes();
        out.extend_from_slice(bytes)?;
        self.top.go_on(rest);
        Ok(Some(Acted::Wrote(bytes.len() as u64)))
    }

    /// A branch is taken.
    #[inline(always)]
    pub fn begin_branch(
        &mut self,
        branch: &'p [Item],
        rest: &'p [Item],
    ) -> Result<Option<Acted>, Memory>
        requires begun { self.old.is_begun ≡ true }
        ensures moved { IfOk result (λ a. MovesInto self.old self.new (items branch.now) (items rest.now) a) }
        ensures begun { self.new.is_begun ≡ true }
    {
        self.top.go_on(rest);
        self.below.push(self.top)?;
        self.top = Block::new(branch);
        Ok(None)
    }

    /// A statement is carried out. Before the first one of a body the loop looks for its next match.
    #[inline(always)]
    pub fn sign<N: NodeStore<Row>>(
        &mut self,
        alloc: Global,
        off: &Off,
        rest: &'p [Item],
        buffer: &mut Buffer<N>,
    ) -> Result<Option<Acted>, Memory>
        requires next { IsNextItem self.old (tree.SignOff (off_tree off.now)) (items rest.now) }
        requires begun { self.old.is_begun ≡ true }
        requires beside { (past : Past) × (k : ℕ) × Beside self.old buffer.old past k }
        ensures moved { IfOk result (λ a. MovesSilently self.old self.new buffer.old buffer.new a) }
        ensures begun { self.new.is_begun ≡ true }
        ensures kept { OnErr result (buffer.new ≡ buffer.old) }
        ensures most { buffer.new.most ≡ buffer.old.most }
        ensures loans { buffer.new.loans ≡ buffer.old.loans }
    {
        self.look_ahead(buffer);
        let place = place_of(&self.env, off.base);
        let serial = buffer.serial(place);
        carry_out(alloc, buffer, place, off)?;
        self.top.go_on(rest);
        Ok(Some(Acted::SignedOff(serial, off.role)))
    }

    /// Goes on with the block below. Without one all is done.
    #[inline(always)]
    pub fn go_below(&mut self) -> Option<Acted>
        requires over { self.old.top.rest.now ≡ [] }
        requires no_copy { self.old.copying ≡ None }
        requires begun { self.old.is_begun ≡ true }
        ensures moved { MovesBehind self.old self.new result }
        ensures begun { self.new.is_begun ≡ true }
    {
        match self.below.pop() {
            Some(block) => {
                self.top = block;
                None
            }
            None => Some(Acted::Finished),
        }
    }
}

/// Carries out the statement, in advance where nodes may come that it reaches. Out of line, so that the machine's moves are
/// small enough to stand in line where actions are taken.
#[inline(never)]
fn carry_out<N: NodeStore<Row>>(
    alloc: Global,
    buffer: &mut Buffer<N>,
    place: Place,
    off: &Off,
) -> Result<(), Memory>
    requires due { Due buffer.old place.0 off.now }
    ensures stands { OnOk result (SignsFor buffer.old buffer.new (off_tree off.now) place.0) }
    ensures signed { OnOk result (Signed buffer.old buffer.new off.now.role.0) }
    ensures kept { OnErr result (buffer.new ≡ buffer.old) }
    ensures loans { buffer.new.loans ≡ buffer.old.loans }
{
    if buffer.is_closed(place) || off.is_own() {
        buffer.sign_off(place, off)
    } else {
        buffer.sign_ahead(alloc, place, off)
    }
}
