//! The two actors by their own calls, in the demand schedule: each action as soon as it is possible.
ghost use Rattle.std.specs.Prelude.{◌≡◌, [], IfOk, OnOk};
ghost use Rattle.gcx_model.specs.Core.{BodyTree};
ghost use Rattle.gcx_model.specs.Cores.{Good};
ghost use Rattle.gcx_model.specs.Placed.{Placed};
ghost use Rattle.gcx_model.specs.PlanView.{plan_tree};
ghost use Rattle.engine_tests.specs.Demand.{Demands};

use super::plan_of;
use super::turns::tokens_of;
use buf_tree::{Buffer, Row};
use cond_eval::Plain;
use doc_reader::Token;
use gcx_base::Serial;
use gcx_model::Plan;
use node_store::SlabNodes;
use projector::Projector;
use pull_eval::{Acted, Machine};
use std::alloc::Global;
use std::collections::VecDeque;
use std::process::Abort;
use std::test::Fail;

/// A projector and a machine over one buffer, and the tokens that are left.
#[derive(Drop)]
struct Pair<'p> {
    projector: Projector,
    buffer: Buffer<SlabNodes<Row>>,
    machine: Machine<'p, Plain>,
    tokens: VecDeque<Token>,
}

impl<'p> Pair<'p> {
    /// Feeds the next token, if one is left.
    fn feed(&mut self, alloc: Global, gone: &mut Vec<Serial>) -> Result<(), Fail>
        requires { Demands self.old.projector self.old.machine.position self.old.buffer self.old.tokens.items }
        ensures { OnOk result
            (Demands self.new.projector self.new.machine.position self.new.buffer self.new.tokens.items) }
    {
        let Some(token) = self.tokens.pop_front() else {
            return Ok(());
        };
        self.projector.feed_token(alloc, &mut self.buffer, token)?;
        note_gone(&mut self.buffer, gone)?;
        Ok(())
    }

    /// Takes the next action, if one is possible.
    fn act(
        &mut self,
        alloc: Global,
        out: &mut Vec<u8>,
        gone: &mut Vec<Serial>,
    ) -> Result<Acted, Fail>
        requires { Demands self.old.projector self.old.machine.position self.old.buffer self.old.tokens.items }
        ensures { IfOk result
            (λ _. Demands self.new.projector self.new.machine.position self.new.buffer self.new.tokens.items) }
    {
        let acted = self
            .machine
            .act::<SlabNodes<Row>, Plain>(alloc, &mut self.buffer, out)?;
        note_gone(&mut self.buffer, gone)?;
        Ok(acted)
    }
}

/// Notes which nodes left, in their order, and forgets them in the buffer.
fn note_gone(buffer: &mut Buffer<SlabNodes<Row>>, gone: &mut Vec<Serial>) -> Result<(), Fail>
    ensures { OnOk result (buffer.new ≡ record buffer.old { gone = [] }) }
{
    for serial in buffer.gone() {
        gone.push(*serial)?;
    }
    buffer.clear_gone();
    Ok(())
}

/// The pair before any token of the document and any action.
fn pair_of<'p>(alloc: Global, plan: &'p Plan, document: &[u8]) -> Result<Pair<'p>, Fail>
    requires placed { (core : BodyTree) × Good core × Placed core (plan_tree plan.now) }
    ensures { IfOk result (λ pair. Demands pair.projector pair.machine.position pair.buffer pair.tokens.items) }
{
    let tokens = tokens_of(alloc, document)?;
    let projector = Projector::new(alloc, plan)?;
    let given = projector.document(alloc)?;
    let buffer = Buffer::new_spread(alloc, SlabNodes::new(alloc), given, plan)?;
    let machine = Machine::new(alloc, plan, Plain)?;
    Ok(Pair {
        projector,
        buffer,
        machine,
        tokens,
    })
}

/// `f` feeds, `a` acts. The nodes that left, and what the last turn that acted answered.
fn demanded(
    alloc: Global,
    pair: &mut Pair<'_>,
    turns: &str,
    out: &mut Vec<u8>,
) -> Result<(Vec<Serial>, Acted), Fail>
    requires { Demands pair.old.projector pair.old.machine.position pair.old.buffer pair.old.tokens.items }
{
    let mut gone = Vec::new(alloc);
    let mut last = Acted::Blocked;
    for turn in turns.as_bytes() {
        if *turn == b'f' {
            pair.feed(alloc, &mut gone)?;
        } else {
            last = pair.act(alloc, out, &mut gone)?;
        }
    }
    Ok((gone, last))
}

/// Each token, and then as many actions as may come behind it: at most four here, and where none is left a turn does nothing.
const DEMAND: &str = "aaaafaaaafaaaafaaaafaaaafaaaafaaaafaaaa";

/// Where the statement of an open node is signed before what lies below it was closed, that leaves as it closes.
#[test]
fn nodes_leave_as_they_close(rt: HostRuntime) -> Result<(), Fail> {
    let alloc = rt.alloc();
    let plan = plan_of(
        alloc,
        b"for $x in /r/p return if (exists($x/k)) then <y/> else <n/>",
    )?;
    let mut pair = pair_of(alloc, &plan, b"<r><p><k/></p></r>")?;
    let mut out = Vec::new(alloc);
    let (gone, last) = demanded(alloc, &mut pair, DEMAND, &mut out)?;
    assert_eq!(rt;
        gone.as_slice(),
        [Serial(3), Serial(2), Serial(1), Serial(0)].as_slice()
    );
    assert_eq!(rt;
        (out.as_slice(), last),
        (b"<y></y>".as_slice(), Acted::Finished)
    );
    Ok(())
}
