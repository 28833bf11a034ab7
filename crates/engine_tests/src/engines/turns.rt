//! The two actors by hand, in any order.
ghost use Rattle.std.specs.Prelude.{◌≡◌, ℕ, Bool, true, false, List, [], map, IfOk};
ghost use Rattle.gcx_base.specs.Limits.{full_limits};
ghost use Rattle.gcx_model.specs.Core.{BodyTree};
ghost use Rattle.gcx_model.specs.Cores.{Good};
ghost use Rattle.gcx_model.specs.Growth.{may_all};
ghost use Rattle.gcx_model.specs.Past.{Past, opening_past};
ghost use Rattle.gcx_model.specs.Placed.{Placed};
ghost use Rattle.gcx_model.specs.PlanView.{plan_tree};
ghost use Rattle.gcx_model.specs.Tree.{opening};
ghost use Rattle.doc_reader.specs.Standing.{Stands, said_of};
ghost use Rattle.pull_eval.specs.Acting.{Beside};
ghost use Rattle.gcx_model.specs.Seen.{AreWithin};

use super::{indexed, plan_of};
use buf_tree::{Buffer, Row};
use cond_eval::Plain;
use doc_reader::{Reader, Token};
use engine::{Reached, Turn, interleave};
use gcx_base::Limits;
use gcx_model::Plan;
use node_store::SlabNodes;
use projector::Projector;
use pull_eval::{Acted, Machine};
use raw_nodes::RawNodes;
use std::alloc::Global;
use std::collections::VecDeque;
use std::process::Abort;
use std::test::Fail;

/// A reader that was given the whole document.
fn read(alloc: Global, document: &[u8]) -> Result<Reader, Fail>
    ensures { IfOk result (λ reader. Stands reader full_limits document.now true []) }
{
    let mut reader = Reader::new(alloc, Limits::full());
    reader.feed(document)?;
    reader.finish()?;
    Ok(reader)
}

/// A reader that was given a front of a document.
fn read_front(alloc: Global, front: &[u8]) -> Result<Reader, Fail>
    ensures { IfOk result (λ reader. Stands reader full_limits front.now false []) }
{
    let mut reader = Reader::new(alloc, Limits::full());
    reader.feed(front)?;
    Ok(reader)
}

/// The tokens that the reader gives.
fn given_by(alloc: Global, mut reader: Reader) -> Result<VecDeque<Token>, Fail>
    requires { (bytes : List ℕ) × (ended : Bool) × Stands reader full_limits bytes ended [] }
    ensures comes { IfOk result (λ tokens. may_all (map said_of tokens.items) opening ≡ true) }
    ensures within { IfOk result (λ tokens. AreWithin (map said_of tokens.items)) }
{
    let mut tokens = VecDeque::new(alloc);
    'given: while let Some(token) = reader.next() {
        tokens.push_back(token)?;
    }
    Ok(tokens)
}

/// The tokens of the document.
pub(super) fn tokens_of(alloc: Global, document: &[u8]) -> Result<VecDeque<Token>, Fail>
    ensures comes { IfOk result (λ tokens. may_all (map said_of tokens.items) opening ≡ true) }
    ensures within { IfOk result (λ tokens. AreWithin (map said_of tokens.items)) }
{
    let reader = read(alloc, document)?;
    given_by(alloc, reader)
}

/// Those that are settled by a front of a document.
pub(super) fn tokens_of_front(alloc: Global, front: &[u8]) -> Result<VecDeque<Token>, Fail>
    ensures comes { IfOk result (λ tokens. may_all (map said_of tokens.items) opening ≡ true) }
    ensures within { IfOk result (λ tokens. AreWithin (map said_of tokens.items)) }
{
    let reader = read_front(alloc, front)?;
    given_by(alloc, reader)
}

/// The machine and its buffer before the first action.
fn begin(alloc: Global, plan: &Plan) -> Result<(Machine<'_, Plain>, Buffer<SlabNodes<Row>>), Fail>
    requires placed { (core : BodyTree) × Good core × Placed core (plan_tree plan.now) }
    ensures { IfOk result (λ x. Beside x.0.position x.1 (opening_past (plan_tree plan.now)) 0) }
{
    let projector = Projector::new(alloc, plan)?;
    let given = projector.document(alloc)?;
    let buffer = Buffer::new_spread(alloc, SlabNodes::new(alloc), given, plan)?;
    let machine = Machine::new(alloc, plan, Plain)?;
    Ok((machine, buffer))
}

/// The next action.
fn act(
    alloc: Global,
    machine: &mut Machine<'_, Plain>,
    buffer: &mut Buffer<SlabNodes<Row>>,
    out: &mut Vec<u8>,
) -> Result<Acted, Fail>
    requires { (past : Past) × (k : ℕ) × Beside machine.old.position buffer.old past k }
    ensures { IfOk result (λ _. (past : Past) × (k : ℕ) × Beside machine.new.position buffer.new past k) }
{
    Ok(machine.act::<SlabNodes<Row>, Plain>(alloc, buffer, out)?)
}

pub(super) const COPIES: &[u8] = b"<r>{for $x in /a/b return $x}</r>";

pub(super) const TWO: &[u8] = b"<a><b>1</b><c/><b>2</b></a>";

/// What the first two calls answer.
fn first_acted(alloc: Global, plan: &Plan, out: &mut Vec<u8>) -> Result<(Acted, Acted), Fail>
    requires placed { (core : BodyTree) × Good core × Placed core (plan_tree plan.now) }
{
    let (mut machine, mut buffer) = begin(alloc, plan)?;
    let first = act(alloc, &mut machine, &mut buffer, out)?;
    let second = act(alloc, &mut machine, &mut buffer, out)?;
    Ok((first, second))
}

/// What they answer to a query that copies.
fn first_copied(alloc: Global, out: &mut Vec<u8>) -> Result<(Acted, Acted), Fail> {
    let plan = plan_of(alloc, COPIES)?;
    first_acted(alloc, &plan, out)
}

#[test]
fn one_action_is_taken_a_call(rt: HostRuntime) -> Result<(), Fail> {
    let alloc = rt.alloc();
    let mut out = Vec::new(alloc);
    let acted = first_copied(alloc, &mut out)?;
    assert_eq!(rt; acted, (Acted::Wrote(3), Acted::Blocked));
    assert_eq!(rt; out.as_slice(), b"<r>".as_slice());
    Ok(())
}

/// `f` feeds, `a` acts.
fn turns_of(alloc: Global, letters: &str) -> Result<Vec<Turn>, Fail> {
    let mut turns = Vec::new(alloc);
    for letter in letters.as_bytes() {
        turns.push(if *letter == b'f' {
            Turn::Feed
        } else {
            Turn::Act
        })?;
    }
    Ok(turns)
}

/// What these turns of the plan reach.
fn reach_by(alloc: Global, plan: &Plan, turns: &[Turn], out: &mut Vec<u8>) -> Result<Reached, Fail>
    requires placed { (core : BodyTree) × Good core × Placed core (plan_tree plan.now) }
{
    let tokens = tokens_of(alloc, TWO)?;
    let (nodes, conds) = (RawNodes::new(alloc), indexed(alloc, plan)?);
    Ok(interleave(alloc, plan, nodes, conds, tokens, turns, out)?)
}

/// What these turns reach.
fn reach(alloc: Global, turns: &str, out: &mut Vec<u8>) -> Result<Reached, Fail> {
    let turns = turns_of(alloc, turns)?;
    let plan = plan_of(alloc, COPIES)?;
    reach_by(alloc, &plan, &turns, out)
}

/// Turns, what is written, how many tokens were fed and actions taken, nodes are held and were opened, and roles were given
/// and taken back.
type Case = (&'static str, &'static str, [u64; 4], [u128; 2]);

const WHOLE: &str = "<r><b>1</b><b>2</b></r>";

const CASES: [Case; 9] = [
    ("", "", [0, 0, 1, 1], [1, 0]),
    ("aaa", "<r>", [0, 1, 1, 1], [1, 0]),
    ("fffffffffff", "", [11, 0, 6, 7], [8, 0]),
    ("fffffffffffffff", "", [11, 0, 6, 7], [8, 0]),
    ("ffffa", "<r>", [4, 1, 4, 4], [5, 0]),
    ("ffffaaaaa", "<r><b>1</b>", [4, 5, 3, 4], [5, 2]),
    ("fafafafafa", "<r><b>1</b>", [5, 5, 4, 5], [5, 2]),
    ("fffffffffffaaaaaaaaaaaaaafa", WHOLE, [11, 14, 0, 7], [8, 8]),
    ("fffffffffffaaaaaaaaaaaaaaaa", WHOLE, [11, 14, 0, 7], [8, 8]),
];

fn is_reached(rt: &impl Abort, alloc: Global, case: Case) -> Result<(), Fail> {
    let (turns, out, counts, roles) = case;
    let mut bytes = Vec::new(alloc);
    let reached = reach(alloc, turns, &mut bytes)?;
    assert_eq!(rt; bytes.as_slice(), out.as_bytes(), "{turns}");
    let found = [reached.fed, reached.acted, reached.held, reached.nodes];
    assert_eq!(rt; found, counts, "{turns}");
    assert_eq!(rt; [reached.given, reached.taken], roles, "{turns}");
    Ok(())
}

#[test]
fn turns_go_in_any_order(rt: HostRuntime) -> Result<(), Fail> {
    for case in CASES {
        is_reached(&rt, rt.alloc(), case)?;
    }
    Ok(())
}
