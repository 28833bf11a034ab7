//! Single roles taken back from nodes, beside statements that take back the same.
ghost use Rattle.std.specs.Prelude.{◌≡◌, true, OnOk};
ghost use Rattle.std.specs.FinMap as map;
ghost use Rattle.gcx_model.specs.Core.{BodyTree};
ghost use Rattle.gcx_model.specs.Cores.{Good};
ghost use Rattle.gcx_model.specs.Placed.{Placed};
ghost use Rattle.gcx_model.specs.PlanView.{plan_tree};
ghost use Rattle.buffer_tests.specs.Buffers.{OwnPlain};

use super::{
    followed, is_same, off_of, place_of, plan_of, put_all, put_changes, role_and_node, told_by,
};
use buf_tree::{Buffer, Row};
use gcx_model::{Off, Plan};
use node_store::{NodeStore, SlabNodes};
use raw_nodes::RawNodes;
use std::alloc::Global;
use std::fmt::Write;
use std::process::Abort;
use std::test::Fail;

/// The orders of four words, each by its number.
const ORDERS: &str = "0123 0132 0213 0231 0312 0321 1023 1032 1203 1230 1302 1320 \
    2013 2031 2103 2130 2301 2310 3012 3021 3102 3120 3201 3210";

/// A query, a document, how many of its tokens are fed, and words `R@S`, for role R of node S: each is that of a base, whose
/// statement takes it back from the base alone.
type Case = (&'static str, &'static str, &'static str, [&'static str; 4]);

const CASES: [Case; 4] = [
    // nodes in one another, with one between them that has no role
    (
        "for $x in //a return <h/>",
        "<a><b><a/></b><a/></a>",
        "9",
        ["1@1", "1@3", "1@4", "0@0"],
    ),
    // two roles of each node
    (
        "(for $x in //a return <h/>, for $y in //a return <h/>)",
        "<a><a/></a>",
        "5",
        ["1@1", "2@1", "1@2", "2@2"],
    ),
    // open nodes, which stay
    (
        "for $x in //* return <h/>",
        "<r><a/><b><c/></b></r>",
        "5",
        ["1@1", "1@2", "1@3", "1@4"],
    ),
    // nodes that stay since they are copied
    (
        "for $x in /r/a return $x",
        "<r><a>1</a><a><b/></a></r>",
        "10",
        ["1@1", "2@2", "2@4", "0@0"],
    ),
];

/// Whether the statement takes its base's own role back.
fn takes_own(off: &Off) -> bool
    ensures { result ≡ true → off.now.own.0 ≡ off.now.role.0 }
{
    off.own.0 == off.role.0
}

/// Takes the role of a word `R@S` back from the node.
fn take<N: NodeStore<Row>>(
    out: &mut String,
    buffer: &mut Buffer<N>,
    plan: &Plan,
    word: &str,
) -> Result<(), Fail>
    requires { OwnPlain (plan_tree plan.now) buffer.old }
    ensures { OnOk result (OwnPlain (plan_tree plan.now) buffer.new) }
{
    let (role, serial) = role_and_node(word)?;
    let Some(off) = off_of(&plan.body, role) else {
        return Err("no statement")?;
    };
    if !takes_own(off) {
        return Err("not a base's own role")?;
    }
    let place = place_of(&*buffer, serial)?;
    if !buffer.is_due(place, off) {
        return Err("no such role")?;
    }
    let taken = buffer.taken();
    buffer.take_role(place, off.own);
    out.push_str(" o")?;
    put_changes(out, buffer, taken)
}

/// The word of this number.
fn word_at(words: [&'static str; 4], number: u8) -> Result<&'static str, Fail> {
    match number {
        b'0' => Ok(words[0]),
        b'1' => Ok(words[1]),
        b'2' => Ok(words[2]),
        b'3' => Ok(words[3]),
        _ => Err("no word")?,
    }
}

/// What is told where the roles are taken back in this order, with the rows behind each.
fn told_taken<N: NodeStore<Row> + Drop>(
    alloc: Global,
    nodes: N,
    plan: &Plan,
    case: Case,
    order: &str,
    spread: bool,
) -> Result<String, Fail>
    requires empty { N.rows nodes ≡ map.empty }
    requires placed { (core : BodyTree) × Good core × Placed core (plan_tree plan.now) }
{
    let (_, document, tokens, words) = case;
    let mut out = String::new(alloc);
    let mut buffer = followed(
        alloc,
        &mut out,
        nodes,
        plan,
        document.as_bytes(),
        tokens,
        spread,
    )?;
    for number in order.as_bytes() {
        let word = word_at(words, *number)?;
        take(&mut out, &mut buffer, plan, word)?;
        put_all(&mut out, &buffer)?;
    }
    write!(out, " most {}", buffer.into_nodes().most())?;
    Ok(out)
}

/// What is told where the statements are carried out in this order.
fn told_signed<N: NodeStore<Row> + Drop>(
    alloc: Global,
    nodes: N,
    plan: &Plan,
    case: Case,
    order: &str,
    spread: bool,
) -> Result<String, Fail>
    requires empty { N.rows nodes ≡ map.empty }
    requires placed { (core : BodyTree) × Good core × Placed core (plan_tree plan.now) }
{
    let (_, document, tokens, words) = case;
    let mut script = String::new(alloc);
    script.push_str(tokens)?;
    for number in order.as_bytes() {
        let word = word_at(words, *number)?;
        write!(script, " o{word} ?")?;
    }
    told_by(
        alloc,
        nodes,
        plan,
        document.as_bytes(),
        script.as_str(),
        spread,
    )
}

/// The roles that are taken back in this order tell the same as the statements, over these two stores.
fn is_taken_over<N: NodeStore<Row> + Drop>(
    rt: &impl Abort,
    alloc: Global,
    stores: (N, N),
    plan: &Plan,
    case: Case,
    order: &str,
    spread: bool,
) -> Result<(), Fail>
    requires one { N.rows stores.0 ≡ map.empty }
    requires other { N.rows stores.1 ≡ map.empty }
    requires placed { (core : BodyTree) × Good core × Placed core (plan_tree plan.now) }
{
    let (one, other) = stores;
    let want = told_signed(alloc, one, plan, case, order, spread)?;
    let got = told_taken(alloc, other, plan, case, order, spread)?;
    is_same(rt, got.as_str(), want.as_str(), order, case.0, case.1);
    Ok(())
}

/// So they do over both stores, whether roles are spread or not.
fn is_taken(
    rt: &impl Abort,
    alloc: Global,
    plan: &Plan,
    case: Case,
    order: &str,
) -> Result<(), Fail>
    requires { (core : BodyTree) × Good core × Placed core (plan_tree plan.now) }
{
    let slabs = (SlabNodes::new(alloc), SlabNodes::new(alloc));
    is_taken_over(rt, alloc, slabs, plan, case, order, false)?;
    let raw = (RawNodes::new(alloc), RawNodes::new(alloc));
    is_taken_over(rt, alloc, raw, plan, case, order, false)?;
    let raw = (RawNodes::new(alloc), RawNodes::new(alloc));
    is_taken_over(rt, alloc, raw, plan, case, order, true)
}

/// So they do in all orders.
fn are_taken(rt: &impl Abort, alloc: Global, case: Case) -> Result<(), Fail> {
    let plan = plan_of(alloc, case.0.as_bytes())?;
    for order in ORDERS.split_ascii_whitespace() {
        is_taken(rt, alloc, &plan, case, order)?;
    }
    Ok(())
}

#[test]
fn single_roles_are_taken_back_in_any_order(rt: HostRuntime) -> Result<(), Fail> {
    let alloc = rt.alloc();
    for case in CASES {
        are_taken(&rt, alloc, case)?;
    }
    Ok(())
}
