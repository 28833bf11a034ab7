//! Several plans over one document, which comes in two pieces.
ghost use Rattle.std.specs.Prelude.{◌≡◌, ◌<◌, false, length, None, IfOk, OnOk};
ghost use Rattle.gcx_model.specs.Tree.{Tree};
ghost use Rattle.many_run.specs.Each.{OfEach};
ghost use Rattle.run_part.specs.Part.{IsOfCore};
ghost use Rattle.many_run.specs.Many.{ManyStandSome};

use super::plan_of;
use buf_tree::Row;
use cond_eval::Plain;
use gcx_base::Limits;
use gcx_model::{DocFault, Plan};
use many_run::Many;
use node_store::SlabNodes;
use std::alloc::Global;
use std::process::Abort;
use std::test::Fail;

/// The plans of these two queries.
fn both_plans(alloc: Global, first: &[u8], second: &[u8]) -> Result<Vec<Plan>, Fail>
    ensures placed { IfOk result (λ plans. OfEach IsOfCore plans.items) }
    ensures count { IfOk result (λ plans. length plans.items ≡ 2) }
{
    let mut plans = Vec::new(alloc);
    plans.push(plan_of(alloc, first)?)?;
    plans.push(plan_of(alloc, second)?)?;
    Ok(plans)
}

/// Both before any byte.
fn both<'p>(alloc: Global, plans: &'p [Plan]) -> Result<Many<'p, SlabNodes<Row>, Plain>, Fail>
    requires placed { OfEach IsOfCore plans.now }
    requires count { length plans.now ≡ 2 }
    ensures fresh { IfOk result (λ m. m.refused ≡ None) }
    ensures stands { IfOk result (λ m. ManyStandSome (λ c P. Unit {0}) m false) }
    ensures count { IfOk result (λ m. length m.parts ≡ 2) }
{
    let mut nodes = Vec::new(alloc);
    nodes.push(SlabNodes::new(alloc))?;
    nodes.push(SlabNodes::new(alloc))?;
    let mut conds = Vec::new(alloc);
    conds.push(Plain)?;
    conds.push(Plain)?;
    Ok(Many::new(alloc, plans, nodes, conds, Limits::full())?)
}

/// A piece that isn't refused.
fn fed(
    alloc: Global,
    many: &mut Many<'_, SlabNodes<Row>, Plain>,
    piece: &[u8],
) -> Result<(), DocFault>
    requires fresh { many.old.refused ≡ None }
    requires stands { ManyStandSome (λ c P. Unit {0}) many.old false }
    ensures fresh { OnOk result (many.new.refused ≡ None) }
    ensures stands { OnOk result (ManyStandSome (λ c P. Unit {0}) many.new false) }
    ensures count { OnOk result (length many.new.parts ≡ length many.old.parts) }
{
    many.feed(alloc, piece)
}

/// The end, where nothing was refused.
fn ended(alloc: Global, many: &mut Many<'_, SlabNodes<Row>, Plain>) -> Result<(), DocFault>
    requires fresh { many.old.refused ≡ None }
    requires stands { ManyStandSome (λ c P. Unit {0}) many.old false }
    ensures count { OnOk result (length many.new.parts ≡ length many.old.parts) }
{
    many.finish(alloc)
}

/// Both outputs are these.
fn wrote(rt: &impl Abort, many: &Many<'_, SlabNodes<Row>, Plain>, first: &[u8], second: &[u8])
    requires count { length many.now.parts ≡ 2 }
{
    assert_eq!(rt; many.output(0), first);
    assert_eq!(rt; many.output(1), second);
}

#[test]
fn each_output_is_its_own(rt: HostRuntime) -> Result<(), Fail> {
    let alloc = rt.alloc();
    let plans = both_plans(alloc, b"<r>{for $x in /a/b return $x}</r>", b"/a/c")?;
    let mut many = both(alloc, &plans)?;
    wrote(&rt, &many, b"<r>", b"");
    fed(alloc, &mut many, b"<a><b>1")?;
    wrote(&rt, &many, b"<r><b>", b"");
    many.clear_output(0);
    wrote(&rt, &many, b"", b"");
    fed(alloc, &mut many, b"</b><c/></a>")?;
    wrote(&rt, &many, b"1</b>", b"<c></c>");
    ended(alloc, &mut many)?;
    wrote(&rt, &many, b"1</b></r>", b"<c></c>");
    assert_eq!(rt; many.held(0), 0);
    assert_eq!(rt; many.held(1), 0);
    Ok(())
}
