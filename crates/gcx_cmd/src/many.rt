//! `many`: several queries over one reading of DOC.
ghost use Rattle.std.specs.Prelude.{◌≡◌, List, ℕ, length, map, Err, Some, IfErr, IfOk, IsErrOf};
ghost use Rattle.std.specs.FinMap as map_of;
ghost use Rattle.gcx_io.specs.Calls.{Creates};
ghost use Rattle.gcx_io.specs.Causes.{Rose};
ghost use Rattle.gcx_io.specs.Views.{ShelfView, SinkView};
ghost use Rattle.gcx_model.specs.Members.{In};
ghost use Rattle.gcx_model.specs.Tree.{opening};
ghost use Rattle.gcx_words.specs.Within.{IsWithin};
ghost use Rattle.gcx_words.specs.declared.command.Command.TheVariants.{Many};
ghost use Rattle.join_index.specs.Index.{IsIndex};
ghost use Rattle.many_run.specs.Each.{OfEach};
ghost use Rattle.many_run.specs.Files.{HandlesApart};
ghost use Rattle.run_part.specs.Part.{IsOfCore};
ghost use Rattle.gcx_cmd.specs.Does.{DoesIf};
ghost use Rattle.gcx_cmd.specs.Main.{HasNoMemory};
ghost use Rattle.gcx_cmd.specs.ManyDoes.{AcceptsPlans, CausesAny, MakesOut, MakesOuts, ManyEnds, ManyKeeps, RunsPlans, StopsInOuts, StopsInQueries, create_status};
ghost use Rattle.gcx_cmd.specs.World.{StoreView, beside};
ghost use Rattle.gcx_cmd.specs.Reads.{CausesFault};

use crate::Status;
use crate::query::read_query;
use crate::running::status_of;
use buf_tree::Row;
use gcx_base::{Limits, Memory, Text};
use gcx_io::{AttachFault, Handle, Shelf};
use gcx_model::Plan;
use gcx_words::Pair;
use join_index::Indexed;
use many_run::run_many;
use raw_nodes::RawNodes;
use std::alloc::Global;

/// Reads the QUERYs in order and compiles each, or the status to end with.
fn read_plans<F: Shelf>(alloc: Global, files: &mut F, pairs: &[Pair]) -> Result<Vec<Plan>, Status>
    ensures accepted { IfOk result (λ plans. AcceptsPlans pairs.now (F.seen files.old) (F.seen files.new) plans.items) }
    ensures placed { IfOk result (λ plans. OfEach IsOfCore plans.items) }
    ensures count { IfOk result (λ plans. length plans.items ≡ length pairs.now) }
    ensures stops { IfErr result (λ status. StopsInQueries pairs.now status (F.seen files.old) (F.seen files.new)) }
    ensures cause { IsErrOf result Status.ReadFault →
        CausesAny (map (λ p. p.query) pairs.now) (F.seen files.old) (F.seen files.new) }
    ensures memory { IfErr result HasNoMemory }
    ensures keeps { (outs : List (List ℕ)) → ManyKeeps outs (F.seen files.old) (F.seen files.new) }
{
    let mut plans = Vec::new(alloc);
    'pairs: for pair in pairs {
        let accepted = read_query(alloc, files, &pair.query)?;
        if plans.push(accepted.plan).is_err() {
            return Err(Status::Memory);
        }
    }
    Ok(plans)
}

/// Makes a file that holds no bytes, or the status to end with.
fn create<F: Shelf>(files: &mut F, name: &Text) -> Result<Handle, Status>
    ensures made { IfOk result (λ out. MakesOut name.now (F.seen files.old) (F.seen files.new) out) }
    ensures fails { IfErr result (λ status. (why : AttachFault) × (status ≡ create_status why)
        × Creates name.now (F.seen files.old) (F.seen files.new) (Err why)) }
    ensures keeps { (outs : List (List ℕ)) → In name.now outs → ManyKeeps outs (F.seen files.old) (F.seen files.new) }
{
    match files.create(name) {
        Ok(handle) => Ok(handle),
        Err(AttachFault::Failed) => Err(Status::WriteFault),
        Err(AttachFault::Memory) => Err(Status::Memory),
    }
}

/// Makes the OUTs in order, or the status to end with.
fn create_outs<F: Shelf>(
    alloc: Global,
    files: &mut F,
    pairs: &[Pair],
) -> Result<Vec<Handle>, Status>
    ensures made { IfOk result (λ outs. MakesOuts pairs.now (F.seen files.old) (F.seen files.new) outs.items) }
    ensures stops { IfErr result (λ status. StopsInOuts pairs.now status (F.seen files.old) (F.seen files.new)) }
    ensures keeps { ManyKeeps (map (λ p. p.out) pairs.now) (F.seen files.old) (F.seen files.new) }
{
    let mut outs = Vec::new(alloc);
    'pairs: for pair in pairs {
        let handle = create(files, &pair.out)?;
        if outs.push(handle).is_err() {
            return Err(Status::Memory);
        }
    }
    Ok(outs)
}

/// So many empty stores.
fn stores(alloc: Global, count: usize) -> Result<Vec<RawNodes<Row>>, Memory>
    ensures count { IfOk result (λ stores. length stores.items ≡ count) }
    ensures empty { IfOk result (λ stores. OfEach (λ n. n.rows ≡ map_of.empty) stores.items) }
{
    let mut stores = Vec::new(alloc);
    'stores: for _index in 0..count {
        stores.push(RawNodes::new(alloc))?;
    }
    Ok(stores)
}

/// What finds the truth of the conditions of each plan.
fn conditions(alloc: Global, plans: &[Plan]) -> Result<Vec<Indexed>, Memory>
    ensures count { IfOk result (λ conds. length conds.items ≡ length plans.now) }
    ensures stand { IfOk result (λ conds. OfEach (λ c. IsIndex c opening) conds.items) }
{
    let mut conds = Vec::new(alloc);
    'plans: for plan in plans {
        conds.push(Indexed::new(alloc, plan)?)?;
    }
    Ok(conds)
}

/// Runs the plans over DOC, each into its OUT.
fn run_plans<F: Shelf>(
    alloc: Global,
    plans: &[Plan],
    files: &mut F,
    doc: Handle,
    outs: &[Handle],
) -> Status
    requires placed { OfEach IsOfCore plans.now }
    requires count { length outs.now ≡ length plans.now }
    requires apart { HandlesApart (F.seen files.old) doc outs.now }
    ensures runs { RunsPlans plans.now result doc outs.now (F.seen files.old) (F.seen files.new) }
    ensures memory { HasNoMemory result }
{
    let Ok(nodes) = stores(alloc, plans.len()) else {
        return Status::Memory;
    };
    let Ok(conds) = conditions(alloc, plans) else {
        return Status::Memory;
    };
    let limits = Limits::full();
    let report = run_many(alloc, plans, nodes, conds, files, doc, outs, limits);
    status_of(report.ended)
}

/// Makes the OUTs, attaches DOC and runs the plans over it.
fn run_into<F: Shelf>(
    alloc: Global,
    plans: &[Plan],
    files: &mut F,
    document: &Text,
    pairs: &[Pair],
) -> Status
    requires placed { OfEach IsOfCore plans.now }
    requires count { length plans.now ≡ length pairs.now }
    requires within { IsWithin (Many document.now pairs.now) }
    ensures ends { (begin : ShelfView) → AcceptsPlans pairs.now begin (F.seen files.old) plans.now →
        ManyEnds document.now pairs.now result begin (F.seen files.new) }
    ensures cause { result ≡ Status.ReadFault → CausesFault document.now (F.seen files.old) (F.seen files.new) }
    ensures write_cause { result ≡ Status.WriteFault →
        Rose (F.seen files.old).write_faults (F.seen files.new).write_faults }
    ensures memory { HasNoMemory result }
    ensures keeps { ManyKeeps (map (λ p. p.out) pairs.now) (F.seen files.old) (F.seen files.new) }
{
    let outs = match create_outs(alloc, files, pairs) {
        Ok(outs) => outs,
        Err(stopped) => return stopped,
    };
    let doc = match files.attach(document) {
        Ok(handle) => handle,
        Err(fault) => return Status::from(fault),
    };
    run_plans(alloc, plans, files, doc, &outs)
}

/// Runs `many DOC QUERY OUT ..`: all QUERYs are read before the first OUT is made, and DOC is read once.
pub(crate) fn write_many<F: Shelf>(
    alloc: Global,
    document: &Text,
    pairs: &[Pair],
    files: &mut F,
) -> Status
    requires within { IsWithin (Many document.now pairs.now) }
    ensures does { (out err : SinkView) (store : StoreView) → DoesIf (Some (Many document.now pairs.now)) result
        (beside (F.seen files.old) out err store) (beside (F.seen files.new) out err store) }
{
    let plans = match read_plans(alloc, files, pairs) {
        Ok(plans) => plans,
        Err(refused) => return refused,
    };
    run_into(alloc, &plans, files, document, pairs)
}
