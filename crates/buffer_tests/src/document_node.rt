//! The document node, and a node below it.
ghost use Rattle.std.specs.Prelude.{◌≡◌, List, None, IfOk};
ghost use Rattle.gcx_base.specs.declared.ids.Role.{Role};
ghost use Rattle.buf_tree.specs.Calls.{Started};

use crate::matchers::{node, plan};
use buf_tree::{Buffer, Row};
use gcx_base::Role;
use gcx_model::{Given, Plan};
use node_store::{Place, SlabNodes};
use projector::Projector;
use std::alloc::Global;
use std::test::Fail;

/// How many roles the document node is given.
fn count_given(alloc: Global, plan: &Plan) -> Result<usize, Fail> {
    let projector = Projector::new(alloc, plan)?;
    let given = projector.document(alloc)?;
    Ok(given.items().len())
}

#[test]
fn the_document_node_has_the_roles_of_the_empty_path(rt: HostRuntime) -> Result<(), Fail> {
    let plan = plan(rt.alloc(), "", "o0 w0")?;
    let count = count_given(rt.alloc(), &plan)?;
    assert_eq!(rt; count, 2);
    Ok(())
}

/// A buffer that has the document node, which was given a role.
fn begun(alloc: Global) -> Result<Buffer<SlabNodes<Row>>, Fail>
    ensures { IfOk result (λ buffer. (given : List Role) × Started buffer given × (buffer.spread ≡ None)) }
{
    let mut given = Given::new(alloc);
    given.push(Role(0))?;
    Ok(Buffer::new(alloc, SlabNodes::new(alloc), given)?)
}

/// Opens an element below the document node, with no roles.
fn open_below(alloc: Global, buffer: &mut Buffer<SlabNodes<Row>>) -> Result<Option<Place>, Fail>
    requires { (given : List Role) × Started buffer.old given × (buffer.old.spread ≡ None) }
{
    let Some(root) = buffer.root() else {
        return Err("no root")?;
    };
    let kind = node(alloc, b'a')?;
    let none = Given::new(alloc);
    Ok(buffer.open_node(alloc, root, kind, Given::new(alloc), none)?)
}

/// The numbers of all nodes, of those held and of those gone.
fn numbers(buffer: &Buffer<SlabNodes<Row>>) -> (u64, u64, usize) {
    (buffer.nodes(), buffer.held(), buffer.gone().len())
}

#[test]
fn a_node_opens_below_the_document_node(rt: HostRuntime) -> Result<(), Fail> {
    let alloc = rt.alloc();
    let mut buffer = begun(alloc)?;
    let opened = open_below(alloc, &mut buffer)?.is_some();
    assert_eq!(rt; (opened, numbers(&buffer)), (true, (2, 2, 0)));
    Ok(())
}
