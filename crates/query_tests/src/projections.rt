//! The roles of cores, and their projection trees.
ghost use Rattle.std.specs.Prelude.{◌≡◌, map};
ghost use Rattle.gcx_model.specs.Cores.{Good};
ghost use Rattle.gcx_model.specs.ItemView.{body_tree};
ghost use Rattle.gcx_model.specs.PlanView.{var_row_tree};
ghost use Rattle.gcx_model.specs.Variables.{var_rows};

use crate::cores::core;
use gcx_base::{Role, Step, Test};
use gcx_model::{Core, QueryFault, RoleKind, RoleRow, What};
use proj_tree::{ProjNode, own_roles, projection, roles};
use std::alloc::Global;
use std::process::Abort;
use std::test::Fail;

/// How many roles the query has, or its refusal.
fn role_count(alloc: Global, query: &[u8]) -> Result<usize, QueryFault> {
    let core = core(alloc, query)?;
    Ok(roles(alloc, &core)?.items().len())
}

/// `()` and so many branches on `exists(/a)`.
fn branches(alloc: Global, count: usize) -> Result<Vec<u8>, Fail> {
    let mut query = b"()".to_vec(alloc)?;
    for _ in 0..count {
        query.extend_from_slice(b", if (exists(/a)) then () else ()")?;
    }
    Ok(query)
}

#[test]
fn a_query_has_at_most_2000_roles(rt: HostRuntime) -> Result<(), Fail> {
    let query = branches(rt.alloc(), 1_999)?;
    assert_eq!(rt; role_count(rt.alloc(), &query), Ok(2_000));
    Ok(())
}

#[test]
fn a_query_of_more_roles_is_refused(rt: HostRuntime) -> Result<(), Fail> {
    let query = branches(rt.alloc(), 2_000)?;
    let too_large = QueryFault::TooLarge(What::Roles, 2_000);
    assert_eq!(rt; role_count(rt.alloc(), &query), Err(too_large));
    Ok(())
}

#[test]
fn a_role_has_at_most_six_descendant_steps(rt: HostRuntime) {
    let too_large = QueryFault::TooLarge(What::Descendants, 6);
    let rows: &[(&str, Option<QueryFault>)] = &[
        ("if (exists(//a//a//a//a//a//a)) then () else ()", None),
        (
            "if (exists(//a//a//a//a//a//a//a)) then () else ()",
            Some(too_large),
        ),
        (
            "for $x in //b, $y in $x/b, $z in $y//b return if (exists($z//a//a//a//a)) then $z else ()",
            None,
        ),
        (
            "for $x in //b, $y in $x/b, $z in $y//b return if (exists($z//a//a//a//a//a)) then $z else ()",
            Some(too_large),
        ),
    ];
    for &(query, wanted) in rows {
        assert_eq!(rt;
            role_count(rt.alloc(), query.as_bytes()).err(),
            wanted,
            "{query}"
        );
    }
}

fn letter(step: &Step) -> Option<char> {
    match &step.test {
        Test::Named(name) => Some(char::from(*name.as_bytes().first()?)),
        Test::AnyElement | Test::AnyText | Test::AnyNode => None,
    }
}

/// Of each role its variable, the number of its tail's steps, and its kind.
fn role_parts(alloc: Global, rows: &[RoleRow]) -> Result<Vec<(u32, usize, RoleKind)>, Fail> {
    let mut roles = Vec::new(alloc);
    for row in rows {
        roles.push((row.var.0, row.tail.items().len(), row.kind))?;
    }
    Ok(roles)
}

/// Of each node of a projection tree its parent, its letter and its role.
fn node_parts(
    alloc: Global,
    nodes: &[ProjNode],
) -> Result<Vec<(Option<u32>, Option<char>, Option<Role>)>, Fail> {
    let mut parts = Vec::new(alloc);
    for node in nodes {
        parts.push((node.parent, node.step.as_ref().and_then(letter), node.role))?;
    }
    Ok(parts)
}

/// The core's roles, the own roles of its variables, and the nodes of its projection tree.
fn shown(alloc: Global, core: &Core) -> Result<String, Fail>
    requires good { Good (body_tree core.now.body) }
    requires rows { map var_row_tree core.now.vars ≡ var_rows (body_tree core.now.body) }
{
    let rows = roles(alloc, core)?;
    let own = own_roles(alloc, rows.items())?;
    let tree = projection(alloc, core, &rows)?;
    let roles = role_parts(alloc, rows.items())?;
    let nodes = node_parts(alloc, tree.nodes.items())?;
    Ok(format!(in alloc; "{roles:?} {own:?} {nodes:?}")?)
}

/// The query has these roles and nodes.
fn has_roles(rt: &impl Abort, alloc: Global, query: &str, wanted: &str) -> Result<(), Fail> {
    let core = core(alloc, query.as_bytes())?;
    let shown = shown(alloc, &core)?;
    assert_eq!(rt; shown.as_str(), wanted);
    Ok(())
}

#[test]
fn roles_of_a_loop_and_their_nodes(rt: HostRuntime) -> Result<(), Fail> {
    let query = "for $x in /r return if (exists($x/k/l)) then $x else ()";
    let wanted = "[(0, 0, Own), (1, 0, Own), (1, 2, First), (1, 0, Whole)] [Role(0), Role(1)] \
        [(None, None, Some(Role(0))), (Some(0), Some('r'), Some(Role(1))), \
        (Some(1), Some('k'), None), (Some(2), Some('l'), Some(Role(2))), \
        (Some(1), None, Some(Role(3)))]";
    has_roles(&rt, rt.alloc(), query, wanted)
}

#[test]
fn roles_of_a_join_and_their_nodes(rt: HostRuntime) -> Result<(), Fail> {
    let query = "for $a in /r/x, $b in /r/y return if ($a/k = $b/k) then <m/> else ()";
    let wanted = "[(0, 0, Own), (1, 0, Own), (2, 0, Own), (3, 0, Own), (4, 0, Own), \
        (2, 1, Whole), (4, 1, Whole)] [Role(0), Role(1), Role(2), Role(3), Role(4)] \
        [(None, None, Some(Role(0))), (Some(0), Some('r'), Some(Role(1))), \
        (Some(1), Some('x'), Some(Role(2))), (Some(0), Some('r'), Some(Role(3))), \
        (Some(3), Some('y'), Some(Role(4))), (Some(2), Some('k'), Some(Role(5))), \
        (Some(4), Some('k'), Some(Role(6)))]";
    has_roles(&rt, rt.alloc(), query, wanted)
}
