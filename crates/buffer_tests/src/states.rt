//! The states of open nodes: how many are made, and plans that ask for many names.
use crate::matchers::{plan, var_rows};
use gcx_base::{Axis, Name, Step, Steps, Test, VarId};
use gcx_model::{Body, Flags, Plan, RoleKind, RoleRow, RoleRows, VarIds};
use matcher::Matcher;
use path_states::{Bound, PathStates};
use std::alloc::Global;
use std::test::Fail;

/// Enters and leaves a node with this name, with a text in it.
fn pass_item(alloc: Global, states: &mut PathStates, name: &[u8]) -> Result<(), Fail> {
    let number = states.number(name);
    states.enter(alloc, number)?;
    let text = states.text();
    states.enter(alloc, text)?;
    states.leave();
    states.leave();
    Ok(())
}

/// The same for so many nodes of four names, one of which no step asks for.
fn pass_items(alloc: Global, states: &mut PathStates, count: usize) -> Result<(), Fail> {
    for i in 0..count {
        let name = match i % 4 {
            0 => b"a",
            1 => b"b",
            2 => b"c",
            _ => b"x",
        };
        pass_item(alloc, states, name)?;
    }
    Ok(())
}

/// Those of the document node and of `r`, one for each of three names, and one for all other nodes.
#[test]
fn states_are_as_many_over_100_000_items_as_over_100(rt: HostRuntime) -> Result<(), Fail> {
    let alloc = rt.alloc();
    let plan = plan(alloc, "0r 1a 1b 1/c", "o1 o2 o3 o4")?;
    let mut states = PathStates::new(alloc, &plan, Bound::usual())?;
    let root = states.number(b"r");
    states.enter(alloc, root)?;
    pass_items(alloc, &mut states, 100)?;
    let few = states.remembered().0.len();
    pass_items(alloc, &mut states, 100_000)?;
    let many = states.remembered().0.len();
    assert_eq!(rt; (few, many), (6, 6));
    Ok(())
}

/// How many names the plan asks for.
const NAMES: u32 = 1_900;

/// One of many names of one first byte and one length.
fn name(alloc: Global, i: u32) -> Result<Name, Fail> {
    let text = format!(in alloc; "n{}", i.wrapping_add(1_000))?;
    match Name::from_bytes(alloc, text.as_bytes())? {
        Some(name) => Ok(name),
        None => Err(Fail::new("not a name")),
    }
}

/// The role of the first child of variable 1 with this name.
fn named_role(alloc: Global, i: u32) -> Result<RoleRow, Fail> {
    let mut tail = Steps::new(alloc);
    tail.push(Step {
        axis: Axis::Child,
        test: Test::Named(name(alloc, i)?),
    })?;
    Ok(RoleRow {
        kind: RoleKind::First,
        var: VarId(1),
        tail,
    })
}

/// A plan with a role for each of the names, below variable 1, which is `r`.
fn plan_of_names(alloc: Global) -> Result<Plan, Fail> {
    let mut roles = RoleRows::new(alloc);
    for i in 0..NAMES {
        roles.push(named_role(alloc, i)?)?;
    }
    let vars = var_rows(alloc, "0r")?;
    Ok(Plan {
        body: Body::new(alloc),
        vars,
        straight: Flags::new(alloc),
        fsa: VarIds::new(alloc),
        roles,
    })
}

/// Enters and leaves a node with one of the names, and answers the first of its roles.
fn role_of_item(alloc: Global, matcher: &mut Matcher, i: u32) -> Result<Option<u32>, Fail> {
    matcher.go_name(alloc, name(alloc, i)?.as_bytes())?;
    let given = matcher.given(alloc)?;
    let role = given.items().first().map(|role| role.0);
    matcher.leave();
    Ok(role)
}

/// The first node of each name is given its role, and no other one.
#[test]
fn many_names_of_one_length(rt: HostRuntime) -> Result<(), Fail> {
    let alloc = rt.alloc();
    let plan = plan_of_names(alloc)?;
    let mut matcher = Matcher::new(alloc, &plan)?;
    matcher.go_name(alloc, b"r")?;
    for i in 0..NAMES {
        assert_eq!(rt; role_of_item(alloc, &mut matcher, i)?, Some(i));
    }
    for i in 0..NAMES {
        assert_eq!(rt; role_of_item(alloc, &mut matcher, i)?, None);
    }
    Ok(())
}

/// The least that so many states, but the first, and so many slots for moves are counted with.
fn bytes(states: usize, slots: usize) -> usize {
    let others = states.saturating_sub(1);
    others
        .saturating_mul(256)
        .saturating_add(slots.saturating_mul(16))
}

/// Enters and leaves a node with each of the names.
fn pass_names(alloc: Global, states: &mut PathStates) -> Result<(), Fail> {
    for i in 0..NAMES {
        let name = name(alloc, i)?;
        pass_item(alloc, states, name.as_bytes())?;
    }
    Ok(())
}

/// Where the states of many names don't fit, those that do stay, and so do the moves.
#[test]
fn states_of_many_names_stay_within_the_bound(rt: HostRuntime) -> Result<(), Fail> {
    let alloc = rt.alloc();
    let plan = plan_of_names(alloc)?;
    let mut states = PathStates::new(alloc, &plan, Bound::usual())?;
    let root = states.number(b"r");
    states.enter(alloc, root)?;
    pass_names(alloc, &mut states)?;
    let made = states.remembered().0.len();
    pass_names(alloc, &mut states)?;
    let (kept, slots) = states.remembered();
    assert_eq!(rt; kept.len(), made);
    assert!(rt; made > 400 && bytes(made, slots) <= Bound::usual().bytes);
    Ok(())
}
