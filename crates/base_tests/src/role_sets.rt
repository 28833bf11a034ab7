//! Sets of roles.
use gcx_base::{Memory, Role};
use role_set::{NodeRoles, RoleSet};
use std::alloc::Global;
use std::process::Abort;
use std::test::Fail;

/// Gives the roles in turn.
fn give_all(roles: &mut RoleSet, numbers: &[u32]) -> Result<(), Memory> {
    for number in numbers {
        roles.give(Role(*number))?;
    }
    Ok(())
}

/// Whether the set has the role.
fn assert_role(rt: &impl Abort, roles: &RoleSet, number: u32, has: bool) {
    assert_eq!(rt; roles.has(Role(number)), has, "at {number}");
}

/// The set has each of these roles, so it isn't empty.
fn assert_each(rt: &impl Abort, roles: &RoleSet, numbers: &[u32]) {
    for number in numbers {
        assert_role(rt, roles, *number, true);
    }
    assert!(rt; !roles.is_empty());
}

/// Which of the roles below 400 the set has, in order. It is empty where it has none of them.
fn assert_has(rt: &impl Abort, roles: &RoleSet, numbers: &[u32]) {
    for number in 0..400u32 {
        assert_role(rt, roles, number, numbers.contains(&number));
    }
    assert_eq!(rt; roles.is_empty(), numbers.is_empty());
}

/// Takes the roles in turn: each is there before, and not after.
fn take_all(rt: &impl Abort, roles: &mut RoleSet, numbers: &[u32]) {
    for number in numbers {
        assert!(rt; roles.has(Role(*number)), "at {number}");
        roles.take(Role(*number));
        assert_role(rt, roles, *number, false);
    }
}

/// What is done with a set and some roles.
#[derive(Clone, Copy)]
enum Act {
    Give,
    Take,
    /// The set has these of the roles below 400.
    Has,
    /// The set has each of these.
    HasEach,
}

fn do_act(rt: &impl Abort, roles: &mut RoleSet, act: Act, numbers: &[u32]) -> Result<(), Memory> {
    match act {
        Act::Give => return give_all(roles, numbers),
        Act::Take => take_all(rt, roles, numbers),
        Act::Has => assert_has(rt, roles, numbers),
        Act::HasEach => assert_each(rt, roles, numbers),
    }
    Ok(())
}

/// Acts in turn.
type Acts = &'static [(Act, &'static [u32])];

/// Roles at the bounds of a word.
const BOUNDS: Acts = &[
    (Act::Has, &[]),
    (Act::Give, &[63, 300, 0, 64, 63, 300]),
    (Act::Has, &[0, 63, 64, 300]),
    (Act::Take, &[300, 0]),
    (Act::Has, &[63, 64]),
    (Act::Take, &[64, 63]),
    (Act::Has, &[]),
];

/// The greatest role.
const GREATEST: Acts = &[
    (Act::Give, &[4_294_967_295]),
    (Act::HasEach, &[4_294_967_295]),
    (Act::Give, &[1_999]),
    (Act::Take, &[4_294_967_295]),
    (Act::HasEach, &[1_999]),
];

fn do_acts(rt: &impl Abort, alloc: Global, acts: Acts) -> Result<(), Memory> {
    let mut roles = RoleSet::new(alloc);
    for &(next, numbers) in acts {
        do_act(rt, &mut roles, next, numbers)?;
    }
    Ok(())
}

#[test]
fn holds_what_it_was_given(rt: HostRuntime) -> Result<(), Fail> {
    for &each in &[BOUNDS, GREATEST] {
        do_acts(&rt, rt.alloc(), each)?;
    }
    Ok(())
}

/// The roles below 300 are given, and taken from the last one on.
fn hold_hundreds(rt: &impl Abort, roles: &mut RoleSet) -> Result<(), Memory> {
    for number in 0..300u32 {
        roles.give(Role(number))?;
    }
    for number in 0..400u32 {
        assert_role(rt, roles, number, number < 300);
    }
    for number in 0..300u32 {
        take_all(rt, roles, &[299 - number]);
    }
    assert!(rt; roles.is_empty());
    Ok(())
}

#[test]
fn holds_three_hundred_roles(rt: HostRuntime) -> Result<(), Fail> {
    Ok(hold_hundreds(&rt, &mut RoleSet::new(rt.alloc()))?)
}

/// Whether the node holds the role, and whether it is signed.
fn assert_at(rt: &impl Abort, roles: &NodeRoles, number: u32, held: bool, signed: bool) {
    let found = (roles.has(Role(number)), roles.is_signed(Role(number)));
    assert_eq!(rt; found, (held, signed), "at {number}");
}

/// Which of the roles below 400 the node holds, and which are signed.
fn assert_roles(rt: &impl Abort, roles: &NodeRoles, held: &[u32], signed: &[u32]) {
    for number in 0..400u32 {
        let (held, signed) = (held.contains(&number), signed.contains(&number));
        assert_at(rt, roles, number, held, signed);
    }
    assert_eq!(rt; roles.is_empty(), held.is_empty());
}

/// Takes the role, which is there before.
fn take_held(rt: &impl Abort, roles: &mut NodeRoles, role: Role) {
    assert!(rt; roles.has(role), "before {role:?} goes");
    roles.take(role);
}

/// What is done with each of some roles of a node.
#[derive(Clone, Copy)]
enum Deed {
    Give,
    Sign,
    Take,
}

fn do_with(
    rt: &impl Abort,
    roles: &mut NodeRoles,
    deed: Deed,
    numbers: &[u32],
) -> Result<(), Memory> {
    for number in numbers {
        match deed {
            Deed::Give => roles.give(Role(*number))?,
            Deed::Sign => roles.sign(Role(*number))?,
            Deed::Take => take_held(rt, roles, Role(*number)),
        }
    }
    Ok(())
}

/// Deeds in turn, each with the roles that the node then holds and those that are signed.
type Deeds = &'static [(Deed, &'static [u32], &'static [u32], &'static [u32])];

fn do_deeds(rt: &impl Abort, roles: &mut NodeRoles, deeds: Deeds) -> Result<(), Memory> {
    for &(deed, numbers, held, signed) in deeds {
        do_with(rt, roles, deed, numbers)?;
        assert_roles(rt, roles, held, signed);
    }
    Ok(())
}

/// The roles of a node that is given these.
fn node_with(alloc: Global, numbers: &[u32]) -> Result<NodeRoles, Memory> {
    let mut given = RoleSet::new(alloc);
    give_all(&mut given, numbers)?;
    NodeRoles::of(alloc, &given)
}

#[test]
fn a_node_holds_and_signs_roles_at_the_bounds_of_a_word(rt: HostRuntime) -> Result<(), Fail> {
    let bounds: Deeds = &[
        (Deed::Give, &[], &[0, 63, 64, 300], &[]),
        (
            Deed::Sign,
            &[0, 300, 5, 65],
            &[0, 63, 64, 300],
            &[0, 5, 65, 300],
        ),
        (Deed::Take, &[63, 64, 0, 300], &[], &[0, 5, 65, 300]),
        (Deed::Give, &[65], &[65], &[0, 5, 65, 300]),
    ];
    let mut roles = node_with(rt.alloc(), &[63, 300, 0, 64])?;
    Ok(do_deeds(&rt, &mut roles, bounds)?)
}

/// The first roles from 64 on: given before signed, signed before given, and two given.
const FIRST: &[Deeds] = &[
    &[
        (Deed::Give, &[], &[], &[]),
        (Deed::Give, &[100], &[100], &[]),
        (Deed::Sign, &[200], &[100], &[200]),
    ],
    &[
        (Deed::Sign, &[200], &[], &[200]),
        (Deed::Give, &[100], &[100], &[200]),
    ],
    &[(Deed::Give, &[100, 101], &[100, 101], &[])],
];

#[test]
fn a_node_s_first_roles_from_64_on_come_in_any_order(rt: HostRuntime) -> Result<(), Fail> {
    for &each in FIRST {
        do_deeds(&rt, &mut NodeRoles::new(rt.alloc()), each)?;
    }
    Ok(())
}
