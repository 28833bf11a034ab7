//! The nodes of variables.
use cond_eval::Env;
use gcx_base::{Serial, VarId};
use node_store::Place;
use std::alloc::Global;
use std::process::Abort;
use std::test::Fail;

/// The variable's node, by its place and serial.
fn is_bound(rt: &impl Abort, env: &Env, variable: u32, want: Option<(usize, u64)>) {
    let got = match env.get(VarId(variable)) {
        Some((place, serial)) => Some((place.0, serial.0)),
        None => None,
    };
    assert_eq!(rt; got, want, "{variable}");
}

/// The nodes of the variables 0 and 2; the variable 1 has none.
fn are_bound(rt: &impl Abort, env: &Env, first: Option<(usize, u64)>, last: Option<(usize, u64)>) {
    is_bound(rt, env, 0, first);
    is_bound(rt, env, 1, None);
    is_bound(rt, env, 2, last);
}

/// The variables 2 and 0 are bound.
fn two_bound(alloc: Global) -> Result<Env, Fail> {
    let mut env = Env::new(alloc);
    env.unbind(VarId(2));
    env.bind(VarId(2), Place(7), Serial(3))?;
    env.bind(VarId(0), Place(1), Serial(0))?;
    Ok(env)
}

#[test]
fn variables_are_bound(rt: HostRuntime) -> Result<(), Fail> {
    let alloc = rt.alloc();
    are_bound(&rt, &Env::new(alloc), None, None);
    let env = two_bound(alloc)?;
    are_bound(&rt, &env, Some((1, 0)), Some((7, 3)));
    Ok(())
}

#[test]
fn variables_are_bound_anew_and_unbound(rt: HostRuntime) -> Result<(), Fail> {
    let mut env = two_bound(rt.alloc())?;
    env.bind(VarId(2), Place(8), Serial(4))?;
    env.unbind(VarId(0));
    are_bound(&rt, &env, None, Some((8, 4)));
    Ok(())
}
