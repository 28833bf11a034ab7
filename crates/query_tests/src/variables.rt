//! The straight variables of cores.
use crate::cores::core;
use gcx_base::VarId;
use std::alloc::{AllocError, Global};
use std::process::Abort;
use std::test::Fail;
use var_tree::{VarTree, var_tree};

fn tree(alloc: Global, query: &str) -> Result<VarTree, Fail> {
    let core = core(alloc, query.as_bytes())?;
    Ok(var_tree(alloc, &core)?)
}

fn numbers(alloc: Global, vars: &[VarId]) -> Result<Vec<u32>, AllocError> {
    let mut numbers = Vec::new(alloc);
    for var in vars {
        numbers.push(var.0)?;
    }
    Ok(numbers)
}

/// Which variables are straight, and their straight ancestors.
fn shown(alloc: Global, tree: &VarTree) -> Result<String, AllocError> {
    let fsa = numbers(alloc, tree.fsa.items())?;
    format!(in alloc; "{:?} {:?}", tree.straight.items(), fsa)
}

/// The loops of the query have these variables.
fn has_variables(rt: &impl Abort, alloc: Global, query: &str, wanted: &str) -> Result<(), Fail> {
    let tree = tree(alloc, query)?;
    let shown = shown(alloc, &tree)?;
    assert_eq!(rt; shown.as_str(), wanted);
    Ok(())
}

#[test]
fn straight_variables_and_their_bases(rt: HostRuntime) -> Result<(), Fail> {
    let rows: &[(&str, &str)] = &[
        ("for $a in /a, $b in $a/a return ()", "[true, true] [1, 2]"),
        (
            "for $a in /a, $b in $a/a, $c in /a, $d in $c/a return ()",
            "[true, true, false, false] [1, 2, 0, 0]",
        ),
        (
            "for $a in //a, $b in $a//a return ()",
            "[true, false] [1, 1]",
        ),
        ("for $a in //a, $b in $a/a return ()", "[true, true] [1, 2]"),
        (
            "for $a in /a, $b in $a//a, $c in $b/a, $d in $c//a return ()",
            "[true, true, true, false] [1, 2, 3, 3]",
        ),
        (
            "for $a in /a, $b in $a/a, $c in $a/a, $d in $b/a return ()",
            "[true, true, false, false] [1, 2, 1, 2]",
        ),
    ];
    for &(query, wanted) in rows {
        has_variables(&rt, rt.alloc(), query, wanted)?;
    }
    Ok(())
}
