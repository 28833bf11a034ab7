//! The names that steps ask for, in order, and the numbers by which they are known.
ghost use Rattle.std.specs.Prelude.{◌≡◌, ◌↔◌, ℕ, List, true, Some, slice_get, IfOk, OnOk};
ghost use Rattle.std.specs.Ordering.{nat_cmp};
ghost use Rattle.std.specs.Cmp.Lexicographic.{slice_cmp};
ghost use Rattle.std.specs.declared.cmp.Ordering.TheVariants.{Less};
ghost use Rattle.gcx_base.specs.Tests.{passes};
ghost use Rattle.gcx_base.specs.declared.kind.Kind.{Kind};
ghost use Rattle.gcx_base.specs.declared.kind.Kind.TheVariants.{Element};
ghost use Rattle.gcx_base.specs.declared.steps.Test.TheVariants.{Named};
ghost use Rattle.gcx_model.specs.Members.{In};
ghost use Rattle.path_states.specs.Lists.{From, Gains};
ghost use Rattle.path_states.specs.Names.{BranchesAreApart, AreOnce, AreOrdered, AsksFor, HasNames, IsNameNumber, KnowsName, PutsName};

use crate::paths::PathState;
use gcx_base::{Memory, Name, Test, same_bytes};
use std::alloc::Global;
use std::cmp::Ordering;

/// Whether the first byte of the one comes before that of the other.
#[inline(always)]
fn starts_before(one: &[u8], other: &[u8]) -> bool
    ensures { result ≡ true → slice_cmp nat_cmp one.now other.now ≡ Less }
{
    match one.get(0) {
        Some(first) => match other.get(0) {
            Some(second) => *first < *second,
            None => false,
        },
        None => false,
    }
}

/// The order of names, by all their bytes. Out of line, so that its slices are passed by value.
#[inline(never)]
fn order_far(one: &[u8], other: &[u8]) -> Ordering
    ensures { result ≡ slice_cmp nat_cmp one.now other.now }
{
    one.cmp(other)
}

/// The order of names: that of their bytes. Mostly the first ones tell it, or they are the same, which is quicker.
#[inline(always)]
fn order(one: &[u8], other: &[u8]) -> Ordering
    ensures { result ≡ slice_cmp nat_cmp one.now other.now }
{
    if starts_before(one, other) {
        Ordering::Less
    } else if starts_before(other, one) {
        Ordering::Greater
    } else if same_bytes(one, other) {
        Ordering::Equal
    } else {
        order_far(one, other)
    }
}

/// Adds the name that the test asks for.
fn put_name(alloc: Global, names: &mut Vec<Name>, test: &Test) -> Result<(), Memory>
    ensures { OnOk result (Gains names.old.items names.new.items (λ name. test.now ≡ Named name)) }
{
    match test {
        Test::Named(name) => {
            let copied = name.copy(alloc)?;
            names.push(copied)?;
            Ok(())
        }
        Test::AnyElement => Ok(()),
        Test::AnyText => Ok(()),
        Test::AnyNode => Ok(()),
    }
}

/// The names that the path states' tests ask for, as often as they do.
fn all_names(alloc: Global, tree: &[PathState]) -> Result<Vec<Name>, Memory>
    ensures { IfOk result (λ names. (name : List ℕ) → From tree.now AsksFor name → In name names.items) }
{
    let mut names = Vec::new(alloc);
    for state in tree {
        put_name(alloc, &mut names, &state.step.test)?;
    }
    Ok(names)
}

/// Adds the name, unless it is there.
fn put_new(alloc: Global, names: &mut Vec<Name>, name: &Name) -> Result<(), Memory>
    ensures { OnOk result (AreOrdered names.old.items → PutsName names.old.items names.new.items name.now) }
{
    if number_in(names, name.as_bytes()) < names.len() {
        return Ok(());
    }
    let copied = name.copy(alloc)?;
    names.push(copied)?;
    Ok(())
}

/// The ordered names, each once.
fn without_repeats(alloc: Global, names: &[Name]) -> Result<Vec<Name>, Memory>
    ensures { IfOk result (λ once. AreOrdered names.now → AreOnce names.now once.items) }
{
    let mut once = Vec::new(alloc);
    for name in names {
        put_new(alloc, &mut once, name)?;
    }
    Ok(once)
}

/// The names that the path states' tests ask for, in order and each once.
pub(crate) fn names_of(alloc: Global, tree: &[PathState]) -> Result<Vec<Name>, Memory>
    ensures all { IfOk result (λ names. HasNames tree.now names.items) }
    ensures ordered { IfOk result (λ names. AreOrdered names.items) }
    ensures apart { IfOk result (λ names. BranchesAreApart names.items) }
{
    let mut names = all_names(alloc, tree)?;
    names.sort_by(|one, other| order(one.as_bytes(), other.as_bytes()))?;
    let once = without_repeats(alloc, &names)?;
    Ok(once)
}

/// The number of a name: its place among these, and their count where it is none of them. The search halves them.
#[inline(always)]
pub(crate) fn number_in(names: &[Name], name: &[u8]) -> usize
    ensures { AreOrdered names.now → IsNameNumber names.now (Element name.now) result }
{
    let mut low = 0;
    let mut high = names.len();
    'halves: while low < high {
        let middle = low + (high - low) / 2;
        match order(names[middle].as_bytes(), name) {
            Ordering::Less => low = middle + 1,
            Ordering::Equal => return middle,
            Ordering::Greater => high = middle,
        }
    }
    names.len()
}

/// Whether the name with the number is this one.
fn is_at(names: &[Name], number: usize, name: &Name) -> bool
    ensures { result ≡ true ↔ slice_get names.now number ≡ Some name.now }
{
    match names.get(number) {
        Some(other) => same_bytes(other.as_bytes(), name.as_bytes()),
        None => false,
    }
}

/// Whether a node whose name has the number passes the test.
pub(crate) fn takes(test: &Test, names: &[Name], number: usize) -> bool
    ensures { (kind : Kind) → IsNameNumber names.now kind number → KnowsName names.now test.now →
        result ≡ passes test.now kind }
{
    match test {
        Test::Named(name) => is_at(names, number, name),
        Test::AnyElement => number <= names.len(),
        Test::AnyText => number > names.len(),
        Test::AnyNode => true,
    }
}
