//! The words of `many` behind DOC.
ghost use Rattle.std.specs.Prelude.{◌≡◌, map, IfOk};
ghost use Rattle.gcx_words.specs.Pairs.{are_apart, differ_from, is_apart, is_no_query, paired};

use crate::found::own;
use gcx_base::{Memory, Text};
use std::alloc::Global;
use std::marker::Model;

/// A QUERY, and the OUT that its answer goes to.
#[derive(Drop, Debug)]
pub struct Pair {
    pub query: Text,
    pub out: Text,
}

/// Pairs of a QUERY and an OUT, in order.
#[derive(Drop, Debug)]
pub struct Pairs {
    members: Vec<Pair>,
}

impl Model for Pairs {
    ghost use Rattle.std.specs.Prelude.{List};
    ghost use Rattle.gcx_words.specs.declared.pairs.Pair.{Pair};

    ghost Value = { List Pair };

    ghost view = { λ p. p.members.items };
}

/// A pair of texts of their own.
fn pair_of(alloc: Global, query: &str, out: &str) -> Result<Pair, Memory>
    ensures { IfOk result (λ pair. pair ≡ record { query = query.now; out = out.now }) }
{
    Ok(Pair {
        query: own(alloc, query)?,
        out: own(alloc, out)?,
    })
}

impl Pairs {
    /// The pairs of words that come in turn. A word left over makes no pair.
    pub(crate) fn of_words(alloc: Global, words: &[&str]) -> Result<Pairs, Memory>
        ensures { IfOk result (λ pairs. pairs ≡ paired (map (λ w. w.now) words.now)) }
    {
        let mut members = Vec::new(alloc);
        let mut at = 0;
        'pairs: while at + 1 < words.len() {
            let query = words[at];
            let out = words[at + 1];
            members.push(pair_of(alloc, query, out)?)?;
            at += 2;
        }
        Ok(Pairs { members })
    }

    /// The pairs, in order.
    pub fn items(&self) -> &[Pair]
        ensures { result.now ≡ self.now }
    {
        &self.members
    }
}

/// Whether the OUT is none of the OUTs of these pairs.
fn differs(pairs: &[Pair], out: &[u8]) -> bool
    ensures { result ≡ differ_from pairs.now out.now }
{
    let mut rest = pairs;
    'outs: while let Some((first, others)) = rest.split_first() {
        if first.out.as_bytes() == out {
            return false;
        }
        rest = others;
    }
    true
}

/// Whether it is none of their QUERYs.
fn is_no_query(pairs: &[Pair], out: &[u8]) -> bool
    ensures { result ≡ is_no_query pairs.now out.now }
{
    let mut rest = pairs;
    'queries: while let Some((first, others)) = rest.split_first() {
        if first.query.as_bytes() == out {
            return false;
        }
        rest = others;
    }
    true
}

/// Whether the OUT is a name of its own beside DOC and the QUERYs.
fn is_apart(document: &[u8], pairs: &[Pair], out: &[u8]) -> bool
    ensures { result ≡ is_apart document.now pairs.now out.now }
{
    if out == b"-".as_slice() || out == document {
        return false;
    }
    is_no_query(pairs, out)
}

/// Whether each OUT is a name of its own: not `-`, not DOC, no QUERY, and no other OUT.
pub(crate) fn are_apart(document: &[u8], pairs: &[Pair]) -> bool
    ensures { result ≡ are_apart document.now pairs.now }
{
    let mut rest = pairs;
    'outs: while let Some((first, others)) = rest.split_first() {
        let out = first.out.as_bytes();
        if !is_apart(document, pairs, out) || !differs(others, out) {
            return false;
        }
        rest = others;
    }
    true
}
