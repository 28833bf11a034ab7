//! The variables in scope.
ghost use Rattle.std.specs.Prelude.{◌≡◌, ◌∷◌, ◌-◌, ◌≤◌, ℕ, List, [], length, drop, bytes_eq, OnOk, OnErr};
ghost use Rattle.std.specs.BTreeMap.{get_by_text};
ghost use Rattle.gcx_model.specs.Paths.{any};
ghost use Rattle.xq_parse.specs.Bindings.{place_put, place_taken};

use gcx_base::{Memory, Name};
use std::alloc::Global;
use std::collections::BTreeMap;
use std::marker::Model;

/// The names that clauses bind, seen as a list with the innermost first.
#[derive(Drop)]
pub(crate) struct Scope {
    alloc: Global,
    /// The outermost first.
    names: Vec<Name>,
    /// For each name where it stands first in `names`, so that no look-up reads them all.
    first: BTreeMap<String, usize>,
}

impl Model for Scope {
    ghost use Rattle.std.specs.Prelude.{List, ℕ, ◌≡◌, reverse};
    ghost use Rattle.std.specs.BTreeMap.{get_by_text};
    ghost use Rattle.xq_parse.specs.Bindings.{first_of};

    ghost Value = { List (List ℕ) };

    ghost view = { λ s. reverse s.names.items };

    ghost invariant = { λ s. (name : List ℕ) → get_by_text s.first name ≡ first_of name s.names.items };
}

/// Notes the place of a name, if it has none yet.
fn put_first(
    alloc: Global,
    first: &mut BTreeMap<String, usize>,
    name: &Name,
    place: usize,
) -> Result<(), Memory>
    ensures ok { OnOk result ((q : List ℕ)
        → get_by_text first.new q ≡ place_put name.now place q (get_by_text first.old q)) }
    ensures err { OnErr result ((q : List ℕ) → get_by_text first.new q ≡ get_by_text first.old q) }
{
    let key = String::from_str(alloc, name.as_str())?;
    let _ = first.entry(key)?.or_insert(place);
    Ok(())
}

/// Takes back the place of a name, if it is this one.
fn take_first(first: &mut BTreeMap<String, usize>, name: &Name, place: usize)
    ensures { (q : List ℕ) → get_by_text first.new q ≡ place_taken name.now place q (get_by_text first.old q) }
{
    let text = name.as_str();
    if first.get(text).copied() == Some(place) {
        let _ = first.remove(text);
    }
}

impl Scope {
    pub(crate) fn new(alloc: Global) -> Scope
        ensures { result ≡ [] }
    {
        Scope {
            alloc,
            names: Vec::new(alloc),
            first: BTreeMap::new(alloc),
        }
    }

    pub(crate) fn len(&self) -> usize
        ensures { result ≡ length self.now }
    {
        self.names.len()
    }

    /// Whether a clause binds this name.
    pub(crate) fn has(&self, name: &Name) -> bool
        ensures { result ≡ any (bytes_eq name.now) self.now }
    {
        self.first.contains_key(name.as_str())
    }

    pub(crate) fn bind(&mut self, name: Name) -> Result<(), Memory>
        ensures { OnOk result (self.new ≡ name ∷ self.old) }
    {
        self.names.reserve(1)?;
        put_first(self.alloc, &mut self.first, &name, self.names.len())?;
        self.names.push_reserved(name);
        Ok(())
    }

    /// Leaves the scope of the innermost name.
    fn unbind(&mut self)
        ensures { self.new ≡ drop 1 self.old }
    {
        if let Some(name) = self.names.pop() {
            take_first(&mut self.first, &name, self.names.len());
        }
    }

    /// Leaves the scope of all but the outermost `count` names.
    pub(crate) fn leave(&mut self, count: usize)
        requires { count ≤ length self.now }
        ensures { self.new ≡ drop (length self.old - count) self.old }
    {
        while self.len() > count {
            self.unbind();
        }
    }
}
