ghost use Rattle.std.specs.Prelude.{◌≡◌, ◌≤◌, [], ◌∷◌, length, drop, take, not, OnOk};
ghost use Rattle.gcx_model.specs.Attributes.{is_fresh};
ghost use Rattle.gcx_model.specs.Fronts.{is_inside};
ghost use Rattle.doc_laws.specs.Machine.{innermost};
ghost use Rattle.doc_tokens.specs.OpenNames.{WithoutFirst};

use crate::bytes::push_front;
use gcx_base::Memory;
use std::alloc::Global;
use std::marker::Model;

/// The names of the open elements, seen as their list from the innermost on.
#[derive(Drop)]
pub struct OpenNames {
    /// All names, the outermost first, with nothing between them.
    bytes: Vec<u8>,
    /// Where each begins.
    starts: Vec<usize>,
}

impl Model for OpenNames {
    ghost use Rattle.std.specs.Prelude.{List, ℕ, reverse};
    ghost use Rattle.doc_tokens.specs.OpenNames.{names_of, AreNamesOnly};

    ghost Value = { List (List ℕ) };

    ghost view = { λ n. names_of (reverse n.starts.items) n.bytes.items };

    ghost invariant = { λ n. AreNamesOnly n.starts.items n.bytes.items };
}

/// The bytes from a place on.
pub(crate) fn behind(bytes: &[u8], start: usize) -> &[u8]
    ensures { result.now ≡ drop start bytes.now }
{
    match bytes.get(start..) {
        Some(rest) => rest,
        None => &[],
    }
}

impl OpenNames {
    /// No names.
    pub fn new(alloc: Global) -> OpenNames
        ensures { result ≡ [] }
    {
        OpenNames {
            bytes: Vec::new(alloc),
            starts: Vec::new(alloc),
        }
    }

    /// How many elements are open.
    #[tactic(auto, using(crate::proofs::Lists::names_count))]
    pub fn len(&self) -> usize
        ensures { result ≡ length self.now }
    {
        self.starts.len()
    }

    /// Whether an element is open.
    #[tactic(auto, using(crate::proofs::Lists::names_inside))]
    pub fn has_open(&self) -> bool
        ensures { result ≡ is_inside self.now }
    {
        self.starts.len() > 0
    }

    /// Opens an element.
    pub fn push(&mut self, name: &[u8]) -> Result<(), Memory>
        ensures { OnOk result (self.new ≡ name.now ∷ self.old) }
    {
        self.push_front(name, name.len())
    }

    /// Opens an element, whose name the first `n` of these bytes are.
    #[inline(always)]
    pub fn push_front(&mut self, bytes: &[u8], n: usize) -> Result<(), Memory>
        requires { n ≤ length bytes.now }
        ensures { OnOk result (self.new ≡ take n bytes.now ∷ self.old) }
    {
        self.starts.push(self.bytes.len())?;
        push_front(&mut self.bytes, bytes, n)?;
        Ok(())
    }

    /// Closes the innermost element, if there is one.
    pub fn pop(&mut self)
        ensures { WithoutFirst self.old self.new }
    {
        if let Some(start) = self.starts.pop() {
            self.bytes.truncate(start);
        }
    }

    /// The name of the innermost element, or nothing.
    pub fn innermost(&self) -> &[u8]
        ensures { result.now ≡ innermost self.now }
    {
        match self.starts.last() {
            Some(start) => behind(&self.bytes, *start),
            None => &[],
        }
    }

    /// Whether a name is one of them.
    pub fn has(&self, name: &[u8]) -> bool
        ensures { result ≡ not (is_fresh name.now self.now) }
    {
        let mut end = self.bytes.len();
        let mut k = self.starts.len();
        while k > 0 {
            k -= 1;
            let start = self.starts[k].min(end);
            if &self.bytes[start..end] == name {
                return true;
            }
            end = start;
        }
        false
    }

    /// Forgets all names, and keeps their room.
    pub fn clear(&mut self)
        ensures { self.new ≡ [] }
    {
        self.bytes.clear();
        self.starts.clear();
    }
}
