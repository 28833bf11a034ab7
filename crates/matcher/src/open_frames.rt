//! What is kept of the open nodes beside their states. Of the innermost ones no frame is made where they have nothing to
//! keep.
ghost use Rattle.std.specs.Prelude.{◌≡◌, ◌<◌, ◌≤◌, ◌++◌, ◌∷◌, [], true, false, length, option_map, Some, slice_get, OnErr, OnOk};
ghost use Rattle.gcx_model.specs.Members.{In};
ghost use Rattle.matcher.specs.Bare.{with_bare};
ghost use Rattle.matcher.specs.Parts.{IsUnmatched, NodeMarks, new_marks};
ghost use Rattle.matcher.specs.Stacks.{AreMatched, IsSigned, found_in, last_marks, outer_marks};

use crate::frames::{Context, Found, Frames};
use gcx_base::Memory;
use std::alloc::Global;
use std::marker::Model;

/// What is kept of the open nodes, the outermost first, seen as the list of their marks.
///
/// Most nodes are no context and no first match, and no statement is signed at them. Where the innermost ones are such, they
/// are counted alone: to go to one of them and to leave it again costs no more than that.
#[derive(Drop)]
pub(crate) struct OpenFrames {
    /// The frames of the outer nodes.
    made: Frames,
    /// How many nodes are open.
    count: usize,
}

impl Model for OpenFrames {
    ghost use Rattle.std.specs.Prelude.{◌≤◌, List, length};
    ghost use Rattle.std.specs.Coded.{coded_list};
    ghost use Rattle.matcher.specs.Bare.{with_bare};
    ghost use Rattle.matcher.specs.Parts.{NodeMarks, marks_code};

    ghost Value = { List NodeMarks };

    ghost coded = { coded_list marks_code };

    ghost view = { λ t. with_bare t.made t.count };

    ghost invariant = { λ t. length t.made ≤ t.count };
}

/// Whether a node with these is no context and no first match.
#[inline(always)]
fn is_bare(roles: &[u32], found: &[Found]) -> bool
    ensures { result ≡ true → (roles.now ≡ []) × (found.now ≡ []) }
{
    roles.is_empty() && found.is_empty()
}

/// Makes frames of nodes that have nothing to keep, until there are so many. After `Memory` some of them may be made.
#[inline(never)]
fn make_bare(made: &mut Frames, count: usize) -> Result<(), Memory>
    requires { length made.old ≤ count }
    ensures same { with_bare made.new count ≡ with_bare made.old count }
    ensures few { length made.new ≤ count }
    ensures all { OnOk result (length made.new ≡ count) }
{
    for _node in made.len()..count {
        made.add_bare()?;
    }
    Ok(())
}

impl OpenFrames {
    pub(crate) fn new(alloc: Global) -> OpenFrames
        ensures { result ≡ [] }
    {
        let made = Frames::new(alloc);
        OpenFrames { made, count: 0 }
    }

    #[inline(always)]
    pub(crate) fn len(&self) -> usize
        ensures { result ≡ length self.now }
    {
        self.count
    }

    /// Adds a node that is a context of these roles, and the first match of these. After `Memory` nothing is changed.
    #[inline(always)]
    pub(crate) fn add(&mut self, roles: &[u32], found: &[Found]) -> Result<(), Memory>
        ensures added { OnOk result (self.new ≡ self.old ++ new_marks roles.now found.now ∷ []) }
        ensures err { OnErr result (self.new ≡ self.old) }
    {
        if is_bare(roles, found) {
            return self.add_bare();
        }
        self.add_marked(roles, found)
    }

    /// Adds one that is no context and no first match.
    #[inline(always)]
    fn add_bare(&mut self) -> Result<(), Memory>
        ensures added { OnOk result (self.new ≡ self.old ++ new_marks [] [] ∷ []) }
        ensures err { OnErr result (self.new ≡ self.old) }
    {
        let count = self.count;
        if count == usize::MAX {
            return Err(Memory);
        }
        self.count = count + 1;
        Ok(())
    }

    /// Adds a node that is a context of these roles, and the first match of these, by a frame. After `Memory` nothing is
    /// changed.
    #[inline(never)]
    fn add_marked(&mut self, roles: &[u32], found: &[Found]) -> Result<(), Memory>
        ensures added { OnOk result (self.new ≡ self.old ++ new_marks roles.now found.now ∷ []) }
        ensures err { OnErr result (self.new ≡ self.old) }
    {
        make_bare(&mut self.made, self.count)?;
        self.made.add_marked(roles, found)?;
        self.count = self.made.len();
        Ok(())
    }

    /// Takes the innermost node away, unless it is the document node. Answers whether a statement is signed at it. Takes no
    /// memory.
    #[inline(always)]
    pub(crate) fn leave(&mut self) -> bool
        ensures left { self.new ≡ outer_marks self.old }
        ensures signed { (one : NodeMarks) → 1 < length self.old → last_marks self.old ≡ Some one → result ≡ one.signed }
    {
        let count = self.count;
        if count <= 1 {
            return false;
        }
        self.count = count - 1;
        if self.made.len() < count {
            return false;
        }
        self.made.leave()
    }

    /// The roles of which the node of the level is a context.
    pub(crate) fn contexts_at(&self, level: usize) -> Option<&[Context]>
        ensures { option_map (λ c. c.now) result ≡ option_map (λ one. one.contexts) (slice_get self.now level) }
    {
        if level < self.made.len() {
            return self.made.contexts_at(level);
        }
        let count = self.count;
        if level < count { Some(&[]) } else { None }
    }

    /// The roles whose first match the innermost node is.
    #[inline(always)]
    pub(crate) fn found_here(&self) -> &[Found]
        ensures { result.now ≡ found_in (last_marks self.now) }
    {
        let count = self.count;
        if self.made.len() < count {
            return &[];
        }
        self.made.found_here()
    }

    /// Whether the innermost node is a first match.
    #[inline(always)]
    pub(crate) fn is_first(&self) -> bool
        ensures { result ≡ false → found_in (last_marks self.now) ≡ [] }
    {
        !self.found_here().is_empty()
    }

    /// Whether some node is a context of the role without a match.
    pub(crate) fn may_match(&self, role: u32) -> bool
        ensures no { result ≡ false → (one : NodeMarks) → In one self.now → IsUnmatched one.contexts role → ⊥ }
    {
        self.made.may_match(role)
    }

    /// Notes that what was found has a match.
    #[inline(always)]
    pub(crate) fn note_found(&mut self, found: &[Found])
        ensures { AreMatched found.now self.old self.new }
    {
        self.made.note_found(found);
    }

    /// Notes that a statement is signed at the node of this level. After `Memory` nothing is changed.
    pub(crate) fn note_signed(&mut self, level: usize) -> Result<(), Memory>
        ensures ok { OnOk result (IsSigned self.old self.new level) }
        ensures err { OnErr result (self.new ≡ self.old) }
    {
        make_bare(&mut self.made, self.count)?;
        self.made.note_signed(level);
        Ok(())
    }
}
