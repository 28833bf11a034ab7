//! What is kept of open nodes beside their states: a frame for each, whose ranges lie on two stacks.
ghost use Rattle.std.specs.Prelude.{◌≡◌, ◌+◌, ◌<◌, ◌≤◌, ◌-◌, ◌↔◌, ◌++◌, ◌∷◌, ℕ, List, [], false, true, length, vec_len, vec_capacity, map, take, drop, option_map, Some, slice_get, OnErr, OnOk};
ghost use Rattle.gcx_model.specs.Members.{In};
ghost use Rattle.matcher.specs.Parts.{IsOpen, IsUnmatched, NodeMarks, new_marks, open_context, slice_of};
ghost use Rattle.matcher.specs.Stacks.{AreMatched, Finds, FoundNoted, IsIn, IsNoted, IsSigned, Noted, found_in, last_marks, outer_marks};

use gcx_base::Memory;
use std::alloc::Global;
use std::marker::Model;

/// A part of a stack.
#[derive(Clone, Copy, Debug)]
pub(crate) struct Range {
    pub from: usize,
    pub to: usize,
}

/// A role whose first match the node is, and the level of the context.
#[derive(Clone, Copy, Debug, Default)]
pub(crate) struct Found {
    pub role: u32,
    pub level: usize,
}

/// A role of which the node is a context.
#[derive(Clone, Copy, Debug)]
pub(crate) struct Context {
    pub role: u32,
    /// Whether it has no match yet.
    pub unmatched: bool,
}

/// What is kept of an open node: its ranges of the stacks.
#[derive(Clone, Copy, Debug)]
pub(crate) struct Frame {
    pub contexts: Range,
    pub found: Range,
    /// Whether a statement is signed at it.
    pub signed: bool,
}

/// What is kept of open nodes, the outermost first, seen as the list of their marks.
#[derive(Drop, Debug)]
pub(crate) struct Frames {
    nodes: Vec<Frame>,
    /// The roles of which each node is a context.
    contexts: Vec<Context>,
    /// The roles whose first match each node is.
    found: Vec<Found>,
}

impl Model for Frames {
    ghost use Rattle.std.specs.Prelude.{List};
    ghost use Rattle.std.specs.Coded.{coded_list};
    ghost use Rattle.matcher.specs.Parts.{NodeMarks, marks_code, marks_of};
    ghost use Rattle.matcher.specs.Stacks.{AreStacked};

    ghost Value = { List NodeMarks };

    ghost coded = { coded_list marks_code };

    ghost view = { λ t. marks_of t.contexts.items t.found.items t.nodes.items };

    ghost invariant = { λ t. AreStacked t.contexts.items t.found.items t.nodes.items };
}

/// The first ones of a list.
#[inline(always)]
fn up_to<T>(list: &[T], to: usize) -> &[T]
    ensures { result.now ≡ take to list.now }
{
    match list.get(..to) {
        Some(first) => first,
        None => list,
    }
}

/// The others.
#[inline(always)]
fn from<T>(list: &[T], from: usize) -> &[T]
    ensures { result.now ≡ drop from list.now }
{
    match list.get(from..) {
        Some(rest) => rest,
        None => &[],
    }
}

/// The part of a list.
#[inline(always)]
fn part_of<T>(list: &[T], range: Range) -> &[T]
    ensures { result.now ≡ slice_of range list.now }
{
    from(up_to(list, range.to), range.from)
}

/// Adds the roles, as ones without a match.
fn put_contexts(contexts: &mut Vec<Context>, roles: &[u32])
    requires room { vec_len contexts.old + length roles.now ≤ vec_capacity contexts.old }
    ensures { contexts.new.items ≡ contexts.old.items ++ map open_context roles.now }
{
    for role in roles {
        contexts.push_reserved(Context {
            role: *role,
            unmatched: true,
        });
    }
}

fn is_unmatched(context: &Context, role: u32) -> bool
    ensures yes { result ≡ true → (context.now.role ≡ role) × (context.now.unmatched ≡ true) }
    ensures no { result ≡ false → context.now.role ≡ role → context.now.unmatched ≡ true → ⊥ }
{
    context.unmatched && context.role == role
}

/// Whether the role stands there without a match.
pub(crate) fn has_unmatched(contexts: &[Context], role: u32) -> bool
    ensures yes { result ≡ true → IsUnmatched contexts.now role }
    ensures no { result ≡ false → IsUnmatched contexts.now role → ⊥ }
{
    for context in contexts {
        if is_unmatched(context, role) {
            return true;
        }
    }
    false
}

/// The context, which has a match if it is of the role.
fn noted(context: Context, role: u32) -> Context
    ensures { (r : ℕ) → IsOpen r result ↔ (IsOpen r context × (role ≡ r → ⊥)) }
{
    Context {
        role: context.role,
        unmatched: context.unmatched && context.role != role,
    }
}

/// Notes that the context at this place has a match if it is of the role.
fn note_match(contexts: &mut [Context], place: usize, role: u32)
    ensures { Noted contexts.old contexts.new (λ i r. (place ≡ i) × (role ≡ r)) }
{
    if place < contexts.len() {
        contexts[place] = noted(contexts[place], role);
    }
}

/// Notes for each context of the role in this range that it has a match.
fn note_matches(contexts: &mut [Context], range: Range, role: u32)
    ensures { Noted contexts.old contexts.new (λ i r. IsIn range i × (role ≡ r)) }
{
    for i in range.from..range.to {
        note_match(contexts, i, role);
    }
}

/// Notes that the context has a match.
fn note_one(nodes: &[Frame], contexts: &mut [Context], found: Found)
    ensures { Noted contexts.old contexts.new (Finds nodes.now found) }
{
    if let Some(frame) = nodes.get(found.level) {
        note_matches(contexts, frame.contexts, found.role);
    }
}

/// Notes that what was found has a match.
fn note_found(nodes: &[Frame], contexts: &mut [Context], found: &[Found])
    ensures { FoundNoted nodes.now found.now contexts.old contexts.new }
{
    for found in found {
        note_one(nodes, contexts, *found);
    }
}

/// Notes that a statement is signed at the node of this level.
fn note_signed(nodes: &mut [Frame], level: usize)
    ensures { IsNoted nodes.old nodes.new level }
{
    if level < nodes.len() {
        nodes[level].signed = true;
    }
}

impl Frames {
    pub(crate) fn new(alloc: Global) -> Frames
        ensures { result ≡ [] }
    {
        Frames {
            nodes: Vec::new(alloc),
            contexts: Vec::new(alloc),
            found: Vec::new(alloc),
        }
    }

    #[inline(always)]
    pub(crate) fn len(&self) -> usize
        ensures { result ≡ length self.now }
    {
        self.nodes.len()
    }

    /// Adds the frame of a node that is no context and no first match. After `Memory` there are the same frames.
    pub(crate) fn add_bare(&mut self) -> Result<(), Memory>
        ensures added { OnOk result (self.new ≡ self.old ++ new_marks [] [] ∷ []) }
        ensures err { OnErr result (self.new ≡ self.old) }
    {
        let contexts = self.contexts.len();
        let found = self.found.len();
        let frame = Frame {
            contexts: Range {
                from: contexts,
                to: contexts,
            },
            found: Range {
                from: found,
                to: found,
            },
            signed: false,
        };
        self.nodes.push(frame)?;
        Ok(())
    }

    /// Adds the frame of a node that is a context of these roles, and the first match of these. There is room for all of it
    /// before any is put there, so that after `Memory` nothing more lies on the stacks.
    pub(crate) fn add_marked(&mut self, roles: &[u32], found: &[Found]) -> Result<(), Memory>
        ensures added { OnOk result (self.new ≡ self.old ++ new_marks roles.now found.now ∷ []) }
        ensures err { OnErr result (self.new ≡ self.old) }
    {
        let contexts_from = self.contexts.len();
        let found_from = self.found.len();
        self.nodes.reserve(1)?;
        self.contexts.reserve(roles.len())?;
        self.found.extend_from_slice(found)?;
        put_contexts(&mut self.contexts, roles);
        let frame = Frame {
            contexts: Range {
                from: contexts_from,
                to: self.contexts.len(),
            },
            found: Range {
                from: found_from,
                to: self.found.len(),
            },
            signed: false,
        };
        self.nodes.push_reserved(frame);
        Ok(())
    }

    /// Takes the innermost frame away, unless it is that of the document node. Answers whether a statement is signed at
    /// its node. Takes no memory.
    #[inline(always)]
    pub(crate) fn leave(&mut self) -> bool
        ensures left { self.new ≡ outer_marks self.old }
        ensures signed { (one : NodeMarks) → 1 < length self.old → last_marks self.old ≡ Some one → result ≡ one.signed }
    {
        if self.nodes.len() <= 1 {
            return false;
        }
        match self.nodes.pop() {
            Some(frame) => {
                self.contexts.truncate(frame.contexts.from);
                self.found.truncate(frame.found.from);
                frame.signed
            }
            None => false,
        }
    }

    /// The roles of which the node of the level is a context.
    pub(crate) fn contexts_at(&self, level: usize) -> Option<&[Context]>
        ensures { option_map (λ c. c.now) result ≡ option_map (λ one. one.contexts) (slice_get self.now level) }
    {
        match self.nodes.get(level) {
            Some(frame) => Some(part_of(&self.contexts, frame.contexts)),
            None => None,
        }
    }

    /// The roles whose first match the innermost node is.
    #[inline(always)]
    pub(crate) fn found_here(&self) -> &[Found]
        ensures { result.now ≡ found_in (last_marks self.now) }
    {
        match self.nodes.last() {
            Some(frame) => part_of(&self.found, frame.found),
            None => &[],
        }
    }

    /// Whether some node is a context of the role without a match.
    pub(crate) fn may_match(&self, role: u32) -> bool
        ensures no { result ≡ false → (one : NodeMarks) → In one self.now → IsUnmatched one.contexts role → ⊥ }
    {
        has_unmatched(&self.contexts, role)
    }

    /// Notes that what was found has a match.
    pub(crate) fn note_found(&mut self, found: &[Found])
        ensures { AreMatched found.now self.old self.new }
    {
        if !found.is_empty() {
            note_found(&self.nodes, &mut self.contexts, found);
        }
    }

    /// Notes that a statement is signed at the node of this level.
    pub(crate) fn note_signed(&mut self, level: usize)
        ensures { IsSigned self.old self.new level }
    {
        note_signed(&mut self.nodes, level);
    }
}
