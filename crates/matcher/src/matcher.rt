//! The matcher: states and frames of the open nodes, the outermost first.
ghost use Rattle.std.specs.Prelude.{◌≡◌, ℕ, List, [], Some, false, true, IfOk, IfSome, OnErr, OnOk};
ghost use Rattle.gcx_model.specs.Past.{IsNode};
ghost use Rattle.gcx_model.specs.ItemView.{off_tree, role_kind};
ghost use Rattle.gcx_model.specs.PlanView.{plan_tree};
ghost use Rattle.path_states.specs.Lists.{Holds};
ghost use Rattle.gcx_base.specs.declared.kind.Kind.TheVariants.{Element, Text};
ghost use Rattle.matcher.specs.Ahead.{AreBases, AreVars, FirstTarget, HasWhole, OwnTarget, Target, WholeTarget};
ghost use Rattle.matcher.specs.Calls.{GivesAhead, GivesCount, GivesHere, GivesNext, GivesNode, GivesPlainly, GivesRoot};
ghost use Rattle.matcher.specs.Calls.{KeepsStanding};
ghost use Rattle.matcher.specs.Calls.{LeavesElement, LeavesText, SaysTaken, SignsAt, StandsAtStart, StandsBehind};
ghost use Rattle.matcher.specs.Calls.{StandsNext, TakenHere, TellsSign};
ghost use Rattle.matcher.specs.Entering.{GivesInside, IsIdle, IsIdled, IsOver};

use crate::found::{contexts_found, levels_hit};
use crate::none::NoRoles;
use crate::open_frames::OpenFrames;
use crate::opening::{advance, step};
use crate::roles::{Levels, given_of, given_with, is_above};
use crate::signs::{Sign, are_signed, drop_level, put_sign};
use crate::upward::{origins, put_level};
use gcx_base::{Kind, Memory, Role};
use gcx_model::{Given, Off, Plan, RoleKind};
use path_states::{Bound, PathStates, Way};
use role_set::RoleSet;
use smallvec::SmallVec;
use std::alloc::Global;
use std::marker::Model;

/// The roles of new nodes. It stands for an open tree, and for the statements that are signed at open nodes. `Memory`
/// is want of memory, and the only error of its calls.
#[derive(Drop)]
pub struct Matcher {
    /// The states of the open nodes from the document node on, and of a text. The innermost nodes have none where no path
    /// leads to them.
    states: PathStates,
    /// What is kept of the same nodes beside their states.
    frames: OpenFrames,
    /// The number of the others.
    idle: u32,
    /// Whether the innermost node is a text.
    text: bool,
    signs: Vec<Sign>,
    /// What is kept at a node to which no path leads.
    none: NoRoles,
}

impl Model for Matcher {
    ghost use Rattle.path_states.specs.contracts.paths.PathTree as tree;
    ghost use Rattle.matcher.specs.View.{GoTogether, MatcherView, matcher_code, matcher_view};

    ghost Value = { MatcherView };

    ghost coded = { matcher_code tree.the_row.coded };

    ghost view = { λ m. matcher_view m.states m.frames m.idle m.text m.signs.items };

    ghost invariant = { λ m. GoTogether m.states m.frames };
}

/// Whether the role is this one.
fn is_of(role: Option<u32>, other: u32) -> bool
    ensures { result ≡ true → role ≡ Some other }
{
    match role {
        Some(role) => role == other,
        None => false,
    }
}

impl Matcher {
    /// A matcher for the plan, at the open document node.
    pub fn new(alloc: Global, plan: &Plan) -> Result<Matcher, Memory>
        ensures stands { IfOk result (λ m. StandsAtStart m (plan_tree plan.now)) }
        ensures most { IfOk result (λ m. m.most_bytes ≡ 262144) }
    {
        Matcher::bounded(alloc, plan, Bound::usual())
    }

    /// A matcher for the plan, which remembers no more of its states and moves than the bound says.
    pub fn bounded(alloc: Global, plan: &Plan, bound: Bound) -> Result<Matcher, Memory>
        ensures stands { IfOk result (λ m. StandsAtStart m (plan_tree plan.now)) }
        ensures most { IfOk result (λ m. m.most_bytes ≡ bound.bytes) }
    {
        let states = PathStates::new(alloc, plan, bound)?;
        let mut frames = OpenFrames::new(alloc);
        frames.add(states.here().contexts(), &[])?;
        Ok(Matcher {
            states,
            frames,
            idle: 0,
            text: false,
            signs: Vec::new(alloc),
            none: NoRoles::new(alloc),
        })
    }

    /// The roles of the document node, by rising number.
    pub fn document(&self, alloc: Global) -> Result<Given, Memory>
        ensures { IfOk result (GivesRoot self.now) }
    {
        match self.states.at(0) {
            Some(state) => {
                let given = given_of(alloc, state.given())?;
                Ok(given)
            }
            None => Ok(Given::new(alloc)),
        }
    }

    /// Goes to a new node, which is an element or a text, and answers its roles by rising number. After `Memory` the
    /// matcher stands for what it stood for.
    pub fn enter(&mut self, alloc: Global, kind: &Kind) -> Result<Given, Memory>
        requires kind { IsNode kind.now }
        ensures stands { OnOk result (StandsBehind self.old self.new kind.now) }
        ensures given { IfOk result (GivesNode self.old kind.now) }
        ensures err { OnErr result (KeepsStanding self.old self.new) }
    {
        let text = kind.is_text();
        if self.is_idle(text) {
            return self.enter_idle(alloc, text);
        }
        let number = self.states.number_of(kind);
        self.enter_next(alloc, number, text)
    }

    /// Whether it is plain that no path leads to a new node, nor to any below it.
    #[inline(always)]
    fn is_idle(&self, text: bool) -> bool
        ensures yes { result ≡ true → IsIdle self.now text }
        ensures no { result ≡ false → self.now.idle ≡ 0 }
    {
        self.idle > 0 || (text && !self.states.tree().texts) || self.is_over()
    }

    /// Whether no path leads to a node below the innermost one that has a frame.
    #[inline(always)]
    fn is_over(&self) -> bool
        ensures { result ≡ true → IsOver self.now }
    {
        self.states.here().is_over()
    }

    /// To a node to which no path leads, nor to any below it.
    fn enter_idle(&mut self, alloc: Global, text: bool) -> Result<Given, Memory>
        ensures idled { OnOk result (IsIdled self.old self.new text) }
        ensures given { IfOk result (GivesInside self.old) }
        ensures err { OnErr result (self.new ≡ self.old) }
    {
        let given = self.given_inside(alloc)?;
        self.go_idle(text);
        Ok(given)
    }

    /// The roles of whole subtrees in which the innermost node that has a frame lies.
    #[inline(always)]
    fn given_inside(&self, alloc: Global) -> Result<Given, Memory>
        ensures { IfOk result (GivesInside self.now) }
    {
        let roles = self.states.here().whole();
        if roles.is_empty() {
            return Ok(Given::new(alloc));
        }
        let given = given_of(alloc, roles)?;
        Ok(given)
    }

    /// To a node below one that has a frame, by the number of its name.
    fn enter_next(&mut self, alloc: Global, number: usize, text: bool) -> Result<Given, Memory>
        ensures stands { OnOk result (StandsNext self.old self.new number text) }
        ensures given { IfOk result (GivesNext self.old number text) }
        ensures err { OnErr result (self.new ≡ self.old) }
    {
        let next = advance(alloc, &mut self.states, &mut self.frames, number, text)?;
        match next {
            Some(given) => {
                self.text = text;
                Ok(given)
            }
            None => self.enter_idle(alloc, text),
        }
    }

    /// Goes to a new node as `enter` does, without a list of its roles.
    #[inline(always)]
    pub fn go(&mut self, alloc: Global, kind: &Kind) -> Result<(), Memory>
        requires kind { IsNode kind.now }
        ensures stands { OnOk result (StandsBehind self.old self.new kind.now) }
        ensures err { OnErr result (KeepsStanding self.old self.new) }
    {
        let text = kind.is_text();
        if self.is_idle(text) {
            self.go_idle(text);
            return Ok(());
        }
        let number = self.states.number_of(kind);
        self.go_next(alloc, number, text)
    }

    /// Goes to a new element of this name as `enter` does, without a list of its roles.
    #[inline(always)]
    pub fn go_name(&mut self, alloc: Global, name: &[u8]) -> Result<(), Memory>
        ensures stands { OnOk result (StandsBehind self.old self.new (Element name.now)) }
        ensures err { OnErr result (KeepsStanding self.old self.new) }
    {
        if self.is_idle(false) {
            self.go_idle(false);
            return Ok(());
        }
        let number = self.states.number(name);
        self.go_next(alloc, number, false)
    }

    /// Goes to a new text, whatever its bytes are, as `enter` does, without a list of its roles.
    #[inline(always)]
    pub fn go_text(&mut self, alloc: Global) -> Result<(), Memory>
        ensures stands { OnOk result ((bytes : List ℕ) → StandsBehind self.old self.new (Text bytes)) }
        ensures err { OnErr result (KeepsStanding self.old self.new) }
    {
        if self.is_idle(true) {
            self.go_idle(true);
            return Ok(());
        }
        let number = self.states.text();
        self.go_next(alloc, number, true)
    }

    /// To a node to which no path leads, nor to any below it.
    #[inline(always)]
    fn go_idle(&mut self, text: bool)
        ensures { IsIdled self.old self.new text }
    {
        self.idle = self.idle.saturating_add(1);
        self.text = text;
    }

    /// To a node below one that has a frame, by the number of its name.
    #[inline(always)]
    fn go_next(&mut self, alloc: Global, number: usize, text: bool) -> Result<(), Memory>
        ensures stands { OnOk result (StandsNext self.old self.new number text) }
        ensures err { OnErr result (self.new ≡ self.old) }
    {
        let led = step(alloc, &mut self.states, &mut self.frames, number, text)?;
        if !led {
            self.go_idle(text);
            return Ok(());
        }
        self.text = text;
        Ok(())
    }

    /// How many roles the innermost node has. None where first matches are among them, or where a statement is signed at
    /// an open node.
    #[inline(always)]
    pub fn plain(&self) -> Option<usize>
        ensures { IfSome result (GivesCount self.now) }
    {
        if !self.signs.as_slice().is_empty() {
            return None;
        }
        self.count_here()
    }

    /// The number that `plain` answers, whatever is signed. None where first matches are among the roles.
    #[inline(always)]
    fn count_here(&self) -> Option<usize>
        ensures { self.now.signs ≡ [] → IfSome result (GivesCount self.now) }
    {
        let state = self.states.here();
        if self.idle > 0 {
            return Some(state.whole().len());
        }
        if self.frames.is_first() {
            return None;
        }
        Some(state.given().len())
    }

    /// The roles of the innermost node as a set, and those of them that are kept at it where roles are spread. They are
    /// its roles if `plain` answers how many it has.
    #[inline(always)]
    pub fn plain_sets(&self) -> (&RoleSet, &RoleSet)
        ensures { (count : ℕ) → GivesCount self.now count → GivesPlainly self.now result.0.now result.1.now count }
    {
        let state = self.states.here();
        if self.idle > 0 {
            return (state.whole_set(), self.none.empty());
        }
        (state.roles(), state.kept())
    }

    /// The roles of the innermost node, by rising number.
    pub fn given(&self, alloc: Global) -> Result<Given, Memory>
        ensures { IfOk result (GivesHere self.now) }
    {
        if self.idle > 0 {
            let inside = self.given_inside(alloc)?;
            return Ok(inside);
        }
        let given = given_with(alloc, self.states.here().given(), self.frames.found_here())?;
        Ok(given)
    }

    /// Leaves the innermost node, which isn't the document node, for its parent. Takes no memory.
    #[inline(always)]
    pub fn leave(&mut self)
        ensures text { LeavesText self.old self.new }
        ensures element { LeavesElement self.old self.new }
    {
        self.text = false;
        if self.idle > 0 {
            self.idle -= 1;
        } else {
            self.states.leave();
            if self.frames.leave() {
                drop_level(&mut self.signs, self.frames.len());
            }
        }
    }

    /// Notes that the statement is carried out at the open node of the level, which for the document node is 0. After
    /// `Memory` the matcher stands for what it stood for.
    pub fn sign(&mut self, level: u32, off: &Off) -> Result<(), Memory>
        ensures stands { OnOk result (SignsAt self.old self.new level (off_tree off.now)) }
        ensures err { OnErr result (KeepsStanding self.old self.new) }
    {
        let level = level as usize;
        let sign = Sign {
            role: off.role.0,
            level,
            steps: off.rel.items().len(),
        };
        self.frames.note_signed(level)?;
        put_sign(&mut self.signs, sign)?;
        Ok(())
    }

    /// The roles of the innermost node that are taken back already, by rising number.
    #[inline(always)]
    pub fn ahead(&self, alloc: Global) -> Result<Given, Memory>
        ensures { IfOk result (GivesAhead self.now) }
    {
        if self.signs.as_slice().is_empty() {
            return Ok(Given::new(alloc));
        }
        let given = self.all_ahead(alloc)?;
        Ok(given)
    }

    /// The roles that `ahead` answers, sign by sign.
    #[inline(never)]
    fn all_ahead(&self, alloc: Global) -> Result<Given, Memory>
        ensures { IfOk result (TakenHere self.now self.now.signs) }
    {
        let mut given = Given::new(alloc);
        let mut last = None;
        for sign in self.signs.as_slice() {
            self.put_ahead(alloc, &mut given, last, *sign)?;
            last = Some(sign.role);
        }
        Ok(given)
    }

    /// Adds the sign's role where it is taken back from the innermost node, and isn't that of the last sign.
    fn put_ahead(
        &self,
        alloc: Global,
        given: &mut Given,
        last: Option<u32>,
        sign: Sign,
    ) -> Result<(), Memory>
        ensures { OnOk result (TellsSign self.now last sign given.old given.new) }
    {
        let role = Role(sign.role);
        if is_of(last, sign.role) {
            return Ok(());
        }
        if !is_above(given, role) {
            return Ok(());
        }
        if self.is_ahead(alloc, sign)? {
            given.push(role)?;
        }
        Ok(())
    }

    /// Whether the innermost node was given the sign's role, and its statement is signed at each base that reaches the node.
    fn is_ahead(&self, alloc: Global, sign: Sign) -> Result<bool, Memory>
        ensures { IfOk result (SaysTaken self.now sign) }
    {
        let Some(way) = self.states.tree().ways.get(sign.role as usize) else {
            return Ok(false);
        };
        let targets = self.targets(alloc, sign.role, *way)?;
        if targets.is_empty() {
            return Ok(false);
        }
        let bases = self.bases(alloc, *way, sign.steps, targets)?;
        Ok(are_signed(&self.signs, sign.role, bases.as_slice()))
    }

    /// The levels from which the innermost node has the role: where its path ends.
    fn targets(&self, alloc: Global, role: u32, way: Way) -> Result<Levels, Memory>
        ensures { IfOk result (λ levels. Holds levels.items (Target (role_kind way.kind) self.now role way.end)) }
    {
        match way.kind {
            RoleKind::Whole => {
                let levels = self.whole_targets(alloc, role, way.end)?;
                Ok(levels)
            }
            RoleKind::Own => {
                let levels = self.own_target(alloc, way.end)?;
                Ok(levels)
            }
            RoleKind::First => {
                let levels = self.first_targets(alloc, role)?;
                Ok(levels)
            }
        }
    }

    /// Those of a role of whole subtrees: all to which its path leads, since the innermost node is in their subtrees.
    fn whole_targets(&self, alloc: Global, role: u32, end: u32) -> Result<Levels, Memory>
        ensures { IfOk result (λ levels. Holds levels.items (WholeTarget self.now role end)) }
    {
        if !self.has_whole(role) {
            return Ok(SmallVec::new(alloc));
        }
        levels_hit(alloc, &self.states, &self.frames, end)
    }

    /// Whether the innermost node that has a frame has the role with its subtree.
    fn has_whole(&self, role: u32) -> bool
        ensures yes { result ≡ true → HasWhole self.now.frames role }
        ensures no { result ≡ false → HasWhole self.now.frames role → ⊥ }
    {
        self.states.here().whole().contains(&role)
    }

    fn own_target(&self, alloc: Global, end: u32) -> Result<Levels, Memory>
        ensures { IfOk result (λ levels. Holds levels.items (OwnTarget self.now end)) }
    {
        let mut levels = SmallVec::new(alloc);
        if self.idle > 0 {
            return Ok(levels);
        }
        let here = self.frames.len().saturating_sub(1);
        put_level(&mut levels, &self.states, &self.frames, end, here)?;
        Ok(levels)
    }

    fn first_targets(&self, alloc: Global, role: u32) -> Result<Levels, Memory>
        ensures { IfOk result (λ levels. Holds levels.items (FirstTarget self.now role)) }
    {
        if self.idle > 0 {
            return Ok(SmallVec::new(alloc));
        }
        let levels = contexts_found(alloc, self.frames.found_here(), role)?;
        Ok(levels)
    }

    /// The levels of the bases from which the statement reaches the node.
    fn bases(
        &self,
        alloc: Global,
        way: Way,
        steps: usize,
        targets: Levels,
    ) -> Result<Levels, Memory>
        ensures { IfOk result (λ levels. AreBases self.now way steps targets.items levels.items) }
    {
        let vars = self.variables(alloc, way, targets)?;
        let levels = origins(alloc, &self.states, &self.frames, way.var, steps, vars)?;
        Ok(levels)
    }

    /// The levels of the role's variable from which the node has the role.
    fn variables(&self, alloc: Global, way: Way, targets: Levels) -> Result<Levels, Memory>
        ensures { IfOk result (λ levels. AreVars (role_kind way.kind) self.now way targets.items levels.items) }
    {
        match way.kind {
            RoleKind::Whole => {
                let (end, steps) = (way.end, way.steps);
                let levels = origins(alloc, &self.states, &self.frames, end, steps, targets)?;
                Ok(levels)
            }
            RoleKind::Own | RoleKind::First => Ok(targets),
        }
    }
}
