//! The buffer.
ghost use Rattle.std.specs.List.{list_any};
ghost use Rattle.std.specs.Prelude.{◌≡◌, ◌==◌, ◌+◌, ◌≤◌, ◌<◌, ◌^◌, Option, Some, None, IfOk, OnOk, OnErr, IsSome, map as list_map, max, not, option_map, sum, true, false, [], length};
ghost use Rattle.std.specs.FinMap as map;
ghost use Rattle.std.specs.FinSet as set;
ghost use Rattle.gcx_model.specs.Members.{In};
ghost use Rattle.gcx_model.specs.Paths.{head};
ghost use Rattle.gcx_model.specs.Past.{Past, IsNode};
ghost use Rattle.buf_tree.specs.Rows.{serials};
ghost use Rattle.buf_tree.specs.Shape.{AtPlace, Cell, num, cells, Shape, Shaped, at_place};
ghost use Rattle.buf_tree.specs.View.{View, InUse, Innermost, serial_at, level_in};
ghost use Rattle.buf_tree.specs.Calls.{Started, Opened, Closed, HasRole, Untaken, numbers, less};
ghost use Rattle.buf_tree.specs.Ways.{is_waiting};
ghost use Rattle.buf_tree.specs.Stands.{StandsFor, past_told, StandsFirst, StandsOpened, StandsClosed, MayOpen};
ghost use Rattle.buf_tree.specs.Spread.{SpreadView, IsSpreadOf, is_spread_in, SameButRoles, capped64};
ghost use Rattle.buf_tree.specs.Walk.{Nested};
ghost use Rattle.spread_laws.specs.Tops.{entries_of};
ghost use Rattle.gcx_model.specs.PlanView.{plan_tree};
ghost use Rattle.gcx_model.specs.Core.{BodyTree};
ghost use Rattle.gcx_model.specs.Cores.{Good};
ghost use Rattle.gcx_model.specs.Placed.{Placed};
ghost use Rattle.gcx_model.specs.Held.{roles_given};
ghost use Rattle.gcx_model.specs.Tree.{Root, opening};
ghost use Rattle.gcx_model.specs.Past.{opening_past, token_for};

use crate::ahead::Ahead;
use crate::edits::{is_spare, leave, plant_row, settle, shut, untake};
use crate::recount::has_role;
use crate::row::Row;
use crate::search::after;
use crate::spread::Spread;
use crate::trail::Trail;
use crate::upward::waits;
use gcx_base::{Kind, Memory, Role, Serial};
use gcx_model::{Given, Off, Plan};
use node_store::{At, NodeStore, Place};
use role_set::NodeRoles;
use std::alloc::Global;
use std::marker::Model;

/// The nodes of a document that are open or have a role in their subtree.
///
/// A contract sees the rows in document order with their places. Freeing takes no memory: there is room for the
/// departure of each row. `Memory` is want of memory, and the only error of its calls.
#[derive(Drop)]
pub struct Buffer<N: NodeStore<Row>> {
    pub(crate) nodes: N,
    pub(crate) gone: Vec<Serial>,
    pub(crate) waiting: Vec<Ahead>,
    pub(crate) held: usize,
    pub(crate) count: u64,
    pub(crate) taken: u128,
    pub(crate) trail: Trail,
    pub(crate) spread: Option<Spread>,
}

impl<N: NodeStore<Row>> Model for Buffer<N> {
    ghost use Rattle.std.specs.Prelude.{vec_capacity};
    ghost use Rattle.buf_tree.specs.View.{View, Kept, view_code};
    ghost use Rattle.buf_tree.specs.Rows.{serials};
    ghost use Rattle.buf_tree.specs.Shape.{cells};
    ghost use Rattle.buf_tree.specs.contracts.row.Row as row;
    ghost use Rattle.gcx_model.specs.contracts.item.Off as off;
    ghost use Rattle.buf_tree.specs.contracts.ahead.Ahead as ahead;
    ghost use Rattle.buf_tree.specs.Spread.{seen_rows, TellsCovered};

    ghost Value = { View };

    ghost coded = { view_code row.the_row.coded off.the_row.coded ahead.the_row.coded };

    ghost view = { λ b. record {
      rows = seen_rows b.spread (cells (N.rows b.nodes));
      kept = cells (N.rows b.nodes);
      spread = b.spread;
      gone = serials b.gone.items;
      waiting = b.waiting.items;
      nodes = b.count;
      taken = b.taken;
      most = N.most_held b.nodes;
      loans = N.loans b.nodes;
    } };

    ghost invariant = { λ b.
        Kept (N.rows b.nodes) (serials b.gone.items) (vec_capacity b.gone) b.held b.count
        × TellsCovered b.spread (cells (N.rows b.nodes)) };
}

impl<N: NodeStore<Row> + Drop> Buffer<N> {
    /// The open document node with these roles, in a store that is empty.
    pub fn new(alloc: Global, nodes: N, given: Given) -> Result<Buffer<N>, Memory>
        requires empty { N.rows nodes ≡ map.empty }
        ensures started { IfOk result (λ b. Started b given) }
        ensures spread { IfOk result (λ b. b.spread ≡ None) }
        ensures kept { IfOk result (λ b. b.kept ≡ b.rows) }
        ensures most { IfOk result (λ b. b.most ≡ max (N.most_held nodes) 1) }
        ensures loans { IfOk result (λ b. b.loans ≡ N.loans nodes) }
        ensures stands { IfOk result (λ b. StandsFirst b given) }
    {
        let mut gone = Vec::new(alloc);
        gone.reserve(1)?;
        let roles = roles_left(alloc, given.items(), &[])?;
        let mut nodes = nodes;
        plant_row(&mut nodes, Row::document(roles))?;
        Ok(Buffer {
            nodes,
            gone,
            waiting: Vec::new(alloc),
            held: 1,
            count: 1,
            taken: 0,
            trail: Trail::new(alloc),
            spread: None,
        })
    }

    /// The same for pasts with this plan, of which the buffer keeps what it needs: the roles that the plan gives to whole
    /// subtrees are spread. Such a role is kept at the tops of its statement alone, and what lies below has it from there.
    pub fn new_spread(
        alloc: Global,
        nodes: N,
        given: Given,
        plan: &Plan,
    ) -> Result<Buffer<N>, Memory>
        requires empty { N.rows nodes ≡ map.empty }
        requires placed { (core : BodyTree) × Good core × Placed core (plan_tree plan.now) }
        requires given { numbers given ≡ roles_given (plan_tree plan.now) opening Root }
        ensures started { IfOk result (λ b. Started b given) }
        ensures spread { IfOk result (λ b. (s : SpreadView) × (b.spread ≡ Some s) × IsSpreadOf s (plan_tree plan.now)) }
        ensures most { IfOk result (λ b. b.most ≡ max (N.most_held nodes) 1) }
        ensures loans { IfOk result (λ b. b.loans ≡ N.loans nodes) }
        ensures stands { IfOk result (λ b. StandsFor b (opening_past (plan_tree plan.now))) }
    {
        let spread = Spread::of(alloc, plan)?;
        let mut buffer = Buffer::new(alloc, nodes, given)?;
        buffer.spread = Some(spread);
        Ok(buffer)
    }
}

impl<N: NodeStore<Row>> Buffer<N> {
    /// The store, with the rows as they are kept.
    pub fn into_nodes(self) -> N
        ensures rows { cells (N.rows result) ≡ self.kept }
        ensures shape { Shape (N.rows result) self.kept }
        ensures alike { SameButRoles self.kept self.rows }
        ensures most { N.most_held result ≡ self.most }
        ensures loans { N.loans result ≡ self.loans }
    {
        let Buffer {
            nodes,
            gone: _,
            waiting: _,
            held: _,
            count: _,
            taken: _,
            trail: _,
            spread: _,
        } = self;
        nodes
    }

    /// The place of the document node, or None where the buffer is empty. Takes no memory.
    #[inline(always)]
    pub fn root(&self) -> Option<Place>
        ensures { option_map (λ p. p.0) result ≡ option_map (λ c. c.place) (head self.now.rows) }
    {
        self.nodes.root()
    }

    /// A new element or text as last child of the innermost open node, with the roles that are given but not ahead. A
    /// text is closed at once, and one without a role is gone at once. Answers the node's place, or None where it is
    /// gone.
    ///
    /// There is room for one more departure afterwards. After `Memory` the buffer is unchanged.
    pub fn open_node(
        &mut self,
        alloc: Global,
        parent: Place,
        kind: Kind,
        given: Given,
        ahead: Given,
    ) -> Result<Option<Place>, Memory>
        requires parent { Innermost self.old.rows parent.0 }
        requires kind { IsNode kind }
        requires nodes { self.old.nodes ≤ 2 ^ 40 + 1 }
        requires depth { level_in (at_place parent.0 self.old.rows) ≤ 1000 }
        requires spread { MayOpen self.old (token_for kind) given ahead }
        ensures opened { IfOk result (λ p. Opened self.old self.new parent.0 (option_map (λ q. q.0) p) kind given ahead) }
        ensures stands { OnOk result (StandsOpened self.old self.new kind given ahead) }
        ensures err { OnErr result (self.new ≡ self.old) }
        ensures loans { self.new.loans ≡ self.old.loans }
    {
        let roles = roles_left(alloc, given.items(), ahead.items())?;
        let taken = ahead.items().len() as u128;
        let place = self.open_row(parent, kind, roles, taken)?;
        Ok(place)
    }

    /// Closes the innermost open node, while nothing waits. Then what nothing keeps leaves. Takes no memory.
    #[inline(always)]
    pub fn close_node(&mut self, place: Place)
        requires innermost { Innermost self.old.rows place.0 }
        requires waiting { self.old.waiting ≡ [] }
        ensures closed { Closed self.old self.new place.0 }
        ensures stands { StandsClosed self.old self.new }
        ensures loans { self.new.loans ≡ self.old.loans }
    {
        shut(&mut self.nodes, place);
        if !is_spare(&self.nodes, place) {
            return;
        }
        let held = leave(&mut self.nodes, &mut self.gone, place, self.held);
        self.held = held;
    }

    /// Takes a role, which the node has and which isn't spread, back from it. Then what nothing keeps leaves. Takes no memory.
    pub fn take_role(&mut self, place: Place, role: Role)
        requires role { HasRole self.old.rows place.0 role.0 }
        requires spread { is_spread_in self.old.spread role.0 ≡ false }
        ensures untaken { Untaken self.old self.new place.0 role.0 }
        ensures loans { self.new.loans ≡ self.old.loans }
    {
        untake(&mut self.nodes, place, role);
        self.taken = self.taken.saturating_add(1);
        let held = settle(&mut self.nodes, &mut self.gone, place, self.held);
        self.held = held;
    }

    /// The statements that wait for the next token, in order. Takes no memory.
    #[inline(always)]
    pub fn waiting(&self) -> &[Ahead]
        ensures { result.now ≡ self.now.waiting }
    {
        &self.waiting
    }

    /// No statement waits any more. Takes no memory.
    #[inline(always)]
    pub fn clear_waiting(&mut self)
        ensures cleared { self.new ≡ record self.old { waiting = [] } }
        ensures stands { (past : Past) → StandsFor self.old past → StandsFor self.new (past_told past) }
    {
        self.waiting.clear();
    }

    /// The serial of the row at the place. Takes no memory.
    #[inline(always)]
    pub fn serial(&self, place: Place) -> Serial
        requires { InUse self.now.rows place.0 }
        ensures serial { result.0 ≡ serial_at place.0 self.now.rows }
        ensures row { (c : Cell) → In c self.now.rows → c.place ≡ place.0 → num c ≡ result.0 }
    {
        self.nodes.payload(place).serial()
    }

    /// Whether the node of the row at the place is closed. Takes no memory.
    #[inline(always)]
    pub fn is_closed(&self, place: Place) -> bool
        requires { InUse self.now.rows place.0 }
        ensures { (c : Cell) → In c self.now.rows → c.place ≡ place.0 → result ≡ not c.row.is_open }
    {
        self.nodes.payload(place).is_closed()
    }

    /// Whether the statement is due at the node of the row at the place, if it is one of the plan: the role of its base is
    /// at the node, live or signed, and the statement isn't signed there. Takes no memory.
    pub fn is_due(&self, place: Place, off: &Off) -> bool
        requires { InUse self.now.rows place.0 }
        ensures { (c : Cell) → In c self.now.rows → c.place ≡ place.0 → result ≡ is_waiting c.row off.now }
    {
        let is_live = has_role(&self.nodes, &self.spread, place, off.own);
        waits(self.nodes.payload(place), off, is_live)
    }

    /// A cursor over the store, at the row at the place. Takes no memory.
    #[inline(always)]
    pub fn at(&self, place: Place) -> At<'_, N, Row>
        requires { InUse self.now.rows place.0 }
        ensures place { result.place ≡ place }
        ensures store { Shape (N.rows result.store.now) self.now.kept }
        ensures alike { SameButRoles self.now.kept self.now.rows }
    {
        At::new(&self.nodes, place)
    }

    /// The number of rows, which is that of the nodes held. Takes no memory.
    #[inline(always)]
    pub fn held(&self) -> u64
        ensures { result ≡ length self.now.rows }
    {
        self.held as u64
    }

    /// The number of nodes so far, the document node among them. Takes no memory.
    #[inline(always)]
    pub fn nodes(&self) -> u64
        ensures { result ≡ self.now.nodes }
    {
        self.count
    }

    /// The number of pairs of a row and a role that is kept at it. It stands still at 2^64 - 1. Looks at all rows. Takes no
    /// memory.
    pub fn entries(&self) -> u64
        ensures none { self.now.spread ≡ None → result ≡ capped64 (sum (list_map (λ c. set.len c.row.roles) self.now.rows)) }
        ensures spread { IsSome self.now.spread → (past : Past) → StandsFor self.now past
            → result ≡ capped64 (entries_of past) }
    {
        match self.nodes.root() {
            Some(root) => count_entries(&self.nodes, root),
            None => 0,
        }
    }

    /// The serials of the nodes that left since `clear_gone`, in the order of the calls that made them leave, and those
    /// of one call falling. Takes no memory.
    #[inline(always)]
    pub fn gone(&self) -> &[Serial]
        ensures { serials result.now ≡ self.now.gone }
    {
        &self.gone
    }

    /// Forgets the departures. Takes no memory.
    #[inline(always)]
    pub fn clear_gone(&mut self)
        ensures { self.new ≡ record self.old { gone = [] } }
    {
        self.gone.clear();
    }

    /// The number of roles that were taken back from nodes so far. It stands still at 2^128 - 1. Takes no memory.
    #[inline(always)]
    pub fn taken(&self) -> u128
        ensures { result ≡ self.now.taken }
    {
        self.taken
    }
}

#[inline(always)]
fn holds(roles: &[Role], role: Role) -> bool
    ensures { result ≡ list_any (λ k. k == role.0) (numbers roles.now) }
{
    for other in roles {
        if other.0 == role.0 {
            return true;
        }
    }
    false
}

/// The roles that are given and not ahead.
#[inline(always)]
fn roles_left(alloc: Global, given: &[Role], ahead: &[Role]) -> Result<NodeRoles, Memory>
    ensures held { IfOk result (λ s. s.held ≡ set.from_list (less (numbers given.now) (numbers ahead.now))) }
    ensures signed { IfOk result (λ s. s.signed ≡ set.empty) }
{
    let mut roles = NodeRoles::new(alloc);
    for role in given {
        if !holds(ahead, *role) {
            roles.give(*role)?;
        }
    }
    Ok(roles)
}

/// The number of entries of all rows together, where that at `root` is the document node's.
fn count_entries<N: NodeStore<Row>>(nodes: &N, root: Place) -> u64
    requires shape { Shaped (N.rows nodes.now) }
    requires nested { Nested (cells (N.rows nodes.now)) }
    requires there { IsSome (map.get (N.rows nodes.now) root.0) }
    requires first { AtPlace (cells (N.rows nodes.now)) root.0 (λ c. num c ≡ 0) }
    ensures { result ≡ capped64 (sum (list_map (λ c. set.len c.row.roles) (cells (N.rows nodes.now)))) }
{
    let mut entries: u64 = 0;
    let mut at = Some(root);
    'rows: while let Some(here) = at {
        entries = entries.saturating_add(nodes.payload(here).entries());
        at = after(nodes, root, here);
    }
    entries
}
