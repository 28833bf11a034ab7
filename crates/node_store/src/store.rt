//! What a store of rows promises.
ghost use Rattle.std.specs.Prelude.{◌≡◌, ◌≤◌, ℕ, List, Option, Some, None, IfOk, IfErr, OnOk, OnErr, IfSome, IsSome, max, option_map, is_some, if◌then◌else◌, []};
ghost use Rattle.std.specs.FinMap as map;
ghost use Rattle.std.specs.Borrow.{Lends, sem};
ghost use Rattle.node_store.specs.Rows.{StoreRow, Rows, IsTree, planted, appended, unlinked, parent_of, next_of, prev_of, head_of, last_of, children_in, changed_at, with_payload};

use thiserror::Error;

/// Where a row stands in its store.
#[derive(Clone, Copy, Debug, PartialEq, Eq)]
pub struct Place(pub usize);

/// Want of memory, with the payload that was not stored.
#[derive(Debug, Drop, Error)]
#[error("out of memory")]
pub struct Refused<T> {
    pub payload: T,
}

/// A tree of rows, or none. Each row has a place, a parent (but for the root), children in order and a payload.
///
/// A place is in use from the call that answers it to the `unlink_leaf` or `drop_leaf` that is given it. A contract sees
/// the rows as a finite map from the places in use, besides the root and the greatest number of rows so far.
pub trait NodeStore<T> {
    ghost rows: { Self → Rows T };

    ghost most_held: { Self → ℕ };

    ghost root_of: { Self → Option ℕ };

    ghost with_paid: { Self → ℕ → T → Self };

    /// The names of the loans that the store stands on, outermost first.
    ghost loans: { Self → List ℕ };

    /// Makes the root of an empty store. One cell is written.
    ///
    /// `Refused` is want of memory. The store then stays as it was.
    fn plant(&mut self, payload: T) -> Result<Place, Refused<T>>
        requires { rows self.old ≡ map.empty }
        ensures ok { IfOk result (λ p. rows self.new ≡ planted (rows self.old) p.0 payload) }
        ensures most { OnOk result (most_held self.new ≡ max (most_held self.old) 1) }
        ensures root { IfOk result (λ p. root_of self.new ≡ Some p.0) }
        ensures err { IfErr result (λ e. (e.payload ≡ payload)
            × (rows self.new ≡ rows self.old) × (most_held self.new ≡ most_held self.old)) }
        ensures root_kept { OnErr result (root_of self.new ≡ root_of self.old) }
        ensures loans { loans self.new ≡ loans self.old };

    /// Makes a last child of the row at `parent`. The parent's cell links to its last child, so at most three cells are
    /// written, however many siblings there are.
    ///
    /// `Refused` is want of memory. The store then stays as it was.
    fn append(&mut self, parent: Place, payload: T) -> Result<Place, Refused<T>>
        requires { IsSome (map.get (rows self.old) parent.0) }
        ensures free { IfOk result (λ p. map.get (rows self.old) p.0 ≡ None) }
        ensures ok { IfOk result (λ p. rows self.new ≡ appended (rows self.old) parent.0 p.0 payload) }
        ensures most { OnOk result (most_held self.new ≡ max (most_held self.old) (map.len (rows self.new))) }
        ensures root { root_of self.new ≡ root_of self.old }
        ensures err { IfErr result (λ e. (e.payload ≡ payload)
            × (rows self.new ≡ rows self.old) × (most_held self.new ≡ most_held self.old)) }
        ensures loans { loans self.new ≡ loans self.old };

    /// Takes a row without children out, and hands out its payload. The cell links to both siblings, so at most four
    /// cells are written, however many siblings there are. No memory is taken.
    fn unlink_leaf(&mut self, place: Place) -> T
        requires { (e : StoreRow T) × (map.get (rows self.old) place.0 ≡ Some e) × (e.children ≡ []) }
        ensures payload { (e : StoreRow T) → map.get (rows self.old) place.0 ≡ Some e → result ≡ e.payload }
        ensures rows { rows self.new ≡ unlinked (rows self.old) place.0 }
        ensures most { most_held self.new ≡ most_held self.old }
        ensures root { root_of self.new ≡ (if is_some (parent_of (rows self.old) place.0) then root_of self.old else None) }
        ensures loans { loans self.new ≡ loans self.old };

    /// Takes a row without children out, and drops its payload, which no caller wants: a store may do so where it lies. As
    /// many cells are written as by `unlink_leaf`, and no memory is taken.
    fn drop_leaf(&mut self, place: Place)
    where
        T: Drop,
        requires { (e : StoreRow T) × (map.get (rows self.old) place.0 ≡ Some e) × (e.children ≡ []) }
        ensures rows { rows self.new ≡ unlinked (rows self.old) place.0 }
        ensures most { most_held self.new ≡ most_held self.old }
        ensures root { root_of self.new ≡ (if is_some (parent_of (rows self.old) place.0) then root_of self.old else None) }
        ensures loans { loans self.new ≡ loans self.old };

    /// The parent of the row at `place`, or None at the root. One link of its cell is read.
    fn parent(&self, place: Place) -> Option<Place>
        requires { IsSome (map.get (rows self.now) place.0) }
        ensures value { option_map (λ p. p.0) result ≡ parent_of (rows self.now) place.0 }
        ensures in_use { IfSome result (λ p. IsSome (map.get (rows self.now) p.0)) };

    /// The first child of the row at `place`, or None where it has no child. One link of its cell is read.
    fn first(&self, place: Place) -> Option<Place>
        requires { IsSome (map.get (rows self.now) place.0) }
        ensures value { option_map (λ p. p.0) result ≡ head_of (children_in (map.get (rows self.now) place.0)) }
        ensures in_use { IfSome result (λ p. IsSome (map.get (rows self.now) p.0)) };

    /// The last child of the row at `place`, or None where it has no child. One link of its cell is read, however many
    /// children there are.
    fn last(&self, place: Place) -> Option<Place>
        requires { IsSome (map.get (rows self.now) place.0) }
        ensures value { option_map (λ p. p.0) result ≡ last_of (children_in (map.get (rows self.now) place.0)) }
        ensures in_use { IfSome result (λ p. IsSome (map.get (rows self.now) p.0)) };

    /// The child after the row at `place` of the same parent, or None where it is the last. One link of its cell is
    /// read, however many siblings there are.
    fn next(&self, place: Place) -> Option<Place>
        requires { IsSome (map.get (rows self.now) place.0) }
        ensures value { option_map (λ p. p.0) result ≡ next_of (rows self.now) place.0 }
        ensures in_use { IfSome result (λ p. IsSome (map.get (rows self.now) p.0)) };

    /// The child before the row at `place` of the same parent, or None where it is the first. One link of its cell is
    /// read, however many siblings there are.
    fn prev(&self, place: Place) -> Option<Place>
        requires { IsSome (map.get (rows self.now) place.0) }
        ensures value { option_map (λ p. p.0) result ≡ prev_of (rows self.now) place.0 }
        ensures in_use { IfSome result (λ p. IsSome (map.get (rows self.now) p.0)) };

    /// The payload of the row at `place`, which its cell keeps.
    fn payload(&self, place: Place) -> &T
        requires { IsSome (map.get (rows self.now) place.0) }
        ensures { option_map (λ e. e.payload) (map.get (rows self.now) place.0) ≡ Some result.now };

    /// The same for writing. The laws `written`, `written_most`, `written_root` and `written_loans` say what a write leaves.
    fn payload_mut(&mut self, place: Place) -> &mut T
        requires { IsSome (map.get (rows self.old) place.0) }
        ensures* writes_back { sem 𝓛 (Lends Self.row T.row self.entry result (with_paid self.old place.0)) }
        ensures value { option_map (λ e. e.payload) (map.get (rows self.old) place.0) ≡ Some result.now };

    /// The root's place, or None where the store is empty. The store keeps it.
    fn root(&self) -> Option<Place>
        ensures value { option_map (λ p. p.0) result ≡ root_of self.now }
        ensures in_use { IfSome result (λ p. IsSome (map.get (rows self.now) p.0)) }

        // The rows form one tree under the root, or there are none.
        ensures tree { IsTree (rows self.now) (root_of self.now) };

    /// The greatest number of rows that the store has held. The store keeps it.
    fn most(&self) -> usize
        ensures value { result ≡ most_held self.now }
        ensures held { map.len (rows self.now) ≤ result };

    ghost written: { (s : Self) (p : ℕ) (x : T) → IsSome (map.get (rows s) p) → rows (with_paid s p x) ≡ changed_at (with_payload x) p (rows s) };

    ghost written_most: { (s : Self) (p : ℕ) (x : T) → IsSome (map.get (rows s) p) → most_held (with_paid s p x) ≡ most_held s };

    ghost written_root: { (s : Self) (p : ℕ) (x : T) → IsSome (map.get (rows s) p) → root_of (with_paid s p x) ≡ root_of s };

    ghost written_loans: { (s : Self) (p : ℕ) (x : T) → IsSome (map.get (rows s) p) → loans (with_paid s p x) ≡ loans s };
}

impl<T, N: NodeStore<T>> NodeStore<T> for &mut N {
    ghost rows = { λ s. N.rows s.now };

    ghost most_held = { λ s. N.most_held s.now };

    ghost root_of = { λ s. N.root_of s.now };

    ghost use Rattle.std.specs.Prelude.{◌∷◌};
    ghost use Rattle.std.proofs.Common.{ap};

    ghost loans = { λ s. s.ghost_name ∷ N.loans s.now };

    ghost with_paid = { λ s p x. record s { now = N.with_paid s.now p x } };

    ghost written = { λ s p x used. N.written s.now p x used };

    ghost written_most = { λ s p x used. N.written_most s.now p x used };

    ghost written_root = { λ s p x used. N.written_root s.now p x used };

    ghost written_loans = { λ s p x used. ap (λ rest. s.ghost_name ∷ rest) (N.written_loans s.now p x used) };

    #[inline(always)]
    fn plant(&mut self, payload: T) -> Result<Place, Refused<T>> {
        N::plant(*self, payload)
    }

    #[inline(always)]
    fn append(&mut self, parent: Place, payload: T) -> Result<Place, Refused<T>> {
        N::append(*self, parent, payload)
    }

    #[inline(always)]
    fn unlink_leaf(&mut self, place: Place) -> T {
        N::unlink_leaf(*self, place)
    }

    #[inline(always)]
    fn drop_leaf(&mut self, place: Place)
    where
        T: Drop,
    {
        N::drop_leaf(*self, place);
    }

    #[inline(always)]
    fn parent(&self, place: Place) -> Option<Place> {
        N::parent(*self, place)
    }

    #[inline(always)]
    fn first(&self, place: Place) -> Option<Place> {
        N::first(*self, place)
    }

    #[inline(always)]
    fn last(&self, place: Place) -> Option<Place> {
        N::last(*self, place)
    }

    #[inline(always)]
    fn next(&self, place: Place) -> Option<Place> {
        N::next(*self, place)
    }

    #[inline(always)]
    fn prev(&self, place: Place) -> Option<Place> {
        N::prev(*self, place)
    }

    #[inline(always)]
    fn payload(&self, place: Place) -> &T {
        N::payload(*self, place)
    }

    #[inline(always)]
    fn payload_mut(&mut self, place: Place) -> &mut T {
        N::payload_mut(*self, place)
    }

    #[inline(always)]
    fn root(&self) -> Option<Place> {
        N::root(*self)
    }

    #[inline(always)]
    fn most(&self) -> usize {
        N::most(*self)
    }
}
