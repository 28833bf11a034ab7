ghost use Rattle.std.specs.Prelude.{◌≡◌, ◌++◌, ℕ, List, true, false, Option, None, Some, length, OnOk, OnErr};
ghost use Rattle.gcx_model.specs.Growth.{may_all};
ghost use Rattle.gcx_model.specs.Tree.{TreeToken as Said, opening};
ghost use Rattle.doc_reader.specs.Standing.{AllLieWithin};
ghost use Rattle.outside.specs.Tokens.{said_lent};
ghost use Rattle.outside.specs.Outputs.{MayTakeTokens, OutputText, SameOutputs, SettlesMore};
ghost use Rattle.outside.specs.Places.{Elsewhere, Few, LeavesBoth, MayWriteTo, OnlyWaitingChanged, SameFlows, TakesSomeTo, TakesTo};
ghost use Rattle.outside.specs.Orders.{OrdersTokens, OrdersWrites};

use crate::outside::Outside;
use doc_reader::Lent;
use gcx_base::Memory;
use std::alloc::Global;

/// What takes the tokens of a document, and has outputs that grow by what they settle, each with a place to which it goes.
pub trait TakesTokens {
    /// The tokens for which a value stands: it took them.
    ghost stands: { Self → List Said → Type 0 };

    /// How many outputs there are.
    ghost count: { Self → ℕ };

    /// What each output is, over tokens.
    ghost texts: { Self → ℕ → OutputText };

    /// What of each output waits: it was neither written nor dropped.
    ghost outs: { Self → ℕ → List ℕ };

    /// The place to which each output goes.
    ghost places: { Self → ℕ → Option ℕ };

    /// Of each output so many bytes wait; of a list of parts, of each part.
    ghost few: { Self → Option ℕ → Type 0 };

    /// What was taken of the outputs since a run began is in order, where these tokens were taken or more is to come.
    ghost ordered: { Self → List Said → (ℕ → List ℕ) → Type 0 };

    /// What no call changes stays as it was. Who took back no more roles than were given still has not.
    ghost keeps: { Self → Self → Type 0 };

    /// And what a call keeps that took all of its tokens: the most rows that there ever were are those that were counted.
    ghost keeps_peak: { Self → Self → Type 0 };

    /// Takes these tokens, whose names and texts lie in the bytes, and has outputs written where many bytes wait. After
    /// `Memory` some of the tokens may have been taken.
    fn take<O: Outside>(
        &mut self,
        alloc: Global,
        tokens: &[Lent],
        bytes: &[u8],
        to: &mut O,
    ) -> Result<(), Memory>
        requires within { AllLieWithin 0 (length bytes.now) bytes.now tokens.now }
        requires may { MayTakeTokens (stands self.old) (said_lent bytes.now tokens.now) }
        requires places { MayWriteTo places O.may self.old to.old }
        requires few { few self.old (O.most to.old false) }
        ensures takes { OnOk result (TakesTo stands texts places outs keeps_peak O.sinks
            (self.old, to.old) (self.new, to.new) (said_lent bytes.now tokens.now)) }
        ensures part { OnErr result (TakesSomeTo stands texts places outs O.sinks
            (self.old, to.old) (self.new, to.new) (said_lent bytes.now tokens.now)) }
        ensures few { OnOk result (few self.new (O.most to.new false)) }
        ensures others { Elsewhere (places self.old) (O.sinks to.old) (O.sinks to.new) }
        ensures order { O.most to.old true ≡ Some 0 → OrdersTokens stands texts places outs ordered O.sinks
            (self.old, to.old) (self.new, to.new) (said_lent bytes.now tokens.now) }
        ensures leaves { LeavesBoth keeps O.writes (self.old, to.old) (self.new, to.new) };

    /// Has all written that waits, each output to its place, in order.
    fn write_out<O: Outside>(&mut self, to: &mut O)
        requires some { (given : List Said) × stands self.old given }
        requires places { MayWriteTo places O.may self.old to.old }
        ensures flows { SameFlows places outs O.sinks (self.old, to.old) (self.new, to.new) }
        ensures few { few self.new (O.most to.new true) }
        ensures others { Elsewhere (places self.old) (O.sinks to.old) (O.sinks to.new) }
        ensures only { OnlyWaitingChanged stands keeps keeps_peak self.old self.new }
        ensures order { O.most to.old true ≡ Some 0
            → OrdersWrites stands texts places outs ordered O.sinks (self.old, to.old) (self.new, to.new) }
        ensures writes { O.writes to.old to.new };

    ghost keeps_same: { (s : Self) → keeps s s };

    ghost keeps_on: { (a b c : Self) → keeps a b → keeps b c → keeps a c };

    /// The outputs are among it.
    ghost keeps_outputs: { (a b : Self) → keeps a b → SameOutputs count texts a b };

    ghost keeps_places: { (a b : Self) → keeps a b → (i : ℕ) → places b i ≡ places a i };

    ghost peak_same: { (s : Self) → keeps_peak s s };

    ghost peak_on: { (a b c : Self) → keeps_peak a b → keeps_peak b c → keeps_peak a c };

    ghost ordered_on: { (s : Self) (ts us : List Said) (x : ℕ → List ℕ) → ordered s ts x → ordered s (ts ++ us) x };

    ghost few_each: { (s : Self) (m : Option ℕ) → few s m → (i : ℕ) → Few m (length (outs s i)) };

    /// Where any number may wait, nothing is asked.
    ghost any_few: { (s : Self) → few s None };

    ghost none_few: { (s : Self) (m : Option ℕ) → few s (Some 0) → few s m };

    /// Where more tokens may come, more is settled.
    ghost settles_on: { (s : Self) (i : ℕ) (ts us : List Said) → may_all (ts ++ us) opening ≡ true → SettlesMore (texts s i) ts us };
}

impl<S: TakesTokens> TakesTokens for &mut S {
    ghost use Rattle.std.specs.Prelude.{◌≡◌};
    ghost use Rattle.std.proofs.Common.{◌∙◌, refl};

    ghost stands = { λ s given. S.stands s.now given };

    ghost count = { λ s. S.count s.now };

    ghost texts = { λ s. S.texts s.now };

    ghost outs = { λ s. S.outs s.now };

    ghost places = { λ s. S.places s.now };

    ghost few = { λ s. S.few s.now };

    ghost ordered = { λ s. S.ordered s.now };

    // It is the same loan, too.
    ghost keeps = { λ a b. (b.ghost_name ≡ a.ghost_name) × S.keeps a.now b.now };

    ghost keeps_peak = { λ a b. S.keeps_peak a.now b.now };

    fn take<O: Outside>(
        &mut self,
        alloc: Global,
        tokens: &[Lent],
        bytes: &[u8],
        to: &mut O,
    ) -> Result<(), Memory> {
        (**self).take(alloc, tokens, bytes, to)
    }

    fn write_out<O: Outside>(&mut self, to: &mut O) {
        (**self).write_out(to)
    }

    ghost keeps_same = { λ s. (refl, S.keeps_same s.now) };

    ghost keeps_on = { λ a b c k l. (l.0 ∙ k.0, S.keeps_on a.now b.now c.now k.1 l.1) };

    ghost keeps_outputs = { λ a b k. let same = S.keeps_outputs a.now b.now k.1 in record { count_is = same.count_is; texts_are = same.texts_are } };

    ghost keeps_places = { λ a b k. S.keeps_places a.now b.now k.1 };

    ghost peak_same = { λ s. S.peak_same s.now };

    ghost peak_on = { λ a b c. S.peak_on a.now b.now c.now };

    ghost ordered_on = { λ s. S.ordered_on s.now };

    ghost few_each = { λ s. S.few_each s.now };

    ghost any_few = { λ s. S.any_few s.now };

    ghost none_few = { λ s. S.none_few s.now };

    ghost settles_on = { λ s. S.settles_on s.now };
}
