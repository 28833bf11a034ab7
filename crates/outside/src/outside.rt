ghost use Rattle.std.specs.Prelude.{◌≡◌, ◌<◌, ℕ, Bool, true, false, Option, None, Some, [], length};
ghost use Rattle.std.specs.Io.{ReadsAtMost};
ghost use Rattle.gcx_io.specs.Views.{SourceView};
ghost use Rattle.gcx_io.specs.Calls.{ReadsSource};
ghost use Rattle.outside.specs.Places.{Few, PlaceView, SourceStays, Spilled, WroteOn};

use gcx_io::Failed;

/// Where a document comes from, and where outputs go, each to a place of its number.
pub trait Outside {
    /// What is seen of the source.
    ghost source: { Self → SourceView };

    /// The source tells what it has left. A late write may end that.
    ghost tells: { Self → Type 0 };

    /// What is at each place.
    ghost sinks: { Self → ℕ → PlaceView };

    /// The place at which a write failed. Nothing is written behind that.
    ghost broken: { Self → Option ℕ };

    /// A place to which outputs may go.
    ghost may: { Self → ℕ → Type 0 };

    /// The most bytes that wait behind a call that is to write all, or behind one that isn't. None: any number.
    ghost most: { Self → Bool → Option ℕ };

    /// What no call changes stays as it was.
    ghost keeps: { Self → Self → Type 0 };

    /// And what no call that writes changes.
    ghost writes: { Self → Self → Type 0 };

    /// Puts the first n bytes that are left at the front of the buffer, and answers n. 0 is the end of the input.
    /// `Failed` is a fault of the source.
    fn read(&mut self, buf: &mut [u8]) -> Result<usize, Failed>
        requires { 0 < length buf.old }
        ensures bound { ReadsAtMost result buf.new }
        ensures reads { ReadsSource (source self.old) (source self.new) result buf.new }
        ensures sinks { sinks self.new ≡ sinks self.old }
        ensures broken { broken self.new ≡ broken self.old }
        ensures kept { keeps self.old self.new };

    /// Writes what waits for a place, or a front of it, or nothing of it. What is written waits no more. Behind a failed
    /// write it drops what waits.
    fn spill(&mut self, place: usize, waiting: &mut Vec<u8>, all: bool)
        requires { may self.old place }
        ensures spilled { Spilled place (sinks self.old) (sinks self.new) waiting.old.items waiting.new.items }
        ensures few { Few (most self.new all) (length waiting.new.items) }
        ensures writes { writes self.old self.new };

    /// Whether so many bytes may wait.
    fn may_wait(&self, count: usize) -> bool
        ensures { result ≡ true → Few (most self.now false) count };

    /// Whether a write failed.
    fn is_broken(&self) -> bool
        ensures whole { result ≡ false → broken self.now ≡ None }
        ensures fails { result ≡ true → (place : ℕ) × (broken self.now ≡ Some place) };

    ghost keeps_same: { (s : Self) → keeps s s };

    ghost keeps_on: { (a b c : Self) → keeps a b → keeps b c → keeps a c };

    ghost keeps_may: { (a b : Self) (place : ℕ) → keeps a b → may a place → may b place };

    ghost keeps_most: { (a b : Self) (all : Bool) → keeps a b → most b all ≡ most a all };

    /// A source that stopped telling doesn't tell later.
    ghost keeps_tells: { (a b : Self) → keeps a b → tells b → tells a };

    ghost writes_same: { (s : Self) → writes s s };

    ghost writes_on: { (a b c : Self) → writes a b → writes b c → writes a c };

    ghost writes_keeps: { (a b : Self) → writes a b → keeps a b };

    ghost writes_source: { (a b : Self) → writes a b → SourceStays (tells b) (source a) (source b) };

    ghost writes_wrote: { (a b : Self) → writes a b → WroteOn (broken a) (broken b) (sinks a) (sinks b) };

    /// Nothing is dropped while no write failed.
    ghost whole_drops: { (s : Self) (place : ℕ) → broken s ≡ None → (sinks s place).dropped ≡ [] };

    /// Behind a call that is to write all no more waits than may behind another.
    ghost most_less: { (s : Self) (n : ℕ) → Few (most s true) n → Few (most s false) n };
}
