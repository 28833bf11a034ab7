ghost use Rattle.std.specs.Prelude.{◌≡◌, [], true, None, is_some};
ghost use Rattle.outside.specs.Places.{Spilled};
ghost use Rattle.outside.specs.TracedPorts.{TracedWrote, both_places};

use crate::outlet::Outlet;
use crate::outside::Outside;
use gcx_io::{Failed, Sink, Source};

/// A source, a sink for an output, which goes to place 0, and one for its trace, which goes to place 1.
#[derive(Drop)]
pub struct TracedPorts<D: Source, O: Sink, E: Sink> {
    pub doc: D,
    pub out: Outlet<O>,
    pub err: Outlet<E>,
    /// So many bytes may wait, of each.
    pub most: usize,
    /// The place at which a write failed.
    pub broken: Option<usize>,
}

impl<D: Source, O: Sink, E: Sink> TracedPorts<D, O, E> {
    /// No write failed yet, and so many bytes may wait.
    pub fn new(doc: D, out: O, err: E, most: usize) -> TracedPorts<D, O, E>
        ensures doc { result.doc ≡ doc }
        ensures out { result.out.sink ≡ out }
        ensures err { result.err.sink ≡ err }
        ensures most { result.most ≡ most }
        ensures whole { result.broken ≡ None }
    {
        TracedPorts {
            doc,
            out: Outlet::new(out),
            err: Outlet::new(err),
            most,
            broken: None,
        }
    }

    /// Writes the output that waits.
    fn put_out(&mut self, waiting: &mut Vec<u8>)
        requires { self.old.broken ≡ None }
        ensures spilled { Spilled 0 (both_places O.seen E.seen self.old) (both_places O.seen E.seen self.new)
            waiting.old.items waiting.new.items }
        ensures empty { waiting.new.items ≡ [] }
        ensures writes { TracedWrote D.keeps D.seen O.seen E.seen self.old self.new }
    {
        if self.out.put(waiting) {
            self.broken = Some(0);
            self.err.forget_dropped();
        }
    }

    /// Writes the trace that waits.
    fn put_err(&mut self, waiting: &mut Vec<u8>)
        requires { self.old.broken ≡ None }
        ensures spilled { Spilled 1 (both_places O.seen E.seen self.old) (both_places O.seen E.seen self.new)
            waiting.old.items waiting.new.items }
        ensures empty { waiting.new.items ≡ [] }
        ensures writes { TracedWrote D.keeps D.seen O.seen E.seen self.old self.new }
    {
        if self.err.put(waiting) {
            self.broken = Some(1);
            self.out.forget_dropped();
        }
    }

    /// Drops the output that waits, behind a failed write.
    fn drop_out(&mut self, waiting: &mut Vec<u8>)
        requires { is_some self.old.broken ≡ true }
        ensures spilled { Spilled 0 (both_places O.seen E.seen self.old) (both_places O.seen E.seen self.new)
            waiting.old.items waiting.new.items }
        ensures empty { waiting.new.items ≡ [] }
        ensures writes { TracedWrote D.keeps D.seen O.seen E.seen self.old self.new }
    {
        self.out.drop_all(waiting);
    }

    /// Drops the trace that waits, behind a failed write.
    fn drop_err(&mut self, waiting: &mut Vec<u8>)
        requires { is_some self.old.broken ≡ true }
        ensures spilled { Spilled 1 (both_places O.seen E.seen self.old) (both_places O.seen E.seen self.new)
            waiting.old.items waiting.new.items }
        ensures empty { waiting.new.items ≡ [] }
        ensures writes { TracedWrote D.keeps D.seen O.seen E.seen self.old self.new }
    {
        self.err.drop_all(waiting);
    }
}

impl<D: Source, O: Sink, E: Sink> Outside for TracedPorts<D, O, E> {
    ghost use Rattle.std.specs.Prelude.{◌≡◌, ◌<◌, ℕ};
    ghost use Rattle.std.proofs.Common.{◌∙◌, ap, refl};
    ghost use Rattle.outside.specs.Ports.{fewer_wait, most_by, ports_on, ports_same, source_same};
    ghost use Rattle.outside.specs.TracedPorts.{TracedWrote, both_places, none_dropped_there};

    ghost source = { λ w. D.seen w.doc };

    ghost tells = { λ w. Unit {0} };

    ghost sinks = { λ w. both_places O.seen E.seen w };

    ghost broken = { λ w. w.broken };

    ghost may = { λ w place. place < 2 };

    ghost most = { λ w. most_by w.most };

    ghost keeps = { λ a b. D.keeps a.doc b.doc × (b.most ≡ a.most) };

    ghost writes = { λ a b. TracedWrote D.keeps D.seen O.seen E.seen a b };

    fn read(&mut self, buf: &mut [u8]) -> Result<usize, Failed> {
        self.doc.read(buf)
    }

    fn spill(&mut self, place: usize, waiting: &mut Vec<u8>, all: bool) {
        if self.broken.is_some() {
            if place == 0 {
                self.drop_out(waiting);
                return;
            }
            self.drop_err(waiting);
            return;
        }
        if !all && waiting.len() <= self.most {
            return;
        }
        if place == 0 {
            self.put_out(waiting);
            return;
        }
        self.put_err(waiting);
    }

    fn may_wait(&self, count: usize) -> bool {
        count <= self.most
    }

    fn is_broken(&self) -> bool {
        self.broken.is_some()
    }

    ghost keeps_same = { λ s. (D.keeps_same s.doc, refl) };

    ghost keeps_on = { λ a b c k l. (D.keeps_on a.doc b.doc c.doc k.0 l.0, l.1 ∙ k.1) };

    ghost keeps_may = { λ a b place k may. may };

    ghost keeps_most = { λ a b all k. ap (λ (m : ℕ). most_by m all) k.1 };

    ghost keeps_tells = { λ a b k tells. tt };

    ghost writes_same = { λ s. ports_same (D.keeps s.doc s.doc) (D.keeps_same s.doc) (D.seen s.doc) s.most s.broken
        (both_places O.seen E.seen s) };

    ghost writes_on = { λ a b c. ports_on (D.keeps a.doc b.doc) (D.keeps b.doc c.doc) (D.keeps a.doc c.doc) (D.keeps_on a.doc b.doc c.doc)
        (D.seen a.doc) (D.seen b.doc) (D.seen c.doc) a.most b.most c.most a.broken b.broken c.broken
        (both_places O.seen E.seen a) (both_places O.seen E.seen b) (both_places O.seen E.seen c)
        (none_dropped_there a.broken (O.seen a.out.sink) a.out.dropped.bytes (E.seen a.err.sink) a.err.dropped.bytes)
        (none_dropped_there b.broken (O.seen b.out.sink) b.out.dropped.bytes (E.seen b.err.sink) b.err.dropped.bytes) };

    ghost writes_keeps = { λ a b k. (k.kept, k.most_is) };

    ghost writes_source = { λ a b k. source_same (D.seen a.doc) (D.seen b.doc) k.source };

    ghost writes_wrote = { λ a b k. k.wrote };

    ghost whole_drops = { λ s place e. none_dropped_there s.broken (O.seen s.out.sink) s.out.dropped.bytes (E.seen s.err.sink)
        s.err.dropped.bytes place e };

    ghost most_less = { λ s n few. fewer_wait s.most n few };
}
