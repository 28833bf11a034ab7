ghost use Rattle.std.specs.Prelude.{◌≡◌, false};

use crate::outlet::Outlet;
use crate::outside::Outside;
use gcx_io::{Failed, Sink, Source};

/// A source, and one sink, to which the output of place 0 goes.
#[derive(Drop)]
pub struct Ports<D: Source, O: Sink> {
    pub doc: D,
    pub out: Outlet<O>,
    /// So many bytes may wait.
    pub most: usize,
    /// Whether a write failed.
    pub failed: bool,
}

impl<D: Source, O: Sink> Ports<D, O> {
    /// No write failed yet, and so many bytes may wait.
    pub fn new(doc: D, sink: O, most: usize) -> Ports<D, O>
        ensures doc { result.doc ≡ doc }
        ensures sink { result.out.sink ≡ sink }
        ensures most { result.most ≡ most }
        ensures whole { result.failed ≡ false }
    {
        Ports {
            doc,
            out: Outlet::new(sink),
            most,
            failed: false,
        }
    }
}

impl<D: Source, O: Sink> Outside for Ports<D, O> {
    ghost use Rattle.std.specs.Prelude.{◌≡◌, ℕ};
    ghost use Rattle.std.proofs.Common.{◌∙◌, ap, refl};
    ghost use Rattle.outside.specs.Ports.{PortsWrote, broken_by, fewer_wait, most_by, none_dropped, one_place, ports_on, ports_same, source_same};

    ghost source = { λ w. D.seen w.doc };

    ghost tells = { λ w. Unit {0} };

    ghost sinks = { λ w. one_place w.failed (O.seen w.out.sink) w.out.dropped.bytes };

    ghost broken = { λ w. broken_by w.failed };

    ghost may = { λ w place. place ≡ 0 };

    ghost most = { λ w. most_by w.most };

    ghost keeps = { λ a b. D.keeps a.doc b.doc × (b.most ≡ a.most) };

    ghost writes = { λ a b. PortsWrote (D.keeps a.doc b.doc) (D.seen a.doc) (D.seen b.doc) a.most b.most (broken_by a.failed) (broken_by b.failed)
        (one_place a.failed (O.seen a.out.sink) a.out.dropped.bytes) (one_place b.failed (O.seen b.out.sink) b.out.dropped.bytes) };

    fn read(&mut self, buf: &mut [u8]) -> Result<usize, Failed> {
        self.doc.read(buf)
    }

    fn spill(&mut self, place: usize, waiting: &mut Vec<u8>, all: bool) {
        if self.failed {
            self.out.drop_all(waiting);
            return;
        }
        if !all && waiting.len() <= self.most {
            return;
        }
        self.failed = self.out.put(waiting);
    }

    fn may_wait(&self, count: usize) -> bool {
        count <= self.most
    }

    fn is_broken(&self) -> bool {
        self.failed
    }

    ghost keeps_same = { λ s. (D.keeps_same s.doc, refl) };

    ghost keeps_on = { λ a b c k l. (D.keeps_on a.doc b.doc c.doc k.0 l.0, l.1 ∙ k.1) };

    ghost keeps_may = { λ a b place k may. may };

    ghost keeps_most = { λ a b all k. ap (λ (m : ℕ). most_by m all) k.1 };

    ghost keeps_tells = { λ a b k tells. tt };

    ghost writes_same = { λ s. ports_same (D.keeps s.doc s.doc) (D.keeps_same s.doc) (D.seen s.doc) s.most (broken_by s.failed)
        (one_place s.failed (O.seen s.out.sink) s.out.dropped.bytes) };

    ghost writes_on = { λ a b c. ports_on (D.keeps a.doc b.doc) (D.keeps b.doc c.doc) (D.keeps a.doc c.doc) (D.keeps_on a.doc b.doc c.doc)
        (D.seen a.doc) (D.seen b.doc) (D.seen c.doc) a.most b.most c.most (broken_by a.failed) (broken_by b.failed) (broken_by c.failed)
        (one_place a.failed (O.seen a.out.sink) a.out.dropped.bytes) (one_place b.failed (O.seen b.out.sink) b.out.dropped.bytes)
        (one_place c.failed (O.seen c.out.sink) c.out.dropped.bytes)
        (none_dropped a.failed (O.seen a.out.sink) a.out.dropped.bytes) (none_dropped b.failed (O.seen b.out.sink) b.out.dropped.bytes) };

    ghost writes_keeps = { λ a b k. (k.kept, k.most_is) };

    ghost writes_source = { λ a b k. source_same (D.seen a.doc) (D.seen b.doc) k.source };

    ghost writes_wrote = { λ a b k. k.wrote };

    ghost whole_drops = { λ s place e. none_dropped s.failed (O.seen s.out.sink) s.out.dropped.bytes place e };

    ghost most_less = { λ s n few. fewer_wait s.most n few };
}
