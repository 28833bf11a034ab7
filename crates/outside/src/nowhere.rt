ghost use Rattle.std.specs.Prelude.{◌≡◌, []};

use crate::outside::Outside;
use gcx_io::{Failed, Source, SureSource};
use std::alloc::Global;
use std::marker::Model;

/// Where nothing is written, so that any number of bytes wait, and nothing is left to read.
#[derive(Drop)]
pub struct Nowhere {
    source: SureSource,
}

impl Model for Nowhere {
    ghost use Rattle.gcx_io.specs.SureSource.{SureSourceState};

    ghost Value = { SureSourceState };

    ghost view = { λ w. w.source };
}

impl Nowhere {
    /// Nothing was read yet.
    pub fn new(alloc: Global) -> Nowhere
        ensures { result ≡ record { left = []; history = [] } }
    {
        Nowhere {
            source: SureSource::new(Vec::new(alloc)),
        }
    }
}

impl Outside for Nowhere {
    ghost use Rattle.std.specs.Prelude.{◌≡◌, None};
    ghost use Rattle.std.proofs.Common.{◌∙◌, ap, refl};
    ghost use Rattle.gcx_io.specs.SureSource.{sure_source_seen};
    ghost use Rattle.outside.specs.Follows.{wrote_none};
    ghost use Rattle.outside.specs.Ports.{nothing_there, source_same};

    ghost source = { sure_source_seen };

    ghost tells = { λ w. Unit {0} };

    ghost sinks = { λ w i. nothing_there };

    ghost broken = { λ w. None };

    ghost may = { λ w place. Unit {0} };

    ghost most = { λ w all. None };

    ghost keeps = { λ a b. Unit {0} };

    ghost writes = { λ a b. b ≡ a };

    fn read(&mut self, buf: &mut [u8]) -> Result<usize, Failed> {
        self.source.read(buf)
    }

    fn spill(&mut self, place: usize, waiting: &mut Vec<u8>, all: bool) {}

    fn may_wait(&self, count: usize) -> bool {
        true
    }

    fn is_broken(&self) -> bool {
        false
    }

    ghost keeps_same = { λ s. tt };

    ghost keeps_on = { λ a b c k l. tt };

    ghost keeps_may = { λ a b place k may. tt };

    ghost keeps_most = { λ a b all k. refl };

    ghost keeps_tells = { λ a b k tells. tt };

    ghost writes_same = { λ s. refl };

    ghost writes_on = { λ a b c k l. l ∙ k };

    ghost writes_keeps = { λ a b k. tt };

    ghost writes_source = { λ a b k. source_same (sure_source_seen a) (sure_source_seen b) (ap sure_source_seen k) };

    ghost writes_wrote = { λ a b k. wrote_none None (λ i. nothing_there) };

    ghost whole_drops = { λ s place e. refl };

    ghost most_less = { λ s n few. tt };
}
