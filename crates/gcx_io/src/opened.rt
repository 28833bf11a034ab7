ghost use Rattle.std.specs.Prelude.{◌≡◌, ◌<◌};

use crate::{Failed, Handle, Shelf, Source};

/// One attached file of a shelf, read as a source.
#[derive(Drop)]
pub struct Opened<'a, F: Shelf> {
    pub files: &'a mut F,
    pub handle: Handle,
    ghost given: { handle.0 < F.handles files.now },
}

impl<'a, F: Shelf> Opened<'a, F> {
    /// The source of a handle that the shelf gave.
    pub fn new(files: &'a mut F, handle: Handle) -> Opened<'a, F>
        requires { handle.0 < F.handles files.old }
        ensures same_reference { result.files.ghost_name ≡ files.entry.ghost_name }
        ensures same { result.files.now ≡ files.old }
        ensures handle { result.handle ≡ handle }
    {
        Opened { files, handle }
    }
}

impl<'a, F: Shelf> Source for Opened<'a, F> {
    ghost use Rattle.std.specs.Prelude.{◌≡◌, refl};
    ghost use Rattle.gcx_io.specs.Views.{calls_at};
    ghost use Rattle.std.proofs.Common.{◌∙◌};
    ghost use Rattle.gcx_io.specs.Opened.{KeepsShelf, KeepsOthers, keeps_shelf_same, keeps_shelf_on, keeps_others_same, keeps_others_on};

    ghost left = { λ o. F.left o.files.now o.handle.0 };

    ghost faults = { λ o. F.faults o.files.now };

    ghost calls = { λ o. calls_at (F.given o.files.now) o.handle.0 };

    ghost seen = { λ o. record {
      calls = calls_at (F.given o.files.now) o.handle.0;
      left = F.left o.files.now o.handle.0;
      faults = F.faults
          o.files.now;
    } };

    ghost keeps = { λ a b. (a.files.ghost_name ≡ b.files.ghost_name)
        × KeepsShelf (F.names a.files.now) (F.names b.files.now) (F.handles a.files.now) (F.handles b.files.now)
        (F.left a.files.now) (F.left b.files.now) a.handle.0 b.handle.0
        × KeepsOthers (F.named a.files.now) (F.named b.files.now) (F.seen a.files.now) (F.seen b.files.now)
        a.handle.0 };

    ghost keeps_same = { λ s. (
      refl,
      keeps_shelf_same (F.names s.files.now) (F.handles s.files.now) (F.left s.files.now) s.handle.0,
      keeps_others_same (F.named s.files.now) (F.seen s.files.now) s.handle.0,
    ) };

    ghost keeps_on = { λ a b c first second. (
      first.0 ∙ second.0,
      keeps_shelf_on (F.names a.files.now) (F.names b.files.now) (F.names c.files.now)
          (F.handles a.files.now) (F.handles b.files.now) (F.handles c.files.now)
          (F.left a.files.now) (F.left b.files.now) (F.left c.files.now) a.handle.0 b.handle.0 c.handle.0 first.1
          second.1,
      keeps_others_on (F.named a.files.now) (F.named b.files.now) (F.named c.files.now)
          (F.seen a.files.now) (F.seen b.files.now) (F.seen c.files.now) a.handle.0 b.handle.0 first.1.handle first.2
          second.2,
    ) };

    ghost sees = { λ _. refl };

    fn read(&mut self, buf: &mut [u8]) -> Result<usize, Failed> {
        self.files.read(self.handle, buf)
    }
}
