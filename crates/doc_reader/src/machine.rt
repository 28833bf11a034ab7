//! The machine that reads characters.
ghost use Rattle.std.specs.Prelude.{◌≡◌, ◌+◌, ◌<◌, ◌≤◌, ◌^◌, length, drop};
ghost use Rattle.std.specs.Str.{chars};
ghost use Rattle.doc_chars.specs.Stream.{AreChars};
ghost use Rattle.doc_laws.specs.Machine.{start, is_whole};
ghost use Rattle.doc_tokens.specs.Parts.{AreLent};
ghost use Rattle.doc_machine.specs.Machine.{scan_state};
ghost use Rattle.doc_reader.specs.Judged.{Judged};

mod read;

use self::read::read;
use doc_machine::{Mode, Scan, Stop};
use doc_tokens::{AttrNames, Lent, OpenNames, Tokens};
use gcx_base::Limits;
use std::alloc::Global;
use std::marker::Model;

/// The machine, seen as the state of its definition.
#[derive(Drop)]
pub(crate) struct Machine {
    scan: Scan,
}

impl Model for Machine {
    ghost use Rattle.doc_laws.specs.Machine.{State};
    ghost use Rattle.doc_machine.specs.Machine.{scan_state};
    ghost use Rattle.doc_machine.specs.Sound.{IsSound};

    ghost Value = { State };

    ghost view = { λ m. scan_state m.scan };

    ghost invariant = { λ m. IsSound (scan_state m.scan) };
}

impl Machine {
    /// A machine that has read nothing.
    pub(crate) fn new(alloc: Global) -> Machine
        ensures { result ≡ start }
    {
        Machine {
            scan: Scan {
                mode: Mode::Opening,
                names: OpenNames::new(alloc),
                rooted: false,
                typed: false,
                name: Vec::new(alloc),
                attrs: AttrNames::new(alloc),
                attr: Vec::new(alloc),
                tokens: Tokens::new(alloc),
            },
        }
    }

    /// Whether a whole document was read.
    pub(crate) fn has_whole(&self) -> bool
        ensures { result ≡ is_whole self.now }
    {
        match self.scan.mode {
            Mode::Between => !self.scan.names.has_open() && self.scan.rooted,
            _ => false,
        }
    }

    /// The tokens of the whole tags, with their bytes.
    #[inline(always)]
    pub(crate) fn lent_whole(&self) -> (&[Lent], &[u8])
        ensures { AreLent result.0.now result.1.now self.now.tokens }
    {
        self.scan.tokens.lent()
    }

    /// Takes so many of them.
    #[inline(always)]
    pub(crate) fn take_whole(&mut self, count: usize)
        requires { count ≤ length self.old.tokens }
        ensures { self.new ≡ record self.old { tokens = drop count self.old.tokens } }
    {
        self.scan.tokens.take(count);
    }

    /// Reads characters, the first of which stands at byte `place` of the document.
    pub(crate) fn read_text(&mut self, limits: Limits, place: u64, text: &str) -> Result<(), Stop>
        requires room { place + length text.now < 2 ^ 64 }
        requires chars { AreChars text.now }
        ensures { Judged result limits place self.old (chars text.now) self.new }
    {
        match read(&mut self.scan, limits, place, text) {
            Ok(()) => Ok(()),
            Err(stop) => {
                // Only the tokens of the whole tags are wanted of it then.
                self.scan.tokens.forget_pending();
                self.scan.mode = Mode::Between;
                Err(stop)
            }
        }
    }
}
