ghost use Rattle.std.specs.Prelude.{◌≡◌, []};

use crate::moving::move_front;
use crate::{Failed, Source};
use call_history::History;
use std::marker::Model;

/// Bytes that are read without fail, as many in one call as fit.
#[derive(Drop)]
pub struct SureSource {
    bytes: Vec<u8>,
    at: usize,
    history: History,
}

impl Model for SureSource {
    ghost use Rattle.std.specs.Prelude.{drop, length, ◌≤◌};
    ghost use Rattle.gcx_io.specs.SureSource.{SureSourceState};

    ghost Value = { SureSourceState };

    ghost view = { λ s. record { left = drop s.at s.bytes.items; history = s.history.calls } };

    ghost invariant = { λ s. s.at ≤ length s.bytes.items };
}

impl SureSource {
    /// All of the bytes are left.
    pub fn new(bytes: Vec<u8>) -> SureSource
        ensures { result ≡ record { left = bytes.items; history = [] } }
    {
        SureSource {
            bytes,
            at: 0,
            history: History::new(),
        }
    }
}

impl Source for SureSource {
    ghost use Rattle.std.specs.Prelude.{◌≡◌, ◌<◌, ◌++◌, Ok, Some, IfOk, length, take, drop, min, refl};
    ghost use Rattle.std.specs.Io.{ReadsAtMost};
    ghost use Rattle.gcx_io.specs.Calls.{ReadsSource};
    ghost use Rattle.gcx_io.specs.SureSource.{sure_source_seen};

    ghost left = { λ s. Some s.left };

    ghost faults = { λ _. 0 };

    ghost calls = { λ s. s.history };

    ghost seen = { sure_source_seen };

    ghost sees = { λ _. refl };

    ghost keeps = { λ _ _. Unit {0} };

    ghost keeps_same = { λ _. tt };

    ghost keeps_on = { λ _ _ _ _ _. tt };

    fn read(&mut self, buf: &mut [u8]) -> Result<usize, Failed>
        requires { 0 < length buf.old }
        ensures bound { ReadsAtMost result buf.new }
        ensures ok { result ≡ Ok (min (length self.old.left) (length buf.old)) }
        ensures moved { IfOk result (λ n. buf.new ≡ take n self.old.left ++ drop n buf.old) }
        ensures reads { ReadsSource (sure_source_seen self.old) (sure_source_seen self.new) result buf.new }
    {
        let count = move_front(&self.bytes[self.at..], buf, usize::MAX);
        self.at += count;
        self.history.gave(buf, count);
        Ok(count)
    }
}
