ghost use Rattle.std.specs.Prelude.{◌≡◌, ◌<◌, []};
ghost use Rattle.gcx_io.specs.Tallies.{no_calls};

use crate::calls::Calls;
use crate::moving::move_front;
use crate::{Failed, Source};
use call_history::History;
use std::marker::Model;

/// Bytes that are read in small pieces, with calls that fail.
#[derive(Drop)]
pub struct MemSource {
    bytes: Vec<u8>,
    at: usize,
    most: usize,
    calls: Calls,
    history: History,
}

impl Model for MemSource {
    ghost use Rattle.std.specs.Prelude.{drop, length, ◌≤◌, ◌<◌};
    ghost use Rattle.gcx_io.specs.MemSource.{SourceState};

    ghost Value = { SourceState };

    ghost view = { λ s. record
        { left = drop s.at s.bytes.items; most = s.most; calls = s.calls; history = s.history.calls } };

    ghost invariant = { λ s. (s.at ≤ length s.bytes.items) × (0 < s.most) };
}

impl MemSource {
    /// All of the bytes are left. One call moves at most `most` of them, and the calls whose numbers, from 1,
    /// are in `fails` fail.
    pub fn new(bytes: Vec<u8>, most: usize, fails: Vec<u64>) -> MemSource
        requires { 0 < most }
        ensures { result ≡ record { left = bytes.items; most = most; calls = no_calls fails.items; history = [] } }
    {
        MemSource {
            bytes,
            at: 0,
            most,
            calls: Calls::new(fails),
            history: History::new(),
        }
    }
}

impl Source for MemSource {
    ghost use Rattle.std.specs.Prelude.{◌≡◌, ◌↔◌, ◌<◌, ◌++◌, Some, IsErr, IfOk, OnErr, length, take, drop, min, refl};
    ghost use Rattle.std.specs.Io.{ReadsAtMost};
    ghost use Rattle.gcx_io.specs.Tallies.{IsToFail, CountsCall};
    ghost use Rattle.gcx_io.specs.MemSource.{told_left, source_faults, source_seen};
    ghost use Rattle.gcx_io.specs.Calls.{ReadsSource};

    ghost left = { told_left };

    ghost faults = { source_faults };

    ghost calls = { λ s. s.history };

    ghost seen = { source_seen };

    ghost sees = { λ _. refl };

    ghost keeps = { λ _ _. Unit {0} };

    ghost keeps_same = { λ _. tt };

    ghost keeps_on = { λ _ _ _ _ _. tt };

    fn read(&mut self, buf: &mut [u8]) -> Result<usize, Failed>
        requires { 0 < length buf.old }
        ensures bound { ReadsAtMost result buf.new }
        ensures count { IfOk result (λ n. n ≡ min (min (length self.old.left) (length buf.old)) self.old.most) }
        ensures moved { IfOk result (λ n. buf.new ≡ take n self.old.left ++ drop n buf.old) }
        ensures unmoved { OnErr result (buf.new ≡ buf.old) }
        ensures failed { IsErr result ↔ IsToFail self.old.calls }
        ensures calls { CountsCall self.old.calls self.new.calls result }
        ensures most { self.new.most ≡ self.old.most }
        ensures reads { ReadsSource (source_seen self.old) (source_seen self.new) result buf.new }
    {
        if self.calls.is_failing() {
            self.history.failed(buf);
            return Err(Failed);
        }
        let count = move_front(&self.bytes[self.at..], buf, self.most);
        self.at += count;
        self.history.gave(buf, count);
        Ok(count)
    }
}
