ghost use Rattle.std.specs.Prelude.{◌≡◌, ◌≤◌, ◌↔◌, IsTrue, MatchBool};
ghost use Rattle.gcx_io.specs.Tallies.{IsToFail, no_calls, passed, call_failed};

use std::marker::Model;

/// The calls of an object in memory, some of which are to fail. They are numbered from 1.
#[derive(Drop)]
pub(crate) struct Calls {
    fails: Vec<u64>,
    made: u64,
    faults: u64,
}

impl Model for Calls {
    ghost use Rattle.gcx_io.specs.Tallies.{Tally};

    ghost Value = { Tally };

    ghost view = { λ c. record { fails = c.fails.items; made = c.made; faults = c.faults } };
}

impl Calls {
    /// No call was made yet, and those of these numbers are to fail.
    pub fn new(fails: Vec<u64>) -> Calls
        ensures { result ≡ no_calls fails.items }
    {
        Calls {
            fails,
            made: 0,
            faults: 0,
        }
    }

    /// Counts a call that doesn't fail by its number.
    pub fn pass(&mut self)
        ensures { self.new ≡ passed self.old }
    {
        self.made = self.made.saturating_add(1);
    }

    /// Counts a call that fails whatever its number is.
    pub fn fail(&mut self)
        ensures calls { self.new ≡ call_failed self.old }
        ensures later { self.old.faults ≤ self.new.faults }
    {
        self.made = self.made.saturating_add(1);
        self.faults = self.faults.saturating_add(1);
    }

    /// Counts a call, and says whether it is to fail. Its fault is counted elsewhere.
    pub fn is_due(&mut self) -> bool
        ensures which { IsTrue result ↔ IsToFail self.old }
        ensures calls { self.new ≡ passed self.old }
    {
        self.made = self.made.saturating_add(1);
        self.fails.contains(&self.made)
    }

    /// Counts a call, and a fault where it is to fail, and says whether it is.
    pub fn is_failing(&mut self) -> bool
        ensures which { IsTrue result ↔ IsToFail self.old }
        ensures calls { MatchBool result (self.new ≡ call_failed self.old) (self.new ≡ passed self.old) }
        ensures later { self.old.faults ≤ self.new.faults }
    {
        self.made = self.made.saturating_add(1);
        let fails = self.fails.contains(&self.made);
        if fails {
            self.faults = self.faults.saturating_add(1);
        }
        fails
    }
}
