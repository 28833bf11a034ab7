ghost use Rattle.run_laws.specs.Peaks.{PeakStep, HeldCounts, PeakWithin};

/// The peak behind one token more.
pub fn peak_step()
    ensures { PeakStep }
{}

/// How many nodes are held behind a token, and behind actions.
pub fn held_counts()
    ensures { HeldCounts }
{}

/// Where actions are taken late, the nodes held are at least the peak, and more than it by fewer than the tokens.
pub fn peak_within()
    ensures { PeakWithin }
{}
