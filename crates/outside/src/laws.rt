ghost use Rattle.outside.specs.Laws.{FaultsOnlyRise, NextWriteOwed, OnlyMoreTaken, WritesFollow};

/// A sink that stopped before the next bytes of a text owes the rest of it.
pub fn next_write_owed()
    ensures { NextWriteOwed }
{}

/// What some calls that write do, and then more of them, is what all of them do.
pub fn writes_follow()
    ensures { WritesFollow }
{}

/// Each place took what it had taken, and maybe more.
pub fn only_more_taken()
    ensures { OnlyMoreTaken }
{}

/// No count of faults falls.
pub fn faults_only_rise()
    ensures { FaultsOnlyRise }
{}
