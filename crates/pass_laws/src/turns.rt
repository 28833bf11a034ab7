ghost use Rattle.pass_laws.specs.Turns.{RoundsPass, LastRoundsPass};

/// Behind a round a loop goes on with any later match before which its body does nothing.
pub fn rounds_pass()
    ensures { RoundsPass }
{}

/// Behind a round a loop is over where its body does nothing at any later match and no more come.
pub fn last_rounds_pass()
    ensures { LastRoundsPass }
{}
