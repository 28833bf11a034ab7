ghost use Rattle.time_laws.specs.Laws.{RunByTimes, ClockOfTokens, TimesRise};

/// Tokens that leave no node open have a clock.
pub fn clock_of_tokens()
    ensures { ClockOfTokens }
{}

/// At each time the actions of the run over the tokens so far are those that are due.
pub fn run_by_times()
    ensures { RunByTimes }
{}

/// The times of a run's actions never fall.
pub fn times_rise()
    ensures { TimesRise }
{}
