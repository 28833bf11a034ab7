ghost use Rattle.run_laws.specs.Going.{KnownGoesOn, TraceGoesOn, PeakGoesOn};

/// Where an open tree grows, what is settled only goes on.
pub fn known_goes_on()
    ensures { KnownGoesOn }
{}

/// Where an open tree grows, the trace of the demand run only goes on.
pub fn trace_goes_on()
    ensures { TraceGoesOn }
{}

/// Where an open tree grows, the peak of the demand run doesn't fall.
pub fn peak_goes_on()
    ensures { PeakGoesOn }
{}
