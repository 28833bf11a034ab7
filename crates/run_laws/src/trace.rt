ghost use Rattle.run_laws.specs.Trace.{OneDemandRun, EventsAreReached, TraceByEvents, OneTelling, PeakIsGreatest};

/// There is one demand run over tokens each of which may come.
pub fn one_demand_run()
    ensures { OneDemandRun }
{}

/// The events of the demand run go from core states to core states.
pub fn events_are_reached()
    ensures { EventsAreReached }
{}

/// The trace tells of the document node, and then of each event of the demand run.
pub fn trace_by_events()
    ensures { TraceByEvents }
{}

/// Events are told by one list of lines.
pub fn one_telling()
    ensures { OneTelling }
{}

/// The peak is reached in the opening state or behind some token, and never passed.
pub fn peak_is_greatest()
    ensures { PeakIsGreatest }
{}
