ghost use Rattle.time_laws.specs.Laws.{TraceByTimes, TraceBeforeTokens};

/// The lines of the demand run are told by the times alone.
pub fn trace_by_times()
    ensures { TraceByTimes }
{}

/// The lines before any token are told as though the document's end came next.
pub fn trace_before_tokens()
    ensures { TraceBeforeTokens }
{}
