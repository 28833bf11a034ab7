ghost use Rattle.run_part.specs.Order.{TraceNeverAhead};

/// What was taken of a trace that lies within lines which tell no more bytes than were taken of the output is never ahead
/// of it.
pub fn trace_never_ahead()
    ensures { TraceNeverAhead }
{}
