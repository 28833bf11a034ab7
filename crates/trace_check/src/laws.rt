ghost use Rattle.trace_check.specs.Accepting.{TracesAreAccepted};

/// What a run with a trace wrote of it, where the document was whole, is judged with yes.
pub fn traces_are_accepted()
    ensures { TracesAreAccepted }
{}
