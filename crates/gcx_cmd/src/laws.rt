//! How commands meet.
ghost use Rattle.gcx_cmd.specs.Accepting.{ChecksEndWell, RunsAreAccepted};
ghost use Rattle.gcx_cmd.specs.ManyAnswers.{ManyWriteAsOne};
ghost use Rattle.gcx_cmd.specs.SelfInput.{SelfrunIsAccepted};

/// What `run --trace` wrote at Ok is judged with yes, of the same query and document.
pub fn runs_are_accepted()
    ensures { RunsAreAccepted }
{}

/// With that trace `check` of the same files ends with Ok, or memory ran out, or a call failed.
pub fn checks_end_well()
    ensures { ChecksEndWell }
{}

/// Of a query that is run by itself and beside others over the same bytes, with the same end, one text is written.
pub fn many_write_as_one()
    ensures { ManyWriteAsOne }
{}

/// The query of `selfrun` is accepted, and the document that is made from any two numbers is spelled and has no fault.
pub fn selfrun_is_accepted()
    ensures { SelfrunIsAccepted }
{}
