ghost use Rattle.run_laws.specs.Bindings.{LoopVariableFree, RoundVariableFree, PlanActs};

/// The variable of a loop that comes next isn't bound below.
pub fn loop_variable_free()
    ensures { LoopVariableFree }
{}

/// That of a round isn't bound below it.
pub fn round_variable_free()
    ensures { RoundVariableFree }
{}

/// A plan's run isn't over without an action, and until its last one the document node is held.
pub fn plan_acts()
    ensures { PlanActs }
{}
