ghost use Rattle.placed_laws.specs.Normal.{NormalIsGood, NormalLaw, KnownIsFront};

/// The core of a query is one for which the laws hold.
pub fn normal_is_good()
    ensures { NormalIsGood }
{}

/// Over a whole document the core of a sound query writes the query's answer.
pub fn normal_law()
    ensures { NormalLaw }
{}

/// What is settled is a front of the answer over each document that the open tree becomes.
pub fn known_is_front()
    ensures { KnownIsFront }
{}
