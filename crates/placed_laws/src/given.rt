ghost use Rattle.placed_laws.specs.Lasting.{GivenStays};

/// What a node was given stays as it is while tokens come.
pub fn given_stays()
    ensures { GivenStays }
{}
