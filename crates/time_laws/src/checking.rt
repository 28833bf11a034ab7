ghost use Rattle.time_laws.specs.Checking.{LineEnds, OneAnswer};

/// A text of lines has as many line ends as lines.
pub fn line_ends_law()
    ensures { LineEnds }
{}

/// Of the same bytes no two answers are given, but for want of memory.
pub fn one_answer()
    ensures { OneAnswer }
{}
