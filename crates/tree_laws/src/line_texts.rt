ghost use Rattle.tree_laws.specs.LineTexts.{LineByText, LinesByText};

/// The text of a trace's line determines the line.
pub fn line_by_text()
    ensures { LineByText }
{}

/// The text of a trace determines its lines.
pub fn lines_by_text()
    ensures { LinesByText }
{}
