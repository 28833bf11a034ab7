//! Laws on a buffer that makes the rows of open elements late. Each is the contract of a function that does nothing: who
//! calls it knows the law.
ghost use Rattle.buf_tree.specs.Loose.{PassesElement, PassesText, EndsPassed, SettlesOne, SettlesNone, LastIsInnermost, RowsRise, OneRowMore, RowThere};

/// An element that is given no role is passed.
pub fn passes_element()
    ensures { PassesElement }
{}

/// A text that is given no role is gone at once.
pub fn passes_text()
    ensures { PassesText }
{}

/// The end of the innermost passed element takes its row away, and no other.
pub fn ends_passed()
    ensures { EndsPassed }
{}

/// The row of the outermost passed element may be made, at any place.
pub fn settles_one()
    ensures { SettlesOne }
{}

/// With no element passed nothing is loose.
pub fn settles_none()
    ensures { SettlesNone }
{}

/// Of rows in document order the last open one is that of the innermost open node.
pub fn last_is_innermost()
    ensures { LastIsInnermost }
{}

/// The rows of a view that stands loosely are in document order and below the number of nodes, those that are still to
/// come too.
pub fn rows_rise()
    ensures { RowsRise }
{}

/// With one passed element more there is one row more, the last one.
pub fn one_row_more()
    ensures { OneRowMore }
{}

/// While a node is open, one of the rows that are there is open.
pub fn row_there()
    ensures { RowThere }
{}
