ghost use Rattle.pass_laws.specs.ValueLists.{ListsStay, ListsTell};

/// The list of the values of a closed node's matches stays that list while tokens come.
pub fn lists_stay()
    ensures { ListsStay }
{}

/// Look-ups in the list of the outer node's values tell the truth of an equality of two paths.
pub fn lists_tell()
    ensures { ListsTell }
{}
