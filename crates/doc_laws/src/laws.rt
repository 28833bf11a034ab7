ghost use Rattle.doc_laws.specs.Laws.{OneDocument, SpelledIsDocument, FrontsAreViable, ViableIsFront, StepsAreFronts, JudgedIsFirst, OneFault, SomeFault, FaultStays, OneSeen, SomeSeen, SeenIsClosed, NamesComeOnce, OnlyChars, SeenIsLongest, SeenComes, SeenGrew, SeenIsNamed, SeenGoesOn, LimitsInWords, NoFaultInWords};

/// A text spells at most one document.
pub fn one_document()
    ensures { OneDocument }
{}

/// What is spelled has one root, names, and texts that are neither blank nor neighbours.
pub fn spelled_is_document()
    ensures { SpelledIsDocument }
{}

/// Every front of a document can go on to one.
pub fn fronts_are_viable()
    ensures { FrontsAreViable }
{}

/// What can go on to a document is a front of one.
pub fn viable_is_front()
    ensures { ViableIsFront }
{}

/// The machine reads exactly the fronts of documents, each to its state.
pub fn steps_are_fronts()
    ensures { StepsAreFronts }
{}

/// With limits it answers the fault that comes first, or none comes.
pub fn judged_is_first()
    ensures { JudgedIsFirst }
{}

/// Bytes have at most one fault.
pub fn one_fault()
    ensures { OneFault }
{}

/// All bytes have a fault, or have none.
pub fn some_fault()
    ensures { SomeFault }
{}

/// A fault stays with more bytes.
pub fn fault_stays()
    ensures { FaultStays }
{}

/// In all bytes tokens are seen.
pub fn some_seen()
    ensures { SomeSeen }
{}

/// What is seen in bytes is one list of tokens.
pub fn one_seen()
    ensures { OneSeen }
{}

/// The longest front that ends with a tag, closed by end tags, spells a document with the tokens that are seen.
pub fn seen_is_closed()
    ensures { SeenIsClosed }
{}

/// A name that came before in its tag makes a fault where a character ends it.
pub fn names_come_once()
    ensures { NamesComeOnce }
{}

/// A character that is no Char makes a fault.
pub fn only_chars()
    ensures { OnlyChars }
{}

/// The tags seen are those of the longest front of the bytes that has no fault and ends with a tag, closed by end tags.
pub fn seen_is_longest()
    ensures { SeenIsLongest }
{}

/// The tokens that are seen may come one by one.
pub fn seen_comes()
    ensures { SeenComes }
{}

/// Their tree grew from the opening one.
pub fn seen_grew()
    ensures { SeenGrew }
{}

/// Each start that is seen has a name.
pub fn seen_is_named()
    ensures { SeenIsNamed }
{}

/// More bytes give more tokens.
pub fn seen_goes_on()
    ensures { SeenGoesOn }
{}

/// A whole document is within limits exactly where its names, runs and values are short and its elements aren't too deep.
pub fn limits_in_words()
    ensures { LimitsInWords }
{}

/// Bytes that spell a document have no fault exactly where they are few enough and the document is within limits.
pub fn no_fault_in_words()
    ensures { NoFaultInWords }
{}
