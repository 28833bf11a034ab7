/// What is known of a condition over the tokens so far: its effective boolean value (XQuery 1.0, section 2.4.3), or that it
/// isn't settled yet.
#[derive(Clone, Copy, Debug, PartialEq, Eq)]
pub enum Truth {
    True,
    False,
    Unknown,
}
