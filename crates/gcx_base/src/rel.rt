/// A general comparison: `=`, `!=`, `<`, `<=`, `>`, `>=` (XQuery 1.0, section 3.5.2).
#[derive(Clone, Copy, Debug, PartialEq, Eq)]
pub enum Rel {
    Eq,
    Ne,
    Lt,
    Le,
    Gt,
    Ge,
}
