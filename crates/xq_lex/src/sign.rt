ghost use Rattle.std.specs.Prelude.{◌≡◌};
ghost use Rattle.xq_lex.specs.Sign.{begins, less_at, sign_at, slash_at};

/// A token that is written in one way.
#[derive(Clone, Copy, Debug, PartialEq, Eq)]
pub enum Sign {
    /// `(`
    ParenOpen,
    /// `)`
    ParenClose,
    /// `{`
    BraceOpen,
    /// `}`
    BraceClose,
    /// `,`
    Comma,
    /// `/`
    Slash,
    /// `//`
    SlashSlash,
    /// `::`
    Axis,
    /// `*`
    Star,
    /// `=`
    Eq,
    /// `!=`
    Ne,
    /// `<`
    Lt,
    /// `<=`
    Le,
    /// `>`
    Gt,
    /// `>=`
    Ge,
    /// `</`
    EndTag,
    /// `/>`
    EmptyEnd,
}

/// Whether the text begins with this character.
pub(crate) fn begins_with(text: &[char], c: char) -> bool
    ensures { result ≡ begins c text.now }
{
    match text.first() {
        Some(first) => *first == c,
        None => false,
    }
}

fn at_slash(rest: &[char]) -> Sign
    ensures { result ≡ slash_at rest.now }
{
    if begins_with(rest, '/') {
        Sign::SlashSlash
    } else if begins_with(rest, '>') {
        Sign::EmptyEnd
    } else {
        Sign::Slash
    }
}

fn at_less(rest: &[char]) -> Sign
    ensures { result ≡ less_at rest.now }
{
    if begins_with(rest, '=') {
        Sign::Le
    } else if begins_with(rest, '/') {
        Sign::EndTag
    } else {
        Sign::Lt
    }
}

/// The longest sign that the text begins with. A comment's `(:` is none.
pub(crate) fn sign_at(text: &[char]) -> Option<Sign>
    ensures { result ≡ sign_at text.now }
{
    let (first, rest) = text.split_first()?;
    match *first {
        '(' if !begins_with(rest, ':') => Some(Sign::ParenOpen),
        ')' => Some(Sign::ParenClose),
        '{' => Some(Sign::BraceOpen),
        '}' => Some(Sign::BraceClose),
        ',' => Some(Sign::Comma),
        '/' => Some(at_slash(rest)),
        ':' if begins_with(rest, ':') => Some(Sign::Axis),
        '*' => Some(Sign::Star),
        '=' => Some(Sign::Eq),
        '!' if begins_with(rest, '=') => Some(Sign::Ne),
        '<' => Some(at_less(rest)),
        '>' if begins_with(rest, '=') => Some(Sign::Ge),
        '>' => Some(Sign::Gt),
        _ => None,
    }
}
