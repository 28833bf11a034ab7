//! Where in the grammar the machine stands.
ghost use Rattle.std.specs.Prelude.{◌≡◌, true, false, MatchOption};
ghost use Rattle.gcx_model.specs.Attributes.{is_quote};
ghost use Rattle.doc_machine.specs.Machine.{quote_of};

use crate::referring::Referring;

/// Where in the grammar the machine stands; in a word that is known, behind how many of its bytes.
#[derive(Clone, Copy, Debug)]
pub enum Mode {
    /// Before the first character.
    Opening,
    /// Between two tags, or outside the root.
    Between,
    /// Behind `<`.
    Less,
    StartName,
    /// White space in a start tag.
    StartSpace,
    AttributeName,
    AttributeSpace,
    /// Behind `=`.
    Equals,
    /// In a value between quotes of this kind.
    InValue(Quote),
    InValueReference(Quote, Referring),
    ValueEnd,
    /// Behind the `/` of an empty-element tag.
    Slash,
    /// Behind so many bytes of the innermost element's name.
    EndName(usize),
    EndSpace,
    /// Behind `<?`.
    Question,
    /// The name of a processing instruction.
    Target,
    /// Behind a `?` directly behind that name.
    TargetMark,
    /// In a processing instruction.
    Instruction,
    /// Behind a `?` in a processing instruction.
    InstructionMark,
    /// Behind `<!D` and so many characters.
    DocWord(usize),
    DocSpace,
    /// In a document type declaration.
    Doc,
    DocLiteral(char),
    /// Behind `<!`.
    Bang,
    BangDash,
    Comment,
    CommentDash,
    CommentEnd,
    /// Behind `<![` and so many characters.
    CDSectWord(usize),
    /// In a CDATA section, behind so many brackets, up to two.
    CDSect(Brackets),
    InReference(Referring),
}

/// How many brackets were read last in a CDATA section.
#[derive(Clone, Copy, Debug)]
pub enum Brackets {
    None,
    One,
    /// At least two.
    Two,
}

/// A quote of either kind.
#[derive(Clone, Copy, Debug)]
pub enum Quote {
    Single,
    Double,
}

impl Quote {
    /// The quote that is this character.
    #[inline(always)]
    pub fn of(c: char) -> Option<Quote>
        ensures { MatchOption result (is_quote c ≡ false) (λ q. (is_quote c ≡ true) × (quote_of q ≡ c)) }
    {
        match c {
            '\'' => Some(Quote::Single),
            '"' => Some(Quote::Double),
            _ => None,
        }
    }

    /// The quote as a byte.
    #[inline(always)]
    pub fn byte(self) -> u8
        ensures { result ≡ quote_of self }
    {
        match self {
            Quote::Single => b'\'',
            Quote::Double => b'"',
        }
    }
}
