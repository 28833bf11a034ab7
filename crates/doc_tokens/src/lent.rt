ghost use Rattle.std.specs.Prelude.{◌≡◌, length, IfOk};
ghost use Rattle.doc_tokens.specs.Given.{given_token};
ghost use Rattle.doc_tokens.specs.Parts.{lent_token, LiesWithin};

use crate::token::Token;
use gcx_base::{Memory, Name, Text};
use std::alloc::Global;

/// A token that is lent: its name or text is the part from one place to another of the bytes that are lent with it.
#[derive(Clone, Copy, Debug)]
pub enum Lent {
    /// An element begins.
    Start(usize, usize),
    /// All text between two tags, where it isn't only white space.
    Text(usize, usize),
    /// The innermost element that is open ends.
    End,
}

impl Lent {
    /// The token with a name or text of its own.
    #[inline(always)]
    pub fn owned(self, alloc: Global, bytes: &[u8]) -> Result<Token, Memory>
        requires { LiesWithin 0 (length bytes.now) bytes.now self }
        ensures { IfOk result (λ t. t ≡ given_token (lent_token bytes.now self)) }
    {
        match self {
            Lent::Start(from, to) => {
                let name = &bytes[from..to];
                Ok(Token::Start(Name::of_name(alloc, name)?))
            }
            Lent::Text(from, to) => {
                let text = &bytes[from..to];
                Ok(Token::Text(Text::of_text(alloc, text)?))
            }
            Lent::End => Ok(Token::End),
        }
    }
}
