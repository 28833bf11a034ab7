ghost use Rattle.std.specs.Prelude.{◌≡◌, ◌++◌, ◌∷◌, [], OnOk, OnErr};

use crate::Sign;
use gcx_base::{Memory, Name, Text};
use std::alloc::Global;
use std::marker::Model;

/// What a token is.
#[derive(Drop, Debug)]
pub enum TokKind {
    Name(Name),
    /// A variable, with its name without the `$`.
    Var(Name),
    /// A number in units of 10^-18.
    Number(i128),
    /// A string's value.
    Str(Text),
    Sign(Sign),
}

/// A token, which stands at the bytes from `from` up to `to`, without the latter.
#[derive(Drop, Debug)]
pub struct Tok {
    pub kind: TokKind,
    pub from: u64,
    pub to: u64,
}

/// The tokens of a query, seen as their list.
#[derive(Drop, Debug)]
pub struct Tokens {
    tokens: Vec<Tok>,
}

impl Model for Tokens {
    ghost use Rattle.std.specs.Prelude.{List};
    ghost use Rattle.xq_lex.specs.declared.token.Tok.{Tok};

    ghost Value = { List Tok };

    ghost view = { λ t. t.tokens.items };
}

impl Tokens {
    pub(crate) fn new(alloc: Global) -> Tokens
        ensures { result ≡ [] }
    {
        Tokens {
            tokens: Vec::new(alloc),
        }
    }

    pub(crate) fn push(&mut self, token: Tok) -> Result<(), Memory>
        ensures ok { OnOk result (self.new ≡ self.old ++ token ∷ []) }
        ensures err { OnErr result (self.new ≡ self.old) }
    {
        self.tokens.push(token)?;
        Ok(())
    }

    /// All of them, in order.
    pub fn items(&self) -> &[Tok]
        ensures { result.now ≡ self.now }
    {
        &self.tokens
    }
}
