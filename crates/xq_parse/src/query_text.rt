//! A query from its text.
ghost use Rattle.std.specs.Prelude.{◌≡◌, true, Ok, IfOk, IfErr};
ghost use Rattle.gcx_model.specs.Query.{query_trees};
ghost use Rattle.gcx_model.specs.Sound.{is_sound};
ghost use Rattle.gcx_model.specs.Refusals.{UnlessMemory};
ghost use Rattle.xq_parse.specs.Spelling.{QuerySpells};
ghost use Rattle.xq_parse.specs.Faults.{HasOnlyQuery, HasOnlyRefusal, TextFaultOf};
ghost use Rattle.xq_parse.specs.Machine.{deepest, start};
ghost use Rattle.xq_parse.specs.Reading.{Moves, a_found, run};
ghost use Rattle.xq_parse.specs.Answering.{Answers, fault_from, judge_marks, judged, place_at};

use crate::conditions::Parser;
use crate::cursor::{Cursor, MOST};
use crate::marks::Marks;
use crate::refusal::{Refusal, Why};
use crate::scope::Scope;
use gcx_model::{Query, QueryFault, What};
use std::alloc::Global;
use xq_lex::{Tok, lex};

/// A query, and what is wrong with its variables and its steps.
#[derive(Drop)]
pub(crate) struct Draft {
    pub query: Query,
    pub marks: Marks,
}

fn read_tokens(alloc: Global, tokens: &[Tok]) -> Result<Draft, Refusal>
    ensures { Moves (λ d. Ok (a_found d.marks (query_trees d.query))) result (run deepest start tokens.now) }
{
    let mut parser = Parser {
        cursor: Cursor {
            alloc,
            rest: tokens,
        },
        scope: Scope::new(alloc),
        marks: Marks::new(),
    };
    let parts = parser.list(0)?;
    parser.cursor.end()?;
    Ok(Draft {
        query: Query { parts },
        marks: parser.marks,
    })
}

/// Where the token stands with which so many are left, or the end of the text.
fn place_of(tokens: &[Tok], left: usize, end: u64) -> u64
    ensures { result ≡ place_at tokens.now left end }
{
    match tokens.get(tokens.len().saturating_sub(left)) {
        Some(token) => token.from,
        None => end,
    }
}

fn fault_of(refusal: Refusal, tokens: &[Tok], end: u64) -> QueryFault
    ensures { result ≡ fault_from tokens.now end refusal }
{
    match refusal {
        Refusal::Memory => QueryFault::Memory,
        Refusal::At(why, left) => match why {
            Why::Syntax => QueryFault::Syntax(place_of(tokens, left, end)),
            Why::TagMismatch => QueryFault::TagMismatch(place_of(tokens, left, end)),
            Why::Nesting => QueryFault::TooLarge(What::Nesting, MOST as u64),
        },
    }
}

/// The query, if its variables and its steps are sound.
fn sound(draft: Draft) -> Result<Query, QueryFault>
    ensures { Answers result (judge_marks draft.marks.unknown draft.marks.late (query_trees draft.query)) }
{
    match draft.marks.unknown {
        Some(at) => Err(QueryFault::UnknownVar(at)),
        None => match draft.marks.late {
            Some(at) => Err(QueryFault::DescendantNotLast(at)),
            None => Ok(draft.query),
        },
    }
}

/// The query of the tokens of a text that ends at byte `end`.
#[tactic(auto, using(crate::proofs::Reported::of_found, crate::proofs::Reported::of_refusal))]
fn query_of(alloc: Global, tokens: &[Tok], end: u64) -> Result<Query, QueryFault>
    ensures { Answers result (judged tokens.now end) }
{
    match read_tokens(alloc, tokens) {
        Ok(draft) => sound(draft),
        Err(refusal) => Err(fault_of(refusal, tokens, end)),
    }
}

/// The query that the text spells.
///
/// A text is refused for the first of these reasons: it has more than 1,048,576 bytes, `TooLarge`; it
/// isn't UTF-8, `Utf8`; its tokens aren't those of the language, `Lex` or `IntegerWide`; they are no
/// query, `Syntax`, `TagMismatch` or `TooLarge`, at the first token with which those so far are no
/// front of a query that nests at most 200 constructs; a variable isn't in scope, `UnknownVar`; a
/// descendant step isn't the last in the path of a clause or of an expression, `DescendantNotLast`.
pub fn parse(alloc: Global, text: &[u8]) -> Result<Query, QueryFault>
    ensures spells { IfOk result (λ query. QuerySpells text.now (query_trees query)) }
    ensures sound { IfOk result (λ query. is_sound (query_trees query) ≡ true) }
    ensures only_query { IfOk result (λ query. HasOnlyQuery text.now (query_trees query)) }
    ensures fault { IfErr result (UnlessMemory (TextFaultOf text.now)) }
    ensures only_refusal { IfErr result (UnlessMemory (HasOnlyRefusal text.now)) }
{
    let tokens = lex(alloc, text)?;
    query_of(alloc, tokens.items(), text.len() as u64)
}
