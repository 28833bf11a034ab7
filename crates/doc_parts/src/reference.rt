//! References to the entities that every document has, read as a whole.
ghost use Rattle.std.specs.Prelude.{◌≡◌, ◌++◌, ℕ, List, length, OnErr, IfOk, MatchOption, ⊤};
ghost use Rattle.doc_chars.specs.Stream.{AreChars};
ghost use Rattle.doc_machine.specs.Machine.{scan_state};
ghost use Rattle.doc_machine.specs.Sound.{IsSound};
ghost use Rattle.doc_parts.specs.Reading.{Moves};
ghost use Rattle.doc_parts.specs.Wholes.{MayRefer, reference_of, character_of};

use crate::front::begins;
use doc_machine::Scan;
use gcx_base::{Limits, Memory};

/// Such an entity (XML 1.0, section 4.6).
#[derive(Clone, Copy, Debug)]
pub(crate) enum Entity {
    Less,
    Greater,
    Ampersand,
    Quotation,
    Apostrophe,
}

impl Entity {
    /// How many bytes a reference to it takes.
    fn size(self) -> usize
        ensures { result ≡ length (reference_of self) }
    {
        match self {
            Entity::Less | Entity::Greater => 4,
            Entity::Ampersand => 5,
            Entity::Quotation | Entity::Apostrophe => 6,
        }
    }

    fn character(self) -> char
        ensures { result ≡ character_of self }
    {
        match self {
            Entity::Less => '<',
            Entity::Greater => '>',
            Entity::Ampersand => '&',
            Entity::Quotation => '"',
            Entity::Apostrophe => '\'',
        }
    }
}

/// The entity to which a reference stands at the front.
fn entity_front(bytes: &[u8]) -> Option<Entity>
    ensures { MatchOption result ⊤ (λ e. (after : List ℕ) × (bytes.now ≡ reference_of e ++ after)) }
{
    if begins(bytes, b"&lt;") {
        Some(Entity::Less)
    } else if begins(bytes, b"&gt;") {
        Some(Entity::Greater)
    } else if begins(bytes, b"&amp;") {
        Some(Entity::Ampersand)
    } else if begins(bytes, b"&quot;") {
        Some(Entity::Quotation)
    } else if begins(bytes, b"&apos;") {
        Some(Entity::Apostrophe)
    } else {
        None
    }
}

/// Reads such a reference in text or in a value, and says how many bytes it takes.
pub(crate) fn whole_reference(m: &mut Scan, limits: &Limits, rest: &str) -> Result<usize, Memory>
    requires { MayRefer (scan_state m.old) }
    ensures moves { IfOk result (λ n. Moves limits.now (scan_state m.old) rest.now n (scan_state m.new)) }
    ensures tokens { OnErr result ((scan_state m.new).tokens ≡ (scan_state m.old).tokens) }
{
    if m.tokens.run_len() >= limits.text as usize {
        return Ok(0);
    }
    match entity_front(rest.as_bytes()) {
        Some(entity) => {
            m.tokens.push(entity.character())?;
            Ok(entity.size())
        }
        None => Ok(0),
    }
}
