//! What stands at the front of a text.
ghost use Rattle.std.specs.Prelude.{◌≡◌, ◌++◌, [], ℕ, List, IsTrue, MatchOption};
ghost use Rattle.doc_parts.specs.Reading.{IsFirstChar};

/// Whether the bytes begin with these.
#[inline(always)]
pub(crate) fn begins(bytes: &[u8], front: &[u8]) -> bool
    ensures { IsTrue result → (after : List ℕ) × (bytes.now ≡ front.now ++ after) }
{
    bytes.starts_with(front)
}

/// The first character, and what stands behind it.
#[inline(always)]
pub fn first_char(text: &str) -> Option<(char, &str)>
    ensures { MatchOption result (text.now ≡ []) (λ p. IsFirstChar p.0 p.1.now text.now) }
{
    let mut characters = text.chars();
    let c = characters.next()?;
    Some((c, characters.as_str()))
}
