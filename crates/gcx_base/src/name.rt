ghost use Rattle.std.specs.Prelude.{◌≡◌, true, false, IfOk, IfSome, IsNone};
ghost use Rattle.std.specs.List.{list_all};
ghost use Rattle.gcx_base.specs.Characters.{is_part_char};
ghost use Rattle.std.specs.Str.{chars, bytes_eq};
ghost use Rattle.std.specs.Cmp.{partial_equiv_from_equiv};
ghost use Rattle.std.specs.Cmp.Lexicographic.{nat_list_eq_equiv};
ghost use Rattle.gcx_base.specs.Name.{first_starts, is_name, IsNameBytes};

use crate::Memory;
use crate::bytes::same_bytes;
use crate::chars::{is_name_char, is_name_start};
use simdutf8::compat::from_utf8;
use smallvec::SmallVec;
use std::alloc::Global;
use std::marker::Model;
use std::str::from_utf8_unchecked;

/// A name (XML 1.0, section 2.3), seen as its bytes. Up to sixteen lie in the value itself.
#[derive(Drop, Debug)]
pub struct Name {
    bytes: SmallVec<u8, 16>,
}

impl Model for Name {
    ghost use Rattle.std.specs.Prelude.{List, ℕ};
    ghost use Rattle.gcx_base.specs.Name.{IsNameBytes};

    ghost Value = { List ℕ };

    ghost view = { λ n. n.bytes.items };

    ghost invariant = { λ n. IsNameBytes n.bytes.items };
}

/// Whether it begins with a NameStartChar.
fn begins_name(text: &str) -> bool
    ensures { result ≡ first_starts (chars text.now) }
{
    match text.chars().next() {
        Some(first) => is_name_start(first),
        None => false,
    }
}

/// Whether all of it are NameChars.
fn are_name_chars(text: &str) -> bool
    ensures { result ≡ list_all is_part_char (chars text.now) }
{
    text.chars().all(|c| is_name_char(c))
}

/// Whether the text is a name: a NameStartChar, and then NameChars.
#[tactic(auto, using(crate::proofs::Names::name_in_two))]
fn spells_name(text: &str) -> bool
    ensures { result ≡ is_name (chars text.now) }
{
    begins_name(text) && are_name_chars(text)
}

/// Whether the bytes are those of a name.
fn is_name(bytes: &[u8]) -> bool
    ensures yes { result ≡ true → IsNameBytes bytes.now }
    ensures no { result ≡ false → IsNameBytes bytes.now → ⊥ }
{
    match from_utf8(bytes) {
        Ok(text) => spells_name(text),
        Err(_) => false,
    }
}

impl Name {
    /// A name of these bytes. None exactly where they aren't a name: a NameStartChar and any number of NameChars
    /// (XML 1.0, section 2.3), in UTF-8.
    pub fn from_bytes(alloc: Global, bytes: &[u8]) -> Result<Option<Name>, Memory>
        ensures same { IfOk result (λ name. IfSome name (λ name. name ≡ bytes.now)) }
        ensures named { IfOk result (λ name. IfSome name (λ name. IsNameBytes bytes.now)) }
        ensures none { IfOk result (λ name. IsNone name → IsNameBytes bytes.now → ⊥) }
    {
        if is_name(bytes) {
            Ok(Some(Name::of_name(alloc, bytes)?))
        } else {
            Ok(None)
        }
    }

    /// A name of bytes that are known to be one.
    pub fn of_name(alloc: Global, bytes: &[u8]) -> Result<Name, Memory>
        requires { IsNameBytes bytes.now }
        ensures { IfOk result (λ name. name ≡ bytes.now) }
    {
        let bytes = SmallVec::from_slice(alloc, bytes)?;
        Ok(Name { bytes })
    }

    /// Its bytes.
    #[inline(always)]
    pub fn as_bytes(&self) -> &[u8]
        ensures bytes { result.now ≡ self.now }
        ensures named { IsNameBytes self.now }
    {
        self.bytes.as_slice()
    }

    /// The name as std's type.
    #[tactic(auto, using(crate::proofs::Names::name_text))]
    pub fn as_str(&self) -> &str
        ensures { result.now ≡ self.now }
    {
        // The characters of a name are scalar values, so its bytes are UTF-8.
        unsafe { from_utf8_unchecked(self.bytes.as_slice()) }
    }

    /// A copy of the name. `Memory`: there was no room for it.
    pub fn copy(&self, alloc: Global) -> Result<Name, Memory>
        ensures { IfOk result (λ name. name ≡ self.now) }
    {
        Name::of_name(alloc, self.as_bytes())
    }
}

impl PartialEq for Name {
    ghost eq = { bytes_eq };

    ghost laws = { partial_equiv_from_equiv nat_list_eq_equiv };

    #[inline(always)]
    fn eq(&self, other: &Name) -> bool {
        same_bytes(self.as_bytes(), other.as_bytes())
    }
}

impl Eq for Name {
    ghost laws = { nat_list_eq_equiv };
}
