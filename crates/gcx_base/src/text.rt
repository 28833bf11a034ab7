ghost use Rattle.std.specs.Prelude.{◌≡◌, IfOk, IsNone, IfSome, IsUtf8, [], bytes_eq, string_bytes};
ghost use Rattle.std.specs.Cmp.{partial_equiv_from_equiv};
ghost use Rattle.std.specs.Cmp.Lexicographic.{nat_list_eq_equiv};

use crate::Memory;
use crate::bytes::same_bytes;
use simdutf8::compat::from_utf8;
use smallvec::SmallVec;
use std::alloc::Global;
use std::marker::Model;
use std::mem;
use std::str::from_utf8_unchecked;

/// How many bytes lie in the value itself.
const SHORT: usize = 16;

/// A text, seen as its bytes, which are UTF-8. Up to sixteen lie in the value itself.
#[derive(Drop, Debug)]
pub struct Text {
    bytes: SmallVec<u8, SHORT>,
}

impl Model for Text {
    ghost use Rattle.std.specs.Prelude.{List, ℕ, IsUtf8};

    ghost Value = { List ℕ };

    ghost view = { λ t. t.bytes.items };

    ghost invariant = { λ t. IsUtf8 t.bytes.items };
}

impl Text {
    /// A text of these bytes. None exactly where they aren't UTF-8.
    pub fn from_bytes(alloc: Global, bytes: &[u8]) -> Result<Option<Text>, Memory>
        ensures same { IfOk result (λ text. IfSome text (λ text. text ≡ bytes.now)) }
        ensures utf8 { IfOk result (λ text. IfSome text (λ text. IsUtf8 bytes.now)) }
        ensures none { IfOk result (λ text. IsNone text → IsUtf8 bytes.now → ⊥) }
    {
        match from_utf8(bytes) {
            Ok(text) => Ok(Some(Text::of_text(alloc, text.as_bytes())?)),
            Err(_) => Ok(None),
        }
    }

    /// A text of bytes that are known to be UTF-8.
    pub fn of_text(alloc: Global, bytes: &[u8]) -> Result<Text, Memory>
        requires { IsUtf8 bytes.now }
        ensures { IfOk result (λ text. text ≡ bytes.now) }
    {
        let bytes = SmallVec::from_slice(alloc, bytes)?;
        Ok(Text { bytes })
    }

    /// The bytes of a string as a `Text`. A long string is moved, not copied.
    pub fn from_string(text: String) -> Text
        ensures { result ≡ string_bytes text }
    {
        Text {
            bytes: SmallVec::from_vec(text.into_bytes()),
        }
    }

    /// The text of a string, which is empty afterwards. The string keeps its room where the text is short.
    pub fn take_from(alloc: Global, string: &mut String) -> Text
        ensures text { result ≡ string_bytes string.old }
        ensures empty { string_bytes string.new ≡ [] }
    {
        if string.len() > SHORT {
            return Text::from_string(mem::replace(string, String::new(alloc)));
        }
        let bytes = SmallVec::from_slice(alloc, string.as_str().as_bytes()).unwrap();
        string.clear();
        Text { bytes }
    }

    /// Its bytes.
    #[inline(always)]
    pub fn as_bytes(&self) -> &[u8]
        ensures bytes { result.now ≡ self.now }
        ensures utf8 { IsUtf8 self.now }
    {
        self.bytes.as_slice()
    }

    /// The text as std's type.
    pub fn as_str(&self) -> &str
        ensures { result.now ≡ self.now }
    {
        // The invariant says that the bytes are UTF-8.
        unsafe { from_utf8_unchecked(self.bytes.as_slice()) }
    }

    /// A copy of the text. `Memory`: there was no room for it.
    pub fn copy(&self, alloc: Global) -> Result<Text, Memory>
        ensures { IfOk result (λ text. text ≡ self.now) }
    {
        Text::of_text(alloc, self.as_bytes())
    }
}

impl PartialEq for Text {
    ghost eq = { bytes_eq };

    ghost laws = { partial_equiv_from_equiv nat_list_eq_equiv };

    #[inline(always)]
    fn eq(&self, other: &Text) -> bool {
        same_bytes(self.as_bytes(), other.as_bytes())
    }
}

impl Eq for Text {
    ghost laws = { nat_list_eq_equiv };
}
