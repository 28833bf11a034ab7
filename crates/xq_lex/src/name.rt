//! Names and variables.
ghost use Rattle.std.specs.Prelude.{◌≡◌, ◌&&◌, ◌∷◌, true, not, string_bytes, IfOk};
ghost use Rattle.std.specs.Str.{encode_utf8_all};
ghost use Rattle.gcx_base.specs.Name.{is_name};
ghost use Rattle.xq_lex.specs.Sign.{begins};
ghost use Rattle.xq_lex.specs.Names.{is_pair, may_begin, may_go_on, name_at, parts_at};

use crate::sign::begins_with;
use gcx_base::{Memory, Name, is_name_char, is_name_start};
use std::alloc::Global;

#[tactic(auto, unfolding(crate::specs::Names::may_begin))]
fn may_begin(c: char) -> bool
    ensures { result ≡ may_begin c }
{
    is_name_start(c)
}

#[tactic(auto, unfolding(crate::specs::Names::may_go_on))]
fn may_go_on(c: char) -> bool
    ensures { result ≡ may_go_on c }
{
    is_name_char(c)
}

/// Whether a name goes on with this character, behind which `rest` stands.
fn goes_on(c: char, rest: &[char]) -> bool
    ensures { result ≡ (may_go_on c && not (is_pair (c ∷ rest.now))) }
{
    may_go_on(c) && !(c == ':' && begins_with(rest, ':'))
}

/// Whether a name begins with this character, behind which `rest` stands.
pub(crate) fn begins_name(c: char, rest: &[char]) -> bool
    ensures { result ≡ (may_begin c && not (is_pair (c ∷ rest.now))) }
{
    may_begin(c) && !(c == ':' && begins_with(rest, ':'))
}

fn parts_at(text: &[char]) -> &[char]
    ensures { result.now ≡ parts_at text.now }
{
    let mut len = 0;
    let mut rest = text;
    while let Some((first, behind)) = rest.split_first() {
        if !goes_on(*first, behind) {
            break;
        }
        len += 1;
        rest = behind;
    }
    text.split_at(len).0
}

/// The longest name at the front of the text; nothing where there is none.
pub(crate) fn name_at(text: &[char]) -> &[char]
    ensures { result.now ≡ name_at text.now }
{
    match text.first() {
        Some(first) if may_begin(*first) => parts_at(text),
        _ => text.split_at(0).0,
    }
}

/// These characters as a text.
pub(crate) fn text_of(alloc: Global, chars: &[char]) -> Result<String, Memory>
    ensures { IfOk result (λ text. string_bytes text ≡ encode_utf8_all chars.now) }
{
    let mut text = String::new(alloc);
    for c in chars {
        text.push(*c)?;
    }
    Ok(text)
}

/// The name of these characters.
pub(crate) fn name_of(alloc: Global, chars: &[char]) -> Result<Name, Memory>
    requires { is_name chars.now ≡ true }
    ensures { IfOk result (λ name. name ≡ encode_utf8_all chars.now) }
{
    let text = text_of(alloc, chars)?;
    Name::of_name(alloc, text.as_bytes())
}
