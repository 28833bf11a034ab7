//! References, character by character.
ghost use Rattle.std.specs.Prelude.{◌≡◌, ◌<◌, ◌≤◌, ◌+◌, ◌*◌, ◌∷◌, ◌++◌, [], true, false, MatchOption, nat_le};
ghost use Rattle.gcx_base.specs.Characters.{is_char};
ghost use Rattle.gcx_model.specs.References.{is_decimal, is_hexadecimal, worth, begins_entity, greatest};
ghost use Rattle.doc_laws.specs.Machine.{entity_of, refer, on_letters, on_number, on_decimal, on_hexadecimal, done_number};
ghost use Rattle.doc_machine.specs.Machine.{letters_of, referring_of};
ghost use Rattle.doc_machine.specs.Steps.{referred_of};

use gcx_base::is_xml_char;

/// What was read of a reference.
#[derive(Clone, Copy, Debug)]
pub enum Referring {
    /// Letters that begin the name of an entity, or none.
    Letters(Letters),
    /// `#`
    Number,
    /// The value of the digits behind `#`.
    Decimal(u32),
    /// The value of the digits behind `#x`.
    Hexadecimal(u32),
}

/// The fronts of the names of the entities (XML 1.0, section 4.6).
#[derive(Clone, Copy, Debug)]
pub enum Letters {
    None,
    L,
    Lt,
    G,
    Gt,
    A,
    Am,
    Amp,
    Ap,
    Apo,
    Apos,
    Q,
    Qu,
    Quo,
    Quot,
}

/// What a character makes of a reference.
#[derive(Clone, Copy, Debug)]
pub(crate) enum Referred {
    /// It goes on.
    More(Referring),
    /// It is whole, and stands for this character.
    Done(char),
    /// No reference goes on so.
    Bad,
}

/// The value of a decimal digit.
fn decimal_digit(c: char) -> Option<u32>
    ensures { MatchOption result (is_decimal c ≡ false) (λ d. (is_decimal c ≡ true) × (d ≡ worth c) × (d < 16)) }
{
    match c {
        '0'..='9' => Some(c as u32 - '0' as u32),
        _ => None,
    }
}

/// The value of a hexadecimal digit.
fn hexadecimal_digit(c: char) -> Option<u32>
    ensures { MatchOption result (is_hexadecimal c ≡ false) (λ d. (is_hexadecimal c ≡ true) × (d ≡ worth c) × (d < 16)) }
{
    match c {
        '0'..='9' => Some(c as u32 - '0' as u32),
        'A'..='F' => Some(c as u32 - 'A' as u32 + 10),
        'a'..='f' => Some(c as u32 - 'a' as u32 + 10),
        _ => None,
    }
}

/// The value with a digit more, unless it passes the greatest character.
fn grown(value: u32, base: u32, digit: u32) -> Option<u32>
    requires base { base ≤ 16 }
    requires digit { digit < 16 }
    ensures { MatchOption result (nat_le (value * base + digit) greatest ≡ false)
        (λ more. (more ≡ value * base + digit) × (nat_le (value * base + digit) greatest ≡ true)) }
{
    let more = u64::from(value) * u64::from(base) + u64::from(digit);
    if more <= 0x10_FFFF {
        Some(more as u32)
    } else {
        None
    }
}

/// Where a number ends.
fn number_end(value: u32) -> Referred
    ensures { referred_of result ≡ done_number value }
{
    match char::from_u32(value) {
        Some(c) if is_xml_char(c) => Referred::Done(c),
        _ => Referred::Bad,
    }
}

fn in_number(c: char) -> Referred
    ensures { referred_of result ≡ on_number c }
{
    match decimal_digit(c) {
        Some(digit) => match grown(0, 10, digit) {
            Some(more) => Referred::More(Referring::Decimal(more)),
            None => Referred::Bad,
        },
        None if c == 'x' => Referred::More(Referring::Hexadecimal(0)),
        None => Referred::Bad,
    }
}

fn in_decimal(value: u32, c: char) -> Referred
    ensures { referred_of result ≡ on_decimal value c }
{
    match decimal_digit(c) {
        Some(digit) => match grown(value, 10, digit) {
            Some(more) => Referred::More(Referring::Decimal(more)),
            None => Referred::Bad,
        },
        None if c == ';' => number_end(value),
        None => Referred::Bad,
    }
}

fn in_hexadecimal(value: u32, c: char) -> Referred
    ensures { referred_of result ≡ on_hexadecimal value c }
{
    match hexadecimal_digit(c) {
        Some(digit) => match grown(value, 16, digit) {
            Some(more) => Referred::More(Referring::Hexadecimal(more)),
            None => Referred::Bad,
        },
        None if c == ';' => number_end(value),
        None => Referred::Bad,
    }
}

impl Letters {
    /// These letters and one more, if a name begins so.
    fn and(self, c: char) -> Option<Letters>
        ensures { MatchOption result (begins_entity (letters_of self ++ c ∷ []) ≡ false)
            (λ more. (letters_of more ≡ letters_of self ++ c ∷ []) × (begins_entity (letters_of more) ≡ true)) }
    {
        match self {
            Letters::None => Letters::first(c),
            Letters::A => Letters::behind_a(c),
            Letters::L if c == 't' => Some(Letters::Lt),
            Letters::G if c == 't' => Some(Letters::Gt),
            Letters::Am if c == 'p' => Some(Letters::Amp),
            Letters::Ap if c == 'o' => Some(Letters::Apo),
            Letters::Apo if c == 's' => Some(Letters::Apos),
            Letters::Q if c == 'u' => Some(Letters::Qu),
            Letters::Qu if c == 'o' => Some(Letters::Quo),
            Letters::Quo if c == 't' => Some(Letters::Quot),
            _ => None,
        }
    }

    fn first(c: char) -> Option<Letters>
        ensures { MatchOption result (begins_entity (c ∷ []) ≡ false)
            (λ more. (letters_of more ≡ c ∷ []) × (begins_entity (letters_of more) ≡ true)) }
    {
        match c {
            'l' => Some(Letters::L),
            'g' => Some(Letters::G),
            'a' => Some(Letters::A),
            'q' => Some(Letters::Q),
            _ => None,
        }
    }

    fn behind_a(c: char) -> Option<Letters>
        ensures { MatchOption result (begins_entity (97 ∷ (c ∷ [])) ≡ false)
            (λ more. (letters_of more ≡ 97 ∷ (c ∷ [])) × (begins_entity (letters_of more) ≡ true)) }
    {
        match c {
            'm' => Some(Letters::Am),
            'p' => Some(Letters::Ap),
            _ => None,
        }
    }

    /// The character of the entity that they name.
    fn entity(self) -> Option<char>
        ensures { result ≡ entity_of (letters_of self) }
    {
        match self {
            Letters::Lt => Some('<'),
            Letters::Gt => Some('>'),
            Letters::Amp => Some('&'),
            Letters::Apos => Some('\''),
            Letters::Quot => Some('"'),
            _ => None,
        }
    }

    /// Behind `;`.
    fn end(self) -> Referred
        ensures { referred_of result ≡ on_letters (letters_of self) 59 }
    {
        match self.entity() {
            Some(c) => Referred::Done(c),
            None => Referred::Bad,
        }
    }
}

fn in_letters(letters: Letters, c: char) -> Referred
    ensures { referred_of result ≡ on_letters (letters_of letters) c }
{
    match letters.and(c) {
        Some(more) => Referred::More(Referring::Letters(more)),
        None if c == ';' => letters.end(),
        None if c == '#' && matches!(letters, Letters::None) => Referred::More(Referring::Number),
        None => Referred::Bad,
    }
}

impl Referring {
    /// A reference with a character more.
    pub(crate) fn and(self, c: char) -> Referred
        ensures { referred_of result ≡ refer (referring_of self) c }
    {
        match self {
            Referring::Letters(letters) => in_letters(letters, c),
            Referring::Number => in_number(c),
            Referring::Decimal(value) => in_decimal(value, c),
            Referring::Hexadecimal(value) => in_hexadecimal(value, c),
        }
    }
}
