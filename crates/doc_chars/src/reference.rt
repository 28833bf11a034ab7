//! References in a document, character by character.
ghost use Rattle.std.specs.Prelude.{◌≡◌, ◌<◌, ◌≤◌, ◌+◌, ◌*◌, [], ◌∷◌, ◌++◌, ℕ, List, MatchOption, IsTrue, ◌↔◌, unwrap_or, true, false};
ghost use Rattle.gcx_base.specs.Characters.{is_char};
ghost use Rattle.doc_chars.specs.References.{IsSoundValue};
ghost use Rattle.doc_chars.specs.Spelled.{ReferencesAgree};

use gcx_base::is_xml_char;
use std::marker::Model;

/// What the next character behind `&` makes of a reference.
#[derive(Clone, Copy, Debug, PartialEq, Eq)]
pub enum RefStep {
    /// The reference goes on.
    More,
    /// It ends here, and stands for this character.
    Done(char),
    /// No reference begins so.
    Bad,
}

/// The entities that every document has (XML 1.0, section 4.6).
#[derive(Clone, Copy, Debug)]
pub(crate) enum Entity {
    Lt,
    Gt,
    Amp,
    Apos,
    Quot,
}

/// How the digits of a reference are read.
#[derive(Clone, Copy, Debug, PartialEq, Eq)]
pub(crate) enum Radix {
    Decimal,
    Hexadecimal,
}

/// What the characters behind `&` are so far.
#[derive(Clone, Copy, Debug)]
pub(crate) enum State {
    /// None.
    Start,
    /// `a`, with which two names begin.
    LetterA,
    /// So many of an entity's name and `;`, which tell it from the others.
    Name(Entity, usize),
    /// `#` or `#x`, then digits of this value, if any.
    Number(Radix, Option<u32>),
}

/// What a character does to a state.
#[derive(Clone, Copy, Debug)]
pub(crate) enum Next {
    More(State),
    Done(char),
    Bad,
}

/// The characters behind `&`, up to the end of a reference.
#[derive(Drop, Debug)]
pub struct Reference {
    state: State,
}

impl Model for Reference {
    ghost use Rattle.doc_chars.specs.declared.reference.State.{State};

    ghost Value = { State };

    ghost use Rattle.doc_chars.specs.References.{IsSound};

    ghost view = { λ r. r.state };

    ghost invariant = { λ r. IsSound r.state };
}

impl Entity {
    ghost use Rattle.doc_chars.specs.References.{spelling_of, character_of};

    /// Its name and the semicolon.
    fn spelling(self) -> &'static [u8]
        ensures { result.now ≡ spelling_of self }
    {
        match self {
            Entity::Lt => b"lt;",
            Entity::Gt => b"gt;",
            Entity::Amp => b"amp;",
            Entity::Apos => b"apos;",
            Entity::Quot => b"quot;",
        }
    }

    fn character(self) -> char
        ensures { result ≡ character_of self }
    {
        match self {
            Entity::Lt => '<',
            Entity::Gt => '>',
            Entity::Amp => '&',
            Entity::Apos => '\'',
            Entity::Quot => '"',
        }
    }
}

impl Radix {
    ghost use Rattle.doc_chars.specs.References.{base_of};

    fn base(self) -> u32
        ensures { result ≡ base_of self }
    {
        match self {
            Radix::Decimal => 10,
            Radix::Hexadecimal => 16,
        }
    }
}

/// The value with a digit more. None where it passes the last character.
fn grown(value: Option<u32>, base: u32, digit: u32) -> Option<u32>
    requires value { IsSoundValue value }
    requires base { base ≤ 16 }
    requires digit { digit < base }
    ensures { MatchOption result (0x10FFFF < unwrap_or value 0 * base + digit)
        (λ more. (more ≡ unwrap_or value 0 * base + digit) × (more ≤ 0x10FFFF)) }
{
    let more = value.unwrap_or(0) * base + digit;
    if more <= char::MAX as u32 {
        Some(more)
    } else {
        None
    }
}

/// The Char of this value.
fn char_of(value: Option<u32>) -> Option<char>
    ensures { MatchOption result (MatchOption value (Unit {0}) (λ number. is_char number ≡ false))
        (λ c. (value ≡ Some c) × (is_char c ≡ true)) }
{
    let c = char::from_u32(value?)?;
    if is_xml_char(c) { Some(c) } else { None }
}

/// Whether it is the `x` directly behind `#`.
fn marks_hexadecimal(radix: Radix, value: Option<u32>, c: char) -> bool
    ensures { IsTrue result ↔ ((radix ≡ Radix.Decimal) × (value ≡ None) × (c ≡ 120)) }
{
    c == 'x' && radix == Radix::Decimal && value.is_none()
}

impl Next {
    ghost use Rattle.doc_chars.specs.References.{InName, InNumber};
    ghost use Rattle.doc_chars.specs.Next.{Leads, IsSoundNext};

    /// The first character behind `&`.
    fn first(c: char) -> Next
        ensures sound { IsSoundNext result }
        ensures leads { Leads result (c ∷ []) }
    {
        match c {
            '#' => Next::More(State::Number(Radix::Decimal, None)),
            'a' => Next::More(State::LetterA),
            'g' => Next::More(State::Name(Entity::Gt, 1)),
            'l' => Next::More(State::Name(Entity::Lt, 1)),
            'q' => Next::More(State::Name(Entity::Quot, 1)),
            _ => Next::Bad,
        }
    }

    /// The character behind `a`.
    fn behind_a(c: char) -> Next
        ensures sound { IsSoundNext result }
        ensures leads { Leads result (97 ∷ c ∷ []) }
    {
        match c {
            'm' => Next::More(State::Name(Entity::Amp, 2)),
            'p' => Next::More(State::Name(Entity::Apos, 2)),
            _ => Next::Bad,
        }
    }

    fn in_name(entity: Entity, count: usize, c: char) -> Next
        ensures sound { IsSoundNext result }
        ensures leads { (text : List ℕ) → InName entity count text → Leads result (text ++ c ∷ []) }
    {
        let spelling = entity.spelling();
        match spelling.get(count) {
            Some(byte) if char::from(*byte) == c => {
                if count + 1 == spelling.len() {
                    Next::Done(entity.character())
                } else {
                    Next::More(State::Name(entity, count + 1))
                }
            }
            _ => Next::Bad,
        }
    }

    fn in_number(radix: Radix, value: Option<u32>, c: char) -> Next
        requires { IsSoundValue value }
        ensures sound { IsSoundNext result }
        ensures leads { (text : List ℕ) → InNumber radix value text → Leads result (text ++ c ∷ []) }
    {
        let base = radix.base();
        match c.to_digit(base) {
            Some(digit) => match grown(value, base, digit) {
                Some(more) => Next::More(State::Number(radix, Some(more))),
                None => Next::Bad,
            },
            None if c == ';' => match char_of(value) {
                Some(c) => Next::Done(c),
                None => Next::Bad,
            },
            None if marks_hexadecimal(radix, value, c) => {
                Next::More(State::Number(Radix::Hexadecimal, None))
            }
            None => Next::Bad,
        }
    }
}

impl State {
    ghost use Rattle.doc_chars.specs.References.{StandsForText, IsSound};
    ghost use Rattle.doc_chars.specs.Next.{Leads, IsSoundNext};

    fn next(self, c: char) -> Next
        requires { IsSound self }
        ensures sound { IsSoundNext result }
        ensures leads { (text : List ℕ) → StandsForText self text → Leads result (text ++ c ∷ []) }
    {
        match self {
            State::Start => Next::first(c),
            State::LetterA => Next::behind_a(c),
            State::Name(entity, count) => Next::in_name(entity, count, c),
            State::Number(radix, value) => Next::in_number(radix, value, c),
        }
    }
}

impl Reference {
    ghost use Rattle.doc_chars.specs.References.{StandsForText, Answers, Stays};

    /// Nothing read behind `&`.
    pub fn new() -> Reference
        ensures { StandsForText result [] }
    {
        Reference {
            state: State::Start,
        }
    }

    /// The next character. Behind an end a new value is wanted: this one stays as it was.
    pub fn step(&mut self, c: char) -> RefStep
        ensures answer { (text : List ℕ) → StandsForText self.old text → Answers result self.new (text ++ c ∷ []) }
        ensures stays { Stays result self.old self.new }
    {
        match self.state.next(c) {
            Next::More(state) => {
                self.state = state;
                RefStep::More
            }
            Next::Done(c) => RefStep::Done(c),
            Next::Bad => RefStep::Bad,
        }
    }
}

/// The references that are read here are those of the grammar of documents, and stand for the same characters: who calls this knows it.
pub fn references_agree()
    ensures { ReferencesAgree }
{}
