//! The roles that a matcher gives, by itself: plans, documents and statements in words.
ghost use Rattle.std.specs.Prelude.{IfOk};
ghost use Rattle.gcx_model.specs.Past.{IsNode};

use crate::large::{Part, spelled};
use gcx_base::{Axis, Kind, Name, Role, Step, Steps, Test, Text, VarId};
use gcx_model::{
    Body, Flags, Given, Off, Plan, RoleKind, RoleRow, RoleRows, VarIds, VarRow, VarRows,
};
use matcher::Matcher;
use path_states::Bound;
use role_set::RoleSet;
use std::alloc::Global;
use std::fmt::Write;
use std::process::Abort;
use std::test::Fail;

/// A small letter is a name; a capital is one of 1,024 bytes that ends with it.
fn name(alloc: Global, letter: u8) -> Result<Name, Fail> {
    let front = if letter < b'a' { 1_023 } else { 0 };
    let mut text = spelled(alloc, &[("x", 0, front)])?;
    text.push(char::from(letter))?;
    match Name::from_bytes(alloc, text.as_str().as_bytes())? {
        Some(name) => Ok(name),
        None => Err(Fail::new("not a name")),
    }
}

/// `t` is a text, `n` any node, `e` any element, another letter an element of that name.
fn test(alloc: Global, letter: u8) -> Result<Test, Fail> {
    Ok(match letter {
        b't' => Test::AnyText,
        b'n' => Test::AnyNode,
        b'e' => Test::AnyElement,
        _ => Test::Named(name(alloc, letter)?),
    })
}

/// A letter is a child step, one behind `/` a descendant step.
pub(crate) fn steps(alloc: Global, path: &[u8]) -> Result<Steps, Fail> {
    let mut steps = Steps::new(alloc);
    let mut axis = Axis::Child;
    for letter in path {
        if *letter == b'/' {
            axis = Axis::Descendant;
        } else {
            let test = test(alloc, *letter)?;
            steps.push(Step { axis, test })?;
            axis = Axis::Child;
        }
    }
    Ok(steps)
}

fn number(letter: u8) -> u32 {
    u32::from(letter.wrapping_sub(b'0'))
}

fn kind_of(letter: u8) -> RoleKind {
    match letter {
        b'o' => RoleKind::Own,
        b'f' => RoleKind::First,
        _ => RoleKind::Whole,
    }
}

/// The first of these steps.
pub(crate) fn first_step(alloc: Global, path: &[u8]) -> Result<Step, Fail> {
    let steps = steps(alloc, path)?;
    Ok(steps.items().first().ok_or("no step")?.copy(alloc)?)
}

/// `0/a` is a variable by a descendant step `a` from variable 0.
fn var_row(alloc: Global, word: &[u8]) -> Result<VarRow, Fail> {
    let (letter, path) = word.split_first().ok_or("no variable")?;
    let step = first_step(alloc, path)?;
    let parent = VarId(number(*letter));
    Ok(VarRow { parent, step })
}

pub(crate) fn var_rows(alloc: Global, words: &str) -> Result<VarRows, Fail> {
    let mut rows = VarRows::new(alloc);
    for word in words.split_ascii_whitespace() {
        rows.push(var_row(alloc, word.as_bytes())?)?;
    }
    Ok(rows)
}

/// `f1/b` is a first match of a descendant step `b` at variable 1.
fn role_row(alloc: Global, word: &[u8]) -> Result<RoleRow, Fail> {
    let [kind, var, path @ ..] = word else {
        return Err("no kind or no variable")?;
    };
    let tail = steps(alloc, path)?;
    Ok(RoleRow {
        kind: kind_of(*kind),
        var: VarId(number(*var)),
        tail,
    })
}

fn role_rows(alloc: Global, words: &str) -> Result<RoleRows, Fail> {
    let mut rows = RoleRows::new(alloc);
    for word in words.split_ascii_whitespace() {
        rows.push(role_row(alloc, word.as_bytes())?)?;
    }
    Ok(rows)
}

/// Variables and roles in words.
pub(crate) fn plan(alloc: Global, vars: &str, roles: &str) -> Result<Plan, Fail> {
    let vars = var_rows(alloc, vars)?;
    let roles = role_rows(alloc, roles)?;
    Ok(Plan {
        body: Body::new(alloc),
        vars,
        straight: Flags::new(alloc),
        fsa: VarIds::new(alloc),
        roles,
    })
}

fn put(out: &mut String, given: &Given) -> Result<(), Fail> {
    for role in given.items() {
        write!(out, "{}", role.0)?;
    }
    out.push(' ')?;
    Ok(())
}

/// The statement of the role, with these steps from its base to its variable.
fn off(alloc: Global, role: u8, rel: &[u8]) -> Result<Off, Fail> {
    let rel = steps(alloc, rel)?;
    Ok(Off {
        base: VarId(0),
        own: Role(0),
        role: Role(number(role)),
        rel,
        tail: Steps::new(alloc),
        kind: RoleKind::Whole,
    })
}

/// Whether the set has all of these.
fn has_all(roles: &RoleSet, given: &[Role]) -> bool {
    given.iter().all(|role| roles.has(*role))
}

/// Whether the set of the innermost node's roles, where there is one at hand, has these and no more.
fn are_plain(matcher: &Matcher, given: &Given) -> bool {
    let (roles, _) = matcher.plain_sets();
    match matcher.plain() {
        Some(count) => count == given.items().len() && has_all(roles, given.items()),
        None => true,
    }
}

/// Puts the innermost node's roles, and a `!` where the set differs.
fn put_here(alloc: Global, out: &mut String, matcher: &Matcher) -> Result<(), Fail> {
    let given = matcher.given(alloc)?;
    if !are_plain(matcher, &given) {
        out.push('!')?;
    }
    put(out, &given)
}

/// Enters a node, and puts its roles.
fn enter(alloc: Global, out: &mut String, matcher: &mut Matcher, kind: &Kind) -> Result<(), Fail>
    requires { IsNode kind.now }
{
    let given = matcher.enter(alloc, kind)?;
    if !are_plain(matcher, &given) {
        out.push('!')?;
    }
    put(out, &given)
}

/// Goes to a node without a list of its roles, and puts them.
fn go(alloc: Global, out: &mut String, matcher: &mut Matcher, kind: &Kind) -> Result<(), Fail>
    requires { IsNode kind.now }
{
    matcher.go(alloc, kind)?;
    put_here(alloc, out, matcher)
}

fn text(alloc: Global) -> Result<Kind, Fail>
    ensures { IfOk result (λ kind. IsNode kind) }
{
    match Text::from_bytes(alloc, b"x")? {
        Some(text) => Ok(Kind::Text(text)),
        None => Err(Fail::new("not a text")),
    }
}

/// `.` is a text, another letter an element.
pub(crate) fn node(alloc: Global, letter: u8) -> Result<Kind, Fail>
    ensures { IfOk result (λ kind. IsNode kind) }
{
    match letter {
        b'.' => text(alloc),
        _ => Ok(Kind::Element(name(alloc, letter)?)),
    }
}

/// Goes to an element by its name, or to a text, and puts its roles.
fn go_by_name(
    alloc: Global,
    out: &mut String,
    matcher: &mut Matcher,
    letter: u8,
) -> Result<(), Fail> {
    match letter {
        b'.' => matcher.go_text(alloc)?,
        _ => matcher.go_name(alloc, name(alloc, letter)?.as_bytes())?,
    }
    put_here(alloc, out, matcher)
}

/// Puts the roles that are taken back.
fn put_ahead(alloc: Global, out: &mut String, matcher: &Matcher) -> Result<(), Fail> {
    out.push('?')?;
    put(out, &matcher.ahead(alloc)?)
}

fn step_on(alloc: Global, out: &mut String, matcher: &mut Matcher, letter: u8) -> Result<(), Fail> {
    match letter {
        b')' => {
            matcher.leave();
            Ok(())
        }
        b'?' => put_ahead(alloc, out, matcher),
        _ => enter(alloc, out, matcher, &node(alloc, letter)?),
    }
}

/// Does what a document begins with; what is left of it.
fn follow<'a>(
    alloc: Global,
    out: &mut String,
    matcher: &mut Matcher,
    rel: &[u8],
    document: &'a [u8],
) -> Result<&'a [u8], Fail> {
    match document {
        [b'!', role, level, rest @ ..] => {
            let off = off(alloc, *role, rel)?;
            matcher.sign(number(*level), &off)?;
            Ok(rest)
        }
        [b'#', letter, rest @ ..] => {
            go_by_name(alloc, out, matcher, *letter)?;
            Ok(rest)
        }
        [b'>', letter, rest @ ..] => {
            go(alloc, out, matcher, &node(alloc, *letter)?)?;
            Ok(rest)
        }
        [letter, rest @ ..] => {
            step_on(alloc, out, matcher, *letter)?;
            Ok(rest)
        }
        [] => Ok(document),
    }
}

/// What the matcher answers: `.` is a text, `)` the end of the innermost node, `!rl` signs role r's statement at
/// level l, `?` asks what is taken back, another letter is the start of an element, `#` before it, or before `.`, goes
/// to it by its name alone, and `>` by its kind, both without a list of roles.
fn answers(
    alloc: Global,
    plan: &Plan,
    bound: Bound,
    rel: &[u8],
    document: &[u8],
) -> Result<String, Fail> {
    let mut matcher = Matcher::bounded(alloc, plan, bound)?;
    let mut out = String::new(alloc);
    put(&mut out, &matcher.document(alloc)?)?;
    let mut rest = document;
    for _ in 0..document.len() {
        rest = follow(alloc, &mut out, &mut matcher, rel, rest)?;
    }
    Ok(out)
}

/// The same by variables and roles in words.
fn answers_by(
    alloc: Global,
    (vars, roles): (&str, &str),
    bound: Bound,
    rel: &[u8],
    document: &[u8],
) -> Result<String, Fail> {
    let plan = plan(alloc, vars, roles)?;
    answers(alloc, &plan, bound, rel, document)
}

/// The usual bound, and one within which two states and few moves are remembered.
fn bounds() -> [Bound; 2] {
    let narrow = Bound {
        states: 2,
        bytes: 2_000,
    };
    [Bound::usual(), narrow]
}

/// Variables, roles, the steps of a statement that is signed, a document, and the roles given.
type Case<'a> = (&'a str, &'a str, &'a str, &'a str, &'a str);

const CASES: &[Case<'static>] = &[
    // child steps
    ("0r 1a", "o0 o1 o2", "", "raa))b)a.)", "0 1 2   2  "),
    // long names that differ in their last byte
    ("0R 1A", "o0 o1 o2", "", "RAA))B)A.)", "0 1 2   2  "),
    // nested matches of a descendant step
    ("0/a", "o0 o1", "", "abaa)c.)a", "0 1  1 1   1 "),
    // a descendant step behind another, and behind a child step
    ("0/a 1/b 1c", "o0 o1 o2 o3", "", "abcb)ac", "0 1 2  2 1 3 "),
    // whole subtrees, texts among them
    (
        "0r 1a",
        "o0 o1 o2 w2",
        "",
        "ra.)b.))b.))",
        "0 1 23 3 3 3 3 3 ",
    ),
    // whole in whole
    (
        "0/a",
        "o0 o1 w1 w1b w1/t",
        "",
        "abb.)a",
        "0 12 23 23 234 123 ",
    ),
    // the first match of a child step, one for each context
    ("0/a", "o0 o1 f1b", "", "aabb))b))b", "0 1 1 2   2 "),
    // one node for several contexts, and none behind it
    ("0/a", "o0 o1 f1/b", "", "aacb)b))ab)b", "0 1 1  2  1 2  "),
    // a tail with a descendant step that isn't its last
    ("0/a", "o0 o1 f1/bc", "", "aabbc)c)c)c", "0 1 1   2    "),
    (
        "0/a",
        "o0 o1 f1b/c",
        "",
        "abac)bc)c)))bc",
        "0 1  1 2  2    ",
    ),
    // a first match at the document node, an empty tail, a text
    ("0r", "o0 o1 f0/n f1 f1t", "", "r.a.", "0 123 4   "),
    // without lists: texts, whole subtrees, first matches, what is signed
    (
        "0r 1a",
        "o0 o1 o2 w2",
        "",
        ">r>a>.)>b>.))>b.))",
        "0 1 23 3 3 3 3 3 ",
    ),
    (
        "0/a",
        "o0 o1 f1/b",
        "",
        ">a>a>c>b)>b))>a>b)b",
        "0 1 1  2  1 2  ",
    ),
    (
        "0/a",
        "o0 o1 w1b",
        "",
        ">a!21>b?)>a>b?)!22>b?)>c?",
        "0 1 2 ?2 1 2 ? 2 ?2  ? ",
    ),
    // any element, any node
    ("0e 1n", "o0 o1 o2", "", "r.)a.)).", "0 1 2 2  2 "),
    // below a level with nothing to come
    ("0r", "o0 o1 w0a", "", "abc.)))", "0 2 2 2 2 "),
    // taken back at one of two bases, then at both
    (
        "0/a",
        "o0 o1 w1b",
        "",
        "a!21b?)ab?)!22b?)c?",
        "0 1 2 ?2 1 2 ? 2 ?2  ? ",
    ),
    // the step of a base from further above
    (
        "0/a 1/b",
        "o0 o1 o2 w2",
        "/b",
        "aac!31b?!32?)))b?c?",
        "0 1 1  23 ? ?3 23 ?3 3 ?3 ",
    ),
    // what is signed goes with its node
    (
        "0/a",
        "o0 o1 w1b f1/c",
        "",
        "a!21!31b?)c?))ab?",
        "0 1 2 ?2 3 ?3 1 2 ? ",
    ),
    // by names alone, one of which is none of the plan's
    (
        "0r 1a",
        "o0 o1 o2 w2",
        "",
        "#r#a#.)#b.))#b))#b)#z#a",
        "0 1 23 3 3 3 3    ",
    ),
    // signed while a text is the innermost node
    (
        "0/a",
        "o0 o1 w1/n",
        "",
        "a.!21?)b?.?",
        "0 1 2 ?2 2 ?2 2 ?2 ",
    ),
    // the innermost node once more, after others inside it
    (
        "0r",
        "o0 o1 w0 f1a",
        "",
        "r!31a?b?)c?)?",
        "02 12 23 ?3 2 ? 2 ? ?3 ",
    ),
];

fn is_answered_in(
    rt: &impl Abort,
    alloc: Global,
    case: Case<'_>,
    bound: Bound,
) -> Result<(), Fail> {
    let (vars, roles, rel, document, want) = case;
    let (rel, tokens) = (rel.as_bytes(), document.as_bytes());
    let got = answers_by(alloc, (vars, roles), bound, rel, tokens)?;
    assert_eq!(rt; got.as_str(), want, "{vars} | {roles} | {document}");
    Ok(())
}

fn is_answered(rt: &impl Abort, alloc: Global, case: Case<'_>) -> Result<(), Fail> {
    let [usual, narrow] = bounds();
    is_answered_in(rt, alloc, case, usual)?;
    is_answered_in(rt, alloc, case, narrow)
}

#[test]
fn roles_are_those_of_the_definitions(rt: HostRuntime) -> Result<(), Fail> {
    for case in CASES {
        is_answered(&rt, rt.alloc(), *case)?;
    }
    Ok(())
}

/// Variables, and the parts of roles, of a document and of the roles given.
type Large = (
    &'static str,
    &'static [Part],
    &'static [Part],
    &'static [Part],
);

const LARGE: [Large; 2] = [
    // The first match of `//b` at each of many elements inside one another, and one more behind the ends of all but one of
    // them. A statement is signed at one of them, and then at the only one left.
    (
        "0/a",
        &[("o0 o1 f1/b w1/b", 0, 1)],
        &[
            ("a", 0, 999),
            ("!37b?.))b", 0, 1),
            (")", 0, 999),
            ("!31b?", 0, 1),
        ],
        &[("0 ", 0, 1), ("1 ", 0, 999), ("23 ? 3 3 3 ?3 ", 0, 1)],
    ),
    // Each of two thousand roles is given at each match.
    (
        "0/a",
        &[("o1 ", 0, 2_000)],
        &[("aab", 0, 1)],
        &[
            (" ", 0, 1),
            ("#", 0, 2_000),
            (" ", 0, 1),
            ("#", 0, 2_000),
            ("  ", 0, 1),
        ],
    ),
];

fn is_answered_large(rt: &impl Abort, alloc: Global, case: Large) -> Result<(), Fail> {
    let roles = spelled(alloc, case.1)?;
    let document = spelled(alloc, case.2)?;
    let want = spelled(alloc, case.3)?;
    let texts = (roles.as_str(), document.as_str(), want.as_str());
    is_answered(rt, alloc, (case.0, texts.0, "", texts.1, texts.2))
}

#[test]
fn a_thousand_levels_and_two_thousand_roles(rt: HostRuntime) -> Result<(), Fail> {
    for case in LARGE {
        is_answered_large(&rt, rt.alloc(), case)?;
    }
    Ok(())
}
