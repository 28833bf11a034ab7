//! Elements that are passed and get their rows late, beside a buffer in which each node opens at once.
ghost use Rattle.std.specs.Prelude.{◌≡◌, ◌+◌, ◌<◌, ◌≤◌, ◌^◌, ℕ, true, None, IfOk, OnOk, option_map};
ghost use Rattle.std.specs.FinMap as map;
ghost use Rattle.gcx_model.specs.Past.{IsNode};
ghost use Rattle.buf_tree.specs.PassedCalls.{OpenedWith};
ghost use Rattle.buf_tree.specs.Shape.{at_place};
ghost use Rattle.buf_tree.specs.View.{InUse, Innermost, level_in};
ghost use Rattle.buffer_tests.specs.Passed.{HasTop};

use super::{MANY, first_row, row_behind};
use buf_tree::{Buffer, Row};
use gcx_base::{Kind, Name, Role, Serial, Text};
use gcx_model::Given;
use node_store::{NodeStore, Place, SlabNodes};
use raw_nodes::RawNodes;
use role_set::RoleSet;
use std::alloc::Global;
use std::fmt::Write;
use std::process::Abort;
use std::test::Fail;

/// More elements than are open at once.
const DEEP: u64 = 1_000;

/// A document, and what is told of the rows.
///
/// A letter is an element below the one before it; all of them stay open. `.` and `:` are texts. A capital letter and `:`
/// are given a role, the others none. Each row is told by its name, its serial, `+` where it is open, and behind `^` its
/// parent's serial; then the numbers of rows, of nodes, and of pairs of a row and a role, and the greatest number of rows so
/// far. The document node has a role too.
type Case = (&'static str, &'static str);

const CASES: [Case; 7] = [
    ("", " /0+^0 h1 n1 e1 most 1"),
    // nothing needs a row before the end
    ("abc", " /0+^0 a1+^0 b2+^1 c3+^2 h4 n4 e1 most 4"),
    // texts are counted, and have no row
    ("a.b.", " /0+^0 a1+^0 b3+^1 h3 n5 e1 most 3"),
    // an element that is given a role needs the rows of those above it
    ("ab.C", " /0+^0 a1+^0 b2+^1 C4+^2 h4 n5 e2 most 4"),
    // so does a text
    ("ab:c", " /0+^0 a1+^0 b2+^1 :3^2 c4+^2 h5 n5 e2 most 5"),
    // elements are passed below a row again
    (
        "aB.cd:",
        " /0+^0 a1+^0 B2+^1 c4+^2 d5+^4 :6^5 h6 n7 e3 most 6",
    ),
    (
        "A:b.cD",
        " /0+^0 A1+^0 :2^1 b3+^1 c5+^3 D6+^5 h6 n7 e4 most 6",
    ),
];

/// The innermost open row, and the serial above which there is no row.
#[derive(Clone, Copy)]
struct Top {
    place: Place,
    last: u64,
}

fn is_text(letter: u8) -> bool {
    letter == b'.' || letter == b':'
}

fn has_role(letter: u8) -> bool {
    letter == b':' || (letter >= b'A' && letter <= b'Z')
}

fn name_of(alloc: Global, letter: u8) -> Result<Name, Fail> {
    match Name::from_bytes(alloc, &[letter])? {
        Some(name) => Ok(name),
        None => Err(Fail::new("no name")),
    }
}

fn text_of(alloc: Global, letter: u8) -> Result<Text, Fail> {
    match Text::from_bytes(alloc, &[letter])? {
        Some(text) => Ok(text),
        None => Err(Fail::new("no text")),
    }
}

fn kind_of(alloc: Global, letter: u8) -> Result<Kind, Fail>
    ensures { IfOk result (λ kind. IsNode kind) }
{
    if is_text(letter) {
        let text = text_of(alloc, letter)?;
        Ok(Kind::Text(text))
    } else {
        let name = name_of(alloc, letter)?;
        Ok(Kind::Element(name))
    }
}

fn roles_of(alloc: Global, letter: u8) -> Result<RoleSet, Fail> {
    let mut roles = RoleSet::new(alloc);
    if has_role(letter) {
        roles.give(Role(0))?;
    }
    Ok(roles)
}

/// Whether a row with this serial may come behind the others, of so many nodes.
fn may_follow(top: Top, serial: u64, nodes: u64) -> bool
    ensures { result ≡ true → (top.last < serial) × (serial < nodes) × (serial ≤ 1000) }
{
    top.last < serial && serial < nodes && serial <= DEEP
}

/// A buffer that has the document node.
fn begun<N: NodeStore<Row> + Drop>(alloc: Global, nodes: N) -> Result<(Buffer<N>, Top), Fail>
    requires { N.rows nodes ≡ map.empty }
    ensures { IfOk result (λ x. HasTop x.0 x.1.place.0 x.1.last) }
{
    let mut given = Given::new(alloc);
    given.push(Role(0))?;
    let buffer = Buffer::new(alloc, nodes, given)?;
    let Some(place) = buffer.root() else {
        return Err("no root")?;
    };
    Ok((buffer, Top { place, last: 0 }))
}

/// A node opened with these roles. Where it is said that none of them is kept at it, all are, since none is spread.
fn opened<N: NodeStore<Row>>(
    alloc: Global,
    buffer: &mut Buffer<N>,
    parent: Place,
    kind: Kind,
    roles: &RoleSet,
    said: bool,
) -> Result<Option<Place>, Fail>
    requires parent { Innermost buffer.old.rows parent.0 }
    requires kind { IsNode kind }
    requires nodes { buffer.old.nodes ≤ 2 ^ 40 + 1 }
    requires depth { level_in (at_place parent.0 buffer.old.rows) ≤ 1000 }
    requires plain { buffer.old.spread ≡ None }
    ensures { IfOk result (λ p. OpenedWith buffer.old buffer.new parent.0 (option_map (λ q. q.0) p) kind roles.now 0) }
{
    let none = RoleSet::new(alloc);
    let kept = if said { &none } else { roles };
    let place = buffer.open_kept(alloc, parent, kind, roles, kept)?;
    Ok(place)
}

/// Opens the node of the letter with its roles.
fn open_now<N: NodeStore<Row>>(
    alloc: Global,
    buffer: &mut Buffer<N>,
    top: Top,
    letter: u8,
    said: bool,
) -> Result<Top, Fail>
    requires { HasTop buffer.old top.place.0 top.last }
    ensures { IfOk result (λ t. HasTop buffer.new t.place.0 t.last) }
{
    let serial = buffer.nodes();
    if !may_follow(top, serial, MANY) {
        return Err("too many nodes")?;
    }
    let kind = kind_of(alloc, letter)?;
    let text = kind.is_text();
    let roles = roles_of(alloc, letter)?;
    let opened = opened(alloc, buffer, top.place, kind, &roles, said)?;
    match opened {
        Some(place) => {
            if text {
                Ok(Top {
                    place: top.place,
                    last: serial,
                })
            } else {
                Ok(Top {
                    place,
                    last: serial,
                })
            }
        }
        None => Ok(top),
    }
}

/// Makes the row of the passed element of the letter.
fn open_late<N: NodeStore<Row>>(
    alloc: Global,
    buffer: &mut Buffer<N>,
    top: Top,
    letter: u8,
    serial: u64,
) -> Result<Top, Fail>
    requires { HasTop buffer.old top.place.0 top.last }
    ensures { IfOk result (λ t. HasTop buffer.new t.place.0 t.last) }
{
    if !may_follow(top, serial, buffer.nodes()) {
        return Err("not passed")?;
    }
    let name = name_of(alloc, letter)?;
    let place = buffer.open_passed(alloc, top.place, name, Serial(serial))?;
    Ok(Top {
        place,
        last: serial,
    })
}

/// Makes the rows of the elements that were passed.
fn settle<N: NodeStore<Row>>(
    alloc: Global,
    buffer: &mut Buffer<N>,
    top: Top,
    passed: &[(u8, u64)],
) -> Result<Top, Fail>
    requires { HasTop buffer.old top.place.0 top.last }
    ensures { IfOk result (λ t. HasTop buffer.new t.place.0 t.last) }
{
    let mut top = top;
    for element in passed {
        top = open_late(alloc, buffer, top, element.0, element.1)?;
    }
    Ok(top)
}

/// Passes the node of the letter, which is given no role.
fn pass<N: NodeStore<Row>>(
    buffer: &mut Buffer<N>,
    passed: &mut Vec<(u8, u64)>,
    letter: u8,
) -> Result<(), Fail>
    ensures { OnOk result ((p last : ℕ) → HasTop buffer.old p last → HasTop buffer.new p last) }
{
    let serial = buffer.nodes();
    if serial > MANY {
        return Err("too many nodes")?;
    }
    buffer.pass();
    if !is_text(letter) {
        passed.push((letter, serial))?;
    }
    Ok(())
}

/// Passes the node of the letter or, where it is given a role, opens it below the rows of those that were passed.
fn take_letter<N: NodeStore<Row>>(
    alloc: Global,
    buffer: &mut Buffer<N>,
    top: Top,
    passed: &mut Vec<(u8, u64)>,
    letter: u8,
) -> Result<Top, Fail>
    requires { HasTop buffer.old top.place.0 top.last }
    ensures { IfOk result (λ t. HasTop buffer.new t.place.0 t.last) }
{
    if !has_role(letter) {
        pass(buffer, passed, letter)?;
        return Ok(top);
    }
    let below = settle(alloc, buffer, top, &*passed)?;
    passed.clear();
    let opened = open_now(alloc, buffer, below, letter, false)?;
    Ok(opened)
}

/// A row's name, serial, openness and parent's serial.
fn put_node<N: NodeStore<Row>>(
    out: &mut String,
    buffer: &Buffer<N>,
    place: Place,
) -> Result<(), Fail>
    requires { InUse buffer.now.rows place.0 }
{
    let at = buffer.at(place);
    let above = match at.parent() {
        Some(parent) => parent.payload().serial().0,
        None => 0,
    };
    match at.payload().kind() {
        Kind::Document => out.push_str(" /")?,
        Kind::Element(name) => write!(out, " {}", name.as_str())?,
        Kind::Text(text) => write!(out, " {}", text.as_str())?,
    }
    let mark = if buffer.is_closed(place) { "" } else { "+" };
    write!(out, "{}{mark}^{above}", buffer.serial(place).0)?;
    Ok(())
}

/// The rows, and the numbers but for the last one.
pub(super) fn told_rows<N: NodeStore<Row>>(
    alloc: Global,
    buffer: &Buffer<N>,
) -> Result<String, Fail> {
    let mut out = String::new(alloc);
    let mut at = first_row(buffer);
    for _ in 0..buffer.held() {
        let Some(place) = at else {
            return Err("no row")?;
        };
        put_node(&mut out, buffer, place)?;
        at = row_behind(buffer, buffer.serial(place).0);
    }
    write!(out, " h{} n{}", buffer.held(), buffer.nodes())?;
    write!(out, " e{}", buffer.entries())?;
    Ok(out)
}

fn told<N: NodeStore<Row>>(alloc: Global, buffer: &Buffer<N>) -> Result<String, Fail> {
    let mut out = told_rows(alloc, buffer)?;
    write!(out, " most {}", buffer.most())?;
    Ok(out)
}

/// What is told where each node opens at once.
fn told_at_once<N: NodeStore<Row> + Drop>(
    alloc: Global,
    nodes: N,
    document: &str,
    said: bool,
) -> Result<String, Fail>
    requires { N.rows nodes ≡ map.empty }
{
    let (mut buffer, mut top) = begun(alloc, nodes)?;
    for letter in document.as_bytes() {
        top = open_now(alloc, &mut buffer, top, *letter, said)?;
    }
    told(alloc, &buffer)
}

/// What is told where rows are made late.
fn told_late<N: NodeStore<Row> + Drop>(
    alloc: Global,
    nodes: N,
    document: &str,
) -> Result<String, Fail>
    requires { N.rows nodes ≡ map.empty }
{
    let (mut buffer, mut top) = begun(alloc, nodes)?;
    let mut passed = Vec::new(alloc);
    for letter in document.as_bytes() {
        top = take_letter(alloc, &mut buffer, top, &mut passed, *letter)?;
    }
    settle(alloc, &mut buffer, top, &passed)?;
    told(alloc, &buffer)
}

/// It is told so where rows are made late.
fn is_told_late<N: NodeStore<Row> + Drop>(
    rt: &impl Abort,
    alloc: Global,
    nodes: N,
    case: Case,
) -> Result<(), Fail>
    requires { N.rows nodes ≡ map.empty }
{
    let (document, want) = case;
    let got = told_late(alloc, nodes, document)?;
    assert_eq!(rt; got.as_str(), want, "late: {document}");
    Ok(())
}

/// And where each node opens at once.
fn is_told_at_once<N: NodeStore<Row> + Drop>(
    rt: &impl Abort,
    alloc: Global,
    nodes: N,
    case: Case,
    said: bool,
) -> Result<(), Fail>
    requires { N.rows nodes ≡ map.empty }
{
    let (document, want) = case;
    let got = told_at_once(alloc, nodes, document, said)?;
    assert_eq!(rt; got.as_str(), want, "at once, {said}: {document}");
    Ok(())
}

#[test]
fn rows_made_late_are_those_of_nodes_opened_at_once(rt: HostRuntime) -> Result<(), Fail> {
    let alloc = rt.alloc();
    for case in CASES {
        is_told_late(&rt, alloc, SlabNodes::new(alloc), case)?;
        is_told_late(&rt, alloc, RawNodes::new(alloc), case)?;
        is_told_at_once(&rt, alloc, SlabNodes::new(alloc), case, false)?;
        is_told_at_once(&rt, alloc, RawNodes::new(alloc), case, false)?;
    }
    Ok(())
}

#[test]
fn where_no_role_is_spread_all_are_kept_whatever_is_said(rt: HostRuntime) -> Result<(), Fail> {
    let alloc = rt.alloc();
    for case in CASES {
        is_told_at_once(&rt, alloc, SlabNodes::new(alloc), case, true)?;
        is_told_at_once(&rt, alloc, RawNodes::new(alloc), case, true)?;
    }
    Ok(())
}
