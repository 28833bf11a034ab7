//! Buffers to which projectors feed documents, over both stores.
ghost use Rattle.std.specs.Prelude.{◌≡◌, [], true, IfOk, OnOk, IfSome, List, ℕ};
ghost use Rattle.std.specs.FinMap as map;
ghost use Rattle.gcx_base.specs.Limits.{full_limits};
ghost use Rattle.gcx_model.specs.Members.{In};
ghost use Rattle.gcx_model.specs.Core.{BodyTree, PlanTree};
ghost use Rattle.gcx_model.specs.Cores.{Good};
ghost use Rattle.gcx_model.specs.Held.{roles_given};
ghost use Rattle.gcx_model.specs.ItemView.{body_tree, off_tree};
ghost use Rattle.gcx_model.specs.Past.{opening_past};
ghost use Rattle.gcx_model.specs.Placed.{Placed, offs_in};
ghost use Rattle.gcx_model.specs.PlanView.{plan_tree};
ghost use Rattle.gcx_model.specs.Tree.{Root, opening};
ghost use Rattle.doc_reader.specs.Standing.{ReaderView, Stands};
ghost use Rattle.projector.specs.declared.projector.Projector.{Projector};
ghost use Rattle.buf_tree.specs.Calls.{Started, numbers};
ghost use Rattle.buf_tree.specs.Stands.{StandsFor};
ghost use Rattle.buf_tree.specs.View.{InUse};
ghost use Rattle.buffer_tests.specs.Buffers.{IsFed, OwnPlain, StaysFed};

mod given;
mod kept;
mod large;
mod late;
mod matches;
mod passed;
mod statements;
mod taken;

use buf_tree::{Buffer, Row};
use doc_reader::Reader;
use gcx_base::{Axis, Limits, Serial, Step, Test};
use gcx_model::{Body, Given, Item, Off, Plan};
use node_store::{NodeStore, Place, SlabNodes};
use placed_laws::normal_is_good;
use projector::{Fed, Projector};
use raw_nodes::RawNodes;
use signoff_place::compile;
use std::alloc::Global;
use std::fmt::Write;
use std::process::Abort;
use std::test::Fail;
use xq_parse::parse;

/// More nodes than the tests feed.
const MANY: u64 = 1_000_000;

/// A query, a document, a script, and what is told.
///
/// A word of a script is a number of tokens to feed, `oR@S`, which carries out role R's statement at node S, or `?`.
/// It is told by `+S{R,..}` that node S was opened and given these roles, by `-S` that it was closed, and by `o` that a
/// statement was carried out; behind these, `~N` says that N roles were taken back, and `xS` that node S left. For `?`
/// the held nodes are told, an open one with `+`, and the numbers of these, of all nodes, of the roles taken back and of
/// the statements that wait. At the end the greatest number of rows so far is told.
type Case<'a> = (&'a str, &'a str, &'a str, &'a str);

/// The plan of the query.
fn plan_of(alloc: Global, query: &[u8]) -> Result<Plan, Fail>
    ensures { IfOk result (λ plan. (core : BodyTree) × Good core × Placed core (plan_tree plan)) }
{
    normal_is_good();
    let query = parse(alloc, query)?;
    Ok(compile(alloc, &query)?)
}

/// A reader that was given the whole document.
fn read(alloc: Global, document: &[u8]) -> Result<Reader, Fail>
    ensures { IfOk result (λ reader. Stands reader full_limits document.now true []) }
{
    let mut reader = Reader::new(alloc, Limits::full());
    reader.feed(document)?;
    reader.finish()?;
    Ok(reader)
}

/// The statement of the role in the body.
fn off_of(body: &Body, role: u32) -> Option<&Off>
    ensures { IfSome result (λ off. In (off_tree off.now) (offs_in (body_tree body.now))) }
{
    for item in body.items() {
        match item {
            Item::For { body, .. } => {
                if let Some(off) = off_of(body, role) {
                    return Some(off);
                }
            }
            Item::Off(off) if off.role.0 == role => return Some(off),
            _ => {}
        }
    }
    None
}

/// The row of the document node.
fn first_row<N: NodeStore<Row>>(buffer: &Buffer<N>) -> Option<Place>
    ensures { IfSome result (λ p. InUse buffer.now.rows p.0) }
{
    buffer.root()
}

/// The first row below this one of those behind the serial.
fn row_below<N: NodeStore<Row>>(buffer: &Buffer<N>, top: Place, serial: u64) -> Option<Place>
    requires { InUse buffer.now.rows top.0 }
    ensures { IfSome result (λ p. InUse buffer.now.rows p.0) }
{
    let step = Step {
        axis: Axis::Descendant,
        test: Test::AnyNode,
    };
    buffer.next_match(top, &step, Serial(serial))
}

/// The first row behind this serial.
fn row_behind<N: NodeStore<Row>>(buffer: &Buffer<N>, serial: u64) -> Option<Place>
    ensures { IfSome result (λ p. InUse buffer.now.rows p.0) }
{
    match first_row(buffer) {
        Some(root) => row_below(buffer, root, serial),
        None => None,
    }
}

/// The first row from this serial on.
fn row_from<N: NodeStore<Row>>(buffer: &Buffer<N>, serial: u64) -> Option<Place>
    ensures { IfSome result (λ p. InUse buffer.now.rows p.0) }
{
    if serial == 0 {
        first_row(buffer)
    } else {
        row_behind(buffer, serial - 1)
    }
}

/// The row of the node.
fn place_of<N: NodeStore<Row>>(buffer: &Buffer<N>, serial: u64) -> Result<Place, Fail>
    ensures { IfOk result (λ p. InUse buffer.now.rows p.0) }
{
    match row_from(buffer, serial) {
        Some(place) => {
            if buffer.serial(place).0 == serial {
                Ok(place)
            } else {
                Err("another row")?
            }
        }
        None => Err("no row")?,
    }
}

fn put_opened(out: &mut String, serial: Serial, given: &Given) -> Result<(), Fail> {
    write!(out, "+{}", serial.0)?;
    let mut mark = '{';
    for role in given.items() {
        write!(out, "{mark}{}", role.0)?;
        mark = ',';
    }
    if mark == ',' {
        out.push('}')?;
    }
    Ok(())
}

fn put_fed(out: &mut String, fed: &Fed) -> Result<(), Fail> {
    match fed {
        Fed::Opened(serial, given) => put_opened(out, *serial, given),
        Fed::Closed(serial) => Ok(write!(out, "-{}", serial.0)?),
    }
}

/// Feeds one token.
fn feed_one<N: NodeStore<Row>>(
    alloc: Global,
    out: &mut String,
    reader: &mut Reader,
    projector: &mut Projector,
    buffer: &mut Buffer<N>,
) -> Result<(), Fail>
    requires { (plan : PlanTree) × IsFed plan reader.old projector.old buffer.old }
    ensures { OnOk result ((plan : PlanTree) → IsFed plan reader.old projector.old buffer.old →
        IsFed plan reader.new projector.new buffer.new) }
{
    let taken = buffer.taken();
    if buffer.nodes() > MANY {
        return Err("too many nodes")?;
    }
    let Some(token) = reader.next() else {
        return Err("no token")?;
    };
    out.push(' ')?;
    let fed = projector.feed_token(alloc, buffer, token)?;
    put_fed(out, &fed)?;
    put_changes(out, buffer, taken)
}

/// Feeds tokens, so many.
fn feed<N: NodeStore<Row>>(
    alloc: Global,
    out: &mut String,
    reader: &mut Reader,
    projector: &mut Projector,
    buffer: &mut Buffer<N>,
    count: u32,
) -> Result<(), Fail>
    requires { (plan : PlanTree) × IsFed plan reader.old projector.old buffer.old }
    ensures { OnOk result ((plan : PlanTree) → IsFed plan reader.old projector.old buffer.old →
        IsFed plan reader.new projector.new buffer.new) }
{
    for _ in 0..count {
        feed_one(alloc, out, reader, projector, buffer)?;
    }
    Ok(())
}

/// Carries out a statement of the plan at the node of this row.
fn carry_out<N: NodeStore<Row>>(
    alloc: Global,
    buffer: &mut Buffer<N>,
    place: Place,
    off: &Off,
) -> Result<(), Fail>
    requires place { InUse buffer.old.rows place.0 }
    requires fed { (plan : PlanTree) × (reader : ReaderView) × (projector : Projector) ×
        IsFed plan reader projector buffer.old × In (off_tree off.now) (offs_in plan.body) }
    ensures { OnOk result (StaysFed off.now buffer.old buffer.new) }
{
    if !buffer.is_due(place, off) {
        return Err("not due")?;
    }
    if off.is_own() || buffer.is_closed(place) {
        buffer.sign_off(place, off)?;
    } else {
        buffer.sign_ahead(alloc, place, off)?;
    }
    Ok(())
}

/// The role and the node of a word `R@S`.
fn role_and_node(word: &str) -> Result<(u32, u64), Fail> {
    let (role, serial) = word.split_once('@').ok_or("no node")?;
    Ok((role.parse::<u32>()?, serial.parse::<u64>()?))
}

/// Carries out the statement of a word `R@S`.
fn sign<N: NodeStore<Row>>(
    alloc: Global,
    out: &mut String,
    buffer: &mut Buffer<N>,
    plan: &Plan,
    word: &str,
) -> Result<(), Fail>
    requires { (reader : ReaderView) × (projector : Projector) × IsFed (plan_tree plan.now) reader projector buffer.old }
    ensures { OnOk result ((reader : ReaderView) (projector : Projector) →
        IsFed (plan_tree plan.now) reader projector buffer.old → IsFed (plan_tree plan.now) reader projector buffer.new) }
{
    let (role, serial) = role_and_node(word)?;
    let Some(off) = off_of(&plan.body, role) else {
        return Err("no statement")?;
    };
    let place = place_of(&*buffer, serial)?;
    let taken = buffer.taken();
    carry_out(alloc, buffer, place, off)?;
    out.push_str(" o")?;
    put_changes(out, buffer, taken)
}

/// Tells what a call took back, and what left.
fn put_changes<N: NodeStore<Row>>(
    out: &mut String,
    buffer: &mut Buffer<N>,
    before: u128,
) -> Result<(), Fail>
    ensures { OnOk result (buffer.new ≡ record buffer.old { gone = [] }) }
{
    let taken = buffer.taken().saturating_sub(before);
    if taken > 0 {
        write!(out, " ~{taken}")?;
    }
    for serial in buffer.gone() {
        write!(out, " x{}", serial.0)?;
    }
    buffer.clear_gone();
    Ok(())
}

fn put_row<N: NodeStore<Row>>(
    out: &mut String,
    buffer: &Buffer<N>,
    place: Place,
) -> Result<(), Fail>
    requires { InUse buffer.now.rows place.0 }
{
    let mark = if buffer.is_closed(place) { "" } else { "+" };
    write!(out, " {}{mark}", buffer.serial(place).0)?;
    Ok(())
}

/// Tells the rows.
fn put_rows<N: NodeStore<Row>>(out: &mut String, buffer: &Buffer<N>) -> Result<(), Fail> {
    let mut at = first_row(buffer);
    for _ in 0..buffer.held() {
        let Some(place) = at else {
            return Err("no row")?;
        };
        put_row(out, buffer, place)?;
        at = row_behind(buffer, buffer.serial(place).0);
    }
    if at.is_some() {
        Err("more rows than are held")?;
    }
    Ok(())
}

/// Tells the rows and the numbers.
fn put_all<N: NodeStore<Row>>(out: &mut String, buffer: &Buffer<N>) -> Result<(), Fail> {
    out.push_str(" (")?;
    put_rows(out, buffer)?;
    write!(out, " h{} n{}", buffer.held(), buffer.nodes())?;
    write!(out, " t{} w{} )", buffer.taken(), buffer.waiting().len())?;
    Ok(())
}

/// A buffer that has the document node, given these roles, whose roles of whole subtrees are spread or aren't.
fn buffer_of<N: NodeStore<Row> + Drop>(
    alloc: Global,
    nodes: N,
    given: Given,
    plan: &Plan,
    spread: bool,
) -> Result<Buffer<N>, Fail>
    requires empty { N.rows nodes ≡ map.empty }
    requires placed { (core : BodyTree) × Good core × Placed core (plan_tree plan.now) }
    requires given { numbers given ≡ roles_given (plan_tree plan.now) opening Root }
    ensures started { IfOk result (λ buffer. Started buffer given) }
    ensures stands { IfOk result (λ buffer. StandsFor buffer (opening_past (plan_tree plan.now))) }
{
    if spread {
        Ok(Buffer::new_spread(alloc, nodes, given, plan)?)
    } else {
        Ok(Buffer::new(alloc, nodes, given)?)
    }
}

/// A projector and a buffer that have the document node, whose roles are told.
fn begin<N: NodeStore<Row> + Drop>(
    alloc: Global,
    out: &mut String,
    nodes: N,
    plan: &Plan,
    spread: bool,
) -> Result<(Projector, Buffer<N>), Fail>
    requires empty { N.rows nodes ≡ map.empty }
    requires placed { (core : BodyTree) × Good core × Placed core (plan_tree plan.now) }
    ensures { IfOk result (λ x. (reader : ReaderView) (document : List ℕ) →
        Stands reader full_limits document true [] → IsFed (plan_tree plan.now) reader x.0 x.1) }
{
    let projector = Projector::new(alloc, plan)?;
    let given = projector.document(alloc)?;
    put_opened(out, Serial(0), &given)?;
    let buffer = buffer_of(alloc, nodes, given, plan, spread)?;
    Ok((projector, buffer))
}

/// Does what a word of a script says.
fn follow<N: NodeStore<Row>>(
    alloc: Global,
    out: &mut String,
    reader: &mut Reader,
    projector: &mut Projector,
    buffer: &mut Buffer<N>,
    plan: &Plan,
    word: &str,
) -> Result<(), Fail>
    requires { IsFed (plan_tree plan.now) reader.old projector.old buffer.old }
    ensures { OnOk result (IsFed (plan_tree plan.now) reader.new projector.new buffer.new) }
{
    if word == "?" {
        put_all(out, buffer)
    } else if let Some(word) = word.strip_prefix('o') {
        sign(alloc, out, buffer, plan, word)
    } else {
        let count = word.parse::<u32>()?;
        feed(alloc, out, reader, projector, buffer, count)
    }
}

/// Does what the words of a script say.
fn follow_all<N: NodeStore<Row>>(
    alloc: Global,
    out: &mut String,
    reader: &mut Reader,
    projector: &mut Projector,
    buffer: &mut Buffer<N>,
    plan: &Plan,
    script: &str,
) -> Result<(), Fail>
    requires { IsFed (plan_tree plan.now) reader.old projector.old buffer.old }
    ensures { OnOk result (IsFed (plan_tree plan.now) reader.new projector.new buffer.new) }
{
    for word in script.split_ascii_whitespace() {
        follow(alloc, out, reader, projector, buffer, plan, word)?;
    }
    Ok(())
}

/// The buffer at the end of the script, with the tokens of this reader.
fn followed_from<N: NodeStore<Row> + Drop>(
    alloc: Global,
    out: &mut String,
    nodes: N,
    plan: &Plan,
    reader: &mut Reader,
    script: &str,
    spread: bool,
) -> Result<Buffer<N>, Fail>
    requires empty { N.rows nodes ≡ map.empty }
    requires placed { (core : BodyTree) × Good core × Placed core (plan_tree plan.now) }
    requires read { (document : List ℕ) × Stands reader.old full_limits document true [] }
    ensures { IfOk result (λ buffer. OwnPlain (plan_tree plan.now) buffer) }
{
    let (mut projector, mut buffer) = begin(alloc, out, nodes, plan, spread)?;
    follow_all(
        alloc,
        out,
        reader,
        &mut projector,
        &mut buffer,
        plan,
        script,
    )?;
    Ok(buffer)
}

/// The buffer at the end of the script.
fn followed<N: NodeStore<Row> + Drop>(
    alloc: Global,
    out: &mut String,
    nodes: N,
    plan: &Plan,
    document: &[u8],
    script: &str,
    spread: bool,
) -> Result<Buffer<N>, Fail>
    requires empty { N.rows nodes ≡ map.empty }
    requires placed { (core : BodyTree) × Good core × Placed core (plan_tree plan.now) }
    ensures { IfOk result (λ buffer. OwnPlain (plan_tree plan.now) buffer) }
{
    let mut reader = read(alloc, document)?;
    followed_from(alloc, out, nodes, plan, &mut reader, script, spread)
}

/// What the script tells by the plan.
fn told_by<N: NodeStore<Row> + Drop>(
    alloc: Global,
    nodes: N,
    plan: &Plan,
    document: &[u8],
    script: &str,
    spread: bool,
) -> Result<String, Fail>
    requires empty { N.rows nodes ≡ map.empty }
    requires placed { (core : BodyTree) × Good core × Placed core (plan_tree plan.now) }
{
    let mut out = String::new(alloc);
    let buffer = followed(alloc, &mut out, nodes, plan, document, script, spread)?;
    write!(out, " most {}", buffer.into_nodes().most())?;
    Ok(out)
}

/// What the script tells.
fn told<N: NodeStore<Row> + Drop>(
    alloc: Global,
    nodes: N,
    query: &[u8],
    document: &[u8],
    script: &str,
    spread: bool,
) -> Result<String, Fail>
    requires { N.rows nodes ≡ map.empty }
{
    let plan = plan_of(alloc, query)?;
    told_by(alloc, nodes, &plan, document, script, spread)
}

/// This was told, and that is wanted; the other three say of what.
fn is_same(rt: &impl Abort, got: &str, want: &str, how: &str, query: &str, text: &str) {
    assert_eq!(rt; got, want, "{how}: {query} | {text}");
}

/// The script tells that over this store.
fn is_told_over<N: NodeStore<Row> + Drop>(
    rt: &impl Abort,
    alloc: Global,
    nodes: N,
    store: &str,
    case: Case<'_>,
    spread: bool,
) -> Result<(), Fail>
    requires { N.rows nodes ≡ map.empty }
{
    let (query, document, script, want) = case;
    let (bytes, tokens) = (query.as_bytes(), document.as_bytes());
    let got = told(alloc, nodes, bytes, tokens, script, spread)?;
    is_same(rt, got.as_str(), want, store, query, document);
    Ok(())
}

/// It does over both stores, and where roles are spread.
fn is_told(rt: &impl Abort, alloc: Global, case: Case<'_>) -> Result<(), Fail> {
    is_told_over(rt, alloc, SlabNodes::new(alloc), "slab", case, false)?;
    is_told_over(rt, alloc, RawNodes::new(alloc), "raw", case, false)?;
    is_told_over(rt, alloc, RawNodes::new(alloc), "spread", case, true)
}

/// These scripts tell that.
fn are_told(rt: &impl Abort, alloc: Global, cases: &[Case<'_>]) -> Result<(), Fail> {
    for case in cases {
        is_told(rt, alloc, *case)?;
    }
    Ok(())
}
