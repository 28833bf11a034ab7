//! The lines of a trace, of tokens and of actions.
ghost use Rattle.std.specs.Prelude.{◌≡◌, ◌∷◌, ◌++◌, [], ℕ, Bool, Some, None, true, false, length, map, IfOk, OnOk, OnErr};
ghost use Rattle.gcx_model.specs.Demand as demand;
ghost use Rattle.gcx_model.specs.Demand.{text_of_lines};
ghost use Rattle.doc_reader.specs.Standing.{said_of};
ghost use Rattle.buf_trace.specs.Lines.{kind_tree};
ghost use Rattle.buf_tree.specs.Calls.{numbers};
ghost use Rattle.buf_tree.specs.Rows.{serials};
ghost use Rattle.outside.specs.Places.{Few};
ghost use Rattle.run_part.specs.Flows.{SameOutlets, SpilledAt};
ghost use Rattle.run_part.specs.Telling.{GrewPart, acted_lines, document_text, fed_line, kind_said, told_lines};
ghost use Rattle.run_part.specs.View.{LinesView};

use buf_trace::{Line, LineKind, put_line};
use doc_reader::Token;
use gcx_base::{Memory, Serial};
use gcx_model::Given;
use outside::Outside;
use projector::Fed;
use pull_eval::Acted;
use std::alloc::Global;
use std::marker::Model;

/// The lines of a trace that wait, or none, and where output and lines go. They are a type parameter of a part, so that a run
/// without a trace has no test of a flag. `Memory` is want of memory, and the only error.
pub trait Lines {
    /// Whether lines are wanted.
    ghost wanted: { Bool };

    /// The text of those that wait, and the places to which output and lines go.
    ghost seen: { Self → LinesView };

    /// Appends the line of the document node, which is given these roles.
    fn begin(&mut self, alloc: Global, given: &Given) -> Result<(), Memory>
        ensures opened { OnOk result (wanted ≡ true
            → (seen self.new).waits ≡ (seen self.old).waits ++ document_text given.now) }
        ensures places { SameOutlets (seen self.old) (seen self.new) };

    /// Appends the lines of an action: which it was, and each node that left. After `Memory`, which comes only where they are
    /// wanted, a front of them stands there.
    fn tell(&mut self, acted: Acted, gone: &[Serial]) -> Result<(), Memory>
        ensures told { OnOk result (wanted ≡ true → (seen self.new).waits
            ≡ (seen self.old).waits ++ text_of_lines (acted_lines acted ++ map demand.Left (serials gone.now))) }
        ensures part { OnErr result ((wanted ≡ true) × GrewPart (seen self.old).waits (seen self.new).waits
            (text_of_lines (acted_lines acted ++ map demand.Left (serials gone.now)))) }
        ensures places { SameOutlets (seen self.old) (seen self.new) };

    /// The text of those that wait.
    fn text(&self) -> &[u8]
        ensures { result.now ≡ (seen self.now).waits };

    /// None wait any more.
    fn clear(&mut self)
        ensures { seen self.new ≡ record (seen self.old) { waits = [] } };

    /// The place to which the output goes.
    fn output_place(&self) -> usize
        ensures { result ≡ (seen self.now).output_at };

    /// Whether they may wait.
    fn may_wait<O: Outside>(&self, to: &O) -> bool
        ensures { result ≡ true → Few (O.most to.now false) (length (seen self.now).waits) };

    /// Has them all written.
    fn spill<O: Outside>(&mut self, to: &mut O)
        requires { (p : ℕ) → (seen self.old).lines_at ≡ Some p → O.may to.old p }
        ensures spilled { SpilledAt (seen self.old).lines_at (O.sinks to.old) (O.sinks to.new)
            (seen self.old).waits (seen self.new).waits }
        ensures few { Few (O.most to.new true) (length (seen self.new).waits) }
        ensures places { SameOutlets (seen self.old) (seen self.new) }
        ensures writes { O.writes to.old to.new };

    /// Lines don't go where the output goes.
    ghost apart: { (s : Self) → (seen s).lines_at ≡ Some (seen s).output_at → ⊥ };

    /// Where none are wanted none wait.
    ghost none_wait: { (s : Self) → wanted ≡ false → (seen s).waits ≡ [] };

    /// And there is no place for them.
    ghost no_place: { (s : Self) → wanted ≡ false → (seen s).lines_at ≡ None };
}

/// No lines. The output goes to this place.
#[derive(Drop)]
pub struct NoLines {
    pub place: usize,
}

impl Lines for NoLines {
    ghost use Rattle.std.specs.Prelude.{false};
    ghost use Rattle.std.proofs.Common.{refl};
    ghost use Rattle.run_part.specs.FlowLaws.{none_apart};
    ghost use Rattle.run_part.specs.Flows.{none_seen};

    ghost wanted = { false };

    ghost seen = { λ s. none_seen s.place };

    fn begin(&mut self, alloc: Global, given: &Given) -> Result<(), Memory> {
        Ok(())
    }

    #[inline(always)]
    fn tell(&mut self, acted: Acted, gone: &[Serial]) -> Result<(), Memory> {
        Ok(())
    }

    fn text(&self) -> &[u8] {
        &[]
    }

    fn clear(&mut self) {}

    #[inline(always)]
    fn output_place(&self) -> usize {
        self.place
    }

    #[inline(always)]
    fn may_wait<O: Outside>(&self, to: &O) -> bool {
        true
    }

    #[inline(always)]
    fn spill<O: Outside>(&mut self, to: &mut O) {}

    ghost apart = { λ s e. none_apart s.place e };

    ghost none_wait = { λ s unwanted. refl };

    ghost no_place = { λ s unwanted. refl };
}

/// The lines of a trace, seen as their text. The output goes to place 0, and they to place 1.
#[derive(Drop)]
pub struct TraceLines {
    text: Vec<u8>,
}

impl Model for TraceLines {
    ghost use Rattle.std.specs.Prelude.{ℕ, List};

    ghost Value = { List ℕ };

    ghost view = { λ t. t.text.items };
}

impl TraceLines {
    /// None yet.
    pub fn new(alloc: Global) -> TraceLines
        ensures { result ≡ [] }
    {
        TraceLines {
            text: Vec::new(alloc),
        }
    }

    /// Appends the lines of a token: what it did, where a node that it opened is of this kind, and each node that left. After
    /// `Memory` a front of them stands there.
    pub(crate) fn tell_token(
        &mut self,
        fed: Fed,
        kind: LineKind,
        gone: &[Serial],
    ) -> Result<(), Memory>
        ensures told { OnOk result (self.new
            ≡ self.old ++ text_of_lines (told_lines fed kind (serials gone.now))) }
        ensures part { OnErr result (GrewPart self.old self.new
            (text_of_lines (told_lines fed kind (serials gone.now)))) }
    {
        put_token(&mut self.text, fed, kind, gone)
    }
}

impl Lines for TraceLines {
    ghost use Rattle.std.specs.Prelude.{◌≡◌, [], Some, None, true};
    ghost use Rattle.run_part.specs.FlowLaws.{beside_output, none_unwanted};
    ghost use Rattle.run_part.specs.Flows.{trace_seen};

    ghost wanted = { true };

    ghost seen = { trace_seen };

    fn begin(&mut self, alloc: Global, given: &Given) -> Result<(), Memory> {
        let roles = given.copy(alloc)?;
        put_opened(&mut self.text, Serial(0), LineKind::Document, roles)
    }

    fn tell(&mut self, acted: Acted, gone: &[Serial]) -> Result<(), Memory> {
        put_acted(&mut self.text, acted, gone)
    }

    fn text(&self) -> &[u8] {
        &self.text
    }

    fn clear(&mut self) {
        self.text.clear();
    }

    fn output_place(&self) -> usize {
        0
    }

    fn may_wait<O: Outside>(&self, to: &O) -> bool {
        to.may_wait(self.text.len())
    }

    fn spill<O: Outside>(&mut self, to: &mut O) {
        to.spill(1, &mut self.text, true);
    }

    ghost apart = { λ s e. beside_output e };

    ghost none_wait = { λ s unwanted. none_unwanted (s ≡ []) unwanted };

    ghost no_place = { λ s unwanted. none_unwanted (Some 1 ≡ None) unwanted };
}

/// What a line tells of the node that the token opens.
pub(crate) fn kind_of(alloc: Global, token: &Token) -> Result<LineKind, Memory>
    ensures { IfOk result (λ kind. kind_tree kind ≡ kind_said (said_of token.now)) }
{
    Ok(match token {
        Token::Start(name) => LineKind::Element(name.copy(alloc)?),
        Token::Text(_) => LineKind::Text,
        Token::End | Token::EndOfDocument => LineKind::Document,
    })
}

/// Appends the line of a new node.
fn put_opened(
    trace: &mut Vec<u8>,
    serial: Serial,
    kind: LineKind,
    given: Given,
) -> Result<(), Memory>
    ensures ok { OnOk result (trace.new.items
        ≡ trace.old.items ++ text_of_lines (demand.Opened serial.0 (kind_tree kind) (numbers given) ∷ [])) }
    ensures err { OnErr result (trace.new.items ≡ trace.old.items) }
{
    let line = Line::Opened {
        serial,
        kind,
        given,
    };
    put_line(trace, &line)
}

/// Appends the lines of a token: what it did, where a node that it opened is of this kind, and each node that left. After
/// `Memory` a front of them stands there.
fn put_token(trace: &mut Vec<u8>, fed: Fed, kind: LineKind, gone: &[Serial]) -> Result<(), Memory>
    ensures told { OnOk result (trace.new.items
        ≡ trace.old.items ++ text_of_lines (told_lines fed kind (serials gone.now))) }
    ensures part { OnErr result (GrewPart trace.old.items trace.new.items
        (text_of_lines (told_lines fed kind (serials gone.now)))) }
{
    put_fed(trace, fed, kind)?;
    put_gone(trace, gone)?;
    Ok(())
}

/// Appends the line of a token. A node that it opened is of this kind. After `Memory` the trace is as before.
fn put_fed(trace: &mut Vec<u8>, fed: Fed, kind: LineKind) -> Result<(), Memory>
    ensures ok { OnOk result (trace.new.items ≡ trace.old.items ++ text_of_lines (fed_line fed (kind_tree kind) ∷ [])) }
    ensures err { OnErr result (trace.new.items ≡ trace.old.items) }
{
    match fed {
        Fed::Opened(serial, given) => put_opened(trace, serial, kind, given),
        Fed::Closed(serial) => put_line(trace, &Line::Closed(serial)),
    }
}

/// Appends the lines of an action: which it was, and each node that left. After `Memory` a front of them stands there.
#[inline(never)]
fn put_acted(trace: &mut Vec<u8>, acted: Acted, gone: &[Serial]) -> Result<(), Memory>
    ensures told { OnOk result (trace.new.items
        ≡ trace.old.items ++ text_of_lines (acted_lines acted ++ map demand.Left (serials gone.now))) }
    ensures part { OnErr result (GrewPart trace.old.items trace.new.items
        (text_of_lines (acted_lines acted ++ map demand.Left (serials gone.now)))) }
{
    put_action(trace, acted)?;
    put_gone(trace, gone)?;
    Ok(())
}

/// Appends the line of an action. After `Memory` the trace is as before.
fn put_action(trace: &mut Vec<u8>, acted: Acted) -> Result<(), Memory>
    ensures ok { OnOk result (trace.new.items ≡ trace.old.items ++ text_of_lines (acted_lines acted)) }
    ensures err { OnErr result (trace.new.items ≡ trace.old.items) }
{
    match acted {
        Acted::Wrote(count) => put_line(trace, &Line::Wrote(count)),
        Acted::SignedOff(serial, role) => put_line(trace, &Line::SignedOff { serial, role }),
        Acted::Blocked => Ok(()),
        Acted::Finished => Ok(()),
    }
}

/// Appends a line for each node that left. After `Memory` a front of the lines stands there.
fn put_gone(trace: &mut Vec<u8>, gone: &[Serial]) -> Result<(), Memory>
    ensures ok { OnOk result (trace.new.items ≡ trace.old.items ++ text_of_lines (map demand.Left (serials gone.now))) }
    ensures part { OnErr result (GrewPart trace.old.items trace.new.items
        (text_of_lines (map demand.Left (serials gone.now)))) }
{
    for serial in gone {
        put_line(trace, &Line::Gone(*serial))?;
    }
    Ok(())
}
