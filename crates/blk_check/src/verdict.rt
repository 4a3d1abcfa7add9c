ghost use Rattle.std.specs.Prelude.{◌≡◌, [], All, IfOk};
ghost use Rattle.asm_core.specs.Shape.{shapes_of};
ghost use Rattle.asm_core.specs.WellFormed.{IsInterface};
ghost use Rattle.blk_check.specs.Framed.{IsFramedIfOk};
ghost use Rattle.blk_check.specs.Judged.{AnyHasRoom, IsInterfaceOf, IsVerdict, IsShapesVerdict, IsLiveVerdict, IsReadVerdict, IsBlocksVerdict, IsPathsVerdict, IsAccepted, graphs_of, shapes_mark, lines_mark, no_room};
ghost use Rattle.blk_deps.specs.Findings.{AreFindings, IsStackBroken, stack_violations};
ghost use Rattle.blk_check.specs.Readable.{IsShort, first_unread};
ghost use Rattle.blk_check.specs.Stages.{HasReadings, Agrees, HasBlocks};

use crate::agreement::shape_findings;
use crate::blocks::blocks;
use crate::live::live_shapes;
use crate::readings::readings;
use crate::room::{any_has_room, first_roomy};
use crate::template::pieces_in;
use crate::unread::first_unread;
use asm_core::{
    Cell, Duplicate, Finding, Graph, Interface, Items, Lines, LinesEnd, Mark, MarkKind, Memory,
    Rule, Shape, Statement,
};
use asm_places::{ShapesEnd, shapes};
use blk_deps::{path_findings, stack_findings};
use std::alloc::Global;
use std::marker::Model;

/// That a statement is accepted, with copies of what it was judged by.
#[derive(Debug, Drop)]
pub struct Proof {
    statement: Statement,
    interface: Interface,
    shape: Shape,
    graph: Graph,
}

impl Model for Proof {
    ghost use Rattle.blk_check.specs.Proven.{Proven};

    ghost Value = { Proven };

    ghost view = { λ p. record { statement = p.statement; interface = p.interface; shape = p.shape; graph = p.graph } };
}

impl Proof {
    pub fn interface(&self) -> &Interface
        ensures { result.now ≡ self.now.interface }
    {
        &self.interface
    }

    /// The first shape that has a roomy placement.
    pub fn shape(&self) -> &Shape
        ensures { result.now ≡ self.now.shape }
    {
        &self.shape
    }

    /// The block of the lines that are read under that shape.
    pub fn graph(&self) -> &Graph
        ensures { result.now ≡ self.now.graph }
    {
        &self.graph
    }
}

/// What the rules say of a statement.
#[derive(Debug, Drop)]
pub enum Verdict {
    Ok(Proof),
    /// Each broken rule, in the order of reports.
    Broken(Items<Finding>),
    /// What lies outside the tables.
    Outside(Mark),
}

/// Judges a statement by its interface. What is accepted keeps the frame: under every placement of its operands that
/// the constraints allow, after every number of steps, it has changed only declared outputs and clobbers (this project's
/// own).
#[tactic(auto, using(crate::proofs::FrameOfAccepted::answer_framed))]
pub fn check(alloc: Global, statement: &Statement, interface: &Interface) -> Result<Verdict, Memory>
    requires interface { IsInterface interface.now }
    requires stated { IsInterfaceOf interface.now statement.now }
    ensures verdict { IfOk result (IsVerdict statement.now interface.now) }
    ensures framed { IfOk result IsFramedIfOk }
{
    judge(alloc, statement, interface)
}

/// The verdict on a statement by its interface.
fn judge(alloc: Global, statement: &Statement, interface: &Interface) -> Result<Verdict, Memory>
    requires interface { IsInterface interface.now }
    requires stated { IsInterfaceOf interface.now statement.now }
    ensures { IfOk result (IsVerdict statement.now interface.now) }
{
    let shapes = match shapes(alloc, interface) {
        Ok(shapes) => shapes,
        Err(ShapesEnd::TooMany) => return Ok(Verdict::Outside(shapes_mark(statement))),
        Err(ShapesEnd::Memory) => return Err(Memory),
    };
    check_shapes(alloc, statement, interface, shapes.as_slice())
}

/// Judges a statement that has these shapes, which aren't too many.
fn check_shapes(
    alloc: Global,
    statement: &Statement,
    interface: &Interface,
    shapes: &[Shape],
) -> Result<Verdict, Memory>
    requires interface { IsInterface interface.now }
    requires stated { IsInterfaceOf interface.now statement.now }
    requires shapes { shapes.now ≡ shapes_of interface.now }
    ensures { IfOk result (IsShapesVerdict statement.now interface.now shapes.now) }
{
    if any_has_room(interface, shapes) {
        return check_live(alloc, statement, interface, shapes);
    }
    Ok(Verdict::Broken(Items::from_slice(alloc, &[no_room()])?))
}

/// Judges a statement by those of its shapes that have an allowed placement.
fn check_live(
    alloc: Global,
    statement: &Statement,
    interface: &Interface,
    shapes: &[Shape],
) -> Result<Verdict, Memory>
    requires interface { IsInterface interface.now }
    requires stated { IsInterfaceOf interface.now statement.now }
    requires shapes { shapes.now ≡ shapes_of interface.now }
    requires room { AnyHasRoom interface.now shapes.now }
    ensures { IfOk result (IsLiveVerdict statement.now interface.now shapes.now) }
{
    let live = live_shapes(alloc, interface, shapes)?;
    let pieces = pieces_in(alloc, statement, interface)?;
    match readings(alloc, pieces.list.as_slice(), interface, live.as_slice()) {
        Ok(readings) => check_readings(
            alloc,
            statement,
            interface,
            live.as_slice(),
            readings.as_slice(),
        ),
        Err(LinesEnd::TooMany) => Ok(Verdict::Outside(lines_mark(statement))),
        Err(LinesEnd::Memory) => Err(Memory),
    }
}

/// Judges a statement by its lines under each of the live shapes.
fn check_readings(
    alloc: Global,
    statement: &Statement,
    interface: &Interface,
    live: &[Shape],
    readings: &[Lines],
) -> Result<Verdict, Memory>
    requires interface { IsInterface interface.now }
    requires short { All IsShort readings.now }
    requires readings { HasReadings statement.now interface.now live.now readings.now }
    ensures { IfOk result (IsReadVerdict statement.now interface.now live.now readings.now (first_unread readings.now)) }
{
    if let Some(mark) = first_unread(readings) {
        return Ok(Verdict::Outside(mark));
    }
    let findings = shape_findings(alloc, interface, live, readings)?;
    if !findings.is_empty() {
        return Ok(Verdict::Broken(findings));
    }
    check_blocks(alloc, statement, interface, live, readings)
}

fn lines_mark(statement: &Statement) -> Mark
    ensures { result ≡ lines_mark statement.now }
{
    Mark {
        kind: MarkKind::Lines,
        place: statement.span.from,
    }
}

fn shapes_mark(statement: &Statement) -> Mark
    ensures { result ≡ shapes_mark statement.now }
{
    Mark {
        kind: MarkKind::Shapes,
        place: statement.span.from,
    }
}

fn no_room() -> Finding
    ensures { result ≡ no_room }
{
    Finding {
        rule: Rule::K1,
        line: 0,
        cell: Cell::Nothing,
        other: Cell::Nothing,
    }
}

/// Judges a statement by the blocks of its lines under the live shapes.
fn check_blocks(
    alloc: Global,
    statement: &Statement,
    interface: &Interface,
    live: &[Shape],
    readings: &[Lines],
) -> Result<Verdict, Memory>
    requires interface { IsInterface interface.now }
    requires short { All IsShort readings.now }
    requires agrees { Agrees statement.now interface.now live.now readings.now }
    ensures { IfOk result (IsBlocksVerdict statement.now interface.now live.now (graphs_of readings.now)) }
{
    let graphs = blocks(alloc, readings)?;
    let on_stack = stack_findings(alloc, graphs.as_slice())?;
    if !on_stack.is_empty() {
        return Ok(Verdict::Broken(on_stack));
    }
    check_paths(alloc, statement, interface, live, graphs)
}

/// Judges a statement by all paths of its blocks, which leave the stack level.
fn check_paths(
    alloc: Global,
    statement: &Statement,
    interface: &Interface,
    live: &[Shape],
    graphs: Items<Graph>,
) -> Result<Verdict, Memory>
    requires interface { IsInterface interface.now }
    requires blocks { HasBlocks statement.now interface.now live.now graphs }
    requires level { AreFindings (IsStackBroken graphs) stack_violations [] }
    ensures { IfOk result (IsPathsVerdict statement.now interface.now live.now graphs) }
{
    let on_paths = path_findings(alloc, interface, live, graphs.as_slice())?;
    if !on_paths.is_empty() {
        return Ok(Verdict::Broken(on_paths));
    }
    accepted(alloc, statement, interface, live, graphs)
}

/// That the statement is accepted, with what it was judged by.
fn accepted(
    alloc: Global,
    statement: &Statement,
    interface: &Interface,
    live: &[Shape],
    mut graphs: Items<Graph>,
) -> Result<Verdict, Memory>
    requires interface { IsInterface interface.now }
    requires blocks { HasBlocks statement.now interface.now live.now graphs }
    ensures { IfOk result (IsAccepted statement.now interface.now) }
{
    let Some((number, shape)) = first_roomy(interface, live) else {
        unreachable!();
    };
    Ok(Verdict::Ok(Proof {
        statement: statement.duplicate(alloc)?,
        interface: interface.duplicate(alloc)?,
        shape: shape.duplicate(alloc)?,
        graph: graphs.remove(number),
    }))
}
