//! What the tests ask of a scene, and the order of a graph with a cycle.
ghost use Rattle.std.specs.Prelude.{◌<◌, ◌≤◌, IfOk};
ghost use Rattle.std.specs.List.{All};
ghost use Rattle.cost_graph.specs.Graph.{thread_total, vertex_total, IsVertexBelow, IsWellFormed};
ghost use Rattle.prompt_checker.specs.Read.{steps_of};
ghost use Rattle.prompt_checker.specs.Schedule.{IsPrompt};
ghost use Rattle.response_report.specs.declared.row.Row.{Row as TheLine};

use crate::tests::build::{Row, Scene, Step, graph_of, records_of};
use cost_graph::{Shape, has_cycle, topological, well_formed};
use prompt_checker::{
    Flaw, FlawKind, Schedule, ScheduleFault, Verdict, judge, plan_text, read_schedule,
};
use prompt_planner::plan;
use response_report::{Row as Line, response_text, rows};
use std::alloc::{AllocError, Global};
use std::process::Abort;
use std::test::Fail;

// A root that goes on beside its child, in these priorities.
const APART: [&[Step]; 2] = [
    &[Step::Start, Step::Spawn, Step::End],
    &[Step::Start, Step::End],
];

// The canonical plan.
pub(crate) fn plan_of(alloc: Global, scene: &Scene, cores: u32) -> Result<Schedule, AllocError>
    requires { 1 ≤ cores }
    ensures within { IfOk result (λ s. All (λ step. All (λ v. v < vertex_total scene.now.graph) step) (steps_of s)) }
{
    plan(alloc, &scene.graph, &scene.order, cores)
}

// The rows under a schedule, which has to be prompt, of a graph, which has to be well formed.
pub(crate) fn rows_of(
    alloc: Global,
    scene: &Scene,
    cores: u32,
    schedule: &Schedule,
) -> Result<Vec<Line>, Fail>
    requires within { All (λ step. All (λ v. v < vertex_total scene.now.graph) step) (steps_of schedule.now) }
    requires some { 1 ≤ cores }
    requires few { cores ≤ 1024 }
    ensures numbered { IfOk result (λ v. All (λ (r : TheLine). r.thread < thread_total scene.now.graph) v.items) }
{
    match well_formed(alloc, &scene.graph, &scene.order)? {
        Shape::Good => prompt_rows(alloc, scene, cores, schedule),
        Shape::Bad(_, _) => Err(Fail::new("not well formed")),
    }
}

// The rows under a schedule, which has to be prompt.
fn prompt_rows(
    alloc: Global,
    scene: &Scene,
    cores: u32,
    schedule: &Schedule,
) -> Result<Vec<Line>, Fail>
    requires well_formed { IsWellFormed scene.now.graph scene.now.order.pairs }
    requires within { All (λ step. All (λ v. v < vertex_total scene.now.graph) step) (steps_of schedule.now) }
    requires some { 1 ≤ cores }
    requires few { cores ≤ 1024 }
    ensures numbered { IfOk result (λ v. All (λ (r : TheLine). r.thread < thread_total scene.now.graph) v.items) }
{
    match judge(alloc, &scene.graph, &scene.order, cores, schedule)? {
        Verdict::Prompt => numbered_rows(alloc, scene, cores, schedule),
        Verdict::Flaw(_) => Err(Fail::new("not prompt")),
    }
}

// The rows under a prompt schedule.
fn numbered_rows(
    alloc: Global,
    scene: &Scene,
    cores: u32,
    schedule: &Schedule,
) -> Result<Vec<Line>, Fail>
    requires prompt { IsPrompt scene.now.graph (IsVertexBelow scene.now.graph scene.now.order.pairs) cores (steps_of schedule.now) }
    requires well_formed { IsWellFormed scene.now.graph scene.now.order.pairs }
    requires some { 1 ≤ cores }
    requires few { cores ≤ 1024 }
    ensures numbered { IfOk result (λ v. All (λ (r : TheLine). r.thread < thread_total scene.now.graph) v.items) }
{
    let list = rows(alloc, &scene.graph, &scene.order, cores, schedule)?;
    Ok(list)
}

// The verdict on the schedule of this text, on at least one core.
pub(crate) fn verdict_on(
    alloc: Global,
    scene: &Scene,
    cores: u32,
    text: &[u8],
) -> Result<Verdict, Fail> {
    if cores < 1 {
        return Err(Fail::new("no core"));
    }
    let schedule = read_schedule(alloc, text, &scene.graph)?;
    Ok(judge(alloc, &scene.graph, &scene.order, cores, &schedule)?)
}

// The report of the plan, on 1 to 1,024 cores.
fn plan_report(alloc: Global, scene: &Scene, cores: u32) -> Result<Vec<u8>, Fail> {
    if cores < 1 {
        return Err(Fail::new("no core"));
    }
    if cores > 1024 {
        return Err(Fail::new("too many cores"));
    }
    let plan = plan_of(alloc, scene, cores)?;
    report(alloc, scene, cores, &plan)
}

/// The response, work, span and bound of a row.
pub(crate) type Sizes = (u64, u64, u64, u64);

pub(crate) fn sizes(row: &Line) -> Sizes {
    (row.response, row.work, row.span, row.bound)
}

pub(crate) fn flaw(step: u64, kind: FlawKind) -> Verdict {
    Verdict::Flaw(Flaw { step, kind })
}

// The child's vertices are 3 to 5: its second waits for its last, so that a cycle leads to both.
#[test]
fn order_before_a_cycle(rt: HostRuntime) -> Result<(), Fail> {
    let rows: [Row; 2] = [
        (None, 0, APART[0]),
        (Some(0), 0, &[Step::Start, Step::Join(0), Step::End]),
    ];
    let graph = graph_of(rt.alloc(), records_of(rt.alloc(), &rows)?)?;
    assert!(rt; has_cycle(rt.alloc(), &graph)?);
    let order = topological(rt.alloc(), &graph)?;
    assert_eq!(rt; order.as_slice(), [0, 1, 2, 3].as_slice());
    Ok(())
}

// The plan of the scene has this text.
pub(crate) fn expect_plan(
    rt: &impl Abort,
    alloc: Global,
    scene: &Scene,
    cores: u32,
    want: &str,
) -> Result<(), Fail>
    requires { 1 ≤ cores }
{
    let plan = plan_of(alloc, scene, cores)?;
    let text = plan_text(alloc, &scene.graph, &plan)?;
    assert_eq!(rt; text.as_slice(), want.as_bytes());
    Ok(())
}

// The report of the plan has this text.
pub(crate) fn expect_report(
    rt: &impl Abort,
    alloc: Global,
    scene: &Scene,
    cores: u32,
    want: &str,
) -> Result<(), Fail> {
    let text = plan_report(alloc, scene, cores)?;
    assert_eq!(rt; text.as_slice(), want.as_bytes());
    Ok(())
}

// Each text is no schedule of the scene's graph, by this fault.
pub(crate) fn expect_faults(
    rt: &impl Abort,
    alloc: Global,
    scene: &Scene,
    cases: &[(&str, ScheduleFault)],
) -> Result<(), Fail> {
    for case in cases {
        let (text, want) = *case;
        let fault = read_schedule(alloc, text.as_bytes(), &scene.graph).err();
        assert_eq!(rt; fault, Some(want), "{text}");
    }
    Ok(())
}

// The text of the rows.
fn report(alloc: Global, scene: &Scene, cores: u32, schedule: &Schedule) -> Result<Vec<u8>, Fail>
    requires within { All (λ step. All (λ v. v < vertex_total scene.now.graph) step) (steps_of schedule.now) }
    requires some { 1 ≤ cores }
    requires few { cores ≤ 1024 }
{
    let rows = rows_of(alloc, scene, cores, schedule)?;
    let steps = schedule.steps.len() as u64;
    Ok(response_text(alloc, &scene.graph, &scene.order, cores, steps, &rows)?)
}
