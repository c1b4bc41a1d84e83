//! Threads four deep, each the first child of the one before: whether their records are finished, their texts, shape,
//! work and span, plan, report and schedules.
use crate::tests::build::{Scene, ended, finished, scene_of};
use crate::tests::schedules::{expect_faults, expect_plan, expect_report, flaw, verdict_on};
use cost_graph::{Shape, well_formed};
use priml_syntax::{Event, Path, Record};
use prompt_checker::{FlawKind, ScheduleFault, Verdict};
use span_bound::measure;
use std::alloc::Global;
use std::test::Fail;

// What a thread does between its Start and its End: it spawns its child and joins it, spawns it alone, or makes a plain step.
#[derive(Clone, Copy)]
enum Middle {
    Joins,
    Spawns,
    Plain,
}

// A thread's priority, and what it does.
type Link = (u32, Middle);

// The root joins 0.0, which joins 0.0.0, which spawns 0.0.0.0. The priorities are bg, mid, ui and bg; of bg, mid and ui each is
// below the next. The vertices are 0 to 3, 4 to 7, 8 to 10, and 11 to 13.
const CHAIN: [Link; 4] = [
    (0, Middle::Joins),
    (1, Middle::Joins),
    (2, Middle::Spawns),
    (0, Middle::Plain),
];

// The records of a root, its first child, the first child of that one, and so on.
fn records_of(alloc: Global, links: &[Link]) -> Result<Vec<Record>, Fail> {
    let mut list = Vec::new(alloc);
    let mut path = Path::root(alloc)?;
    for link in links {
        let (prio, middle) = *link;
        let child = path.child(alloc, 0)?;
        let events = events_of(alloc, &child, middle)?;
        list.push(ended(path, prio, events))?;
        path = child;
    }
    Ok(list)
}

// The events of a thread whose child has this path.
fn events_of(alloc: Global, child: &Path, middle: Middle) -> Result<Vec<Event>, Fail> {
    let mut events = Vec::new(alloc);
    events.push(Event::Start)?;
    match middle {
        Middle::Plain => events.push(Event::Plain)?,
        Middle::Spawns => events.push(Event::Spawn)?,
        Middle::Joins => {
            events.push(Event::Spawn)?;
            events.push(Event::Join(child.copy(alloc)?))?;
        }
    }
    events.push(Event::End)?;
    Ok(events)
}

fn chain(alloc: Global, links: &[Link]) -> Result<Scene, Fail> {
    let names = ["bg", "mid", "ui"];
    scene_of(alloc, records_of(alloc, links)?, &names, &[(0, 1), (1, 2)])
}

#[test]
fn finished_chains(rt: HostRuntime) -> Result<(), Fail> {
    let three: &[Link] = &[(0, Middle::Joins), (1, Middle::Joins), (2, Middle::Plain)];
    // 0.0.0 spawned a thread that is not there
    let lacks: &[Link] = &[(0, Middle::Joins), (1, Middle::Joins), (2, Middle::Spawns)];
    // 0.0.0.0 is there, and 0.0.0 spawned none
    let stray: &[Link] = &[
        (0, Middle::Joins),
        (1, Middle::Joins),
        (2, Middle::Plain),
        (0, Middle::Plain),
    ];
    let cases = [
        (CHAIN.as_slice(), true),
        (three, true),
        (lacks, false),
        (stray, false),
    ];
    for (links, want) in cases {
        let list = records_of(rt.alloc(), links)?;
        assert_eq!(rt; finished(rt.alloc(), list)?, want);
    }
    Ok(())
}

// The first thread that waits for a less urgent one, and the first vertex of that one.
#[test]
fn shapes_of_chains(rt: HostRuntime) -> Result<(), Fail> {
    let cases = [
        ([0, 1, 2, 0], Shape::Good),
        ([0, 1, 1, 2], Shape::Good),
        ([0, 1, 0, 0], Shape::Bad(1, 8)),
        ([1, 0, 0, 0], Shape::Bad(0, 4)),
        ([1, 1, 0, 2], Shape::Bad(0, 8)),
        ([0, 2, 1, 0], Shape::Bad(1, 8)),
    ];
    for (prios, want) in cases {
        let links = [
            (prios[0], Middle::Joins),
            (prios[1], Middle::Joins),
            (prios[2], Middle::Spawns),
            (prios[3], Middle::Plain),
        ];
        let scene = chain(rt.alloc(), &links)?;
        assert_eq!(rt; well_formed(rt.alloc(), &scene.graph, &scene.order)?, want);
    }
    Ok(())
}

// The proper ancestors of the first vertices 0, 4, 8 and 11 are none, 0 and 1, these with 4 and 5, and these with 8 and 9. The proper
// descendants of the last vertices 3, 7, 10 and 13 are none, 2 and 3, these with 6 and 7, and none.
#[test]
fn measures_of_chains(rt: HostRuntime) -> Result<(), Fail> {
    let alike = [
        (0, Middle::Joins),
        (0, Middle::Joins),
        (0, Middle::Spawns),
        (0, Middle::Plain),
    ];
    let cases = [
        (CHAIN.as_slice(), [(14, 11), (7, 7), (3, 3), (8, 3)]),
        (alike.as_slice(), [(14, 11), (10, 7), (6, 3), (8, 3)]),
    ];
    for (links, wants) in cases {
        let scene = chain(rt.alloc(), links)?;
        assert_eq!(rt; scene.graph.thread_count(), 4);
        for thread in 0..scene.graph.thread_count() {
            let found = measure(rt.alloc(), &scene.graph, &scene.order, thread)?;
            assert_eq!(rt; wants.get(thread as usize), Some(&(found.work, found.span)));
        }
    }
    Ok(())
}

const PLAN: &str =
    "0:0\n0:1\n0.0:0\n0.0:1\n0.0.0:0\n0.0.0:1\n0.0.0:2 0.0.0.0:0\n0.0:2 0.0.0.0:1\n0.0:3 0.0.0.0:2\n0:2\n0:3\n";

#[test]
fn texts_of_a_chain(rt: HostRuntime) -> Result<(), Fail> {
    let scene = chain(rt.alloc(), &CHAIN)?;
    let text = scene.graph.graph_text(rt.alloc(), &scene.order)?;
    let want =
        "thread 0 bg 4\nthread 0.0 mid 4\nthread 0.0.0 ui 3\nthread 0.0.0.0 bg 3\nspawn 0:1 0.0:0\nspawn 0.0:1 0.0.0:0\nspawn 0.0.0:1 0.0.0.0:0\njoin 0.0:3 0:2\njoin 0.0.0:2 0.0:2\n";
    assert_eq!(rt; text.as_slice(), want.as_bytes());
    expect_plan(&rt, rt.alloc(), &scene, 2, PLAN)?;
    expect_report(
        &rt,
        rt.alloc(),
        &scene,
        2,
        "cores 2\nsteps 11\nresponse 0 bg time 11 work 14 span 11 bound 12\nresponse 0.0 mid time 7 work 7 span 7 bound 7\nresponse 0.0.0 ui time 3 work 3 span 3 bound 3\nresponse 0.0.0.0 bg time 3 work 8 span 3 bound 5\n",
    )
}

// After the first six steps 0.0.0:2, which is vertex 10, and 0.0.0.0:0, which is 11, are ready.
#[test]
fn schedules_of_a_chain(rt: HostRuntime) -> Result<(), Fail> {
    let scene = chain(rt.alloc(), &CHAIN)?;
    let six = "0:0\n0:1\n0.0:0\n0.0:1\n0.0.0:0\n0.0.0:1\n";
    let cases = [
        (2, "0.0.0.0:0\n", flaw(7, FlawKind::IdleCore(10))),
        (1, "0.0.0.0:0\n", flaw(7, FlawKind::Inverted(11, 10))),
        (2, "0.0.0:2 0.0.0.0:1\n", flaw(7, FlawKind::NotReady(12))),
        (2, "0.0.0.0:0 0.0.0:2\n", flaw(8, FlawKind::Unfinished(2))),
    ];
    for (cores, line, want) in cases {
        let text = format!(in rt.alloc(); "{six}{line}")?;
        assert_eq!(rt;
            verdict_on(rt.alloc(), &scene, cores, text.as_bytes())?,
            want
        );
    }
    assert_eq!(rt;
        verdict_on(rt.alloc(), &scene, 2, PLAN.as_bytes())?,
        Verdict::Prompt
    );
    Ok(())
}

#[test]
fn faults_of_deep_paths(rt: HostRuntime) -> Result<(), Fail> {
    let scene = chain(rt.alloc(), &CHAIN)?;
    let cases = [
        ("0.0.0.0:3\n", ScheduleFault::UnknownVertex(1)),
        ("0.0.0.0.0:0\n", ScheduleFault::UnknownVertex(1)),
        ("0.0.0:0\n0.0.1:0\n", ScheduleFault::UnknownVertex(2)),
        ("0.0.00:0\n", ScheduleFault::BadText(1)),
        ("0.0.0.:0\n", ScheduleFault::BadText(1)),
        ("0.0.0.0\n", ScheduleFault::BadText(1)),
    ];
    expect_faults(&rt, rt.alloc(), &scene, &cases)
}
