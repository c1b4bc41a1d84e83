ghost use Rattle.std.specs.Prelude.{◌≡◌, ◌↔◌, ℕ, ◌+◌, ◌<◌, ◌++◌, ◌∷◌, [], ◌^◌, List, length, map, replicate, IfOk, IfErr, OnOk, Some};
ghost use Rattle.std.specs.Ordering.{nat_cmp};
ghost use Rattle.std.specs.Cmp.Lexicographic.{slice_cmp};
ghost use Rattle.priml_syntax.specs.Events.{one_spawn};
ghost use Rattle.priml_syntax.specs.Read.{read_record};
ghost use Rattle.priml_syntax.specs.Records.{InPathOrder};
ghost use Rattle.cost_graph.specs.Graph.{CostGraph, IsAcyclic, IsWellFormed};
ghost use Rattle.cost_graph.specs.View.{lists};
ghost use Rattle.cost_graph.specs.RecordLines.{HasLinesOf};
ghost use Rattle.cost_graph.specs.Records.{part_of, parts_in, event_total, end_of, thread_of, IsThere, AreFinished, IsGraphOf, IsAcyclicGraph, IsWellFormedGraph, part_at, Part};
ghost use Rattle.cost_graph.specs.Inside.Tables.{part_nth, first_in, vertex_at, IsNumber, AreParents, AreRight, AreSpawnPlaces, AreSpawnLists, AreKnown, IsKthSpawn, HasSpawn, ArePair};

use crate::build::firsts_of;
use crate::graph::{Graph, Thread};
use priml_syntax::{Event, Path, Record, Records};
use std::alloc::{AllocError, Global};
use std::cmp::Ordering;

// For each thread its first vertex, and the places of the Spawns among its events.
#[derive(Drop)]
pub(crate) struct Tables {
    firsts: Vec<u32>,
    spawns: Vec<Vec<u32>>,
}

impl Graph {
    /// The cost graph of the records of a job that has finished: a thread for each record, and a vertex for each event.
    ///
    /// The paths of one part, those of the roots, are `0` to `r - 1` for some r of at least 1; each other record's parent
    /// has its Spawn and each Spawn its record, each Join names a record, Start is just the first event and End just
    /// the last, and there are fewer than 2^32 events.
    pub fn of_records(alloc: Global, records: &Records) -> Result<Graph, AllocError>
        requires { AreFinished (parts_in records.now) }
        ensures graph { IfOk result (IsGraphOf (parts_in records.now)) }
        ensures only { IfOk result (λ g. (other : CostGraph) → IsGraphOf (parts_in records.now) other → g ≡ other) }
        ensures lines { IfOk result (HasLinesOf (parts_in records.now)) }
        ensures acyclic { IfOk result (λ g. IsAcyclicGraph (parts_in records.now) ↔ IsAcyclic g) }
        ensures well_formed { IfOk result (λ g. (pairs : List (ℕ × ℕ)) → IsWellFormedGraph pairs (parts_in records.now) ↔ IsWellFormed g pairs) }
    {
        let list = records.list();
        let threads = threads_of(alloc, list)?;
        let firsts = firsts_of(alloc, &threads)?;
        let spawns = spawn_lists(alloc, list)?;
        let tables = Tables { firsts, spawns };
        let parents = all_parents(alloc, list, &tables)?;
        let graph = Graph::of_parents(alloc, threads, parents)?;
        Ok(graph)
    }
}

// The threads of the records.
fn threads_of(alloc: Global, list: &[Record]) -> Result<Vec<Thread>, AllocError>
    requires { event_total (parts_in list.now) < 2 ^ 32 }
    ensures { IfOk result (λ v. v.items ≡ map thread_of (parts_in list.now)) }
{
    let mut threads = Vec::new(alloc);
    for record in list {
        let thread = one_thread(alloc, record)?;
        threads.push(thread)?;
    }
    Ok(threads)
}

// The thread of a record.
fn one_thread(alloc: Global, from: &Record) -> Result<Thread, AllocError>
    requires { length from.now.events.items < 2 ^ 32 }
    ensures { IfOk result (λ t. t ≡ thread_of (part_of (read_record from.now))) }
{
    let path = from.path.copy(alloc)?;
    let events = from.events.as_slice();
    Ok(Thread {
        path,
        priority: from.prio,
        vertices: events.len() as u32,
    })
}

// For each thread the places of the Spawns among its events.
fn spawn_lists(alloc: Global, list: &[Record]) -> Result<Vec<Vec<u32>>, AllocError>
    requires { event_total (parts_in list.now) < 2 ^ 32 }
    ensures { IfOk result (λ v. AreSpawnLists (parts_in list.now) (lists v.items)) }
{
    let mut all = Vec::new(alloc);
    for record in list {
        let places = spawn_places(alloc, &record.events)?;
        all.push(places)?;
    }
    Ok(all)
}

// The places of the Spawns among the events.
fn spawn_places(alloc: Global, events: &Vec<Event>) -> Result<Vec<u32>, AllocError>
    requires { length events.now.items < 2 ^ 32 }
    ensures { IfOk result (λ v. AreSpawnPlaces events.now.items v.items) }
{
    let mut places = Vec::new(alloc);
    for n in 0..events.len() {
        note_spawn(&mut places, &events[n], n as u32)?;
    }
    Ok(places)
}

// Adds the place of an event that is a Spawn.
fn note_spawn(places: &mut Vec<u32>, event: &Event, place: u32) -> Result<(), AllocError>
    ensures { OnOk result (places.new.items ≡ places.old.items ++ replicate (one_spawn event.now) place) }
{
    match event {
        Event::Spawn => places.push(place)?,
        Event::Start => {}
        Event::Plain => {}
        Event::Join(_) => {}
        Event::Read => {}
        Event::Wrote(_) => {}
        Event::End => {}
    }
    Ok(())
}

// Where the record of the path stands.
fn place_of(list: &[Record], path: &[u32]) -> usize
    requires in_order { InPathOrder (map read_record list.now) }
    requires there { IsThere (parts_in list.now) path.now }
    ensures within { result < length list.now }
    ensures is { (part_nth (parts_in list.now) result).path ≡ path.now }
{
    match search(list, path) {
        Ok(t) => t,
        Err(t) => t,
    }
}

// Where the record of the path stands, or where it would.
pub(crate) fn search(list: &[Record], path: &[u32]) -> Result<usize, usize>
    requires { InPathOrder (map read_record list.now) }
    ensures found { IfOk result (λ t. (t < length list.now) × ((part_nth (parts_in list.now) t).path ≡ path.now)) }
    ensures absent { IfErr result (λ _. IsThere (parts_in list.now) path.now → ⊥) }
{
    list.binary_search_by(
        |record: &Record| -> Ordering
            ensures { result ≡ slice_cmp nat_cmp record.now.path path.entry.now }
        { record.path.parts().cmp(path) },
    )
}

// The parents of each vertex.
fn all_parents(alloc: Global, list: &[Record], tables: &Tables) -> Result<Vec<Vec<u32>>, AllocError>
    requires { AreKnown list.now tables.now }
    ensures long { IfOk result (λ v. length v.items ≡ event_total (parts_in list.now)) }
    ensures right { IfOk result (λ v. AreRight (parts_in list.now) (lists v.items)) }
{
    let mut parents = Vec::new(alloc);
    for t in 0..list.len() {
        add_thread(alloc, &mut parents, list, tables, t)?;
    }
    Ok(parents)
}

// Adds the parents of each vertex of thread t.
fn add_thread(
    alloc: Global,
    parents: &mut Vec<Vec<u32>>,
    list: &[Record],
    tables: &Tables,
    t: usize,
) -> Result<(), AllocError>
    requires known { AreKnown list.now tables.now }
    requires within { t < length list.now }
    requires long { length parents.old.items ≡ first_in (parts_in list.now) t }
    requires right { AreRight (parts_in list.now) (lists parents.old.items) }
    ensures long { OnOk result (length parents.new.items ≡ first_in (parts_in list.now) (t + 1)) }
    ensures right { OnOk result (AreRight (parts_in list.now) (lists parents.new.items)) }
{
    let events = list[t].events.as_slice();
    for n in 0..events.len() {
        let above = vertex_parents(alloc, list, tables, t, n)?;
        parents.push(above)?;
    }
    Ok(())
}

// The parents of the vertex n of thread t.
fn vertex_parents(
    alloc: Global,
    list: &[Record],
    tables: &Tables,
    t: usize,
    n: usize,
) -> Result<Vec<u32>, AllocError>
    requires known { AreKnown list.now tables.now }
    requires within { t < length list.now }
    requires below { n < length (part_nth (parts_in list.now) t).events }
    ensures { IfOk result (λ v. AreParents (parts_in list.now) (vertex_at (parts_in list.now) t n) v.items) }
{
    if n == 0 {
        return first_parents(alloc, list, tables, t);
    }
    let before = tables.firsts[t] + (n as u32 - 1);
    let events = list[t].events.as_slice();
    match &events[n] {
        Event::Join(path) => pair(alloc, before, last_vertex(list, tables, path)),
        _ => single(alloc, before),
    }
}

// The parents of the first vertex of thread t.
fn first_parents(
    alloc: Global,
    list: &[Record],
    tables: &Tables,
    t: usize,
) -> Result<Vec<u32>, AllocError>
    requires known { AreKnown list.now tables.now }
    requires within { t < length list.now }
    ensures { IfOk result (λ v. AreParents (parts_in list.now) (vertex_at (parts_in list.now) t 0) v.items) }
{
    let parts = list[t].path.parts();
    let depth = parts.len() - 1;
    if depth == 0 {
        return Ok(Vec::new(alloc));
    }
    let spawner = spawn_vertex(list, tables, &parts[..depth], parts[depth]);
    single(alloc, spawner)
}

// The vertex of the k-th Spawn of the thread of the path.
fn spawn_vertex(list: &[Record], tables: &Tables, path: &[u32], k: u32) -> u32
    requires known { AreKnown list.now tables.now }
    requires there { HasSpawn (parts_in list.now) path.now k }
    ensures { (n : ℕ) × IsKthSpawn (parts_in list.now) path.now k n × IsNumber (parts_in list.now) (record { path = path.now; number = n }) result }
{
    let parent = place_of(list, path);
    let places = tables.spawns[parent].as_slice();
    tables.firsts[parent] + places[k as usize]
}

// The last vertex of the thread of the path.
fn last_vertex(list: &[Record], tables: &Tables, path: &Path) -> u32
    requires known { AreKnown list.now tables.now }
    requires there { IsThere (parts_in list.now) path.now }
    ensures { (x : Part) → part_at (parts_in list.now) path.now ≡ Some x → IsNumber (parts_in list.now) (end_of x) result }
{
    let thread = place_of(list, path.parts());
    let events = list[thread].events.as_slice();
    tables.firsts[thread] + (events.len() as u32 - 1)
}

// The number alone.
fn single(alloc: Global, number: u32) -> Result<Vec<u32>, AllocError>
    ensures { IfOk result (λ v. v.items ≡ number ∷ []) }
{
    let mut numbers = Vec::new(alloc);
    numbers.push(number)?;
    Ok(numbers)
}

// The two numbers, the lesser first.
fn pair(alloc: Global, a: u32, b: u32) -> Result<Vec<u32>, AllocError>
    ensures { IfOk result (λ v. ArePair a b v.items) }
{
    if a < b {
        return two(alloc, a, b);
    }
    two(alloc, b, a)
}

// The two numbers in this order.
fn two(alloc: Global, a: u32, b: u32) -> Result<Vec<u32>, AllocError>
    ensures { IfOk result (λ v. v.items ≡ a ∷ b ∷ []) }
{
    let mut numbers = Vec::new(alloc);
    numbers.push(a)?;
    numbers.push(b)?;
    Ok(numbers)
}
