ghost use Rattle.std.specs.Prelude.{◌≡◌, ◌↔◌, IsTrue, slice_get, Some, ℕ};
ghost use Rattle.priml_syntax.specs.declared.prio.Prio.TheVariants.{Const};
ghost use Rattle.constraint_proof.specs.Entailed.{Entailed};
ghost use Rattle.constraint_proof.specs.Steps.{IsAccepted, StepFits, Links};

use crate::known::same;
use priml_syntax::Prio;
use priority_order::Order;

/// Why a step holds.
#[derive(Clone, Copy, Debug, PartialEq, Eq)]
pub enum Rule {
    /// The declared pair of this number, from 0.
    Declared(u32),
    /// The assumed constraint of this number, from 0.
    Assumed(u32),
    /// A priority is at most itself.
    Reflexive,
    /// Two steps before this one, by their numbers from 0: the second begins where the first ends.
    Transitive(u32, u32),
}

/// One step of a derivation: `left` is at most `right` by the rule.
#[derive(Clone, Copy, Debug, PartialEq, Eq)]
pub struct Step {
    pub rule: Rule,
    pub left: Prio,
    pub right: Prio,
}

/// A list of steps, each from those before it; the last is what it derives.
#[derive(Drop)]
pub struct Derivation {
    pub steps: Vec<Step>,
}

/// Whether there is a step, each step is an instance of its rule and the last concludes the goal.
///
/// Any list of steps may be asked about, also one that names pairs, constraints or steps that are not there.
pub fn accepts(
    order: &Order,
    given: &[(Prio, Prio)],
    goal: (Prio, Prio),
    proof: &Derivation,
) -> bool
    ensures exact { IsTrue result ↔ IsAccepted order.now.pairs given.now goal proof.now.steps.items }
    ensures sound { IsTrue result → Entailed order.now.pairs given.now goal.0 goal.1 }
{
    let steps = proof.steps.as_slice();
    for (i, step) in steps.iter().enumerate() {
        if !fits(order, given, &steps[..i], *step) {
            return false;
        }
    }
    if steps.is_empty() {
        return false;
    }
    concludes(steps[steps.len() - 1], goal.0, goal.1)
}

fn concludes(step: Step, p: Prio, q: Prio) -> bool
    ensures { IsTrue result ↔ ((step.left ≡ p) × (step.right ≡ q)) }
{
    same(step.left, p) && same(step.right, q)
}

fn fits(order: &Order, given: &[(Prio, Prio)], before: &[Step], step: Step) -> bool
    ensures { IsTrue result ↔ StepFits order.now.pairs given.now before.now step }
{
    match step.rule {
        Rule::Declared(i) => declares(order, i, step.left, step.right),
        Rule::Assumed(i) => assumes(given, i, step.left, step.right),
        Rule::Reflexive => same(step.left, step.right),
        Rule::Transitive(i, j) => joins(before, i, j, step.left, step.right),
    }
}

fn declares(order: &Order, i: u32, p: Prio, q: Prio) -> bool
    ensures { IsTrue result ↔ ((a b : ℕ) × (slice_get order.now.pairs i ≡ Some (a, b)) × (p ≡ Const a) × (q ≡ Const b)) }
{
    match order.pair(i) {
        Some((a, b)) => same(p, Prio::Const(a)) && same(q, Prio::Const(b)),
        None => false,
    }
}

fn assumes(given: &[(Prio, Prio)], i: u32, p: Prio, q: Prio) -> bool
    ensures { IsTrue result ↔ (slice_get given.now i ≡ Some (p, q)) }
{
    match given.get(i as usize) {
        Some(c) => same(c.0, p) && same(c.1, q),
        None => false,
    }
}

fn joins(before: &[Step], i: u32, j: u32, p: Prio, q: Prio) -> bool
    ensures { IsTrue result ↔ Links before.now i j p q }
{
    match before.get(i as usize) {
        None => false,
        Some(x) => match before.get(j as usize) {
            None => false,
            Some(y) => linked(x, y, p, q),
        },
    }
}

fn linked(x: &Step, y: &Step, p: Prio, q: Prio) -> bool
    ensures { IsTrue result ↔ ((x.now.left ≡ p) × (x.now.right ≡ y.now.left) × (y.now.right ≡ q)) }
{
    same(x.left, p) && same(x.right, y.left) && same(y.right, q)
}
