ghost use Rattle.std.specs.Prelude.{◌≡◌, ◌↔◌, ◌<◌, ◌≤◌, ◌+◌, ◌++◌, ◌*◌, ◌^◌, [], ◌∷◌, List, IsTrue, IsNone, IfOk, IfSome, length, slice_get};
ghost use Rattle.std.proofs.Math.ListN.{replicate};
ghost use Rattle.priority_order.specs.Edges.{most_numbers};
ghost use Rattle.constraint_proof.specs.Entailed.{AreValid, IsValid, Entailed, most_variables};
ghost use Rattle.constraint_proof.specs.Numbers.{number};
ghost use Rattle.constraint_proof.specs.Steps.{IsAccepted, StepFits};
ghost use Rattle.constraint_proof.specs.Inside.Search.{constraints, IsReached, IsSearch, IsClosedTo, Followed, Went, Kept, over};
ghost use Rattle.constraint_proof.specs.declared.derivation.Step.{Step};

use crate::derivation::{Derivation, Rule, Step};
use crate::known::{MOST_VARIABLES, number_of, same};
use priml_syntax::Prio;
use priority_order::Order;
use std::alloc::{AllocError, Global};

/// A derivation of the goal, its first at most its second, which `accepts` takes; `None` exactly where the goal is
/// not entailed.
///
/// In the goal and the assumed constraints each declared priority is below the order's count and each variable below
/// 64, and there are fewer than 2^32 assumed constraints. The only error is want of memory. A derivation has at most
/// two steps for each declared priority and variable; some of them may not be needed for the goal.
pub fn derive(
    alloc: Global,
    order: &Order,
    given: &[(Prio, Prio)],
    goal: (Prio, Prio),
) -> Result<Option<Derivation>, AllocError>
    requires given { AreValid (length order.now.names) given.now }
    requires few { length given.now < 2 ^ 32 }
    requires left { IsValid (length order.now.names) goal.0 }
    requires right { IsValid (length order.now.names) goal.1 }
    ensures some { IfOk result (λ o. IfSome o (λ d. IsAccepted order.now.pairs given.now goal d.steps.items)) }
    ensures none { IfOk result (λ o. IsNone o ↔ (Entailed order.now.pairs given.now goal.0 goal.1 → ⊥)) }
    ensures short { IfOk result (λ o. IfSome o (λ d. length d.steps.items ≤ 2 * (length order.now.names + most_variables))) }
{
    let (p, q) = goal;
    if same(p, q) {
        return Ok(Some(reflexive(alloc, p)?));
    }
    let count = order.count();
    let mut search = Search::new(alloc, count)?;
    search.run(order, given, p)?;
    Ok(search.derivation_of(number_of(count, q)))
}

// The derivation of one step, that a priority is at most itself.
fn reflexive(alloc: Global, p: Prio) -> Result<Derivation, AllocError>
    ensures { IfOk result (λ d. d.steps.items ≡ record { rule = Rule.Reflexive; left = p; right = p } ∷ []) }
{
    let mut steps = Vec::new(alloc);
    steps.push(Step {
        rule: Rule::Reflexive,
        left: p,
        right: p,
    })?;
    Ok(Derivation { steps })
}

// The step of the i-th constraint, where the declared pairs come before the assumed constraints.
fn edge_at(order: &Order, given: &[(Prio, Prio)], i: usize) -> Step
    requires within { i < length order.now.pairs + length given.now }
    requires few { length given.now < 2 ^ 32 }
    ensures is { slice_get (constraints order.now.pairs given.now) i ≡ Some (result.left, result.right) }
    ensures fits { (before : List Step) → StepFits order.now.pairs given.now before result }
{
    let pairs = order.pairs();
    if i < pairs.len() {
        let (a, b) = pairs[i];
        return Step {
            rule: Rule::Declared(i as u32),
            left: Prio::Const(a),
            right: Prio::Const(b),
        };
    }
    let k = i - pairs.len();
    let (left, right) = given[k];
    Step {
        rule: Rule::Assumed(k as u32),
        left,
        right,
    }
}

// What was found of all that a start is at most: steps, and for each priority by its number the step that concludes
// that the start is at most it.
#[derive(Drop)]
struct Search {
    steps: Vec<Step>,
    reached: Vec<Option<u32>>,
}

impl Search {
    fn new(alloc: Global, count: u32) -> Result<Search, AllocError>
        requires { count + most_variables ≤ most_numbers }
        ensures steps { IfOk result (λ s. s.steps.items ≡ []) }
        ensures reached { IfOk result (λ s. s.reached.items ≡ replicate (count + most_variables) None) }
    {
        let mut reached = Vec::new(alloc);
        for _q in 0..count + MOST_VARIABLES {
            reached.push(None)?;
        }
        Ok(Search {
            steps: Vec::new(alloc),
            reached,
        })
    }

    // Follows the constraints, round after round, until they lead to nothing new.
    fn run(&mut self, order: &Order, given: &[(Prio, Prio)], start: Prio) -> Result<(), AllocError>
        requires given { AreValid (length order.now.names) given.now }
        requires few { length given.now < 2 ^ 32 }
        requires start { IsValid (length order.now.names) start }
        requires search { IsSearch order.now.pairs given.now start (length order.now.names) self.old.steps.items self.old.reached.items }
        ensures search { IfOk result (λ _. IsSearch order.now.pairs given.now start (length order.now.names) self.new.steps.items self.new.reached.items) }
        ensures closed { IfOk result (λ _. IsClosedTo start (length order.now.names)
            (constraints order.now.pairs given.now) self.new.reached.items (length order.now.pairs + length given.now)) }
    {
        let mut more = true;
        while more {
            more = self.round(order, given, start)?;
        }
        Ok(())
    }

    // Follows each constraint once, and says whether one led to something new.
    fn round(
        &mut self,
        order: &Order,
        given: &[(Prio, Prio)],
        start: Prio,
    ) -> Result<bool, AllocError>
        requires given { AreValid (length order.now.names) given.now }
        requires few { length given.now < 2 ^ 32 }
        requires start { IsValid (length order.now.names) start }
        requires search { IsSearch order.now.pairs given.now start (length order.now.names) self.old.steps.items self.old.reached.items }
        ensures search { IfOk result (λ _. IsSearch order.now.pairs given.now start (length order.now.names) self.new.steps.items self.new.reached.items) }
        ensures went { IfOk result (λ found. Went start (length order.now.names) (constraints order.now.pairs given.now)
            (length order.now.pairs + length given.now) self.old.reached.items self.new.reached.items found) }
    {
        let count = order.count();
        let mut found = false;
        for i in 0..order.pairs().len() + given.len() {
            let fresh = self.follow(start, count, edge_at(order, given, i))?;
            found |= fresh;
        }
        Ok(found)
    }

    // Follows one edge, and says whether it led to something new.
    fn follow(&mut self, start: Prio, count: u32, edge: Step) -> Result<bool, AllocError>
        requires left { IsValid count edge.left }
        requires right { IsValid count edge.right }
        requires numbers { count + most_variables ≤ most_numbers }
        requires long { length self.old.reached.items ≡ count + most_variables }
        requires few { length self.old.steps.items < 2 ^ 31 }
        ensures { IfOk result (λ fresh. Followed start count edge self.old.steps.items self.old.reached.items self.new.steps.items
            self.new.reached.items fresh) }
    {
        if self.has(start, count, edge.right) {
            return Ok(false);
        }
        if !self.has(start, count, edge.left) {
            return Ok(false);
        }
        let from = self.step_of(count, edge.left);
        let at = go_over(&mut self.steps, start, edge, from)?;
        self.reached[number_of(count, edge.right) as usize] = Some(at);
        Ok(true)
    }

    // Whether the priority is the start, or a step was found for it.
    fn has(&self, start: Prio, count: u32, q: Prio) -> bool
        requires valid { IsValid count q }
        requires numbers { count + most_variables ≤ most_numbers }
        requires long { length self.now.reached.items ≡ count + most_variables }
        ensures { IsTrue result ↔ IsReached start count self.now.reached.items q }
    {
        same(q, start) || self.step_of(count, q).is_some()
    }

    fn step_of(&self, count: u32, q: Prio) -> Option<u32>
        requires valid { IsValid count q }
        requires numbers { count + most_variables ≤ most_numbers }
        requires long { length self.now.reached.items ≡ count + most_variables }
        ensures { slice_get self.now.reached.items (number count q) ≡ Some result }
    {
        let reached = self.reached.as_slice();
        reached[number_of(count, q) as usize]
    }

    // The steps up to the one that was found for the priority of this number.
    fn derivation_of(self, number: u32) -> Option<Derivation>
        requires { number < length self.reached.items }
        ensures { Kept self.steps.items self.reached.items number result }
    {
        let found = self.reached[number as usize];
        match found {
            None => None,
            Some(k) => {
                let mut steps = self.steps;
                steps.truncate(k as usize + 1);
                Some(Derivation { steps })
            }
        }
    }
}

// Adds the steps that lead over the edge, joined to the step before it where there is one, and gives the number of
// the last.
fn go_over(
    steps: &mut Vec<Step>,
    start: Prio,
    edge: Step,
    from: Option<u32>,
) -> Result<u32, AllocError>
    requires { length steps.old.items < 2 ^ 31 }
    ensures steps { IfOk result (λ _. steps.new.items ≡ steps.old.items ++ over start (length steps.old.items) edge from) }
    ensures last { IfOk result (λ at. at + 1 ≡ length steps.new.items) }
{
    let so_far = steps.as_slice();
    let at = so_far.len() as u32;
    steps.push(edge)?;
    match from {
        None => Ok(at),
        Some(k) => {
            steps.push(Step {
                rule: Rule::Transitive(k, at),
                left: start,
                right: edge.right,
            })?;
            Ok(at + 1)
        }
    }
}
