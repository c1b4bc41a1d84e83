ghost use Rattle.std.specs.Prelude.{◌≡◌, ◌↔◌, ◌<◌, ◌≤◌, ◌+◌, IsTrue, IfOk, length};
ghost use Rattle.priority_order.specs.Order.{IsWithin};
ghost use Rattle.priority_order.specs.Edges.{most_numbers};
ghost use Rattle.constraint_proof.specs.Entailed.{Entailed, IsValid, AreValid, most_variables};
ghost use Rattle.constraint_proof.specs.Numbers.{number};
ghost use Rattle.constraint_proof.specs.Facts.{Facts};

use priml_syntax::Prio;
use priority_order::{Closure, Order};
use std::alloc::{AllocError, Global};
use std::marker::Model;

/// How many priority variables there can be: their numbers are below this one.
pub const MOST_VARIABLES: u32 = 64;

/// All that an order's declared pairs and a list of assumed constraints entail: made once, asked often.
///
/// Clauses see the count of declared priorities, the declared pairs and the assumed constraints.
#[derive(Drop)]
pub struct Known {
    count: u32,
    pairs: Vec<(u32, u32)>,
    given: Vec<(Prio, Prio)>,
    // of the declared priorities by their numbers, and of the variables behind them
    closure: Closure,
}

impl Model for Known {
    ghost use Rattle.constraint_proof.specs.Facts.{Facts, facts_code, IsKnown};

    ghost Value = { Facts };

    ghost coded = { facts_code };

    ghost view = { λ k. record { count = k.count; pairs = k.pairs.items; given = k.given.items } };

    ghost invariant = { λ k. IsKnown k.count k.pairs.items k.given.items k.closure };
}

impl Known {
    /// What the order and the assumed constraints entail.
    ///
    /// In the constraints each declared priority is below the order's count and each variable below 64. The only
    /// error is want of memory. Takes time in proportion to the pairs and constraints.
    pub fn of(alloc: Global, order: &Order, given: &[(Prio, Prio)]) -> Result<Known, AllocError>
        requires { AreValid (length order.now.names) given.now }
        ensures { IfOk result (λ k. k ≡ record { count = length order.now.names; pairs = order.now.pairs; given = given.now }) }
    {
        let count = order.count();
        let mut closure = Closure::new(alloc, count + MOST_VARIABLES)?;
        for pair in order.pairs() {
            let (a, b) = *pair;
            closure.insert(a, b)?;
        }
        for constraint in given {
            let (p, q) = *constraint;
            closure.insert(number_of(count, p), number_of(count, q))?;
        }
        Ok(Known {
            count,
            pairs: Vec::from_slice(alloc, order.pairs())?,
            given: Vec::from_slice(alloc, given)?,
            closure,
        })
    }

    /// Whether `p` at most `q` is entailed, for declared priorities below the count and variables below 64.
    ///
    /// Takes constant time.
    pub fn holds(&self, p: Prio, q: Prio) -> bool
        requires p_valid { IsValid self.now.count p }
        requires q_valid { IsValid self.now.count q }
        ensures { IsTrue result ↔ Entailed self.now.pairs self.now.given p q }
    {
        self.closure
            .leads(number_of(self.count, p), number_of(self.count, q))
    }

    /// Whether `p` at most `q` is entailed, for any two priorities: one that stands in no pair and in no
    /// constraint is at most itself alone.
    ///
    /// Takes constant time.
    pub fn entails(&self, p: Prio, q: Prio) -> bool
        ensures { IsTrue result ↔ Entailed self.now.pairs self.now.given p q }
    {
        if same(p, q) {
            return true;
        }
        if !self.knows(p) {
            return false;
        }
        if !self.knows(q) {
            return false;
        }
        self.holds(p, q)
    }

    // Whether the closure has a number for the priority; all that stands in pairs and constraints has one.
    fn knows(&self, p: Prio) -> bool
        ensures exact { IsTrue result ↔ IsValid self.now.count p }
        ensures given { AreValid self.now.count self.now.given }
        ensures pairs { IsWithin self.now.count self.now.pairs }
    {
        let _ = &self.count;
        match p {
            Prio::Const(a) => a < self.count,
            Prio::Var(v) => v < MOST_VARIABLES,
        }
    }
}

/// Whether the order's declared pairs and the assumed constraints entail the goal: its first at most its second.
///
/// In the assumed constraints each declared priority is below the order's count and each variable below 64. The
/// only error is want of memory. For many goals under one list of constraints make a [`Known`] once.
pub fn entails(
    alloc: Global,
    order: &Order,
    given: &[(Prio, Prio)],
    goal: (Prio, Prio),
) -> Result<bool, AllocError>
    requires { AreValid (length order.now.names) given.now }
    ensures { IfOk result (λ yes. IsTrue yes ↔ Entailed order.now.pairs given.now goal.0 goal.1) }
{
    let known = Known::of(alloc, order, given)?;
    Ok(known.entails(goal.0, goal.1))
}

/// Whether two priorities are the same.
pub fn same(p: Prio, q: Prio) -> bool
    ensures { IsTrue result ↔ (p ≡ q) }
{
    p == q
}

/// The number of a priority in a closure: the declared priorities come first, and then the variables.
pub fn number_of(count: u32, p: Prio) -> u32
    requires few { count + most_variables ≤ most_numbers }
    requires valid { IsValid count p }
    ensures { result ≡ number count p }
{
    match p {
        Prio::Const(a) => a,
        Prio::Var(v) => count + v,
    }
}
