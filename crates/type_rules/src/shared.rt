ghost use Rattle.std.specs.Prelude.{◌≡◌, ◌↔◌, IsTrue, IfOk, ◌-◌, ◌^◌, min};
ghost use Rattle.priml_syntax.specs.Tree.{unit, int, pair, sum, thread};
ghost use Rattle.priml_syntax.specs.Read.{read_type};
ghost use Rattle.priml_syntax.specs.Size.{type_nodes};
ghost use Rattle.type_rules.specs.Typing.{subst_prio as the_subst_prio, subst_type};
ghost use Rattle.type_rules.specs.Shared.{read_shared, read_shape};

use priml_syntax::{Prio, Ty};
use std::alloc::{AllocError, Global};
use std::rc::Rc;

// A type in the checker: one that the program writes, with priorities for its
// variables, or one that is made of others. A copy shares its parts.
#[cycle(shared)]
#[derive(Drop)]
pub enum Shared<'p> {
    Unit,
    Bool,
    Int,
    Written(&'p [Prio], &'p Ty),
    Pair(Rc<Parts<'p>>),
    Sum(Rc<Parts<'p>>),
    Thread(Prio, Rc<Shared<'p>>),
}

// The two parts of a pair or a sum, which are shared together.
#[cycle(shared)]
#[derive(Drop)]
pub struct Parts<'p> {
    left: Shared<'p>,
    right: Shared<'p>,
}

// The outermost form of a type, with its parts.
#[derive(Drop)]
pub enum Shape<'p> {
    Unit,
    Bool,
    Int,
    Pair(Shared<'p>, Shared<'p>),
    Sum(Shared<'p>, Shared<'p>),
    Thread(Prio, Shared<'p>),
}

impl<'p> Shared<'p> {
    // A type as it is written.
    pub fn written(t: &'p Ty) -> Shared<'p>
        ensures { read_shared result ≡ read_type t.now }
    {
        Shared::Written(&[], t)
    }

    pub fn pair(
        alloc: Global,
        left: Shared<'p>,
        right: Shared<'p>,
    ) -> Result<Shared<'p>, AllocError>
        ensures { IfOk result (λ t. read_shared t ≡ pair (read_shared left.entry) (read_shared right.entry)) }
    {
        Ok(Shared::Pair(Rc::new(alloc, Parts { left, right })?))
    }

    pub fn thread(alloc: Global, q: Prio, inner: Shared<'p>) -> Result<Shared<'p>, AllocError>
        ensures { IfOk result (λ t. read_shared t ≡ thread q (read_shared inner.entry)) }
    {
        Ok(Shared::Thread(q, Rc::new(alloc, inner)?))
    }

    // The type of what `input` reads: nothing or a number.
    pub fn input(alloc: Global) -> Result<Shared<'p>, AllocError>
        ensures { IfOk result (λ t. read_shared t ≡ sum unit int) }
    {
        let parts = Parts {
            left: Shared::Unit,
            right: Shared::Int,
        };
        Ok(Shared::Sum(Rc::new(alloc, parts)?))
    }

    pub fn copy(&self) -> Result<Shared<'p>, AllocError>
        ensures { IfOk result (λ t. read_shared t ≡ read_shared self.now) }
    {
        match self {
            Shared::Unit => Ok(Shared::Unit),
            Shared::Bool => Ok(Shared::Bool),
            Shared::Int => Ok(Shared::Int),
            Shared::Written(ps, t) => Ok(Shared::Written(*ps, *t)),
            Shared::Pair(parts) => Ok(Shared::Pair(parts.clone()?)),
            Shared::Sum(parts) => Ok(Shared::Sum(parts.clone()?)),
            Shared::Thread(q, a) => Ok(Shared::Thread(*q, a.clone()?)),
        }
    }

    pub fn shape(&self) -> Result<Shape<'p>, AllocError>
        ensures { IfOk result (λ s. read_shape s ≡ read_shared self.now) }
    {
        match self {
            Shared::Written(ps, t) => Ok(written_shape(*ps, *t)),
            Shared::Unit => Ok(Shape::Unit),
            Shared::Bool => Ok(Shape::Bool),
            Shared::Int => Ok(Shape::Int),
            Shared::Pair(parts) => Ok(Shape::Pair(parts.left.copy()?, parts.right.copy()?)),
            Shared::Sum(parts) => Ok(Shape::Sum(parts.left.copy()?, parts.right.copy()?)),
            Shared::Thread(q, a) => Ok(Shape::Thread(*q, a.copy()?)),
        }
    }

    pub fn equals(&self, other: &Shared<'p>) -> bool
        ensures { IsTrue result ↔ (read_shared self.now ≡ read_shared other.now) }
    {
        match (self, other) {
            (Shared::Written(ps, t), _) => other.is(ps, t),
            (_, Shared::Written(ps, t)) => self.is(ps, t),
            (Shared::Unit, Shared::Unit) => true,
            (Shared::Bool, Shared::Bool) => true,
            (Shared::Int, Shared::Int) => true,
            (Shared::Pair(a), Shared::Pair(b)) => a.left.equals(&b.left)
                && a.right.equals(&b.right),
            (Shared::Sum(a), Shared::Sum(b)) => a.left.equals(&b.left) && a.right.equals(&b.right),
            (Shared::Thread(q, a), Shared::Thread(r, b)) => *q == *r && a.equals(b),
            _ => false,
        }
    }

    // Whether it is the written type under the priorities.
    pub fn is(&self, ps: &[Prio], t: &Ty) -> bool
        ensures { IsTrue result ↔ (read_shared self.now ≡ subst_type ps.now (read_type t.now)) }
    {
        match (self, t) {
            (Shared::Written(qs, u), _) => same_written(qs, u, ps, t),
            (Shared::Unit, Ty::Unit) => true,
            (Shared::Bool, Ty::Bool) => true,
            (Shared::Int, Ty::Int) => true,
            (Shared::Pair(parts), Ty::Pair(c, d)) => parts.left.is(ps, c) && parts.right.is(ps, d),
            (Shared::Sum(parts), Ty::Sum(c, d)) => parts.left.is(ps, c) && parts.right.is(ps, d),
            (Shared::Thread(q, a), Ty::Thread(r, b)) => *q == subst_prio(ps, *r) && a.is(ps, b),
            _ => false,
        }
    }

    // Whether it is the type as it is written.
    pub fn is_written(&self, t: &Ty) -> bool
        ensures { IsTrue result ↔ (read_type t.now ≡ read_shared self.now) }
    {
        self.is(&[], t)
    }

    // The number of nodes; the last value of u64 where there are more.
    pub fn nodes(&self) -> u64
        ensures { result ≡ min (type_nodes (read_shared self.now)) (2 ^ 64 - 1) }
    {
        match self {
            Shared::Unit | Shared::Bool | Shared::Int => 1,
            Shared::Written(_, t) => t.nodes(),
            Shared::Pair(parts) | Shared::Sum(parts) => parts
                .left
                .nodes()
                .saturating_add(parts.right.nodes())
                .saturating_add(1),
            Shared::Thread(_, a) => a.nodes().saturating_add(1),
        }
    }
}

fn written_shape<'p>(ps: &'p [Prio], t: &'p Ty) -> Shape<'p>
    ensures { read_shape result ≡ subst_type ps.now (read_type t.now) }
{
    match t {
        Ty::Unit => Shape::Unit,
        Ty::Bool => Shape::Bool,
        Ty::Int => Shape::Int,
        Ty::Pair(a, b) => Shape::Pair(Shared::Written(ps, a), Shared::Written(ps, b)),
        Ty::Sum(a, b) => Shape::Sum(Shared::Written(ps, a), Shared::Written(ps, b)),
        Ty::Thread(q, a) => Shape::Thread(subst_prio(ps, *q), Shared::Written(ps, a)),
    }
}

// Whether two written types are the same, each under its priorities.
fn same_written(ps: &[Prio], t: &Ty, qs: &[Prio], u: &Ty) -> bool
    ensures { IsTrue result ↔ (subst_type ps.now (read_type t.now) ≡ subst_type qs.now (read_type u.now)) }
{
    match (t, u) {
        (Ty::Unit, Ty::Unit) => true,
        (Ty::Bool, Ty::Bool) => true,
        (Ty::Int, Ty::Int) => true,
        (Ty::Pair(a, b), Ty::Pair(c, d)) => same_written(ps, a, qs, c)
            && same_written(ps, b, qs, d),
        (Ty::Sum(a, b), Ty::Sum(c, d)) => same_written(ps, a, qs, c) && same_written(ps, b, qs, d),
        (Ty::Thread(p, a), Ty::Thread(q, b)) => subst_prio(ps, *p) == subst_prio(qs, *q)
            && same_written(ps, a, qs, b),
        _ => false,
    }
}

// A priority with priorities for its variables.
pub fn subst_prio(ps: &[Prio], p: Prio) -> Prio
    ensures { result ≡ the_subst_prio ps.now p }
{
    match p {
        Prio::Const(a) => Prio::Const(a),
        Prio::Var(v) => match ps.get(v as usize) {
            Some(q) => *q,
            None => Prio::Var(v),
        },
    }
}
