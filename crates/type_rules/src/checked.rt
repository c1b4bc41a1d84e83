ghost use Rattle.std.specs.Prelude.{◌≡◌, length, map, MatchResult, IfOk, IfErr};
ghost use Rattle.priml_syntax.specs.Read.{read_pair, read_program};
ghost use Rattle.priml_syntax.specs.Tree.{Declared, pairs_of};
ghost use Rattle.priml_syntax.specs.Scoped.{IsScoped};
ghost use Rattle.priority_order.specs.Order.{IsLawful};
ghost use Rattle.type_rules.specs.Typable.{Typable, pair_parts};
ghost use Rattle.type_rules.specs.Stops.{IsOrderOf, PartsStop, IsTypeStop};

use crate::routine::{check_procs, check_routine};
use crate::term::fault;
use crate::{TypeKind, TypeStop};
use priml_syntax::Program;
use priority_order::{Order, OrderFault};
use std::alloc::{AllocError, Global};
use std::marker::Model;

/// A typable program, with the order of its priorities.
#[derive(Drop)]
pub struct Checked {
    program: Program,
    order: Order,
}

impl Checked {
    /// The program that was checked.
    pub fn program(&self) -> &Program
        ensures value { result.now ≡ self.now }
        ensures typable { Typable (read_program self.now) }
        ensures scoped { IsScoped (read_program self.now) }
    {
        &self.program
    }

    /// The number of mains.
    pub fn roots(&self) -> u32
        ensures { result ≡ length (read_program self.now).mains }
    {
        1
    }

    /// The order that the program's names and pairs make.
    pub fn order(&self) -> &Order
        ensures { IsOrderOf (read_program self.now) result.now }
    {
        &self.order
    }
}

impl Model for Checked {
    ghost use Rattle.priml_syntax.specs.Read.{read_program};
    ghost use Rattle.priml_syntax.specs.Scoped.{IsScoped};
    ghost use Rattle.type_rules.specs.Typable.{Typable};
    ghost use Rattle.type_rules.specs.Stops.{IsOrderOf};
    ghost use Rattle.priml_syntax.specs.declared.program.Program.{Program};
    ghost use Rattle.priml_syntax.specs.contracts.ty.Ty as ty;
    ghost use Rattle.priml_syntax.specs.contracts.expr.Expr as expr;
    ghost use Rattle.priml_syntax.specs.contracts.block.Block as block;
    ghost use Rattle.std.specs.Coded.{codes};

    ghost Value = { Program };

    ghost coded = { Prim.hlevel (codes, ty.the_row.coded, expr.the_row.coded, block.the_row.coded) };

    ghost view = { λ c. c.program };

    ghost invariant = { λ c. Typable (read_program c.program) × IsScoped (read_program c.program) × IsOrderOf (read_program c.program) c.order };
}

/// Checks a program by the typing rules.
///
/// Ok exactly where the program is typable. Else the program comes back with
/// `Fault`: the kind and the place (a byte offset) of the first fault in the
/// order of nodes, or with `OutOfMemory`.
pub fn check(alloc: Global, program: Program) -> Result<Checked, (Program, TypeStop)>
    requires { IsScoped (read_program program) }
    ensures accepted { IfOk result (λ c. c ≡ program) }
    ensures typable { IfOk result (λ _. Typable (read_program program)) }
    ensures returned { IfErr result (λ e. e.0 ≡ program) }
    ensures fault { IfErr result (λ e. IsTypeStop (read_program program) e.1) }
{
    match typed_order(alloc, &program) {
        Ok(order) => Ok(Checked { program, order }),
        Err(stop) => Err((program, stop)),
    }
}

// The order of a typable program.
fn typed_order(alloc: Global, program: &Program) -> Result<Order, TypeStop>
    requires { IsScoped (read_program program.now) }
    ensures { let p = read_program program.now in MatchResult result (λ order. IsOrderOf p order × Typable p) (IsTypeStop p) }
{
    let order = order_of(alloc, program)?;
    check_procs(alloc, &order, program)?;
    check_routine(alloc, &order, program, &program.main)?;
    Ok(order)
}

// The order that the program's pairs make, where none closes a cycle.
fn order_of(alloc: Global, program: &Program) -> Result<Order, TypeStop>
    requires { IsScoped (read_program program.now) }
    ensures { let p = read_program program.now in MatchResult result (λ order. IsOrderOf p order × IsLawful (pairs_of p))
        (PartsStop p (pair_parts 0 p.declared)) }
{
    let declared = program.pairs.as_slice();
    let pairs = pairs(alloc, declared)?;
    match Order::build(alloc, &program.names, &pairs) {
        Ok(order) => Ok(order),
        Err(OrderFault::Cycle(i)) => Err(fault(TypeKind::Cycle, declared[i as usize].0)),
        Err(OrderFault::TooMany) => unreachable!(),
        Err(OrderFault::OutOfMemory) => Err(TypeStop::OutOfMemory),
    }
}

// The declared pairs without their places.
fn pairs(alloc: Global, declared: &[(u64, u32, u32)]) -> Result<Vec<(u32, u32)>, AllocError>
    ensures { IfOk result (λ v. v.items ≡ map (λ (d : Declared). d.pair) (map read_pair declared.now)) }
{
    let mut all = Vec::new(alloc);
    for pair in declared {
        let (_, a, b) = *pair;
        all.push((a, b))?;
    }
    Ok(all)
}
