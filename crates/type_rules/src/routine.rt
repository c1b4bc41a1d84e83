ghost use Rattle.std.specs.Prelude.{◌≡◌, map, MatchResult, IfOk};
ghost use Rattle.std.specs.List.{All};
ghost use Rattle.priml_syntax.specs.Read.{read_type, read_proc, read_program};
ghost use Rattle.priml_syntax.specs.Scoped.{RoutineIn, IsScoped};
ghost use Rattle.type_rules.specs.Shared.{read_shared};
ghost use Rattle.type_rules.specs.Typable.{RoutineTyped, routine_parts, routines_parts};
ghost use Rattle.type_rules.specs.Stops.{IsOrderOf, PartsStop, RoutineAnswer};

use crate::block::type_of_block;
use crate::shared::Shared;
use crate::term::fault;
use crate::{TypeKind, TypeStop};
use constraint_proof::Known;
use priml_syntax::{Proc, Program, Ty};
use priority_order::Order;
use std::alloc::{AllocError, Global};

// The procedures of a program, one after another.
pub fn check_procs(alloc: Global, order: &Order, program: &Program) -> Result<(), TypeStop>
    requires order { IsOrderOf (read_program program.now) order.now }
    requires scoped { IsScoped (read_program program.now) }
    ensures { let p = read_program program.now in MatchResult result (λ _. All (RoutineTyped p) p.procs) (PartsStop p (routines_parts p.procs)) }
{
    for routine in &program.procs {
        check_routine(alloc, order, program, routine)?;
    }
    Ok(())
}

// A procedure or main of the program: its body has the declared result type.
pub fn check_routine(
    alloc: Global,
    order: &Order,
    program: &Program,
    routine: &Proc,
) -> Result<(), TypeStop>
    requires order { IsOrderOf (read_program program.now) order.now }
    requires scoped { RoutineIn (read_program program.now) (read_proc routine.now) }
    ensures { let p = read_program program.now in MatchResult result (λ _. RoutineTyped p (read_proc routine.now))
        (PartsStop p (routine_parts (read_proc routine.now))) }
{
    let found = type_of_routine(alloc, order, program, routine)?;
    if found.is_written(&routine.result) {
        Ok(())
    } else {
        Err(fault(TypeKind::Mismatch, routine.at))
    }
}

fn type_of_routine<'p>(
    alloc: Global,
    order: &Order,
    program: &'p Program,
    routine: &'p Proc,
) -> Result<Shared<'p>, TypeStop>
    requires order { IsOrderOf (read_program program.now) order.now }
    requires scoped { RoutineIn (read_program program.now) (read_proc routine.now) }
    ensures { RoutineAnswer (read_program program.now) (read_proc routine.now) result }
{
    let known = Known::of(alloc, order, &routine.given)?;
    let mut scope = written_types(alloc, &routine.params)?;
    type_of_block(
        alloc,
        &known,
        &program.procs,
        &mut scope,
        routine.own,
        &routine.body,
    )
}

fn written_types<'p>(alloc: Global, types: &'p [Ty]) -> Result<Vec<Shared<'p>>, AllocError>
    ensures { IfOk result (λ v. map read_shared v.items ≡ map read_type types.now) }
{
    let mut all = Vec::new(alloc);
    for t in types {
        all.push(Shared::written(t))?;
    }
    Ok(all)
}
