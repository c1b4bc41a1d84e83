ghost use Rattle.std.specs.Prelude.{◌≡◌, length};
ghost use Rattle.priml_syntax.specs.Read.{read_program};
ghost use Rattle.type_rules.specs.Stops.{IsOrderOf};
ghost use Rattle.type_rules.specs.Jobs.{WithInputs};

use crate::checked::Checked;
use priml_syntax::Inputs;
use priority_order::Order;
use std::marker::Model;

/// A typable program, and what its threads read.
#[derive(Drop)]
pub struct Job {
    checked: Checked,
    inputs: Inputs,
}

impl Job {
    /// The program with these inputs.
    pub fn new(checked: Checked, inputs: Inputs) -> Job
        ensures { result ≡ record { program = checked; inputs = inputs } }
    {
        Job { checked, inputs }
    }

    /// The program.
    pub fn checked(&self) -> &Checked
        ensures { result.now ≡ self.now.program }
    {
        &self.checked
    }

    /// The number of mains, each of which begins one root.
    pub fn roots(&self) -> u32
        ensures { result ≡ length (read_program self.now.program).mains }
    {
        self.checked.roots()
    }

    /// The order that the program's names and pairs make.
    pub fn order(&self) -> &Order
        ensures { IsOrderOf (read_program self.now.program) result.now }
    {
        self.checked.order()
    }

    /// What each thread reads.
    pub fn inputs(&self) -> &Inputs
        ensures { result.now ≡ self.now.inputs }
    {
        &self.inputs
    }
}

impl Model for Job {
    ghost use Rattle.type_rules.specs.Jobs.{WithInputs};
    ghost use Rattle.std.specs.Coded.{codes};
    ghost use Rattle.priml_syntax.specs.contracts.ty.Ty as ty;
    ghost use Rattle.priml_syntax.specs.contracts.expr.Expr as expr;
    ghost use Rattle.priml_syntax.specs.contracts.block.Block as block;

    ghost Value = { WithInputs };

    ghost coded = { Prim.hlevel (codes, ty.the_row.coded, expr.the_row.coded, block.the_row.coded) };

    ghost view = { λ j. record { program = j.checked; inputs = j.inputs } };
}
