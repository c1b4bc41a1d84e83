ghost use Rattle.core_steps.specs.Moves.{read_job};
ghost use Rattle.core_steps.specs.Steps.{Job};
ghost use Rattle.core_steps.specs.Laws.{CheckedLaws, CoreLaws, IsChecked, MeaningReadsInputs};

use type_rules::Job as TheJob;

/// What holds of the threads of every job.
pub fn core_laws()
    ensures { (job : Job) → CoreLaws job }
{}

/// What holds of the threads of a checked job.
pub fn checked_laws()
    ensures { (job : Job) → IsChecked job → CheckedLaws job }
{}

/// The serial meaning of a program is the same for inputs in which each path has the same list.
pub fn input_law()
    ensures { MeaningReadsInputs }
{}

/// The program of each job is typable, and in scope.
pub fn job_is_checked(job: &TheJob)
    ensures { IsChecked (read_job job.now) }
{
    let _program = job.checked().program();
}
