//! What segments, logs and books say together.
ghost use Rattle.core_steps.specs.Steps.{Job};
ghost use Rattle.task_state.specs.Books.{FinishedBooksAgree};

/// Where the logs of a book read as a finished configuration of a job, its records are those of the serial meaning.
pub fn finished_books_agree()
    ensures { (job : Job) → FinishedBooksAgree job }
{}
