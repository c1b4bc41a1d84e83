//! What holds of all words and inputs, and of a run whose source and sink never fail.
ghost use Rattle.std.specs.Prelude.{◌≡◌, ◌⊎◌, ℕ, List, Some};
ghost use Rattle.priml.specs.Commands.{Answers};
ghost use Rattle.priml.specs.Headline.{IsDone};
ghost use Rattle.priml.specs.Laws.{WordsAreAnswered, AnswersAreOne};
ghost use Rattle.priml.specs.Lines.{words_of};

use crate::top::priml;
use priml_io::{SteadySink, SteadySource};
use std::alloc::Global;
use std::sync::Wait;
use std::thread::Threads;
use steal_runtime::Gate;

/// All words, right or wrong, have an answer to each input, and just one.
pub fn words_are_answered()
    ensures some { WordsAreAnswered }
    ensures one { AnswersAreOne }
{}

/// `priml` over a source and a sink that never fail: the status is that of the answer, or 10 for want of memory. Where no layer
/// refuses the input it is 0, or 10.
pub fn priml_steady<R: Threads + Wait + Sync, G: Gate>(
    rt: &R,
    alloc: Global,
    words: &[String],
    source: &mut SteadySource,
    sink: &mut SteadySink,
    gate: &G,
) -> u8
    ensures done { IsDone (words_of words.now) (Some source.old) → (result ≡ 0) ⊎ (result ≡ 10) }
    ensures answer { (status : ℕ) (text : List ℕ) → Answers (words_of words.now) source.old status text → (result ≡ status) ⊎ (result ≡ 10) }
{
    priml(rt, alloc, words, source, sink, gate)
}
