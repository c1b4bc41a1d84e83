ghost use Rattle.std.specs.Prelude.{◌≡◌};
ghost use Rattle.priml.specs.Lines.{words_of};
ghost use Rattle.priml.specs.Headline.{NeedSource, Ends};
ghost use Rattle.priml.specs.Streams.{source_run, sink_run};

use crate::answer::reply_on_workers;
use crate::still::{priml_still, write_reply};
use priml_io::{Sink, Source};
use std::alloc::Global;
use std::sync::Wait;
use std::thread::Threads;
use steal_runtime::Gate;

/// Does the command that the words say: reads the source as far as the command needs it, writes the whole answer or one line of refusal, and answers the
/// exit status. `run`, `trace` and `sample` may wait for their workers, each of which passes the gate before each of its turns; every other command
/// always returns.
pub fn priml<R: Threads + Wait + Sync, S: Source, K: Sink, G: Gate>(
    rt: &R,
    alloc: Global,
    words: &[String],
    source: &mut S,
    sink: &mut K,
    gate: &G,
) -> u8
    ensures ends { Ends (words_of words.now)
        (source_run (S.left source.old) (S.left source.new) (S.faults source.old) (S.faults source.new))
        (sink_run (K.written sink.old) (K.written sink.new) (K.faults sink.old) (K.faults sink.new)) result }
    ensures unread { (NeedSource (words_of words.now) → ⊥) → source.new ≡ source.old }
{
    match priml_still(alloc, words, source, sink) {
        Some(status) => status,
        None => {
            let reply = reply_on_workers(rt, alloc, words, source, gate);
            write_reply(sink, &reply)
        }
    }
}
