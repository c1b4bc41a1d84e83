//! Jobs that worked cases run.
use inputs_text::read_inputs;
use source_reader::read_source;
use std::alloc::Global;
use std::test::Fail;
use type_rules::{Job, check};

/// A job as text, with its work in steps.
#[derive(Clone, Copy)]
pub struct Worked {
    text: &'static [u8],
    inputs: &'static [u8],
    pub work: u64,
}

/// A root of ui that leaves a thread of bg to itself.
const LEAVES: &[u8] =
    b"priority bg; priority ui; order bg < ui; main at ui : int { h <- spawn[bg] { ret 5 }; ret 1 }";

/// A root waits for a thread.
const WAITS: &[u8] =
    b"priority p; main at p : int { h <- spawn[p] { a <- ret 1; b <- ret 2; ret 3 }; x <- sync h; ret x }";

/// Three threads wait for one.
const THREE: &[u8] =
    b"priority p; main at p : int { a <- spawn[p] { ret 7 }; b <- spawn[p] { x <- sync a; ret x };
c <- spawn[p] { x <- sync a; ret x }; y <- sync b; z <- sync c; w <- sync a; ret (y + (z + w)) }";

/// A thread comes through a join, and is waited on then.
const HANDED: &[u8] =
    b"priority p; main at p : int { a <- spawn[p] { b <- spawn[p] { ret 4 }; ret b }; h <- sync a; x <- sync h; ret x }";

/// A fault goes through a join.
const FAULT: &[u8] =
    b"priority p; main at p : int { h <- spawn[p] { ret (9223372036854775807 + 1) }; x <- sync h; ret x }";

/// A thread waits for its child, 32 deep, and the last of them finds no room for one.
const DEEP: &[u8] =
    b"priority p; proc f(n : int) at p : int { h <- spawn[p] { x <- call f((n + 1)); ret x }; x <- sync h; ret x }
main at p : int { x <- call f(0); ret x }";

/// Sums, inputs, outputs and joins over three priorities.
const SUMS: &[u8] = b"priority log; priority bg; priority ui; order log < bg; order bg < ui;
proc sum[p](n : int, acc : int) at p : int {
  if (n < 1) { ret acc } else { r <- call sum[p]((n - 1), (acc + n)); ret r }
}
proc answer(n : int) at ui : int {
  i <- input;
  case i inl u { ret n } inr k { o <- output (k * k); r <- call answer((n + 1)); ret r }
}
main at ui : int {
  a <- spawn[bg] { r <- call sum[bg](10, 0); ret r };
  b <- spawn[bg] { r <- call sum[bg](20, 0); ret r };
  c <- spawn[bg] { r <- call sum[bg](30, 0); ret r };
  d <- spawn[bg] { r <- call sum[bg](40, 0); ret r };
  l <- spawn[log] { x <- sync a; y <- sync b; z <- sync c; w <- sync d; o <- output ((x + y) + (z + w)); ret o };
  n <- call answer(0);
  ret n
}";

/// A call that never ends.
const ENDLESS: &[u8] =
    b"priority p; proc f() at p : unit { x <- call f(); ret x } main at p : unit { x <- call f(); ret x }";

/// A root of bg that spawns a thread of ui and waits for it.
const WAITS_ABOVE: &[u8] =
    b"priority bg; priority ui; order bg < ui; main at bg : int { h <- spawn[ui] { ret 5 }; x <- sync h; ret x }";

/// A root that spawns 999 threads and waits for each, the last first.
const CROWD: &[u8] = b"priority bg; priority ui; order bg < ui;
proc leaf[p](n : int) at p : int { x <- output n; y <- ret (n * 2); ret (y - n) }
proc crowd[p; bg <= p](n : int) at p : int {
  if (n < 1) { ret 0 } else { h <- spawn[p] { x <- call leaf[p](n); ret x }; r <- call crowd[p]((n - 1)); v <- sync h; ret (r + v) }
}
main at ui : int { x <- call crowd[ui](999); ret x }";

impl Worked {
    pub fn job(&self, alloc: Global) -> Result<Job, Fail> {
        job_of(alloc, self.text, self.inputs)
    }
}

/// The job of a text and of the text of its inputs.
pub fn job_of(alloc: Global, text: &[u8], inputs: &[u8]) -> Result<Job, Fail> {
    let program = read_source(alloc, text)?;
    let inputs = read_inputs(alloc, inputs)?;
    match check(alloc, program) {
        Ok(checked) => Ok(Job::new(checked, inputs)),
        Err(_) => Err(Fail::new("not typable")),
    }
}

// A job without inputs.
fn plain(text: &'static [u8], work: u64) -> Worked {
    Worked {
        text,
        inputs: b"",
        work,
    }
}

/// Jobs that end. Callers get them by calls, so that no proof of theirs sees a text.
pub fn worked_jobs() -> [Worked; 7] {
    [
        leaves(),
        waits(),
        plain(THREE, 16),
        plain(HANDED, 10),
        plain(FAULT, 6),
        plain(DEEP, 158),
        sums(),
    ]
}

/// A root of ui that leaves a thread of bg to itself.
pub fn leaves() -> Worked {
    plain(LEAVES, 5)
}

/// A root waits for a thread of its own priority.
pub fn waits() -> Worked {
    plain(WAITS, 8)
}

/// Sums, inputs, outputs and joins: six threads of three priorities.
pub fn sums() -> Worked {
    Worked {
        text: SUMS,
        inputs: b"0: 3 4\n",
        work: 348,
    }
}

/// A root of bg that spawns a thread of ui and waits for it.
pub fn waits_above(alloc: Global) -> Result<Job, Fail> {
    job_of(alloc, WAITS_ABOVE, b"")
}

/// A root that spawns 999 threads and waits for each, the last first.
pub fn crowd(alloc: Global) -> Result<Job, Fail> {
    job_of(alloc, CROWD, b"")
}

/// A call that never ends.
pub fn endless(alloc: Global) -> Result<Job, Fail> {
    job_of(alloc, ENDLESS, b"")
}
