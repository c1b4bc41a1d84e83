//! The commands that run on workers.

use crate::laws::priml_steady;
use crate::still::priml_still;
use crate::tests::{list_of, run};
use priml_io::{MemSink, MemSource, SteadySink, SteadySource};
use std::alloc::Global;
use std::sync::Wait;
use std::test::Fail;
use std::thread::Threads;
use steal_runtime::{Free, Meet};

/// Sums in the background, and answers to what is typed.
const SUMS: &[u8] = b"priority log;
priority bg;
priority ui;
order log < bg;
order bg < ui;
proc sum[p](n : int, acc : int) at p : int {
  if (n < 1) { ret acc }
  else { r <- call sum[p]((n - 1), (acc + n)); ret r }
}
proc answer(n : int) at ui : int {
  i <- input;
  case i
    inl u { ret n }
    inr k { o <- output (k * k); r <- call answer((n + 1)); ret r }
}
main at ui : int {
  a <- spawn[bg] { r <- call sum[bg](10, 0); ret r };
  b <- spawn[bg] { r <- call sum[bg](20, 0); ret r };
  c <- spawn[bg] { r <- call sum[bg](30, 0); ret r };
  d <- spawn[bg] { r <- call sum[bg](40, 0); ret r };
  l <- spawn[log] {
    x <- sync a; y <- sync b; z <- sync c; w <- sync d;
    o <- output ((x + y) + (z + w)); ret o
  };
  n <- call answer(0);
  ret n
}
===inputs
0: 3 4
";

const RUN: [&str; 5] = ["run", "2", "2", "2", "100000"];

/// Its report on two cores.
const REPORT: &[u8] = b"thread 0 ui 21 value 2
out 9 16
thread 0.0 bg 35 value 55
thread 0.1 bg 65 value 210
thread 0.2 bg 95 value 465
thread 0.3 bg 125 value 820
thread 0.4 log 7 value ()
out 1550
work 348
cores 2
steps 214
response 0 ui time 21 work 21 span 21 bound 21
response 0.0 bg time 35 work 339 span 35 bound 187
response 0.1 bg time 83 work 338 span 65 bound 201
response 0.2 bg time 128 work 337 span 95 bound 216
response 0.3 bg time 206 work 336 span 125 bound 230
response 0.4 log time 208 work 342 span 128 bound 235
";

/// Runs `run 2 2 2 100000` over ends that never fail: the status and what was written.
fn run_steady<R: Threads + Wait + Sync + Alloc<A = Global>>(rt: &R) -> Result<(u8, Vec<u8>), Fail> {
    let words = list_of(rt.alloc(), &RUN)?;
    let mut source = SteadySource::new(rt.alloc(), SUMS)?;
    let mut sink = SteadySink::new(rt.alloc(), 1024)?;
    let status = priml_steady(rt, rt.alloc(), &words, &mut source, &mut sink, &Free);
    let written = Vec::from_slice(rt.alloc(), sink.bytes())?;
    Ok((status, written))
}

/// What `priml_still` answers to these words, and what it wrote.
fn run_still(alloc: Global, words: &[&str]) -> Result<(Option<u8>, Vec<u8>), Fail> {
    let words = list_of(alloc, words)?;
    let mut source = MemSource::new(alloc, SUMS, 65_536, &[0])?;
    let mut sink = MemSink::new(alloc, 64, 1, &[0])?;
    let status = priml_still(alloc, &words, &mut source, &mut sink);
    Ok((status, Vec::from_slice(alloc, sink.bytes())?))
}

#[test]
fn still_leaves_them_untouched(rt: HostRuntime) -> Result<(), Fail> {
    let cases: [&[&str]; 3] = [
        &RUN,
        &["trace", "2", "2", "100000"],
        &["sample", "3", "2", "2", "2", "100000"],
    ];
    for (number, words) in cases.iter().enumerate() {
        let (status, written) = run_still(rt.alloc(), words)?;
        assert_eq!(rt; status, None, "case {number}");
        assert!(rt; written.is_empty(), "case {number}");
    }
    Ok(())
}

#[test]
fn two_workers_meet(rt: HostRuntime) -> Result<(), Fail> {
    let meet = Meet::new(&rt);
    let (status, written) = run(&rt, &RUN, SUMS, &[], &[], &meet)?;
    assert_eq!(rt; status, 0);
    assert_eq!(rt; written.as_slice(), REPORT);
    assert!(rt; meet.met() && !meet.ran_out());
    Ok(())
}

#[test]
fn a_sample_reads_nothing(rt: HostRuntime) -> Result<(), Fail> {
    let words = ["sample", "1000", "4", "64", "2", "100000"];
    let (status, written) = run(&rt, &words, SUMS, &[0], &[], &Free)?;
    let want = b"sample 1000 threads 1002 work 10009 outputs 1001 steps 6007 value 1000\n";
    assert_eq!(rt; status, 0);
    assert_eq!(rt; written.as_slice(), want.as_slice());
    Ok(())
}

#[test]
fn ends_that_never_fail(rt: HostRuntime) -> Result<(), Fail> {
    let (status, written) = run_steady(&rt)?;
    assert_eq!(rt; status, 0);
    assert_eq!(rt; written.as_slice(), REPORT);
    Ok(())
}
