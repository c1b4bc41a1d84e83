//! The source that is made of 1.

use source_maker::make;
use std::test::Fail;

#[test]
fn source_of_one(rt: HostRuntime) -> Result<(), Fail> {
    let source = make(rt.alloc(), 1)?;
    let want = "priority bg;
priority ui;
order bg < ui;
proc leaf(k : int) at bg : int {
  u <- output (k * k);
  ret (k % 7)
}
proc chain(k : int) at bg : int {
  if (k < 1) { ret 0 }
  else {
    h <- spawn[bg] { x <- call leaf(k); ret x };
    r <- call chain((k - 1));
    v <- sync h;
    ret (r + v)
  }
}
main at ui : int {
  h <- spawn[bg] { x <- call chain(1); ret x };
  u <- output 1;
  ret 1
}
";
    assert_eq!(rt; source.as_slice(), want.as_bytes());
    Ok(())
}
