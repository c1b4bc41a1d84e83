ghost use Rattle.std.specs.Prelude.{◌≡◌, ◌≤◌, ◌++◌, IfOk, OnOk};
ghost use Rattle.std.specs.String.{string_bytes};
ghost use Rattle.source_maker.specs.Text.{text_of, declaration_lines, leaf_lines, chain_lines, main_lines, made_text};
ghost use Rattle.source_maker.specs.Source.{IsSource};

use std::alloc::{AllocError, Global};
use std::fmt::Write;

/// The source of a typable program of n + 2 threads, for n from 1 to 5,000: the root, a thread that goes down a chain of
/// n calls, and a leaf that each of these calls spawns and joins. It makes 10n + 9 steps. The only error is want of
/// memory.
pub fn make(alloc: Global, n: u32) -> Result<Vec<u8>, AllocError>
    requires some { 1 ≤ n }
    requires few { n ≤ 5000 }
    ensures text { IfOk result (λ v. v.items ≡ made_text n) }
    ensures program { IsSource n }
{
    let mut text = String::new(alloc);
    push_declarations(&mut text)?;
    push_leaf(&mut text)?;
    push_chain(&mut text)?;
    push_main(&mut text, n)?;
    Ok(text.into_bytes())
}

// Two priorities, and their order.
fn push_declarations(text: &mut String) -> Result<(), AllocError>
    ensures { OnOk result (string_bytes text.new ≡ string_bytes text.old ++ text_of declaration_lines) }
{
    write!(
        text,
        "priority bg;
priority ui;
order bg < ui;
"
    )
}

fn push_leaf(text: &mut String) -> Result<(), AllocError>
    ensures { OnOk result (string_bytes text.new ≡ string_bytes text.old ++ text_of leaf_lines) }
{
    write!(
        text,
        "proc leaf(k : int) at bg : int {{
  u <- output (k * k);
  ret (k % 7)
}}
"
    )
}

fn push_chain(text: &mut String) -> Result<(), AllocError>
    ensures { OnOk result (string_bytes text.new ≡ string_bytes text.old ++ text_of chain_lines) }
{
    write!(
        text,
        "proc chain(k : int) at bg : int {{
  if (k < 1) {{ ret 0 }}
  else {{
    h <- spawn[bg] {{ x <- call leaf(k); ret x }};
    r <- call chain((k - 1));
    v <- sync h;
    ret (r + v)
  }}
}}
"
    )
}

fn push_main(text: &mut String, n: u32) -> Result<(), AllocError>
    ensures { OnOk result (string_bytes text.new ≡ string_bytes text.old ++ text_of (main_lines n)) }
{
    write!(
        text,
        "main at ui : int {{
  h <- spawn[bg] {{ x <- call chain({n}); ret x }};
  u <- output {n};
  ret {n}
}}
"
    )
}
