// Reads a list from standard input and prints it in its canonical form, or its refusal.
#![tactic(auto)]

use std::io::{Read, Write};
use tidying::tidied::tidied;

fn main(rt: HostRuntime) -> anyhow::Result<()> {
    let mut input = Vec::new(rt.alloc());
    let _ = rt.stdin().read_to_end(&mut input)?;
    let output = tidied(rt.alloc(), &input)?;
    rt.stdout().write_all(&output)?;
    Ok(())
}
