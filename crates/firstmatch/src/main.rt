// Reads a list, a text line `=` and headers from standard input, and prints what the list decides of each.
#![tactic(auto)]

use deciding::report::report;
use std::io::Read;

fn main(rt: HostRuntime) -> anyhow::Result<()> {
    let mut input = Vec::new(rt.alloc());
    let _ = rt.stdin().read_to_end(&mut input)?;
    let output = report(rt.alloc(), &input)?;
    rt.print(output)?;
    Ok(())
}
