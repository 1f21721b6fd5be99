// Reads texts from standard input, each ended by a line `%`, or by `%-` where the text's last line end
// does not belong to it, and prints for each what reading it gives.
#![tactic(auto)]

use acl::line::Line;
use ios::outcome::Reading;
use ios::read::read;
use std::io::Read;
use words::lines::TextLines;

fn show(rt: &HostRuntime, text: &[u8]) -> anyhow::Result<()> {
    let mut memory = [Line::blank(); 4];
    match read(text, &mut memory) {
        Err(fault) => {
            let refusal = fault.refusal;
            let layer = refusal.layer();
            println!(rt; "{fault} {refusal:?} {layer:?}")?;
        }
        Ok(Reading { number, count }) => {
            println!(rt; "list {number}, {count} lines")?;
            for line in memory.iter().take(count) {
                println!(rt; "  {line:?}")?;
            }
        }
    }
    Ok(())
}

fn main(rt: HostRuntime) -> anyhow::Result<()> {
    let mut bytes = Vec::new(rt.alloc());
    let _ = rt.stdin().read_to_end(&mut bytes)?;
    let input = bytes.as_slice();
    let mut lines = TextLines::new(input);
    let mut from = 0;
    let mut at: usize = 0;
    while let Some(line) = lines.next() {
        let next = input.len().saturating_sub(lines.rest().len());
        let end = match line {
            b"%" => Some(at),
            b"%-" => Some(at.saturating_sub(1)),
            _ => None,
        };
        if let Some(end) = end {
            if let Some(text) = input.get(from..end) {
                show(&rt, text)?;
            }
            from = next;
        }
        at = next;
    }
    Ok(())
}
