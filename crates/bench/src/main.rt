// Lays the lines of a list from standard input into a node table of 2,048 nodes, from the last line to the first, and decides
// headers by it. Prints what was laid and decided, and on standard error how long that took.
#![tactic(auto)]

use acl::header::{Header, WIDTH};
use acl::line::Line;
use diagram::cube::Cube;
use diagram::table::Table;
use ios::read::{MOST_LINES, read};
use kinds::bare::Bare;
use kinds::heard::Heard;
use kinds::kind::Kind;
use model::node::Ref;
use orders::fixed::Plain;
use orders::order::Order;
use pieces::piece::Pieces;
use std::array;
use std::io::Read;
use std::time::Instant;

// How often a list is laid, and how many headers are decided.
const ROUNDS: u32 = 100;

const HEADERS: u32 = 1_000_000;

// What laying a list came to.
#[derive(Clone, Copy)]
struct Laid {
    layings: u64,
    restarts: u64,
    root: Ref,
}

// Lays a piece; where the table is full of what no longer counts it is collected first, and where the piece finds no
// room even then, laying starts again from nothing.
fn lay(table: &mut Table, cube: &Cube, laid: &mut Laid) {
    laid.layings = laid.layings.saturating_add(1);
    if let Ok(root) = table.lay(cube, laid.root) {
        laid.root = root;
        return;
    }
    let mut roots = [laid.root];
    let _ = table.collect(&mut roots);
    if let Ok(root) = table.lay(cube, roots[0]) {
        laid.root = root;
        return;
    }
    let _ = table.collect(&mut []);
    laid.restarts = laid.restarts.saturating_add(1);
    laid.root = Ref::Code(0);
}

fn lay_list(table: &mut Table, lines: &[Line]) -> Laid {
    let mut laid = Laid {
        layings: 0,
        restarts: 0,
        root: Ref::Code(0),
    };
    for line in lines.iter().rev() {
        let code = Bare.code(Bare.of_line(Heard::from(*line)));
        for piece in Pieces::of(*line) {
            let cube = Cube::new(piece.asks(&Plain), code);
            lay(table, &cube, &mut laid);
        }
    }
    laid
}

// A header made of a number, of the networks and ports that the list speaks of, and its bits by place.
fn bits(seed: u32) -> [bool; WIDTH] {
    let mixed = seed.wrapping_mul(2_654_435_761) >> 8;
    let header = Header {
        source: 0x0a02_0000 + (mixed & 0x2_0fff),
        destination: 0x0a01_000a + (mixed >> 18 & 3),
        protocol: 6,
        source_port: 40_000,
        destination_port: if mixed % 2 == 0 { 443 } else { 22 },
    };
    array::from_fn(|place| header.bit(Plain.bit_at(place) as u32))
}

// The headers that are permitted, and the tests made.
fn decide_all(table: &Table, root: Ref, rows: &[[bool; WIDTH]]) -> (u64, u64) {
    let mut permitted: u64 = 0;
    let mut made: u64 = 0;
    for row in rows {
        if let Ok((code, tests)) = table.decide(row, root) {
            permitted = permitted.saturating_add(u64::from(code));
            made = made.saturating_add(u64::from(tests));
        }
    }
    (permitted, made)
}

fn main(rt: HostRuntime) -> anyhow::Result<()> {
    let mut input = Vec::new(rt.alloc());
    let _ = rt.stdin().read_to_end(&mut input)?;
    let mut memory = [Line::blank(); MOST_LINES];
    let Ok(reading) = read(&input, &mut memory) else {
        return Err(anyhow::anyhow!("the list is refused"));
    };
    let lines = memory.get(..reading.count).unwrap_or(&[]);
    let mut table = Table::new(2048);
    let mut laid = lay_list(&mut table, lines);
    let start = Instant::now(&rt)?;
    for _ in 0..ROUNDS {
        let _ = table.collect(&mut []);
        laid = lay_list(&mut table, lines);
    }
    let laying = start.elapsed(&rt)?;
    let mut rows = Vec::new(rt.alloc());
    for seed in 0..1000u32 {
        rows.push(bits(seed))?;
    }
    let start = Instant::now(&rt)?;
    let mut all = (0, 0);
    for _ in 0..HEADERS / 1000 {
        all = decide_all(&table, laid.root, &rows);
    }
    let deciding = start.elapsed(&rt)?;
    let Laid {
        layings,
        restarts,
        ..
    } = laid;
    let nodes = table.count();
    println!(rt;
        "{} lines, {layings} layings, {restarts} restarts, {nodes} nodes",
        lines.len()
    )?;
    println!(rt; "{} permitted of 1000, {} tests", all.0, all.1)?;
    let per_laying = laying.as_nanos()
        / u128::from(u64::from(ROUNDS).saturating_mul(layings).max(1));
    let per_test = deciding.as_nanos() * 10
        / u128::from(u64::from(HEADERS / 1000).saturating_mul(all.1).max(1));
    eprintln!(rt; "{per_laying} ns a laying, {per_test} tenths of a ns a test")?;
    Ok(())
}
