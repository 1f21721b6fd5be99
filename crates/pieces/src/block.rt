ghost use Rattle.std.specs.Prelude.{◌≡◌, ◌+◌, ◌%◌, ◌^◌, ◌≤◌};

pub mod cutting;

// A block of 2 ^ exponent ports from `start` on, which is a multiple of their number.
#[derive(Clone, Copy)]
pub struct Block {
    pub start: u32,
    pub exponent: u32,
    ghost small: { exponent ≤ 16 },
    ghost multiple: { start % 2 ^ exponent ≡ 0 },
    ghost inside: { start + 2 ^ exponent ≤ 65536 },
}

// The ports from `at` up to, and without, `end`.
#[derive(Clone, Copy)]
struct Ports {
    at: u32,
    end: u32,
    ghost inside: { end ≤ 65536 },
}

// The blocks of a port test, one after another: those of a first range of ports, and then of a
// second one.
#[derive(Clone, Copy)]
pub struct Blocks {
    first: Ports,
    second: Ports,
}
