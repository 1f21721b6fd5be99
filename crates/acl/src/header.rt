ghost use Rattle.std.specs.Prelude.{◌≡◌, ◌<◌};
ghost use Rattle.acl.specs.Headers.{header_bit, low_bit, BitsStand};

// How many bits a header has.
pub const WIDTH: usize = 104;

// What a list looks at in a packet. Every five numbers of these widths are a header.
#[derive(Clone, Copy, Debug, Default, PartialEq, Eq)]
pub struct Header {
    pub source: u32,
    pub destination: u32,
    pub protocol: u8,
    pub source_port: u16,
    pub destination_port: u16,
}

// Bit `k` of a number, counted from its low end.
fn low_bit(n: u32, k: u32) -> bool
    requires { k < 32 }
    ensures { result ≡ low_bit k n }
{
    (n >> k) % 2 == 1
}

impl Header {
    // Bit `at` of the header: 0 is the top bit of the source, 103 the lowest bit of the
    // destination port. There is none from 104 on, and the answer is false.
    #[tactic(auto, using(crate::proofs::Rows::bits_stand))]
    pub fn bit(self, at: u32) -> bool
        ensures answer { result ≡ header_bit self at }
        ensures stands { BitsStand }
    {
        match at {
            0..=31 => low_bit(self.source, 31 - at),
            32..=63 => low_bit(self.destination, 63 - at),
            64..=71 => low_bit(self.protocol as u32, 71 - at),
            72..=87 => low_bit(self.source_port as u32, 87 - at),
            88..=103 => low_bit(self.destination_port as u32, 103 - at),
            _ => false,
        }
    }
}
