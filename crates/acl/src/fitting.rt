ghost use Rattle.std.specs.Prelude.{◌≡◌, map};
ghost use Rattle.acl.specs.Terms.{port_fits, protocol_fits};
ghost use Rattle.acl.specs.Shapes.{shape, side_shape, any_side, blank_shape};
ghost use Rattle.acl.specs.Fits.{side_fits, line_fits, first_match, found_shape};

use crate::header::Header;
use crate::line::Line;
use crate::side::Side;
use crate::terms::{Action, PortTest, Protocol};

impl PortTest {
    pub(crate) fn fits(self, port: u16) -> bool
        ensures { result ≡ port_fits self port }
    {
        match self {
            PortTest::Any => true,
            PortTest::Eq(n) => port == n,
            PortTest::Neq(n) => port != n,
            PortTest::Lt(n) => port < n,
            PortTest::Gt(n) => port > n,
            PortTest::Range(a, b) => a <= port && port <= b,
        }
    }
}

impl Protocol {
    pub(crate) fn fits(self, protocol: u8) -> bool
        ensures { result ≡ protocol_fits self protocol }
    {
        match self {
            Protocol::Any => true,
            Protocol::Number(n) => protocol == n,
        }
    }
}

impl Side {
    // Every address and every port.
    pub fn any() -> Side
        ensures { side_shape result ≡ any_side }
    {
        Side {
            address: 0,
            wildcard: 0xffff_ffff,
            ports: PortTest::Any,
        }
    }

    pub(crate) fn fits(self, address: u32, port: u16) -> bool
        ensures { result ≡ side_fits (side_shape self) address port }
    {
        (address ^ self.address) & !self.wildcard == 0 && self.ports.fits(port)
    }
}

impl Line {
    // The line that fills new line memory: it permits everything.
    pub fn blank() -> Line
        ensures { shape result ≡ blank_shape }
    {
        Line {
            action: Action::Permit,
            number: 1,
            protocol: Protocol::Any,
            log: false,
            source: Side::any(),
            destination: Side::any(),
        }
    }

    // Whether the line speaks of this header.
    pub fn fits(self, header: Header) -> bool
        ensures { result ≡ line_fits (shape self) header }
    {
        self.protocol.fits(header.protocol)
            && self.source.fits(header.source, header.source_port)
            && self
                .destination
                .fits(header.destination, header.destination_port)
    }
}

// The first line that fits the header, if there is one. The number of lines has no limit here.
pub fn first_match(lines: &[Line], header: Header) -> Option<Line>
    ensures { found_shape result ≡ first_match (map shape lines.now) header }
{
    for line in lines {
        if line.fits(header) {
            return Some(*line);
        }
    }
    None
}
