// A piece is turned into what it asks of the bit at each place.
ghost use Rattle.std.specs.Prelude.{◌≡◌};
ghost use Rattle.acl.specs.Headers.{header_bit};
ghost use Rattle.orders.specs.Meanings.{order_of};
ghost use Rattle.pieces.specs.Asks.{wanted_of, ignored_of, ask_for, Turned};
ghost use Rattle.pieces.specs.Left.{piece_shape};

use super::Piece;
use acl::header::Header;
use acl::terms::Protocol;
use model::ask::Ask;
use orders::order::Order;
use std::array;

// What is asked of a bit: the one that is wanted, unless it is ignored.
fn ask(wanted: Header, ignored: Header, bit: u32) -> Ask
    ensures { result ≡ ask_for (header_bit ignored bit) (header_bit wanted bit) }
{
    (!ignored.bit(bit)).then(|| wanted.bit(bit))
}

impl Piece {
    // The bits that the piece wants, where it does not ignore them.
    fn wanted(self) -> Header
        ensures { result ≡ wanted_of (piece_shape self) }
    {
        Header {
            source: self.line.source.address,
            destination: self.line.destination.address,
            protocol: match self.line.protocol {
                Protocol::Any => 0,
                Protocol::Number(n) => n,
            },
            source_port: self.from.start as u16,
            destination_port: self.to.start as u16,
        }
    }

    // The bits that it ignores: those of the wildcards, and in a block of 2 ^ e ports the last e.
    fn ignored(self) -> Header
        ensures { result ≡ ignored_of (piece_shape self) }
    {
        Header {
            source: self.line.source.wildcard,
            destination: self.line.destination.wildcard,
            protocol: match self.line.protocol {
                Protocol::Any => 0xff,
                Protocol::Number(_) => 0,
            },
            source_port: (self.from.size() - 1) as u16,
            destination_port: (self.to.size() - 1) as u16,
        }
    }

    // What the piece asks at each place of an order.
    pub fn asks<O: Order>(self, order: &O) -> [Ask; 104]
        ensures { Turned (order_of O.Order order.now) (piece_shape self) result }
    {
        let wanted = self.wanted();
        let ignored = self.ignored();
        array::from_fn(|place| ask(wanted, ignored, order.bit_at(place) as u32))
    }
}
