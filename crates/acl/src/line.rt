ghost use Rattle.std.specs.Prelude.{◌≡◌, ◌≤◌, true};
ghost use Rattle.acl.specs.Terms.{ports_allowed, protocol_narrow};

use crate::side::Side;
use crate::terms::{Action, Protocol};

// A line of an access list. Its number is 1 to 1,024, and a side has a port test other
// than any only where the protocol is 6 or 17.
#[derive(Clone, Copy, Debug, PartialEq, Eq)]
pub struct Line {
    pub action: Action,
    pub number: u16,
    pub protocol: Protocol,
    pub log: bool,
    pub source: Side,
    pub destination: Side,
    ghost numbered: { 1 ≤ number },
    ghost few: { number ≤ 1024 },
    ghost protocol_width: { protocol_narrow protocol ≡ true },
    ghost source_ports: { ports_allowed protocol source.ports ≡ true },
    ghost destination_ports: { ports_allowed protocol destination.ports ≡ true },
}
