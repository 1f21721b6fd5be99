ghost use Rattle.std.specs.Prelude.{◌≡◌, true};
ghost use Rattle.acl.specs.Terms.{ports_allowed, protocol_narrow};

use acl::side::Side;
use acl::terms::{Action, Protocol};

// What a text line says: a line that has no number yet.
#[derive(Clone, Copy)]
pub struct Entry {
    pub action: Action,
    pub protocol: Protocol,
    pub log: bool,
    pub source: Side,
    pub destination: Side,
    ghost protocol_width: { protocol_narrow protocol ≡ true },
    ghost source_ports: { ports_allowed protocol source.ports ≡ true },
    ghost destination_ports: { ports_allowed protocol destination.ports ≡ true },
}
