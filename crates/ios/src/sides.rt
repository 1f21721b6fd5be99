ghost use Rattle.std.specs.Prelude.{◌≡◌, true, IfOk};
ghost use Rattle.acl.specs.Shapes.{side_shape};
ghost use Rattle.acl.specs.Terms.{takes_ports, ports_allowed};
ghost use Rattle.words.specs.Cursor.{rest, passed, handed};
ghost use Rattle.ios.specs.Entries.{side_of};
ghost use Rattle.ios.specs.Parsing.{host_of, wildcard_of, closed_by, addresses_of, port_of, range_of, test_of, ports_of};
ghost use Rattle.ios.specs.Shown.{ports_ok};

use crate::family::{Family, Network};
use crate::ports::SidePorts;
use crate::terms::takes;
use acl::refusal::Refusal;
use acl::side::Side;
use acl::terms::{PortTest, Protocol};
use words::part::Stop;
use words::words::Words;

const EVERYWHERE: Network = Network {
    address: 0,
    wildcard: 0xffff_ffff,
};

// The address after `host`.
fn host(words: &mut Words<'_>) -> Result<Network, Stop>
    ensures { handed result (rest words.new) ≡ host_of (rest words.old) }
{
    Ok(Network::host(words.address()?))
}

// The wildcard after an address.
fn wildcard(words: &mut Words<'_>, address: u32) -> Result<Network, Stop>
    ensures { handed result (rest words.new) ≡ wildcard_of address (rest words.old) }
{
    let wildcard = words.address()?;
    Ok(Network { address, wildcard })
}

// Whether the source of a standard line ends here: with the line, or before `log`.
fn closed(words: &Words<'_>) -> bool
    ensures { result ≡ closed_by (rest words.now).words }
{
    words.peek().is_none_or(|word| word.is(b"log"))
}

// The addresses of a side: `any`, `host A` or `A W`. In a standard line, A alone means host A.
pub(crate) fn addresses(words: &mut Words<'_>, family: Family) -> Result<Network, Stop>
    ensures { handed result (rest words.new) ≡ addresses_of family (rest words.old) }
{
    if takes(words, b"any") {
        return Ok(EVERYWHERE);
    }
    if takes(words, b"host") {
        return host(words);
    }
    let address = words.address()?;
    match family {
        Family::Standard if closed(words) => Ok(Network::host(address)),
        _ => wildcard(words, address),
    }
}

// The port after a keyword.
fn port(words: &mut Words<'_>) -> Result<u16, Stop>
    ensures { handed result (rest words.new) ≡ port_of (passed (rest words.old)) }
{
    words.pass();
    words.number(0, u16::MAX)
}

// The two ports after `range`, of which the first may not be above the second.
fn range(words: &mut Words<'_>) -> Result<SidePorts, Stop>
    ensures { handed (ports_ok result) (rest words.new) ≡ range_of (passed (rest words.old)) }
{
    let first = port(words)?;
    let column = words.place();
    let last = words.number(0, u16::MAX)?;
    if first > last {
        return Err(Stop {
            refusal: Refusal::BackwardRange,
            column,
        });
    }
    Ok(SidePorts {
        test: PortTest::Range(first, last),
    })
}

// A port test, or nothing.
fn test(words: &mut Words<'_>) -> Result<SidePorts, Stop>
    ensures { handed (ports_ok result) (rest words.new) ≡ test_of (rest words.old) }
{
    match words.peek() {
        Some(word) if word.is(b"eq") => Ok(SidePorts {
            test: PortTest::Eq(port(words)?),
        }),
        Some(word) if word.is(b"neq") => Ok(SidePorts {
            test: PortTest::Neq(port(words)?),
        }),
        Some(word) if word.is(b"lt") => Ok(SidePorts {
            test: PortTest::Lt(port(words)?),
        }),
        Some(word) if word.is(b"gt") => Ok(SidePorts {
            test: PortTest::Gt(port(words)?),
        }),
        Some(word) if word.is(b"range") => range(words),
        _ => Ok(SidePorts::ANY),
    }
}

fn takes_ports(protocol: Protocol) -> bool
    ensures { result ≡ takes_ports protocol }
{
    matches!(protocol, Protocol::Number(6 | 17))
}

// The port test of a side, which only TCP and UDP take.
pub(crate) fn ports(words: &mut Words<'_>, protocol: Protocol) -> Result<SidePorts, Stop>
    ensures value { handed (ports_ok result) (rest words.new) ≡ ports_of protocol (rest words.old) }
    ensures allowed { IfOk result (λ p. ports_allowed protocol p.test ≡ true) }
{
    if !takes_ports(protocol) {
        return Ok(SidePorts::ANY);
    }
    test(words)
}

// A side of a line, with the address bits under the wildcard cleared.
pub(crate) fn side(network: Network, ports: SidePorts) -> Side
    ensures { side_shape result ≡ side_of network ports.test }
{
    let Network { address, wildcard } = network;
    Side {
        address: address & !wildcard,
        wildcard,
        ports: ports.test,
    }
}
