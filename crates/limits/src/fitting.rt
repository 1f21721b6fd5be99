use crate::common::first_line;
use acl::fitting::first_match;
use acl::header::Header;
use acl::terms::Action;
use std::test::Fail;

// Whether the first line of a text fits a header.
fn fits(text: &[u8], header: Header) -> Result<bool, Fail> {
    Ok(first_line(text)?.fits(header))
}

fn from_source(source: u32) -> Header {
    Header {
        source,
        ..Header::default()
    }
}

fn to_destination(destination: u32) -> Header {
    Header {
        destination,
        ..Header::default()
    }
}

fn of_protocol(protocol: u8) -> Header {
    Header {
        protocol,
        ..Header::default()
    }
}

fn from_port(source_port: u16) -> Header {
    Header {
        source_port,
        ..Header::default()
    }
}

fn to_port(destination_port: u16) -> Header {
    Header {
        destination_port,
        ..Header::default()
    }
}

fn to_tcp_port(destination_port: u16) -> Header {
    Header {
        protocol: 6,
        ..to_port(destination_port)
    }
}

#[test]
fn bits(rt: HostRuntime) {
    let ends = [
        (from_source(0x8000_0000), 0),
        (from_source(1), 31),
        (to_destination(0x8000_0000), 32),
        (to_destination(1), 63),
        (of_protocol(0x80), 64),
        (of_protocol(1), 71),
        (from_port(0x8000), 72),
        (from_port(1), 87),
        (to_port(0x8000), 88),
        (to_port(1), 103),
    ];
    for (header, at) in ends {
        assert!(rt; header.bit(at), "bit {at}");
    }
    let ones = Header {
        source: 0xffff_ffff,
        destination: 0xffff_ffff,
        protocol: 0xff,
        source_port: 0xffff,
        destination_port: 0xffff,
    };
    assert!(rt; !ones.bit(104));
    assert!(rt; !Header::default().bit(0));
}

// A wildcard need not be contiguous: 10.0.0.0 under 0.0.1.0 fits 10.0.1.0, and not 10.0.2.0.
#[test]
fn wildcards(rt: HostRuntime) -> Result<(), Fail> {
    let text = b"access-list 1 permit 10.0.0.0 0.0.1.0";
    let sources = [
        (0x0a00_0000, true),
        (0x0a00_0100, true),
        (0x0a00_0200, false),
        (0x0a00_0001, false),
    ];
    for (source, expected) in sources {
        assert_eq!(rt;
            fits(text, from_source(source))?,
            expected,
            "source {source:x}"
        );
    }
    assert!(rt;
        fits(
            b"access-list 1 permit 1.2.3.4 255.255.255.255",
            from_source(9),
        )?
    );
    Ok(())
}

#[test]
fn ports(rt: HostRuntime) -> Result<(), Fail> {
    let text = b"access-list 100 permit tcp any any range 22 27";
    for (port, expected) in [(21, false), (22, true), (23, true), (27, true), (28, false)] {
        assert_eq!(rt; fits(text, to_tcp_port(port))?, expected, "port {port}");
    }
    let others: [(&[u8], u16, bool); 6] = [
        (b"access-list 100 permit tcp any any lt 0", 0, false),
        (b"access-list 100 permit tcp any any gt 65535", 65535, false),
        (b"access-list 100 permit tcp any any gt 65534", 65535, true),
        (b"access-list 100 permit tcp any any neq 80", 80, false),
        (b"access-list 100 permit tcp any any neq 80", 81, true),
        (b"access-list 100 permit tcp any any eq 80", 81, false),
    ];
    for (text, port, expected) in others {
        assert_eq!(rt; fits(text, to_tcp_port(port))?, expected, "port {port}");
    }
    Ok(())
}

#[test]
fn protocols(rt: HostRuntime) -> Result<(), Fail> {
    let lines: [(&[u8], u8, bool); 4] = [
        (b"access-list 100 permit ip any any", 255, true),
        (b"access-list 100 permit 0 any any", 0, true),
        (b"access-list 100 permit 0 any any", 1, false),
        (b"access-list 100 permit udp any any", 17, true),
    ];
    for (text, protocol, expected) in lines {
        assert_eq!(rt;
            fits(text, of_protocol(protocol))?,
            expected,
            "protocol {protocol}"
        );
    }
    Ok(())
}

// The list has 1,025 lines: first match has no limit.
#[test]
fn long_list(rt: HostRuntime) -> Result<(), Fail> {
    let lines = [first_line(b"access-list 1 deny 0.0.0.9")?; 1025];
    assert_eq!(rt; first_match(&lines, Header::default()), None);
    let decided = first_match(&lines, from_source(9));
    assert_eq!(rt; decided.map(|line| line.action), Some(Action::Deny));
    Ok(())
}
