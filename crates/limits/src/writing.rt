use crate::common::{first_line, read_good};
use acl::line::Line;
use acl::refusal::Refusal;
use ios::outcome::Reading;
use std::process::Abort;
use std::test::Fail;
use writer::write::write;

// A line whose canonical text has 64 bytes, its end included, and one with a byte more.
const LINE_64: &[u8] = b"access-list 100 permit tcp any host 100.100.100.100 eq 1000 log\n";

const LINE_65: &[u8] = b"access-list 100 permit tcp any host 100.100.100.100 eq 10000 log\n";

// Whether a text reads, and is written as this canonical text.
fn writes(rt: &impl Abort, text: &str, canonical: &str) -> Result<(), Fail> {
    let mut memory = [Line::blank(); 4];
    let mut out = [b'~'; 512];
    let Reading { number, count } = read_good(text.as_bytes(), &mut memory)?;
    assert!(rt; count <= 4);
    assert_eq!(rt;
        write(&memory[0..count], number, &mut out),
        Ok(canonical.len())
    );
    assert!(rt; canonical.len() < 512);
    assert!(rt; &out[0..canonical.len()] == canonical.as_bytes());
    assert_eq!(rt; out[canonical.len()], b'~');
    Ok(())
}

// Whether each text of the pairs reads, and is written as the canonical text beside it.
fn all_write(rt: &impl Abort, pairs: &[(&str, &str)]) -> Result<(), Fail> {
    for (text, canonical) in pairs {
        writes(rt, text, canonical)?;
    }
    Ok(())
}

const SIDES: [(&str, &str); 6] = [
    ("access-list 1 permit any", "access-list 1 permit any\n"),
    (
        "access-list 99 deny 1.2.3.4 log",
        "access-list 99 deny host 1.2.3.4 log\n",
    ),
    (
        "access-list 1300 deny 1.2.3.4 0.0.0.0",
        "access-list 1300 deny host 1.2.3.4\n",
    ),
    (
        "access-list 1999 deny 1.2.3.4 255.255.255.255",
        "access-list 1999 deny any\n",
    ),
    (
        "access-list 1 deny 255.255.255.255 0.255.0.255",
        "access-list 1 deny 255.0.255.0 0.255.0.255\n",
    ),
    (
        "access-list 1 deny 0.0.0.0 128.0.0.1",
        "access-list 1 deny 0.0.0.0 128.0.0.1\n",
    ),
];

#[test]
fn sides(rt: HostRuntime) -> Result<(), Fail> {
    all_write(&rt, &SIDES)
}

const PROTOCOLS: [(&str, &str); 8] = [
    (
        "access-list 100 permit ip any any",
        "access-list 100 permit ip any any\n",
    ),
    (
        "access-list 100 permit icmp any any log",
        "access-list 100 permit icmp any any log\n",
    ),
    (
        "access-list 100 permit igmp any any",
        "access-list 100 permit 2 any any\n",
    ),
    (
        "access-list 199 permit 6 any any",
        "access-list 199 permit tcp any any\n",
    ),
    (
        "access-list 2000 permit 17 any any",
        "access-list 2000 permit udp any any\n",
    ),
    (
        "access-list 2699 permit 1 any any",
        "access-list 2699 permit icmp any any\n",
    ),
    (
        "access-list 2699 permit 0 any any",
        "access-list 2699 permit 0 any any\n",
    ),
    (
        "access-list 2699 permit 255 any any",
        "access-list 2699 permit 255 any any\n",
    ),
];

#[test]
fn protocols(rt: HostRuntime) -> Result<(), Fail> {
    all_write(&rt, &PROTOCOLS)
}

const PORTS: [(&str, &str); 5] = [
    (
        "access-list 100 permit tcp any eq 0 any eq 65535",
        "access-list 100 permit tcp any eq 0 any eq 65535\n",
    ),
    (
        "access-list 100 permit tcp any neq 9 any neq 10",
        "access-list 100 permit tcp any neq 9 any neq 10\n",
    ),
    (
        "access-list 100 permit udp any lt 99 any lt 100",
        "access-list 100 permit udp any lt 99 any lt 100\n",
    ),
    (
        "access-list 100 permit udp any gt 999 any gt 1000",
        "access-list 100 permit udp any gt 999 any gt 1000\n",
    ),
    (
        "access-list 100 permit tcp any range 1 1 any range 0 65535",
        "access-list 100 permit tcp any range 1 1 any range 0 65535\n",
    ),
];

#[test]
fn ports(rt: HostRuntime) -> Result<(), Fail> {
    all_write(&rt, &PORTS)
}

#[test]
fn refusals(rt: HostRuntime) -> Result<(), Fail> {
    let mut out = [b'~'; 64];
    let none: [Line; 0] = [];
    assert_eq!(rt; write(&none, 0, &mut out), Err(Refusal::BadNumber));
    assert_eq!(rt; write(&none, 1, &mut out), Ok(0));
    assert_eq!(rt; write(&none, 200, &mut out), Err(Refusal::BadNumber));
    assert_eq!(rt; write(&none, 2700, &mut out), Err(Refusal::BadNumber));
    let one_host = [first_line(b"access-list 100 permit ip any host 1.2.3.4")?];
    assert_eq!(rt; write(&one_host, 1, &mut out), Err(Refusal::NotStandard));
    let protocol_0 = [first_line(b"access-list 100 permit 0 any any")?];
    assert_eq!(rt; write(&protocol_0, 99, &mut out), Err(Refusal::NotStandard));
    assert_eq!(rt; write(&protocol_0, 300, &mut out), Err(Refusal::BadNumber));
    assert_eq!(rt; out[0], b'~');
    Ok(())
}

// Memory that is exactly long enough, and one byte short of it.
#[test]
fn text_memory(rt: HostRuntime) {
    let mut out = [b'~'; 25];
    assert_eq!(rt; write(&[Line::blank()], 1, &mut out), Ok(25));
    assert_eq!(rt; out[24], b'\n');
    let mut out = [b'~'; 24];
    assert_eq!(rt;
        write(&[Line::blank()], 1, &mut out),
        Err(Refusal::ShortMemory)
    );
    assert_eq!(rt; out[0], b'~');
}

#[test]
fn line_count(rt: HostRuntime) -> Result<(), Fail> {
    let lines = [Line::blank(); 1025];
    let mut out = vec![in rt.alloc(); b'~'; 65536]?;
    assert_eq!(rt; write(&lines[0..1024], 1, &mut out), Ok(25600));
    assert_eq!(rt; write(&lines, 1, &mut out), Err(Refusal::TooManyLines));
    assert_eq!(rt; write(&lines, 0, &mut out), Err(Refusal::TooManyLines));
    Ok(())
}

// A text of 65,536 bytes is written, and one of 65,537 is not, though memory has a place for it.
#[test]
fn text_length(rt: HostRuntime) -> Result<(), Fail> {
    let mut lines = [first_line(LINE_64)?; 1024];
    let mut out = vec![in rt.alloc(); b'~'; 65537]?;
    assert_eq!(rt; write(&lines, 100, &mut out), Ok(65536));
    lines[1023] = first_line(LINE_65)?;
    assert_eq!(rt; write(&lines, 100, &mut out), Err(Refusal::TooLong));
    Ok(())
}
